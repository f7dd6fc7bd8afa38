// Reading on in the failures of a world in one hand, step by step and at once.
ghost use Rattle.std.specs.Prelude.{◌≡◌, ◌<◌, ◌≤◌, filter, length, vec_capacity};
ghost use Rattle.std.specs.List.Sorted.{IsStrictlyIncreasing};
ghost use mathlib.Core.List.{IsPrefix};
ghost use Rattle.ulfm_model.specs.History.{failures, has};
ghost use Rattle.ulfm_words.specs.Steps.{view_of, IsView};

use crate::tests::counted::Counted;
use crate::tests::world::declare;
use std::alloc::Allocator;
use std::test::Fail;
use ulfm_laws::flag_and::FlagAnd;
use ulfm_laws::meld::Packed;
use ulfm_model::limits::Limits;
use ulfm_steps::group::is_member;
use ulfm_steps::{Look, ReadOn};
use ulfm_words::Words;

const SIX: Limits = Limits {
    ranks: 6,
    comms: 1,
    rounds: 1,
};

// How many of these ranks are in the group.
fn count_in(group: &[u16], ranks: &[u16]) -> usize
    requires { IsStrictlyIncreasing group.now }
    ensures { result ≡ length (filter (has group.now) ranks.now) }
{
    ranks.iter().filter(|rank| is_member(group, **rank)).count()
}

// Reads on until so many members are among the failures that were seen, if so many have failed: how far that reaches. Who
// has failed is found by a look, in a vector of its own.
fn read<P: Packed, A: Allocator, W: Words<P, A>, B: Allocator>(
    words: &W,
    pass: &mut W::Pass,
    group: &[u16],
    asked: u16,
    found: &mut Vec<u16, B>,
    seen: &mut Vec<u16, B>,
    whole: bool,
) -> usize
    requires of { IsView P.meld (view_of P.pack (W.name words.now) (W.sight pass.old)) }
    requires rises { IsStrictlyIncreasing group.now }
    requires begins { IsPrefix seen.old.items (failures (W.sight pass.old).seen) }
    requires found { (W.name words.now).limits.ranks ≤ vec_capacity found.old }
    requires seen { (W.name words.now).limits.ranks ≤ vec_capacity seen.old }
    ensures of { IsView P.meld (view_of P.pack (W.name words.now) (W.sight pass.new)) }
    ensures begins { IsPrefix seen.new.items (failures (W.sight pass.new).seen) }
    ensures found { vec_capacity found.old ≤ vec_capacity found.new }
    ensures seen { vec_capacity seen.old ≤ vec_capacity seen.new }
{
    Look::new(found).finish(words, pass, found);
    if count_in(group, found) < asked as usize {
        return 0;
    }
    let mut on = ReadOn::new(group, asked, seen);
    while !on.is_done(asked) {
        on.advance(words, pass, group, asked, seen, whole);
    }
    on.reach
}

#[test]
fn strangers_are_passed_by(rt: HostRuntime) -> Result<(), Fail> {
    for whole in [false, true] {
        let words = Counted::<FlagAnd>::open(SIX)?;
        let mut pass = words.pass(rt.alloc())?;
        let mut found = Vec::with_capacity(rt.alloc(), 6)?;
        let mut seen = Vec::with_capacity(rt.alloc(), 6)?;
        let group = [0, 2, 4, 5];
        declare(&words, &mut pass, 3);
        declare(&words, &mut pass, 2);
        declare(&words, &mut pass, 1);
        declare(&words, &mut pass, 4);
        pass.loads = 0;
        assert_eq!(rt;
            read(&words, &mut pass, &group, 1, &mut found, &mut seen, whole),
            2
        );
        // The look's five places, and two more.
        assert_eq!(rt; pass.loads, 7);
        assert_eq!(rt; seen.as_slice(), [3, 2].as_slice());
        assert_eq!(rt;
            read(&words, &mut pass, &group, 2, &mut found, &mut seen, whole),
            4
        );
        assert_eq!(rt; pass.loads, 14);
        assert_eq!(rt; seen.as_slice(), [3, 2, 1, 4].as_slice());
        // Both are among what was seen, and one is in its first half.
        assert_eq!(rt;
            read(&words, &mut pass, &group, 2, &mut found, &mut seen, whole),
            4
        );
        assert_eq!(rt;
            read(&words, &mut pass, &group, 1, &mut found, &mut seen, whole),
            2
        );
        assert_eq!(rt; pass.loads, 24);
        assert_eq!(rt; seen.len(), 4);
    }
    Ok(())
}
