// Barriers of a world in one hand, read step by step and at once.
ghost use Rattle.std.specs.Prelude.{◌≡◌, ◌<◌, length};
ghost use Rattle.ulfm_model.specs.History.{first_ranks};
ghost use Rattle.ulfm_words.specs.Steps.{view_of, IsView};

use crate::tests::counted::Counted;
use std::alloc::Allocator;
use std::test::Fail;
use ulfm_laws::flag_and::FlagAnd;
use ulfm_laws::meld::Packed;
use ulfm_model::event::Caller;
use ulfm_model::limits::Limits;
use ulfm_steps::{Arrivals, Missing};
use ulfm_words::{Words, set_arrival};

const FOUR: Limits = Limits {
    ranks: 4,
    comms: 2,
    rounds: 4,
};

// A rank arrives in the world's first barrier round.
fn arrive<P: Packed, A: Allocator, W: Words<P, A>>(words: &W, pass: &mut W::Pass, rank: u16) -> bool
    requires of { IsView P.meld (view_of P.pack (W.name words.now) (W.sight pass.old)) }
    requires there { rank < (W.name words.now).limits.ranks }
    requires rounds { 0 < (W.name words.now).limits.rounds }
    ensures { IsView P.meld (view_of P.pack (W.name words.now) (W.sight pass.new)) }
{
    set_arrival(words, pass, Caller::Rank(rank), 0, 0, rank)
}

// Who is missing in that round, where these ranks are declared: read step by step, or at once.
fn missing<P: Packed, A: Allocator, W: Words<P, A>>(
    words: &W,
    pass: &mut W::Pass,
    group: &[u16],
    declared: &[u16],
    whole: bool,
) -> Missing
    requires of { IsView P.meld (view_of P.pack (W.name words.now) (W.sight pass.old)) }
    requires group { group.now ≡ first_ranks (W.name words.now).limits.ranks }
    requires some { 0 < length group.now }
    requires rounds { 0 < (W.name words.now).limits.rounds }
    ensures { IsView P.meld (view_of P.pack (W.name words.now) (W.sight pass.new)) }
{
    let mut arrivals = Arrivals::new(0, 0, group, declared);
    loop {
        if let Some(missing) = arrivals.advance(words, pass, group, declared, whole) {
            return missing;
        }
    }
}

#[test]
fn declared_members_are_read_first(rt: HostRuntime) -> Result<(), Fail> {
    for whole in [false, true] {
        let words = Counted::<FlagAnd>::open(FOUR)?;
        let mut pass = words.pass(rt.alloc())?;
        let (group, declared) = ([0, 1, 2, 3], [2, 9, 0]);
        assert!(rt; missing(&words, &mut pass, &group, &declared, whole) == Missing::Declared);
        // The place of rank 2 alone.
        assert_eq!(rt; pass.loads, 1);
        assert!(rt; arrive(&words, &mut pass, 2) && arrive(&words, &mut pass, 0));
        assert!(rt; missing(&words, &mut pass, &group, &declared, whole) == Missing::Others);
        // Those of ranks 2, 0 and 1; the world has no rank 9.
        assert_eq!(rt; pass.loads, 4);
        assert!(rt; arrive(&words, &mut pass, 1));
        assert!(rt; missing(&words, &mut pass, &group, &declared, whole) == Missing::Others);
        assert_eq!(rt; pass.loads, 8);
        assert!(rt; arrive(&words, &mut pass, 3));
        assert!(rt; missing(&words, &mut pass, &group, &declared, whole) == Missing::Nobody);
        assert_eq!(rt; pass.loads, 12);
    }
    Ok(())
}

#[test]
fn all_may_be_declared(rt: HostRuntime) -> Result<(), Fail> {
    for whole in [false, true] {
        let words = Counted::<FlagAnd>::open(FOUR)?;
        let mut pass = words.pass(rt.alloc())?;
        let (group, declared) = ([0, 1, 2, 3], [3, 2, 1, 0]);
        assert!(rt; arrive(&words, &mut pass, 0) && arrive(&words, &mut pass, 1));
        assert!(rt; arrive(&words, &mut pass, 2));
        assert!(rt; missing(&words, &mut pass, &group, &declared, whole) == Missing::Declared);
        assert_eq!(rt; pass.loads, 1);
        assert!(rt; arrive(&words, &mut pass, 3));
        let end = missing(&words, &mut pass, &group, &declared, whole);
        assert_eq!(rt; (end, pass.loads), (Missing::Nobody, 5));
    }
    Ok(())
}
