// The machines, each run to its end at once.
ghost use Rattle.std.specs.Prelude.{IfOk, ◌≡◌, ◌<◌, ◌≤◌, vec_capacity};
ghost use Rattle.ulfm_model.specs.History.{first_ranks};
ghost use Rattle.ulfm_words.specs.Pass.{plain_name};
ghost use Rattle.ulfm_words.specs.Steps.{view_of, IsView};

use crate::tests::counted::{Counted, CountedPass};
use crate::tests::world::{GROUP, THREE, declare, flag};
use std::alloc::Allocator;
use std::test::Fail;
use ulfm_intruder::{Intruder, ReadRound};
use ulfm_laws::flag_and::FlagAnd;
use ulfm_laws::meld::Packed;
use ulfm_laws::summary::{Acked, Body, Known, Summary};
use ulfm_model::contribution::{Contribution, Offer};
use ulfm_model::event::{Caller, Entry, Event};
use ulfm_model::limits::OpenFault;
use ulfm_steps::{Appended, Look, MarkAll, Settle};
use ulfm_words::{OpenWords, PlainWords, Words};

// A rank, which knows of no failure, contributes a flag to the world's first round.
pub(crate) fn give<P: Packed, A: Allocator + Copy + Drop>(
    words: &Counted<P>,
    pass: &mut CountedPass<P, A>,
    rank: u16,
    flag: P,
) -> bool
    requires of { IsView P.meld (view_of P.pack (plain_name words.now.plain.limits) pass.old.plain) }
    requires there { rank < words.now.plain.limits.ranks }
    requires rounds { 0 < words.now.plain.limits.rounds }
    ensures { IsView P.meld (view_of P.pack (plain_name words.now.plain.limits) pass.new.plain) }
{
    let given = Contribution {
        offer: Offer::Flag(flag),
        known: Known { count: 0 },
        acked: Acked { count: 0 },
    };
    let (comm, round) = (0, 0);
    let settle = Settle {
        comm,
        round,
        rank,
        given,
    };
    settle.spread(words, pass) && settle.step(words, pass).is_ok()
}

// What rank 0's poll of that round does: it looks, marks and reads.
fn poll<P: Packed, A: Allocator, W: Words<P, A>, B: Allocator>(
    words: &W,
    pass: &mut W::Pass,
    group: &[u16],
    found: &mut Vec<u16, B>,
) -> Option<Summary<P>>
    requires of { IsView P.meld (view_of P.pack (W.name words.now) (W.sight pass.old)) }
    requires group { group.now ≡ first_ranks (W.name words.now).limits.ranks }
    requires rounds { 0 < (W.name words.now).limits.rounds }
    requires room { (W.name words.now).limits.ranks ≤ vec_capacity found.old }
    ensures of { IsView P.meld (view_of P.pack (W.name words.now) (W.sight pass.new)) }
    ensures room { vec_capacity found.old ≤ vec_capacity found.new }
{
    Look::new(found).finish(words, pass, found);
    MarkAll::new(0, 0, 0, group, found).finish(words, pass, group, found);
    ReadRound::new(0, 0).finish(words, pass, group)
}

#[test]
fn declared_once(rt: HostRuntime) -> Result<(), Fail> {
    let words = PlainWords::<FlagAnd>::open(THREE)?;
    let mut pass = words.pass(rt.alloc())?;
    assert!(rt; declare(&words, &mut pass, 2) == Appended::Won(0));
    assert!(rt; declare(&words, &mut pass, 0) == Appended::Won(1));
    assert!(rt; declare(&words, &mut pass, 2) == Appended::Found(0));
    Ok(())
}

// Words of three ranks, of which this one is declared by others where the test says.
fn beside_a_failure(rank: u16) -> Result<Intruder<FlagAnd>, OpenFault>
    requires { rank < 3 }
    ensures { IfOk result (λ words. words.plain.limits.ranks ≡ 3) }
{
    let plain = PlainWords::<FlagAnd>::open(THREE)?;
    let guest = Entry {
        by: Caller::Outside,
        event: Event::Fail { rank },
    };
    Ok(Intruder {
        plain,
        guest,
        wait: None,
    })
}

#[test]
fn anothers_failure_comes_first(rt: HostRuntime) -> Result<(), Fail> {
    let words = beside_a_failure(1)?;
    let mut pass = words.pass(rt.alloc())?;
    // Just before the exchange, which is the second step.
    pass.wait(1);
    assert!(rt; declare(&words, &mut pass, 1) == Appended::Found(0));
    Ok(())
}

#[test]
fn look_finds_what_came(rt: HostRuntime) -> Result<(), Fail> {
    let words = beside_a_failure(2)?;
    let mut pass = words.pass(rt.alloc())?;
    let mut found = Vec::with_capacity(rt.alloc(), 3)?;
    pass.wait(0);
    Look::new(&mut found).finish(&words, &mut pass, &mut found);
    assert_eq!(rt; found.as_slice(), [2].as_slice());
    Ok(())
}

#[test]
fn steps_over_own_words(rt: HostRuntime) -> Result<(), Fail> {
    let words = Counted::<FlagAnd>::open(THREE)?;
    let mut pass = words.pass(rt.alloc())?;
    let mut found = Vec::with_capacity(rt.alloc(), 3)?;
    assert!(rt; give(&words, &mut pass, 0, flag(0xa_0000_000f)));
    assert!(rt; poll(&words, &mut pass, &GROUP, &mut found).is_none());
    // One load of the list, then the places of ranks 0 and 1.
    assert_eq!(rt; (pass.loads, pass.exchanges), (3, 1));
    // The wing of rank 0, which it had set before its place.
    assert_eq!(rt; (pass.wing_loads, pass.spreads), (1, 1));
    assert!(rt; give(&words, &mut pass, 1, flag(0x6_0000_003c)));
    assert!(rt; declare(&words, &mut pass, 2) == Appended::Won(0));
    assert_eq!(rt; (pass.loads, pass.exchanges), (4, 3));
    let all = poll(&words, &mut pass, &GROUP, &mut found);
    // Two loads of the list, the mark of rank 2, and the places of all.
    assert_eq!(rt; (pass.loads, pass.exchanges), (9, 4));
    // Rank 2 has a mark, which has no wing.
    assert_eq!(rt; (pass.wing_loads, pass.spreads), (3, 2));
    let agreed = Summary {
        body: Body::Flag(FlagAnd {
            bits: 0x2_0000_000c,
        }),
        known: Known { count: 1 },
        acked: Acked { count: 0 },
    };
    assert!(rt; all == Some(agreed));
    Ok(())
}

#[test]
fn a_rank_contributes_once(rt: HostRuntime) -> Result<(), Fail> {
    let words = Counted::<FlagAnd>::open(THREE)?;
    let mut pass = words.pass(rt.alloc())?;
    let gives = give(&words, &mut pass, 0, flag(0xf));
    // Its wing is set, and nothing is tried beside that.
    let again = give(&words, &mut pass, 0, flag(0xf));
    assert!(rt; gives && !again);
    assert_eq!(rt; (pass.spreads, pass.exchanges), (2, 1));
    Ok(())
}
