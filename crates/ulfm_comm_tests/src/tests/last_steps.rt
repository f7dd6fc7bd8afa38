// How many steps a rank's last call made: of whole calls, and of calls that are taken step by step.

use crate::tests::calls::apply;
use crate::tests::last_steps::Move::{Agree, Declare, Get, Poll};
use crate::tests::play::{Play, Verb, call_of};
use std::alloc::Global;
use std::process::Abort;
use std::test::Fail;
use ulfm_laws::flag_and::FlagAnd;
use ulfm_model::call::Call;
use ulfm_model::limits::Limits;
use ulfm_model::reply::Reply;
use ulfm_run::Job;
use ulfm_words::PlainWords;

/// A move, and how many steps the rank's last call has made then.
#[derive(Clone, Copy, Debug)]
enum Move {
    /// The outside declares a rank, which wasn't declared before.
    Declare(u16),
    /// A rank asks for the failed group.
    Get(u16, u32),
    /// It contributes to its next round.
    Agree(u16, u32),
    /// It polls.
    Poll(u16, u32),
}

// The rank of a move, what it asks, and how many steps that is to take.
fn asked_of(made: Move) -> Option<(u16, Verb<FlagAnd>, u32)> {
    match made {
        Declare(_) => None,
        Get(rank, steps) => Some((rank, Verb::Get, steps)),
        Agree(rank, steps) => Some((rank, Verb::Agree(FlagAnd { bits: 0x3 }), steps)),
        Poll(rank, steps) => Some((rank, Verb::Poll, steps)),
    }
}

fn limits(ranks: u16, comms: u16) -> Limits {
    Limits {
        ranks,
        comms,
        rounds: 4,
    }
}

// By whole calls.
fn whole(rt: &impl Abort, alloc: Global, ranks: u16, moves: &[Move]) -> Result<(), Fail> {
    let mut job = Job::open(alloc, PlainWords::<FlagAnd>::open(limits(ranks, 1))?)?;
    let mut group = Vec::new(alloc);
    for made in moves {
        if let Declare(rank) = *made {
            let reply = apply(&mut job, &Call::Fail { rank }, &mut group)?;
            assert!(rt; reply == Reply::Declared);
        }
        if let Some((rank, verb, steps)) = asked_of(*made) {
            apply(&mut job, &call_of(rank, 0, verb), &mut group)?;
            assert!(rt; job.rank(rank).map(|own| own.last_steps()) == Some(steps));
        }
    }
    Ok(())
}

// Step by step: before the reply the count is that of the call before.
fn stepped(rt: &impl Abort, alloc: Global, ranks: u16, moves: &[Move]) -> Result<(), Fail> {
    let mut play = Play::open(alloc, PlainWords::<FlagAnd>::open(limits(ranks, 1))?)?;
    for made in moves {
        if let Declare(rank) = *made {
            assert!(rt; play.fail(rank) == Ok(true));
        }
        if let Some((rank, verb, steps)) = asked_of(*made) {
            let before = play.last_steps(rank);
            assert!(rt; play.begin(rank, 0, verb));
            for _ in 1..steps {
                assert!(rt; play.step(rank).is_none());
                assert!(rt; play.last_steps(rank) == before);
            }
            assert!(rt; play.step(rank).is_some());
            assert!(rt; play.last_steps(rank) == Some(steps));
        }
    }
    Ok(())
}

// Worlds of so many ranks, whether single steps count as whole calls do, and what happens: one rank looks; polls of two blocks; polls behind
// marks; polls of a single block; polls that wait, in a world of one block and in one of two. A whole poll that is pending remembers at whom
// it ended: the next one loads that place first, once. One that is taken step by step reads in order. Where a member is to be marked, the poll
// reads in order behind its mark.
const COUNTED: [(u16, bool, &[Move]); 6] = [
    (3, true, &[Get(0, 1), Declare(2), Get(0, 2), Get(0, 1)]),
    (
        3,
        true,
        &[
            Agree(0, 3),
            Agree(1, 3),
            Agree(2, 3),
            Poll(0, 15),
            Poll(1, 5),
        ],
    ),
    (
        3,
        true,
        &[
            Declare(2),
            Agree(0, 4),
            Agree(1, 4),
            Poll(0, 15),
            Poll(1, 5),
        ],
    ),
    (
        4,
        true,
        &[
            Agree(0, 3),
            Agree(1, 3),
            Agree(2, 3),
            Agree(3, 3),
            Poll(0, 12),
            Poll(1, 3),
        ],
    ),
    (
        4,
        false,
        &[
            Agree(0, 3),
            Poll(0, 5),
            Poll(0, 3),
            Agree(2, 3),
            Poll(0, 3),
            Agree(1, 3),
            Poll(0, 10),
            Poll(0, 3),
            Agree(3, 3),
            Poll(0, 13),
            Agree(0, 3),
            Poll(0, 5),
            Declare(3),
            Poll(0, 7),
            Poll(0, 6),
        ],
    ),
    (
        3,
        false,
        &[
            Agree(0, 3),
            Agree(1, 3),
            Poll(0, 12),
            Poll(0, 5),
            Poll(1, 7),
            Poll(1, 5),
            Agree(2, 3),
            Poll(0, 11),
            Poll(1, 5),
        ],
    ),
];

#[test]
fn calls_are_counted(rt: HostRuntime) -> Result<(), Fail> {
    for (ranks, alike, moves) in COUNTED {
        whole(&rt, rt.alloc(), ranks, moves)?;
        if alike {
            stepped(&rt, rt.alloc(), ranks, moves)?;
        }
    }
    Ok(())
}

// Shrinks by the only rank of a world in which five communicators may be, one after the other: the parent, and how many steps the poll makes,
// whole and step by step. Six are those of the look and of the round; behind them the list of communicators is read, a whole poll from behind
// the parent's place, and an exchange puts the new one there. The last finds the list full.
const SHRINKS: [(u16, u32, u32); 5] = [(0, 8, 8), (1, 8, 9), (2, 8, 10), (0, 11, 11), (4, 7, 10)];

#[test]
fn whole_shrinks_read_behind_their_parents(rt: HostRuntime) -> Result<(), Fail> {
    let mut job = Job::open(rt.alloc(), PlainWords::<FlagAnd>::open(limits(1, 5))?)?;
    let mut group = Vec::new(rt.alloc());
    for (parent, steps, _) in SHRINKS {
        apply(&mut job, &call_of(0, parent, Verb::Shrink), &mut group)?;
        apply(&mut job, &call_of(0, parent, Verb::Poll), &mut group)?;
        assert!(rt; job.rank(0).map(|own| own.last_steps()) == Some(steps));
    }
    Ok(())
}

#[test]
fn single_steps_of_shrinks_read_from_the_first_place(rt: HostRuntime) -> Result<(), Fail> {
    let mut play = Play::open(rt.alloc(), PlainWords::<FlagAnd>::open(limits(1, 5))?)?;
    for (parent, _, steps) in SHRINKS {
        assert!(rt; play.begin(0, parent, Verb::Shrink));
        while play.step(0).is_none() {}
        assert!(rt; play.begin(0, parent, Verb::Poll));
        while play.step(0).is_none() {}
        assert!(rt; play.last_steps(0) == Some(steps));
    }
    Ok(())
}

#[test]
fn others_steps_are_not_counted(rt: HostRuntime) -> Result<(), Fail> {
    let mut play = Play::open(rt.alloc(), PlainWords::<FlagAnd>::open(limits(3, 1))?)?;
    assert!(rt; play.last_steps(0) == Some(0));
    assert!(rt; play.begin(0, 0, Verb::Standing));
    assert!(rt; play.step(0).is_none());
    // A whole call by another, with a look and an exchange.
    assert!(rt; play.revoke(1, 0) == Some(Ok(true)));
    assert!(rt; play.last_steps(1) == Some(2));
    assert!(rt; play.last_steps(0) == Some(0));
    assert!(rt; play.step(0) == Some(Reply::Standing { revoked: true }));
    assert!(rt; play.last_steps(0) == Some(2));
    // A rank that is refused for good makes no step.
    assert!(rt; play.fail(0) == Ok(true));
    assert!(rt; play.revoke(0, 0).is_some());
    assert!(rt; play.last_steps(0) == Some(2));
    assert!(rt; play.revoke(0, 0).is_some());
    assert!(rt; play.last_steps(0) == Some(0));
    assert!(rt; play.revoke(1, 0) == Some(Ok(false)));
    assert!(rt; play.begin(0, 0, Verb::Get));
    assert!(rt; play.step(0).is_some());
    assert!(rt; play.last_steps(0) == Some(0));
    Ok(())
}
