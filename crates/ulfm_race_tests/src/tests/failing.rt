// Races in which a rank is declared failed.
use crate::tests::free::Free;
use std::process::Abort;
use std::test::Fail;
use ulfm_laws::flag_and::FlagAnd;
use ulfm_model::reply::Reply;
use ulfm_race::{Outcome, Plan, race};

const PLAN: Plan = Plan {
    ranks: 4,
    rounds: 20,
    fail: Some(2),
};

/// The bits of a rank's flag in a round.
fn bits(rank: u32, round: u32) -> u64 {
    u64::from(!(1u32 << ((rank % 32 + round % 32) % 32)))
}

/// The flags of ranks 0, 1 and 3 in a round, combined.
fn without_two(round: u32) -> u64 {
    bits(0, round) & bits(1, round) & bits(3, round)
}

/// Whether a round of the race may be answered so, and whether rank 2 is left out of it.
fn agreed(reply: Reply<FlagAnd>, round: u32) -> Option<bool> {
    let some = without_two(round);
    let all = some & bits(2, round);
    let Reply::Agreed {
        value,
        failed,
        raised,
    } = reply
    else {
        return None;
    };
    match (failed, raised) {
        (0, false) if value.bits == all => Some(false),
        (1, true) if value.bits == all || value.bits == some => Some(true),
        _ => None,
    }
}

/// Whether ranks 0, 1 and 3 have one reply, and what it is.
fn one_reply(outcome: &Outcome, round: usize) -> Option<Reply<FlagAnd>> {
    let first = *outcome.replies.get(0)?.get(round)?;
    let second = *outcome.replies.get(1)?.get(round)?;
    let last = *outcome.replies.get(3)?.get(round)?;
    if first == second && first == last {
        Some(first)
    } else {
        None
    }
}

/// Whether all rounds may be answered so, and whether rank 2 is left out at last.
fn rounds(outcome: &Outcome) -> Option<bool> {
    let mut left_out = false;
    for round in 0..20u16 {
        let reply = one_reply(outcome, usize::from(round))?;
        let now = agreed(reply, u32::from(round))?;
        if left_out && !now {
            return None;
        }
        left_out = now;
    }
    Some(left_out)
}

/// Whether the last reply and the group fit the rounds.
fn ends(outcome: &Outcome, left_out: bool) -> bool {
    let group = outcome.group.as_slice();
    match one_reply(outcome, 20) {
        Some(
            Reply::Shrunk {
                comm: 1,
                context: 1,
                size: 4,
            },
        ) => !left_out && group == [0, 1, 2, 3].as_slice(),
        Some(
            Reply::Shrunk {
                comm: 1,
                context: 1,
                size: 3,
            },
        ) => group == [0, 1, 3].as_slice(),
        _ => false,
    }
}

/// Whether an outcome is one of this plan.
fn check(rt: &impl Abort, outcome: &Outcome) {
    assert_eq!(rt; outcome.replies.len(), 4);
    match rounds(outcome) {
        Some(left_out) => assert!(rt; ends(outcome, left_out)),
        None => assert!(rt; false, "a round was answered otherwise"),
    }
}

#[test]
fn race_with_failure(rt: HostRuntime) -> Result<(), Fail> {
    for _ in 0..50 {
        let outcome = race(&rt, rt.alloc(), PLAN, &Free)?;
        check(&rt, &outcome);
    }
    Ok(())
}
