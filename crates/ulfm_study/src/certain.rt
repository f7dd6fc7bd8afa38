//! Which two ranks' lines may show that no trace explains a log, so that it is proved.
use crate::acts::Start;
use crate::study::Study;
use crate::why::Why;
use std::alloc::Allocator;
use ulfm_observed::Seen;

/// Two ranks and a round of the world's communicator, of which their lines may tell what can't stand together.
#[derive(Clone, Copy)]
pub struct Hint {
    /// The rank that was told something.
    pub one: u16,
    /// The rank that was told otherwise, or whose flag lacks a bit of what was told.
    pub other: u16,
    /// The number of the round on the world's communicator, from 0.
    pub round: u16,
}

/// Whose lines may show a reason: two ranks that were told two decisions, or one and a contributor whose flag lacks a bit of its value.
pub fn hint_of<A: Allocator + Copy>(study: &Study<A>, why: Why) -> Option<Hint> {
    match why {
        Why::TwoDecisions { one, other } => pair_of(study, one, other),
        Why::Value { act } => lacking_one(study, act),
        _ => None,
    }
}

/// The ranks of two calls that were answered by one round.
fn pair_of<A: Allocator + Copy>(study: &Study<A>, one: u32, other: u32) -> Option<Hint> {
    let one = study.act(one)?;
    let other = study.act(other)?;
    Some(Hint {
        one: one.rank,
        other: other.rank,
        round: study.agreements.round(one.round as usize).round,
    })
}

/// The rank of a call that was told a value, and a rank that contributed a flag without one of its bits.
fn lacking_one<A: Allocator + Copy>(study: &Study<A>, act: u32) -> Option<Hint> {
    let told = study.act(act)?;
    let Some(
        Seen::Agreed {
            value: Some(value),
            ..
        },
    ) = told.seen
    else {
        return None;
    };
    for rank in 0..study.limits.ranks {
        let Some(given) = study.act(study.agreements.start(told.round, rank as usize)) else {
            continue;
        };
        if given.begins(Start::Agree) && value.bits & given.number != value.bits {
            return Some(Hint {
                one: told.rank,
                other: rank,
                round: study.agreements.round(told.round as usize).round,
            });
        }
    }
    None
}
