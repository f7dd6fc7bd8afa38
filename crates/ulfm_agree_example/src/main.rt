//! Four ranks agree on a flag, each in a thread of its own, while a fifth thread declares rank 3 failed.
//!
//! The flags of ranks 0 to 2 lack a bit each, and that of rank 3 lacks none. So the value is the same whether rank 3
//! contributes before it is declared, after it, or not at all. The failed group and the error may differ from run to run,
//! but never between those who get a reply; and only rank 3 may be refused.
#![tactic(auto)]

use std::alloc::AllocError;
use std::sync::Wait;
use std::thread::{self, Threads, join};
use vukrasp::{FlagAnd, Limits, Member, Polled, Refusal};

type Reply = Result<Polled<FlagAnd>, Refusal>;

/// The flag of a rank: of the four lowest bits, ranks 0 to 2 lack that of their number.
fn flag(rank: u16) -> FlagAnd {
    let bits = match rank {
        0 => 0b1110,
        1 => 0b1101,
        2 => 0b1011,
        _ => 0b1111,
    };
    FlagAnd { bits }
}

/// Each member agrees, in a thread of its own: the replies, in order.
fn agree_all<R: Threads + Wait + Sync>(rt: &R, all: Vec<Member>) -> Result<Vec<Reply>, AllocError> {
    thread::map_vec(
        rt,
        all,
        &|mut member| {
            let value = flag(member.number());
            vukrasp::agree(rt, &mut member, 0, value)
        },
    )
}

/// Whether all have the first one's reply, but that rank 3 may be refused in place of one.
fn is_one_reply(replies: &[Reply]) -> bool {
    let Some(first) = replies.first() else {
        return false;
    };
    let refused = Err(Refusal::SelfFailed);
    replies.iter().enumerate().all(|(rank, reply)| reply == first || rank == 3 && *reply == refused)
}

fn main(rt: HostRuntime) -> anyhow::Result<()> {
    let limits = Limits {
        ranks: 4,
        comms: 1,
        rounds: 2,
    };
    let (mut outside, members) = vukrasp::open(rt.alloc(), limits)?;
    let (replies, declared) = join(&rt, || agree_all(&rt, members), move || outside.fail(3));
    let (replies, declared) = (replies?, declared?);
    match replies.first() {
        Some(Ok(Polled::Agreed { value, .. })) if declared && is_one_reply(&replies) => {
            println!(rt; "ranks 0, 1 and 2 agreed on {:04b}", value.bits)?;
            println!(rt; "rank 3 was declared failed, and got the same reply or none")?;
        }
        _ => println!(rt; "no one reply: {replies:?}, {declared}")?,
    }
    Ok(())
}
