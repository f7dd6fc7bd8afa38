//! Five ranks work, two of them stop one after the other, and the others recover in a loop, each rank in a thread of its own.
//!
//! Rank 4 stops before it has contributed anything. The others' agree ends when it is declared failed, and raises an error at all of
//! them alike. They acknowledge the failure, revoke the communicator, shrink it, and agree on the new one. There rank 3 stops: the agree
//! raises an error again, and so they go round once more, until an agree is clean. Each line that is printed is the same however the
//! threads are scheduled.
#![tactic(auto)]

use std::alloc::{AllocError, Global};
use std::io;
use std::sync::Wait;
use std::thread::{self, Threads};
use vukrasp::{FlagAnd, Limits, Member, Polled, Refusal};

/// Five ranks, three communicators to be made, and rounds for an agree and a shrink on each.
const LIMITS: Limits = Limits {
    ranks: 5,
    comms: 4,
    rounds: 2,
};

/// The communicator of all ranks.
const WORLD: u16 = 0;

/// What a rank saw on its way.
#[derive(Drop)]
struct Way {
    /// What the agree on each communicator gave, from that of all ranks on.
    agreed: Vec<Polled<FlagAnd>>,
    /// The communicator on which the rank goes on; none where it stopped.
    comm: Option<u16>,
}

/// The flag of a rank: the five lowest bits without that of its number.
fn flag(rank: u16) -> FlagAnd {
    let own = 1u64 << (u32::from(rank) % 64);
    FlagAnd {
        bits: 0b11111 & !own,
    }
}

/// The communicator on which a rank stops, if it does.
fn stops_on(rank: u16) -> Option<u16> {
    match rank {
        4 => Some(0),
        3 => Some(1),
        _ => None,
    }
}

/// Acknowledges the failures that the rank has seen.
fn acknowledge(member: &mut Member, comm: u16) -> Result<u16, Refusal> {
    let count = u16::try_from(member.failures().len()).unwrap_or(u16::MAX);
    member.ack_failed(comm, count)
}

/// The communicator that a shrink makes.
fn shrink<R: Wait>(rt: &R, member: &mut Member, comm: u16) -> Result<u16, Refusal> {
    match vukrasp::shrink(rt, member, comm)? {
        Polled::Shrunk { comm, .. } => Ok(comm),
        _ => Err(Refusal::NoSuchComm),
    }
}

/// Agrees on one communicator after the other, until an agree is clean. All survivors go the same way: whether they go on is decided by the
/// agree, whose reply is the same for all of them.
fn recover<R: Wait>(rt: &R, alloc: Global, member: &mut Member) -> anyhow::Result<Way> {
    let rank = member.number();
    let mut agreed = Vec::with_capacity(alloc, usize::from(LIMITS.comms))?;
    let mut comm = WORLD;
    for _ in 0..LIMITS.comms {
        if stops_on(rank) == Some(comm) {
            // its process ends; whoever notices it declares the rank, here its own thread
            member.fail(rank)?;
            return Ok(Way { agreed, comm: None });
        }
        let reply = vukrasp::agree(rt, member, comm, flag(rank))?;
        agreed.push(reply)?;
        if let Polled::Agreed { raised: false, .. } = reply {
            return Ok(Way {
                agreed,
                comm: Some(comm),
            });
        }
        acknowledge(member, comm)?;
        // whoever is in a barrier on it leaves that
        member.revoke(comm)?;
        comm = shrink(rt, member, comm)?;
    }
    Ok(Way { agreed, comm: None })
}

/// Each recovers, in a thread of its own: its way, and its member again.
fn recover_all<R: Threads + Wait + Sync>(
    rt: &R,
    alloc: Global,
    all: Vec<Member>,
) -> Result<Vec<(anyhow::Result<Way>, Member)>, AllocError> {
    thread::map_vec(
        rt,
        all,
        &|mut member| (recover(rt, alloc, &mut member), member),
    )
}

fn print_reply<R: Print>(rt: &R, reply: &Polled<FlagAnd>) -> io::Result<()> {
    let Polled::Agreed {
        value,
        failed,
        raised,
    } = reply
    else {
        return println!(rt; "  another reply");
    };
    let error = if *raised { "raised" } else { "clean" };
    println!(rt; "  agreed {:05b} failed {failed} {error}", value.bits)
}

fn print_way<R: Print>(rt: &R, member: &Member, way: &Way) -> io::Result<()> {
    for reply in &way.agreed {
        print_reply(rt, reply)?;
    }
    match way.comm {
        Some(comm) => println!(rt;
            "  goes on with communicator {comm}, members {:?}",
            member.members(comm)
        ),
        None => println!(rt; "  stops"),
    }
}

fn main(rt: HostRuntime) -> anyhow::Result<()> {
    let alloc = rt.alloc();
    let (_outside, members) = vukrasp::open(alloc, LIMITS)?;
    let ways = recover_all(&rt, alloc, members)?;
    for (way, member) in &ways {
        println!(rt; "rank {}", member.number())?;
        match way {
            Ok(way) => print_way(&rt, member, way)?,
            Err(error) => println!(rt; "  refused {error}")?,
        }
    }
    Ok(())
}
