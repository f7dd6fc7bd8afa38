//! Four ranks work, one of them stops, and the others recover, each rank in a thread of its own.
//!
//! All four agree. Then rank 3 stops without a word, and the others wait for it in their next agree until a failure
//! detector, in a thread beside theirs, declares it failed. That agree raises an error at all three alike, since nobody
//! had acknowledged the failure. They ask who has failed, acknowledge it, and agree again, without an error. They revoke the
//! communicator, shrink it, go on with the new one, and give that back. Each line that is printed is the same however
//! the threads are scheduled.
#![tactic(auto)]

use std::alloc::{AllocError, Global};
use std::io;
use std::sync::Wait;
use std::thread::{self, Threads, join};
use vukrasp::{FlagAnd, Limits, Member, Polled, Refusal};

type Reply = Result<Polled<FlagAnd>, Refusal>;

/// Four ranks, one communicator to be made, and rounds for three agrees and a shrink.
const LIMITS: Limits = Limits {
    ranks: 4,
    comms: 2,
    rounds: 4,
};

/// The communicator of all ranks, and the first that is made.
const WORLD: u16 = 0;

const MADE: u16 = 1;

/// What a survivor saw on its way, in the order of its calls.
#[derive(Drop)]
struct Recovery {
    /// The agree that met the failure.
    met: Polled<FlagAnd>,
    /// Who has failed.
    failed: Vec<u16>,
    /// How many failures are acknowledged.
    acknowledged: u16,
    /// The agree after all had acknowledged.
    settled: Polled<FlagAnd>,
    /// Whether the communicator is revoked.
    is_revoked: bool,
    /// The new communicator.
    shrunk: Polled<FlagAnd>,
}

/// The flag of a rank: the four lowest bits without that of its number.
fn flag(rank: u16) -> FlagAnd {
    let own = 1u64 << (u32::from(rank) % 64);
    FlagAnd {
        bits: 0b1111 & !own,
    }
}

/// Agrees on the rank's flag.
fn agree<R: Wait>(rt: &R, member: &mut Member, comm: u16) -> Reply {
    let value = flag(member.number());
    vukrasp::agree(rt, member, comm, value)
}

/// A survivor's way from the agree that meets the failure to the new communicator.
fn recover<R: Wait>(rt: &R, alloc: Global, member: &mut Member) -> Result<Recovery, Refusal> {
    let met = agree(rt, member, WORLD)?;
    let mut failed = Vec::new(alloc);
    member.get_failed(WORLD, &mut failed)?;
    // Those that it has seen, and no others.
    let count = u16::try_from(failed.len()).unwrap_or(u16::MAX);
    let acknowledged = member.ack_failed(WORLD, count)?;
    let settled = agree(rt, member, WORLD)?;
    member.revoke(WORLD)?;
    let is_revoked = member.is_revoked(WORLD)?;
    let shrunk = vukrasp::shrink(rt, member, WORLD)?;
    Ok(Recovery {
        met,
        failed,
        acknowledged,
        settled,
        is_revoked,
        shrunk,
    })
}

/// A survivor goes on with the new communicator, and gives it back.
fn go_on<R: Wait>(rt: &R, member: &mut Member, comm: u16) -> Reply {
    vukrasp::barrier(rt, member, comm)?;
    let agreed = agree(rt, member, comm)?;
    member.free(comm)?;
    Ok(agreed)
}

/// Each agrees, in a thread of its own: its reply, and its member again.
fn work_all<R: Threads + Wait + Sync>(
    rt: &R,
    all: Vec<Member>,
) -> Result<Vec<(Reply, Member)>, AllocError> {
    thread::map_vec(
        rt,
        all,
        &|mut member| (agree(rt, &mut member, WORLD), member),
    )
}

/// Each recovers likewise.
fn recover_all<R: Threads + Wait + Sync>(
    rt: &R,
    alloc: Global,
    all: Vec<Member>,
) -> Result<Vec<(Result<Recovery, Refusal>, Member)>, AllocError> {
    thread::map_vec(
        rt,
        all,
        &|mut member| (recover(rt, alloc, &mut member), member),
    )
}

/// Each goes on likewise.
fn go_on_all<R: Threads + Wait + Sync>(
    rt: &R,
    all: Vec<Member>,
    comm: u16,
) -> Result<Vec<(Reply, Member)>, AllocError> {
    thread::map_vec(
        rt,
        all,
        &|mut member| (go_on(rt, &mut member, comm), member),
    )
}

fn print_reply<R: Print>(rt: &R, reply: &Polled<FlagAnd>) -> io::Result<()> {
    match reply {
        Polled::Pending => println!(rt; "  pending"),
        Polled::Agreed {
            value,
            failed,
            raised,
        } => {
            let error = if *raised { "raised" } else { "clean" };
            println!(rt; "  agreed {:04b} failed {failed} {error}", value.bits)
        }
        Polled::Shrunk {
            comm,
            context,
            size,
        } => println!(rt; "  shrunk {comm} context {context} size {size}"),
        Polled::Done => println!(rt; "  done"),
    }
}

fn print_agreed<R: Print>(rt: &R, reply: &Reply) -> io::Result<()> {
    match reply {
        Ok(agreed) => print_reply(rt, agreed),
        Err(refusal) => println!(rt; "  refused {refusal}"),
    }
}

fn print_recovery<R: Print>(rt: &R, recovery: &Result<Recovery, Refusal>) -> io::Result<()> {
    match recovery {
        Ok(seen) => {
            print_reply(rt, &seen.met)?;
            println!(rt; "  failed {:?}", seen.failed)?;
            println!(rt; "  acked {}", seen.acknowledged)?;
            print_reply(rt, &seen.settled)?;
            println!(rt; "  revoked {}", seen.is_revoked)?;
            print_reply(rt, &seen.shrunk)
        }
        Err(refusal) => println!(rt; "  refused {refusal}"),
    }
}

fn print_work<R: Print>(rt: &R, worked: &[(Reply, Member)]) -> io::Result<()> {
    for (reply, member) in worked {
        println!(rt; "rank {} works", member.number())?;
        print_agreed(rt, reply)?;
    }
    Ok(())
}

fn print_recoveries<R: Print>(
    rt: &R,
    recovered: &[(Result<Recovery, Refusal>, Member)],
) -> io::Result<()> {
    for (recovery, member) in recovered {
        println!(rt; "rank {} recovers", member.number())?;
        print_recovery(rt, recovery)?;
        println!(rt; "  members {:?}", member.members(MADE))?;
    }
    Ok(())
}

fn print_end<R: Print>(rt: &R, gone_on: &[(Reply, Member)]) -> io::Result<()> {
    for (reply, member) in gone_on {
        println!(rt; "rank {} goes on", member.number())?;
        print_agreed(rt, reply)?;
        println!(rt; "  members {:?}", member.members(MADE))?;
    }
    Ok(())
}

/// The members alone, without that of a rank that stops.
fn members_of<T: Drop>(
    alloc: Global,
    all: Vec<(T, Member)>,
    stops: Option<u16>,
) -> Result<Vec<Member>, AllocError> {
    let mut members = Vec::with_capacity(alloc, all.len())?;
    for (_, member) in all {
        if Some(member.number()) != stops {
            members.push(member)?;
        }
    }
    Ok(members)
}

fn main(rt: HostRuntime) -> anyhow::Result<()> {
    let alloc = rt.alloc();
    let (mut outside, members) = vukrasp::open(alloc, LIMITS)?;

    let worked = work_all(&rt, members)?;
    print_work(&rt, &worked)?;

    // Rank 3 makes no call from here on: its member is dropped.
    let survivors = members_of(alloc, worked, Some(3))?;
    let (recovered, declared) = join(
        &rt,
        || recover_all(&rt, alloc, survivors),
        move || outside.fail(3),
    );
    println!(rt; "rank 3 is declared failed: {declared:?}")?;
    let recovered = recovered?;
    print_recoveries(&rt, &recovered)?;

    let members = members_of(alloc, recovered, None)?;
    let gone_on = go_on_all(&rt, members, MADE)?;
    print_end(&rt, &gone_on)?;
    Ok(())
}
