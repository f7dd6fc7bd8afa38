// Calls of single ranks: memory that is refused, and others' events that come in between.
ghost use Rattle.std.specs.Prelude.{◌<◌};

use crate::tests::member::{alone_in, first_member};
use linked_list_allocator::LocalHeap;
use std::alloc::{AllocError, Allocator, Global};
use std::process::Abort;
use std::test::Fail;
use ulfm_comm::{Polled, World};
use ulfm_intruder::Intruder;
use ulfm_laws::flag_and::FlagAnd;
use ulfm_laws::summary::{Acked, Known};
use ulfm_model::call::Call;
use ulfm_model::contribution::{Contribution, Offer};
use ulfm_model::event::{Caller, Entry, Event};
use ulfm_model::limits::Limits;
use ulfm_model::place::Place;
use ulfm_model::refusal::Refusal;
use ulfm_model::reply::Reply;
use ulfm_run::Job;
use ulfm_wait::Member;
use ulfm_words::{PlainWords, Step};

pub(crate) fn agreed(bits: u64, failed: u16, raised: bool) -> Reply<FlagAnd> {
    Reply::Agreed {
        value: FlagAnd { bits },
        failed,
        raised,
    }
}

/// A call's reply. It promises nothing, so that the proof of a test has nothing to carry along.
pub(crate) fn apply(
    job: &mut Job<PlainWords<FlagAnd>, FlagAnd, Global>,
    asked: &Call<FlagAnd>,
    group: &mut Vec<u16>,
) -> Result<Reply<FlagAnd>, AllocError> {
    job.apply(asked, group)
}

const THREE: Limits = Limits {
    ranks: 3,
    comms: 1,
    rounds: 4,
};

// Rank 0 asks for the failed group, into a vector that has a rank in it and gets no more memory: the vector is as it was, and so is its record
// but for the failures.
fn get_refused(rt: &impl Abort, alloc: Global, full: &LocalHeap) -> Result<(), Fail> {
    let words = PlainWords::<FlagAnd>::open(THREE)?;
    let mut first = first_member(rt, alloc, words, 3)?;
    let mut found = Vec::with_capacity(full, 1)?;
    found.push(7)?;
    assert!(rt; first.fail(2) == Ok(true));
    assert!(rt; first.fail(1) == Ok(true));
    let refused = first.get_failed(0, &mut found);
    assert!(rt; refused == Err(Refusal::OutOfMemory));
    assert_eq!(rt; found.as_slice(), [7].as_slice());
    assert_eq!(rt; first.failures(), [2, 1].as_slice());
    assert!(rt; first.members(0) == Some([0, 1, 2].as_slice()));
    assert!(rt; first.context(0) == Some(0));
    Ok(())
}

#[test]
fn refused_memory_leaves_the_record(rt: HostRuntime) -> Result<(), Fail> {
    let heap = LocalHeap::new(rt.alloc(), 16)?;
    get_refused(&rt, rt.alloc(), &heap)
}

#[test]
fn lost_fail_is_not_claimed(rt: HostRuntime) -> Result<(), Fail> {
    let plain = PlainWords::<FlagAnd>::open(THREE)?;
    let guest = Entry {
        by: Caller::Outside,
        event: Event::Fail { rank: 1 },
    };
    let (world, _) = World::open(
        rt.alloc(),
        Intruder {
            plain,
            guest,
            // Just before the exchange: the look makes one load.
            wait: Some(1),
        },
    )?;
    let mut pass = world.pass(rt.alloc())?;
    // Just before the exchange, which is the second step.
    pass.wait(1);
    assert!(rt; world.fail(&mut pass, 1) == Ok(false));
    Ok(())
}

// The first of three ranks, beside a rank that knows of no failure, and contributes a flag to the world's first round once the first
// has made so many steps.
fn beside_a_flag(
    rt: &impl Abort,
    alloc: Global,
    limits: Limits,
    rank: u16,
    wait: u32,
) -> Result<Member<Intruder<FlagAnd>, FlagAnd, Global>, Fail>
    requires rank { rank < limits.ranks }
    requires rounds { 0 < limits.rounds }
{
    let plain = PlainWords::<FlagAnd>::open(limits)?;
    let given = Contribution {
        offer: Offer::Flag(FlagAnd { bits: 0x1 }),
        known: Known { count: 0 },
        acked: Acked { count: 0 },
    };
    let guest = Entry {
        by: Caller::Rank(rank),
        event: Event::Settle {
            comm: 0,
            round: 0,
            rank,
            given,
        },
    };
    let words = Intruder {
        plain,
        guest,
        wait: Some(wait),
    };
    first_member(rt, alloc, words, 3)
}

#[test]
fn own_place_is_taken(rt: HostRuntime) -> Result<(), Fail> {
    // Just before the exchange of the wing: the look makes one load.
    let mut first = beside_a_flag(&rt, rt.alloc(), THREE, 0, 1)?;
    let refused = first.iagree(0, FlagAnd { bits: 0x3 });
    assert!(rt; refused == Err(Refusal::Twice));
    // Just behind it: the other finds the wing set, and doesn't come.
    let mut first = beside_a_flag(&rt, rt.alloc(), THREE, 0, 2)?;
    assert!(rt; first.iagree(0, FlagAnd { bits: 0x3 }) == Ok(()));
    Ok(())
}

#[test]
fn shrink_offers_free_ids(rt: HostRuntime) -> Result<(), Fail> {
    let words = PlainWords::<FlagAnd>::open(THREE)?;
    let mut first = first_member(&rt, rt.alloc(), words, 3)?;
    assert!(rt; first.fail(1) == Ok(true));
    assert!(rt; first.ishrink(1) == Err(Refusal::NoSuchComm));
    assert!(rt; first.ishrink(0) == Ok(()));
    // All ids but 0, one failure that is known, and none that is acknowledged.
    let offered = Step {
        place: Place::Slot {
            comm: 0,
            round: 0,
            rank: 0,
        },
        word: 0x01ff_ffff_fc00_000d,
        half: 0xffff_ffff,
        by: Caller::Rank(0),
    };
    assert!(rt; first.pass().nth(1) == Some(offered));
    assert!(rt; first.ishrink(0) == Err(Refusal::Busy));
    assert!(rt; first.free(1) == Err(Refusal::NoSuchComm));
    assert!(rt; first.free(0) == Err(Refusal::WorldKept));
    Ok(())
}

#[test]
fn last_round_is_kept_for_a_shrink(rt: HostRuntime) -> Result<(), Fail> {
    let limits = Limits {
        ranks: 2,
        comms: 1,
        rounds: 1,
    };
    let words = PlainWords::<FlagAnd>::open(limits)?;
    let mut first = first_member(&rt, rt.alloc(), words, 2)?;
    let refused = first.iagree(0, FlagAnd { bits: 0x3 });
    assert!(rt; refused == Err(Refusal::RoundsUsedUp));
    assert!(rt; first.ishrink(0) == Ok(()));
    assert!(rt; first.fail(0) == Ok(true));
    assert!(rt; first.ishrink(0) == Err(Refusal::SelfFailed));
    assert!(rt; first.free(1) == Err(Refusal::SelfFailed));
    Ok(())
}

const THREE_COMMS: Limits = Limits {
    ranks: 3,
    comms: 3,
    rounds: 2,
};

#[test]
fn survivor_shrinks(rt: HostRuntime) -> Result<(), Fail> {
    let words = PlainWords::<FlagAnd>::open(THREE_COMMS)?;
    let mut first = first_member(&rt, rt.alloc(), words, 3)?;
    assert!(rt; first.fail(2) == Ok(true));
    assert!(rt; first.ishrink(0) == Ok(()));
    assert!(rt; first.poll(0) == Ok(Polled::Pending));
    assert!(rt; first.fail(1) == Ok(true));
    assert!(rt; first.poll(0) == Ok(alone_in(1, 1)));
    assert!(rt; first.poll(0) == Err(Refusal::Idle));
    assert!(rt; first.members(1) == Some([0].as_slice()));
    assert!(rt; first.context(1) == Some(1));
    assert!(rt; first.ishrink(1) == Ok(()));
    assert!(rt; first.poll(1) == Ok(alone_in(2, 2)));
    assert!(rt; first.ishrink(2) == Ok(()));
    assert!(rt; first.poll(2) == Err(Refusal::NoRoom));
    assert!(rt; first.poll(2) == Err(Refusal::Idle));
    Ok(())
}

// All memory that is left, in blocks.
fn rest_of<A: Allocator + Copy, B: Allocator + Copy>(left: B, alloc: A) -> Vec<Vec<u8, B>, A> {
    let mut blocks = Vec::new(alloc);
    for size in [
        8192, 4096, 2048, 1024, 512, 256, 128, 64, 32, 16, 8, 4, 2, 1,
    ] {
        for _ in 0..4 {
            if let Ok(block) = Vec::<u8, B>::with_capacity(left, size) {
                let _ = blocks.push(block);
            }
        }
    }
    blocks
}

// A rank that is alone polls its shrink without memory, and then with it.
fn shrink_with<R: Abort, A: Allocator + Copy, B: Allocator + Copy>(
    rt: &R,
    alloc: A,
    outside: B,
) -> Result<(), Fail> {
    let limits = Limits {
        ranks: 1,
        comms: 2,
        rounds: 2,
    };
    let words = PlainWords::<FlagAnd>::open(limits)?;
    let mut first = first_member(rt, alloc, words, 1)?;
    assert!(rt; first.ishrink(0) == Ok(()));
    let taken = rest_of(alloc, outside);
    assert!(rt; first.poll(0) == Err(Refusal::OutOfMemory));
    assert!(rt; first.poll(0) == Err(Refusal::OutOfMemory));
    assert!(rt; first.members(1).is_none());
    drop(taken);
    assert!(rt; first.poll(0) == Ok(alone_in(1, 1)));
    Ok(())
}

#[test]
fn shrinks_once_memory_is_there(rt: HostRuntime) -> Result<(), Fail> {
    let heap = LocalHeap::new(rt.alloc(), 16384)?;
    shrink_with(&rt, &heap, rt.alloc())
}

#[test]
fn agree_meets_a_shrink(rt: HostRuntime) -> Result<(), Fail> {
    // Just before the place of rank 1 is read: the declaration makes two steps, the start of the shrink four, the look one load, both
    // blocks are loaded, one mark is made, and the first place and its wing are read.
    let mut first = beside_a_flag(&rt, rt.alloc(), THREE_COMMS, 1, 12)?;
    assert!(rt; first.fail(2) == Ok(true));
    assert!(rt; first.ishrink(0) == Ok(()));
    assert!(rt; first.poll(0) == Err(Refusal::Mismatch));
    assert!(rt; first.poll(0) == Err(Refusal::Idle));
    Ok(())
}
