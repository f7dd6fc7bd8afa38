// The calls of 2013: all known failures are acknowledged at once, and those that are acknowledged are listed.

use crate::tests::member::{alone_in, first_member};
use linked_list_allocator::LocalHeap;
use std::alloc::{Allocator, Global};
use std::process::Abort;
use std::test::Fail;
use ulfm_comm::Polled;
use ulfm_intruder::Intruder;
use ulfm_laws::flag_and::FlagAnd;
use ulfm_model::call::Call;
use ulfm_model::event::{Caller, Entry, Event};
use ulfm_model::limits::Limits;
use ulfm_model::refusal::Refusal;
use ulfm_model::reply::Reply;
use ulfm_run::Job;
use ulfm_wait::Member;
use ulfm_words::{OpenWords, PlainWords};

const FOUR: Limits = Limits {
    ranks: 4,
    comms: 2,
    rounds: 4,
};

/// Rank 0 of four, over these words.
fn first<W>(rt: &impl Abort, alloc: Global, words: W) -> Result<Member<W, FlagAnd, Global>, Fail>
where
    W: OpenWords<FlagAnd, Global> + Drop,
{
    first_member(rt, alloc, words, 4)
}

/// Rank 0 of four, after the others were declared.
fn beside_failures(
    rt: &impl Abort,
    alloc: Global,
) -> Result<Member<PlainWords<FlagAnd>, FlagAnd, Global>, Fail> {
    let mut first = first(rt, alloc, PlainWords::<FlagAnd>::open(FOUR)?)?;
    for rank in [2, 3, 1] {
        assert!(rt; first.fail(rank) == Ok(true));
    }
    Ok(first)
}

#[test]
fn acknowledged_failures_are_the_first(rt: HostRuntime) -> Result<(), Fail> {
    let mut first = first(&rt, rt.alloc(), PlainWords::<FlagAnd>::open(FOUR)?)?;
    let mut found = Vec::new(rt.alloc());
    found.push(7)?;
    assert!(rt; first.failure_get_acked(0, &mut found) == Ok(()));
    assert!(rt; found.is_empty());
    assert!(rt; first.failure_ack(0) == Ok(0));
    assert!(rt; first.fail(3) == Ok(true));
    assert!(rt; first.fail(1) == Ok(true));
    assert!(rt; first.failure_get_acked(0, &mut found) == Ok(()));
    assert!(rt; found.is_empty());
    assert!(rt; first.ack_failed(0, 1) == Ok(1));
    assert!(rt; first.failure_get_acked(0, &mut found) == Ok(()));
    assert_eq!(rt; found.as_slice(), [3].as_slice());
    assert!(rt; first.failure_ack(0) == Ok(2));
    assert!(rt; first.fail(2) == Ok(true));
    assert!(rt; first.failure_get_acked(0, &mut found) == Ok(()));
    assert_eq!(rt; found.as_slice(), [3, 1].as_slice());
    // Its look finds the third failure, and no other: two loads.
    assert!(rt; first.last_steps() == 2);
    assert!(rt; first.get_failed(0, &mut found) == Ok(()));
    assert_eq!(rt; found.as_slice(), [3, 1, 2].as_slice());
    Ok(())
}

#[test]
fn all_known_are_acknowledged(rt: HostRuntime) -> Result<(), Fail> {
    let mut first = beside_failures(&rt, rt.alloc())?;
    // As `ack_failed` where it asks for more than there are.
    assert!(rt; first.failure_ack(0) == Ok(3));
    assert!(rt; first.ack_failed(0, 1024) == Ok(3));
    // So the agree that follows raises no error.
    let value = FlagAnd { bits: 0x3 };
    assert!(rt; first.iagree(0, value) == Ok(()));
    let polled = first.poll(0)?;
    let (failed, raised) = (3, false);
    assert!(rt;
        polled
            == Polled::Agreed {
                value,
                failed,
                raised
            }
    );
    Ok(())
}

/// A communicator that a shrink made has no failure to acknowledge.
#[test]
fn a_new_communicator_has_acknowledged_none(rt: HostRuntime) -> Result<(), Fail> {
    let mut first = beside_failures(&rt, rt.alloc())?;
    assert!(rt; first.failure_ack(0) == Ok(3));
    assert!(rt; first.ishrink(0) == Ok(()));
    assert!(rt; first.poll(0) == Ok(alone_in(1, 1)));
    let mut found = Vec::new(rt.alloc());
    found.push(7)?;
    assert!(rt; first.failure_ack(1) == Ok(0));
    assert!(rt; first.failure_get_acked(1, &mut found) == Ok(()));
    assert!(rt; found.is_empty());
    Ok(())
}

#[test]
fn acknowledging_is_refused(rt: HostRuntime) -> Result<(), Fail> {
    let mut first = first(&rt, rt.alloc(), PlainWords::<FlagAnd>::open(FOUR)?)?;
    let mut found = Vec::new(rt.alloc());
    found.push(7)?;
    assert!(rt; first.failure_ack(1) == Err(Refusal::NoSuchComm));
    let refused = first.failure_get_acked(1, &mut found);
    assert!(rt; refused == Err(Refusal::NoSuchComm));
    assert_eq!(rt; found.as_slice(), [7].as_slice());
    assert!(rt; first.fail(0) == Ok(true));
    // Whoever is declared is told so first.
    assert!(rt; first.failure_ack(1) == Err(Refusal::SelfFailed));
    let refused = first.failure_get_acked(0, &mut found);
    assert!(rt; refused == Err(Refusal::SelfFailed));
    assert!(rt; first.last_steps() == 0);
    assert_eq!(rt; found.as_slice(), [7].as_slice());
    Ok(())
}

/// A vector with room for one rank, which gets no more memory: it serves for one acknowledged failure of three, and not for two.
fn list_in(rt: &impl Abort, alloc: Global, full: &LocalHeap) -> Result<(), Fail> {
    let mut first = beside_failures(rt, alloc)?;
    let mut found = Vec::with_capacity(full, 1)?;
    found.push(7)?;
    assert!(rt; first.ack_failed(0, 1) == Ok(1));
    assert!(rt; first.failure_get_acked(0, &mut found) == Ok(()));
    assert_eq!(rt; found.as_slice(), [2].as_slice());
    assert!(rt; first.ack_failed(0, 2) == Ok(2));
    let refused = first.failure_get_acked(0, &mut found);
    assert!(rt; refused == Err(Refusal::OutOfMemory));
    assert_eq!(rt; found.as_slice(), [2].as_slice());
    assert_eq!(rt; first.failures(), [2, 3, 1].as_slice());
    let mut enough = Vec::new(alloc);
    assert!(rt; first.failure_get_acked(0, &mut enough) == Ok(()));
    assert_eq!(rt; enough.as_slice(), [2, 3].as_slice());
    Ok(())
}

#[test]
fn refused_memory_leaves_the_vector(rt: HostRuntime) -> Result<(), Fail> {
    let heap = LocalHeap::new(rt.alloc(), 16)?;
    list_in(&rt, rt.alloc(), &heap)
}

/// Rank 0 of four, beside a failure detector that declares rank 2 once the rank has made so many steps.
fn beside_a_detector(
    rt: &impl Abort,
    alloc: Global,
    wait: u32,
) -> Result<Member<Intruder<FlagAnd>, FlagAnd, Global>, Fail> {
    let plain = PlainWords::<FlagAnd>::open(FOUR)?;
    let guest = Entry {
        by: Caller::Outside,
        event: Event::Fail { rank: 2 },
    };
    let words = Intruder {
        plain,
        guest,
        wait: Some(wait),
    };
    first(rt, alloc, words)
}

#[test]
fn a_failure_counts_from_the_look_that_finds_it(rt: HostRuntime) -> Result<(), Fail> {
    let mut found = Vec::new(rt.alloc());
    // Just before the look's only load.
    let mut early = beside_a_detector(&rt, rt.alloc(), 0)?;
    assert!(rt; early.failure_ack(0) == Ok(1));
    assert!(rt; early.failure_get_acked(0, &mut found) == Ok(()));
    assert_eq!(rt; found.as_slice(), [2].as_slice());
    // Just behind it: the next look finds the failure, which isn't acknowledged.
    let mut late = beside_a_detector(&rt, rt.alloc(), 1)?;
    assert!(rt; late.failure_ack(0) == Ok(0));
    assert!(rt; late.failure_get_acked(0, &mut found) == Ok(()));
    assert!(rt; found.is_empty());
    assert_eq!(rt; late.failures(), [2].as_slice());
    assert!(rt; late.failure_ack(0) == Ok(1));
    Ok(())
}

/// A job lists, of the failed group, as many as are acknowledged. It has no room for the others.
#[test]
fn a_job_lists_the_acknowledged(rt: HostRuntime) -> Result<(), Fail> {
    let heap = LocalHeap::new(rt.alloc(), 1 << 16)?;
    let mut job = Job::open(&heap, PlainWords::<FlagAnd>::open(FOUR)?)?;
    let mut group = Vec::with_capacity(&heap, 1)?;
    for rank in [3, 1] {
        assert!(rt; job.apply(&Call::Fail { rank }, &mut group)? == Reply::Declared);
    }
    let none = job.apply(&Call::FailureGetAcked { rank: 0, comm: 0 }, &mut group)?;
    assert!(rt; none == Reply::FailedGroup { count: 0 });
    let one = Call::Ack {
        rank: 0,
        comm: 0,
        count: 1,
    };
    assert!(rt; job.apply(&one, &mut group)? == Reply::Acked { count: 1 });
    let listed = job.apply(&Call::FailureGetAcked { rank: 0, comm: 0 }, &mut group)?;
    assert!(rt; listed == Reply::FailedGroup { count: 1 });
    assert_eq!(rt; group.as_slice(), [3].as_slice());
    let all = job.apply(&Call::FailureAck { rank: 0, comm: 0 }, &mut group)?;
    assert!(rt; all == Reply::Acked { count: 2 });
    assert_eq!(rt; group.as_slice(), [3].as_slice());
    Ok(())
}
