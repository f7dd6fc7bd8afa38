// Memory: which calls take it, in which of their steps, and what they answer where it is refused.

use crate::tests::play::{Play, Verb};
use linked_list_allocator::LocalHeap;
use std::alloc::{AllocError, Allocator, Global};
use std::process::Abort;
use std::test::Fail;
use ulfm_laws::flag_and::FlagAnd;
use ulfm_model::call::Call;
use ulfm_model::limits::Limits;
use ulfm_model::refusal::Refusal;
use ulfm_model::reply::Reply;
use ulfm_model::step_name::StepName;
use ulfm_run::Job;
use ulfm_words::PlainWords;

/// A play in a heap.
type Heaped<'a> = Play<PlainWords<FlagAnd>, FlagAnd, &'a LocalHeap>;

fn limits(ranks: u16, comms: u16) -> Limits {
    Limits {
        ranks,
        comms,
        rounds: 4,
    }
}

fn open(heap: &LocalHeap, limits: Limits) -> Result<Heaped, Fail> {
    Play::open(heap, PlainWords::open(limits)?)
}

/// All memory of a heap that is left, in blocks.
fn rest_of<'a>(
    alloc: Global,
    heap: &'a LocalHeap,
) -> Result<Vec<Vec<u8, &'a LocalHeap>, Global>, AllocError> {
    let mut blocks = Vec::new(alloc);
    for size in [4096usize, 512, 64, 16] {
        for _ in 0..256 {
            match Vec::with_capacity(heap, size) {
                Ok(block) => blocks.push(block)?,
                Err(_) => break,
            }
        }
    }
    Ok(blocks)
}

/// A call that begins takes no memory, whichever it is.
#[test]
fn beginning_takes_no_memory(rt: HostRuntime) -> Result<(), Fail> {
    let heap = LocalHeap::new(rt.alloc(), 1 << 16)?;
    let mut play = open(&heap, limits(11, 2))?;
    let verbs = [
        Verb::Get,
        Verb::GetAcked,
        Verb::Ack(1),
        Verb::AckAll,
        Verb::Agree(FlagAnd { bits: 1 }),
        Verb::Shrink,
        Verb::Barrier,
        Verb::Poll,
        Verb::Revoke,
        Verb::Standing,
        Verb::Free,
    ];
    let used = heap.used();
    for (rank, verb) in verbs.iter().enumerate() {
        assert!(rt; play.begin(rank as u16, 0, *verb));
        assert_eq!(rt; heap.used(), used);
    }
    Ok(())
}

/// The reply to a rank's call, and the names of its steps in which memory is taken.
fn takes_memory(
    heap: &LocalHeap,
    play: &mut Heaped,
    rank: u16,
    names: &mut Vec<StepName>,
) -> Result<Option<Reply<FlagAnd>>, Fail> {
    names.clear();
    for _ in 0..64usize {
        let used = heap.used();
        let name = play.next(rank);
        let reply = play.step(rank);
        if let Some(name) = name {
            if heap.used() > used {
                names.push(name)?;
            }
        }
        if reply.is_some() {
            return Ok(reply);
        }
    }
    Ok(None)
}

/// Of two ranks the second is declared. The poll of the first's shrink takes memory once, for the members of the communicator, in the step by
/// which the round's decision is known: two bytes for each member of the parent, for which the heap gives 16.
#[test]
fn shrinking_takes_memory_once(rt: HostRuntime) -> Result<(), Fail> {
    let heap = LocalHeap::new(rt.alloc(), 1 << 14)?;
    let mut play = open(&heap, limits(2, 2))?;
    let mut names = Vec::new(rt.alloc());
    assert!(rt; play.fail(1) == Ok(true));
    assert!(rt; play.begin(0, 0, Verb::Shrink));
    assert!(rt; takes_memory(&heap, &mut play, 0, &mut names)? == Some(Reply::Started));
    assert!(rt; names.is_empty());
    let used = heap.used();
    assert!(rt; play.begin(0, 0, Verb::Poll));
    let reply = takes_memory(&heap, &mut play, 0, &mut names)?;
    let made = Reply::Shrunk {
        comm: 1,
        context: 1,
        size: 1,
    };
    assert!(rt; reply == Some(made));
    assert_eq!(rt; names.as_slice(), [StepName::Cache].as_slice());
    assert_eq!(rt; heap.used().checked_sub(used), Some(16));
    Ok(())
}

/// A world with room for no communicator but its own: a shrink's poll lacks memory first, and room where it has the memory.
#[test]
fn memory_is_lacked_before_room(rt: HostRuntime) -> Result<(), Fail> {
    let heap = LocalHeap::new(rt.alloc(), 1 << 14)?;
    let mut play = open(&heap, limits(1, 1))?;
    let mut names = Vec::new(rt.alloc());
    assert!(rt; play.begin(0, 0, Verb::Shrink));
    assert!(rt; takes_memory(&heap, &mut play, 0, &mut names)? == Some(Reply::Started));
    let mut blocks = rest_of(rt.alloc(), &heap)?;
    for _ in 0..2 {
        assert!(rt; play.begin(0, 0, Verb::Poll));
        let reply = takes_memory(&heap, &mut play, 0, &mut names)?;
        assert!(rt; reply == Some(Reply::Refused(Refusal::OutOfMemory)));
    }
    // The last of them has 16 bytes, which serve.
    assert!(rt; blocks.pop().is_some());
    assert!(rt; play.begin(0, 0, Verb::Poll));
    let reply = takes_memory(&heap, &mut play, 0, &mut names)?;
    assert!(rt; reply == Some(Reply::Refused(Refusal::NoRoom)));
    Ok(())
}

/// A query of the failed group, made of a job: its promises are left aside.
fn asks<'a>(
    job: &mut Job<PlainWords<FlagAnd>, FlagAnd, &'a LocalHeap>,
    group: &mut Vec<u16, &'a LocalHeap>,
) -> Option<Reply<FlagAnd>> {
    job.apply(&Call::GetFailed { rank: 0, comm: 0 }, group).ok()
}

/// A vector that has room for the failed group alone gets it where no memory is left; one that has no room stays as it was, until there
/// are 16 bytes.
#[test]
fn a_group_that_has_room_takes_no_memory(rt: HostRuntime) -> Result<(), Fail> {
    let heap = LocalHeap::new(rt.alloc(), 1 << 14)?;
    let mut job = Job::open(&heap, PlainWords::open(limits(3, 1))?)?;
    let mut none = Vec::new(&heap);
    for rank in [1, 2] {
        assert!(rt; job.apply(&Call::Fail { rank }, &mut none)? == Reply::Declared);
    }
    let mut group = Vec::with_capacity(&heap, 2)?;
    let mut blocks = rest_of(rt.alloc(), &heap)?;
    assert!(rt; asks(&mut job, &mut none) == None);
    assert!(rt; none.is_empty());
    assert!(rt; asks(&mut job, &mut group) == Some(Reply::FailedGroup { count: 2 }));
    assert_eq!(rt; group.as_slice(), [1, 2].as_slice());
    assert!(rt; blocks.pop().is_some());
    assert!(rt; asks(&mut job, &mut none) == Some(Reply::FailedGroup { count: 2 }));
    assert_eq!(rt; none.as_slice(), [1, 2].as_slice());
    Ok(())
}
