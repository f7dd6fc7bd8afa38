// Shrinks of a world in one hand: another's communicator that comes in between, and memory that is refused.

use linked_list_allocator::LocalHeap;
use std::alloc::{AllocError, Allocator, Global};
use std::process::Abort;
use std::test::Fail;
use ulfm_devices::memory::filled;
use ulfm_intruder::Intruder;
use ulfm_laws::flag_and::FlagAnd;
use ulfm_model::call::Call;
use ulfm_model::event::{Caller, Entry, Event};
use ulfm_model::limits::{Limits, OpenFault};
use ulfm_model::place::Place;
use ulfm_model::reply::Reply;
use ulfm_run::Job;
use ulfm_words::{PlainWords, Step, Words};

const FOUR: Limits = Limits {
    ranks: 4,
    comms: 4,
    rounds: 4,
};

const ALONE: Limits = Limits {
    ranks: 1,
    comms: 8,
    rounds: 8,
};

/// A declaration; or a rank's shrink of a communicator, or poll of one.
#[derive(Clone, Copy)]
enum Asked {
    /// The declaration of this rank.
    Fail(u16),
    /// By this rank, of this communicator.
    Shrink(u16, u16),
    /// The same.
    Poll(u16, u16),
}

fn call(asked: Asked) -> Call<FlagAnd> {
    match asked {
        Asked::Fail(rank) => Call::Fail { rank },
        Asked::Shrink(rank, comm) => Call::Shrink { rank, comm },
        Asked::Poll(rank, comm) => Call::Poll { rank, comm },
    }
}

/// A call's reply. It promises nothing, so that the proof of a test has nothing to carry along.
fn apply<W: Words<FlagAnd, A>, A: Allocator + Copy>(
    job: &mut Job<W, FlagAnd, A>,
    asked: Asked,
    group: &mut Vec<u16, A>,
) -> Result<Reply<FlagAnd>, AllocError> {
    job.apply(&call(asked), group)
}

/// The reply with communicator 1, which ranks 0, 2 and 3 are left in.
const FIRST: Reply<FlagAnd> = Reply::Shrunk {
    comm: 1,
    context: 1,
    size: 3,
};

/// The reply with communicator 2, which ranks 2 and 3 are left in.
const SECOND: Reply<FlagAnd> = Reply::Shrunk {
    comm: 2,
    context: 2,
    size: 2,
};

/// A job over words into which another's event comes.
type Disturbed = Job<Intruder<FlagAnd>, FlagAnd, Global>;

// The step that was set as the `i`-th.
fn nth(job: &Disturbed, i: usize) -> Option<Step> {
    job.pass().plain.nth(i)
}

/// A new job, in which rank 2 is to make the communicator of the first round of the world after so many steps, if it may then.
fn disturbed(alloc: Global, steps: u32) -> Result<Disturbed, Fail> {
    let plain = PlainWords::open(FOUR)?;
    let guest = Entry {
        by: Caller::Rank(2),
        event: Event::Spawn {
            comm: 1,
            parent: 0,
            round: 0,
        },
    };
    let words = Intruder {
        plain,
        guest,
        wait: Some(steps),
    };
    Ok(Job::open(alloc, words)?)
}

/// Such a job, in which rank 1 was declared, in two steps, and then the others started a shrink of the world, each in two steps to
/// look and two to contribute: four events. The other comes after so many further steps.
fn shrinking(rt: &impl Abort, alloc: Global, steps: u32) -> Result<Disturbed, Fail> {
    let mut job = disturbed(alloc, steps.saturating_add(14))?;
    let mut group = Vec::new(alloc);
    assert!(rt; apply(&mut job, Asked::Fail(1), &mut group)? == Reply::Declared);
    for rank in [3, 0, 2] {
        let reply = apply(&mut job, Asked::Shrink(rank, 0), &mut group)?;
        assert!(rt; reply == Reply::Started);
    }
    Ok(job)
}

/// The poll of rank 3 takes one step to look, one to load the round's only block, one to mark rank 1, seven to read the block and two to
/// cache it, and then a load and an exchange of the first place in the list of communicators. The other comes after so many of them: the
/// communicator is made in this name, and all ranks have it.
fn spawn_after(rt: &impl Abort, alloc: Global, steps: u32, by: Caller) -> Result<(), Fail> {
    let mut job = shrinking(rt, alloc, steps)?;
    let mut group = Vec::new(alloc);
    for rank in [3, 0, 2] {
        let reply = apply(&mut job, Asked::Poll(rank, 0), &mut group)?;
        assert_eq!(rt; reply, FIRST);
        assert_eq!(rt; group.as_slice(), [0, 2, 3].as_slice());
    }
    is_made(rt, &job, by);
    Ok(())
}

/// The communicator is the last thing that was made, just after the mark, in this name.
fn is_made(rt: &impl Abort, job: &Disturbed, by: Caller) {
    let made = nth(job, 5).expect(rt, "after the mark");
    assert!(rt; made.place == Place::Comm { comm: 1 });
    assert_eq!(rt; made.by, by);
    assert!(rt; nth(job, 6).is_none());
}

#[test]
fn one_spawn(rt: HostRuntime) -> Result<(), Fail> {
    // Before the mark the round isn't decided, so the other doesn't come.
    spawn_after(&rt, rt.alloc(), 2, Caller::Rank(3))?;
    spawn_after(&rt, rt.alloc(), 3, Caller::Rank(2))?;
    // Just before the exchange, and just after it.
    spawn_after(&rt, rt.alloc(), 13, Caller::Rank(2))?;
    spawn_after(&rt, rt.alloc(), 14, Caller::Rank(3))
}

/// A job over plain words in a heap.
type Heaped<'a> = Job<PlainWords<FlagAnd>, FlagAnd, &'a LocalHeap>;

/// How many communicators were made.
fn communicators(job: &Heaped) -> u16 {
    let mut made: u16 = 0;
    for i in 0..32 {
        if let Some(
            Step {
                place: Place::Comm { .. },
                ..
            },
        ) = job.pass().nth(i)
        {
            made = made.saturating_add(1);
        }
    }
    made
}

/// A call, while a heap has no more than so many bytes of room: its reply, if it gets the memory.
fn apply_in<'a>(
    heap: &'a LocalHeap,
    room: usize,
    job: &mut Heaped<'a>,
    group: &mut Vec<u16, &'a LocalHeap>,
    alloc: Global,
    asked: Asked,
) -> Result<Option<Reply<FlagAnd>>, AllocError> {
    let blocks = filled(alloc, heap, room)?;
    let answered = apply(job, asked, group);
    drop(blocks);
    Ok(answered.ok())
}

/// A call, with more room each time until it is answered, as it should be: how many times it lacked memory. Before that it makes
/// no communicator.
fn apply_refused<'a>(
    rt: &impl Abort,
    heap: &'a LocalHeap,
    job: &mut Heaped<'a>,
    group: &mut Vec<u16, &'a LocalHeap>,
    alloc: Global,
    line: (Asked, Reply<FlagAnd>),
) -> Result<usize, Fail> {
    let made = communicators(job);
    for count in 0..64usize {
        if let Some(reply) = apply_in(heap, count * 16, job, group, alloc, line.0)? {
            assert_eq!(rt; reply, line.1);
            return Ok(count);
        }
        assert_eq!(rt; communicators(job), made);
    }
    assert!(rt; false, "a call is never answered");
    Ok(0)
}

#[test]
fn shrinks_are_refused_memory(rt: HostRuntime) -> Result<(), Fail> {
    let heap = LocalHeap::new(rt.alloc(), 1 << 14)?;
    let mut job = Job::open(&heap, PlainWords::open(FOUR)?)?;
    // It has no room yet, so that the call's memory and the group's are refused.
    let mut group = Vec::new(&heap);
    let script = [
        (Asked::Fail(1), Reply::Declared),
        (Asked::Shrink(3, 0), Reply::Started),
        (Asked::Shrink(0, 0), Reply::Started),
        (Asked::Shrink(2, 0), Reply::Started),
        (Asked::Poll(3, 0), FIRST),
        (Asked::Poll(0, 0), FIRST),
        (Asked::Poll(2, 0), FIRST),
        (Asked::Fail(0), Reply::Declared),
        (Asked::Shrink(3, 1), Reply::Started),
        (Asked::Shrink(2, 1), Reply::Started),
        (Asked::Poll(3, 1), SECOND),
        (Asked::Poll(2, 1), SECOND),
    ];
    for line in script {
        let refused = apply_refused(&rt, &heap, &mut job, &mut group, rt.alloc(), line)?;
        let polls = matches!(line.0, Asked::Poll(_, _));
        assert_eq!(rt; refused > 0, polls);
    }
    assert_eq!(rt; communicators(&job), 2);
    Ok(())
}

#[test]
fn the_fifth_communicator_takes_room(rt: HostRuntime) -> Result<(), Fail> {
    let heap = LocalHeap::new(rt.alloc(), 1 << 14)?;
    let mut job = Job::open(&heap, PlainWords::open(ALONE)?)?;
    let mut group = Vec::with_capacity(&heap, 1)?;
    for made in 1..5u16 {
        assert_eq!(rt;
            apply(&mut job, Asked::Shrink(0, 0), &mut group)?,
            Reply::Started
        );
        // The members of the first three fit, and so do those of the fourth, but not room for all that a rank may hold.
        let answer = apply_in(
            &heap,
            1024,
            &mut job,
            &mut group,
            rt.alloc(),
            Asked::Poll(0, 0),
        )?;
        assert_eq!(rt; answer.is_none(), made == 4);
        if answer.is_none() {
            apply(&mut job, Asked::Poll(0, 0), &mut group)?;
        }
        assert_eq!(rt; communicators(&job), made);
    }
    Ok(())
}

/// Whether a job can be opened in a heap. Where it can't, that is for lack of memory.
fn opens(rt: &impl Abort, heap: &LocalHeap) -> Result<bool, Fail> {
    match Job::open(heap, PlainWords::<FlagAnd>::open(FOUR)?) {
        Err(fault) => {
            assert!(rt; fault == OpenFault::OutOfMemory);
            Ok(false)
        }
        Ok(_) => Ok(true),
    }
}

#[test]
fn opening_is_refused_memory(rt: HostRuntime) -> Result<(), Fail> {
    for count in 0..2048usize {
        let heap = LocalHeap::new(rt.alloc(), count * 16)?;
        if opens(&rt, &heap)? {
            assert!(rt; count > 0);
            return Ok(());
        }
    }
    assert!(rt; false, "no opening succeeds");
    Ok(())
}
