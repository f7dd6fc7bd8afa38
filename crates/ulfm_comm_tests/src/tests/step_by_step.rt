// Calls that are taken step by step, in turns.

use crate::tests::calls::{agreed, apply};
use crate::tests::play::{Play, Verb, call_of};
use std::alloc::{AllocError, Global};
use std::process::Abort;
use std::test::Fail;
use ulfm_intruder::Intruder;
use ulfm_laws::flag_and::FlagAnd;
use ulfm_model::call::Call;
use ulfm_model::event::{Caller, Entry, Event};
use ulfm_model::limits::Limits;
use ulfm_model::refusal::Refusal;
use ulfm_model::reply::Reply;
use ulfm_model::step_name::StepName::{
    self, Arrival, Arrive, Block, Cache, Comm, List, Mark, Revocation, Revoke, Settle, Slot, Spawn,
    Wing,
};
use ulfm_run::Job;
use ulfm_words::{PlainWords, Words};

type Plain = Play<PlainWords<FlagAnd>, FlagAnd, Global>;

const FAILED: Reply<FlagAnd> = Reply::Refused(Refusal::SelfFailed);

/// The reply with communicator 1, which the first so many ranks are left in.
fn shrunk(size: u16) -> Reply<FlagAnd> {
    Reply::Shrunk {
        comm: 1,
        context: 1,
        size,
    }
}

fn limits(ranks: u16, comms: u16, rounds: u16) -> Limits {
    Limits {
        ranks,
        comms,
        rounds,
    }
}

fn agree(bits: u64) -> Verb<FlagAnd> {
    Verb::Agree(FlagAnd { bits })
}

fn open(alloc: Global, limits: Limits) -> Result<Plain, Fail> {
    Play::open(alloc, PlainWords::open(limits)?)
}

/// A rank's call, from its beginning to its reply, with nobody in between: it is answered so, by steps of these names.
fn takes<W: Words<FlagAnd, Global>>(
    rt: &impl Abort,
    alloc: Global,
    play: &mut Play<W, FlagAnd, Global>,
    asked: (u16, u16, Verb<FlagAnd>),
    names: &[StepName],
    reply: Reply<FlagAnd>,
) -> Result<(), Fail> {
    let (rank, comm, verb) = asked;
    let mut taken = Vec::new(alloc);
    assert!(rt; play.begin(rank, comm, verb));
    let answered = play.finish(rank, &mut taken)?;
    assert_eq!(rt; answered, Some(reply));
    assert_eq!(rt; taken.as_slice(), names);
    assert!(rt; play.next(rank) == None);
    Ok(())
}

/// A move in a play, and what is to come of it.
#[derive(Clone, Copy, Debug)]
enum Move<'a> {
    /// The outside declares a rank, which wasn't declared before.
    Fail(u16),
    /// A rank begins a call, on a communicator.
    Begin(u16, u16, Verb<FlagAnd>),
    /// The steps of a rank's call up to its next one of this name, which isn't made: so many.
    Before(u16, StepName, usize),
    /// The name of the next step of a rank's call.
    Next(u16, Option<StepName>),
    /// The next step of a rank's call, with the reply, where it is the last.
    Step(u16, Option<Reply<FlagAnd>>),
    /// All steps of a rank's call that are left, with its reply.
    Finish(u16, Reply<FlagAnd>),
    /// The same, where the steps have these names.
    FinishBy(u16, &'a [StepName], Reply<FlagAnd>),
    /// A rank's call on a communicator, with nobody in between: its reply, and the names of its steps.
    Call(u16, u16, Verb<FlagAnd>, &'a [StepName], Reply<FlagAnd>),
    /// A rank revokes a communicator by a whole call, which hasn't been revoked.
    Revokes(u16, u16),
    /// The first so many of the failures that a rank has seen among the members of a communicator that it holds.
    Group(u16, u16, u16, &'a [u16]),
}

/// Makes a move: whether that comes of it which is to.
fn comes<W: Words<FlagAnd, Global>>(
    rt: &impl Abort,
    alloc: Global,
    play: &mut Play<W, FlagAnd, Global>,
    made: Move,
) -> Result<bool, Fail> {
    let mut taken = Vec::new(alloc);
    match made {
        Move::Fail(rank) => Ok(play.fail(rank) == Ok(true)),
        Move::Begin(rank, comm, verb) => Ok(play.begin(rank, comm, verb)),
        Move::Before(rank, name, count) => Ok(play.before(rank, name) == count),
        Move::Next(rank, name) => Ok(play.next(rank) == name),
        Move::Step(rank, reply) => Ok(play.step(rank) == reply),
        Move::Finish(rank, reply) => Ok(play.finish(rank, &mut taken)? == Some(reply)),
        Move::FinishBy(rank, names, reply) => {
            let answered = play.finish(rank, &mut taken)?;
            assert_eq!(rt; taken.as_slice(), names);
            Ok(answered == Some(reply))
        }
        Move::Call(rank, comm, verb, names, reply) => {
            takes(rt, alloc, play, (rank, comm, verb), names, reply)?;
            Ok(true)
        }
        Move::Revokes(rank, comm) => Ok(play.revoke(rank, comm) == Some(Ok(true))),
        Move::Group(rank, comm, count, group) => {
            match first_of(alloc, play, rank, comm, count)? {
                Some(found) => Ok(found.as_slice() == group),
                None => Ok(false),
            }
        }
    }
}

/// Makes the moves of a play, one after another.
fn goes<W: Words<FlagAnd, Global>>(
    rt: &impl Abort,
    alloc: Global,
    play: &mut Play<W, FlagAnd, Global>,
    moves: &[Move],
) -> Result<(), Fail> {
    for made in moves {
        let came = comes(rt, alloc, play, *made)?;
        assert!(rt; came, "{made:?}");
    }
    Ok(())
}

#[test]
fn revoked_between_loads(rt: HostRuntime) -> Result<(), Fail> {
    let moves = [
        Move::Call(0, 0, Verb::Barrier, &[List, Arrive], Reply::Started),
        Move::Call(1, 0, Verb::Barrier, &[List, Arrive], Reply::Started),
        Move::Begin(0, 0, Verb::Poll),
        // The look makes one load, and two arrivals are read.
        Move::Before(0, Revocation, 3),
        Move::Call(1, 0, Verb::Revoke, &[List, Revoke], Reply::Revoked),
        Move::Next(0, Some(Revocation)),
        Move::Step(0, Some(Reply::Refused(Refusal::IsRevoked))),
        Move::Next(0, None),
    ];
    let mut play = open(rt.alloc(), limits(2, 1, 2))?;
    goes(&rt, rt.alloc(), &mut play, &moves)
}

#[test]
fn whole_calls_between_steps(rt: HostRuntime) -> Result<(), Fail> {
    let moves = [
        Move::Call(0, 0, Verb::Barrier, &[List, Arrive], Reply::Started),
        Move::Begin(0, 0, Verb::Poll),
        Move::Before(0, Arrival, 1),
        Move::Revokes(1, 0),
        Move::FinishBy(
            0,
            &[Arrival, Arrival, Revocation],
            Reply::Refused(Refusal::IsRevoked),
        ),
    ];
    let mut play = open(rt.alloc(), limits(2, 1, 2))?;
    goes(&rt, rt.alloc(), &mut play, &moves)
}

#[test]
fn late_arrival(rt: HostRuntime) -> Result<(), Fail> {
    let moves = [
        Move::Begin(1, 0, Verb::Barrier),
        Move::Before(1, Arrive, 1),
        Move::Fail(1),
        Move::Call(0, 0, Verb::Barrier, &[List, List, Arrive], Reply::Started),
        Move::Begin(0, 0, Verb::Poll),
        // The look makes one load, behind rank 1, which is missing when its arrival is read.
        Move::Before(0, Revocation, 2),
        Move::Step(1, Some(Reply::Started)),
        Move::Step(0, Some(Reply::Refused(Refusal::ProcFailed))),
        Move::Call(1, 0, Verb::Poll, &[List; 2], FAILED),
        Move::Call(1, 0, Verb::Poll, &[], FAILED),
    ];
    let mut play = open(rt.alloc(), limits(2, 1, 2))?;
    goes(&rt, rt.alloc(), &mut play, &moves)
}

#[test]
fn reads_on_after_its_look(rt: HostRuntime) -> Result<(), Fail> {
    let moves = [
        Move::Call(0, 0, Verb::Shrink, &[List, Wing, Settle], Reply::Started),
        Move::Begin(0, 0, Verb::Poll),
        // The look makes one load, and both blocks are loaded.
        Move::Before(0, Slot, 3),
        Move::Fail(2),
        Move::Begin(1, 0, Verb::Shrink),
        Move::Finish(1, Reply::Started),
        // Rank 1 marks rank 2, so that the round is decided, and makes the communicator.
        Move::Begin(1, 0, Verb::Poll),
        Move::Finish(1, shrunk(2)),
        Move::FinishBy(
            0,
            &[
                Slot, Wing, Slot, Wing, Wing, Cache, Slot, Wing, Slot, Wing, Cache, List, Comm,
            ],
            shrunk(2),
        ),
    ];
    let mut play = open(rt.alloc(), limits(3, 2, 2))?;
    goes(&rt, rt.alloc(), &mut play, &moves)
}

#[test]
fn acknowledging_looks_alone(rt: HostRuntime) -> Result<(), Fail> {
    let moves = [
        Move::Fail(2),
        Move::Begin(0, 0, Verb::AckAll),
        // One load has found rank 2, and the look goes on until it finds no more.
        Move::Step(0, None),
        Move::Fail(1),
        Move::FinishBy(0, &[List, List], Reply::Acked { count: 2 }),
        Move::Fail(3),
        Move::Begin(0, 0, Verb::GetAcked),
        Move::Step(0, None),
        Move::Next(0, Some(List)),
        Move::Step(0, Some(Reply::FailedGroup { count: 2 })),
        Move::Group(0, 0, 2, &[2, 1]),
        Move::Call(
            0,
            1,
            Verb::GetAcked,
            &[List],
            Reply::Refused(Refusal::NoSuchComm),
        ),
        Move::Call(3, 0, Verb::AckAll, &[List; 4], FAILED),
    ];
    let mut play = open(rt.alloc(), limits(5, 1, 2))?;
    goes(&rt, rt.alloc(), &mut play, &moves)
}

#[test]
fn names_in_order(rt: HostRuntime) -> Result<(), Fail> {
    let group = Reply::FailedGroup { count: 2 };
    // The first look finds two, and each later one begins behind them.
    let settles = &[List, Wing, Settle];
    let reads = &[
        List, Block, Block, Mark, Mark, Slot, Wing, Slot, Wing, Cache, Slot, Slot, Wing, Cache,
    ];
    let spawns = &[
        List, Block, Block, Mark, Mark, Slot, Wing, Slot, Wing, Cache, Slot, Slot, Wing, Cache,
        Comm, Spawn,
    ];
    let arrives = &[List, Arrive];
    let waits = &[List, Arrival, Revocation];
    let revokes = &[List, Revoke];
    let asks = &[List, Revocation];
    let revoked = Reply::Standing { revoked: true };
    let moves = [
        Move::Fail(1),
        Move::Fail(2),
        Move::Call(0, 0, Verb::Get, &[List; 3], group),
        Move::Call(0, 0, agree(0x3), settles, Reply::Started),
        Move::Call(0, 0, Verb::Poll, reads, agreed(0x3, 2, true)),
        Move::Call(0, 0, Verb::Shrink, settles, Reply::Started),
        Move::Call(0, 0, Verb::Poll, spawns, shrunk(1)),
        Move::Call(0, 1, Verb::Barrier, arrives, Reply::Started),
        Move::Call(0, 1, Verb::Poll, waits, Reply::Done),
        Move::Call(0, 1, Verb::Revoke, revokes, Reply::Revoked),
        Move::Call(0, 1, Verb::Standing, asks, revoked),
        Move::Call(0, 1, Verb::Free, &[List], Reply::Freed),
    ];
    let mut play = open(rt.alloc(), limits(3, 2, 3))?;
    goes(&rt, rt.alloc(), &mut play, &moves)
}

#[test]
fn cached_rounds(rt: HostRuntime) -> Result<(), Fail> {
    let both = &[
        List, Block, Block, Slot, Wing, Slot, Wing, Wing, Cache, Slot, Wing, Slot, Wing, Wing,
        Cache,
    ];
    let of_three = [
        Move::Call(0, 0, agree(0x3), &[List, Wing, Settle], Reply::Started),
        Move::Call(1, 0, agree(0x6), &[List, Wing, Settle], Reply::Started),
        Move::Call(2, 0, agree(0x7), &[List, Wing, Settle], Reply::Started),
        Move::Call(0, 0, Verb::Poll, both, agreed(0x2, 0, false)),
        // The round is cached: its poll ends after five steps.
        Move::Begin(1, 0, Verb::Poll),
        Move::Step(1, None),
        Move::Step(1, None),
        Move::Step(1, None),
        Move::Step(1, None),
        Move::Step(1, Some(agreed(0x2, 0, false))),
    ];
    let mut play = open(rt.alloc(), limits(3, 1, 2))?;
    goes(&rt, rt.alloc(), &mut play, &of_three)?;
    // All four members are in the only block.
    let one = &[
        List, Block, Slot, Wing, Slot, Wing, Slot, Wing, Slot, Wing, Wing, Cache,
    ];
    let of_four = [
        Move::Call(0, 0, agree(0x3), &[List, Wing, Settle], Reply::Started),
        Move::Call(1, 0, agree(0x6), &[List, Wing, Settle], Reply::Started),
        Move::Call(2, 0, agree(0x7), &[List, Wing, Settle], Reply::Started),
        Move::Call(3, 0, agree(0xf), &[List, Wing, Settle], Reply::Started),
        Move::Call(0, 0, Verb::Poll, one, agreed(0x2, 0, false)),
        Move::Call(
            1,
            0,
            Verb::Poll,
            &[List, Block, Wing],
            agreed(0x2, 0, false),
        ),
    ];
    let mut play = open(rt.alloc(), limits(4, 1, 2))?;
    goes(&rt, rt.alloc(), &mut play, &of_four)
}

#[test]
fn looks_begin_behind(rt: HostRuntime) -> Result<(), Fail> {
    let nobody = Reply::FailedGroup { count: 0 };
    let one = Reply::FailedGroup { count: 1 };
    let moves = [
        Move::Call(0, 0, Verb::Get, &[List], nobody),
        Move::Fail(2),
        Move::Call(0, 0, Verb::Get, &[List; 2], one),
        Move::Call(0, 0, Verb::Get, &[List], one),
        // The last place of the list ends the look, too.
        Move::Fail(1),
        Move::Fail(0),
        Move::Call(0, 0, Verb::Get, &[List; 2], FAILED),
        Move::Call(0, 0, Verb::Get, &[], FAILED),
    ];
    let mut play = open(rt.alloc(), limits(3, 1, 1))?;
    goes(&rt, rt.alloc(), &mut play, &moves)
}

/// A line of a script: the outside declares a rank, or a rank is asked, on a communicator.
#[derive(Clone, Copy)]
enum Line {
    /// This rank is declared.
    Fail(u16),
    /// This rank is asked, on this communicator.
    Ask(u16, u16, Verb<FlagAnd>),
}

/// A line's reply step by step, and how many steps it takes; a declaration is made whole.
fn stepped(
    alloc: Global,
    play: &mut Plain,
    line: Line,
) -> Result<(Option<Reply<FlagAnd>>, usize), Fail> {
    match line {
        Line::Fail(rank) => match play.fail(rank) {
            Ok(true) => Ok((Some(Reply::Declared), 0)),
            Ok(false) => Ok((Some(Reply::AlreadyFailed), 0)),
            Err(refusal) => Ok((Some(Reply::Refused(refusal)), 0)),
        },
        Line::Ask(rank, comm, verb) => {
            let mut names = Vec::new(alloc);
            if !play.begin(rank, comm, verb) {
                return Ok((None, 0));
            }
            let reply = play.finish(rank, &mut names)?;
            Ok((reply, names.len()))
        }
    }
}

/// A line is answered so, whole and step by step, with so many steps.
fn one_line(
    rt: &impl Abort,
    job: &mut Job<PlainWords<FlagAnd>, FlagAnd, Global>,
    play: &mut Plain,
    group: &mut Vec<u16>,
    alloc: Global,
    script: (Line, Reply<FlagAnd>, usize),
) -> Result<(), Fail> {
    let (line, reply, count) = script;
    let asked = match line {
        Line::Fail(rank) => Call::Fail { rank },
        Line::Ask(rank, comm, verb) => call_of(rank, comm, verb),
    };
    let whole = apply(job, &asked, group)?;
    let (answered, taken) = stepped(alloc, play, line)?;
    assert_eq!(rt; whole, reply);
    assert_eq!(rt; answered, Some(reply));
    assert_eq!(rt; taken, count);
    Ok(())
}

/// A line that is refused so, with so many steps.
fn refused(line: Line, refusal: Refusal, count: usize) -> (Line, Reply<FlagAnd>, usize) {
    (line, Reply::Refused(refusal), count)
}

/// A script is answered so, line by line.
fn both(
    rt: &impl Abort,
    alloc: Global,
    limits: Limits,
    script: &[(Line, Reply<FlagAnd>, usize)],
) -> Result<(), Fail> {
    let mut job = Job::open(alloc, PlainWords::open(limits)?)?;
    let mut play = open(alloc, limits)?;
    let mut group = Vec::new(alloc);
    for line in script {
        one_line(rt, &mut job, &mut play, &mut group, alloc, *line)?;
    }
    Ok(())
}

#[test]
fn agreements_as_whole(rt: HostRuntime) -> Result<(), Fail> {
    let script = [
        (
            Line::Ask(0, 0, Verb::Get),
            Reply::FailedGroup { count: 0 },
            1,
        ),
        (Line::Ask(2, 0, agree(0x5)), Reply::Started, 3),
        (Line::Fail(2), Reply::Declared, 0),
        (Line::Fail(2), Reply::AlreadyFailed, 0),
        (
            Line::Ask(0, 0, Verb::Get),
            Reply::FailedGroup { count: 1 },
            2,
        ),
        (Line::Ask(0, 0, Verb::Ack(9)), Reply::Acked { count: 1 }, 1),
        (Line::Ask(0, 0, agree(0xf)), Reply::Started, 3),
        refused(Line::Ask(0, 0, agree(0xf)), Refusal::Busy, 1),
        (Line::Ask(0, 0, Verb::Poll), Reply::Pending, 7),
        (Line::Ask(1, 0, agree(0x7)), Reply::Started, 4),
        (Line::Ask(0, 0, Verb::Poll), agreed(0x5, 1, true), 16),
        (Line::Ask(1, 0, Verb::Poll), agreed(0x5, 1, true), 5),
        refused(Line::Ask(1, 0, Verb::Poll), Refusal::Idle, 1),
        refused(Line::Ask(0, 1, Verb::Get), Refusal::NoSuchComm, 1),
        (Line::Ask(2, 0, Verb::Poll), FAILED, 2),
        (Line::Ask(2, 0, Verb::Poll), FAILED, 0),
        (Line::Ask(2, 9, Verb::Free), FAILED, 0),
    ];
    both(&rt, rt.alloc(), limits(3, 1, 4), &script)
}

#[test]
fn barriers_as_whole(rt: HostRuntime) -> Result<(), Fail> {
    let script = [
        (Line::Ask(0, 0, Verb::Barrier), Reply::Started, 2),
        (Line::Ask(0, 0, Verb::Poll), Reply::Pending, 4),
        (Line::Ask(1, 0, Verb::Barrier), Reply::Started, 2),
        (Line::Ask(2, 0, Verb::Barrier), Reply::Started, 2),
        (Line::Ask(0, 0, Verb::Poll), Reply::Done, 5),
        (Line::Fail(2), Reply::Declared, 0),
        (Line::Ask(0, 0, Verb::Barrier), Reply::Started, 3),
        refused(Line::Ask(0, 0, Verb::Barrier), Refusal::Busy, 1),
        refused(Line::Ask(0, 0, Verb::Poll), Refusal::ProcFailed, 3),
        (
            Line::Ask(0, 0, Verb::Standing),
            Reply::Standing { revoked: false },
            2,
        ),
        (Line::Ask(1, 0, Verb::Revoke), Reply::Revoked, 3),
        (Line::Ask(0, 0, Verb::Revoke), Reply::AlreadyRevoked, 2),
        (
            Line::Ask(0, 0, Verb::Standing),
            Reply::Standing { revoked: true },
            2,
        ),
        refused(Line::Ask(1, 0, Verb::Poll), Refusal::IsRevoked, 5),
        (Line::Ask(0, 0, Verb::Barrier), Reply::Started, 2),
        refused(Line::Ask(0, 0, Verb::Poll), Refusal::IsRevoked, 3),
        refused(Line::Ask(0, 0, Verb::Barrier), Refusal::RoundsUsedUp, 1),
    ];
    both(&rt, rt.alloc(), limits(3, 1, 3), &script)
}

#[test]
fn shrinks_as_whole(rt: HostRuntime) -> Result<(), Fail> {
    let script = [
        (Line::Fail(2), Reply::Declared, 0),
        (Line::Ask(0, 0, Verb::Shrink), Reply::Started, 4),
        (Line::Ask(0, 0, Verb::Poll), Reply::Pending, 7),
        (Line::Ask(1, 0, Verb::Shrink), Reply::Started, 4),
        (Line::Ask(0, 0, Verb::Poll), shrunk(2), 17),
        (Line::Ask(1, 0, Verb::Poll), shrunk(2), 6),
        (Line::Ask(0, 1, Verb::Shrink), Reply::Started, 3),
        refused(Line::Ask(0, 0, Verb::Shrink), Refusal::ShrinkOpen, 1),
        (Line::Ask(0, 0, agree(0x1)), Reply::Started, 3),
        (Line::Ask(1, 0, Verb::Shrink), Reply::Started, 3),
        refused(Line::Ask(0, 0, Verb::Poll), Refusal::Mismatch, 15),
        refused(Line::Ask(1, 0, Verb::Poll), Refusal::Mismatch, 5),
        (Line::Ask(1, 1, Verb::Free), Reply::Freed, 1),
        refused(Line::Ask(1, 1, Verb::Free), Refusal::NoSuchComm, 1),
        refused(Line::Ask(1, 0, Verb::Free), Refusal::WorldKept, 1),
    ];
    both(&rt, rt.alloc(), limits(3, 3, 4), &script)
}

/// The first so many of the failures that a rank has seen among the members of a communicator that it holds.
fn first_of<W: Words<FlagAnd, Global>>(
    alloc: Global,
    play: &Play<W, FlagAnd, Global>,
    rank: u16,
    comm: u16,
    count: u16,
) -> Result<Option<Vec<u16>>, AllocError> {
    let mut group = Vec::new(alloc);
    let Some(own) = play.rank(rank) else {
        return Ok(None);
    };
    let Some(members) = own.members(comm) else {
        return Ok(None);
    };
    for failed in own.failures() {
        if group.len() < count as usize && members.contains(failed) {
            group.push(*failed)?;
        }
    }
    Ok(Some(group))
}

#[test]
fn counts_stand_for_groups(rt: HostRuntime) -> Result<(), Fail> {
    let made = Reply::Shrunk {
        comm: 1,
        context: 1,
        size: 3,
    };
    let one = Reply::FailedGroup { count: 1 };
    let three = Reply::FailedGroup { count: 3 };
    let moves = [
        Move::Fail(3),
        Move::Call(
            0,
            0,
            Verb::Shrink,
            &[List, List, Wing, Settle],
            Reply::Started,
        ),
        Move::Call(
            1,
            0,
            Verb::Shrink,
            &[List, List, Wing, Settle],
            Reply::Started,
        ),
        Move::Call(
            2,
            0,
            Verb::Shrink,
            &[List, List, Wing, Settle],
            Reply::Started,
        ),
        Move::Begin(0, 0, Verb::Poll),
        Move::Finish(0, made),
        Move::Fail(1),
        Move::Begin(0, 1, Verb::Get),
        Move::Step(0, None),
        Move::Step(0, Some(one)),
        // What is declared after the look isn't among them.
        Move::Fail(2),
        Move::Group(0, 1, 1, &[1]),
        Move::Call(0, 0, Verb::Get, &[List; 2], three),
        Move::Group(0, 0, 3, &[3, 1, 2]),
        Move::Group(0, 1, 2, &[1, 2]),
    ];
    let mut play = open(rt.alloc(), limits(4, 2, 2))?;
    goes(&rt, rt.alloc(), &mut play, &moves)
}

#[test]
fn refused_for_good_without_a_step(rt: HostRuntime) -> Result<(), Fail> {
    let alloc = rt.alloc();
    let guest = Entry {
        by: Caller::Outside,
        event: Event::Fail { rank: 0 },
    };
    let plain = PlainWords::<FlagAnd>::open(limits(2, 1, 2))?;
    let mut play = Play::open(
        alloc,
        Intruder {
            plain,
            guest,
            wait: None,
        },
    )?;
    let fails = [
        Move::Fail(1),
        Move::Begin(1, 0, Verb::Get),
        Move::Finish(1, FAILED),
    ];
    goes(&rt, alloc, &mut play, &fails)?;
    // Just before the next step rank 0 is declared, too.
    play.wait(0);
    let makes_none = [
        Move::Begin(1, 0, Verb::Get),
        Move::Next(1, None),
        Move::Step(1, Some(FAILED)),
    ];
    goes(&rt, alloc, &mut play, &makes_none)?;
    assert!(rt; play.nth(1).is_none());
    let looks = [
        Move::Begin(0, 0, Verb::Get),
        Move::Next(0, Some(List)),
        Move::Step(0, None),
    ];
    goes(&rt, alloc, &mut play, &looks)?;
    assert!(rt; play.nth(1).is_some());
    goes(&rt, alloc, &mut play, &[Move::Step(0, Some(FAILED))])
}
