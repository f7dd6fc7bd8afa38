//! Which part of a bad line is wrong: the text, the look, the event, the caller, the point, the group or the answer.
use crate::account::Account;
use crate::say::{Part, put_ranks, say};
use crate::scene::{Begun, Scene};
use crate::tries::Candidate;
use std::alloc::{AllocError, Allocator};
use ulfm_laws::FlagAnd;
use ulfm_lines::trace_line::LONGEST;
use ulfm_model::event::{Caller, Event};
use ulfm_model::groups::{failed, members};
use ulfm_model::reads::{
    count_made, failures, has_arrived, has_rank, is_declared, is_revoked, slot,
};
use ulfm_model::{Line, Reply};

/// The most lines that a trace may have.
const LAST_LINE: u32 = 5_000_000;

/// Notes what is wrong with the text of a line.
pub(crate) fn note_text<A: Allocator + Copy>(
    account: &mut Account<A>,
    bad: &[u8],
    is_whole: bool,
    number: u32,
) -> Result<(), AllocError> {
    account.note(&[
        Part::Words(b"wrong: the text, since "),
        Part::Words(text_reason(bad, is_whole, number)),
    ])
}

/// Why a line isn't of the grammar.
fn text_reason(bad: &[u8], is_whole: bool, number: u32) -> &'static [u8] {
    if bad.len() > LONGEST {
        return b"a line has at most 8192 bytes";
    }
    if !is_whole && bad.is_empty() {
        return b"there is none";
    }
    if !is_whole {
        return b"it ends inside this line";
    }
    if number == 1 {
        return b"a trace begins with 'ulfm-trace 1 RANKS COMMS ROUNDS'";
    }
    if number > LAST_LINE {
        return b"a trace has at most 5000000 lines";
    }
    b"no line of a trace is spelled so"
}

/// Notes what is wrong with a look.
pub(crate) fn note_look<A: Allocator + Copy + Drop>(
    account: &mut Account<A>,
    scene: &Scene<A>,
    rank: u16,
) -> Result<(), AllocError> {
    let found = match scene.begun {
        Some(begun) => begun.look,
        None => None,
    };
    if found.is_some() {
        return account.note(&[Part::Words(b"wrong: the look, since this call has looked before")]);
    }
    if rank >= scene.limits.ranks {
        return account.note(&[Part::Words(b"wrong: the look, since the world has no such rank")]);
    }
    if scene.refused {
        return account.note(&[Part::Words(
            b"wrong: the look, since the rank was refused for good before",
        )]);
    }
    let declared = failures(account.alloc, &scene.history)?;
    let mut note = say(
        account.alloc,
        &[
            Part::Words(b"wrong: the look, since the number of those declared is "),
            Part::Number(u32::try_from(declared.len()).unwrap_or(u32::MAX)),
            Part::Words(b":"),
        ],
    )?;
    put_ranks(&mut note, &declared)?;
    account.push(note)
}

/// Notes why an event isn't its caller's to make.
pub(crate) fn note_own<A: Allocator + Copy>(
    account: &mut Account<A>,
    scene: &Scene<A>,
) -> Result<(), AllocError> {
    account.note(&[
        Part::Words(b"wrong: the caller, since "),
        Part::By(scene.caller),
        Part::Words(own_reason(scene)),
    ])
}

/// Why an event isn't its caller's to make, behind the caller's name.
fn own_reason<A: Allocator>(scene: &Scene<A>) -> &'static [u8] {
    match scene.begun {
        None => b" has no call under way",
        Some(begun) => {
            if begun.look.is_none() {
                return b"'s call has not looked yet";
            }
            b"'s call may not make this event"
        }
    }
}

/// Notes why an event may not come next.
pub(crate) fn note_event<A: Allocator + Copy + Drop>(
    account: &mut Account<A>,
    scene: &Scene<A>,
    event: Option<Event<FlagAnd>>,
) -> Result<(), AllocError> {
    let reason = match event {
        None =>
            b"known is at most 1024, acked at most known, and a mark's known at least 1".as_slice(),
        Some(event) => event_reason(account.alloc, scene, &event)?,
    };
    account.note(&[
        Part::Words(b"wrong: the event, since "),
        Part::Words(reason),
    ])
}

/// Why an event may not come next.
fn event_reason<A: Allocator + Copy + Drop>(
    alloc: A,
    scene: &Scene<A>,
    event: &Event<FlagAnd>,
) -> Result<&'static [u8], AllocError> {
    match *event {
        Event::Fail { rank } if rank >= scene.limits.ranks => Ok(b"the world has no such rank"),
        Event::Fail { .. } => Ok(b"the rank is declared already"),
        Event::Revoke { comm } if is_revoked(&scene.history, comm) => {
            Ok(b"the communicator is revoked already")
        }
        Event::Revoke { .. } => Ok(b"there is no such communicator"),
        Event::Spawn { .. } => Ok(
            b"it makes no communicator that can be made: of the next number, of a round that decided on ids, and once",
        ),
        Event::Settle {
            comm,
            round,
            rank,
            ..
        } => {
            let many = b"it knows more failures than the communicator has";
            settled_reason(alloc, scene, (comm, round, rank), many)
        }
        Event::Mark {
            comm,
            round,
            rank,
            ..
        } => {
            let declared = failed(alloc, scene.limits.ranks, &scene.history, comm)?;
            let unlike = mark_reason(has_rank(&declared, rank));
            settled_reason(alloc, scene, (comm, round, rank), unlike)
        }
        Event::Arrive { comm, round, rank } => {
            if has_arrived(&scene.history, comm, round, rank) {
                Ok(b"the rank has arrived already")
            } else {
                place_reason(alloc, scene, (comm, round, rank))
            }
        }
    }
}

/// Why there is no such place of a communicator, a round and a rank.
fn place_reason<A: Allocator + Copy + Drop>(
    alloc: A,
    scene: &Scene<A>,
    place: (u16, u16, u16),
) -> Result<&'static [u8], AllocError> {
    let (comm, round, rank) = place;
    if usize::from(comm) > count_made(&scene.history) {
        return Ok(b"there is no such communicator");
    }
    if round >= scene.limits.rounds {
        return Ok(b"the world has no such round");
    }
    let group = members(alloc, scene.limits.ranks, &scene.history, comm)?;
    if has_rank(&group, rank) {
        return Ok(b"its counts are others");
    }
    Ok(b"the rank is no member of the communicator")
}

/// Why a mark's count isn't that of its rank, by whether the rank is declared.
fn mark_reason(declared: bool) -> &'static [u8] {
    if declared {
        b"known must be the place of the rank among the communicator's failures"
    } else {
        b"the rank isn't declared"
    }
}

/// Why a rank may not be settled so: for its counts, as is told, where it may be settled.
fn settled_reason<A: Allocator + Copy + Drop>(
    alloc: A,
    scene: &Scene<A>,
    place: (u16, u16, u16),
    counts: &'static [u8],
) -> Result<&'static [u8], AllocError> {
    let (comm, round, rank) = place;
    if slot(&scene.history, comm, round, rank).is_some() {
        return Ok(b"the rank is settled in this round already");
    }
    let is_place = place_reason(alloc, scene, place)?;
    if is_place != b"its counts are others".as_slice() {
        return Ok(is_place);
    }
    Ok(counts)
}

/// Whether two replies list a group of the same thing.
fn lists_same(one: &Reply<FlagAnd>, other: &Reply<FlagAnd>) -> bool {
    match (*one, *other) {
        (Reply::FailedGroup { .. }, Reply::FailedGroup { .. }) => true,
        (
            Reply::Shrunk { comm, context, .. },
            Reply::Shrunk {
                comm: other_comm,
                context: other_context,
                ..
            },
        ) => comm == other_comm && context == other_context,
        _ => false,
    }
}

/// Which part of a reply is wrong, by those that were found legal: the group, the point or the answer.
fn wrong_part<A: Allocator>(
    point: u32,
    reply: &Reply<FlagAnd>,
    group: &[u16],
    found: &[Candidate<A>],
) -> &'static [u8] {
    for candidate in found {
        if let Line::Replied {
            point: at,
            reply: Some(other),
            ..
        } = candidate.line
        {
            if at == point && lists_same(reply, &other) {
                return b"wrong: the group";
            }
            if at != point && *reply == other && candidate.group.as_slice() == group {
                return b"wrong: the point";
            }
        }
    }
    b"wrong: the answer"
}

/// Whether the caller must look before its answer, and hasn't.
fn lacks_look<A: Allocator>(scene: &Scene<A>, begun: &Begun) -> bool {
    match scene.caller {
        Caller::Outside => false,
        Caller::Rank(rank) => {
            begun.look.is_none() && !scene.refused && rank < scene.limits.ranks
        }
    }
}

/// Notes which part of a reply is wrong.
pub(crate) fn note_reply<A: Allocator + Copy>(
    account: &mut Account<A>,
    scene: &Scene<A>,
    begun: &Begun,
    line: &Line<FlagAnd>,
    group: &[u16],
    found: &[Candidate<A>],
) -> Result<(), AllocError> {
    let Line::Replied { point, reply, .. } = *line else {
        return Ok(());
    };
    let events = scene.events();
    if point < begun.events || point > events {
        return account.note(&[
            Part::Words(b"wrong: the point, since the call has those from "),
            Part::Number(begun.events),
            Part::Words(b" to "),
            Part::Number(events),
        ]);
    }
    if lacks_look(scene, begun) {
        return account.note(&[Part::Words(
            b"wrong: the look, since the call has made none before its answer",
        )]);
    }
    match reply {
        Some(reply) => account.note(&[Part::Words(wrong_part(point, &reply, group, found))]),
        None => account.note(&[Part::Words(
            b"wrong: the answer, since no communicator has such a context id",
        )]),
    }
}
