// The lines of a trace that calls tell.
ghost use Rattle.std.specs.Prelude.{◌≡◌, ◌++◌, ℕ, List, [], OnOk};
ghost use Rattle.ulfm_lines.specs.LineTexts.{lines_text};
ghost use Rattle.ulfm_laws.specs.declared.flag_and.FlagAnd.{FlagAnd};
ghost use Rattle.ulfm_model.specs.History.{History};
ghost use Rattle.ulfm_comm.specs.{Calls.{reply_of}, Fails.{declared}};
ghost use Rattle.ulfm_model.specs.Follows.{fail_event, fail_piece};
ghost use Rattle.ulfm_run.specs.{StepLines.{unknown_piece}, Walks.{KnowsGroup}};
ghost use Rattle.ulfm_model.specs.declared.event.Caller.TheVariants.{Outside};
ghost use Rattle.ulfm_run.specs.Seats.{begun_piece, event_by, group_in, line_piece, look_piece, piece_of, reply_piece};

use crate::{Answer, Seat, StepTold};
use std::alloc::{AllocError, Allocator};
use ulfm_laws::FlagAnd;
use ulfm_lines::Teller;
use ulfm_model::event::{Caller, Event};
use ulfm_model::refusal::Refusal;
use ulfm_model::{Call, Line, Reply};

// A line with the ranks that it lists, if it came.
#[inline(always)]
fn tell_any<A: Allocator>(
    line: Option<Line<FlagAnd>>,
    group: &[u16],
    teller: &mut Teller<A>,
) -> Result<(), AllocError>
    ensures { OnOk result (teller.new.text.items ≡ teller.old.text.items ++ lines_text (line_piece line group.now)) }
{
    match line {
        None => Ok(()),
        Some(line) => teller.tell(&line, group),
    }
}

// The line of a look's end, if it came.
#[inline(always)]
fn look_line(rank: u16, look: Option<u16>) -> Option<Line<FlagAnd>>
    ensures { line_piece result [] ≡ look_piece rank look }
{
    let failures = look?;
    Some(Line::Looked { rank, failures })
}

// The line of a caller's event, if one came.
#[inline(always)]
fn event_line(by: Caller, event: Option<Event<FlagAnd>>) -> Option<Line<FlagAnd>>
    ensures { line_piece result [] ≡ event_by by event }
{
    if event.is_none() {
        return None;
    }
    Some(Line::Happened { by, event })
}

// The line of a reply, if it came.
#[inline(always)]
fn reply_line(rank: u16, reply: Option<Answer<FlagAnd>>) -> Option<Line<FlagAnd>>
    ensures { (group : List ℕ) → line_piece result group ≡ reply_piece rank group reply }
{
    let Answer { point, reply } = reply?;
    Some(Line::Replied {
        by: Caller::Rank(rank),
        point,
        reply: Some(reply),
    })
}

// The ranks that a reply of this rank's lists, which named this communicator.
fn list_ranks<A: Allocator + Copy + Drop>(
    seat: &Seat<FlagAnd, A>,
    comm: u16,
    reply: Option<Answer<FlagAnd>>,
    group: &mut Vec<u16, A>,
) -> Result<(), AllocError>
    ensures { OnOk result ((ranks : ℕ) (h : History FlagAnd) → KnowsGroup ranks h comm reply seat.now.own
        → reply_piece seat.now.own.number group.new.items reply ≡ reply_piece seat.now.own.number (group_in ranks h comm reply) reply) }
{
    match reply {
        None => Ok(()),
        Some(answer) => seat.group(&answer.reply, comm, group),
    }
}

/// What one step of a rank's call told, which named this communicator.
pub(crate) fn tell_step<A: Allocator + Copy + Drop>(
    seat: &Seat<FlagAnd, A>,
    comm: u16,
    told: &StepTold<FlagAnd>,
    group: &mut Vec<u16, A>,
    teller: &mut Teller<A>,
) -> Result<(), AllocError>
    ensures { OnOk result ((ranks : ℕ) (h : History FlagAnd) → KnowsGroup ranks h comm told.now.reply seat.now.own
        → teller.new.text.items ≡ teller.old.text.items
        ++ lines_text (piece_of seat.now.own.number told.now (group_in ranks h comm told.now.reply))) }
{
    let rank = seat.number();
    list_ranks(seat, comm, told.reply, group)?;
    tell_any(look_line(rank, told.look), &[], teller)?;
    tell_any(event_line(Caller::Rank(rank), told.event), &[], teller)?;
    tell_any(reply_line(rank, told.reply), group, teller)
}

/// A rank's call begins, and is answered at once, if it is.
pub(crate) fn tell_begun<A: Allocator>(
    rank: u16,
    asked: Call<FlagAnd>,
    padded: bool,
    answer: Option<Answer<FlagAnd>>,
    teller: &mut Teller<A>,
) -> Result<(), AllocError>
    ensures { OnOk result (teller.new.text.items ≡ teller.old.text.items ++ lines_text (begun_piece rank asked padded answer)) }
{
    let line = Line::Called {
        call: asked,
        padded,
    };
    teller.tell(&line, &[])?;
    tell_any(reply_line(rank, answer), &[], teller)
}

/// A call of a rank that the world doesn't have, where there were so many events.
pub(crate) fn tell_unknown<A: Allocator>(
    rank: u16,
    asked: Call<FlagAnd>,
    padded: bool,
    point: u32,
    teller: &mut Teller<A>,
) -> Result<(), AllocError>
    ensures { OnOk result (teller.new.text.items ≡ teller.old.text.items ++ lines_text (unknown_piece rank point asked padded)) }
{
    let by = Caller::Rank(rank);
    let reply = Some(Reply::Refused(Refusal::NoSuchRank));
    let line = Line::Called {
        call: asked,
        padded,
    };
    teller.tell(&line, &[])?;
    teller.tell(&Line::Replied { by, point, reply }, &[])
}

// The reply to a declaration.
fn reply_to(told: Result<bool, Refusal>) -> Reply<FlagAnd>
    ensures { result ≡ reply_of declared told }
{
    match told {
        Ok(true) => Reply::Declared,
        Ok(false) => Reply::AlreadyFailed,
        Err(refusal) => Reply::Refused(refusal),
    }
}

// The event of a declaration, where it declared the rank.
fn declared_event(rank: u16, reply: Reply<FlagAnd>) -> Option<Event<FlagAnd>>
    ensures { event_by Outside result ≡ fail_event rank reply }
{
    match reply {
        Reply::Declared => Some(Event::Fail { rank }),
        _ => None,
    }
}

/// A whole declaration, where there were so many events at its end.
pub(crate) fn tell_declaration<A: Allocator>(
    rank: u16,
    point: u32,
    told: Result<bool, Refusal>,
    teller: &mut Teller<A>,
) -> Result<(), AllocError>
    ensures { OnOk result (teller.new.text.items ≡ teller.old.text.items ++ lines_text (fail_piece rank point (reply_of declared told))) }
{
    let answer = reply_to(told);
    let line = Line::Called {
        call: Call::Fail { rank },
        padded: false,
    };
    teller.tell(&line, &[])?;
    let by = Caller::Outside;
    tell_any(event_line(by, declared_event(rank, answer)), &[], teller)?;
    let reply = Some(answer);
    teller.tell(&Line::Replied { by, point, reply }, &[])
}
