//! How far each caller has come in an explanation: where lines may stand that the log doesn't have, and what an
//! open start may have done.
ghost use Rattle.std.specs.Prelude.{◌≡◌, None, map, true};
ghost use Rattle.ulfm_model.specs.Answers.{traits_of};
ghost use Rattle.ulfm_model.specs.Traces.{same_caller};
ghost use Rattle.ulfm_observed.specs.Stages.{acted_stage, aid_after, asks_for, begun_or_gone, called_stage, declares};
ghost use Rattle.ulfm_lines.specs.Callers.{line_by};
ghost use Rattle.ulfm_observed.specs.Stages.{ends, ends_refused, gone_or_wrong, hidden_call, hidden_reply};
ghost use Rattle.ulfm_observed.specs.Stages.{may_help, may_stop, own_aid, own_stage, polls, replied_stage};
ghost use Rattle.ulfm_observed.specs.Stages.{says_started, shown_of, starts};

use crate::step::Step;
use std::alloc::Allocator;
use ulfm_laws::FlagAnd;
use ulfm_model::call::rank_of;
use ulfm_model::{Call, Caller, Event, Line, Refusal, Reply};

/// How far a rank has come.
#[derive(Clone, Copy, Debug, PartialEq, Eq)]
pub enum Stage {
    /// No call is under way.
    Idle,
    /// A call that the log has is under way, on this communicator where it is a start.
    Under(Option<u16>),
    /// So is a start, and the rank took part in its round.
    Acted(u16),
    /// A start was answered `started`, which the log doesn't have.
    Begun(u16),
    /// The poll behind it is under way, which the log doesn't have.
    Ending,
    /// The log has no further line of the rank, since its end was lost.
    Gone,
    /// There was a line that may not stand there.
    Wrong,
}

/// How far the outside has come.
#[derive(Clone, Copy, Debug, PartialEq, Eq)]
pub struct Aid {
    /// Whom its open call is to declare, if one is open.
    pub asked: Option<u16>,
    /// Whether each of its lines may stand where it does.
    pub fine: bool,
}

/// Whose line it is.
pub fn line_by(line: &Line<FlagAnd>) -> Caller
    ensures { result ≡ line_by line.now }
{
    match *line {
        Line::Called { call, .. } => caller_of(&call),
        Line::Looked { rank, .. } => Caller::Rank(rank),
        Line::Happened { by, .. } => by,
        Line::Replied { by, .. } => by,
    }
}

/// Whose call it is: the outside's, where it declares a rank failed.
pub fn caller_of(asked: &Call<FlagAnd>) -> Caller
    ensures { result ≡ (traits_of asked.now).by }
{
    match *asked {
        Call::Fail { .. } => Caller::Outside,
        _ => Caller::Rank(rank_of(asked)),
    }
}

/// Whether two callers are one.
pub fn same_caller(one: Caller, other: Caller) -> bool
    ensures { result ≡ same_caller one other }
{
    match (one, other) {
        (Caller::Outside, Caller::Outside) => true,
        (Caller::Rank(rank), Caller::Rank(next)) => rank == next,
        _ => false,
    }
}

/// The communicator of a start; none of other calls.
fn start_of(asked: &Call<FlagAnd>) -> Option<u16>
    ensures { result ≡ starts asked.now }
{
    match *asked {
        Call::Agree { comm, .. } | Call::Shrink { comm, .. } | Call::Barrier { comm, .. } => {
            Some(comm)
        }
        _ => None,
    }
}

/// Whether a call polls this communicator.
fn polls_on(on: u16, asked: &Call<FlagAnd>) -> bool
    ensures { result ≡ polls on asked.now }
{
    match *asked {
        Call::Poll { comm, .. } => on == comm,
        _ => false,
    }
}

/// Whether a reply to a poll ends the request.
fn is_end(told: &Option<Reply<FlagAnd>>) -> bool
    ensures { result ≡ ends told.now }
{
    match *told {
        Some(Reply::Agreed { .. } | Reply::Shrunk { .. } | Reply::Done) => true,
        Some(Reply::Refused(refusal)) => ends_refused(refusal),
        _ => false,
    }
}

/// Whether a refusal ends the request.
fn ends_refused(refusal: Refusal) -> bool
    ensures { result ≡ ends_refused refusal }
{
    match refusal {
        Refusal::Mismatch
        | Refusal::NoContext
        | Refusal::NoRoom
        | Refusal::IsRevoked
        | Refusal::ProcFailed => true,
        _ => false,
    }
}

/// Whether a reply says that a request is open.
fn is_started(told: &Option<Reply<FlagAnd>>) -> bool
    ensures { result ≡ says_started told.now }
{
    match *told {
        Some(Reply::Started) => true,
        _ => false,
    }
}

/// The stage where a line may stand only if the rank's lines were lost.
fn gone(lost: bool) -> Stage
    ensures { result ≡ gone_or_wrong lost }
{
    if lost { Stage::Gone } else { Stage::Wrong }
}

impl Stage {
    /// After a call that the log has.
    fn called(self, asked: &Call<FlagAnd>) -> Stage
        ensures { result ≡ called_stage self asked.now }
    {
        match self {
            Stage::Idle => Stage::Under(start_of(asked)),
            _ => Stage::Wrong,
        }
    }

    /// After a reply that the log has.
    fn replied(self, told: &Option<Reply<FlagAnd>>) -> Stage
        ensures { result ≡ replied_stage self told.now }
    {
        match self {
            Stage::Under(_) => Stage::Idle,
            Stage::Acted(_) => Stage::Idle,
            Stage::Ending => {
                if is_end(told) {
                    Stage::Idle
                } else {
                    Stage::Wrong
                }
            }
            _ => Stage::Wrong,
        }
    }

    /// After a call that the log lacks.
    fn called_unseen(self, lost: bool, asked: &Call<FlagAnd>) -> Stage
        ensures { result ≡ hidden_call lost self asked.now }
    {
        match self {
            Stage::Begun(comm) => {
                if polls_on(comm, asked) {
                    Stage::Ending
                } else {
                    gone(lost)
                }
            }
            _ => gone(lost),
        }
    }

    /// After a reply that the log lacks.
    fn replied_unseen(self, lost: bool, told: &Option<Reply<FlagAnd>>) -> Stage
        ensures { result ≡ hidden_reply lost self told.now }
    {
        match self {
            Stage::Under(Some(comm)) => begun(lost, comm, told),
            Stage::Acted(comm) => begun(lost, comm, told),
            _ => gone(lost),
        }
    }

    /// After an event of the rank's own.
    fn acted(self) -> Stage
        ensures { result ≡ acted_stage self }
    {
        match self {
            Stage::Under(Some(comm)) => Stage::Acted(comm),
            other => other,
        }
    }

    /// After a line of the rank.
    pub(crate) fn after(self, lost: bool, logged: bool, line: &Line<FlagAnd>) -> Stage
        ensures { result ≡ own_stage lost self logged line.now }
    {
        match *line {
            Line::Called { call, .. } => {
                if logged {
                    self.called(&call)
                } else {
                    self.called_unseen(lost, &call)
                }
            }
            Line::Looked { .. } => self,
            Line::Happened { .. } => self.acted(),
            Line::Replied { reply, .. } => {
                if logged {
                    self.replied(&reply)
                } else {
                    self.replied_unseen(lost, &reply)
                }
            }
        }
    }

    /// Whether a rank may stop there.
    pub(crate) fn may_stop(self) -> bool
        ensures { result ≡ may_stop self }
    {
        match self {
            Stage::Wrong => false,
            Stage::Acted(_) => false,
            _ => true,
        }
    }
}

/// The stage behind a reply to a start which the log lacks.
fn begun(lost: bool, comm: u16, told: &Option<Reply<FlagAnd>>) -> Stage
    ensures { result ≡ begun_or_gone lost comm told.now }
{
    if is_started(told) {
        Stage::Begun(comm)
    } else {
        gone(lost)
    }
}

/// Whom a call of the outside is to declare.
fn declared_by(asked: &Call<FlagAnd>) -> Option<u16>
    ensures { result ≡ declares asked.now }
{
    match *asked {
        Call::Fail { rank } => Some(rank),
        _ => None,
    }
}

/// Whether the open call is to declare this rank.
fn asks_for(asked: Option<u16>, rank: u16) -> bool
    ensures { result ≡ asks_for asked rank }
{
    match asked {
        Some(other) => other == rank,
        None => false,
    }
}

/// Whether the outside may make an event.
fn may_help(all: bool, asked: Option<u16>, event: &Option<Event<FlagAnd>>) -> bool
    ensures { result ≡ may_help all asked event.now }
{
    match *event {
        Some(Event::Fail { rank }) => { if all { asks_for(asked, rank) } else { true } }
        Some(Event::Mark { .. }) => true,
        Some(Event::Spawn { .. }) => true,
        _ => false,
    }
}

impl Aid {
    /// After a line of the outside's own.
    fn after(self, all: bool, logged: bool, line: &Line<FlagAnd>) -> Aid
        ensures { result ≡ own_aid all self logged line.now }
    {
        match *line {
            Line::Called { call, .. } => Aid {
                asked: declared_by(&call),
                fine: self.fine && logged,
            },
            Line::Looked { .. } => self,
            Line::Happened { event, .. } => Aid {
                asked: self.asked,
                fine: self.fine && may_help(all, self.asked, &event),
            },
            Line::Replied { .. } => Aid {
                asked: None,
                fine: self.fine && logged,
            },
        }
    }
}

/// Whether the outside declares, marks and makes communicators, and no more; where all declarations are logged, only
/// as it is called to.
pub fn only_helps<A: Allocator>(steps: &[Step<A>], all: bool) -> bool
    ensures { result ≡ (aid_after all (record { asked = None; fine = true }) (map shown_of steps.now)).fine }
{
    let mut aid = Aid {
        asked: None,
        fine: true,
    };
    for step in steps {
        if same_caller(line_by(&step.line), Caller::Outside) {
            aid = aid.after(all, step.logged, &step.line);
        }
    }
    aid.fine
}
