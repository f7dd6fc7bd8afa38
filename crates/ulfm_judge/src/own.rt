//! Whether an event is one that a rank's call may add.
ghost use Rattle.std.specs.Prelude.{◌≡◌};
ghost use Rattle.ulfm_model.specs.Kept.{record_of};
ghost use Rattle.ulfm_judge.specs.Tests.{adds_test, arrives_test, makes_test, marks_test, own_test, poll_test, revokes_test, settles_test};

use std::alloc::Allocator;
use ulfm_model::call::{Call, Request, comm_of};
use ulfm_model::event::Event;
use ulfm_model::held::{HeldComm, place_of, refusal_of};
use ulfm_model::limits::Limits;
use ulfm_model::reads::has_rank;
use ulfm_model::record::RankRecord;

/// Whether an event marks, in this round, a member that the look found declared.
fn marks_declared<P: Copy, A: Allocator>(
    look: &[u16],
    x: &HeldComm<A>,
    round: u16,
    event: &Event<P>,
) -> bool
    ensures { result ≡ marks_test look.now x.now round event.now }
{
    match *event {
        Event::Mark {
            comm,
            round: k,
            rank,
            ..
        } => comm == x.comm && k == round && has_rank(look, rank) && has_rank(&x.group, rank),
        _ => false,
    }
}

/// Whether an event makes a communicator of this round.
fn spawns_of<P: Copy>(comm: u16, round: u16, event: &Event<P>) -> bool
    ensures { result ≡ makes_test comm round event.now }
{
    match *event {
        Event::Spawn {
            parent,
            round: k,
            ..
        } => parent == comm && k == round,
        _ => false,
    }
}

/// Whether the poll of a request may add an event.
fn poll_adds<P: Copy, A: Allocator>(
    look: &[u16],
    x: &HeldComm<A>,
    request: Option<Request>,
    event: &Event<P>,
) -> bool
    ensures { result ≡ poll_test look.now x.now request event.now }
{
    match request {
        Some(Request::Agree { round }) => marks_declared(look, x, round, event),
        Some(Request::Shrink { round }) => {
            marks_declared(look, x, round, event) || spawns_of(x.comm, round, event)
        }
        _ => false,
    }
}

/// Whether an event is a contribution of a rank to a round.
fn settles<P: Copy>(comm: u16, round: u16, rank: u16, event: &Event<P>) -> bool
    ensures { result ≡ settles_test comm round rank event.now }
{
    match *event {
        Event::Settle {
            comm: c,
            round: k,
            rank: r,
            ..
        } => c == comm && k == round && r == rank,
        _ => false,
    }
}

/// Whether an event is a rank's arrival in a round.
pub(crate) fn arrives<P: Copy>(comm: u16, round: u16, rank: u16, event: &Event<P>) -> bool
    ensures { result ≡ arrives_test comm round rank event.now }
{
    match *event {
        Event::Arrive {
            comm: c,
            round: k,
            rank: r,
        } => c == comm && k == round && r == rank,
        _ => false,
    }
}

/// Whether an event revokes a communicator.
pub(crate) fn revokes<P: Copy>(comm: u16, event: &Event<P>) -> bool
    ensures { result ≡ revokes_test comm event.now }
{
    match *event {
        Event::Revoke { comm: c } => c == comm,
        _ => false,
    }
}

/// Whether a call may add an event, on a communicator that its rank holds.
fn call_adds<P: Copy, A: Allocator>(
    look: &[u16],
    rank: u16,
    x: &HeldComm<A>,
    asked: &Call<P>,
    event: &Event<P>,
) -> bool
    ensures { result ≡ adds_test look.now rank x.now asked.now event.now }
{
    match *asked {
        Call::Agree { .. } | Call::Shrink { .. } => {
            settles(x.comm, x.next_agreement, rank, event)
        }
        Call::Barrier { .. } => arrives(x.comm, x.next_barrier, rank, event),
        Call::Poll { .. } => poll_adds(look, x, x.request, event),
        Call::Revoke { .. } => revokes(x.comm, event),
        _ => false,
    }
}

/// Whether an event may be the call's own.
pub(crate) fn may_own<P: Copy, A: Allocator>(
    limits: Limits,
    look: &[u16],
    own: &RankRecord<A>,
    asked: &Call<P>,
    event: &Event<P>,
) -> bool
    ensures { result ≡ own_test look.now (record_of limits own.now) asked.now event.now }
{
    if has_rank(look, own.number) || refusal_of(limits, own, asked).is_some() {
        return false;
    }
    match place_of(&own.held, comm_of(asked)) {
        Some(i) => call_adds(look, own.number, &own.held[i], asked, event),
        None => false,
    }
}
