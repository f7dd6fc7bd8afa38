// What a call adds to the history.
ghost use Rattle.std.specs.Prelude.{◌≡◌, ◌++◌, ◌∷◌, [], IfOk, Some, if◌then◌else◌};
ghost use Rattle.std.specs.List.{cons_option};
ghost use Rattle.ulfm_model.specs.Computed.{added, added_by_poll, given_at, is_free_mask, known_at, mark_at, mark_of, marks_of, settle_of, spawn_of};
ghost use Rattle.ulfm_model.specs.History.{entries_by};
ghost use Rattle.ulfm_model.specs.Kept.{record_of};
ghost use Rattle.ulfm_model.specs.declared.call.Request.TheVariants.{Shrink};

use crate::asked::{Asked, Round};
use std::alloc::{AllocError, Allocator};
use ulfm_laws::meld::Meld;
use ulfm_laws::summary::{Acked, Body, Known};
use ulfm_model::call::{Call, Request};
use ulfm_model::contribution::{Contribution, MarkCount, Offer};
use ulfm_model::event::{Caller, Entry, Event};
use ulfm_model::groups::{count_failed, failed};
use ulfm_model::held::HeldComm;
use ulfm_model::ids::free_ids;
use ulfm_model::reads::{count_made, has_arrived, has_rank, is_made, is_revoked, slot};

/// A count of failures, at most 1024.
fn known_at(count: usize) -> Known
    ensures { result ≡ known_at count }
{
    let count = if count < 1024 { count as u16 } else { 1024 };
    Known { count }
}

/// The same of a mark, which counts from 1.
fn mark_at(count: usize) -> MarkCount
    ensures { result ≡ mark_at count }
{
    if count == 0 {
        MarkCount {
            known: Known { count: 1 },
        }
    } else {
        MarkCount {
            known: known_at(count),
        }
    }
}

/// A contribution of a rank that knows so many failures and has acknowledged so many.
fn given_at<P: Copy>(offer: Offer<P>, known: usize, acked: u16) -> Contribution<P>
    ensures { result ≡ given_at offer known acked }
{
    let known = known_at(known);
    let acked = Acked {
        count: acked.min(known.count),
    };
    Contribution {
        offer,
        known,
        acked,
    }
}

/// What a start contributes, where the rank's place is empty.
fn settle_of<P: Copy, A: Allocator + Copy + Drop>(
    alloc: A,
    history: &[Entry<P>],
    rank: u16,
    x: &HeldComm<A>,
    offer: Offer<P>,
) -> Result<Vec<Event<P>, A>, AllocError>
    ensures { IfOk result (λ events. events.items ≡ settle_of history.now rank x.now offer) }
{
    let mut events = Vec::new(alloc);
    if slot(history, x.comm, x.next_agreement, rank).is_none() {
        events.push(Event::Settle {
            comm: x.comm,
            round: x.next_agreement,
            rank,
            given: given_at(offer, count_failed(&x.group, history), x.acked),
        })?;
    }
    Ok(events)
}

/// The mark of a member that is declared as the n-th, where its place is empty.
fn mark_of<P: Copy, A: Allocator>(round: &Round<P, A>, n: usize, rank: u16) -> Option<Event<P>>
    ensures { result ≡ mark_of round.now.history.now round.now.comm round.now.number (n, rank) }
{
    if slot(round.history, round.comm, round.number, rank).is_some() {
        return None;
    }
    Some(Event::Mark {
        comm: round.comm,
        round: round.number,
        rank,
        known: mark_at(n),
    })
}

/// The marks of all unsettled declared members of a round, in the order of their failures.
fn marks_of<P: Copy, A: Allocator + Copy + Drop>(
    round: &Round<P, A>,
) -> Result<Vec<Event<P>, A>, AllocError>
    ensures { IfOk result (λ events. events.items ≡ marks_of round.now.limits.ranks round.now.history.now round.now.comm round.now.number) }
{
    let failed = failed(round.alloc, round.limits.ranks, round.history, round.comm)?;
    let mut marks = Vec::new(round.alloc);
    for (i, rank) in failed.iter().enumerate() {
        if let Some(mark) = mark_of(round, i + 1, *rank) {
            marks.push(mark)?;
        }
    }
    Ok(marks)
}

/// Whether a body is a set of ids that isn't empty.
fn is_free_mask<P: Copy>(body: Body<P>) -> bool
    ensures { result ≡ is_free_mask body }
{
    match body {
        Body::Ctx(mask) => 0 < mask.bits,
        _ => false,
    }
}

/// The communicator that a rank makes of a round, if it makes one.
fn spawn_of<P: Meld, A: Allocator + Copy + Drop>(
    round: &Round<P, A>,
    rank: u16,
) -> Result<Option<Event<P>>, AllocError>
    ensures { IfOk result (λ spawn. cons_option spawn []
        ≡ spawn_of P.meld round.now.limits round.now.history.now rank round.now.comm round.now.number) }
{
    let made = count_made(round.history);
    if !round.is_decided()?
        || is_made(round.history, round.comm, round.number)
        || made >= usize::from(round.limits.comms).saturating_sub(1)
    {
        return Ok(None);
    }
    let decided = round.decision()?;
    if !is_free_mask(decided.body) || has_rank(&decided.failed, rank) {
        return Ok(None);
    }
    Ok(Some(Event::Spawn {
        comm: made as u16 + 1,
        parent: round.comm,
        round: round.number,
    }))
}

/// A history with some events in the name of one caller.
pub(crate) fn extended<P: Copy, A: Allocator + Copy + Drop>(
    alloc: A,
    history: &[Entry<P>],
    by: Caller,
    events: &[Event<P>],
) -> Result<Vec<Entry<P>, A>, AllocError>
    ensures { IfOk result (λ longer. longer.items ≡ history.now ++ entries_by by events.now) }
{
    let mut longer = Vec::from_slice(alloc, history)?;
    for event in events {
        longer.push(Entry { by, event: *event })?;
    }
    Ok(longer)
}

/// What the poll of a shrink adds: marks, and the communicator that is made then.
fn added_by_shrink<P: Meld, A: Allocator + Copy + Drop>(
    round: &Round<P, A>,
    rank: u16,
) -> Result<Vec<Event<P>, A>, AllocError>
    ensures { IfOk result (λ events. events.items
        ≡ added_by_poll P.meld round.now.limits round.now.history.now rank round.now.comm (Some (Shrink round.now.number))) }
{
    let mut events = marks_of(round)?;
    let history = extended(round.alloc, round.history, Caller::Rank(rank), &events)?;
    let marked = Round {
        alloc: round.alloc,
        limits: round.limits,
        history: &history,
        comm: round.comm,
        number: round.number,
    };
    if let Some(spawn) = spawn_of(&marked, rank)? {
        events.push(spawn)?;
    }
    Ok(events)
}

/// What the poll of a communicator adds.
fn added_by_poll<P: Meld, A: Allocator + Copy + Drop>(
    asked: &Asked<P, A>,
    x: &HeldComm<A>,
) -> Result<Vec<Event<P>, A>, AllocError>
    ensures { IfOk result (λ events. events.items
        ≡ added_by_poll P.meld asked.now.limits asked.now.history.now asked.now.own.now.number x.now.comm x.now.request) }
{
    let Some(request) = x.request else {
        return Ok(Vec::new(asked.alloc));
    };
    match request {
        Request::Agree { round } => marks_of(&asked.round(asked.history, x, round)),
        Request::Shrink { round } => {
            added_by_shrink(&asked.round(asked.history, x, round), asked.own.number)
        }
        Request::Barrier { .. } => Ok(Vec::new(asked.alloc)),
    }
}

/// One event, where it has not happened before.
fn unless<P: Copy, A: Allocator + Copy + Drop>(
    alloc: A,
    happened: bool,
    event: Event<P>,
) -> Result<Vec<Event<P>, A>, AllocError>
    ensures { IfOk result (λ events. events.items ≡ (if happened then [] else event ∷ [])) }
{
    let mut events = Vec::new(alloc);
    if !happened {
        events.push(event)?;
    }
    Ok(events)
}

/// What a call adds that the record doesn't refuse.
pub(crate) fn added<P: Meld, A: Allocator + Copy + Drop>(
    asked: &Asked<P, A>,
    x: &HeldComm<A>,
) -> Result<Vec<Event<P>, A>, AllocError>
    ensures { let own = record_of asked.now.limits asked.now.own.now in
        IfOk result (λ events. events.items ≡ added P.meld asked.now.limits asked.now.history.now own x.now asked.now.call.now) }
{
    let alloc = asked.alloc;
    let history = asked.history;
    let rank = asked.own.number;
    match *asked.call {
        Call::Agree { value, .. } => settle_of(alloc, history, rank, x, Offer::Flag(value)),
        Call::Shrink { .. } => {
            let mask = free_ids(&asked.own.held);
            settle_of(alloc, history, rank, x, Offer::Ctx(mask))
        }
        Call::Barrier { .. } => {
            let arrived = has_arrived(history, x.comm, x.next_barrier, rank);
            let event = Event::Arrive {
                comm: x.comm,
                round: x.next_barrier,
                rank,
            };
            unless(alloc, arrived, event)
        }
        Call::Poll { .. } => added_by_poll(asked, x),
        Call::Revoke { comm, .. } => {
            let revoked = is_revoked(history, comm);
            unless(alloc, revoked, Event::Revoke { comm })
        }
        _ => Ok(Vec::new(alloc)),
    }
}
