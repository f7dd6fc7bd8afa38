//! The events that matter to a round, and the points of a call at which its answer may differ.
use std::alloc::{AllocError, Allocator};
use ulfm_laws::FlagAnd;
use ulfm_model::event::{Entry, Event};

/// The most points of a call that are tried.
const MOST_POINTS: usize = 40;

/// An event with the number of events before it.
#[derive(Clone, Copy)]
pub(crate) struct Placed {
    /// How many events there were before it.
    pub(crate) at: u32,
    /// The event, in its caller's name.
    pub(crate) entry: Entry<FlagAnd>,
}

/// The events that matter to a round of a communicator, in order: those of the round, the declarations, and what communicators are made of.
#[derive(Drop)]
pub(crate) struct Relevant<A: Allocator> {
    alloc: A,
    /// These events, each with its place among all.
    pub(crate) events: Vec<Placed, A>,
}

/// The round of which a communicator is made, if an event makes one.
fn origin_of(entry: &Entry<FlagAnd>) -> Option<(u16, u16)> {
    match entry.event {
        Event::Spawn { parent, round, .. } => Some((parent, round)),
        _ => None,
    }
}

/// Whether an event matters to one of these rounds.
fn matters(entry: &Entry<FlagAnd>, rounds: &[(u16, u16)]) -> bool {
    match entry.event {
        Event::Fail { .. } | Event::Spawn { .. } | Event::Revoke { .. } => true,
        Event::Settle { comm, round, .. }
        | Event::Mark { comm, round, .. }
        | Event::Arrive { comm, round, .. } => {
            rounds.iter().any(|of| of.0 == comm && of.1 == round)
        }
    }
}

/// The events of a history that matter to this round.
pub(crate) fn matters_of<A: Allocator + Copy>(
    alloc: A,
    history: &[Entry<FlagAnd>],
    comm: u16,
    round: u16,
) -> Result<Relevant<A>, AllocError> {
    let mut rounds = Vec::new(alloc);
    rounds.push((comm, round))?;
    for entry in history {
        if let Some(origin) = origin_of(entry) {
            rounds.push(origin)?;
        }
    }
    let mut events = Vec::new(alloc);
    let mut at: u32 = 0;
    for entry in history {
        if matters(entry, &rounds) {
            events.push(Placed { at, entry: *entry })?;
        }
        at = at.saturating_add(1);
    }
    Ok(Relevant { alloc, events })
}

impl<A: Allocator + Copy> Relevant<A> {
    /// Those among the first so many events of all.
    pub(crate) fn first(&self, point: u32) -> Result<Vec<Entry<FlagAnd>, A>, AllocError> {
        let mut entries = Vec::new(self.alloc);
        for placed in self.events.iter() {
            if placed.at < point {
                entries.push(placed.entry)?;
            }
        }
        Ok(entries)
    }

    /// Points from this one to that at which an answer may differ: the wanted one first, if it is among them, the last, those right behind an event that
    /// matters, the later first, and the first. There are at most 40.
    pub(crate) fn points(
        &self,
        wanted: u32,
        first: u32,
        last: u32,
    ) -> Result<Vec<u32, A>, AllocError> {
        let mut points = Vec::new(self.alloc);
        if first <= wanted && wanted <= last {
            points.push(wanted)?;
        }
        points.push(last)?;
        for placed in self.events.iter().rev() {
            let behind = placed.at.saturating_add(1);
            if first <= behind && behind < last && points.len() < MOST_POINTS {
                points.push(behind)?;
            }
        }
        if points.len() < MOST_POINTS {
            points.push(first)?;
        }
        Ok(points)
    }
}
