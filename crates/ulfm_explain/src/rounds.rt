//! Notes on a communicator and a round of it: its members, who is missing, what was decided, and the events that matter.
use crate::account::Account;
use crate::points::Relevant;
use crate::say::{Part, line_words, put_ranks, say};
use crate::scene::Scene;
use std::alloc::{AllocError, Allocator};
use ulfm_laws::FlagAnd;
use ulfm_model::Line;
use ulfm_model::call::Request;
use ulfm_model::event::Entry;
use ulfm_model::groups::{failed, members};
use ulfm_model::reads::{has_arrived, is_revoked, slot};
use ulfm_story::decision_words;

/// Notes the events that matter, each with its number.
pub(crate) fn note_matters<A: Allocator + Copy>(
    account: &mut Account<A>,
    matters: &Relevant<A>,
) -> Result<(), AllocError> {
    for placed in matters.events.iter() {
        let Entry { by, event } = placed.entry;
        let event = Some(event);
        let words = line_words(account.alloc, &Line::Happened { by, event }, &[])?;
        let number = placed.at.saturating_add(1);
        let head = [Part::Number(number), Part::Words(b": ")];
        let mut note = say(account.alloc, &head)?;
        note.extend_from_slice(&words)?;
        account.push(note)?;
    }
    Ok(())
}

/// The round of a communicator that a request is about, and the events that matter to it.
#[derive(Drop)]
struct AskedRound<'a> {
    /// How many ranks the world has.
    ranks: u16,
    /// These events.
    history: &'a [Entry<FlagAnd>],
    /// The communicator.
    comm: u16,
    /// The request.
    request: Request,
}

impl<'a> AskedRound<'a> {
    /// Whether a member has taken part in the round, or is left out of it.
    fn is_settled(&self, rank: u16) -> bool {
        match self.request {
            Request::Agree { round } | Request::Shrink { round } => {
                slot(self.history, self.comm, round, rank).is_some()
            }
            Request::Barrier { round } => has_arrived(self.history, self.comm, round, rank),
        }
    }

    /// Those of these members that are missing in the round.
    fn missing<A: Allocator + Copy>(
        &self,
        alloc: A,
        group: &[u16],
    ) -> Result<Vec<u16, A>, AllocError> {
        let mut missing = Vec::new(alloc);
        for rank in group {
            if !self.is_settled(*rank) {
                missing.push(*rank)?;
            }
        }
        Ok(missing)
    }

    /// Notes which of these members are missing in the round, and what it decided.
    fn note<A: Allocator + Copy + Drop>(
        &self,
        account: &mut Account<A>,
        group: &[u16],
    ) -> Result<(), AllocError> {
        let missing = self.missing(account.alloc, group)?;
        match self.request {
            Request::Agree { round } | Request::Shrink { round } => {
                note_missing(account, b"agreement ", round, &missing)?;
                self.note_decision(account, round)
            }
            Request::Barrier { round } => note_missing(account, b"barrier ", round, &missing),
        }
    }

    /// Notes what an agreement round decided, if it has.
    fn note_decision<A: Allocator + Copy + Drop>(
        &self,
        account: &mut Account<A>,
        round: u16,
    ) -> Result<(), AllocError> {
        let alloc = account.alloc;
        match decision_words(alloc, self.ranks, self.history, self.comm, round)? {
            Some(words) => {
                let mut note = say(alloc, &[Part::Words(b"decision: ")])?;
                note.extend_from_slice(&words)?;
                account.push(note)
            }
            None => Ok(()),
        }
    }
}

/// Notes a round of this kind, and who is missing in it.
fn note_missing<A: Allocator + Copy>(
    account: &mut Account<A>,
    kind: &'static [u8],
    round: u16,
    missing: &[u16],
) -> Result<(), AllocError> {
    let number = Part::Number(u32::from(round));
    let head = [Part::Words(kind), number, Part::Words(b": missing")];
    let mut note = say(account.alloc, &head)?;
    put_ranks(&mut note, missing)?;
    account.push(note)
}

/// Notes a communicator, and the round of it that a request is about.
pub(crate) fn note_request<A: Allocator + Copy + Drop>(
    account: &mut Account<A>,
    scene: &Scene<A>,
    matters: &Relevant<A>,
    comm: u16,
    request: Option<Request>,
) -> Result<(), AllocError> {
    let alloc = account.alloc;
    let ranks = scene.limits.ranks;
    let history = matters.first(u32::MAX)?;
    let group = members(alloc, ranks, &history, comm)?;
    let declared = failed(alloc, ranks, &history, comm)?;
    let mut note = say(
        alloc,
        &[
            Part::Words(b"communicator "),
            Part::Number(u32::from(comm)),
            Part::Words(b": members"),
        ],
    )?;
    put_ranks(&mut note, &group)?;
    note.extend_from_slice(b", failed")?;
    put_ranks(&mut note, &declared)?;
    if is_revoked(&history, comm) {
        note.extend_from_slice(b", revoked")?;
    }
    account.push(note)?;
    match request {
        Some(request) => {
            let history = history.as_slice();
            let asked = AskedRound {
                ranks,
                history,
                comm,
                request,
            };
            asked.note(account, &group)
        }
        None => Ok(()),
    }
}
