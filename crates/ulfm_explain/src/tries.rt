//! Lines that might stand in the place of a bad one, tried by a judge.
use crate::points::Relevant;
use crate::say::line_words;
use crate::scene::{Begun, Scene, judge_behind};
use std::alloc::{AllocError, Allocator};
use ulfm_judge::Judge;
use ulfm_laws::{Body, FlagAnd};
use ulfm_model::call::{Call, Request, comm_of};
use ulfm_model::decide::{decision, is_decided};
use ulfm_model::event::Entry;
use ulfm_model::groups::{failed, members};
use ulfm_model::reads::place_made;
use ulfm_model::refusal::Refusal;
use ulfm_model::{Line, Reply};

/// The most lines that are offered.
const MOST_OFFERS: usize = 4;

/// A line that might stand in a bad one's place, with the ranks that it lists.
#[derive(Drop)]
pub(crate) struct Candidate<A: Allocator> {
    /// What the line tells.
    pub(crate) line: Line<FlagAnd>,
    /// The ranks that its reply lists, in order; else nobody.
    pub(crate) group: Vec<u16, A>,
}

/// The replies that have no number in them.
const PLAIN: [Reply<FlagAnd>; 9] = [
    Reply::Started,
    Reply::Pending,
    Reply::Done,
    Reply::Declared,
    Reply::AlreadyFailed,
    Reply::Revoked,
    Reply::AlreadyRevoked,
    Reply::Standing { revoked: true },
    Reply::Standing { revoked: false },
];

/// The refusals that any call may have.
const OF_ANY: [Refusal; 3] = [
    Refusal::SelfFailed,
    Refusal::NoSuchComm,
    Refusal::NoSuchRank,
];

/// Those of the start of a request.
const OF_STARTS: [Refusal; 4] = [
    Refusal::Busy,
    Refusal::ShrinkOpen,
    Refusal::RoundsUsedUp,
    Refusal::Twice,
];

/// Those of the poll of a shrink.
const OF_SHRINKS: [Refusal; 3] = [Refusal::Mismatch, Refusal::NoContext, Refusal::NoRoom];

/// Those of the poll of a barrier.
const OF_BARRIERS: [Refusal; 2] = [Refusal::IsRevoked, Refusal::ProcFailed];

/// Those of the giving back of a communicator.
const OF_FREES: [Refusal; 2] = [Refusal::Busy, Refusal::WorldKept];

/// Tries lines behind those before a bad one, and keeps those that may come next.
#[derive(Drop)]
pub(crate) struct Trier<'a, A: Allocator + Copy + Drop> {
    alloc: A,
    before: &'a [u8],
    judge: Judge<FlagAnd, A>,
    /// Those that may come next: at most four, and of other lines than replies at most one.
    pub(crate) found: Vec<Candidate<A>, A>,
}

/// Whether a line says what another one says, whatever their points.
fn says_same<A: Allocator>(found: &Candidate<A>, line: &Line<FlagAnd>, group: &[u16]) -> bool {
    match (found.line, *line) {
        (Line::Replied { reply, .. }, Line::Replied { reply: other, .. }) => {
            reply == other && found.group.as_slice() == group
        }
        _ => true,
    }
}

impl<'a, A: Allocator + Copy + Drop> Trier<'a, A> {
    /// No line is tried yet; none where these lines have no header.
    pub(crate) fn new(alloc: A, before: &'a [u8]) -> Result<Option<Trier<'a, A>>, AllocError> {
        match judge_behind(alloc, before)? {
            Some(judge) => {
                Ok(Some(Trier {
                    alloc,
                    before,
                    judge,
                    found: Vec::new(alloc),
                }))
            },
            None => Ok(None),
        }
    }

    /// Tries a line, unless enough are found, or one that says the same.
    pub(crate) fn try_line(
        &mut self,
        line: Line<FlagAnd>,
        group: &[u16],
    ) -> Result<(), AllocError> {
        let is_known = self.found.iter().any(|x| says_same(x, &line, group));
        if is_known || self.found.len() >= MOST_OFFERS {
            return Ok(());
        }
        if self.judge.take(&line, group)?.is_some() {
            return Ok(());
        }
        let group = Vec::from_slice(self.alloc, group)?;
        self.found.push(Candidate { line, group })?;
        if let Some(judge) = judge_behind(self.alloc, self.before)? {
            self.judge = judge;
        }
        Ok(())
    }

    /// The texts of the lines that were found.
    pub(crate) fn texts(&self) -> Result<Vec<Vec<u8, A>, A>, AllocError> {
        let mut texts = Vec::new(self.alloc);
        for found in self.found.iter() {
            texts.push(line_words(self.alloc, &found.line, &found.group)?)?;
        }
        Ok(texts)
    }
}

/// A call whose reply is bad, and the events that matter to it.
#[derive(Drop)]
pub(crate) struct Asked<'a, A: Allocator> {
    /// What the lines before the bad one tell.
    pub(crate) scene: &'a Scene<A>,
    /// The call, and where it began.
    pub(crate) begun: Begun,
    /// The request that is open on its communicator.
    pub(crate) request: Option<Request>,
    /// The events that matter to the round that the call is about.
    pub(crate) relevant: &'a Relevant<A>,
}

/// The reply to the poll of an agreement that is decided so far, with the members that it lists.
fn decided_reply<A: Allocator + Copy + Drop>(
    alloc: A,
    ranks: u16,
    history: &[Entry<FlagAnd>],
    comm: u16,
    round: u16,
    group: &mut Vec<u16, A>,
) -> Result<Option<Reply<FlagAnd>>, AllocError> {
    if !is_decided(alloc, ranks, history, comm, round)? {
        return Ok(None);
    }
    let made = decision(alloc, ranks, history, comm, round)?;
    match made.body {
        Body::Flag(value) => Ok(Some(Reply::Agreed {
            value,
            failed: u16::try_from(made.failed.len()).unwrap_or(u16::MAX),
            raised: made.raised,
        })),
        Body::Ctx(mask) => {
            let Some(place) = place_made(history, comm, round) else {
                return Ok(None);
            };
            let comm = u16::try_from(place).unwrap_or(u16::MAX).saturating_add(1);
            *group = members(alloc, ranks, history, comm)?;
            Ok(Some(Reply::Shrunk {
                comm,
                context: u8::try_from(mask.bits.trailing_zeros()).unwrap_or(0),
                size: u16::try_from(group.len()).unwrap_or(u16::MAX),
            }))
        }
        _ => Ok(None),
    }
}

impl<'a, A: Allocator + Copy + Drop> Asked<'a, A> {
    /// Tries a reply at a point.
    fn try_reply(
        &self,
        trier: &mut Trier<'_, A>,
        point: u32,
        reply: Reply<FlagAnd>,
        group: &[u16],
    ) -> Result<(), AllocError> {
        let by = self.scene.caller;
        let reply = Some(reply);
        trier.try_line(Line::Replied { by, point, reply }, group)
    }

    /// Tries the replies that tell what the first so many events say.
    fn try_told(&self, alloc: A, trier: &mut Trier<'_, A>, point: u32) -> Result<(), AllocError> {
        let ranks = self.scene.limits.ranks;
        let history = self.relevant.first(point)?;
        let comm = comm_of(&self.begun.asked);
        let known = failed(alloc, ranks, &history, comm)?;
        let count = u16::try_from(known.len()).unwrap_or(u16::MAX);
        match self.begun.asked {
            Call::GetFailed { .. } => {
                self.try_reply(trier, point, Reply::FailedGroup { count }, &known)
            }
            Call::Ack { count: wanted, .. } => {
                let count = self.scene.on(comm).acked.max(wanted.min(count));
                self.try_reply(trier, point, Reply::Acked { count }, &[])
            }
            _ => self.try_decided(alloc, trier, point, &history),
        }
    }

    /// Tries the reply that tells the decision of the round.
    fn try_decided(
        &self,
        alloc: A,
        trier: &mut Trier<'_, A>,
        point: u32,
        history: &[Entry<FlagAnd>],
    ) -> Result<(), AllocError> {
        let ranks = self.scene.limits.ranks;
        let comm = comm_of(&self.begun.asked);
        let (Some(Request::Agree { round }) | Some(Request::Shrink { round })) = self.request else {
            return Ok(());
        };
        let mut group = Vec::new(alloc);
        match decided_reply(alloc, ranks, history, comm, round, &mut group)? {
            Some(reply) => self.try_reply(trier, point, reply, &group),
            None => Ok(()),
        }
    }

    /// Tries the replies at a point.
    pub(crate) fn try_at(
        &self,
        alloc: A,
        trier: &mut Trier<'_, A>,
        point: u32,
    ) -> Result<(), AllocError> {
        self.try_told(alloc, trier, point)?;
        for reply in PLAIN.iter() {
            self.try_reply(trier, point, *reply, &[])?;
        }
        self.try_refusals(trier, point)
    }

    /// Tries the refusals that such a call may have, at a point.
    fn try_refusals(&self, trier: &mut Trier<'_, A>, point: u32) -> Result<(), AllocError> {
        self.try_each(trier, point, &OF_ANY)?;
        match self.begun.asked {
            Call::Agree { .. } | Call::Shrink { .. } | Call::Barrier { .. } => {
                self.try_each(trier, point, &OF_STARTS)
            }
            Call::Poll { .. } => self.try_poll_refusals(trier, point),
            Call::Free { .. } => self.try_each(trier, point, &OF_FREES),
            _ => Ok(()),
        }
    }

    /// Tries the refusals of a poll at a point, by what is open.
    fn try_poll_refusals(&self, trier: &mut Trier<'_, A>, point: u32) -> Result<(), AllocError> {
        match self.request {
            None => self.try_each(trier, point, &[Refusal::Idle]),
            Some(Request::Agree { .. }) => self.try_each(trier, point, &[Refusal::Mismatch]),
            Some(Request::Shrink { .. }) => self.try_each(trier, point, &OF_SHRINKS),
            Some(Request::Barrier { .. }) => self.try_each(trier, point, &OF_BARRIERS),
        }
    }

    /// Tries each of these refusals at a point.
    fn try_each(
        &self,
        trier: &mut Trier<'_, A>,
        point: u32,
        refusals: &[Refusal],
    ) -> Result<(), AllocError> {
        for refusal in refusals {
            self.try_reply(trier, point, Reply::Refused(*refusal), &[])?;
        }
        Ok(())
    }
}
