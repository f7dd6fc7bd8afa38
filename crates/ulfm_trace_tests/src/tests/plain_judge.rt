//! A second judge of traces: it keeps all that was said, and walks over it at each line.
ghost use Rattle.std.specs.Prelude.{◌<◌, length, IfSome};

use crate::tests::answers::{Asking, is_answer, is_fail_answer};
use crate::tests::holder::{Holder, caller_of, may_own};
use crate::tests::past::{
    Comm, comm_at, decided, failures, first, has_arrived, is_revoked, made_of, settled, slot_at,
};
use std::alloc::{AllocError, Allocator};
use ulfm_laws::FlagAnd;
use ulfm_laws::summary::Body;
use ulfm_model::contribution::Slot;
use ulfm_model::{Call, Caller, Entry, Event, Limits, Line, Refusal, Reply, Why};

/// A call under way.
#[derive(Drop)]
pub(crate) struct Under<A: Allocator> {
    /// Who made it.
    pub(crate) by: Caller,
    /// The call.
    pub(crate) asked: Call<FlagAnd>,
    /// How many events there were when it began.
    pub(crate) begun: usize,
    /// How many failures its look found, once it has looked.
    pub(crate) look: Option<usize>,
    /// The events that it added itself.
    pub(crate) own: Vec<Event<FlagAnd>, A>,
}

/// All that was said.
#[derive(Drop)]
pub struct PlainJudge<A: Allocator> {
    alloc: A,
    limits: Limits,
    past: Vec<Entry<FlagAnd>, A>,
    holders: Vec<Holder<A>, A>,
    calls: Vec<Under<A>, A>,
}

/// The place of a caller's open call.
fn open_call<A: Allocator>(calls: &[Under<A>], by: Caller) -> Option<usize>
    ensures { IfSome result (λ index. index < length calls.now) }
{
    for (index, call) in calls.iter().enumerate() {
        if call.by == by {
            return Some(index);
        }
    }
    None
}

impl<A: Allocator + Copy> PlainJudge<A> {
    pub(crate) fn start(alloc: A, limits: Limits) -> Result<PlainJudge<A>, AllocError> {
        let mut holders = Vec::new(alloc);
        for _ in 0..limits.ranks {
            holders.push(Holder::new(alloc)?)?;
        }
        Ok(PlainJudge {
            alloc,
            limits,
            past: Vec::new(alloc),
            holders,
            calls: Vec::new(alloc),
        })
    }

    pub(crate) fn judge(
        &mut self,
        line: &Line<FlagAnd>,
        group: &[u16],
    ) -> Result<Option<Why>, AllocError> {
        match *line {
            Line::Called { call: asked, .. } => self.called(asked),
            Line::Looked { rank, failures } => self.looked(rank, failures),
            Line::Happened { by, event } => self.happened(by, event),
            Line::Replied { by, point, reply } => self.replied(by, point, reply, group),
        }
    }

    fn called(&mut self, asked: Call<FlagAnd>) -> Result<Option<Why>, AllocError> {
        let by = caller_of(&asked);
        if open_call(&self.calls, by).is_some() {
            return Ok(Some(Why::Call));
        }
        let call = Under {
            by,
            asked,
            begun: self.past.len(),
            look: None,
            own: Vec::new(self.alloc),
        };
        self.calls.push(call)?;
        Ok(None)
    }

    fn looked(&mut self, rank: u16, count: u16) -> Result<Option<Why>, AllocError> {
        let Some(index) = open_call(&self.calls, Caller::Rank(rank)) else {
            return Ok(Some(Why::Call));
        };
        let found = failures(self.alloc, &self.past)?;
        let due = match self.holders.get(usize::from(rank)) {
            None => false,
            Some(holder) => !holder.refused,
        };
        let call = &mut self.calls[index];
        if call.look.is_some() || !due || found.len() != usize::from(count) {
            return Ok(Some(Why::Look));
        }
        call.look = Some(found.len());
        Ok(None)
    }

    /// A communicator as all that happened has it.
    fn comm(&self, comm: u16) -> Result<Comm<A>, AllocError> {
        comm_at(self.alloc, self.limits.ranks, &self.past, comm)
    }

    /// Whether a round of a communicator has the rank, and nothing settles it there.
    fn is_open(&self, of: &Comm<A>, place: (u16, u16, u16)) -> bool {
        let (_, round, rank) = place;
        let member = of.members.contains(&rank) && round < self.limits.rounds;
        member && slot_at(&self.past, place).is_none()
    }

    /// Whether an event may come next, in anybody's name.
    fn may_follow(&self, event: Event<FlagAnd>) -> Result<bool, AllocError> {
        match settled(event) {
            Some((place, Slot::Given(given))) => {
                let of = self.comm(place.0)?;
                let known = usize::from(given.known.count) <= of.failed.len();
                Ok(known && self.is_open(&of, place))
            }
            Some((place, Slot::Mark(mark))) => {
                self.may_mark(place, usize::from(mark.known.count))
            }
            None => self.may_come(event),
        }
    }

    /// The same, of an event that settles nothing.
    fn may_come(&self, event: Event<FlagAnd>) -> Result<bool, AllocError> {
        match event {
            Event::Fail { rank } => {
                let found = failures(self.alloc, &self.past)?;
                Ok(rank < self.limits.ranks && !found.contains(&rank))
            }
            Event::Arrive { comm, round, rank } => {
                let of = self.comm(comm)?;
                let free = !has_arrived(&self.past, (comm, round, rank));
                Ok(free && of.members.contains(&rank) && round < self.limits.rounds)
            }
            Event::Revoke { comm } => {
                let of = self.comm(comm)?;
                Ok(of.exists && !is_revoked(&self.past, comm))
            }
            Event::Spawn {
                comm,
                parent,
                round,
            } => self.may_spawn(comm, (parent, round)),
            Event::Settle { .. } | Event::Mark { .. } => Ok(false),
        }
    }

    fn may_mark(&self, place: (u16, u16, u16), known: usize) -> Result<bool, AllocError> {
        let of = self.comm(place.0)?;
        let named = first(self.alloc, &of.failed, known)?;
        let last = named.len() == known && named.last() == Some(&place.2);
        Ok(last && self.is_open(&of, place))
    }

    fn may_spawn(&self, comm: u16, of: (u16, u16)) -> Result<bool, AllocError> {
        let parent = self.comm(of.0)?;
        let next = usize::from(comm) == parent.count && comm < self.limits.comms;
        if !next || !parent.exists || of.1 >= self.limits.rounds {
            return Ok(false);
        }
        if made_of(&self.past, of).is_some() {
            return Ok(false);
        }
        match decided(self.alloc, &self.past, &parent, of)? {
            None => Ok(false),
            Some(made) => match made.body {
                Body::Ctx(mask) => Ok(mask.bits != 0),
                _ => Ok(false),
            },
        }
    }

    /// Whether an event is one that its caller may add.
    fn may_add(&self, by: Caller, event: Event<FlagAnd>) -> Result<bool, AllocError> {
        let Caller::Rank(rank) = by else {
            return Ok(true);
        };
        let Some(index) = open_call(&self.calls, by) else {
            return Ok(false);
        };
        let Some(holder) = self.holders.get(usize::from(rank)) else {
            return Ok(false);
        };
        let call = &self.calls[index];
        let Some(count) = call.look else {
            return Ok(false);
        };
        let found = failures(self.alloc, &self.past)?;
        let seen = first(self.alloc, &found, count)?;
        if seen.contains(&rank) {
            return Ok(false);
        }
        Ok(may_own(holder, self.limits, &call.asked, rank, &seen, event))
    }

    fn happened(
        &mut self,
        by: Caller,
        event: Option<Event<FlagAnd>>,
    ) -> Result<Option<Why>, AllocError> {
        let Some(event) = event else {
            return Ok(Some(Why::Event));
        };
        if !self.may_follow(event)? {
            return Ok(Some(Why::Event));
        }
        if !self.may_add(by, event)? {
            return Ok(Some(Why::Own));
        }
        self.past.push(Entry { by, event })?;
        if let Some(index) = open_call(&self.calls, by) {
            let call = &mut self.calls[index];
            let own = match (call.asked, event) {
                (Call::Fail { rank }, Event::Fail { rank: declared }) => rank == declared,
                (Call::Fail { .. }, _) => false,
                _ => true,
            };
            if own {
                call.own.push(event)?;
            }
        }
        Ok(None)
    }

    /// Whether a reply may end the open call at this place, at this point.
    fn is_right(
        &self,
        index: usize,
        point: usize,
        reply: Reply<FlagAnd>,
        group: &[u16],
    ) -> Result<bool, AllocError> {
        let Some(call) = self.calls.get(index) else {
            return Ok(false);
        };
        if point < call.begun || point > self.past.len() {
            return Ok(false);
        }
        let found = failures(self.alloc, &self.past)?;
        let seen = first(self.alloc, &found, call.look.unwrap_or(0))?;
        let asking = Asking {
            alloc: self.alloc,
            limits: self.limits,
            past: &self.past[..point],
            asked: call.asked,
            seen: &seen,
            own: &call.own,
        };
        let Caller::Rank(rank) = call.by else {
            return is_fail_answer(&asking, reply);
        };
        match self.holders.get(usize::from(rank)) {
            None => Ok(reply == Reply::Refused(Refusal::NoSuchRank)),
            Some(holder) => {
                let looked = call.look.is_some();
                is_answer(&asking, holder, rank, looked, reply, group)
            }
        }
    }

    fn replied(
        &mut self,
        by: Caller,
        point: u32,
        reply: Option<Reply<FlagAnd>>,
        group: &[u16],
    ) -> Result<Option<Why>, AllocError> {
        let Some(index) = open_call(&self.calls, by) else {
            return Ok(Some(Why::Call));
        };
        let Some(reply) = reply else {
            return Ok(Some(Why::Reply));
        };
        if !self.is_right(index, point as usize, reply, group)? {
            return Ok(Some(Why::Reply));
        }
        let call = self.calls.remove(index);
        if let Caller::Rank(rank) = by {
            if let Some(holder) = self.holders.get_mut(usize::from(rank)) {
                holder.answered(&call.asked, reply)?;
            }
        }
        Ok(None)
    }
}
