// A rank whose calls are taken step by step.
ghost use Rattle.std.specs.Prelude.{◌≡◌, ◌<◌, ◌≤◌, ◌^◌, ℕ, [], None, Some, is_some, filter, if◌then◌else◌, length, IfOk, IsTrue, OnErr, OnOk};
ghost use Rattle.ulfm_model.specs.{Answers.{traits_of}, History.{History, has}};
ghost use Rattle.ulfm_model.specs.declared.event.Caller.TheVariants.{Rank as OfRank};
ghost use Rattle.ulfm_model.specs.Traces.{Traced, listed};
ghost use Rattle.ulfm_words.specs.Steps.{IsView, steps_in, view_of};
ghost use Rattle.ulfm_run.specs.Seats.{MayList, CallPollsShrink, SitsIn, TellsBeginIn, TellsPieceIn, asked_in, has_looked, next_in, wants_in};
ghost use Rattle.ulfm_run.specs.Stepping.{is_early as early_reply, point_of as point_by};

use crate::events::event_at;
use crate::told::{Answer, StepTold};
use std::alloc::{AllocError, Allocator};
use std::marker::Model;
use ulfm_comm::{Doing, Rank, World};
use ulfm_laws::meld::Packed;
use ulfm_model::call::Call;
use ulfm_model::refusal::Refusal;
use ulfm_model::reply::Reply;
use ulfm_model::step_name::StepName;
use ulfm_steps::group::has_rank;
use ulfm_words::{PlainPass, PlainWords};

/// A rank, and its call that is under way, if there is one.
#[derive(Drop)]
pub struct Seat<P: Packed, A: Allocator> {
    rank: Rank<P, A>,
    call: Option<Doing<P, A>>,
    // So many events there were when its last step went on: where a barrier's poll found somebody missing.
    found: u32,
}

impl<P: Packed, A: Allocator> Model for Seat<P, A> {
    ghost use Rattle.ulfm_run.specs.Seats.{Seated, way_in};

    ghost Value = { Seated P };

    ghost view = { λ a. record { own = a.rank.own; call = way_in a.call; found = a.found } };
}

// A reply that the poll of a barrier gives where somebody is missing.
fn is_early<P: Packed>(reply: &Reply<P>) -> bool
    ensures { result ≡ early_reply reply.now }
{
    matches!(reply, Reply::Pending | Reply::Refused(Refusal::ProcFailed))
}

// The point of a reply: how many events there are, or, where a barrier's poll made its last load, were when it found somebody missing.
fn point_of<P: Packed>(found: u32, present: u32, checking: bool, reply: &Reply<P>) -> u32
    ensures { result ≡ point_by found present checking reply.now }
{
    if checking && is_early(reply) {
        found
    } else {
        present
    }
}

// Whether a step's reply, if there is one, says that memory ran out.
fn lacks_memory<P: Packed>(reply: &Option<Reply<P>>) -> bool
    ensures { result ≡ wants_in reply.now }
{
    matches!(reply, Some(Reply::Refused(Refusal::OutOfMemory)))
}

// Puts those of these ranks into a vector that are among the members.
fn put_among<A: Allocator>(
    members: &[u16],
    ranks: &[u16],
    group: &mut Vec<u16, A>,
) -> Result<(), AllocError>
    requires { group.old.items ≡ [] }
    ensures { OnOk result (group.new.items ≡ filter (has members.now) ranks.now) }
{
    for rank in ranks {
        if has_rank(members, *rank) {
            group.push(*rank)?;
        }
    }
    Ok(())
}

impl<P: Packed, A: Allocator + Copy + Drop> Seat<P, A> {
    /// A rank without a call.
    pub fn new(rank: Rank<P, A>) -> Seat<P, A>
        ensures { result ≡ record { own = rank.own; call = None; found = 0 } }
    {
        Seat {
            rank,
            call: None,
            found: 0,
        }
    }

    /// The rank's number.
    pub fn number(&self) -> u16
        ensures { result ≡ self.now.own.number }
    {
        self.rank.number()
    }

    /// Whether it has a call under way.
    pub fn is_open(&self) -> bool
        ensures { result ≡ is_some self.now.call }
    {
        self.call.is_some()
    }

    /// The name of its next step; none where no call is under way.
    pub fn next(&self) -> Option<StepName>
        ensures { result ≡ next_in self.now.call }
    {
        match &self.call {
            Some(doing) => doing.next(),
            None => None,
        }
    }

    /// The call that is under way.
    pub fn asked(&self) -> Option<Call<P>>
        ensures { result ≡ asked_in self.now.call }
    {
        match &self.call {
            Some(doing) => Some(doing.asked()),
            None => None,
        }
    }

    /// Begins a call of this rank, which has none under way: its line is told, and that of its reply, where the rank was refused for
    /// good before. It makes no atomic step.
    pub fn begin(
        &mut self,
        world: &World<PlainWords<P>, P, A>,
        pass: &PlainPass<P, A>,
        asked: Call<P>,
    ) -> Option<Answer<P>>
        requires mine { (traits_of asked).by ≡ OfRank self.old.own.number }
        requires closed { self.old.call ≡ None }
        requires of { IsView P.meld (view_of P.pack world.now pass.now) }
        ensures { TellsBeginIn P.meld self.old (view_of P.pack world.now pass.now) asked result self.new }
    {
        let _ = world;
        let doing = self.rank.begin(asked);
        if doing.next().is_none() {
            return Some(Answer {
                point: pass.count(),
                reply: Reply::Refused(Refusal::SelfFailed),
            });
        }
        self.call = Some(doing);
        None
    }

    // The failures that the look found, where a step was its end.
    fn look_end(&self, looking: bool, reply: &Option<Reply<P>>, doing: &Doing<P, A>) -> Option<u16>
        requires { IsTrue (has_looked looking reply.now doing.now.way.phase) → length self.now.own.seen < 2 ^ 16 }
        ensures { result ≡ (if has_looked looking reply.now doing.now.way.phase then Some (length self.now.own.seen) else None) }
    {
        if looking && (reply.is_some() || !doing.is_looking()) {
            return Some(self.rank.failures().len() as u16);
        }
        None
    }

    /// Takes the next step of the call that is under way. The poll of a shrink may lack memory for its communicator's members: then it has
    /// no reply, and the seat serves for nothing more.
    pub fn step(
        &mut self,
        world: &World<PlainWords<P>, P, A>,
        pass: &mut PlainPass<P, A>,
    ) -> Result<StepTold<P>, AllocError>
        requires of { IsView P.meld (view_of P.pack world.now pass.old) }
        requires sits { (now : Traced P) × SitsIn P.meld now (view_of P.pack world.now pass.old) self.old }
        requires open { IsTrue (is_some self.old.call) }
        ensures of { IsView P.meld (view_of P.pack world.now pass.new) }
        ensures onward { steps_in (view_of P.pack world.now pass.old) ≤ steps_in (view_of P.pack world.now pass.new) }
        ensures tells { IfOk result (λ told. TellsPieceIn P.meld self.old (view_of P.pack world.now pass.old) told self.new
            (view_of P.pack world.now pass.new)) }
        ensures memory { OnErr result (CallPollsShrink self.old.own self.old.call) }
    {
        let Some(mut doing) = self.call.take() else {
            unreachable!()
        };
        let count = pass.count();
        let looking = doing.is_looking();
        let checking = doing.is_checking();
        let reply = self.rank.step(world, pass, &mut doing);
        if lacks_memory(&reply) {
            return Err(AllocError);
        }
        let look = self.look_end(looking, &reply, &doing);
        let event = event_at(pass, count);
        let Some(reply) = reply else {
            self.call = Some(doing);
            self.found = pass.count();
            let reply = None;
            return Ok(StepTold { look, event, reply });
        };
        let point = point_of(self.found, pass.count(), checking, &reply);
        let reply = Some(Answer { point, reply });
        Ok(StepTold { look, event, reply })
    }

    /// Puts the ranks that the line of a reply of its own lists into a vector, in their order, in place of what it holds: a new
    /// communicator's members, or the failed group of this communicator. After an error only some of them are in it.
    pub fn group(
        &self,
        reply: &Reply<P>,
        comm: u16,
        group: &mut Vec<u16, A>,
    ) -> Result<(), AllocError>
        ensures { OnOk result ((ranks : ℕ) (h : History P) → MayList ranks h comm reply.now self.now.own
            → group.new.items ≡ listed ranks h comm reply.now) }
    {
        group.clear();
        match *reply {
            Reply::Shrunk { comm, .. } => match self.rank.members(comm) {
                Some(members) => group.extend_from_slice(members),
                None => Ok(()),
            },
            Reply::FailedGroup { .. } => match self.rank.members(comm) {
                Some(members) => put_among(members, self.rank.failures(), group),
                None => Ok(()),
            },
            _ => Ok(()),
        }
    }
}
