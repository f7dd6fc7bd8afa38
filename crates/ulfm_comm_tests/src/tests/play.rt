// A world whose ranks take the steps of their calls in turns, over one pass.
ghost use Rattle.std.specs.Prelude.{◌≡◌, [], IfOk, false};
ghost use Rattle.std.specs.List.{AllByRecursion};
ghost use Rattle.ulfm_model.specs.Answers.{traits_of};
ghost use Rattle.ulfm_model.specs.Records.{Fits};
ghost use Rattle.ulfm_model.specs.declared.event.Caller.TheVariants.{Rank as OfRank};
ghost use Rattle.ulfm_words.specs.Steps.{over, view_of, IsNew, IsView};
ghost use Rattle.ulfm_comm_tests.specs.Playing.{IsPlay, Plays};
ghost use Rattle.ulfm_comm.specs.{Counts.{records_of}, Phase.{Waits}};

use std::alloc::{AllocError, Allocator, Global};
use std::marker::Model;
use std::test::Fail;
use ulfm_comm::{Doing, Rank, World};
use ulfm_intruder::Intruder;
use ulfm_laws::flag_and::FlagAnd;
use ulfm_laws::meld::Packed;
use ulfm_model::call::Call;
use ulfm_model::refusal::Refusal;
use ulfm_model::reply::Reply;
use ulfm_model::step_name::StepName;
use ulfm_words::{OpenWords, Step, Words};

/// What a rank is asked, on a communicator.
#[derive(Clone, Copy, Debug)]
pub(crate) enum Verb<P> {
    Get,
    GetAcked,
    /// An acknowledgement of so many failures.
    Ack(u16),
    AckAll,
    /// An agree with this contribution.
    Agree(P),
    Shrink,
    Barrier,
    Poll,
    Revoke,
    Standing,
    Free,
}

/// The call of this rank.
pub(crate) fn call_of<P: Packed>(rank: u16, comm: u16, verb: Verb<P>) -> Call<P>
    ensures { (traits_of result).by ≡ OfRank rank }
{
    match verb {
        Verb::Get => Call::GetFailed { rank, comm },
        Verb::GetAcked => Call::FailureGetAcked { rank, comm },
        Verb::AckAll => Call::FailureAck { rank, comm },
        Verb::Ack(count) => Call::Ack { rank, comm, count },
        Verb::Shrink => Call::Shrink { rank, comm },
        Verb::Barrier => Call::Barrier { rank, comm },
        Verb::Poll => Call::Poll { rank, comm },
        Verb::Agree(value) => Call::Agree { rank, comm, value },
        Verb::Revoke => Call::Revoke { rank, comm },
        Verb::Standing => Call::IsRevoked { rank, comm },
        Verb::Free => Call::Free { rank, comm },
    }
}

/// A rank, and its call under way, if there is one.
#[derive(Drop)]
struct Player<P: Packed, A: Allocator> {
    own: Rank<P, A>,
    doing: Option<Doing<P, A>>,
}

impl<P: Packed, A: Allocator> Model for Player<P, A> {
    ghost use Rattle.ulfm_comm_tests.specs.Playing.{Playing};

    ghost Value = { Playing P };

    ghost view = { λ a. record { own = a.own.own; doing = a.doing } };
}

impl<P: Packed, A: Allocator + Copy> Player<P, A> {
    /// The rank begins a call: whether it had none under way.
    fn begin<W: Words<P, A>>(
        &mut self,
        world: &World<W, P, A>,
        pass: &W::Pass,
        comm: u16,
        verb: Verb<P>,
    ) -> bool
        requires of { IsView P.meld (view_of P.pack world.now (W.sight pass.now)) }
        requires sits { Plays P.meld (over P.pack world.now) (W.sight pass.now) self.old }
        ensures sits { Plays P.meld (over P.pack world.now) (W.sight pass.now) self.new }
    {
        let _ = world;
        let _ = pass;
        match self.doing {
            Some(_) => false,
            None => {
                let asked = call_of(self.own.number(), comm, verb);
                self.doing = Some(self.own.begin(asked));
                true
            }
        }
    }

    /// The next step of its call: the reply, where it is the last.
    fn step<W: Words<P, A>>(
        &mut self,
        world: &World<W, P, A>,
        pass: &mut W::Pass,
    ) -> Option<Reply<P>>
        requires of { IsView P.meld (view_of P.pack world.now (W.sight pass.old)) }
        requires sits { Plays P.meld (over P.pack world.now) (W.sight pass.old) self.old }
        ensures of { IsView P.meld (view_of P.pack world.now (W.sight pass.new)) }
        ensures waits { Waits false (W.sight pass.old) (W.sight pass.new) }
        ensures sits { Plays P.meld (over P.pack world.now) (W.sight pass.new) self.new }
    {
        let Some(mut doing) = self.doing.take() else {
            return None;
        };
        match self.own.step(world, pass, &mut doing) {
            None => {
                self.doing = Some(doing);
                None
            }
            Some(reply) => Some(reply),
        }
    }
}

impl<P: Packed, A: Allocator + Copy> Player<P, A> {
    /// The rank revokes a communicator by a whole call, between the steps of others. None where it has a call under way.
    fn revoke<W: Words<P, A>>(
        &mut self,
        world: &World<W, P, A>,
        pass: &mut W::Pass,
        comm: u16,
    ) -> Option<Result<bool, Refusal>>
        requires of { IsView P.meld (view_of P.pack world.now (W.sight pass.old)) }
        requires sits { Plays P.meld (over P.pack world.now) (W.sight pass.old) self.old }
        ensures of { IsView P.meld (view_of P.pack world.now (W.sight pass.new)) }
        ensures waits { Waits false (W.sight pass.old) (W.sight pass.new) }
        ensures sits { Plays P.meld (over P.pack world.now) (W.sight pass.new) self.new }
    {
        match self.doing {
            Some(_) => None,
            None => Some(self.own.revoke(world, pass, comm)),
        }
    }
}

/// A seat for each rank, in order.
fn seats_of<P: Packed, A: Allocator + Copy, W: Words<P, A>>(
    alloc: A,
    world: &World<W, P, A>,
    pass: &W::Pass,
    ranks: Vec<Rank<P, A>, A>,
) -> Result<Vec<Player<P, A>, A>, AllocError>
    requires new { IsNew P.meld (view_of P.pack world.now (W.sight pass.now)) }
    requires fits { AllByRecursion (Fits P.meld world.now.limits []) (records_of ranks.items) }
    ensures { IfOk result (λ seats. IsPlay P.meld (over P.pack world.now) (W.sight pass.now) seats.items) }
{
    let _ = world;
    let _ = pass;
    let mut seats = Vec::with_capacity(alloc, ranks.len())?;
    for own in ranks {
        seats.push(Player { own, doing: None })?;
    }
    Ok(seats)
}

/// A world, all its ranks and one pass. Each rank may have a call under way.
#[derive(Drop)]
pub(crate) struct Play<W: Words<P, A>, P: Packed, A: Allocator> {
    world: World<W, P, A>,
    pass: W::Pass,
    // In the order of their numbers.
    seats: Vec<Player<P, A>, A>,
}

impl<W: Words<P, A>, P: Packed, A: Allocator> Model for Play<W, P, A> {
    ghost use Rattle.ulfm_words.specs.Steps.{Name, over};
    ghost use Rattle.ulfm_comm_tests.specs.Playing.{IsPlay};

    ghost Value = { Name };

    ghost view = { λ a. a.world };

    ghost invariant = { λ a. IsPlay P.meld (over P.pack a.world) (W.sight a.pass) a.seats.items };
}

impl<W, P: Packed, A: Allocator + Copy> Play<W, P, A>
where
    W: Words<P, A>,
{
    /// A world over new words, and no call.
    pub(crate) fn open(alloc: A, words: W) -> Result<Play<W, P, A>, Fail>
    where
        W: OpenWords<P, A> + Drop,
    {
        let (world, ranks) = World::open(alloc, words)?;
        let pass = world.pass(alloc)?;
        let seats = seats_of(alloc, &world, &pass, ranks)?;
        Ok(Play { world, pass, seats })
    }

    /// A rank begins a call: whether it is there and had none under way.
    pub(crate) fn begin(&mut self, rank: u16, comm: u16, verb: Verb<P>) -> bool {
        if rank as usize >= self.seats.len() {
            return false;
        }
        self.seats[rank as usize].begin(&self.world, &self.pass, comm, verb)
    }

    /// The next step of a rank's call: the reply, where it is the last.
    pub(crate) fn step(&mut self, rank: u16) -> Option<Reply<P>> {
        if rank as usize >= self.seats.len() {
            return None;
        }
        self.seats[rank as usize].step(&self.world, &mut self.pass)
    }

    /// A rank revokes a communicator by a whole call, between the steps of others.
    pub(crate) fn revoke(&mut self, rank: u16, comm: u16) -> Option<Result<bool, Refusal>> {
        if rank as usize >= self.seats.len() {
            return None;
        }
        self.seats[rank as usize].revoke(&self.world, &mut self.pass, comm)
    }

    /// The outside declares a rank.
    pub(crate) fn fail(&mut self, rank: u16) -> Result<bool, Refusal> {
        self.world.fail(&mut self.pass, rank)
    }

    /// The name of the next step of a rank's call.
    pub(crate) fn next(&self, rank: u16) -> Option<StepName> {
        self.seats.get(rank as usize)?.doing.as_ref()?.next()
    }

    /// A rank, if there is one of this number.
    pub(crate) fn rank(&self, rank: u16) -> Option<&Rank<P, A>> {
        Some(&self.seats.get(rank as usize)?.own)
    }

    /// How many steps a rank's last call made.
    pub(crate) fn last_steps(&self, rank: u16) -> Option<u32> {
        Some(self.seats.get(rank as usize)?.own.last_steps())
    }

    /// The steps of a rank's call up to its next one of this name, which isn't made: how many.
    pub(crate) fn before(&mut self, rank: u16, name: StepName) -> usize {
        for count in 0..64usize {
            if self.next(rank) == Some(name) {
                return count;
            }
            let _ = self.step(rank);
        }
        64
    }

    /// All steps of a rank's call, with their names: the reply.
    pub(crate) fn finish(
        &mut self,
        rank: u16,
        names: &mut Vec<StepName, A>,
    ) -> Result<Option<Reply<P>>, Fail> {
        names.clear();
        for _ in 0..64usize {
            if let Some(name) = self.next(rank) {
                names.push(name)?;
            }
            if let Some(reply) = self.step(rank) {
                return Ok(Some(reply));
            }
        }
        Ok(None)
    }
}

impl Play<Intruder<FlagAnd>, FlagAnd, Global> {
    /// The other's event comes after so many further steps.
    pub(crate) fn wait(&mut self, steps: u32) {
        self.pass.wait(steps);
    }

    /// The step that was set as the `i`-th.
    pub(crate) fn nth(&self, i: usize) -> Option<Step> {
        self.pass.plain.nth(i)
    }
}
