// A rank of a world, and the pass that it calls with.
ghost use Rattle.std.specs.Prelude.{◌≡◌, ◌<◌, Err, None, Some, IfOk, MatchOption, OnErr, length, vec_capacity};
ghost use Rattle.std.specs.Arc.{arc_value};
ghost use Rattle.ulfm_model.specs.History.{failed};
ghost use Rattle.ulfm_model.specs.Records.{Held, held_at};
ghost use Rattle.ulfm_model.specs.declared.call.Call.TheVariants.{Ack as AckAsked, Agree as AgreeAsked, Barrier as BarrierAsked, Free as FreeAsked};
ghost use Rattle.ulfm_model.specs.declared.call.Call.TheVariants.{GetFailed as GetAsked, IsRevoked as StandingAsked, Revoke as RevokeAsked};
ghost use Rattle.ulfm_model.specs.declared.call.Call.TheVariants.{FailureAck as AckAllAsked, FailureGetAcked as GetAckedAsked, Shrink as ShrinkAsked};
ghost use Rattle.ulfm_model.specs.declared.{refusal.Refusal.TheVariants.{OutOfMemory as NoMemory}, reply.Reply.TheVariants.{Acked, Freed, Standing, Started}};
ghost use Rattle.ulfm_words.specs.Steps.{Tells};
ghost use Rattle.ulfm_comm.specs.Calls.{reply_of};
ghost use Rattle.ulfm_comm.specs.{Excludes.{Excludes}, Queries.{acked_in}};
ghost use Rattle.ulfm_comm.specs.Fails.{declared};
ghost use Rattle.ulfm_comm.specs.Misses.{size_held};
ghost use Rattle.ulfm_comm.specs.Revokes.{revoked};
ghost use Rattle.ulfm_wait.specs.Members.{IsMember, MemberCalls, MemberFails, MemberGets, MemberLearns, MemberMisses, MemberPolls, after_call, view_in, viewing, setting_of};

use std::alloc::Allocator;
use std::marker::Model;
use std::sync::Arc;
use ulfm_comm::{Polled, Rank, World};
use ulfm_laws::meld::Packed;
use ulfm_model::refusal::Refusal;
use ulfm_words::{OpenWords, Words};

/// A rank of a world, with the pass that it calls with: all that a rank's thread needs. It may go to another thread. A pass is one caller's
/// local view of the words: what it has seen of the history, which only grows.
///
/// Its calls are those of `Rank`, which tells what each does, how many atomic steps it makes, what it refuses and what a refusal
/// leaves. Members of one world see what the others did where threads share the words, as those of `ulfm_book`; over plain words each has
/// a history of its own. (The members of a communicator are something else: its ranks, as in MPI.)
/// Examples are of rank 0 in a world of two, whose words are plain, for one thread; `ulfm_wait::open` gives the members.
#[derive(Drop)]
pub struct Member<W, P: Packed, A: Allocator>
where
    W: Words<P, A>,
{
    world: Arc<World<W, P, A>, A>,
    rank: Rank<P, A>,
    // It has seen what the rank's calls saw.
    pass: W::Pass,
}

impl<W, P: Packed, A: Allocator> Model for Member<W, P, A>
where
    W: Words<P, A>,
{
    ghost use Rattle.std.specs.Arc.{arc_value};
    ghost use Rattle.ulfm_wait.specs.Members.{IsMember, Membership, viewing};

    ghost Value = { Membership P };

    ghost view = { λ m. record { own = m.rank.own; last = m.rank.last; view = viewing (arc_value m.world) (W.sight m.pass) } };

    ghost invariant = { λ m. IsMember P.meld P.pack
        (record { own = m.rank.own; last = m.rank.last; view = viewing (arc_value m.world) (W.sight m.pass) }) };
}

impl<W, P: Packed, A: Allocator> Member<W, P, A>
where
    W: Words<P, A>,
{
    /// A member of these parts: a rank of this world, and a pass of the world's words that has seen all that the rank has seen.
    ///
    /// ```
    /// let (world, rank, pass) = member.into_parts();
    /// let mut member = Member::new(world, rank, pass);
    /// member.iagree(0, FlagAnd { bits: 0b0110 })?;
    /// ```
    pub fn new(world: Arc<World<W, P, A>, A>, rank: Rank<P, A>, pass: W::Pass) -> Member<W, P, A>
        requires { IsMember P.meld P.pack (record { own = rank.own; last = rank.last; view = viewing (arc_value world) (W.sight pass) }) }
        ensures { result ≡ record { own = rank.own; last = rank.last; view = viewing (arc_value world) (W.sight pass) } }
    {
        Member { world, rank, pass }
    }

    /// The world, the rank and the pass, each by itself, for calls that are taken step by step.
    ///
    /// ```
    /// let (world, mut rank, mut pass) = member.into_parts();
    /// rank.iagree(&world, &mut pass, 0, FlagAnd { bits: 0b0110 })?;
    /// ```
    pub fn into_parts(self) -> (Arc<World<W, P, A>, A>, Rank<P, A>, W::Pass)
        ensures of { IsMember P.meld P.pack self }
        ensures parts { self ≡ record { own = result.1.own; last = result.1.last; view = viewing (arc_value result.0) (W.sight result.2) } }
    {
        (self.world, self.rank, self.pass)
    }

    /// For proofs: its contract says that the member's pass is of its world's words, and that its rank's record agrees with what the pass has
    /// seen. When it runs it does nothing.
    ///
    /// ```
    /// member.known_fit();
    /// assert!(rt; member.last_steps() == 0);
    /// ```
    pub fn known_fit(&self)
        ensures { IsMember P.meld P.pack self.now }
    {
        let _pass = &self.pass;
    }

    /// The pass that it calls with, for reading. It makes no atomic step.
    ///
    /// ```
    /// // A pass of plain words tells which steps were set.
    /// assert!(rt; member.pass().nth(0).is_none());
    /// member.iagree(0, FlagAnd { bits: 0b0110 })?;
    /// assert!(rt; member.pass().nth(0).is_some());
    /// ```
    pub fn pass(&self) -> &W::Pass
        ensures { self.now.view ≡ viewing self.now.view.words (W.sight result.now) }
    {
        &self.pass
    }

    /// Its rank's number, 0 to 1023. It makes no atomic step.
    ///
    /// ```
    /// assert!(rt; member.number() == 0);
    /// ```
    pub fn number(&self) -> u16
        ensures { result ≡ self.now.own.number }
    {
        self.rank.number()
    }

    /// All ranks that it has seen to be declared failed, in the order of the declarations. It makes no atomic step.
    ///
    /// ```
    /// member.fail(1)?;
    /// // A call looks, and then the member has seen it.
    /// member.is_revoked(0)?;
    /// assert_eq!(rt; member.failures(), [1].as_slice());
    /// ```
    pub fn failures(&self) -> &[u16]
        ensures { result.now ≡ self.now.own.seen }
    {
        self.rank.failures()
    }

    /// The ranks that are members of a communicator, in order; `None` where this rank doesn't hold the communicator. It makes no atomic step.
    ///
    /// ```
    /// assert!(rt; member.members(0) == Some([0, 1].as_slice()));
    /// assert!(rt; member.members(1).is_none());
    /// ```
    pub fn members(&self, comm: u16) -> Option<&[u16]>
        ensures { MatchOption result (held_at self.now.own comm ≡ None)
            (λ group. (x : Held) × (held_at self.now.own comm ≡ Some x) × (group.now ≡ x.group)) }
    {
        self.rank.members(comm)
    }

    /// The context id of a communicator, 0 to 63; `None` where the rank doesn't hold the communicator. No two communicators that it holds
    /// have the same id. It makes no atomic step.
    ///
    /// ```
    /// assert!(rt; member.context(0) == Some(0));
    /// assert!(rt; member.context(1).is_none());
    /// ```
    pub fn context(&self, comm: u16) -> Option<u8>
        ensures { MatchOption result (held_at self.now.own comm ≡ None)
            (λ id. (x : Held) × (held_at self.now.own comm ≡ Some x) × (id ≡ x.context)) }
    {
        self.rank.context(comm)
    }

    /// How many atomic steps the rank's last call made, 0 before any, as `Rank::last_steps`. `fail` isn't a call of the rank, and isn't counted.
    /// It makes no atomic step.
    ///
    /// ```
    /// assert!(rt; member.last_steps() == 0);
    /// // A look finds no failure by one load, and whether the communicator is revoked is another.
    /// member.is_revoked(0)?;
    /// assert!(rt; member.last_steps() == 2);
    /// ```
    pub fn last_steps(&self) -> u32
        ensures { result ≡ self.now.last }
    {
        self.rank.last_steps()
    }
}

impl<W, P: Packed, A: Allocator + Copy> Member<W, P, A>
where
    W: Words<P, A>,
{
    /// Starts an agree on a flag, as `Rank::iagree`.
    ///
    /// ```
    /// let flag = FlagAnd { bits: 0b0110 };
    /// assert!(rt; member.iagree(0, flag) == Ok(()));
    /// // A communicator has one request of a rank at a time.
    /// assert!(rt; member.iagree(0, flag) == Err(Refusal::Busy));
    /// ```
    pub fn iagree(&mut self, comm: u16, value: P) -> Result<(), Refusal>
        ensures { MemberCalls (setting_of P.meld P.pack W.alone) (AgreeAsked self.old.own.number comm value) self.old
            (reply_of (λ _. Started) result) self.new }
    {
        self.rank.iagree(&self.world, &mut self.pass, comm, value)
    }

    /// Starts a shrink, as `Rank::ishrink`.
    ///
    /// ```
    /// member.fail(1)?;
    /// member.ishrink(0)?;
    /// let alone = Polled::Shrunk {
    ///     comm: 1,
    ///     context: 1,
    ///     size: 1,
    /// };
    /// assert!(rt; member.poll(0) == Ok(alone));
    /// ```
    pub fn ishrink(&mut self, comm: u16) -> Result<(), Refusal>
        ensures calls { MemberCalls (setting_of P.meld P.pack W.alone) (ShrinkAsked self.old.own.number comm) self.old
            (reply_of (λ _. Started) result) self.new }
        ensures excludes { IfOk result (λ _. Excludes P.meld self.old.view.words.limits self.old.view.pass.seen self.new.view.pass.seen self.old.own comm) }
    {
        self.rank.ishrink(&self.world, &mut self.pass, comm)
    }

    /// Starts a barrier, as `Rank::ibarrier`.
    ///
    /// ```
    /// member.ibarrier(0)?;
    /// assert!(rt; member.poll(0) == Ok(Polled::Pending));
    /// // Rank 1 can't arrive any more.
    /// member.fail(1)?;
    /// assert!(rt; member.poll(0) == Err(Refusal::ProcFailed));
    /// ```
    pub fn ibarrier(&mut self, comm: u16) -> Result<(), Refusal>
        ensures { MemberCalls (setting_of P.meld P.pack W.alone) (BarrierAsked self.old.own.number comm) self.old (reply_of (λ _. Started) result) self.new }
    {
        self.rank.ibarrier(&self.world, &mut self.pass, comm)
    }

    /// Asks for the reply to the open request, as `Rank::poll`.
    ///
    /// ```
    /// let value = FlagAnd { bits: 0b0110 };
    /// member.iagree(0, value)?;
    /// // Rank 1 hasn't contributed, and isn't declared.
    /// assert!(rt; member.poll(0) == Ok(Polled::Pending));
    /// member.fail(1)?;
    /// let agreed = Polled::Agreed {
    ///     value,
    ///     failed: 1,
    ///     raised: true,
    /// };
    /// assert!(rt; member.poll(0) == Ok(agreed));
    /// ```
    pub fn poll(&mut self, comm: u16) -> Result<Polled<P>, Refusal>
        ensures { MemberPolls (setting_of P.meld P.pack W.alone) comm self.old result self.new }
    {
        self.rank.poll(&self.world, &mut self.pass, comm)
    }

    /// Puts the failed group of a communicator into a vector, as `Rank::get_failed`.
    ///
    /// ```
    /// member.fail(1)?;
    /// let mut found = Vec::new(alloc);
    /// member.get_failed(0, &mut found)?;
    /// assert_eq!(rt; found.as_slice(), [1].as_slice());
    /// ```
    pub fn get_failed<B: Allocator>(
        &mut self,
        comm: u16,
        found: &mut Vec<u16, B>,
    ) -> Result<(), Refusal>
        ensures gets { MemberGets (setting_of P.meld P.pack W.alone) (GetAsked self.old.own.number comm) self.old (length found.new.items) result self.new }
        ensures group { IfOk result (λ _. found.new.items ≡ failed self.old.view.words.limits.ranks self.new.view.pass.seen comm) }
        ensures kept { OnErr result (found.new.items ≡ found.old.items) }
        ensures memory { result ≡ Err NoMemory → vec_capacity found.old < length (failed self.old.view.words.limits.ranks self.new.view.pass.seen comm) }
    {
        self.rank
            .get_failed(&self.world, &mut self.pass, comm, found)
    }

    /// Puts the members who are missing in the round of the open request on a communicator into a vector, as `Rank::missing`.
    ///
    /// ```
    /// member.iagree(0, FlagAnd { bits: 0b0110 })?;
    /// let mut found = Vec::new(alloc);
    /// member.missing(0, &mut found)?;
    /// assert_eq!(rt; found.as_slice(), [1].as_slice());
    /// ```
    pub fn missing<B: Allocator>(
        &mut self,
        comm: u16,
        found: &mut Vec<u16, B>,
    ) -> Result<(), Refusal>
        ensures misses { MemberMisses (setting_of P.meld P.pack W.alone) comm self.old result found.new.items self.new }
        ensures kept { OnErr result (found.new.items ≡ found.old.items) }
        ensures memory { result ≡ Err NoMemory → vec_capacity found.old < size_held (held_at self.old.own comm) }
    {
        self.rank.missing(&self.world, &mut self.pass, comm, found)
    }

    /// Acknowledges the first `count` failures of a communicator, as `Rank::ack_failed`.
    ///
    /// ```
    /// member.fail(1)?;
    /// // There is one failure to acknowledge, however many are asked for.
    /// assert!(rt; member.ack_failed(0, 9) == Ok(1));
    /// ```
    pub fn ack_failed(&mut self, comm: u16, count: u16) -> Result<u16, Refusal>
        ensures { MemberCalls (setting_of P.meld P.pack W.alone) (AckAsked self.old.own.number comm count) self.old (reply_of Acked result) self.new }
    {
        self.rank
            .ack_failed(&self.world, &mut self.pass, comm, count)
    }

    /// Acknowledges all known failures of a communicator, as `Rank::failure_ack`.
    ///
    /// ```
    /// member.fail(1)?;
    /// assert!(rt; member.failure_ack(0) == Ok(1));
    /// ```
    pub fn failure_ack(&mut self, comm: u16) -> Result<u16, Refusal>
        ensures { MemberCalls (setting_of P.meld P.pack W.alone) (AckAllAsked self.old.own.number comm) self.old (reply_of Acked result) self.new }
    {
        self.rank.failure_ack(&self.world, &mut self.pass, comm)
    }

    /// Puts the acknowledged failures of a communicator into a vector, as `Rank::failure_get_acked`.
    ///
    /// ```
    /// member.fail(1)?;
    /// let mut found = Vec::new(alloc);
    /// member.failure_get_acked(0, &mut found)?;
    /// assert!(rt; found.is_empty());
    /// member.failure_ack(0)?;
    /// member.failure_get_acked(0, &mut found)?;
    /// assert_eq!(rt; found.as_slice(), [1].as_slice());
    /// ```
    pub fn failure_get_acked<B: Allocator>(
        &mut self,
        comm: u16,
        found: &mut Vec<u16, B>,
    ) -> Result<(), Refusal>
        ensures gets { MemberGets (setting_of P.meld P.pack W.alone) (GetAckedAsked self.old.own.number comm) self.old
            (length found.new.items) result self.new }
        ensures group { IfOk result (λ _. found.new.items ≡ acked_in (after_call P.pack self.old self.new) comm) }
        ensures kept { OnErr result (found.new.items ≡ found.old.items) }
        ensures memory { result ≡ Err NoMemory → vec_capacity found.old < length (acked_in (after_call P.pack self.old self.new) comm) }
    {
        self.rank
            .failure_get_acked(&self.world, &mut self.pass, comm, found)
    }

    /// Revokes a communicator, as `Rank::revoke`.
    ///
    /// ```
    /// assert!(rt; member.revoke(0) == Ok(true));
    /// assert!(rt; member.revoke(0) == Ok(false));
    /// ```
    pub fn revoke(&mut self, comm: u16) -> Result<bool, Refusal>
        ensures { MemberCalls (setting_of P.meld P.pack W.alone) (RevokeAsked self.old.own.number comm) self.old (reply_of revoked result) self.new }
    {
        self.rank.revoke(&self.world, &mut self.pass, comm)
    }

    /// Whether a communicator is revoked, as `Rank::is_revoked`.
    ///
    /// ```
    /// assert!(rt; member.is_revoked(0) == Ok(false));
    /// member.revoke(0)?;
    /// assert!(rt; member.is_revoked(0) == Ok(true));
    /// ```
    pub fn is_revoked(&mut self, comm: u16) -> Result<bool, Refusal>
        ensures { MemberCalls (setting_of P.meld P.pack W.alone) (StandingAsked self.old.own.number comm) self.old (reply_of Standing result) self.new }
    {
        self.rank.is_revoked(&self.world, &mut self.pass, comm)
    }

    /// Gives a communicator back, as `Rank::free`.
    ///
    /// ```
    /// member.fail(1)?;
    /// member.ishrink(0)?;
    /// member.poll(0)?;
    /// assert!(rt; member.free(1) == Ok(()));
    /// assert!(rt; member.members(1).is_none());
    /// assert!(rt; member.free(0) == Err(Refusal::WorldKept));
    /// ```
    pub fn free(&mut self, comm: u16) -> Result<(), Refusal>
        ensures { MemberCalls (setting_of P.meld P.pack W.alone) (FreeAsked self.old.own.number comm) self.old (reply_of (λ _. Freed) result) self.new }
    {
        self.rank.free(&self.world, &mut self.pass, comm)
    }

    /// Declares a rank failed, as `World::fail`. It counts as a declaration by the outside, the world's failure detector; this member's pass
    /// has seen it from then on.
    ///
    /// ```
    /// assert!(rt; member.fail(1) == Ok(true));
    /// assert!(rt; member.fail(1) == Ok(false));
    /// assert!(rt; member.fail(2) == Err(Refusal::NoSuchRank));
    /// ```
    pub fn fail(&mut self, rank: u16) -> Result<bool, Refusal>
        ensures { MemberFails (setting_of P.meld P.pack W.alone) rank self.old (reply_of declared result) self.new }
    {
        self.world.fail(&mut self.pass, rank)
    }
}

impl<W, P: Packed, A: Allocator> Member<W, P, A>
where
    W: OpenWords<P, A>,
{
    /// What its pass has seen, as a value that another member or the outside may `learn`. It makes no atomic step.
    ///
    /// ```
    /// member.revoke(0)?;
    /// outside.learn(&member.told());
    /// ```
    pub fn told(&self) -> W::Told
        ensures { Tells W.tells_all (view_in P.pack self.now.view) (W.heard result) }
    {
        self.world.told(&self.pass)
    }

    /// Takes in what another told: from now on its pass has seen that too. It makes no atomic step.
    ///
    /// ```
    /// outside.fail(1)?;
    /// member.learn(&outside.told());
    /// ```
    pub fn learn(&mut self, told: &W::Told)
        requires { (W.heard told.now).name ≡ self.old.view.words }
        ensures { MemberLearns (setting_of P.meld P.pack W.alone) (W.heard told.now) self.old self.new }
    {
        self.world.learn(&mut self.pass, told)
    }
}
