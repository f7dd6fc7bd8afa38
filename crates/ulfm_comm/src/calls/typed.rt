// The calls of a rank, each by its own name and with an answer of its own type. Each makes one whole call (`Rank::call`).
ghost use Rattle.std.specs.Prelude.{◌≡◌, ◌<◌, Err, IfOk, OnErr, length, vec_capacity};
ghost use Rattle.ulfm_model.specs.declared.call.Call.TheVariants.{Ack, FailureAck, FailureGetAcked, GetFailed};
ghost use Rattle.ulfm_model.specs.declared.call.Call.TheVariants.{Agree, Barrier, Free, IsRevoked, Poll, Revoke, Shrink};
ghost use Rattle.ulfm_model.specs.declared.{refusal.Refusal.TheVariants.{OutOfMemory as NoMemory}, reply.Reply.TheVariants.{Acked, Freed, Standing, Started}};
ghost use Rattle.ulfm_words.specs.Steps.{view_of, IsView};
ghost use Rattle.ulfm_comm.specs.Calls.{Calls, Gets, reply_of};
ghost use Rattle.ulfm_comm.specs.Counts.{TakesSteps};
ghost use Rattle.ulfm_comm.specs.Excludes.{LeavesOut, failed_in};
ghost use Rattle.ulfm_comm.specs.Local.{local, FitsView};
ghost use Rattle.ulfm_comm.specs.Polls.{Polls, EndsIn};
ghost use Rattle.ulfm_comm.specs.Queries.{acked_in};
ghost use Rattle.ulfm_comm.specs.Revokes.{revoked};

use crate::calls::polled::Polled;
use crate::calls::replies::{acked, counted, freed, polled, started, told};
use crate::rank::Rank;
use crate::world::World;
use std::alloc::Allocator;
use ulfm_laws::meld::Packed;
use ulfm_model::call::Call;
use ulfm_model::refusal::Refusal;
use ulfm_steps::ReadOn;
use ulfm_words::Words;

impl<P: Packed, A: Allocator + Copy> Rank<P, A> {
    /// Puts the failed group of a communicator into a vector, in the order of the declarations: the members that are
    /// known to have failed. What the vector held is dropped. It makes the steps of a look, which `Rank` explains (ULFM: Communicator
    /// Functions, `MPI_COMM_GET_FAILED`).
    ///
    /// `SelfFailed` where the rank is declared failed, `NoSuchComm` where it doesn't hold the communicator, `OutOfMemory` where
    /// the vector has less room than the group has ranks and its growth is refused. After a refusal the vector is as it was.
    ///
    /// ```
    /// // Rank 1 was declared failed before.
    /// let mut found = Vec::new(alloc);
    /// rank.get_failed(&world, &mut pass, 0, &mut found)?;
    /// assert_eq!(rt; found.as_slice(), [1].as_slice());
    /// ```
    #[inline]
    pub fn get_failed<W: Words<P, A>, B: Allocator>(
        &mut self,
        world: &World<W, P, A>,
        pass: &mut W::Pass,
        comm: u16,
        found: &mut Vec<u16, B>,
    ) -> Result<(), Refusal>
        requires of { IsView P.meld (view_of P.pack world.now (W.sight pass.old)) }
        requires fits { FitsView P.meld (local self.old.own (view_of P.pack world.now (W.sight pass.old))) }
        ensures gets { Gets P.meld W.alone (GetFailed self.old.own.number comm) (local self.old.own (view_of P.pack world.now (W.sight pass.old)))
            (length found.new.items) result (local self.new.own (view_of P.pack world.now (W.sight pass.new))) }
        ensures group { IfOk result (λ _. found.new.items ≡ failed_in (view_of P.pack world.now (W.sight pass.new)) comm) }
        ensures kept { OnErr result (found.new.items ≡ found.old.items) }
        ensures memory { result ≡ Err NoMemory → vec_capacity found.old < length (failed_in (view_of P.pack world.now (W.sight pass.new)) comm) }
        ensures steps { TakesSteps {P = P} (GetFailed self.old.own.number comm) (local self.old.own (view_of P.pack world.now (W.sight pass.old)))
            self.new.last (local self.new.own (view_of P.pack world.now (W.sight pass.new))) }
    {
        let rank = self.number();
        counted(self.call(world, pass, Call::GetFailed { rank, comm }))?;
        let all = self.failures().len();
        if self.own.put_failed(comm, all, found).is_err() {
            return Err(Refusal::OutOfMemory);
        }
        Ok(())
    }

    /// Acknowledges the first `count` known failures of a communicator, or all that are known where `count` is greater. It gives how many
    /// are acknowledged now, earlier calls included. It makes the steps of a look, which `Rank` explains (ULFM: Communicator
    /// Functions, `MPI_COMM_ACK_FAILED`).
    ///
    /// `SelfFailed` where the rank is declared failed, `NoSuchComm` where it doesn't hold the communicator.
    ///
    /// ```
    /// // Rank 1 was declared failed before.
    /// // There is one failure to acknowledge, however many are asked for.
    /// assert!(rt; rank.ack_failed(&world, &mut pass, 0, 9) == Ok(1));
    /// ```
    #[inline]
    pub fn ack_failed<W: Words<P, A>>(
        &mut self,
        world: &World<W, P, A>,
        pass: &mut W::Pass,
        comm: u16,
        count: u16,
    ) -> Result<u16, Refusal>
        requires of { IsView P.meld (view_of P.pack world.now (W.sight pass.old)) }
        requires fits { FitsView P.meld (local self.old.own (view_of P.pack world.now (W.sight pass.old))) }
        ensures calls { Calls P.meld W.alone (Ack self.old.own.number comm count) (local self.old.own (view_of P.pack world.now (W.sight pass.old)))
            (reply_of Acked result) (local self.new.own (view_of P.pack world.now (W.sight pass.new))) }
        ensures steps { TakesSteps {P = P} (Ack self.old.own.number comm count) (local self.old.own (view_of P.pack world.now (W.sight pass.old)))
            self.new.last (local self.new.own (view_of P.pack world.now (W.sight pass.new))) }
    {
        let rank = self.number();
        acked(self.call(world, pass, Call::Ack { rank, comm, count }))
    }

    /// Acknowledges all known failures of a communicator, as `ack_failed` does where it asks for 1024. It gives how many are acknowledged
    /// now. It makes the steps of a look, which `Rank` explains.
    ///
    /// It is `MPIX_Comm_failure_ack` of the interface of 2013, whose caller isn't told how many there are. What is known is what the
    /// call's own look finds, also a failure of which no earlier call of the rank told.
    ///
    /// `SelfFailed` where the rank is declared failed, `NoSuchComm` where it doesn't hold the communicator.
    ///
    /// ```
    /// // Rank 1 was declared failed before.
    /// assert!(rt; rank.failure_ack(&world, &mut pass, 0) == Ok(1));
    /// ```
    #[inline]
    pub fn failure_ack<W: Words<P, A>>(
        &mut self,
        world: &World<W, P, A>,
        pass: &mut W::Pass,
        comm: u16,
    ) -> Result<u16, Refusal>
        requires of { IsView P.meld (view_of P.pack world.now (W.sight pass.old)) }
        requires fits { FitsView P.meld (local self.old.own (view_of P.pack world.now (W.sight pass.old))) }
        ensures calls { Calls P.meld W.alone (FailureAck self.old.own.number comm) (local self.old.own (view_of P.pack world.now (W.sight pass.old)))
            (reply_of Acked result) (local self.new.own (view_of P.pack world.now (W.sight pass.new))) }
        ensures steps { TakesSteps {P = P} (FailureAck self.old.own.number comm) (local self.old.own (view_of P.pack world.now (W.sight pass.old)))
            self.new.last (local self.new.own (view_of P.pack world.now (W.sight pass.new))) }
    {
        let rank = self.number();
        acked(self.call(world, pass, Call::FailureAck { rank, comm }))
    }

    /// Puts the acknowledged failures of a communicator into a vector: of its failed group, which is in the order of the declarations,
    /// the first ranks, as many as its calls have acknowledged. What the vector held is dropped. It makes the steps of a look, which
    /// `Rank` explains.
    ///
    /// It is `MPIX_Comm_failure_get_acked` of the interface of 2013, which gives a group. Here the ranks are numbered as in the world,
    /// and stand in an order that stays: what an earlier call listed is where it was.
    ///
    /// `SelfFailed` where the rank is declared failed, `NoSuchComm` where it doesn't hold the communicator, `OutOfMemory` where
    /// the vector has less room than there are such ranks and its growth is refused. After a refusal the vector is as it was.
    ///
    /// ```
    /// // Rank 1 was declared failed before.
    /// let mut found = Vec::new(alloc);
    /// rank.failure_get_acked(&world, &mut pass, 0, &mut found)?;
    /// assert!(rt; found.is_empty());
    /// rank.failure_ack(&world, &mut pass, 0)?;
    /// rank.failure_get_acked(&world, &mut pass, 0, &mut found)?;
    /// assert_eq!(rt; found.as_slice(), [1].as_slice());
    /// ```
    #[inline]
    pub fn failure_get_acked<W: Words<P, A>, B: Allocator>(
        &mut self,
        world: &World<W, P, A>,
        pass: &mut W::Pass,
        comm: u16,
        found: &mut Vec<u16, B>,
    ) -> Result<(), Refusal>
        requires of { IsView P.meld (view_of P.pack world.now (W.sight pass.old)) }
        requires fits { FitsView P.meld (local self.old.own (view_of P.pack world.now (W.sight pass.old))) }
        ensures gets { Gets P.meld W.alone (FailureGetAcked self.old.own.number comm) (local self.old.own (view_of P.pack world.now (W.sight pass.old)))
            (length found.new.items) result (local self.new.own (view_of P.pack world.now (W.sight pass.new))) }
        ensures group { IfOk result (λ _. found.new.items ≡ acked_in (local self.new.own (view_of P.pack world.now (W.sight pass.new))) comm) }
        ensures kept { OnErr result (found.new.items ≡ found.old.items) }
        ensures memory { result ≡ Err NoMemory → vec_capacity found.old
            < length (acked_in (local self.new.own (view_of P.pack world.now (W.sight pass.new))) comm) }
        ensures steps { TakesSteps {P = P} (FailureGetAcked self.old.own.number comm) (local self.old.own (view_of P.pack world.now (W.sight pass.old)))
            self.new.last (local self.new.own (view_of P.pack world.now (W.sight pass.new))) }
    {
        let rank = self.number();
        let count = counted(self.call(world, pass, Call::FailureGetAcked { rank, comm }))?;
        let x = self.own.held_comm(comm);
        let reach = ReadOn::new(&x.group, count, self.failures()).reach;
        if self.own.put_failed(comm, reach, found).is_err() {
            return Err(Refusal::OutOfMemory);
        }
        Ok(())
    }

    /// Starts an agree on a flag, in the rank's next agreement round of the communicator. The rank contributes the flag, how many
    /// failures it knows, and how many of them it has acknowledged. From then on the request is open, until a poll ends it. It makes
    /// the steps of a look (see `Rank`) and two more (ULFM: Communicator Functions, `MPI_COMM_IAGREE`).
    ///
    /// `SelfFailed` where the rank is declared failed, `NoSuchComm` where it doesn't hold the communicator, `Busy` where a request
    /// is open on it, `RoundsUsedUp` where no round is left but the last, which is kept for a shrink. After these
    /// `SelfFailed` where the rank was declared and another rank had marked it, that is, left it out of the round, before it contributed;
    /// and `Twice` where the rank's place in the round has a contribution that isn't this call's. A refusal starts no request.
    ///
    /// ```
    /// let flag = FlagAnd { bits: 0b0110 };
    /// assert!(rt; rank.iagree(&world, &mut pass, 0, flag) == Ok(()));
    /// // A communicator has one request of a rank at a time.
    /// assert!(rt; rank.iagree(&world, &mut pass, 0, flag) == Err(Refusal::Busy));
    /// ```
    #[inline]
    pub fn iagree<W: Words<P, A>>(
        &mut self,
        world: &World<W, P, A>,
        pass: &mut W::Pass,
        comm: u16,
        value: P,
    ) -> Result<(), Refusal>
        requires of { IsView P.meld (view_of P.pack world.now (W.sight pass.old)) }
        requires fits { FitsView P.meld (local self.old.own (view_of P.pack world.now (W.sight pass.old))) }
        ensures calls { Calls P.meld W.alone (Agree self.old.own.number comm value) (local self.old.own (view_of P.pack world.now (W.sight pass.old)))
            (reply_of (λ _. Started) result) (local self.new.own (view_of P.pack world.now (W.sight pass.new))) }
        ensures steps { TakesSteps {P = P} (Agree self.old.own.number comm value) (local self.old.own (view_of P.pack world.now (W.sight pass.old)))
            self.new.last (local self.new.own (view_of P.pack world.now (W.sight pass.new))) }
    {
        let rank = self.number();
        let asked = Call::Agree { rank, comm, value };
        started(self.call(world, pass, asked))
    }

    /// Starts a shrink of a communicator, in the rank's next agreement round of it. The rank contributes the context ids that none of
    /// its communicators has, how many failures it knows, all of which are to be left out, and how many of them it has acknowledged.
    /// From then on the request is open, until a poll ends it. It makes the steps of a look (see `Rank`) and two more (ULFM:
    /// Communicator Functions, `MPI_COMM_ISHRINK`).
    ///
    /// `SelfFailed` where the rank is declared failed, `NoSuchComm` where it doesn't hold the communicator, `Busy` where a request
    /// is open on it, `ShrinkOpen` where the rank has a shrink open on any of its communicators, since it offers the same
    /// ids to one shrink at a time, `RoundsUsedUp` where no round is left. After these `SelfFailed` where the rank was declared and
    /// another rank had marked it, that is, left it out of the round, before it contributed; and `Twice` where the rank's place in the
    /// round has a contribution that isn't this call's. A refusal starts no request.
    ///
    /// ```
    /// // Rank 1 was declared failed before.
    /// rank.ishrink(&world, &mut pass, 0)?;
    /// let alone = Polled::Shrunk {
    ///     comm: 1,
    ///     context: 1,
    ///     size: 1,
    /// };
    /// assert!(rt; rank.poll(&world, &mut pass, 0) == Ok(alone));
    /// ```
    #[inline]
    pub fn ishrink<W: Words<P, A>>(
        &mut self,
        world: &World<W, P, A>,
        pass: &mut W::Pass,
        comm: u16,
    ) -> Result<(), Refusal>
        requires of { IsView P.meld (view_of P.pack world.now (W.sight pass.old)) }
        requires fits { FitsView P.meld (local self.old.own (view_of P.pack world.now (W.sight pass.old))) }
        ensures calls { Calls P.meld W.alone (Shrink self.old.own.number comm) (local self.old.own (view_of P.pack world.now (W.sight pass.old)))
            (reply_of (λ _. Started) result) (local self.new.own (view_of P.pack world.now (W.sight pass.new))) }
        ensures excludes { IfOk result (λ _. LeavesOut P.meld comm (local self.old.own (view_of P.pack world.now (W.sight pass.old)))
            (local self.new.own (view_of P.pack world.now (W.sight pass.new)))) }
        ensures steps { TakesSteps {P = P} (Shrink self.old.own.number comm) (local self.old.own (view_of P.pack world.now (W.sight pass.old)))
            self.new.last (local self.new.own (view_of P.pack world.now (W.sight pass.new))) }
    {
        let rank = self.number();
        started(self.call(world, pass, Call::Shrink { rank, comm }))
    }

    /// Starts a barrier, in the rank's next barrier round of the communicator: the rank has arrived. Barrier rounds are counted apart
    /// from agreement rounds. From then on the request is open, until a poll ends it. A barrier starts on a revoked communicator too; its
    /// poll then says that it is revoked. It makes the steps of a look (see `Rank`) and one more.
    ///
    /// `SelfFailed` where the rank is declared failed, `NoSuchComm` where it doesn't hold the communicator, `Busy` where a request
    /// is open on it, `RoundsUsedUp` where no round is left. After these `Twice` where the rank has arrived in this round
    /// before. A refusal starts no request.
    ///
    /// ```
    /// rank.ibarrier(&world, &mut pass, 0)?;
    /// // Rank 1 was declared failed before, and can't arrive any more.
    /// assert!(rt; rank.poll(&world, &mut pass, 0) == Err(Refusal::ProcFailed));
    /// ```
    #[inline]
    pub fn ibarrier<W: Words<P, A>>(
        &mut self,
        world: &World<W, P, A>,
        pass: &mut W::Pass,
        comm: u16,
    ) -> Result<(), Refusal>
        requires of { IsView P.meld (view_of P.pack world.now (W.sight pass.old)) }
        requires fits { FitsView P.meld (local self.old.own (view_of P.pack world.now (W.sight pass.old))) }
        ensures calls { Calls P.meld W.alone (Barrier self.old.own.number comm) (local self.old.own (view_of P.pack world.now (W.sight pass.old)))
            (reply_of (λ _. Started) result) (local self.new.own (view_of P.pack world.now (W.sight pass.new))) }
        ensures steps { TakesSteps {P = P} (Barrier self.old.own.number comm) (local self.old.own (view_of P.pack world.now (W.sight pass.old)))
            self.new.last (local self.new.own (view_of P.pack world.now (W.sight pass.new))) }
    {
        let rank = self.number();
        started(self.call(world, pass, Call::Barrier { rank, comm }))
    }

    /// Asks for the reply to the open request on a communicator, an agree, a shrink or a barrier. The poll of an agree or a shrink marks
    /// each member that is known to have failed and hasn't contributed: a mark takes the member's place in the round, so that it is left
    /// out. Then it reads what the members' places say. Where somebody is missing who isn't known to have failed, the reply is pending,
    /// and the request stays open. Else the round is decided, for all who poll alike (ULFM: Communicator Functions, `MPI_COMM_AGREE`,
    /// `MPI_COMM_SHRINK`). A pending poll remembers at whose place it ended. Where the next one has nobody to mark, it loads that place
    /// first, and is pending at once while that is empty.
    ///
    /// An agree ends with the flags combined, the size of the failed group, and whether an error is raised. A shrink ends with a new
    /// communicator, which the rank holds from then on. That has the members of the old one, in their order, without the failed group
    /// that was decided, and the lowest context id that all contributors had free. For a shrink the rank reads on in the list of
    /// failures, as far as the decision's failed group reaches, and then goes through the list of communicators.
    ///
    /// The poll of a barrier reads the arrivals up to the first who is missing: first of the members that are known to have failed, in
    /// the order of the declarations, and then of the others, in the members' order. Last it reads whether the communicator is revoked.
    /// The barrier ends where all have arrived, also where some of them have failed since. Where somebody is missing, but nobody who is
    /// known to have failed, the reply is pending (ULFM: Communicator Functions, `MPI_COMM_REVOKE`).
    ///
    /// `SelfFailed` where the rank is declared failed, `NoSuchComm` where it doesn't hold the communicator, `Idle` where no request
    /// is open on it. `Mismatch` where some agreed and others shrank in one round; it ends the request. For a shrink, then:
    /// `NoContext` where no id is free at all contributors; `SelfFailed` where the rank is in the failed group that was
    /// decided; `OutOfMemory` where memory for the new communicator is refused; `NoRoom` where as many communicators
    /// as the world may have were made. `NoContext` and `NoRoom` end the request. After `OutOfMemory` it is open as before, and may be
    /// polled again. For a barrier: `IsRevoked` where the communicator is revoked, whoever has arrived; `ProcFailed` where it
    /// isn't, and a member that is known to have failed is missing. Both end the request.
    ///
    /// With N ranks, of which the rank has seen v declared, n members and M communicators, the poll of an agree makes
    /// N - v + 5n + 4 steps at most, that of a shrink N - v + 5n + 2M + 3, and that of a barrier N - v + n + 1, whatever the others do.
    ///
    /// ```
    /// let value = FlagAnd { bits: 0b0110 };
    /// rank.iagree(&world, &mut pass, 0, value)?;
    /// // Rank 1 was declared failed before, and is left out.
    /// let agreed = Polled::Agreed {
    ///     value,
    ///     failed: 1,
    ///     raised: true,
    /// };
    /// assert!(rt; rank.poll(&world, &mut pass, 0) == Ok(agreed));
    /// ```
    #[inline]
    pub fn poll<W: Words<P, A>>(
        &mut self,
        world: &World<W, P, A>,
        pass: &mut W::Pass,
        comm: u16,
    ) -> Result<Polled<P>, Refusal>
        requires of { IsView P.meld (view_of P.pack world.now (W.sight pass.old)) }
        requires fits { FitsView P.meld (local self.old.own (view_of P.pack world.now (W.sight pass.old))) }
        ensures calls { Polls P.meld W.alone (Poll self.old.own.number comm) (local self.old.own (view_of P.pack world.now (W.sight pass.old))) result
            (local self.new.own (view_of P.pack world.now (W.sight pass.new))) }
        ensures pending { IfOk result (EndsIn P.meld W.alone comm (local self.old.own (view_of P.pack world.now (W.sight pass.old)))
            (local self.new.own (view_of P.pack world.now (W.sight pass.new)))) }
        ensures steps { TakesSteps {P = P} (Poll self.old.own.number comm) (local self.old.own (view_of P.pack world.now (W.sight pass.old)))
            self.new.last (local self.new.own (view_of P.pack world.now (W.sight pass.new))) }
    {
        let rank = self.number();
        polled(self.call(world, pass, Call::Poll { rank, comm }))
    }

    /// Gives a communicator back: the rank doesn't hold it any more, and its context id is free at this rank. In MPI all
    /// members call `MPI_COMM_FREE` together; here each rank gives back its own, and other ranks hold the communicator as before. It
    /// makes the steps of a look (see `Rank`).
    ///
    /// `SelfFailed` where the rank is declared failed, `NoSuchComm` where it doesn't hold the communicator, `WorldKept` where it is
    /// the world's own, `Busy` where a request is open on it.
    ///
    /// ```
    /// // Rank 1 was declared failed before.
    /// rank.ishrink(&world, &mut pass, 0)?;
    /// rank.poll(&world, &mut pass, 0)?;
    /// assert!(rt; rank.free(&world, &mut pass, 1) == Ok(()));
    /// assert!(rt; rank.members(1).is_none());
    /// assert!(rt; rank.free(&world, &mut pass, 0) == Err(Refusal::WorldKept));
    /// ```
    #[inline]
    pub fn free<W: Words<P, A>>(
        &mut self,
        world: &World<W, P, A>,
        pass: &mut W::Pass,
        comm: u16,
    ) -> Result<(), Refusal>
        requires of { IsView P.meld (view_of P.pack world.now (W.sight pass.old)) }
        requires fits { FitsView P.meld (local self.old.own (view_of P.pack world.now (W.sight pass.old))) }
        ensures calls { Calls P.meld W.alone (Free self.old.own.number comm) (local self.old.own (view_of P.pack world.now (W.sight pass.old)))
            (reply_of (λ _. Freed) result) (local self.new.own (view_of P.pack world.now (W.sight pass.new))) }
        ensures steps { TakesSteps {P = P} (Free self.old.own.number comm) (local self.old.own (view_of P.pack world.now (W.sight pass.old)))
            self.new.last (local self.new.own (view_of P.pack world.now (W.sight pass.new))) }
    {
        let rank = self.number();
        freed(self.call(world, pass, Call::Free { rank, comm }))
    }

    /// Revokes a communicator, for all ranks and for good: true where this call did so, false where it had been revoked before. A
    /// barrier that is open on it ends with a refusal. All other calls go on as before, so that ranks can agree on the communicator, shrink
    /// it and give it back. It makes the steps of a look (see `Rank`) and one more (ULFM: Communicator Functions, `MPI_COMM_REVOKE`).
    ///
    /// `SelfFailed` where the rank is declared failed, `NoSuchComm` where it doesn't hold the communicator.
    ///
    /// ```
    /// assert!(rt; rank.revoke(&world, &mut pass, 0) == Ok(true));
    /// assert!(rt; rank.revoke(&world, &mut pass, 0) == Ok(false));
    /// ```
    #[inline]
    pub fn revoke<W: Words<P, A>>(
        &mut self,
        world: &World<W, P, A>,
        pass: &mut W::Pass,
        comm: u16,
    ) -> Result<bool, Refusal>
        requires of { IsView P.meld (view_of P.pack world.now (W.sight pass.old)) }
        requires fits { FitsView P.meld (local self.old.own (view_of P.pack world.now (W.sight pass.old))) }
        ensures calls { Calls P.meld W.alone (Revoke self.old.own.number comm) (local self.old.own (view_of P.pack world.now (W.sight pass.old)))
            (reply_of revoked result) (local self.new.own (view_of P.pack world.now (W.sight pass.new))) }
        ensures steps { TakesSteps {P = P} (Revoke self.old.own.number comm) (local self.old.own (view_of P.pack world.now (W.sight pass.old)))
            self.new.last (local self.new.own (view_of P.pack world.now (W.sight pass.new))) }
    {
        let rank = self.number();
        told(self.call(world, pass, Call::Revoke { rank, comm }))
    }

    /// Whether a communicator is revoked, when this call loads the communicator's word of revocation. It makes the steps of a look (see
    /// `Rank`) and one more (ULFM: Communicator Functions, `MPI_COMM_IS_REVOKED`).
    ///
    /// `SelfFailed` where the rank is declared failed, `NoSuchComm` where it doesn't hold the communicator.
    ///
    /// ```
    /// assert!(rt; rank.is_revoked(&world, &mut pass, 0) == Ok(false));
    /// rank.revoke(&world, &mut pass, 0)?;
    /// assert!(rt; rank.is_revoked(&world, &mut pass, 0) == Ok(true));
    /// ```
    #[inline]
    pub fn is_revoked<W: Words<P, A>>(
        &mut self,
        world: &World<W, P, A>,
        pass: &mut W::Pass,
        comm: u16,
    ) -> Result<bool, Refusal>
        requires of { IsView P.meld (view_of P.pack world.now (W.sight pass.old)) }
        requires fits { FitsView P.meld (local self.old.own (view_of P.pack world.now (W.sight pass.old))) }
        ensures calls { Calls P.meld W.alone (IsRevoked self.old.own.number comm) (local self.old.own (view_of P.pack world.now (W.sight pass.old)))
            (reply_of Standing result) (local self.new.own (view_of P.pack world.now (W.sight pass.new))) }
        ensures steps { TakesSteps {P = P} (IsRevoked self.old.own.number comm) (local self.old.own (view_of P.pack world.now (W.sight pass.old)))
            self.new.last (local self.new.own (view_of P.pack world.now (W.sight pass.new))) }
    {
        let rank = self.number();
        told(self.call(world, pass, Call::IsRevoked { rank, comm }))
    }
}
