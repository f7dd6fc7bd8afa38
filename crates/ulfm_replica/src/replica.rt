// A rank that replays the log of its world, as a user holds it.
ghost use Rattle.std.specs.Prelude.{◌≡◌, ◌≢◌, None, Some, IfOk, MatchOption, length};
ghost use Rattle.ulfm_model.specs.{Answers.{traits_of}, Records.{held_at}};
ghost use Rattle.ulfm_model.specs.declared.event.Caller.TheVariants.{Rank as OfRank};
ghost use Rattle.ulfm_replica.specs.Replicas.{BeginsIn, FeedsIn, IsNewReplica, Replicated, RunsIn, rules};

use crate::answers::{Fed, FeedFault, Lost, Ran};
use crate::entry_bytes::EntryBytes;
use crate::machine::Machine;
use std::alloc::Allocator;
use std::marker::Model;
use ulfm_comm::Rank;
use ulfm_laws::meld::Packed;
use ulfm_model::call::Call;
use ulfm_model::limits::{Limits, OpenFault};

/// A rank that replays the log of its world. In contracts it stands for the rank with the entries that it was fed with, or for none where it is
/// lost: where memory was refused within `run` or `feed`. Examples are of rank 0 in a world of two.
#[derive(Drop)]
pub struct Replica<P: Packed, A: Allocator + Copy + Drop> {
    // None where it is lost.
    machine: Option<Machine<P, A>>,
}

impl<P: Packed, A: Allocator + Copy + Drop> Model for Replica<P, A> {
    ghost use Rattle.std.specs.Prelude.{Option, ⊤};
    ghost use Rattle.ulfm_replica.specs.Replicas.{Replicated};

    ghost Value = { Option (Replicated P) };

    ghost view = { λ a. a.machine };

    ghost invariant = { λ a. ⊤ };
}

impl<P: Packed, A: Allocator + Copy + Drop> Replica<P, A> {
    /// A replica of the rank of this number, in a world of these limits where nothing has happened. All replicas of a world have the same limits.
    /// It takes memory for all words of the world. It is refused where a limit is 0 or too great, or there is no such rank (`OutOfRange`), where
    /// the world is too large, or memory is refused.
    ///
    /// ```
    /// let replica: Replica<FlagAnd, _> = Replica::open(alloc, limits, 0)?;
    /// assert!(rt; replica.fed() == Some(0));
    /// ```
    pub fn open(alloc: A, limits: Limits, number: u16) -> Result<Replica<P, A>, OpenFault>
        ensures { IfOk result (λ r. (new : Replicated P) × (r ≡ Some new) × IsNewReplica limits number new) }
    {
        let machine = Machine::open(alloc, limits, number)?;
        Ok(Replica {
            machine: Some(machine),
        })
    }

    /// With how many entries it was fed: the number of the next one, counted from 0. None where it is lost.
    pub fn fed(&self) -> Option<u64>
        ensures { MatchOption self.now (result ≡ None) (λ r. result ≡ Some (length r.fed)) }
    {
        match &self.machine {
            Some(machine) => Some(machine.count()),
            None => None,
        }
    }

    /// The rank's number; none where the replica is lost.
    pub fn number(&self) -> Option<u16>
        ensures { MatchOption result (self.now ≡ None) (λ n. (r : Replicated P) × (self.now ≡ Some r) × (n ≡ r.at.own.number)) }
    {
        match &self.machine {
            Some(machine) => Some(machine.at().rank().number()),
            None => None,
        }
    }

    /// The rank, for what may be asked of it without a step: its number, its communicators, the failures that it has seen. None where the
    /// replica is lost.
    pub fn rank(&self) -> Option<&Rank<P, A>>
        ensures { MatchOption result (self.now ≡ None) (λ rank. (r : Replicated P) × (self.now ≡ Some r) × (rank.now.own ≡ r.at.own)) }
    {
        match &self.machine {
            Some(machine) => Some(machine.at().rank()),
            None => None,
        }
    }

    /// Begins a call of this rank: whether it did. It does nothing where a call is under way, where the reply to one wasn't told yet by `run`, or
    /// where the replica is lost. It makes no step.
    pub fn begin(&mut self, asked: Call<P>) -> bool
        requires mine { (r : Replicated P) → self.old ≡ Some r → (traits_of asked).by ≡ OfRank r.at.own.number }
        ensures { BeginsIn (rules P.meld P.pack) self.old asked result self.new }
    {
        match &mut self.machine {
            Some(machine) => machine.begin(asked),
            None => false,
        }
    }

    /// Steps on as far as no entry is waited for: the reply to the call, or the entry that is to be appended to the log. It may be called again
    /// at any time, and names the same entry until that has come, or another took its place. Nothing is seen by it that no entry told. Where
    /// memory is refused, the replica is lost.
    pub fn run(&mut self) -> Result<Ran<P>, Lost>
        ensures { RunsIn (rules P.meld P.pack) self.old result self.new }
    {
        let Some(machine) = self.machine.take() else {
            return Err(Lost);
        };
        let (machine, ran) = machine.run()?;
        self.machine = Some(machine);
        Ok(ran)
    }

    /// The entry of this number of the log, counted from 0, by its bytes. Another number than the next is refused, and changes nothing. What isn't
    /// legal behind the entries before it is left out, and so are bytes that are no entry's. The entry that the call waits for is the call's own
    /// step. Where memory is refused, the replica is lost.
    pub fn feed(&mut self, index: u64, entry: &EntryBytes) -> Result<Fed, FeedFault>
        ensures { FeedsIn (rules P.meld P.pack) self.old index entry.now.bytes result self.new }
    {
        let Some(machine) = self.machine.take() else {
            return Err(FeedFault::Lost);
        };
        if machine.count() != index {
            self.machine = Some(machine);
            return Err(FeedFault::Gap);
        }
        match machine.feed(entry) {
            Ok((machine, fed)) => {
                self.machine = Some(machine);
                Ok(fed)
            }
            Err(Lost) => Err(FeedFault::Lost),
        }
    }
}
