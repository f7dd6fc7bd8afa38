// A rank with the tables by which entries are judged. It is moved into each call, and comes back where no memory was refused.
ghost use Rattle.std.specs.Prelude.{◌≡◌, ◌≢◌, ◌<◌, ◌+◌, ◌-◌, ◌^◌, not, if◌then◌else◌, None, Some, IfOk, IfSome, IsTrue, is_some, length};
ghost use Rattle.std.specs.Bool.{Decides};
ghost use Rattle.ulfm_model.specs.Answers.{traits_of};
ghost use Rattle.ulfm_model.specs.declared.event.Caller.TheVariants.{Rank as OfRank};
ghost use Rattle.ulfm_model.specs.declared.event.Entry.{Entry as EntryOf};
ghost use Rattle.ulfm_replica.specs.Wire.{IsReadAs, entry_bytes};
ghost use Rattle.ulfm_replica.specs.Replicas.{Begins, IsBusy, IsFed, IsNewReplica, IsWanted, RunsOn, StepsOn, rules};
ghost use Rattle.ulfm_replica.specs.declared.answers.Fed.TheVariants.{LeftOut as IsLeftOut, Own as IsOwn, Taken as IsTaken};

use crate::answers::{Fed, Lost, Ran};
use crate::calling::CallingRank;
use crate::entry_bytes::EntryBytes;
use crate::log_so_far::LogSoFar;
use crate::{bytes_of, entry_of};
use std::alloc::{AllocError, Allocator};
use std::marker::Model;
use ulfm_laws::meld::Packed;
use ulfm_model::call::Call;
use ulfm_model::event::Entry;
use ulfm_model::limits::{Limits, OpenFault};
use ulfm_numbers::{Numbers, may_follow};

/// A rank that replays a log: it, and what is known of the log so far.
#[derive(Drop)]
pub(crate) struct Machine<P: Packed, A: Allocator + Copy + Drop> {
    // Whence the tables take memory.
    alloc: A,
    // The rank, over words of its own.
    at: CallingRank<P, A>,
    // When things happened, by which entries are judged.
    numbers: Numbers<P, A>,
    // With how many entries it was fed.
    count: u64,
    // With which, for contracts alone.
    log: LogSoFar,
}

impl<P: Packed, A: Allocator + Copy + Drop> Model for Machine<P, A> {
    ghost use Rattle.std.specs.Prelude.{◌≡◌, length};
    ghost use Rattle.ulfm_numbers.specs.Telling.{TablesTell};
    ghost use Rattle.ulfm_replica.specs.Replicas.{IsReplica, Replicated, rules};

    ghost Value = { Replicated P };

    ghost view = { λ a. record { at = a.at; fed = a.log.items } };

    ghost invariant = { λ a. IsReplica (rules P.meld P.pack) (record { at = a.at; fed = a.log.items })
        × TablesTell a.at.words.limits.ranks a.numbers a.at.pass.seen × (a.count ≡ length a.log.items) };
}

// Whether two strings of bytes are one.
fn are_same(xs: &[u8], ys: &[u8]) -> bool
    ensures { Decides result (xs.now ≡ ys.now) }
{
    xs == ys
}

// Whether a number is the next one.
fn is_one_more(before: u32, after: u32) -> bool
    ensures { IsTrue result → after ≡ before + 1 }
{
    u64::from(after) == u64::from(before) + 1
}

// What an entry did that isn't the call's own.
fn done_by(taken: bool) -> Fed
    ensures { result ≡ (if taken then IsTaken else IsLeftOut) }
{
    if taken { Fed::Taken } else { Fed::LeftOut }
}

impl<P: Packed, A: Allocator + Copy + Drop> Machine<P, A> {
    /// A replica of this rank of a world of these limits, where nothing has happened.
    pub(crate) fn open(alloc: A, limits: Limits, number: u16) -> Result<Machine<P, A>, OpenFault>
        ensures { IfOk result (IsNewReplica limits number) }
    {
        let at = CallingRank::open(alloc, limits, number)?;
        match Numbers::new(alloc, limits.ranks) {
            Ok(numbers) => Ok(Machine {
                alloc,
                at,
                numbers,
                count: 0,
                log: LogSoFar::new(),
            }),
            Err(_) => Err(OpenFault::OutOfMemory),
        }
    }

    /// The rank.
    pub(crate) fn at(&self) -> &CallingRank<P, A>
        ensures { result.now ≡ self.now.at }
    {
        &self.at
    }

    /// With how many entries it was fed.
    pub(crate) fn count(&self) -> u64
        ensures { result ≡ length self.now.fed }
    {
        self.count
    }

    /// Begins a call of this rank, where none is under way: whether it did.
    pub(crate) fn begin(&mut self, asked: Call<P>) -> bool
        requires mine { (traits_of asked).by ≡ OfRank self.old.at.own.number }
        ensures begun { IsTrue result → Begins (rules P.meld P.pack) asked self.old.at self.new.at × (self.new.fed ≡ self.old.fed) }
        ensures busy { IsTrue (not result) → (self.new ≡ self.old) × IsBusy self.old.at }
    {
        self.at.begin(asked)
    }

    // The entry that its call waits for: what its next step would add, where that may come next.
    fn wanted(&self) -> Result<Option<Entry<P>>, AllocError>
        ensures { IfOk result (λ wanted. IfSome wanted (IsWanted (rules P.meld P.pack) self.now.at)) }
    {
        let Some(entry) = self.at.proposal() else {
            return Ok(None);
        };
        let count = self.numbers.count;
        match may_follow(
            self.alloc,
            self.at.limits(),
            &self.numbers,
            count,
            &entry.event,
        ) {
            Ok(true) => Ok(Some(entry)),
            Ok(false) => Ok(None),
            Err(error) => Err(error),
        }
    }

    // Takes a step of its call that adds no event.
    fn stepped(self) -> Result<Machine<P, A>, Lost>
        requires open { IsTrue (is_some self.at.call) }
        ensures { IfOk result (λ new. StepsOn (rules P.meld P.pack) self.at new.at × (new.at.pass.seen ≡ self.at.pass.seen) × (new.fed ≡ self.fed)) }
    {
        let seen = self.at.seen();
        let at = self.at.stepped()?;
        if at.seen() != seen {
            // It waits for the entry of each event that it would add, so that this doesn't happen.
            return Err(Lost);
        }
        Ok(Machine { at, ..self })
    }

    // What it has come to where no call is under way.
    fn told(self) -> (Machine<P, A>, Ran<P>)
        requires { self.at.call ≡ None }
        ensures { RunsOn (rules P.meld P.pack) self result.1 result.0 }
    {
        let (at, ran) = self.at.told();
        (Machine { at, ..self }, ran)
    }

    /// Steps on as far as no entry is waited for, and tells what that came to.
    pub(crate) fn run(self) -> Result<(Machine<P, A>, Ran<P>), Lost>
        ensures { IfOk result (λ r. RunsOn (rules P.meld P.pack) self r.1 r.0) }
    {
        self.at.known();
        let mut machine = self;
        while machine.at.is_under_way() {
            match machine.wanted() {
                Ok(Some(entry)) => return Ok((machine, Ran::Wants(entry))),
                Ok(None) => machine = machine.stepped()?,
                Err(_) => return Err(Lost),
            }
        }
        Ok(machine.told())
    }

    // Makes the step of its call for which this is the entry.
    fn take_own(self, entry: Entry<P>, bytes: &EntryBytes) -> Result<Machine<P, A>, Lost>
        requires wanted { IsWanted (rules P.meld P.pack) self.at entry }
        requires read { IsReadAs P.pack bytes.now.bytes entry }
        requires room { length self.fed < 2 ^ 64 - 1 }
        ensures { IfOk result (IsFed (rules P.meld P.pack) self bytes.now.bytes IsOwn) }
    {
        let mut numbers = self.numbers;
        let seen = self.at.seen();
        let at = self.at.stepped()?;
        if !is_one_more(seen, at.seen()) {
            // It makes no other event before this one or behind it, so that this doesn't happen.
            return Err(Lost);
        }
        match numbers.note(self.alloc, &entry) {
            Ok(()) => Ok(Machine {
                at,
                numbers,
                count: self.count + 1,
                log: self.log.and(bytes),
                ..self
            }),
            Err(_) => Err(Lost),
        }
    }

    // Takes an entry that isn't its own, or leaves it out.
    fn take_other(self, entry: Entry<P>, bytes: &EntryBytes) -> Result<(Machine<P, A>, Fed), Lost>
        requires read { IsReadAs P.pack bytes.now.bytes entry }
        requires room { length self.fed < 2 ^ 64 - 1 }
        ensures { IfOk result (λ r. IsFed (rules P.meld P.pack) self bytes.now.bytes r.1 r.0) }
    {
        let mut numbers = self.numbers;
        let (at, taken) = self.at.taking(self.alloc, &mut numbers, &entry)?;
        let machine = Machine {
            at,
            numbers,
            count: self.count + 1,
            log: self.log.and(bytes),
            ..self
        };
        Ok((machine, done_by(taken)))
    }

    // Leaves out what is nobody's entry.
    fn pass_over(self, bytes: &EntryBytes) -> Machine<P, A>
        requires nobody { (entry : EntryOf P) → bytes.now.bytes ≢ entry_bytes P.pack entry }
        requires room { length self.fed < 2 ^ 64 - 1 }
        ensures { IsFed (rules P.meld P.pack) self bytes.now.bytes IsLeftOut result }
    {
        Machine {
            count: self.count + 1,
            log: self.log.and(bytes),
            ..self
        }
    }

    /// The next entry of the log, by its bytes.
    pub(crate) fn feed(self, bytes: &EntryBytes) -> Result<(Machine<P, A>, Fed), Lost>
        ensures { IfOk result (λ r. IsFed (rules P.meld P.pack) self bytes.now.bytes r.1 r.0) }
    {
        if self.count == u64::MAX {
            return Err(Lost);
        }
        let Some(entry) = entry_of(&bytes.bytes) else {
            return Ok((self.pass_over(bytes), Fed::LeftOut));
        };
        match self.wanted() {
            Ok(Some(wanted)) => {
                if are_same(&bytes_of(&wanted), &bytes.bytes) {
                    Ok((self.take_own(entry, bytes)?, Fed::Own))
                } else {
                    self.take_other(entry, bytes)
                }
            }
            Ok(None) => self.take_other(entry, bytes),
            Err(_) => Err(Lost),
        }
    }
}
