//! The sequential object as a program: it keeps what has happened and what each rank holds, and answers one call after
//! another. It is slow and plain: each answer walks the history as the definitions do.

ghost use Rattle.std.specs.Prelude.{◌≡◌, ◌⊎◌, [], ◌==◌, ◌++◌, IfErr, IfOk, List, OnErr, OnOk, map, position};
ghost use Rattle.ulfm_model.specs.Computed.{next_of_fail, next_of_rank, outcome_of};
ghost use Rattle.ulfm_model.specs.Terms.{record_at};
ghost use Rattle.ulfm_model.specs.Answers.{left_by, rank_of};
ghost use Rattle.ulfm_model.specs.History.{Exists, entries_by, failed, failures, first_ranks, members};
ghost use Rattle.ulfm_model.specs.Records.{Record};
ghost use Rattle.ulfm_model.specs.Runs.{IsSound, State, new_state};
ghost use Rattle.ulfm_model.specs.Words.{IsUnfit, MayOpen};
ghost use Rattle.ulfm_object.specs.Objects.{IsFew, TakesStep, state_of};
ghost use Rattle.ulfm_model.specs.Kept.{record_of};
ghost use Rattle.ulfm_model.specs.declared.event.Caller.TheVariants.{Rank};
ghost use Rattle.ulfm_model.specs.declared.limits.OpenFault.TheVariants.{OutOfMemory};

use crate::asked::Asked;
use crate::leaves::leave;
use crate::outcome::outcome_of;
use std::alloc::{AllocError, Allocator};
use std::marker::Model;
use ulfm_laws::meld::Meld;
use ulfm_model::call::{Call, rank_of};
use ulfm_model::event::{Caller, Entry, Event};
use ulfm_model::fresh::new_records;
use ulfm_model::groups::{failed, members};
use ulfm_model::limits::{Limits, OpenFault};
use ulfm_model::reads::{failures, is_declared};
use ulfm_model::record::RankRecord;
use ulfm_model::refusal::Refusal;
use ulfm_model::reply::Reply;

/// The sequential object.
#[derive(Drop)]
pub struct Object<P: Meld, A: Allocator> {
    alloc: A,
    limits: Limits,
    log: Vec<Entry<P>, A>,
    records: Vec<RankRecord<A>, A>,
}

impl<P: Meld, A: Allocator> Model for Object<P, A> {
    ghost Value = { State P };

    ghost view = { λ a. state_of a.limits a.log.items a.records.items };

    ghost invariant = { λ a. MayOpen a.limits × IsSound P.meld (state_of a.limits a.log.items a.records.items) };
}

/// The outside declares a rank.
fn declare<P: Meld, A: Allocator + Drop>(
    limits: Limits,
    log: &mut Vec<Entry<P>, A>,
    rank: u16,
) -> Result<Reply<P>, AllocError>
    ensures ok { (records : List Record) → let old : State P = record { limits = limits; history = log.old.items; records = records } in
        IfOk result (λ reply. (reply ≡ (next_of_fail old rank).reply) × (record old { history = log.new.items } ≡ (next_of_fail old rank).state)) }
    ensures err { OnErr result (log.new.items ≡ log.old.items) }
{
    if rank >= limits.ranks {
        return Ok(Reply::Refused(Refusal::NoSuchRank));
    }
    if is_declared(log, rank) {
        return Ok(Reply::AlreadyFailed);
    }
    log.push(Entry {
        by: Caller::Outside,
        event: Event::Fail { rank },
    })?;
    Ok(Reply::Declared)
}

/// Where the record of a rank stands.
fn place_of_rank<A: Allocator>(records: &[RankRecord<A>], rank: u16) -> Option<usize>
    ensures { result ≡ position (λ own. own.number == rank) records.now }
{
    records.iter().position(|own| own.number == rank)
}

/// A call of a rank that was not refused for good before: the log and the rank's record change at the end alone.
fn answer_in_use<P: Meld, A: Allocator + Copy + Drop>(
    alloc: A,
    limits: Limits,
    log: &mut Vec<Entry<P>, A>,
    own: &mut RankRecord<A>,
    asked: &Call<P>,
) -> Result<Reply<P>, AllocError>
    requires may { MayOpen limits }
    requires few { IsFew log.old.items }
    ensures reply { IfOk result (λ reply. reply ≡ (outcome_of P.meld limits log.old.items (record_of limits own.old) asked.now).reply) }
    ensures log { let outcome = outcome_of P.meld limits log.old.items (record_of limits own.old) asked.now in
        OnOk result (log.new.items ≡ log.old.items ++ entries_by (Rank own.old.number) outcome.own) }
    ensures own { let now : Record = record (record_of limits own.old) { seen = failures log.old.items } in
        IfOk result (λ reply. record_of limits own.new ≡ left_by limits.ranks log.new.items now asked.now reply) }
    ensures err { OnErr result ((log.new.items ≡ log.old.items) × (record_of limits own.new ≡ record_of limits own.old)) }
{
    let seen = failures(alloc, log)?;
    let outcome = outcome_of(&Asked {
        alloc,
        limits,
        history: log,
        own,
        call: asked,
    })?;
    let reply = outcome.reply;
    leave(alloc, limits, &outcome.after, own, seen, asked, reply)?;
    *log = outcome.after;
    Ok(reply)
}

/// A call of a rank.
fn answer<P: Meld, A: Allocator + Copy + Drop>(
    alloc: A,
    limits: Limits,
    log: &mut Vec<Entry<P>, A>,
    records: &mut [RankRecord<A>],
    asked: &Call<P>,
) -> Result<Reply<P>, AllocError>
    requires may { MayOpen limits }
    requires few { IsFew log.old.items }
    requires numbers { map (λ own. own.number) records.old ≡ first_ranks limits.ranks }
    ensures ok { let old = state_of limits log.old.items records.old in
        let next = next_of_rank P.meld old (rank_of asked.now) (record_at old (rank_of asked.now)) asked.now in
        IfOk result (λ reply. (reply ≡ next.reply) × (state_of limits log.new.items records.new ≡ next.state)) }
    ensures err { OnErr result (state_of limits log.new.items records.new ≡ state_of limits log.old.items records.old) }
{
    let rank = rank_of(asked);
    let Some(i) = place_of_rank(records, rank) else {
        return Ok(Reply::Refused(Refusal::NoSuchRank));
    };
    let own = &mut records[i];
    if own.refused {
        return Ok(Reply::Refused(Refusal::SelfFailed));
    }
    answer_in_use(alloc, limits, log, own, asked)
}

/// One call, on the log and the records of a sound state: they are those of the next state, or as they were.
fn take_step<P: Meld, A: Allocator + Copy + Drop>(
    alloc: A,
    limits: Limits,
    log: &mut Vec<Entry<P>, A>,
    records: &mut [RankRecord<A>],
    asked: &Call<P>,
) -> Result<Reply<P>, AllocError>
    requires may { MayOpen limits }
    requires sound { IsSound P.meld (state_of limits log.old.items records.old) }
    ensures sound { IsSound P.meld (state_of limits log.new.items records.new) }
    ensures step { IfOk result (TakesStep P.meld (state_of limits log.old.items records.old) asked.now (state_of limits log.new.items records.new)) }
    ensures err { OnErr result (state_of limits log.new.items records.new ≡ state_of limits log.old.items records.old) }
{
    match *asked {
        Call::Fail { rank } => declare(limits, log, rank),
        _ => answer(alloc, limits, log, records, asked),
    }
}

impl<P: Meld, A: Allocator + Copy + Drop> Object<P, A> {
    /// A new object: nothing has happened, and each rank holds the world's communicator alone. The faults are tested in
    /// their order: `OutOfRange`, `TooLarge`, `OutOfMemory`.
    ///
    /// ```
    /// let object: Object<FlagAnd, _> = Object::open(alloc, limits)?;
    /// assert!(rt; object.history().is_empty() && object.records().len() == 2);
    /// ```
    pub fn open(alloc: A, limits: Limits) -> Result<Object<P, A>, OpenFault>
        ensures ok { IfOk result (λ object. (object ≡ new_state limits) × MayOpen limits) }
        ensures err { IfErr result (λ fault. IsUnfit limits fault ⊎ ((fault ≡ OutOfMemory) × MayOpen limits)) }
    {
        limits.check()?;
        let Ok(records) = new_records(alloc, limits) else {
            return Err(OpenFault::OutOfMemory);
        };
        Ok(Object {
            alloc,
            limits,
            log: Vec::new(alloc),
            records,
        })
    }

    /// Answers one call. After an error, which is want of memory, the object is as it was.
    ///
    /// ```
    /// assert!(rt; object.apply(&Call::Fail { rank: 1 })? == Reply::Declared);
    /// let asked = Call::Poll { rank: 1, comm: 0 };
    /// assert!(rt; object.apply(&asked)? == Reply::Refused(Refusal::SelfFailed));
    /// ```
    pub fn apply(&mut self, asked: &Call<P>) -> Result<Reply<P>, AllocError>
        ensures step { IfOk result (TakesStep P.meld self.old asked.now self.new) }
        ensures err { OnErr result (self.new ≡ self.old) }
    {
        take_step(
            self.alloc,
            self.limits,
            &mut self.log,
            &mut self.records,
            asked,
        )
    }

    /// What has happened, in order.
    ///
    /// ```
    /// object.apply(&Call::Fail { rank: 1 })?;
    /// assert!(rt; object.history().len() == 1);
    /// ```
    pub fn history(&self) -> &[Entry<P>]
        ensures { result.now ≡ self.now.history }
    {
        &self.log
    }

    /// What each rank holds, rank after rank.
    ///
    /// ```
    /// assert!(rt; object.records()[1].number == 1);
    /// ```
    pub fn records(&self) -> &[RankRecord<A>]
        ensures { map (record_of self.now.limits) result.now ≡ self.now.records }
    {
        &self.records
    }

    /// The members of a communicator, in order; nobody where it doesn't exist.
    ///
    /// ```
    /// assert!(rt; object.members(0)?.as_slice() == [0, 1].as_slice());
    /// assert!(rt; object.members(1)?.is_empty());
    /// ```
    pub fn members(&self, comm: u16) -> Result<Vec<u16, A>, AllocError>
        ensures group { IfOk result (λ group. group.items ≡ members self.now.limits.ranks self.now.history comm) }
        ensures nobody { ¬ Exists self.now.history comm → IfOk result (λ group. group.items ≡ []) }
    {
        members(self.alloc, self.limits.ranks, &self.log, comm)
    }

    /// The failed group of a communicator, in the order of the failures; nobody where it doesn't exist.
    ///
    /// ```
    /// object.apply(&Call::Fail { rank: 1 })?;
    /// assert!(rt; object.failed(0)?.as_slice() == [1].as_slice());
    /// ```
    pub fn failed(&self, comm: u16) -> Result<Vec<u16, A>, AllocError>
        ensures group { IfOk result (λ group. group.items ≡ failed self.now.limits.ranks self.now.history comm) }
        ensures nobody { ¬ Exists self.now.history comm → IfOk result (λ group. group.items ≡ []) }
    {
        failed(self.alloc, self.limits.ranks, &self.log, comm)
    }
}
