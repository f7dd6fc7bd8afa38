//! When things happened: tables of the numbers of events, in place of walks of a history. Each answer is at a point, which is a
//! number of events; the tables tell it for every point so far, at no cost by the length of the history. Who the members of a
//! communicator are is kept when it is made.
ghost use Rattle.std.specs.Prelude.{◌≡◌, ◌+◌, ◌++◌, ◌<◌, ◌%◌, ◌∷◌, [], ℕ, IfOk, IfSome, OnOk, Some, filter, filter_map, if◌then◌else◌, is_some, length, map, min, take, true};
ghost use Rattle.std.specs.HashMap.{get};
ghost use Rattle.std.specs.List.{cons_option, list_all};
ghost use Rattle.ulfm_model.specs.{Members.{members_of as held_members}, Walked.{decision_of}};
ghost use Rattle.std.specs.Option.{option_map};
ghost use Rattle.ulfm_numbers.specs.Failed.{AreFailed, members_of};
ghost use Rattle.ulfm_numbers.specs.Numbers.{TellsArrivals, TellsDeclared, TellsFailures, TellsRevocations, TellsSlots, TellsSpawns};
ghost use Rattle.ulfm_numbers.specs.Numbers.{AreBefore, Notes, OfLists, before_then, by_then, count_by, first_noted};
ghost use Rattle.ulfm_numbers.specs.Seen.{decision_in, failed_in, is_decided_in, made_in, settled_in};
ghost use Rattle.ulfm_numbers.specs.Cells.{number_at, told_at};
ghost use Rattle.ulfm_numbers.specs.Grids.{cell_at};
ghost use Rattle.ulfm_numbers.specs.Groups.{group_at, items_of};
ghost use Rattle.ulfm_numbers.specs.Rounds.{AreDone, IsByRound, IsDone, KeepsSlots};
ghost use Rattle.ulfm_model.specs.History.{History, has, same_place, says};

use crate::cells::Cell;
use crate::grids::{Grid, cell_at, new_grid, put_at};
use crate::groups::{Group, declare_in_all, group_of, has_member, same_ranks};
use crate::kept::EventNumber;
use crate::rounds::{Done, have_common, know_few};
use crate::slots::{number_at, put_number, put_told, told_at};
use std::alloc::{AllocError, Allocator};
use std::collections::HashMap;
use std::hash::{BuildHasherDefault, FoldHasher, Hash};
use ulfm_laws::meld::Packed;
use ulfm_model::contribution::Slot;
use ulfm_model::decide::{Decided, decided_by};
use ulfm_model::event::{Entry, Event};
use ulfm_model::groups::{first_ranks, union_of, without};
use ulfm_model::held::Members;

/// A place in a round: a communicator, a round and a rank.
pub type RoundKey = (u16, u16, u16);

/// A hash table over an allocator.
pub type Table<K, V, A> = HashMap<K, V, BuildHasherDefault<FoldHasher>, A>;

/// Of how many rounds of a communicator it is kept what they decided, the last ones.
const KEPT_ROUNDS: u16 = 4;

/// The numbers of the events so far, by what they say.
#[derive(Drop)]
pub struct Numbers<P: Packed, A: Allocator> {
    /// By place, what it is settled by, with the number of the event that settled it.
    pub slots: Grid<Cell<P>, A>,
    /// By place, the arrival of its rank: 1 more than the number of its event, or 0 where there is none.
    pub arrivals: Grid<u64, A>,
    /// By communicator, its revocation.
    pub revocations: Table<u16, u64, A>,
    /// By rank, its declaration.
    pub declared: Table<u16, u64, A>,
    /// The declared failures, in their order.
    pub failures: Vec<u16, A>,
    /// The numbers of their events.
    pub failed_at: Vec<u64, A>,
    /// The parents and rounds that communicators were made of, that of communicator 1 first.
    pub spawns: Vec<(u16, u16), A>,
    /// The numbers of their events.
    pub spawned_at: Vec<u64, A>,
    /// The group of each communicator, the world's first.
    pub groups: Vec<Group<A>, A>,
    /// By communicator and round, with rank 0, what those rounds decided that have, as far as it is kept.
    pub rounds: Table<RoundKey, Done<P, A>, A>,
    /// By communicator, at communicator 0 and, by turns of its rounds, at ranks 0 and 1: a round, where the search in it for a member that isn't settled
    /// begins, and who was settled last in it.
    pub hints: Grid<(u16, u16, u16), A>,
    /// How many events there are.
    pub count: u64,
    ghost rounds_done: { AreDone P.meld rounds slots failures.items (map members_of groups.items) },
    ghost rounds_by_round: { IsByRound rounds },
    ghost failed: { AreFailed failures.items groups.items },
    ghost failed_before: { AreBefore count failed_at.items },
    ghost spawned_before: { AreBefore count spawned_at.items },
}

/// What was given by a point.
fn given_by<P: Copy>(at: Option<(u64, Slot<P>)>, point: u64) -> Option<Slot<P>>
    ensures { result ≡ by_then point at }
{
    match at {
        Some((number, slot)) if number < point => Some(slot),
        _ => None,
    }
}

/// Whether something had happened by a point.
fn was_by(number: Option<u64>, point: u64) -> bool
    ensures { result ≡ before_then point number }
{
    match number {
        Some(number) => number < point,
        None => false,
    }
}

/// What an event settles, and where.
fn settled_by<P: Copy>(entry: &Entry<P>) -> Option<(RoundKey, Slot<P>)>
    ensures { result ≡ (says entry.now.event).settles }
{
    match entry.event {
        Event::Settle {
            comm,
            round,
            rank,
            given,
        } => Some(((comm, round, rank), Slot::Given(given))),
        Event::Mark {
            comm,
            round,
            rank,
            known,
        } => Some(((comm, round, rank), Slot::Mark(known))),
        _ => None,
    }
}

/// Who arrives at an event, and where.
fn arrival_by<P: Copy>(entry: &Entry<P>) -> Option<RoundKey>
    ensures { result ≡ (says entry.now.event).arrives }
{
    match entry.event {
        Event::Arrive { comm, round, rank } => Some((comm, round, rank)),
        _ => None,
    }
}

/// What an event revokes.
fn revoked_by<P: Copy>(entry: &Entry<P>) -> Option<u16>
    ensures { result ≡ (says entry.now.event).revokes }
{
    match entry.event {
        Event::Revoke { comm } => Some(comm),
        _ => None,
    }
}

/// Whom an event declares.
fn declared_by<P: Copy>(entry: &Entry<P>) -> Option<u16>
    ensures { result ≡ (says entry.now.event).declares }
{
    match entry.event {
        Event::Fail { rank } => Some(rank),
        _ => None,
    }
}

/// Notes what one more event settles, with its number.
fn note_slot<P: Packed, A: Allocator + Copy>(
    alloc: A,
    slots: &mut Grid<Cell<P>, A>,
    number: u64,
    entry: &Entry<P>,
) -> Result<(), AllocError>
    requires { number < 281474976710656 }
    ensures told { Notes TellsSlots slots.old slots.new number entry.now result }
    ensures kept { OnOk result (KeepsSlots slots.old slots.new) }
{
    let Some((place, slot)) = settled_by(entry) else {
        return Ok(());
    };
    if told_at(slots, place).is_some() {
        return Ok(());
    }
    put_told(alloc, slots, place, number, &slot)?;
    Ok(())
}

/// Notes a number at a place, if one is given that has none.
fn note_arrival<A: Allocator + Copy>(
    alloc: A,
    arrivals: &mut Grid<u64, A>,
    number: u64,
    given: Option<RoundKey>,
) -> Result<(), AllocError>
    requires { number < 18446744073709551615 }
    ensures { OnOk result ((q : ℕ × ℕ × ℕ) → number_at arrivals.new q ≡ first_noted same_place (number_at arrivals.old) number given q) }
{
    let Some(place) = given else {
        return Ok(());
    };
    if number_at(arrivals, place).is_some() {
        return Ok(());
    }
    put_number(alloc, arrivals, place, number)?;
    Ok(())
}

/// Notes a number at a key, if a key is given that has none. Most events give none.
#[inline(always)]
fn note_first<K: Eq + Hash + Copy + Drop, A: Allocator + Copy>(
    table: &mut Table<K, u64, A>,
    number: u64,
    given: Option<K>,
) -> Result<(), AllocError>
    ensures { OnOk result ((q : K) → get K.eq table.new q ≡ first_noted K.eq (get K.eq table.old) number given q) }
{
    let Some(key) = given else {
        return Ok(());
    };
    if table.get(&key).is_some() {
        return Ok(());
    }
    table.insert(key, number)?;
    Ok(())
}

/// The parent and the round that an event makes a communicator of.
fn made_by<P: Copy>(entry: &Entry<P>) -> Option<(u16, u16)>
    ensures { result ≡ (says entry.now.event).makes }
{
    match entry.event {
        Event::Spawn { parent, round, .. } => Some((parent, round)),
        _ => None,
    }
}

/// Notes a further failure, if one more event declares it.
fn note_failure<P: Copy, A: Allocator + Copy>(
    ranks: &mut Vec<u16, A>,
    numbers: &mut Vec<u64, A>,
    groups: &mut [Group<A>],
    number: u64,
    entry: &Entry<P>,
) -> Result<(), AllocError>
    ensures told { Notes (OfLists TellsFailures) (ranks.old.items, numbers.old.items) (ranks.new.items, numbers.new.items) number entry.now result }
    ensures before { AreBefore number numbers.old.items → OnOk result (AreBefore (number + 1) numbers.new.items) }
    ensures longer { OnOk result (ranks.new.items ≡ ranks.old.items ++ cons_option (says entry.now.event).declares []) }
    ensures members { map members_of groups.new ≡ map members_of groups.old }
    ensures failed { AreFailed ranks.old.items groups.old → OnOk result (AreFailed ranks.new.items groups.new) }
{
    let Some(rank) = declared_by(entry) else {
        return Ok(());
    };
    declare_in_all(groups, rank, ranks.len() as u64)?;
    ranks.push(rank)?;
    numbers.push(number)?;
    Ok(())
}

/// Notes a further communicator, if one more event makes it.
#[inline(always)]
fn note_spawn<P: Copy, A: Allocator + Copy>(
    made: &mut Vec<(u16, u16), A>,
    numbers: &mut Vec<u64, A>,
    number: u64,
    entry: &Entry<P>,
) -> Result<(), AllocError>
    ensures told { Notes (OfLists TellsSpawns) (made.old.items, numbers.old.items) (made.new.items, numbers.new.items) number entry.now result }
    ensures before { AreBefore number numbers.old.items → OnOk result (AreBefore (number + 1) numbers.new.items) }
{
    let Some(of) = made_by(entry) else {
        return Ok(());
    };
    made.push(of)?;
    numbers.push(number)?;
    Ok(())
}

/// How many of these numbers are below a point, where all are below another one.
fn count_by(numbers: &[u64], point: u64, end: u64) -> usize
    requires { AreBefore end numbers.now }
    ensures { result ≡ count_by point numbers.now }
{
    if end <= point {
        return numbers.len();
    }
    numbers.iter().filter(|number| **number < point).count()
}

/// Notes the members of a further communicator, if one was made, where these are declared.
fn note_group<A: Allocator + Copy + Drop>(
    alloc: A,
    groups: &mut Vec<Group<A>, A>,
    failures: &[u16],
    made: Option<Vec<u16, A>>,
) -> Result<(), AllocError>
    ensures members { OnOk result (map members_of groups.new.items ≡ map members_of groups.old.items ++ cons_option (items_of made) []) }
    ensures failed { AreFailed failures.now groups.old.items → OnOk result (AreFailed failures.now groups.new.items) }
{
    if let Some(members) = made {
        groups.push(group_of(alloc, members, failures)?)?;
    }
    Ok(())
}

/// Notes one more event in each table, and the members of the communicator that it makes.
#[tactic(auto, using(crate::proofs::Lasting::no_value))]
fn note_all<P: Packed, A: Allocator + Copy + Drop>(
    alloc: A,
    slots: &mut Grid<Cell<P>, A>,
    arrivals: &mut Grid<u64, A>,
    revocations: &mut Table<u16, u64, A>,
    declared: &mut Table<u16, u64, A>,
    failures: &mut Vec<u16, A>,
    failed_at: &mut Vec<u64, A>,
    spawns: &mut Vec<(u16, u16), A>,
    spawned_at: &mut Vec<u64, A>,
    groups: &mut Vec<Group<A>, A>,
    number: u64,
    entry: &Entry<P>,
    made: Option<Vec<u16, A>>,
) -> Result<(), AllocError>
    requires { number < 281474976710656 }
    ensures slots { Notes TellsSlots slots.old slots.new number entry.now result }
    ensures arrivals { Notes TellsArrivals arrivals.old arrivals.new number entry.now result }
    ensures revocations { Notes TellsRevocations revocations.old revocations.new number entry.now result }
    ensures declared { Notes TellsDeclared declared.old declared.new number entry.now result }
    ensures failures { Notes (OfLists TellsFailures) (failures.old.items, failed_at.old.items) (failures.new.items, failed_at.new.items) number entry.now result }
    ensures spawns { Notes (OfLists TellsSpawns) (spawns.old.items, spawned_at.old.items) (spawns.new.items, spawned_at.new.items) number entry.now result }
    ensures kept { OnOk result (KeepsSlots slots.old slots.new) }
    ensures longer { OnOk result (failures.new.items ≡ failures.old.items ++ cons_option (says entry.now.event).declares []) }
    ensures members { OnOk result (map members_of groups.new.items ≡ map members_of groups.old.items ++ cons_option (items_of made) []) }
    ensures failed { AreFailed failures.old.items groups.old.items → OnOk result (AreFailed failures.new.items groups.new.items) }
    ensures failed_before { AreBefore number failed_at.old.items → OnOk result (AreBefore (number + 1) failed_at.new.items) }
    ensures spawned_before { AreBefore number spawned_at.old.items → OnOk result (AreBefore (number + 1) spawned_at.new.items) }
{
    note_group(alloc, groups, failures, made)?;
    note_slot(alloc, slots, number, entry)?;
    note_arrival(alloc, arrivals, number, arrival_by(entry))?;
    note_first(revocations, number, revoked_by(entry))?;
    note_first(declared, number, declared_by(entry))?;
    note_failure(failures, failed_at, groups, number, entry)?;
    note_spawn(spawns, spawned_at, number, entry)
}

/// Keeps where the search for a member of a round begins, as far as 16 bits tell, and who was settled last, in place of what was kept of the round before
/// the last.
fn keep_hint<A: Allocator + Copy>(
    alloc: A,
    hints: &mut Grid<(u16, u16, u16), A>,
    comm: u16,
    round: u16,
    first: usize,
    last: u16,
) -> Result<(), AllocError>
    ensures { let begin = min first 65535 in OnOk result ((q : ℕ × ℕ × ℕ)
        → cell_at (0, 0, 0) hints.new q ≡ (if same_place (0, comm, round % 2) q then (round, begin, last) else cell_at (0, 0, 0) hints.old q)) }
{
    let begin = first.min(65535) as u16;
    put_at(
        alloc,
        hints,
        (0, comm, round % 2),
        (0, 0, 0),
        (round, begin, last),
    )
}

/// The first so many ranks of a list, or all of it.
fn first_so_many(ranks: &[u16], count: usize) -> &[u16]
    ensures { result.now ≡ take count ranks.now }
{
    if count < ranks.len() {
        &ranks[..count]
    } else {
        ranks
    }
}

/// The first so many parents and rounds of a list, or all of it.
fn first_spawns(made: &[(u16, u16)], count: usize) -> &[(u16, u16)]
    ensures { result.now ≡ take count made.now }
{
    if count < made.len() {
        &made[..count]
    } else {
        made
    }
}

/// The members of the communicator of a number, or nobody.
fn group_at<A: Allocator>(groups: &[Group<A>], number: u16) -> &[u16]
    ensures { result.now ≡ group_at (map members_of groups.now) number }
{
    match groups.get(usize::from(number)) {
        Some(group) => group.members.as_slice(),
        None => &[],
    }
}

/// Who of the communicator of a number is among the first so many failures, where these are declared.
fn failed_of<'a, A: Allocator>(
    groups: &'a [Group<A>],
    failures: &[u16],
    number: u16,
    count: usize,
) -> &'a [u16]
    requires { AreFailed failures.now groups.now }
    ensures { result.now ≡ filter (has (group_at (map members_of groups.now) number)) (take count failures.now) }
{
    match groups.get(usize::from(number)) {
        Some(group) => {
            let end = failures.len() as u64;
            first_so_many(&group.failed, count_by(&group.places, count as u64, end))
        }
        None => &[],
    }
}

/// The ranks of a list that are in a group, in the list's order.
pub fn among<A: Allocator + Copy>(
    alloc: A,
    ranks: &[u16],
    group: &[u16],
) -> Result<Vec<u16, A>, AllocError>
    ensures { IfOk result (λ found. found.items ≡ filter (has group.now) ranks.now) }
{
    ranks
        .iter()
        .copied()
        .filter(|rank| has_member(group, *rank))
        .collect(alloc)
}

impl<P: Packed, A: Allocator + Copy + Drop> Numbers<P, A> {
    ghost use Rattle.ulfm_numbers.specs.Telling.{TablesTell, seen_at};

    /// The tables of an empty history, in a world of so many ranks. Memory may be refused.
    ///
    /// ```
    /// let mut numbers: Numbers<FlagAnd, Global> = Numbers::new(Global, 4)?;
    /// let entry = Entry { by: Caller::Outside, event: Event::Fail { rank: 1 } };
    /// numbers.note(Global, &entry)?;
    /// assert!(rt; numbers.failures_at(1) == [1] && numbers.failures_at(0).is_empty());
    /// ```
    pub fn new(alloc: A, ranks: u16) -> Result<Numbers<P, A>, AllocError>
        ensures { IfOk result (λ numbers. TablesTell ranks numbers []) }
    {
        let world = first_ranks(alloc, ranks)?;
        let mut groups = Vec::new(alloc);
        groups.push(group_of(alloc, world, &[])?)?;
        Ok(Numbers {
            slots: new_grid(alloc),
            arrivals: new_grid(alloc),
            revocations: HashMap::new(alloc),
            declared: HashMap::new(alloc),
            failures: Vec::new(alloc),
            failed_at: Vec::new(alloc),
            spawns: Vec::new(alloc),
            spawned_at: Vec::new(alloc),
            groups,
            rounds: HashMap::new(alloc),
            hints: new_grid(alloc),
            count: 0,
        })
    }

    /// Notes one more event, whether or not it may follow: [`may_follow`](crate::allowed::may_follow) is the test. Memory may be refused; so it
    /// is behind 2^48 events; no legal history has 2^24. After a refusal the tables tell nothing of use. It takes time by the
    /// event and the members of its communicator, and none by the length of the history.
    pub fn note(&mut self, alloc: A, entry: &Entry<P>) -> Result<(), AllocError>
        ensures { (ranks : ℕ) (h : History P) → TablesTell ranks self.old h → OnOk result (TablesTell ranks self.new (h ++ entry.now ∷ [])) }
    {
        if self.count >= EventNumber::END {
            return Err(AllocError);
        }
        let made = self.group_made(alloc, entry)?;
        let noted = note_all(
            alloc,
            &mut self.slots,
            &mut self.arrivals,
            &mut self.revocations,
            &mut self.declared,
            &mut self.failures,
            &mut self.failed_at,
            &mut self.spawns,
            &mut self.spawned_at,
            &mut self.groups,
            self.count,
            entry,
            made,
        );
        match noted {
            Ok(()) => {
                self.count += 1;
                self.note_settled(alloc, entry)
            }
            Err(error) => {
                self.rounds.clear();
                self.failures.clear();
                self.failed_at.clear();
                self.spawned_at.clear();
                self.groups.clear();
                Err(error)
            }
        }
    }

    /// Notes who was settled last in a round, if an event settles somebody, and what the round decides, if it does now.
    fn note_settled(&mut self, alloc: A, entry: &Entry<P>) -> Result<(), AllocError>
        ensures { (ranks : ℕ) (h : History P) → TablesTell ranks self.old h → TablesTell ranks self.new h }
    {
        let Some(((comm, round, rank), _)) = settled_by(entry) else {
            return Ok(());
        };
        let open = self.first_open(comm, round);
        keep_hint(alloc, &mut self.hints, comm, round, open, rank)?;
        if open < group_at(&self.groups, comm).len() {
            return Ok(());
        }
        self.note_decided(alloc, comm, round)
    }

    /// Where the first member of a round stands that isn't settled, or how many members there are; those before the hint are passed over.
    fn first_open(&self, comm: u16, round: u16) -> usize {
        let group = group_at(&self.groups, comm);
        let begin = self.hint_of(comm, round).0;
        let open = match group.get(begin..) {
            Some(rest) => rest.iter().position(|rank| told_at(
                &self.slots,
                (comm, round, *rank),
            ).is_none()),
            None => None,
        };
        match open {
            Some(i) => begin.saturating_add(i),
            None => group.len(),
        }
    }

    /// Lets go of what a communicator's earlier round decided, so that its last few rounds are kept: a member that polls is of the last two, unless it was
    /// declared.
    fn forget_earlier(&mut self, comm: u16, round: u16)
        ensures { (ranks : ℕ) (h : History P) → TablesTell ranks self.old h → TablesTell ranks self.new h }
    {
        if round >= KEPT_ROUNDS {
            let _ = self.rounds.remove(&(comm, round - KEPT_ROUNDS, 0));
        }
    }

    /// Notes what a round decides, if it does now.
    fn note_decided(&mut self, alloc: A, comm: u16, round: u16) -> Result<(), AllocError>
        ensures { (ranks : ℕ) (h : History P) → TablesTell ranks self.old h → TablesTell ranks self.new h }
    {
        let Some(done) = self.done_now(alloc, comm, round)? else {
            return Ok(());
        };
        self.rounds.insert((comm, round, 0), done)?;
        self.forget_earlier(comm, round);
        Ok(())
    }

    /// What a round of a communicator that there is decides, if all its members are settled now.
    fn done_now(&self, alloc: A, comm: u16, round: u16) -> Result<Option<Done<P, A>>, AllocError>
        ensures { IfOk result (λ found. IfSome found (IsDone P.meld self.now.slots self.now.failures.items (map members_of self.now.groups.items) comm round)) }
    {
        let since = self.count;
        let group = group_at(&self.groups, comm);
        let failed = failed_of(&self.groups, &self.failures, comm, self.failures.len());
        let settled = self.settled_among(alloc, group, comm, round, since)?;
        let is_there = usize::from(comm) < self.groups.len();
        let fits = know_few(&settled, failed.len());
        let is_full = settled.len() == group.len();
        if !is_there || !fits || !is_full {
            return Ok(None);
        }
        let made = decided_by(alloc, failed, &settled)?;
        let failed = failed.len();
        Ok(Some(Done {
            since,
            failed,
            made,
        }))
    }

    /// Where the search for a member of a round that isn't settled begins, and who was settled last, where that is kept: it is of a communicator's last
    /// two rounds.
    pub fn hint_of(&self, comm: u16, round: u16) -> (usize, u16) {
        let (kept, begin, last) = cell_at(&self.hints, (0, comm, round % 2), (0, 0, 0));
        if kept == round {
            (usize::from(begin), last)
        } else {
            (0, 0)
        }
    }

    /// What a round decided, if that is kept and holds at a point.
    pub fn decided_at(&self, comm: u16, round: u16, point: u64) -> Option<&Decided<P, A>>
        ensures { IfSome result (λ made. let seen = seen_at self.now point in
            (is_decided_in seen comm round ≡ true) × (decision_of made.now ≡ decision_in P.meld seen comm round)) }
    {
        let done = self.rounds.get(&(comm, round, 0))?;
        if point < done.since || self.count_made_at(point) < usize::from(comm) {
            return None;
        }
        let failed = self.failed_at_point(comm, point);
        if failed.len() < done.failed
            || have_common(&failed[done.failed..], &failed[..done.failed])
        {
            return None;
        }
        Some(&done.made)
    }

    /// What had settled these members of a round at a point, in their order.
    fn settled_among(
        &self,
        alloc: A,
        group: &[u16],
        comm: u16,
        round: u16,
        point: u64,
    ) -> Result<Vec<Slot<P>, A>, AllocError>
        ensures { IfOk result (λ settled. settled.items ≡ filter_map (λ r. (seen_at self.now point).slots (comm, round, r)) group.now) }
    {
        group
            .iter()
            .filter_map(|rank| self.slot_at((comm, round, *rank), point))
            .collect(alloc)
    }

    /// The members of the communicator that an event makes, if it makes one: its parent's without those that the round leaves out.
    fn group_made(&self, alloc: A, entry: &Entry<P>) -> Result<Option<Vec<u16, A>>, AllocError>
        ensures { let seen = seen_at self.now self.now.count in
            IfOk result (λ made. items_of made ≡ option_map (λ of. made_in seen (of.0) (of.1)) (says entry.now.event).makes) }
    {
        let Some((parent, round)) = made_by(entry) else {
            return Ok(None);
        };
        let point = self.count;
        let group = self.members_at(parent, point);
        let failed = self.failed_at_point(parent, point);
        let settled = self.settled_at(alloc, parent, round, point)?;
        let out = union_of(alloc, failed, &settled)?;
        let rest = without(alloc, group, &out)?;
        Ok(Some(rest))
    }

    /// What settled a place at a point.
    pub fn slot_at(&self, place: RoundKey, point: u64) -> Option<Slot<P>>
        ensures { result ≡ (seen_at self.now point).slots place }
    {
        given_by(told_at(&self.slots, place), point)
    }

    /// Whether a rank had arrived at a place of a barrier round at a point.
    pub fn has_arrived_at(&self, place: RoundKey, point: u64) -> bool
        ensures { result ≡ (seen_at self.now point).arrived place }
    {
        was_by(number_at(&self.arrivals, place), point)
    }

    /// Whether a communicator was revoked at a point.
    pub fn is_revoked_at(&self, comm: u16, point: u64) -> bool
        ensures { result ≡ (seen_at self.now point).revoked comm }
    {
        was_by(self.revocations.get(&comm).copied(), point)
    }

    /// Whether a rank was declared at a point.
    pub fn is_declared_at(&self, rank: u16, point: u64) -> bool
        ensures { result ≡ (seen_at self.now point).declared rank }
    {
        was_by(self.declared.get(&rank).copied(), point)
    }

    /// Those who were declared at a point, in their order.
    pub fn failures_at(&self, point: u64) -> &[u16]
        ensures { result.now ≡ (seen_at self.now point).failures }
    {
        first_so_many(&self.failures, count_by(&self.failed_at, point, self.count))
    }

    /// Of which parents and rounds communicators were made at a point, that of communicator 1 first.
    pub fn spawns_at(&self, point: u64) -> &[(u16, u16)]
        ensures { result.now ≡ (seen_at self.now point).spawns }
    {
        first_spawns(&self.spawns, count_by(&self.spawned_at, point, self.count))
    }

    /// How many communicators were made at a point.
    pub fn count_made_at(&self, point: u64) -> usize
        ensures { result ≡ length (seen_at self.now point).spawns }
    {
        self.spawns_at(point).len()
    }

    /// The members of a communicator at a point, or nobody where it wasn't made.
    pub fn members_at(&self, comm: u16, point: u64) -> &[u16]
        ensures { result.now ≡ (seen_at self.now point).members comm }
    {
        if usize::from(comm) <= self.count_made_at(point) {
            group_at(&self.groups, comm)
        } else {
            &[]
        }
    }

    /// The members of a communicator at a point, in the list that is kept of them and without a copy, or nobody where it wasn't made.
    pub fn shared_members_at(
        &self,
        alloc: A,
        comm: u16,
        point: u64,
    ) -> Result<Members<A>, AllocError>
        ensures { IfOk result (λ ranks. held_members ranks ≡ (seen_at self.now point).members comm) }
    {
        if self.count_made_at(point) < usize::from(comm) {
            return Ok(Members::Own(Vec::new(alloc)));
        }
        match self.groups.get(usize::from(comm)) {
            Some(group) => Ok(Members::Shared(group.members.clone()?)),
            None => Ok(Members::Own(Vec::new(alloc))),
        }
    }

    /// The failed group of a communicator at a point.
    pub fn failed_at_point(&self, comm: u16, point: u64) -> &[u16]
        ensures { result.now ≡ failed_in (seen_at self.now point) comm }
    {
        if self.count_made_at(point) >= usize::from(comm) {
            let count = count_by(&self.failed_at, point, self.count);
            failed_of(&self.groups, &self.failures, comm, count)
        } else {
            &[]
        }
    }

    /// Who of a group a look found declared, where these are the failures and the members of a communicator that are kept; else none.
    pub fn known_of(&self, look: &[u16], comm: u16, group: &[u16]) -> Option<&[u16]>
        ensures { IfSome result (λ known. known.now ≡ filter (has group.now) look.now) }
    {
        if !same_ranks(group, group_at(&self.groups, comm)) {
            return None;
        }
        let count = look.len();
        if !same_ranks(look, first_so_many(&self.failures, count)) {
            return None;
        }
        Some(failed_of(&self.groups, &self.failures, comm, count))
    }

    /// What had settled the members of a round at a point, in their order.
    pub(crate) fn settled_at(
        &self,
        alloc: A,
        comm: u16,
        round: u16,
        point: u64,
    ) -> Result<Vec<Slot<P>, A>, AllocError>
        ensures { IfOk result (λ settled. settled.items ≡ settled_in (seen_at self.now point) comm round) }
    {
        self.settled_among(alloc, self.members_at(comm, point), comm, round, point)
    }
}
