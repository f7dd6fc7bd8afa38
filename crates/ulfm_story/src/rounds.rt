//! How far each round has come: the events so far, who the members of each communicator are, and who is settled.
ghost use Rattle.std.specs.Prelude.{◌≡◌, ◌++◌, ◌∷◌, [], ℕ, IfOk, IfSome, OnOk, is_some, map};
ghost use Rattle.std.specs.HashMap.{get};
ghost use Rattle.std.specs.List.{list_all};
ghost use Rattle.std.specs.Option.{option_map};
ghost use Rattle.ulfm_laws.specs.declared.flag_and.FlagAnd.{FlagAnd};
ghost use Rattle.ulfm_model.specs.History.{History, same_place, says};
ghost use Rattle.ulfm_story.specs.Decisions.{TellsDecision};
ghost use Rattle.ulfm_story.specs.Rounds.{AreMembers, HasSettled, TellRounds, group_at, ranks_of};

use crate::decisions::decision_words;
use std::alloc::{AllocError, Allocator};
use std::collections::HashMap;
use std::hash::{BuildHasherDefault, FoldHasher};
use ulfm_laws::FlagAnd;
use ulfm_model::event::{Entry, Event};
use ulfm_model::groups::{first_ranks, members};

/// A communicator, a round and a rank.
pub(crate) type Place = (u16, u16, u16);

/// A number for each place.
type Table<A> = HashMap<Place, u16, BuildHasherDefault<FoldHasher>, A>;

/// How far each round has come.
#[derive(Drop)]
pub(crate) struct Rounds<A: Allocator> {
    /// How many ranks the world has.
    pub(crate) ranks: u16,
    /// The events so far.
    pub(crate) history: Vec<Entry<FlagAnd>, A>,
    /// The members of each communicator, the world's first.
    pub(crate) groups: Vec<Vec<u16, A>, A>,
    /// The places that are settled.
    pub(crate) settled: Table<A>,
}

/// The place that an event settles.
pub(crate) fn place_settled(event: &Event<FlagAnd>) -> Option<Place>
    ensures { result ≡ option_map (λ put. put.0) (says event.now).settles }
{
    match *event {
        Event::Settle {
            comm,
            round,
            rank,
            ..
        } => Some((comm, round, rank)),
        Event::Mark {
            comm,
            round,
            rank,
            ..
        } => Some((comm, round, rank)),
        _ => None,
    }
}

impl<A: Allocator + Copy + Drop> Rounds<A> {
    /// No event has happened in a world of so many ranks.
    pub(crate) fn new(alloc: A, ranks: u16) -> Result<Rounds<A>, AllocError>
        ensures { IfOk result (λ rounds. TellRounds ranks rounds []) }
    {
        let world = first_ranks(alloc, ranks)?;
        let mut groups = Vec::new(alloc);
        groups.push(world)?;
        Ok(Rounds {
            ranks,
            history: Vec::new(alloc),
            groups,
            settled: HashMap::new(alloc),
        })
    }

    /// The members of a communicator, or nobody.
    pub(crate) fn group(&self, comm: u16) -> &[u16]
        ensures { result.now ≡ group_at (map ranks_of self.now.groups.items) comm }
    {
        match self.groups.get(usize::from(comm)) {
            Some(group) => group,
            None => &[],
        }
    }

    /// What a round decides by the events so far, in words; none where some member isn't settled yet.
    pub(crate) fn words(
        &self,
        alloc: A,
        comm: u16,
        round: u16,
    ) -> Result<Option<Vec<u8, A>>, AllocError>
        ensures { (ranks : ℕ) (h : History FlagAnd) → TellRounds ranks self.now h
            → IfOk result (TellsDecision ranks h comm round) }
    {
        if !are_settled(&self.settled, self.group(comm), comm, round) {
            return Ok(None);
        }
        decision_words(alloc, self.ranks, &self.history, comm, round)
    }

    /// Takes in one more event.
    pub(crate) fn happen(&mut self, alloc: A, entry: Entry<FlagAnd>) -> Result<(), AllocError>
        ensures { (ranks : ℕ) (h : History FlagAnd) → TellRounds ranks self.old h
            → OnOk result (TellRounds ranks self.new (h ++ entry ∷ [])) }
    {
        self.history.push(entry)?;
        note_settled(&mut self.settled, &entry)?;
        note_made(alloc, self.ranks, &self.history, &mut self.groups, &entry)
    }
}

/// Whether each of these is in the table of those who are settled in a round.
fn are_settled<A: Allocator>(settled: &Table<A>, group: &[u16], comm: u16, round: u16) -> bool
    ensures { result ≡ list_all (λ r. is_some (get same_place settled.now (comm, round, r))) group.now }
{
    group
        .iter()
        .all(|rank| settled.get(&(comm, round, *rank)).is_some())
}

/// Notes the place that an event settles.
fn note_settled<A: Allocator + Copy>(
    settled: &mut Table<A>,
    entry: &Entry<FlagAnd>,
) -> Result<(), AllocError>
    ensures { (h : History FlagAnd) → HasSettled settled.old h
        → OnOk result (HasSettled settled.new (h ++ entry.now ∷ [])) }
{
    if let Some(place) = place_settled(&entry.event) {
        settled.insert(place, 0)?;
    }
    Ok(())
}

/// A count as a number of 16 bits; none where it has more.
fn number_of(count: usize) -> Option<u16>
    ensures { IfSome result (λ number. number ≡ count) }
{
    u16::try_from(count).ok()
}

/// Notes the members of the communicator that an event makes, which is the last of these.
fn note_made<A: Allocator + Copy + Drop>(
    alloc: A,
    ranks: u16,
    history: &[Entry<FlagAnd>],
    groups: &mut Vec<Vec<u16, A>, A>,
    entry: &Entry<FlagAnd>,
) -> Result<(), AllocError>
    ensures { (h : History FlagAnd) → history.now ≡ h ++ entry.now ∷ []
        → AreMembers ranks (map ranks_of groups.old.items) h → OnOk result (AreMembers ranks (map ranks_of groups.new.items) history.now) }
{
    let Event::Spawn { .. } = entry.event else {
        return Ok(());
    };
    let Some(comm) = number_of(groups.len()) else {
        return Ok(());
    };
    let group = members(alloc, ranks, history, comm)?;
    groups.push(group)?;
    Ok(())
}
