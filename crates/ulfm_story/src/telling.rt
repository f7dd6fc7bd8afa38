//! What is kept while the lines of a trace are told: the rows so far, what is noted beside them, and how far each round
//! has come.
ghost use Rattle.std.specs.Prelude.{◌≡◌, ◌<◌, ◌^◌, ◌++◌, [], ℕ, List, IfOk, OnOk, filter_map, length};
ghost use Rattle.ulfm_model.specs.declared.limits.Limits.{Limits};
ghost use Rattle.ulfm_story.specs.declared.rows.Row.{Row};
ghost use Rattle.std.specs.List.{cons_option};
ghost use Rattle.ulfm_laws.specs.declared.flag_and.FlagAnd.{FlagAnd};
ghost use Rattle.ulfm_model.specs.History.{History, says};
ghost use Rattle.ulfm_story.specs.Rounds.{TellRounds};
ghost use Rattle.ulfm_story.specs.Stories.{entry_of, told_at, told_of};

use crate::calls::Calls;
use crate::rounds::{Rounds, place_settled};
use crate::rows::{Note, Row, lane_of_rank, short};
use std::alloc::{AllocError, Allocator};
use ulfm_laws::FlagAnd;
use ulfm_model::Line;
use ulfm_model::event::{Entry, Event};
use ulfm_model::limits::Limits;

/// What is told of a trace so far.
#[derive(Drop)]
pub(crate) struct Telling<A: Allocator> {
    /// Where memory comes from.
    pub(crate) alloc: A,
    /// The limits of the trace's world.
    pub(crate) limits: Limits,
    /// A row for each line so far.
    pub(crate) rows: Vec<Row, A>,
    /// What rounds decided so far, and where all had arrived.
    pub(crate) notes: Vec<Note<A>, A>,
    /// How far each round has come.
    pub(crate) rounds: Rounds<A>,
    /// Calls, lanes and arrivals so far.
    pub(crate) calls: Calls<A>,
}

/// The event that a line tells, with whose it is, if it tells one.
fn entry_of(line: &Line<FlagAnd>) -> Option<Entry<FlagAnd>>
    ensures { result ≡ entry_of line.now }
{
    match *line {
        Line::Happened {
            by,
            event: Some(event),
        } => Some(Entry { by, event }),
        _ => None,
    }
}

/// A note of these words across a group.
fn note_across<A: Allocator>(
    row: u16,
    words: Vec<u8, A>,
    round: Option<u16>,
    group: &[u16],
) -> Note<A>
    ensures row { result.row ≡ row }
    ensures words { result.words.items ≡ words.items }
    ensures round { result.round ≡ round }
{
    Note {
        row,
        words,
        round,
        first: lane_of_rank(group.first().copied().unwrap_or(0)),
        last: lane_of_rank(group.last().copied().unwrap_or(0)),
    }
}

/// Notes what the round decides in which an event settles somebody, if it does now.
fn note_decision<A: Allocator + Copy + Drop>(
    alloc: A,
    rounds: &Rounds<A>,
    notes: &mut Vec<Note<A>, A>,
    row: u16,
    event: &Event<FlagAnd>,
) -> Result<(), AllocError>
    ensures { (ranks : ℕ) (h : History FlagAnd) → TellRounds ranks rounds.now h
        → OnOk result (filter_map told_of notes.new.items ≡ filter_map told_of notes.old.items
        ++ cons_option (told_at ranks h row (says event.now).settles) []) }
{
    let Some((comm, round, _)) = place_settled(event) else {
        return Ok(());
    };
    let Some(words) = rounds.words(alloc, comm, round)? else {
        return Ok(());
    };
    notes.push(note_across(row, words, Some(round), rounds.group(comm)))?;
    Ok(())
}

/// Notes that all have arrived in a barrier round, of which so many have, if they have now.
fn note_arrived<A: Allocator + Copy + Drop>(
    alloc: A,
    rounds: &Rounds<A>,
    calls: &mut Calls<A>,
    notes: &mut Vec<Note<A>, A>,
    row: u16,
    event: &Event<FlagAnd>,
) -> Result<(), AllocError>
    ensures { OnOk result (filter_map told_of notes.new.items ≡ filter_map told_of notes.old.items) }
{
    let Event::Arrive { comm, round, .. } = *event else {
        return Ok(());
    };
    let group = rounds.group(comm);
    if calls.arrive(comm, round)? < short(group.len()) {
        return Ok(());
    }
    let text = format!(in alloc; "barrier {round} of {comm}: all have arrived")?;
    let words = Vec::from_slice(alloc, text.as_bytes())?;
    notes.push(note_across(row, words, None, group))?;
    Ok(())
}

impl<A: Allocator + Copy + Drop> Telling<A> {
    ghost use Rattle.ulfm_story.specs.Tellings.{IsTold, TellsMore};

    /// Nothing is told yet.
    pub(crate) fn new(alloc: A, limits: Limits) -> Result<Telling<A>, AllocError>
        ensures { IfOk result (λ telling. IsTold limits telling []) }
    {
        let rounds = Rounds::new(alloc, limits.ranks)?;
        let calls = Calls::new(alloc)?;
        Ok(Telling {
            alloc,
            limits,
            rows: Vec::new(alloc),
            notes: Vec::new(alloc),
            rounds,
            calls,
        })
    }

    /// Tells one more line.
    pub(crate) fn tell(&mut self, line: Line<FlagAnd>) -> Result<(), AllocError>
        ensures { (limits : Limits) (rows : List Row) → IsTold limits self.old rows → length rows < 2 ^ 16
            → OnOk result (TellsMore limits self.new rows line) }
    {
        let at = short(self.rows.len());
        let row = self.calls.row(line, at)?;
        self.rows.push(row)?;
        let Some(entry) = entry_of(&line) else {
            return Ok(());
        };
        self.rounds.happen(self.alloc, entry)?;
        let event = entry.event;
        note_decision(self.alloc, &self.rounds, &mut self.notes, at, &event)?;
        note_arrived(
            self.alloc,
            &self.rounds,
            &mut self.calls,
            &mut self.notes,
            at,
            &event,
        )?;
        Ok(())
    }
}
