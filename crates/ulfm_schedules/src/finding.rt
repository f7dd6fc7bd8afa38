//! The search: state by state, breadth first, until no new one is found.
ghost use Rattle.std.specs.Prelude.{◌≡◌, ◌≤◌, IfOk, true};

use crate::Fate;
use crate::choices::{Act, can_act, is_settled, take_act};
use crate::engine::Engine;
use crate::state::State;
use crate::table::Table;
use std::alloc::{AllocError, Allocator};

/// What a rank's part of an outcome is: its fate, and the number of its notes.
#[derive(Clone, Copy, Debug, PartialEq, Eq)]
pub(crate) struct Part {
    /// Whether the rank still runs, and else how it ended.
    pub(crate) fate: Fate,
    /// The number of the list of its notes; 0 for none.
    pub(crate) notes: u32,
}

/// An outcome that was found.
#[derive(Drop)]
pub(crate) struct Candidate<A: Allocator> {
    /// By rank.
    pub(crate) parts: Vec<Part, A>,
    /// The first state that has it.
    pub(crate) state: u32,
}

/// What was found.
#[derive(Drop)]
pub(crate) struct Found<A: Allocator> {
    /// The states, by their numbers.
    pub(crate) table: Table<A>,
    /// The outcomes, each once.
    pub(crate) outcomes: Vec<Candidate<A>, A>,
    /// How many states there are.
    pub(crate) states: u32,
    /// Whether each state was gone on from.
    pub(crate) is_whole: bool,
}

/// The parts of a state's outcome.
pub(crate) fn parts_of<A: Allocator + Copy + Drop>(
    alloc: A,
    state: &State<A>,
) -> Result<Vec<Part, A>, AllocError> {
    let mut parts = Vec::new(alloc);
    for rank in 0..state.layout.ranks {
        let seat = state.seat(rank);
        parts.push(Part {
            fate: seat.fate,
            notes: seat.notes,
        })?;
    }
    Ok(parts)
}

/// A search under way.
#[derive(Drop)]
struct Searching<'a, 'b, A: Allocator> {
    alloc: A,
    engine: &'a mut Engine<'b, A>,
    table: Table<A>,
    outcomes: Vec<Candidate<A>, A>,
    state: State<A>,
    row: Vec<u8, A>,
}

impl<'a, 'b, A: Allocator + Copy + Drop> Searching<'a, 'b, A> {
    /// Notes the outcome of a state, where it has one and it is new.
    fn note_outcome(&mut self, number: u32) -> Result<(), AllocError> {
        if !is_settled(self.engine, &self.state) {
            return Ok(());
        }
        let parts = parts_of(self.alloc, &self.state)?;
        for known in &self.outcomes {
            if known.parts.as_slice() == parts.as_slice() {
                return Ok(());
            }
        }
        self.outcomes.push(Candidate {
            parts,
            state: number,
        })?;
        Ok(())
    }

    /// Goes on from the state of a number by an act, where that can come.
    fn go_by(&mut self, number: u32, act: Act) -> Result<(), AllocError> {
        if !can_act(self.engine, &self.state, act) {
            return Ok(());
        }
        take_act(self.engine, &mut self.state, act)?;
        self.table.add(&self.state.bytes, Some((number, act)))?;
        self.state.bytes.clear();
        self.state.bytes.extend_from_slice(&self.row)
    }

    /// Goes on from the state of a number in all ways.
    fn go_from(&mut self, number: u32) -> Result<(), AllocError> {
        self.table.load(number, &mut self.row)?;
        self.state.bytes.clear();
        self.state.bytes.extend_from_slice(&self.row)?;
        self.note_outcome(number)?;
        for rank in 0..self.state.layout.ranks {
            self.go_by(number, Act::Step(rank))?;
        }
        for rank in 0..self.state.layout.ranks {
            self.go_by(number, Act::Declare(rank))?;
        }
        Ok(())
    }
}

/// Finds the outcomes of all schedules, or of those that at most so many states show.
pub(crate) fn find_all<A: Allocator + Copy + Drop>(
    alloc: A,
    engine: &mut Engine<A>,
    most: u32,
) -> Result<Found<A>, AllocError>
    ensures { IfOk result (λ found. found.is_whole ≡ true → found.states ≤ most) }
{
    let state = engine.first(alloc)?;
    let mut table = Table::new(alloc, state.bytes.len())?;
    table.add(&state.bytes, None)?;
    let mut search = Searching {
        alloc,
        engine,
        table,
        outcomes: Vec::new(alloc),
        state,
        row: Vec::new(alloc),
    };
    let mut is_whole = false;
    let mut states = 0;
    for number in 0..u32::MAX {
        states = search.table.count();
        if states > most || search.engine.full {
            break;
        }
        if number >= states {
            is_whole = true;
            break;
        }
        search.go_from(number)?;
    }
    Ok(Found {
        table: search.table,
        outcomes: search.outcomes,
        states,
        is_whole,
    })
}
