//! Paths: the acts that lead to a state, and what they come to when they are taken again.
use crate::choices::{Act, MOST_STEPS, can_act, goes_along, is_settled, take_act};
use crate::engine::Engine;
use crate::finding::{Found, Part, parts_of};
use crate::state::{Phase, State};
use std::alloc::{AllocError, Allocator};
use ulfm_laws::FlagAnd;
use ulfm_model::StepLine;
use ulfm_model::step_name::StepName;

/// The outside, as the caller of a declaration.
pub(crate) const OUTSIDE: u8 = 255;

/// The acts that lead to a state.
pub(crate) fn path_to<A: Allocator + Copy + Drop>(
    alloc: A,
    found: &Found<A>,
    number: u32,
) -> Result<Vec<Act, A>, AllocError> {
    let mut acts = Vec::new(alloc);
    let mut at = number;
    for _ in 0..found.table.count() {
        let Some((parent, act)) = found.table.origin(at) else {
            break;
        };
        acts.push(act)?;
        at = parent;
    }
    acts.reverse();
    Ok(acts)
}

/// The name of the step that a rank's call is to make next.
fn step_name(phase: Phase) -> StepName {
    match phase {
        Phase::Idle | Phase::Look | Phase::ReadOn => StepName::List,
        Phase::Spread | Phase::BlockWing | Phase::SlotWing | Phase::CacheWing => StepName::Wing,
        Phase::Settle => StepName::Settle,
        Phase::Arrive => StepName::Arrive,
        Phase::Revoke => StepName::Revoke,
        Phase::Revocation | Phase::Ending => StepName::Revocation,
        Phase::Block => StepName::Block,
        Phase::Mark => StepName::Mark,
        Phase::Slot => StepName::Slot,
        Phase::Cache => StepName::Cache,
        Phase::Comm => StepName::Comm,
        Phase::Spawn => StepName::Spawn,
        Phase::Arrival => StepName::Arrival,
    }
}

/// What one rank's steps, one behind another, have come to since the last line.
#[derive(Clone, Copy)]
struct Walk {
    rank: u8,
    /// So many steps.
    count: u16,
    /// The names of the steps that were made, as a set.
    made: u16,
}

/// The number of a step's name, 0 to 12.
fn name_number(name: StepName) -> u32 {
    match name {
        StepName::List => 0,
        StepName::Settle => 1,
        StepName::Block => 2,
        StepName::Mark => 3,
        StepName::Slot => 4,
        StepName::Cache => 5,
        StepName::Wing => 6,
        StepName::Comm => 7,
        StepName::Spawn => 8,
        StepName::Arrive => 9,
        StepName::Arrival => 10,
        StepName::Revoke => 11,
        StepName::Revocation => 12,
    }
}

/// The bit of a step's name.
fn name_bit(name: StepName) -> u16 {
    1u16.checked_shl(name_number(name)).unwrap_or(0)
}

/// What acts come to.
#[derive(Drop)]
pub(crate) struct Taken<A: Allocator> {
    /// The lines of a script that takes them.
    pub(crate) lines: Vec<StepLine<FlagAnd>, A>,
    /// Who calls each declaration, in order; 255 for the outside.
    pub(crate) callers: Vec<u8, A>,
    /// The outcome, where the last state has one.
    pub(crate) parts: Option<Vec<Part, A>>,
}

/// Acts that are taken again from the first state on, and the steps of their script as far as it is written.
#[derive(Drop)]
struct Writing<'a, 'b, A: Allocator> {
    engine: &'a mut Engine<'b, A>,
    state: State<A>,
    lines: Vec<StepLine<FlagAnd>, A>,
    callers: Vec<u8, A>,
    walk: Option<Walk>,
}

impl<'a, 'b, A: Allocator + Copy + Drop> Writing<'a, 'b, A> {
    /// The name of the step that a rank makes next.
    fn next_name(&self, rank: u8) -> StepName {
        step_name(self.state.seat(rank).phase)
    }

    /// Ends the steps of a rank, whose call isn't answered yet.
    fn break_off(&mut self) -> Result<(), AllocError> {
        let Some(walk) = self.walk.take() else {
            return Ok(());
        };
        let rank = u16::from(walk.rank);
        if walk.count == 0 {
            return Ok(());
        }
        let next = self.next_name(walk.rank);
        let line = if walk.made & name_bit(next) != 0 {
            StepLine::Stepped {
                rank,
                count: walk.count,
            }
        } else {
            StepLine::Before { rank, name: next }
        };
        self.lines.push(line)?;
        Ok(())
    }

    /// A rank is to make its next step.
    fn note_step(&mut self, rank: u8) {
        let name = self.next_name(rank);
        let walk = match self.walk {
            Some(walk) => walk,
            None => Walk {
                rank,
                count: 0,
                made: 0,
            },
        };
        self.walk = Some(Walk {
            rank,
            count: walk.count.saturating_add(1),
            made: walk.made | name_bit(name),
        });
    }

    /// A rank is declared by this caller.
    fn note_declared(&mut self, rank: u8, caller: u8) -> Result<(), AllocError> {
        self.lines.push(StepLine::Failed {
            rank: u16::from(rank),
        })?;
        self.callers.push(caller)?;
        Ok(())
    }

    /// A rank's call begins, where none is under way.
    fn note_call(&mut self, rank: u8) -> Result<(), AllocError> {
        if self.state.seat(rank).phase != Phase::Idle {
            return Ok(());
        }
        if let Some(turn) = self.engine.turn(&self.state, rank) {
            self.lines.push(StepLine::Called {
                call: turn.call(),
                padded: false,
            })?;
        }
        Ok(())
    }

    /// Takes a rank's step, with those that go along with it, and writes its lines.
    fn take_step(&mut self, rank: u8) -> Result<(), AllocError> {
        if let Some(whom) = self.engine.declares(&self.state, rank) {
            self.note_declared(whom, rank)?;
            self.engine.step(&mut self.state, rank)?;
            return Ok(());
        }
        self.note_call(rank)?;
        for number in 0..MOST_STEPS {
            if number != 0 && !goes_along(&self.state, rank) {
                break;
            }
            self.note_step(rank);
            if self.engine.step(&mut self.state, rank)? {
                self.walk = None;
                self.lines.push(StepLine::Finished {
                    rank: u16::from(rank),
                })?;
                return Ok(());
            }
        }
        Ok(())
    }

    /// Takes an act, and writes its lines; false where it can't come.
    fn take(&mut self, act: Act) -> Result<bool, AllocError> {
        if !can_act(self.engine, &self.state, act) {
            return Ok(false);
        }
        if let Some(walk) = self.walk {
            if act != Act::Step(walk.rank) {
                self.break_off()?;
            }
        }
        match act {
            Act::Step(rank) => self.take_step(rank)?,
            Act::Declare(rank) => {
                take_act(self.engine, &mut self.state, act)?;
                self.note_declared(rank, OUTSIDE)?;
            }
        }
        Ok(true)
    }

    /// Takes acts, one behind another, and writes their lines; false where one of them can't come.
    fn take_all(&mut self, acts: &[Act]) -> Result<bool, AllocError> {
        for act in acts {
            if !self.take(*act)? {
                return Ok(false);
            }
        }
        self.break_off()?;
        Ok(true)
    }

    /// The outcome, where the state has one.
    fn outcome(&self, alloc: A) -> Result<Option<Vec<Part, A>>, AllocError> {
        if !is_settled(self.engine, &self.state) {
            return Ok(None);
        }
        Ok(Some(parts_of(alloc, &self.state)?))
    }
}

/// Takes acts from the first state on; none where one of them can't come.
pub(crate) fn take_path<'a, 'b, A: Allocator + Copy + Drop>(
    alloc: A,
    engine: &'a mut Engine<'b, A>,
    acts: &[Act],
) -> Result<Option<Taken<A>>, AllocError> {
    let state = engine.first(alloc)?;
    let mut writing = Writing {
        engine,
        state,
        lines: Vec::new(alloc),
        callers: Vec::new(alloc),
        walk: None,
    };
    if !writing.take_all(acts)? {
        return Ok(None);
    }
    let parts = writing.outcome(alloc)?;
    Ok(Some(Taken {
        lines: writing.lines,
        callers: writing.callers,
        parts,
    }))
}
