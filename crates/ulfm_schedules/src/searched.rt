//! A search that has ended: how many outcomes it found, and for each a script.
ghost use Rattle.std.specs.Prelude.{◌≡◌, ◌≤◌, IfOk, true};
ghost use Rattle.ulfm_schedules.specs.Searches.{states_of, whole_of};

use crate::answers::Note;
use crate::engine::Engine;
use crate::finding::{Found, Part, find_all};
use crate::paths::{path_to, take_path};
use crate::scripts::script_text;
use crate::shorten::shortest;
use crate::{Program, Row};
use std::alloc::{AllocError, Allocator};

/// A script that is to show an outcome, and the outcome that it is to show.
#[derive(Drop)]
pub struct Script<A: Allocator> {
    /// The text of the script of steps.
    pub text: Vec<u8, A>,
    /// Who calls each of its declarations, in order: a rank, or 255 for the outside.
    pub callers: Vec<u8, A>,
    /// By rank, what becomes of it.
    pub rows: Vec<Row<A>, A>,
}

/// A search that has ended.
#[derive(Drop)]
pub struct Searched<'a, A: Allocator> {
    alloc: A,
    engine: Engine<'a, A>,
    found: Found<A>,
}

/// Finds the outcomes of all schedules of a program, or of those that at most so many states show.
///
/// Memory is taken for each state: some 60 to 150 bytes.
pub fn search<'a, A: Allocator + Copy + Drop>(
    alloc: A,
    program: &'a Program<A>,
    most: u32,
) -> Result<Searched<'a, A>, AllocError>
    // All schedules were tried only where no more states came up than are allowed.
    ensures { IfOk result (λ searched. whole_of searched ≡ true → states_of searched ≤ most) }
{
    let mut engine = Engine::new(alloc, program);
    let found = find_all(alloc, &mut engine, most)?;
    Ok(Searched {
        alloc,
        engine,
        found,
    })
}

/// The words of a list of notes, each with a newline behind it.
fn noted<A: Allocator + Copy + Drop>(
    alloc: A,
    engine: &Engine<A>,
    list: u32,
) -> Result<Vec<u8, A>, AllocError> {
    let mut text = Vec::new(alloc);
    for note in &engine.notes.list(list)? {
        match *note {
            Note::Reply(number) => {
                let words = engine.answers.text(number).unwrap_or(b"");
                text.extend_from_slice(words)?;
            }
            Note::Said(number) => {
                text.extend_from_slice(b"say ")?;
                text.extend_from_slice(engine.program.text(number))?;
            }
        }
        text.push(b'\n')?;
    }
    Ok(text)
}

/// What becomes of the ranks in an outcome.
pub(crate) fn rows_of<A: Allocator + Copy + Drop>(
    alloc: A,
    engine: &Engine<A>,
    parts: &[Part],
) -> Result<Vec<Row<A>, A>, AllocError> {
    let mut rows = Vec::new(alloc);
    for part in parts {
        rows.push(Row {
            fate: part.fate,
            noted: noted(alloc, engine, part.notes)?,
        })?;
    }
    Ok(rows)
}

impl<'a, A: Allocator + Copy + Drop> Searched<'a, A> {
    /// How many outcomes were found.
    pub fn count(&self) -> u32 {
        u32::try_from(self.found.outcomes.len()).unwrap_or(u32::MAX)
    }

    /// Whether each state was gone on from.
    pub fn is_whole(&self) -> bool
        ensures { result ≡ whole_of self.now }
    {
        self.found.is_whole
    }

    /// How many states were found.
    pub fn states(&self) -> u32
        ensures { result ≡ states_of self.now }
    {
        self.found.states
    }

    /// How many bytes are kept of them.
    pub fn bytes(&self) -> u64 {
        self.found.table.bytes()
    }

    /// A script that is to show the outcome of a number, counted from 0, a short one where that is wanted; none where there is no such outcome.
    pub fn script(&mut self, number: u32, is_short: bool) -> Result<Option<Script<A>>, AllocError> {
        let alloc = self.alloc;
        script_of(alloc, &mut self.engine, &self.found, number, is_short)
    }
}

/// A script that is to show the outcome of a number, a short one where that is wanted; none where there is no such outcome.
fn script_of<A: Allocator + Copy + Drop>(
    alloc: A,
    engine: &mut Engine<A>,
    found: &Found<A>,
    number: u32,
    is_short: bool,
) -> Result<Option<Script<A>>, AllocError> {
    let Some(candidate) = found.outcomes.get(number as usize) else {
        return Ok(None);
    };
    let acts = path_to(alloc, found, candidate.state)?;
    let taken = if is_short {
        shortest(alloc, engine, acts, &candidate.parts)?
    } else {
        take_path(alloc, engine, &acts)?
    };
    let Some(taken) = taken else {
        return Ok(None);
    };
    let limits = engine.program.limits;
    Ok(Some(Script {
        text: script_text(alloc, limits, &taken.lines)?,
        callers: taken.callers,
        rows: rows_of(alloc, engine, &candidate.parts)?,
    }))
}
