//! A trace, told.
ghost use Rattle.std.specs.Prelude.{◌≡◌, ◌-◌, [], IfOk, OnOk, min};
ghost use Rattle.ulfm_model.specs.declared.limits.Limits.{Limits};
ghost use Rattle.ulfm_story.specs.Tellings.{IsTold, TellsLines};
ghost use Rattle.ulfm_story.specs.Traces.{TellsStory};

use crate::bars::Bar;
use crate::rows::{Note, Row, short};
use crate::telling::Telling;
use crate::text::{MOST_LINES, split_line};
use std::alloc::{AllocError, Allocator};
use ulfm_lines::read_line;
use ulfm_model::Limits;
use ulfm_script::{HeaderKind, read_header};

/// What a trace tells.
#[derive(Drop)]
pub struct Story<A: Allocator> {
    /// The limits that the header tells.
    pub limits: Limits,
    /// For each line behind the header its row, up to 20,000.
    pub rows: Vec<Row, A>,
    /// The calls, in the order of their replies, and then those without one.
    pub bars: Vec<Bar, A>,
    /// What rounds decided, and where all had arrived, in the order of their rows.
    pub notes: Vec<Note<A>, A>,
    /// The lanes of those who are declared, with the row from which on they are.
    pub declared: Vec<(u16, u16), A>,
    /// The lanes that are drawn, in their order.
    pub lanes: Vec<u16, A>,
}

/// Tells the first so many lines of a trace, at most 20,000, the header among them; nothing where there is no header. A
/// line that isn't of the grammar ends it.
///
/// Each round that is decided is noted at the row whose event settles its last member, in the words of the decision by
/// the events down to that row.
///
/// The trace `ulfm-trace 1 2 1 2` with the line `event - fail 1` has one row, and rank 1 is declared from there on.
pub fn tell_story<A: Allocator + Copy + Drop>(
    alloc: A,
    text: &[u8],
    lines: u32,
) -> Result<Option<Story<A>>, AllocError>
    ensures { IfOk result (TellsStory text.now lines) }
{
    if lines == 0 {
        return Ok(None);
    }
    let Some((first, rest)) = split_line(text) else {
        return Ok(None);
    };
    let Ok(limits) = read_header(HeaderKind::Trace, first) else {
        return Ok(None);
    };
    let mut telling = Telling::new(alloc, limits)?;
    tell_lines(alloc, &mut telling, rest, lines)?;
    let story = story_of(telling)?;
    Ok(Some(story))
}

/// Tells the lines behind the header.
fn tell_lines<A: Allocator + Copy + Drop>(
    alloc: A,
    telling: &mut Telling<A>,
    text: &[u8],
    lines: u32,
) -> Result<(), AllocError>
    ensures { (limits : Limits) → IsTold limits telling.old []
        → OnOk result (TellsLines limits text.now (min lines 20000 - 1) telling.new) }
{
    let mut group = Vec::new(alloc);
    let mut left = text;
    let most = lines.min(MOST_LINES).saturating_sub(1);
    'lines: for number in 0..most {
        let Some((line, behind)) = split_line(left) else {
            return Ok(());
        };
        let Some(told) = read_line(line, &mut group)? else {
            return Ok(());
        };
        telling.tell(told)?;
        left = behind;
    }
    Ok(())
}

/// What was told, with the calls that have no reply, and the lanes that are drawn.
fn story_of<A: Allocator + Copy + Drop>(telling: Telling<A>) -> Result<Story<A>, AllocError>
    ensures { IfOk result (λ story. (story.limits ≡ telling.limits)
        × (story.rows.items ≡ telling.rows.items) × (story.notes.items ≡ telling.notes.items)) }
{
    let Telling {
        alloc,
        limits,
        rows,
        notes,
        mut calls,
        ..
    } = telling;
    calls.close(short(rows.len().saturating_sub(1)))?;
    let lanes = calls.lanes(alloc, limits.ranks)?;
    Ok(Story {
        limits,
        rows,
        bars: calls.bars,
        notes,
        declared: calls.declared,
        lanes,
    })
}
