//! The signs of a row: what happens in its lane, its label, and the line of the trace.
ghost use Rattle.std.specs.Prelude.{◌<◌, ◌≤◌, ◌^◌, IfOk};
ghost use Rattle.ulfm_draw.specs.Places.{HasRoom};

use crate::labels::{put_label, put_title};
use crate::layout::{Layout, SHOWN};
use crate::say::say_number;
use crate::style::{note_class, round_class};
use crate::{Group, Leaf, Page};
use std::alloc::{AllocError, Allocator};
use ulfm_laws::FlagAnd;
use ulfm_model::Line;
use ulfm_model::event::Event;
use ulfm_story::{Note, Row};

/// A row, with all that is drawn in it.
#[derive(Drop)]
pub(crate) struct Drawn<'a, A: Allocator> {
    /// Where things stand in the picture.
    pub(crate) layout: &'a Layout<A>,
    /// The lanes that are drawn, in their order.
    pub(crate) lanes: &'a [u16],
    /// The number of the row, counted from 0.
    pub(crate) index: u16,
    /// What the line tells, and in which lanes.
    pub(crate) row: &'a Row,
    /// The text of the line.
    pub(crate) line: &'a [u8],
    /// What the row brings about for all, if anything.
    pub(crate) note: Option<&'a Note<A>>,
}

impl<A: Allocator + Copy + Drop> Drawn<'_, A> {
    /// The middle of the row.
    fn y(&self) -> u32
        ensures low { 111 ≤ result }
        ensures high { result < 2 ^ 22 }
    {
        self.layout.y(self.index)
    }
}

/// Draws a row as a group with a title.
pub(crate) fn draw_row<A: Allocator + Copy + Drop>(
    page: Page<A>,
    words: &mut Vec<u8, A>,
    drawn: &Drawn<'_, A>,
) -> Result<Page<A>, AllocError> {
    let number = u32::from(drawn.index) + 2;
    words.clear();
    put_title(words, number, drawn.row, drawn.line)?;
    let mut group = page.titled(words)?;
    draw_number(&mut group, words, number, 44, drawn.y())?;
    draw_band(&mut group, drawn)?;
    draw_sign(&mut group, drawn)?;
    draw_label(&mut group, words, drawn)?;
    draw_line(&mut group, words, drawn)?;
    group.close()
}

/// A number that ends at this x, in a row of this y.
pub(crate) fn draw_number<A: Allocator + Copy>(
    group: &mut Group<A>,
    words: &mut Vec<u8, A>,
    number: u32,
    x: u32,
    y: u32,
) -> Result<(), AllocError>
    requires { y < 2 ^ 30 }
{
    words.clear();
    say_number(words, number)?;
    group.put(Leaf::Words, b"i", &[x, y + 4], words)
}

/// The line across the members of what is decided in a row.
fn draw_band<A: Allocator + Copy + Drop>(
    group: &mut Group<A>,
    drawn: &Drawn<'_, A>,
) -> Result<(), AllocError> {
    let Some(note) = drawn.note else {
        return Ok(());
    };
    let class = match note.round {
        Some(round) => round_class(round),
        None => b"all",
    };
    let first = drawn.layout.x(note.first);
    let last = drawn.layout.x(note.last).max(first);
    let y = drawn.y() + drawn.layout.scale.row() / 2 - 2;
    let numbers = [first - 14, y, last - first + 28, 3, 1];
    group.put(Leaf::Box, class, &numbers, b"")
}

/// The sign of a row.
fn draw_sign<A: Allocator + Copy + Drop>(
    group: &mut Group<A>,
    drawn: &Drawn<'_, A>,
) -> Result<(), AllocError> {
    let x = drawn.layout.x(drawn.row.lane);
    let y = drawn.y();
    match drawn.row.line {
        Line::Called { .. } => draw_dot(group, x, y),
        Line::Looked { .. } => {
            let half = drawn.layout.scale.bar() / 2 + 2;
            group.put(Leaf::Across, b"look", &[x - half, y, x + half], b"")
        }
        Line::Happened {
            event: Some(event),
            ..
        } => draw_event(group, drawn, &event, x, y),
        Line::Happened { event: None, .. } => draw_dot(group, x, y),
        Line::Replied { .. } => draw_reply(group, drawn, x, y),
    }
}

/// A dot where a call begins or ends.
fn draw_dot<A: Allocator + Copy>(group: &mut Group<A>, x: u32, y: u32) -> Result<(), AllocError> {
    group.put(Leaf::Disc, b"dot", &[x, y, 2], b"")
}

/// The end of a call: a small bar in the colour of the round that the reply tells the decision of, or a dot.
fn draw_reply<A: Allocator + Copy + Drop>(
    group: &mut Group<A>,
    drawn: &Drawn<'_, A>,
    x: u32,
    y: u32,
) -> Result<(), AllocError>
    requires { HasRoom x y }
{
    let Some(round) = drawn.row.round else {
        return draw_dot(group, x, y);
    };
    let half = drawn.layout.scale.sign() - 2;
    group.put(
        Leaf::Box,
        round_class(round),
        &[x - half, y - 2, 2 * half, 4, 0],
        b"",
    )
}

/// The sign of an event.
fn draw_event<A: Allocator + Copy + Drop>(
    group: &mut Group<A>,
    drawn: &Drawn<'_, A>,
    event: &Event<FlagAnd>,
    x: u32,
    y: u32,
) -> Result<(), AllocError>
    requires { HasRoom x y }
{
    let half = drawn.layout.scale.sign();
    match *event {
        Event::Fail { .. } => {
            let target = draw_link(group, drawn, b"link", x, y)?;
            let size = half + 2;
            let numbers = [target, y - size, size, size, size, size, size, size];
            group.put(Leaf::Diamond, b"fail", &numbers, b"")
        }
        Event::Mark { .. } => {
            let target = draw_link(group, drawn, b"mark", x, y)?;
            group.put(Leaf::Disc, b"mark", &[target, y, half + 1], b"")?;
            group.put(Leaf::Cross, b"mark", &[target - 3, y - 3], b"")
        }
        Event::Settle { round, .. } => {
            group.put(Leaf::Disc, round_class(round), &[x, y, half], b"")
        }
        Event::Arrive { round, .. } => draw_triangle(group, round_class(round), x, y, half),
        Event::Revoke { .. } => draw_revocation(group, drawn, x, y, half),
        Event::Spawn { .. } => group.put(Leaf::Hexagon, b"new", &[x - 3, y - 7], b""),
    }
}

/// The line from the caller to the lane of whom it declares or leaves out, whose middle it gives.
fn draw_link<A: Allocator + Copy + Drop>(
    group: &mut Group<A>,
    drawn: &Drawn<'_, A>,
    class: &[u8],
    x: u32,
    y: u32,
) -> Result<u32, AllocError>
    ensures low { IfOk result (λ target. 64 ≤ target) }
    ensures high { IfOk result (λ target. target < 2 ^ 23) }
{
    let target = drawn.layout.x(drawn.row.target.unwrap_or(drawn.row.lane));
    if target != x {
        group.put(Leaf::Across, class, &[x, y, target], b"")?;
        draw_dot(group, x, y)?;
    }
    Ok(target)
}

/// An arrival.
fn draw_triangle<A: Allocator + Copy>(
    group: &mut Group<A>,
    class: &[u8],
    x: u32,
    y: u32,
    half: u32,
) -> Result<(), AllocError>
    requires low { half ≤ y }
    requires small { half ≤ 100 }
{
    let numbers = [x, y - half, half + 1, 2 * half, 2 * half + 2];
    group.put(Leaf::Triangle, class, &numbers, b"")
}

/// A revocation, with a line across all lanes.
fn draw_revocation<A: Allocator + Copy + Drop>(
    group: &mut Group<A>,
    drawn: &Drawn<'_, A>,
    x: u32,
    y: u32,
    half: u32,
) -> Result<(), AllocError>
    requires left { half ≤ x }
    requires low { half ≤ y }
    requires small { half ≤ 100 }
{
    let first = drawn.lanes.first().copied().unwrap_or(0);
    let last = drawn.lanes.last().copied().unwrap_or(0);
    let from = drawn.layout.x(first) - 14;
    let to = drawn.layout.x(last) + 14;
    group.put(Leaf::Across, b"revl", &[from, y, to], b"")?;
    let numbers = [x - half, y - half, 2 * half, 2 * half, 2];
    group.put(Leaf::Box, b"rev", &numbers, b"")
}

/// The label in the lane, and a line that leads from it to the line of the trace.
fn draw_label<A: Allocator + Copy + Drop>(
    group: &mut Group<A>,
    words: &mut Vec<u8, A>,
    drawn: &Drawn<'_, A>,
) -> Result<(), AllocError> {
    let x = drawn.layout.label_x(drawn.row);
    words.clear();
    if drawn.layout.scale.is_labelled() {
        put_label(words, drawn.row)?;
        group.put(Leaf::Words, b"t", &[x, drawn.y() + 4], words)?;
    }
    let from = x + crate::layout::span_of(words.len(), 7) + 6;
    let to = drawn.layout.text.saturating_sub(44);
    if from < to {
        group.put(Leaf::Across, b"lead", &[from, drawn.y(), to], b"")?;
    }
    Ok(())
}

/// The line of the trace, with the number of its event before it, and what is noted behind it.
fn draw_line<A: Allocator + Copy + Drop>(
    group: &mut Group<A>,
    words: &mut Vec<u8, A>,
    drawn: &Drawn<'_, A>,
) -> Result<(), AllocError> {
    let x = drawn.layout.text;
    if let Some(number) = drawn.row.event {
        draw_number(group, words, number, x.saturating_sub(8), drawn.y())?;
    }
    words.clear();
    put_shown(words, drawn.line)?;
    group.put(Leaf::Words, b"l", &[x, drawn.y() + 4], words)?;
    let Some(note) = drawn.note else {
        return Ok(());
    };
    let behind = crate::layout::span_of(words.len(), 8) + 24;
    let place = [x.saturating_add(behind), drawn.y() + 4];
    group.put(Leaf::Words, note_class(note.round), &place, &note.words)
}

/// A line, or its beginning where it is long.
pub(crate) fn put_shown<A: Allocator>(
    words: &mut Vec<u8, A>,
    line: &[u8],
) -> Result<(), AllocError> {
    if line.len() <= SHOWN {
        return words.extend_from_slice(line);
    }
    if let Some(begin) = line.get(..SHOWN - 3) {
        words.extend_from_slice(begin)?;
    }
    words.extend_from_slice(b"...")
}
