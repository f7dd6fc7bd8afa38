//! The text form of a trace: the same rows in characters, for a terminal.
ghost use Rattle.std.specs.Prelude.{◌≡◌, ◌++◌, ◌∷◌, [], List, ℕ, IfOk, OnOk};
ghost use Rattle.ulfm_draw.specs.Columns.{Gives, lines_taken, own_lines};
ghost use Rattle.ulfm_draw.specs.Forms.{IsTextForm};
ghost use Rattle.ulfm_script.specs.Buffers.{HasNoNewline};

use crate::layout::short;
use crate::picture::{line_at, lines_of};
use crate::say::say_number;
use crate::sheet::{Looks, put_row, put_words};
use std::alloc::{AllocError, Allocator};
use ulfm_model::event::Event;
use ulfm_model::reply::Reply;
use ulfm_model::{Limits, Line};
use ulfm_story::{Note, Row, Story, split_line, tell_story};
use ulfm_trace::{Verdict, verdict_line};

/// After how many rows the names of the lanes come again.
const AGAIN: usize = 40;

/// How a lane stands.
#[derive(Clone, Copy)]
struct Standing {
    /// Whether a call is under way.
    is_open: bool,
    /// Whether it is declared.
    is_declared: bool,
}

/// Nothing has happened in a lane.
const IDLE: Standing = Standing {
    is_open: false,
    is_declared: false,
};

/// What a text form is made of.
#[derive(Drop)]
struct Table<'a, A: Allocator> {
    story: &'a Story<A>,
    looks: Looks,
    /// How many columns a lane has.
    step: usize,
    /// How many notes were put.
    noted: usize,
    /// How each lane stands.
    lanes: Vec<Standing, A>,
    /// The cells of the row under work.
    cells: Vec<u8, A>,
    /// The columns of the row under work.
    columns: Vec<u8, A>,
}

/// How many lines of a text with this verdict are drawn as its own, the header among them.
fn own_lines(text: &[u8], verdict: Verdict) -> usize
    ensures { lines_taken [] result text.now ≡ own_lines verdict text.now }
{
    match verdict {
        Verdict::Legal => text.len(),
        Verdict::Illegal { line, .. } => line.saturating_sub(1) as usize,
    }
}

/// The text form of a trace with this verdict: up to its bad line, if it has one.
///
/// Each line of the trace stands behind its columns and a tab, so that `cut -s -f 2-` gives the trace back. The last
/// line is that of the verdict.
pub fn draw_text<A: Allocator + Copy + Drop>(
    alloc: A,
    text: &[u8],
    verdict: Verdict,
    looks: Looks,
) -> Result<Vec<u8, A>, AllocError>
    ensures { IfOk result (λ shown. IsTextForm text.now verdict shown.items) }
{
    let mut sheet = Vec::new(alloc);
    put_rows(alloc, &mut sheet, text, verdict, looks)?;
    put_legend(alloc, &mut sheet, looks)?;
    let line = verdict_line(alloc, verdict)?;
    sheet.extend_from_slice(&line)?;
    Ok(sheet)
}

/// The rows of a text with this verdict: with columns, where it has a header.
fn put_rows<A: Allocator + Copy + Drop>(
    alloc: A,
    sheet: &mut Vec<u8, A>,
    text: &[u8],
    verdict: Verdict,
    looks: Looks,
) -> Result<(), AllocError>
    ensures { OnOk result (Gives sheet.old.items [] → Gives sheet.new.items (own_lines verdict text.now)) }
{
    let story = match tell_story(alloc, text, lines_of(verdict))? {
        Some(story) => story,
        None => nothing_told(alloc),
    };
    put_table(alloc, sheet, &story, text, verdict, looks)
}

/// The story of a text that has no header: nothing.
fn nothing_told<A: Allocator + Copy>(alloc: A) -> Story<A> {
    Story {
        limits: Limits {
            ranks: 0,
            comms: 0,
            rounds: 0,
        },
        rows: Vec::new(alloc),
        bars: Vec::new(alloc),
        notes: Vec::new(alloc),
        declared: Vec::new(alloc),
        lanes: Vec::new(alloc),
    }
}

/// The rows of a story, and its bad line.
fn put_table<A: Allocator + Copy + Drop>(
    alloc: A,
    sheet: &mut Vec<u8, A>,
    story: &Story<A>,
    text: &[u8],
    verdict: Verdict,
    looks: Looks,
) -> Result<(), AllocError>
    ensures { OnOk result (Gives sheet.old.items [] → Gives sheet.new.items (own_lines verdict text.now)) }
{
    let mut table = Table {
        story,
        looks,
        step: if story.lanes.len() > 17 { 2 } else { 3 },
        noted: 0,
        lanes: vec![in alloc; IDLE; 1026]?,
        cells: Vec::new(alloc),
        columns: Vec::new(alloc),
    };
    table.put_lines(sheet, text, own_lines(text, verdict))?;
    table.put_bad(sheet, alloc, text, verdict)?;
    Ok(())
}

/// The signs of what happens, each with its meaning.
const HAPPENINGS: [(u8, &str); 8] = [
    (b'+', "call"),
    (b'o', "look"),
    (b'C', "contribution"),
    (b'X', "left out"),
    (b'F', "declared"),
    (b'A', "arrival"),
    (b'R', "revocation"),
    (b'N', "new communicator"),
];

/// The signs of replies, and of how things stand.
const STANDINGS: [(u8, &str); 6] = [
    (b'*', "answered"),
    (b'?', "pending"),
    (b'!', "refused"),
    (b'|', "under way"),
    (b':', "declared before"),
    (b'=', "decided, or all arrived"),
];

/// What the signs mean, as they look.
fn put_legend<A: Allocator + Copy>(
    alloc: A,
    sheet: &mut Vec<u8, A>,
    looks: Looks,
) -> Result<(), AllocError>
    ensures { OnOk result ((given : List ℕ) → Gives sheet.old.items given → Gives sheet.new.items given) }
{
    put_words(sheet, b"")?;
    put_words(sheet, &signs_said(alloc, &HAPPENINGS, looks)?)?;
    put_words(sheet, &signs_said(alloc, &STANDINGS, looks)?)
}

/// Signs as they look, each with its meaning.
fn signs_said<A: Allocator + Copy>(
    alloc: A,
    signs: &[(u8, &str)],
    looks: Looks,
) -> Result<Vec<u8, A>, AllocError> {
    let mut words = Vec::new(alloc);
    for (i, (sign, meaning)) in signs.iter().enumerate() {
        if i > 0 {
            words.extend_from_slice(b"  ")?;
        }
        put_cell(&mut words, *sign, looks)?;
        words.extend_from_slice(b" ")?;
        words.extend_from_slice(meaning.as_bytes())?;
    }
    Ok(words)
}

impl<A: Allocator + Copy + Drop> Table<'_, A> {
    /// The rows of so many lines, with their notes and the names of the lanes.
    fn put_lines(
        &mut self,
        sheet: &mut Vec<u8, A>,
        text: &[u8],
        lines: usize,
    ) -> Result<(), AllocError>
        ensures { OnOk result (Gives sheet.old.items [] → Gives sheet.new.items (lines_taken [] lines text.now)) }
    {
        let mut left = text;
        'lines: for number in 0..lines {
            let Some((line, behind)) = split_line(left) else {
                return Ok(());
            };
            self.put_line(sheet, number, line)?;
            left = behind;
        }
        Ok(())
    }

    /// The row of a line, with so many lines before it: above it the names of the lanes from time to time, below it
    /// what is noted.
    fn put_line(
        &mut self,
        sheet: &mut Vec<u8, A>,
        number: usize,
        line: &[u8],
    ) -> Result<(), AllocError>
        requires { HasNoNewline line.now }
        ensures { OnOk result ((given : List ℕ) → Gives sheet.old.items given
            → Gives sheet.new.items (given ++ (line.now ++ 10 ∷ []))) }
    {
        self.put_names(sheet, number)?;
        self.set_columns(number)?;
        put_row(sheet, &self.columns, line)?;
        self.put_note(sheet, number)?;
        Ok(())
    }

    /// The columns of the row of a line, with so many lines before it.
    fn set_columns(&mut self, number: usize) -> Result<(), AllocError> {
        let story = self.story;
        let row = match number.checked_sub(1) {
            Some(i) => story.rows.get(i),
            None => None,
        };
        let number = u32::from(short(number)) + 1;
        match row {
            Some(row) => {
                self.set_cells(row)?;
                self.begin_columns(Some(number), row.event)?;
            }
            None => {
                self.clear_note()?;
                self.begin_columns(Some(number), None)?;
            }
        }
        self.put_cells()
    }

    /// How many cells a row has.
    fn width(&self) -> usize {
        self.story.lanes.len().saturating_mul(self.step)
    }

    /// Begins the columns of a row: the number of its line, and that of its event.
    fn begin_columns(&mut self, line: Option<u32>, event: Option<u32>) -> Result<(), AllocError> {
        self.columns.clear();
        put_right(&mut self.columns, line, 5)?;
        put_right(&mut self.columns, event, 7)?;
        self.columns.extend_from_slice(b"  ")
    }

    /// Where a lane's cells begin.
    fn place(&self, lane: u16) -> usize {
        let place = self.story.lanes.iter().position(|it| *it == lane);
        place.unwrap_or(0).saturating_mul(self.step)
    }

    /// Sets a cell.
    fn set(&mut self, place: usize, mark: u8) {
        if let Some(cell) = self.cells.get_mut(place) {
            *cell = mark;
        }
    }

    /// The cells of a row.
    fn set_cells(&mut self, row: &Row) -> Result<(), AllocError> {
        self.clear_cells()?;
        let at = self.place(row.lane);
        match row.line {
            Line::Called { .. } => {
                self.set(at, b'+');
                self.note_open(row.lane, true);
            }
            Line::Looked { .. } => self.set(at, b'o'),
            Line::Replied { reply, .. } => {
                self.set(at, reply_mark(reply.as_ref()));
                self.note_open(row.lane, false);
            }
            Line::Happened {
                event: Some(event),
                ..
            } => self.set_event(row, at, &event),
            Line::Happened { event: None, .. } => {}
        }
        Ok(())
    }

    /// The cells of each lane as they are without a mark.
    fn clear_cells(&mut self) -> Result<(), AllocError> {
        self.cells.clear();
        let story = self.story;
        for lane in &story.lanes {
            let mark = self.ground(*lane);
            self.cells.push(mark)?;
            for _ in 1..self.step {
                self.cells.push(b' ')?;
            }
        }
        Ok(())
    }

    /// What a lane shows where nothing happens.
    fn ground(&self, lane: u16) -> u8 {
        match self.lanes.get(usize::from(lane)) {
            Some(standing) if standing.is_open => b'|',
            Some(standing) if standing.is_declared => b':',
            _ => b'.',
        }
    }

    /// Notes whether a call is under way.
    fn note_open(&mut self, lane: u16, is_open: bool) {
        if let Some(standing) = self.lanes.get_mut(usize::from(lane)) {
            standing.is_open = is_open;
        }
    }

    /// The cells of an event.
    fn set_event(&mut self, row: &Row, at: usize, event: &Event<ulfm_laws::FlagAnd>) {
        match *event {
            Event::Fail { .. } => {
                self.set_target(row, at, b'F');
                if let Some(target) = row.target {
                    if let Some(standing) = self.lanes.get_mut(usize::from(target)) {
                        standing.is_declared = true;
                    }
                }
            }
            Event::Mark { .. } => self.set_target(row, at, b'X'),
            Event::Settle { .. } => self.set(at, b'C'),
            Event::Arrive { .. } => self.set(at, b'A'),
            Event::Revoke { .. } => {
                self.fill_spaces(0, self.width(), b'~');
                self.set(at, b'R');
            }
            Event::Spawn { .. } => self.set(at, b'N'),
        }
    }

    /// Fills the empty cells between two places.
    fn fill_spaces(&mut self, from: usize, to: usize, mark: u8) {
        for place in from..to {
            if self.cells.get(place) == Some(&b' ') {
                self.set(place, mark);
            }
        }
    }

    /// The cells of an event that names somebody, joined to its caller.
    fn set_target(&mut self, row: &Row, at: usize, mark: u8) {
        let to = self.place(row.target.unwrap_or(row.lane));
        if at < to {
            self.fill_spaces(at, to, b'-');
            self.set(at, b'>');
        } else if to < at {
            self.fill_spaces(to, at, b'-');
            self.set(at, b'<');
        }
        self.set(to, mark);
    }

    /// Appends the cells to the columns, as they look.
    fn put_cells(&mut self) -> Result<(), AllocError> {
        for cell in &self.cells {
            put_cell(&mut self.columns, *cell, self.looks)?;
        }
        Ok(())
    }

    /// The names of the lanes, with each number from top to bottom, above every fortieth row.
    fn put_names(&mut self, sheet: &mut Vec<u8, A>, number: usize) -> Result<(), AllocError>
        ensures { OnOk result ((given : List ℕ) → Gives sheet.old.items given → Gives sheet.new.items given) }
    {
        if number % AGAIN != 1 {
            return Ok(());
        }
        let most = self.story.lanes.last().copied().unwrap_or(0);
        let deep = digits_of(u32::from(most.saturating_sub(1)));
        'digits: for digit in 0..deep {
            self.set_names(deep - 1 - digit)?;
            put_words(sheet, &self.columns)?;
        }
        Ok(())
    }

    /// The columns of a line of names: of each number the digit at this place, counted from the last.
    fn set_names(&mut self, place: u32) -> Result<(), AllocError> {
        self.columns.clear();
        let head: &[u8] = if place == 0 {
            b" line  event  "
        } else {
            b"              "
        };
        self.columns.extend_from_slice(head)?;
        self.put_digits(place)
    }

    /// Of each lane's number the digit at this place, counted from the last.
    fn put_digits(&mut self, place: u32) -> Result<(), AllocError> {
        let story = self.story;
        for lane in &story.lanes {
            self.columns.push(digit_of(*lane, place))?;
            for _ in 1..self.step {
                self.columns.push(b' ')?;
            }
        }
        Ok(())
    }

    /// What the row of a line brings about for all, with so many lines before it.
    fn put_note(&mut self, sheet: &mut Vec<u8, A>, number: usize) -> Result<(), AllocError>
        ensures { OnOk result ((given : List ℕ) → Gives sheet.old.items given → Gives sheet.new.items given) }
    {
        let story = self.story;
        let Some(note) = story.notes.get(self.noted) else {
            return Ok(());
        };
        if usize::from(note.row) != number.wrapping_sub(1) {
            return Ok(());
        }
        self.noted = self.noted.saturating_add(1);
        self.set_note(note)?;
        put_words(sheet, &self.columns)
    }

    /// The columns of a note.
    fn set_note(&mut self, note: &Note<A>) -> Result<(), AllocError> {
        self.clear_note()?;
        let first = self.place(note.first);
        let last = self.place(note.last);
        self.fill_spaces(first, last.saturating_add(1), b'=');
        self.begin_columns(None, None)?;
        self.put_cells()?;
        self.columns.extend_from_slice(b" ")?;
        self.columns.extend_from_slice(&note.words)
    }

    /// Empty cells.
    fn clear_note(&mut self) -> Result<(), AllocError> {
        self.cells.clear();
        for _ in 0..self.width() {
            self.cells.push(b' ')?;
        }
        Ok(())
    }

    /// A bad line, with the judge's reason.
    fn put_bad(
        &mut self,
        sheet: &mut Vec<u8, A>,
        alloc: A,
        text: &[u8],
        verdict: Verdict,
    ) -> Result<(), AllocError>
        ensures { OnOk result ((given : List ℕ) → Gives sheet.old.items given → Gives sheet.new.items given) }
    {
        let Verdict::Illegal { line: number, .. } = verdict else {
            return Ok(());
        };
        let told = verdict_line(alloc, verdict)?;
        self.set_bad(number, line_at(text, number), &told)?;
        put_words(sheet, &self.columns)
    }

    /// The columns of a bad line.
    fn set_bad(&mut self, number: u32, line: &[u8], told: &[u8]) -> Result<(), AllocError> {
        self.clear_note()?;
        self.fill_spaces(0, self.width(), b'#');
        self.begin_columns(Some(number), None)?;
        self.put_cells()?;
        self.columns.extend_from_slice(b" ")?;
        put_plain(&mut self.columns, line)?;
        self.columns.extend_from_slice(b"   ")?;
        put_plain(&mut self.columns, told)
    }
}

/// The mark of a reply.
fn reply_mark(reply: Option<&Reply<ulfm_laws::FlagAnd>>) -> u8 {
    match reply {
        Some(Reply::Pending) => b'?',
        Some(Reply::Refused(_)) => b'!',
        _ => b'*',
    }
}

/// A number at the right of this many cells; spaces where there is none.
fn put_right<A: Allocator>(
    columns: &mut Vec<u8, A>,
    number: Option<u32>,
    cells: u32,
) -> Result<(), AllocError> {
    let digits = match number {
        Some(number) => digits_of(number),
        None => 0,
    };
    for _ in digits..cells {
        columns.push(b' ')?;
    }
    match number {
        Some(number) => say_number(columns, number),
        None => Ok(()),
    }
}

/// How many digits a number has; six where it has more.
fn digits_of(number: u32) -> u32 {
    match number {
        0..=9 => 1,
        10..=99 => 2,
        100..=999 => 3,
        1000..=9999 => 4,
        10_000..=99_999 => 5,
        _ => 6,
    }
}

/// The digit of a lane's number at this place, counted from the last; of the outside `-`.
fn digit_of(lane: u16, place: u32) -> u8 {
    if lane == 0 {
        return if place == 0 { b'-' } else { b' ' };
    }
    let mut rest = lane - 1;
    for _ in 0..place {
        rest /= 10;
    }
    if place > 0 && rest == 0 {
        return b' ';
    }
    b'0' + (rest % 10) as u8
}

/// Bytes as they may be shown: one that isn't printed becomes a question mark.
fn put_plain<A: Allocator>(columns: &mut Vec<u8, A>, text: &[u8]) -> Result<(), AllocError> {
    for byte in text.iter().take(200) {
        match *byte {
            b' '..=b'~' => columns.push(*byte)?,
            b'\n' => {}
            _ => columns.push(b'?')?,
        }
    }
    Ok(())
}

/// A cell as it looks.
fn put_cell<A: Allocator>(
    columns: &mut Vec<u8, A>,
    cell: u8,
    looks: Looks,
) -> Result<(), AllocError> {
    match looks {
        Looks::Ascii => columns.push(cell).map_err(AllocError::from),
        Looks::Boxes => columns.extend_from_slice(box_of(cell).as_bytes()),
        Looks::Colours => {
            let colour = colour_of(cell);
            columns.extend_from_slice(colour)?;
            columns.extend_from_slice(box_of(cell).as_bytes())?;
            if colour.is_empty() {
                return Ok(());
            }
            columns.extend_from_slice(b"\x1b[0m")
        }
    }
}

/// A cell as a box character.
fn box_of(cell: u8) -> &'static str {
    match cell {
        b'|' => "│",
        b':' => "┊",
        b'.' => "·",
        b'-' => "─",
        b'=' => "═",
        b'~' => "╌",
        b'#' => "▒",
        b'+' => "┌",
        b'*' => "└",
        b'C' => "●",
        b'X' => "⊗",
        b'F' => "◆",
        b'A' => "▲",
        b'R' => "■",
        b'N' => "⬢",
        b'o' => "├",
        b'<' => "◁",
        b'>' => "▷",
        b'?' => "?",
        b'!' => "!",
        _ => " ",
    }
}

/// The colour of a cell.
fn colour_of(cell: u8) -> &'static [u8] {
    match cell {
        b'F' | b'!' | b':' | b'#' => b"\x1b[31m",
        b'C' | b'=' => b"\x1b[36m",
        b'X' | b'?' => b"\x1b[33m",
        b'*' => b"\x1b[32m",
        b'R' => b"\x1b[35m",
        _ => b"",
    }
}
