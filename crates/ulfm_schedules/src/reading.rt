//! The reader of programs of ranks.
use crate::fault::{ProgramFault, ProgramKind, at_line, of_reader};
use crate::lines::{read_ask, read_limits, read_rank, split_jump, without_remark, words_of};
use crate::program::{Find, May, Op, Program};
use std::alloc::{AllocError, AllocFailed, Allocator};
use std::io::Read;
use ulfm_model::Limits;
use ulfm_script::words::{next_word, one_word, read_number, split_word};
use ulfm_script::{Input, LineEnd, LineKind};

/// The most bytes that a line may have, without its newline.
const LONGEST: usize = 256;

/// The most lines that a program may have.
const LAST_LINE: u32 = 1_000;

/// Why a line wasn't taken.
enum Stop {
    /// The line has this fault.
    Kind(ProgramKind),
    Memory,
}

impl From<LineKind> for Stop {
    fn from(kind: LineKind) -> Stop {
        Stop::Kind(ProgramKind::Line(kind))
    }
}

impl From<AllocError> for Stop {
    fn from(_error: AllocError) -> Stop {
        Stop::Memory
    }
}

impl<T: Drop> From<AllocFailed<T>> for Stop {
    fn from(_error: AllocFailed<T>) -> Stop {
        Stop::Memory
    }
}

/// A name that a rank's program has, or jumps to.
#[derive(Clone, Copy)]
struct Named {
    rank: u16,
    /// The number of the name.
    name: u16,
    /// The operation that stands behind it, or that jumps to it.
    at: u16,
    /// The line, counted from 1.
    line: u32,
}

/// A program as far as it is read.
#[derive(Drop)]
struct Reading<A: Allocator> {
    alloc: A,
    program: Program<A>,
    // The ranks of the section.
    section: Vec<u16, A>,
    // The names, each once.
    names: Vec<Vec<u8, A>, A>,
    labels: Vec<Named, A>,
    jumps: Vec<Named, A>,
}

/// Reads the program that the reader gives.
///
/// Its first line is `ulfm-explore 1 RANKS COMMS ROUNDS`, with at most 8 ranks, 8 communicators and 15 rounds. The fault is the first line's
/// that has one, in the order of [`ProgramKind`]; those of names come last, once all lines are read.
pub fn read_program<A: Allocator + Copy + Drop, R: Read>(
    alloc: A,
    reader: &mut R,
) -> Result<Program<A>, ProgramFault> {
    let mut input = Input::new(alloc)?;
    let mut line = Vec::with_capacity(alloc, LONGEST + 1)?;
    if !next_line(&mut input, reader, &mut line, 1)? {
        return Err(at_line(1, ProgramKind::Line(LineKind::Header)));
    }
    let mut reading = match read_limits(&line) {
        Ok(limits) => Reading::new(alloc, limits)?,
        Err(kind) => return Err(at_line(1, ProgramKind::Line(kind))),
    };
    for number in 2..LAST_LINE + 2 {
        if !next_line(&mut input, reader, &mut line, number)? {
            return reading.resolved();
        }
        match reading.take(number, without_remark(&line)) {
            Ok(()) => {}
            Err(Stop::Kind(kind)) => return Err(at_line(number, kind)),
            Err(Stop::Memory) => return Err(ProgramFault::Memory),
        }
    }
    Err(at_line(LAST_LINE + 1, ProgramKind::Line(LineKind::Lines)))
}

/// Reads the line of a number, if there is one.
fn next_line<A: Allocator, R: Read>(
    input: &mut Input<A>,
    reader: &mut R,
    line: &mut Vec<u8, A>,
    number: u32,
) -> Result<bool, ProgramFault> {
    let end = match input.read_line(reader, line, LONGEST + 1) {
        Ok(end) => end,
        Err(fault) => return Err(of_reader(fault)),
    };
    let kind = match end {
        LineEnd::Done => return Ok(false),
        LineEnd::Cut => LineKind::Cut,
        LineEnd::Newline if line.len() > LONGEST => LineKind::Long,
        LineEnd::Newline if number > LAST_LINE => LineKind::Lines,
        LineEnd::Newline => return Ok(true),
    };
    Err(at_line(number, ProgramKind::Line(kind)))
}

/// A program in which nothing stands yet.
fn empty_program<A: Allocator + Copy>(alloc: A, limits: Limits) -> Result<Program<A>, AllocError> {
    let mut may = Vec::new(alloc);
    let mut ranks = Vec::new(alloc);
    for _ in 0..limits.ranks {
        may.push(May::Stay)?;
        ranks.push(Vec::new(alloc))?;
    }
    Ok(Program {
        limits,
        may,
        most: limits.ranks,
        ranks,
        texts: Vec::new(alloc),
        alike: Vec::new(alloc),
        ended: Vec::new(alloc),
        find: Vec::new(alloc),
    })
}

/// A number of 16 bits; the greatest where it has more.
fn short(count: usize) -> u16 {
    u16::try_from(count).unwrap_or(u16::MAX)
}

/// The text behind a verb, where the first word is this one.
fn behind<'a>(line: &'a [u8], verb: &[u8]) -> Option<Option<&'a [u8]>> {
    let (word, fields) = split_word(line);
    if word == verb { Some(fields) } else { None }
}

impl<A: Allocator + Copy + Drop> Reading<A> {
    fn new(alloc: A, limits: Limits) -> Result<Reading<A>, AllocError> {
        Ok(Reading {
            alloc,
            program: empty_program(alloc, limits)?,
            section: Vec::new(alloc),
            names: Vec::new(alloc),
            labels: Vec::new(alloc),
            jumps: Vec::new(alloc),
        })
    }

    /// Takes a line without its remark.
    fn take(&mut self, number: u32, line: &[u8]) -> Result<(), Stop> {
        if line.is_empty() {
            return Ok(());
        }
        if self.take_whole(line)? {
            return Ok(());
        }
        if let Some(fields) = behind(line, b"rank") {
            self.section = self.ranks_of(fields)?;
            return Ok(());
        }
        self.take_of_rank(number, line)
    }

    /// Takes a line that is of no rank's program, and says whether it is one.
    fn take_whole(&mut self, line: &[u8]) -> Result<bool, Stop> {
        let (verb, fields) = split_word(line);
        if verb == b"may".as_slice() {
            self.take_may(fields)?;
        } else if verb == b"most".as_slice() {
            self.program.most = read_number(one_word(fields)?)?;
        } else if verb == b"alike".as_slice() {
            self.program.alike = self.ranks_of(fields)?;
        } else if verb == b"ended".as_slice() {
            self.program.ended = self.ranks_of(fields)?;
        } else if verb == b"find".as_slice() {
            let (word, rest) = next_word(fields)?;
            let rank = read_rank(self.program.limits.ranks, word)?;
            let text = self.text_of(words_of(rest)?)?;
            self.program.find.push(Find { rank, text })?;
        } else {
            return Ok(false);
        }
        Ok(true)
    }

    /// Who may be declared, and how.
    fn take_may(&mut self, fields: Option<&[u8]>) -> Result<(), Stop> {
        let (word, rest) = next_word(fields)?;
        let may = if word == b"die".as_slice() {
            May::Die
        } else if word == b"fail".as_slice() {
            May::Fail
        } else {
            return Err(Stop::from(LineKind::Words));
        };
        for rank in self.ranks_of(rest)? {
            if let Some(place) = self.program.may.get_mut(usize::from(rank)) {
                *place = may;
            }
        }
        Ok(())
    }

    /// The ranks that a line lists, or all of them.
    fn ranks_of(&self, fields: Option<&[u8]>) -> Result<Vec<u16, A>, Stop> {
        let mut ranks = Vec::new(self.alloc);
        if fields == Some(b"all".as_slice()) {
            for rank in 0..self.program.limits.ranks {
                ranks.push(rank)?;
            }
            return Ok(ranks);
        }
        let mut left = Some(words_of(fields)?);
        for _ in 0..=LONGEST {
            if left.is_none() {
                break;
            }
            let (word, rest) = next_word(left)?;
            ranks.push(read_rank(self.program.limits.ranks, word)?)?;
            left = rest;
        }
        Ok(ranks)
    }

    /// The number of a text, which is kept.
    fn text_of(&mut self, words: &[u8]) -> Result<u16, AllocError> {
        let number = short(self.program.texts.len());
        let text = Vec::from_slice(self.alloc, words)?;
        self.program.texts.push(text)?;
        Ok(number)
    }

    /// The number of a name, each once.
    fn name_of(&mut self, name: &[u8]) -> Result<u16, AllocError> {
        if let Some(at) = self.names.iter().position(|known| known.as_slice() == name) {
            return Ok(short(at));
        }
        let number = short(self.names.len());
        let name = Vec::from_slice(self.alloc, name)?;
        self.names.push(name)?;
        Ok(number)
    }

    /// Takes a line of the section's ranks.
    fn take_of_rank(&mut self, line: u32, text: &[u8]) -> Result<(), Stop> {
        if let Some(fields) = behind(text, b"at") {
            let name = self.name_of(one_word(fields)?)?;
            return self.add_label(line, name);
        }
        if let Some(fields) = behind(text, b"go") {
            let name = self.name_of(one_word(fields)?)?;
            return self.add_jump(line, Op::Go { to: 0 }, name);
        }
        if let Some(fields) = behind(text, b"if") {
            let (words, name) = split_jump(fields)?;
            let name = self.name_of(name)?;
            let text = self.text_of(words)?;
            return self.add_jump(line, Op::If { text, to: 0 }, name);
        }
        let op = self.plain_op(text)?;
        self.add(op)
    }

    /// An operation that is no jump.
    fn plain_op(&mut self, line: &[u8]) -> Result<Op, Stop> {
        let (verb, fields) = split_word(line);
        if verb == b"end".as_slice() {
            if fields.is_some() {
                return Err(Stop::from(LineKind::Words));
            }
            return Ok(Op::End);
        }
        if verb == b"say".as_slice() {
            let text = self.text_of(words_of(fields)?)?;
            return Ok(Op::Say { text });
        }
        if verb == b"quiet".as_slice() {
            return self.call_op(words_of(fields)?, true);
        }
        self.call_op(line, false)
    }

    /// A call, or a declaration.
    fn call_op(&self, line: &[u8], quiet: bool) -> Result<Op, Stop> {
        if let Some(fields) = behind(line, b"fail") {
            let rank = read_rank(self.program.limits.ranks, one_word(fields)?)?;
            return Ok(Op::Declare { rank, quiet });
        }
        let (ask, on) = read_ask(line)?;
        Ok(Op::Call { ask, on, quiet })
    }

    /// Adds an operation to the section's ranks.
    fn add(&mut self, op: Op) -> Result<(), Stop> {
        if self.section.is_empty() {
            return Err(Stop::Kind(ProgramKind::Rank));
        }
        for rank in &self.section {
            if let Some(ops) = self.program.ranks.get_mut(usize::from(*rank)) {
                ops.push(op)?;
            }
        }
        Ok(())
    }

    /// The place behind a rank's last operation.
    fn end_of(&self, rank: u16) -> u16 {
        match self.program.ranks.get(usize::from(rank)) {
            Some(ops) => short(ops.len()),
            None => 0,
        }
    }

    /// A name in a line, at the next operation of a rank.
    fn here(&self, line: u32, name: u16, rank: u16) -> Named {
        let at = self.end_of(rank);
        Named {
            rank,
            name,
            at,
            line,
        }
    }

    /// Gives the next operation of the section's ranks a name.
    fn add_label(&mut self, line: u32, name: u16) -> Result<(), Stop> {
        if self.section.is_empty() {
            return Err(Stop::Kind(ProgramKind::Rank));
        }
        for rank in 0..self.program.limits.ranks {
            if self.section.contains(&rank) {
                self.label_rank(line, name, rank)?;
            }
        }
        Ok(())
    }

    /// Gives the next operation of a rank a name.
    fn label_rank(&mut self, line: u32, name: u16, rank: u16) -> Result<(), Stop> {
        if find_label(&self.labels, rank, name).is_some() {
            return Err(Stop::Kind(ProgramKind::Name));
        }
        let here = self.here(line, name, rank);
        self.labels.push(here)?;
        Ok(())
    }

    /// Notes that the next operation of a rank jumps to a name.
    fn note_jump(&mut self, line: u32, name: u16, rank: u16) -> Result<(), Stop> {
        let here = self.here(line, name, rank);
        self.jumps.push(here)?;
        Ok(())
    }

    /// Adds a jump to a name to the section's ranks.
    fn add_jump(&mut self, line: u32, op: Op, name: u16) -> Result<(), Stop> {
        for rank in 0..self.program.limits.ranks {
            if self.section.contains(&rank) {
                self.note_jump(line, name, rank)?;
            }
        }
        self.add(op)
    }

    /// The program, each of whose jumps leads to its place.
    fn resolved(self) -> Result<Program<A>, ProgramFault> {
        let Reading {
            mut program,
            labels,
            jumps,
            ..
        } = self;
        for jump in &jumps {
            let Some(to) = find_label(&labels, jump.rank, jump.name) else {
                return Err(at_line(jump.line, ProgramKind::Name));
            };
            set_jump(&mut program, jump.rank, jump.at, to);
        }
        Ok(program)
    }
}

/// The place that a name has in a rank's program.
fn find_label(labels: &[Named], rank: u16, name: u16) -> Option<u16> {
    for label in labels {
        if label.rank == rank && label.name == name {
            return Some(label.at);
        }
    }
    None
}

/// Lets a jump lead to a place.
fn set_jump<A: Allocator>(program: &mut Program<A>, rank: u16, at: u16, place: u16) {
    let Some(ops) = program.ranks.get_mut(usize::from(rank)) else {
        return;
    };
    if let Some(op) = ops.get_mut(usize::from(at)) {
        match op {
            Op::Go { to } | Op::If { to, .. } => *to = place,
            _ => {}
        }
    }
}
