//! The check of a trace's text, over anything that judges its lines.
ghost use Rattle.std.specs.Prelude.{IfOk};
ghost use Rattle.ulfm_script.specs.Buffers.{line_of, pending, unread};
ghost use Rattle.ulfm_lines.specs.Stepped.{TraceState};
ghost use Rattle.ulfm_trace.specs.Checks.{Checks, ChecksThrough, JudgesLine, OpensJudge, TakesText};

use crate::line_judge::LineJudge;
use crate::verdict::{CheckFault, Verdict};
use std::alloc::{AllocError, Allocator};
use std::io::Read;
use ulfm_lines::{read_begin, read_happening, read_line, read_look};
use ulfm_model::Why;
use ulfm_script::{HeaderKind, Input, LineEnd, RunFault, read_header};

/// The most bytes that a line may have, without its newline.
const LONGEST: usize = 8192;

/// The most lines that a trace may have.
const LAST_LINE: u32 = 5_000_000;

/// Checks the trace that the reader gives.
///
/// The first line is `ulfm-trace 1 RANKS COMMS ROUNDS`, the world's limits; each other line is one as [`ulfm_lines::read_line`] reads it.
/// There are at most 5,000,000 lines of at most 8,192 bytes, each with its newline.
///
/// At `Legal` the whole text was read. At `Illegal` the line is the first that is bad, and the text behind it counts for nothing: of it at
/// most 8 KB were read. Want of memory and an error of the reader, of whatever kind, are faults and no verdicts: the lines that were taken
/// before the one under work are a legal trace then, and at `Memory` at most 8 KB behind what was taken were read. Memory is taken for 8 KB
/// of the text, for one line of at most 8,193 bytes and for the ranks that it lists, and for what the judge keeps.
pub fn check_by<J: LineJudge<A>, A: Allocator + Copy, R: Read>(
    alloc: A,
    reader: &mut R,
) -> Result<Verdict, CheckFault>
    ensures { Checks (R.remaining reader.old) (R.remaining reader.new) result }
{
    let mut input = Input::new(alloc)?;
    check_through::<J, A, R>(alloc, &mut input, reader)
}

/// Checks a trace as [`check_by`] does, through a buffer.
fn check_through<J: LineJudge<A>, A: Allocator + Copy, R: Read>(
    alloc: A,
    input: &mut Input<A>,
    reader: &mut R,
) -> Result<Verdict, CheckFault>
    ensures { ChecksThrough (unread R.remaining input.old reader.old) (R.remaining reader.new) (pending input.new) result }
{
    let mut line = Vec::with_capacity(alloc, LONGEST + 1)?;
    let mut group = Vec::new(alloc);
    let why = Why::Text;
    let opened: Option<J> = open_judge(alloc, reader, input, &mut line)?;
    let Some(mut judge) = opened else {
        let line = 1;
        return Ok(Verdict::Illegal { line, why });
    };
    'lines: for number in 2..LAST_LINE + 2 {
        match next_line(input, reader, &mut line)? {
            LineEnd::Done => return Ok(Verdict::Legal),
            LineEnd::Cut => {
                let line = number;
                return Ok(Verdict::Illegal { line, why });
            }
            LineEnd::Newline => {}
        }
        if let Some(why) = judge_line(&mut judge, number, input.line(&line), &mut group)? {
            let line = number;
            return Ok(Verdict::Illegal { line, why });
        }
    }
    unreachable!()
}

/// Takes a line up to its newline, and keeps one byte more of it than a line may have: in the buffer, or in the vector.
#[inline(always)]
fn next_line<A: Allocator, R: Read>(
    input: &mut Input<A>,
    reader: &mut R,
    line: &mut Vec<u8, A>,
) -> Result<LineEnd, CheckFault>
    ensures { TakesText (unread R.remaining input.old reader.old) (unread R.remaining input.new reader.new) (pending input.new)
        (line_of input.new line.new.items) result }
{
    match input.next_line(reader, line, LONGEST + 1) {
        Ok(end) => Ok(end),
        Err(RunFault::Memory) => Err(CheckFault::Memory),
        // reading a line has no third fault
        Err(_) => Err(CheckFault::Read),
    }
}

/// A judge of a world of the limits in the first line, if it is a header.
fn open_judge<J: LineJudge<A>, A: Allocator, R: Read>(
    alloc: A,
    reader: &mut R,
    input: &mut Input<A>,
    line: &mut Vec<u8, A>,
) -> Result<Option<J>, CheckFault>
    ensures { OpensJudge J.Stands (unread R.remaining input.old reader.old) (unread R.remaining input.new reader.new) (pending input.new) result }
{
    match next_line(input, reader, line)? {
        LineEnd::Done => Ok(None),
        LineEnd::Cut => Ok(None),
        LineEnd::Newline => {
            let line = input.line(line);
            if line.len() > LONGEST {
                return Ok(None);
            }
            match read_header(HeaderKind::Trace, line) {
                Ok(limits) => Ok(Some(J::open(alloc, limits)?)),
                Err(_) => Ok(None),
            }
        }
    }
}

/// Judges the line of this number; where it is none of a trace, nothing is taken. It is one function for all readers, so that what it calls at
/// this one place stands in it.
#[inline(never)]
fn judge_line<J: LineJudge<A>, A: Allocator>(
    judge: &mut J,
    number: u32,
    line: &[u8],
    group: &mut Vec<u16, A>,
) -> Result<Option<Why>, AllocError>
    ensures { (now : TraceState) → J.Stands judge.old now
        → IfOk result (λ why. (next : TraceState) × JudgesLine now number line.now next why × J.Stands judge.new next) }
{
    if number > LAST_LINE {
        return Ok(Some(Why::Text));
    }
    if let Some(look) = read_look(line) {
        return judge.take(&look, &[]);
    }
    if let Some(call) = read_begin(line) {
        return judge.take(&call, &[]);
    }
    if let Some(event) = read_happening(line) {
        return judge.take(&event, &[]);
    }
    match read_line(line, group)? {
        Some(told) => judge.take(&told, group),
        None => Ok(Some(Why::Text)),
    }
}
