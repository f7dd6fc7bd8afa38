//! The engine that runs the text of a script, over anything that runs its lines.
ghost use Rattle.std.specs.Prelude.{◌≡◌, [], IfOk};
ghost use Rattle.std.specs.Io.KnownBytes.{Appends};
ghost use Rattle.ulfm_model.specs.Words.{MayOpen};
ghost use Rattle.ulfm_script.specs.Buffers.{outgoing, pending, waiting, unread};
ghost use Rattle.ulfm_script.specs.Ends.{EndsAlone, EndsThrough, EndsUpTo, HasRunAll, IsOpened, KnownText, Opens, RunSoFar, RunsLine, ended, line_at};
ghost use Rattle.ulfm_script.specs.Scripts.{header_at};
ghost use Rattle.ulfm_script.specs.Written.{IsBuffered};

use crate::buffers::{Input, LineEnd, Output};
use crate::fault::RunFault;
use crate::heading::Heading;
use crate::interpreter::Interpreter;
use crate::line_kind::LineKind;
use std::alloc::Allocator;
use std::io::{Read, Write};

/// The most bytes that a line may have, without its newline.
const LONGEST: usize = 64;

/// The most lines that a script may have.
const LAST_LINE: u32 = 100_000;

/// How a run ended, without what it gave.
pub fn end_of<T: Drop>(ran: Result<T, RunFault>) -> Result<(), RunFault>
    ensures { result ≡ ended ran }
{
    match ran {
        Ok(_) => Ok(()),
        Err(fault) => Err(fault),
    }
}

/// Runs the script that the reader gives on a new interpreter by this plan, writes what it prints, flushes the writer, and gives the
/// interpreter back.
///
/// The first line is a header of the interpreter's kind, with the world's limits; each other line has at most 64 bytes, and there
/// are at most 100,000 lines.
///
/// At `Ok` the whole text was read, and exactly its output was written. At `Line` the fault is the first of the text, in the order of
/// [`crate::LineKind`] within a line, or one that only running finds, and exactly the output of the lines before was written; of what
/// stands behind that line the reader gave at most 8 KB. At `Read` exactly the output of the lines that the reader gave whole was
/// written, and they have no fault. At `Memory` exactly the output of the lines before the one under work was written, and they have
/// no fault; the reader gave at most 8 KB behind what was taken of that line, and [`run_text_through`] shows which line it is. At
/// `Write` a beginning of the output was written: the writer failed, took nothing, or couldn't be flushed, also where it had to take
/// what waited at another fault. Every error of the reader or the writer is a fault, of whatever kind; none is tried again. Reader and
/// writer have buffers of 8 KB here and need none of their own.
pub fn run_text<M: Interpreter<A>, A: Allocator + Copy, R: Read, W: Write>(
    alloc: A,
    plan: M::Plan,
    reader: &mut R,
    writer: &mut W,
) -> Result<M, RunFault>
    ensures ends { EndsAlone M.lang (R.remaining reader.old) (R.remaining reader.new) (W.contents writer.old) (W.contents writer.new)
        (ended result) }
    ensures all { IfOk result (λ machine. HasRunAll M.lang (M.HasRun plan machine) (R.remaining reader.old)
        (Appends (W.contents writer.old) (W.contents writer.new))) }
{
    let mut input = Input::new(alloc)?;
    run_text_through::<M, A, R, W>(alloc, plan, &mut input, reader, writer)
}

/// Runs a script as [`run_text`] does, through a buffer of the caller's. What it holds of the reader's bytes is read first.
///
/// At `Line` and at `Memory` the buffer holds what was read and not taken. What was taken are exactly the lines that were run and whose
/// output was written, and then a part of the line under work or all of it, of whose output nothing was written. At `Read` the buffer is
/// empty; after another end nothing is said of what it holds.
pub fn run_text_through<M: Interpreter<A>, A: Allocator + Copy, R: Read, W: Write>(
    alloc: A,
    plan: M::Plan,
    input: &mut Input<A>,
    reader: &mut R,
    writer: &mut W,
) -> Result<M, RunFault>
    ensures ends { EndsThrough M.lang (unread R.remaining input.old reader.old) (R.remaining reader.new) (pending input.new)
        (W.contents writer.old) (W.contents writer.new) (ended result) }
    ensures all { IfOk result (λ machine. HasRunAll M.lang (M.HasRun plan machine) (unread R.remaining input.old reader.old)
        (Appends (W.contents writer.old) (W.contents writer.new))) }
{
    let mut output = Output::new(alloc)?;
    let fault = match run_lines::<M, A, R, W>(alloc, plan, reader, writer, input, &mut output) {
        Ok(machine) => {
            output.finish(writer)?;
            return Ok(machine);
        }
        Err(fault) => fault,
    };
    match fault {
        RunFault::Write => Err(RunFault::Write),
        other => {
            output.finish(writer)?;
            Err(other)
        }
    }
}

/// Runs a script up to its end or its first fault. What it prints may still wait in the output.
fn run_lines<M: Interpreter<A>, A: Allocator + Copy, R: Read, W: Write>(
    alloc: A,
    plan: M::Plan,
    reader: &mut R,
    writer: &mut W,
    input: &mut Input<A>,
    output: &mut Output<A>,
) -> Result<M, RunFault>
    requires { waiting output.old ≡ [] }
    ensures ends { EndsUpTo M.lang (unread R.remaining input.old reader.old) (R.remaining reader.new) (pending input.new)
        (W.contents writer.old) (outgoing W.contents output.new writer.new) (ended result) }
    ensures all { IfOk result (λ machine. HasRunAll M.lang (M.HasRun plan machine) (unread R.remaining input.old reader.old)
        (IsBuffered (W.contents writer.old) (outgoing W.contents output.new writer.new))) }
{
    let mut line = Vec::with_capacity(alloc, LONGEST + 1)?;
    let mut machine: M = open_machine(alloc, plan, reader, input, &mut line)?;
    run_opened(reader, writer, input, output, &mut machine, &mut line)?;
    Ok(machine)
}

/// Runs the lines behind the first on a machine that was opened by it.
fn run_opened<M: Interpreter<A>, A: Allocator + Copy, R: Read, W: Write>(
    reader: &mut R,
    writer: &mut W,
    input: &mut Input<A>,
    output: &mut Output<A>,
    machine: &mut M,
    line: &mut Vec<u8, A>,
) -> Result<(), RunFault>
    requires empty { waiting output.old ≡ [] }
    requires opened { (plan : M.Plan) × (known : KnownText) × IsOpened M.lang (M.HasRun plan machine.old) known
        (unread R.remaining input.old reader.old) (M.text machine.old) }
    ensures { (plan : M.Plan) (known : KnownText) → IsOpened M.lang (M.HasRun plan machine.old) known (unread R.remaining input.old reader.old)
        (M.text machine.old) → EndsUpTo M.lang known (R.remaining reader.new) (pending input.new) (W.contents writer.old)
        (outgoing W.contents output.new writer.new) result × IfOk result (λ done. HasRunAll M.lang (M.HasRun plan machine.new) known
        (IsBuffered (W.contents writer.old) (outgoing W.contents output.new writer.new))) }
{
    output.put(writer, machine.text())?;
    'lines: for number in 2..LAST_LINE + 2 {
        match input.next_line(reader, line, LONGEST + 1)? {
            LineEnd::Done => return Ok(()),
            LineEnd::Cut => {
                let kind = LineKind::Cut;
                return Err(RunFault::Line { number, kind });
            }
            LineEnd::Newline => {}
        }
        run_line(writer, output, machine, number, input.line(line))?;
    }
    unreachable!()
}

/// A machine of what the first line gives.
fn open_machine<M: Interpreter<A>, A: Allocator + Copy, R: Read>(
    alloc: A,
    plan: M::Plan,
    reader: &mut R,
    input: &mut Input<A>,
    line: &mut Vec<u8, A>,
) -> Result<M, RunFault>
    ensures { Opens M.lang (M.HasRun plan) M.text (unread R.remaining input.old reader.old) (unread R.remaining input.new reader.new)
        (pending input.new) result }
{
    match input.next_line(reader, line, LONGEST + 1)? {
        LineEnd::Done => {
            let kind = LineKind::Header;
            Err(RunFault::Line { number: 1, kind })
        }
        LineEnd::Cut => {
            let kind = LineKind::Cut;
            Err(RunFault::Line { number: 1, kind })
        }
        LineEnd::Newline => match first_line::<M, A>(input.line(line)) {
            Ok(heading) => Ok(M::open(alloc, heading, plan)?),
            Err(kind) => Err(RunFault::Line { number: 1, kind }),
        },
    }
}

/// What a first line gives, or its fault.
fn first_line<M: Interpreter<A>, A: Allocator>(line: &[u8]) -> Result<Heading, LineKind>
    ensures exact { result ≡ header_at M.lang line.now }
    ensures opens { IfOk result (λ heading. MayOpen heading.limits) }
{
    if line.len() > LONGEST {
        return Err(LineKind::Long);
    }
    M::heading(line)
}

/// Runs one line.
fn run_line<M: Interpreter<A>, A: Allocator, W: Write>(
    writer: &mut W,
    output: &mut Output<A>,
    machine: &mut M,
    number: u32,
    line: &[u8],
) -> Result<(), RunFault>
    ensures { (plan : M.Plan) (before : RunSoFar M.lang) → M.HasRun plan machine.old before.heading before.items before.out
        → RunsLine M.lang (M.HasRun plan machine.new) before (line_at M.lang before.heading.version number line.now) (outgoing W.contents output.old writer.old)
        (outgoing W.contents output.new writer.new) result }
{
    if line.len() > LONGEST {
        let kind = LineKind::Long;
        return Err(RunFault::Line { number, kind });
    }
    if number > LAST_LINE {
        let kind = LineKind::Lines;
        return Err(RunFault::Line { number, kind });
    }
    match machine.run(line)? {
        Ok(()) => output.put(writer, machine.text()),
        Err(kind) => Err(RunFault::Line { number, kind }),
    }
}
