// Scripts of calls and of steps, run from a reader to a writer: what a user of this crate calls.
ghost use Rattle.std.specs.Prelude.{◌<◌, IfOk};
ghost use Rattle.ulfm_script.specs.{Ends.{EndsAlone, ended}, Runs.{RunsBuffered}};
ghost use Rattle.ulfm_run.specs.{FailingScripts.{RunsFailing, failing_scripts}, StepScripts.{RunsSteps}};

use crate::job::WordsMachine;
use crate::{Failing, StepLines, StepTable, run_failing_script};
use std::alloc::Allocator;
use std::io::{Read, Write};
use ulfm_script::{RunFault, end_of, run_script, run_text};

/// Runs the call script that the reader gives over the words of a new world, writes a line for each call, and flushes the writer once.
///
/// The first line is `ulfm 1 RANKS COMMS ROUNDS`, the world's limits; each other line is a call as `read_call` reads
/// it, and gives one line as `print_reply` prints it. Want of memory is never printed as a reply.
///
/// At `Ok` the whole text was read, and exactly its output was written. At `Line` the fault is the first of the text, in the
/// order of `LineKind` within a line, and exactly the output of the lines before was written; of what stands behind that line the
/// reader gave at most 8 KB. At `Read` exactly the output of the lines that the reader gave whole was written, and they have no
/// fault. At `Memory`, which is no reply, exactly the output of the lines before the one under work was written, and they have no
/// fault; the reader gave at most 8 KB behind what was taken of that line. At `Write` a beginning of the output was written: the
/// writer failed, took nothing, or couldn't be flushed, also where it had to take what waited at another fault. Every error of
/// the reader or the writer is a fault, of whatever kind; none is tried again. Reader and writer have buffers of 8 KB here and
/// need none of their own.
///
/// ```
/// let mut script = b"ulfm 1 1 1 2\nagree 0 0 000000ff\npoll 0 0\n".as_slice();
/// let mut output = Vec::new(alloc);
/// assert!(rt; run_calls(alloc, &mut script, &mut output).is_ok());
/// assert!(rt; output.as_slice() == b"started\nagreed 000000ff failed 0 clean\n".as_slice());
/// ```
pub fn run_calls<A: Allocator + Copy + Drop, R: Read, W: Write>(
    alloc: A,
    reader: &mut R,
    writer: &mut W,
) -> Result<(), RunFault>
    ensures { RunsBuffered (R.remaining reader.old) (R.remaining reader.new) (W.contents writer.old) (W.contents writer.new) result }
{
    run_script::<WordsMachine<A>, A, R, W>(alloc, reader, writer)
}

/// Runs the script of single steps that the reader gives over the words of a new world, writes a legal trace that follows it, and flushes
/// the writer once.
///
/// The first line is `ulfm-steps 1 RANKS COMMS ROUNDS`, the world's limits; each other line is one that `read_step_line` reads, and gives its
/// piece of the trace: the lines of calls that begin, looks that end, events, and replies with the number of events that they rest on. Want of
/// memory is never printed as a reply.
///
/// What is written at `Ok` and at each fault is told at [`run_calls`]; there is the fault `Open` besides, where a line
/// begins a call of a rank that has one under way.
///
/// ```
/// let mut script = b"ulfm-steps 1 1 1 2\ncall isrevoked 0 0\nfinish 0\n".as_slice();
/// let mut output = Vec::new(alloc);
/// assert!(rt; run_steps(alloc, &mut script, &mut output).is_ok());
/// let trace = b"ulfm-trace 1 1 1 2\ncall isrevoked 0 0\nlook 0 0\nreply 0 0 no\n".as_slice();
/// assert!(rt; output.as_slice() == trace);
/// ```
pub fn run_steps<A: Allocator + Copy + Drop, R: Read, W: Write>(
    alloc: A,
    reader: &mut R,
    writer: &mut W,
) -> Result<(), RunFault>
    ensures { RunsSteps (R.remaining reader.old) (R.remaining reader.new) (W.contents writer.old) (W.contents writer.new) result }
{
    end_of(run_text::<StepLines<StepTable<A>, A>, A, R, W>(alloc, (), reader, writer))
}

/// Runs a script as [`run_steps`] does, and declares a rank failed, whole, as the outside does, right behind this atomic step of the script's
/// lines, counted from 1, and all lines of the trace that the step tells. For 0 it comes right behind the header; where fewer steps are made there
/// is no such declaration. `rank` is one that a script can name; one that the world doesn't have is answered so.
///
/// At `Ok` it gives the number of steps that the script's lines made; those of this declaration and of the script's `fail` lines aren't counted.
/// The trace is legal, and follows the script but for the two or three lines of this declaration, which it has exactly where no fewer steps were
/// made. It has no more events of ranks than the number says, no more before the declaration than `at`, and no more behind it than the other
/// steps. At a fault what was written is as by [`run_steps`], but for this declaration.
///
/// The script of `examples/contribution_in_flight.steps` makes 29 steps: with 1000 for `at` its trace is what [`run_steps`] writes, and the
/// answer is `Ok(20)`.
pub fn run_steps_failing<A: Allocator + Copy + Drop, R: Read, W: Write>(
    alloc: A,
    reader: &mut R,
    writer: &mut W,
    at: u32,
    rank: u16,
) -> Result<u32, RunFault>
    requires { rank < 1024 }
    ensures ends { EndsAlone failing_scripts (R.remaining reader.old) (R.remaining reader.new) (W.contents writer.old) (W.contents writer.new)
        (ended result) }
    ensures fails { IfOk result (λ number. RunsFailing at rank number (R.remaining reader.old) (W.contents writer.old) (W.contents writer.new)) }
{
    run_failing_script::<StepTable<A>, A, R, W>(alloc, Failing { at, rank }, reader, writer)
}
