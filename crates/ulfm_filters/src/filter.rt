//! What the program does from its input to its output.
ghost use Rattle.std.specs.Prelude.{◌≡◌, ◌≤◌};
ghost use Rattle.ulfm_filters.specs.Notes.{TellsEnd, TellsVerdict};
ghost use Rattle.ulfm_filters.specs.Statuses.{CheckedTelling, CheckedWith, Filtered, FilteredTelling, PrintsVerdict, status_of, verdict_status};

use crate::telling::{print_text, tell_fault};
use crate::{EchoLines, migrate};
use std::alloc::Allocator;
use std::io::{Read, Write};
use ulfm_run::{WordsMachine, run_calls, run_steps};
use ulfm_script::{RunFault, end_of, run_text};
use ulfm_trace::{CheckFault, Verdict, check, verdict_line};

/// What is done from an input to an output.
#[derive(Clone, Copy, Debug, PartialEq, Eq)]
pub enum Filter {
    /// A script of calls is run.
    Calls,
    /// A script of calls is run, and each call printed before its reply.
    Echoed,
    /// A script of single steps is run.
    Steps,
    /// A script of calls of the first version is written as one of the second.
    Migrate,
    /// A trace is judged.
    Check,
}

/// Does this from the input to the output, and gives the exit status: 0 at success, 1 for a line fault or an illegal trace, 3 where memory,
/// reading or writing failed. What went wrong is told on `errors` in one line; faults of `errors` itself are passed over.
///
/// Over the script `ulfm 1 1 1 2`, `agree 0 0 000000ff`, `poll 0 0` it writes `started` and `agreed 000000ff failed 0 clean`, and gives 0.
pub fn run_filter<A: Allocator + Copy + Drop, R: Read, W: Write, E: Write>(
    alloc: A,
    filter: Filter,
    input: &mut R,
    output: &mut W,
    errors: &mut E,
) -> u8
    ensures status { result ≤ 3 }
    ensures filtered { Filtered filter (R.remaining input.old) (R.remaining input.new) (W.contents output.old) (W.contents output.new) result }
    ensures told { FilteredTelling filter
        (record { input = R.remaining input.old; output = W.contents output.old; errors = E.contents errors.old })
        (record { input = R.remaining input.new; output = W.contents output.new; errors = E.contents errors.new }) result }
{
    match filter {
        Filter::Calls => tell_end(run_calls(alloc, input, output), errors),
        Filter::Echoed => tell_end(
            end_of(run_text::<EchoLines<WordsMachine<A>, A>, A, R, W>(alloc, (), input, output)),
            errors,
        ),
        Filter::Steps => tell_end(run_steps(alloc, input, output), errors),
        Filter::Migrate => tell_end(migrate(alloc, input, output), errors),
        Filter::Check => run_check(alloc, input, output, errors),
    }
}

/// Tells how a run ended, and gives its status.
fn tell_end<E: Write>(end: Result<(), RunFault>, errors: &mut E) -> u8
    ensures status { result ≡ status_of end }
    ensures told { TellsEnd end (E.contents errors.old) (E.contents errors.new) }
{
    match end {
        Ok(()) => 0,
        Err(fault) => tell_fault(fault, errors),
    }
}

/// Judges the trace of the input, and prints the verdict.
fn run_check<A: Allocator + Copy + Drop, R: Read, W: Write, E: Write>(
    alloc: A,
    input: &mut R,
    output: &mut W,
    errors: &mut E,
) -> u8
    ensures checked { CheckedWith (R.remaining input.old) (R.remaining input.new) (W.contents output.old) (W.contents output.new) result }
    ensures told { CheckedTelling
        (record { input = R.remaining input.old; output = W.contents output.old; errors = E.contents errors.old })
        (record { input = R.remaining input.new; output = W.contents output.new; errors = E.contents errors.new }) result }
{
    match check(alloc, input) {
        Ok(verdict) => print_verdict(alloc, verdict, output, errors),
        Err(CheckFault::Memory) => tell_fault(RunFault::Memory, errors),
        Err(CheckFault::Read) => tell_fault(RunFault::Read, errors),
    }
}

/// Prints a verdict, and gives its status, or that of a fault.
#[tactic(auto, using(crate::proofs::Ends::none_told))]
fn print_verdict<A: Allocator, W: Write, E: Write>(
    alloc: A,
    verdict: Verdict,
    output: &mut W,
    errors: &mut E,
) -> u8
    ensures prints { PrintsVerdict verdict (W.contents output.old) (W.contents output.new) result }
    ensures told { TellsVerdict (verdict_status verdict) result (E.contents errors.old) (E.contents errors.new) }
{
    let Ok(line) = verdict_line(alloc, verdict) else {
        return tell_fault(RunFault::Memory, errors);
    };
    let status = print_text(&line, output, errors);
    match verdict {
        Verdict::Illegal { .. } if status == 0 => 1,
        _ => status,
    }
}
