//! An outcome confirmed: its script run by the step engine, and what became of the ranks read off the trace.
ghost use Rattle.std.specs.Prelude.{◌≡◌, ◌↔◌, IfOk, IfSome, IsTrue, map, true};
ghost use Rattle.ulfm_explore.specs.{Readings.{AreRows}, Shows.{Runs, Shows}, Views.{row_of}};

use crate::reading::read_row;
use std::alloc::{AllocError, Allocator};
use ulfm_run::run_steps;
use ulfm_schedules::{Program, Row};
use ulfm_script::RunFault;

/// A script that the step engine ran to its end, with its trace, and what became of the ranks in that.
#[derive(Drop)]
pub struct Shown<A: Allocator> {
    /// By rank, what became of it, as it was read off the trace.
    pub rows: Vec<Row<A>, A>,
    /// The script.
    pub script: Vec<u8, A>,
    /// The legal trace that the engine wrote for it.
    pub trace: Vec<u8, A>,
    /// Who called each declaration, in order: a rank, or another number for the outside.
    pub callers: Vec<u8, A>,
}

/// The trace of a script, by the step engine; none where it doesn't take the script to its end.
#[tactic(auto, using(crate::proofs::Confirmed::ran))]
fn trace_of<A: Allocator + Copy + Drop>(
    alloc: A,
    script: &[u8],
) -> Result<Option<Vec<u8, A>>, AllocError>
    ensures { IfOk result (λ ran. IfSome ran (λ trace. Runs script.now trace.items)) }
{
    let mut trace = Vec::new(alloc);
    let mut left = script;
    match run_steps(alloc, &mut left, &mut trace) {
        Ok(()) => Ok(Some(trace)),
        // (a vector that is written to fails where memory is refused, and nowhere else)
        Err(RunFault::Memory | RunFault::Write) => Err(AllocError),
        Err(_) => Ok(None),
    }
}

/// The rows of all ranks in a trace; none where a call in it isn't that of its rank's program, or where a rank isn't at rest, if that is asked for.
fn read_rows<A: Allocator + Copy + Drop>(
    alloc: A,
    program: &Program<A>,
    callers: &[u8],
    trace: &[u8],
    at_rest: bool,
) -> Result<Option<Vec<Row<A>, A>>, AllocError>
    ensures { IfOk result (λ found. IfSome found (λ rows. AreRows program.now callers.now trace.now at_rest (map row_of rows.items))) }
{
    let mut rows = Vec::new(alloc);
    for rank in 0..program.limits.ranks {
        match read_row(alloc, program, callers, trace, at_rest, rank)? {
            Some(row) => rows.push(row)?,
            None => return Ok(None),
        }
    }
    Ok(Some(rows))
}

/// Runs a script by the step engine, and reads off its trace what became of the ranks; none where the engine doesn't take the script, or where
/// a call in it isn't that of the program.
///
/// `callers` has who called each declaration of the script, in order; 255 for the outside.
pub fn follow<A: Allocator + Copy + Drop>(
    alloc: A,
    program: &Program<A>,
    script: Vec<u8, A>,
    callers: Vec<u8, A>,
    at_rest: bool,
) -> Result<Option<Shown<A>>, AllocError>
    ensures script { IfOk result (λ found. IfSome found (λ shown. shown.script.items ≡ script.items)) }
    ensures runs { IfOk result (λ found. IfSome found (λ shown. Runs shown.script.items shown.trace.items)) }
    ensures rows { IfOk result (λ found. IfSome found
        (λ shown. AreRows program.now shown.callers.items shown.trace.items at_rest (map row_of shown.rows.items))) }
{
    let Some(trace) = trace_of(alloc, &script)? else {
        return Ok(None);
    };
    match read_rows(alloc, program, &callers, &trace, at_rest)? {
        Some(rows) => Ok(Some(Shown {
            rows,
            script,
            trace,
            callers,
        })),
        None => Ok(None),
    }
}

/// An outcome by its script: what became of the ranks where each is at rest at the end, as [`follow`] reads it.
pub fn show<A: Allocator + Copy + Drop>(
    alloc: A,
    program: &Program<A>,
    script: Vec<u8, A>,
    callers: Vec<u8, A>,
) -> Result<Option<Shown<A>>, AllocError>
    ensures script { IfOk result (λ found. IfSome found (λ shown. shown.script.items ≡ script.items)) }
    ensures shows { IfOk result (λ found. IfSome found
        (λ shown. Shows program.now (map row_of shown.rows.items) shown.script.items shown.trace.items shown.callers.items)) }
{
    follow(alloc, program, script, callers, true)
}

/// Whether two rows say the same.
fn is_same<A: Allocator>(first: &Row<A>, second: &Row<A>) -> bool
    ensures { IsTrue result ↔ row_of first.now ≡ row_of second.now }
{
    first.fate == second.fate && first.noted.as_slice() == second.noted.as_slice()
}

/// Whether rows say the same, one by one.
pub fn are_same<A: Allocator>(first: &[Row<A>], second: &[Row<A>]) -> bool
    ensures { IsTrue result ↔ map row_of first.now ≡ map row_of second.now }
{
    if first.len() != second.len() {
        return false;
    }
    for (i, row) in first.iter().enumerate() {
        if !is_same(row, &second[i]) {
            return false;
        }
    }
    true
}
