//! Memory that is refused: runs in heaps of all sizes that are too small.
use crate::tests::devices::lines::{count_lines, first_lines};
use crate::tests::devices::told::require;
use linked_list_allocator::LocalHeap;
use std::alloc::Global;
use std::test::Fail;
use ulfm_devices::Row;
use ulfm_devices::calls::{
    ACKNOWLEDGEMENTS_COUNT, MIGRATED, ONE_RANK, OUTPUT, REFUSALS_IN_ORDER, SCRIPT,
    SHRINKS_KEEP_ORDER,
};
use ulfm_devices::steps::CONTRIBUTION_IN_FLIGHT;
use ulfm_devices::traces::{TRACE_JUDGED_A, TRACE_JUDGED_B};
use ulfm_filters::{Filter, run_filter};

/// What a run in a heap of some bytes writes, and its status; a refusal is told.
fn run_in(
    alloc: Global,
    size: usize,
    filter: Filter,
    script: &[u8],
) -> Result<(Vec<u8>, u8), Fail> {
    let heap = LocalHeap::new(alloc, size)?;
    let mut input = script;
    let mut output = Vec::new(alloc);
    let mut errors = Vec::new(alloc);
    let status = run_filter(&heap, filter, &mut input, &mut output, &mut errors);
    let line: &[u8] = if status == 3 {
        b"ulfm: out of memory\n"
    } else {
        b""
    };
    require(errors.as_slice() == line)?;
    Ok((output, status))
}

/// So many first lines of the script with a reply of each form end so in a heap of this size, with this output.
fn require_end(alloc: Global, size: usize, lines: usize, wanted: (&[u8], u8)) -> Result<(), Fail> {
    let text = first_lines(SCRIPT.as_bytes(), lines);
    let (output, status) = run_in(alloc, size, Filter::Calls, text)?;
    require(output.as_slice() == wanted.0 && status == wanted.1)
}

/// How many calls of that script are answered in a heap of this size, before one wants memory that there isn't: the lines up to there run in
/// the same memory, and with the next line they don't. None where the whole script runs.
fn answered_in(alloc: Global, size: usize) -> Result<Option<usize>, Fail> {
    let (output, status) = run_in(alloc, size, Filter::Calls, SCRIPT.as_bytes())?;
    if status == 0 {
        require(output.as_slice() == OUTPUT.as_bytes())?;
        return Ok(None);
    }
    let calls = count_lines(&output);
    require(status == 3 && output.as_slice() == first_lines(OUTPUT.as_bytes(), calls))?;
    require_end(alloc, size, calls.wrapping_add(2), (&output, 3))?;
    if calls > 0 {
        require_end(alloc, size, calls.wrapping_add(1), (&output, 0))?;
    }
    Ok(Some(calls))
}

/// Each want of memory ends the run, behind exactly the output of the lines before the one that it came at.
#[test]
fn each_growth_is_refused(rt: HostRuntime) -> Result<(), Fail> {
    let mut furthest = 0;
    for step in 1..4000usize {
        match answered_in(rt.alloc(), step.wrapping_mul(16))? {
            Some(calls) => furthest = furthest.max(calls),
            None => return require(furthest > 5),
        }
    }
    Err(Fail::from("memory was refused at each size"))
}

/// Whether the row's bytes come in a heap of this size. If they don't, memory is told, and a beginning of them was written, of a verdict nothing.
fn comes_in(alloc: Global, size: usize, filter: Filter, row: &Row) -> Result<bool, Fail> {
    let (output, status) = run_in(alloc, size, filter, row.script.as_bytes())?;
    if status == row.status {
        require(output.as_slice() == row.output.as_bytes())?;
        return Ok(true);
    }
    let is_part = row.output.as_bytes().starts_with(output.as_slice());
    require(status == 3 && is_part && (filter != Filter::Check || output.is_empty()))?;
    Ok(false)
}

/// The row is run in a heap of each size, up to one in which its bytes come, which isn't the first.
fn refuse_each_growth(alloc: Global, filter: Filter, row: &Row) -> Result<(), Fail> {
    for step in 1..8000usize {
        if comes_in(alloc, step.wrapping_mul(16), filter, row)? {
            return require(step > 1);
        }
    }
    Err(Fail::from("memory was refused at each size"))
}

#[test]
fn scripts_are_refused_memory(rt: HostRuntime) -> Result<(), Fail> {
    for row in [
        &ONE_RANK,
        &SHRINKS_KEEP_ORDER,
        &ACKNOWLEDGEMENTS_COUNT,
        &REFUSALS_IN_ORDER,
    ] {
        refuse_each_growth(rt.alloc(), Filter::Calls, row)?;
    }
    Ok(())
}

#[test]
fn steps_and_traces_are_refused_memory(rt: HostRuntime) -> Result<(), Fail> {
    refuse_each_growth(rt.alloc(), Filter::Steps, &CONTRIBUTION_IN_FLIGHT)?;
    refuse_each_growth(rt.alloc(), Filter::Check, &TRACE_JUDGED_A)?;
    refuse_each_growth(rt.alloc(), Filter::Check, &TRACE_JUDGED_B)
}

#[test]
fn migrations_are_refused_memory(rt: HostRuntime) -> Result<(), Fail> {
    refuse_each_growth(rt.alloc(), Filter::Migrate, &MIGRATED[0])
}
