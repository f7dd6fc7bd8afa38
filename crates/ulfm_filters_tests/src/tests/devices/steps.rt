//! Scripts of single steps, traces, and a migration, over devices that fail.
use crate::tests::devices::lines::{given, whole_lines};
use crate::tests::devices::told::{require, run};
use crate::tests::devices::writes::{Case, fail_all_writes};
use std::alloc::Global;
use std::test::Fail;
use ulfm_devices::calls::MIGRATED;
use ulfm_devices::steps::CONTRIBUTION_IN_FLIGHT;
use ulfm_devices::traces::TRACE_JUDGED_B;
use ulfm_devices::{FailureMode, Pieces, Row};
use ulfm_filters::Filter;

/// What is written for whole lines of a script before a fault of the reader, or for a trace: nothing.
fn written(alloc: Global, filter: Filter, text: &[u8]) -> Result<Vec<u8>, Fail> {
    let mut output = Vec::new(alloc);
    let lines = whole_lines(text);
    if filter == Filter::Check || lines.is_empty() {
        return Ok(output);
    }
    let mut input = lines;
    let told = run(alloc, filter, &mut input, &mut output);
    require(told.status == 0)?;
    Ok(output)
}

/// The read of this number fails. Of a script what the lines that were given whole print was written, of a trace nothing. False where no read has
/// this number: then the whole output was written.
fn fail_read(
    alloc: Global,
    filter: Filter,
    row: &Row,
    most: usize,
    failing: u32,
) -> Result<bool, Fail> {
    let script = row.script.as_bytes();
    let mut input = Pieces::new(script, most, failing);
    let mut output = Vec::new(alloc);
    let told = run(alloc, filter, &mut input, &mut output);
    if input.calls < failing {
        require(output.as_slice() == row.output.as_bytes())?;
        return Ok(false);
    }
    let wanted = written(alloc, filter, given(script, input.text))?;
    require(output == wanted && told.is_fault(b"ulfm: read failed\n"))?;
    Ok(true)
}

/// One read after another fails.
fn fail_each_read(alloc: Global, filter: Filter, row: &Row, most: usize) -> Result<(), Fail> {
    for failing in 1..20_000u32 {
        if !fail_read(alloc, filter, row, most, failing)? {
            return Ok(());
        }
    }
    Err(Fail::from("a read never failed"))
}

#[test]
fn each_read_fails(rt: HostRuntime) -> Result<(), Fail> {
    for most in [1, 7, 10_000] {
        fail_each_read(rt.alloc(), Filter::Steps, &CONTRIBUTION_IN_FLIGHT, most)?;
        fail_each_read(rt.alloc(), Filter::Check, &TRACE_JUDGED_B, most)?;
        fail_each_read(rt.alloc(), Filter::Migrate, &MIGRATED[0], most)?;
    }
    Ok(())
}

/// One write after another fails, and what was taken before is a beginning of the output.
fn fail_writes_of(alloc: Global, filter: Filter, row: &Row) -> Result<(), Fail> {
    let case = Case {
        filter,
        script: row.script.as_bytes(),
        output: row.output.as_bytes(),
    };
    fail_all_writes(alloc, case, FailureMode::ByError)?;
    fail_all_writes(alloc, case, FailureMode::ByNothing)
}

#[test]
fn each_write_fails(rt: HostRuntime) -> Result<(), Fail> {
    fail_writes_of(rt.alloc(), Filter::Steps, &CONTRIBUTION_IN_FLIGHT)?;
    fail_writes_of(rt.alloc(), Filter::Check, &TRACE_JUDGED_B)?;
    fail_writes_of(rt.alloc(), Filter::Migrate, &MIGRATED[0])
}
