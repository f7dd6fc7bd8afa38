//! Scripts of calls over devices that fail.
use crate::tests::devices::lines::{count_lines, first_lines, given};
use crate::tests::devices::told::{require, run};
use crate::tests::devices::writes::{Case, Failure, fail_all_writes, fail_each_write, fail_write};
use std::alloc::{AllocError, Global};
use std::test::Fail;
use ulfm_devices::calls::{OUTPUT, SCRIPT};
use ulfm_devices::{FailureMode, Pieces};
use ulfm_filters::Filter;

/// The bytes that a buffer of a run holds.
const BUFFER: u32 = 8192;

/// The script with a reply of each form.
fn short_case() -> Case<'static> {
    Case {
        filter: Filter::Calls,
        script: SCRIPT.as_bytes(),
        output: OUTPUT.as_bytes(),
    }
}

/// A script and its output, both a little longer than the buffers that they go through.
fn long_texts(alloc: Global) -> Result<(Vec<u8>, Vec<u8>), AllocError> {
    let mut script = Vec::from_slice(alloc, b"ulfm 1 1 1 1\n")?;
    let mut output = Vec::new(alloc);
    for _ in 0..440 {
        script.extend_from_slice(b"isrevoked 1023 255\n")?;
        output.extend_from_slice(b"refused 13 no-such-rank\n")?;
    }
    Ok((script, output))
}

/// The read of this number fails, and the output is that of the lines that were given whole before. False where no read has this number:
/// then the whole output was written.
fn fail_read(alloc: Global, case: Case<'_>, most: usize, failing: u32) -> Result<bool, Fail> {
    let mut input = Pieces::new(case.script, most, failing);
    let mut output = Vec::new(alloc);
    let told = run(alloc, Filter::Calls, &mut input, &mut output);
    let has_failed = input.calls >= failing;
    let is_wanted = if has_failed {
        let calls = count_lines(given(case.script, input.text)).saturating_sub(1);
        output.as_slice() == first_lines(case.output, calls)
            && told.is_fault(b"ulfm: read failed\n")
    } else {
        output.as_slice() == case.output && told.status == 0
    };
    require(is_wanted)?;
    Ok(has_failed)
}

/// One read after another fails, from this one on.
fn fail_reads_from(alloc: Global, case: Case<'_>, most: usize, first: u32) -> Result<(), Fail> {
    for failing in first..20_000u32 {
        if !fail_read(alloc, case, most, failing)? {
            return Ok(());
        }
    }
    Err(Fail::from("a read never failed"))
}

/// Of the long script the reads about the end of the first buffer fail, and those behind it.
#[test]
fn each_read_fails(rt: HostRuntime) -> Result<(), Fail> {
    let alloc = rt.alloc();
    for most in [1, 7, 10_000] {
        fail_reads_from(alloc, short_case(), most, 1)?;
    }
    let (script, output) = long_texts(alloc)?;
    let long = Case {
        filter: Filter::Calls,
        script: &script,
        output: &output,
    };
    fail_reads_from(alloc, long, 7, BUFFER / 7 - 2)?;
    fail_reads_from(alloc, long, 10_000, 1)
}

/// Of a long output the first writes of 7 bytes fail in this way, those about the end of the first buffer, and each of writes that take all.
fn fail_long_writes(alloc: Global, long: Case<'_>, how: FailureMode) -> Result<(), Fail> {
    let all = Failure { most: 10_000, how };
    fail_each_write(alloc, long, all)?;
    let failure = Failure { most: 7, how };
    let end = BUFFER / 7;
    for failing in [1, 2, end - 1, end, end + 1, end + 2] {
        require(fail_write(alloc, long, failure, failing)?)?;
    }
    Ok(())
}

#[test]
fn each_write_fails(rt: HostRuntime) -> Result<(), Fail> {
    let (script, output) = long_texts(rt.alloc())?;
    let long = Case {
        filter: Filter::Calls,
        script: &script,
        output: &output,
    };
    for how in [
        FailureMode::ByError,
        FailureMode::ByInterruption,
        FailureMode::ByNothing,
    ] {
        fail_all_writes(rt.alloc(), short_case(), how)?;
        fail_long_writes(rt.alloc(), long, how)?;
    }
    Ok(())
}
