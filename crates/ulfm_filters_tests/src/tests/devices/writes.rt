//! Writers that fail at each call in turn.
use crate::tests::devices::told::{require, run};
use std::alloc::Global;
use std::test::Fail;
use ulfm_devices::calls::SCRIPT;
use ulfm_devices::{FailureMode, LimitedWriter};
use ulfm_filters::Filter;

/// How writes fail: so many bytes are taken at a time, and a call fails in this way.
#[derive(Clone, Copy)]
pub(crate) struct Failure {
    /// How many bytes one call takes at the most.
    pub(crate) most: usize,
    /// What the call that fails answers.
    pub(crate) how: FailureMode,
}

/// A filter, what it reads, and what it writes where no device fails.
#[derive(Clone, Copy)]
pub(crate) struct Case<'a> {
    /// The filter.
    pub(crate) filter: Filter,
    /// The input.
    pub(crate) script: &'a [u8],
    /// The whole output.
    pub(crate) output: &'a [u8],
}

/// The write of this number fails, and what was taken before is a beginning of the output. False where no write has this number: then the
/// whole output was taken.
pub(crate) fn fail_write(
    alloc: Global,
    case: Case<'_>,
    failure: Failure,
    failing: u32,
) -> Result<bool, Fail> {
    let mut input = case.script;
    let mut taken = LimitedWriter::new(alloc, failure.most, failing, failure.how);
    let told = run(alloc, case.filter, &mut input, &mut taken);
    let has_failed = taken.calls >= failing;
    let is_wanted = if has_failed {
        case.output.starts_with(taken.bytes.as_slice()) && told.is_fault(b"ulfm: write failed\n")
    } else {
        taken.bytes.as_slice() == case.output && told.status < 2
    };
    require(is_wanted)?;
    Ok(has_failed)
}

/// One write after another fails.
pub(crate) fn fail_each_write(alloc: Global, case: Case<'_>, failure: Failure) -> Result<(), Fail> {
    for failing in 1..40_000u32 {
        if !fail_write(alloc, case, failure, failing)? {
            return Ok(());
        }
    }
    Err(Fail::from("a write never failed"))
}

/// One write after another fails, of writers that take one byte a call, a few, and all.
pub(crate) fn fail_all_writes(alloc: Global, case: Case<'_>, how: FailureMode) -> Result<(), Fail> {
    for most in [1, 7, 10_000] {
        fail_each_write(alloc, case, Failure { most, how })?;
    }
    Ok(())
}

/// A flush that fails is a failing write, at the end of a run and at a line fault.
#[test]
fn flush_fails(rt: HostRuntime) -> Result<(), Fail> {
    for script in [SCRIPT, "ulfm 1 1 1 1\n?\n"] {
        let mut input = script.as_bytes();
        let mut output = LimitedWriter::new(rt.alloc(), 10_000, 0, FailureMode::AtFlush);
        let told = run(rt.alloc(), Filter::Calls, &mut input, &mut output);
        require(told.is_fault(b"ulfm: write failed\n"))?;
    }
    Ok(())
}
