//! What a filter gives for a text that lies in memory.
use std::alloc::Global;
use std::test::Fail;
use ulfm_devices::Row;
use ulfm_filters::{Filter, run_filter};

/// What a filter wrote and told, and its status.
#[derive(Drop)]
struct Given {
    output: Vec<u8>,
    errors: Vec<u8>,
    status: u8,
}

impl Given {
    /// Whether this was written and told, at this status.
    fn is(&self, output: &[u8], errors: &[u8], status: u8) -> bool {
        self.output.as_slice() == output
            && self.errors.as_slice() == errors
            && self.status == status
    }
}

/// What a filter gives for a text.
fn run(alloc: Global, filter: Filter, text: &[u8]) -> Given {
    let mut input = text;
    let mut output = Vec::new(alloc);
    let mut errors = Vec::new(alloc);
    let status = run_filter(alloc, filter, &mut input, &mut output, &mut errors);
    Given {
        output,
        errors,
        status,
    }
}

/// A filter writes and tells this for a text, and gives this status.
pub(crate) fn require_answer(
    alloc: Global,
    filter: Filter,
    text: &[u8],
    wanted: (&[u8], &[u8], u8),
) -> Result<(), Fail> {
    let (output, errors, status) = wanted;
    if run(alloc, filter, text).is(output, errors, status) {
        return Ok(());
    }
    Err(Fail::from("a filter gives something else"))
}

/// Each row through a filter.
pub(crate) fn run_rows(alloc: Global, filter: Filter, rows: &[Row]) -> Result<(), Fail> {
    for row in rows {
        let given = run(alloc, filter, row.script.as_bytes());
        if !given.is(row.output.as_bytes(), row.errors.as_bytes(), row.status) {
            return Err(Fail::from(row.name));
        }
    }
    Ok(())
}

/// Each row, migrated and run, prints what it prints; a fault of its lines is the migration's, and one of the second version is told there.
pub(crate) fn migrate_rows(alloc: Global, rows: &[Row]) -> Result<(), Fail> {
    for row in rows {
        let written = run(alloc, Filter::Migrate, row.script.as_bytes());
        if row.script.as_bytes().starts_with(b"ulfm 2 ") {
            if !written.is(b"", b"ulfm: line 1: header\n", 1) {
                return Err(Fail::from(row.name));
            }
            continue;
        }
        let told = written.errors.as_slice() == row.errors.as_bytes()
            && written.status == row.status;
        let is_script = !written.output.is_empty();
        if !told
            || is_script
                && !run(alloc, Filter::Calls, &written.output).is(row.output.as_bytes(), b"", 0)
        {
            return Err(Fail::from(row.name));
        }
    }
    Ok(())
}
