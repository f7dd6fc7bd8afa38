//! The worked rows.
use crate::tests::filtered::{migrate_rows, run_rows};
use std::test::Fail;
use ulfm_devices::{Row, calls, steps, traces};
use ulfm_filters::Filter;

/// Each filter with its rows.
#[test]
fn worked_rows(rt: HostRuntime) -> Result<(), Fail> {
    let filters: [(Filter, &[Row]); 4] = [
        (Filter::Calls, &calls::ROWS),
        (Filter::Migrate, &calls::MIGRATED),
        (Filter::Steps, &steps::STEP_ROWS),
        (Filter::Check, &traces::TRACE_ROWS),
    ];
    for (filter, rows) in filters {
        run_rows(rt.alloc(), filter, rows)?;
    }
    Ok(())
}

/// Each row of a script of calls, migrated, prints what it printed.
#[test]
fn rows_both_ways(rt: HostRuntime) -> Result<(), Fail> {
    migrate_rows(rt.alloc(), &calls::ROWS)
}
