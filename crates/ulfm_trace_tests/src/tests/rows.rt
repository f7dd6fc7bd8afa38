//! Traces that were worked out by hand, and what changes of them give.
use crate::tests::tested::{check, is_legal};
use crate::tests::traces::{
    CONTRIBUTION_IN_FLIGHT, DECISION_OF_NOBODY, LATE_ARRIVAL, MARKS_ALONE, REVOKED_BETWEEN_LOADS,
    SHRINK, SIXTEEN_DIGITS, THIRTY_TWO_IDS, mark_comes_first, spliced, text_of,
};
use std::alloc::AllocError;
use std::test::Fail;
use ulfm_model::Why;
use ulfm_trace::{CheckFault, Verdict};

pub(crate) fn illegal(line: u32, why: Why) -> Result<Verdict, CheckFault> {
    Ok(Verdict::Illegal { line, why })
}

/// A line in place of the one of this number.
fn replaced(
    rt: &HostRuntime,
    lines: &[&str],
    number: usize,
    line: &str,
) -> Result<Vec<u8>, AllocError> {
    spliced(rt.alloc(), lines, number.saturating_sub(1), &[line], number)
}

#[test]
fn traces_of_steps_are_legal(rt: HostRuntime) -> Result<(), Fail> {
    let all: [&[&str]; 7] = [
        &CONTRIBUTION_IN_FLIGHT,
        &DECISION_OF_NOBODY,
        &MARKS_ALONE,
        &REVOKED_BETWEEN_LOADS,
        &LATE_ARRIVAL,
        &SHRINK,
        &SIXTEEN_DIGITS,
    ];
    for lines in all {
        is_legal(&rt, &text_of(rt.alloc(), lines)?)?;
    }
    is_legal(&rt, &mark_comes_first(rt.alloc())?)
}

/// A shrink offers all 64 context ids that its rank doesn't hold.
#[test]
fn ids_of_another_width(rt: HostRuntime) -> Result<(), Fail> {
    let lines = &THIRTY_TWO_IDS;
    let text = text_of(rt.alloc(), lines)?;
    assert_eq!(rt; check(&rt, &text), illegal(5, Why::Reply));
    let all = "event 0 settle 0 0 0 ctx fffffffffffffffe known 0 acked 0";
    is_legal(&rt, &replaced(&rt, lines, 4, all)?)
}

/// The trace of a contribution in flight, and the same with another flag in its line 19; a text without a line.
#[test]
fn trace_judged(rt: HostRuntime) -> Result<(), Fail> {
    let lines = &CONTRIBUTION_IN_FLIGHT;
    is_legal(&rt, &text_of(rt.alloc(), lines)?)?;
    let text = replaced(&rt, lines, 19, "reply 0 4 agreed 00000007 failed 1 raised")?;
    assert_eq!(rt; check(&rt, &text), illegal(19, Why::Reply));
    assert_eq!(rt; check(&rt, b""), illegal(1, Why::Text));
    Ok(())
}

#[test]
fn contribution_in_flight_changed(rt: HostRuntime) -> Result<(), Fail> {
    let lines = &CONTRIBUTION_IN_FLIGHT;
    let changes = [
        (10, "look 0 0", 10, Why::Look),
        (
            11,
            "event 0 settle 0 0 0 flag 0000000f known 0 acked 0",
            12,
            Why::Reply,
        ),
        (
            11,
            "event 1 settle 0 0 0 flag 0000000f known 1 acked 0",
            11,
            Why::Own,
        ),
        (12, "reply 0 2 started", 12, Why::Reply),
        (12, "reply 0 4 started", 12, Why::Reply),
    ];
    for (number, line, bad, why) in changes {
        let text = replaced(&rt, lines, number, line)?;
        assert_eq!(rt; check(&rt, &text), illegal(bad, why), "{line}");
    }
    let twice = spliced(rt.alloc(), lines, 10, &["look 0 1"], 10)?;
    assert_eq!(rt; check(&rt, &twice), illegal(11, Why::Look));
    let marked = spliced(rt.alloc(), lines, 12, &["event - mark 0 0 1 known 1"], 12)?;
    assert_eq!(rt; check(&rt, &marked), illegal(13, Why::Event));
    let without = spliced(rt.alloc(), lines, 8, &[], 9)?;
    assert_eq!(rt; check(&rt, &without), illegal(9, Why::Call));
    let mut cut = text_of(rt.alloc(), lines)?;
    cut.pop();
    assert_eq!(rt; check(&rt, &cut), illegal(22, Why::Text));
    Ok(())
}

/// Whole first lines of a legal trace are one too.
#[test]
fn first_lines_are_legal(rt: HostRuntime) -> Result<(), Fail> {
    for count in 1..=22 {
        let text = spliced(rt.alloc(), &CONTRIBUTION_IN_FLIGHT, count, &[], 22)?;
        assert_eq!(rt; check(&rt, &text), Ok(Verdict::Legal), "{count}");
    }
    Ok(())
}

#[test]
fn marks_alone_changed(rt: HostRuntime) -> Result<(), Fail> {
    let text = replaced(&rt, &MARKS_ALONE, 5, "event - mark 0 0 1 known 1")?;
    assert_eq!(rt; check(&rt, &text), illegal(5, Why::Event));
    Ok(())
}
