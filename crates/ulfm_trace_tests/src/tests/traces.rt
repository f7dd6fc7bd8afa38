//! Traces of five runs of steps, line by line, and texts made of them.
use std::alloc::{AllocError, Global};

/// A declaration between a rank's look and its contribution: the flag counts, and an error is raised.
pub(crate) const CONTRIBUTION_IN_FLIGHT: [&str; 22] = [
    "ulfm-trace 1 3 2 4",
    "call agree 2 0 00000005",
    "look 2 0",
    "call fail 2",
    "event - fail 2",
    "reply - 1 declared",
    "event 2 settle 0 0 2 flag 00000005 known 0 acked 0",
    "reply 2 2 started",
    "call agree 0 0 0000000f",
    "look 0 1",
    "event 0 settle 0 0 0 flag 0000000f known 1 acked 0",
    "reply 0 3 started",
    "call agree 1 0 00000007",
    "look 1 1",
    "event 1 settle 0 0 1 flag 00000007 known 1 acked 0",
    "reply 1 4 started",
    "call poll 0 0",
    "look 0 1",
    "reply 0 4 agreed 00000005 failed 1 raised",
    "call poll 2 0",
    "look 2 1",
    "reply 2 4 refused 1 self-failed",
];

/// The declared rank is left out before it contributes: what comes behind the first six lines of [`CONTRIBUTION_IN_FLIGHT`].
const MARK_COMES_FIRST: [&str; 16] = [
    "call agree 0 0 0000000f",
    "look 0 1",
    "event 0 settle 0 0 0 flag 0000000f known 1 acked 0",
    "reply 0 2 started",
    "call poll 0 0",
    "look 0 1",
    "event 0 mark 0 0 2 known 1",
    "reply 0 3 pending",
    "reply 2 3 refused 1 self-failed",
    "call agree 1 0 00000007",
    "look 1 1",
    "event 1 settle 0 0 1 flag 00000007 known 1 acked 0",
    "reply 1 4 started",
    "call poll 1 0",
    "look 1 1",
    "reply 1 4 agreed 00000007 failed 1 raised",
];

/// All ranks are declared, with one contribution in flight.
pub(crate) const DECISION_OF_NOBODY: [&str; 17] = [
    "ulfm-trace 1 2 1 2",
    "call agree 1 0 00000001",
    "look 1 0",
    "call fail 0",
    "event - fail 0",
    "reply - 1 declared",
    "call fail 1",
    "event - fail 1",
    "reply - 2 declared",
    "event 1 settle 0 0 1 flag 00000001 known 0 acked 0",
    "reply 1 3 started",
    "call poll 0 0",
    "look 0 2",
    "reply 0 3 refused 1 self-failed",
    "call poll 1 0",
    "look 1 2",
    "reply 1 3 refused 1 self-failed",
];

/// A decision of marks alone.
pub(crate) const MARKS_ALONE: [&str; 5] = [
    "ulfm-trace 1 2 1 2",
    "event - fail 0",
    "event - fail 1",
    "event - mark 0 0 0 known 1",
    "event - mark 0 0 1 known 2",
];

/// The communicator is revoked between two loads of a barrier's poll.
pub(crate) const REVOKED_BETWEEN_LOADS: [&str; 16] = [
    "ulfm-trace 1 2 1 2",
    "call barrier 0 0",
    "look 0 0",
    "event 0 arrive 0 0 0",
    "reply 0 1 started",
    "call barrier 1 0",
    "look 1 0",
    "event 1 arrive 0 0 1",
    "reply 1 2 started",
    "call poll 0 0",
    "look 0 0",
    "call revoke 1 0",
    "look 1 0",
    "event 1 revoke 0",
    "reply 1 3 revoked",
    "reply 0 3 refused 10 is-revoked",
];

/// A declared rank arrives behind the load that found it missing.
pub(crate) const LATE_ARRIVAL: [&str; 15] = [
    "ulfm-trace 1 2 1 2",
    "call barrier 1 0",
    "look 1 0",
    "call fail 1",
    "event - fail 1",
    "reply - 1 declared",
    "call barrier 0 0",
    "look 0 1",
    "event 0 arrive 0 0 0",
    "reply 0 2 started",
    "call poll 0 0",
    "look 0 1",
    "event 1 arrive 0 0 1",
    "reply 1 3 started",
    "reply 0 2 refused 11 proc-failed",
];

/// Flags with an upper half, and one of all digits without, whose call alone is spelled so.
pub(crate) const SIXTEEN_DIGITS: [&str; 15] = [
    "ulfm-trace 1 2 1 2",
    "call agree 0 0 000000000000000f",
    "look 0 0",
    "event 0 settle 0 0 0 flag 0000000f known 0 acked 0",
    "reply 0 1 started",
    "call agree 1 0 0000000300000007",
    "look 1 0",
    "event 1 settle 0 0 1 flag 0000000300000007 known 0 acked 0",
    "reply 1 2 started",
    "call poll 0 0",
    "look 0 0",
    "reply 0 2 agreed 00000007 failed 0 clean",
    "call poll 1 0",
    "look 1 0",
    "reply 1 2 agreed 00000007 failed 0 clean",
];

/// A shrink of the time when there were 32 context ids.
pub(crate) const THIRTY_TWO_IDS: [&str; 5] = [
    "ulfm-trace 1 1 2 2",
    "call shrink 0 0",
    "look 0 0",
    "event 0 settle 0 0 0 ctx fffffffe known 0 acked 0",
    "reply 0 1 started",
];

/// A shrink without the declared rank, and a call on what it made.
pub(crate) const SHRINK: [&str; 29] = [
    "ulfm-trace 1 3 2 4",
    "call fail 1",
    "event - fail 1",
    "reply - 1 declared",
    "call shrink 0 0",
    "look 0 1",
    "event 0 settle 0 0 0 ctx fffffffffffffffe known 1 acked 0",
    "reply 0 2 started",
    "call shrink 2 0",
    "look 2 1",
    "event 2 settle 0 0 2 ctx fffffffffffffffe known 1 acked 0",
    "reply 2 3 started",
    "call poll 0 0",
    "look 0 1",
    "event 0 mark 0 0 1 known 1",
    "call poll 2 0",
    "look 2 1",
    "event 2 spawn 1 0 0",
    "reply 2 5 shrunk 1 context 1 members 0 2",
    "reply 0 5 shrunk 1 context 1 members 0 2",
    "call get 0 1",
    "look 0 1",
    "reply 0 5 failed none",
    "call get 2 0",
    "look 2 1",
    "reply 2 5 failed 1",
    "call ack 2 0 9",
    "look 2 1",
    "reply 2 5 acked 1",
];

/// A text of these lines, each with its newline.
pub(crate) fn text_of(alloc: Global, lines: &[&str]) -> Result<Vec<u8>, AllocError> {
    let mut text = Vec::new(alloc);
    for line in lines {
        text.extend_from_slice(line.as_bytes())?;
        text.push(b'\n')?;
    }
    Ok(text)
}

/// The whole trace in which the declared rank is left out.
pub(crate) fn mark_comes_first(alloc: Global) -> Result<Vec<u8>, AllocError> {
    spliced(alloc, &CONTRIBUTION_IN_FLIGHT, 6, &MARK_COMES_FIRST, 22)
}

/// The first so many lines, then others, and then the lines from a place on.
pub(crate) fn spliced(
    alloc: Global,
    lines: &[&str],
    first: usize,
    middle: &[&str],
    from: usize,
) -> Result<Vec<u8>, AllocError> {
    let mut text = text_of(alloc, &lines[..first.min(lines.len())])?;
    text.extend_from_slice(&text_of(alloc, middle)?)?;
    text.extend_from_slice(&text_of(alloc, &lines[from.min(lines.len())..])?)?;
    Ok(text)
}
