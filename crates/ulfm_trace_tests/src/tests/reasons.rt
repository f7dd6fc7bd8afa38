//! Traces whose last line is bad, for each reason, and traces with every reply.
use crate::tests::rows::illegal;
use crate::tests::tested::{check, is_legal};
use crate::tests::traces::text_of;
use std::alloc::AllocGlobal;
use std::process::Abort;
use std::test::Fail;
use ulfm_model::Why;

/// The header of the world that the bad traces are of.
const HEADER: &str = "ulfm-trace 1 2 1 2";

/// Last lines that aren't of the grammar.
const NO_LINE: [&[&str]; 26] = [
    &[""],
    &["ulfm-trace 1 2 1 2"],
    &["look 0 0 "],
    &[" look 0 0"],
    &["look  0 0"],
    &["look 0 0\r"],
    &["look 00 0"],
    &["look 1024 0"],
    &["look - 0"],
    &["call"],
    &["call fail 1024"],
    &["call get 0 256"],
    &["call agree 0 0 0000000F"],
    &["call agree 0 0 00000000f"],
    &["event - fail"],
    &["event 0 settle 0 0 0 flag 0000000f known 0"],
    &["event 0 settle 0 0 0 mask fffffffffffffffe known 0 acked 0"],
    &["event 0 settle 0 0 0 flag 000000000000000f known 0 acked 0"],
    &["event 0 settle 0 0 0 ctx 00000000fffffffe known 0 acked 0"],
    &["event 0 mark 256 0 0 known 1"],
    &["reply 0 10000000 started"],
    &["reply 0 0 failed"],
    &["reply 0 0 agreed 000000000000000f failed 0 clean"],
    &["reply 0 0 shrunk 1 context 1 members"],
    &["reply 0 0 refused 1 busy"],
    &[
        "call get 0 0",
        "look 0 0",
        "reply 0 0 refused 14 out-of-memory",
    ],
];

/// Calls of who has one open, and lines of who has none.
const NO_CALL: [&[&str]; 6] = [
    &["call get 0 0", "call get 0 0"],
    &["call fail 0", "call fail 1"],
    &["look 0 0"],
    &["reply 0 0 started"],
    &["reply - 0 declared"],
    &["call get 0 0", "reply 1 0 shrunk 1 context 300 members 0"],
];

/// Looks that find too much, come twice or aren't due.
const NO_LOOK: [&[&str]; 4] = [
    &["call get 0 0", "look 0 1"],
    &["call get 0 0", "look 0 0", "look 0 0"],
    &["call get 5 0", "look 5 0"],
    &[
        "event - fail 0",
        "call get 0 0",
        "look 0 1",
        "reply 0 1 refused 1 self-failed",
        "call get 0 0",
        "look 0 1",
    ],
];

/// Events that can't come next.
const NO_EVENT: [&[&str]; 17] = [
    &["event - fail 2"],
    &["event - fail 0", "event - fail 0"],
    &["event 0 fail 5"],
    &["event - settle 1 0 0 flag 00000001 known 0 acked 0"],
    &["event - settle 0 2 0 flag 00000001 known 0 acked 0"],
    &["event - settle 0 0 2 flag 00000001 known 0 acked 0"],
    &["event - settle 0 0 0 flag 00000001 known 1 acked 0"],
    &["event - settle 0 0 0 flag 00000001 known 0 acked 1"],
    &["event - fail 0", "event - mark 0 0 0 known 0"],
    &["event - mark 0 0 0 known 1"],
    &["event - mark 0 0 0 known 1025"],
    &["event - arrive 0 0 0", "event - arrive 0 0 0"],
    &["event - arrive 0 2 0"],
    &["event - revoke 0", "event - revoke 0"],
    &["event - revoke 1"],
    &["event - spawn 1 0 0"],
    &["event 0 settle 0 0 0 flag 00000001 known 2000 acked 0"],
];

/// Events that their caller may not add.
const NOT_OWN: [&[&str]; 9] = [
    &["event 0 revoke 0"],
    &["call revoke 0 0", "event 0 revoke 0"],
    &["call get 0 0", "look 0 0", "event 0 revoke 0"],
    &["call agree 0 0 00000001", "look 0 0", "event 0 fail 1"],
    &[
        "call agree 0 0 00000001",
        "look 0 0",
        "event 0 arrive 0 0 0",
    ],
    &["call barrier 0 0", "look 0 0", "event 0 arrive 0 1 0"],
    &["call agree 5 0 00000001", "event 5 revoke 0"],
    &[
        "event - fail 0",
        "call revoke 0 0",
        "look 0 1",
        "event 0 revoke 0",
    ],
    &[
        "call poll 0 0",
        "look 0 0",
        "event - fail 1",
        "event 0 mark 0 0 1 known 1",
    ],
];

/// Replies that don't answer.
const NO_REPLY: [&[&str]; 14] = [
    &["call get 0 0", "reply 0 0 failed none"],
    &["call get 0 0", "look 0 0", "reply 0 1 failed none"],
    &[
        "event - fail 1",
        "call get 0 0",
        "look 0 1",
        "reply 0 0 failed none",
    ],
    &[
        "event - fail 1",
        "call get 0 0",
        "look 0 1",
        "reply 0 1 failed none",
    ],
    &[
        "event - fail 1",
        "call get 0 0",
        "look 0 1",
        "reply 0 1 failed 0",
    ],
    &[
        "call get 0 0",
        "look 0 0",
        "event - fail 1",
        "reply 0 1 failed 1",
    ],
    &["call get 0 0", "look 0 0", "reply 0 0 freed"],
    &["call ack 0 0 1", "look 0 0", "reply 0 0 acked 1"],
    &["call agree 0 0 00000001", "look 0 0", "reply 0 0 started"],
    &["call poll 0 0", "look 0 0", "reply 0 0 pending"],
    &[
        "call get 0 0",
        "look 0 0",
        "reply 0 0 shrunk 1 context 300 members 0",
    ],
    &[
        "call get 0 0",
        "look 0 0",
        "reply 0 0 refused 1 self-failed",
    ],
    &["call get 5 0", "reply 5 0 refused 2 no-such-comm"],
    &["call fail 0", "reply - 0 declared"],
];

/// Each of some traces is legal up to its last line, and bad there for this reason.
fn are_wrong<R: AllocGlobal + Abort>(rt: &R, why: Why, traces: &[&[&str]]) -> Result<(), Fail> {
    for (index, lines) in traces.iter().enumerate() {
        let mut text = text_of(rt.alloc(), &[HEADER])?;
        text.extend_from_slice(&text_of(rt.alloc(), lines)?)?;
        let mut number: u32 = 1;
        for _ in *lines {
            number = number.saturating_add(1);
        }
        assert_eq!(rt; check(rt, &text), illegal(number, why), "{index}");
    }
    Ok(())
}

/// First lines that are no header.
#[test]
fn no_header(rt: HostRuntime) -> Result<(), Fail> {
    let headers = [
        "",
        "ulfm 1 3 2 4",
        "ulfm-steps 1 3 2 4",
        "ulfm-trace 2 3 2 4",
        "ulfm-trace 1 3 2",
        "ulfm-trace 1 3 2 4 ",
        "ulfm-trace 1 03 2 4",
        "ulfm-trace 1 0 2 4",
        "ulfm-trace 1 1025 1 1",
        "ulfm-trace 1 1 257 1",
        "ulfm-trace 1 1 1 4097",
        "ulfm-trace 1 1024 1 2048",
        "look 0 0",
    ];
    for header in headers {
        let text = text_of(rt.alloc(), &[header, "look 0 0"])?;
        assert_eq!(rt; check(&rt, &text), illegal(1, Why::Text), "{header}");
    }
    assert_eq!(rt; check(&rt, b"ulfm-trace 1 3 2 4"), illegal(1, Why::Text));
    Ok(())
}

/// Each trace is bad at its last line, for its table's reason.
#[test]
fn bad_last_lines(rt: HostRuntime) -> Result<(), Fail> {
    are_wrong(&rt, Why::Text, &NO_LINE)?;
    are_wrong(&rt, Why::Call, &NO_CALL)?;
    are_wrong(&rt, Why::Look, &NO_LOOK)?;
    are_wrong(&rt, Why::Event, &NO_EVENT)?;
    are_wrong(&rt, Why::Own, &NOT_OWN)?;
    are_wrong(&rt, Why::Reply, &NO_REPLY)
}

/// A line of twenty thousand bytes, and one whose first 8192 bytes would be a line.
#[test]
fn long_lines(rt: HostRuntime) -> Result<(), Fail> {
    for byte in [b'x', b' ', b'0'] {
        let mut text = text_of(rt.alloc(), &["ulfm-trace 1 2 1 2", "call get 0 0"])?;
        text.extend_from_slice(b"look 0 0")?;
        for _ in 0..20_000 {
            text.push(byte)?;
        }
        text.extend_from_slice(b"\nlook 0 0\n")?;
        assert_eq!(rt; check(&rt, &text), illegal(3, Why::Text));
    }
    Ok(())
}

/// Two ranks, one more communicator, two rounds: refusals, an agree, a revocation, two shrinks, and ranks that are declared.
pub(crate) const TWO_RANKS: [&str; 108] = [
    "ulfm-trace 1 2 2 2",
    "call get 5 0",
    "reply 5 0 refused 13 no-such-rank",
    "call get 0 1",
    "look 0 0",
    "reply 0 0 refused 2 no-such-comm",
    "call free 0 0",
    "look 0 0",
    "reply 0 0 refused 12 world-kept",
    "call poll 0 0",
    "look 0 0",
    "reply 0 0 refused 6 idle",
    "call agree 0 0 0000000f",
    "look 0 0",
    "event 0 settle 0 0 0 flag 0000000f known 0 acked 0",
    "reply 0 1 started",
    "call agree 0 0 0000000f",
    "look 0 0",
    "reply 0 1 refused 3 busy",
    "call poll 0 0",
    "look 0 0",
    "reply 0 1 pending",
    "call agree 1 0 00000007",
    "look 1 0",
    "event 1 settle 0 0 1 flag 00000007 known 0 acked 0",
    "reply 1 2 started",
    "call poll 0 0",
    "look 0 0",
    "reply 0 2 agreed 00000007 failed 0 clean",
    "call agree 0 0 00000001",
    "look 0 0",
    "reply 0 2 refused 5 rounds-used-up",
    "call shrink 0 0",
    "look 0 0",
    "event 0 settle 0 1 0 ctx fffffffffffffffe known 0 acked 0",
    "reply 0 3 started",
    "call isrevoked 0 0",
    "look 0 0",
    "reply 0 3 no",
    "call revoke 0 0",
    "look 0 0",
    "event 0 revoke 0",
    "reply 0 4 revoked",
    "call revoke 1 0",
    "look 1 0",
    "reply 1 4 already-revoked",
    "call isrevoked 1 0",
    "look 1 0",
    "reply 1 4 yes",
    "call poll 1 0",
    "look 1 0",
    "reply 1 4 agreed 00000007 failed 0 clean",
    "call shrink 1 0",
    "look 1 0",
    "event 1 settle 0 1 1 ctx fffffffffffffffe known 0 acked 0",
    "reply 1 5 started",
    "call poll 1 0",
    "look 1 0",
    "event 1 spawn 1 0 1",
    "reply 1 6 shrunk 1 context 1 members 0 1",
    "call poll 0 0",
    "look 0 0",
    "reply 0 6 shrunk 1 context 1 members 0 1",
    "call shrink 0 1",
    "look 0 0",
    "event 0 settle 1 0 0 ctx fffffffffffffffc known 0 acked 0",
    "reply 0 7 started",
    "call barrier 0 0",
    "look 0 0",
    "event 0 arrive 0 0 0",
    "reply 0 8 started",
    "call poll 0 0",
    "look 0 0",
    "reply 0 8 refused 10 is-revoked",
    "call shrink 0 0",
    "look 0 0",
    "reply 0 8 refused 4 shrink-open",
    "call shrink 1 1",
    "look 1 0",
    "event 1 settle 1 0 1 ctx fffffffffffffffc known 0 acked 0",
    "reply 1 9 started",
    "call poll 1 1",
    "look 1 0",
    "reply 1 9 refused 9 no-room",
    "call poll 0 1",
    "look 0 0",
    "reply 0 9 refused 9 no-room",
    "call free 0 1",
    "look 0 0",
    "reply 0 9 freed",
    "call free 0 1",
    "look 0 0",
    "reply 0 9 refused 2 no-such-comm",
    "call fail 1",
    "event - fail 1",
    "reply - 10 declared",
    "call fail 1",
    "reply - 10 already-failed",
    "call fail 7",
    "reply - 10 refused 13 no-such-rank",
    "call get 1 0",
    "look 1 1",
    "reply 1 10 refused 1 self-failed",
    "call get 1 0",
    "reply 1 10 refused 1 self-failed",
    "call get 0 0",
    "look 0 1",
    "reply 0 10 failed 1",
];

/// Places that the outside took first, a barrier, a mismatch, and no context id left.
pub(crate) const TAKEN_PLACES: [&str; 36] = [
    "ulfm-trace 1 2 1 3",
    "event - settle 0 0 0 flag 00000001 known 0 acked 0",
    "call agree 0 0 0000000f",
    "look 0 0",
    "reply 0 1 refused 15 twice",
    "event - arrive 0 0 0",
    "call barrier 0 0",
    "look 0 0",
    "reply 0 2 refused 15 twice",
    "call barrier 1 0",
    "look 1 0",
    "event 1 arrive 0 0 1",
    "reply 1 3 started",
    "call poll 1 0",
    "look 1 0",
    "reply 1 3 done",
    "call shrink 1 0",
    "look 1 0",
    "event 1 settle 0 0 1 ctx fffffffffffffffe known 0 acked 0",
    "reply 1 4 started",
    "call poll 1 0",
    "look 1 0",
    "reply 1 4 refused 7 mismatch",
    "event - settle 0 1 0 ctx 00000000 known 0 acked 0",
    "call shrink 1 0",
    "look 1 0",
    "event 1 settle 0 1 1 ctx fffffffffffffffe known 0 acked 0",
    "reply 1 6 started",
    "call poll 1 0",
    "look 1 0",
    "reply 1 6 refused 8 no-context",
    "call barrier 1 0",
    "look 1 0",
    "event 1 arrive 0 1 1",
    "reply 1 7 started",
    "call poll 1 0",
];

#[test]
fn every_reply(rt: HostRuntime) -> Result<(), Fail> {
    is_legal(&rt, &text_of(rt.alloc(), &TWO_RANKS)?)?;
    is_legal(&rt, &text_of(rt.alloc(), &TAKEN_PLACES)?)
}
