//! Traces.
use crate::Row;

/// The trace of [`CONTRIBUTION_IN_FLIGHT`](crate::steps::CONTRIBUTION_IN_FLIGHT), which is legal.
pub const TRACE_JUDGED_A: Row = Row {
    name: "trace_judged_a",
    script: "ulfm-trace 1 3 2 4\ncall agree 2 0 00000005\nlook 2 0\ncall fail 2\nevent - fail 2\nreply - 1 declared\nevent 2 settle 0 0 2 flag 00000005 known 0 acked 0\nreply 2 2 started\ncall agree 0 0 0000000f\nlook 0 1\nevent 0 settle 0 0 0 flag 0000000f known 1 acked 0\nreply 0 3 started\ncall agree 1 0 00000007\nlook 1 1\nevent 1 settle 0 0 1 flag 00000007 known 1 acked 0\nreply 1 4 started\ncall poll 0 0\nlook 0 1\nreply 0 4 agreed 00000005 failed 1 raised\ncall poll 2 0\nlook 2 1\nreply 2 4 refused 1 self-failed\n",
    output: "legal\n",
    errors: "",
    status: 0,
};

/// The same trace with another flag in the first answer, which is illegal.
pub const TRACE_JUDGED_B: Row = Row {
    name: "trace_judged_b",
    script: "ulfm-trace 1 3 2 4\ncall agree 2 0 00000005\nlook 2 0\ncall fail 2\nevent - fail 2\nreply - 1 declared\nevent 2 settle 0 0 2 flag 00000005 known 0 acked 0\nreply 2 2 started\ncall agree 0 0 0000000f\nlook 0 1\nevent 0 settle 0 0 0 flag 0000000f known 1 acked 0\nreply 0 3 started\ncall agree 1 0 00000007\nlook 1 1\nevent 1 settle 0 0 1 flag 00000007 known 1 acked 0\nreply 1 4 started\ncall poll 0 0\nlook 0 1\nreply 0 4 agreed 00000007 failed 1 raised\ncall poll 2 0\nlook 2 1\nreply 2 4 refused 1 self-failed\n",
    output: "illegal line 19 reply\n",
    errors: "",
    status: 1,
};

/// Traces and their verdicts.
pub const TRACE_ROWS: [Row; 6] = [
    Row {
        name: "another_implementation",
        script: "ulfm-trace 1 3 1 2\ncall fail 2\nevent - fail 2\nreply - 1 declared\ncall agree 0 0 0000000f\nlook 0 1\nevent 0 settle 0 0 0 flag 0000000f known 1 acked 0\nreply 0 2 started\ncall agree 1 0 00000007\nlook 1 1\nevent 1 settle 0 0 1 flag 00000007 known 1 acked 0\nreply 1 3 started\nevent - mark 0 0 2 known 1\ncall poll 0 0\nlook 0 1\nreply 0 4 agreed 00000007 failed 1 raised\ncall poll 1 0\nlook 1 1\nreply 1 4 agreed 00000007 failed 1 raised\n",
        output: "legal\n",
        errors: "",
        status: 0,
    },
    TRACE_JUDGED_A,
    TRACE_JUDGED_B,
    Row {
        name: "trace_judged_c",
        script: "",
        output: "illegal line 1 text\n",
        errors: "",
        status: 1,
    },
    Row {
        name: "thirty_two_ids",
        script: "ulfm-trace 1 1 2 2\ncall shrink 0 0\nlook 0 0\nevent 0 settle 0 0 0 ctx fffffffe known 0 acked 0\nreply 0 1 started\n",
        output: "illegal line 5 reply\n",
        errors: "",
        status: 1,
    },
    Row {
        name: "padded_event",
        script: "ulfm-trace 1 1 1 2\ncall agree 0 0 000000000000000f\nlook 0 0\nevent 0 settle 0 0 0 flag 000000000000000f known 0 acked 0\n",
        output: "illegal line 4 text\n",
        errors: "",
        status: 1,
    },
];
