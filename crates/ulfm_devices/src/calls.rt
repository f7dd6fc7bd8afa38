//! Scripts of calls.
use crate::Row;

/// What is acknowledged is counted from the first failure on.
pub const ACKNOWLEDGEMENTS_COUNT: Row = Row {
    name: "acknowledgements_count",
    script: "ulfm 1 3 1 2\nget 0 0\nfail 1\nfail 2\nack 0 0 0\nack 0 0 1\nack 0 0 9\nack 0 0 1\nget 0 0\nfail 1\nfail 7\n",
    output: "failed none\ndeclared\ndeclared\nacked 0\nacked 1\nacked 2\nacked 2\nfailed 1 2\nalready-failed\nrefused 13 no-such-rank\n",
    errors: "",
    status: 0,
};

/// One rank alone agrees.
pub const ONE_RANK: Row = Row {
    name: "one_rank",
    script: "ulfm 1 1 1 2\nagree 0 0 000000ff\npoll 0 0\n",
    output: "started\nagreed 000000ff failed 0 clean\n",
    errors: "",
    status: 0,
};

/// Calls that are refused, for one reason after another.
pub const REFUSALS_IN_ORDER: Row = Row {
    name: "refusals_in_order",
    script: "ulfm 1 2 4 8\nshrink 0 0\nshrink 0 0\npoll 0 0\npoll 1 0\nshrink 1 0\npoll 0 0\nshrink 0 0\nshrink 0 1\nagree 0 1 00000001\nfree 0 1\nfree 0 0\nget 1 1\n",
    output: "started\nrefused 3 busy\npending\nrefused 6 idle\nstarted\nshrunk 1 context 1 members 0 1\nstarted\nrefused 4 shrink-open\nstarted\nrefused 3 busy\nrefused 12 world-kept\nrefused 2 no-such-comm\n",
    errors: "",
    status: 0,
};

/// Two shrinks, one of the other, each behind a declaration.
pub const SHRINKS_KEEP_ORDER: Row = Row {
    name: "shrinks_keep_order",
    script: "ulfm 1 4 4 4\nfail 1\nshrink 3 0\nshrink 0 0\nshrink 2 0\npoll 3 0\npoll 0 0\npoll 2 0\nfail 0\nshrink 3 1\nshrink 2 1\npoll 3 1\npoll 2 1\n",
    output: "declared\nstarted\nstarted\nstarted\nshrunk 1 context 1 members 0 2 3\nshrunk 1 context 1 members 0 2 3\nshrunk 1 context 1 members 0 2 3\ndeclared\nstarted\nstarted\nshrunk 2 context 2 members 2 3\nshrunk 2 context 2 members 2 3\n",
    errors: "",
    status: 0,
};

/// Three flags, combined.
pub const THREE_FLAGS: Row = Row {
    name: "three_flags",
    script: "ulfm 1 3 1 4\nagree 0 0 0000000f\nagree 1 0 0000003c\nagree 2 0 ffffffff\npoll 0 0\npoll 1 0\npoll 2 0\n",
    output: "started\nstarted\nstarted\nagreed 0000000c failed 0 clean\nagreed 0000000c failed 0 clean\nagreed 0000000c failed 0 clean\n",
    errors: "",
    status: 0,
};

/// Calls by the names of the interface of 2013.
pub const NAMES_OF_2013: Row = Row {
    name: "names_of_2013",
    script: "ulfm 2 3 1 4\nfailure_get_acked 0 0\nfail 2\nfail 1\nack 0 0 1\nfailure_get_acked 0 0\nfailure_ack 0 0\nfailure_get_acked 0 0\nagree 0 0 000000000000000f\npoll 0 0\nfailure_ack 1 0\n",
    output: "failed none\ndeclared\ndeclared\nacked 1\nfailed 2\nacked 2\nfailed 2 1\nstarted\nagreed 0000000f failed 2 clean\nrefused 1 self-failed\n",
    errors: "",
    status: 0,
};

/// What scripts of calls print, and the faults that end them.
pub const ROWS: [Row; 27] = [
    Row {
        name: "acknowledged_by_all",
        script: "ulfm 1 3 1 4\nfail 2\nack 0 0 1\nack 1 0 1\nagree 0 0 0000000f\nagree 1 0 0000003c\npoll 0 0\npoll 1 0\n",
        output: "declared\nacked 1\nacked 1\nstarted\nstarted\nagreed 0000000c failed 1 clean\nagreed 0000000c failed 1 clean\n",
        errors: "",
        status: 0,
    },
    Row {
        name: "acknowledged_by_one",
        script: "ulfm 1 3 1 4\nfail 2\nack 0 0 1\nagree 0 0 0000000f\nagree 1 0 0000003c\npoll 0 0\npoll 1 0\n",
        output: "declared\nacked 1\nstarted\nstarted\nagreed 0000000c failed 1 raised\nagreed 0000000c failed 1 raised\n",
        errors: "",
        status: 0,
    },
    Row {
        name: "acknowledged_too_late",
        script: "ulfm 1 2 1 4\nfail 1\nagree 0 0 00000001\nack 0 0 1\npoll 0 0\n",
        output: "declared\nstarted\nacked 1\nagreed 00000001 failed 1 raised\n",
        errors: "",
        status: 0,
    },
    ACKNOWLEDGEMENTS_COUNT,
    Row {
        name: "agree_meets_shrink",
        script: "ulfm 1 2 2 4\nagree 0 0 0000000f\nshrink 1 0\npoll 0 0\npoll 1 0\nagree 0 0 0000000f\nagree 1 0 00000003\npoll 1 0\n",
        output: "started\nstarted\nrefused 7 mismatch\nrefused 7 mismatch\nstarted\nstarted\nagreed 00000003 failed 0 clean\n",
        errors: "",
        status: 0,
    },
    Row {
        name: "contexts_come_back_a",
        script: "ulfm 1 2 4 8\nshrink 0 0\nshrink 1 0\npoll 0 0\npoll 1 0\nfree 0 1\nshrink 0 0\nshrink 1 0\npoll 0 0\npoll 1 0\n",
        output: "started\nstarted\nshrunk 1 context 1 members 0 1\nshrunk 1 context 1 members 0 1\nfreed\nstarted\nstarted\nshrunk 2 context 2 members 0 1\nshrunk 2 context 2 members 0 1\n",
        errors: "",
        status: 0,
    },
    Row {
        name: "contexts_come_back_b",
        script: "ulfm 1 1 40 40\nshrink 0 0\npoll 0 0\nshrink 0 0\npoll 0 0\nshrink 0 0\npoll 0 0\nshrink 0 0\npoll 0 0\nshrink 0 0\npoll 0 0\nshrink 0 0\npoll 0 0\nshrink 0 0\npoll 0 0\nshrink 0 0\npoll 0 0\nshrink 0 0\npoll 0 0\nshrink 0 0\npoll 0 0\nshrink 0 0\npoll 0 0\nshrink 0 0\npoll 0 0\nshrink 0 0\npoll 0 0\nshrink 0 0\npoll 0 0\nshrink 0 0\npoll 0 0\nshrink 0 0\npoll 0 0\nshrink 0 0\npoll 0 0\nshrink 0 0\npoll 0 0\nshrink 0 0\npoll 0 0\nshrink 0 0\npoll 0 0\nshrink 0 0\npoll 0 0\nshrink 0 0\npoll 0 0\nshrink 0 0\npoll 0 0\nshrink 0 0\npoll 0 0\nshrink 0 0\npoll 0 0\nshrink 0 0\npoll 0 0\nshrink 0 0\npoll 0 0\nshrink 0 0\npoll 0 0\nshrink 0 0\npoll 0 0\nshrink 0 0\npoll 0 0\nshrink 0 0\npoll 0 0\nshrink 0 0\npoll 0 0\nfree 0 7\nshrink 0 0\npoll 0 0\n",
        output: "started\nshrunk 1 context 1 members 0\nstarted\nshrunk 2 context 2 members 0\nstarted\nshrunk 3 context 3 members 0\nstarted\nshrunk 4 context 4 members 0\nstarted\nshrunk 5 context 5 members 0\nstarted\nshrunk 6 context 6 members 0\nstarted\nshrunk 7 context 7 members 0\nstarted\nshrunk 8 context 8 members 0\nstarted\nshrunk 9 context 9 members 0\nstarted\nshrunk 10 context 10 members 0\nstarted\nshrunk 11 context 11 members 0\nstarted\nshrunk 12 context 12 members 0\nstarted\nshrunk 13 context 13 members 0\nstarted\nshrunk 14 context 14 members 0\nstarted\nshrunk 15 context 15 members 0\nstarted\nshrunk 16 context 16 members 0\nstarted\nshrunk 17 context 17 members 0\nstarted\nshrunk 18 context 18 members 0\nstarted\nshrunk 19 context 19 members 0\nstarted\nshrunk 20 context 20 members 0\nstarted\nshrunk 21 context 21 members 0\nstarted\nshrunk 22 context 22 members 0\nstarted\nshrunk 23 context 23 members 0\nstarted\nshrunk 24 context 24 members 0\nstarted\nshrunk 25 context 25 members 0\nstarted\nshrunk 26 context 26 members 0\nstarted\nshrunk 27 context 27 members 0\nstarted\nshrunk 28 context 28 members 0\nstarted\nshrunk 29 context 29 members 0\nstarted\nshrunk 30 context 30 members 0\nstarted\nshrunk 31 context 31 members 0\nstarted\nshrunk 32 context 32 members 0\nfreed\nstarted\nshrunk 33 context 7 members 0\n",
        errors: "",
        status: 0,
    },
    Row {
        name: "contexts_come_back_c",
        script: "ulfm 1 1 70 70\nshrink 0 0\npoll 0 0\nshrink 0 0\npoll 0 0\nshrink 0 0\npoll 0 0\nshrink 0 0\npoll 0 0\nshrink 0 0\npoll 0 0\nshrink 0 0\npoll 0 0\nshrink 0 0\npoll 0 0\nshrink 0 0\npoll 0 0\nshrink 0 0\npoll 0 0\nshrink 0 0\npoll 0 0\nshrink 0 0\npoll 0 0\nshrink 0 0\npoll 0 0\nshrink 0 0\npoll 0 0\nshrink 0 0\npoll 0 0\nshrink 0 0\npoll 0 0\nshrink 0 0\npoll 0 0\nshrink 0 0\npoll 0 0\nshrink 0 0\npoll 0 0\nshrink 0 0\npoll 0 0\nshrink 0 0\npoll 0 0\nshrink 0 0\npoll 0 0\nshrink 0 0\npoll 0 0\nshrink 0 0\npoll 0 0\nshrink 0 0\npoll 0 0\nshrink 0 0\npoll 0 0\nshrink 0 0\npoll 0 0\nshrink 0 0\npoll 0 0\nshrink 0 0\npoll 0 0\nshrink 0 0\npoll 0 0\nshrink 0 0\npoll 0 0\nshrink 0 0\npoll 0 0\nshrink 0 0\npoll 0 0\nshrink 0 0\npoll 0 0\nshrink 0 0\npoll 0 0\nshrink 0 0\npoll 0 0\nshrink 0 0\npoll 0 0\nshrink 0 0\npoll 0 0\nshrink 0 0\npoll 0 0\nshrink 0 0\npoll 0 0\nshrink 0 0\npoll 0 0\nshrink 0 0\npoll 0 0\nshrink 0 0\npoll 0 0\nshrink 0 0\npoll 0 0\nshrink 0 0\npoll 0 0\nshrink 0 0\npoll 0 0\nshrink 0 0\npoll 0 0\nshrink 0 0\npoll 0 0\nshrink 0 0\npoll 0 0\nshrink 0 0\npoll 0 0\nshrink 0 0\npoll 0 0\nshrink 0 0\npoll 0 0\nshrink 0 0\npoll 0 0\nshrink 0 0\npoll 0 0\nshrink 0 0\npoll 0 0\nshrink 0 0\npoll 0 0\nshrink 0 0\npoll 0 0\nshrink 0 0\npoll 0 0\nshrink 0 0\npoll 0 0\nshrink 0 0\npoll 0 0\nshrink 0 0\npoll 0 0\nshrink 0 0\npoll 0 0\nshrink 0 0\npoll 0 0\nshrink 0 0\npoll 0 0\nshrink 0 0\npoll 0 0\nfree 0 7\nshrink 0 0\npoll 0 0\n",
        output: "started\nshrunk 1 context 1 members 0\nstarted\nshrunk 2 context 2 members 0\nstarted\nshrunk 3 context 3 members 0\nstarted\nshrunk 4 context 4 members 0\nstarted\nshrunk 5 context 5 members 0\nstarted\nshrunk 6 context 6 members 0\nstarted\nshrunk 7 context 7 members 0\nstarted\nshrunk 8 context 8 members 0\nstarted\nshrunk 9 context 9 members 0\nstarted\nshrunk 10 context 10 members 0\nstarted\nshrunk 11 context 11 members 0\nstarted\nshrunk 12 context 12 members 0\nstarted\nshrunk 13 context 13 members 0\nstarted\nshrunk 14 context 14 members 0\nstarted\nshrunk 15 context 15 members 0\nstarted\nshrunk 16 context 16 members 0\nstarted\nshrunk 17 context 17 members 0\nstarted\nshrunk 18 context 18 members 0\nstarted\nshrunk 19 context 19 members 0\nstarted\nshrunk 20 context 20 members 0\nstarted\nshrunk 21 context 21 members 0\nstarted\nshrunk 22 context 22 members 0\nstarted\nshrunk 23 context 23 members 0\nstarted\nshrunk 24 context 24 members 0\nstarted\nshrunk 25 context 25 members 0\nstarted\nshrunk 26 context 26 members 0\nstarted\nshrunk 27 context 27 members 0\nstarted\nshrunk 28 context 28 members 0\nstarted\nshrunk 29 context 29 members 0\nstarted\nshrunk 30 context 30 members 0\nstarted\nshrunk 31 context 31 members 0\nstarted\nshrunk 32 context 32 members 0\nstarted\nshrunk 33 context 33 members 0\nstarted\nshrunk 34 context 34 members 0\nstarted\nshrunk 35 context 35 members 0\nstarted\nshrunk 36 context 36 members 0\nstarted\nshrunk 37 context 37 members 0\nstarted\nshrunk 38 context 38 members 0\nstarted\nshrunk 39 context 39 members 0\nstarted\nshrunk 40 context 40 members 0\nstarted\nshrunk 41 context 41 members 0\nstarted\nshrunk 42 context 42 members 0\nstarted\nshrunk 43 context 43 members 0\nstarted\nshrunk 44 context 44 members 0\nstarted\nshrunk 45 context 45 members 0\nstarted\nshrunk 46 context 46 members 0\nstarted\nshrunk 47 context 47 members 0\nstarted\nshrunk 48 context 48 members 0\nstarted\nshrunk 49 context 49 members 0\nstarted\nshrunk 50 context 50 members 0\nstarted\nshrunk 51 context 51 members 0\nstarted\nshrunk 52 context 52 members 0\nstarted\nshrunk 53 context 53 members 0\nstarted\nshrunk 54 context 54 members 0\nstarted\nshrunk 55 context 55 members 0\nstarted\nshrunk 56 context 56 members 0\nstarted\nshrunk 57 context 57 members 0\nstarted\nshrunk 58 context 58 members 0\nstarted\nshrunk 59 context 59 members 0\nstarted\nshrunk 60 context 60 members 0\nstarted\nshrunk 61 context 61 members 0\nstarted\nshrunk 62 context 62 members 0\nstarted\nshrunk 63 context 63 members 0\nstarted\nrefused 8 no-context\nfreed\nstarted\nshrunk 64 context 7 members 0\n",
        errors: "",
        status: 0,
    },
    Row {
        name: "failed_rank_raises",
        script: "ulfm 1 3 1 4\nfail 2\nagree 0 0 0000000f\nagree 1 0 0000003c\npoll 0 0\npoll 1 0\n",
        output: "declared\nstarted\nstarted\nagreed 0000000c failed 1 raised\nagreed 0000000c failed 1 raised\n",
        errors: "",
        status: 0,
    },
    Row {
        name: "fails_after_contributing",
        script: "ulfm 1 3 1 4\nagree 0 0 0000000f\nagree 1 0 0000003c\nagree 2 0 00000004\nfail 2\npoll 0 0\npoll 1 0\npoll 2 0\n",
        output: "started\nstarted\nstarted\ndeclared\nagreed 00000004 failed 0 clean\nagreed 00000004 failed 0 clean\nrefused 1 self-failed\n",
        errors: "",
        status: 0,
    },
    Row {
        name: "known_to_the_others",
        script: "ulfm 1 3 1 4\nagree 2 0 00000005\nfail 2\nagree 0 0 0000000f\nagree 1 0 00000007\npoll 0 0\npoll 1 0\n",
        output: "started\ndeclared\nstarted\nstarted\nagreed 00000005 failed 1 raised\nagreed 00000005 failed 1 raised\n",
        errors: "",
        status: 0,
    },
    Row {
        name: "line_faults_a",
        script: "ulfm 1 2 1 4\nagree 0 0 0000000f\npoll 0",
        output: "started\n",
        errors: "ulfm: line 3: cut\n",
        status: 1,
    },
    Row {
        name: "line_faults_b",
        script: "",
        output: "",
        errors: "ulfm: line 1: header\n",
        status: 1,
    },
    Row {
        name: "line_faults_c",
        script: "ulfm 1 2 1 4\nagree 0 0 00000000f\n",
        output: "",
        errors: "ulfm: line 2: flag\n",
        status: 1,
    },
    Row {
        name: "line_faults_d",
        script: "ulfm 1 2 1 4\nfail 1024\n",
        output: "",
        errors: "ulfm: line 2: number\n",
        status: 1,
    },
    Row {
        name: "line_faults_e",
        script: "ulfm 1 1024 1 2048\n",
        output: "",
        errors: "ulfm: line 1: limits\n",
        status: 1,
    },
    Row {
        name: "line_faults_f",
        script: "ulfm 1 1024 1 2047\n",
        output: "",
        errors: "",
        status: 0,
    },
    Row {
        name: "all_acknowledged",
        script: "ulfm 1 2 1 4\nack 0 0 1024\nack 0 0 3\nagree 0 0 0000000f\n",
        output: "acked 0\nacked 0\nstarted\n",
        errors: "",
        status: 0,
    },
    NAMES_OF_2013,
    Row {
        name: "short_flag",
        script: "ulfm 2 3 1 4\nagree 0 0 0000000f\n",
        output: "",
        errors: "ulfm: line 2: flag\n",
        status: 1,
    },
    ONE_RANK,
    Row {
        name: "pending_then_decided",
        script: "ulfm 1 3 1 4\nagree 0 0 0000000f\nagree 1 0 0000003c\npoll 0 0\nagree 2 0 00000004\npoll 0 0\n",
        output: "started\nstarted\npending\nstarted\nagreed 00000004 failed 0 clean\n",
        errors: "",
        status: 0,
    },
    REFUSALS_IN_ORDER,
    Row {
        name: "rounds_and_room_used_up",
        script: "ulfm 1 2 1 1\nagree 0 0 00000001\nshrink 0 0\nshrink 1 0\npoll 0 0\npoll 1 0\nshrink 0 0\n",
        output: "refused 5 rounds-used-up\nstarted\nstarted\nrefused 9 no-room\nrefused 9 no-room\nrefused 5 rounds-used-up\n",
        errors: "",
        status: 0,
    },
    SHRINKS_KEEP_ORDER,
    Row {
        name: "sixteen_digits",
        script: "ulfm 1 2 1 4\nagree 0 0 ffffffff0000000f\nagree 1 0 0000000300000007\npoll 0 0\npoll 1 0\n",
        output: "started\nstarted\nagreed 0000000300000007 failed 0 clean\nagreed 0000000300000007 failed 0 clean\n",
        errors: "",
        status: 0,
    },
    THREE_FLAGS,
];

/// Scripts of the first version, and those of the second that they become.
pub const MIGRATED: [Row; 2] = [
    Row {
        name: "all_acknowledged",
        script: "ulfm 1 2 1 4\nack 0 0 1024\nack 0 0 3\nagree 0 0 0000000f\n",
        output: "ulfm 2 2 1 4\nfailure_ack 0 0\nack 0 0 3\nagree 0 0 000000000000000f\n",
        errors: "",
        status: 0,
    },
    Row {
        name: "second_version",
        script: "ulfm 2 2 1 4\nfailure_ack 0 0\nack 0 0 3\nagree 0 0 000000000000000f\n",
        output: "",
        errors: "ulfm: line 1: header\n",
        status: 1,
    },
];

/// A script with a reply of each form, for devices and memory that fail.
pub const SCRIPT: &str =
    "ulfm 1 3 2 4\nget 0 0\nfail 2\nagree 0 0 0000000f\nagree 1 0 0000003c\nget 0 0\nack 0 0 1\npoll 0 0\npoll 1 0\npoll 2 0\nshrink 0 0\npoll 0 0\nshrink 1 0\npoll 0 0\npoll 1 0\nfree 0 1\n";

/// What that script prints.
pub const OUTPUT: &str =
    "failed none\ndeclared\nstarted\nstarted\nfailed 2\nacked 1\nagreed 0000000c failed 1 raised\nagreed 0000000c failed 1 raised\nrefused 1 self-failed\nstarted\npending\nstarted\nshrunk 1 context 1 members 0 1\nshrunk 1 context 1 members 0 1\nfreed\n";
