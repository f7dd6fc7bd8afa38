//! Scripts of single steps.
use crate::Row;

/// A declaration between the look of a rank and its contribution.
pub const CONTRIBUTION_IN_FLIGHT: Row = Row {
    name: "contribution_in_flight",
    script: "ulfm-steps 1 3 2 4\ncall agree 2 0 00000005\nbefore 2 settle\nfail 2\nfinish 2\ncall agree 0 0 0000000f\nfinish 0\ncall agree 1 0 00000007\nfinish 1\ncall poll 0 0\nfinish 0\ncall poll 2 0\nfinish 2\n",
    output: "ulfm-trace 1 3 2 4\ncall agree 2 0 00000005\nlook 2 0\ncall fail 2\nevent - fail 2\nreply - 1 declared\nevent 2 settle 0 0 2 flag 00000005 known 0 acked 0\nreply 2 2 started\ncall agree 0 0 0000000f\nlook 0 1\nevent 0 settle 0 0 0 flag 0000000f known 1 acked 0\nreply 0 3 started\ncall agree 1 0 00000007\nlook 1 1\nevent 1 settle 0 0 1 flag 00000007 known 1 acked 0\nreply 1 4 started\ncall poll 0 0\nlook 0 1\nreply 0 4 agreed 00000005 failed 1 raised\ncall poll 2 0\nlook 2 1\nreply 2 4 refused 1 self-failed\n",
    errors: "",
    status: 0,
};

/// The traces of scripts of single steps, and the faults that end them.
pub const STEP_ROWS: [Row; 19] = [
    CONTRIBUTION_IN_FLIGHT,
    Row {
        name: "decision_of_nobody",
        script: "ulfm-steps 1 2 1 2\ncall agree 1 0 00000001\nbefore 1 settle\nfail 0\nfail 1\nfinish 1\ncall poll 0 0\nfinish 0\ncall poll 1 0\nfinish 1\n",
        output: "ulfm-trace 1 2 1 2\ncall agree 1 0 00000001\nlook 1 0\ncall fail 0\nevent - fail 0\nreply - 1 declared\ncall fail 1\nevent - fail 1\nreply - 2 declared\nevent 1 settle 0 0 1 flag 00000001 known 0 acked 0\nreply 1 3 started\ncall poll 0 0\nlook 0 2\nreply 0 3 refused 1 self-failed\ncall poll 1 0\nlook 1 2\nreply 1 3 refused 1 self-failed\n",
        errors: "",
        status: 0,
    },
    Row {
        name: "late_arrival",
        script: "ulfm-steps 1 2 1 2\ncall barrier 1 0\nbefore 1 arrive\nfail 1\ncall barrier 0 0\nfinish 0\ncall poll 0 0\nbefore 0 revocation\nfinish 1\nfinish 0\n",
        output: "ulfm-trace 1 2 1 2\ncall barrier 1 0\nlook 1 0\ncall fail 1\nevent - fail 1\nreply - 1 declared\ncall barrier 0 0\nlook 0 1\nevent 0 arrive 0 0 0\nreply 0 2 started\ncall poll 0 0\nlook 0 1\nevent 1 arrive 0 0 1\nreply 1 3 started\nreply 0 2 refused 11 proc-failed\n",
        errors: "",
        status: 0,
    },
    Row {
        name: "mark_comes_first",
        script: "ulfm-steps 1 3 2 4\ncall agree 2 0 00000005\nbefore 2 settle\nfail 2\ncall agree 0 0 0000000f\nfinish 0\ncall poll 0 0\nfinish 0\nfinish 2\ncall agree 1 0 00000007\nfinish 1\ncall poll 1 0\nfinish 1\n",
        output: "ulfm-trace 1 3 2 4\ncall agree 2 0 00000005\nlook 2 0\ncall fail 2\nevent - fail 2\nreply - 1 declared\ncall agree 0 0 0000000f\nlook 0 1\nevent 0 settle 0 0 0 flag 0000000f known 1 acked 0\nreply 0 2 started\ncall poll 0 0\nlook 0 1\nevent 0 mark 0 0 2 known 1\nreply 0 3 pending\nreply 2 3 refused 1 self-failed\ncall agree 1 0 00000007\nlook 1 1\nevent 1 settle 0 0 1 flag 00000007 known 1 acked 0\nreply 1 4 started\ncall poll 1 0\nlook 1 1\nreply 1 4 agreed 00000007 failed 1 raised\n",
        errors: "",
        status: 0,
    },
    Row {
        name: "own_spelling",
        script: "ulfm-steps 1 1 1 2\ncall agree 0 0 000000000000000f\nfinish 0\ncall poll 0 0\nfinish 0\n",
        output: "ulfm-trace 1 1 1 2\ncall agree 0 0 000000000000000f\nlook 0 0\nevent 0 settle 0 0 0 flag 0000000f known 0 acked 0\nreply 0 1 started\ncall poll 0 0\nlook 0 0\nreply 0 1 agreed 0000000f failed 0 clean\n",
        errors: "",
        status: 0,
    },
    Row {
        name: "revoked_between_loads",
        script: "ulfm-steps 1 2 1 2\ncall barrier 0 0\nfinish 0\ncall barrier 1 0\nfinish 1\ncall poll 0 0\nbefore 0 revocation\ncall revoke 1 0\nfinish 1\nfinish 0\n",
        output: "ulfm-trace 1 2 1 2\ncall barrier 0 0\nlook 0 0\nevent 0 arrive 0 0 0\nreply 0 1 started\ncall barrier 1 0\nlook 1 0\nevent 1 arrive 0 0 1\nreply 1 2 started\ncall poll 0 0\nlook 0 0\ncall revoke 1 0\nlook 1 0\nevent 1 revoke 0\nreply 1 3 revoked\nreply 0 3 refused 10 is-revoked\n",
        errors: "",
        status: 0,
    },
    Row {
        name: "step_faults_a",
        script: "ulfm-steps 1 2 1 2\ncall agree 0 0 00000001\nfinish 0",
        output: "ulfm-trace 1 2 1 2\ncall agree 0 0 00000001\n",
        errors: "ulfm: line 3: cut\n",
        status: 1,
    },
    Row {
        name: "step_faults_b",
        script: "ulfm-steps 1 2 1 2\nxxxxxxxxxxxxxxxxxxxxxxxxxxxxxxxxxxxxxxxxxxxxxxxxxxxxxxxxxxxxxxxxx\n",
        output: "ulfm-trace 1 2 1 2\n",
        errors: "ulfm: line 2: long\n",
        status: 1,
    },
    Row {
        name: "step_faults_c",
        script: "ulfm 1 2 1 2\n",
        output: "",
        errors: "ulfm: line 1: header\n",
        status: 1,
    },
    Row {
        name: "step_faults_d",
        script: "ulfm-steps 1 0 1 1\n",
        output: "",
        errors: "ulfm: line 1: limits\n",
        status: 1,
    },
    Row {
        name: "step_faults_e",
        script: "ulfm-steps 1 2 1 2\npoll 0 0\n",
        output: "ulfm-trace 1 2 1 2\n",
        errors: "ulfm: line 2: verb\n",
        status: 1,
    },
    Row {
        name: "step_faults_f",
        script: "ulfm-steps 1 2 1 2\ncall fail 0 0\n",
        output: "ulfm-trace 1 2 1 2\n",
        errors: "ulfm: line 2: verb\n",
        status: 1,
    },
    Row {
        name: "step_faults_g",
        script: "ulfm-steps 1 2 1 2\ncall \n",
        output: "ulfm-trace 1 2 1 2\n",
        errors: "ulfm: line 2: words\n",
        status: 1,
    },
    Row {
        name: "step_faults_h",
        script: "ulfm-steps 1 2 1 2\nstep 0 0\n",
        output: "ulfm-trace 1 2 1 2\n",
        errors: "ulfm: line 2: number\n",
        status: 1,
    },
    Row {
        name: "step_faults_i",
        script: "ulfm-steps 1 2 1 2\nbefore 1024 exchange\n",
        output: "ulfm-trace 1 2 1 2\n",
        errors: "ulfm: line 2: number\n",
        status: 1,
    },
    Row {
        name: "step_faults_j",
        script: "ulfm-steps 1 2 1 2\ncall agree 0 0 0000000F\n",
        output: "ulfm-trace 1 2 1 2\n",
        errors: "ulfm: line 2: flag\n",
        status: 1,
    },
    Row {
        name: "step_faults_k",
        script: "ulfm-steps 1 2 1 2\ncall agree 0 0 00000001\nbefore 1 exchange\n",
        output: "ulfm-trace 1 2 1 2\ncall agree 0 0 00000001\n",
        errors: "ulfm: line 3: step\n",
        status: 1,
    },
    Row {
        name: "step_faults_l",
        script: "ulfm-steps 1 2 1 2\ncall agree 0 0 00000001\ncall poll 0 0\n",
        output: "ulfm-trace 1 2 1 2\ncall agree 0 0 00000001\n",
        errors: "ulfm: line 3: open\n",
        status: 1,
    },
    Row {
        name: "stops_before_a_wing",
        script: "ulfm-steps 1 2 1 2\ncall agree 1 0 ffffffff0000000f\nbefore 1 wing\nfail 1\nfinish 1\ncall agree 0 0 0000000300000007\nfinish 0\ncall poll 0 0\nbefore 0 wing\nfinish 0\n",
        output: "ulfm-trace 1 2 1 2\ncall agree 1 0 ffffffff0000000f\nlook 1 0\ncall fail 1\nevent - fail 1\nreply - 1 declared\nevent 1 settle 0 0 1 flag ffffffff0000000f known 0 acked 0\nreply 1 2 started\ncall agree 0 0 0000000300000007\nlook 0 1\nevent 0 settle 0 0 0 flag 0000000300000007 known 1 acked 0\nreply 0 3 started\ncall poll 0 0\nlook 0 1\nreply 0 3 agreed 0000000300000007 failed 1 raised\n",
        errors: "",
        status: 0,
    },
];
