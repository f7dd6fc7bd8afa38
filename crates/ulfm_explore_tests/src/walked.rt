//! The model of the search beside the step engine, step by step.
use std::alloc::Global;
use ulfm_explore::{are_same, follow};
use ulfm_schedules::{read_program, walk};

/// Programs that have every call, and every way to be declared.
const PROGRAMS: [&str; 5] = [
    "ulfm-explore 1 3 1 3\nmay fail 2\nrank 0 1\nagree 0 f00000000000000f\nwait 0\nget 0\nack 0 2\nagree 0 00000006\nwait 0\nrank 2\nagree 0 3000000000000007\nwait 0\n",
    "ulfm-explore 1 3 3 4\nmay die 1\nmay fail 2\nrank all\nshrink cur\nwait cur\nisrevoked cur\nshrink cur\npoll cur\nwait cur\nfree 1\n",
    "ulfm-explore 1 4 2 3\nmay fail 3\nmost 1\nrank 0 1 2 3\nbarrier 0\nwait 0\nif done go on\nrevoke 0\nat on\nbarrier 0\nwait 0\nshrink 0\nwait 0\nbarrier cur\npoll cur\nwait cur\n",
    "ulfm-explore 1 2 1 2\nrank 0\nagree 0 0000000f\nfail 1\nwait 0\nfail 1\nrank 1\nshrink 0\nwait 0\nfail 0\nget 0\n",
    "ulfm-explore 1 6 2 4\nmay die 5\nmay fail 4 3\nmost 2\nrank all\nquiet agree 0 0000003f\nquiet wait 0\nif clean go over\nack 0 9\nat over\nshrink 0\nwait 0\nfree cur\nagree 1 00000001\nwait 1\n",
];

/// Whether a walk ends with the ranks as the step engine has them.
fn goes_along(alloc: Global, text: &str, seed: u64, most: u32) -> bool {
    let mut left = text.as_bytes();
    let Ok(program) = read_program(alloc, &mut left) else {
        return false;
    };
    let Ok(script) = walk(alloc, &program, seed, most) else {
        return false;
    };
    match follow(alloc, &program, script.text, script.callers, false) {
        Ok(Some(shown)) => are_same(&shown.rows, &script.rows),
        _ => false,
    }
}

#[test]
fn model_goes_along(rt: HostRuntime) {
    let alloc = rt.alloc();
    for text in &PROGRAMS {
        for seed in 0..40 {
            for most in [7, 19, 40, 90, 400] {
                assert!(rt; goes_along(alloc, text, seed, most));
            }
        }
    }
}
