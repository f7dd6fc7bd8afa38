//! The program's `run`, `run --echo`, `run --steps`, `migrate` and `check` alone: what the launcher has the toolchain answer by where the program isn't built.
#![tactic(auto)]

mod quick;

use quick::answer;
use std::env;
use std::process::ExitCode;
use ulfm_filters::{answer_args, tell_unread};

fn main(rt: HostRuntime) -> ExitCode {
    let alloc = rt.alloc();
    let mut input = rt.stdin();
    let mut output = rt.stdout();
    let mut errors = rt.stderr();
    let answered = answer_args(alloc, env::args(&rt), |words| {
        answer(alloc, words, &mut input, &mut output, &mut errors)
    });
    ExitCode::from(match answered {
        Ok(status) => status,
        Err(fault) => tell_unread(fault, &mut errors),
    })
}
