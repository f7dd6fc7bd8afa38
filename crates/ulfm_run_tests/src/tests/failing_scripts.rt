//! Six scripts of three ranks that make calls, one after another or step by step in turns, and at last agree and shrink once more. In each a rank is
//! declared behind each step.
ghost use Rattle.std.specs.Prelude.{◌<◌};

use crate::tests::judged;
use std::alloc::Global;
use std::io::{self, Write};
use std::process::Abort;
use std::test::Fail;
use ulfm_run::{run_steps, run_steps_failing};
use ulfm_trace::{Verdict, check};

/// A rank begins a call.
fn write_call(script: &mut Vec<u8>, verb: &str, rank: usize, comm: u16) -> io::Result<()> {
    let flag = match rank {
        0 => "0000000f",
        1 => "0000003c",
        _ => "00000004",
    };
    match verb {
        "agree" => writeln!(script, "call agree {rank} {comm} {flag}"),
        "ack" => writeln!(script, "call ack {rank} {comm} 1"),
        _ => writeln!(script, "call {verb} {rank} {comm}"),
    }
}

/// Each rank makes its call whole.
fn write_all(script: &mut Vec<u8>, verb: &str, comm: u16) -> io::Result<()> {
    for rank in 0..3 {
        write_call(script, verb, rank, comm)?;
        writeln!(script, "finish {rank}")?;
    }
    Ok(())
}

/// The ranks make their calls a step at a time, in turns.
fn write_mixed(script: &mut Vec<u8>, verbs: [&str; 3]) -> io::Result<()> {
    for (rank, verb) in verbs.iter().enumerate() {
        write_call(script, verb, rank, 0)?;
    }
    for turn in 0..72u32 {
        let rank = turn % 3;
        writeln!(script, "step {rank} 1")?;
    }
    Ok(())
}

/// A piece of a script.
#[derive(Clone, Copy)]
enum Part {
    /// This rank is declared.
    Fail(u16),
    /// Each rank makes this call of a communicator whole.
    All(&'static str, u16),
    /// The ranks make these calls of the world's communicator in turns.
    Mixed([&'static str; 3]),
}

/// The ranks start an agree in turns.
const AGREES: Part = Part::Mixed(["agree", "agree", "agree"]);

/// They poll in turns.
const POLLS: Part = Part::Mixed(["poll", "poll", "poll"]);

/// What each script ends with.
const ENDING: [Part; 5] = [
    Part::All("poll", 0),
    Part::All("agree", 0),
    Part::All("poll", 0),
    Part::All("shrink", 0),
    Part::All("poll", 0),
];

fn write_parts(script: &mut Vec<u8>, parts: &[Part]) -> io::Result<()> {
    for part in parts {
        match *part {
            Part::Fail(rank) => writeln!(script, "fail {rank}")?,
            Part::All(verb, comm) => write_all(script, verb, comm)?,
            Part::Mixed(verbs) => write_mixed(script, verbs)?,
        }
    }
    Ok(())
}

/// What a script writes with a declaration behind a step, and how many steps it makes.
fn failing(alloc: Global, script: &[u8], at: u32, rank: u16) -> Result<(Vec<u8>, u32), Fail>
    requires { rank < 1024 }
{
    let mut reader = script;
    let mut trace = Vec::new(alloc);
    match run_steps_failing(alloc, &mut reader, &mut trace, at, rank) {
        Ok(steps) => Ok((trace, steps)),
        Err(_) => Err(Fail::from("the script has a fault")),
    }
}

/// A trace is legal, and tells what it must.
fn judge(alloc: Global, trace: &[u8]) -> Result<(), Fail> {
    let mut reader = trace;
    if check(alloc, &mut reader) != Ok(Verdict::Legal) {
        return Err(Fail::from("a trace isn't legal"));
    }
    let Ok(text) = str::from_utf8(trace) else {
        return Err(Fail::from("a trace is no text"));
    };
    judged::judge(alloc, text)
}

/// Declares each rank behind each step of a script of these parts, which makes so many.
fn declare_everywhere(
    rt: &impl Abort,
    alloc: Global,
    steps: u32,
    parts: &[Part],
) -> Result<(), Fail> {
    let mut script = Vec::new(alloc);
    writeln!(script, "ulfm-steps 1 3 4 8")?;
    write_parts(&mut script, parts)?;
    write_parts(&mut script, &ENDING)?;
    let mut reader = script.as_slice();
    let mut plain = Vec::new(alloc);
    assert_eq!(rt; run_steps(alloc, &mut reader, &mut plain), Ok(()));
    let (whole, made) = failing(alloc, &script, u32::MAX, 0)?;
    assert_eq!(rt; whole.as_slice(), plain.as_slice());
    assert_eq!(rt; made, steps);
    judge(alloc, &plain)?;
    for at in 0..=steps {
        for rank in 0..3 {
            let (trace, _) = failing(alloc, &script, at, rank)?;
            assert!(rt; trace != plain);
            judge(alloc, &trace)?;
        }
    }
    Ok(())
}

#[test]
fn one_by_one(rt: HostRuntime) -> Result<(), Fail> {
    let parts = [Part::All("agree", 0), Part::All("poll", 0)];
    declare_everywhere(&rt, rt.alloc(), 109, &parts)
}

#[test]
fn in_turns(rt: HostRuntime) -> Result<(), Fail> {
    declare_everywhere(&rt, rt.alloc(), 129, &[AGREES, POLLS])
}

#[test]
fn acknowledged(rt: HostRuntime) -> Result<(), Fail> {
    let parts = [
        Part::Fail(2),
        Part::All("get", 0),
        Part::All("ack", 0),
        AGREES,
        POLLS,
    ];
    declare_everywhere(&rt, rt.alloc(), 101, &parts)
}

#[test]
fn shrunk(rt: HostRuntime) -> Result<(), Fail> {
    let parts = [
        Part::Mixed(["shrink", "shrink", "shrink"]),
        POLLS,
        Part::All("agree", 1),
        Part::All("poll", 1),
    ];
    declare_everywhere(&rt, rt.alloc(), 172, &parts)
}

#[test]
fn revoked(rt: HostRuntime) -> Result<(), Fail> {
    let parts = [
        Part::Mixed(["barrier", "barrier", "barrier"]),
        Part::Mixed(["poll", "revoke", "poll"]),
        Part::All("isrevoked", 0),
    ];
    declare_everywhere(&rt, rt.alloc(), 103, &parts)
}

#[test]
fn mismatched(rt: HostRuntime) -> Result<(), Fail> {
    let parts = [Part::Mixed(["agree", "shrink", "shrink"]), POLLS];
    declare_everywhere(&rt, rt.alloc(), 129, &parts)
}
