//! Scripts with what they print, over words and over the sequential object.
ghost use Rattle.std.specs.Prelude.{◌<◌};

use linked_list_allocator::LocalHeap;
use std::io::{self, Write};
use std::test::Fail;
use ulfm_devices::faults::LINE_FAULTS;
use ulfm_object::ObjectMachine;
use ulfm_run::{WordsMachine, run_calls};
use ulfm_script::{Input, LineKind, RunFault, run_script, run_script_through};

fn line(number: u32, kind: LineKind) -> Result<(), RunFault> {
    Err(RunFault::Line { number, kind })
}

/// What a script gives that is run over memory. The sequential object gives the same.
fn run(rt: &HostRuntime, script: &[u8]) -> Result<(Vec<u8>, Result<(), RunFault>), Fail> {
    let mut reader = script;
    let mut out = Vec::new(rt.alloc());
    let end = run_calls(rt.alloc(), &mut reader, &mut out);
    let mut reader = script;
    let mut right = Vec::new(rt.alloc());
    let also = run_script::<ObjectMachine<_>, _, _, _>(rt.alloc(), &mut reader, &mut right);
    if out.as_slice() != right.as_slice() || end != also {
        return Err(Fail::from("the object gives something else"));
    }
    Ok((out, end))
}

/// The next number of a fixed row of numbers, below a limit.
fn below(state: &mut u64, limit: u64) -> u64
    requires { 0 < limit }
    ensures { result < limit }
{
    *state = state
        .wrapping_mul(6_364_136_223_846_793_005)
        .wrapping_add(1_442_695_040_888_963_407);
    (*state >> 33) % limit
}

/// A line of any verb, on five ranks and three communicators, which the world may not have.
fn write_any(script: &mut Vec<u8>, state: &mut u64) -> io::Result<()> {
    let rank = below(state, 5);
    let comm = below(state, 8) % 3;
    let digit = below(state, 10);
    match below(state, 64) {
        0..=2 => writeln!(script, "fail {rank}"),
        3..=6 => writeln!(script, "get {rank} {comm}"),
        7..=10 => writeln!(script, "ack {rank} {comm} {digit}"),
        11..=24 => writeln!(script, "agree {rank} {comm} 0000000{digit}"),
        25..=31 => writeln!(script, "shrink {rank} {comm}"),
        32..=35 => writeln!(script, "free {rank} {comm}"),
        36..=42 => writeln!(script, "barrier {rank} {comm}"),
        43 => writeln!(script, "revoke {rank} {comm}"),
        44 | 45 => writeln!(script, "isrevoked {rank} {comm}"),
        _ => writeln!(script, "poll {rank} {comm}"),
    }
}

/// A line of the one rank of a world, which shrinks until no context id is free, and now and then gives one back.
fn write_alone(script: &mut Vec<u8>, state: &mut u64) -> io::Result<()> {
    let comm = below(state, 90);
    match below(state, 20) {
        0 => writeln!(script, "free 0 {comm}"),
        1..=9 => writeln!(script, "shrink 0 0"),
        _ => writeln!(script, "poll 0 0"),
    }
}

/// Whether some line begins so.
fn has_line(lines: &[u8], beginning: &[u8]) -> bool {
    lines
        .split(|byte| *byte == b'\n')
        .any(|line| line.starts_with(beginning))
}

/// Two hundred scripts, which reach every verb, every reply and every refusal that scripts can give.
#[test]
fn both_engines_give_the_same(rt: HostRuntime) -> Result<(), Fail> {
    let mut state = 1;
    let mut all = Vec::new(rt.alloc());
    for number in 0..200 {
        let mut script = Vec::new(rt.alloc());
        if number % 20 == 0 {
            writeln!(script, "ulfm 1 1 90 150")?;
        } else {
            let ranks = 1 + below(&mut state, 4);
            let comms = 1 + below(&mut state, 3);
            let rounds = 1 + below(&mut state, 9);
            writeln!(script, "ulfm 1 {ranks} {comms} {rounds}")?;
        }
        for _ in 0..400 {
            if number % 20 == 0 {
                write_alone(&mut script, &mut state)?;
            } else {
                write_any(&mut script, &mut state)?;
            }
        }
        let (out, end) = run(&rt, &script)?;
        assert_eq!(rt; end, Ok(()));
        all.extend_from_slice(&out)?;
    }
    let wanted: [&[u8]; 31] = [
        b"declared",
        b"already-failed",
        b"failed none",
        b"failed 1",
        b"acked 0",
        b"acked 1",
        b"started",
        b"pending",
        b"agreed",
        b"shrunk",
        b"freed",
        b"done",
        b"revoked",
        b"already-revoked",
        b"yes",
        b"no",
        b"refused 1 self-failed",
        b"refused 2 no-such-comm",
        b"refused 3 busy",
        b"refused 4 shrink-open",
        b"refused 5 rounds-used-up",
        b"refused 6 idle",
        b"refused 7 mismatch",
        b"refused 8 no-context",
        b"refused 9 no-room",
        b"refused 10 is-revoked",
        b"refused 11 proc-failed",
        b"refused 12 world-kept",
        b"refused 13 no-such-rank",
        b"shrunk 2",
        b"shrunk 63",
    ];
    for beginning in wanted {
        assert!(rt; has_line(&all, beginning), "{beginning:?}");
    }
    Ok(())
}

/// Refusals, each in the states that it comes in.
#[test]
fn refusals_come_in_their_states(rt: HostRuntime) -> Result<(), Fail> {
    let scripts: [(&str, &[u8], &[u8]); 4] = [
        (
            "first_refusal",
            b"ulfm 1 1 1 2\nget 0 1\npoll 0 0\nagree 0 0 00000001\nagree 0 0 00000001\npoll 0 0\nagree 0 0 00000001\npoll 1 0\nfail 0\n\
                get 0 1\n",
            b"refused 2 no-such-comm\nrefused 6 idle\nstarted\nrefused 3 busy\nagreed 00000001 failed 0 clean\nrefused 5 rounds-used-up\n\
                refused 13 no-such-rank\ndeclared\nrefused 1 self-failed\n",
        ),
        (
            "failed_after_arriving",
            b"ulfm 1 2 1 1\nbarrier 0 0\nbarrier 1 0\nfail 1\npoll 0 0\nbarrier 0 0\n",
            b"started\nstarted\ndeclared\ndone\nrefused 5 rounds-used-up\n",
        ),
        (
            "one_rank_of_three_rounds",
            b"ulfm 1 1 1 3\npoll 0 0\nagree 0 0 00000001\nagree 0 0 00000001\nbarrier 0 0\npoll 0 0\npoll 0 0\nagree 0 0 00000003\n\
                agree 0 0 00000003\npoll 0 0\nagree 0 0 00000003\nshrink 0 0\nshrink 0 0\npoll 0 0\nshrink 0 0\nbarrier 0 0\npoll 0 0\n\
                get 0 1\nack 0 1 1\nagree 0 1 00000001\npoll 0 1\nget 1 0\nagree 1 1 00000001\nfail 0\nagree 0 0 00000001\npoll 0 1\n\
                get 1 1\n",
            b"refused 6 idle\nstarted\nrefused 3 busy\nrefused 3 busy\nagreed 00000001 failed 0 clean\nrefused 6 idle\nstarted\n\
                refused 3 busy\nagreed 00000003 failed 0 clean\nrefused 5 rounds-used-up\nstarted\nrefused 3 busy\nrefused 9 no-room\n\
                refused 5 rounds-used-up\nstarted\ndone\nrefused 2 no-such-comm\nrefused 2 no-such-comm\nrefused 2 no-such-comm\n\
                refused 2 no-such-comm\nrefused 13 no-such-rank\nrefused 13 no-such-rank\ndeclared\nrefused 1 self-failed\n\
                refused 1 self-failed\nrefused 13 no-such-rank\n",
        ),
        (
            "refused_for_good",
            b"ulfm 1 2 2 4\nagree 1 0 00000001\nfail 1\npoll 1 0\nget 1 0\nack 1 0 1\nagree 1 0 00000001\nshrink 1 0\nbarrier 1 0\n\
                poll 1 0\nrevoke 1 0\nisrevoked 1 0\nfree 1 0\npoll 1 3\nisrevoked 0 0\nfail 1\n",
            b"started\ndeclared\nrefused 1 self-failed\nrefused 1 self-failed\nrefused 1 self-failed\nrefused 1 self-failed\n\
                refused 1 self-failed\nrefused 1 self-failed\nrefused 1 self-failed\nrefused 1 self-failed\nrefused 1 self-failed\n\
                refused 1 self-failed\nrefused 1 self-failed\nno\nalready-failed\n",
        ),
    ];
    for (name, script, wanted) in scripts {
        let (out, end) = run(&rt, script)?;
        assert_eq!(rt; out.as_slice(), wanted, "{name}");
        assert_eq!(rt; end, Ok(()), "{name}");
    }
    Ok(())
}

/// The worked rows.
#[test]
fn worked_rows(rt: HostRuntime) -> Result<(), Fail> {
    let rows: [(&str, &[u8], &[u8]); 19] = [
        (
            "acknowledged_by_all",
            b"ulfm 1 3 1 4\nfail 2\nack 0 0 1\nack 1 0 1\nagree 0 0 0000000f\nagree 1 0 0000003c\npoll 0 0\npoll 1 0\n",
            b"declared\nacked 1\nacked 1\nstarted\nstarted\nagreed 0000000c failed 1 clean\nagreed 0000000c failed 1 clean\n",
        ),
        (
            "acknowledged_by_one",
            b"ulfm 1 3 1 4\nfail 2\nack 0 0 1\nagree 0 0 0000000f\nagree 1 0 0000003c\npoll 0 0\npoll 1 0\n",
            b"declared\nacked 1\nstarted\nstarted\nagreed 0000000c failed 1 raised\nagreed 0000000c failed 1 raised\n",
        ),
        (
            "acknowledged_too_late",
            b"ulfm 1 2 1 4\nfail 1\nagree 0 0 00000001\nack 0 0 1\npoll 0 0\n",
            b"declared\nstarted\nacked 1\nagreed 00000001 failed 1 raised\n",
        ),
        (
            "acknowledgements_count",
            b"ulfm 1 3 1 2\nget 0 0\nfail 1\nfail 2\nack 0 0 0\nack 0 0 1\nack 0 0 9\nack 0 0 1\nget 0 0\nfail 1\nfail 7\n",
            b"failed none\ndeclared\ndeclared\nacked 0\nacked 1\nacked 2\nacked 2\nfailed 1 2\nalready-failed\nrefused 13 no-such-rank\n",
        ),
        (
            "agree_meets_shrink",
            b"ulfm 1 2 2 4\nagree 0 0 0000000f\nshrink 1 0\npoll 0 0\npoll 1 0\nagree 0 0 0000000f\nagree 1 0 00000003\npoll 1 0\n",
            b"started\nstarted\nrefused 7 mismatch\nrefused 7 mismatch\nstarted\nstarted\nagreed 00000003 failed 0 clean\n",
        ),
        (
            "agrees_though_revoked",
            b"ulfm 1 2 4 8\nrevoke 1 0\nrevoke 0 0\nbarrier 0 0\npoll 0 0\nagree 0 0 0000000f\nagree 1 0 00000007\npoll 0 0\npoll 1 0\n\
                shrink 0 0\nshrink 1 0\npoll 0 0\npoll 1 0\nisrevoked 0 0\nisrevoked 0 1\n",
            b"revoked\nalready-revoked\nstarted\nrefused 10 is-revoked\nstarted\nstarted\nagreed 00000007 failed 0 clean\n\
                agreed 00000007 failed 0 clean\nstarted\nstarted\nshrunk 1 context 1 members 0 1\nshrunk 1 context 1 members 0 1\nyes\n\
                no\n",
        ),
        (
            "barrier_and_failure_a",
            b"ulfm 1 3 1 4\nbarrier 0 0\nbarrier 1 0\npoll 0 0\nfail 2\npoll 0 0\npoll 0 0\n",
            b"started\nstarted\npending\ndeclared\nrefused 11 proc-failed\nrefused 6 idle\n",
        ),
        (
            "barrier_and_failure_b",
            b"ulfm 1 2 1 4\nbarrier 0 0\nbarrier 1 0\nfail 1\npoll 0 0\n",
            b"started\nstarted\ndeclared\ndone\n",
        ),
        (
            "contexts_come_back_a",
            b"ulfm 1 2 4 8\nshrink 0 0\nshrink 1 0\npoll 0 0\npoll 1 0\nfree 0 1\nshrink 0 0\nshrink 1 0\npoll 0 0\npoll 1 0\n",
            b"started\nstarted\nshrunk 1 context 1 members 0 1\nshrunk 1 context 1 members 0 1\nfreed\nstarted\nstarted\n\
                shrunk 2 context 2 members 0 1\nshrunk 2 context 2 members 0 1\n",
        ),
        (
            "sixteen_digits",
            b"ulfm 1 2 1 4\nagree 0 0 ffffffff0000000f\nagree 1 0 0000000300000007\npoll 0 0\npoll 1 0\n",
            b"started\nstarted\nagreed 0000000300000007 failed 0 clean\nagreed 0000000300000007 failed 0 clean\n",
        ),
        (
            "failed_rank_raises",
            b"ulfm 1 3 1 4\nfail 2\nagree 0 0 0000000f\nagree 1 0 0000003c\npoll 0 0\npoll 1 0\n",
            b"declared\nstarted\nstarted\nagreed 0000000c failed 1 raised\nagreed 0000000c failed 1 raised\n",
        ),
        (
            "fails_after_contributing",
            b"ulfm 1 3 1 4\nagree 0 0 0000000f\nagree 1 0 0000003c\nagree 2 0 00000004\nfail 2\npoll 0 0\npoll 1 0\npoll 2 0\n",
            b"started\nstarted\nstarted\ndeclared\nagreed 00000004 failed 0 clean\nagreed 00000004 failed 0 clean\nrefused 1 self-failed\n",
        ),
        (
            "known_to_the_others",
            b"ulfm 1 3 1 4\nagree 2 0 00000005\nfail 2\nagree 0 0 0000000f\nagree 1 0 00000007\npoll 0 0\npoll 1 0\n",
            b"started\ndeclared\nstarted\nstarted\nagreed 00000005 failed 1 raised\nagreed 00000005 failed 1 raised\n",
        ),
        (
            "one_rank",
            b"ulfm 1 1 1 2\nagree 0 0 000000ff\npoll 0 0\n",
            b"started\nagreed 000000ff failed 0 clean\n",
        ),
        (
            "pending_then_decided",
            b"ulfm 1 3 1 4\nagree 0 0 0000000f\nagree 1 0 0000003c\npoll 0 0\nagree 2 0 00000004\npoll 0 0\n",
            b"started\nstarted\npending\nstarted\nagreed 00000004 failed 0 clean\n",
        ),
        (
            "refusals_in_order",
            b"ulfm 1 2 4 8\nshrink 0 0\nshrink 0 0\npoll 0 0\npoll 1 0\nshrink 1 0\npoll 0 0\nshrink 0 0\nshrink 0 1\n\
                agree 0 1 00000001\nfree 0 1\nfree 0 0\nget 1 1\n",
            b"started\nrefused 3 busy\npending\nrefused 6 idle\nstarted\nshrunk 1 context 1 members 0 1\nstarted\nrefused 4 shrink-open\n\
                started\nrefused 3 busy\nrefused 12 world-kept\nrefused 2 no-such-comm\n",
        ),
        (
            "rounds_and_room_used_up",
            b"ulfm 1 2 1 1\nagree 0 0 00000001\nshrink 0 0\nshrink 1 0\npoll 0 0\npoll 1 0\nshrink 0 0\n",
            b"refused 5 rounds-used-up\nstarted\nstarted\nrefused 9 no-room\nrefused 9 no-room\nrefused 5 rounds-used-up\n",
        ),
        (
            "shrinks_keep_order",
            b"ulfm 1 4 4 4\nfail 1\nshrink 3 0\nshrink 0 0\nshrink 2 0\npoll 3 0\npoll 0 0\npoll 2 0\nfail 0\nshrink 3 1\nshrink 2 1\n\
                poll 3 1\npoll 2 1\n",
            b"declared\nstarted\nstarted\nstarted\nshrunk 1 context 1 members 0 2 3\nshrunk 1 context 1 members 0 2 3\n\
                shrunk 1 context 1 members 0 2 3\ndeclared\nstarted\nstarted\nshrunk 2 context 2 members 2 3\n\
                shrunk 2 context 2 members 2 3\n",
        ),
        (
            "three_flags",
            b"ulfm 1 3 1 4\nagree 0 0 0000000f\nagree 1 0 0000003c\nagree 2 0 ffffffff\npoll 0 0\npoll 1 0\npoll 2 0\n",
            b"started\nstarted\nstarted\nagreed 0000000c failed 0 clean\nagreed 0000000c failed 0 clean\nagreed 0000000c failed 0 clean\n",
        ),
    ];
    for (name, script, wanted) in rows {
        let (out, end) = run(&rt, script)?;
        assert_eq!(rt; out.as_slice(), wanted, "{name}");
        assert_eq!(rt; end, Ok(()), "{name}");
    }
    Ok(())
}

/// One rank shrinks so often alone, and gets the next communicator and the next context each time.
fn write_shrinks(script: &mut Vec<u8>, wanted: &mut Vec<u8>, count: u16) -> io::Result<()> {
    for made in 1..=count {
        writeln!(script, "shrink 0 0\npoll 0 0")?;
        writeln!(wanted, "started\nshrunk {made} context {made} members 0")?;
    }
    Ok(())
}

/// A context that is given back is taken again before the next one, and where none was left.
#[test]
fn contexts_come_back_to_one_rank(rt: HostRuntime) -> Result<(), Fail> {
    let refused = ("shrink 0 0\npoll 0 0\n", "started\nrefused 8 no-context\n");
    for (room, count, (more, told)) in [(40, 32, ("", "")), (70, 63, refused)] {
        let mut script = Vec::new(rt.alloc());
        let mut wanted = Vec::new(rt.alloc());
        writeln!(script, "ulfm 1 1 {room} {room}")?;
        write_shrinks(&mut script, &mut wanted, count)?;
        let next = count + 1;
        writeln!(script, "{more}free 0 7\nshrink 0 0\npoll 0 0")?;
        writeln!(
            wanted,
            "{told}freed\nstarted\nshrunk {next} context 7 members 0"
        )?;
        let (out, end) = run(&rt, &script)?;
        assert_eq!(rt; out.as_slice(), wanted.as_slice(), "{count}");
        assert_eq!(rt; end, Ok(()), "{count}");
    }
    Ok(())
}

/// The first fault of a line, and what the lines before it print.
#[test]
fn line_faults(rt: HostRuntime) -> Result<(), Fail> {
    let rows: [(&[u8], &[u8], Result<(), RunFault>); 17] = [
        (
            b"ulfm 1 2 1 4\nagree 0 0 0000000f\npoll 0",
            b"started\n",
            line(3, LineKind::Cut),
        ),
        (b"", b"", line(1, LineKind::Header)),
        (
            b"ulfm 1 2 1 4\nagree 0 0 00000000f\n",
            b"",
            line(2, LineKind::Flag),
        ),
        (b"ulfm 1 2 1 4\nfail 1024\n", b"", line(2, LineKind::Number)),
        (b"ulfm 1 1024 1 2048\n", b"", line(1, LineKind::Limits)),
        (b"ulfm 1 1024 1 2047\n", b"", Ok(())),
        (b"ulfm 1 3 1\n", b"", line(1, LineKind::Header)),
        (b"ulfm 1 03 1 4\n", b"", line(1, LineKind::Header)),
        (b"ulfm 3 3 1 4\n", b"", line(1, LineKind::Header)),
        (b"ulfm 1 10000 1 1\n", b"", line(1, LineKind::Header)),
        (b"ulfm 1 0 1 1\n", b"", line(1, LineKind::Limits)),
        (b"ulfm 1 9999 1 1\n", b"", line(1, LineKind::Limits)),
        (b"ulfm 1 2 256 4096\n", b"", line(1, LineKind::Limits)),
        (b"ulfm 1 1 256 4096\n", b"", Ok(())),
        (b"ulfm 1 1023 1 2048\n", b"", Ok(())),
        (
            b"ulfm 1 3 1 4\nfail 1023\n",
            b"refused 13 no-such-rank\n",
            Ok(()),
        ),
        (
            b"ulfm 1 3 1 4\nagree 0 3 00000001\n",
            b"refused 2 no-such-comm\n",
            Ok(()),
        ),
    ];
    for (script, wanted, ends) in rows {
        let (out, end) = run(&rt, script)?;
        let text = std::str::from_utf8(script).unwrap_or("no text");
        assert_eq!(rt; end, ends, "{text}");
        assert_eq!(rt; out.as_slice(), wanted, "{text}");
    }
    for (text, kind) in LINE_FAULTS {
        let mut script = Vec::from_slice(rt.alloc(), b"ulfm 1 3 1 4\n")?;
        script.extend_from_slice(text)?;
        let (out, end) = run(&rt, &script)?;
        let name = std::str::from_utf8(text).unwrap_or("no text");
        let told = match end {
            Err(fault) => format!(in rt.alloc(); "{fault}")?,
            Ok(()) => String::new(rt.alloc()),
        };
        let wanted = format!(in rt.alloc(); "line 2: {kind}")?;
        assert_eq!(rt; told.as_str(), wanted.as_str(), "{name}");
        assert!(rt; out.is_empty(), "{name}");
    }
    Ok(())
}

fn count_lines(text: &[u8]) -> usize {
    text.iter().filter(|byte| **byte == b'\n').count()
}

/// Where memory is refused, a run has taken of its input the lines that it ran, the header first, and the line under work.
#[test]
fn memory_is_refused_in_a_line(rt: HostRuntime) -> Result<(), Fail> {
    let script: &[u8] =
        b"ulfm 1 2 2 2\nfail 1\nget 0 0\nagree 0 0 0000000f\npoll 0 0\nshrink 0 0\npoll 0 0\nget 0 1\n";
    let (all, _) = run(&rt, script)?;
    let mut furthest = 0;
    for step in 1..4000usize {
        let heap = LocalHeap::new(rt.alloc(), step.wrapping_mul(16))?;
        let Ok(mut input) = Input::new(&heap) else {
            continue;
        };
        let mut reader = script;
        let mut out = Vec::new(rt.alloc());
        let end = run_script_through::<WordsMachine<_>, _, _, _>(
            &heap,
            &mut input,
            &mut reader,
            &mut out,
        );
        let left = reader.len().saturating_add(input.pending().len());
        let taken = count_lines(&script[..script.len().saturating_sub(left)]);
        if end.is_ok() {
            assert_eq!(rt; out.as_slice(), all.as_slice());
            assert_eq!(rt; left, 0);
            assert!(rt; furthest > 3);
            return Ok(());
        }
        assert_eq!(rt; end, Err(RunFault::Memory));
        assert!(rt; all.starts_with(&out));
        assert_eq!(rt; count_lines(&out), taken.saturating_sub(2));
        furthest = furthest.max(taken);
    }
    Err(Fail::from("memory was refused at each size"))
}
