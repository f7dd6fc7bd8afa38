//! Races through the program.
use crate::program::answer;
use crate::tests::{require, told};
use linked_list_allocator::LocalHeap;
use std::alloc::{AllocError, Global};
use std::sync::Wait;
use std::test::Fail;
use std::thread::Threads;
use ulfm_devices::{FailureMode, LimitedWriter};
use ulfm_draw::Looks;

/// What a race of these words writes and tells, and its status; nothing is read.
fn raced<T: Threads + Wait + Sync>(
    rt: &T,
    alloc: Global,
    words: &[&str],
) -> Result<(Vec<u8>, Vec<u8>, u8), Fail> {
    let mut input = b"not read".as_slice();
    let mut output = Vec::new(alloc);
    let (errors, status) = told(rt, alloc, words, &mut input, &mut output);
    require(input == b"not read".as_slice())?;
    Ok((output, errors, status))
}

/// What a race of these words writes, where it is run.
fn run_race<T: Threads + Wait + Sync>(
    rt: &T,
    alloc: Global,
    words: &[&str],
) -> Result<Vec<u8>, Fail> {
    let (output, errors, status) = raced(rt, alloc, words)?;
    require(status == 0)?;
    require(errors.is_empty())?;
    Ok(output)
}

#[test]
fn race_of_four(rt: HostRuntime) -> Result<(), Fail> {
    let words = ["ulfm", "race", "--ranks", "4", "--rounds", "2"];
    let output = run_race(&rt, rt.alloc(), &words)?;
    let wanted: &[u8] = b"round 0 agreed fffffff0 failed 0 clean
round 1 agreed ffffffe1 failed 0 clean
shrunk 1 context 1 members 0 1 2 3
";
    assert_eq!(rt; output.as_slice(), wanted);
    Ok(())
}

/// The least race, and one in which each value stands behind `=`.
#[test]
fn small_races(rt: HostRuntime) -> Result<(), Fail> {
    let rows: [(&[&str], &[u8]); 2] = [
        (
            &["ulfm", "race", "--ranks=1", "--rounds=1"],
            b"round 0 agreed fffffffe failed 0 clean\nshrunk 1 context 1 members 0\n",
        ),
        (
            &["ulfm", "race", "--rounds", "1", "--ranks", "2"],
            b"round 0 agreed fffffffc failed 0 clean\nshrunk 1 context 1 members 0 1\n",
        ),
    ];
    for (words, wanted) in rows {
        let output = run_race(&rt, rt.alloc(), words)?;
        assert_eq!(rt; output.as_slice(), wanted);
    }
    Ok(())
}

/// The flags that ranks contribute to a round, combined.
fn combined(round: u32, ranks: &[u32]) -> u32 {
    let mut bits = u32::MAX;
    for rank in ranks {
        bits &= !(1 << (rank.wrapping_add(round) % 32));
    }
    bits
}

/// The line of a round of 4 ranks.
fn round_line(alloc: Global, round: u32, bits: u32, end: &str) -> Result<String, AllocError> {
    format!(in alloc; "round {round} agreed {bits:08x} failed {end}")
}

/// Whether a line of a round says that rank 2 was declared; none where it is no line of that round.
fn tells_declared(alloc: Global, round: u32, line: &str) -> Result<Option<bool>, AllocError> {
    let with = combined(round, &[0, 1, 2, 3]);
    let without = combined(round, &[0, 1, 3]);
    let clean = round_line(alloc, round, with, "0 clean")?;
    let raised = round_line(alloc, round, with, "1 raised")?;
    let alone = round_line(alloc, round, without, "1 raised")?;
    if line == clean.as_str() {
        return Ok(Some(false));
    }
    if line == raised.as_str() || line == alone.as_str() {
        return Ok(Some(true));
    }
    Ok(None)
}

/// Whether the lines are those of a race of 4 ranks and 20 rounds in which rank 2 was declared at some point.
fn tells_failure(alloc: Global, output: &[u8]) -> Result<bool, AllocError> {
    let Ok(text) = str::from_utf8(output) else {
        return Ok(false);
    };
    let mut lines = text.lines();
    let mut failed = false;
    for round in 0..20u32 {
        let Some(line) = lines.next() else {
            return Ok(false);
        };
        match tells_declared(alloc, round, line)? {
            Some(declared) if declared || !failed => failed = declared,
            _ => return Ok(false),
        }
    }
    let last = lines.next();
    let survivors = last == Some("shrunk 1 context 1 members 0 1 3");
    let all = last == Some("shrunk 1 context 1 members 0 1 2 3");
    Ok((survivors || (all && !failed)) && lines.next().is_none())
}

#[test]
fn race_with_failure(rt: HostRuntime) -> Result<(), Fail> {
    let words = [
        "ulfm", "race", "--ranks", "4", "--rounds", "20", "--fail", "2",
    ];
    for _ in 0..50 {
        let output = run_race(&rt, rt.alloc(), &words)?;
        assert!(rt; tells_failure(rt.alloc(), &output)?);
    }
    Ok(())
}

/// A value out of its range, and one that is missing, given twice or no number, are bad.
#[test]
fn bad_races(rt: HostRuntime) -> Result<(), Fail> {
    let rows: [&[&str]; 14] = [
        &["ulfm", "race"],
        &["ulfm", "race", "--ranks", "4"],
        &["ulfm", "race", "--rounds", "2"],
        &["ulfm", "race", "--ranks", "0", "--rounds", "2"],
        &["ulfm", "race", "--ranks", "65", "--rounds", "2"],
        &["ulfm", "race", "--ranks", "4", "--rounds", "0"],
        &["ulfm", "race", "--ranks", "4", "--rounds", "1001"],
        &["ulfm", "race", "--ranks", "-4", "--rounds", "2"],
        &["ulfm", "race", "--ranks", "four", "--rounds", "2"],
        &[
            "ulfm", "race", "--ranks", "4", "--ranks", "4", "--rounds", "2",
        ],
        &["ulfm", "race", "--ranks", "4", "--rounds", "2", "again"],
        &[
            "ulfm", "race", "--ranks", "4", "--rounds", "2", "--fail", "4",
        ],
        &[
            "ulfm", "race", "--ranks", "64", "--rounds", "2", "--fail", "64",
        ],
        &["ulfm", "race", "--ranks", "4", "--rounds", "2", "--fail"],
    ];
    for words in rows {
        let (output, errors, status) = raced(&rt, rt.alloc(), words)?;
        assert_eq!(rt; status, 2);
        assert_eq!(rt; errors.as_slice(), b"ulfm: bad command line\n".as_slice());
        assert!(rt; output.is_empty());
    }
    Ok(())
}

/// A writer that takes nothing or can't be flushed is told.
#[test]
fn races_that_fail(rt: HostRuntime) -> Result<(), Fail> {
    let words = ["ulfm", "race", "--ranks", "2", "--rounds", "1"];
    for how in [FailureMode::ByNothing, FailureMode::AtFlush] {
        let mut output = LimitedWriter::new(rt.alloc(), 10_000, 1, how);
        let mut input = b"".as_slice();
        let (errors, status) = told(&rt, rt.alloc(), &words, &mut input, &mut output);
        assert_eq!(rt; errors.as_slice(), b"ulfm: write failed\n".as_slice());
        assert_eq!(rt; status, 3);
    }
    Ok(())
}

/// Memory that is refused to the lines of a race is told.
#[test]
fn lines_are_refused_memory(rt: HostRuntime) -> Result<(), Fail> {
    let alloc = rt.alloc();
    let words = ["ulfm", "race", "--ranks", "2", "--rounds", "1"];
    let heap = LocalHeap::new(alloc, 32)?;
    let mut input = b"".as_slice();
    let mut output = Vec::new(alloc);
    let mut errors = Vec::new(alloc);
    let status = answer(
        &rt,
        &heap,
        alloc,
        &words,
        &mut input,
        &mut output,
        &mut errors,
        false,
        Looks::Ascii,
    );
    assert_eq!(rt; errors.as_slice(), b"ulfm: out of memory\n".as_slice());
    assert!(rt; output.is_empty());
    assert_eq!(rt; status, 3);
    Ok(())
}
