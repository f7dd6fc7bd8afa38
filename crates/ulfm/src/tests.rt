//! Command lines through the program, and what it does by each of them.
use crate::program::answer;
use std::alloc::Global;
use std::io::{Read, Write};
use std::sync::Wait;
use std::test::Fail;
use std::thread::Threads;
use ulfm_devices::{FailureMode, LimitedWriter};
use ulfm_draw::Looks;

mod races;

/// A script of one rank, for words by which nothing is read, and for writers that fail.
const SCRIPT: &str = "ulfm 1 1 1 2\nagree 0 0 000000ff\npoll 0 0\n";

/// What the program tells on standard error by these words, over this input and this output, and its status.
fn told<T: Threads + Wait + Sync, R: Read, W: Write>(
    rt: &T,
    alloc: Global,
    words: &[&str],
    input: &mut R,
    output: &mut W,
) -> (Vec<u8>, u8) {
    let mut errors = Vec::new(alloc);
    let status = answer(
        rt,
        alloc,
        alloc,
        words,
        input,
        output,
        &mut errors,
        false,
        Looks::Ascii,
    );
    (errors, status)
}

/// What the program gives for a text by these words: its output, what it tells on standard error, and its status.
fn answered<T: Threads + Wait + Sync>(
    rt: &T,
    alloc: Global,
    words: &[&str],
    text: &[u8],
) -> (Vec<u8>, Vec<u8>, u8) {
    let mut input = text;
    let mut output = Vec::new(alloc);
    let (errors, status) = told(rt, alloc, words, &mut input, &mut output);
    (output, errors, status)
}

/// The program gives this for a text by these words.
fn require_answer<T: Threads + Wait + Sync>(
    rt: &T,
    alloc: Global,
    words: &[&str],
    text: &[u8],
    wanted: (&[u8], &[u8], u8),
) -> Result<(), Fail> {
    let (output, errors, status) = answered(rt, alloc, words, text);
    require(output.as_slice() == wanted.0)?;
    require(errors.as_slice() == wanted.1)?;
    require(status == wanted.2)
}

/// A condition that a test wants.
fn require(holds: bool) -> Result<(), Fail> {
    if holds {
        return Ok(());
    }
    Err(Fail::from("a condition doesn't hold"))
}

/// A text through each of the filters, by the words that name it.
#[test]
fn words_name_filters(rt: HostRuntime) -> Result<(), Fail> {
    let rows: [(&[&str], &str, (&[u8], &[u8], u8)); 6] = [
        (
            &["ulfm", "run"],
            SCRIPT,
            (b"started\nagreed 000000ff failed 0 clean\n", b"", 0),
        ),
        (
            &["ulfm", "run", "--echo"],
            SCRIPT,
            (
                b"agree 0 0 000000ff -> started\npoll 0 0 -> agreed 000000ff failed 0 clean\n",
                b"",
                0,
            ),
        ),
        (
            &["ulfm", "run", "--echo", "--steps"],
            "ulfm-steps 1 2 1 2\ncall agree 0 0 00000001\n",
            (b"ulfm-trace 1 2 1 2\ncall agree 0 0 00000001\n", b"", 0),
        ),
        (
            &["ulfm", "check", "--explain"],
            "ulfm-trace 1 2 1 2\nlook 1 0\n",
            (
                b"illegal line 2 call\n  line 2: look 1 0\n  wrong: the caller, since rank 1 has no call under way\n",
                b"",
                1,
            ),
        ),
        (
            &["ulfm", "run", "--steps"],
            "ulfm-steps 1 2 1 2\ncall agree 0 0 00000001\nbefore 1 exchange\n",
            (
                b"ulfm-trace 1 2 1 2\ncall agree 0 0 00000001\n",
                b"ulfm: line 3: step\n",
                1,
            ),
        ),
        (&["ulfm", "check"], "", (b"illegal line 1 text\n", b"", 1)),
    ];
    for (words, text, wanted) in rows {
        require_answer(&rt, rt.alloc(), words, text.as_bytes(), wanted)?;
    }
    Ok(())
}

/// Whether at this status help is written, or at 2 nothing is written and a bad command line told; nothing is read at either.
fn helps_or_refuses<T: Threads + Wait + Sync>(
    rt: &T,
    alloc: Global,
    words: &[&str],
    wanted: u8,
) -> bool {
    let mut input = SCRIPT.as_bytes();
    let mut output = Vec::new(alloc);
    let (errors, status) = told(rt, alloc, words, &mut input, &mut output);
    let text = str::from_utf8(&output).unwrap_or("");
    let is_told = if wanted == 2 {
        errors.as_slice() == b"ulfm: bad command line\n".as_slice() && output.is_empty()
    } else {
        errors.is_empty() && text.contains("ulfm: bad command line") && text.contains("Usage: ulfm")
    };
    is_told && status == wanted && input.len() == SCRIPT.len()
}

/// Nothing is read where only help is asked for or the command line is bad.
#[test]
fn command_lines(rt: HostRuntime) -> Result<(), Fail> {
    let rows: [(&[&str], u8); 13] = [
        (&["ulfm", "--help"], 0),
        (&["ulfm", "run", "--help"], 0),
        (&["ulfm", "help", "run"], 0),
        (&["ulfm", "check", "--help"], 0),
        (&["ulfm", "help", "check"], 0),
        (&["ulfm", "race", "--help"], 0),
        (&["ulfm", "help", "race"], 0),
        (&["ulfm", "run", "--version"], 2),
        (&["ulfm"], 2),
        (&["ulfm", "judge"], 2),
        (&["ulfm", "run", "--step"], 2),
        (&["ulfm", "run", "script"], 2),
        (&[], 2),
    ];
    for (words, wanted) in rows {
        require(helps_or_refuses(&rt, rt.alloc(), words, wanted))?;
    }
    Ok(())
}

/// The version is one line.
#[test]
fn version_is_told(rt: HostRuntime) -> Result<(), Fail> {
    for word in ["--version", "-V"] {
        let wanted = (b"ulfm 0.1.0\n".as_slice(), b"".as_slice(), 0);
        require_answer(&rt, rt.alloc(), &["ulfm", word], SCRIPT.as_bytes(), wanted)?;
    }
    Ok(())
}

/// On a terminal the reason why a command line is bad stands above the one line.
#[test]
fn reasons_are_explained(rt: HostRuntime) -> Result<(), Fail> {
    let rows: [&[&str]; 4] = [
        &["ulfm"],
        &["ulfm", "walk"],
        &["ulfm", "race", "--ranks", "65", "--rounds", "1"],
        &[
            "ulfm", "race", "--ranks", "4", "--rounds", "1", "--fail", "4",
        ],
    ];
    for words in rows {
        let mut input = SCRIPT.as_bytes();
        let mut output = Vec::new(rt.alloc());
        let mut errors = Vec::new(rt.alloc());
        let status = answer(
            &rt,
            rt.alloc(),
            rt.alloc(),
            words,
            &mut input,
            &mut output,
            &mut errors,
            true,
            Looks::Ascii,
        );
        assert!(rt; errors.starts_with(b"error: "));
        assert!(rt; errors.ends_with(b"\nulfm: bad command line\n"));
        assert!(rt; output.is_empty());
        assert_eq!(rt; status, 2);
    }
    Ok(())
}

/// A flush that fails is a failing write, at the end of a run and after help.
#[test]
fn flush_fails(rt: HostRuntime) -> Result<(), Fail> {
    for word in ["run", "--help"] {
        let mut input = SCRIPT.as_bytes();
        let mut output = LimitedWriter::new(rt.alloc(), 10_000, 0, FailureMode::AtFlush);
        let (errors, status) = told(&rt, rt.alloc(), &["ulfm", word], &mut input, &mut output);
        assert_eq!(rt; errors.as_slice(), b"ulfm: write failed\n".as_slice());
        assert_eq!(rt; status, 3);
    }
    Ok(())
}

/// A fault of the error stream is passed over.
#[test]
fn errors_fail(rt: HostRuntime) -> Result<(), Fail> {
    let rows: [(&str, &str, u8); 2] = [("run", "", 1), ("walk", "", 2)];
    for (word, script, wanted) in rows {
        let mut input = script.as_bytes();
        let mut output = Vec::new(rt.alloc());
        let mut errors = LimitedWriter::new(rt.alloc(), 1, 1, FailureMode::ByError);
        let status = answer(
            &rt,
            rt.alloc(),
            rt.alloc(),
            &["ulfm", word],
            &mut input,
            &mut output,
            &mut errors,
            false,
            Looks::Ascii,
        );
        assert_eq!(rt; status, wanted);
    }
    Ok(())
}
