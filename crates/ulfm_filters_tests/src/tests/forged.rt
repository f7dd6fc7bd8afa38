//! Input that nobody meant: lines, headers and traces that are cut, too long or forged.
use crate::tests::filtered::require_answer;
use std::alloc::Global;
use std::test::Fail;
use ulfm_devices::faults::LINE_FAULTS;
use ulfm_devices::traces::TRACE_JUDGED_A;
use ulfm_filters::Filter;

/// Each line is the second of a script, and has its fault.
#[test]
fn forged_lines(rt: HostRuntime) -> Result<(), Fail> {
    for (line, kind) in LINE_FAULTS {
        let mut script = Vec::from_slice(rt.alloc(), b"ulfm 1 3 1 4\n")?;
        script.extend_from_slice(line)?;
        let fault = format!(in rt.alloc(); "ulfm: line 2: {kind}\n")?;
        require_answer(
            rt.alloc(),
            Filter::Calls,
            &script,
            (b"", fault.as_bytes(), 1),
        )?;
    }
    Ok(())
}

/// Scripts of one line or two, with what is printed and told of each: a fault of the header, none where a world of these limits is opened; and
/// numbers that are well written, of a rank and a communicator that there aren't.
#[test]
fn forged_scripts(rt: HostRuntime) -> Result<(), Fail> {
    let rows: [(&[u8], &[u8], &[u8], u8); 10] = [
        (b"ulfm 1 3 1\n", b"", b"ulfm: line 1: header\n", 1),
        (b"ulfm 1 03 1 4\n", b"", b"ulfm: line 1: header\n", 1),
        (b"ulfm 3 3 1 4\n", b"", b"ulfm: line 1: header\n", 1),
        (b"ulfm 1 0 1 1\n", b"", b"ulfm: line 1: limits\n", 1),
        (b"ulfm 1 9999 1 1\n", b"", b"ulfm: line 1: limits\n", 1),
        (b"ulfm 1 2 256 4096\n", b"", b"ulfm: line 1: limits\n", 1),
        (b"ulfm 1 1 256 4096\n", b"", b"", 0),
        (b"ulfm 1 1023 1 2048\n", b"", b"", 0),
        (
            b"ulfm 1 3 1 4\nfail 1023\n",
            b"refused 13 no-such-rank\n",
            b"",
            0,
        ),
        (
            b"ulfm 1 3 1 4\nagree 0 3 00000001\n",
            b"refused 2 no-such-comm\n",
            b"",
            0,
        ),
    ];
    for (script, output, fault, ends) in rows {
        require_answer(rt.alloc(), Filter::Calls, script, (output, fault, ends))?;
    }
    Ok(())
}

/// A change of one line of a text, counted from 1.
#[derive(Clone, Copy)]
enum Change {
    /// Another line stands in its place.
    Becomes(&'static str),
    Twice,
    LeftOut,
    /// This line comes behind it.
    Followed(&'static str),
    WithoutNewline,
}

/// A line, with its newline.
fn put_line(text: &mut Vec<u8>, line: &[u8]) -> Result<(), Fail> {
    text.extend_from_slice(line)?;
    text.push(b'\n')?;
    Ok(())
}

/// The line as it is changed.
fn put_changed(text: &mut Vec<u8>, line: &[u8], change: Change) -> Result<(), Fail> {
    match change {
        Change::Becomes(other) => put_line(text, other.as_bytes())?,
        Change::LeftOut => {}
        Change::WithoutNewline => text.extend_from_slice(line)?,
        Change::Twice => {
            put_line(text, line)?;
            put_line(text, line)?;
        }
        Change::Followed(other) => {
            put_line(text, line)?;
            put_line(text, other.as_bytes())?;
        }
    }
    Ok(())
}

/// The text with this change of the line of this number.
fn changed(alloc: Global, text: &str, number: usize, change: Change) -> Result<Vec<u8>, Fail> {
    let mut forged = Vec::new(alloc);
    for (at, line) in text.lines().enumerate() {
        if at.wrapping_add(1) == number {
            put_changed(&mut forged, line.as_bytes(), change)?;
        } else {
            put_line(&mut forged, line.as_bytes())?;
        }
    }
    Ok(forged)
}

/// Changes of the trace of `contribution_in_flight`, and the line and the reason by which the judge calls each illegal.
const FORGED: [(usize, Change, &str); 9] = [
    (10, Change::Becomes("look 0 0"), "10 look"),
    (10, Change::Twice, "11 look"),
    (
        11,
        Change::Becomes("event 0 settle 0 0 0 flag 0000000f known 0 acked 0"),
        "12 reply",
    ),
    (
        11,
        Change::Becomes("event 1 settle 0 0 0 flag 0000000f known 1 acked 0"),
        "11 own",
    ),
    (12, Change::Becomes("reply 0 2 started"), "12 reply"),
    (12, Change::Becomes("reply 0 4 started"), "12 reply"),
    (
        12,
        Change::Followed("event - mark 0 0 1 known 1"),
        "13 event",
    ),
    (9, Change::LeftOut, "9 call"),
    (22, Change::WithoutNewline, "22 text"),
];

#[test]
fn forged_traces(rt: HostRuntime) -> Result<(), Fail> {
    for (number, change, wanted) in FORGED {
        let trace = changed(rt.alloc(), TRACE_JUDGED_A.script, number, change)?;
        let verdict = format!(in rt.alloc(); "illegal line {wanted}\n")?;
        let wanted = (verdict.as_bytes(), b"".as_slice(), 1);
        require_answer(rt.alloc(), Filter::Check, &trace, wanted)?;
    }
    Ok(())
}

/// The first lines of a legal trace are one, from the header alone on.
#[test]
fn first_lines_are_legal(rt: HostRuntime) -> Result<(), Fail> {
    let mut trace = Vec::new(rt.alloc());
    let mut count = 0u32;
    for line in TRACE_JUDGED_A.script.lines() {
        put_line(&mut trace, line.as_bytes())?;
        count = count.wrapping_add(1);
        require_answer(rt.alloc(), Filter::Check, &trace, (b"legal\n", b"", 0))?;
    }
    assert_eq!(rt; count, 22);
    Ok(())
}
