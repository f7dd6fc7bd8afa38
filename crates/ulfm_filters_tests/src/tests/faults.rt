//! What is told of the faults of lines, and of words that can't be read.
use crate::tests::filtered::require_answer;
use std::test::Fail;
use ulfm_filters::{Filter, Unread, tell_unread};

/// Each kind of line fault is told by its name.
#[test]
fn each_kind_is_told(rt: HostRuntime) -> Result<(), Fail> {
    let rows: [(&[u8], &[u8]); 8] = [
        (b"ulfm 1 1 1 1\nfail 0", b"ulfm: line 2: cut\n"),
        (
            b"ulfm 1 1 1 1\nfail 0000000000000000000000000000000000000000000000000000000000000\n",
            b"ulfm: line 2: long\n",
        ),
        (b"ulfm 3 1 1 1\n", b"ulfm: line 1: header\n"),
        (b"ulfm 1 1025 1 1\n", b"ulfm: line 1: limits\n"),
        (b"ulfm 1 1 1 1\n\n", b"ulfm: line 2: verb\n"),
        (b"ulfm 1 1 1 1\nfail\n", b"ulfm: line 2: words\n"),
        (b"ulfm 1 1 1 1\nfail -1\n", b"ulfm: line 2: number\n"),
        (b"ulfm 1 1 1 1\nagree 0 0 1\n", b"ulfm: line 2: flag\n"),
    ];
    for (script, wanted) in rows {
        require_answer(rt.alloc(), Filter::Calls, script, (b"", wanted, 1))?;
    }
    Ok(())
}

/// The last line that a script may have is answered, and one more is a fault behind the same output.
#[test]
fn last_line(rt: HostRuntime) -> Result<(), Fail> {
    let alloc = rt.alloc();
    let mut script = Vec::from_slice(alloc, b"ulfm 1 1 1 1\n")?;
    let mut wanted = Vec::new(alloc);
    for _ in 2..100_001 {
        script.extend_from_slice(b"fail 9\n")?;
        wanted.extend_from_slice(b"refused 13 no-such-rank\n")?;
    }
    let rows: [(&[u8], &[u8], u8); 2] = [
        (b"", b"", 0),
        (b"fail 9\n", b"ulfm: line 100001: lines\n", 1),
    ];
    for (more, fault, ends) in rows {
        script.extend_from_slice(more)?;
        require_answer(alloc, Filter::Calls, &script, (&wanted, fault, ends))?;
    }
    Ok(())
}

/// Words that can't be read are told: for want of memory, and where one isn't UTF-8.
#[test]
fn unread_words(rt: HostRuntime) -> Result<(), Fail> {
    let rows: [(Unread, &[u8], u8); 2] = [
        (Unread::Memory, b"ulfm: out of memory\n", 3),
        (Unread::NoText, b"ulfm: bad command line\n", 2),
    ];
    for (fault, line, ends) in rows {
        let mut errors = Vec::new(rt.alloc());
        assert_eq!(rt; tell_unread(fault, &mut errors), ends);
        assert_eq!(rt; errors.as_slice(), line);
    }
    Ok(())
}
