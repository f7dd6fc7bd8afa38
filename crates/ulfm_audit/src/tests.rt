//! The lines of logs, against lines and digests from elsewhere, and what is no log.
use crate::{AuditFault, audit};
use std::alloc::Global;
use std::process::Abort;
use std::test::Fail;

/// A head of a world of 1 rank, 1 communicator and 2 rounds.
const HEAD: [u8; 24] = [
    b'u', b'l', b'f', b'm', b' ', b'l', b'o', b'g', 1, 0, 1, 0, 1, 0, 2, 0, 0, 0, 0, 0, 0, 0, 0, 0,
];

/// Rank 0 contributes the flag f to round 0.
const CONTRIBUTES: [u8; 24] = [
    2, 1, 0, 0, 0, 0, 0, 0, 0, 0, 0, 0, 0, 0, 0, 0, 15, 0, 0, 0, 0, 0, 0, 0,
];

/// Rank 0 is declared.
const DECLARED: [u8; 24] = [
    1, 0, 0, 0, 0, 0, 0, 0, 0, 0, 0, 0, 0, 0, 0, 0, 0, 0, 0, 0, 0, 0, 0, 0,
];

/// What these pieces of a log are told as.
fn told(alloc: Global, pieces: &[&[u8]]) -> Result<Result<Vec<u8>, AuditFault>, Fail> {
    let mut log = Vec::new(alloc);
    for piece in pieces {
        log.extend_from_slice(piece)?;
    }
    let mut left = log.as_slice();
    Ok(audit(alloc, &mut left))
}

fn is_told(rt: &impl Abort, alloc: Global, pieces: &[&[u8]], lines: &[u8]) -> Result<(), Fail> {
    match told(alloc, pieces)? {
        Ok(text) => assert!(rt; text.as_slice() == lines),
        Err(fault) => assert!(rt; fault == AuditFault::Memory),
    }
    Ok(())
}

fn is_no_log(rt: &impl Abort, alloc: Global, pieces: &[&[u8]]) -> Result<(), Fail> {
    match told(alloc, pieces)? {
        Ok(_) => assert!(rt; false),
        Err(fault) => assert!(rt; fault == AuditFault::Log || fault == AuditFault::Memory),
    }
    Ok(())
}

#[test]
fn logs_are_told(rt: HostRuntime) -> Result<(), Fail> {
    let alloc = rt.alloc();
    let nothing = b"entries 0 taken 0\ndigest cbf29ce484222325\n";
    is_told(&rt, alloc, &[&HEAD], nothing)?;
    // A last piece that was cut off is no entry.
    is_told(&rt, alloc, &[&HEAD, &CONTRIBUTES[..23]], nothing)?;
    let lines = b"event 0 settle 0 0 0 flag 0000000f known 0 acked 0
decided 0 0 flag 0000000f failed 0 clean
event - fail 0
entries 2 taken 2
digest 5d83628bec603fc2
";
    is_told(&rt, alloc, &[&HEAD, &CONTRIBUTES, &DECLARED], lines)?;
    // What is left out counts.
    let more = b"event 0 settle 0 0 0 flag 0000000f known 0 acked 0
decided 0 0 flag 0000000f failed 0 clean
event - fail 0
entries 3 taken 2
digest fa70b6895376b274
";
    is_told(
        &rt,
        alloc,
        &[&HEAD, &CONTRIBUTES, &DECLARED, &CONTRIBUTES],
        more,
    )
}

#[test]
fn what_is_no_log(rt: HostRuntime) -> Result<(), Fail> {
    let alloc = rt.alloc();
    is_no_log(&rt, alloc, &[])?;
    is_no_log(&rt, alloc, &[&HEAD[..23]])?;
    is_no_log(&rt, alloc, &[&CONTRIBUTES])?;
    for at in 0..HEAD.len() {
        let mut other = HEAD;
        // No limit may be 4112 or more, and no byte of a head but theirs may be another.
        other[at] = 16;
        let is_limit = at == 10 || at == 12 || at == 14;
        if !is_limit {
            is_no_log(&rt, alloc, &[&other, &CONTRIBUTES])?;
        }
    }
    let mut none = HEAD;
    none[10] = 0;
    is_no_log(&rt, alloc, &[&none])
}
