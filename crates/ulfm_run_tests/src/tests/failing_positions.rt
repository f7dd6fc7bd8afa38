//! Where the declaration stands, and how many steps are counted.
use std::alloc::Global;
use std::test::Fail;
use ulfm_run::{run_steps, run_steps_failing};

const SCRIPT: &[u8] = b"ulfm-steps 1 3 2 4
call agree 2 0 00000005
before 2 settle
fail 2
finish 2
call agree 0 0 0000000f
finish 0
call agree 1 0 00000007
finish 1
call poll 0 0
finish 0
call poll 2 0
finish 2
";

// Its steps. An agree makes a load for each failure that its rank doesn't know and one more, and two exchanges, of its wing and of its place: 3, 4
// and 4. The poll by rank 0 makes a load, one of each block, the exchange of a mark that comes too late, and for each block two loads of each of
// its two members, its wing's exchange and its cache, 16, and that by rank 2 two loads: it is declared.
const STEPS: u32 = 29;

// So many lines of its trace stand before a declaration behind each step, from none on.
const BEFORE: [usize; 30] = [
    1, 3, 3, 8, 9, 10, 10, 12, 13, 14, 14, 16, 18, 18, 18, 18, 18, 18, 18, 18, 18, 18, 18, 18, 18,
    18, 18, 19, 20, 22,
];

// So many events come before it.
const EVENTS: [u32; 30] = [
    0, 0, 0, 2, 2, 2, 2, 3, 3, 3, 3, 4, 4, 4, 4, 4, 4, 4, 4, 4, 4, 4, 4, 4, 4, 4, 4, 4, 4, 4,
];

/// The trace, with what a declaration of a rank that the world doesn't have tells behind so many lines and events.
fn with_unknown(alloc: Global, plain: &[u8], before: usize, events: u32) -> Result<Vec<u8>, Fail> {
    let mut text = Vec::new(alloc);
    let mut count: usize = 0;
    for line in plain.split_inclusive(|byte| *byte == b'\n') {
        text.extend_from_slice(line)?;
        count = count.saturating_add(1);
        if count == before {
            let told = format!(in alloc;
                "call fail 1023\nreply - {events} refused 13 no-such-rank\n"
            )?;
            text.extend_from_slice(told.as_bytes())?;
        }
    }
    Ok(text)
}

fn plain(alloc: Global) -> Result<Vec<u8>, Fail> {
    let mut reader = SCRIPT;
    let mut out = Vec::new(alloc);
    match run_steps(alloc, &mut reader, &mut out) {
        Ok(()) => Ok(out),
        Err(_) => Err(Fail::from("the script has a fault")),
    }
}

#[test]
fn right_behind_each_step(rt: HostRuntime) -> Result<(), Fail> {
    let plain = plain(rt.alloc())?;
    let mut at = 0;
    for (before, events) in BEFORE.iter().zip(EVENTS.iter()) {
        let mut reader = SCRIPT;
        let mut out = Vec::new(rt.alloc());
        let end = run_steps_failing(rt.alloc(), &mut reader, &mut out, at, 1023);
        assert_eq!(rt; end, Ok(STEPS));
        let right = with_unknown(rt.alloc(), &plain, *before, *events)?;
        assert_eq!(rt; out.as_slice(), right.as_slice(), "{at}");
        at = at.saturating_add(1);
    }
    Ok(())
}

#[test]
fn never_where_fewer_steps_are_made(rt: HostRuntime) -> Result<(), Fail> {
    let plain = plain(rt.alloc())?;
    for at in [STEPS + 1, 1000, u32::MAX] {
        for rank in [0, 2, 1023] {
            let mut reader = SCRIPT;
            let mut out = Vec::new(rt.alloc());
            let end = run_steps_failing(rt.alloc(), &mut reader, &mut out, at, rank);
            assert_eq!(rt; end, Ok(STEPS));
            assert_eq!(rt; out.as_slice(), plain.as_slice());
        }
    }
    Ok(())
}
