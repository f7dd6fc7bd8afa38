//! The check and the second one on each small change of some traces.
use crate::tests::reasons::{TAKEN_PLACES, TWO_RANKS};
use crate::tests::second_check::plain_check;
use crate::tests::tested::check;
use crate::tests::traces::{
    CONTRIBUTION_IN_FLIGHT, DECISION_OF_NOBODY, LATE_ARRIVAL, REVOKED_BETWEEN_LOADS, SHRINK,
    mark_comes_first, text_of,
};
use crate::tests::variations::{Change, changed};
use std::test::Fail;
use ulfm_trace::Verdict;

const CHANGES: [Change; 5] = [
    Change::Drop,
    Change::Double,
    Change::Swap,
    Change::More,
    Change::Less,
];

/// The trace of this number, from 0, of six.
fn trace(rt: &HostRuntime, number: usize) -> Result<Vec<u8>, Fail> {
    let text = match number {
        0 => text_of(rt.alloc(), &CONTRIBUTION_IN_FLIGHT)?,
        1 => mark_comes_first(rt.alloc())?,
        2 => text_of(rt.alloc(), &DECISION_OF_NOBODY)?,
        3 => text_of(rt.alloc(), &REVOKED_BETWEEN_LOADS)?,
        4 => text_of(rt.alloc(), &LATE_ARRIVAL)?,
        _ => text_of(rt.alloc(), &SHRINK)?,
    };
    Ok(text)
}

/// The second check says the same of each change of a text: how many changes there are, and how many leave it legal.
fn count_legal(rt: &HostRuntime, text: &[u8]) -> Result<(u32, u32), Fail> {
    let mut all: u32 = 0;
    let mut legal: u32 = 0;
    for change in CHANGES {
        for place in 0..1000 {
            let Some(other) = changed(rt.alloc(), text, change, place)? else {
                break;
            };
            let verdict = check(rt, &other);
            if verdict != Ok(plain_check(rt.alloc(), &other)?) {
                return Err(Fail::from("the second check says something else"));
            }
            all = all.saturating_add(1);
            if verdict == Ok(Verdict::Legal) {
                legal = legal.saturating_add(1);
            }
        }
    }
    Ok((all, legal))
}

/// Some changes leave a trace of steps legal, and most don't.
#[test]
fn checks_agree(rt: HostRuntime) -> Result<(), Fail> {
    for number in 0..6 {
        let text = trace(&rt, number)?;
        let (all, legal) = count_legal(&rt, &text)?;
        assert!(rt;
            100 < all && 0 < legal && legal < all / 2,
            "{number}: {legal} of {all}"
        );
    }
    Ok(())
}

/// The same of traces with every reply.
#[test]
fn checks_agree_on_every_reply(rt: HostRuntime) -> Result<(), Fail> {
    let text = text_of(rt.alloc(), &TAKEN_PLACES)?;
    let (all, legal) = count_legal(&rt, &text)?;
    assert!(rt;
        300 < all && 0 < legal && legal < all / 2,
        "{legal} of {all}"
    );
    let text = text_of(rt.alloc(), &TWO_RANKS)?;
    let (all, legal) = count_legal(&rt, &text)?;
    assert!(rt;
        800 < all && 0 < legal && legal < all / 2,
        "{legal} of {all}"
    );
    Ok(())
}
