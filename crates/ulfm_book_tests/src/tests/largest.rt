// The largest world of 1,024 ranks, over shared words.
use crate::tests::member::{Member, Members, Outside};
use crate::tests::words::limits;
use std::process::Abort;
use std::test::Fail;
use ulfm_book::BookWords;
use ulfm_comm::Polled;
use ulfm_laws::FlagAnd;

/// All but the last rank contribute this flag.
const GIVEN: FlagAnd = FlagAnd { bits: 0xf };

/// Each member but the last contributes.
fn start_all(rt: &impl Abort, members: &mut [Member<FlagAnd>]) {
    for member in members {
        if member.number() < 1023 {
            assert_eq!(rt; member.iagree(0, GIVEN), Ok(()));
        }
    }
}

/// These ranks poll, and have one decision: how many there are.
fn poll_some(rt: &impl Abort, members: &mut [Member<FlagAnd>], ranks: &[u16]) -> u32 {
    let agreed = Polled::Agreed {
        value: GIVEN,
        failed: 1,
        raised: true,
    };
    let mut polled = 0u32;
    for member in members {
        if ranks.contains(&member.number()) {
            assert_eq!(rt; member.poll(0), Ok(agreed));
            polled = polled.wrapping_add(1);
        }
    }
    polled
}

#[test]
fn largest_world_agrees(rt: HostRuntime) -> Result<(), Fail> {
    let words: BookWords<FlagAnd> = BookWords::open(rt.alloc(), limits(1024, 2047))?;
    let opened = ulfm_wait::open(rt.alloc(), words)?;
    let (mut outside, mut members): (Outside<FlagAnd>, Members) = opened;
    assert_eq!(rt; members.len(), 1024);
    assert_eq!(rt; outside.fail(1023), Ok(true));
    start_all(&rt, &mut members);
    assert_eq!(rt; poll_some(&rt, &mut members, &[0, 1, 1022]), 3);
    Ok(())
}
