// Examples of calls that wait, of the future of an agree, and of a race.

use crate::tests::open::left;
use futures::executor::block_on;
use std::test::Fail;
use ulfm_comm::Polled;
use ulfm_laws::FlagAnd;
use ulfm_model::{Refusal, Reply};
use ulfm_race::{Gate, Plan, Turn, race};
use ulfm_wait::AgreeFuture;

#[test]
fn blocking_agree(rt: HostRuntime) -> Result<(), Fail> {
    let mut member = left(&rt, rt.alloc())?;

    // Rank 1 of two was declared failed before, so nobody is waited for.
    let value = FlagAnd { bits: 0b0110 };
    let agreed = Polled::Agreed {
        value,
        failed: 1,
        raised: true,
    };
    assert!(rt; ulfm_wait::agree(&rt, &mut member, 0, value) == Ok(agreed));

    Ok(())
}

#[test]
fn blocking_shrink(rt: HostRuntime) -> Result<(), Fail> {
    let mut member = left(&rt, rt.alloc())?;

    // Rank 1 of two was declared failed before, and is left out.
    let alone = Polled::Shrunk {
        comm: 1,
        context: 1,
        size: 1,
    };
    assert!(rt; ulfm_wait::shrink(&rt, &mut member, 0) == Ok(alone));
    assert!(rt; ulfm_wait::barrier(&rt, &mut member, 1) == Ok(Polled::Done));

    Ok(())
}

#[test]
fn blocking_barrier(rt: HostRuntime) -> Result<(), Fail> {
    let mut member = left(&rt, rt.alloc())?;

    // Rank 1 of two was declared failed before, and can't arrive any more.
    assert!(rt; ulfm_wait::barrier(&rt, &mut member, 0) == Err(Refusal::ProcFailed));

    Ok(())
}

#[test]
fn agree_future_new(rt: HostRuntime) -> Result<(), Fail> {
    let mut member = left(&rt, rt.alloc())?;

    let (world, rank, pass) = member.into_parts();
    // Rank 1 of two was declared failed before.
    let value = FlagAnd { bits: 0b0110 };
    let future = AgreeFuture::new(&world, pass, rank, 0, value);
    let (_pass, _rank, reply) = block_on(&rt, future)?;
    let agreed = Polled::Agreed {
        value,
        failed: 1,
        raised: true,
    };
    assert!(rt; reply == Ok(agreed));

    Ok(())
}

/// A gate that lets every rank take every turn.
struct AlwaysOpen;

impl Gate for AlwaysOpen {
    fn go(&self, _rank: u16, _turn: Turn) -> bool {
        true
    }

    fn answered(&self, _rank: u16) {}
}

#[test]
fn racing_race(rt: HostRuntime) -> Result<(), Fail> {
    let alloc = rt.alloc();

    let plan = Plan {
        ranks: 4,
        rounds: 2,
        fail: None,
    };
    let outcome = race(&rt, alloc, plan, &AlwaysOpen)?;
    assert_eq!(rt; outcome.group.as_slice(), [0, 1, 2, 3].as_slice());
    let agreed = Reply::Agreed {
        value: FlagAnd { bits: 0xffff_fff0 },
        failed: 0,
        raised: false,
    };
    for replies in &outcome.replies {
        assert!(rt; replies.len() == 3 && replies[0] == agreed);
    }

    Ok(())
}
