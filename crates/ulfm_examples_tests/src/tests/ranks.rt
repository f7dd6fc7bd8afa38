// Examples of `Rank`, and of its calls step by step.

use crate::tests::open::{left, two};
use std::alloc::Global;
use std::process::Abort;
use std::test::Fail;
use ulfm_comm::{Doing, Polled};
use ulfm_laws::FlagAnd;
use ulfm_model::event::{Caller, Entry, Event};
use ulfm_model::{Call, Refusal, Reply, Request, StepName};

/// The question of rank 0 whether the world's communicator is revoked, begun.
fn begun(rt: &impl Abort, alloc: Global) -> Result<Doing<FlagAnd, Global>, Fail> {
    let (_, rank, _) = two(rt, alloc)?.1.into_parts();
    Ok(rank.begin(Call::IsRevoked {
        rank: rank.number(),
        comm: 0,
    }))
}

#[test]
fn rank_number(rt: HostRuntime) -> Result<(), Fail> {
    let (_, rank, _) = two(&rt, rt.alloc())?.1.into_parts();

    assert!(rt; rank.number() == 0);

    Ok(())
}

#[test]
fn rank_failures(rt: HostRuntime) -> Result<(), Fail> {
    let (world, mut rank, mut pass) = left(&rt, rt.alloc())?.into_parts();

    // Rank 1 was declared failed before.
    // A call looks, and then the rank has seen it.
    rank.is_revoked(&world, &mut pass, 0)?;
    assert_eq!(rt; rank.failures(), [1].as_slice());

    Ok(())
}

#[test]
fn rank_members(rt: HostRuntime) -> Result<(), Fail> {
    let (_, rank, _) = two(&rt, rt.alloc())?.1.into_parts();

    assert!(rt; rank.members(0) == Some([0, 1].as_slice()));
    assert!(rt; rank.members(1).is_none());

    Ok(())
}

#[test]
fn rank_context(rt: HostRuntime) -> Result<(), Fail> {
    let (_, rank, _) = two(&rt, rt.alloc())?.1.into_parts();

    assert!(rt; rank.context(0) == Some(0));
    assert!(rt; rank.context(1).is_none());

    Ok(())
}

#[test]
fn rank_request(rt: HostRuntime) -> Result<(), Fail> {
    let (world, mut rank, mut pass) = two(&rt, rt.alloc())?.1.into_parts();

    rank.ishrink(&world, &mut pass, 0)?;
    assert!(rt; rank.request(0) == Some(Request::Shrink { round: 0 }));
    assert!(rt; rank.request(1).is_none());

    Ok(())
}

#[test]
fn rank_last_steps(rt: HostRuntime) -> Result<(), Fail> {
    let (world, mut rank, mut pass) = left(&rt, rt.alloc())?.into_parts();

    // Rank 1 was declared failed before.
    // A call looks: one load finds that failure, and the next finds no other.
    assert!(rt; rank.last_steps() == 0);
    rank.ack_failed(&world, &mut pass, 0, 1)?;
    assert!(rt; rank.last_steps() == 2);

    Ok(())
}

#[test]
fn rank_iagree(rt: HostRuntime) -> Result<(), Fail> {
    let (world, mut rank, mut pass) = two(&rt, rt.alloc())?.1.into_parts();

    let flag = FlagAnd { bits: 0b0110 };
    assert!(rt; rank.iagree(&world, &mut pass, 0, flag) == Ok(()));
    // A communicator has one request of a rank at a time.
    assert!(rt; rank.iagree(&world, &mut pass, 0, flag) == Err(Refusal::Busy));

    Ok(())
}

#[test]
fn rank_ishrink(rt: HostRuntime) -> Result<(), Fail> {
    let (world, mut rank, mut pass) = left(&rt, rt.alloc())?.into_parts();

    // Rank 1 was declared failed before.
    rank.ishrink(&world, &mut pass, 0)?;
    let alone = Polled::Shrunk {
        comm: 1,
        context: 1,
        size: 1,
    };
    assert!(rt; rank.poll(&world, &mut pass, 0) == Ok(alone));

    Ok(())
}

#[test]
fn rank_ibarrier(rt: HostRuntime) -> Result<(), Fail> {
    let (world, mut rank, mut pass) = left(&rt, rt.alloc())?.into_parts();

    rank.ibarrier(&world, &mut pass, 0)?;
    // Rank 1 was declared failed before, and can't arrive any more.
    assert!(rt; rank.poll(&world, &mut pass, 0) == Err(Refusal::ProcFailed));

    Ok(())
}

#[test]
fn rank_poll(rt: HostRuntime) -> Result<(), Fail> {
    let (world, mut rank, mut pass) = left(&rt, rt.alloc())?.into_parts();

    let value = FlagAnd { bits: 0b0110 };
    rank.iagree(&world, &mut pass, 0, value)?;
    // Rank 1 was declared failed before, and is left out.
    let agreed = Polled::Agreed {
        value,
        failed: 1,
        raised: true,
    };
    assert!(rt; rank.poll(&world, &mut pass, 0) == Ok(agreed));

    Ok(())
}

#[test]
fn rank_get_failed(rt: HostRuntime) -> Result<(), Fail> {
    let alloc = rt.alloc();
    let (world, mut rank, mut pass) = left(&rt, alloc)?.into_parts();

    // Rank 1 was declared failed before.
    let mut found = Vec::new(alloc);
    rank.get_failed(&world, &mut pass, 0, &mut found)?;
    assert_eq!(rt; found.as_slice(), [1].as_slice());

    Ok(())
}

#[test]
fn rank_missing(rt: HostRuntime) -> Result<(), Fail> {
    let alloc = rt.alloc();
    let (world, mut rank, mut pass) = two(&rt, alloc)?.1.into_parts();

    rank.ibarrier(&world, &mut pass, 0)?;
    let mut found = Vec::new(alloc);
    rank.missing(&world, &mut pass, 0, &mut found)?;
    assert_eq!(rt; found.as_slice(), [1].as_slice());

    Ok(())
}

#[test]
fn rank_ack_failed(rt: HostRuntime) -> Result<(), Fail> {
    let (world, mut rank, mut pass) = left(&rt, rt.alloc())?.into_parts();

    // Rank 1 was declared failed before.
    // There is one failure to acknowledge, however many are asked for.
    assert!(rt; rank.ack_failed(&world, &mut pass, 0, 9) == Ok(1));

    Ok(())
}

#[test]
fn rank_failure_ack(rt: HostRuntime) -> Result<(), Fail> {
    let (world, mut rank, mut pass) = left(&rt, rt.alloc())?.into_parts();

    // Rank 1 was declared failed before.
    assert!(rt; rank.failure_ack(&world, &mut pass, 0) == Ok(1));

    Ok(())
}

#[test]
fn rank_failure_get_acked(rt: HostRuntime) -> Result<(), Fail> {
    let alloc = rt.alloc();
    let (world, mut rank, mut pass) = left(&rt, alloc)?.into_parts();

    // Rank 1 was declared failed before.
    let mut found = Vec::new(alloc);
    rank.failure_get_acked(&world, &mut pass, 0, &mut found)?;
    assert!(rt; found.is_empty());
    rank.failure_ack(&world, &mut pass, 0)?;
    rank.failure_get_acked(&world, &mut pass, 0, &mut found)?;
    assert_eq!(rt; found.as_slice(), [1].as_slice());

    Ok(())
}

#[test]
fn rank_revoke(rt: HostRuntime) -> Result<(), Fail> {
    let (world, mut rank, mut pass) = two(&rt, rt.alloc())?.1.into_parts();

    assert!(rt; rank.revoke(&world, &mut pass, 0) == Ok(true));
    assert!(rt; rank.revoke(&world, &mut pass, 0) == Ok(false));

    Ok(())
}

#[test]
fn rank_is_revoked(rt: HostRuntime) -> Result<(), Fail> {
    let (world, mut rank, mut pass) = two(&rt, rt.alloc())?.1.into_parts();

    assert!(rt; rank.is_revoked(&world, &mut pass, 0) == Ok(false));
    rank.revoke(&world, &mut pass, 0)?;
    assert!(rt; rank.is_revoked(&world, &mut pass, 0) == Ok(true));

    Ok(())
}

#[test]
fn rank_free(rt: HostRuntime) -> Result<(), Fail> {
    let (world, mut rank, mut pass) = left(&rt, rt.alloc())?.into_parts();

    // Rank 1 was declared failed before.
    rank.ishrink(&world, &mut pass, 0)?;
    rank.poll(&world, &mut pass, 0)?;
    assert!(rt; rank.free(&world, &mut pass, 1) == Ok(()));
    assert!(rt; rank.members(1).is_none());
    assert!(rt; rank.free(&world, &mut pass, 0) == Err(Refusal::WorldKept));

    Ok(())
}

#[test]
fn rank_begin(rt: HostRuntime) -> Result<(), Fail> {
    let (_, rank, _) = two(&rt, rt.alloc())?.1.into_parts();

    let asked = Call::IsRevoked {
        rank: rank.number(),
        comm: 0,
    };
    let doing = rank.begin(asked);
    assert!(rt; doing.next() == Some(StepName::List));

    Ok(())
}

#[test]
fn rank_step(rt: HostRuntime) -> Result<(), Fail> {
    let (world, mut rank, mut pass) = two(&rt, rt.alloc())?.1.into_parts();

    let asked = Call::IsRevoked {
        rank: rank.number(),
        comm: 0,
    };
    let mut doing = rank.begin(asked);
    // The call looks for failures, with a load that finds none, before it loads whether the communicator is revoked.
    assert!(rt; rank.step(&world, &mut pass, &mut doing).is_none());
    assert!(rt; doing.next() == Some(StepName::Revocation));

    Ok(())
}

#[test]
fn rank_proposal(rt: HostRuntime) -> Result<(), Fail> {
    let (world, mut rank, mut pass) = two(&rt, rt.alloc())?.1.into_parts();

    let asked = Call::Revoke {
        rank: rank.number(),
        comm: 0,
    };
    let mut doing = rank.begin(asked);
    assert!(rt; rank.proposal(&world, &pass, &doing).is_none());
    // The call looks for failures first.
    rank.step(&world, &mut pass, &mut doing);
    let event = Event::Revoke { comm: 0 };
    let by = Caller::Rank(rank.number());
    assert!(rt; rank.proposal(&world, &pass, &doing) == Some(Entry { by, event }));

    Ok(())
}

#[test]
fn doing_next(rt: HostRuntime) -> Result<(), Fail> {
    let doing = begun(&rt, rt.alloc())?;

    // The call asks whether a communicator is revoked.
    assert!(rt; doing.next() == Some(StepName::List));

    Ok(())
}

#[test]
fn doing_is_looking(rt: HostRuntime) -> Result<(), Fail> {
    let doing = begun(&rt, rt.alloc())?;

    // The call asks whether a communicator is revoked.
    assert!(rt; doing.is_looking());

    Ok(())
}

#[test]
fn doing_asked(rt: HostRuntime) -> Result<(), Fail> {
    let (_, rank, _) = two(&rt, rt.alloc())?.1.into_parts();

    let asked = Call::IsRevoked {
        rank: rank.number(),
        comm: 0,
    };
    let doing = rank.begin(asked);
    assert!(rt; doing.asked() == asked);

    Ok(())
}

#[test]
fn doing_is_checking(rt: HostRuntime) -> Result<(), Fail> {
    let doing = begun(&rt, rt.alloc())?;

    // The call asks whether a communicator is revoked.
    assert!(rt; !doing.is_checking());

    Ok(())
}

#[test]
fn rank_call(rt: HostRuntime) -> Result<(), Fail> {
    let (world, mut rank, mut pass) = two(&rt, rt.alloc())?.1.into_parts();

    let asked = Call::Revoke {
        rank: rank.number(),
        comm: 0,
    };
    assert!(rt; rank.call(&world, &mut pass, asked) == Reply::Revoked);
    assert!(rt; rank.call(&world, &mut pass, asked) == Reply::AlreadyRevoked);

    Ok(())
}
