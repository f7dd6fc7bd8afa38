// Examples of `World` and `Job`.

use crate::tests::open::{TWO, Words, two};
use std::alloc::Global;
use std::test::Fail;
use ulfm_comm::World;
use ulfm_laws::FlagAnd;
use ulfm_model::{Call, Refusal, Reply};
use ulfm_run::Job;
use ulfm_words::PlainWords;

/// A job of two ranks.
fn job_of_two(alloc: Global) -> Result<Job<Words, FlagAnd, Global>, Fail> {
    Ok(Job::open(alloc, Words::open(TWO)?)?)
}

#[test]
fn world_open(rt: HostRuntime) -> Result<(), Fail> {
    let (alloc, limits) = (rt.alloc(), TWO);

    let words: PlainWords<FlagAnd> = PlainWords::open(limits)?;
    let (world, ranks) = World::open(alloc, words)?;
    assert!(rt; world.limits() == limits && ranks.len() == 2);

    Ok(())
}

#[test]
fn world_limits(rt: HostRuntime) -> Result<(), Fail> {
    let (world, _, _) = two(&rt, rt.alloc())?.1.into_parts();

    assert!(rt; world.limits().ranks == 2);

    Ok(())
}

#[test]
fn world_pass(rt: HostRuntime) -> Result<(), Fail> {
    let (world, _, _) = two(&rt, rt.alloc())?.1.into_parts();
    let alloc = rt.alloc();

    let mut pass = world.pass(alloc)?;
    assert!(rt; world.fail(&mut pass, 1) == Ok(true));

    Ok(())
}

#[test]
fn world_told(rt: HostRuntime) -> Result<(), Fail> {
    let (world, mut rank, mut pass) = two(&rt, rt.alloc())?.1.into_parts();
    let alloc = rt.alloc();

    rank.revoke(&world, &mut pass, 0)?;
    let told = world.told(&pass);
    let mut other = world.pass(alloc)?;
    world.learn(&mut other, &told);

    Ok(())
}

#[test]
fn world_learn(rt: HostRuntime) -> Result<(), Fail> {
    let (world, _, mut pass) = two(&rt, rt.alloc())?.1.into_parts();
    let alloc = rt.alloc();

    let mut detector = world.pass(alloc)?;
    world.fail(&mut detector, 1)?;
    world.learn(&mut pass, &world.told(&detector));

    Ok(())
}

#[test]
fn world_fail(rt: HostRuntime) -> Result<(), Fail> {
    let (world, _, mut pass) = two(&rt, rt.alloc())?.1.into_parts();

    assert!(rt; world.fail(&mut pass, 1) == Ok(true));
    assert!(rt; world.fail(&mut pass, 1) == Ok(false));
    assert!(rt; world.fail(&mut pass, 2) == Err(Refusal::NoSuchRank));

    Ok(())
}

#[test]
fn job_open(rt: HostRuntime) -> Result<(), Fail> {
    let (alloc, limits) = (rt.alloc(), TWO);

    let words: PlainWords<FlagAnd> = PlainWords::open(limits)?;
    let job = Job::open(alloc, words)?;
    assert!(rt; job.rank(1).is_some());

    Ok(())
}

#[test]
fn job_pass(rt: HostRuntime) -> Result<(), Fail> {
    let job = job_of_two(rt.alloc())?;

    assert!(rt; job.pass().nth(0).is_none());

    Ok(())
}

#[test]
fn job_rank(rt: HostRuntime) -> Result<(), Fail> {
    let job = job_of_two(rt.alloc())?;

    assert!(rt; job.rank(1).is_some());
    assert!(rt; job.rank(2).is_none());

    Ok(())
}

#[test]
fn job_apply(rt: HostRuntime) -> Result<(), Fail> {
    let alloc = rt.alloc();
    let mut job = job_of_two(alloc)?;

    let mut group = Vec::new(alloc);
    let failed = job.apply(&Call::Fail { rank: 1 }, &mut group)?;
    assert!(rt; failed == Reply::Declared);
    let found = job.apply(&Call::GetFailed { rank: 0, comm: 0 }, &mut group)?;
    assert!(rt; found == Reply::FailedGroup { count: 1 });
    assert_eq!(rt; group.as_slice(), [1].as_slice());

    Ok(())
}
