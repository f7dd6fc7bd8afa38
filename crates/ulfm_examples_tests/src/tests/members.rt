// Examples of `Member`, `Outside` and `ulfm_wait::open`.

use crate::tests::open::{TWO, two};
use std::test::Fail;
use ulfm_book::BookWords;
use ulfm_comm::Polled;
use ulfm_laws::FlagAnd;
use ulfm_model::Refusal;
use ulfm_wait::{Member, Outside};
use ulfm_words::PlainWords;

#[test]
fn book_words_open(rt: HostRuntime) -> Result<(), Fail> {
    let alloc = rt.alloc();
    let limits = TWO;

    let words: BookWords<FlagAnd> = BookWords::open(alloc, limits)?;
    let (outside, members) = ulfm_wait::open(alloc, words)?;

    assert!(rt; outside.limits() == limits && members.len() == 2);
    Ok(())
}

#[test]
fn members_open(rt: HostRuntime) -> Result<(), Fail> {
    let alloc = rt.alloc();
    let limits = TWO;

    let words: PlainWords<FlagAnd> = PlainWords::open(limits)?;
    let (mut outside, members) = ulfm_wait::open(alloc, words)?;
    for member in &members {
        assert!(rt; member.failures().is_empty());
    }
    assert!(rt; outside.fail(1) == Ok(true));

    Ok(())
}

#[test]
fn member_new(rt: HostRuntime) -> Result<(), Fail> {
    let (_, member) = two(&rt, rt.alloc())?;

    let (world, rank, pass) = member.into_parts();
    let mut member = Member::new(world, rank, pass);
    member.iagree(0, FlagAnd { bits: 0b0110 })?;

    Ok(())
}

#[test]
fn member_into_parts(rt: HostRuntime) -> Result<(), Fail> {
    let (_, member) = two(&rt, rt.alloc())?;

    let (world, mut rank, mut pass) = member.into_parts();
    rank.iagree(&world, &mut pass, 0, FlagAnd { bits: 0b0110 })?;

    Ok(())
}

#[test]
fn member_pass(rt: HostRuntime) -> Result<(), Fail> {
    let (_, mut member) = two(&rt, rt.alloc())?;

    // A pass of plain words tells which steps were set.
    assert!(rt; member.pass().nth(0).is_none());
    member.iagree(0, FlagAnd { bits: 0b0110 })?;
    assert!(rt; member.pass().nth(0).is_some());

    Ok(())
}

#[test]
fn member_number(rt: HostRuntime) -> Result<(), Fail> {
    let (_, member) = two(&rt, rt.alloc())?;

    assert!(rt; member.number() == 0);

    Ok(())
}

#[test]
fn member_failures(rt: HostRuntime) -> Result<(), Fail> {
    let (_, mut member) = two(&rt, rt.alloc())?;

    member.fail(1)?;
    // A call looks, and then the member has seen it.
    member.is_revoked(0)?;
    assert_eq!(rt; member.failures(), [1].as_slice());

    Ok(())
}

#[test]
fn member_members(rt: HostRuntime) -> Result<(), Fail> {
    let (_, member) = two(&rt, rt.alloc())?;

    assert!(rt; member.members(0) == Some([0, 1].as_slice()));
    assert!(rt; member.members(1).is_none());

    Ok(())
}

#[test]
fn member_context(rt: HostRuntime) -> Result<(), Fail> {
    let (_, member) = two(&rt, rt.alloc())?;

    assert!(rt; member.context(0) == Some(0));
    assert!(rt; member.context(1).is_none());

    Ok(())
}

#[test]
fn member_last_steps(rt: HostRuntime) -> Result<(), Fail> {
    let (_, mut member) = two(&rt, rt.alloc())?;

    assert!(rt; member.last_steps() == 0);
    // A look finds no failure by one load, and whether the communicator is revoked is another.
    member.is_revoked(0)?;
    assert!(rt; member.last_steps() == 2);

    Ok(())
}

#[test]
fn member_iagree(rt: HostRuntime) -> Result<(), Fail> {
    let (_, mut member) = two(&rt, rt.alloc())?;

    let flag = FlagAnd { bits: 0b0110 };
    assert!(rt; member.iagree(0, flag) == Ok(()));
    // A communicator has one request of a rank at a time.
    assert!(rt; member.iagree(0, flag) == Err(Refusal::Busy));

    Ok(())
}

#[test]
fn member_ishrink(rt: HostRuntime) -> Result<(), Fail> {
    let (_, mut member) = two(&rt, rt.alloc())?;

    member.fail(1)?;
    member.ishrink(0)?;
    let alone = Polled::Shrunk {
        comm: 1,
        context: 1,
        size: 1,
    };
    assert!(rt; member.poll(0) == Ok(alone));

    Ok(())
}

#[test]
fn member_ibarrier(rt: HostRuntime) -> Result<(), Fail> {
    let (_, mut member) = two(&rt, rt.alloc())?;

    member.ibarrier(0)?;
    assert!(rt; member.poll(0) == Ok(Polled::Pending));
    // Rank 1 can't arrive any more.
    member.fail(1)?;
    assert!(rt; member.poll(0) == Err(Refusal::ProcFailed));

    Ok(())
}

#[test]
fn member_poll(rt: HostRuntime) -> Result<(), Fail> {
    let (_, mut member) = two(&rt, rt.alloc())?;

    let value = FlagAnd { bits: 0b0110 };
    member.iagree(0, value)?;
    // Rank 1 hasn't contributed, and isn't declared.
    assert!(rt; member.poll(0) == Ok(Polled::Pending));
    member.fail(1)?;
    let agreed = Polled::Agreed {
        value,
        failed: 1,
        raised: true,
    };
    assert!(rt; member.poll(0) == Ok(agreed));

    Ok(())
}

#[test]
fn member_get_failed(rt: HostRuntime) -> Result<(), Fail> {
    let alloc = rt.alloc();
    let (_, mut member) = two(&rt, alloc)?;

    member.fail(1)?;
    let mut found = Vec::new(alloc);
    member.get_failed(0, &mut found)?;
    assert_eq!(rt; found.as_slice(), [1].as_slice());

    Ok(())
}

#[test]
fn member_missing(rt: HostRuntime) -> Result<(), Fail> {
    let alloc = rt.alloc();
    let (_, mut member) = two(&rt, alloc)?;

    member.iagree(0, FlagAnd { bits: 0b0110 })?;
    let mut found = Vec::new(alloc);
    member.missing(0, &mut found)?;
    assert_eq!(rt; found.as_slice(), [1].as_slice());

    Ok(())
}

#[test]
fn member_ack_failed(rt: HostRuntime) -> Result<(), Fail> {
    let (_, mut member) = two(&rt, rt.alloc())?;

    member.fail(1)?;
    // There is one failure to acknowledge, however many are asked for.
    assert!(rt; member.ack_failed(0, 9) == Ok(1));

    Ok(())
}

#[test]
fn member_failure_ack(rt: HostRuntime) -> Result<(), Fail> {
    let (_, mut member) = two(&rt, rt.alloc())?;

    member.fail(1)?;
    assert!(rt; member.failure_ack(0) == Ok(1));

    Ok(())
}

#[test]
fn member_failure_get_acked(rt: HostRuntime) -> Result<(), Fail> {
    let alloc = rt.alloc();
    let (_, mut member) = two(&rt, alloc)?;

    member.fail(1)?;
    let mut found = Vec::new(alloc);
    member.failure_get_acked(0, &mut found)?;
    assert!(rt; found.is_empty());
    member.failure_ack(0)?;
    member.failure_get_acked(0, &mut found)?;
    assert_eq!(rt; found.as_slice(), [1].as_slice());

    Ok(())
}

#[test]
fn member_revoke(rt: HostRuntime) -> Result<(), Fail> {
    let (_, mut member) = two(&rt, rt.alloc())?;

    assert!(rt; member.revoke(0) == Ok(true));
    assert!(rt; member.revoke(0) == Ok(false));

    Ok(())
}

#[test]
fn member_is_revoked(rt: HostRuntime) -> Result<(), Fail> {
    let (_, mut member) = two(&rt, rt.alloc())?;

    assert!(rt; member.is_revoked(0) == Ok(false));
    member.revoke(0)?;
    assert!(rt; member.is_revoked(0) == Ok(true));

    Ok(())
}

#[test]
fn member_free(rt: HostRuntime) -> Result<(), Fail> {
    let (_, mut member) = two(&rt, rt.alloc())?;

    member.fail(1)?;
    member.ishrink(0)?;
    member.poll(0)?;
    assert!(rt; member.free(1) == Ok(()));
    assert!(rt; member.members(1).is_none());
    assert!(rt; member.free(0) == Err(Refusal::WorldKept));

    Ok(())
}

#[test]
fn member_fail(rt: HostRuntime) -> Result<(), Fail> {
    let (_, mut member) = two(&rt, rt.alloc())?;

    assert!(rt; member.fail(1) == Ok(true));
    assert!(rt; member.fail(1) == Ok(false));
    assert!(rt; member.fail(2) == Err(Refusal::NoSuchRank));

    Ok(())
}

#[test]
fn member_told(rt: HostRuntime) -> Result<(), Fail> {
    let (mut outside, mut member) = two(&rt, rt.alloc())?;

    member.revoke(0)?;
    outside.learn(&member.told());

    Ok(())
}

#[test]
fn member_learn(rt: HostRuntime) -> Result<(), Fail> {
    let (mut outside, mut member) = two(&rt, rt.alloc())?;

    outside.fail(1)?;
    member.learn(&outside.told());

    Ok(())
}

#[test]
fn outside_new(rt: HostRuntime) -> Result<(), Fail> {
    let alloc = rt.alloc();
    let (_, member) = two(&rt, alloc)?;

    let (world, _, _) = member.into_parts();
    let mut detector = Outside::new(alloc, world)?;
    assert!(rt; detector.fail(1) == Ok(true));

    Ok(())
}

#[test]
fn outside_told(rt: HostRuntime) -> Result<(), Fail> {
    let (mut outside, mut member) = two(&rt, rt.alloc())?;

    outside.fail(1)?;
    member.learn(&outside.told());

    Ok(())
}

#[test]
fn outside_learn(rt: HostRuntime) -> Result<(), Fail> {
    let (mut outside, mut member) = two(&rt, rt.alloc())?;

    member.revoke(0)?;
    outside.learn(&member.told());

    Ok(())
}

#[test]
fn outside_limits(rt: HostRuntime) -> Result<(), Fail> {
    let (outside, _) = two(&rt, rt.alloc())?;

    assert!(rt; outside.limits().ranks == 2);

    Ok(())
}

#[test]
fn outside_fail(rt: HostRuntime) -> Result<(), Fail> {
    let (mut outside, _) = two(&rt, rt.alloc())?;

    assert!(rt; outside.fail(1) == Ok(true));
    assert!(rt; outside.fail(1) == Ok(false));
    assert!(rt; outside.fail(2) == Err(Refusal::NoSuchRank));

    Ok(())
}

#[test]
fn member_known_fit(rt: HostRuntime) -> Result<(), Fail> {
    let (_, member) = two(&rt, rt.alloc())?;

    member.known_fit();
    assert!(rt; member.last_steps() == 0);

    Ok(())
}

#[test]
fn in_turn_poll_in_turn(rt: HostRuntime) -> Result<(), Fail> {
    let alloc = rt.alloc();
    let words: BookWords<FlagAnd> = BookWords::open(alloc, TWO)?;
    let (_, mut members) = ulfm_wait::open(alloc, words)?;
    let (Some(mut second), Some(mut first)) = (members.pop(), members.pop()) else {
        return Ok(());
    };

    let value = FlagAnd { bits: 0b0110 };
    first.iagree(0, value)?;
    second.iagree(0, value)?;
    let agreed = Polled::Agreed {
        value,
        failed: 0,
        raised: false,
    };
    let polled = ulfm_wait::poll_in_turn(&mut first, &mut second, 0);
    assert!(rt; polled == (Ok(agreed), Ok(agreed)));
    // With two members a round has one block: a load of the list of failures, and two of that block.
    assert!(rt; second.last_steps() == 3);

    Ok(())
}
