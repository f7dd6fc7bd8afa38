// The future of an agree, driven by an executor.
use futures::Future;
use futures::executor::block_on;
use futures::future::{join, poll_immediate};
use std::alloc::{AllocGlobal, Global};
use std::io;
use std::process::Abort;
use std::random::RandomSource;
use std::sync::Wait;
use std::test::Fail;
use ulfm_book::BookWords;
use ulfm_comm::Polled;
use ulfm_laws::FlagAnd;
use ulfm_model::Limits;
use ulfm_wait::{AgreeFuture, Member};
use ulfm_words::{PlainWords, Words};

/// The limits of a world of so many ranks.
fn limits(ranks: u16) -> Limits {
    Limits {
        ranks,
        comms: 1,
        rounds: 2,
    }
}

/// A member over shared words.
type BookMember = Member<BookWords<FlagAnd>, FlagAnd, Global>;

/// What two ranks agree on, or one alone.
const AGREED: Polled<FlagAnd> = Polled::Agreed {
    value: FlagAnd { bits: 0xff },
    failed: 0,
    raised: false,
};

/// The rank of a world of one agrees with itself.
fn agree_alone<W, R: Wait + RandomSource + AllocGlobal + Abort>(
    rt: &R,
    member: Member<W, FlagAnd, Global>,
) -> Result<(), Fail>
where
    W: Words<FlagAnd, Global> + Drop,
{
    let (world, rank, pass) = member.into_parts();
    let future = AgreeFuture::new(&world, pass, rank, 0, FlagAnd { bits: 0xff });
    let (_, _, reply) = block_on(rt, future)?;
    assert_eq!(rt; reply, Ok(AGREED));
    Ok(())
}

#[test]
fn future_agrees(rt: HostRuntime) -> Result<(), Fail> {
    let words: BookWords<FlagAnd> = BookWords::open(rt.alloc(), limits(1))?;
    let (_, members) = ulfm_wait::open(rt.alloc(), words)?;
    for member in members {
        agree_alone(&rt, member)?;
    }
    Ok(())
}

#[test]
fn future_agrees_over_plain_words(rt: HostRuntime) -> Result<(), Fail> {
    let words: PlainWords<FlagAnd> = PlainWords::open(limits(1))?;
    let (_, members) = ulfm_wait::open(rt.alloc(), words)?;
    for member in members {
        agree_alone(&rt, member)?;
    }
    Ok(())
}

/// The members of a world of two ranks, over shared words.
fn two_members(rt: &impl Abort, alloc: Global) -> Result<(BookMember, BookMember), Fail> {
    let words: BookWords<FlagAnd> = BookWords::open(alloc, limits(2))?;
    let (_, mut members) = ulfm_wait::open(alloc, words)?;
    let other = members.pop().expect(rt, "the member of rank 1");
    let one = members.pop().expect(rt, "the member of rank 0");
    Ok((one, other))
}

/// Two ranks agree in one thread. The first is pending until the second was polled, and is polled again, since it has woken
/// its waker.
fn agree_in_turn<R: Wait + RandomSource + AllocGlobal + Abort>(
    rt: &R,
    one: BookMember,
    other: BookMember,
) -> Result<(), Fail> {
    let (world, rank, pass) = one.into_parts();
    let first = AgreeFuture::new(&world, pass, rank, 0, FlagAnd { bits: 0xff0f_00ff });
    let (world, rank, pass) = other.into_parts();
    let second = AgreeFuture::new(&world, pass, rank, 0, FlagAnd { bits: 0x0000_f0ff });
    let ((_, _, reply), (_, _, same)) = block_on(rt, join(first, second))?;
    assert_eq!(rt; reply, Ok(AGREED));
    assert_eq!(rt; same, Ok(AGREED));
    Ok(())
}

#[test]
fn futures_wake(rt: HostRuntime) -> Result<(), Fail> {
    let (one, other) = two_members(&rt, rt.alloc())?;
    agree_in_turn(&rt, one, other)
}

/// What a future gives at one poll, if it gives its output.
fn polled_once<F: Future, R: Wait + RandomSource + AllocGlobal>(
    rt: &R,
    future: &mut F,
) -> io::Result<Option<F::Output>>
    requires { F.can_poll future.old }
{
    block_on(rt, poll_immediate(future))
}

/// The future of one rank is polled once, while the other is missing; so the other is answered, before it is polled again.
fn contribute_at_once<R: Wait + RandomSource + AllocGlobal + Abort>(
    rt: &R,
    one: BookMember,
    mut other: BookMember,
) -> Result<(), Fail> {
    let (world, rank, pass) = one.into_parts();
    let mut future = AgreeFuture::new(&world, pass, rank, 0, FlagAnd { bits: 0xff0f_00ff });
    assert!(rt; polled_once(rt, &mut future)?.is_none());
    other.iagree(0, FlagAnd { bits: 0x0000_f0ff })?;
    assert_eq!(rt; other.poll(0), Ok(AGREED));
    let ended = polled_once(rt, &mut future)?;
    assert!(rt; ended.is_some());
    if let Some((_, _, reply)) = ended {
        assert_eq!(rt; reply, Ok(AGREED));
    }
    // It has given its output.
    assert!(rt; polled_once(rt, &mut future)?.is_none());
    Ok(())
}

#[test]
fn future_contributes_at_once(rt: HostRuntime) -> Result<(), Fail> {
    let (one, other) = two_members(&rt, rt.alloc())?;
    contribute_at_once(&rt, one, other)
}

#[test]
fn future_pends_twice(rt: HostRuntime) -> Result<(), Fail> {
    let (one, _) = two_members(&rt, rt.alloc())?;
    let (world, rank, pass) = one.into_parts();
    let mut future = AgreeFuture::new(&world, pass, rank, 0, FlagAnd { bits: 0xff });
    assert!(rt; polled_once(&rt, &mut future)?.is_none());
    assert!(rt; polled_once(&rt, &mut future)?.is_none());
    Ok(())
}

/// The future of one rank is dropped, after it was polled once or before, and then the other agrees: its reply.
fn agree_after_drop<R: Wait + RandomSource + AllocGlobal>(
    rt: &R,
    one: BookMember,
    mut other: BookMember,
    is_polled: bool,
) -> Result<Polled<FlagAnd>, Fail> {
    let (world, rank, pass) = one.into_parts();
    let mut future = AgreeFuture::new(&world, pass, rank, 0, FlagAnd { bits: 0xff0f_00ff });
    if is_polled {
        polled_once(rt, &mut future)?;
    }
    drop(future);
    other.iagree(0, FlagAnd { bits: 0x0000_f0ff })?;
    Ok(other.poll(0)?)
}

#[test]
fn future_is_dropped(rt: HostRuntime) -> Result<(), Fail> {
    for is_polled in [false, true] {
        let (one, other) = two_members(&rt, rt.alloc())?;
        let expected = if is_polled { AGREED } else { Polled::Pending };
        assert_eq!(rt; agree_after_drop(&rt, one, other, is_polled)?, expected);
    }
    Ok(())
}
