// Calls of ranks on threads, over words that they share. No function here may wait.
ghost use Rattle.std.specs.Prelude.{◌≡◌};

use crate::tests::member::{Member, Members, Outside, declare_all, failed_group, often, open};
use std::alloc::{AllocError, Global};
use std::process::Abort;
use std::test::Fail;
use std::thread::{self, Threads, join};
use ulfm_book::BookTold;
use ulfm_comm::Polled;
use ulfm_laws::{FlagAnd, Packed};
use ulfm_model::Refusal;

type Reply = Result<Polled<FlagAnd>, Refusal>;

/// A flag with all bits but this one.
fn all_but(bit: u16) -> FlagAnd {
    FlagAnd {
        bits: !(1 << (u32::from(bit) % 64)),
    }
}

/// Each contributes on a thread of its own, all but the bit of its number.
fn start_all<R: Threads + Sync>(rt: &R, all: Members) -> Result<Members, AllocError> {
    thread::map_vec(
        rt,
        all,
        &|mut member| {
            let value = all_but(member.number());
            let _ = member.iagree(0, value);
            member
        },
    )
}

/// Each starts a shrink on a thread of its own.
fn shrink_all<R: Threads + Sync>(rt: &R, all: Members) -> Result<Members, AllocError> {
    thread::map_vec(
        rt,
        all,
        &|mut member| {
            let _ = member.ishrink(0);
            member
        },
    )
}

/// Each polls on a thread of its own, and comes back with its reply.
fn poll_and_keep<R: Threads + Sync>(
    rt: &R,
    all: Members,
) -> Result<Vec<(Reply, Member<FlagAnd>)>, AllocError> {
    thread::map_vec(rt, all, &|mut member| (member.poll(0), member))
}

/// Each polls on a thread of its own.
fn poll_all<R: Threads + Sync>(rt: &R, all: Members) -> Result<Vec<Reply>, AllocError> {
    thread::map_vec(rt, all, &|mut member| member.poll(0))
}

/// One contributes on a thread and is joined. Then another, which contributed before and was told nothing, polls.
fn start_then_poll<R: Threads>(
    rt: &R,
    mut starter: Member<FlagAnd>,
    mut reader: Member<FlagAnd>,
) -> (Result<(), Refusal>, Reply) {
    let (started, _) = join(rt, move || starter.iagree(0, all_but(0)), || ());
    let (reply, _) = join(rt, move || reader.poll(0), || ());
    (started, reply)
}

/// Somebody declares a rank on a thread and tells. A member learns on a thread what was told, and asks for the failed group.
fn declare_then_learn<P: Packed + Send + Sync, R: Threads>(
    rt: &R,
    alloc: Global,
    teller: Outside<P>,
    learner: Member<P>,
    rank: u16,
) -> Result<Vec<u16>, Refusal>
    requires { learner.view.words ≡ teller.words }
{
    let (told, _) = join(
        rt,
        move || -> BookTold<P>
            ensures { result.name ≡ teller.words }
        {
            let mut outside = teller;
            let _ = outside.fail(rank);
            outside.told()
        },
        || (),
    );
    let (group, _) = join(
        rt,
        move || -> Result<Vec<u16>, Refusal>
            requires { told.name ≡ learner.view.words }
        {
            let mut member = learner;
            member.learn(&told);
            failed_group(alloc, &mut member)
        },
        || (),
    );
    group
}

/// Each declares so many ranks on a thread of its own, the same rank at once: how many each declared.
fn declare_on_all<R: Threads + Sync>(
    rt: &R,
    all: Members,
    ranks: u16,
) -> Result<Vec<u16>, AllocError> {
    thread::map_vec(rt, all, &|mut member| declare_all(&mut member, ranks))
}

#[test]
fn agree_on_threads(rt: HostRuntime) -> Result<(), Fail> {
    let (_, all) = open(rt.alloc(), 4)?;
    let started = start_all(&rt, all)?;
    let agreed = Polled::Agreed {
        value: FlagAnd {
            bits: 0xffff_ffff_ffff_fff0,
        },
        failed: 0,
        raised: false,
    };
    for reply in poll_all(&rt, started)? {
        assert_eq!(rt; reply, Ok(agreed));
    }
    Ok(())
}

/// Of five ranks one is declared. The four others shrink, each on a thread of its own, and then poll at once: they have one
/// communicator, of one number and context id, with the same members in the same order.
fn spawn_once<R: Threads + Sync + Abort>(rt: &R, alloc: Global) -> Result<(), Fail> {
    let (_, mut all) = open(alloc, 5)?;
    all.retain(|member| member.number() != 1);
    assert!(rt; all.len() == 4);
    assert_eq!(rt; all[0].fail(1), Ok(true));
    let made = Polled::Shrunk {
        comm: 1,
        context: 1,
        size: 4,
    };
    let started = shrink_all(rt, all)?;
    for (reply, member) in poll_and_keep(rt, started)? {
        assert_eq!(rt; reply, Ok(made));
        assert!(rt;
            member.members(1) == Some([0, 2, 3, 4].as_slice()) && member.context(1) == Some(1)
        );
    }
    Ok(())
}

#[test]
fn one_spawn(rt: HostRuntime) -> Result<(), Fail> {
    often(&|| spawn_once(&rt, rt.alloc()))
}

#[test]
fn read_back(rt: HostRuntime) -> Result<(), Fail> {
    let (_, mut all) = open(rt.alloc(), 2)?;
    let mut reader = all.pop().expect(&rt, "rank 1");
    let starter = all.pop().expect(&rt, "rank 0");
    assert_eq!(rt; reader.iagree(0, all_but(1)), Ok(()));
    assert_eq!(rt; reader.poll(0), Ok(Polled::Pending));
    let (started, reply) = start_then_poll(&rt, starter, reader);
    assert_eq!(rt; started, Ok(()));
    let agreed = Polled::Agreed {
        value: FlagAnd {
            bits: 0xffff_ffff_ffff_fffc,
        },
        failed: 0,
        raised: false,
    };
    assert_eq!(rt; reply, Ok(agreed));
    Ok(())
}

#[test]
fn learned_failure(rt: HostRuntime) -> Result<(), Fail> {
    let (teller, mut all) = open::<FlagAnd>(rt.alloc(), 4)?;
    let learner = all.pop().expect(&rt, "rank 3");
    let group = declare_then_learn(&rt, rt.alloc(), teller, learner, 1);
    assert_eq!(rt; group, Ok(vec![in rt.alloc(); 1u16]?));
    Ok(())
}

#[test]
fn never_twice_a_rank(rt: HostRuntime) -> Result<(), Fail> {
    let (_, mut all) = open(rt.alloc(), 256)?;
    all.truncate(4);
    let mut wins: u32 = 0;
    for declared in declare_on_all(&rt, all, 256)? {
        wins = wins.saturating_add(u32::from(declared));
    }
    assert_eq!(rt; wins, 256);
    Ok(())
}
