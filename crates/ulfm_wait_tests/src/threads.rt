// Calls that wait, on threads.
use std::alloc::{AllocError, Global};
use std::sync::Wait;
use std::test::Fail;
use std::thread::{self, Threads};
use ulfm_book::BookWords;
use ulfm_comm::Polled;
use ulfm_laws::FlagAnd;
use ulfm_model::{Limits, OpenFault, Refusal};
use ulfm_wait::{agree, barrier, shrink};

type Member = ulfm_wait::Member<BookWords<FlagAnd>, FlagAnd, Global>;

type Reply = Result<Polled<FlagAnd>, Refusal>;

/// The rank that revokes, and arrives only then.
const REVOKER: u16 = 1;

/// The members of a new world of four ranks.
fn four_members(alloc: Global) -> Result<Vec<Member>, OpenFault> {
    let limits = Limits {
        ranks: 4,
        comms: 2,
        rounds: 2,
    };
    let words = BookWords::open(alloc, limits)?;
    let (_, members) = ulfm_wait::open(alloc, words)?;
    Ok(members)
}

/// Agrees, shrinks, and arrives in a barrier of what the shrink made: the replies.
fn take_part<R: Wait>(rt: &R, member: &mut Member) -> [Reply; 3] {
    let value = FlagAnd {
        bits: !(1 << (u32::from(member.number()) % 64)),
    };
    [
        agree(rt, member, 0, value),
        shrink(rt, member, 0),
        barrier(rt, member, 1),
    ]
}

/// Each does so on a thread of its own.
fn all_take_part<R: Threads + Wait + Sync>(
    rt: &R,
    all: Vec<Member>,
) -> Result<Vec<[Reply; 3]>, AllocError> {
    thread::map_vec(rt, all, &|mut member| take_part(rt, &mut member))
}

/// One revokes, and each waits in a barrier.
fn revoke_or_wait<R: Wait>(rt: &R, member: &mut Member) -> Reply {
    if member.number() == REVOKER {
        member.revoke(0)?;
    }
    barrier(rt, member, 0)
}

/// Each does so on a thread of its own.
fn all_revoke_or_wait<R: Threads + Wait + Sync>(
    rt: &R,
    all: Vec<Member>,
) -> Result<Vec<Reply>, AllocError> {
    thread::map_vec(rt, all, &|mut member| revoke_or_wait(rt, &mut member))
}

#[test]
fn calls_wait(rt: HostRuntime) -> Result<(), Fail> {
    let agreed = Polled::Agreed {
        value: FlagAnd {
            bits: 0xffff_ffff_ffff_fff0,
        },
        failed: 0,
        raised: false,
    };
    let made = Polled::Shrunk {
        comm: 1,
        context: 1,
        size: 4,
    };
    let members = four_members(rt.alloc())?;
    for replies in all_take_part(&rt, members)? {
        assert_eq!(rt; replies, [Ok(agreed), Ok(made), Ok(Polled::Done)]);
    }
    Ok(())
}

/// The one that revokes arrives after it, so nobody sees that all have arrived before a revocation.
#[test]
fn barrier_is_revoked(rt: HostRuntime) -> Result<(), Fail> {
    let members = four_members(rt.alloc())?;
    for reply in all_revoke_or_wait(&rt, members)? {
        assert_eq!(rt; reply, Err(Refusal::IsRevoked));
    }
    Ok(())
}
