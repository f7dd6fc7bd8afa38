// A communicator is revoked on one thread while ranks poll a barrier of it on others. No function here may wait.
ghost use Rattle.std.specs.Prelude.{◌≡◌, IfOk};
ghost use Rattle.std.specs.List.{AllByRecursion};

use crate::tests::member::{Member, Members, Outside, often, open};
use std::alloc::{AllocError, Global};
use std::cmp::Ordering;
use std::process::Abort;
use std::test::Fail;
use std::thread::{self, Threads};
use ulfm_book::BookTold;
use ulfm_comm::Polled;
use ulfm_laws::FlagAnd;
use ulfm_model::Refusal;

type Reply = Result<Polled<FlagAnd>, Refusal>;

/// The rank that revokes. Its thread and that of rank 0 start together, so that the polls of rank 0 may come before the
/// revocation as well as after it.
const REVOKER: u16 = 1;

/// What a rank's calls on its thread replied.
#[derive(Drop)]
enum Replies {
    /// Of the rank that revokes: whether it was the first.
    Revoke(Result<bool, Refusal>),
    /// Of another: what its polls were answered, in order.
    Polls([Reply; 4]),
}

/// All ranks but the one that revokes arrive in a barrier.
fn arrive_others<R: Abort>(
    rt: &R,
    alloc: Global,
    outside: &Outside<FlagAnd>,
    all: Members,
) -> Result<Members, AllocError>
    requires { AllByRecursion (λ m. m.view.words ≡ outside.now.words) all.items }
    ensures { IfOk result (λ ready. AllByRecursion (λ m. m.view.words ≡ outside.now.words) ready.items) }
{
    let mut ready = Vec::with_capacity(alloc, all.len())?;
    for mut member in all {
        if member.number() != REVOKER {
            assert_eq!(rt; member.ibarrier(0), Ok(()));
        }
        ready.push(member)?;
    }
    Ok(ready)
}

/// The rank that revokes does so, and each other polls four times in a row.
fn revoke_or_poll(mut member: Member<FlagAnd>) -> (Replies, Member<FlagAnd>)
    ensures { result.1.view.words ≡ member.view.words }
{
    let replies = if member.number() == REVOKER {
        Replies::Revoke(member.revoke(0))
    } else {
        Replies::Polls([
            member.poll(0),
            member.poll(0),
            member.poll(0),
            member.poll(0),
        ])
    };
    (replies, member)
}

/// Each does so on a thread of its own, and comes back with its replies.
fn run_all<R: Threads + Sync>(
    rt: &R,
    outside: &Outside<FlagAnd>,
    all: Members,
) -> Result<Vec<(Replies, Member<FlagAnd>)>, AllocError>
    requires { AllByRecursion (λ m. m.view.words ≡ outside.now.words) all.items }
    ensures { IfOk result (λ done. AllByRecursion (λ d. d.1.view.words ≡ outside.now.words) done.items) }
{
    thread::map_vec(rt, all, &|member| revoke_or_poll(member))
}

/// The polls of one rank are pending until one sees the revocation. That one is refused and ends the request, so none is
/// open for those after it. Whether all four were pending.
fn stays_open<R: Abort>(rt: &R, polls: [Reply; 4]) -> bool {
    let pending = polls
        .iter()
        .position(|reply| *reply != Ok(Polled::Pending))
        .unwrap_or(polls.len());
    for (index, reply) in polls.iter().enumerate() {
        let expected = match index.cmp(&pending) {
            Ordering::Less => Ok(Polled::Pending),
            Ordering::Equal => Err(Refusal::IsRevoked),
            Ordering::Greater => Err(Refusal::Idle),
        };
        assert_eq!(rt; *reply, expected);
    }
    pending == polls.len()
}

/// A rank learns what the one that revoked saw. It then agrees that the communicator is revoked, and a request that was
/// open is refused.
fn learn_then_poll<R: Abort>(
    rt: &R,
    mut member: Member<FlagAnd>,
    told: &BookTold<FlagAnd>,
    open: bool,
)
    requires { told.now.name ≡ member.view.words }
{
    member.learn(told);
    assert_eq!(rt; member.is_revoked(0), Ok(true));
    let expected = if open {
        Refusal::IsRevoked
    } else {
        Refusal::Idle
    };
    assert_eq!(rt; member.poll(0), Err(expected));
}

/// Of four ranks one revokes, while the others poll the barrier in which they arrived.
fn revoke_while_polled<R: Threads + Sync + Abort>(rt: &R, alloc: Global) -> Result<(), Fail> {
    let (outside, all) = open(alloc, 4)?;
    let ready = arrive_others(rt, alloc, &outside, all)?;
    let mut done = run_all(rt, &outside, ready)?;
    assert_eq!(rt; done.len(), 4);
    let (reply, revoker) = done.remove(usize::from(REVOKER));
    assert!(rt; matches!(reply, Replies::Revoke(Ok(true))));
    let told = revoker.told();
    for (replies, member) in done {
        let Replies::Polls(polls) = replies else {
            panic!(rt; "another rank revoked")
        };
        let open = stays_open(rt, polls);
        learn_then_poll(rt, member, &told, open);
    }
    Ok(())
}

#[test]
fn revoked_while_polled(rt: HostRuntime) -> Result<(), Fail> {
    often(&|| revoke_while_polled(&rt, rt.alloc()))
}
