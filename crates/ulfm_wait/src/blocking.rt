// Calls that start a request and poll until it is answered.
ghost use Rattle.std.specs.Prelude.{IfOk};
ghost use Rattle.ulfm_wait.specs.Members.{setting_of};
ghost use Rattle.ulfm_model.specs.declared.call.Call.TheVariants.{Agree, Shrink, Barrier};
ghost use Rattle.ulfm_wait.specs.Waits.{MemberPollsFrom, MemberPollsOn, MemberWaits, TellsAgree, TellsShrink};

use crate::Member;
use std::alloc::Allocator;
use std::sync::Wait;
use std::thread;
use ulfm_comm::Polled;
use ulfm_laws::meld::Packed;
use ulfm_model::refusal::Refusal;
use ulfm_words::Words;

/// Contributes a flag to the next agreement round of a communicator, and polls until there is a reply, which is never `Pending`. The reply
/// is what the round decided: the flags combined, this flag among them, the size of the failed group, and whether an error is raised.
///
/// It may wait for as long as some member of the communicator neither contributes nor is declared failed. Between two polls it yields to
/// other threads. A refusal is that of the start, as of `Member::iagree`, or of the poll that ended the wait, as of `Member::poll`; after
/// it the member is as that call leaves it.
///
/// ```
/// // Rank 1 of two was declared failed before, so nobody is waited for.
/// let value = FlagAnd { bits: 0b0110 };
/// let agreed = Polled::Agreed {
///     value,
///     failed: 1,
///     raised: true,
/// };
/// assert!(rt; ulfm_wait::agree(&rt, &mut member, 0, value) == Ok(agreed));
/// ```
pub fn agree<W: Words<P, A>, P: Packed, A: Allocator + Copy, R: Wait>(
    rt: &R,
    member: &mut Member<W, P, A>,
    comm: u16,
    value: P,
) -> Result<Polled<P>, Refusal>
    ensures waits { MemberWaits (setting_of P.meld P.pack W.alone) comm (Agree member.old.own.number comm value) member.old result member.new }
    ensures tells { IfOk result (TellsAgree P.meld member.old.view.words.limits member.new.view.pass.seen comm value member.old.own) }
{
    poll_started(rt, member.iagree(comm, value), member, comm)
}

/// Starts a shrink of a communicator, and polls until there is a reply, which is never `Pending`: the new communicator, its
/// context id, 0 to 63, and its size. The calling rank holds the new communicator from then on.
///
/// It may wait for as long as some member of the communicator neither starts a shrink nor is declared failed, and yields between two polls.
/// A refusal is that of the start, as of `Member::ishrink`, or of the poll that ended the wait, as of `Member::poll`; after it the member is
/// as that call leaves it. So after `OutOfMemory` of a poll the request is open as before, and may be polled.
///
/// ```
/// // Rank 1 of two was declared failed before, and is left out.
/// let alone = Polled::Shrunk {
///     comm: 1,
///     context: 1,
///     size: 1,
/// };
/// assert!(rt; ulfm_wait::shrink(&rt, &mut member, 0) == Ok(alone));
/// assert!(rt; ulfm_wait::barrier(&rt, &mut member, 1) == Ok(Polled::Done));
/// ```
pub fn shrink<W: Words<P, A>, P: Packed, A: Allocator + Copy, R: Wait>(
    rt: &R,
    member: &mut Member<W, P, A>,
    comm: u16,
) -> Result<Polled<P>, Refusal>
    ensures waits { MemberWaits (setting_of P.meld P.pack W.alone) comm (Shrink member.old.own.number comm) member.old result member.new }
    ensures tells { IfOk result (TellsShrink P.meld member.old.view.words.limits member.new.view.pass.seen comm member.old.own) }
{
    poll_started(rt, member.ishrink(comm), member, comm)
}

/// Arrives in the next barrier round of a communicator, and polls until there is a reply, which is never `Pending`: `Done`, where all
/// members of the communicator have arrived.
///
/// It may wait for as long as some member of the communicator neither arrives nor is declared failed, and the communicator isn't revoked. It
/// yields between two polls. A refusal is that of the start, as of `Member::ibarrier`, or of the poll that ended the wait, as of
/// `Member::poll`; after it the member is as that call leaves it.
///
/// ```
/// // Rank 1 of two was declared failed before, and can't arrive any more.
/// assert!(rt; ulfm_wait::barrier(&rt, &mut member, 0) == Err(Refusal::ProcFailed));
/// ```
pub fn barrier<W: Words<P, A>, P: Packed, A: Allocator + Copy, R: Wait>(
    rt: &R,
    member: &mut Member<W, P, A>,
    comm: u16,
) -> Result<Polled<P>, Refusal>
    ensures { MemberWaits (setting_of P.meld P.pack W.alone) comm (Barrier member.old.own.number comm) member.old result member.new }
{
    poll_started(rt, member.ibarrier(comm), member, comm)
}

// Polls until there is an answer, where a request was started. Where its start was refused, that is the answer.
fn poll_started<W: Words<P, A>, P: Packed, A: Allocator + Copy, R: Wait>(
    rt: &R,
    started: Result<(), Refusal>,
    member: &mut Member<W, P, A>,
    comm: u16,
) -> Result<Polled<P>, Refusal>
    ensures { MemberPollsFrom (setting_of P.meld P.pack W.alone) comm started member.old result member.new }
{
    match started {
        Ok(()) => poll_on(rt, member, comm),
        Err(refusal) => Err(refusal),
    }
}

// Polls until there is an answer.
fn poll_on<W: Words<P, A>, P: Packed, A: Allocator + Copy, R: Wait>(
    rt: &R,
    member: &mut Member<W, P, A>,
    comm: u16,
) -> Result<Polled<P>, Refusal>
    ensures { MemberPollsOn (setting_of P.meld P.pack W.alone) comm member.old result member.new }
{
    for _ in rt.forever() {
        match member.poll(comm) {
            Ok(reply) => match reply {
                Polled::Pending => thread::yield_now(),
                answer => return Ok(answer),
            },
            Err(refusal) => return Err(refusal),
        }
    }
    unreachable!()
}
