//! The calls of a rank. Each makes atomic steps on the words that all ranks share: a step is one atomic load or compare-exchange.
//!
//! Each begins with a look: loads of the list of declared failures, from behind those that the rank has seen to the first empty place. So with
//! N ranks, of which it has seen v declared, a look makes N - v steps at most. A rank that was answered 1 is answered 1 for good, without a
//! step. Besides what a call's own page says, each answers 18 where the handle holds nothing and 19 where it is the outside's; then nothing is
//! done. A code other than 0 leaves the rank as it was, but for what its look has seen, and where the call's own page says more. 15 says that
//! another has contributed as this rank. It doesn't come while C keeps its rules, since a rank has one handle, so no page names it.
ghost use Rattle.std.specs.Prelude.{◌≡◌, ◌≢◌, false, pos, true};
ghost use Rattle.ulfm_c.specs.Calls.{HandleCalls, PartyCalls, RankAgrees, RankDoes, RankGets, RankMisses, RankPolls, RankShrinks, RankTells};
ghost use Rattle.ulfm_c.specs.Written.{lent};
ghost use Rattle.ulfm_comm.specs.Revokes.{revoked};
ghost use Rattle.ulfm_model.specs.declared.call.Call.TheVariants.{Ack, Barrier, FailureAck, Free, IsRevoked, Revoke};
ghost use Rattle.ulfm_model.specs.declared.reply.Reply.TheVariants.{Acked, Freed, Standing, Started};

use crate::code::{NOT_A_RANK, code_of, refusal_code};
use crate::handle::{Handle, held};
use crate::party::Party;
use crate::polled::{Flag, PolledReply};
use crate::written::{tell, tell_found};
use std::alloc::Global;
use ulfm_laws::FlagAnd;

/// The answer of the rank of threads that a handle holds; the code for another party, or for none.
macro_rules! by_rank {
    ($handle:ident, $member:ident => $answer:expr) => {
        held!($handle, party => match party {
            Party::Rank($member) => $answer,
            Party::Outside(_) | Party::Replica(_) => NOT_A_RANK,
        })
    };
}

/// Starts an agree on a flag, in the rank's next agreement round of the communicator. The rank contributes the flag, how many failures it
/// knows, and how many of them it has acknowledged. From then on the request is open, until a poll ends it. It makes the steps of a look
/// and one more.
///
/// 1 where the rank is declared failed, 2 where it doesn't hold the communicator, 3 where a request is open on it, 5 where no round is
/// left but the last, which is kept for a shrink. After these, 1 where the rank was declared and another rank had left it out of the round
/// before it contributed. A code other than 0 starts no request.
#[unsafe(no_mangle)]
pub extern "C" fn ulfm_iagree(handle: &mut Handle, comm: u16, flag: Flag) -> i32
    ensures { HandleCalls (PartyCalls (RankAgrees comm flag)) handle.old.party handle.new.party result }
{
    by_rank!(handle, member => code_of(member.iagree(comm, FlagAnd { bits: flag })))
}

/// Starts a shrink of a communicator, in the rank's next agreement round of it. The rank contributes the context ids that none of its
/// communicators has, how many failures it knows, all of which are to be left out, and how many of them it has acknowledged. From then on
/// the request is open, until a poll ends it. It makes the steps of a look and one more.
///
/// 1 where the rank is declared failed, 2 where it doesn't hold the communicator, 3 where a request is open on it, 4 where the rank has a
/// shrink open on any of its communicators, 5 where no round is left. After these, 1 as for `ulfm_iagree`. A code other than 0 starts no
/// request.
#[unsafe(no_mangle)]
pub extern "C" fn ulfm_ishrink(handle: &mut Handle, comm: u16) -> i32
    ensures { HandleCalls (PartyCalls (RankShrinks comm)) handle.old.party handle.new.party result }
{
    by_rank!(handle, member => code_of(member.ishrink(comm)))
}

/// Starts a barrier, in the rank's next barrier round of the communicator: the rank has arrived. Barrier rounds are counted apart from
/// agreement rounds. From then on the request is open, until a poll ends it. A barrier starts on a revoked communicator too; its poll then
/// says that it is revoked. It makes the steps of a look and one more.
///
/// 1 where the rank is declared failed, 2 where it doesn't hold the communicator, 3 where a request is open on it, 5 where no round is
/// left. A code other than 0 starts no request.
#[unsafe(no_mangle)]
pub extern "C" fn ulfm_ibarrier(handle: &mut Handle, comm: u16) -> i32
    ensures { HandleCalls (PartyCalls (RankDoes (λ r. Barrier r comm) Started)) handle.old.party handle.new.party result }
{
    by_rank!(handle, member => code_of(member.ibarrier(comm)))
}

/// Asks for the reply to the request that is open on a communicator, and writes it to `reply`. It never waits: where somebody is missing
/// who isn't known to have failed, the reply is `PENDING`, and the request stays open. Each other reply ends it.
///
/// 1 where the rank is declared failed, 2 where it doesn't hold the communicator, 6 where no request is open on it, 7 where some agreed and
/// others shrank in one round. For a shrink, then: 8 where no context id is free at all contributors; 1 where the rank is in the failed
/// group that was decided; 14 where memory for the new communicator is refused; 9 where as many communicators as the world may have were
/// made. For a barrier: 10 where the communicator is revoked; 11 where it isn't, and a member that is known to have failed is missing. 7
/// to 11 end the request. After 14 it is open as before, and may be polled again.
///
/// With N ranks, of which the rank has seen v declared, n members and M communicators, the poll of an agree makes N - v + 5n + 4 steps at
/// most, that of a shrink N - v + 5n + 2M + 3, and that of a barrier N - v + n + 1, whatever the others do.
#[unsafe(no_mangle)]
pub extern "C" fn ulfm_poll(handle: &mut Handle, comm: u16, reply: &mut PolledReply) -> i32
    ensures calls { HandleCalls (PartyCalls (RankPolls comm reply.new)) handle.old.party handle.new.party result }
    ensures kept { result ≢ pos 0 → reply.new ≡ reply.old }
{
    by_rank!(handle, member => match member.poll(comm) {
        Ok(polled) => {
            *reply = PolledReply::of(polled);
            0
        }
        Err(refusal) => refusal_code(refusal),
    })
}

/// Writes out the failed group of a communicator, in the order of the declarations: the members that are known to have failed. `ranks` gets
/// as many as it has room for, and what is behind them in it is as it was; `count` gets the size of the whole group. It makes the steps of a
/// look, and takes memory for the group while it runs.
///
/// 1 where the rank is declared failed, 2 where it doesn't hold the communicator, 14 where memory is refused.
#[unsafe(no_mangle)]
pub extern "C" fn ulfm_get_failed(
    alloc: Global,
    handle: &mut Handle,
    comm: u16,
    ranks: &mut [u16],
    count: &mut usize,
) -> i32
    ensures calls { HandleCalls (PartyCalls (RankGets false comm (lent ranks.old ranks.new count.new))) handle.old.party handle.new.party result }
    ensures kept { result ≢ pos 0 → (ranks.new ≡ ranks.old) × (count.new ≡ count.old) }
{
    let mut found = Vec::new(alloc);
    by_rank!(handle, member => tell_found(member.get_failed(comm, &mut found), &found, ranks, count))
}

/// Writes out who is missing in the round of the request that is open on a communicator, in the members' order: of an agree or a shrink the
/// members who have neither contributed nor were marked as left out, of a barrier those who haven't arrived. Whoever is listed was missing
/// when its place was loaded, and may have come since; whoever isn't has come. `ranks` gets as many as it has room for, and what is behind
/// them in it is as it was; `count` gets how many there are. It is no call of the rank: it makes no look, what the rank keeps is as it was,
/// and `ulfm_last_steps` doesn't count it. Where the communicator has n members it makes n steps, and takes memory for n ranks while it runs.
///
/// 2 where the rank doesn't hold the communicator, 6 where no request is open on it, 14 where memory is refused. A rank that is declared
/// failed is answered like any other.
#[unsafe(no_mangle)]
pub extern "C" fn ulfm_missing(
    alloc: Global,
    handle: &mut Handle,
    comm: u16,
    ranks: &mut [u16],
    count: &mut usize,
) -> i32
    ensures calls { HandleCalls (PartyCalls (RankMisses comm (lent ranks.old ranks.new count.new))) handle.old.party handle.new.party result }
    ensures kept { result ≢ pos 0 → (ranks.new ≡ ranks.old) × (count.new ≡ count.old) }
{
    let mut found = Vec::new(alloc);
    by_rank!(handle, member => tell_found(member.missing(comm, &mut found), &found, ranks, count))
}

/// Acknowledges the first `count` known failures of a communicator, or all that are known where `count` is greater. `acknowledged` gets how
/// many are acknowledged now, earlier calls included. It makes the steps of a look.
///
/// 1 where the rank is declared failed, 2 where it doesn't hold the communicator.
#[unsafe(no_mangle)]
pub extern "C" fn ulfm_ack_failed(
    handle: &mut Handle,
    comm: u16,
    count: u16,
    acknowledged: &mut u16,
) -> i32
    ensures calls { HandleCalls (PartyCalls (RankTells (λ r. Ack r comm count) Acked acknowledged.new)) handle.old.party handle.new.party result }
    ensures kept { result ≢ pos 0 → acknowledged.new ≡ acknowledged.old }
{
    by_rank!(handle, member => tell(member.ack_failed(comm, count), acknowledged))
}

/// Acknowledges all known failures of a communicator, as `ulfm_ack_failed` does where it asks for 1024. `acknowledged` gets how many are
/// acknowledged now. It makes the steps of a look. It is the call of the interface of 2013, whose caller isn't told how many there are.
///
/// 1 where the rank is declared failed, 2 where it doesn't hold the communicator.
#[unsafe(no_mangle)]
pub extern "C" fn ulfm_failure_ack(handle: &mut Handle, comm: u16, acknowledged: &mut u16) -> i32
    ensures calls { HandleCalls (PartyCalls (RankTells (λ r. FailureAck r comm) Acked acknowledged.new)) handle.old.party handle.new.party result }
    ensures kept { result ≢ pos 0 → acknowledged.new ≡ acknowledged.old }
{
    by_rank!(handle, member => tell(member.failure_ack(comm), acknowledged))
}

/// Writes out the acknowledged failures of a communicator: of its failed group the first ranks, as many as the rank's calls have
/// acknowledged. `ranks` gets as many as it has room for, and what is behind them in it is as it was; `count` gets how many there are. It
/// makes the steps of a look, and takes memory for them while it runs. It is the call of the interface of 2013, which gives a group.
///
/// 1 where the rank is declared failed, 2 where it doesn't hold the communicator, 14 where memory is refused.
#[unsafe(no_mangle)]
pub extern "C" fn ulfm_failure_get_acked(
    alloc: Global,
    handle: &mut Handle,
    comm: u16,
    ranks: &mut [u16],
    count: &mut usize,
) -> i32
    ensures calls { HandleCalls (PartyCalls (RankGets true comm (lent ranks.old ranks.new count.new))) handle.old.party handle.new.party result }
    ensures kept { result ≢ pos 0 → (ranks.new ≡ ranks.old) × (count.new ≡ count.old) }
{
    let mut found = Vec::new(alloc);
    by_rank!(handle, member => tell_found(member.failure_get_acked(comm, &mut found), &found, ranks, count))
}

/// Revokes a communicator, for all ranks and for good. `first` gets true where this call did so, false where it had been revoked before. A
/// barrier that is open on it ends with 10. All other calls go on as before, so that ranks can agree on the communicator, shrink it and give
/// it back. It makes the steps of a look and one more.
///
/// 1 where the rank is declared failed, 2 where it doesn't hold the communicator.
#[unsafe(no_mangle)]
pub extern "C" fn ulfm_revoke(handle: &mut Handle, comm: u16, first: &mut bool) -> i32
    ensures calls { HandleCalls (PartyCalls (RankTells (λ r. Revoke r comm) revoked first.new)) handle.old.party handle.new.party result }
    ensures kept { result ≢ pos 0 → first.new ≡ first.old }
{
    by_rank!(handle, member => tell(member.revoke(comm), first))
}

/// Whether a communicator is revoked, when this call loads the communicator's word of revocation. It makes the steps of a look and one more.
///
/// 1 where the rank is declared failed, 2 where it doesn't hold the communicator.
#[unsafe(no_mangle)]
pub extern "C" fn ulfm_is_revoked(handle: &mut Handle, comm: u16, answer: &mut bool) -> i32
    ensures calls { HandleCalls (PartyCalls (RankTells (λ r. IsRevoked r comm) Standing answer.new)) handle.old.party handle.new.party result }
    ensures kept { result ≢ pos 0 → answer.new ≡ answer.old }
{
    by_rank!(handle, member => tell(member.is_revoked(comm), answer))
}

/// Gives a communicator back: the rank doesn't hold it any more, and its context id is free at this rank. Each rank gives back its own, and
/// other ranks hold the communicator as before. It makes the steps of a look.
///
/// 1 where the rank is declared failed, 2 where it doesn't hold the communicator, 12 where it is the world's own, 3 where a request is open
/// on it.
#[unsafe(no_mangle)]
pub extern "C" fn ulfm_free(handle: &mut Handle, comm: u16) -> i32
    ensures { HandleCalls (PartyCalls (RankDoes (λ r. Free r comm) Freed)) handle.old.party handle.new.party result }
{
    by_rank!(handle, member => code_of(member.free(comm)))
}
