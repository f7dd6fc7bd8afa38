//! Ranks that replay the log of their world. Such a rank shares no words with others: what they did comes to it as the entries of one log, which all
//! ranks of the world read in the same order. A call is begun, and run; where it waits for an entry, that is appended to the log, by whatever
//! store keeps it, and comes back by `ulfm_feed` at its place there. None of these calls waits, and none knows of a store.
//!
//! Each answers 18 where the handle holds nothing, 19 where it holds a rank of threads or their outside, and 23 where the replica is lost: where
//! memory was refused by `ulfm_run` or `ulfm_feed`, now or before. Then it serves for nothing but `ulfm_close`.
ghost use Rattle.std.specs.Prelude.{◌≡◌, ◌≢◌, pos};
ghost use Rattle.ulfm_model.specs.declared.call.Call.TheVariants as asks;
ghost use Rattle.ulfm_c.specs.Calls.{HandleCalls};
ghost use Rattle.ulfm_c.specs.Opens.{limits_of};
ghost use Rattle.ulfm_c.specs.Replicas.{OpensReplica, PartyReplays, ReplicaAgrees, ReplicaBegins, ReplicaCounts, ReplicaFeeds, ReplicaLists, ReplicaRuns};
ghost use Rattle.ulfm_c.specs.Written.{lent};

use crate::asked::Asked;
use crate::handle::{Handle, held};
use crate::opening::{no_replica_code, open_replica};
use crate::polled::{Flag, PolledReply};
use std::alloc::Global;
use ulfm_model::Limits;
use ulfm_replica::EntryBytes;

/// Opens a replica of rank `number` of a world of these limits (`ulfm_open` has their ranges), where nothing has happened, and fills in its
/// handle. What the handle held before is given back. All replicas of a world are opened with the same limits.
///
/// 16 where a limit is out of its range; 17 where the world is too large; 13 where it has no such rank; 14 where memory is refused. Then the handle
/// is as it was.
#[unsafe(no_mangle)]
pub extern "C" fn ulfm_open_replica(
    alloc: Global,
    handle: &mut Handle,
    number: u16,
    ranks: u16,
    comms: u16,
    rounds: u16,
) -> i32
    ensures opened { result ≡ pos 0 → OpensReplica (limits_of ranks comms rounds) number handle.new.party }
    ensures kept { result ≢ pos 0 → handle.new ≡ handle.old }
{
    let limits = Limits {
        ranks,
        comms,
        rounds,
    };
    match open_replica(alloc, limits, number) {
        Ok(party) => {
            handle.hold(alloc, party);
            0
        }
        Err(fault) => no_replica_code(limits, number, fault),
    }
}

/// Begins an agree, as `ulfm_iagree` starts one. `ulfm_run` makes it.
///
/// 21 where a call is under way, or its reply wasn't told by `ulfm_run` yet.
#[unsafe(no_mangle)]
pub extern "C" fn ulfm_begin_agree(handle: &mut Handle, comm: u16, flag: Flag) -> i32
    ensures { HandleCalls (PartyReplays (ReplicaAgrees comm flag)) handle.old.party handle.new.party result }
{
    held!(handle, party => party.begin_agree(comm, flag))
}

/// Begins a shrink, as `ulfm_ishrink` starts one. `ulfm_run` makes it.
///
/// 21 where a call is under way, or its reply wasn't told by `ulfm_run` yet.
#[unsafe(no_mangle)]
pub extern "C" fn ulfm_begin_shrink(handle: &mut Handle, comm: u16) -> i32
    ensures { HandleCalls (PartyReplays (ReplicaBegins (λ r. asks.Shrink r comm))) handle.old.party handle.new.party result }
{
    held!(handle, party => party.begin_asked(Asked::Shrink { comm }))
}

/// Begins a barrier, as `ulfm_ibarrier` starts one. `ulfm_run` makes it.
///
/// 21 where a call is under way, or its reply wasn't told by `ulfm_run` yet.
#[unsafe(no_mangle)]
pub extern "C" fn ulfm_begin_barrier(handle: &mut Handle, comm: u16) -> i32
    ensures { HandleCalls (PartyReplays (ReplicaBegins (λ r. asks.Barrier r comm))) handle.old.party handle.new.party result }
{
    held!(handle, party => party.begin_asked(Asked::Barrier { comm }))
}

/// Begins a poll of the request that is open on a communicator, as `ulfm_poll`. `ulfm_run` makes it.
///
/// 21 where a call is under way, or its reply wasn't told by `ulfm_run` yet.
#[unsafe(no_mangle)]
pub extern "C" fn ulfm_begin_poll(handle: &mut Handle, comm: u16) -> i32
    ensures { HandleCalls (PartyReplays (ReplicaBegins (λ r. asks.Poll r comm))) handle.old.party handle.new.party result }
{
    held!(handle, party => party.begin_asked(Asked::Poll { comm }))
}

/// Begins a revocation, as `ulfm_revoke`. `ulfm_run` makes it.
///
/// 21 where a call is under way, or its reply wasn't told by `ulfm_run` yet.
#[unsafe(no_mangle)]
pub extern "C" fn ulfm_begin_revoke(handle: &mut Handle, comm: u16) -> i32
    ensures { HandleCalls (PartyReplays (ReplicaBegins (λ r. asks.Revoke r comm))) handle.old.party handle.new.party result }
{
    held!(handle, party => party.begin_asked(Asked::Revoke { comm }))
}

/// Begins the question whether a communicator is revoked, as `ulfm_is_revoked`. `ulfm_run` makes it.
///
/// 21 where a call is under way, or its reply wasn't told by `ulfm_run` yet.
#[unsafe(no_mangle)]
pub extern "C" fn ulfm_begin_is_revoked(handle: &mut Handle, comm: u16) -> i32
    ensures { HandleCalls (PartyReplays (ReplicaBegins (λ r. asks.IsRevoked r comm))) handle.old.party handle.new.party result }
{
    held!(handle, party => party.begin_asked(Asked::IsRevoked { comm }))
}

/// Begins the question for the size of the failed group, as `ulfm_get_failed`. `ulfm_run` makes it.
///
/// 21 where a call is under way, or its reply wasn't told by `ulfm_run` yet.
#[unsafe(no_mangle)]
pub extern "C" fn ulfm_begin_get_failed(handle: &mut Handle, comm: u16) -> i32
    ensures { HandleCalls (PartyReplays (ReplicaBegins (λ r. asks.GetFailed r comm))) handle.old.party handle.new.party result }
{
    held!(handle, party => party.begin_asked(Asked::GetFailed { comm }))
}

/// Begins an acknowledgement of so many failures, as `ulfm_ack_failed`. `ulfm_run` makes it.
///
/// 21 where a call is under way, or its reply wasn't told by `ulfm_run` yet.
#[unsafe(no_mangle)]
pub extern "C" fn ulfm_begin_ack_failed(handle: &mut Handle, comm: u16, count: u16) -> i32
    ensures { HandleCalls (PartyReplays (ReplicaBegins (λ r. asks.Ack r comm count))) handle.old.party handle.new.party result }
{
    held!(handle, party => party.begin_asked(Asked::Ack { comm, count }))
}

/// Begins an acknowledgement of all failures, as `ulfm_failure_ack`. `ulfm_run` makes it.
///
/// 21 where a call is under way, or its reply wasn't told by `ulfm_run` yet.
#[unsafe(no_mangle)]
pub extern "C" fn ulfm_begin_failure_ack(handle: &mut Handle, comm: u16) -> i32
    ensures { HandleCalls (PartyReplays (ReplicaBegins (λ r. asks.FailureAck r comm))) handle.old.party handle.new.party result }
{
    held!(handle, party => party.begin_asked(Asked::FailureAck { comm }))
}

/// Begins the question for the size of the acknowledged group, as `ulfm_failure_get_acked`. `ulfm_run` makes it.
///
/// 21 where a call is under way, or its reply wasn't told by `ulfm_run` yet.
#[unsafe(no_mangle)]
pub extern "C" fn ulfm_begin_failure_get_acked(handle: &mut Handle, comm: u16) -> i32
    ensures { HandleCalls (PartyReplays (ReplicaBegins (λ r. asks.FailureGetAcked r comm))) handle.old.party handle.new.party result }
{
    held!(handle, party => party.begin_asked(Asked::FailureGetAcked { comm }))
}

/// Begins the giving back of a communicator, as `ulfm_free`. `ulfm_run` makes it.
///
/// 21 where a call is under way, or its reply wasn't told by `ulfm_run` yet.
#[unsafe(no_mangle)]
pub extern "C" fn ulfm_begin_free(handle: &mut Handle, comm: u16) -> i32
    ensures { HandleCalls (PartyReplays (ReplicaBegins (λ r. asks.Free r comm))) handle.old.party handle.new.party result }
{
    held!(handle, party => party.begin_asked(Asked::Free { comm }))
}

/// Steps on as far as no entry is waited for. `ran` gets 0 where no call is under way, 1 where the call waits for an entry, whose bytes `entry`
/// gets, and 2 where it is answered: `code` gets the code that the call of a rank of threads would answer, and `reply` what it tells. A poll's reply is
/// that of `ulfm_poll`. Of other calls `failed` has what they tell: 1 or 0 for `revoke` (this call revoked it) and `is_revoked`, the size of the
/// group for `get_failed` and `failure_get_acked`, how many are acknowledged for the other two. It may be called at any time, and names the same
/// entry until that has come, or another took its place.
#[unsafe(no_mangle)]
pub extern "C" fn ulfm_run(
    handle: &mut Handle,
    entry: &mut EntryBytes,
    reply: &mut PolledReply,
    code: &mut i32,
    ran: &mut u32,
) -> i32
    ensures { HandleCalls (PartyReplays (ReplicaRuns (record { entry = entry.new.bytes; reply = reply.new; code = code.new; ran = ran.new })))
        handle.old.party handle.new.party result }
{
    held!(handle, party => party.run(entry, reply, code, ran))
}

/// Feeds the entry of this number of the world's log, counted from 0. `fed` gets 0 where it is left out, since it isn't legal behind those before
/// it, or since its bytes are no entry's; 1 where it was taken; 2 where the call waited for it, and has made its step.
///
/// 22 where this isn't the number of the next entry: then nothing changes.
#[unsafe(no_mangle)]
pub extern "C" fn ulfm_feed(
    handle: &mut Handle,
    index: u64,
    entry: &EntryBytes,
    fed: &mut u32,
) -> i32
    ensures { HandleCalls (PartyReplays (ReplicaFeeds index entry.now.bytes fed.new)) handle.old.party handle.new.party result }
{
    held!(handle, party => party.feed(index, entry, fed))
}

/// With how many entries it was fed: the number of the next one.
#[unsafe(no_mangle)]
pub extern "C" fn ulfm_fed(handle: &mut Handle, count: &mut u64) -> i32
    ensures { HandleCalls (PartyReplays (ReplicaCounts count.new)) handle.old.party handle.new.party result }
{
    held!(handle, party => party.fed(count))
}

/// Writes out the failed group of a communicator as the replica's calls have seen it, in the order of the declarations: behind `get_failed` it is
/// what that call counted, and behind `failure_get_acked` its first so many are. It makes no step, and takes memory for the group while it runs.
/// `ranks` gets as many as it has room for, and what is behind them in it is as it was; `count` gets the size of the whole group.
///
/// 2 where the rank doesn't hold the communicator, 14 where memory is refused.
#[unsafe(no_mangle)]
pub extern "C" fn ulfm_replica_group(
    alloc: Global,
    handle: &mut Handle,
    comm: u16,
    ranks: &mut [u16],
    count: &mut usize,
) -> i32
    ensures { HandleCalls (PartyReplays (ReplicaLists comm (lent ranks.old ranks.new count.new))) handle.old.party handle.new.party result }
{
    held!(handle, party => party.replica_group(alloc, comm, ranks, count))
}
