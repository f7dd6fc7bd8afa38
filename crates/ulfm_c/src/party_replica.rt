// The calls of a party that is a rank which replays a log, with the codes that C sees.
ghost use Rattle.std.specs.Prelude.{◌≡◌, ℕ, Some};
ghost use Rattle.ulfm_c.specs.Written.{lent};
ghost use Rattle.ulfm_laws.specs.Flags.{flag_meld};
ghost use Rattle.ulfm_model.specs.Answers.{traits_of};
ghost use Rattle.ulfm_model.specs.declared.{call.Call.{Call as CallOf}, event.Caller.TheVariants.{Rank as OfRank}};
ghost use Rattle.ulfm_replica.specs.Replicas.{BeginsIn, Replicated};
ghost use Rattle.ulfm_c.specs.Replicas.{PartyReplays, ReplicaAgrees, ReplicaBegins, ReplicaCounts, ReplicaFeeds, ReplicaLists, ReplicaRuns, GroupOf, IsPlain, Tells, call_of, fed_code};

use crate::asked::Asked;
use crate::code::{CALL, GAP, LOST, NOT_A_RANK, refusal_code};
use crate::party::{Party, Replica};
use crate::polled::{AGREED, DONE, Flag, PENDING, PolledReply, SHRUNK};
use crate::written::write_list;
use std::alloc::Global;
use ulfm_comm::Rank;
use ulfm_laws::FlagAnd;
use ulfm_model::{Call, Refusal, Reply};
use ulfm_replica::{EntryBytes, Fed, FeedFault, Lost, Ran, among, bytes_of};

/// No call is under way.
pub const IDLE: u32 = 0;

/// The call waits for an entry, which is to be appended to the log.
pub const WANTS: u32 = 1;

/// The call is answered.
pub const ANSWERED: u32 = 2;

// What an entry did, as C has it.
fn fed_number(fed: Fed) -> u32
    ensures { result ≡ fed_code fed }
{
    match fed {
        // It isn't legal behind those before it, or these are no entry's bytes: it is left out, here as everywhere.
        Fed::LeftOut => 0,
        Fed::Taken => 1,
        // It was the one that the call waited for.
        Fed::Own => 2,
    }
}

// A reply that tells a number.
fn counted(count: u16) -> PolledReply
    ensures { IsPlain count result }
{
    PolledReply {
        flag: 0,
        kind: PENDING,
        failed: count,
        comm: 0,
        context: 0,
        size: 0,
        raised: false,
    }
}

// What a reply tells, in C's words, behind its code.
fn told(reply: Reply<FlagAnd>) -> (i32, PolledReply)
    ensures { Tells reply result.0 result.1 }
{
    match reply {
        Reply::Refused(refusal) => (refusal_code(refusal), counted(0)),
        Reply::Agreed {
            value,
            failed,
            raised,
        } => (
            0,
            PolledReply {
                flag: value.bits,
                kind: AGREED,
                raised,
                ..counted(failed)
            },
        ),
        Reply::Shrunk {
            comm,
            context,
            size,
        } => (
            0,
            PolledReply {
                kind: SHRUNK,
                comm,
                context: u16::from(context),
                size,
                ..counted(0)
            },
        ),
        Reply::Done => (
            0,
            PolledReply {
                kind: DONE,
                ..counted(0)
            },
        ),
        Reply::FailedGroup { count } => (0, counted(count)),
        Reply::Acked { count } => (0, counted(count)),
        Reply::Standing { revoked } => (0, counted(u16::from(revoked))),
        Reply::Revoked | Reply::Declared => (0, counted(1)),
        Reply::Started
        | Reply::Pending
        | Reply::Freed
        | Reply::AlreadyFailed
        | Reply::AlreadyRevoked => (0, counted(0)),
    }
}

// Begins a call of a replica's rank.
fn begin(replica: &mut Replica, asked: Call<FlagAnd>) -> i32
    requires mine { (r : Replicated FlagAnd) → replica.old ≡ Some r → (traits_of asked).by ≡ OfRank r.at.own.number }
    ensures { (r : Replicated FlagAnd) (by : ℕ → CallOf FlagAnd) → replica.old ≡ Some r → asked ≡ by r.at.own.number → ReplicaBegins by replica.old replica.new result }
{
    if replica.begin(asked) { 0 } else { CALL }
}

// Writes out the failed group of a communicator, as a rank has seen it.
fn write_group(
    alloc: Global,
    rank: &Rank<FlagAnd, Global>,
    comm: u16,
    ranks: &mut [u16],
    count: &mut usize,
) -> i32
    ensures { GroupOf comm (lent ranks.old ranks.new count.new) rank.now.own result }
{
    let Some(members) = rank.members(comm) else {
        return refusal_code(Refusal::NoSuchComm);
    };
    match among(alloc, rank.failures(), members) {
        Ok(found) => {
            write_list(&found, ranks, count);
            0
        }
        Err(_) => refusal_code(Refusal::OutOfMemory),
    }
}

impl Party {
    pub(crate) fn begin_agree(&mut self, comm: u16, flag: Flag) -> i32
        ensures { PartyReplays (ReplicaAgrees comm flag) self.old self.new result }
    {
        match self {
            Party::Replica(replica) => match replica.number() {
                Some(rank) => begin(
                    replica,
                    Call::Agree {
                        rank,
                        comm,
                        value: FlagAnd { bits: flag },
                    },
                ),
                None => LOST,
            },
            Party::Rank(_) | Party::Outside(_) => NOT_A_RANK,
        }
    }

    pub(crate) fn begin_asked(&mut self, asked: Asked) -> i32
        ensures { PartyReplays (ReplicaBegins (call_of asked)) self.old self.new result }
    {
        match self {
            Party::Replica(replica) => match replica.number() {
                Some(rank) => begin(replica, asked.by(rank)),
                None => LOST,
            },
            Party::Rank(_) | Party::Outside(_) => NOT_A_RANK,
        }
    }

    pub(crate) fn run(
        &mut self,
        entry: &mut EntryBytes,
        reply: &mut PolledReply,
        code: &mut i32,
        ran: &mut u32,
    ) -> i32
        ensures { PartyReplays (ReplicaRuns (record { entry = entry.new.bytes; reply = reply.new; code = code.new; ran = ran.new })) self.old self.new result }
    {
        match self {
            Party::Replica(replica) => match replica.run() {
                Ok(Ran::Idle) => {
                    *ran = IDLE;
                    0
                }
                Ok(Ran::Wants(wanted)) => {
                    *ran = WANTS;
                    entry.bytes = bytes_of(&wanted);
                    0
                }
                Ok(Ran::Answered(answer)) => {
                    *ran = ANSWERED;
                    (*code, *reply) = told(answer);
                    0
                }
                Err(Lost) => LOST,
            },
            Party::Rank(_) | Party::Outside(_) => NOT_A_RANK,
        }
    }

    pub(crate) fn feed(&mut self, index: u64, entry: &EntryBytes, fed: &mut u32) -> i32
        ensures { PartyReplays (ReplicaFeeds index entry.now.bytes fed.new) self.old self.new result }
    {
        match self {
            Party::Replica(replica) => match replica.feed(index, entry) {
                Ok(done) => {
                    *fed = fed_number(done);
                    0
                }
                Err(FeedFault::Gap) => GAP,
                Err(FeedFault::Lost) => LOST,
            },
            Party::Rank(_) | Party::Outside(_) => NOT_A_RANK,
        }
    }

    pub(crate) fn fed(&mut self, count: &mut u64) -> i32
        ensures { PartyReplays (ReplicaCounts count.new) self.old self.new result }
    {
        match self {
            Party::Replica(replica) => match replica.fed() {
                Some(fed) => {
                    *count = fed;
                    0
                }
                None => LOST,
            },
            Party::Rank(_) | Party::Outside(_) => NOT_A_RANK,
        }
    }

    pub(crate) fn replica_group(
        &mut self,
        alloc: Global,
        comm: u16,
        ranks: &mut [u16],
        count: &mut usize,
    ) -> i32
        ensures { PartyReplays (ReplicaLists comm (lent ranks.old ranks.new count.new)) self.old self.new result }
    {
        match self {
            Party::Replica(replica) => match replica.rank() {
                Some(rank) => write_group(alloc, rank, comm, ranks, count),
                None => LOST,
            },
            Party::Rank(_) | Party::Outside(_) => NOT_A_RANK,
        }
    }
}
