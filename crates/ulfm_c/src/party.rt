//! The parties of a world, its ranks and its outside, and what is read of them, with the codes that C sees.
ghost use Rattle.std.specs.Prelude.{◌≡◌, ◌≢◌, pos};
ghost use Rattle.ulfm_c.specs.Calls.{PartyFails};
ghost use Rattle.ulfm_c.specs.Reads.{MemberReads, PartyReads, RankHolds, RankLists, RankShows};
ghost use Rattle.ulfm_c.specs.Written.{Lists, lent};

use crate::code::{LOST, NOT_A_RANK, refusal_code};
use crate::written::{tell, write_list};
use std::alloc::Global;
use ulfm_book::BookWords;
use ulfm_comm::Rank;
use ulfm_laws::FlagAnd;
use ulfm_model::Refusal;

/// A rank with its world and its pass.
pub type Member = ulfm_wait::Member<BookWords<FlagAnd>, FlagAnd, Global>;

/// The outside of a world, and its pass.
pub type Outside = ulfm_wait::Outside<BookWords<FlagAnd>, FlagAnd, Global>;

/// A rank that replays the log of its world.
pub type Replica = ulfm_replica::Replica<FlagAnd, Global>;

/// A party of a world: what a handle holds.
#[derive(Drop)]
pub enum Party {
    /// A rank of threads, or of processes that share memory.
    Rank(Member),
    /// Their outside.
    Outside(Outside),
    /// A rank that replays a log.
    Replica(Replica),
}

impl Party {
    pub(crate) fn fail(&mut self, rank: u16, first: &mut bool) -> i32
        ensures calls { PartyFails rank first.new self.old self.new result }
        ensures kept { result ≢ pos 0 → first.new ≡ first.old }
    {
        let answer = match self {
            Party::Rank(member) => member.fail(rank),
            Party::Outside(outside) => outside.fail(rank),
            Party::Replica(_) => return NOT_A_RANK,
        };
        tell(answer, first)
    }
}

// The members of a communicator that a replica's rank holds.
fn members_of(rank: &Rank<FlagAnd, Global>, comm: u16, ranks: &mut [u16], count: &mut usize) -> i32
    ensures reads { RankHolds (λ x. Lists x.group (lent ranks.old ranks.new count.new)) comm rank.now.own result }
    ensures kept { result ≢ pos 0 → (ranks.new ≡ ranks.old) × (count.new ≡ count.old) }
{
    match rank.members(comm) {
        Some(group) => {
            write_list(group, ranks, count);
            0
        }
        None => refusal_code(Refusal::NoSuchComm),
    }
}

// The context id of a communicator that a replica's rank holds.
fn context_of(rank: &Rank<FlagAnd, Global>, comm: u16, context: &mut u16) -> i32
    ensures reads { RankHolds (λ x. context.new ≡ x.context) comm rank.now.own result }
    ensures kept { result ≢ pos 0 → context.new ≡ context.old }
{
    match rank.context(comm) {
        Some(id) => {
            *context = u16::from(id);
            0
        }
        None => refusal_code(Refusal::NoSuchComm),
    }
}

impl Party {
    pub(crate) fn number(&self, number: &mut u16) -> i32
        ensures reads { PartyReads (λ own. RankShows number.new own.number) self.now result }
        ensures kept { result ≢ pos 0 → number.new ≡ number.old }
    {
        match self {
            Party::Rank(member) => {
                *number = member.number();
                0
            }
            Party::Replica(replica) => match replica.rank() {
                Some(rank) => {
                    *number = rank.number();
                    0
                }
                None => LOST,
            },
            Party::Outside(_) => NOT_A_RANK,
        }
    }

    pub(crate) fn last_steps(&self, steps: &mut u32) -> i32
        ensures reads { MemberReads (λ m. RankShows steps.new m.last) self.now result }
        ensures kept { result ≢ pos 0 → steps.new ≡ steps.old }
    {
        match self {
            Party::Rank(member) => {
                *steps = member.last_steps();
                0
            }
            Party::Outside(_) | Party::Replica(_) => NOT_A_RANK,
        }
    }

    pub(crate) fn failures(&self, ranks: &mut [u16], count: &mut usize) -> i32
        ensures reads { PartyReads (RankLists (lent ranks.old ranks.new count.new)) self.now result }
        ensures kept { result ≢ pos 0 → (ranks.new ≡ ranks.old) × (count.new ≡ count.old) }
    {
        match self {
            Party::Rank(member) => {
                write_list(member.failures(), ranks, count);
                0
            }
            Party::Replica(replica) => match replica.rank() {
                Some(rank) => {
                    write_list(rank.failures(), ranks, count);
                    0
                }
                None => LOST,
            },
            Party::Outside(_) => NOT_A_RANK,
        }
    }

    pub(crate) fn members(&self, comm: u16, ranks: &mut [u16], count: &mut usize) -> i32
        ensures reads { PartyReads (RankHolds (λ x. Lists x.group (lent ranks.old ranks.new count.new)) comm) self.now result }
        ensures kept { result ≢ pos 0 → (ranks.new ≡ ranks.old) × (count.new ≡ count.old) }
    {
        match self {
            Party::Rank(member) => match member.members(comm) {
                Some(group) => {
                    write_list(group, ranks, count);
                    0
                }
                None => refusal_code(Refusal::NoSuchComm),
            },
            Party::Replica(replica) => match replica.rank() {
                Some(rank) => members_of(rank, comm, ranks, count),
                None => LOST,
            },
            Party::Outside(_) => NOT_A_RANK,
        }
    }

    pub(crate) fn context(&self, comm: u16, context: &mut u16) -> i32
        ensures reads { PartyReads (RankHolds (λ x. context.new ≡ x.context) comm) self.now result }
        ensures kept { result ≢ pos 0 → context.new ≡ context.old }
    {
        match self {
            Party::Rank(member) => match member.context(comm) {
                Some(id) => {
                    *context = u16::from(id);
                    0
                }
                None => refusal_code(Refusal::NoSuchComm),
            },
            Party::Replica(replica) => match replica.rank() {
                Some(rank) => context_of(rank, comm, context),
                None => LOST,
            },
            Party::Outside(_) => NOT_A_RANK,
        }
    }
}
