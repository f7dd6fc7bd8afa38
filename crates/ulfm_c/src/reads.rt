//! What can be read of a rank. These make no atomic step, are no calls of the rank, and change nothing that a handle holds. Each answers
//! 18 where the handle holds nothing and 19 where it is the outside's; then nothing is written.
ghost use Rattle.std.specs.Prelude.{◌≡◌, ◌≢◌, pos};
ghost use Rattle.ulfm_c.specs.Reads.{HandleReads, MemberReads, PartyReads, RankHolds, RankLists, RankShows};
ghost use Rattle.ulfm_c.specs.Written.{Lists, lent};

use crate::handle::{Handle, held};

/// The rank's number, 0 to 1023.
#[unsafe(no_mangle)]
pub extern "C" fn ulfm_rank(handle: &mut Handle, number: &mut u16) -> i32
    ensures reads { HandleReads (PartyReads (λ own. RankShows number.new own.number)) handle.old.party handle.new.party result }
    ensures kept { result ≢ pos 0 → number.new ≡ number.old }
{
    held!(handle, party => party.number(number))
}

/// All ranks that this rank has seen to be declared failed, in the order of the declarations. `ranks` gets as many as it has room for, and
/// what is behind them in it is as it was; `count` gets how many there are.
#[unsafe(no_mangle)]
pub extern "C" fn ulfm_failures(handle: &mut Handle, ranks: &mut [u16], count: &mut usize) -> i32
    ensures reads { HandleReads (PartyReads (RankLists (lent ranks.old ranks.new count.new))) handle.old.party handle.new.party result }
    ensures kept { result ≢ pos 0 → (ranks.new ≡ ranks.old) × (count.new ≡ count.old) }
{
    held!(handle, party => party.failures(ranks, count))
}

/// The ranks that are members of a communicator, in order. `ranks` gets as many as it has room for, and what is behind them in it is as it
/// was; `count` gets how many there are. 2 where this rank doesn't hold the communicator.
#[unsafe(no_mangle)]
pub extern "C" fn ulfm_members(
    handle: &mut Handle,
    comm: u16,
    ranks: &mut [u16],
    count: &mut usize,
) -> i32
    ensures reads { HandleReads (PartyReads (RankHolds (λ x. Lists x.group (lent ranks.old ranks.new count.new)) comm)) handle.old.party handle.new.party result }
    ensures kept { result ≢ pos 0 → (ranks.new ≡ ranks.old) × (count.new ≡ count.old) }
{
    held!(handle, party => party.members(comm, ranks, count))
}

/// The context id of a communicator, 0 to 63. No two communicators that a rank holds have the same id. 2 where this rank doesn't hold the
/// communicator.
#[unsafe(no_mangle)]
pub extern "C" fn ulfm_context(handle: &mut Handle, comm: u16, context: &mut u16) -> i32
    ensures reads { HandleReads (PartyReads (RankHolds (λ x. context.new ≡ x.context) comm)) handle.old.party handle.new.party result }
    ensures kept { result ≢ pos 0 → context.new ≡ context.old }
{
    held!(handle, party => party.context(comm, context))
}

/// How many atomic steps the rank's last call made, 0 before any. `ulfm_fail` isn't a call of the rank, and isn't counted.
#[unsafe(no_mangle)]
pub extern "C" fn ulfm_last_steps(handle: &mut Handle, steps: &mut u32) -> i32
    ensures reads { HandleReads (MemberReads (λ m. RankShows steps.new m.last)) handle.old.party handle.new.party result }
    ensures kept { result ≢ pos 0 → steps.new ≡ steps.old }
{
    held!(handle, party => party.last_steps(steps))
}
