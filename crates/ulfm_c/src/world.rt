//! Worlds: they are opened, a failure detector declares ranks, and they end with their last handle.
ghost use Rattle.std.specs.Prelude.{◌≡◌, ◌≢◌, MatchOption, None, length, pos};
ghost use Rattle.ulfm_c.specs.Calls.{HandleCalls, PartyFails};
ghost use Rattle.ulfm_c.specs.Opens.{OpenFails, Opens, limits_of, parties_in};

use crate::code::NO_HANDLE;
use crate::handle::{Handle, held};
use crate::opening::open_in;
use std::alloc::Global;
use ulfm_model::Limits;

/// Opens a world of `ranks` ranks, 1 to 1024, with room for `comms` communicators, 1 to 256, the world's own included, and `rounds` rounds
/// of each sort, agreements and barriers, on each communicator, 1 to 4096. It fills in the handle of the world's outside, and one handle for
/// each rank, in order. What these handles held before is given back, as by `ulfm_close`. Ranks begin with the world's own communicator, 0,
/// which has all of them.
///
/// 20 where there isn't one handle for each rank; 16 where a limit is out of its range; 17 where ranks + 2 * comms + 2 * comms * rounds *
/// ranks is above 4,194,304; 14 where memory is refused. The first that applies is answered, and the handles are as they were.
#[unsafe(no_mangle)]
pub extern "C" fn ulfm_open(
    alloc: Global,
    ranks: u16,
    comms: u16,
    rounds: u16,
    outside: &mut Handle,
    handles: &mut [Handle],
) -> i32
    ensures opened { result ≡ pos 0 → Opens (limits_of ranks comms rounds) outside.new.party (parties_in handles.new) }
    ensures kept { result ≢ pos 0 → (outside.new ≡ outside.old) × (handles.new ≡ handles.old) }
    ensures fails { result ≢ pos 0 → OpenFails (limits_of ranks comms rounds) (length handles.old) result }
{
    let limits = Limits {
        ranks,
        comms,
        rounds,
    };
    open_in(alloc, limits, outside, handles)
}

/// Declares a rank failed, for good, as a failure detector does and not as a call of any rank. It may come through the outside's handle, or
/// through a rank's, which knows of the declaration from then on. `first` gets true where this call declared the rank, false where it had
/// been declared before. With N ranks it makes 2N atomic steps at most.
///
/// 13 where the world doesn't have the rank, 18 where the handle holds nothing.
#[unsafe(no_mangle)]
pub extern "C" fn ulfm_fail(handle: &mut Handle, rank: u16, first: &mut bool) -> i32
    ensures calls { HandleCalls (PartyFails rank first.new) handle.old.party handle.new.party result }
    ensures kept { result ≢ pos 0 → first.new ≡ first.old }
{
    held!(handle, party => party.fail(rank, first))
}

/// Gives back what the handle holds, a rank or the outside: from then on it holds nothing. A world's memory goes with the last of its
/// handles. A rank that is closed isn't declared failed by that, and others may wait for it.
///
/// 18 where the handle holds nothing.
#[unsafe(no_mangle)]
pub extern "C" fn ulfm_close(alloc: Global, handle: &mut Handle) -> i32
    ensures empty { handle.new.party ≡ None }
    ensures code { MatchOption handle.old.party (result ≡ pos 18) (λ party. result ≡ pos 0) }
{
    match handle.take(alloc) {
        None => NO_HANDLE,
        Some(_) => 0,
    }
}
