//! What a history says, question by question. Each answer walks it from its start.
ghost use Rattle.std.specs.Prelude.{◌≡◌, ◌==◌, ◌&&◌, IfOk, length};
ghost use Rattle.std.specs.List.{list_any, position_from};
ghost use Rattle.ulfm_model.specs.History.{failures, has, has_arrived, is_made, is_revoked, same_place, slot, spawns};

use crate::contribution::Slot;
use crate::event::Entry;
use crate::says::{arrival, declared, made, put, revoked};
use std::alloc::{AllocError, Allocator};

/// Up to how many ranks are looked through one by one.
const FEW: usize = 16;

/// Whether a rank is in a group.
#[inline(always)]
pub fn has_rank(group: &[u16], rank: u16) -> bool
    ensures { result ≡ has group.now rank }
{
    if group.len() < FEW {
        group.iter().any(|x| *x == rank)
    } else {
        is_among(group, rank)
    }
}

/// Whether a rank is in a large group, which is read by several ranks at once.
#[inline(never)]
fn is_among(group: &[u16], rank: u16) -> bool
    ensures { result ≡ has group.now rank }
{
    group.contains(&rank)
}

/// Whether a place is that of this rank in this round of this communicator.
fn is_at(place: (u16, u16, u16), comm: u16, round: u16, rank: u16) -> bool
    ensures { result ≡ same_place place (comm, round, rank) }
{
    place.0 == comm && place.1 == round && place.2 == rank
}

/// Whether a communicator was made of this round of this parent.
fn is_of(made: (u16, u16), comm: u16, round: u16) -> bool
    ensures { result ≡ ((made.0 == comm) && (made.1 == round)) }
{
    made.0 == comm && made.1 == round
}

/// The declared failures, in their order.
pub fn failures<P: Copy, A: Allocator + Copy>(
    alloc: A,
    history: &[Entry<P>],
) -> Result<Vec<u16, A>, AllocError>
    ensures { IfOk result (λ ranks. ranks.items ≡ failures history.now) }
{
    history.iter().filter_map(declared).collect(alloc)
}

/// Whether a rank is declared.
pub fn is_declared<P: Copy>(history: &[Entry<P>], rank: u16) -> bool
    ensures { result ≡ has (failures history.now) rank }
{
    history.iter().filter_map(declared).any(|x| x == rank)
}

/// What settles a rank in an agreement round of a communicator, if anything does.
pub fn slot<P: Copy>(history: &[Entry<P>], comm: u16, round: u16, rank: u16) -> Option<Slot<P>>
    ensures { result ≡ slot history.now comm round rank }
{
    for entry in history {
        if let Some(slot) = put(entry, comm, round, rank) {
            return Some(slot);
        }
    }
    None
}

/// Whether a rank has arrived in a barrier round of a communicator.
pub fn has_arrived<P: Copy>(history: &[Entry<P>], comm: u16, round: u16, rank: u16) -> bool
    ensures { result ≡ has_arrived history.now comm round rank }
{
    history
        .iter()
        .filter_map(arrival)
        .any(|place| is_at(place, comm, round, rank))
}

/// Whether a communicator is revoked.
pub fn is_revoked<P: Copy>(history: &[Entry<P>], comm: u16) -> bool
    ensures { result ≡ is_revoked history.now comm }
{
    history.iter().filter_map(revoked).any(|x| x == comm)
}

/// How many communicators were made.
pub fn count_made<P: Copy>(history: &[Entry<P>]) -> usize
    ensures { result ≡ length (spawns history.now) }
{
    history.iter().filter_map(made).count()
}

/// Whether a communicator was made of a round.
pub fn is_made<P: Copy>(history: &[Entry<P>], comm: u16, round: u16) -> bool
    ensures { result ≡ is_made history.now comm round }
{
    history
        .iter()
        .filter_map(made)
        .any(|of| is_of(of, comm, round))
}

/// How many communicators were made before the first that was made of this round.
pub fn place_made<P: Copy>(history: &[Entry<P>], comm: u16, round: u16) -> Option<usize>
    ensures { result ≡ position_from (λ of. (of.0 == comm) && (of.1 == round)) 0 (spawns history.now) }
{
    history
        .iter()
        .filter_map(made)
        .position(|of| is_of(of, comm, round))
}
