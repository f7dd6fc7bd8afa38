//! Who the members of a communicator are, and which of them an agreement round leaves out.
ghost use Rattle.std.specs.Prelude.{◌≡◌, ◌==◌, IfOk, MatchOption, if◌then◌else◌, length, take};
ghost use Rattle.std.specs.List.{list_any};
ghost use Rattle.ulfm_model.specs.Terms.{group_among};
ghost use Rattle.ulfm_model.specs.History.{failed, failed_among, first_ranks, has, known_of, members, round_among, union_of, without};
ghost use Rattle.ulfm_model.specs.Walked.{IsNotMade, IsOrigin};

use crate::contribution::Slot;
use crate::event::Entry;
use crate::reads::{has_rank, is_declared, slot};
use crate::says::{declared, made};
use std::alloc::{AllocError, Allocator};

/// The event that makes a communicator: its place in the history, and the parent and the round that it names.
#[derive(Clone, Copy)]
struct Origin {
    place: usize,
    parent: u16,
    round: u16,
}

/// The ranks 0 up to n - 1.
pub fn first_ranks<A: Allocator + Copy + Drop>(alloc: A, n: u16) -> Result<Vec<u16, A>, AllocError>
    ensures { IfOk result (λ ranks. ranks.items ≡ first_ranks n) }
{
    let mut ranks = Vec::new(alloc);
    for rank in 0..n {
        ranks.push(rank)?;
    }
    Ok(ranks)
}

/// The ranks of a group that are not in the other, in their order.
pub fn without<A: Allocator + Copy>(
    alloc: A,
    group: &[u16],
    others: &[u16],
) -> Result<Vec<u16, A>, AllocError>
    ensures { IfOk result (λ ranks. ranks.items ≡ without group.now others.now) }
{
    group
        .iter()
        .copied()
        .filter(|rank| !has_rank(others, *rank))
        .collect(alloc)
}

/// The declared ranks among some members, in the order of their failures.
pub fn failed_among<P: Copy, A: Allocator + Copy>(
    alloc: A,
    members: &[u16],
    history: &[Entry<P>],
) -> Result<Vec<u16, A>, AllocError>
    ensures { IfOk result (λ ranks. ranks.items ≡ failed_among members.now history.now) }
{
    history
        .iter()
        .filter_map(declared)
        .filter(|rank| has_rank(members, *rank))
        .collect(alloc)
}

/// What settles these members in a round, in their order.
pub(crate) fn round_among<P: Copy, A: Allocator + Copy>(
    alloc: A,
    members: &[u16],
    history: &[Entry<P>],
    comm: u16,
    round: u16,
) -> Result<Vec<Slot<P>, A>, AllocError>
    ensures { IfOk result (λ settled. settled.items ≡ round_among members.now history.now comm round) }
{
    members
        .iter()
        .filter_map(|rank| slot(history, comm, round, *rank))
        .collect(alloc)
}

/// How many failures a mark or a contribution names.
fn known_of<P: Copy>(slot: &Slot<P>) -> u16
    ensures { result ≡ known_of slot.now }
{
    match slot {
        Slot::Mark(mark) => mark.known.count,
        Slot::Given(given) => given.known.count,
    }
}

/// The first ranks of a group, or all of it where it has not so many.
pub fn first_of(group: &[u16], count: u16) -> &[u16]
    ensures { result.now ≡ take count group.now }
{
    let count = usize::from(count);
    if count < group.len() {
        &group[..count]
    } else {
        group
    }
}

/// Whether a mark or a contribution names a rank.
fn is_named<P: Copy>(failed: &[u16], settled: &[Slot<P>], rank: u16) -> bool
    ensures { result ≡ list_any (λ s. has (take (known_of s) failed.now) rank) settled.now }
{
    settled
        .iter()
        .any(|slot| has_rank(first_of(failed, known_of(slot)), rank))
}

/// The union of the groups that marks and contributions name.
pub fn union_of<P: Copy, A: Allocator + Copy>(
    alloc: A,
    failed: &[u16],
    settled: &[Slot<P>],
) -> Result<Vec<u16, A>, AllocError>
    ensures { IfOk result (λ ranks. ranks.items ≡ union_of failed.now settled.now) }
{
    failed
        .iter()
        .copied()
        .filter(|rank| is_named(failed, settled, *rank))
        .collect(alloc)
}

/// The group that a round of these members leaves out.
fn left_out<P: Copy, A: Allocator + Copy + Drop>(
    alloc: A,
    members: &[u16],
    history: &[Entry<P>],
    comm: u16,
    round: u16,
) -> Result<Vec<u16, A>, AllocError>
    ensures { IfOk result (λ ranks. ranks.items ≡ group_among members.now history.now comm round) }
{
    let failed = failed_among(alloc, members, history)?;
    let settled = round_among(alloc, members, history, comm, round)?;
    union_of(alloc, &failed, &settled)
}

/// Where a communicator other than the world's was made.
fn find_origin<P: Copy>(history: &[Entry<P>], comm: u16) -> Option<Origin>
    ensures { MatchOption result (IsNotMade history.now comm) (λ at. IsOrigin history.now comm at.place at.parent at.round) }
{
    let mut count = 0usize;
    for (place, entry) in history.iter().enumerate() {
        if let Some((parent, round)) = made(entry) {
            count += 1;
            if count == usize::from(comm) {
                return Some(Origin {
                    place,
                    parent,
                    round,
                });
            }
        }
    }
    None
}

/// The members of a communicator that was not made: all ranks, where it is the world's, or nobody.
fn missing<A: Allocator + Copy + Drop>(
    alloc: A,
    ranks: u16,
    comm: u16,
) -> Result<Vec<u16, A>, AllocError>
    ensures { IfOk result (λ group. group.items ≡ first_ranks (if comm == 0 then ranks else 0)) }
{
    let count = if comm == 0 { ranks } else { 0 };
    first_ranks(alloc, count)
}

/// The members of a communicator, or nobody where it doesn't exist.
pub fn members<P: Copy, A: Allocator + Copy + Drop>(
    alloc: A,
    ranks: u16,
    history: &[Entry<P>],
    comm: u16,
) -> Result<Vec<u16, A>, AllocError>
    ensures { IfOk result (λ group. group.items ≡ members ranks history.now comm) }
{
    let Some(at) = find_origin(history, comm) else {
        return missing(alloc, ranks, comm);
    };
    let before = &history[..at.place];
    let group = members(alloc, ranks, before, at.parent)?;
    let out = left_out(alloc, &group, before, at.parent, at.round)?;
    without(alloc, &group, &out)
}

/// The failed group of a communicator: the declared ranks among its members, in the order of their failures.
pub fn failed<P: Copy, A: Allocator + Copy + Drop>(
    alloc: A,
    ranks: u16,
    history: &[Entry<P>],
    comm: u16,
) -> Result<Vec<u16, A>, AllocError>
    ensures { IfOk result (λ group. group.items ≡ failed ranks history.now comm) }
{
    let group = members(alloc, ranks, history, comm)?;
    failed_among(alloc, &group, history)
}

/// How many of a group are declared.
pub fn count_failed<P: Copy>(group: &[u16], history: &[Entry<P>]) -> usize
    ensures { result ≡ length (failed_among group.now history.now) }
{
    history
        .iter()
        .filter_map(declared)
        .filter(|rank| has_rank(group, *rank))
        .count()
}
