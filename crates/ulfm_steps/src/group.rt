// Groups of ranks, and which of their members are declared.
ghost use Rattle.std.specs.Prelude.{◌≡◌, ◌<◌, ◌≤◌, ℕ, [], true, IfOk, IfSome, OnErr, OnOk, filter, length, nat_le, vec_capacity};
ghost use Rattle.std.specs.List.Sorted.{IsStrictlyIncreasing};
ghost use Rattle.ulfm_model.specs.History.{first_ranks as all_below, has, without};

use std::alloc::{AllocError, Allocator};

/// Whether a rank is in a group whose ranks rise, as the members of each communicator do. It is one comparison where nobody
/// was left out of the group, and else a binary search.
pub fn is_member(group: &[u16], rank: u16) -> bool
    requires { IsStrictlyIncreasing group.now }
    ensures { result ≡ has group.now rank }
{
    // Where nobody was left out, each rank stands at the place of its own number.
    group.get(rank as usize) == Some(&rank) || group.binary_search(&rank).is_ok()
}

/// Whether a rank is among these, which stand in any order. Each is compared, whatever was found before: such a loop runs over
/// many ranks at once.
pub fn has_rank(ranks: &[u16], rank: u16) -> bool
    ensures { result ≡ has ranks.now rank }
{
    let mut found = false;
    for x in ranks {
        found |= *x == rank;
    }
    found
}

/// All ranks below a number, in order: the members of the world's own communicator.
pub fn first_ranks<A: Allocator + Copy>(alloc: A, ranks: u16) -> Result<Vec<u16, A>, AllocError>
    ensures { IfOk result (λ group. group.items ≡ all_below ranks) }
{
    let mut group = Vec::with_capacity(alloc, ranks as usize)?;
    for rank in 0..ranks {
        group.push(rank)?;
    }
    Ok(group)
}

// The last rank of a group whose ranks rise, where nobody was left out: its members are all ranks up to that one, and no others.
fn last_of_all(group: &[u16]) -> Option<u16>
    requires { IsStrictlyIncreasing group.now }
    ensures { IfSome result (λ last. (rank : ℕ) → has group.now rank ≡ nat_le rank last) }
{
    if group.is_empty() {
        return None;
    }
    let last = group[group.len() - 1];
    if last as usize + 1 == group.len() {
        Some(last)
    } else {
        None
    }
}

// How many of so few ranks are at most this one. Each is compared and counted in as many bits as it has: such a loop runs over many
// ranks at once.
fn count_up_to(last: u16, ranks: &[u16]) -> u16
    requires few { length ranks.now < 65536 }
    ensures { result ≡ length (filter (λ rank. nat_le rank last) ranks.now) }
{
    let mut count = 0;
    for rank in ranks {
        count += u16::from(*rank <= last);
    }
    count
}

/// How many of these ranks are in the group, whose ranks rise.
#[inline(never)]
pub fn count_in(group: &[u16], ranks: &[u16]) -> usize
    requires { IsStrictlyIncreasing group.now }
    ensures { result ≡ length (filter (has group.now) ranks.now) }
{
    if ranks.len() <= u16::MAX as usize {
        if let Some(last) = last_of_all(group) {
            return count_up_to(last, ranks) as usize;
        }
    }
    ranks.iter().filter(|rank| is_member(group, **rank)).count()
}

/// Makes room in a vector for those of these ranks that are in the group, whose ranks rise. Where it has room for all of them,
/// nobody is counted. It fails only where memory is refused. The vector keeps its items.
pub fn make_room<B: Allocator>(
    group: &[u16],
    ranks: &[u16],
    found: &mut Vec<u16, B>,
) -> Result<(), AllocError>
    requires { IsStrictlyIncreasing group.now }
    ensures kept { found.new.items ≡ found.old.items }
    ensures room { OnOk result (length (filter (has group.now) ranks.now) ≤ vec_capacity found.new) }
    ensures lacks { OnErr result (vec_capacity found.old < length (filter (has group.now) ranks.now)) }
{
    if ranks.len() <= found.capacity() {
        return Ok(());
    }
    let count = count_in(group, ranks);
    found.reserve(count.saturating_sub(found.len()))
}

// Whether nobody was left out of a group, whose ranks rise, and all of these ranks are in it.
fn has_all(group: &[u16], ranks: &[u16]) -> bool
    requires { IsStrictlyIncreasing group.now }
    ensures { result ≡ true → filter (has group.now) ranks.now ≡ ranks.now }
{
    last_of_all(group).is_some() && count_in(group, ranks) == ranks.len()
}

/// Puts those of these ranks into a vector that are in the group, whose ranks rise, in their order. It has room for them.
#[inline(never)]
pub fn put_in<B: Allocator>(group: &[u16], ranks: &[u16], found: &mut Vec<u16, B>)
    requires rises { IsStrictlyIncreasing group.now }
    requires empty { found.old.items ≡ [] }
    requires room { length (filter (has group.now) ranks.now) ≤ vec_capacity found.old }
    ensures { found.new.items ≡ filter (has group.now) ranks.now }
{
    if has_all(group, ranks) {
        let _ = found.extend_from_slice(ranks);
        return;
    }
    for rank in ranks {
        if is_member(group, *rank) {
            let _ = found.push(*rank);
        }
    }
}

/// The ranks of a group that aren't among the others, in their order. It fails only where memory is refused.
pub fn without<A: Allocator + Copy>(
    alloc: A,
    group: &[u16],
    others: &[u16],
) -> Result<Vec<u16, A>, AllocError>
    ensures { IfOk result (λ left. left.items ≡ without group.now others.now) }
{
    let mut left = Vec::with_capacity(alloc, group.len())?;
    for rank in group {
        if !has_rank(others, *rank) {
            left.push(*rank)?;
        }
    }
    Ok(left)
}
