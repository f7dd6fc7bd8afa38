//! The groups of communicators: their members, and who of these has failed.
ghost use Rattle.std.specs.Prelude.{◌≡◌, ◌∷◌, ◌++◌, [], IfOk, List, OnOk, ℕ, length, map};
ghost use Rattle.ulfm_numbers.specs.Failed.{AreFailed, IsFailed, members_of};
ghost use Rattle.ulfm_numbers.specs.Groups.{same_ranks};
ghost use Rattle.ulfm_model.specs.History.{has};

use std::alloc::{AllocError, Allocator};
use std::sync::ArcSlice;
use ulfm_model::reads::has_rank;

/// The group of a communicator.
#[derive(Drop)]
pub struct Group<A: Allocator> {
    /// The members, in order, in a list that the ranks who hold the communicator share.
    pub members: ArcSlice<u16, A>,
    /// The declared failures among them, in the order of the declarations.
    pub failed: Vec<u16, A>,
    /// Of each of these, how many failures of all were declared before it.
    pub places: Vec<u64, A>,
}

/// Where a rank stands in a group, in order, if all who are left out of it come before that rank; else it stands behind that.
fn first_place(group: &[u16], rank: u16) -> usize {
    match group.last() {
        Some(last) => {
            let left_out = (usize::from(*last) + 1).saturating_sub(group.len());
            usize::from(rank).saturating_sub(left_out)
        }
        None => 0,
    }
}

/// Whether a rank is in a group. Where the group is in order, the search begins shortly before its place.
pub fn has_member(group: &[u16], rank: u16) -> bool
    ensures { result ≡ has group.now rank }
{
    let place = first_place(group, rank).min(group.len());
    let (before, behind) = group.split_at(place);
    has_rank(behind, rank) || has_rank(before, rank)
}

/// Whether two lists of ranks are one.
pub fn same_ranks(xs: &[u16], ys: &[u16]) -> bool
    ensures { result ≡ same_ranks xs.now ys.now }
{
    xs == ys
}

/// Declares a rank, after so many failures: it is a failure of the group if it is a member.
fn declare<A: Allocator + Copy>(
    group: &mut Group<A>,
    rank: u16,
    before: u64,
) -> Result<(), AllocError>
    ensures members { members_of group.new ≡ members_of group.old }
    ensures failed { (failures : List ℕ) → before ≡ length failures → IsFailed failures group.old → OnOk result (IsFailed (failures ++ rank ∷ []) group.new) }
{
    if has_member(group.members.as_slice(), rank) {
        group.failed.push(rank)?;
        group.places.push(before)?;
    }
    Ok(())
}

/// Declares a rank in all groups, after so many failures.
pub(crate) fn declare_in_all<A: Allocator + Copy>(
    groups: &mut [Group<A>],
    rank: u16,
    before: u64,
) -> Result<(), AllocError>
    ensures members { map members_of groups.new ≡ map members_of groups.old }
    ensures failed { (failures : List ℕ) → before ≡ length failures → AreFailed failures groups.old → OnOk result (AreFailed (failures ++ rank ∷ []) groups.new) }
{
    for group in groups.iter_mut() {
        declare(group, rank, before)?;
    }
    Ok(())
}

/// The group of these members, where these are declared.
pub(crate) fn group_of<A: Allocator + Copy + Drop>(
    alloc: A,
    members: Vec<u16, A>,
    failures: &[u16],
) -> Result<Group<A>, AllocError>
    ensures members { IfOk result (λ group. members_of group ≡ members.items) }
    ensures failed { IfOk result (IsFailed failures.now) }
{
    let mut group = Group {
        members: ArcSlice::from_vec(members)?,
        failed: Vec::new(alloc),
        places: Vec::new(alloc),
    };
    for (place, rank) in failures.iter().enumerate() {
        declare(&mut group, *rank, place as u64)?;
    }
    Ok(group)
}
