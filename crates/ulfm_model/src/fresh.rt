//! Records of ranks to which nothing has happened.
ghost use Rattle.std.specs.Prelude.{◌≡◌, IfOk, map};
ghost use Rattle.std.specs.Arc.{arc_slice_items};
ghost use Rattle.ulfm_model.specs.History.{first_ranks};
ghost use Rattle.ulfm_model.specs.declared.limits.Limits.{Limits};
ghost use Rattle.ulfm_model.specs.Records.{new_record};
ghost use Rattle.ulfm_model.specs.Kept.{record_of};

use crate::groups::first_ranks;
use crate::held::{HeldComm, Members};
use crate::limits::Limits;
use crate::record::RankRecord;
use std::alloc::{AllocError, Allocator};
use std::sync::ArcSlice;

// A new rank's record: it holds the world's communicator alone, and shares the list of these ranks. Only memory can be refused.
fn record_among<A: Allocator + Copy + Drop>(
    alloc: A,
    number: u16,
    ranks: &ArcSlice<u16, A>,
) -> Result<RankRecord<A>, AllocError>
    ensures { IfOk result (λ own. (limits : Limits) → arc_slice_items ranks.now ≡ first_ranks limits.ranks
        → record_of limits own ≡ new_record limits number) }
{
    let mut held = Vec::new(alloc);
    let members = Members::Shared(ranks.clone()?);
    held.push(HeldComm::with_members(0, 0, members))?;
    let seen = Vec::new(alloc);
    Ok(RankRecord {
        number,
        held,
        seen,
        refused: false,
    })
}

/// A new record of each rank of a world, rank after rank. Only memory can be refused.
///
/// A world of three ranks has three, of the numbers 0, 1 and 2. Rank 2 holds communicator 0, whose members are 0, 1 and 2, and has seen no failure.
pub fn new_records<A: Allocator + Copy + Drop>(
    alloc: A,
    limits: Limits,
) -> Result<Vec<RankRecord<A>, A>, AllocError>
    ensures { IfOk result (λ records. map (record_of limits) records.items ≡ map (new_record limits) (first_ranks limits.ranks)) }
{
    let ranks = ArcSlice::from_vec(first_ranks(alloc, limits.ranks)?)?;
    let mut records = Vec::new(alloc);
    for number in 0..limits.ranks {
        let record = record_among(alloc, number, &ranks)?;
        records.push(record)?;
    }
    Ok(records)
}
