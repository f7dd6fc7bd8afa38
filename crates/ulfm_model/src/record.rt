//! What one rank of the sequential object keeps.
use crate::held::HeldComm;
use std::alloc::Allocator;

/// A rank's record.
#[derive(Drop)]
pub struct RankRecord<A: Allocator> {
    /// The rank's number, below the number of the world's ranks.
    pub number: u16,
    /// The communicators that the rank holds.
    pub held: Vec<HeldComm<A>, A>,
    /// The failures that the rank has seen.
    pub seen: Vec<u16, A>,
    /// Whether it was refused for good, as a rank that is declared failed.
    pub refused: bool,
}
