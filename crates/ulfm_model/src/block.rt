// Blocks of agreement rounds, and the words that no event sets: those of blocks, and wings.

/// Which members of a round a block has: the first of them, or the last.
#[derive(Clone, Copy, Debug, PartialEq, Eq)]
pub enum Side {
    /// The first members.
    Front,
    /// The last members.
    Back,
}

/// A block of an agreement round: as many of its communicator's members as the greatest power of two that is at most their
/// number. Both blocks have all members between them. Where their number is such a power, the front block has all, and there is
/// no back one.
#[derive(Clone, Copy, Debug, PartialEq, Eq)]
pub struct Block {
    /// The communicator.
    pub comm: u16,
    /// The round.
    pub round: u16,
    /// Which of its members.
    pub side: Side,
}

/// The second word of a slot or of a block, which stands beside the first: bit 0 is 1, and bits 1 to 32 are the upper half of the
/// payload. It is set before the first, and so it stands wherever that does. A mark has none.
#[derive(Clone, Copy, Debug, PartialEq, Eq)]
pub enum Wing {
    /// Of a member's place in an agreement round.
    Slot {
        /// The communicator.
        comm: u16,
        /// The round.
        round: u16,
        /// The member.
        rank: u16,
    },
    /// Of a block.
    Block(Block),
}

/// A word that no event sets, and that is known to be set. Only contracts speak of it.
#[derive(Clone, Copy, Debug, PartialEq, Eq)]
pub enum Beside {
    /// A block's.
    Block(Block),
    /// A wing's.
    Wing {
        /// Which one.
        wing: Wing,
        /// Its word.
        word: u64,
    },
}
