//! What is left open in a log, and what may be chosen there.

/// Something of which one way has to hold.
#[derive(Clone, Copy)]
pub(crate) enum Fork {
    /// An open start of a decided round: whether it took effect.
    Open {
        /// The start: its place among the calls.
        act: u32,
        /// Whether that it took effect is tried first.
        counted: bool,
    },
    /// Who revoked a communicator, where nobody was told that it did: a call of it that is open, or was refused since its rank was declared.
    Revoker {
        /// The number of the communicator.
        comm: u16,
    },
    /// Which round made a communicator that nobody was told of.
    Maker {
        /// The number of the communicator.
        comm: u16,
    },
    /// Who knew the last failure of a round's group: a contributor, or it was a rank that is left out.
    Knew {
        /// The round: its place among those of agreement.
        round: u32,
        /// The place of that failure in the line of failures, from 1.
        count: u32,
        /// The rank that is tried first.
        first: u16,
    },
    /// Who of a round had to be missing where a poll was pending.
    Missing {
        /// The poll, or the start that its reply answered: its place among the calls.
        act: u32,
        /// The rank that is tried first.
        first: u16,
    },
    /// Whose arrival was missing, and seen failed, where a barrier's poll told of a failure.
    Failed {
        /// The poll, or the start that its reply answered: its place among the calls.
        act: u32,
        /// The rank that is tried first.
        first: u16,
    },
    /// Whose arrival was missing where a barrier's poll was pending.
    Absent {
        /// The poll: its place among the calls.
        act: u32,
        /// The rank that is tried first.
        first: u16,
    },
    /// A member whose arrival may not have been missing there, since it was seen failed; or that wasn't seen failed.
    Seen {
        /// The poll: its place among the calls.
        act: u32,
        /// The member.
        rank: u16,
    },
}

/// One way of a fork, by its number.
#[derive(Clone, Copy)]
pub(crate) struct Choice {
    /// Of what the way is one.
    pub(crate) fork: Fork,
    /// The number of the way, from 0: a call's place, a round's place, how many ranks behind the one that is tried first, or which of two.
    pub(crate) way: u32,
}

impl Choice {
    /// Whether it is that an open start took effect.
    pub(crate) fn counts_start(&self) -> bool {
        match self.fork {
            Fork::Open { counted, .. } => (self.way == 0) == counted,
            _ => false,
        }
    }

    /// The rank that its way is, of so many, where the fork is one of ranks; else none of them.
    pub(crate) fn rank(&self, ranks: usize) -> usize {
        match self.fork {
            Fork::Knew { first, .. }
            | Fork::Missing { first, .. }
            | Fork::Failed { first, .. }
            | Fork::Absent { first, .. } => rank_at(first, self.way, ranks),
            _ => ranks,
        }
    }
}

/// The rank that a way is, of so many, where this one is tried first.
pub(crate) fn rank_at(first: u16, way: u32, ranks: usize) -> usize {
    let rank = (first as usize).wrapping_add(way as usize);
    if rank < ranks {
        rank
    } else {
        rank.wrapping_sub(ranks)
    }
}
