// What can happen to the agreement object, and in whose name. A history is a list of these events.
ghost use Rattle.std.specs.Prelude.{◌≡◌};

use crate::contribution::{Contribution, MarkCount};
use std::alloc::AllocError;

/// In whose name a step is taken.
#[derive(Clone, Copy, Debug, PartialEq, Eq)]
pub enum Caller {
    /// A failure detector, or whoever else declares ranks failed.
    Outside,
    /// The rank of this number.
    Rank(u16),
}

/// What happens to the object. Each event is one atomic step.
#[derive(Copy, Debug, PartialEq, Eq)]
pub enum Event<P> {
    /// A rank is declared failed.
    Fail {
        /// The rank's number, below the number of the world's ranks.
        rank: u16,
    },
    /// A rank contributes to an agreement round of a communicator.
    Settle {
        /// The communicator's number.
        comm: u16,
        /// The agreement round, counted from 0.
        round: u16,
        /// The rank's number.
        rank: u16,
        /// What it contributes.
        given: Contribution<P>,
    },
    /// A declared rank is left out of an agreement round.
    Mark {
        /// The communicator's number.
        comm: u16,
        /// The agreement round, counted from 0.
        round: u16,
        /// The number of the rank that is left out.
        rank: u16,
        /// How many failures of the communicator there are up to and with this rank.
        known: MarkCount,
    },
    /// A rank arrives in a barrier round of a communicator.
    Arrive {
        /// The communicator's number.
        comm: u16,
        /// The barrier round, counted from 0.
        round: u16,
        /// The rank's number.
        rank: u16,
    },
    /// A communicator is revoked.
    Revoke {
        /// The communicator's number.
        comm: u16,
    },
    /// The communicator of this number is made of a decided round of its parent.
    Spawn {
        /// The new communicator's number, from 1 on.
        comm: u16,
        /// The parent's number.
        parent: u16,
        /// The parent's agreement round, counted from 0.
        round: u16,
    },
}

impl<P: Copy> Clone for Event<P> {
    fn clone(&self) -> Result<Self, AllocError>
        ensures { result ≡ Ok self.now }
    {
        Ok(*self)
    }
}

/// An event with its caller's name.
#[derive(Copy, Debug, PartialEq, Eq)]
pub struct Entry<P> {
    /// In whose name it came.
    pub by: Caller,
    /// What happened.
    pub event: Event<P>,
}

impl<P: Copy> Clone for Entry<P> {
    fn clone(&self) -> Result<Self, AllocError>
        ensures { result ≡ Ok self.now }
    {
        Ok(*self)
    }
}
