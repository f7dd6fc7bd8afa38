//! Why no trace explains a log.
use crate::records::Ban;

/// The reason that was found.
#[derive(Clone, Copy, PartialEq, Eq)]
pub enum Why {
    /// The records forbid this line.
    Banned {
        /// The line: its place in the log, from 0.
        line: u32,
        /// Why they forbid it.
        ban: Ban,
    },
    /// Two ranks were told two decisions of one round.
    TwoDecisions {
        /// The call of the one: its place among the calls.
        one: u32,
        /// The call of the other: its place among the calls.
        other: u32,
    },
    /// A rank was told a value that isn't the AND.
    Value {
        /// Its call: its place among the calls.
        act: u32,
    },
    /// A rank was told of an error that isn't there, or of none though there is one.
    Error {
        /// Its call: its place among the calls.
        act: u32,
    },
    /// Agrees and shrinks met in one round, or didn't, and a rank was told otherwise.
    Mixed {
        /// Its call: its place among the calls.
        act: u32,
    },
    /// A rank was told of a context id that isn't the lowest that is free at all contributors.
    Context {
        /// Its call: its place among the calls.
        act: u32,
    },
    /// A poll was pending though nobody was missing.
    Pending {
        /// Its call: its place among the calls.
        act: u32,
    },
    /// Nobody can have known the last failure of a round's group.
    Unknown {
        /// The round: its place among those of agreement.
        round: u32,
    },
    /// A rank must have been declared failed, and no call did so.
    Undeclared {
        /// The rank.
        rank: u16,
        /// The node that says so; `NONE` where no node does.
        line: u32,
    },
    /// A rank must be one of the first failures, by one line, and can't be one of so many, by another.
    Place {
        /// The rank.
        rank: u16,
        /// How many first failures it must be among.
        most: u32,
        /// The line that says so: its place in the log, from 0; `NONE` where none does.
        most_by: u32,
        /// How many first failures it can't be among.
        lacks: u32,
        /// The line that says so: its place in the log, from 0; `NONE` where none does.
        lacks_by: u32,
    },
    /// There are not enough ranks for the first failures, or too many that must be among them.
    Count {
        /// The place in the line of failures, from 1, for which there is no rank, or which is too many.
        failures: u32,
    },
    /// What comes before what goes round in a circle.
    Cycle,
    /// Two calls revoked one communicator, or nobody did.
    Revoked {
        /// The line of a reply that tells of the revocation: its place in the log, from 0.
        line: u32,
    },
    /// A barrier was done though a member never began it.
    Missing {
        /// The line of the reply that it was done: its place in the log, from 0.
        line: u32,
    },
    /// No choice of what is left open explains the log.
    Choices,
}
