// What calls are answered, refusals among them.
use crate::refusal::Refusal;

/// What the object replies.
#[derive(Clone, Copy, Debug, PartialEq, Eq)]
pub enum Reply<P> {
    /// The request is open.
    Started,
    /// The request stays open: somebody who is not known to have failed is missing.
    Pending,
    // The widest field stands last: fields lie in the order of the source, so that a reply with a flag of 64 bits takes 16 bytes.
    /// What an agree decided: whether an error is raised, the size of the failed group, and the flags combined.
    Agreed { raised: bool, failed: u16, value: P },
    /// What a shrink made: the new communicator, its context id, and how many members it has.
    Shrunk { comm: u16, context: u8, size: u16 },
    /// All members arrived in the barrier.
    Done,
    /// The failed group has so many ranks.
    FailedGroup { count: u16 },
    /// So many failures are acknowledged now.
    Acked { count: u16 },
    /// This call declared the rank failed.
    Declared,
    /// The rank had been declared failed before.
    AlreadyFailed,
    /// This call revoked the communicator.
    Revoked,
    /// The communicator had been revoked before.
    AlreadyRevoked,
    /// Whether the communicator is revoked.
    Standing { revoked: bool },
    /// The communicator was given back.
    Freed,
    /// The call is refused.
    Refused(Refusal),
}
