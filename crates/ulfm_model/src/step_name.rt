// The names of atomic steps.

/// The name of an atomic step.
#[derive(Clone, Copy, Debug, PartialEq, Eq)]
pub enum StepName {
    /// A load of the list of failures.
    List,
    /// The exchange of a rank's own place in an agreement round.
    Settle,
    /// A load of a block of an agreement round.
    Block,
    /// The exchange of the place of a member that is known to have failed.
    Mark,
    /// A load of a member's place in an agreement round.
    Slot,
    /// The exchange of a block, once all its members were found settled: what they say together.
    Cache,
    /// A load or an exchange of a wing: of the rank's own place or of a member's, or of a block.
    Wing,
    /// A load of the list of communicators.
    Comm,
    /// The exchange of that list's first empty place.
    Spawn,
    /// The exchange of a rank's own place in a barrier round.
    Arrive,
    /// A load of a member's place in a barrier round.
    Arrival,
    /// The exchange of a communicator's revocation.
    Revoke,
    /// A load of it.
    Revocation,
}
