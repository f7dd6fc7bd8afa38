// What a rank gives to an agreement round, and what stands at its place there once it is settled: that, or a mark.
ghost use Rattle.std.specs.Prelude.{◌≡◌, ◌≤◌, ◌<◌};

use std::alloc::AllocError;
use ulfm_laws::summary::{Acked, CtxMask, Known};

/// What a rank offers to an agreement round: a flag to an agree, the context ids that are free at it to a shrink.
#[derive(Clone, Copy, Debug, PartialEq, Eq)]
pub enum Offer<P> {
    /// The flag of an agree.
    Flag(P),
    /// The context ids that are free at a rank that shrinks.
    Ctx(CtxMask),
}

/// What a rank contributes to an agreement round. Both counts are lengths of beginnings of the communicator's failed group.
#[derive(Copy, Debug, PartialEq, Eq)]
pub struct Contribution<P> {
    /// The flag or the context ids that the rank gives.
    pub offer: Offer<P>,
    /// The failures that the rank knew when its call began.
    pub known: Known,
    /// Those of them that it had acknowledged.
    pub acked: Acked,
    ghost within: { acked.count ≤ known.count },
}

impl<P: Copy> Clone for Contribution<P> {
    fn clone(&self) -> Result<Self, AllocError>
        ensures { result ≡ Ok self.now }
    {
        Ok(*self)
    }
}

/// How many failures a mark names: those of the communicator up to and with the marked rank, so at least one.
#[derive(Clone, Copy, Debug, PartialEq, Eq)]
pub struct MarkCount {
    /// These failures: the first so many of the communicator's failed group, 1 to 1024.
    pub known: Known,
    ghost counted: { 0 < known.count },
}

/// What stands at a member's place in an agreement round, once it is settled.
#[derive(Copy, Debug, PartialEq, Eq)]
pub enum Slot<P> {
    /// The member is left out: it was declared before it contributed.
    Mark(MarkCount),
    /// The member's contribution.
    Given(Contribution<P>),
}

impl<P: Copy> Clone for Slot<P> {
    fn clone(&self) -> Result<Self, AllocError>
        ensures { result ≡ Ok self.now }
    {
        Ok(*self)
    }
}
