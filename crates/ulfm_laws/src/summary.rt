//! What a round is about, and what the contributions to it come to. Among it are sets of context ids, which shrinks offer, and beginnings
//! of the failed group, told by how many they have: what a rank knows, and what it has acknowledged.
ghost use Rattle.std.specs.Prelude.{◌≤◌, IsTrue, ◌<◌, ◌^◌};
ghost use Rattle.ulfm_laws.specs.Ranges.{is_acked_count, payload_bits};

use crate::meld::Meld;

/// What a round is about: the payload of an agreement, or the free context ids of a shrink.
#[derive(Clone, Copy, Debug, PartialEq, Eq)]
pub enum Body<P> {
    /// Nobody has contributed yet. It is the unit.
    Unit,
    /// The ranks agree on a payload. Two are combined as `P` says.
    Flag(P),
    /// The ranks shrink. Two masks are combined as masks.
    Ctx(CtxMask),
    /// One rank agreed where another shrank. A clash stays one, whatever is combined with it.
    Clash,
}

impl<P: Meld> Meld for Body<P> {
    ghost use Rattle.ulfm_laws.specs.Bodies.{body_unit, body_meld, body_lawful};

    ghost unit = { body_unit };

    ghost meld = { body_meld P.meld };

    ghost lawful = { body_lawful P.lawful };

    fn unit() -> Body<P> {
        Body::Unit
    }

    // What is melded into a reading most often says nothing, or is of the reading's own kind: these cases come first.
    #[inline(always)]
    fn meld(&self, other: &Body<P>) -> Body<P> {
        match (other, self) {
            (Body::Unit, _) => *self,
            (Body::Flag(theirs), Body::Flag(mine)) => Body::Flag(mine.meld(theirs)),
            (Body::Ctx(theirs), Body::Ctx(mine)) => Body::Ctx(mine.meld(theirs)),
            (_, Body::Unit) => *other,
            (Body::Flag(_), Body::Ctx(_)) | (Body::Ctx(_), Body::Flag(_)) => Body::Clash,
            (Body::Clash, _) | (_, Body::Clash) => Body::Clash,
        }
    }
}

/// What the contributions of a round, or of a part of it, come to.
///
/// Summaries are combined part by part, each as its own kind is.
#[derive(Clone, Copy, Debug, PartialEq, Eq)]
pub struct Summary<P> {
    /// What the round is about, combined.
    pub body: Body<P>,
    /// The failures that some rank knew of.
    pub known: Known,
    /// The failures that each rank had acknowledged.
    pub acked: Acked,
}

impl<P: Meld> Meld for Summary<P> {
    ghost use Rattle.ulfm_laws.specs.Summaries.{summary_unit, summary_meld, summary_lawful};

    ghost unit = { summary_unit };

    ghost meld = { summary_meld P.meld };

    ghost lawful = { summary_lawful P.lawful };

    fn unit() -> Summary<P> {
        Summary {
            body: Body::unit(),
            known: Known::unit(),
            acked: Acked::unit(),
        }
    }

    #[inline(always)]
    fn meld(&self, other: &Summary<P>) -> Summary<P> {
        Summary {
            body: self.body.meld(&other.body),
            known: self.known.meld(&other.known),
            acked: self.acked.meld(&other.acked),
        }
    }
}

/// The failures that a rank knows of: the first `count` ranks of the failed group, 0 to 1024.
///
/// The failed group only grows at its end, so of two such beginnings the longer is the union. Counts are combined
/// by the greatest. The unit is 0, nobody.
#[derive(Clone, Copy, Debug, PartialEq, Eq)]
pub struct Known {
    /// How many ranks of the failed group, its first ones, are known: 0 to 1024.
    pub count: u16,
    ghost in_range: { count ≤ 1024 },
}

impl Meld for Known {
    ghost use Rattle.ulfm_laws.specs.Counts.{known_unit, known_meld, known_lawful};

    ghost unit = { known_unit };

    ghost meld = { known_meld };

    ghost lawful = { known_lawful };

    fn unit() -> Known {
        Known { count: 0 }
    }

    fn meld(&self, other: &Known) -> Known {
        Known {
            count: self.count.max(other.count),
        }
    }
}

/// The failures that a rank has acknowledged (`MPI_Comm_ack_failed`): the first `count` ranks of the failed group,
/// 0 to 1024, or everyone, 2047.
///
/// Of two beginnings of the failed group the shorter is the intersection. Counts are combined by the least, so the
/// outcome is what each rank has acknowledged. The unit is 2047, everyone.
#[derive(Clone, Copy, Debug, PartialEq, Eq)]
pub struct Acked {
    /// How many ranks of the failed group, its first ones, are acknowledged: 0 to 1024, or 2047 for everyone.
    pub count: u16,
    ghost in_range: { IsTrue (is_acked_count count) },
}

impl Meld for Acked {
    ghost use Rattle.ulfm_laws.specs.Counts.{acked_unit, acked_meld, acked_lawful};

    ghost unit = { acked_unit };

    ghost meld = { acked_meld };

    ghost lawful = { acked_lawful };

    fn unit() -> Acked {
        Acked { count: 2047 }
    }

    fn meld(&self, other: &Acked) -> Acked {
        Acked {
            count: self.count.min(other.count),
        }
    }
}

/// A set of context ids, 0 to 63: those that are free at a rank, as it gives them to `MPI_Comm_shrink`.
///
/// Bit i of `bits` stands where id i is in the set. Sets are combined by intersection, so an id of the outcome is
/// free at each rank. The unit has every id.
#[derive(Clone, Copy, Debug, PartialEq, Eq)]
pub struct CtxMask {
    /// Bit i, 0 to 63, is 1 where id i is in the set.
    pub bits: u64,
    ghost fits: { bits < 2 ^ payload_bits },
}

impl CtxMask {
    /// How many context ids there are: 0 to 63.
    pub const COUNT: u8 = 64;
}

impl Meld for CtxMask {
    ghost use Rattle.ulfm_laws.specs.Masks.{mask_unit, mask_meld, mask_lawful};

    ghost unit = { mask_unit };

    ghost meld = { mask_meld };

    ghost lawful = { mask_lawful };

    fn unit() -> CtxMask {
        CtxMask { bits: u64::MAX }
    }

    fn meld(&self, other: &CtxMask) -> CtxMask {
        CtxMask {
            bits: self.bits & other.bits,
        }
    }
}
