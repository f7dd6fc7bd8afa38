//! What settles a place, with the number of its event, in one value of few bytes: the small parts stand beside the tag.
ghost use Rattle.std.specs.Prelude.{◌≤◌};

use crate::kept::{EventNumber, KeptFlag, KeptMask};
use ulfm_laws::flag_and::FlagAnd;
use ulfm_laws::meld::Packed;
use ulfm_laws::summary::{Acked, Known};
use ulfm_model::contribution::MarkCount;

/// The counts of a contribution.
#[derive(Clone, Copy)]
pub struct Counts {
    /// The failures that the rank knew when its call began.
    pub known: Known,
    /// Those of them that it had acknowledged.
    pub acked: Acked,
    ghost within: { acked.count ≤ known.count },
}

/// What settles a place, if anything does: 20 bytes, since each part may lie at a multiple of 4.
#[derive(Clone, Copy)]
pub enum Cell<P: Packed> {
    /// Nothing does.
    Empty,
    /// A mark, and the number of its event.
    Marked(MarkCount, EventNumber),
    /// A contribution to an agree: its counts, the number of its event, and its flag.
    Flag(Counts, EventNumber, KeptFlag<P>),
    /// A contribution to a shrink: its counts, the number of its event, and its context ids.
    Ctx(Counts, EventNumber, KeptMask),
}

const _: () = prove!(size_of::<Cell<FlagAnd>>() == 20);
