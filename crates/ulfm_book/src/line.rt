//! The lines of the log that stands beside shared words in the proofs: the limits, the events, and the blocks and wings.
use ulfm_model::block::Beside;
use ulfm_model::event::Entry;
use ulfm_model::limits::Limits;

/// A line of the log behind shared words. The log exists in the proofs alone.
pub(crate) enum Line<P> {
    /// The limits that the words were opened with: the first line, and no other.
    Opened { limits: Limits },
    /// An event, with its caller's name.
    Made { entry: Entry<P> },
    /// The word of a block, or a wing, was set. No event comes of it.
    Kept { beside: Beside },
}
