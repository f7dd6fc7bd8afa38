// Atomic steps on words, as values: an exchange that is to be made, and a step that was made, with what it found.
use ulfm_model::block::{Block, Wing};
use ulfm_model::event::Caller;
use ulfm_model::place::Place;

/// A word to be set at a place, in a caller's name. The step's event is read off these.
#[derive(Clone, Copy, Debug, PartialEq, Eq)]
pub struct Step {
    /// Where the word is to stand.
    pub place: Place,
    /// The word that is put there where 0 stands.
    pub word: u64,
    /// The upper half of a contribution's payload, which stands in its wing; 0 for any other event.
    pub half: u32,
    /// In whose name the exchange is made.
    pub by: Caller,
}

/// Where an atomic step is made: at the place of an event's word, at a block of a round, or at a wing.
#[derive(Clone, Copy, Debug, PartialEq, Eq)]
pub enum Site {
    /// The word of an event.
    Place(Place),
    /// The word of a block.
    Block(Block),
    /// The second word of a slot or of a block.
    Wing(Wing),
}

/// An atomic step that was made, and the word that it found; of an exchange of a wing, the word that stands behind it. Only contracts
/// speak of it.
#[derive(Clone, Copy, Debug, PartialEq, Eq)]
pub struct Last {
    /// The place, the block or the wing at which it was made.
    pub at: Site,
    /// The word that it found there: 0 where nothing was set.
    pub word: u64,
    /// Whether it was a load, and not an exchange.
    pub load: bool,
}
