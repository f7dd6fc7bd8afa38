/// The place of a word. Each event sets one word, and each word is set at most once.
#[derive(Clone, Copy, Debug, PartialEq, Eq)]
pub enum Place {
    /// An entry of the list of failures, from 0 on.
    List { index: u16 },
    /// A spawned communicator, from 1 on.
    Comm { comm: u16 },
    /// Whether a communicator is revoked.
    Revoked { comm: u16 },
    /// What settles a rank in an agreement round of a communicator.
    Slot { comm: u16, round: u16, rank: u16 },
    /// Whether a rank has arrived in a barrier round of a communicator.
    Arrival { comm: u16, round: u16, rank: u16 },
}
