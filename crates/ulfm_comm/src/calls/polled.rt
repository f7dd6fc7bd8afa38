/// What a poll answers.
#[derive(Clone, Copy, Debug, PartialEq, Eq)]
pub enum Polled<P> {
    /// The request stays open: somebody who isn't known to have failed is missing.
    Pending,
    /// What an agree decided: whether an error is raised, that is, some contributor had not acknowledged all of the failed group
    /// before its call; the size of that group; and the flags combined.
    Agreed { raised: bool, failed: u16, value: P },
    /// What a shrink made: the new communicator, which the rank holds from now on, its context id, 0 to 63, and how many
    /// members it has: those of the old one, in their order, without the failed group that the round decided.
    Shrunk { comm: u16, context: u8, size: u16 },
    /// All members have arrived in the barrier.
    Done,
}
