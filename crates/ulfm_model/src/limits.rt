// How large a world may be, and why one isn't opened.
ghost use Rattle.std.specs.Prelude.{◌≡◌, MatchResult};

use thiserror::Error;

/// How large a world is.
#[derive(Clone, Copy, Debug, PartialEq, Eq)]
pub struct Limits {
    /// How many ranks it has, 1 to 1024. They are numbered from 0.
    pub ranks: u16,
    /// How many communicators it has room for, 1 to 256, the world's own included.
    pub comms: u16,
    /// How many rounds of each sort, agreements and barriers, each communicator has, 1 to 4096.
    pub rounds: u16,
}

/// Why a world is not opened. The faults are tested in this order.
#[derive(Clone, Copy, Debug, PartialEq, Eq, Error)]
pub enum OpenFault {
    /// A limit is 0, or above its greatest value.
    #[error("a limit is out of its range")]
    OutOfRange,
    /// Each limit is in its range, but the world's size is above 4,194,304.
    #[error("the world is too large")]
    TooLarge,
    /// Memory was refused.
    #[error("out of memory")]
    OutOfMemory,
}

impl Limits {
    ghost use Rattle.ulfm_model.specs.Words.{IsUnfit, MayOpen, size_of};

    /// The greatest number of ranks.
    pub const MAX_RANKS: u16 = 1024;

    /// The greatest number of communicators.
    pub const MAX_COMMS: u16 = 256;

    /// The greatest number of rounds.
    pub const MAX_ROUNDS: u16 = 4096;

    /// The greatest size of a world.
    pub const MAX_SIZE: u64 = 4_194_304;

    /// The size by which it is decided whether a world is too large: a word for each rank, two for each communicator, and
    /// two for each rank in each round of each communicator.
    ///
    /// ```
    /// assert!(rt; limits.size() == 3 + 2 * 2 + 2 * 2 * 4 * 3);
    /// ```
    pub fn size(&self) -> u64
        ensures { result ≡ size_of self.now }
    {
        let ranks = u64::from(self.ranks);
        let comms = u64::from(self.comms);
        let rounds = u64::from(self.rounds);
        ranks + 2 * comms + 2 * comms * rounds * ranks
    }

    /// Whether a world of these limits may be opened: `OutOfRange` or `TooLarge`, the first that applies, where it may
    /// not. It takes no memory, so it never answers `OutOfMemory`.
    ///
    /// ```
    /// // Of 1,024 ranks, 1 communicator and 2,047 rounds.
    /// assert!(rt; limits.check().is_ok());
    /// limits.rounds = 2048;
    /// assert!(rt; limits.check() == Err(OpenFault::TooLarge));
    /// limits.rounds = 4097;
    /// assert!(rt; limits.check() == Err(OpenFault::OutOfRange));
    /// ```
    pub fn check(&self) -> Result<(), OpenFault>
        ensures { MatchResult result (λ _. MayOpen self.now) (IsUnfit self.now) }
    {
        if self.ranks == 0 || self.ranks > Limits::MAX_RANKS {
            return Err(OpenFault::OutOfRange);
        }
        if self.comms == 0 || self.comms > Limits::MAX_COMMS {
            return Err(OpenFault::OutOfRange);
        }
        if self.rounds == 0 || self.rounds > Limits::MAX_ROUNDS {
            return Err(OpenFault::OutOfRange);
        }
        if self.size() > Limits::MAX_SIZE {
            return Err(OpenFault::TooLarge);
        }
        Ok(())
    }
}
