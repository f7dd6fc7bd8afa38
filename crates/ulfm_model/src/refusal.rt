// Why a call is refused: the reasons, each with its number and the name that is printed.
ghost use Rattle.std.specs.Prelude.{◌≡◌, Some};
ghost use Rattle.ulfm_model.specs.Answers.{printed};

use std::error::Error;
use std::fmt::{self, Display, Formatter, Write};

/// Why a call is refused.
#[derive(Clone, Copy, Debug, PartialEq, Eq)]
pub enum Refusal {
    /// The caller is declared failed; from now on each of its calls is refused so.
    SelfFailed,
    /// The caller doesn't hold the communicator.
    NoSuchComm,
    /// A request is open on the communicator.
    Busy,
    /// A shrink of this rank is open on another communicator.
    ShrinkOpen,
    /// No round is left; the last agreement round is kept for a shrink.
    RoundsUsedUp,
    /// A poll without an open request.
    Idle,
    /// Some agreed and others shrank in one round.
    Mismatch,
    /// No context id is free at every contributor.
    NoContext,
    /// There is no room for one more communicator.
    NoRoom,
    /// The communicator of the barrier is revoked.
    IsRevoked,
    /// A member that is known to have failed is missing in the barrier.
    ProcFailed,
    /// The world's own communicator can't be freed.
    WorldKept,
    /// The world doesn't have the rank.
    NoSuchRank,
    /// Memory was refused.
    OutOfMemory,
    /// The rank's own place in the round is already taken by itself.
    Twice,
}

impl Refusal {
    /// The name that is printed after the number.
    ///
    /// ```
    /// assert!(rt; refusal.name() == "no-such-comm");
    /// ```
    pub fn name(self) -> &'static str
        ensures { result.now ≡ (printed self).1 }
    {
        match self {
            Refusal::SelfFailed => "self-failed",
            Refusal::NoSuchComm => "no-such-comm",
            Refusal::Busy => "busy",
            Refusal::ShrinkOpen => "shrink-open",
            Refusal::RoundsUsedUp => "rounds-used-up",
            Refusal::Idle => "idle",
            Refusal::Mismatch => "mismatch",
            Refusal::NoContext => "no-context",
            Refusal::NoRoom => "no-room",
            Refusal::IsRevoked => "is-revoked",
            Refusal::ProcFailed => "proc-failed",
            Refusal::WorldKept => "world-kept",
            Refusal::NoSuchRank => "no-such-rank",
            Refusal::OutOfMemory => "out-of-memory",
            Refusal::Twice => "twice",
        }
    }
}

impl Display for Refusal {
    ghost output = { λ x. Some (printed x).1 };

    fn fmt<W: Write>(&self, f: &mut Formatter<W>) -> Result<(), fmt::Error> {
        f.write_str(self.name())
    }
}

impl Error for Refusal {}

/// The number of a refusal, 1 to 15.
///
/// ```
/// assert!(rt; refusal_number(refusal) == 2);
/// ```
pub fn refusal_number(refusal: Refusal) -> u8
    ensures { result ≡ (printed refusal).0 }
{
    match refusal {
        Refusal::SelfFailed => 1,
        Refusal::NoSuchComm => 2,
        Refusal::Busy => 3,
        Refusal::ShrinkOpen => 4,
        Refusal::RoundsUsedUp => 5,
        Refusal::Idle => 6,
        Refusal::Mismatch => 7,
        Refusal::NoContext => 8,
        Refusal::NoRoom => 9,
        Refusal::IsRevoked => 10,
        Refusal::ProcFailed => 11,
        Refusal::WorldKept => 12,
        Refusal::NoSuchRank => 13,
        Refusal::OutOfMemory => 14,
        Refusal::Twice => 15,
    }
}
