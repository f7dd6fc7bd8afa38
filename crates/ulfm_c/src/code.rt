//! The codes that calls answer: 0 where they succeed, a refusal's own number from 1 to 15, and what else may be wrong.
ghost use Rattle.std.specs.Prelude.{◌≡◌, pos};
ghost use Rattle.ulfm_c.specs.{Codes.{code}, Opens.{fault_code as code_of_fault}};
ghost use Rattle.ulfm_model.specs.Answers.{printed};

use ulfm_model::Refusal;
use ulfm_model::limits::OpenFault;
use ulfm_model::refusal::refusal_number;

/// A limit is 0, or above its greatest value.
pub const OUT_OF_RANGE: i32 = 16;

/// Each limit is in its range, but the world would be too large.
pub const TOO_LARGE: i32 = 17;

/// The handle holds nothing: it was never opened, or it was closed.
pub const NO_HANDLE: i32 = 18;

/// The handle isn't that of such a rank: it is the outside's, or a replica's, or a rank's of threads where a replica's is wanted.
pub const NOT_A_RANK: i32 = 19;

/// There aren't as many handles as ranks.
pub const WRONG_COUNT: i32 = 20;

/// A call of the replica is under way, or its reply wasn't told yet.
pub const CALL: i32 = 21;

/// It isn't the next entry of the log.
pub const GAP: i32 = 22;

/// Memory was refused, and the replica is lost.
pub const LOST: i32 = 23;

// The refusal's number.
pub(crate) fn refusal_code(refusal: Refusal) -> i32
    ensures { result ≡ pos ((printed refusal).0) }
{
    i32::from(refusal_number(refusal))
}

// 0, or the refusal's number.
pub(crate) fn code_of(answer: Result<(), Refusal>) -> i32
    ensures { result ≡ code answer }
{
    match answer {
        Ok(()) => 0,
        Err(refusal) => refusal_code(refusal),
    }
}

// The code of what keeps a world from being opened.
pub(crate) fn fault_code(fault: OpenFault) -> i32
    ensures { result ≡ code_of_fault fault }
{
    match fault {
        OpenFault::OutOfRange => OUT_OF_RANGE,
        OpenFault::TooLarge => TOO_LARGE,
        OpenFault::OutOfMemory => refusal_code(Refusal::OutOfMemory),
    }
}
