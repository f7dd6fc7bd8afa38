//! What a check of a trace's text says.
ghost use Rattle.std.specs.Prelude.{◌≡◌};
ghost use Rattle.ulfm_trace.specs.declared.verdict.CheckFault.TheVariants.{Memory};

use std::alloc::AllocError;
use thiserror::Error;
use ulfm_model::Why;

/// What was found of a trace's text.
#[derive(Clone, Copy, Debug, PartialEq, Eq)]
pub enum Verdict {
    /// It is a legal trace.
    Legal,
    /// The lines before this one are a legal trace, or there is none; with this line they aren't, for this reason. Lines are counted
    /// from 1, which is the header.
    Illegal { line: u32, why: Why },
}

/// Why no verdict was found.
#[derive(Clone, Copy, Debug, PartialEq, Eq, Error)]
pub enum CheckFault {
    /// Memory was refused.
    #[error("out of memory")]
    Memory,
    /// The reader failed.
    #[error("read failed")]
    Read,
}

impl From<AllocError> for CheckFault {
    ghost from_gives = { λ _ e. e ≡ Memory };

    fn from(_e: AllocError) -> CheckFault {
        CheckFault::Memory
    }
}
