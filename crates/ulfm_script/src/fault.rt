//! Why the run of a script stopped: a line has a fault, or memory, the reader or the writer failed.
ghost use Rattle.std.specs.Prelude.{◌≡◌};
ghost use Rattle.ulfm_script.specs.declared.fault.RunFault.TheVariants.{Memory};

use crate::line_kind::LineKind;
use std::alloc::AllocError;
use thiserror::Error;

/// Why a run stopped.
#[derive(Clone, Copy, Debug, PartialEq, Eq, Error)]
pub enum RunFault {
    /// A line of the script has this fault. Lines are counted from 1.
    #[error("line {number}: {kind}")]
    Line { number: u32, kind: LineKind },
    /// Memory was refused.
    #[error("out of memory")]
    Memory,
    /// The reader failed.
    #[error("read failed")]
    Read,
    /// The writer failed, or took nothing.
    #[error("write failed")]
    Write,
}

impl From<AllocError> for RunFault {
    ghost from_gives = { λ _ e. e ≡ Memory };

    fn from(_e: AllocError) -> RunFault {
        RunFault::Memory
    }
}
