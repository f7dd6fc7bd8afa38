//! What is wrong with a program of ranks.
use std::alloc::AllocError;
use std::fmt::{self, Display, Formatter, Write};
use thiserror::Error;
use ulfm_script::{LineKind, RunFault};

/// What is wrong with a line of a program. The kinds of lines come first, in their order.
#[derive(Clone, Copy, Debug, PartialEq, Eq)]
pub enum ProgramKind {
    /// What may be wrong with a line of any script. A line of a program has at most 256 bytes, and there are at most 1,000 lines.
    Line(LineKind),
    /// The line belongs to the program of a rank, and no `rank` line stands before it.
    Rank,
    /// The line jumps to a name that no line of its rank has, or gives a name that another line of its rank has.
    Name,
}

impl Display for ProgramKind {
    fn fmt<W: Write>(&self, f: &mut Formatter<W>) -> Result<(), fmt::Error> {
        match self {
            ProgramKind::Line(kind) => write!(f, "{kind}"),
            ProgramKind::Rank => f.write_str("rank"),
            ProgramKind::Name => f.write_str("name"),
        }
    }
}

impl From<LineKind> for ProgramKind {
    fn from(kind: LineKind) -> ProgramKind {
        ProgramKind::Line(kind)
    }
}

/// Why a program couldn't be read.
#[derive(Clone, Copy, Debug, PartialEq, Eq, Error)]
pub enum ProgramFault {
    /// A line has this fault. Lines are counted from 1.
    #[error("line {number}: {kind}")]
    Line { number: u32, kind: ProgramKind },
    /// Memory was refused.
    #[error("out of memory")]
    Memory,
    /// The reader failed.
    #[error("read failed")]
    Read,
}

impl From<AllocError> for ProgramFault {
    fn from(_error: AllocError) -> ProgramFault {
        ProgramFault::Memory
    }
}

/// The fault of a line.
pub(crate) fn at_line(number: u32, kind: ProgramKind) -> ProgramFault {
    ProgramFault::Line { number, kind }
}

/// The fault of a reader, or of memory.
pub(crate) fn of_reader(fault: RunFault) -> ProgramFault {
    match fault {
        RunFault::Memory => ProgramFault::Memory,
        RunFault::Line { number, kind } => at_line(number, ProgramKind::Line(kind)),
        RunFault::Read | RunFault::Write => ProgramFault::Read,
    }
}
