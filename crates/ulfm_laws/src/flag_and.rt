//! The flags that ranks contribute to an agree, and how they are combined: by a bitwise AND.
ghost use Rattle.std.specs.Prelude.{◌<◌, ◌^◌};
ghost use Rattle.ulfm_laws.specs.Ranges.{payload_bits};

use crate::meld::{Meld, Packed};

/// A flag of 64 bits, as ranks give it to `MPI_Comm_agree`.
///
/// Flags are combined bit by bit: a bit stands in the outcome where each flag has it. The unit has every bit. As a
/// word a flag is its bits, and each word is a flag.
#[derive(Clone, Copy, Debug, PartialEq, Eq)]
pub struct FlagAnd {
    /// The flag's 64 bits.
    pub bits: u64,
    ghost fits: { bits < 2 ^ payload_bits },
}

impl Meld for FlagAnd {
    ghost use Rattle.ulfm_laws.specs.Flags.{flag_unit, flag_meld, flag_lawful};

    ghost unit = { flag_unit };

    ghost meld = { flag_meld };

    ghost lawful = { flag_lawful };

    fn unit() -> FlagAnd {
        FlagAnd { bits: u64::MAX }
    }

    fn meld(&self, other: &FlagAnd) -> FlagAnd {
        FlagAnd {
            bits: self.bits & other.bits,
        }
    }
}

impl Packed for FlagAnd {
    ghost use Rattle.ulfm_laws.specs.Flags.{flag_unpack, flag_unpack_pack};

    ghost pack = { λ x. x.bits };

    ghost unpack = { flag_unpack };

    ghost unpack_pack = { flag_unpack_pack };

    ghost pack_fits = { λ x. x.fits };

    fn pack(&self) -> u64 {
        self.bits
    }

    fn unpack(word: u64) -> Option<FlagAnd> {
        Some(FlagAnd { bits: word })
    }
}
