//! Flags that are combined by a bitwise OR.
ghost use Rattle.std.specs.Prelude.{◌<◌, ◌^◌};
ghost use Rattle.ulfm_laws.specs.Ranges.{payload_bits};

use ulfm_laws::{Meld, Packed};

/// A flag of 64 bits, combined with others by OR: a bit stands in the outcome where some flag has it. So an agree over these says what
/// anybody asks for, as `FlagAnd` says what all allow. The unit has no bit. As a word a flag is its bits, and each word is a flag.
#[derive(Clone, Copy, Debug, PartialEq, Eq)]
pub struct FlagOr {
    /// The flag's 64 bits.
    pub bits: u64,
    ghost fits: { bits < 2 ^ payload_bits },
}

impl Meld for FlagOr {
    ghost use Rattle.ulfm_contributions.specs.Ors.{or_unit, or_meld, or_lawful};

    ghost unit = { or_unit };

    ghost meld = { or_meld };

    ghost lawful = { or_lawful };

    fn unit() -> FlagOr {
        FlagOr { bits: 0 }
    }

    fn meld(&self, other: &FlagOr) -> FlagOr {
        FlagOr {
            bits: self.bits | other.bits,
        }
    }
}

impl Packed for FlagOr {
    ghost use Rattle.ulfm_contributions.specs.Ors.{or_unpack, or_unpack_pack};

    ghost pack = { λ x. x.bits };

    ghost unpack = { or_unpack };

    ghost unpack_pack = { or_unpack_pack };

    ghost pack_fits = { λ x. x.fits };

    fn pack(&self) -> u64 {
        self.bits
    }

    fn unpack(word: u64) -> Option<FlagOr> {
        Some(FlagOr { bits: word })
    }
}
