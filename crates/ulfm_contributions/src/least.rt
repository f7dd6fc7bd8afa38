//! Numbers of which the least is agreed on.
ghost use Rattle.std.specs.Prelude.{◌<◌, ◌^◌};
ghost use Rattle.ulfm_laws.specs.Ranges.{payload_bits};

use ulfm_laws::{Meld, Packed};

/// A number of 64 bits. Of several the least is the outcome: the last step that all have finished, say. The unit is 2^64 - 1. As a word a
/// number is itself, and each word is one.
#[derive(Clone, Copy, Debug, PartialEq, Eq)]
pub struct Least {
    /// The number, 0 to 2^64 - 1.
    pub value: u64,
    ghost fits: { value < 2 ^ payload_bits },
}

impl Meld for Least {
    ghost use Rattle.ulfm_contributions.specs.Leasts.{least_unit, least_meld, least_lawful};

    ghost unit = { least_unit };

    ghost meld = { least_meld };

    ghost lawful = { least_lawful };

    fn unit() -> Least {
        Least { value: u64::MAX }
    }

    fn meld(&self, other: &Least) -> Least {
        Least {
            value: self.value.min(other.value),
        }
    }
}

impl Packed for Least {
    ghost use Rattle.ulfm_contributions.specs.Leasts.{least_unpack, least_unpack_pack};

    ghost pack = { λ x. x.value };

    ghost unpack = { least_unpack };

    ghost unpack_pack = { least_unpack_pack };

    ghost pack_fits = { λ x. x.fits };

    fn pack(&self) -> u64 {
        self.value
    }

    fn unpack(word: u64) -> Option<Least> {
        Some(Least { value: word })
    }
}
