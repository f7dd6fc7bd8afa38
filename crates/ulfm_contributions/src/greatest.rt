//! Numbers of which the greatest is agreed on.
ghost use Rattle.std.specs.Prelude.{◌<◌, ◌^◌};
ghost use Rattle.ulfm_laws.specs.Ranges.{payload_bits};

use ulfm_laws::{Meld, Packed};

/// A number of 64 bits. Of several the greatest is the outcome: the last step that anybody has finished, say. The unit is 0. As a word a
/// number is itself, and each word is one.
#[derive(Clone, Copy, Debug, PartialEq, Eq)]
pub struct Greatest {
    /// The number, 0 to 2^64 - 1.
    pub value: u64,
    ghost fits: { value < 2 ^ payload_bits },
}

impl Meld for Greatest {
    ghost use Rattle.ulfm_contributions.specs.Greatests.{greatest_unit, greatest_meld, greatest_lawful};

    ghost unit = { greatest_unit };

    ghost meld = { greatest_meld };

    ghost lawful = { greatest_lawful };

    fn unit() -> Greatest {
        Greatest { value: 0 }
    }

    fn meld(&self, other: &Greatest) -> Greatest {
        Greatest {
            value: self.value.max(other.value),
        }
    }
}

impl Packed for Greatest {
    ghost use Rattle.ulfm_contributions.specs.Greatests.{greatest_unpack, greatest_unpack_pack};

    ghost pack = { λ x. x.value };

    ghost unpack = { greatest_unpack };

    ghost unpack_pack = { greatest_unpack_pack };

    ghost pack_fits = { λ x. x.fits };

    fn pack(&self) -> u64 {
        self.value
    }

    fn unpack(word: u64) -> Option<Greatest> {
        Some(Greatest { value: word })
    }
}
