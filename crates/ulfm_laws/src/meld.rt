//! What a kind of contribution has to have so that ranks can agree on it: a way to combine two values, with its laws.
ghost use Rattle.std.specs.Prelude.{◌≡◌, ℕ, ◌<◌, ◌^◌, Option, Some};
ghost use Rattle.ulfm_laws.specs.Lawful.{IsLawful};
ghost use Rattle.ulfm_laws.specs.Ranges.{payload_bits};

/// A kind of value that ranks contribute to a round.
///
/// Values are combined in whatever order and grouping they are found, and each as often as it is found. An `impl`
/// says what its two functions compute, and proves by `lawful` that none of this changes the outcome.
pub trait Meld: Copy {
    /// What `unit` returns.
    ghost unit: { Self };

    /// What `meld` returns.
    ghost meld: { Self → Self → Self };

    /// The value that changes no other: what nobody contributed.
    fn unit() -> Self
        ensures { result ≡ unit };

    /// This value and the other, combined.
    fn meld(&self, other: &Self) -> Self
        ensures { result ≡ meld self.now other.now };

    /// `meld` is associative, commutative and idempotent, and `unit` is its unit.
    ghost lawful: { IsLawful unit meld };
}

/// A kind whose values fit into a word of 64 bits.
pub trait Packed: Meld {
    /// What `pack` returns.
    ghost pack: { Self → ℕ };

    /// What `unpack` returns.
    ghost unpack: { ℕ → Option Self };

    /// The value's word.
    fn pack(&self) -> u64
        ensures { result ≡ pack self.now };

    /// The value of a word that `pack` gave. Of any other word it is what the kind says, `None` or some value.
    fn unpack(word: u64) -> Option<Self>
        ensures { result ≡ unpack word };

    /// A value comes back from its word.
    ghost unpack_pack: { (x : Self) → unpack (pack x) ≡ Some x };

    /// A word has 64 bits.
    ghost pack_fits: { (x : Self) → pack x < 2 ^ payload_bits };
}
