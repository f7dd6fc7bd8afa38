//! Where the digits of a flag are kept.
ghost use Rattle.std.specs.Prelude.{◌≤◌};
ghost use Rattle.ulfm_script.specs.Digits.{whole_digits};

/// The last digits of a flag, behind the first of sixteen places.
#[derive(Clone, Copy)]
pub struct FlagDigits {
    /// Sixteen digits, of which the last ones are the flag's.
    pub all: [u8; 16],
    /// Where the flag's first digit stands among them.
    pub first: usize,
    ghost fits: { first ≤ whole_digits },
}
