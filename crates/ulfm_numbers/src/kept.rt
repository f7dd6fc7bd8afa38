//! What cells keep, in parts of 16 and 32 bits: so it may lie at any multiple of 2 or 4 bytes, and a cell has no holes.
ghost use Rattle.std.specs.Prelude.{◌≡◌, ◌<◌, ◌+◌, ◌*◌, ◌%◌, ◌/◌, ◌^◌, ℕ, Option, unwrap_or};
ghost use Rattle.std.proofs.Common.{ap, ◌∙◌, lit<, mod-eq_of_lt, mod-lt};
ghost use Rattle.std.proofs.lemmas.Nat.{div-mul-add, mod-mul-add};
ghost use Rattle.ulfm_laws.specs.declared.summary.CtxMask.{CtxMask};
ghost use Rattle.ulfm_laws.specs.Ranges.{payload_bits};

use std::marker::{Model, PhantomData};
use ulfm_laws::meld::Packed;
use ulfm_laws::summary::CtxMask;

/// The number of an event, below 2^48.
#[derive(Clone, Copy)]
pub struct EventNumber {
    low: u16,
    middle: u16,
    high: u16,
}

impl Model for EventNumber {
    ghost Value = { ℕ };

    ghost view = { λ a. (a.high * 65536 + a.middle) * 65536 + a.low };

    ghost invariant = { λ a. (a.middle < 65536) × (a.low < 65536) };

    ghost inverse = { λ n. record { low = n % 65536; middle = n / 65536 % 65536; high = n / 65536 / 65536 } };

    ghost inverse_ok = { λ a h i.
        let upper = div-mul-add (a.high * 65536 + a.middle) 65536 a.low h.1 in
        record {
          low = mod-mul-add (a.high * 65536 + a.middle) 65536 a.low h.1 i;
          middle = (ap (λ n. n % 65536) upper ∙ mod-mul-add a.high 65536 a.middle h.0) i;
          high = (ap (λ n. n / 65536) upper ∙ div-mul-add a.high 65536 a.middle h.0) i;
        } };
}

impl EventNumber {
    /// The least number that can't be kept, 2^48.
    pub(crate) const END: u64 = 281_474_976_710_656;

    /// A number below 2^48, kept.
    pub(crate) fn of(number: u64) -> EventNumber
        requires { number < 281474976710656 }
        ensures { result ≡ number }
    {
        EventNumber {
            low: (number % 65536) as u16,
            middle: (number / 65536 % 65536) as u16,
            high: (number / 65536 / 65536) as u16,
        }
    }

    /// The number.
    pub(crate) fn get(&self) -> u64
        ensures { result ≡ self.now }
    {
        (u64::from(self.high) * 65536 + u64::from(self.middle)) * 65536 + u64::from(self.low)
    }
}

/// A word in two halves.
#[derive(Clone, Copy)]
struct Halves {
    low: u32,
    high: u32,
}

impl Model for Halves {
    ghost Value = { ℕ };

    ghost view = { λ a. a.high * 4294967296 + a.low };

    ghost invariant = { λ a. a.low < 4294967296 };

    ghost inverse = { λ word. record { low = word % 4294967296; high = word / 4294967296 } };

    ghost inverse_ok = { λ a h i. record {
      low = mod-mul-add a.high 4294967296 a.low h i;
      high = div-mul-add a.high 4294967296 a.low h i;
    } };
}

impl Halves {
    /// The halves of a word.
    fn of(word: u64) -> Halves
        ensures { result ≡ word }
    {
        Halves {
            low: (word % 4294967296) as u32,
            high: (word / 4294967296) as u32,
        }
    }

    /// The word.
    fn get(&self) -> u64
        ensures { result ≡ self.now }
    {
        u64::from(self.high) * 4294967296 + u64::from(self.low)
    }
}

/// A contribution to an agree, as the halves of its word.
#[derive(Clone, Copy)]
pub struct KeptFlag<P: Packed> {
    halves: Halves,
    kind: PhantomData<P>,
}

impl<P: Packed> Model for KeptFlag<P> {
    ghost Value = { P };

    ghost view = { λ a. unwrap_or (P.unpack a.halves) P.unit };

    ghost invariant = { λ a. P.pack (unwrap_or (P.unpack a.halves) P.unit) ≡ a.halves };

    ghost inverse = { λ p. record { halves = P.pack p; kind = record {} } };

    ghost inverse_ok = { λ a h i. record { halves = h i; kind = record {} } };
}

impl<P: Packed> KeptFlag<P> {
    /// A contribution, kept.
    pub(crate) fn of(flag: &P) -> KeptFlag<P>
        ensures { result ≡ flag.now }
    {
        KeptFlag {
            halves: Halves::of(flag.pack()),
            kind: PhantomData,
        }
    }

    /// The contribution.
    pub(crate) fn get(&self) -> P
        ensures { result ≡ self.now }
    {
        match P::unpack(self.halves.get()) {
            Some(flag) => flag,
            None => P::unit(),
        }
    }
}

/// The context ids that a rank offers to a shrink, as the halves of their word.
#[derive(Clone, Copy)]
pub struct KeptMask {
    halves: Halves,
}

impl Model for KeptMask {
    ghost Value = { CtxMask };

    ghost view = { λ a. record { bits = a.halves % 2 ^ payload_bits; fits = mod-lt a.halves (lit< tt) } };

    ghost invariant = { λ a. a.halves < 2 ^ payload_bits };

    ghost inverse = { λ mask. record { halves = mask.bits } };

    ghost inverse_ok = { λ a h i. record { halves = mod-eq_of_lt h i } };
}

impl KeptMask {
    /// Context ids, kept.
    pub(crate) fn of(mask: CtxMask) -> KeptMask
        ensures { result ≡ mask }
    {
        KeptMask {
            halves: Halves::of(mask.bits),
        }
    }

    /// The context ids.
    pub(crate) fn get(&self) -> CtxMask
        ensures { result ≡ self.now }
    {
        CtxMask {
            bits: self.halves.get(),
        }
    }
}
