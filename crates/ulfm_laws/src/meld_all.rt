//! Many contributions combined, as a round's decision is.
ghost use Rattle.std.specs.Prelude.{◌≡◌};
ghost use Rattle.ulfm_laws.specs.Combined.{combined};

use crate::meld::Meld;

/// All values combined, from the first on. Of none it is the unit.
///
/// By the laws it is the same in any order, with values repeated, and where parts are combined first: see
/// [`crate::meanings::parts_meld`].
///
/// ```
/// let flags = [FlagAnd { bits: 0x0f }, FlagAnd { bits: 0x3c }];
/// assert!(rt; meld_all(&flags) == FlagAnd { bits: 0x0c });
/// assert!(rt; meld_all(&none) == FlagAnd { bits: u64::MAX });
/// ```
pub fn meld_all<P: Meld>(values: &[P]) -> P
    ensures { result ≡ combined P.unit P.meld values.now }
{
    let mut all = P::unit();
    for value in values {
        all = all.meld(value);
    }
    all
}
