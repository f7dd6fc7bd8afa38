//! Rounds that have decided.
ghost use Rattle.std.specs.Prelude.{◌≡◌, nat_le};
ghost use Rattle.std.specs.List.{list_all, list_any};
ghost use Rattle.ulfm_model.specs.History.{has, known_of};

use std::alloc::Allocator;
use ulfm_laws::meld::Meld;
use ulfm_model::contribution::Slot;
use ulfm_model::decide::Decided;
use ulfm_model::reads::has_rank;

/// What a round decided.
#[derive(Drop)]
pub struct Done<P: Meld, A: Allocator> {
    /// The point from which on it has.
    pub since: u64,
    /// How many failures of the communicator there were then.
    pub failed: usize,
    /// What it decided.
    pub made: Decided<P, A>,
}

/// How many failures a mark or a contribution names.
fn known_of<P: Copy>(slot: &Slot<P>) -> u16
    ensures { result ≡ known_of slot.now }
{
    match slot {
        Slot::Mark(mark) => mark.known.count,
        Slot::Given(given) => given.known.count,
    }
}

/// Whether marks and contributions name no more than so many failures.
pub(crate) fn know_few<P: Copy>(settled: &[Slot<P>], failed: usize) -> bool
    ensures { result ≡ list_all (λ s. nat_le (known_of s) failed) settled.now }
{
    settled
        .iter()
        .all(|slot| usize::from(known_of(slot)) <= failed)
}

/// Whether some of these ranks are among others.
pub(crate) fn have_common(ranks: &[u16], others: &[u16]) -> bool
    ensures { result ≡ list_any (has others.now) ranks.now }
{
    ranks.iter().any(|rank| has_rank(others, *rank))
}
