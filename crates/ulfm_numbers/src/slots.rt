//! What settles places, and when something happens at them, in cells of a grid.
ghost use Rattle.std.specs.Prelude.{◌≡◌, ◌<◌, OnOk, Some, if◌then◌else◌, ℕ};
ghost use Rattle.ulfm_model.specs.History.{same_place};
ghost use Rattle.ulfm_model.specs.declared.contribution.Slot.TheVariants.{Given};
ghost use Rattle.ulfm_numbers.specs.Cells.{counts_of, given_of, number_at, number_by, told_at, told_by};

use crate::cells::{Cell, Counts};
use crate::grids::{Grid, cell_at, put_at};
use crate::kept::{EventNumber, KeptFlag, KeptMask};
use crate::numbers::RoundKey;
use std::alloc::{AllocError, Allocator};
use ulfm_laws::meld::Packed;
use ulfm_model::contribution::{Contribution, Offer, Slot};

/// What a rank contributed, by its counts and what it offered.
fn given_of<P: Copy>(counts: Counts, offer: Offer<P>) -> Contribution<P>
    ensures { result ≡ given_of counts offer }
{
    Contribution {
        offer,
        known: counts.known,
        acked: counts.acked,
    }
}

/// The counts of a contribution.
fn counts_of<P: Copy>(given: &Contribution<P>) -> Counts
    ensures { result ≡ counts_of given.now }
{
    Counts {
        known: given.known,
        acked: given.acked,
    }
}

/// The cell of a contribution, with the number of its event.
fn cell_given<P: Packed>(number: u64, counts: Counts, offer: &Offer<P>) -> Cell<P>
    requires { number < 281474976710656 }
    ensures { told_by result ≡ Some (number, Given (given_of counts offer.now)) }
{
    match *offer {
        Offer::Flag(flag) => Cell::Flag(counts, EventNumber::of(number), KeptFlag::of(&flag)),
        Offer::Ctx(mask) => Cell::Ctx(counts, EventNumber::of(number), KeptMask::of(mask)),
    }
}

/// The cell of what settles a place, with the number of its event.
fn cell_of<P: Packed>(number: u64, slot: &Slot<P>) -> Cell<P>
    requires { number < 281474976710656 }
    ensures { told_by result ≡ Some (number, slot.now) }
{
    match slot {
        Slot::Mark(mark) => Cell::Marked(*mark, EventNumber::of(number)),
        Slot::Given(given) => cell_given(number, counts_of(given), &given.offer),
    }
}

/// What a cell says that settles a place, with the number of its event.
fn told_by<P: Packed>(cell: &Cell<P>) -> Option<(u64, Slot<P>)>
    ensures { result ≡ told_by cell.now }
{
    match *cell {
        Cell::Empty => None,
        Cell::Marked(mark, number) => Some((number.get(), Slot::Mark(mark))),
        Cell::Flag(counts, number, flag) => {
            Some((
                number.get(),
                Slot::Given(given_of(counts, Offer::Flag(flag.get()))),
            ))
        }
        Cell::Ctx(counts, number, mask) => {
            Some((
                number.get(),
                Slot::Given(given_of(counts, Offer::Ctx(mask.get()))),
            ))
        }
    }
}

/// What settles a place, with the number of its event.
pub(crate) fn told_at<P: Packed, A: Allocator>(
    slots: &Grid<Cell<P>, A>,
    place: RoundKey,
) -> Option<(u64, Slot<P>)>
    ensures { result ≡ told_at slots.now place }
{
    told_by(&cell_at(slots, place, Cell::Empty))
}

/// Puts at a place what settles it, with the number of its event.
pub(crate) fn put_told<P: Packed, A: Allocator + Copy>(
    alloc: A,
    slots: &mut Grid<Cell<P>, A>,
    place: RoundKey,
    number: u64,
    slot: &Slot<P>,
) -> Result<(), AllocError>
    requires { number < 281474976710656 }
    ensures { OnOk result ((q : ℕ × ℕ × ℕ) → told_at slots.new q ≡ (if same_place place q then Some (number, slot.now) else told_at slots.old q)) }
{
    put_at(alloc, slots, place, Cell::Empty, cell_of(number, slot))
}

/// The number that a word says, if it says one.
fn number_by(word: u64) -> Option<u64>
    ensures { result ≡ number_by word }
{
    if word == 0 { None } else { Some(word - 1) }
}

/// The number of a place's event.
pub(crate) fn number_at<A: Allocator>(numbers: &Grid<u64, A>, place: RoundKey) -> Option<u64>
    ensures { result ≡ number_at numbers.now place }
{
    number_by(cell_at(numbers, place, 0))
}

/// Puts the number of its event at a place.
pub(crate) fn put_number<A: Allocator + Copy>(
    alloc: A,
    numbers: &mut Grid<u64, A>,
    place: RoundKey,
    number: u64,
) -> Result<(), AllocError>
    requires { number < 18446744073709551615 }
    ensures { OnOk result ((q : ℕ × ℕ × ℕ) → number_at numbers.new q ≡ (if same_place place q then Some number else number_at numbers.old q)) }
{
    put_at(alloc, numbers, place, 0, number + 1)
}
