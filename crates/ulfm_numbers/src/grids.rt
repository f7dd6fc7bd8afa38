//! Cells by place, in arrays: a communicator, a round and a rank.
ghost use Rattle.std.specs.Prelude.{◌≡◌, ◌==◌, OnOk, if◌then◌else◌, ℕ};
ghost use Rattle.ulfm_numbers.specs.Grids.{cell_at, in_round, in_rounds};
ghost use Rattle.ulfm_model.specs.History.{same_place};

use crate::numbers::RoundKey;
use std::alloc::{AllocError, Allocator};

/// Cells by place, which are empty where nothing was put. It has room for each communicator up to the greatest at which something stands, for each
/// of its rounds up to the greatest, and for each of that round's ranks up to the greatest. What an empty cell is, those say who read or put.
#[derive(Drop)]
pub struct Grid<C: Copy, A: Allocator> {
    /// By communicator, by round and by rank.
    pub comms: Vec<Vec<Vec<C, A>, A>, A>,
}

/// A grid of empty cells.
pub(crate) fn new_grid<C: Copy, A: Allocator>(alloc: A) -> Grid<C, A>
    ensures { (empty : C) (q : ℕ × ℕ × ℕ) → cell_at empty result q ≡ empty }
{
    Grid {
        comms: Vec::new(alloc),
    }
}

/// The cell at a rank of a round.
fn in_round<C: Copy, A: Allocator>(ranks: &Vec<C, A>, rank: u16, empty: C) -> C
    ensures { result ≡ in_round empty ranks.now rank }
{
    match ranks.get(usize::from(rank)) {
        Some(cell) => *cell,
        None => empty,
    }
}

/// The cell at a rank of a communicator's round.
fn in_rounds<C: Copy, A: Allocator>(
    rounds: &Vec<Vec<C, A>, A>,
    round: u16,
    rank: u16,
    empty: C,
) -> C
    ensures { result ≡ in_rounds empty rounds.now round rank }
{
    match rounds.get(usize::from(round)) {
        Some(ranks) => in_round(ranks, rank, empty),
        None => empty,
    }
}

/// The cell at a place.
pub(crate) fn cell_at<C: Copy, A: Allocator>(grid: &Grid<C, A>, place: RoundKey, empty: C) -> C
    ensures { result ≡ cell_at empty grid.now place }
{
    let (comm, round, rank) = place;
    match grid.comms.get(usize::from(comm)) {
        Some(rounds) => in_rounds(rounds, round, rank, empty),
        None => empty,
    }
}

/// Puts a cell at a rank of a round.
fn put_in_round<C: Copy, A: Allocator>(
    ranks: &mut Vec<C, A>,
    rank: u16,
    empty: C,
    cell: C,
) -> Result<(), AllocError>
    ensures { OnOk result ((r : ℕ) → in_round empty ranks.new r ≡ (if rank == r then cell else in_round empty ranks.old r)) }
{
    let place = usize::from(rank);
    'room: for _place in ranks.len()..place + 1 {
        ranks.push(empty)?;
    }
    ranks[place] = cell;
    Ok(())
}

/// How many ranks the last round has room for, which the next will probably need too.
fn last_width<C: Copy, A: Allocator>(rounds: &Vec<Vec<C, A>, A>) -> usize {
    match rounds.last() {
        Some(ranks) => ranks.len(),
        None => 0,
    }
}

/// Puts a cell at a rank of a communicator's round.
fn put_in_rounds<C: Copy, A: Allocator + Copy>(
    alloc: A,
    rounds: &mut Vec<Vec<C, A>, A>,
    round: u16,
    rank: u16,
    empty: C,
    cell: C,
) -> Result<(), AllocError>
    ensures { OnOk result ((k r : ℕ)
        → in_rounds empty rounds.new k r ≡ (if round == k then (if rank == r then cell else in_rounds empty rounds.old k r) else in_rounds empty rounds.old k r)) }
{
    let place = usize::from(round);
    'room: for _place in rounds.len()..place + 1 {
        let width = last_width(rounds);
        rounds.push(Vec::with_capacity(alloc, width)?)?;
    }
    let ranks = &mut rounds[place];
    put_in_round(ranks, rank, empty, cell)
}

/// Puts a cell at a place.
pub(crate) fn put_at<C: Copy, A: Allocator + Copy>(
    alloc: A,
    grid: &mut Grid<C, A>,
    place: RoundKey,
    empty: C,
    cell: C,
) -> Result<(), AllocError>
    ensures { OnOk result ((q : ℕ × ℕ × ℕ) → cell_at empty grid.new q ≡ (if same_place place q then cell else cell_at empty grid.old q)) }
{
    let (comm, round, rank) = place;
    let place = usize::from(comm);
    'room: for _place in grid.comms.len()..place + 1 {
        grid.comms.push(Vec::new(alloc))?;
    }
    let rounds = &mut grid.comms[place];
    put_in_rounds(alloc, rounds, round, rank, empty, cell)
}
