//! Where the word of each place, of each block, and of each wing stands in the row of shared words.
ghost use Rattle.std.specs.Prelude.{◌≡◌};
ghost use Rattle.ulfm_book.specs.Layout.{arrivals_from, block_offset, blocks_from, place_offset, slots_from, wing_offset};
ghost use Rattle.ulfm_model.specs.Blocks.{IsBlockWithin};
ghost use Rattle.ulfm_model.specs.Words.{MayOpen};
ghost use Rattle.ulfm_words.specs.Places.{IsWingWithin, IsWithin};

use ulfm_model::block::{Block, Side, Wing};
use ulfm_model::limits::Limits;
use ulfm_model::place::Place;

/// Where in the row the slots begin, where the arrivals, and where the blocks. Each slot and each block has its wing behind it.
#[derive(Clone, Copy)]
pub(crate) struct Starts {
    /// Where the first slot stands; positions are counted in words, from 0.
    pub slots: usize,
    /// Where the first arrival stands.
    pub arrivals: usize,
    /// Where the first block stands, behind the words of all places.
    pub blocks: usize,
}

/// They are told once, when the row is made, so that a step multiplies once to find its word.
pub(crate) fn starts_in(limits: Limits) -> Starts
    requires { MayOpen limits }
    ensures slots { result.slots ≡ slots_from limits }
    ensures arrivals { result.arrivals ≡ arrivals_from limits }
    ensures blocks { result.blocks ≡ blocks_from limits }
{
    let ranks = limits.ranks as usize;
    let comms = limits.comms as usize;
    let rounds = limits.rounds as usize;
    let cells = comms * rounds * ranks;
    let slots = ranks + 2 * comms;
    let arrivals = slots + 2 * cells;
    Starts {
        slots,
        arrivals,
        blocks: arrivals + cells,
    }
}

/// Where the word of this place stands in the row: the lists, the communicators, the revocations, all slots, each with its
/// wing behind it, and then all arrivals. Two places have two positions.
///
/// The row of shared words has its full length from the start. So the slots of all rounds stand side by side, and several
/// rounds share a cache line. Plain words are made line by line as rounds come, so their row has the arrivals of each round
/// right after its slots.
#[inline(always)]
pub(crate) fn place_in_row(place: Place, limits: Limits, starts: Starts) -> usize
    requires open { MayOpen limits }
    requires slots { starts.slots ≡ slots_from limits }
    requires arrivals { starts.arrivals ≡ arrivals_from limits }
    requires within { IsWithin limits place }
    ensures { result ≡ place_offset limits place }
{
    let ranks = limits.ranks as usize;
    let comms = limits.comms as usize;
    let rounds = limits.rounds as usize;
    match place {
        Place::List { index } => index as usize,
        Place::Comm { comm } => ranks + comm as usize,
        Place::Revoked { comm } => ranks + comms + comm as usize,
        Place::Slot { comm, round, rank } => {
            starts.slots + 2 * ((comm as usize * rounds + round as usize) * ranks + rank as usize)
        }
        Place::Arrival { comm, round, rank } => {
            starts.arrivals + (comm as usize * rounds + round as usize) * ranks + rank as usize
        }
    }
}

/// Where the word of this block stands in the row: behind those of all places, communicator by communicator and round by round,
/// the front block's and its wing before those of the back one. Two blocks have two positions.
#[inline(always)]
pub(crate) fn block_in_row(block: Block, limits: Limits, starts: Starts) -> usize
    requires open { MayOpen limits }
    requires blocks { starts.blocks ≡ blocks_from limits }
    requires within { IsBlockWithin limits block }
    ensures { result ≡ block_offset limits block }
{
    let round = block.comm as usize * limits.rounds as usize + block.round as usize;
    let side = match block.side {
        Side::Front => 0,
        Side::Back => 2,
    };
    starts.blocks + 4 * round + side
}

/// Where this wing stands in the row: right behind the word of its slot or of its block. Two wings have two positions, and no
/// place and no block has one of them.
#[inline(always)]
pub(crate) fn wing_in_row(wing: Wing, limits: Limits, starts: Starts) -> usize
    requires open { MayOpen limits }
    requires slots { starts.slots ≡ slots_from limits }
    requires arrivals { starts.arrivals ≡ arrivals_from limits }
    requires blocks { starts.blocks ≡ blocks_from limits }
    requires within { IsWingWithin limits wing }
    ensures { result ≡ wing_offset limits wing }
{
    match wing {
        Wing::Slot { comm, round, rank } => {
            place_in_row(Place::Slot { comm, round, rank }, limits, starts) + 1
        }
        Wing::Block(block) => block_in_row(block, limits, starts) + 1,
    }
}
