//! Where a state's parts stand in its row of bytes.
use ulfm_model::Limits;

/// The bytes of what is kept of a communicator, of a rank, and of what a rank holds of a communicator.
pub(crate) const COMM_BYTES: usize = 4;

pub(crate) const RANK_BYTES: usize = 13;

pub(crate) const HELD_BYTES: usize = 3;

/// Where the parts of a state's row begin.
#[derive(Clone, Copy)]
pub(crate) struct Layout {
    /// How many ranks the world has, at most 8.
    pub(crate) ranks: u8,
    /// How many communicators it has room for, at most 8.
    pub(crate) comms: u8,
    /// How many rounds of each sort a communicator has, at most 15.
    pub(crate) rounds: u8,
    /// The ranks that are declared, in order, behind their number, which is the first byte.
    failures: usize,
    /// The communicators that there are, behind their number.
    made: usize,
    slots: usize,
    arrivals: usize,
    blocks: usize,
    seats: usize,
    held: usize,
    /// The number of bytes, in whole groups of eight.
    pub(crate) width: usize,
}

/// The place behind so many things of this size.
fn behind(base: usize, count: usize, size: usize) -> usize {
    base.saturating_add(count.saturating_mul(size))
}

/// A number of at most 255.
fn small(number: u16) -> u8 {
    u8::try_from(number).unwrap_or(u8::MAX)
}

/// A number of bytes rounded up to whole groups of eight.
fn in_groups(bytes: usize) -> usize {
    bytes.saturating_add(7) & !7
}

impl Layout {
    /// The layout of a world's states.
    pub(crate) fn new(limits: Limits) -> Layout {
        let ranks = usize::from(limits.ranks);
        let comms = usize::from(limits.comms);
        let places = behind(0, comms, usize::from(limits.rounds));
        let failures = 1;
        let made = behind(failures, ranks, 1);
        let slots = behind(made.saturating_add(1), comms, COMM_BYTES);
        let arrivals = behind(slots, places, ranks);
        let blocks = behind(arrivals, places, 1);
        let seats = behind(blocks, places, 1);
        let held = behind(seats, ranks, RANK_BYTES);
        let holds = behind(0, ranks, comms);
        Layout {
            ranks: small(limits.ranks),
            comms: small(limits.comms),
            rounds: small(limits.rounds),
            failures,
            made,
            slots,
            arrivals,
            blocks,
            seats,
            held,
            width: in_groups(behind(held, holds, HELD_BYTES)),
        }
    }

    /// The declared rank of a number, counted from 0.
    pub(crate) fn failure(&self, number: u8) -> usize {
        behind(self.failures, usize::from(number), 1)
    }

    /// The number of communicators.
    pub(crate) fn made(&self) -> usize {
        self.made
    }

    /// A communicator's parent, round, members and revocation.
    pub(crate) fn comm(&self, comm: u8) -> usize {
        behind(self.made.saturating_add(1), usize::from(comm), COMM_BYTES)
    }

    /// A round's number among all.
    fn round(&self, comm: u8, round: u8) -> usize {
        behind(
            usize::from(round),
            usize::from(comm),
            usize::from(self.rounds),
        )
    }

    /// A member's place in an agreement round.
    pub(crate) fn slot(&self, comm: u8, round: u8, rank: u8) -> usize {
        let place = behind(
            usize::from(rank),
            self.round(comm, round),
            usize::from(self.ranks),
        );
        behind(self.slots, place, 1)
    }

    /// Who has arrived in a barrier round.
    pub(crate) fn arrivals(&self, comm: u8, round: u8) -> usize {
        behind(self.arrivals, self.round(comm, round), 1)
    }

    /// Which blocks of an agreement round are cached.
    pub(crate) fn blocks(&self, comm: u8, round: u8) -> usize {
        behind(self.blocks, self.round(comm, round), 1)
    }

    /// What is kept of a rank.
    pub(crate) fn seat(&self, rank: u8) -> usize {
        behind(self.seats, usize::from(rank), RANK_BYTES)
    }

    /// What a rank holds of a communicator.
    pub(crate) fn held(&self, rank: u8, comm: u8) -> usize {
        let place = behind(
            usize::from(comm),
            usize::from(rank),
            usize::from(self.comms),
        );
        behind(self.held, place, HELD_BYTES)
    }
}
