//! Which context ids the communicators of a trace have, and which of them each rank holds.
use std::alloc::{AllocError, Allocator};
use ulfm_graph::tables::{NONE, add_bits, at, bits_at, put, put_bits};
use ulfm_study::Study;

/// The context ids so far.
#[derive(Drop)]
pub(crate) struct Contexts<A: Allocator> {
    /// For each rank the context ids that it doesn't hold: a bit for each.
    free: Vec<u64, A>,
    /// For each communicator its context id; `NONE` where it isn't made yet.
    ids: Vec<u32, A>,
}

impl<A: Allocator + Copy> Contexts<A> {
    /// All ranks hold the one of the world's communicator, and no other.
    pub(crate) fn new(study: &Study<A>) -> Result<Contexts<A>, AllocError> {
        let mut contexts = Contexts {
            free: vec![in study.alloc; u64::MAX - 1; study.ranks]?,
            ids: vec![in study.alloc; NONE; study.comms]?,
        };
        put(&mut contexts.ids, 0, 0);
        Ok(contexts)
    }

    /// The context ids that a rank doesn't hold: a bit for each.
    pub(crate) fn free(&self, rank: u16) -> u64 {
        bits_at(&self.free, rank as usize)
    }

    /// The context id of a communicator; `NONE` where it isn't made yet.
    pub(crate) fn id(&self, comm: u16) -> u32 {
        at(&self.ids, comm as usize)
    }

    /// A communicator is made: its context id is the lowest that is free, of these.
    pub(crate) fn make(&mut self, comm: u16, free: u64) {
        put(&mut self.ids, comm as usize, lowest(free));
    }

    /// A rank holds a communicator's context id from now on.
    pub(crate) fn hold(&mut self, rank: u16, comm: u16) {
        let free = self.free(rank) & !bit_of(self.id(comm));
        put_bits(&mut self.free, rank as usize, free);
    }

    /// A rank lets a communicator's context id go.
    pub(crate) fn let_go(&mut self, rank: u16, comm: u16) {
        let id = bit_of(self.id(comm));
        add_bits(&mut self.free, rank as usize, id);
    }
}

/// The lowest bit that stands; none where none does.
fn lowest(mask: u64) -> u32 {
    let mut bit: u64 = 1;
    for id in 0..64 {
        if mask & bit != 0 {
            return id;
        }
        bit = bit.wrapping_add(bit);
    }
    NONE
}

/// A mask of one bit.
fn bit_of(id: u32) -> u64 {
    let mut bit: u64 = 1;
    for turn in 0..64 {
        if turn == id {
            return bit;
        }
        bit = bit.wrapping_add(bit);
    }
    0
}
