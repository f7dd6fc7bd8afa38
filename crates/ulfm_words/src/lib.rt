//! Words that are set at most once: where they stand, what they mean, and what each step on them does.
#![tactic(auto)]

pub mod accesses;
pub mod laws;
pub mod plain;
pub mod step;
pub mod summaries;
pub mod words;

pub use accesses::{
    Found, Settled, load_arrival, load_block, load_block_rest, load_comm, load_failure, load_rest,
    load_revocation, load_slot, set_arrival, set_comm, set_failure, set_revocation, set_slot,
};
pub use plain::{PlainPass, PlainTold, PlainWords, StepLog, Trail};
pub use step::{Last, Site, Step};
pub use summaries::{
    block_wing, block_word, block_words, read_block, read_slot, slot_wing, slot_words,
};
pub use words::{OpenWords, Words};
