//! Words that threads share without locks.
//!
//! A word is eight bytes and is set at most once, by one atomic compare-exchange from 0; every other step is one atomic load.
//! In the proofs alone a log stands beside the words: the limits, then the events, the blocks and the wings in the order in
//! which their words were set. It only grows, its history is legal at every moment, and each place's word is what this history
//! has there, so it is 0 exactly where no event of it sets the word. A block's word is 0 exactly where the log doesn't have the
//! block, and otherwise that of what its members say together, each of whom is settled.
//!
//! A payload has 64 bits, and the word of a slot or of a block has room for the lower half of it. The upper half stands in a
//! second word, the wing, which is set before the first: so whoever finds a contribution or a block finds its wing, too. A wing
//! is 0 exactly where the log doesn't have it. It stands right behind its word, so that one cache line has both as a rule.
//!
//! A pass is the beginning of the log that one caller has seen. A told value is such a beginning, handed from one thread to
//! another: `learn` moves no data, and lets contracts know what the other thread saw.
#![tactic(auto)]

mod line;
mod pass;
mod rule;
mod seats;
mod words;

pub use pass::{BookPass, BookTold};
pub use words::BookWords;
