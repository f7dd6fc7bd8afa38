//! A race of ranks, each in a thread of its own (its worker): all agree round after round, and then shrink.
#![tactic(auto)]

mod gather;
mod plan;
mod racing;
mod worker;

pub use plan::{Gate, Outcome, Plan, RaceFault, Turn};
pub use racing::race;
