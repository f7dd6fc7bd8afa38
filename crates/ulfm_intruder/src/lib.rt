//! Words into which another's event comes, for tests: just before a step that the test names. And a round, read place by place, as they
//! read it.
#![tactic(auto)]

pub mod intruder;
pub mod read_round;

pub use intruder::{Intruder, IntruderPass};
pub use read_round::ReadRound;
