//! Small programs of ranks explored: each outcome of every schedule, shown by a script that the step engine has run.
#![tactic(auto)]

mod asking;
pub mod confirm;
mod reading;
pub mod showing;
mod telling;

pub use confirm::{Shown, are_same, follow, show};
pub use showing::{ExploreFault, Explored, Plan, explore};
