//! The search for a trace that explains a log of calls and replies, and the answer that was confirmed.
#![tactic(auto)]

pub mod answer;
mod blame;
mod broken;
mod choice;
mod contexts;
pub mod observing;
mod opened;
mod reducing;
mod search;
mod solve;
mod telling;
mod ways;
mod witness;

pub use answer::{Answer, BUDGET, explain};
pub use observing::{Shown, observe};
