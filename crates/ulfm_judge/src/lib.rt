//! A judge of the lines of a trace: whether each is allowed by those before it.
#![tactic(auto)]

mod answers;
pub mod calls;
mod closing;
mod events;
pub mod judge;
mod own;
mod polls;
mod replies;

pub use judge::Judge;
