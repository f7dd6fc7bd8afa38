//! Machines that take one atomic step at a time, over any words. None of them takes memory.
#![tactic(auto)]

pub mod append;
pub mod arrivals;
pub mod blocks;
pub mod group;
pub mod item;
pub mod look;
pub mod read_on;
pub mod settle;

pub use append::{Append, Appended};
pub use arrivals::{Arrivals, Missing};
pub use blocks::{Found, MarkAll, Peek, ReadBlocks, RoundBlocks};
pub use item::Item;
pub use look::Look;
pub use read_on::ReadOn;
pub use settle::Settle;
