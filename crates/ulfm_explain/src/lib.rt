//! Why a trace is illegal, explained: what the lines before the bad one tell of its call and its round, which part of the line is wrong, and
//! which lines would have been legal in its place.
#![tactic(auto)]

mod account;
pub mod explaining;
mod offers;
mod points;
mod rounds;
mod say;
mod scene;
mod sheet;
mod tries;
mod wrong;

pub use explaining::{Explained, explain};
