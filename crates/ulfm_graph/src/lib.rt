//! Tables of numbers, read and written at any place; and graphs of what comes before what: their orders, their cycles, and what is passed
//! on along their edges.
#![tactic(auto)]

pub mod graph;
mod ready;
pub mod tables;

pub use graph::Graph;
