//! When the events of a history happened: tables of their numbers, in place of walks of a history.
#![tactic(auto)]

pub mod allowed;
pub mod cells;
pub mod grids;
pub mod groups;
pub mod kept;
pub mod numbers;
pub mod rounds;
pub mod slots;

pub use allowed::may_follow;
pub use numbers::Numbers;
