//! A world, its ranks and their calls, over any words.
#![tactic(auto)]

pub mod calls;
pub mod phases;
pub mod rank;
pub mod world;

pub use calls::polled::Polled;
pub use phases::phase::Doing;
pub use rank::Rank;
pub use world::World;
