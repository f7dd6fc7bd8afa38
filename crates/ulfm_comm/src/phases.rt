// What a call of a rank does next, a file for each such phase.
mod agreement;
mod barrier;
mod exchange;
mod look;
pub mod phase;
mod proposal;
pub(crate) mod spawning;
mod step;
