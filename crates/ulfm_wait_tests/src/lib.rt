//! Tests of calls that wait, and of the future of an agree.
#![tactic(auto)]

#[cfg(test)]
mod future;
#[cfg(test)]
mod threads;
pub mod twice;
