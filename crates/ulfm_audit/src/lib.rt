//! A stored log of a world, audited: the history that it makes, and what its rounds decided, in lines.
#![tactic(auto)]

pub mod auditing;
mod decisions;
mod digest;
mod head;

pub use auditing::{AuditFault, audit};

#[cfg(test)]
mod tests;
