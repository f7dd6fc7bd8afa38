//! What tests stand on. Devices: a reader that gives its text in pieces, a writer that takes a few bytes at once; each fails at one call. Memory
//! that is taken away. And worked rows: scripts and traces, and what the program gives for each, and lines that have a fault.
#![tactic(auto)]

pub mod calls;
pub mod faults;
pub mod memory;
pub mod reader;
pub mod row;
pub mod steps;
pub mod traces;
pub mod writer;

pub use reader::Pieces;
pub use row::Row;
pub use writer::{FailureMode, LimitedWriter};
