//! Kinds of contributions beside `FlagAnd`, flags under AND: flags under OR ([`FlagOr`]), and the least and the greatest of numbers ([`Least`],
//! [`Greatest`]). Each has 64 bits. An agree over one of them gives what all contributions of its round come to.
//!
//! They also show how a kind of one's own is written. A kind is a type with an `impl` of `Meld`, which says how two values are combined and
//! proves that neither order, grouping nor repetition changes the outcome, and with one of `Packed`, which says how a value stands in a word.
#![tactic(auto)]

pub mod flag_or;
pub mod greatest;
pub mod least;

pub use flag_or::FlagOr;
pub use greatest::Greatest;
pub use least::Least;
