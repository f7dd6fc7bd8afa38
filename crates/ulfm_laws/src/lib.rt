//! What ranks contribute to a round, and how contributions are combined.
//!
//! A round is decided by combining what its members contributed. Contributions come in any order, and one may be
//! read and combined more than once, so a kind of contribution has to be lawful: [`Meld`] says what that is, and
//! each kind proves it. The kinds are a flag ([`FlagAnd`]), a set of context ids ([`CtxMask`]), and the beginnings
//! of the failed group that a rank knows ([`Known`]) and has acknowledged ([`Acked`]). [`Body`] and [`Summary`] are
//! built of them, over any payload that is lawful.
//!
//! What each kind stands for as a set, and what follows from the laws, are the contracts of [`meanings`].
#![tactic(auto)]

pub mod flag_and;
pub mod meanings;
pub mod meld;
pub mod meld_all;
pub mod summary;

pub use flag_and::FlagAnd;
pub use meld::{Meld, Packed};
pub use summary::{Acked, Body, CtxMask, Known, Summary};
