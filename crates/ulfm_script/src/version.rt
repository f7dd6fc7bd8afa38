//! The versions of call scripts.

/// Which calls a call script may have, and how a flag is spelled in it.
#[derive(Clone, Copy, Debug, PartialEq, Eq)]
pub enum Version {
    /// `ulfm 1`: the calls of the later specification; a flag has eight digits or sixteen.
    First,
    /// `ulfm 2`: those and the calls of the interface of 2013; a flag has sixteen digits.
    Second,
}
