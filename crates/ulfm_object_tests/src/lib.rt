//! The tests of the sequential object: which worlds open, and memory that is refused. Worked scripts are run over it beside ranks
//! over words, in the tests of `ulfm_run`.
#![tactic(auto)]

#[cfg(test)]
mod calls;
#[cfg(test)]
mod memory;
#[cfg(test)]
mod opening;
