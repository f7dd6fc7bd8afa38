//! The examples of the public calls of `ulfm_comm`, `ulfm_book`, `ulfm_wait`, `vukrasp` and `ulfm_race`, and
//! of what users meet of the crates below and beside them, each run as a test.
//!
//! A test has the name of the type, or of the module, and of the call. What stands in it between two empty lines is, word for
//! word, the example in the call's documentation: `gate/examples_test.py` compares them.
#![tactic(auto)]

#[cfg(test)]
mod tests;
