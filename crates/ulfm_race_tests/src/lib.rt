//! Tests of races of ranks on threads.
#![tactic(auto)]

#[cfg(test)]
mod tests;
