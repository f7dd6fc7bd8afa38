//! Tests of the words that threads share: words alone, and worlds whose ranks call on threads.
#![tactic(auto)]

#[cfg(test)]
mod tests;
