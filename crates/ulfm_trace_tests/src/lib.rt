//! The tests of checking traces, and a second judge for them, which is plain and slow and isn't proved.
#![tactic(auto)]

#[cfg(test)]
mod tests;
