//! Tests of a world and its ranks: whole calls, calls that are taken step by step, and calls of a job.
#![tactic(auto)]

#[cfg(test)]
mod tests;
