//! Tests of what ranks stand on: combining at concrete values, which worlds open, how refusals print, that entries are cloned, that the
//! laws hold for flags, the words of slots and blocks, plain words that were just opened, and the machines that take one atomic step at a
//! time, over words that count the steps, and beside an intruder's.
#![tactic(auto)]

#[cfg(test)]
mod tests;
