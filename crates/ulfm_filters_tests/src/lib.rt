//! Tests of the filters: over texts in memory, worked rows and input that nobody meant; over devices that fail at each call in turn; and in
//! memory that is refused at each want of it.
#![tactic(auto)]

#[cfg(test)]
mod tests;
