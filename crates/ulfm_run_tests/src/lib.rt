//! The tests of running scripts: what scripts print and which faults end them, over words and over the sequential object, and devices that fail;
//! what the lines of step scripts tell, line by line; and step scripts in which a rank is declared failed after each step in turn.
#![tactic(auto)]

#[cfg(test)]
mod tests;
