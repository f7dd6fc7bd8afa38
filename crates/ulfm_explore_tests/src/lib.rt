//! Tests of explorations: programs that are read; the model beside the step engine, step by step on random walks; what a small program gives; and refused memory.
#![tactic(auto)]

#[cfg(test)]
mod explored;
#[cfg(test)]
mod programs;
#[cfg(test)]
mod refused;
#[cfg(test)]
mod walked;
