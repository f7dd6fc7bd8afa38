// The tests, by what they are of.

mod failing;
mod free;
mod held;
mod order;
mod plans;
mod tables;
