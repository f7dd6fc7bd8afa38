// The tests, by what they are of.

mod calls;
mod lines;
mod memory;
mod steps;
mod told;
mod writes;
