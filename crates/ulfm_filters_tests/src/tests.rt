// The tests, by what they are of.

mod devices;
mod faults;
mod filtered;
mod forged;
mod rows;
