// The tests, by what they are of.

mod arrivals;
mod blocks;
mod counted;
mod finished;
mod laws;
mod model;
mod read_on;
mod stepped;
mod words;
mod world;
