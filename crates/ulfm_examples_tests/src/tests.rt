// The examples, by what they are of.

mod contributions;
mod lines;
mod members;
mod open;
mod opening;
mod ranks;
mod scripts;
mod waits;
mod words;
mod worlds;
