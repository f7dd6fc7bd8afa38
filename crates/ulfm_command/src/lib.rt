//! What the command lines of the program ask for.
#![tactic(auto)]

pub mod asked;
mod commands;
pub mod reading;
mod texts;
mod verbs;

pub use asked::{
    Asked, CheckForm, DrawOptions, ExploreOptions, RaceOptions, Reason, RunForm, Task,
};
pub use reading::read_words;
pub use texts::VERSION;
