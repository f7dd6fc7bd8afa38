//! Logs of calls and replies alone: their lines, typed and printed, which traces explain one, the test of an
//! explanation that was found, and reasons why no legal trace explains a log, each proved.
#![tactic(auto)]

pub mod confirming;
pub mod judging;
pub mod log;
pub mod printing;
pub mod ranks;
pub mod refuting;
pub mod shows;
pub mod stages;
pub mod step;
pub mod walk;
pub mod wills;

pub use confirming::confirm;
pub use log::{Failures, Item, Log, LogLine, Order, Seen};
pub use printing::{print_log, print_witness};
pub use refuting::refutes;
pub use step::Step;
