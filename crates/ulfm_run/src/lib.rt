//! Scripts of calls and of single steps run over words, as users run them.
//!
//! A job is a world, all its ranks and one pass in one hand: it answers the calls of a script. A seat is a rank with its call under way, if
//! any, whose steps are taken one by one over words that nobody else steps in; what each step tells of a trace is said here. The engine of step
//! scripts runs a world with a seat for each rank, and writes the traces that follow them.
#![tactic(auto)]

pub mod engine;
pub mod events;
pub mod failing;
pub mod fails;
pub mod job;
pub mod laws;
pub mod plan;
pub mod running;
pub mod seat;
mod step_lines;
pub mod table;
mod telling;
pub mod told;
mod walks;

pub use engine::StepLines;
pub use events::event_at;
pub use failing::run_failing_script;
pub use fails::fail_whole;
pub use job::{Job, WordsMachine};
pub use laws::{seats_begin, seats_last};
pub use plan::Failing;
pub use running::{run_calls, run_steps, run_steps_failing};
pub use seat::Seat;
pub use table::StepTable;
pub use told::{Answer, StepTold};
