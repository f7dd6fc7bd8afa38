//! Lines of step scripts and of traces: what stands in them, read and printed, and the trait of what runs the lines of steps.
#![tactic(auto)]

pub mod decision_text;
mod events;
mod fields;
pub mod laws;
pub mod printing;
mod replies;
pub mod step_line;
pub mod step_machine;
pub mod step_name;
pub mod teller;
pub mod trace_line;

pub use decision_text::{print_count, print_outcome};
pub use laws::{one_text_tells_one_line, printed_lines_are_told};
pub use printing::print_line;
pub use step_line::read_step_line;
pub use step_machine::{Reach, StepMachine, Taken, count_up};
pub use step_name::{read_step_name, step_word};
pub use teller::Teller;
pub use trace_line::{read_begin, read_happening, read_line, read_look};
