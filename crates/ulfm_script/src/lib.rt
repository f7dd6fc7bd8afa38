//! Scripts: the text of calls, the engine that runs scripts of any kind, and scripts of calls on it.
#![tactic(auto)]

pub mod buffers;
pub mod call_script;
pub mod calls;
pub mod engine;
pub mod fault;
pub mod flag_places;
pub mod header;
pub mod header_kind;
pub mod heading;
pub mod interpreter;
pub mod last_group;
mod last_line;
pub mod laws;
pub mod line_kind;
pub mod machine;
pub mod printing;
pub mod version;
pub mod words;

pub use buffers::{Input, LineEnd, write_out};
pub use call_script::{CallLines, run_script, run_script_through};
pub use calls::{is_padded, read_call, read_call_of};
pub use engine::{end_of, run_text, run_text_through};
pub use fault::RunFault;
pub use flag_places::FlagDigits;
pub use header::{print_header, read_call_heading, read_header, read_heading};
pub use header_kind::HeaderKind;
pub use heading::Heading;
pub use interpreter::Interpreter;
pub use last_group::LastGroup;
pub use laws::{prints_the_replies, stops_at_the_first_fault};
pub use line_kind::LineKind;
pub use machine::Machine;
pub use printing::{
    flag_digits, print_behind, print_call, print_flag, print_labelled, print_number, print_point,
    print_reply, print_spelled_call, verb,
};
pub use version::Version;
