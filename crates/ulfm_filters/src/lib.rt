//! The program as a filter: scripts run, echoed and migrated, and traces judged, from a reader to a writer; what is said of a fault, and the
//! exit status. The lines that a race prints. And laws of what is written: a trace that a step script's run wrote is legal.
#![tactic(auto)]

pub mod command_line;
pub mod echo;
pub mod echo_laws;
pub mod filter;
pub mod migration;
pub mod migration_laws;
pub mod race_text;
pub mod telling;
pub mod written_laws;

pub use command_line::{Unread, answer_args, tell_bad_line, tell_unread};
pub use echo::EchoLines;
pub use echo_laws::echoes_are_taken_away;
pub use filter::{Filter, run_filter};
pub use migration::{migrate, migrated};
pub use migration_laws::{
    acknowledging_most_is_acknowledging_all, texts_are_read_as_runs_read_them,
};
pub use race_text::race_lines;
pub use telling::{print_text, tell, tell_fault};
pub use written_laws::{
    events_are_few, failing_ends_are_legal, failing_traces_are_legal, printed_traces_are_legal,
    written_traces_are_legal,
};
