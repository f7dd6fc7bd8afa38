//! Small programs of ranks over the calls, with their reader; and every schedule of one, searched over a model of the step engine: the
//! outcomes, and for each a script of steps.
//!
//! Nothing is proved of what the search finds: who takes a script runs it by the step engine itself.
#![tactic(auto)]

mod answers;
mod choices;
mod engine;
pub mod fault;
mod few;
mod finding;
mod layout;
mod lines;
mod looking;
pub mod moves;
mod paths;
pub mod program;
pub mod reading;
mod rounds;
mod scripts;
pub mod searched;
mod shorten;
mod state;
mod table;
pub mod walks;

pub use fault::{ProgramFault, ProgramKind};
pub use moves::{Fate, Move, Row, most_moves, move_at};
pub use program::{Ask, Find, May, Op, Place, Program, has_words};
pub use reading::read_program;
pub use searched::{Script, Searched, search};
pub use walks::walk;
