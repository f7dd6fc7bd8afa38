//! What a trace tells, row by row, as pictures of it show it: whose line it is, which calls are under way, who is
//! declared, and what rounds decide.
#![tactic(auto)]

pub mod bars;
mod calls;
pub mod decisions;
pub mod judged;
mod rounds;
pub mod rows;
pub mod story;
mod telling;
pub mod text;

pub use bars::{Bar, Tone};
pub use decisions::decision_words;
pub use judged::{JudgedText, judge_text, read_judged};
pub use rows::{Note, Row};
pub use story::{Story, tell_story};
pub use text::{Beginning, MOST_LINES, read_lines, split_line};
