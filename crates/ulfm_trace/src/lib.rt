//! The check of a trace's text: whether it is a legal trace, or its first line that is bad and why.
#![tactic(auto)]

pub mod judged;
pub mod judging;
pub mod laws;
pub mod line_judge;
pub mod printing;
pub mod verdict;

pub use judged::check;
pub use judging::check_by;
pub use laws::texts_have_one_verdict;
pub use line_judge::LineJudge;
pub use printing::verdict_line;
pub use verdict::{CheckFault, Verdict};
