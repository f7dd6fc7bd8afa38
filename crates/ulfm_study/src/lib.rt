//! What a log of calls and replies says, and what it asks of an order, before any search: its text read, its calls with their rounds and
//! their replies, what was decided, what comes before what, and where each rank may stand in the line of failures. Nothing of it is trusted.
#![tactic(auto)]

pub mod acts;
pub mod certain;
pub mod deals;
pub mod places;
pub mod plan;
pub mod reading;
pub mod records;
pub mod rules;
pub mod study;
pub mod why;

pub use acts::{Act, Kind, Standing, Start};
pub use certain::{Hint, hint_of};
pub use deals::{Deal, Deals, tells_end};
pub use plan::{Part, Plan};
pub use reading::read_log;
pub use records::{Ban, study_log};
pub use study::{Round, Study};
pub use why::Why;
