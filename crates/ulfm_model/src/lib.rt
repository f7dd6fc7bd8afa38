//! What is believed: calls, replies, events and limits, and the definitions of histories, rounds, decisions and answers; traces and step
//! scripts as types, with which trace is legal and which follows a script; and laws of replies, what each tells of its round.
//!
//! Beside the definitions stand slow, plain programs with the same answers. What a history says is found by walking it from its start
//! (`reads`, `groups`, `decide`, `says`); a number that names nothing, as a communicator that doesn't exist or a rank that the world doesn't
//! have, has the definitions' answer too: nobody, nothing, no. And what one rank holds, when that refuses a call, and what a reply leaves of
//! it (`held`, `ids`, `leaves`): the sequential object and the ranks over words both stand on these.
#![tactic(auto)]

pub mod block;
pub mod call;
mod calls;
pub mod contribution;
pub mod decide;
pub mod event;
pub mod fresh;
pub mod groups;
pub mod held;
pub mod ids;
pub mod laws;
pub mod leaves;
pub mod limits;
pub mod line;
pub mod place;
pub mod reads;
pub mod record;
pub mod refusal;
pub mod reply;
pub mod rounds;
mod says;
pub mod step_line;
pub mod step_name;
pub mod trace_laws;

pub use block::{Beside, Block, Side, Wing};
pub use call::{Call, Request};
pub use contribution::{Contribution, MarkCount, Offer, Slot};
pub use decide::Decided;
pub use event::{Caller, Entry, Event};
pub use fresh::new_records;
pub use held::{HeldComm, Members};
pub use limits::{Limits, OpenFault};
pub use line::{Line, Why};
pub use place::Place;
pub use record::RankRecord;
pub use refusal::{Refusal, refusal_number};
pub use reply::Reply;
pub use step_line::StepLine;
pub use step_name::StepName;
