//! The sequential agreement object: the slow, plain program that is the definition, made to run. What a world is made of, what
//! ranks ask and what they are answered comes from `ulfm_model`. Scripts of calls run over it too, which ranks over words are compared with.
#![tactic(auto)]

mod adds;
mod asked;
mod leaves;
pub mod object;
pub mod object_machine;
mod outcome;
mod replies;

pub use object::Object;
pub use object_machine::ObjectMachine;
pub use ulfm_model::{
    Call, Caller, Contribution, Entry, Event, Limits, MarkCount, Offer, OpenFault, Place, Refusal,
    Reply, Request, Slot, refusal_number,
};
