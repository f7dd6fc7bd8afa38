//! The library for programs in C, C++ and Fortran: a static library whose exports the header declares.
//!
//! A handle is one pointer, null where it holds nothing. A rank's handle holds the rank, its world and its pass (its local view of what all
//! ranks did); the outside's handle is that by which a failure detector declares ranks failed. No call waits: a request is started, and then
//! polled.
//!
//! C keeps three rules, which nothing checks. A handle's memory is null before `ulfm_open`, and from then on it is written by these calls
//! alone, and never copied. A handle is given to one call at a time, from whatever thread, and what orders two calls is a thread's start or
//! join, a lock, or a sequentially consistent atomic. Pointers and lengths that a call is given are valid and don't overlap, and no call comes
//! from a signal handler.
//!
//! Each call answers a code, 0 where it succeeds: `code` has the others. What a call is to write out comes last among its parameters. It is
//! written where the code is 0, and is as it was at any other.
#![tactic(auto)]

mod asked;
pub mod calls;
pub mod code;
pub mod handle;
mod loose;
mod opening;
pub mod party;
mod party_replica;
pub mod polled;
pub mod reads;
pub mod replica;
pub mod world;
mod written;
