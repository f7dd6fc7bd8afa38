//! What a user of a world holds, and calls that wait.
//!
//! Each rank is a `Member`: the rank with a pass of its own. The world's `Outside` is what a failure detector declares ranks failed by. A pass
//! is one caller's local view of the words that all share.
//!
//! A blocking call of a `Member` starts a request and polls until it is answered; an agree is a future too. That they return isn't promised: a
//! blocking call goes on for as long as some member of the communicator neither takes part nor is declared failed.
#![tactic(auto)]

pub mod blocking;
pub mod future;
pub mod in_turn;
pub mod member;
pub mod members;
pub mod outside;

pub use blocking::{agree, barrier, shrink};
pub use future::AgreeFuture;
pub use in_turn::poll_in_turn;
pub use member::Member;
pub use members::open;
pub use outside::Outside;
