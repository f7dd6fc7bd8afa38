//! Agreement among threads that may fail: all that a program of threads names, in one crate.
//!
//! [`open`] opens a world. It gives the world's [`Outside`], by which a failure detector declares ranks failed, and a [`Member`] for each
//! rank. A member goes to its rank's thread. Its calls are methods, and [`agree`], [`shrink`] and [`barrier`] wait for the reply. Each flag
//! is a [`FlagAnd`], 64 bits under AND, unless the program takes another kind of contribution: [`FlagOr`], [`Greatest`], [`Least`], or a type of
//! its own that is [`Packed`].
//!
//! Four ranks agree on a flag, each in a thread of its own:
//!
//! ```
//! type Reply = Result<Polled<FlagAnd>, Refusal>;
//!
//! fn agree_all<R: Threads + Wait + Sync>(rt: &R, members: Vec<Member>) -> Result<Vec<Reply>, AllocError> {
//!     thread::map_vec(
//!         rt,
//!         members,
//!         &|mut member| {
//!             let value = FlagAnd {
//!                 bits: 8 | u64::from(member.number()),
//!             };
//!             vukrasp::agree(rt, &mut member, 0, value)
//!         },
//!     )
//! }
//!
//! fn main(rt: HostRuntime) -> anyhow::Result<()> {
//!     let limits = Limits {
//!         ranks: 4,
//!         comms: 1,
//!         rounds: 2,
//!     };
//!     let (_, members) = vukrasp::open(rt.alloc(), limits)?;
//!     for reply in agree_all(&rt, members)? {
//!         println!(rt; "{reply:?}")?;
//!     }
//!     Ok(())
//! }
//! ```
//!
//! What each call promises stands with the call, in the crates from which the names below come. Words of one thread, and calls that are
//! taken step by step, are in `ulfm_words` and `ulfm_comm`.
#![tactic(auto)]

pub mod opening;

pub use opening::{Member, Outside, open};
pub use ulfm_book::{BookPass, BookTold, BookWords};
pub use ulfm_comm::{Polled, Rank, World};
pub use ulfm_contributions::{FlagOr, Greatest, Least};
pub use ulfm_laws::{FlagAnd, Meld, Packed};
pub use ulfm_model::{Limits, OpenFault, Refusal};
pub use ulfm_wait::{AgreeFuture, agree, barrier, poll_in_turn, shrink};
