//! A rank that replays the log of its world. It keeps all words to itself; what others did comes to it as entries of one log, which every rank of
//! the world reads in the same order.
//!
//! A call is begun, and then run. Where its next step would add an event, `run` names the entry that is to be appended to the log. It is made
//! when it comes back at its place there: whoever drives a replica feeds it with all entries, one by one. An entry that isn't legal behind those
//! before it is left out, here as at every other rank; so entries may be repeated, late, or nobody's.
//!
//! Nothing here waits, and nothing knows where the log is kept. Two replicas that were fed with beginnings of one log have seen beginnings of one
//! history (`machines_agree`). The words and tables that a log makes stand here too (`feed`), and an entry as bytes.
#![tactic(auto)]

pub mod answers;
mod calling;
pub mod entry_bytes;
pub mod laws;
pub mod log_so_far;
mod machine;
pub mod replay;
pub mod replica;
#[cfg(test)]
mod tests;
pub mod wire;

pub use answers::{Fed, FeedFault, Lost, Ran};
pub use entry_bytes::EntryBytes;
pub use laws::machines_agree;
pub use replay::feed;
pub use replica::Replica;
pub use ulfm_numbers::numbers::among;
pub use wire::{ENTRY_BYTES, bytes_of, entry_of};
