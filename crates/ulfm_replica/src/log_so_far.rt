// The entries that a replica was fed with, which proofs alone read: there is nothing of them where a program runs.
ghost use Rattle.std.specs.Borrow.{ftrue};
ghost use Rattle.std.specs.Prelude.{◌≡◌, ◌++◌, ◌∷◌, [], ℕ, List};

use crate::entry_bytes::EntryBytes;
use std::marker::Model;

/// The bytes of entries in the log's order. It takes no memory, and its methods do nothing as a program runs.
#[derive(Drop)]
pub struct LogSoFar {
    pub ghost items: { List (List ℕ) },
}

impl Model for LogSoFar {
    ghost also_owns = { λ _. ftrue };
}

// It owns nothing.
unsafe impl Send for LogSoFar {}

impl LogSoFar {
    /// No entry.
    pub(crate) fn new() -> LogSoFar
        ensures { result.items ≡ [] }
    {
        LogSoFar {}
    }

    /// One entry more.
    pub(crate) fn and(&self, _entry: &EntryBytes) -> LogSoFar
        ensures { result.items ≡ self.now.items ++ _entry.now.bytes ∷ [] }
    {
        LogSoFar {}
    }
}
