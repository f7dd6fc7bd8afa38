//! An entry of a log, as it is stored.

use crate::ENTRY_BYTES;

/// An entry of a world's log, as it is stored: its kind, its caller, its numbers and its payload, in 24 bytes. `ulfm_replica::wire` has the layout.
#[repr(C)]
#[derive(Clone, Copy)]
pub struct EntryBytes {
    /// The bytes, in their order.
    pub bytes: [u8; ENTRY_BYTES],
}
