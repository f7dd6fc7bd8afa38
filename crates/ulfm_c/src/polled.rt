//! What a poll answered, for C.
ghost use Rattle.ulfm_c.specs.Written.{WritesPolled};

use ulfm_comm::Polled;
use ulfm_laws::FlagAnd;

/// A flag, as C has it: the 64 bits of a contribution.
pub type Flag = u64;

/// The request stays open.
pub const PENDING: u32 = 0;

/// What an agree decided: `flag`, `failed` and `raised`.
pub const AGREED: u32 = 1;

/// What a shrink made: `comm`, `context` and `size`.
pub const SHRUNK: u32 = 2;

/// All members have arrived in the barrier.
pub const DONE: u32 = 3;

/// What a poll answered. What its kind doesn't name is 0.
#[repr(C)]
#[derive(Clone, Copy)]
pub struct PolledReply {
    /// Of `AGREED`: the flags combined, bit by bit under AND.
    pub flag: Flag,
    /// `PENDING`, `AGREED`, `SHRUNK` or `DONE`.
    pub kind: u32,
    /// Of `AGREED`: the size of the failed group.
    pub failed: u16,
    /// Of `SHRUNK`: the new communicator.
    pub comm: u16,
    /// Of `SHRUNK`: its context id, 0 to 63.
    pub context: u16,
    /// Of `SHRUNK`: how many members it has.
    pub size: u16,
    /// Of `AGREED`: whether an error is raised, at all who get the reply alike.
    pub raised: bool,
}

impl PolledReply {
    pub(crate) fn of(polled: Polled<FlagAnd>) -> PolledReply
        ensures { WritesPolled polled result }
    {
        let none = PolledReply {
            flag: 0,
            kind: PENDING,
            failed: 0,
            comm: 0,
            context: 0,
            size: 0,
            raised: false,
        };
        match polled {
            Polled::Pending => none,
            Polled::Agreed {
                value,
                failed,
                raised,
            } => PolledReply {
                flag: value.bits,
                kind: AGREED,
                failed,
                raised,
                ..none
            },
            Polled::Shrunk {
                comm,
                context,
                size,
            } => PolledReply {
                kind: SHRUNK,
                comm,
                context: u16::from(context),
                size,
                ..none
            },
            Polled::Done => PolledReply { kind: DONE, ..none },
        }
    }
}
