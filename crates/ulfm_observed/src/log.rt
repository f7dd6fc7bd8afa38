//! The lines of a log of calls and replies.
use std::alloc::Allocator;
use ulfm_laws::FlagAnd;
use ulfm_model::{Call, Caller, Limits, Reply};

/// What the order of a log's lines tells.
#[derive(Clone, Copy, Debug, PartialEq, Eq)]
pub enum Order {
    /// Time: a call is logged before it begins, a reply after its call ended, and the lines of all callers stand as
    /// they were logged.
    Time,
    /// The lines of one caller stand as they were logged; nothing is said of those of different callers.
    Ranks,
}

/// When a rank may have been declared failed.
#[derive(Clone, Copy, Debug, PartialEq, Eq)]
pub enum Failures {
    /// At any time; no line has to tell it.
    Any,
    /// Only within a call of `fail` for it, which is logged.
    Logged,
}

/// What a log tells of a reply. What wasn't logged is none.
#[derive(Clone, Copy, Debug, PartialEq, Eq)]
pub enum Seen {
    /// What an agree decided: the flags combined, the size of the failed group, and whether an error is raised.
    Agreed {
        value: Option<FlagAnd>,
        failed: Option<u16>,
        raised: bool,
    },
    /// What a shrink made: the new communicator, and its context id, 0 to 63. Its members stand beside.
    Shrunk {
        comm: u16,
        context: Option<u8>,
    },
    /// Any other reply, all of which was logged.
    Whole(Reply<FlagAnd>),
}

/// What a line of a log tells, behind the header.
#[derive(Clone, Copy, Debug, PartialEq, Eq)]
pub enum Item {
    /// A call begins.
    Called {
        call: Call<FlagAnd>,
        /// Whether its flag is spelled with all digits though the upper half is 0.
        padded: bool,
    },
    /// The reply to a caller's call, or to the poll that ends the call of a start.
    Replied {
        by: Caller,
        seen: Seen,
    },
    /// The end of this rank's lines was lost: it may have made any calls behind its last line.
    Lost {
        rank: u16,
    },
}

/// A line of a log, with the ranks that it lists where it is a reply: a failed group, or the members of a new
/// communicator.
#[derive(Drop)]
pub struct LogLine<A: Allocator> {
    /// What it tells.
    pub item: Item,
    /// The ranks that it lists, in order.
    pub group: Vec<u16, A>,
}

/// A log.
#[derive(Drop)]
pub struct Log<A: Allocator> {
    /// How large its world is.
    pub limits: Limits,
    /// What the order of its lines tells.
    pub order: Order,
    /// When ranks may have been declared failed.
    pub failures: Failures,
    /// Its lines behind the header: the first is line 2 of the text.
    pub lines: Vec<LogLine<A>, A>,
}
