//! The calls of a log, each with its reply, its round and what its rank had acknowledged.
use ulfm_model::{Caller, Refusal};
use ulfm_observed::Seen;

/// What a request is started for.
#[derive(Clone, Copy, PartialEq, Eq)]
pub enum Start {
    /// An agree.
    Agree,
    /// A shrink.
    Shrink,
    /// A barrier.
    Barrier,
}

/// What is called.
#[derive(Clone, Copy, PartialEq, Eq)]
pub enum Kind {
    /// The outside declares a rank failed.
    Fail,
    /// A rank asks for the failed members of a communicator, or for those that it acknowledged.
    Get,
    /// A rank acknowledges failures.
    Ack,
    /// A rank starts a request of this sort.
    Start(Start),
    /// A rank polls what it began on a communicator.
    Poll,
    /// A rank revokes a communicator.
    Revoke,
    /// A rank asks whether a communicator is revoked.
    IsRevoked,
    /// A rank lets a communicator go.
    Free,
}

/// How a call stands to its rank's record.
#[derive(Clone, Copy, PartialEq, Eq)]
pub enum Standing {
    /// It has no reply in the log.
    Open,
    /// It was refused by the record alone.
    Refused,
    /// It was refused as one of a declared rank, for the first time.
    Dead,
    /// It was refused so, and not for the first time, or its rank is none of the world's: there is no look.
    Unseen,
    /// It has another reply, which the record allows.
    Answered,
}

/// A call, with its reply.
#[derive(Clone, Copy)]
pub struct Act {
    /// Whose call it is; the outside's where `kind` is `Fail`, and then the rank that it is to declare.
    pub rank: u16,
    /// What is called.
    pub kind: Kind,
    /// The number of the communicator on which it is called; 0 where `kind` is `Fail`.
    pub comm: u16,
    /// The flag of an agree, or the most failures that an acknowledgement may count; else 0.
    pub number: u64,
    /// The line of the call: its place in the log, from 0.
    pub call: u32,
    /// The line of its reply: its place in the log, from 0; `NONE` where it has none.
    pub reply: u32,
    /// The round of a start, or of what is polled: its place among the rounds of its sort; else `NONE`.
    pub round: u32,
    /// What is polled: the start's place among the calls, its own where it was answered by its poll's reply; else `NONE`.
    pub start: u32,
    /// How many failures its rank had acknowledged on the communicator.
    pub acked: u16,
    /// How it stands to its rank's record.
    pub standing: Standing,
    /// What the log tells of its reply, where it has one.
    pub seen: Option<Seen>,
    /// Whether a start was answered by its poll's reply.
    pub blocking: bool,
}

impl Act {
    /// Whether it starts a request.
    pub fn starts(&self) -> bool {
        match self.kind {
            Kind::Start(_) => true,
            _ => false,
        }
    }

    /// Whether it is of a rank and not of the outside.
    pub fn is_ranks(&self) -> bool {
        match self.kind {
            Kind::Fail => false,
            _ => true,
        }
    }

    /// Who calls it.
    pub fn caller(&self) -> Caller {
        if self.is_ranks() {
            Caller::Rank(self.rank)
        } else {
            Caller::Outside
        }
    }

    /// Whether this is what it calls.
    pub fn is(&self, kind: Kind) -> bool {
        self.kind == kind
    }

    /// Whether it starts a request of this sort.
    pub fn begins(&self, start: Start) -> bool {
        self.kind == Kind::Start(start)
    }

    /// Whether it was refused so.
    pub fn refused(&self, refusal: Refusal) -> bool {
        match self.seen {
            Some(Seen::Whole(ulfm_model::Reply::Refused(told))) => told == refusal,
            _ => false,
        }
    }
}
