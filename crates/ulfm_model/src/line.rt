// The lines of a trace, typed.
ghost use Rattle.std.specs.Prelude.{◌≡◌, Ok};

use crate::call::Call;
use crate::event::{Caller, Event};
use crate::reply::Reply;
use std::alloc::AllocError;

/// A line behind the header. The ranks that a reply lists stand beside it.
#[derive(Copy)]
pub enum Line<P> {
    /// A call begins.
    Called {
        call: Call<P>,
        /// Whether its flag is spelled with all digits though the upper half is 0, and would be printed without.
        padded: bool,
    },
    /// The look of a rank's call has ended, and found so many failures.
    Looked {
        /// The caller.
        rank: u16,
        /// How many failures it found, those that earlier looks had found among them.
        failures: u16,
    },
    /// An event in its caller's name; none where no contribution and no mark has the counts that are told.
    Happened {
        /// In whose name it came.
        by: Caller,
        /// What happened.
        event: Option<Event<P>>,
    },
    /// The reply to a caller's call, which rests on the first `point` events; none where no communicator has the context id that is told.
    Replied {
        /// Who made the call.
        by: Caller,
        /// How many events the reply rests on.
        point: u32,
        /// What the call is answered.
        reply: Option<Reply<P>>,
    },
}

impl<P: Copy> Clone for Line<P> {
    fn clone(&self) -> Result<Self, AllocError>
        ensures { result ≡ Ok self.now }
    {
        Ok(*self)
    }
}

/// Why a line may not come, in the order of testing.
#[derive(Clone, Copy, Debug, PartialEq, Eq)]
pub enum Why {
    /// It isn't of the grammar.
    Text,
    /// A call by a caller that has one open, a look or a reply by one that has none.
    Call,
    /// A second look in a call, one that is not due, or one that found another number of failures than there are.
    Look,
    /// The event may not come next.
    Event,
    /// The event isn't one that its caller may add in its call.
    Own,
    /// The point is not within the call, no look was made though one is due, or it is no answer.
    Reply,
}
