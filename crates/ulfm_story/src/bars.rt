//! Calls, each from the row of its line to that of its reply.
ghost use Rattle.std.specs.Prelude.{◌≡◌};
ghost use Rattle.ulfm_story.specs.Bars.{is_of_round, tone_of};

use ulfm_laws::FlagAnd;
use ulfm_model::{Refusal, Reply};

/// What a call came to.
#[derive(Clone, Copy, Debug, PartialEq, Eq)]
pub enum Tone {
    /// A request was opened.
    Started,
    /// The request stays open.
    Pending,
    /// It was answered.
    Answered,
    /// It was answered, and an error is raised.
    Raised,
    /// It was refused.
    Refused,
    /// It has no reply.
    Open,
}

/// A call, drawn as a bar.
#[derive(Clone, Copy, Debug, PartialEq, Eq)]
pub struct Bar {
    /// The lane of its caller.
    pub lane: u16,
    /// The row of the call.
    pub first: u16,
    /// The row of its reply, or the last row.
    pub last: u16,
    /// What it came to.
    pub tone: Tone,
    /// The row above the first event that the reply doesn't rest on, where it doesn't rest on all up to it.
    pub early: Option<u16>,
}

/// What a reply says of its call.
pub fn tone_of(reply: &Reply<FlagAnd>) -> Tone
    ensures { result ≡ tone_of reply.now }
{
    match *reply {
        Reply::Started => Tone::Started,
        Reply::Pending => Tone::Pending,
        Reply::Agreed { raised, .. } => { if raised { Tone::Raised } else { Tone::Answered } }
        Reply::Refused(_) => Tone::Refused,
        _ => Tone::Answered,
    }
}

/// Whether a reply is what a round decided for all. That a rank had no memory for its part is no decision.
pub fn is_of_round(reply: &Reply<FlagAnd>) -> bool
    ensures { result ≡ is_of_round reply.now }
{
    matches!(
        reply,
        Reply::Agreed { .. }
            | Reply::Shrunk { .. }
            | Reply::Refused(Refusal::Mismatch)
            | Reply::Refused(Refusal::NoContext)
            | Reply::Refused(Refusal::NoRoom)
    )
}
