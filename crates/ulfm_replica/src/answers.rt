// What a replica answers to whoever drives it.
ghost use Rattle.std.specs.Prelude.{◌≡◌};

use ulfm_model::event::Entry;
use ulfm_model::reply::Reply;

/// What an entry of the log did.
#[derive(Clone, Copy, Debug, PartialEq, Eq)]
pub enum Fed {
    /// It isn't legal behind those before it, or it is nobody's entry: it is left out, here as everywhere.
    LeftOut,
    /// It was taken. It isn't what this rank's call wants.
    Taken,
    /// It is the entry that this rank's call wanted: the call has made its step.
    Own,
}

/// Memory was refused: the replica serves for nothing more.
#[derive(Clone, Copy, Debug, PartialEq, Eq, thiserror::Error)]
#[error("memory was refused: the replica is lost")]
pub struct Lost;

/// Why an entry wasn't fed.
#[derive(Clone, Copy, Debug, PartialEq, Eq, thiserror::Error)]
pub enum FeedFault {
    /// It isn't the next entry of the log. The replica is as it was.
    #[error("this isn't the next entry of the log")]
    Gap,
    /// Memory was refused, now or before: the replica serves for nothing more.
    #[error("memory was refused: the replica is lost")]
    Lost,
}

/// What came of running on.
pub enum Ran<P> {
    /// No call is under way.
    Idle,
    /// The call goes on once this entry has come back: append it to the log.
    Wants(Entry<P>),
    /// The call is answered, and over.
    Answered(Reply<P>),
}
