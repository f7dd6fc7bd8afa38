// What one entry of a history says, question by question.
ghost use Rattle.std.specs.Prelude.{◌≡◌};
ghost use Rattle.ulfm_model.specs.Terms.{put_at};
ghost use Rattle.ulfm_model.specs.History.{says};

use crate::contribution::Slot;
use crate::event::{Entry, Event};

/// Whom it declares failed.
pub(crate) fn declared<P: Copy>(entry: &Entry<P>) -> Option<u16>
    ensures { result ≡ (says entry.now.event).declares }
{
    match entry.event {
        Event::Fail { rank } => Some(rank),
        _ => None,
    }
}

/// What it puts at a rank's place in an agreement round of a communicator.
pub(crate) fn put<P: Copy>(entry: &Entry<P>, comm: u16, round: u16, rank: u16) -> Option<Slot<P>>
    ensures { result ≡ put_at (comm, round, rank) (says entry.now.event).settles }
{
    match entry.event {
        Event::Settle {
            comm: c,
            round: k,
            rank: r,
            given,
        } if c == comm && k == round && r == rank => Some(Slot::Given(given)),
        Event::Mark {
            comm: c,
            round: k,
            rank: r,
            known,
        } if c == comm && k == round && r == rank => Some(Slot::Mark(known)),
        _ => None,
    }
}

/// Who arrives, and where: the communicator, the barrier round and the rank.
pub(crate) fn arrival<P: Copy>(entry: &Entry<P>) -> Option<(u16, u16, u16)>
    ensures { result ≡ (says entry.now.event).arrives }
{
    match entry.event {
        Event::Arrive { comm, round, rank } => Some((comm, round, rank)),
        _ => None,
    }
}

/// The communicator that it revokes.
pub(crate) fn revoked<P: Copy>(entry: &Entry<P>) -> Option<u16>
    ensures { result ≡ (says entry.now.event).revokes }
{
    match entry.event {
        Event::Revoke { comm } => Some(comm),
        _ => None,
    }
}

/// The parent and the round that it makes a communicator of.
pub(crate) fn made<P: Copy>(entry: &Entry<P>) -> Option<(u16, u16)>
    ensures { result ≡ (says entry.now.event).makes }
{
    match entry.event {
        Event::Spawn { parent, round, .. } => Some((parent, round)),
        _ => None,
    }
}
