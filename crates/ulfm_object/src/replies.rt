// What a call is replied.
ghost use Rattle.std.specs.Prelude.{◌≡◌, ◌<◌, ◌≤◌, ◌==◌, ◌&&◌, IfOk, List, Some, if◌then◌else◌, length};
ghost use Rattle.std.specs.List.{list_all, position_from};
ghost use Rattle.ulfm_model.specs.Computed.{agree_reply, poll_reply, replied, shrink_reply, shrunk_reply, start_reply};
ghost use Rattle.ulfm_model.specs.Answers.{barrier_reply};
ghost use Rattle.ulfm_model.specs.History.{decision, failed, failures, has_arrived, is_decided, spawns};
ghost use Rattle.ulfm_model.specs.Walked.{decision_of};
ghost use Rattle.ulfm_object.specs.Objects.{IsFew, view_after};
ghost use Rattle.ulfm_model.specs.Kept.{record_of};
ghost use Rattle.ulfm_model.specs.declared.event.Event.{Event};
ghost use Rattle.ulfm_model.specs.declared.reply.Reply.TheVariants.{Pending};

use crate::asked::{Asked, Round};
use std::alloc::{AllocError, Allocator};
use ulfm_laws::meld::Meld;
use ulfm_laws::summary::{Body, CtxMask};
use ulfm_model::call::{Call, MOST_FAILURES, Request};
use ulfm_model::contribution::Slot;
use ulfm_model::decide::Decided;
use ulfm_model::event::Entry;
use ulfm_model::groups::{failed, failed_among, members};
use ulfm_model::held::HeldComm;
use ulfm_model::ids::lowest_id;
use ulfm_model::reads::{has_arrived, has_rank, is_revoked, place_made, slot};
use ulfm_model::refusal::Refusal;
use ulfm_model::reply::Reply;

/// The reply to a start, by what stood at the rank's place before.
fn start_reply<P: Copy>(stood: Option<Slot<P>>) -> Reply<P>
    ensures { result ≡ start_reply stood }
{
    match stood {
        None => Reply::Started,
        Some(Slot::Mark(_)) => Reply::Refused(Refusal::SelfFailed),
        Some(Slot::Given(_)) => Reply::Refused(Refusal::Twice),
    }
}

/// The reply of a decided agree.
fn agree_reply<P: Meld, A: Allocator>(made: &Decided<P, A>) -> Reply<P>
    requires { length made.now.failed.items ≤ 1024 }
    ensures { result ≡ agree_reply (decision_of made.now) made.now.body }
{
    match made.body {
        Body::Flag(value) => Reply::Agreed {
            value,
            failed: made.failed.len() as u16,
            raised: made.raised,
        },
        _ => Reply::Refused(Refusal::Mismatch),
    }
}

/// The reply of a shrink's poll that found these ids free, and its rank not left out.
fn shrunk_reply<P: Copy, A: Allocator + Copy + Drop>(
    round: &Round<P, A>,
    mask: CtxMask,
) -> Result<Reply<P>, AllocError>
    requires few { IsFew round.now.history.now }
    requires ids { 0 < mask.bits }
    ensures { let place = position_from (λ of. (of.0 == round.now.comm) && (of.1 == round.now.number)) 0 (spawns round.now.history.now) in
        IfOk result (λ reply. reply ≡ shrunk_reply round.now.limits.ranks round.now.history.now mask.bits place) }
{
    let Some(place) = place_made(round.history, round.comm, round.number) else {
        return Ok(Reply::Refused(Refusal::NoRoom));
    };
    let made = place as u16 + 1;
    let group = members(round.alloc, round.limits.ranks, round.history, made)?;
    Ok(Reply::Shrunk {
        comm: made,
        context: lowest_id(mask),
        size: group.len() as u16,
    })
}

/// The reply of a decided shrink.
fn shrink_reply<P: Meld, A: Allocator + Copy + Drop>(
    round: &Round<P, A>,
    rank: u16,
    made: &Decided<P, A>,
) -> Result<Reply<P>, AllocError>
    requires { IsFew round.now.history.now }
    ensures { let decided = decision_of made.now in
        IfOk result (λ reply. reply
        ≡ shrink_reply round.now.limits.ranks round.now.history.now rank round.now.comm round.now.number decided made.now.body) }
{
    match made.body {
        Body::Ctx(mask) if mask.bits == 0 => Ok(Reply::Refused(Refusal::NoContext)),
        Body::Ctx(_) if has_rank(&made.failed, rank) => Ok(Reply::Refused(Refusal::SelfFailed)),
        Body::Ctx(mask) => shrunk_reply(round, mask),
        _ => Ok(Reply::Refused(Refusal::Mismatch)),
    }
}

/// Whether all of a group have arrived in a barrier round.
fn have_arrived<P: Copy>(group: &[u16], history: &[Entry<P>], comm: u16, round: u16) -> bool
    ensures { result ≡ list_all (has_arrived history.now comm round) group.now }
{
    group
        .iter()
        .all(|rank| has_arrived(history, comm, round, *rank))
}

/// The reply of an agree's poll, by the history after its marks.
fn agree_poll<P: Meld, A: Allocator + Copy + Drop>(
    round: &Round<P, A>,
) -> Result<Reply<P>, AllocError>
    requires { IsFew round.now.history.now }
    ensures { let made = decision P.meld round.now.limits.ranks round.now.history.now round.now.comm round.now.number in
        let decided = is_decided round.now.limits.ranks round.now.history.now round.now.comm round.now.number in
        IfOk result (λ reply. reply ≡ (if decided then agree_reply made made.body else Pending)) }
{
    if !round.is_decided()? {
        return Ok(Reply::Pending);
    }
    Ok(agree_reply(&round.decision()?))
}

/// The reply of a shrink's poll, by the history after its marks and its spawn.
fn shrink_poll<P: Meld, A: Allocator + Copy + Drop>(
    round: &Round<P, A>,
    rank: u16,
) -> Result<Reply<P>, AllocError>
    requires { IsFew round.now.history.now }
    ensures { let made = decision P.meld round.now.limits.ranks round.now.history.now round.now.comm round.now.number in
        let decided = is_decided round.now.limits.ranks round.now.history.now round.now.comm round.now.number in
        let reply_of = shrink_reply round.now.limits.ranks round.now.history.now rank round.now.comm round.now.number made in
        IfOk result (λ reply. reply ≡ (if decided then reply_of made.body else Pending)) }
{
    if !round.is_decided()? {
        return Ok(Reply::Pending);
    }
    shrink_reply(round, rank, &round.decision()?)
}

/// The poll of a communicator that the record doesn't refuse, with what it added.
#[derive(Drop)]
struct Polling<'a, P: Meld, A: Allocator> {
    /// The poll, and the history before it.
    asked: &'a Asked<'a, P, A>,
    /// The history with what the poll added.
    after: &'a [Entry<P>],
    /// What the rank holds of the communicator.
    x: &'a HeldComm<A>,
}

impl<'a, P: Meld, A: Allocator + Copy + Drop> Polling<'a, P, A> {
    /// The reply for a barrier in this round; its look is at the history before.
    fn barrier_reply(&self, round: u16) -> Result<Reply<P>, AllocError>
        ensures { (events : List (Event P)) → let view = view_after self.now.asked.now.history.now self.now.after.now events in
            IfOk result (λ reply. reply ≡ barrier_reply view self.now.x.now round) }
    {
        let after = self.after;
        let x = self.x;
        if is_revoked(after, x.comm) {
            return Ok(Reply::Refused(Refusal::IsRevoked));
        }
        if have_arrived(&x.group, after, x.comm, round) {
            return Ok(Reply::Done);
        }
        let failed = failed_among(self.asked.alloc, &x.group, self.asked.history)?;
        if !have_arrived(&failed, after, x.comm, round) {
            return Ok(Reply::Refused(Refusal::ProcFailed));
        }
        Ok(Reply::Pending)
    }

    /// The reply, by the request that is open.
    fn reply(&self) -> Result<Reply<P>, AllocError>
        requires { IsFew self.now.after.now }
        ensures { (events : List (Event P)) → let view = view_after self.now.asked.now.history.now self.now.after.now events in
            IfOk result (λ reply. reply
            ≡ poll_reply P.meld self.now.asked.now.limits view self.now.asked.now.own.now.number self.now.x.now self.now.x.now.request) }
    {
        let x = self.x;
        let Some(request) = x.request else {
            return Ok(Reply::Pending);
        };
        let asked = self.asked;
        let after = self.after;
        match request {
            Request::Agree { round } => agree_poll(&asked.round(after, x, round)),
            Request::Shrink { round } => shrink_poll(
                &asked.round(after, x, round),
                asked.own.number,
            ),
            Request::Barrier { round } => self.barrier_reply(round),
        }
    }
}

/// How many failures of a communicator there are.
fn count_of<P: Copy, A: Allocator + Copy + Drop>(
    alloc: A,
    ranks: u16,
    history: &[Entry<P>],
    comm: u16,
) -> Result<u16, AllocError>
    requires { IsFew history.now }
    ensures { IfOk result (λ count. count ≡ length (failed ranks history.now comm)) }
{
    let failed = failed(alloc, ranks, history, comm)?;
    Ok(failed.len() as u16)
}

/// The reply of a call that the record doesn't refuse, by the history before it and the history with what it added.
pub(crate) fn replied<P: Meld, A: Allocator + Copy + Drop>(
    asked: &Asked<P, A>,
    after: &[Entry<P>],
    x: &HeldComm<A>,
) -> Result<Reply<P>, AllocError>
    requires { IsFew after.now }
    ensures { (events : List (Event P)) → let view = view_after asked.now.history.now after.now events in
        let own = record_of asked.now.limits asked.now.own.now in
        IfOk result (λ reply. reply ≡ replied P.meld asked.now.limits asked.now.history.now view own x.now asked.now.call.now) }
{
    let alloc = asked.alloc;
    let ranks = asked.limits.ranks;
    let before = asked.history;
    let rank = asked.own.number;
    match *asked.call {
        Call::Fail { .. } => Ok(Reply::Refused(Refusal::NoSuchRank)),
        Call::GetFailed { comm, .. } => Ok(Reply::FailedGroup {
            count: count_of(alloc, ranks, after, comm)?,
        }),
        Call::Ack { comm, count, .. } => {
            let known = count_of(alloc, ranks, after, comm)?;
            Ok(Reply::Acked {
                count: x.acked.max(count.min(known)),
            })
        }
        Call::FailureGetAcked { comm, .. } => Ok(Reply::FailedGroup {
            count: count_of(alloc, ranks, after, comm)?.min(x.acked),
        }),
        Call::FailureAck { comm, .. } => {
            let known = count_of(alloc, ranks, after, comm)?;
            Ok(Reply::Acked {
                count: x.acked.max(MOST_FAILURES.min(known)),
            })
        }
        Call::Agree { .. } | Call::Shrink { .. } => {
            Ok(start_reply(slot(before, x.comm, x.next_agreement, rank)))
        }
        Call::Barrier { .. } if has_arrived(before, x.comm, x.next_barrier, rank) => {
            Ok(Reply::Refused(Refusal::Twice))
        }
        Call::Barrier { .. } => Ok(Reply::Started),
        Call::Poll { .. } => Polling { asked, after, x }.reply(),
        Call::Revoke { comm, .. } if is_revoked(before, comm) => Ok(Reply::AlreadyRevoked),
        Call::Revoke { .. } => Ok(Reply::Revoked),
        Call::IsRevoked { comm, .. } => Ok(Reply::Standing {
            revoked: is_revoked(after, comm),
        }),
        Call::Free { .. } => Ok(Reply::Freed),
    }
}
