//! Whether a reply is an answer to a caller's call, at a point.
ghost use Rattle.std.specs.Prelude.{◌≡◌, ◌&&◌, IfOk, filter, length, max, min, take};
ghost use Rattle.ulfm_model.specs.History.{has};
ghost use Rattle.ulfm_model.specs.Answers.{comm_of, refusal_of};
ghost use Rattle.ulfm_model.specs.Records.{held_at};
ghost use Rattle.ulfm_judge.specs.CallsAt.{call_at};
ghost use Rattle.ulfm_judge.specs.ReplyTests.{acked_test, barrier_start_test, by_record_test, group_test, listed_in, looked_test};
ghost use Rattle.ulfm_judge.specs.ReplyTests.{offer_test, replied_test, self_failed_test, starts_test};
ghost use Rattle.ulfm_numbers.specs.Groups.{same_ranks};
ghost use Rattle.ulfm_numbers.specs.Seen.{failed_in};
ghost use Rattle.ulfm_numbers.specs.Telling.{seen_at};

use crate::polls::{View, is_poll_reply};
use crate::replies::{
    count_known, is_acked_reply, is_barrier_start_reply, is_freed, is_group_reply, is_refused,
    is_revoke_reply, is_standing_reply, is_start_reply,
};
use std::alloc::{AllocError, Allocator};
use ulfm_laws::meld::Packed;
use ulfm_model::call::{Call, MOST_FAILURES, comm_of};
use ulfm_model::contribution::Offer;
use ulfm_model::held::{HeldComm, place_of, refusal_of};
use ulfm_model::ids::free_ids;
use ulfm_model::reads::has_rank;
use ulfm_model::refusal::Refusal;
use ulfm_model::reply::Reply;
use ulfm_numbers::groups::same_ranks;
use ulfm_numbers::numbers::Numbers;

/// Whether a call starts a request.
fn starts<P: Copy>(asked: &Call<P>) -> bool
    ensures { result ≡ starts_test asked.now }
{
    match *asked {
        Call::Agree { .. } => true,
        Call::Shrink { .. } => true,
        Call::Barrier { .. } => true,
        _ => false,
    }
}

/// Whether a reply refuses for good, by whether the rank is declared, which is looked up only where the reply is that refusal.
fn is_self_failed<P: Packed, A: Allocator + Copy + Drop>(
    view: &View<P, A>,
    rank: u16,
    asked: &Call<P>,
    reply: &Reply<P>,
) -> bool
    ensures { result ≡ self_failed_test ((seen_at view.now.numbers.now view.now.point).declared rank) view.now.own.now asked.now reply.now }
{
    is_refused(reply, Refusal::SelfFailed)
        && (view.numbers.is_declared_at(rank, view.point)
            && (!starts(asked) || view.own.is_empty()))
}

/// How many failures of a communicator there were at a point.
fn count_failed<P: Packed, A: Allocator + Copy + Drop>(
    numbers: &Numbers<P, A>,
    point: u64,
    comm: u16,
) -> usize
    ensures { result ≡ length (failed_in (seen_at numbers.now point) comm) }
{
    numbers.failed_at_point(comm, point).len()
}

/// Whether a look found all that were declared at a point.
fn found_all<P: Packed, A: Allocator + Copy + Drop>(view: &View<P, A>) -> bool
    ensures { result ≡ same_ranks (seen_at view.now.numbers.now view.now.point).failures view.now.look.now }
{
    same_ranks(view.numbers.failures_at(view.point), view.look)
}

/// How many of a communicator's members a look found declared, where these are the members that a rank knows. They aren't read where the
/// look found nobody.
fn count_found<P: Packed, A: Allocator + Copy + Drop>(
    numbers: &Numbers<P, A>,
    look: &[u16],
    comm: u16,
    group: &[u16],
) -> usize
    ensures { result ≡ length (filter (has group.now) look.now) }
{
    if look.is_empty() {
        return 0;
    }
    match numbers.known_of(look, comm, group) {
        Some(known) => known.len(),
        None => count_known(look, group),
    }
}

/// Whether a query of the failed group is answered so, which is of all that were declared then.
fn is_failed_reply<P: Packed, A: Allocator + Copy + Drop>(
    view: &View<P, A>,
    comm: u16,
    reply: &Reply<P>,
) -> bool
    ensures { let seen = seen_at view.now.numbers.now view.now.point in
        result ≡ (same_ranks seen.failures view.now.look.now && group_test (length (failed_in seen comm)) reply.now) }
{
    let all = found_all(view);
    let count = count_failed(view.numbers, view.point, comm);
    all && is_group_reply(count, reply)
}

/// Whether a query of the acknowledged failures is answered so, at a look that found all.
fn is_acked_group_reply<P: Packed, A: Allocator + Copy + Drop>(
    view: &View<P, A>,
    x: &HeldComm<A>,
    comm: u16,
    reply: &Reply<P>,
) -> bool
    ensures { let seen = seen_at view.now.numbers.now view.now.point in
        result ≡ (same_ranks seen.failures view.now.look.now && group_test (length (take x.now.acked (failed_in seen comm))) reply.now) }
{
    let all = found_all(view);
    let known = count_failed(view.numbers, view.point, comm);
    let count = usize::from(x.acked).min(known);
    all && is_group_reply(count, reply)
}

/// Whether an acknowledgement of so many failures is answered so, at a look that found all.
fn is_ack_reply<P: Packed, A: Allocator + Copy + Drop>(
    view: &View<P, A>,
    x: &HeldComm<A>,
    comm: u16,
    count: u16,
    reply: &Reply<P>,
) -> bool
    ensures { let seen = seen_at view.now.numbers.now view.now.point in let acked = max x.now.acked (min count (length (failed_in seen comm))) in
        result ≡ (same_ranks seen.failures view.now.look.now && acked_test acked reply.now) }
{
    let all = found_all(view);
    let known = count_failed(view.numbers, view.point, comm);
    let acked = usize::from(x.acked).max(usize::from(count).min(known));
    all && is_acked_reply(acked, reply)
}

/// Whether the start of an agree or of a shrink is answered so, by what the tables say of its round.
fn is_offer_reply<P: Packed, A: Allocator + Copy + Drop>(
    view: &View<P, A>,
    x: &HeldComm<A>,
    offer: Offer<P>,
    reply: &Reply<P>,
) -> bool
    ensures { result ≡ offer_test P.pack (call_at view.now) x.now offer reply.now }
{
    let rank = view.caller.number;
    let stood = view
        .numbers
        .slot_at((x.comm, x.next_agreement, rank), view.point);
    let known = count_found(view.numbers, view.look, x.comm, &x.group);
    is_start_reply(view.own, stood, known, rank, x, offer, reply)
}

/// Whether the start of a barrier is answered so, by what the tables say of its round.
fn is_arrival_reply<P: Packed, A: Allocator + Copy + Drop>(
    view: &View<P, A>,
    x: &HeldComm<A>,
    reply: &Reply<P>,
) -> bool
    ensures { let call = call_at view.now in let arrived = call.seen.arrived (x.now.comm, x.now.next_barrier, call.caller.number) in
        result ≡ barrier_start_test arrived call.own call.caller.number x.now reply.now }
{
    let rank = view.caller.number;
    let arrived = view
        .numbers
        .has_arrived_at((x.comm, x.next_barrier, rank), view.point);
    is_barrier_start_reply(arrived, view.own, rank, x, reply)
}

/// Whether a call that the record doesn't refuse is answered so.
fn is_reply_on<P: Packed, A: Allocator + Copy + Drop>(
    alloc: A,
    view: &View<P, A>,
    x: &HeldComm<A>,
    asked: &Call<P>,
    reply: &Reply<P>,
) -> Result<bool, AllocError>
    ensures { IfOk result (λ b. b ≡ replied_test P.meld P.pack (call_at view.now) x.now asked.now reply.now) }
{
    match *asked {
        Call::Fail { .. } => Ok(false),
        Call::GetFailed { comm, .. } => Ok(is_failed_reply(view, comm, reply)),
        Call::Ack { comm, count, .. } => Ok(is_ack_reply(view, x, comm, count, reply)),
        Call::FailureAck { comm, .. } => Ok(is_ack_reply(view, x, comm, MOST_FAILURES, reply)),
        Call::FailureGetAcked { comm, .. } => Ok(is_acked_group_reply(view, x, comm, reply)),
        Call::Agree { value, .. } => Ok(is_offer_reply(view, x, Offer::Flag(value), reply)),
        Call::Shrink { .. } => {
            let free = free_ids(&view.caller.held);
            Ok(is_offer_reply(view, x, Offer::Ctx(free), reply))
        }
        Call::Barrier { .. } => Ok(is_arrival_reply(view, x, reply)),
        Call::Poll { .. } => { is_poll_reply(alloc, view, x, x.request, reply) },
        Call::Revoke { comm, .. } => {
            let revoked = view.numbers.is_revoked_at(comm, view.point);
            Ok(is_revoke_reply(revoked, view.own, comm, reply))
        }
        Call::IsRevoked { comm, .. } => {
            Ok(is_standing_reply(view.numbers.is_revoked_at(comm, view.point), reply))
        }
        Call::Free { .. } => Ok(is_freed(reply)),
    }
}

/// Whether a rank's call is answered so by what its record holds and refuses.
fn is_reply_by_record<P: Packed, A: Allocator + Copy + Drop>(
    alloc: A,
    view: &View<P, A>,
    asked: &Call<P>,
    reply: &Reply<P>,
) -> Result<bool, AllocError>
    ensures { let call = call_at view.now in
        let test = by_record_test P.meld P.pack call (held_at call.caller (comm_of asked.now)) asked.now reply.now in
        IfOk result (λ b. b ≡ test (refusal_of call.caller asked.now)) }
{
    let own = view.caller;
    if let Some(refusal) = refusal_of(view.limits, own, asked) {
        return Ok(is_refused(reply, refusal));
    }
    let Some(i) = place_of(&own.held, comm_of(asked)) else {
        return Ok(false);
    };
    let x = &own.held[i];
    is_reply_on(alloc, view, x, asked, reply)
}

/// Whether a rank's call is answered so, after its look.
pub(crate) fn is_answer<P: Packed, A: Allocator + Copy + Drop>(
    alloc: A,
    view: &View<P, A>,
    asked: &Call<P>,
    reply: &Reply<P>,
) -> Result<bool, AllocError>
    ensures { IfOk result (λ b. b ≡ looked_test P.meld P.pack (call_at view.now) asked.now reply.now) }
{
    let by_record = is_reply_by_record(alloc, view, asked, reply)?;
    let rank = view.caller.number;
    Ok(is_self_failed(view, rank, asked, reply) || (!has_rank(view.look, rank) && by_record))
}

/// Whether a reply lists this group.
pub(crate) fn lists<P: Packed, A: Allocator + Copy + Drop>(
    numbers: &Numbers<P, A>,
    point: u64,
    comm: u16,
    reply: &Reply<P>,
    group: &[u16],
) -> bool
    ensures { result ≡ same_ranks group.now (listed_in (seen_at numbers.now point) comm reply.now) }
{
    match *reply {
        Reply::Shrunk { comm: made, .. } => { same_ranks(group, numbers.members_at(made, point)) }
        Reply::FailedGroup { .. } => same_ranks(group, numbers.failed_at_point(comm, point)),
        _ => same_ranks(group, &[]),
    }
}
