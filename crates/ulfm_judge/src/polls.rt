//! Whether a reply is an answer to a poll.
ghost use Rattle.std.specs.Prelude.{◌≡◌, ◌<◌, ◌+◌, ◌-◌, ◌==◌, ◌&&◌, ℕ, IfOk, Some, false, filter, if◌then◌else◌, length, nat_lt, slice_get};
ghost use Rattle.std.specs.{List.{list_all}, Option.{option_map_or}};
ghost use Rattle.ulfm_model.specs.Walked.{decision_of};
ghost use Rattle.ulfm_model.specs.History.{has};
ghost use Rattle.ulfm_model.specs.declared.call.Request.{Request};
ghost use Rattle.ulfm_judge.specs.CallsAt.{call_at};
ghost use Rattle.ulfm_judge.specs.ReplyTests.{agree_test, barrier_test, clash_test, flag_test, full_test, late_test, least_test, made_test, no_ids_test};
ghost use Rattle.ulfm_judge.specs.ReplyTests.{pending_said, pending_test, polled_test, shrink_test, shrunk_test, unmade_test};
ghost use Rattle.ulfm_numbers.specs.Telling.{seen_at};

use crate::replies::{same_answer, same_refusal};
use std::alloc::{AllocError, Allocator};
use ulfm_laws::meld::Packed;
use ulfm_laws::summary::Body;
use ulfm_model::call::Request;
use ulfm_model::decide::Decided;
use ulfm_model::event::Event;
use ulfm_model::held::HeldComm;
use ulfm_model::ids::lowest_id;
use ulfm_model::limits::Limits;
use ulfm_model::reads::has_rank;
use ulfm_model::record::RankRecord;
use ulfm_model::refusal::Refusal;
use ulfm_model::reply::Reply;
use ulfm_numbers::allowed::has_ids;
use ulfm_numbers::groups::has_member;
use ulfm_numbers::numbers::{Numbers, among};

/// What a reply to a rank's call is judged by: the limits of the world, the record of the rank, whom the call's look found
/// declared, the tables at a point, and the call's own events.
#[derive(Drop)]
pub(crate) struct View<'a, P: Packed, A: Allocator> {
    /// The limits of the world.
    pub(crate) limits: Limits,
    /// What the rank keeps, before this reply.
    pub(crate) caller: &'a RankRecord<A>,
    /// Whom the call's look found declared, in the order of the failures.
    pub(crate) look: &'a [u16],
    /// The tables of all events so far.
    pub(crate) numbers: &'a Numbers<P, A>,
    /// On how many events the reply rests: the first so many.
    pub(crate) point: u64,
    /// The call's own events, in their order.
    pub(crate) own: &'a [Event<P>],
}

/// Whether a rank that the look didn't find declared is unsettled.
fn is_late<P: Packed, A: Allocator + Copy + Drop>(
    view: &View<P, A>,
    comm: u16,
    round: u16,
    rank: u16,
) -> bool
    ensures { result ≡ late_test view.now.look.now (seen_at view.now.numbers.now view.now.point) comm round rank }
{
    let slot = view.numbers.slot_at((comm, round, rank), view.point);
    slot.is_none() && !has_rank(view.look, rank)
}

/// Whether the member at a place, if there is one, is such a rank.
fn is_late_at<P: Packed, A: Allocator + Copy + Drop>(
    view: &View<P, A>,
    x: &HeldComm<A>,
    round: u16,
    place: usize,
) -> bool
    ensures { let seen = seen_at view.now.numbers.now view.now.point in
        result ≡ option_map_or (late_test view.now.look.now seen x.now.comm round) (slice_get x.now.group place) false }
{
    let group: &[u16] = &x.group;
    match group.get(place) {
        Some(rank) => is_late(view, x.comm, round, *rank),
        None => false,
    }
}

/// Whether a member that the look didn't find declared is unsettled. It is looked for first where the hint says that it may be.
fn is_pending<P: Packed, A: Allocator + Copy + Drop>(
    view: &View<P, A>,
    x: &HeldComm<A>,
    round: u16,
) -> bool
    ensures { result ≡ pending_test view.now.look.now (seen_at view.now.numbers.now view.now.point) x.now round }
{
    let (open, last) = view.numbers.hint_of(x.comm, round);
    if is_late_at(view, x, round, open) {
        return true;
    }
    let group: &[u16] = &x.group;
    if has_member(group, last) && is_late(view, x.comm, round, last) {
        return true;
    }
    group.iter().any(|rank| is_late(view, x.comm, round, *rank))
}

/// Whether a body is this flag.
fn is_flag<P: Packed>(body: &Body<P>, value: P) -> bool
    ensures { result ≡ flag_test P.pack body.now value }
{
    match *body {
        Body::Flag(flag) => flag.pack() == value.pack(),
        _ => false,
    }
}

/// Whether a body is a clash.
fn is_clash<P: Copy>(body: &Body<P>) -> bool
    ensures { result ≡ clash_test body.now }
{
    match *body {
        Body::Clash => true,
        _ => false,
    }
}

/// Whether a body is an empty set of ids.
fn has_no_ids<P: Copy>(body: &Body<P>) -> bool
    ensures { result ≡ no_ids_test body.now }
{
    match *body {
        Body::Ctx(mask) => mask.bits == 0,
        _ => false,
    }
}

/// Whether a body is a set of ids with this one as its least.
fn has_least<P: Copy>(body: &Body<P>, context: u8) -> bool
    ensures { result ≡ least_test body.now context }
{
    match *body {
        Body::Ctx(mask) => mask.bits > 0 && context == lowest_id(mask),
        _ => false,
    }
}

/// Whether the communicator of a number, counted from 1, was made of a round.
fn is_made_at(spawned: &[(u16, u16)], made: u16, comm: u16, round: u16) -> bool
    requires { 0 < made }
    ensures { result ≡ made_test (slice_get spawned.now (made - 1)) comm round }
{
    match spawned.get(usize::from(made) - 1) {
        Some(of) => of.0 == comm && of.1 == round,
        None => false,
    }
}

/// Whether the communicator of a number was made of a round.
fn was_made<P: Packed, A: Allocator + Copy + Drop>(
    numbers: &Numbers<P, A>,
    point: u64,
    made: u16,
    comm: u16,
    round: u16,
) -> bool
    ensures { result ≡ (nat_lt 0 made && made_test (slice_get (seen_at numbers.now point).spawns (made - 1)) comm round) }
{
    made > 0 && is_made_at(numbers.spawns_at(point), made, comm, round)
}

/// Whether an agree's poll is answered so, other than that it is pending.
fn is_agree_reply<P: Packed, A: Allocator>(
    decided: bool,
    made: &Decided<P, A>,
    reply: &Reply<P>,
) -> bool
    ensures { result ≡ agree_test P.pack false decided (decision_of made.now) reply.now }
{
    match *reply {
        Reply::Agreed {
            value,
            failed,
            raised,
        } => {
            decided
                && (is_flag(&made.body, value)
                    && (usize::from(failed) == made.failed.len()
                        && same_answer(raised, made.raised)))
        }
        Reply::Refused(refusal) => {
            decided && (same_refusal(refusal, Refusal::Mismatch) && is_clash(&made.body))
        }
        _ => false,
    }
}

/// Whether no room is left for what a shrink would make of this round.
fn is_full<P: Packed, A: Allocator + Copy + Drop>(
    view: &View<P, A>,
    comm: u16,
    round: u16,
    made: &Decided<P, A>,
) -> bool
    ensures { result ≡ full_test (call_at view.now) comm round (decision_of made.now) }
{
    has_ids(&made.body)
        && (!has_rank(&made.failed, view.caller.number)
            && (is_last(view.limits, view.numbers, view.point)
                && !view.numbers.is_made(view.point, comm, round)))
}

/// Whether as many communicators exist as there is room for.
fn is_last<P: Packed, A: Allocator + Copy + Drop>(
    limits: Limits,
    numbers: &Numbers<P, A>,
    point: u64,
) -> bool
    ensures { result ≡ (length (seen_at numbers.now point).spawns + 1 == limits.comms) }
{
    limits.comms > 0 && numbers.count_made_at(point) == usize::from(limits.comms) - 1
}

/// Whether a decided shrink is refused so.
fn is_unmade<P: Packed, A: Allocator + Copy + Drop>(
    view: &View<P, A>,
    comm: u16,
    round: u16,
    made: &Decided<P, A>,
    refusal: Refusal,
) -> bool
    ensures { result ≡ unmade_test (call_at view.now) comm round (decision_of made.now) refusal }
{
    (same_refusal(refusal, Refusal::NoContext) && has_no_ids(&made.body))
        || ((same_refusal(refusal, Refusal::NoRoom) && is_full(view, comm, round, made))
            || (same_refusal(refusal, Refusal::Mismatch) && is_clash(&made.body)))
}

/// A communicator that a reply names as made.
#[derive(Clone, Copy)]
pub(crate) struct Named {
    /// The number of the new communicator.
    pub comm: u16,
    /// Its context id, as the reply tells it.
    pub context: u8,
    /// How many members it has, as the reply tells it.
    pub size: u16,
}

/// Whether a decided shrink made the communicator that a reply names.
fn is_shrunk<P: Packed, A: Allocator + Copy + Drop>(
    view: &View<P, A>,
    comm: u16,
    round: u16,
    made: &Decided<P, A>,
    named: &Named,
) -> bool
    ensures { result ≡ shrunk_test (call_at view.now) comm round (decision_of made.now) named.now }
{
    let rank = view.caller.number;
    let was_made = was_made(view.numbers, view.point, named.comm, comm, round);
    let group = view.numbers.members_at(named.comm, view.point);
    has_least(&made.body, named.context)
        && (!has_rank(&made.failed, rank) && (was_made && usize::from(named.size) == group.len()))
}

/// Whether a shrink's poll is answered so, other than that it is pending.
fn is_shrink_reply<P: Packed, A: Allocator + Copy + Drop>(
    view: &View<P, A>,
    x: &HeldComm<A>,
    round: u16,
    decided: bool,
    made: &Decided<P, A>,
    reply: &Reply<P>,
) -> bool
    ensures { result ≡ shrink_test (call_at view.now) x.now.comm round false decided (decision_of made.now) reply.now }
{
    match *reply {
        Reply::Shrunk {
            comm,
            context,
            size,
        } => {
            let named = Named {
                comm,
                context,
                size,
            };
            decided && is_shrunk(view, x.comm, round, made, &named)
        }
        Reply::Refused(refusal) => decided && is_unmade(view, x.comm, round, made, refusal),
        _ => false,
    }
}

/// Whether a barrier's poll is answered so: by whether its communicator is revoked, whether all have arrived, and whether all have
/// whom the look found declared.
fn is_barrier_reply<P: Copy>(revoked: bool, all: bool, known: bool, reply: &Reply<P>) -> bool
    ensures { result ≡ barrier_test revoked all known reply.now }
{
    match *reply {
        Reply::Done => !revoked && all,
        Reply::Pending => !revoked && (!all && known),
        Reply::Refused(refusal) => {
            if revoked {
                same_refusal(refusal, Refusal::IsRevoked)
            } else {
                !all && (!known && same_refusal(refusal, Refusal::ProcFailed))
            }
        }
        _ => false,
    }
}

/// Whether all of a group had arrived in a barrier round.
fn have_arrived<P: Packed, A: Allocator + Copy + Drop>(
    group: &[u16],
    numbers: &Numbers<P, A>,
    point: u64,
    comm: u16,
    round: u16,
) -> bool
    ensures { result ≡ list_all (λ r. (seen_at numbers.now point).arrived (comm, round, r)) group.now }
{
    group
        .iter()
        .all(|rank| numbers.has_arrived_at((comm, round, *rank), point))
}

/// Whether a reply says that the request stays open.
fn says_pending<P: Copy>(reply: &Reply<P>) -> bool
    ensures { result ≡ pending_said reply.now }
{
    match *reply {
        Reply::Pending => true,
        _ => false,
    }
}

/// Whether the poll of a decided agree or shrink is answered so, or of one that isn't decided.
fn is_round_reply<P: Packed, A: Allocator + Copy + Drop>(
    view: &View<P, A>,
    x: &HeldComm<A>,
    round: u16,
    shrinks: bool,
    decided: bool,
    made: &Decided<P, A>,
    reply: &Reply<P>,
) -> bool
    ensures { result ≡ (if shrinks then shrink_test (call_at view.now) x.now.comm round false decided (decision_of made.now) reply.now
        else agree_test P.pack false decided (decision_of made.now) reply.now) }
{
    if shrinks {
        is_shrink_reply(view, x, round, decided, made, reply)
    } else {
        is_agree_reply(decided, made, reply)
    }
}

/// Whether the poll of an agree or a shrink is answered so; what the round decides is looked up only where the reply says that it did.
fn is_round_poll<P: Packed, A: Allocator + Copy + Drop>(
    alloc: A,
    view: &View<P, A>,
    x: &HeldComm<A>,
    round: u16,
    shrinks: bool,
    reply: &Reply<P>,
) -> Result<bool, AllocError>
    ensures { let request = if shrinks then Request.Shrink round else Request.Agree round in
        IfOk result (λ b. b ≡ polled_test P.meld P.pack (call_at view.now) x.now (Some request) reply.now) }
{
    if says_pending(reply) {
        return Ok(is_pending(view, x, round));
    }
    if let Some(made) = view.numbers.decided_at(x.comm, round, view.point) {
        return Ok(is_round_reply(view, x, round, shrinks, true, made, reply));
    }
    let decided = view.numbers.is_decided(view.point, x.comm, round);
    let made = view.numbers.decision(alloc, view.point, x.comm, round)?;
    Ok(is_round_reply(view, x, round, shrinks, decided, &made, reply))
}

/// Whom of a communicator's members a look found declared, where these are the members that a rank knows.
fn found_among<P: Packed, A: Allocator + Copy + Drop>(
    alloc: A,
    numbers: &Numbers<P, A>,
    look: &[u16],
    comm: u16,
    group: &[u16],
) -> Result<Vec<u16, A>, AllocError>
    ensures { IfOk result (λ found. found.items ≡ filter (has group.now) look.now) }
{
    match numbers.known_of(look, comm, group) {
        Some(known) => known.iter().copied().collect(alloc),
        None => among(alloc, look, group),
    }
}

/// Whether the poll of a barrier is answered so.
fn is_barrier_poll<P: Packed, A: Allocator + Copy + Drop>(
    alloc: A,
    view: &View<P, A>,
    x: &HeldComm<A>,
    round: u16,
    reply: &Reply<P>,
) -> Result<bool, AllocError>
    ensures { let seen = seen_at view.now.numbers.now view.now.point in let has_come = λ (r : ℕ). seen.arrived (x.now.comm, round, r) in
        let all = list_all has_come x.now.group in let known = list_all has_come (filter (has x.now.group) view.now.look.now) in
        IfOk result (λ b. b ≡ barrier_test (seen.revoked x.now.comm) all known reply.now) }
{
    let revoked = view.numbers.is_revoked_at(x.comm, view.point);
    let all = have_arrived(&x.group, view.numbers, view.point, x.comm, round);
    let found = found_among(alloc, view.numbers, view.look, x.comm, &x.group)?;
    let known = have_arrived(&found, view.numbers, view.point, x.comm, round);
    Ok(is_barrier_reply(revoked, all, known, reply))
}

/// Whether the poll of an open request is answered so.
pub(crate) fn is_poll_reply<P: Packed, A: Allocator + Copy + Drop>(
    alloc: A,
    view: &View<P, A>,
    x: &HeldComm<A>,
    request: Option<Request>,
    reply: &Reply<P>,
) -> Result<bool, AllocError>
    ensures { IfOk result (λ b. b ≡ polled_test P.meld P.pack (call_at view.now) x.now request reply.now) }
{
    match request {
        None => Ok(false),
        Some(Request::Agree { round }) => { is_round_poll(alloc, view, x, round, false, reply) }
        Some(Request::Shrink { round }) => { is_round_poll(alloc, view, x, round, true, reply) }
        Some(Request::Barrier { round }) => { is_barrier_poll(alloc, view, x, round, reply) }
    }
}
