//! Which replies are answers to a call.
use crate::tests::holder::{Held, Holder};
use crate::tests::past::{
    Comm, Outcome, comm_at, decided, failures, has_arrived, is_revoked, made_of, slot_at, those,
};
use std::alloc::{AllocError, Allocator};
use ulfm_laws::FlagAnd;
use ulfm_laws::summary::Body;
use ulfm_model::{Call, Entry, Event, Limits, Offer, Refusal, Reply, Request, Slot};

/// A call, with what its reply rests on.
#[derive(Drop)]
pub(crate) struct Asking<'a, A: Allocator> {
    /// For the lists that an answer is compared with.
    pub(crate) alloc: A,
    /// The world's limits.
    pub(crate) limits: Limits,
    /// The history up to the reply's point.
    pub(crate) past: &'a [Entry<FlagAnd>],
    /// The call.
    pub(crate) asked: Call<FlagAnd>,
    /// The failures that its look found.
    pub(crate) seen: &'a [u16],
    /// The events that it added itself.
    pub(crate) own: &'a [Event<FlagAnd>],
}

/// Whether a reply is an answer to a declaration.
pub(crate) fn is_fail_answer<A: Allocator + Copy>(
    asking: &Asking<'_, A>,
    reply: Reply<FlagAnd>,
) -> Result<bool, AllocError> {
    let Call::Fail { rank } = asking.asked else {
        return Ok(false);
    };
    let declared = failures(asking.alloc, asking.past)?.contains(&rank);
    match reply {
        Reply::Declared => Ok(declared && !asking.own.is_empty()),
        Reply::AlreadyFailed => Ok(declared && asking.own.is_empty()),
        Reply::Refused(Refusal::NoSuchRank) => Ok(rank >= asking.limits.ranks),
        _ => Ok(false),
    }
}

/// Whether a reply is an answer to a call of a rank of the world, and lists what it is about.
pub(crate) fn is_answer<A: Allocator + Copy>(
    asking: &Asking<'_, A>,
    holder: &Holder<A>,
    rank: u16,
    looked: bool,
    reply: Reply<FlagAnd>,
    group: &[u16],
) -> Result<bool, AllocError> {
    let is_self = reply == Reply::Refused(Refusal::SelfFailed);
    if holder.refused {
        return Ok(is_self);
    }
    if !looked {
        return Ok(false);
    }
    if is_self {
        let starts = matches!(
            asking.asked,
            Call::Agree { .. } | Call::Shrink { .. } | Call::Barrier { .. }
        );
        let declared = failures(asking.alloc, asking.past)?.contains(&rank);
        return Ok(declared && (!starts || asking.own.is_empty()));
    }
    if asking.seen.contains(&rank) {
        return Ok(false);
    }
    if let Some(refusal) = holder.refusal(asking.limits, &asking.asked) {
        return Ok(reply == Reply::Refused(refusal));
    }
    is_unrefused(asking, holder, rank, reply, group)
}

/// The same of a call that nothing refuses.
fn is_unrefused<A: Allocator + Copy>(
    asking: &Asking<'_, A>,
    holder: &Holder<A>,
    rank: u16,
    reply: Reply<FlagAnd>,
    group: &[u16],
) -> Result<bool, AllocError> {
    match asking.asked {
        Call::Agree { comm, value, .. } => {
            is_started(asking, holder, comm, rank, Offer::Flag(value), reply)
        }
        Call::Shrink { comm, .. } => {
            let offer = Offer::Ctx(holder.free_ids());
            is_started(asking, holder, comm, rank, offer, reply)
        }
        Call::Barrier { comm, .. } => Ok(is_arrived(asking, holder, (comm, rank), reply)),
        Call::Poll { comm, .. } => match holder.at(comm) {
            None => Ok(false),
            Some(held) => is_polled(asking, held, rank, reply, group),
        },
        _ => is_told(asking, holder, reply, group),
    }
}

/// The start of an agree or a shrink. Its wing may have been set at any time, which no line tells.
fn is_started<A: Allocator + Copy>(
    asking: &Asking<'_, A>,
    holder: &Holder<A>,
    comm: u16,
    rank: u16,
    offer: Offer<FlagAnd>,
    reply: Reply<FlagAnd>,
) -> Result<bool, AllocError> {
    let Some(held) = holder.at(comm) else {
        return Ok(false);
    };
    if reply == Reply::Refused(Refusal::Twice) {
        return Ok(asking.own.is_empty());
    }
    let Some(Slot::Given(given)) = slot_at(asking.past, (comm, held.next_agreement, rank)) else {
        return Ok(false);
    };
    let of = comm_at(asking.alloc, asking.limits.ranks, asking.past, comm)?;
    let known = those(asking.alloc, asking.seen, &of.members, true)?;
    match reply {
        Reply::Started => {
            let body = given.offer == offer;
            let counts = usize::from(given.known.count) == known.len();
            Ok(!asking.own.is_empty() && body && counts && given.acked.count == held.acked)
        }
        _ => Ok(false),
    }
}

/// The start of a barrier, on a communicator by a rank.
fn is_arrived<A: Allocator + Copy>(
    asking: &Asking<'_, A>,
    holder: &Holder<A>,
    by: (u16, u16),
    reply: Reply<FlagAnd>,
) -> bool {
    let (comm, rank) = by;
    let Some(held) = holder.at(comm) else {
        return false;
    };
    if !has_arrived(asking.past, (comm, held.next_barrier, rank)) {
        return false;
    }
    match reply {
        Reply::Started => !asking.own.is_empty(),
        Reply::Refused(Refusal::Twice) => asking.own.is_empty(),
        _ => false,
    }
}

/// The other calls.
fn is_told<A: Allocator + Copy>(
    asking: &Asking<'_, A>,
    holder: &Holder<A>,
    reply: Reply<FlagAnd>,
    group: &[u16],
) -> Result<bool, AllocError> {
    let at_look = failures(asking.alloc, asking.past)?.len() == asking.seen.len();
    let ranks = asking.limits.ranks;
    match (asking.asked, reply) {
        (Call::GetFailed { comm, .. }, Reply::FailedGroup { .. }) => {
            let of = comm_at(asking.alloc, ranks, asking.past, comm)?;
            Ok(at_look && of.failed.as_slice() == group)
        }
        (Call::Ack { comm, count, .. }, Reply::Acked { count: acked }) => {
            let of = comm_at(asking.alloc, ranks, asking.past, comm)?;
            let Some(held) = holder.at(comm) else {
                return Ok(false);
            };
            let now = usize::from(count)
                .min(of.failed.len())
                .max(usize::from(held.acked));
            Ok(at_look && usize::from(acked) == now)
        }
        (Call::Revoke { comm, .. }, Reply::Revoked) => {
            Ok(is_revoked(asking.past, comm) && !asking.own.is_empty())
        }
        (Call::Revoke { comm, .. }, Reply::AlreadyRevoked) => {
            Ok(is_revoked(asking.past, comm) && asking.own.is_empty())
        }
        (Call::IsRevoked { comm, .. }, Reply::Standing { revoked }) => {
            Ok(is_revoked(asking.past, comm) == revoked)
        }
        (Call::Free { .. }, Reply::Freed) => Ok(true),
        _ => Ok(false),
    }
}

/// The poll of an open request.
fn is_polled<A: Allocator + Copy>(
    asking: &Asking<'_, A>,
    held: Held,
    rank: u16,
    reply: Reply<FlagAnd>,
    group: &[u16],
) -> Result<bool, AllocError> {
    let of = comm_at(asking.alloc, asking.limits.ranks, asking.past, held.comm)?;
    let (round, shrinks) = match held.request {
        None => return Ok(false),
        Some(Request::Barrier { round }) => {
            let right = barrier_reply(asking, &of.members, (held.comm, round));
            return Ok(reply == right);
        }
        Some(Request::Agree { round }) => (round, false),
        Some(Request::Shrink { round }) => (round, true),
    };
    if reply == Reply::Pending {
        return Ok(is_pending(asking, &of.members, (held.comm, round)));
    }
    let Some(made) = decided(asking.alloc, asking.past, &of, (held.comm, round))? else {
        return Ok(false);
    };
    if reply == Reply::Refused(Refusal::Mismatch) {
        return Ok(matches!(made.body, Body::Clash));
    }
    if shrinks {
        return is_shrunk(asking, &made, (held.comm, round), rank, reply, group);
    }
    Ok(is_agreed(&made, reply))
}

/// An agree that decided.
fn is_agreed<A: Allocator>(made: &Outcome<A>, reply: Reply<FlagAnd>) -> bool {
    match (made.body, reply) {
        (
            Body::Flag(flag),
            Reply::Agreed {
                value,
                failed,
                raised,
            },
        ) => {
            let same = flag == value && raised == made.raised;
            same && usize::from(failed) == made.failed.len()
        }
        _ => false,
    }
}

/// Somebody whom the look didn't find is unsettled.
fn is_pending<A: Allocator>(asking: &Asking<'_, A>, members: &[u16], of: (u16, u16)) -> bool {
    for member in members {
        let place = (of.0, of.1, *member);
        if !asking.seen.contains(member) && slot_at(asking.past, place).is_none() {
            return true;
        }
    }
    false
}

/// The one reply to the poll of a barrier, but for self-failed.
fn barrier_reply<A: Allocator>(
    asking: &Asking<'_, A>,
    members: &[u16],
    of: (u16, u16),
) -> Reply<FlagAnd> {
    let mut all = true;
    let mut all_seen = true;
    for member in members {
        if !has_arrived(asking.past, (of.0, of.1, *member)) {
            all = false;
            if asking.seen.contains(member) {
                all_seen = false;
            }
        }
    }
    if is_revoked(asking.past, of.0) {
        Reply::Refused(Refusal::IsRevoked)
    } else if all {
        Reply::Done
    } else if all_seen {
        Reply::Pending
    } else {
        Reply::Refused(Refusal::ProcFailed)
    }
}

/// A shrink that decided.
fn is_shrunk<A: Allocator + Copy>(
    asking: &Asking<'_, A>,
    made: &Outcome<A>,
    of: (u16, u16),
    rank: u16,
    reply: Reply<FlagAnd>,
    group: &[u16],
) -> Result<bool, AllocError> {
    let Body::Ctx(mask) = made.body else {
        return Ok(false);
    };
    if mask.bits == 0 {
        return Ok(reply == Reply::Refused(Refusal::NoContext));
    }
    if made.failed.contains(&rank) {
        return Ok(false);
    }
    let child = made_of(asking.past, of);
    let ranks = asking.limits.ranks;
    match (child, reply) {
        (Some(number), Reply::Shrunk { comm, context, .. }) => {
            let new: Comm<A> = comm_at(asking.alloc, ranks, asking.past, number)?;
            let lowest = u32::from(context) == mask.bits.trailing_zeros();
            Ok(comm == number && lowest && new.members.as_slice() == group)
        }
        (None, Reply::Refused(Refusal::NoRoom)) => {
            let world: Comm<A> = comm_at(asking.alloc, ranks, asking.past, 0)?;
            Ok(world.count == usize::from(asking.limits.comms))
        }
        _ => Ok(false),
    }
}
