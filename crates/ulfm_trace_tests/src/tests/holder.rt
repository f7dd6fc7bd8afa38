//! What a rank holds, and which events its call may add.
use std::alloc::{AllocError, Allocator};
use ulfm_laws::FlagAnd;
use ulfm_laws::summary::CtxMask;
use ulfm_model::call::{comm_of, rank_of};
use ulfm_model::{Call, Caller, Event, Limits, Refusal, Reply, Request};

/// A communicator that a rank holds.
#[derive(Clone, Copy)]
pub(crate) struct Held {
    /// Its number.
    pub(crate) comm: u16,
    /// Its context id.
    context: u8,
    /// How many failures of it the rank has acknowledged.
    pub(crate) acked: u16,
    /// The rank's next agreement round on it.
    pub(crate) next_agreement: u16,
    /// The next barrier round.
    pub(crate) next_barrier: u16,
    /// The request that is open on it.
    pub(crate) request: Option<Request>,
}

/// What a rank holds.
#[derive(Drop)]
pub(crate) struct Holder<A: Allocator> {
    /// Whether it was refused as self-failed, and is for good.
    pub(crate) refused: bool,
    /// Its communicators, in the order in which it got them.
    pub(crate) held: Vec<Held, A>,
}

fn new_held(comm: u16, context: u8) -> Held {
    Held {
        comm,
        context,
        acked: 0,
        next_agreement: 0,
        next_barrier: 0,
        request: None,
    }
}

/// Whether no round is left for a start; the last agreement round is a shrink's.
fn is_used_up(limits: Limits, held: Held, asked: &Call<FlagAnd>) -> bool {
    match asked {
        Call::Agree { .. } => held.next_agreement.saturating_add(1) >= limits.rounds,
        Call::Shrink { .. } => held.next_agreement >= limits.rounds,
        Call::Barrier { .. } => held.next_barrier >= limits.rounds,
        _ => false,
    }
}

/// In whose name a call is made.
pub(crate) fn caller_of(asked: &Call<FlagAnd>) -> Caller {
    match *asked {
        Call::Fail { .. } => Caller::Outside,
        _ => Caller::Rank(rank_of(asked)),
    }
}

impl<A: Allocator> Holder<A> {
    pub(crate) fn new(alloc: A) -> Result<Holder<A>, AllocError> {
        let mut held = Vec::new(alloc);
        held.push(new_held(0, 0))?;
        Ok(Holder {
            refused: false,
            held,
        })
    }

    pub(crate) fn at(&self, comm: u16) -> Option<Held> {
        for held in &self.held {
            if held.comm == comm {
                return Some(*held);
            }
        }
        None
    }

    /// The context ids that none of its communicators has.
    pub(crate) fn free_ids(&self) -> CtxMask {
        let mut bits = u64::MAX;
        for held in &self.held {
            bits &= !(1u64.wrapping_shl(u32::from(held.context)));
        }
        CtxMask { bits }
    }

    fn has_shrink(&self) -> bool {
        for held in &self.held {
            if let Some(Request::Shrink { .. }) = held.request {
                return true;
            }
        }
        false
    }

    /// The refusal by what the rank holds alone, if there is one.
    pub(crate) fn refusal(&self, limits: Limits, asked: &Call<FlagAnd>) -> Option<Refusal> {
        let Some(held) = self.at(comm_of(asked)) else {
            return Some(Refusal::NoSuchComm);
        };
        let busy = held.request.is_some();
        match *asked {
            Call::Free { comm: 0, .. } => Some(Refusal::WorldKept),
            Call::Poll { .. } if !busy => Some(Refusal::Idle),
            Call::Free { .. } | Call::Agree { .. } | Call::Shrink { .. } | Call::Barrier { .. }
                if busy => { Some(Refusal::Busy) }
            Call::Shrink { .. } if self.has_shrink() => Some(Refusal::ShrinkOpen),
            _ => {
                if is_used_up(limits, held, asked) {
                    Some(Refusal::RoundsUsedUp)
                } else {
                    None
                }
            }
        }
    }

    /// What an answer leaves.
    pub(crate) fn answered(
        &mut self,
        asked: &Call<FlagAnd>,
        reply: Reply<FlagAnd>,
    ) -> Result<(), AllocError> {
        let comm = comm_of(asked);
        if reply == Reply::Refused(Refusal::SelfFailed) {
            self.refused = true;
            return Ok(());
        }
        for held in &mut self.held {
            if held.comm == comm {
                after(held, asked, reply);
            }
        }
        if let Reply::Shrunk { comm, context, .. } = reply {
            self.held.push(new_held(comm, context))?;
        }
        if reply == Reply::Freed {
            self.held.retain(|held| held.comm != comm);
        }
        Ok(())
    }
}

/// The round that is next, which is used up.
fn use_up(next: &mut u16) -> u16 {
    let round = *next;
    *next = round.saturating_add(1);
    round
}

/// What an answer other than self-failed leaves of the communicator that the call named.
fn after(held: &mut Held, asked: &Call<FlagAnd>, reply: Reply<FlagAnd>) {
    match (*asked, reply) {
        (Call::Agree { .. }, Reply::Started) => {
            let round = use_up(&mut held.next_agreement);
            held.request = Some(Request::Agree { round });
        }
        (Call::Shrink { .. }, Reply::Started) => {
            let round = use_up(&mut held.next_agreement);
            held.request = Some(Request::Shrink { round });
        }
        (Call::Barrier { .. }, Reply::Started) => {
            let round = use_up(&mut held.next_barrier);
            held.request = Some(Request::Barrier { round });
        }
        (Call::Ack { .. }, Reply::Acked { count }) => held.acked = count,
        (Call::Poll { .. }, Reply::Pending) => {}
        (Call::Poll { .. }, _) => held.request = None,
        _ => {}
    }
}

/// Whether a call that has looked may add an event. Its rank wasn't found declared.
pub(crate) fn may_own<A: Allocator>(
    holder: &Holder<A>,
    limits: Limits,
    asked: &Call<FlagAnd>,
    own: u16,
    seen: &[u16],
    event: Event<FlagAnd>,
) -> bool {
    if holder.refused || holder.refusal(limits, asked).is_some() {
        return false;
    }
    let Some(held) = holder.at(comm_of(asked)) else {
        return false;
    };
    match (*asked, event) {
        (
            Call::Agree { .. } | Call::Shrink { .. },
            Event::Settle {
                comm,
                round,
                rank,
                ..
            },
        ) => (comm, round, rank) == (held.comm, held.next_agreement, own),
        (Call::Barrier { .. }, Event::Arrive { comm, round, rank }) => {
            (comm, round, rank) == (held.comm, held.next_barrier, own)
        }
        (Call::Revoke { .. }, Event::Revoke { comm }) => comm == held.comm,
        (Call::Poll { .. }, event) => may_add_by_poll(held, seen, event),
        _ => false,
    }
}

/// Whether the poll of an agreement may add an event.
fn may_add_by_poll(held: Held, seen: &[u16], event: Event<FlagAnd>) -> bool {
    let (open, shrinks) = match held.request {
        Some(Request::Agree { round }) => (round, false),
        Some(Request::Shrink { round }) => (round, true),
        _ => return false,
    };
    match event {
        Event::Mark {
            comm,
            round,
            rank,
            ..
        } => comm == held.comm && round == open && seen.contains(&rank),
        Event::Spawn { parent, round, .. } => shrinks && parent == held.comm && round == open,
        _ => false,
    }
}
