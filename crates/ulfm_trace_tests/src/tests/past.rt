//! What a history says, found by walking over it.
use std::alloc::{AllocError, Allocator};
use ulfm_laws::FlagAnd;
use ulfm_laws::summary::{Body, CtxMask};
use ulfm_model::{Entry, Event, Offer, Slot};

/// The ranks that were declared, in order.
pub(crate) fn failures<A: Allocator>(
    alloc: A,
    past: &[Entry<FlagAnd>],
) -> Result<Vec<u16, A>, AllocError> {
    let mut list = Vec::new(alloc);
    for entry in past {
        if let Event::Fail { rank } = entry.event {
            list.push(rank)?;
        }
    }
    Ok(list)
}

/// Those of a list that are in a group, or that aren't in it.
pub(crate) fn those<A: Allocator>(
    alloc: A,
    list: &[u16],
    group: &[u16],
    within: bool,
) -> Result<Vec<u16, A>, AllocError> {
    let mut some = Vec::new(alloc);
    for rank in list {
        if group.contains(rank) == within {
            some.push(*rank)?;
        }
    }
    Ok(some)
}

/// The place of an agreement round that an event settles, and what stands there from then on.
pub(crate) fn settled(event: Event<FlagAnd>) -> Option<((u16, u16, u16), Slot<FlagAnd>)> {
    let settled = match event {
        Event::Settle {
            comm,
            round,
            rank,
            given,
        } => ((comm, round, rank), Slot::Given(given)),
        Event::Mark {
            comm,
            round,
            rank,
            known,
        } => ((comm, round, rank), Slot::Mark(known)),
        _ => return None,
    };
    Some(settled)
}

/// What was settled at a place of an agreement round.
pub(crate) fn slot_at(past: &[Entry<FlagAnd>], place: (u16, u16, u16)) -> Option<Slot<FlagAnd>> {
    for entry in past {
        if let Some(found) = settled(entry.event) {
            if found.0 == place {
                return Some(found.1);
            }
        }
    }
    None
}

/// Whether a rank arrived at a place of a barrier round.
pub(crate) fn has_arrived(past: &[Entry<FlagAnd>], place: (u16, u16, u16)) -> bool {
    for entry in past {
        if let Event::Arrive { comm, round, rank } = entry.event {
            if (comm, round, rank) == place {
                return true;
            }
        }
    }
    false
}

/// Whether a communicator was revoked.
pub(crate) fn is_revoked(past: &[Entry<FlagAnd>], revoked: u16) -> bool {
    for entry in past {
        if let Event::Revoke { comm } = entry.event {
            if comm == revoked {
                return true;
            }
        }
    }
    false
}

/// The number of the communicator that was made of a round.
pub(crate) fn made_of(past: &[Entry<FlagAnd>], of: (u16, u16)) -> Option<u16> {
    for entry in past {
        if let Event::Spawn {
            comm,
            parent,
            round,
        } = entry.event
        {
            if (parent, round) == of {
                return Some(comm);
            }
        }
    }
    None
}

/// How many failures a slot names.
fn known_of(slot: Slot<FlagAnd>) -> u16 {
    match slot {
        Slot::Mark(mark) => mark.known.count,
        Slot::Given(given) => given.known.count,
    }
}

/// The greatest count of failures that is named in a round.
fn greatest_known(past: &[Entry<FlagAnd>], members: &[u16], round: (u16, u16)) -> u16 {
    let mut greatest = 0;
    for rank in members {
        if let Some(slot) = slot_at(past, (round.0, round.1, *rank)) {
            let known = known_of(slot);
            if known > greatest {
                greatest = known;
            }
        }
    }
    greatest
}

/// The first so many of a list.
pub(crate) fn first<A: Allocator>(
    alloc: A,
    list: &[u16],
    count: usize,
) -> Result<Vec<u16, A>, AllocError> {
    let mut some = Vec::new(alloc);
    for (index, rank) in list.iter().enumerate() {
        if index < count {
            some.push(*rank)?;
        }
    }
    Ok(some)
}

/// The members of each communicator, the world's first.
fn all_members<A: Allocator + Copy>(
    alloc: A,
    ranks: u16,
    past: &[Entry<FlagAnd>],
) -> Result<Vec<Vec<u16, A>, A>, AllocError> {
    let mut all = Vec::new(alloc);
    let mut world = Vec::new(alloc);
    for rank in 0..ranks {
        world.push(rank)?;
    }
    all.push(world)?;
    for (index, entry) in past.iter().enumerate() {
        if let Event::Spawn { parent, round, .. } = entry.event {
            let before = &past[..index];
            let of = usize::from(parent);
            let kept = match all.get(of) {
                None => Vec::new(alloc),
                Some(members) => {
                    let declared = failures(alloc, before)?;
                    let failed = those(alloc, &declared, members, true)?;
                    let known = greatest_known(before, members, (parent, round));
                    let out = first(alloc, &failed, usize::from(known))?;
                    those(alloc, members, &out, false)?
                }
            };
            all.push(kept)?;
        }
    }
    Ok(all)
}

/// A communicator: whether there is one of this number, and its members and failed group.
#[derive(Drop)]
pub(crate) struct Comm<A: Allocator> {
    /// Whether it was made.
    pub(crate) exists: bool,
    /// How many communicators there are.
    pub(crate) count: usize,
    /// Its members, by rank; nobody where it wasn't made.
    pub(crate) members: Vec<u16, A>,
    /// Those of them that are declared, in the order of their declarations.
    pub(crate) failed: Vec<u16, A>,
}

pub(crate) fn comm_at<A: Allocator + Copy>(
    alloc: A,
    ranks: u16,
    past: &[Entry<FlagAnd>],
    comm: u16,
) -> Result<Comm<A>, AllocError> {
    let all = all_members(alloc, ranks, past)?;
    let members = match all.get(usize::from(comm)) {
        None => Vec::new(alloc),
        Some(members) => first(alloc, members, usize::MAX)?,
    };
    let declared = failures(alloc, past)?;
    let failed = those(alloc, &declared, &members, true)?;
    Ok(Comm {
        exists: usize::from(comm) < all.len(),
        count: all.len(),
        members,
        failed,
    })
}

/// What a round decided.
#[derive(Drop)]
pub(crate) struct Outcome<A: Allocator> {
    /// What all contributions come to.
    pub(crate) body: Body<FlagAnd>,
    /// The members that it names as failed.
    pub(crate) failed: Vec<u16, A>,
    /// Whether an error is raised: some rank hadn't acknowledged one of them.
    pub(crate) raised: bool,
}

/// An offer combined with those before it.
fn combined(body: Body<FlagAnd>, offer: Offer<FlagAnd>) -> Body<FlagAnd> {
    match (body, offer) {
        (Body::Unit, Offer::Flag(flag)) => Body::Flag(flag),
        (Body::Unit, Offer::Ctx(mask)) => Body::Ctx(mask),
        (Body::Flag(one), Offer::Flag(other)) => {
            let bits = one.bits & other.bits;
            Body::Flag(FlagAnd { bits })
        }
        (Body::Ctx(one), Offer::Ctx(other)) => {
            let bits = one.bits & other.bits;
            Body::Ctx(CtxMask { bits })
        }
        _ => Body::Clash,
    }
}

/// What a round of a communicator decided, if each member is settled.
pub(crate) fn decided<A: Allocator + Copy>(
    alloc: A,
    past: &[Entry<FlagAnd>],
    of: &Comm<A>,
    round: (u16, u16),
) -> Result<Option<Outcome<A>>, AllocError> {
    let known = greatest_known(past, &of.members, round);
    let mut body = Body::Unit;
    let mut raised = false;
    for rank in &of.members {
        match slot_at(past, (round.0, round.1, *rank)) {
            None => return Ok(None),
            Some(Slot::Mark(_)) => {}
            Some(Slot::Given(given)) => {
                body = combined(body, given.offer);
                if given.acked.count < known {
                    raised = true;
                }
            }
        }
    }
    let failed = first(alloc, &of.failed, usize::from(known))?;
    Ok(Some(Outcome {
        body,
        failed,
        raised,
    }))
}
