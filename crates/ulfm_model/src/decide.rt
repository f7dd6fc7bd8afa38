//! What an agreement round decides.
ghost use Rattle.std.specs.Prelude.{◌≡◌, IfOk, filter_map, is_some, map};
ghost use Rattle.std.specs.List.{list_all, list_any};
ghost use Rattle.ulfm_laws.specs.{Bodies.{body_meld, body_unit}, Combined.{combined}};
ghost use Rattle.ulfm_model.specs.Terms.{lacks_one};
ghost use Rattle.ulfm_model.specs.History.{body_of, contribution_of, decided_by, decision, is_decided, slot};
ghost use Rattle.ulfm_model.specs.Walked.{decision_of};

use crate::contribution::{Contribution, Offer, Slot};
use crate::event::Entry;
use crate::groups::{failed_among, first_of, members, round_among, union_of};
use crate::reads::{has_rank, slot};
use std::alloc::{AllocError, Allocator};
use ulfm_laws::meld::Meld;
use ulfm_laws::summary::Body;

/// What all who return from a round are told.
#[derive(Drop)]
pub struct Decided<P: Meld, A: Allocator> {
    /// What was contributed, combined.
    pub body: Body<P>,
    /// The group that contributors knew and marks name.
    pub failed: Vec<u16, A>,
    /// Whether a contributor had not acknowledged all of that group.
    pub raised: bool,
}

/// An offer as a body.
fn body_of<P: Copy>(offer: &Offer<P>) -> Body<P>
    ensures { result ≡ body_of offer.now }
{
    match *offer {
        Offer::Flag(flag) => Body::Flag(flag),
        Offer::Ctx(mask) => Body::Ctx(mask),
    }
}

/// The contribution, where it is no mark.
fn contribution_of<P: Copy>(slot: &Slot<P>) -> Option<Contribution<P>>
    ensures { result ≡ contribution_of slot.now }
{
    match *slot {
        Slot::Mark(_) => None,
        Slot::Given(given) => Some(given),
    }
}

/// Whether a contributor had not acknowledged some rank of a group.
fn lacks_one<P: Copy>(failed: &[u16], group: &[u16], given: &Contribution<P>) -> bool
    ensures { result ≡ lacks_one failed.now group.now given.now }
{
    let acked = first_of(failed, given.acked.count);
    group.iter().any(|rank| !has_rank(acked, *rank))
}

/// The contributed bodies, combined.
fn combined_body<P: Meld>(settled: &[Slot<P>]) -> Body<P>
    ensures { result ≡ combined body_unit (body_meld P.meld) (map (λ g. body_of g.offer) (filter_map contribution_of settled.now)) }
{
    let mut body = Body::Unit;
    for slot in settled {
        if let Some(given) = contribution_of(slot) {
            body = body.meld(&body_of(&given.offer));
        }
    }
    body
}

/// Whether some contributor had not acknowledged all of a group.
fn raised<P: Copy>(failed: &[u16], group: &[u16], settled: &[Slot<P>]) -> bool
    ensures { result ≡ list_any (lacks_one failed.now group.now) (filter_map contribution_of settled.now) }
{
    settled
        .iter()
        .filter_map(contribution_of)
        .any(|given| lacks_one(failed, group, &given))
}

/// What marks and contributions decide, where this is the failed group of the communicator.
pub fn decided_by<P: Meld, A: Allocator + Copy + Drop>(
    alloc: A,
    failed: &[u16],
    settled: &[Slot<P>],
) -> Result<Decided<P, A>, AllocError>
    ensures { IfOk result (λ made. decision_of made ≡ decided_by P.meld failed.now settled.now) }
{
    let group = union_of(alloc, failed, settled)?;
    let raised = raised(failed, &group, settled);
    Ok(Decided {
        body: combined_body(settled),
        failed: group,
        raised,
    })
}

/// The decision of a round, by what is settled in it so far.
pub fn decision<P: Meld, A: Allocator + Copy + Drop>(
    alloc: A,
    ranks: u16,
    history: &[Entry<P>],
    comm: u16,
    round: u16,
) -> Result<Decided<P, A>, AllocError>
    ensures { IfOk result (λ made. decision_of made ≡ decision P.meld ranks history.now comm round) }
{
    let members = members(alloc, ranks, history, comm)?;
    let failed = failed_among(alloc, &members, history)?;
    let settled = round_among(alloc, &members, history, comm, round)?;
    decided_by(alloc, &failed, &settled)
}

/// Whether each of these is settled in a round.
fn are_settled<P: Copy>(group: &[u16], history: &[Entry<P>], comm: u16, round: u16) -> bool
    ensures { result ≡ list_all (λ r. is_some (slot history.now comm round r)) group.now }
{
    group
        .iter()
        .all(|rank| slot(history, comm, round, *rank).is_some())
}

/// Whether a round is decided: each member is settled.
pub fn is_decided<P: Copy, A: Allocator + Copy + Drop>(
    alloc: A,
    ranks: u16,
    history: &[Entry<P>],
    comm: u16,
    round: u16,
) -> Result<bool, AllocError>
    ensures { IfOk result (λ decided. decided ≡ is_decided ranks history.now comm round) }
{
    let members = members(alloc, ranks, history, comm)?;
    Ok(are_settled(&members, history, comm, round))
}
