//! Whether a reply is an answer to the start of a request, a revocation, a declaration, or one that only reads.
ghost use Rattle.std.specs.Prelude.{◌≡◌, ◌==◌, filter, length};
ghost use Rattle.ulfm_model.specs.History.{has};
ghost use Rattle.ulfm_judge.specs.Tests.{arrives_test, revokes_test};
ghost use Rattle.ulfm_judge.specs.ReplyTests.{acked_test, barrier_start_test, fail_test, fails_test, freed_test, given_test, gives_test};
ghost use Rattle.ulfm_judge.specs.ReplyTests.{group_test, only_of, only_test, refused_test, revoke_test, same_answer, same_offer};
ghost use Rattle.ulfm_judge.specs.ReplyTests.{same_refusal, stands_test, standing_test, start_test};

use crate::own::{arrives, revokes};
use std::alloc::Allocator;
use ulfm_laws::meld::Packed;
use ulfm_model::contribution::{Contribution, Offer, Slot};
use ulfm_model::event::Event;
use ulfm_model::held::HeldComm;
use ulfm_model::limits::Limits;
use ulfm_model::refusal::{Refusal, refusal_number};
use ulfm_model::reply::Reply;
use ulfm_numbers::groups::has_member;

/// What a contribution is to be: the offer, and how many failures of the communicator were known and acknowledged.
#[derive(Clone, Copy)]
pub(crate) struct Due<P> {
    /// The flag of an agree, or the free context ids of a shrink.
    pub offer: Offer<P>,
    /// How many failures of the communicator the call's look found.
    pub known: usize,
    /// How many of them the rank had acknowledged.
    pub acked: u16,
}

/// Whether two refusals are one.
pub(crate) fn same_refusal(x: Refusal, y: Refusal) -> bool
    ensures { result ≡ same_refusal x y }
{
    refusal_number(x) == refusal_number(y)
}

/// Whether two tests answer the same.
pub(crate) fn same_answer(x: bool, y: bool) -> bool
    ensures { result ≡ same_answer x y }
{
    if x { y } else { !y }
}

/// The event of a list that has one alone.
fn only_of<P: Copy>(own: &[Event<P>]) -> Option<Event<P>>
    ensures { result ≡ only_of own.now }
{
    match own {
        [event] => Some(*event),
        _ => None,
    }
}

/// Whether a reply is this refusal.
pub(crate) fn is_refused<P: Copy>(reply: &Reply<P>, refusal: Refusal) -> bool
    ensures { result ≡ refused_test refusal reply.now }
{
    match *reply {
        Reply::Refused(r) => same_refusal(r, refusal),
        _ => false,
    }
}

/// Whether an event declares a rank.
fn fails<P: Copy>(rank: u16, event: &Event<P>) -> bool
    ensures { result ≡ fails_test rank event.now }
{
    match *event {
        Event::Fail { rank: r } => r == rank,
        _ => false,
    }
}

/// Whether the outside's own events are one declaration of a rank.
fn only_fails<P: Copy>(rank: u16, own: &[Event<P>]) -> bool
    ensures { result ≡ only_test (fails_test rank) own.now }
{
    only_of(own).is_some_and(|event| fails(rank, &event))
}

/// Whether a rank's own events are its arrival in a round.
fn only_arrives<P: Copy>(comm: u16, round: u16, rank: u16, own: &[Event<P>]) -> bool
    ensures { result ≡ only_test (arrives_test comm round rank) own.now }
{
    only_of(own).is_some_and(|event| arrives(comm, round, rank, &event))
}

/// Whether a rank's own events are the revocation of a communicator.
fn only_revokes<P: Copy>(comm: u16, own: &[Event<P>]) -> bool
    ensures { result ≡ only_test (revokes_test comm) own.now }
{
    only_of(own).is_some_and(|event| revokes(comm, &event))
}

/// Whether a declaration is answered so, by whether the rank is declared.
pub(crate) fn is_fail_reply<P: Copy>(
    limits: Limits,
    declared: bool,
    own: &[Event<P>],
    rank: u16,
    reply: &Reply<P>,
) -> bool
    ensures { result ≡ fail_test limits declared own.now rank reply.now }
{
    match *reply {
        Reply::Declared => only_fails(rank, own) && declared,
        Reply::AlreadyFailed => own.is_empty() && declared,
        Reply::Refused(refusal) => {
            same_refusal(refusal, Refusal::NoSuchRank) && (own.is_empty() && limits.ranks <= rank)
        }
        _ => false,
    }
}

/// Whether two offers are one.
fn same_offer<P: Packed>(x: &Offer<P>, y: &Offer<P>) -> bool
    ensures { result ≡ same_offer P.pack x.now y.now }
{
    match *x {
        Offer::Flag(a) => match *y {
            Offer::Flag(b) => a.pack() == b.pack(),
            Offer::Ctx(_) => false,
        },
        Offer::Ctx(a) => match *y {
            Offer::Flag(_) => false,
            Offer::Ctx(b) => a.bits == b.bits,
        },
    }
}

/// Whether a contribution is the one that is due.
fn is_due<P: Packed>(due: &Due<P>, given: &Contribution<P>) -> bool
    ensures { result ≡ given_test P.pack due.now given.now }
{
    same_offer(&given.offer, &due.offer)
        && (usize::from(given.known.count) == due.known && given.acked.count == due.acked)
}

/// Whether an event is the contribution that is due, of a rank to a round.
fn gives<P: Packed>(comm: u16, round: u16, rank: u16, due: &Due<P>, event: &Event<P>) -> bool
    ensures { result ≡ gives_test P.pack comm round rank due.now event.now }
{
    match *event {
        Event::Settle {
            comm: c,
            round: k,
            rank: r,
            given,
        } => c == comm && (k == round && (r == rank && is_due(due, &given))),
        _ => false,
    }
}

/// Whether a rank's own events are the contribution that is due.
fn only_gives<P: Packed>(comm: u16, round: u16, rank: u16, due: &Due<P>, own: &[Event<P>]) -> bool
    ensures { result ≡ only_test (gives_test P.pack comm round rank due.now) own.now }
{
    only_of(own).is_some_and(|event| gives(comm, round, rank, due, &event))
}

/// Whether the contribution that is due stands there.
fn stands<P: Packed>(due: &Due<P>, stood: &Option<Slot<P>>) -> bool
    ensures { result ≡ stands_test P.pack due.now stood.now }
{
    match *stood {
        Some(Slot::Given(given)) => is_due(due, &given),
        _ => false,
    }
}

/// How many of a group a look found declared.
pub(crate) fn count_known(look: &[u16], group: &[u16]) -> usize
    ensures { result ≡ length (filter (has group.now) look.now) }
{
    look.iter().filter(|rank| has_member(group, **rank)).count()
}

/// Whether the start of an agree or of a shrink is answered so, by what stands at the rank's place. Its wing may be set at any time,
/// since no line tells of it.
pub(crate) fn is_start_reply<P: Packed, A: Allocator>(
    own: &[Event<P>],
    stood: Option<Slot<P>>,
    known: usize,
    rank: u16,
    x: &HeldComm<A>,
    offer: Offer<P>,
    reply: &Reply<P>,
) -> bool
    ensures { result ≡ start_test P.pack own.now stood rank x.now (record { offer = offer; known = known; acked = x.now.acked }) reply.now }
{
    let due = Due {
        offer,
        known,
        acked: x.acked,
    };
    match *reply {
        Reply::Started => {
            only_gives(x.comm, x.next_agreement, rank, &due, own) && stands(&due, &stood)
        }
        Reply::Refused(refusal) => { same_refusal(refusal, Refusal::Twice) && own.is_empty() }
        _ => false,
    }
}

/// Whether the start of a barrier is answered so, by whether the rank has arrived.
pub(crate) fn is_barrier_start_reply<P: Copy, A: Allocator>(
    arrived: bool,
    own: &[Event<P>],
    rank: u16,
    x: &HeldComm<A>,
    reply: &Reply<P>,
) -> bool
    ensures { result ≡ barrier_start_test arrived own.now rank x.now reply.now }
{
    match *reply {
        Reply::Started => arrived && only_arrives(x.comm, x.next_barrier, rank, own),
        Reply::Refused(refusal) => {
            arrived && (same_refusal(refusal, Refusal::Twice) && own.is_empty())
        }
        _ => false,
    }
}

/// Whether a revocation is answered so, by whether the communicator is revoked.
pub(crate) fn is_revoke_reply<P: Copy>(
    revoked: bool,
    own: &[Event<P>],
    comm: u16,
    reply: &Reply<P>,
) -> bool
    ensures { result ≡ revoke_test revoked own.now comm reply.now }
{
    match *reply {
        Reply::Revoked => revoked && only_revokes(comm, own),
        Reply::AlreadyRevoked => revoked && own.is_empty(),
        _ => false,
    }
}

/// Whether a reply says whether a communicator is revoked.
pub(crate) fn is_standing_reply<P: Copy>(revoked: bool, reply: &Reply<P>) -> bool
    ensures { result ≡ standing_test revoked reply.now }
{
    match *reply {
        Reply::Standing { revoked: told } => same_answer(told, revoked),
        _ => false,
    }
}

/// Whether a reply says that a communicator was given back.
pub(crate) fn is_freed<P: Copy>(reply: &Reply<P>) -> bool
    ensures { result ≡ freed_test reply.now }
{
    match *reply {
        Reply::Freed => true,
        _ => false,
    }
}

/// Whether a reply says this size of the failed group.
pub(crate) fn is_group_reply<P: Copy>(size: usize, reply: &Reply<P>) -> bool
    ensures { result ≡ group_test size reply.now }
{
    match *reply {
        Reply::FailedGroup { count } => usize::from(count) == size,
        _ => false,
    }
}

/// Whether a reply says that so many are acknowledged.
pub(crate) fn is_acked_reply<P: Copy>(acked: usize, reply: &Reply<P>) -> bool
    ensures { result ≡ acked_test acked reply.now }
{
    match *reply {
        Reply::Acked { count } => usize::from(count) == acked,
        _ => false,
    }
}
