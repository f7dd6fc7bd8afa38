//! The communicators that a rank holds, who their members are, and when these refuse a call. All ranks hold the world's, so its members stand
//! in one list for all.
ghost use Rattle.std.specs.Prelude.{◌≡◌, ◌==◌, ◌<◌, ◌≤◌, ◌++◌, ◌∷◌, [], Some, None, filter, not, position, vec_capacity, vec_len, length};
ghost use Rattle.std.specs.List.{list_any};
ghost use Rattle.ulfm_model.specs.Records.{change_at, is_shrink};
ghost use Rattle.ulfm_model.specs.Answers.{first_refusal, opened, refusal_of as refusal_by};
ghost use Rattle.ulfm_model.specs.Terms.{new_held, tests_of};
ghost use Rattle.ulfm_model.specs.Members.{members_of};
ghost use Rattle.ulfm_model.specs.Kept.{FitsNext, HasNext, record_of, tested};

use crate::call::{Call, Request, comm_of};
use crate::limits::Limits;
use crate::record::RankRecord;
use crate::refusal::Refusal;
use std::alloc::Allocator;
use std::marker::Model;
use std::ops::DerefSlice;
use std::sync::ArcSlice;

/// A communicator that a rank holds.
#[derive(Drop)]
pub struct HeldComm<A: Allocator> {
    /// The communicator's number; 0 is the world's own.
    pub comm: u16,
    /// Its members, in order.
    pub group: Members<A>,
    /// Its context id, 0 to 63.
    pub context: u8,
    /// How many of its failures the rank has acknowledged.
    pub acked: u16,
    /// The next agreement round of the rank on it.
    pub next_agreement: u16,
    /// The next barrier round of the rank on it.
    pub next_barrier: u16,
    /// What is open on it.
    pub request: Option<Request>,
}

impl<A: Allocator> Model for HeldComm<A> {
    ghost use Rattle.ulfm_model.specs.Records.{Held};
    ghost use Rattle.ulfm_model.specs.Members.{members_of};

    ghost Value = { Held };

    ghost view = { λ a. record {
      comm = a.comm;
      group = members_of a.group;
      context = a.context;
      acked = a.acked;
      next_agreement = a.next_agreement;
      next_barrier = a.next_barrier;
      request = a.request;
    } };
}

impl<A: Allocator> HeldComm<A> {
    /// A communicator that a shrink made, as a rank first holds it, with a list of the rank's own.
    pub fn new(comm: u16, context: u8, group: Vec<u16, A>) -> HeldComm<A>
        ensures { result ≡ new_held comm context group.items }
    {
        HeldComm::with_members(comm, context, Members::Own(group))
    }

    /// A communicator of these members, as a rank first holds it: nobody is acknowledged, no round is used up, and no request is open.
    /// The world's own has number 0 and context id 0.
    pub fn with_members(comm: u16, context: u8, group: Members<A>) -> HeldComm<A>
        ensures { result ≡ new_held comm context (members_of group) }
    {
        HeldComm {
            comm,
            group,
            context,
            acked: 0,
            next_agreement: 0,
            next_barrier: 0,
            request: None,
        }
    }
}

/// Where the first communicator of this number stands; none where the rank doesn't hold it.
pub fn place_of<A: Allocator>(held: &[HeldComm<A>], comm: u16) -> Option<usize>
    ensures { result ≡ position (λ x. x.comm == comm) held.now }
{
    held.iter().position(|x| x.comm == comm)
}

/// So many failures of a communicator are acknowledged now. Nothing changes where it isn't held.
pub fn acknowledge<A: Allocator>(held: &mut Vec<HeldComm<A>, A>, comm: u16, count: u16)
    ensures items { held.new.items ≡ change_at comm (λ y. record y { acked = count }) held.old.items }
    ensures room { vec_capacity held.new ≡ vec_capacity held.old }
{
    if let Some(i) = place_of(held, comm) {
        let x = &mut held[i];
        x.acked = count;
    }
}

/// Opens a request on a communicator; its round is used up. Nothing changes where there is none.
pub(crate) fn open_on<A: Allocator>(x: &mut HeldComm<A>, request: Option<Request>)
    requires { FitsNext request }
    ensures { x.new ≡ opened x.old request }
{
    match request {
        None => {}
        Some(Request::Agree { round }) | Some(Request::Shrink { round }) => {
            x.next_agreement = round + 1;
            x.request = request;
        }
        Some(Request::Barrier { round }) => {
            x.next_barrier = round + 1;
            x.request = request;
        }
    }
}

/// A request is open on a communicator, and its round is used up. Nothing changes where it isn't held.
#[inline(always)]
pub fn open<A: Allocator>(held: &mut Vec<HeldComm<A>, A>, comm: u16, request: Request)
    requires { HasNext request }
    ensures items { held.new.items ≡ change_at comm (λ y. opened y (Some request)) held.old.items }
    ensures room { vec_capacity held.new ≡ vec_capacity held.old }
{
    if let Some(i) = place_of(held, comm) {
        let x = &mut held[i];
        open_on(x, Some(request));
    }
}

/// No request is open on a communicator. Nothing changes where it isn't held.
pub fn close<A: Allocator>(held: &mut Vec<HeldComm<A>, A>, comm: u16)
    ensures items { held.new.items ≡ change_at comm (λ y. record y { request = None }) held.old.items }
    ensures room { vec_capacity held.new ≡ vec_capacity held.old }
{
    if let Some(i) = place_of(held, comm) {
        let x = &mut held[i];
        x.request = None;
    }
}

/// Whether a request is a shrink.
pub fn is_shrink(request: Option<Request>) -> bool
    ensures { result ≡ is_shrink request }
{
    match request {
        Some(Request::Shrink { .. }) => true,
        _ => false,
    }
}

/// Whether a shrink is open on one of these.
pub fn is_shrinking<A: Allocator>(held: &[HeldComm<A>]) -> bool
    ensures { result ≡ list_any (λ x. is_shrink x.request) held.now }
{
    held.iter().any(|x| is_shrink(x.request))
}

/// The communicator of this number isn't held any more. The others keep their order, and the vector keeps its room.
pub fn release<A: Allocator>(held: &mut Vec<HeldComm<A>, A>, comm: u16)
    ensures items { held.new.items ≡ filter (λ x. not (x.comm == comm)) held.old.items }
    ensures room { vec_capacity held.new ≡ vec_capacity held.old }
{
    while let Some(i) = place_of(held, comm) {
        let _ = held.remove(i);
    }
}

/// No request is open on a communicator, and the one that it made is held, for which there is room. It takes no memory.
pub fn take_in<A: Allocator>(held: &mut Vec<HeldComm<A>, A>, comm: u16, made: HeldComm<A>)
    requires { vec_len held.old < vec_capacity held.old }
    ensures items { held.new.items ≡ change_at comm (λ y. record y { request = None }) held.old.items ++ made ∷ [] }
    ensures room { vec_capacity held.old ≤ vec_capacity held.new }
{
    let place = place_of(held, comm);
    let _ = held.push(made);
    if let Some(i) = place {
        let parent = &mut held[i];
        parent.request = None;
    }
}

/// The first refusal of a call on a communicator that the rank holds beside these, if its tests have one: a request that is
/// open already, rounds that are used up, a second shrink, a poll with no request, the world's communicator given back.
pub fn refusal_on<P: Copy, A: Allocator>(
    limits: Limits,
    held: &[HeldComm<A>],
    x: &HeldComm<A>,
    asked: &Call<P>,
) -> Option<Refusal>
    ensures { result ≡ first_refusal (tests_of (tested limits held.now) x.now asked.now) }
{
    let busy = x.request.is_some();
    let rounds = limits.rounds;
    match *asked {
        Call::Agree { .. } if busy => Some(Refusal::Busy),
        Call::Agree { .. } if u32::from(rounds) <= u32::from(x.next_agreement) + 1 => {
            Some(Refusal::RoundsUsedUp)
        }
        Call::Shrink { .. } if busy => Some(Refusal::Busy),
        Call::Shrink { .. } if is_shrinking(held) => Some(Refusal::ShrinkOpen),
        Call::Shrink { .. } if rounds <= x.next_agreement => Some(Refusal::RoundsUsedUp),
        Call::Barrier { .. } if busy => Some(Refusal::Busy),
        Call::Barrier { .. } if rounds <= x.next_barrier => Some(Refusal::RoundsUsedUp),
        Call::Poll { .. } if !busy => Some(Refusal::Idle),
        Call::Free { comm, .. } if comm == 0 => Some(Refusal::WorldKept),
        Call::Free { .. } if busy => Some(Refusal::Busy),
        _ => None,
    }
}

/// The refusal of a call by the rank's record, if it has one; `NoSuchComm` where the rank doesn't hold the communicator.
pub fn refusal_of<P: Copy, A: Allocator>(
    limits: Limits,
    own: &RankRecord<A>,
    asked: &Call<P>,
) -> Option<Refusal>
    ensures { result ≡ refusal_by (record_of limits own.now) asked.now }
{
    match place_of(&own.held, comm_of(asked)) {
        Some(i) => refusal_on(limits, &own.held, &own.held[i], asked),
        None => Some(Refusal::NoSuchComm),
    }
}

/// The members of a communicator, in order. It is read as a slice of them.
#[derive(Drop)]
pub enum Members<A: Allocator> {
    /// Those of a communicator that many hold, in one list for all.
    Shared(ArcSlice<u16, A>),
    /// Those of a communicator that a shrink made, in a list of the rank's own.
    Own(Vec<u16, A>),
}

impl<A: Allocator> Members<A> {
    /// How many they are.
    #[inline(always)]
    pub fn len(&self) -> usize
        ensures { result ≡ length (members_of self.now) }
    {
        match self {
            Members::Shared(ranks) => ranks.len(),
            Members::Own(ranks) => ranks.len(),
        }
    }
}

impl<A: Allocator> DerefSlice for Members<A> {
    type Elem = u16;

    ghost deref_gives = { λ a ranks. ranks ≡ members_of a };

    #[inline(always)]
    fn deref(&self) -> &[u16]
        ensures value { result.now ≡ members_of self.now }
        ensures len { length result.now ≡ length (members_of self.now) }
    {
        match self {
            Members::Shared(ranks) => ranks.as_slice(),
            Members::Own(ranks) => ranks.as_slice(),
        }
    }
}
