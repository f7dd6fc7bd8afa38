//! Rounds of agreement: the words in members' places, and what they say together.
use crate::few::{Few, has_bit};
use crate::state::State;
use std::alloc::Allocator;

/// What stands in a member's place.
#[derive(Clone, Copy, Debug, PartialEq, Eq)]
pub(crate) struct Word {
    /// What its writer gives, or that the member is left out.
    pub(crate) offer: Offer,
    /// So many failures its writer knew.
    pub(crate) known: u8,
    /// So many of them it had acknowledged.
    pub(crate) acked: u8,
}

/// What is offered in a round.
#[derive(Clone, Copy, Debug, PartialEq, Eq)]
pub(crate) enum Offer {
    /// Nothing: the member is marked as failed.
    Nothing,
    /// A flag's bits.
    Flag(u64),
    /// A set of context ids.
    Contexts(u64),
    /// Both, of two members.
    Both,
}

/// What two places offer together.
fn offer_of_both(first: Offer, second: Offer) -> Offer {
    match (first, second) {
        (Offer::Nothing, other) => other,
        (other, Offer::Nothing) => other,
        (Offer::Flag(bits), Offer::Flag(more)) => Offer::Flag(bits & more),
        (Offer::Contexts(bits), Offer::Contexts(more)) => Offer::Contexts(bits & more),
        _ => Offer::Both,
    }
}

/// What two places say together.
pub(crate) fn together(first: Word, second: Word) -> Word {
    let acked = match (first.offer, second.offer) {
        (Offer::Nothing, _) => second.acked,
        (_, Offer::Nothing) => first.acked,
        _ => first.acked.min(second.acked),
    };
    Word {
        offer: offer_of_both(first.offer, second.offer),
        known: first.known.max(second.known),
        acked,
    }
}

/// A place that says nothing.
pub(crate) fn silent() -> Word {
    Word {
        offer: Offer::Nothing,
        known: 0,
        acked: 0,
    }
}

/// The blocks of a round of these members: how many there are, and how many members each has.
pub(crate) fn blocks_of(members: u8) -> (u8, u8) {
    let count = Few::of_set(members).count();
    let mut size = 1;
    for power in [2, 4, 8] {
        if power <= count {
            size = power;
        }
    }
    (if size == count { 1 } else { 2 }, size)
}

/// The member of a number in a block of a round: the second block ends with the last member.
pub(crate) fn member_of(members: u8, block: u8, number: u8) -> Option<u8> {
    let all = Few::of_set(members);
    let (_, size) = blocks_of(members);
    let first = if block == 0 {
        0
    } else {
        all.count().saturating_sub(size)
    };
    all.get(first.saturating_add(number))
}

/// The members of a communicator that are declared among the first so many, in order.
pub(crate) fn failed_members<A: Allocator + Copy + Drop>(
    state: &State<A>,
    seen: u8,
    comm: u8,
) -> Few {
    let members = state.members(comm);
    let declared = state.declared_to(seen);
    let mut failed = Few::none();
    for place in 0..declared.count() {
        if let Some(rank) = declared.get(place) {
            if has_bit(members, rank) {
                failed.add(rank);
            }
        }
    }
    failed
}

/// The members of a communicator in the order in which a barrier looks for them: those that are known to have failed first.
pub(crate) fn barrier_order(members: u8, failed: &Few) -> Few {
    let mut order = *failed;
    let all = Few::of_set(members);
    for place in 0..all.count() {
        if let Some(rank) = all.get(place) {
            if !failed.has(rank) {
                order.add(rank);
            }
        }
    }
    order
}
