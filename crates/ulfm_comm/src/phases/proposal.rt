// The event that a call's next exchange is for.
ghost use Rattle.std.specs.Prelude.{◌≡◌, ◌≤◌, ◌<◌, ◌+◌, ℕ, filter, length, is_some, slice_index, true, IfSome};
ghost use Rattle.std.specs.List.Sorted.{IsStrictlyIncreasing};
ghost use Rattle.ulfm_model.specs.{History.{has}, Records.{Held, held_at}, Terms.{comm_of}};
ghost use Rattle.ulfm_model.specs.declared.{contribution.MarkCount.{MarkCount}, event.Caller.TheVariants.{Rank as OfRank}};
ghost use Rattle.ulfm_model.specs.declared.event.Event.TheVariants.{Mark as MarkedAt, Spawn as MadeOf};
ghost use Rattle.ulfm_steps.specs.declared.item.Item.TheVariants.{Comm as OfComm};
ghost use Rattle.ulfm_comm.specs.{Local.{local}, Phase.{MayStep}, Proposals.{OffersOwn, Proposes, proposes}};
ghost use Rattle.ulfm_words.specs.Steps.{view_of, IsView};

use crate::phases::phase::{Doing, Phase, Way};
use crate::rank::{LocalState, Rank};
use crate::world::World;
use std::alloc::Allocator;
use ulfm_laws::meld::Packed;
use ulfm_laws::summary::{Acked, Known};
use ulfm_model::call::{Call, comm_of};
use ulfm_model::contribution::{Contribution, MarkCount, Offer};
use ulfm_model::event::{Caller, Entry, Event};
use ulfm_steps::group::count_in;
use ulfm_steps::{Append, Item, MarkAll};
use ulfm_words::Words;

// The communicator that an appending makes whose place was found empty.
fn spawned_by<P: Packed>(append: &Append) -> Option<Event<P>>
    requires few { append.now.index < 65535 }
    requires item { (c k : ℕ) × (append.now.item ≡ OfComm c k) }
    ensures when { is_some result ≡ append.now.empty }
    ensures made { IfSome result (λ event. (c k : ℕ) × (append.now.item ≡ OfComm c k) × (event ≡ MadeOf (append.now.index + 1) c k)) }
{
    if !append.empty {
        return None;
    }
    match append.item {
        Item::Comm { parent, round } => Some(Event::Spawn {
            comm: append.index + 1,
            parent,
            round,
        }),
        // It appends a communicator.
        Item::Failure { .. } => unreachable!(),
    }
}

impl<P: Packed, A: Allocator> LocalState<P, A> {
    // What a start contributes to the rank's next agreement round of a communicator.
    fn given_to(&self, comm: u16, offer: Offer<P>) -> Event<P>
        requires held { (x : Held) × (held_at self.now comm ≡ Some x) × IsStrictlyIncreasing x.group
            × (length (filter (has x.group) self.now.seen) ≤ 1024) × (x.acked ≤ length (filter (has x.group) self.now.seen)) }
        ensures { OffersOwn self.now comm offer result }
    {
        let x = self.held_comm(comm);
        let count = count_in(&x.group, self.failures()) as u16;
        Event::Settle {
            comm: x.comm,
            round: x.next_agreement,
            rank: self.number(),
            given: Contribution {
                offer,
                known: Known { count },
                acked: Acked { count: x.acked },
            },
        }
    }

    // The mark of the next member that a marking comes to.
    fn marked_by(&self, marks: &MarkAll) -> Event<P>
        requires few { marks.now.known < 1024 }
        requires more { marks.now.next < length self.now.seen }
        ensures { (mark : MarkCount) × (mark.known.count ≡ marks.now.known + 1)
            × (result ≡ MarkedAt marks.now.comm marks.now.round (slice_index self.now.seen marks.now.next) mark) }
    {
        let count = marks.known + 1;
        Event::Mark {
            comm: marks.comm,
            round: marks.round,
            rank: self.failures()[marks.next],
            known: MarkCount {
                known: Known { count },
            },
        }
    }

    // The event that a call's next exchange is for, by where it stands.
    fn proposed_by<W: Words<P, A>>(
        &self,
        _words: &W,
        _pass: &W::Pass,
        way: &Way<P, A>,
    ) -> Option<Event<P>>
        requires of { IsView P.meld (view_of P.pack (W.name _words.now) (W.sight _pass.now)) }
        requires stood { MayStep P.meld way.now (local self.now (view_of P.pack (W.name _words.now) (W.sight _pass.now))) }
        ensures when { is_some result ≡ proposes way.now.phase }
        ensures event { IfSome result (Proposes self.now way.now.asked way.now.phase) }
    {
        let comm = comm_of(&way.asked);
        match &way.phase {
            Phase::Spreading { offer, .. } => Some(self.given_to(comm, *offer)),
            Phase::Settling { offer, .. } => Some(self.given_to(comm, *offer)),
            Phase::Arriving { round } => Some(Event::Arrive {
                comm,
                round: *round,
                rank: self.number(),
            }),
            Phase::Revoking => Some(Event::Revoke { comm }),
            Phase::Marking { marks, .. } => Some(self.marked_by(marks)),
            Phase::Spawning { append, .. } => spawned_by(append),
            _ => None,
        }
    }
}

impl<P: Packed, A: Allocator + Copy> Rank<P, A> {
    /// The event that the call's next exchange is for, in the rank's name: what the next step adds if it comes first to its place. None where
    /// the next step is no exchange of an event: a load, or an exchange of a block's word. Before a contribution stands its wing: there it is
    /// the contribution that comes behind it, which two steps make. It makes no atomic step and takes no memory.
    ///
    /// ```
    /// let asked = Call::Revoke {
    ///     rank: rank.number(),
    ///     comm: 0,
    /// };
    /// let mut doing = rank.begin(asked);
    /// assert!(rt; rank.proposal(&world, &pass, &doing).is_none());
    /// // The call looks for failures first.
    /// rank.step(&world, &mut pass, &mut doing);
    /// let event = Event::Revoke { comm: 0 };
    /// let by = Caller::Rank(rank.number());
    /// assert!(rt; rank.proposal(&world, &pass, &doing) == Some(Entry { by, event }));
    /// ```
    pub fn proposal<W: Words<P, A>>(
        &self,
        world: &World<W, P, A>,
        pass: &W::Pass,
        doing: &Doing<P, A>,
    ) -> Option<Entry<P>>
        requires of { IsView P.meld (view_of P.pack world.now (W.sight pass.now)) }
        requires stood { MayStep P.meld doing.now.way (local self.now.own (view_of P.pack world.now (W.sight pass.now))) }
        ensures when { is_some result ≡ proposes doing.now.way.phase }
        ensures mine { IfSome result (λ e. e.by ≡ OfRank self.now.own.number) }
        ensures event { IfSome result (λ e. Proposes self.now.own doing.now.way.asked doing.now.way.phase e.event) }
    {
        let own = &self.own;
        let event = own.proposed_by(&world.words, pass, &doing.way)?;
        let by = Caller::Rank(own.number());
        Some(Entry { by, event })
    }
}
