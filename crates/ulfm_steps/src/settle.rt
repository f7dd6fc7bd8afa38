// Settling the caller's own place: an exchange of its wing, and then that of its word. A place that is settled stays so, whoever won it.
ghost use Rattle.std.specs.Prelude.{◌≡◌, Some, is_ok, MatchResult};
ghost use Rattle.ulfm_model.specs.History.{slot};
ghost use Rattle.ulfm_model.specs.declared.contribution.Slot.TheVariants.{Given};
ghost use Rattle.ulfm_model.specs.declared.event.Caller.TheVariants.{Rank as ByRank};
ghost use Rattle.ulfm_model.specs.declared.event.Event.TheVariants.{Settle as SettledAt};
ghost use Rattle.ulfm_model.specs.declared.place.Place.TheVariants.{Slot as SlotAt};
ghost use Rattle.ulfm_words.specs.Steps.{view_of, IsView, seen_in};
ghost use Rattle.ulfm_words.specs.Tries.{attempt, IsSettledBy, Tries, entry};
ghost use Rattle.ulfm_steps.specs.Settles.{IsSpreadIn, MayGiveIn, Spreads};

use std::alloc::Allocator;
use ulfm_laws::meld::Packed;
use ulfm_model::block::Wing;
use ulfm_model::contribution::{Contribution, Slot};
use ulfm_model::event::Caller;
use ulfm_words::{Settled, Words, set_slot, slot_wing};

/// A rank's contribution to a round, to be made at the rank's own place and in its name.
#[derive(Drop)]
pub struct Settle<P: Packed> {
    /// The communicator's number.
    pub comm: u16,
    /// The agreement round, counted from 0.
    pub round: u16,
    /// The rank that contributes, at its own place.
    pub rank: u16,
    /// Its flag or context ids, and how many failures it knew and had acknowledged.
    pub given: Contribution<P>,
}

impl<P: Packed> Settle<P> {
    /// The exchange of the wing, which comes first: whether this step has set it. Where it was set before, the contribution can't be made any
    /// more.
    #[inline(always)]
    pub fn spread<A: Allocator, W: Words<P, A>>(&self, words: &W, pass: &mut W::Pass) -> bool
        requires of { IsView P.meld (view_of P.pack (W.name words.now) (W.sight pass.old)) }
        requires may { MayGiveIn (view_of P.pack (W.name words.now) (W.sight pass.old)) self.now.comm self.now.round self.now.rank self.now.given }
        ensures { Spreads P.meld W.alone self.now result (view_of P.pack (W.name words.now) (W.sight pass.old))
            (view_of P.pack (W.name words.now) (W.sight pass.new)) }
    {
        let wing = Wing::Slot {
            comm: self.comm,
            round: self.round,
            rank: self.rank,
        };
        let word = slot_wing(&Slot::Given(self.given));
        words.set_wing(pass, wing, word).is_ok()
    }

    /// The exchange, once the wing is set: it settles the place, or tells what has settled it.
    #[inline(always)]
    pub fn step<A: Allocator, W: Words<P, A>>(
        &self,
        words: &W,
        pass: &mut W::Pass,
    ) -> Result<(), Settled>
        requires of { IsView P.meld (view_of P.pack (W.name words.now) (W.sight pass.old)) }
        requires may { MayGiveIn (view_of P.pack (W.name words.now) (W.sight pass.old)) self.now.comm self.now.round self.now.rank self.now.given }
        requires winged { IsSpreadIn (view_of P.pack (W.name words.now) (W.sight pass.old)) self.now.comm self.now.round self.now.rank
            self.now.given.offer }
        ensures tries { Tries P.meld P.pack W.alone (attempt (SlotAt self.now.comm self.now.round self.now.rank)
            (entry (ByRank self.now.rank) (SettledAt self.now.comm self.now.round self.now.rank self.now.given))) (is_ok result)
            (view_of P.pack (W.name words.now) (W.sight pass.old)) (view_of P.pack (W.name words.now) (W.sight pass.new)) }
        ensures stands { MatchResult result
            (λ _. slot (seen_in (view_of P.pack (W.name words.now) (W.sight pass.new))) self.now.comm self.now.round self.now.rank ≡ Some (Given self.now.given))
            (IsSettledBy (slot (seen_in (view_of P.pack (W.name words.now) (W.sight pass.new))) self.now.comm self.now.round self.now.rank)) }
    {
        let put = Slot::Given(self.given);
        let by = Caller::Rank(self.rank);
        set_slot(words, pass, by, self.comm, self.round, self.rank, put)
    }
}
