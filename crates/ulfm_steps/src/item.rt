// What stands in the lists of failures and of communicators, which fill from the front: how many places each has, and one load or one
// exchange at a place.
ghost use Rattle.std.specs.Prelude.{◌≡◌, ◌<◌, Some, is_ok, slice_get, MatchResult};
ghost use Rattle.ulfm_words.specs.Steps.{view_of, IsView, Loads, limits_in, seen_in};
ghost use Rattle.ulfm_words.specs.Tries.{attempt, Tries, entry};
ghost use Rattle.ulfm_steps.specs.Appends.{items, room, place_at, event_at, HasRound, MayStandIn};

use std::alloc::Allocator;
use ulfm_laws::meld::Packed;
use ulfm_model::event::Caller;
use ulfm_model::limits::Limits;
use ulfm_words::{Words, load_comm, load_failure, set_comm, set_failure};

/// What stands once in a list that fills from the front.
#[derive(Clone, Copy, Debug, PartialEq, Eq)]
pub enum Item {
    /// A rank, in the list of failures.
    Failure { rank: u16 },
    /// A communicator made of this round of its parent, in the list of communicators. The list's first place is that of
    /// communicator 1.
    Comm { parent: u16, round: u16 },
}

impl Item {
    // How many places the item's list has.
    #[inline(always)]
    pub(crate) fn room_in(self, limits: Limits) -> u16
        ensures { result ≡ room self limits }
    {
        match self {
            Item::Failure { .. } => limits.ranks,
            Item::Comm { .. } => limits.comms.saturating_sub(1),
        }
    }

    // One load of a place of the item's list: what stands there, if anything does.
    #[inline(always)]
    pub(crate) fn load_at<P: Packed, A: Allocator, W: Words<P, A>>(
        self,
        words: &W,
        pass: &mut W::Pass,
        index: u16,
    ) -> Option<Item>
        requires of { IsView P.meld (view_of P.pack (W.name words.now) (W.sight pass.old)) }
        requires within { index < room self (limits_in (view_of P.pack (W.name words.now) (W.sight pass.old))) }
        ensures loads { Loads P.meld P.pack W.alone (place_at self index) (view_of P.pack (W.name words.now) (W.sight pass.old))
            (view_of P.pack (W.name words.now) (W.sight pass.new)) }
        ensures stands { result ≡ slice_get (items self (seen_in (view_of P.pack (W.name words.now) (W.sight pass.new)))) index }
    {
        match self {
            Item::Failure { .. } => match load_failure(words, pass, index) {
                None => None,
                Some(rank) => Some(Item::Failure { rank }),
            },
            Item::Comm { .. } => match load_comm(words, pass, index + 1) {
                None => None,
                Some((parent, round)) => Some(Item::Comm { parent, round }),
            },
        }
    }

    // One exchange of a place of the item's list: the item is put there, or what stands is given.
    pub(crate) fn set_at<P: Packed, A: Allocator, W: Words<P, A>>(
        self,
        words: &W,
        pass: &mut W::Pass,
        by: Caller,
        index: u16,
    ) -> Result<(), Item>
        requires of { IsView P.meld (view_of P.pack (W.name words.now) (W.sight pass.old)) }
        requires within { index < room self (limits_in (view_of P.pack (W.name words.now) (W.sight pass.old))) }
        requires may { MayStandIn P.meld (view_of P.pack (W.name words.now) (W.sight pass.old)) self index }
        requires round { HasRound (limits_in (view_of P.pack (W.name words.now) (W.sight pass.old))) self }
        ensures tries { Tries P.meld P.pack W.alone (attempt (place_at self index) (entry by (event_at self index))) (is_ok result)
            (view_of P.pack (W.name words.now) (W.sight pass.old)) (view_of P.pack (W.name words.now) (W.sight pass.new)) }
        ensures stands { MatchResult result (λ _. slice_get (items self (seen_in (view_of P.pack (W.name words.now) (W.sight pass.new)))) index ≡ Some self)
            (λ x. slice_get (items self (seen_in (view_of P.pack (W.name words.now) (W.sight pass.new)))) index ≡ Some x) }
    {
        match self {
            Item::Failure { rank } => match set_failure(words, pass, by, index, rank) {
                Ok(()) => Ok(()),
                Err(rank) => Err(Item::Failure { rank }),
            },
            Item::Comm { parent, round } => match set_comm(
                words,
                pass,
                by,
                index + 1,
                parent,
                round,
            ) {
                Ok(()) => Ok(()),
                Err((parent, round)) => Err(Item::Comm { parent, round }),
            },
        }
    }
}
