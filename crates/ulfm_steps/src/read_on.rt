// Reading on in the list of failures, from what was seen, until so many members of a group are among the failures that were
// seen. No place is loaded but those that have to be.
ghost use Rattle.std.specs.Prelude.{◌≡◌, ◌==◌, ◌<◌, ◌≤◌, ◌+◌, ◌++◌, ◌∷◌, [], false, true, length, vec_capacity, vec_len};
ghost use Rattle.std.specs.List.Sorted.{IsStrictlyIncreasing};
ghost use mathlib.Core.List.{IsPrefix};
ghost use Rattle.ulfm_model.specs.History.{failures};
ghost use Rattle.ulfm_words.specs.Steps.{view_of, IsView, Goes, limits_in, seen_in, steps_in};
ghost use Rattle.ulfm_steps.specs.ReadsOn.{AtFailure, MayReadOn, ReadOnTakesIn};

use crate::group::is_member;
use std::alloc::Allocator;
use ulfm_laws::meld::Packed;
use ulfm_words::{Words, load_failure};

/// A reading on that is under way. The failures that were seen stand in a vector of the caller's, with room for all ranks.
#[derive(Clone, Copy, Debug, PartialEq, Eq)]
pub struct ReadOn {
    /// How many of the failures that were seen were gone through, the first of them.
    pub reach: usize,
    /// How many members of the group are among these.
    pub found: u16,
}

// One load, of the list's next place, which has a rank: that rank, which then stands behind what was seen.
#[inline(always)]
fn load_next<P: Packed, A: Allocator, W: Words<P, A>, B: Allocator>(
    words: &W,
    pass: &mut W::Pass,
    seen: &mut Vec<u16, B>,
) -> u16
    requires of { IsView P.meld (view_of P.pack (W.name words.now) (W.sight pass.old)) }
    requires begins { IsPrefix seen.old.items (failures (seen_in (view_of P.pack (W.name words.now) (W.sight pass.old)))) }
    requires more { length seen.old.items < length (failures (seen_in (view_of P.pack (W.name words.now) (W.sight pass.old)))) }
    requires room { (limits_in (view_of P.pack (W.name words.now) (W.sight pass.old))).ranks ≤ vec_capacity seen.old }
    ensures goes { Goes P.meld W.alone false 1 (view_of P.pack (W.name words.now) (W.sight pass.old)) (view_of P.pack (W.name words.now) (W.sight pass.new)) }
    ensures takes { ReadOnTakesIn false seen.old.items seen.new.items (view_of P.pack (W.name words.now) (W.sight pass.old))
        (view_of P.pack (W.name words.now) (W.sight pass.new)) }
    ensures next { seen.new.items ≡ seen.old.items ++ result ∷ [] }
    ensures begins { IsPrefix seen.new.items (failures (seen_in (view_of P.pack (W.name words.now) (W.sight pass.new)))) }
    ensures room { vec_capacity seen.old ≤ vec_capacity seen.new }
{
    let Some(rank) = load_failure(words, pass, seen.len() as u16) else {
        unreachable!()
    };
    let _ = seen.push(rank);
    rank
}

impl ReadOn {
    /// A reading on that has loaded nothing yet: what was seen is gone through, up to so many members of the group, whose
    /// ranks rise.
    pub fn new(group: &[u16], count: u16, seen: &[u16]) -> ReadOn
        requires { IsStrictlyIncreasing group.now }
        ensures { AtFailure group.now count result seen.now }
    {
        let mut at = ReadOn { reach: 0, found: 0 };
        for rank in seen {
            if at.is_done(count) {
                return at;
            }
            at.reach += 1;
            at.found += u16::from(is_member(group, *rank));
        }
        at
    }

    /// Whether so many members were found, so that nothing is left.
    #[inline(always)]
    pub fn is_done(&self, count: u16) -> bool
        ensures { result ≡ (self.now.found == count) }
    {
        self.found == count
    }

    /// One step, or, where the whole call is made at once, all that are left: so many members were found then.
    #[inline(always)]
    pub fn advance<P: Packed, A: Allocator, W: Words<P, A>, B: Allocator>(
        &mut self,
        words: &W,
        pass: &mut W::Pass,
        group: &[u16],
        count: u16,
        seen: &mut Vec<u16, B>,
        whole: bool,
    )
        requires of { IsView P.meld (view_of P.pack (W.name words.now) (W.sight pass.old)) }
        requires may { MayReadOn group.now count seen.old.items (failures (seen_in (view_of P.pack (W.name words.now) (W.sight pass.old)))) }
        requires at { AtFailure group.now count self.old seen.old.items }
        requires more { self.old.found < count }
        requires room { (limits_in (view_of P.pack (W.name words.now) (W.sight pass.old))).ranks ≤ vec_capacity seen.old }
        ensures goes { Goes P.meld W.alone false (limits_in (view_of P.pack (W.name words.now) (W.sight pass.old))).ranks
            (view_of P.pack (W.name words.now) (W.sight pass.old)) (view_of P.pack (W.name words.now) (W.sight pass.new)) }
        ensures takes { ReadOnTakesIn whole seen.old.items seen.new.items (view_of P.pack (W.name words.now) (W.sight pass.old))
            (view_of P.pack (W.name words.now) (W.sight pass.new)) }
        ensures at { AtFailure group.now count self.new seen.new.items }
        ensures further { steps_in (view_of P.pack (W.name words.now) (W.sight pass.new)) + vec_len seen.old
            ≡ steps_in (view_of P.pack (W.name words.now) (W.sight pass.old)) + vec_len seen.new }
        ensures goes_on { IsPrefix seen.old.items seen.new.items }
        ensures begins { IsPrefix seen.new.items (failures (seen_in (view_of P.pack (W.name words.now) (W.sight pass.new)))) }
        ensures room { vec_capacity seen.old ≤ vec_capacity seen.new }
        ensures done { whole ≡ true → self.new.found ≡ count }
    {
        loop {
            let rank = load_next(words, pass, seen);
            self.reach += 1;
            self.found += u16::from(is_member(group, rank));
            if !whole || self.is_done(count) {
                return;
            }
        }
    }
}
