// A look at the list of failures, from behind what was found of it before to its first empty place, or its last one. What it has found
// begins the list from the load on that found it; at its end the list is that and no more.
ghost use Rattle.std.specs.Prelude.{◌≡◌, ◌+◌, ◌<◌, ◌≤◌, [], false, true, vec_capacity, vec_len, if◌then◌else◌};
ghost use Rattle.ulfm_model.specs.History.{failures};
ghost use Rattle.ulfm_words.specs.Steps.{view_of, IsView, Goes, limits_in, seen_in};
ghost use Rattle.ulfm_steps.specs.Looks.{LookIsIn, LookTakesIn};

use std::alloc::Allocator;
use ulfm_laws::meld::Packed;
use ulfm_words::{Words, load_failure};

/// A look that is under way. What it has found stands in a vector of the caller's, with room for all ranks.
#[derive(Drop)]
pub struct Look {
    /// Whether it has come to its end.
    pub done: bool,
}

impl Look {
    /// A look that has found nothing yet: the vector is emptied, and keeps its room.
    pub fn new<B: Allocator>(found: &mut Vec<u16, B>) -> Look
        ensures going { result.done ≡ false }
        ensures found { found.new.items ≡ [] }
        ensures room { vec_capacity found.old ≤ vec_capacity found.new }
    {
        found.clear();
        Look { done: false }
    }

    // One load, of the next place.
    #[inline(always)]
    fn step<P: Packed, A: Allocator, W: Words<P, A>, B: Allocator>(
        &mut self,
        words: &W,
        pass: &mut W::Pass,
        found: &mut Vec<u16, B>,
    )
        requires of { IsView P.meld (view_of P.pack (W.name words.now) (W.sight pass.old)) }
        requires going { self.old.done ≡ false }
        requires look { LookIsIn (view_of P.pack (W.name words.now) (W.sight pass.old)) false found.old.items }
        requires room { (limits_in (view_of P.pack (W.name words.now) (W.sight pass.old))).ranks ≤ vec_capacity found.old }
        ensures goes { Goes P.meld W.alone false 1 (view_of P.pack (W.name words.now) (W.sight pass.old)) (view_of P.pack (W.name words.now) (W.sight pass.new)) }
        ensures takes { LookTakesIn false found.old.items self.new.done found.new.items (view_of P.pack (W.name words.now) (W.sight pass.old))
            (view_of P.pack (W.name words.now) (W.sight pass.new)) }
        ensures look { LookIsIn (view_of P.pack (W.name words.now) (W.sight pass.new)) self.new.done found.new.items }
        ensures further { self.new.done ≡ false → vec_len found.new ≡ vec_len found.old + 1 }
        ensures room { vec_capacity found.old ≤ vec_capacity found.new }
    {
        let ranks = words.limits().ranks;
        match load_failure(words, pass, found.len() as u16) {
            None => self.done = true,
            Some(rank) => {
                let _ = found.push(rank);
                self.done = found.len() == ranks as usize;
            }
        }
    }

    /// One load; or, where the whole look is made at once, all that are left.
    #[inline(always)]
    pub fn advance<P: Packed, A: Allocator, W: Words<P, A>, B: Allocator>(
        &mut self,
        words: &W,
        pass: &mut W::Pass,
        found: &mut Vec<u16, B>,
        whole: bool,
    )
        requires of { IsView P.meld (view_of P.pack (W.name words.now) (W.sight pass.old)) }
        requires going { self.old.done ≡ false }
        requires look { LookIsIn (view_of P.pack (W.name words.now) (W.sight pass.old)) false found.old.items }
        requires room { (limits_in (view_of P.pack (W.name words.now) (W.sight pass.old))).ranks ≤ vec_capacity found.old }
        ensures goes { Goes P.meld W.alone false (if whole then (limits_in (view_of P.pack (W.name words.now) (W.sight pass.old))).ranks else 1)
            (view_of P.pack (W.name words.now) (W.sight pass.old)) (view_of P.pack (W.name words.now) (W.sight pass.new)) }
        ensures takes { LookTakesIn whole found.old.items self.new.done found.new.items (view_of P.pack (W.name words.now) (W.sight pass.old))
            (view_of P.pack (W.name words.now) (W.sight pass.new)) }
        ensures look { LookIsIn (view_of P.pack (W.name words.now) (W.sight pass.new)) self.new.done found.new.items }
        ensures further { self.new.done ≡ false → vec_len found.new ≡ vec_len found.old + 1 }
        ensures done { whole ≡ true → self.new.done ≡ true }
        ensures room { vec_capacity found.old ≤ vec_capacity found.new }
    {
        while !self.done {
            self.step(words, pass, found);
            if !whole {
                return;
            }
        }
    }

    /// All steps that are left. The vector then has the list as it was at the last load.
    #[inline(always)]
    pub fn finish<P: Packed, A: Allocator, W: Words<P, A>, B: Allocator>(
        mut self,
        words: &W,
        pass: &mut W::Pass,
        found: &mut Vec<u16, B>,
    )
        requires of { IsView P.meld (view_of P.pack (W.name words.now) (W.sight pass.old)) }
        requires going { self.done ≡ false }
        requires look { LookIsIn (view_of P.pack (W.name words.now) (W.sight pass.old)) false found.old.items }
        requires room { (limits_in (view_of P.pack (W.name words.now) (W.sight pass.old))).ranks ≤ vec_capacity found.old }
        ensures goes { Goes P.meld W.alone false (limits_in (view_of P.pack (W.name words.now) (W.sight pass.old))).ranks
            (view_of P.pack (W.name words.now) (W.sight pass.old)) (view_of P.pack (W.name words.now) (W.sight pass.new)) }
        ensures found { found.new.items ≡ failures (seen_in (view_of P.pack (W.name words.now) (W.sight pass.new))) }
        ensures room { vec_capacity found.old ≤ vec_capacity found.new }
    {
        self.advance(words, pass, found, true);
    }
}
