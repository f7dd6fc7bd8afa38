// Appending an item to a list that fills from the front, unless it is there: at each place a load and, where nothing stands,
// an exchange. A place that was passed has another item for good, so the first place that is empty is the next one.
ghost use Rattle.std.specs.Prelude.{◌≡◌, ◌<◌, ◌≤◌, ◌+◌, ◌*◌, ◌-◌, false, MatchOption};
ghost use Rattle.ulfm_words.specs.Steps.{view_of, IsView, Goes, limits_in, seen_in};
ghost use Rattle.ulfm_steps.specs.Appends.{wanted, AppendTakes, Appends, FoundEmpty, HasRound, Passed, room, MayAppendIn, MayGoOn};
ghost use Rattle.ulfm_steps.specs.Turns.{WhileOn};

use crate::item::Item;
use std::alloc::Allocator;
use ulfm_laws::meld::Packed;
use ulfm_model::event::Caller;
use ulfm_words::Words;

/// How an appending ended.
#[derive(Clone, Copy, Debug, PartialEq, Eq)]
pub enum Appended {
    /// The item was put at this place, the next one, by this call.
    Won(u16),
    /// The item stands at this place.
    Found(u16),
    /// All places have other items.
    Full,
}

/// An appending that is under way.
#[derive(Clone, Copy, Debug, PartialEq, Eq)]
pub struct Append {
    /// What is to stand in its list.
    pub item: Item,
    /// In whose name.
    pub by: Caller,
    /// The place that is tried. Those before it have other items.
    pub index: u16,
    /// Whether its load found nothing, so that an exchange comes next.
    pub empty: bool,
}

impl Append {
    /// An appending that has tried no place yet.
    pub fn new(item: Item, by: Caller) -> Append
        ensures { result ≡ record { item = item; by = by; index = 0; empty = false } }
    {
        Append {
            item,
            by,
            index: 0,
            empty: false,
        }
    }

    // One load or one exchange, at the place that is tried: how the appending ended, if it did.
    #[inline(always)]
    fn step<P: Packed, A: Allocator, W: Words<P, A>>(
        &mut self,
        words: &W,
        pass: &mut W::Pass,
    ) -> Option<Appended>
        requires { MayGoOn P.meld (view_of P.pack (W.name words.now) (W.sight pass.old)) self.old }
        ensures same { (self.new.item ≡ self.old.item) × (self.new.by ≡ self.old.by) }
        ensures goes { MatchOption result (Goes P.meld W.alone false 1 (view_of P.pack (W.name words.now) (W.sight pass.old))
            (view_of P.pack (W.name words.now) (W.sight pass.new)))
            (λ a. Appends P.meld W.alone (wanted self.old.item self.old.by) 1 (view_of P.pack (W.name words.now) (W.sight pass.old)) a
            (view_of P.pack (W.name words.now) (W.sight pass.new))) }
        ensures takes { AppendTakes false self.old result self.new (view_of P.pack (W.name words.now) (W.sight pass.old))
            (view_of P.pack (W.name words.now) (W.sight pass.new)) }
        ensures passed { WhileOn result (Passed (seen_in (view_of P.pack (W.name words.now) (W.sight pass.new))) self.old.item self.new.index) }
        ensures empty { WhileOn result (FoundEmpty (seen_in (view_of P.pack (W.name words.now) (W.sight pass.new))) self.new) }
        ensures within { WhileOn result (self.new.index < room self.old.item (limits_in (view_of P.pack (W.name words.now) (W.sight pass.old)))) }
    {
        let standing = if self.empty {
            match self.item.set_at(words, pass, self.by, self.index) {
                Ok(()) => return Some(Appended::Won(self.index)),
                Err(other) => other,
            }
        } else {
            match self.item.load_at(words, pass, self.index) {
                None => {
                    self.empty = true;
                    return None;
                }
                Some(other) => other,
            }
        };
        if standing == self.item {
            return Some(Appended::Found(self.index));
        }
        self.empty = false;
        self.index += 1;
        if self.index == self.item.room_in(words.limits()) {
            return Some(Appended::Full);
        }
        None
    }

    /// One load or one exchange; or, where the whole appending is made at once, all steps that are left. How it ended, if it
    /// did.
    #[inline(always)]
    pub fn advance<P: Packed, A: Allocator, W: Words<P, A>>(
        &mut self,
        words: &W,
        pass: &mut W::Pass,
        whole: bool,
    ) -> Option<Appended>
        requires of { IsView P.meld (view_of P.pack (W.name words.now) (W.sight pass.old)) }
        requires may { MayAppendIn P.meld (view_of P.pack (W.name words.now) (W.sight pass.old)) self.old.item }
        requires round { HasRound (limits_in (view_of P.pack (W.name words.now) (W.sight pass.old))) self.old.item }
        requires passed { Passed (seen_in (view_of P.pack (W.name words.now) (W.sight pass.old))) self.old.item self.old.index }
        requires more { self.old.index < room self.old.item (limits_in (view_of P.pack (W.name words.now) (W.sight pass.old))) }
        ensures same { (self.new.item ≡ self.old.item) × (self.new.by ≡ self.old.by) }
        ensures goes { MatchOption result (Goes P.meld W.alone false (2 * room self.old.item (limits_in (view_of P.pack (W.name words.now) (W.sight pass.old))))
            (view_of P.pack (W.name words.now) (W.sight pass.old)) (view_of P.pack (W.name words.now) (W.sight pass.new)))
            (λ a. Appends P.meld W.alone (wanted self.old.item self.old.by)
            (2 * room self.old.item (limits_in (view_of P.pack (W.name words.now) (W.sight pass.old))))
            (view_of P.pack (W.name words.now) (W.sight pass.old)) a (view_of P.pack (W.name words.now) (W.sight pass.new))) }
        ensures takes { AppendTakes whole self.old result self.new (view_of P.pack (W.name words.now) (W.sight pass.old))
            (view_of P.pack (W.name words.now) (W.sight pass.new)) }
        ensures passed { WhileOn result (Passed (seen_in (view_of P.pack (W.name words.now) (W.sight pass.new))) self.old.item self.new.index) }
        ensures empty { WhileOn result (FoundEmpty (seen_in (view_of P.pack (W.name words.now) (W.sight pass.new))) self.new) }
        ensures within { WhileOn result (self.new.index < room self.old.item (limits_in (view_of P.pack (W.name words.now) (W.sight pass.old)))) }
        ensures done { WhileOn result (whole ≡ false) }
    {
        loop {
            let end = self.step(words, pass);
            if !whole || end.is_some() {
                return end;
            }
        }
    }

    /// All steps that are left. It takes two steps at most for each place of the list.
    #[inline(never)]
    pub fn finish<P: Packed, A: Allocator, W: Words<P, A>>(
        mut self,
        words: &W,
        pass: &mut W::Pass,
    ) -> Appended
        requires of { IsView P.meld (view_of P.pack (W.name words.now) (W.sight pass.old)) }
        requires may { MayAppendIn P.meld (view_of P.pack (W.name words.now) (W.sight pass.old)) self.item }
        requires round { HasRound (limits_in (view_of P.pack (W.name words.now) (W.sight pass.old))) self.item }
        requires passed { Passed (seen_in (view_of P.pack (W.name words.now) (W.sight pass.old))) self.item self.index }
        requires within { self.index ≤ room self.item (limits_in (view_of P.pack (W.name words.now) (W.sight pass.old))) }
        ensures { Appends P.meld W.alone (wanted self.item self.by) (2 * room self.item (limits_in (view_of P.pack (W.name words.now) (W.sight pass.old))))
            (view_of P.pack (W.name words.now) (W.sight pass.old)) result (view_of P.pack (W.name words.now) (W.sight pass.new)) }
    {
        let places = self.item.room_in(words.limits());
        if self.index == places {
            return Appended::Full;
        }
        match self.advance(words, pass, true) {
            Some(end) => end,
            None => unreachable!(),
        }
    }
}
