// Reading a round, in the order of its members, up to the first who isn't settled. A member that was found settled stays so
// and says the same; that one is missing holds at its load alone.
ghost use Rattle.std.specs.Prelude.{◌≡◌, ◌≤◌, ◌<◌, None, Some, false, true, length, MatchBool, MatchOption};
ghost use Rattle.ulfm_laws.specs.Summaries.{summary_unit};
ghost use Rattle.ulfm_words.specs.Steps.{view_of, Goes, seen_in, steps_in};
ghost use Rattle.ulfm_model.specs.Blocks.{IsSummed};
ghost use Rattle.ulfm_steps.specs.Rounds.{IsMissingIn};
ghost use Rattle.ulfm_steps.specs.Turns.{running};
ghost use Rattle.ulfm_intruder.specs.Readings.{MayReadRound, ReadsRound, halves_read, reads_left};

use std::alloc::Allocator;
use ulfm_laws::meld::{Meld, Packed};
use ulfm_laws::summary::Summary;
use ulfm_words::{Found, Words, load_rest, load_slot};

/// A reading that is under way.
#[derive(Clone, Copy)]
pub struct ReadRound<P: Packed> {
    /// The communicator's number.
    pub comm: u16,
    /// The agreement round, counted from 0.
    pub round: u16,
    /// How many members were found settled, the first of the communicator's.
    pub read: usize,
    /// What these say together.
    pub all: Summary<P>,
    /// The first word of the next member's contribution, where that was loaded and its wing comes next.
    pub first: Option<u64>,
}

impl<P: Packed> ReadRound<P> {
    /// A reading that has read nothing yet.
    pub fn new(comm: u16, round: u16) -> ReadRound<P>
        ensures { result ≡ record { comm = comm; round = round; read = 0; all = summary_unit; first = None } }
    {
        ReadRound {
            comm,
            round,
            read: 0,
            all: Summary::unit(),
            first: None,
        }
    }

    /// One load, of the next member's place or of its wing: whether the member is settled.
    #[inline(always)]
    pub fn step<A: Allocator, W: Words<P, A>>(
        &mut self,
        words: &W,
        pass: &mut W::Pass,
        group: &[u16],
    ) -> bool
        requires may { MayReadRound P.meld group.now (running self.old (view_of P.pack (W.name words.now) (W.sight pass.old))) }
        requires more { self.old.read < length group.now }
        ensures reads { ReadsRound P.meld W.alone false group.now (running self.old (view_of P.pack (W.name words.now) (W.sight pass.old))) result
            (running self.new (view_of P.pack (W.name words.now) (W.sight pass.new))) }
        ensures further { MatchBool result (halves_read self.old < halves_read self.new) (self.new ≡ self.old) }
    {
        let rank = group[self.read];
        match self.first {
            None => match load_slot(words, pass, self.comm, self.round, rank) {
                Found::Nothing => false,
                Found::Marked(said) => {
                    self.all = self.all.meld(&said);
                    self.read += 1;
                    true
                }
                Found::First(word) => {
                    self.first = Some(word);
                    true
                }
            },
            Some(first) => {
                let said = load_rest(words, pass, self.comm, self.round, rank, first);
                self.all = self.all.meld(&said);
                self.read += 1;
                self.first = None;
                true
            }
        }
    }

    /// One load; or, where the whole reading is made at once, all that are left. Whether each member that was loaded is settled.
    #[inline(always)]
    pub fn advance<A: Allocator, W: Words<P, A>>(
        &mut self,
        words: &W,
        pass: &mut W::Pass,
        group: &[u16],
        whole: bool,
    ) -> bool
        requires may { MayReadRound P.meld group.now (running self.old (view_of P.pack (W.name words.now) (W.sight pass.old))) }
        requires more { self.old.read < length group.now }
        ensures reads { ReadsRound P.meld W.alone whole group.now (running self.old (view_of P.pack (W.name words.now) (W.sight pass.old))) result
            (running self.new (view_of P.pack (W.name words.now) (W.sight pass.new))) }
        ensures onward { MatchBool result (halves_read self.old < halves_read self.new) (halves_read self.old ≤ halves_read self.new) }
        ensures done { result ≡ true → whole ≡ true → self.new.read ≡ length group.now }
    {
        // The loop works on a copy, which needs no memory.
        let mut reading = *self;
        while reading.read < group.len() {
            let settled = reading.step(words, pass, group);
            if !settled || !whole {
                *self = reading;
                return settled;
            }
        }
        *self = reading;
        true
    }

    /// All steps that are left: what all members say together, where each is settled.
    #[inline(always)]
    pub fn finish<A: Allocator, W: Words<P, A>>(
        mut self,
        words: &W,
        pass: &mut W::Pass,
        group: &[u16],
    ) -> Option<Summary<P>>
        requires may { MayReadRound P.meld group.now (running self (view_of P.pack (W.name words.now) (W.sight pass.old))) }
        requires within { self.read ≤ length group.now }
        ensures goes { Goes P.meld W.alone false (reads_left group.now self) (view_of P.pack (W.name words.now) (W.sight pass.old))
            (view_of P.pack (W.name words.now) (W.sight pass.new)) }
        ensures loaded { MatchOption result
            (steps_in (view_of P.pack (W.name words.now) (W.sight pass.old)) < steps_in (view_of P.pack (W.name words.now) (W.sight pass.new))) (λ _. Unit {0}) }
        ensures read { MatchOption result (IsMissingIn (view_of P.pack (W.name words.now) (W.sight pass.new)) self.comm self.round group.now)
            (IsSummed P.meld (seen_in (view_of P.pack (W.name words.now) (W.sight pass.new))) self.comm self.round group.now) }
    {
        if self.read < group.len() && !self.advance(words, pass, group, true) {
            return None;
        }
        Some(self.all)
    }
}
