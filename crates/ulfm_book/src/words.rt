//! The words of a world as threads share them: a row in memory, with the steps that `ulfm_words` asks of words.
ghost use Rattle.std.specs.Prelude.{◌≡◌, true, false, IfOk, IfErr};
ghost use Rattle.ulfm_model.specs.Blocks.{IsBlockWithin};
ghost use Rattle.ulfm_model.specs.Words.{MayOpen};
ghost use Rattle.ulfm_words.specs.Places.{IsWingWithin, IsWithin};
ghost use Rattle.ulfm_book.specs.Rules.{IsFault, book_of, word_named};
ghost use Rattle.ulfm_book.specs.Layout.{block_offset, row_length, place_offset, wing_offset};

use crate::line::Line;
use crate::pass::{BookPass, BookTold, Shared};
use crate::rule::{Law, Opens};
use crate::seats::{Starts, block_in_row, place_in_row, starts_in, wing_in_row};
use logbook::{Seen, Start, Word};
use std::alloc::{AllocError, Allocator, Global};
use std::marker::Model;
use ulfm_laws::meld::Packed;
use ulfm_model::block::{Block, Wing};
use ulfm_model::limits::{Limits, OpenFault};
use ulfm_model::place::Place;
use ulfm_words::{OpenWords, Step, Words};

/// The words of a world, shared by threads: eight bytes each. A slot and a block have a second word, the wing, with the upper
/// half of the payload. All passes have seen beginnings of one history. Contracts see the words as their name.
#[derive(Drop)]
pub struct BookWords<P: Packed, A: Allocator = Global> {
    // One for each place, in the order of `place_in_row`, and then one for each block, in that of `block_in_row`. The wing of a
    // slot or of a block stands right behind its word.
    words: Vec<Shared<P>, A>,
    limits: Limits,
    starts: Starts,
    // The log as it was opened, from which new passes go on.
    start: Seen<Line<P>, u64, Law<P>>,
}

impl<P: Packed, A: Allocator> Model for BookWords<P, A> {
    ghost use Rattle.std.specs.Prelude.{◌≡◌, ◌*◌, ◌<◌, ℕ, [], slice_get, vec_len, Some};
    ghost use Rattle.ulfm_model.specs.Words.{MayOpen};
    ghost use Rattle.ulfm_words.specs.Steps.{Name};
    ghost use Rattle.ulfm_book.specs.Logs.{log_of};
    ghost use Rattle.ulfm_book.specs.Rules.{name_of, word_named};
    ghost use Rattle.ulfm_book.specs.Layout.{arrivals_from, blocks_from, row_length, slots_from};

    ghost Value = { Name };

    ghost view = { λ w. name_of w.start.book w.limits };

    ghost invariant = { λ w. MayOpen w.limits × (w.start.log ≡ log_of w.limits) × (vec_len w.words ≡ row_length w.limits)
        × ((key : ℕ) → key < row_length w.limits → slice_get w.words.items key ≡ Some (word_named w.start.book key))
        × (w.starts.slots ≡ slots_from w.limits) × (w.starts.arrivals ≡ arrivals_from w.limits)
        × (w.starts.blocks ≡ blocks_from w.limits) };
}

impl<P: Packed, A: Allocator> BookWords<P, A> {
    /// Words of these limits, each 0. `OutOfRange` and `TooLarge` are the first fault that the limits have, found before any
    /// memory is asked for; `OutOfMemory` comes where the limits have none and eight bytes a word were refused.
    ///
    /// ```
    /// let words: BookWords<FlagAnd> = BookWords::open(alloc, limits)?;
    /// let (outside, members) = ulfm_wait::open(alloc, words)?;
    /// ```
    pub fn open(alloc: A, limits: Limits) -> Result<BookWords<P, A>, OpenFault>
        ensures opened { IfOk result (λ w. w.limits ≡ limits) }
        ensures may_open { IfOk result (λ w. MayOpen limits) }
        ensures fault { IfErr result (IsFault limits) }
    {
        limits.check()?;
        match BookWords::in_row(alloc, limits) {
            Ok(words) => Ok(words),
            Err(AllocError) => Err(OpenFault::OutOfMemory),
        }
    }

    // The row of words.
    fn in_row(alloc: A, limits: Limits) -> Result<BookWords<P, A>, AllocError>
        requires { MayOpen limits }
        ensures { IfOk result (λ w. w.limits ≡ limits) }
    {
        let starts = starts_in(limits);
        let size = starts.blocks + 4 * (limits.rounds as usize * limits.comms as usize);
        let (start, mut pens) = Seen::open_row::<Limits, Opens>(&limits, Start::alone(), size);
        let mut words = Vec::with_capacity(alloc, size)?;
        for _i in 0..size {
            let mut pen = pens.take();
            words.push_reserved(Word::tracked(0, &mut pen));
        }
        Ok(BookWords {
            words,
            limits,
            starts,
            start,
        })
    }

    // The word of a place.
    fn word(&self, place: Place) -> &Shared<P>
        requires { IsWithin self.now.limits place }
        ensures { result.now ≡ word_named (book_of self.now) (place_offset self.now.limits place) }
    {
        &self.words[place_in_row(place, self.limits, self.starts)]
    }

    // The word of a block.
    fn block_word(&self, block: Block) -> &Shared<P>
        requires { IsBlockWithin self.now.limits block }
        ensures { result.now ≡ word_named (book_of self.now) (block_offset self.now.limits block) }
    {
        &self.words[block_in_row(block, self.limits, self.starts)]
    }

    // The word of a wing.
    fn wing_word(&self, wing: Wing) -> &Shared<P>
        requires { IsWingWithin self.now.limits wing }
        ensures { result.now ≡ word_named (book_of self.now) (wing_offset self.now.limits wing) }
    {
        &self.words[wing_in_row(wing, self.limits, self.starts)]
    }
}

impl<P: Packed, A: Allocator + Copy + Drop> Words<P, A> for BookWords<P, A> {
    type Pass = BookPass<P>;

    ghost name = { λ w. w };

    ghost alone = { false };

    ghost sight = { λ p. p };

    fn limits(&self) -> Limits {
        self.limits
    }

    fn load(&self, pass: &mut BookPass<P>, place: Place) -> u64 {
        pass.load(self.word(place), place)
    }

    fn set_once(&self, pass: &mut BookPass<P>, step: Step) -> Result<(), u64> {
        pass.set_once(self.word(step.place), step)
    }

    fn load_block(&self, pass: &mut BookPass<P>, block: Block) -> u64 {
        pass.load_block(self.block_word(block), block)
    }

    fn cache(&self, pass: &mut BookPass<P>, block: Block, word: u64) -> Result<(), u64> {
        pass.cache(self.block_word(block), block, word)
    }

    fn load_wing(&self, pass: &mut BookPass<P>, wing: Wing) -> u64 {
        pass.load_wing(self.wing_word(wing), wing)
    }

    fn set_wing(&self, pass: &mut BookPass<P>, wing: Wing, word: u64) -> Result<(), u64> {
        pass.set_wing(self.wing_word(wing), wing, word)
    }

    fn steps_made(&self, pass: &BookPass<P>) -> u64 {
        pass.steps_made()
    }

    fn known_legal(&self, pass: &BookPass<P>) {
        let _ = &self.start;
        pass.known_legal();
    }
}

impl<P: Packed, A: Allocator + Copy + Drop> OpenWords<P, A> for BookWords<P, A> {
    type Told = BookTold<P>;

    ghost tells_all = { true };

    ghost heard = { λ t. t };

    fn pass(&self, _alloc: A) -> Result<BookPass<P>, AllocError> {
        Ok(BookPass::new(&self.start))
    }

    fn told(&self, pass: &BookPass<P>) -> BookTold<P> {
        pass.told()
    }

    fn learn(&self, pass: &mut BookPass<P>, told: &BookTold<P>) {
        pass.learn(told);
    }
}
