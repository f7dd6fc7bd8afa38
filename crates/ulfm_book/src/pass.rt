//! What one caller has seen of shared words, the atomic steps that it makes from there, and what it tells another.
ghost use Rattle.std.specs.Prelude.{◌≡◌, ◌%◌, ◌^◌, [], false};
ghost use Rattle.ulfm_model.specs.Blocks.{IsBlock, IsBlockWithin};
ghost use Rattle.ulfm_model.specs.History.{IsLegal};
ghost use Rattle.ulfm_model.specs.Words.{word_at};
ghost use Rattle.ulfm_words.specs.Blocks.{Caches, IsSpread, IsSpreadBlock, LoadsBlock, LoadsWing, MaySetWing, SetsWing};
ghost use Rattle.ulfm_words.specs.Places.{IsWingWithin, IsWithin};
ghost use Rattle.ulfm_words.specs.Steps.{coding, view_of, IsView, IsWingedIn, Loads, MaySet, Sets, Learns};
ghost use Rattle.ulfm_book.specs.Logs.{IsLog};
ghost use Rattle.ulfm_book.specs.Rules.{book_of, sight_of, word_named};
ghost use Rattle.ulfm_book.specs.Layout.{block_offset, place_offset, wing_offset};

use crate::line::Line;
use crate::rule::{Exchange, Law, Load, Nothing};
use logbook::{Offer, Seen, Word};
use std::marker::Model;
use ulfm_laws::meld::Packed;
use ulfm_model::block::{Beside, Block, Wing};
use ulfm_model::event::Caller;
use ulfm_model::place::Place;
use ulfm_words::{Site, Step, Trail};

/// What one caller has seen of shared words. It has no bytes, and may go to another thread. Contracts see it as a `Sight`.
#[derive(Drop)]
pub struct BookPass<P: Packed> {
    seen: Seen<Line<P>, u64, Law<P>>,
    // The steps so far.
    trail: Trail,
}

impl<P: Packed> Model for BookPass<P> {
    ghost use Rattle.ulfm_words.specs.Steps.{Sight};
    ghost use Rattle.ulfm_book.specs.Logs.{IsLog};
    ghost use Rattle.ulfm_book.specs.Rules.{sight_of};

    ghost Value = { Sight P };

    ghost view = { λ p. sight_of p.seen.book p.seen.log p.trail.log.items };

    ghost invariant = { λ p. IsLog P.meld p.seen.log };
}

/// All that a pass had seen when it told it. It has no bytes, and may go to another thread. Contracts see it as a `Heard`.
#[derive(Drop)]
pub struct BookTold<P: Packed> {
    seen: Seen<Line<P>, u64, Law<P>>,
}

impl<P: Packed> Model for BookTold<P> {
    ghost use Rattle.ulfm_words.specs.Steps.{Heard};
    ghost use Rattle.ulfm_book.specs.Logs.{IsLog};
    ghost use Rattle.ulfm_book.specs.Rules.{heard_of};

    ghost Value = { Heard P };

    ghost view = { λ t. heard_of t.seen.book t.seen.log };

    ghost invariant = { λ t. IsLog P.meld t.seen.log };
}

/// A word that callers share, under the one rule.
pub(crate) type Shared<P> = Word<Line<P>, u64, Law<P>>;

// A pass loads a word for a step at a site, and notes that: the word that it finds.
macro_rules! load_noted {
    ($pass:expr, $word:expr, $step:expr, $at:expr, $of:ty, $site:ty) => {{
        let mut offer: Offer<Line<P>, u64, Law<P>, Nothing> =
            $pass.seen.plain::<Nothing, $of, Exchange<P, $site>>(&$step);
        let found = $word.load::<Load<P, $site>, Nothing>(&mut $pass.seen, &mut offer);
        $pass.trail = $pass.trail.and($at, found, true);
        found
    }};
}

// A pass exchanges a word from 0 for a step, and the word that it finds gets this name.
macro_rules! exchange {
    (let $found:ident = $pass:expr, $word:expr, $put:expr, $step:expr, $of:ty, $site:ty) => {
        let mut offer: Offer<Line<P>, u64, Law<P>, Nothing> =
            $pass.seen.plain::<Nothing, $of, Exchange<P, $site>>(&$step);
        let mut pen = $pass.seen.no_pen();
        let $found = $word.compare_exchange::<Exchange<P, $site>, Nothing>(
            0,
            $put,
            &mut $pass.seen,
            &mut offer,
            &mut pen,
        );
    };
}

impl<P: Packed> BookPass<P> {
    // A pass that goes on from here.
    pub(crate) fn new(start: &Seen<Line<P>, u64, Law<P>>) -> BookPass<P>
        requires { IsLog P.meld start.now.log }
        ensures { result ≡ sight_of start.now.book start.now.log [] }
    {
        BookPass {
            seen: start.again(),
            trail: Trail::new(),
        }
    }

    // The word of this place is loaded.
    pub(crate) fn load(&mut self, word: &Shared<P>, place: Place) -> u64
        requires of { IsView P.meld (view_of P.pack self.old.name self.old) }
        requires within { IsWithin self.old.name.limits place }
        requires word { word.now ≡ word_named (book_of self.old.name) (place_offset self.old.name.limits place) }
        ensures loads { Loads P.meld P.pack false place (view_of P.pack self.old.name self.old) (view_of P.pack self.old.name self.new) }
        ensures found { result ≡ word_at P.pack self.new.seen place }
    {
        let nothing = Step {
            place,
            word: 0,
            half: 0,
            by: Caller::Outside,
        };
        load_noted!(self, word, nothing, Site::Place(place), Step, Place)
    }

    // The word of the step's place is set, if it is 0.
    pub(crate) fn set_once(&mut self, word: &Shared<P>, step: Step) -> Result<(), u64>
        requires of { IsView P.meld (view_of P.pack self.old.name self.old) }
        requires within { IsWithin self.old.name.limits step.place }
        requires word { word.now ≡ word_named (book_of self.old.name) (place_offset self.old.name.limits step.place) }
        requires may { MaySet P.meld P.pack P.unpack self.old.name.limits self.old.seen step }
        requires winged { IsWingedIn (coding P.pack P.unpack) (view_of P.pack self.old.name self.old) step }
        ensures { Sets P.meld (coding P.pack P.unpack) false step (view_of P.pack self.old.name self.old) result (view_of P.pack self.old.name self.new) }
    {
        exchange!(let found = self, word, step.word, step, Step, Place);
        self.trail = self.trail.and(Site::Place(step.place), found, false);
        if found == 0 { Ok(()) } else { Err(found) }
    }

    // The word of this block is loaded.
    pub(crate) fn load_block(&mut self, word: &Shared<P>, block: Block) -> u64
        requires of { IsView P.meld (view_of P.pack self.old.name self.old) }
        requires within { IsBlockWithin self.old.name.limits block }
        requires word { word.now ≡ word_named (book_of self.old.name) (block_offset self.old.name.limits block) }
        ensures { LoadsBlock P.meld P.pack false block result (view_of P.pack self.old.name self.old) (view_of P.pack self.old.name self.new) }
    {
        let beside = Beside::Block(block);
        load_noted!(self, word, beside, Site::Block(block), Beside, Block)
    }

    // The word of this block is set, if it is 0.
    pub(crate) fn cache(&mut self, word: &Shared<P>, block: Block, said: u64) -> Result<(), u64>
        requires of { IsView P.meld (view_of P.pack self.old.name self.old) }
        requires within { IsBlockWithin self.old.name.limits block }
        requires word { word.now ≡ word_named (book_of self.old.name) (block_offset self.old.name.limits block) }
        requires may { IsBlock P.meld P.pack self.old.name.limits.ranks self.old.seen block said }
        requires winged { IsSpreadBlock (view_of P.pack self.old.name self.old) block }
        ensures { Caches P.meld false block said (view_of P.pack self.old.name self.old) result (view_of P.pack self.old.name self.new) }
    {
        let beside = Beside::Block(block);
        exchange!(let stood = self, word, said, beside, Beside, Block);
        self.trail = self.trail.and(Site::Block(block), stood, false);
        if stood == 0 { Ok(()) } else { Err(stood) }
    }

    // This wing is loaded.
    pub(crate) fn load_wing(&mut self, word: &Shared<P>, wing: Wing) -> u64
        requires of { IsView P.meld (view_of P.pack self.old.name self.old) }
        requires within { IsWingWithin self.old.name.limits wing }
        requires word { word.now ≡ word_named (book_of self.old.name) (wing_offset self.old.name.limits wing) }
        requires stands { IsSpread (view_of P.pack self.old.name self.old) wing }
        ensures { LoadsWing P.meld P.pack false wing result (view_of P.pack self.old.name self.old) (view_of P.pack self.old.name self.new) }
    {
        let beside = Beside::Wing { wing, word: 0 };
        load_noted!(self, word, beside, Site::Wing(wing), Beside, Wing)
    }

    // This wing is set, if it is 0.
    pub(crate) fn set_wing(&mut self, word: &Shared<P>, wing: Wing, upper: u64) -> Result<(), u64>
        requires of { IsView P.meld (view_of P.pack self.old.name self.old) }
        requires within { IsWingWithin self.old.name.limits wing }
        requires word { word.now ≡ word_named (book_of self.old.name) (wing_offset self.old.name.limits wing) }
        requires may { MaySetWing P.meld P.pack (view_of P.pack self.old.name self.old) wing upper }
        ensures { SetsWing P.meld false wing upper (view_of P.pack self.old.name self.old) result (view_of P.pack self.old.name self.new) }
    {
        let beside = Beside::Wing { wing, word: upper };
        exchange!(let before = self, word, upper, beside, Beside, Wing);
        let stands = if before == 0 { upper } else { before };
        self.trail = self.trail.and(Site::Wing(wing), stands, false);
        if before == 0 { Ok(()) } else { Err(before) }
    }

    // All that was seen.
    pub(crate) fn told(&self) -> BookTold<P>
        ensures name { result.name ≡ self.now.name }
        ensures seen { result.seen ≡ self.now.seen }
        ensures cached { result.cached ≡ self.now.cached }
    {
        BookTold {
            seen: self.seen.again(),
        }
    }

    // What was told is seen, too.
    pub(crate) fn learn(&mut self, told: &BookTold<P>)
        requires of { IsView P.meld (view_of P.pack self.old.name self.old) }
        requires told { told.now.name ≡ self.old.name }
        ensures { Learns P.meld false told.now (view_of P.pack self.old.name self.old) (view_of P.pack self.old.name self.new) }
    {
        self.seen.learn(&told.seen);
    }

    // How many atomic steps it has made, modulo 2^64.
    pub(crate) fn steps_made(&self) -> u64
        ensures { result ≡ self.now.steps % 2 ^ 64 }
    {
        self.trail.made()
    }

    // What was seen is legal. It does nothing.
    pub(crate) fn known_legal(&self)
        ensures { IsLegal P.meld self.now.name.limits self.now.seen }
    {
        let _ = &self.seen;
    }
}
