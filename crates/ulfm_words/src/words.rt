// What calls and machines ask of words: atomic loads and exchanges over a caller's pass. What is proved of calls holds
// over any words that promise this.
ghost use Rattle.std.specs.Prelude.{◌≡◌, ◌%◌, ◌^◌, Bool, IfOk};
ghost use Rattle.ulfm_model.specs.Blocks.{IsBlockWithin};
ghost use Rattle.ulfm_model.specs.Words.{MayOpen};
ghost use Rattle.ulfm_model.specs.Words.{word_at};
ghost use Rattle.ulfm_words.specs.Blocks.{Caches, LoadsBlock, LoadsWing, SetsWing, IsBlockIn, IsSpread, IsSpreadBlock, MaySetWing};
ghost use Rattle.ulfm_words.specs.Places.{IsWingWithin, IsWithin};
ghost use Rattle.ulfm_words.specs.Steps.{coding, view_of, Name, Sight, Heard, IsView, IsNew, IsWingedIn, Loads, MaySetIn, Sets, Tells, Learns};
ghost use Rattle.ulfm_words.specs.Steps.{limits_in, seen_in, steps_in, IsOwnPass, IsOwnTold};

use crate::step::Step;
use std::alloc::{AllocError, Allocator};
use ulfm_laws::meld::Packed;
use ulfm_model::block::{Block, Wing};
use ulfm_model::limits::Limits;
use ulfm_model::place::Place;

/// Words that start as 0 and are set at most once, as calls and machines know them: they take atomic steps over a pass that
/// they are given. A pass is one caller's view of the words: it has seen a legal history, which only grows.
pub trait Words<P: Packed, A: Allocator> {
    type Pass: Drop;

    /// Which words these are, and the limits that they were opened with.
    ghost name: { Self → Name };

    /// Whether nothing comes in between the steps of one pass. No code can ask for it.
    ghost alone: { Bool };

    /// What contracts see of a pass. Steps are counted, and the last one is kept, for contracts alone.
    ghost sight: { Self.Pass → Sight P };

    /// The limits that they were opened with.
    fn limits(&self) -> Limits
        ensures limits { result ≡ (name self.now).limits }
        ensures may_open { MayOpen result };

    /// One atomic load: the word that stands in what is then seen, 0 where no event of it sets the place.
    fn load(&self, pass: &mut Self::Pass, place: Place) -> u64
        requires of { IsView P.meld (view_of P.pack (name self.now) (sight pass.old)) }
        requires within { IsWithin (limits_in (view_of P.pack (name self.now) (sight pass.old))) place }
        ensures loads { Loads P.meld P.pack alone place (view_of P.pack (name self.now) (sight pass.old)) (view_of P.pack (name self.now) (sight pass.new)) }
        ensures word { result ≡ word_at P.pack (seen_in (view_of P.pack (name self.now) (sight pass.new))) place };

    /// One compare-exchange from 0: the step's event comes once, or the word that stands is given. A contribution's wing is set before.
    fn set_once(&self, pass: &mut Self::Pass, step: Step) -> Result<(), u64>
        requires of { IsView P.meld (view_of P.pack (name self.now) (sight pass.old)) }
        requires within { IsWithin (limits_in (view_of P.pack (name self.now) (sight pass.old))) step.place }
        requires may { MaySetIn P.meld (coding P.pack P.unpack) (view_of P.pack (name self.now) (sight pass.old)) step }
        requires winged { IsWingedIn (coding P.pack P.unpack) (view_of P.pack (name self.now) (sight pass.old)) step }
        ensures { Sets P.meld (coding P.pack P.unpack) alone step (view_of P.pack (name self.now) (sight pass.old)) result
            (view_of P.pack (name self.now) (sight pass.new)) };

    /// One atomic load of a block's word: 0, or the word of what its members say, each of which is settled.
    fn load_block(&self, pass: &mut Self::Pass, block: Block) -> u64
        requires of { IsView P.meld (view_of P.pack (name self.now) (sight pass.old)) }
        requires within { IsBlockWithin (limits_in (view_of P.pack (name self.now) (sight pass.old))) block }
        ensures { LoadsBlock P.meld P.pack alone block result (view_of P.pack (name self.now) (sight pass.old)) (view_of P.pack (name self.now) (sight pass.new)) };

    /// One compare-exchange of a block's word from 0, to that of its settled members. No event comes of it, and whoever loses
    /// finds the same word. The block's wing is set before.
    fn cache(&self, pass: &mut Self::Pass, block: Block, word: u64) -> Result<(), u64>
        requires of { IsView P.meld (view_of P.pack (name self.now) (sight pass.old)) }
        requires within { IsBlockWithin (limits_in (view_of P.pack (name self.now) (sight pass.old))) block }
        requires may { IsBlockIn P.meld P.pack (view_of P.pack (name self.now) (sight pass.old)) block word }
        requires winged { IsSpreadBlock (view_of P.pack (name self.now) (sight pass.old)) block }
        ensures { Caches P.meld alone block word (view_of P.pack (name self.now) (sight pass.old)) result (view_of P.pack (name self.now) (sight pass.new)) };

    /// One atomic load of a wing, of a contribution or of a block that is set: its word.
    fn load_wing(&self, pass: &mut Self::Pass, wing: Wing) -> u64
        requires of { IsView P.meld (view_of P.pack (name self.now) (sight pass.old)) }
        requires within { IsWingWithin (limits_in (view_of P.pack (name self.now) (sight pass.old))) wing }
        requires stands { IsSpread (view_of P.pack (name self.now) (sight pass.old)) wing }
        ensures { LoadsWing P.meld P.pack alone wing result (view_of P.pack (name self.now) (sight pass.old)) (view_of P.pack (name self.now) (sight pass.new)) };

    /// One compare-exchange of a wing from 0. No event comes of it; where it is lost, the word that stands is given, which for a block is the
    /// same.
    fn set_wing(&self, pass: &mut Self::Pass, wing: Wing, word: u64) -> Result<(), u64>
        requires of { IsView P.meld (view_of P.pack (name self.now) (sight pass.old)) }
        requires within { IsWingWithin (limits_in (view_of P.pack (name self.now) (sight pass.old))) wing }
        requires may { MaySetWing P.meld P.pack (view_of P.pack (name self.now) (sight pass.old)) wing word }
        ensures { SetsWing P.meld alone wing word (view_of P.pack (name self.now) (sight pass.old)) result (view_of P.pack (name self.now) (sight pass.new)) };

    /// How many atomic steps a pass has made, modulo 2^64. It makes no atomic step.
    fn steps_made(&self, pass: &Self::Pass) -> u64
        ensures { result ≡ steps_in (view_of P.pack (name self.now) (sight pass.now)) % 2 ^ 64 };

    /// What a pass of these words has seen is legal. It does nothing.
    fn known_legal(&self, pass: &Self::Pass)
        requires { IsOwnPass (view_of P.pack (name self.now) (sight pass.now)) }
        ensures { IsView P.meld (view_of P.pack (name self.now) (sight pass.now)) };
}

/// Words as those know them who open worlds: passes are made of them, and what one pass has seen is told by it and learned by
/// another. No call and no machine asks for this trait, so none has a pass but the one that it is given.
pub trait OpenWords<P: Packed, A: Allocator>: Words<P, A> {
    type Told: Drop;

    /// Whether a told value has all that its pass had seen.
    ghost tells_all: { Bool };

    /// What contracts see of a told value.
    ghost heard: { Self.Told → Heard P };

    /// A pass that has seen nothing.
    fn pass(&self, alloc: A) -> Result<Self::Pass, AllocError>
        ensures { IfOk result (λ p. IsNew P.meld (view_of P.pack (Self.name self.now) (Self.sight p))) };

    /// What this pass has seen, to be handed to another.
    fn told(&self, pass: &Self::Pass) -> Self::Told
        requires of { IsView P.meld (view_of P.pack (Self.name self.now) (Self.sight pass.now)) }
        ensures { Tells tells_all (view_of P.pack (Self.name self.now) (Self.sight pass.now)) (heard result) };

    /// From now on the pass has seen what was told, too.
    fn learn(&self, pass: &mut Self::Pass, told: &Self::Told)
        requires of { IsView P.meld (view_of P.pack (Self.name self.now) (Self.sight pass.old)) }
        requires told { IsOwnTold (view_of P.pack (Self.name self.now) (Self.sight pass.old)) (heard told.now) }
        ensures { Learns P.meld Self.alone (heard told.now) (view_of P.pack (Self.name self.now) (Self.sight pass.old))
            (view_of P.pack (Self.name self.now) (Self.sight pass.new)) };
}
