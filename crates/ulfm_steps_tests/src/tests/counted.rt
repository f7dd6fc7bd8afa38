// Words of the tests' own: plain words whose pass counts the loads and exchanges that are made, those of blocks and of wings apart.
ghost use Rattle.std.specs.Prelude.{◌≡◌, IfOk, true};
ghost use Rattle.ulfm_words.specs.Pass.{plain_name};
ghost use Rattle.ulfm_words.specs.Steps.{view_of, IsNew};

use std::alloc::{AllocError, Allocator, Global};
use ulfm_laws::meld::Packed;
use ulfm_model::block::{Block, Wing};
use ulfm_model::limits::{Limits, OpenFault};
use ulfm_model::place::Place;
use ulfm_words::{PlainPass, PlainWords, Step, Words};

#[derive(Drop)]
pub(crate) struct Counted<P: Packed> {
    /// The words beneath.
    pub plain: PlainWords<P>,
}

#[derive(Drop)]
pub(crate) struct CountedPass<P: Packed, A: Allocator = Global> {
    /// The pass beneath.
    pub plain: PlainPass<P, A>,
    /// Loads of places.
    pub loads: u32,
    /// Exchanges at places.
    pub exchanges: u32,
    /// Loads of blocks.
    pub block_loads: u32,
    /// Exchanges at blocks.
    pub caches: u32,
    /// Loads of wings.
    pub wing_loads: u32,
    /// Exchanges at wings.
    pub spreads: u32,
}

impl<P: Packed> Counted<P> {
    /// New words of these limits.
    pub(crate) fn open(limits: Limits) -> Result<Counted<P>, OpenFault>
        ensures { IfOk result (λ words. words.plain.limits ≡ limits) }
    {
        let plain = PlainWords::open(limits)?;
        Ok(Counted { plain })
    }

    /// A pass that has seen nothing, and counted nothing.
    pub(crate) fn pass<A: Allocator + Copy>(
        &self,
        alloc: A,
    ) -> Result<CountedPass<P, A>, AllocError>
        ensures { IfOk result (λ p. IsNew P.meld (view_of P.pack (plain_name self.now.plain.limits) p.plain)) }
    {
        let plain = PlainPass::new(alloc, self.plain.limits)?;
        Ok(CountedPass {
            plain,
            loads: 0,
            exchanges: 0,
            block_loads: 0,
            caches: 0,
            wing_loads: 0,
            spreads: 0,
        })
    }
}

impl<P: Packed, A: Allocator + Copy + Drop> Words<P, A> for Counted<P> {
    type Pass = CountedPass<P, A>;

    ghost name = { λ w. plain_name w.plain.limits };

    ghost alone = { true };

    ghost sight = { λ p. p.plain };

    fn limits(&self) -> Limits {
        self.plain.limits
    }

    fn load(&self, pass: &mut CountedPass<P, A>, place: Place) -> u64 {
        pass.loads = pass.loads.saturating_add(1);
        pass.plain.load(place)
    }

    fn set_once(&self, pass: &mut CountedPass<P, A>, step: Step) -> Result<(), u64> {
        pass.exchanges = pass.exchanges.saturating_add(1);
        pass.plain.set_once(step)
    }

    fn load_block(&self, pass: &mut CountedPass<P, A>, block: Block) -> u64 {
        pass.block_loads = pass.block_loads.saturating_add(1);
        pass.plain.load_block(block)
    }

    fn cache(&self, pass: &mut CountedPass<P, A>, block: Block, word: u64) -> Result<(), u64> {
        pass.caches = pass.caches.saturating_add(1);
        pass.plain.cache(block, word)
    }

    fn set_wing(&self, pass: &mut CountedPass<P, A>, wing: Wing, word: u64) -> Result<(), u64> {
        pass.spreads = pass.spreads.saturating_add(1);
        pass.plain.set_wing(wing, word)
    }

    fn load_wing(&self, pass: &mut CountedPass<P, A>, wing: Wing) -> u64 {
        pass.wing_loads = pass.wing_loads.saturating_add(1);
        pass.plain.load_wing(wing)
    }

    fn steps_made(&self, pass: &CountedPass<P, A>) -> u64 {
        pass.plain.steps_made()
    }

    fn known_legal(&self, pass: &CountedPass<P, A>) {
        pass.plain.known_legal();
    }
}
