// Plain words into which another's event comes, for tests.
ghost use Rattle.std.specs.Prelude.{◌≡◌, ◌<◌, ◌++◌, ◌∷◌, [], IsTrue, false};
ghost use mathlib.Core.List.{IsPrefix};
ghost use Rattle.ulfm_model.specs.Runs.{Did};
ghost use Rattle.ulfm_words.specs.Blocks.{standing};
ghost use Rattle.ulfm_words.specs.Pass.{plain_name};
ghost use Rattle.ulfm_words.specs.Steps.{view_of, IsView};
ghost use Rattle.ulfm_intruder.specs.Intrusions.{is_welcome};

use crate::read_round::ReadRound;
use std::alloc::{AllocError, Allocator, Global};
use ulfm_laws::meld::Packed;
use ulfm_laws::summary::Body;
use ulfm_model::block::{Block, Wing};
use ulfm_model::contribution::Slot;
use ulfm_model::event::{Caller, Entry, Event};
use ulfm_model::limits::Limits;
use ulfm_model::place::Place;
use ulfm_steps::group::first_ranks;
use ulfm_steps::{Append, Item};
use ulfm_words::{
    OpenWords, PlainPass, PlainTold, PlainWords, Site, Step, Trail, Words, set_arrival,
    set_revocation, set_slot, slot_wing,
};

/// Plain words that aren't alone: just before a chosen step of a pass another's event comes, if it hasn't come before.
#[derive(Drop)]
pub struct Intruder<P: Packed> {
    /// The words of one owner beneath.
    pub plain: PlainWords<P>,
    /// The event, and in whose name it comes. It is one that may come at any time, once: a failure, or of the world's own
    /// communicator a revocation, an arrival or a contribution that knows of no failure. Or it is a communicator that is made
    /// of a round of the world's own: that comes only where the round is decided on free ids, and gets the next number.
    pub guest: Entry<P>,
    /// After how many steps of each pass it comes, unless `IntruderPass::wait` says otherwise.
    pub wait: Option<u32>,
    ghost welcome: { IsTrue (is_welcome plain.limits guest.event) },
}

/// A pass of such words.
#[derive(Drop)]
pub struct IntruderPass<P: Packed, A: Allocator = Global> {
    /// The pass of the words beneath. It makes the intruder's steps too.
    pub plain: PlainPass<P, A>,
    /// How many steps are made before the intrusion, if one is to come.
    pub left: Option<u32>,
    /// The pass's own steps, without those of an intrusion.
    pub trail: Trail,
    /// For the list of ranks whose places a communicator's intrusion reads first.
    pub alloc: A,
}

impl<P: Packed, A: Allocator> IntruderPass<P, A> {
    /// The intrusion comes after so many further steps: 0 is just before the next one.
    pub fn wait(&mut self, steps: u32)
        ensures left { self.new.left ≡ Some steps }
        ensures plain { self.new.plain ≡ self.old.plain }
        ensures trail { self.new.trail ≡ self.old.trail }
    {
        self.left = Some(steps);
    }

    // A step of the pass's own.
    fn note(&mut self, at: Site, word: u64, load: bool)
        ensures plain { self.new.plain ≡ self.old.plain }
        ensures log { self.new.trail.log.items ≡ self.old.trail.log.items ++ (record { at = at; word = word; load = load }, load) ∷ [] }
    {
        self.trail = self.trail.and(at, word, load);
    }

    // An exchange of the pass's own, behind which this word is noted, or the one that stood there.
    fn note_exchange(&mut self, at: Site, word: u64, answer: Result<(), u64>)
        ensures plain { self.new.plain ≡ self.old.plain }
        ensures log { self.new.trail.log.items
            ≡ self.old.trail.log.items ++ (record { at = at; word = standing word answer; load = false }, false) ∷ [] }
    {
        match answer {
            Ok(()) => self.note(at, word, false),
            Err(stood) => self.note(at, stood, false),
        }
    }
}

impl<P: Packed> Intruder<P> {
    // Lets the event in where it is time.
    fn intrude<A: Allocator + Copy + Drop>(&self, pass: &mut IntruderPass<P, A>)
        requires of { IsView P.meld (view_of P.pack (plain_name self.now.plain.limits) pass.old.plain) }
        ensures of { IsView P.meld (view_of P.pack (plain_name self.now.plain.limits) pass.new.plain) }
        ensures did { Did false [] pass.old.plain.seen pass.new.plain.seen }
        ensures cached { IsPrefix pass.old.plain.cached pass.new.plain.cached }
        ensures trail { pass.new.trail ≡ pass.old.trail }
    {
        match pass.left {
            None => return,
            Some(0) => pass.left = None,
            Some(n) => {
                pass.left = Some(n - 1);
                return;
            }
        }
        let by = self.guest.by;
        let plain = &mut pass.plain;
        match self.guest.event {
            Event::Fail { rank } => {
                let _ = Append::new(Item::Failure { rank }, by).finish(&self.plain, plain);
            }
            Event::Settle {
                comm,
                round,
                rank,
                given,
            } => {
                let put = Slot::Given(given);
                let wing = Wing::Slot { comm, round, rank };
                if self.plain.set_wing(plain, wing, slot_wing(&put)).is_ok() {
                    let _ = set_slot(&self.plain, plain, by, comm, round, rank, put);
                }
            }
            Event::Arrive { comm, round, rank } => {
                let _ = set_arrival(&self.plain, plain, by, comm, round, rank);
            }
            Event::Revoke { comm } => {
                let _ = set_revocation(&self.plain, plain, by, comm);
            }
            Event::Spawn { parent, round, .. } => self.spawn(pass, by, parent, round),
            Event::Mark { .. } => {}
        }
    }

    // Makes a communicator of a round of the world's own, where that is decided on free ids and memory is there.
    fn spawn<A: Allocator + Copy + Drop>(
        &self,
        pass: &mut IntruderPass<P, A>,
        by: Caller,
        parent: u16,
        round: u16,
    )
        requires of { IsView P.meld (view_of P.pack (plain_name self.now.plain.limits) pass.old.plain) }
        requires world { parent ≡ 0 }
        requires round { round < self.now.plain.limits.rounds }
        ensures of { IsView P.meld (view_of P.pack (plain_name self.now.plain.limits) pass.new.plain) }
        ensures did { Did false [] pass.old.plain.seen pass.new.plain.seen }
        ensures cached { IsPrefix pass.old.plain.cached pass.new.plain.cached }
        ensures trail { pass.new.trail ≡ pass.old.trail }
    {
        let Ok(group) = first_ranks(pass.alloc, self.plain.limits.ranks) else {
            return;
        };
        let plain = &mut pass.plain;
        let Some(all) = ReadRound::new(parent, round).finish(&self.plain, plain, &group) else {
            return;
        };
        let Body::Ctx(mask) = all.body else {
            return;
        };
        if mask.bits != 0 {
            let _ = Append::new(Item::Comm { parent, round }, by).finish(&self.plain, plain);
        }
    }
}

impl<P: Packed, A: Allocator + Copy + Drop> Words<P, A> for Intruder<P> {
    ghost use Rattle.std.specs.Prelude.{length};
    ghost use Rattle.ulfm_words.specs.Pass.{caches_in, last_of};
    ghost use Rattle.ulfm_words.specs.Steps.{Sight};

    type Pass = IntruderPass<P, A>;

    ghost name = { λ w. plain_name w.plain.limits };

    ghost alone = { false };

    ghost sight = { λ p. record {
      name = p.plain.name;
      seen = p.plain.seen;
      cached = p.plain.cached;
      caches = caches_in p.trail.log.items;
      steps = length p.trail.log.items;
      last = last_of p.trail.log.items;
    } };

    fn limits(&self) -> Limits {
        self.plain.limits
    }

    fn load(&self, pass: &mut IntruderPass<P, A>, place: Place) -> u64 {
        self.intrude(pass);
        let word = pass.plain.load(place);
        pass.note(Site::Place(place), word, true);
        word
    }

    fn load_block(&self, pass: &mut IntruderPass<P, A>, block: Block) -> u64 {
        self.intrude(pass);
        let word = pass.plain.load_block(block);
        pass.note(Site::Block(block), word, true);
        word
    }

    fn load_wing(&self, pass: &mut IntruderPass<P, A>, wing: Wing) -> u64 {
        self.intrude(pass);
        let word = pass.plain.load_wing(wing);
        pass.note(Site::Wing(wing), word, true);
        word
    }

    fn set_once(&self, pass: &mut IntruderPass<P, A>, step: Step) -> Result<(), u64> {
        self.intrude(pass);
        let answer = pass.plain.set_once(step);
        pass.note_exchange(Site::Place(step.place), 0, answer);
        answer
    }

    fn cache(&self, pass: &mut IntruderPass<P, A>, block: Block, word: u64) -> Result<(), u64> {
        self.intrude(pass);
        let answer = pass.plain.cache(block, word);
        pass.note_exchange(Site::Block(block), 0, answer);
        answer
    }

    fn set_wing(&self, pass: &mut IntruderPass<P, A>, wing: Wing, word: u64) -> Result<(), u64> {
        self.intrude(pass);
        let answer = pass.plain.set_wing(wing, word);
        pass.note_exchange(Site::Wing(wing), word, answer);
        answer
    }

    fn steps_made(&self, pass: &IntruderPass<P, A>) -> u64 {
        pass.trail.made()
    }

    fn known_legal(&self, pass: &IntruderPass<P, A>) {
        pass.plain.known_legal();
    }
}

impl<P: Packed, A: Allocator + Copy + Drop> OpenWords<P, A> for Intruder<P> {
    type Told = PlainTold;

    ghost tells_all = { false };

    ghost heard = { λ t. record { name = plain_name t.limits; seen = []; cached = [] } };

    fn pass(&self, alloc: A) -> Result<IntruderPass<P, A>, AllocError> {
        let plain = PlainPass::new(alloc, self.plain.limits)?;
        Ok(IntruderPass {
            plain,
            left: self.wait,
            trail: Trail::new(),
            alloc,
        })
    }

    fn told(&self, _pass: &IntruderPass<P, A>) -> PlainTold {
        PlainTold {
            limits: self.plain.limits,
        }
    }

    fn learn(&self, _pass: &mut IntruderPass<P, A>, _told: &PlainTold) {}
}
