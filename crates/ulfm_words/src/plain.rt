// Words of one owner, and the passes over them: each pass is a memory of its own, with a history that proofs alone read (`StepLog`): there
// is nothing of it where a program runs.
ghost use Rattle.std.specs.Prelude.{◌≡◌, ◌≤◌, ◌%◌, ◌^◌, ◌++◌, ◌∷◌, [], true, false, IfOk, MatchOption, MatchResult, length, Bool, List, ◌≢◌, ◌<◌, ◌*◌, replicate, slice_index, slice_set, vec_capacity, ◌+◌};
ghost use Rattle.ulfm_model.specs.Blocks.{IsBlockWithin};
ghost use Rattle.ulfm_model.specs.Words.{IsUnfit, MayOpen, word_at, size_of};
ghost use Rattle.ulfm_words.specs.Blocks.{Caches, LoadsBlock, LoadsWing, SetsWing, IsBlockIn, IsSpread, IsSpreadBlock, MaySetWing};
ghost use Rattle.ulfm_words.specs.Pass.{IsNth, plain_name};
ghost use Rattle.ulfm_words.specs.Places.{IsWingWithin, IsWithin, key_in};
ghost use Rattle.ulfm_words.specs.Steps.{coding, view_of, limits_in, seen_in, IsView, IsNew, IsWingedIn, Loads, MaySetIn, Sets};
ghost use Rattle.std.specs.Borrow.{ftrue};
ghost use Rattle.ulfm_words.specs.declared.step.Last.{Last};
ghost use Rattle.ulfm_words.specs.Rows.{AreLines, HasSeat, cells_of, block_in, block_key, wing_in};
ghost use Rattle.ulfm_model.specs.declared.block.Block.{Block as BlockOf};
ghost use Rattle.ulfm_model.specs.declared.block.Wing.{Wing as WingOf};

use crate::step::{Last, Site, Step};
use crate::words::{OpenWords, Words};
use std::alloc::{AllocError, Allocator, Global};
use std::marker::{Model, PhantomData};
use ulfm_laws::meld::Packed;
use ulfm_model::block::{Block, Side, Wing};
use ulfm_model::event::Caller;
use ulfm_model::limits::{Limits, OpenFault};
use ulfm_model::place::Place;

/// Words of one owner: each pass is a memory of its own, of which nobody else knows. A pass belongs to all plain words of
/// the same limits.
#[derive(Drop)]
pub struct PlainWords<P: Packed> {
    /// The limits that the words were opened with.
    pub limits: Limits,
    flags: PhantomData<P>,
    /// The limits are those of a world that may be opened.
    pub ghost may_open: { MayOpen limits },
}

/// What a plain pass tells: nothing but its limits.
#[derive(Drop)]
pub struct PlainTold {
    /// The limits of the words whose pass told it.
    pub limits: Limits,
}

impl<P: Packed> PlainWords<P> {
    /// Words of these limits, or the first fault that the limits have. It takes no memory, so it never answers
    /// `OutOfMemory`.
    ///
    /// ```
    /// let words: PlainWords<FlagAnd> = PlainWords::open(limits)?;
    /// assert!(rt; words.limits == limits);
    /// ```
    pub fn open(limits: Limits) -> Result<PlainWords<P>, OpenFault>
        ensures { MatchResult result (λ w. w.limits ≡ limits) (IsUnfit limits) }
    {
        limits.check()?;
        Ok(PlainWords {
            limits,
            flags: PhantomData,
        })
    }
}

impl<P: Packed, A: Allocator + Copy + Drop> Words<P, A> for PlainWords<P> {
    type Pass = PlainPass<P, A>;

    ghost name = { λ w. plain_name w.limits };

    ghost alone = { true };

    ghost sight = { λ p. p };

    fn limits(&self) -> Limits {
        self.limits
    }

    #[inline(always)]
    fn load(&self, pass: &mut PlainPass<P, A>, place: Place) -> u64 {
        pass.load(place)
    }

    #[inline(always)]
    fn set_once(&self, pass: &mut PlainPass<P, A>, step: Step) -> Result<(), u64> {
        pass.set_once(step)
    }

    #[inline(always)]
    fn load_block(&self, pass: &mut PlainPass<P, A>, block: Block) -> u64 {
        pass.load_block(block)
    }

    #[inline(always)]
    fn cache(&self, pass: &mut PlainPass<P, A>, block: Block, word: u64) -> Result<(), u64> {
        pass.cache(block, word)
    }

    #[inline(always)]
    fn load_wing(&self, pass: &mut PlainPass<P, A>, wing: Wing) -> u64 {
        pass.load_wing(wing)
    }

    #[inline(always)]
    fn set_wing(&self, pass: &mut PlainPass<P, A>, wing: Wing, word: u64) -> Result<(), u64> {
        pass.set_wing(wing, word)
    }

    #[inline(always)]
    fn steps_made(&self, pass: &PlainPass<P, A>) -> u64 {
        pass.steps_made()
    }

    fn known_legal(&self, pass: &PlainPass<P, A>) {
        pass.known_legal();
    }
}

impl<P: Packed, A: Allocator + Copy + Drop> OpenWords<P, A> for PlainWords<P> {
    type Told = PlainTold;

    ghost tells_all = { false };

    ghost heard = { λ t. record { name = plain_name t.limits; seen = []; cached = [] } };

    fn pass(&self, alloc: A) -> Result<PlainPass<P, A>, AllocError> {
        PlainPass::new(alloc, self.limits)
    }

    fn told(&self, _pass: &PlainPass<P, A>) -> PlainTold {
        PlainTold {
            limits: self.limits,
        }
    }

    fn learn(&self, _pass: &mut PlainPass<P, A>, _told: &PlainTold) {}
}

/// A place that was set, and in whose name.
#[derive(Clone, Copy)]
pub(crate) struct Setting {
    /// The place of the word.
    pub place: Place,
    /// The upper half of a contribution's payload, or 0.
    pub half: u32,
    /// In whose name: a rank's or the outside's.
    pub by: Caller,
}

/// The atomic steps that a pass has made. Contracts see all of them; their number alone is kept, modulo 2^64.
#[derive(Drop)]
pub struct Trail {
    count: u64,
    /// The steps in their order, for contracts alone: it takes no memory.
    pub log: StepLog,
    ghost counted: { count ≡ length log.items % 2 ^ 64 },
}

impl Trail {
    /// No step was made.
    pub fn new() -> Trail
        ensures { result.log.items ≡ [] }
    {
        Trail {
            count: 0,
            log: StepLog::new(),
        }
    }

    /// One step more: where it was made, the word that is noted behind it, and whether it was a load.
    #[inline(always)]
    pub fn and(&self, at: Site, word: u64, load: bool) -> Trail
        ensures { result.log.items ≡ self.now.log.items ++ (record { at = at; word = word; load = load }, load) ∷ [] }
    {
        let last = Last { at, word, load };
        Trail {
            count: self.count.wrapping_add(1),
            log: self.log.and(&last, &load),
        }
    }

    /// How many steps were made, modulo 2^64.
    #[inline(always)]
    pub fn made(&self) -> u64
        ensures { result ≡ length self.now.log.items % 2 ^ 64 }
    {
        self.count
    }
}

/// The words of one owner, and the journal of what was set. Contracts see it as a `Sight`.
#[derive(Drop)]
pub struct PlainPass<P: Packed, A: Allocator = Global> {
    row: Row<A>,
    // In the order of setting. It has room for each word that is still 0.
    journal: Vec<Setting, A>,
    // The words that no event sets: those of blocks, and wings.
    sides: SideRow<A>,
    // The steps so far. It takes no memory, and only contracts read it.
    trail: Trail,
    flags: PhantomData<P>,
}

impl<P: Packed, A: Allocator> Model for PlainPass<P, A> {
    ghost use Rattle.ulfm_words.specs.Steps.{Sight};
    ghost use Rattle.std.specs.Prelude.{◌≡◌, vec_capacity};
    ghost use Rattle.ulfm_words.specs.Pass.{AreStood, AreTried, IsTied, entries, sight_of};

    ghost Value = { Sight P };

    ghost view = { λ a. sight_of P.unpack a.row.limits a.row.words a.journal.items a.trail.log.items };

    ghost invariant = { λ a. IsTied P.meld P.pack P.unpack a.row.limits a.row.words a.journal.items (vec_capacity a.journal)
        × (a.sides.limits ≡ a.row.limits)
        × AreStood P.meld P.pack (entries P.unpack a.row.limits a.row.words a.journal.items) a.sides a.trail.log.items
        × AreTried a.sides a.trail.log.items };
}

impl<P: Packed, A: Allocator + Copy> PlainPass<P, A> {
    /// Words that are all 0. All memory that later steps need is taken here.
    pub fn new(alloc: A, limits: Limits) -> Result<PlainPass<P, A>, AllocError>
        requires { MayOpen limits }
        ensures { IfOk result (λ p. IsNew P.meld (view_of P.pack (plain_name limits) p)) }
    {
        let row = Row::new(alloc, limits)?;
        let journal = Vec::with_capacity(alloc, limits.size() as usize)?;
        let sides = SideRow::new(alloc, limits)?;
        Ok(PlainPass {
            row,
            journal,
            sides,
            trail: Trail::new(),
            flags: PhantomData,
        })
    }

    /// How many events it has seen: no more than a world has words, at most 4,194,304. It makes no atomic step.
    pub fn count(&self) -> u32
        ensures { result ≡ length self.now.seen }
    {
        self.journal.len() as u32
    }

    /// The step that was set as the `i`-th, counted from 0; none past the last. It makes no atomic step and takes no memory.
    ///
    /// ```
    /// world.fail(&mut pass, 1)?;
    /// let step = pass.nth(0);
    /// assert!(rt;
    ///     step.map(|step| (step.place, step.by)) == Some((Place::List { index: 0 }, Caller::Outside))
    /// );
    /// assert!(rt; pass.nth(1).is_none());
    /// ```
    pub fn nth(&self, i: usize) -> Option<Step>
        ensures { MatchOption result (length self.now.seen ≤ i) (IsNth P.pack P.unpack self.now.seen i) }
    {
        let setting = *self.journal.get(i)?;
        let word = self.row.get(setting.place);
        Some(Step {
            place: setting.place,
            word,
            half: setting.half,
            by: setting.by,
        })
    }

    /// How many atomic steps it has made, modulo 2^64. It makes no atomic step.
    #[inline(always)]
    pub fn steps_made(&self) -> u64
        ensures { result ≡ self.now.steps % 2 ^ 64 }
    {
        self.trail.made()
    }

    /// What was seen is legal. It does nothing.
    pub fn known_legal(&self)
        ensures { IsView P.meld (view_of P.pack self.now.name self.now) }
    {
        let _ = &self.row;
    }

    /// The word at a place.
    #[inline(always)]
    pub fn load(&mut self, place: Place) -> u64
        requires { IsWithin (limits_in (view_of P.pack self.old.name self.old)) place }
        ensures loads { Loads P.meld P.pack true place (view_of P.pack self.old.name self.old) (view_of P.pack self.old.name self.new) }
        ensures word { result ≡ word_at P.pack (seen_in (view_of P.pack self.old.name self.new)) place }
    {
        let word = self.row.get(place);
        self.trail = self.trail.and(Site::Place(place), word, true);
        word
    }

    /// Sets a word that is 0, or gives the word that stands. It takes no memory.
    #[inline(always)]
    pub fn set_once(&mut self, step: Step) -> Result<(), u64>
        requires within { IsWithin (limits_in (view_of P.pack self.old.name self.old)) step.place }
        requires may { MaySetIn P.meld (coding P.pack P.unpack) (view_of P.pack self.old.name self.old) step }
        requires winged { IsWingedIn (coding P.pack P.unpack) (view_of P.pack self.old.name self.old) step }
        ensures { Sets P.meld (coding P.pack P.unpack) true step (view_of P.pack self.old.name self.old) result (view_of P.pack self.old.name self.new) }
    {
        let place = step.place;
        let word = self.row.set_once(place, step.word);
        self.trail = self.trail.and(Site::Place(place), word, false);
        if word != 0 {
            return Err(word);
        }
        let half = step.half;
        let _ = self.journal.push(Setting {
            place,
            half,
            by: step.by,
        });
        Ok(())
    }

    /// The word of a block.
    #[inline(always)]
    pub fn load_block(&mut self, block: Block) -> u64
        requires of { IsView P.meld (view_of P.pack self.old.name self.old) }
        requires within { IsBlockWithin (limits_in (view_of P.pack self.old.name self.old)) block }
        ensures { LoadsBlock P.meld P.pack true block result (view_of P.pack self.old.name self.old) (view_of P.pack self.old.name self.new) }
    {
        let stood = self.sides.block(block);
        self.trail = self.trail.and(Site::Block(block), stood, true);
        stood
    }

    /// Sets a block's word that is 0, or gives the word that stands. It takes no memory.
    #[inline(always)]
    pub fn cache(&mut self, block: Block, word: u64) -> Result<(), u64>
        requires of { IsView P.meld (view_of P.pack self.old.name self.old) }
        requires within { IsBlockWithin (limits_in (view_of P.pack self.old.name self.old)) block }
        requires may { IsBlockIn P.meld P.pack (view_of P.pack self.old.name self.old) block word }
        requires winged { IsSpreadBlock (view_of P.pack self.old.name self.old) block }
        ensures { Caches P.meld true block word (view_of P.pack self.old.name self.old) result (view_of P.pack self.old.name self.new) }
    {
        let stood = self.sides.block(block);
        self.trail = self.trail.and(Site::Block(block), stood, false);
        if stood != 0 {
            return Err(stood);
        }
        self.sides.set_block(block, word);
        Ok(())
    }

    /// The word of a wing.
    #[inline(always)]
    pub fn load_wing(&mut self, wing: Wing) -> u64
        requires of { IsView P.meld (view_of P.pack self.old.name self.old) }
        requires within { IsWingWithin (limits_in (view_of P.pack self.old.name self.old)) wing }
        requires stands { IsSpread (view_of P.pack self.old.name self.old) wing }
        ensures { LoadsWing P.meld P.pack true wing result (view_of P.pack self.old.name self.old) (view_of P.pack self.old.name self.new) }
    {
        let word = self.sides.wing(wing);
        self.trail = self.trail.and(Site::Wing(wing), word, true);
        word
    }

    /// Sets a wing that is 0, or gives the word that stands. It takes no memory.
    #[inline(always)]
    pub fn set_wing(&mut self, wing: Wing, word: u64) -> Result<(), u64>
        requires of { IsView P.meld (view_of P.pack self.old.name self.old) }
        requires within { IsWingWithin (limits_in (view_of P.pack self.old.name self.old)) wing }
        requires may { MaySetWing P.meld P.pack (view_of P.pack self.old.name self.old) wing word }
        ensures { SetsWing P.meld true wing word (view_of P.pack self.old.name self.old) result (view_of P.pack self.old.name self.new) }
    {
        let before = self.sides.wing(wing);
        let stands = if before == 0 { word } else { before };
        self.trail = self.trail.and(Site::Wing(wing), stands, false);
        if before != 0 {
            return Err(before);
        }
        self.sides.set_wing(wing, word);
        Ok(())
    }
}

/// Atomic steps in their order, each with whether it was a load. It takes no memory, and its methods do nothing as a program runs.
#[derive(Drop)]
pub struct StepLog {
    /// What was logged, from the first step on.
    pub ghost items: { List (Last × Bool) },
}

impl Model for StepLog {
    ghost also_owns = { λ _. ftrue };
}

// It owns nothing.
unsafe impl Send for StepLog {}

impl StepLog {
    /// No step.
    #[inline(always)]
    pub(crate) fn new() -> StepLog
        ensures { result.items ≡ [] }
    {
        StepLog {}
    }

    /// One step more.
    #[inline(always)]
    pub(crate) fn and(&self, _last: &Last, _load: &bool) -> StepLog
        ensures { result.items ≡ self.now.items ++ (_last.now, _load.now) ∷ [] }
    {
        StepLog {}
    }
}

/// Where a word stands: among the words that come first, or in a line as that of a rank.
#[derive(Clone, Copy)]
pub(crate) enum Seat {
    /// A word of the first line.
    Head { index: usize },
    /// A rank's word in a further line.
    Cell { line: usize, rank: usize },
}

// The seat of a place. In a loop over the ranks of a round the line is found once.
#[inline(always)]
pub(crate) fn seat_of(place: Place, limits: Limits) -> Seat
    requires open { MayOpen limits }
    requires within { IsWithin limits place }
    ensures { HasSeat limits place result }
{
    let ranks = limits.ranks as usize;
    let comms = limits.comms as usize;
    match place {
        Place::List { index } => Seat::Head {
            index: index as usize,
        },
        Place::Comm { comm } => Seat::Head {
            index: ranks + comm as usize,
        },
        Place::Revoked { comm } => Seat::Head {
            index: ranks + comms + comm as usize,
        },
        Place::Slot { comm, round, rank } => Seat::Cell {
            line: 2 * round as usize * comms + comm as usize,
            rank: rank as usize,
        },
        Place::Arrival { comm, round, rank } => Seat::Cell {
            line: (2 * round as usize + 1) * comms + comm as usize,
            rank: rank as usize,
        },
    }
}

// Makes a line, of words that are 0. It takes no memory.
#[cold]
#[inline(never)]
fn make_line<A: Allocator>(
    starts: &mut Vec<u32, A>,
    words: &mut Vec<u64, A>,
    line: usize,
    ranks: usize,
)
    requires are { AreLines ranks starts.old.items words.old.items (vec_capacity words.old) }
    requires line { line < length starts.old.items }
    requires unmade { slice_index starts.old.items line ≡ 0 }
    ensures are { AreLines ranks starts.new.items words.new.items (vec_capacity words.new) }
    ensures cells { cells_of ranks starts.new.items words.new.items ≡ cells_of ranks starts.old.items words.old.items }
    ensures made { slice_index starts.new.items line ≢ 0 }
    ensures lines { length starts.new.items ≡ length starts.old.items }
{
    starts[line] = words.len() as u32;
    let _ = words.resize(words.len() + ranks, 0);
}

// Where the words of a line begin, which begin there so far, once it is made. It takes no memory.
#[inline(always)]
fn reach<A: Allocator>(
    starts: &mut Vec<u32, A>,
    words: &mut Vec<u64, A>,
    line: usize,
    ranks: usize,
    begin: u32,
) -> usize
    requires are { AreLines ranks starts.old.items words.old.items (vec_capacity words.old) }
    requires line { line < length starts.old.items }
    requires begin { begin ≡ slice_index starts.old.items line }
    ensures are { AreLines ranks starts.new.items words.new.items (vec_capacity words.new) }
    ensures cells { cells_of ranks starts.new.items words.new.items ≡ cells_of ranks starts.old.items words.old.items }
    ensures made { slice_index starts.new.items line ≢ 0 }
    ensures lines { length starts.new.items ≡ length starts.old.items }
    ensures begins { result ≡ slice_index starts.new.items line }
{
    if begin != 0 {
        return begin as usize;
    }
    make_line(starts, words, line, ranks);
    starts[line] as usize
}

// Makes the first so many lines, as far as they aren't made. It takes no memory.
fn make_first<A: Allocator>(
    starts: &mut Vec<u32, A>,
    words: &mut Vec<u64, A>,
    count: usize,
    ranks: usize,
)
    requires are { AreLines ranks starts.old.items words.old.items (vec_capacity words.old) }
    requires count { count ≤ length starts.old.items }
    ensures are { AreLines ranks starts.new.items words.new.items (vec_capacity words.new) }
    ensures cells { cells_of ranks starts.new.items words.new.items ≡ cells_of ranks starts.old.items words.old.items }
    ensures lines { length starts.new.items ≡ length starts.old.items }
{
    for line in 0..count {
        let begin = starts[line];
        reach(starts, words, line, ranks, begin);
    }
}

// A row of at most so many words has all of them from the start.
const SHORT: usize = 4096;

/// The words of a world. Contracts see its limits, and the words by their keys.
#[derive(Drop)]
pub(crate) struct Row<A: Allocator> {
    /// How many ranks, communicators and rounds there are words for.
    pub limits: Limits,
    // Those of the lists and the revocations.
    heads: Vec<u64, A>,
    // Of each line where its words begin; 0 until the first of them is set.
    starts: Vec<u32, A>,
    // Line after line as they were made, with a word for each rank. There is room for all; the first has no word that is set.
    words: Vec<u64, A>,
}

impl<A: Allocator> Model for Row<A> {
    ghost use Rattle.std.specs.Prelude.{vec_capacity};
    ghost use Rattle.ulfm_model.specs.Words.{MayOpen};
    ghost use Rattle.ulfm_words.specs.Rows.{Filled, IsRow, row_of};

    ghost Value = { Filled };

    ghost view = { λ a. record { limits = a.limits; words = row_of a.limits.ranks a.heads.items a.starts.items a.words.items } };

    ghost invariant = { λ a. MayOpen a.limits × IsRow a.limits a.heads.items a.starts.items a.words.items (vec_capacity a.words) };
}

impl<A: Allocator + Copy> Row<A> {
    /// A row of words that are all 0. All memory that it needs later is taken here.
    pub(crate) fn new(alloc: A, limits: Limits) -> Result<Row<A>, AllocError>
        requires { MayOpen limits }
        ensures { IfOk result (λ r. (r.limits ≡ limits) × (r.words ≡ replicate (size_of limits) 0)) }
    {
        let ranks = limits.ranks as usize;
        let comms = limits.comms as usize;
        let first = ranks + 2 * comms;
        let lines = comms * (2 * limits.rounds as usize);
        let mut heads = Vec::with_capacity(alloc, first)?;
        heads.resize(first, 0)?;
        let mut starts = Vec::with_capacity(alloc, lines)?;
        starts.resize(lines, 0)?;
        let mut words = Vec::with_capacity(alloc, (lines + 1) * ranks)?;
        words.resize(ranks, 0)?;
        let made = if lines * ranks <= SHORT { lines } else { 0 };
        make_first(&mut starts, &mut words, made, ranks);
        Ok(Row {
            limits,
            heads,
            starts,
            words,
        })
    }

    /// The word of a place.
    #[inline(always)]
    pub(crate) fn get(&self, place: Place) -> u64
        requires { IsWithin self.now.limits place }
        ensures { result ≡ slice_index self.now.words (key_in self.now.limits place) }
    {
        match seat_of(place, self.limits) {
            Seat::Head { index } => self.heads[index],
            Seat::Cell { line, rank } => self.words[self.starts[line] as usize + rank],
        }
    }

    /// The word of a place, which is set where it is 0. It takes no memory.
    #[inline(always)]
    pub(crate) fn set_once(&mut self, place: Place, word: u64) -> u64
        requires { IsWithin self.old.limits place }
        ensures stood { result ≡ slice_index self.old.words (key_in self.old.limits place) }
        ensures limits { self.new.limits ≡ self.old.limits }
        ensures set { result ≡ 0 → self.new.words ≡ slice_set self.old.words (key_in self.old.limits place) word }
        ensures kept { result ≢ 0 → self.new.words ≡ self.old.words }
    {
        match seat_of(place, self.limits) {
            Seat::Head { index } => {
                let stood = self.heads[index];
                if stood == 0 {
                    self.heads[index] = word;
                }
                stood
            }
            Seat::Cell { line, rank } => {
                let begin = self.starts[line];
                let stood = self.words[begin as usize + rank];
                if stood == 0 {
                    let ranks = self.limits.ranks as usize;
                    let (starts, words) = (&mut self.starts, &mut self.words);
                    let begin = reach(starts, words, line, ranks, begin);
                    self.words[begin + rank] = word;
                }
                stood
            }
        }
    }
}

/// The words of blocks, and the wings of slots and of blocks. Contracts see them by what they are of.
#[derive(Drop)]
pub(crate) struct SideRow<A: Allocator> {
    // The wings of slots, each where its slot's word stands in the row of words.
    wings: Row<A>,
    // Four for each round of each communicator: the front block's word with its wing behind it, and then the back block's.
    blocks: Vec<u64, A>,
}

impl<A: Allocator> Model for SideRow<A> {
    ghost use Rattle.ulfm_words.specs.Rows.{IsSideRow, SideWords};

    ghost Value = { SideWords };

    ghost view = { λ a. record { limits = a.wings.limits; wings = a.wings.words; words = a.blocks.items } };

    ghost invariant = { λ a. IsSideRow a.wings.limits a.wings.words a.blocks.items };
}

impl<A: Allocator + Copy> SideRow<A> {
    /// Words that are all 0. All memory that they need later is taken here.
    pub(crate) fn new(alloc: A, limits: Limits) -> Result<SideRow<A>, AllocError>
        requires { MayOpen limits }
        ensures limits { IfOk result (λ r. r.limits ≡ limits) }
        ensures blocks { IfOk result (λ r. (b : BlockOf) → IsBlockWithin limits b → block_in r b ≡ 0) }
        ensures wings { IfOk result (λ r. (x : WingOf) → IsWingWithin limits x → wing_in r x ≡ 0) }
    {
        let wings = Row::new(alloc, limits)?;
        let count = 4 * (limits.rounds as usize * limits.comms as usize);
        let mut blocks = Vec::with_capacity(alloc, count)?;
        blocks.resize(count, 0)?;
        Ok(SideRow { wings, blocks })
    }

    /// The word of a block.
    #[inline(always)]
    pub(crate) fn block(&self, block: Block) -> u64
        requires { IsBlockWithin self.now.limits block }
        ensures { result ≡ block_in self.now block }
    {
        self.blocks[self.index(block)]
    }

    /// The word of a wing.
    #[inline(always)]
    pub(crate) fn wing(&self, wing: Wing) -> u64
        requires { IsWingWithin self.now.limits wing }
        ensures { result ≡ wing_in self.now wing }
    {
        match wing {
            Wing::Slot { comm, round, rank } => self.wings.get(Place::Slot { comm, round, rank }),
            Wing::Block(block) => self.blocks[self.index(block) + 1],
        }
    }

    /// Sets the word of a block. It takes no memory.
    #[inline(always)]
    pub(crate) fn set_block(&mut self, block: Block, word: u64)
        requires { IsBlockWithin self.old.limits block }
        ensures limits { self.new.limits ≡ self.old.limits }
        ensures set { block_in self.new block ≡ word }
        ensures others { (b : BlockOf) → IsBlockWithin self.old.limits b → b ≢ block → block_in self.new b ≡ block_in self.old b }
        ensures wings { (x : WingOf) → IsWingWithin self.old.limits x → wing_in self.new x ≡ wing_in self.old x }
    {
        let index = self.index(block);
        self.blocks[index] = word;
    }

    /// Sets a wing that is 0. It takes no memory.
    #[inline(always)]
    pub(crate) fn set_wing(&mut self, wing: Wing, word: u64)
        requires within { IsWingWithin self.old.limits wing }
        requires zero { wing_in self.old wing ≡ 0 }
        ensures limits { self.new.limits ≡ self.old.limits }
        ensures set { wing_in self.new wing ≡ word }
        ensures others { (x : WingOf) → IsWingWithin self.old.limits x → x ≢ wing → wing_in self.new x ≡ wing_in self.old x }
        ensures blocks { (b : BlockOf) → IsBlockWithin self.old.limits b → block_in self.new b ≡ block_in self.old b }
    {
        match wing {
            Wing::Slot { comm, round, rank } => {
                let _ = self.wings.set_once(Place::Slot { comm, round, rank }, word);
            }
            Wing::Block(block) => {
                let index = self.index(block) + 1;
                self.blocks[index] = word;
            }
        }
    }

    // Where a block's word stands, with its wing behind it.
    #[inline(always)]
    fn index(&self, block: Block) -> usize
        requires { IsBlockWithin self.now.limits block }
        ensures at { result ≡ 2 * block_key self.now.limits block }
        ensures below { result + 1 < length self.now.words }
    {
        let line = block.round as usize * self.wings.limits.comms as usize + block.comm as usize;
        match block.side {
            Side::Front => 4 * line,
            Side::Back => 4 * line + 2,
        }
    }
}
