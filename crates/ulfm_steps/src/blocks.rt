// The two blocks of an agreement round: what is known of them, the loads that a poll begins with, and the reading of those that are 0:
// each block's members in order, up to the first who isn't settled, and then its cache. A member that was found settled stays so and
// says the same; that one is missing holds at its load alone. And the marks of a round's declared members, in the order of their failures:
// one exchange for each. Whoever is settled, by the mark or before it, stays as it is.
ghost use Rattle.std.specs.Prelude.{◌≡◌, ◌<◌, None, Some, false, true, is_some, length, ◌≤◌, ◌+◌, ◌++◌, ◌∷◌, [], slice_index};
ghost use Rattle.ulfm_model.specs.Blocks.{width as width_of};
ghost use Rattle.ulfm_model.specs.History.{History};
ghost use Rattle.ulfm_model.specs.declared.block.Side.TheVariants.{Front};
ghost use Rattle.ulfm_steps.specs.Blocks.{BothTell, MayPeek, MayReadBlocks, PeeksOn, ReadsBlocks, MembersTell, ends_peek, told_peek, has_back as is_apart, is_whole, said_at, starts_at};
ghost use Rattle.ulfm_steps.specs.Turns.{running};
ghost use Rattle.ulfm_words.specs.Steps.{view_of, IsView, seen_in};
ghost use Rattle.std.specs.List.Sorted.{IsStrictlyIncreasing};
ghost use Rattle.ulfm_steps.specs.Marks.{HasMarked, MarksOnce, MarksTake, MarkSteps, members_in, IsNext, IsAt, MayMarkAllIn};
ghost use Rattle.ulfm_steps.specs.Among.{among};
ghost use Rattle.ulfm_steps.specs.Rounds.{round_on};

use crate::group::is_member;
use std::alloc::Allocator;
use ulfm_laws::meld::{Meld, Packed};
use ulfm_laws::summary::{Known, Summary};
use ulfm_model::block::{Block, Side, Wing};
use ulfm_model::contribution::{MarkCount, Slot};
use ulfm_model::event::Caller;
use ulfm_words::{
    Found as Loaded, Words, block_wing, block_word, load_block, load_block_rest, load_rest,
    load_slot, set_slot,
};

/// What is known of the two blocks of an agreement round: what the members of each say together, where that is known.
#[derive(Clone, Copy)]
pub struct RoundBlocks<P: Packed> {
    /// What the members of the front block say together; `None` where that isn't known.
    pub front: Option<Summary<P>>,
    /// The same of the back block, which not every round has.
    pub back: Option<Summary<P>>,
}

/// How many members a block of so many has: the greatest power of two that is at most their number.
#[inline(always)]
pub fn width(members: u16) -> u16
    requires { 0 < members }
    ensures { result ≡ width_of members }
{
    1 << (15 - members.leading_zeros())
}

/// Whether a round of so many members has a back block.
#[inline(always)]
pub fn has_back(members: u16) -> bool
    requires { 0 < members }
    ensures { result ≡ is_apart members }
{
    width(members) < members
}

impl<P: Packed> RoundBlocks<P> {
    /// Nothing is known yet.
    pub fn new() -> RoundBlocks<P>
        ensures { result ≡ record { front = None; back = None } }
    {
        RoundBlocks {
            front: None,
            back: None,
        }
    }

    /// What is known of one of them.
    #[inline(always)]
    pub fn of(&self, side: Side) -> Option<Summary<P>>
        ensures { result ≡ said_at self.now side }
    {
        match side {
            Side::Front => self.front,
            Side::Back => self.back,
        }
    }

    /// What all members of the round say together, where all its blocks are known. They overlap, which changes nothing: whoever
    /// is in both counts once.
    #[inline(always)]
    pub fn all(&self, members: u16) -> Option<Summary<P>>
        requires { 0 < members }
        ensures whole { is_some result ≡ is_whole self.now members }
        ensures tells { (h : History P) (c k : _) (group : _) → length group ≡ members → BothTell P.meld h c k group self.now → MembersTell P.meld h c k group
            result }
    {
        let front = self.front?;
        if !has_back(members) {
            return Some(front);
        }
        let back = self.back?;
        Some(front.meld(&back))
    }
}

/// A peek at a round's blocks that is under way.
#[derive(Clone, Copy)]
pub struct Peek<P: Packed> {
    /// The communicator's number.
    pub comm: u16,
    /// The agreement round, counted from 0.
    pub round: u16,
    /// What is known of the blocks that were loaded.
    pub blocks: RoundBlocks<P>,
    /// The block that is loaded next.
    pub side: Side,
    /// Its first word, where that was loaded and its wing comes next.
    pub first: Option<u64>,
}

impl<P: Packed> Peek<P> {
    /// A peek that has loaded nothing yet.
    pub fn new(comm: u16, round: u16) -> Peek<P>
        ensures comm { result.comm ≡ comm }
        ensures round { result.round ≡ round }
        ensures side { result.side ≡ Front }
        ensures first { result.first ≡ None }
        ensures none { (is_some result.blocks.front ≡ false) × (is_some result.blocks.back ≡ false) }
    {
        Peek {
            comm,
            round,
            blocks: RoundBlocks::new(),
            side: Side::Front,
            first: None,
        }
    }

    /// One load, of the next block's word or of its wing: whether it was the last one.
    #[inline(always)]
    pub fn step<A: Allocator, W: Words<P, A>>(
        &mut self,
        words: &W,
        pass: &mut W::Pass,
        group: &[u16],
    ) -> bool
        requires { MayPeek P.meld group.now (running self.old (view_of P.pack (W.name words.now) (W.sight pass.old))) }
        ensures { PeeksOn P.meld W.alone false group.now (running self.old (view_of P.pack (W.name words.now) (W.sight pass.old))) result
            (running self.new (view_of P.pack (W.name words.now) (W.sight pass.new))) }
    {
        let block = Block {
            comm: self.comm,
            round: self.round,
            side: self.side,
        };
        if let Some(word) = self.first {
            let said = load_block_rest(words, pass, block, word);
            return self.tells(Some(said), group.len() as u16);
        }
        let Some(word) = load_block(words, pass, block) else {
            return self.tells(None, group.len() as u16);
        };
        self.first = Some(word);
        false
    }

    // The next block says this, where it is set: whether it was the last one.
    #[inline(always)]
    fn tells(&mut self, said: Option<Summary<P>>, members: u16) -> bool
        requires { 0 < members }
        ensures done { result ≡ ends_peek self.old members }
        ensures told { self.new ≡ told_peek self.old said }
    {
        self.first = None;
        match self.side {
            Side::Front => {
                self.blocks.front = said;
                self.side = Side::Back;
                !has_back(members)
            }
            Side::Back => {
                self.blocks.back = said;
                true
            }
        }
    }

    /// One load; or, where all are made at once, those that are left. Whether the last one was made.
    #[inline(always)]
    pub fn advance<A: Allocator, W: Words<P, A>>(
        &mut self,
        words: &W,
        pass: &mut W::Pass,
        group: &[u16],
        whole: bool,
    ) -> bool
        requires { MayPeek P.meld group.now (running self.old (view_of P.pack (W.name words.now) (W.sight pass.old))) }
        ensures { PeeksOn P.meld W.alone whole group.now (running self.old (view_of P.pack (W.name words.now) (W.sight pass.old))) result
            (running self.new (view_of P.pack (W.name words.now) (W.sight pass.new))) }
    {
        loop {
            let done = self.step(words, pass, group);
            if !whole || done {
                return done;
            }
        }
    }
}

/// What a reading of blocks ends with.
#[derive(Clone, Copy)]
pub enum Found<P: Packed> {
    /// A member isn't settled.
    Missing,
    /// What all members say together, each of whom is settled.
    All(Summary<P>),
}

/// A reading of blocks that is under way.
#[derive(Clone, Copy)]
pub struct ReadBlocks<P: Packed> {
    /// The communicator's number.
    pub comm: u16,
    /// The agreement round, counted from 0.
    pub round: u16,
    /// The block that is read.
    pub side: Side,
    /// How many members a block has.
    pub width: u16,
    /// How many members of the round stand before this block.
    pub begin: u16,
    /// How many of its members were found settled, the first of them.
    pub read: u16,
    /// What these say together.
    pub all: Summary<P>,
    /// The first word of the next member's contribution, where that was loaded and its wing comes next.
    pub first: Option<u64>,
    /// Whether the block's wing is set, behind which its cache comes.
    pub winged: bool,
    /// What is known of both blocks.
    pub blocks: RoundBlocks<P>,
}

impl<P: Packed> ReadBlocks<P> {
    /// A reading of those blocks that aren't known, the front one first, which has read nothing yet.
    pub fn new(comm: u16, round: u16, blocks: RoundBlocks<P>, members: u16) -> ReadBlocks<P>
        requires { 0 < members }
        ensures { result ≡ starts_at comm round blocks members }
    {
        let width = width(members);
        let (side, begin) = match blocks.front {
            None => (Side::Front, 0),
            Some(_) => (Side::Back, members - width),
        };
        ReadBlocks {
            comm,
            round,
            side,
            width,
            begin,
            read: 0,
            all: Summary::unit(),
            first: None,
            winged: false,
            blocks,
        }
    }

    /// One step: a load of the next member's place, or of its wing; or, once all of the block are read, an exchange of its wing, and then its
    /// cache.
    #[inline(always)]
    pub fn step<A: Allocator, W: Words<P, A>>(
        &mut self,
        words: &W,
        pass: &mut W::Pass,
        group: &[u16],
    ) -> Option<Found<P>>
        requires { MayReadBlocks P.meld group.now (running self.old (view_of P.pack (W.name words.now) (W.sight pass.old))) }
        ensures { ReadsBlocks P.meld W.alone false group.now (running self.old (view_of P.pack (W.name words.now) (W.sight pass.old))) result
            (running self.new (view_of P.pack (W.name words.now) (W.sight pass.new))) }
    {
        if self.read < self.width {
            return match self.first {
                None => self.load(words, pass, group),
                Some(first) => self.load_rest(words, pass, group, first),
            };
        }
        if !self.winged {
            return self.spread(words, pass, group);
        }
        self.cache(words, pass, group)
    }

    /// One step; or, where the whole reading is made at once, all that are left.
    #[inline(always)]
    pub fn advance<A: Allocator, W: Words<P, A>>(
        &mut self,
        words: &W,
        pass: &mut W::Pass,
        group: &[u16],
        whole: bool,
    ) -> Option<Found<P>>
        requires { MayReadBlocks P.meld group.now (running self.old (view_of P.pack (W.name words.now) (W.sight pass.old))) }
        ensures { ReadsBlocks P.meld W.alone whole group.now (running self.old (view_of P.pack (W.name words.now) (W.sight pass.old))) result
            (running self.new (view_of P.pack (W.name words.now) (W.sight pass.new))) }
    {
        loop {
            let found = self.step(words, pass, group);
            if !whole || found.is_some() {
                return found;
            }
        }
    }

    // One load, of the next member's place.
    #[inline(always)]
    fn load<A: Allocator, W: Words<P, A>>(
        &mut self,
        words: &W,
        pass: &mut W::Pass,
        group: &[u16],
    ) -> Option<Found<P>>
        requires may { MayReadBlocks P.meld group.now (running self.old (view_of P.pack (W.name words.now) (W.sight pass.old))) }
        requires more { self.old.read < width_of (length group.now) }
        requires none { self.old.first ≡ None }
        ensures { ReadsBlocks P.meld W.alone false group.now (running self.old (view_of P.pack (W.name words.now) (W.sight pass.old))) result
            (running self.new (view_of P.pack (W.name words.now) (W.sight pass.new))) }
    {
        let rank = group[(self.begin + self.read) as usize];
        match load_slot(words, pass, self.comm, self.round, rank) {
            Loaded::Nothing => Some(Found::Missing),
            Loaded::Marked(said) => {
                self.all = self.all.meld(&said);
                self.read += 1;
                None
            }
            Loaded::First(word) => {
                self.first = Some(word);
                None
            }
        }
    }

    // One load, of the wing of the next member's contribution.
    #[inline(always)]
    fn load_rest<A: Allocator, W: Words<P, A>>(
        &mut self,
        words: &W,
        pass: &mut W::Pass,
        group: &[u16],
        first: u64,
    ) -> Option<Found<P>>
        requires may { MayReadBlocks P.meld group.now (running self.old (view_of P.pack (W.name words.now) (W.sight pass.old))) }
        requires more { self.old.read < width_of (length group.now) }
        requires some { self.old.first ≡ Some first }
        ensures { ReadsBlocks P.meld W.alone false group.now (running self.old (view_of P.pack (W.name words.now) (W.sight pass.old))) result
            (running self.new (view_of P.pack (W.name words.now) (W.sight pass.new))) }
    {
        let rank = group[(self.begin + self.read) as usize];
        let said = load_rest(words, pass, self.comm, self.round, rank, first);
        self.all = self.all.meld(&said);
        self.read += 1;
        self.first = None;
        None
    }

    // The exchange of the wing of a block whose members were all read. One that another has set meanwhile has the same word.
    fn spread<A: Allocator, W: Words<P, A>>(
        &mut self,
        words: &W,
        pass: &mut W::Pass,
        group: &[u16],
    ) -> Option<Found<P>>
        requires may { MayReadBlocks P.meld group.now (running self.old (view_of P.pack (W.name words.now) (W.sight pass.old))) }
        requires all { self.old.read ≡ width_of (length group.now) }
        requires bare { self.old.winged ≡ false }
        ensures { ReadsBlocks P.meld W.alone false group.now (running self.old (view_of P.pack (W.name words.now) (W.sight pass.old))) result
            (running self.new (view_of P.pack (W.name words.now) (W.sight pass.new))) }
    {
        let block = Block {
            comm: self.comm,
            round: self.round,
            side: self.side,
        };
        let _ = words.set_wing(pass, Wing::Block(block), block_wing(&self.all));
        self.winged = true;
        let _ = group;
        None
    }

    // The cache of a block whose wing is set. A block that another has cached meanwhile has the same word.
    fn cache<A: Allocator, W: Words<P, A>>(
        &mut self,
        words: &W,
        pass: &mut W::Pass,
        group: &[u16],
    ) -> Option<Found<P>>
        requires may { MayReadBlocks P.meld group.now (running self.old (view_of P.pack (W.name words.now) (W.sight pass.old))) }
        requires all { self.old.read ≡ width_of (length group.now) }
        requires winged { self.old.winged ≡ true }
        ensures { ReadsBlocks P.meld W.alone false group.now (running self.old (view_of P.pack (W.name words.now) (W.sight pass.old))) result
            (running self.new (view_of P.pack (W.name words.now) (W.sight pass.new))) }
    {
        let block = Block {
            comm: self.comm,
            round: self.round,
            side: self.side,
        };
        let _ = words.cache(pass, block, block_word(&self.all));
        match self.side {
            Side::Front => self.blocks.front = Some(self.all),
            Side::Back => self.blocks.back = Some(self.all),
        }
        let members = group.len() as u16;
        if let Some(all) = self.blocks.all(members) {
            return Some(Found::All(all));
        }
        self.side = Side::Back;
        self.begin = members - self.width;
        self.read = 0;
        self.all = Summary::unit();
        self.winged = false;
        None
    }
}

/// A marking that is under way, in a rank's name.
#[derive(Clone, Copy, Debug, PartialEq, Eq)]
pub struct MarkAll {
    /// The rank in whose name members are marked.
    pub rank: u16,
    /// The communicator's number.
    pub comm: u16,
    /// The agreement round, counted from 0.
    pub round: u16,
    /// Where the next member to be marked stands among the declared ranks; their number where none is left.
    pub next: usize,
    /// How many members stand before it.
    pub known: u16,
}

// Where the next member stands among the declared ranks, from a place on.
#[inline(always)]
pub(crate) fn next_member(group: &[u16], declared: &[u16], start: usize) -> usize
    requires within { start ≤ length declared.now }
    requires rises { IsStrictlyIncreasing group.now }
    ensures { IsNext group.now declared.now start result }
{
    for at in start..declared.len() {
        if is_member(group, declared[at]) {
            return at;
        }
    }
    declared.len()
}

impl MarkAll {
    /// A marking that has marked nobody yet, of a group whose ranks rise, as the members of each communicator do.
    pub fn new(rank: u16, comm: u16, round: u16, group: &[u16], declared: &[u16]) -> MarkAll
        requires rises { IsStrictlyIncreasing group.now }
        ensures rank { result.rank ≡ rank }
        ensures comm { result.comm ≡ comm }
        ensures round { result.round ≡ round }
        ensures at { IsAt group.now declared.now result.next result.known }
        ensures first { members_in group.now declared.now result.next ≡ [] }
    {
        MarkAll {
            rank,
            comm,
            round,
            next: next_member(group, declared, 0),
            known: 0,
        }
    }

    /// One exchange, of the next member's place.
    #[inline(always)]
    pub fn step<P: Packed, A: Allocator, W: Words<P, A>>(
        &mut self,
        words: &W,
        pass: &mut W::Pass,
        group: &[u16],
        declared: &[u16],
    )
        requires of { IsView P.meld (view_of P.pack (W.name words.now) (W.sight pass.old)) }
        requires may { MayMarkAllIn (view_of P.pack (W.name words.now) (W.sight pass.old)) self.old.comm self.old.round group.now declared.now }
        requires at { IsAt group.now declared.now self.old.next self.old.known }
        requires more { self.old.next < length declared.now }
        ensures takes { MarksTake false group.now declared.now self.old self.new (view_of P.pack (W.name words.now) (W.sight pass.old))
            (view_of P.pack (W.name words.now) (W.sight pass.new)) }
        ensures rank { self.new.rank ≡ self.old.rank }
        ensures comm { self.new.comm ≡ self.old.comm }
        ensures round { self.new.round ≡ self.old.round }
        ensures at { IsAt group.now declared.now self.new.next self.new.known }
        ensures onward { self.old.next < self.new.next }
        ensures further { members_in group.now declared.now self.new.next ≡ members_in group.now declared.now self.old.next ++ slice_index declared.now
            self.old.next ∷ [] }
        ensures once { MarksOnce W.alone self.old.rank self.old.comm self.old.round (slice_index declared.now self.old.next)
            (seen_in (view_of P.pack (W.name words.now) (W.sight pass.old))) (seen_in (view_of P.pack (W.name words.now) (W.sight pass.new))) }
        ensures marks { MarkSteps P.meld W.alone self.old.rank (round_on self.old.comm self.old.round) (slice_index declared.now self.old.next ∷ [])
            (view_of P.pack (W.name words.now) (W.sight pass.old)) (view_of P.pack (W.name words.now) (W.sight pass.new)) }
    {
        let rank = declared[self.next];
        self.known += 1;
        let put = Slot::Mark(MarkCount {
            known: Known { count: self.known },
        });
        let by = Caller::Rank(self.rank);
        let _ = set_slot(words, pass, by, self.comm, self.round, rank, put);
        self.next = next_member(group, declared, self.next + 1);
    }

    /// One exchange; or, where the whole marking is made at once, all that are left.
    #[inline(always)]
    pub fn advance<P: Packed, A: Allocator, W: Words<P, A>>(
        &mut self,
        words: &W,
        pass: &mut W::Pass,
        group: &[u16],
        declared: &[u16],
        whole: bool,
    )
        requires of { IsView P.meld (view_of P.pack (W.name words.now) (W.sight pass.old)) }
        requires may { MayMarkAllIn (view_of P.pack (W.name words.now) (W.sight pass.old)) self.old.comm self.old.round group.now declared.now }
        requires at { IsAt group.now declared.now self.old.next self.old.known }
        requires more { self.old.next < length declared.now }
        ensures takes { MarksTake whole group.now declared.now self.old self.new (view_of P.pack (W.name words.now) (W.sight pass.old))
            (view_of P.pack (W.name words.now) (W.sight pass.new)) }
        ensures rank { self.new.rank ≡ self.old.rank }
        ensures comm { self.new.comm ≡ self.old.comm }
        ensures round { self.new.round ≡ self.old.round }
        ensures at { IsAt group.now declared.now self.new.next self.new.known }
        ensures onward { self.old.next < self.new.next }
        ensures done { whole ≡ true → self.new.next ≡ length declared.now }
        ensures once { whole ≡ false
            → MarksOnce W.alone self.old.rank self.old.comm self.old.round (slice_index declared.now self.old.next)
            (seen_in (view_of P.pack (W.name words.now) (W.sight pass.old))) (seen_in (view_of P.pack (W.name words.now) (W.sight pass.new))) }
        ensures marks { HasMarked P.meld W.alone self.old (among group.now declared.now) self.new.next (view_of P.pack (W.name words.now) (W.sight pass.old))
            (view_of P.pack (W.name words.now) (W.sight pass.new)) }
    {
        while self.next < declared.len() {
            self.step(words, pass, group, declared);
            if !whole {
                return;
            }
        }
    }

    /// All steps that are left: afterwards each declared member is settled.
    #[inline(always)]
    pub fn finish<P: Packed, A: Allocator, W: Words<P, A>>(
        mut self,
        words: &W,
        pass: &mut W::Pass,
        group: &[u16],
        declared: &[u16],
    )
        requires of { IsView P.meld (view_of P.pack (W.name words.now) (W.sight pass.old)) }
        requires may { MayMarkAllIn (view_of P.pack (W.name words.now) (W.sight pass.old)) self.comm self.round group.now declared.now }
        requires at { IsAt group.now declared.now self.next self.known }
        ensures marks { HasMarked P.meld W.alone self (among group.now declared.now) (length declared.now) (view_of P.pack (W.name words.now) (W.sight pass.old))
            (view_of P.pack (W.name words.now) (W.sight pass.new)) }
    {
        if self.next < declared.len() {
            self.advance(words, pass, group, declared, true);
        }
    }
}
