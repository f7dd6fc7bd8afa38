// A rank: what it keeps between its calls, as the communicators that it holds and the failures that it has seen; and
// what a user may ask of that. And what is prepared for a communicator that a shrink makes: its members, and room where its rank has none.
ghost use Rattle.std.specs.Prelude.{◌≡◌, ◌≢◌, ◌<◌, ◌≤◌, ◌+◌, ◌-◌, ◌==◌, ℕ, [], true, false, filter, length, map, nat_eq, not, take, Some, None, MatchOption, IfOk, OnErr, vec_capacity};
ghost use Rattle.std.specs.Arc.{arc_slice_items};
ghost use Rattle.std.specs.List.{IsDistinct, Sorted.{IsStrictlyIncreasing}};
ghost use mathlib.Core.List.{IsPrefix};
ghost use Rattle.ulfm_model.specs.{Records.{Held, free_ids, held_at, new_record, with_held}, History.{failures, first_ranks, has, without}, Words.{MayOpen}};
ghost use Rattle.ulfm_model.specs.{Answers.{closed, first_refusal, opened}, Terms.{request_of, tests_of}};
ghost use Rattle.ulfm_words.specs.Steps.{view_of, IsView, Goes};
ghost use Rattle.ulfm_steps.specs.{Looks.{LookIs, LookTakes}, ReadsOn.{AtFailure, MayReadOn, ReadOnTakes}};
ghost use Rattle.ulfm_steps.specs.declared.item.Item.TheVariants.{Comm as OfComm};
ghost use Rattle.ulfm_model.specs.Kept.{HasNext};
ghost use Rattle.ulfm_comm.specs.Counts.{ranked};
ghost use Rattle.ulfm_comm.specs.Spawning.{seeking, target, MayHold, MayGoSpawning, SpawnIs, SpawnTakes};
ghost use Rattle.ulfm_comm.specs.declared.phases.spawning.Spawned.TheVariants.{Unknown};
ghost use Rattle.ulfm_comm.specs.{Local.{local}, Prepared.{HasPlaces}};
ghost use Rattle.ulfm_laws.specs.Ranges.{payload_bits};
ghost use Rattle.ulfm_comm.specs.{Prepared.{few_comms, unprepared}, Ranks.{IsEmptyList}};

use crate::phases::spawning::{Spawned, place_in};
use std::alloc::{AllocError, Allocator};
use std::marker::{Model, PhantomData};
use std::mem;
use std::sync::ArcSlice;
use ulfm_laws::meld::Packed;
use ulfm_laws::summary::CtxMask;
use ulfm_model::call::{Call, Request};
use ulfm_model::held::{self, HeldComm, Members, place_of, refusal_on, take_in};
use ulfm_model::ids::free_ids;
use ulfm_model::limits::Limits;
use ulfm_model::refusal::Refusal;
use ulfm_steps::group::{has_rank, make_room, put_in, without};
use ulfm_steps::{Append, Look, ReadOn};
use ulfm_words::Words;

// What a rank keeps of its calls. Contracts see it as its record.
#[derive(Drop)]
pub(crate) struct LocalState<P: Packed, A: Allocator> {
    number: u16,
    limits: Limits,
    // The communicators that it holds. It has room for a few from the start, and for all that it may hold once it holds more.
    held: Vec<HeldComm<A>, A>,
    // All failures that it has seen, in order. It has room for all ranks.
    seen: Vec<u16, A>,
    // How many of them, from the first on, are known to be other ranks.
    others: usize,
    // The place, among a round's members, of the one at whom its last reading ended, since that one was missing. No contract rests on it:
    // a load tells whether who stands there is missing.
    awaited: Option<u16>,
    refused: bool,
    flags: PhantomData<P>,
}

impl<P: Packed, A: Allocator> Model for LocalState<P, A> {
    ghost use Rattle.ulfm_model.specs.Records.{Record};
    ghost use Rattle.std.specs.Prelude.{vec_capacity};
    ghost use Rattle.ulfm_comm.specs.Ranks.{IsKept};

    ghost Value = { Record };

    ghost view = { λ a. record { number = a.number; limits = a.limits; held = a.held.items; seen = a.seen.items; refused = a.refused } };

    ghost invariant = { λ a. IsKept a.number a.limits (vec_capacity a.seen) (vec_capacity a.held) a.held.items a.seen.items a.others };
}

impl<P: Packed, A: Allocator + Copy> LocalState<P, A> {
    // A new rank of a world, whose ranks these are, with a list for the failures that it will have seen.
    pub(crate) fn new(
        alloc: A,
        limits: Limits,
        number: u16,
        ranks: &ArcSlice<u16, A>,
        seen: Vec<u16, A>,
    ) -> Result<LocalState<P, A>, AllocError>
        requires may_open { MayOpen limits }
        requires below { number < limits.ranks }
        requires ranks { arc_slice_items ranks.now ≡ first_ranks limits.ranks }
        requires seen { IsEmptyList limits.ranks seen }
        ensures { IfOk result (λ r. r ≡ new_record limits number) }
    {
        let group = ranks.clone()?;
        let mut held = Vec::with_capacity(alloc, FEW)?;
        held.push(HeldComm::with_members(0, 0, Members::Shared(group)))?;
        Ok(LocalState {
            number,
            limits,
            held,
            seen,
            others: 0,
            awaited: None,
            refused: false,
            flags: PhantomData,
        })
    }
}

impl<P: Packed, A: Allocator> LocalState<P, A> {
    // Its number.
    pub(crate) fn number(&self) -> u16
        ensures { result ≡ self.now.number }
    {
        self.number
    }

    // All failures that it has seen, in order.
    pub(crate) fn failures(&self) -> &[u16]
        ensures { result.now ≡ self.now.seen }
    {
        &self.seen
    }

    /// The communicator of this number, if the rank holds it.
    #[inline(always)]
    pub(crate) fn held(&self, comm: u16) -> Option<&HeldComm<A>>
        ensures held { MatchOption result (held_at self.now comm ≡ None) (λ x. held_at self.now comm ≡ Some x.now) }
        ensures contexts { IsDistinct nat_eq (map (λ x. x.context) self.now.held) }
    {
        match place_of(&self.held, comm) {
            Some(i) => Some(&self.held[i]),
            None => None,
        }
    }

    /// A communicator that it holds.
    #[inline(always)]
    pub(crate) fn held_comm(&self, comm: u16) -> &HeldComm<A>
        requires { (x : Held) × (held_at self.now comm ≡ Some x) }
        ensures { held_at self.now comm ≡ Some result.now }
    {
        match self.held(comm) {
            Some(x) => x,
            // Its callers know that the rank holds it, since the look of their call.
            None => unreachable!(),
        }
    }

    // Puts those of the first so many failures that were seen into a vector that are members of a communicator which it holds. What
    // the vector held is dropped. It fails only where memory is refused; then the vector is as it was.
    pub(crate) fn put_failed<B: Allocator>(
        &self,
        comm: u16,
        reach: usize,
        found: &mut Vec<u16, B>,
    ) -> Result<(), AllocError>
        requires held { (x : Held) × (held_at self.now comm ≡ Some x) × IsStrictlyIncreasing x.group }
        requires within { reach ≤ length self.now.seen }
        ensures group { IfOk result (λ _. (x : Held) → held_at self.now comm ≡ Some x → found.new.items ≡ filter (has x.group) (take reach self.now.seen)) }
        ensures kept { OnErr result (found.new.items ≡ found.old.items) }
        ensures lacks { OnErr result ((x : Held) → held_at self.now comm ≡ Some x
            → vec_capacity found.old < length (filter (has x.group) (take reach self.now.seen))) }
    {
        let x = self.held_comm(comm);
        let seen = &self.failures()[..reach];
        make_room(&x.group, seen, found)?;
        found.clear();
        put_in(&x.group, seen, found);
        Ok(())
    }

    // Whether it was refused for good.
    pub(crate) fn is_refused(&self) -> bool
        ensures { result ≡ self.now.refused }
    {
        self.refused
    }

    // Whether it has seen that all ranks are declared, itself among them.
    pub(crate) fn has_seen_all(&self) -> bool
        ensures all { result ≡ (length self.now.seen == self.now.limits.ranks) }
        ensures below { self.now.number < self.now.limits.ranks }
    {
        self.seen.len() == self.limits.ranks as usize
    }

    // Whether it is among the failures that it has seen. Those that are known to be others aren't compared again.
    #[inline(always)]
    pub(crate) fn finds_itself(&mut self) -> bool
        ensures kept { self.new ≡ self.old }
        ensures found { result ≡ has self.old.seen self.old.number }
    {
        if has_rank(&self.seen[self.others..], self.number) {
            return true;
        }
        self.others = self.seen.len();
        false
    }

    // A look begins behind what it has seen. Where that is all ranks, it begins at the last of them, so that it has a load to make.
    pub(crate) fn resume(&mut self)
        ensures { self.new ≡ record self.old { seen = take (self.old.limits.ranks - 1) self.old.seen } }
    {
        let most = (self.limits.ranks as usize).saturating_sub(1);
        self.seen.truncate(most);
        self.others = 0;
    }

    // The place of the member at whom its last reading ended. It is forgotten.
    #[inline(always)]
    pub(crate) fn take_awaited(&mut self) -> Option<u16>
        ensures { self.new ≡ self.old }
    {
        self.awaited.take()
    }

    // A reading ended at the member of this place.
    #[inline(always)]
    pub(crate) fn await_at(&mut self, place: u16)
        ensures { self.new ≡ self.old }
    {
        self.awaited = Some(place);
    }

    // From now on it is refused.
    pub(crate) fn refuse(&mut self)
        ensures { self.new ≡ record self.old { refused = true } }
    {
        self.refused = true;
    }

    // So many failures of a communicator are acknowledged now.
    pub(crate) fn acknowledge(&mut self, comm: u16, count: u16)
        ensures { self.new ≡ with_held self.old comm (λ y. record y { acked = count }) }
    {
        held::acknowledge(&mut self.held, comm, count);
    }

    // The first refusal of a call on a communicator that it holds, if its record has one.
    #[inline(always)]
    pub(crate) fn refusal(&self, x: &HeldComm<A>, asked: &Call<P>) -> Option<Refusal>
        ensures { result ≡ first_refusal (tests_of self.now x.now asked.now) }
    {
        refusal_on(self.limits, &self.held, x, asked)
    }

    // The context ids that none of its communicators has.
    pub(crate) fn free_ids(&self) -> CtxMask
        ensures { result ≡ free_ids self.now.held }
    {
        free_ids(&self.held)
    }

    // A request is open on a communicator, and its round is used up.
    #[inline(always)]
    pub(crate) fn open(&mut self, comm: u16, request: Request)
        requires next { HasNext request }
        ensures { self.new ≡ with_held self.old comm (λ y. opened y (Some request)) }
    {
        held::open(&mut self.held, comm, request);
    }

    // No request is open on a communicator.
    #[inline(always)]
    pub(crate) fn close(&mut self, comm: u16)
        ensures { self.new ≡ closed self.old comm }
    {
        held::close(&mut self.held, comm);
    }

    // It doesn't hold the communicator of this number any more.
    pub(crate) fn release(&mut self, comm: u16)
        ensures { self.new ≡ record self.old { held = filter (λ x. not (x.comm == comm)) self.old.held } }
    {
        held::release(&mut self.held, comm);
    }

    // One load of the list of failures, or all that are left: whether its end is reached.
    #[inline(always)]
    pub(crate) fn look_on<W: Words<P, A>>(
        &mut self,
        words: &W,
        pass: &mut W::Pass,
        whole: bool,
    ) -> bool
        requires of { IsView P.meld (view_of P.pack (W.name words.now) (W.sight pass.old)) }
        requires limits { self.old.limits ≡ (W.name words.now).limits }
        requires look { LookIs (W.name words.now).limits false self.old.seen (W.sight pass.old).seen }
        ensures goes { Goes P.meld W.alone false (W.name words.now).limits.ranks (view_of P.pack (W.name words.now) (W.sight pass.old))
            (view_of P.pack (W.name words.now) (W.sight pass.new)) }
        ensures takes { LookTakes whole (W.name words.now).limits self.old.seen result self.new.seen (W.sight pass.old) (W.sight pass.new) }
        ensures kept { self.new ≡ record self.old { seen = self.new.seen } }
        ensures look { LookIs (W.name words.now).limits result self.new.seen (W.sight pass.new).seen }
        ensures done { whole ≡ true → result ≡ true }
    {
        let mut look = Look { done: false };
        look.advance(words, pass, &mut self.seen, whole);
        if !look.done {
            self.others = 0;
        }
        look.done
    }

    // One load on in the list of failures, or all that are left, until so many members of a communicator that it holds are
    // among those that it has seen.
    pub(crate) fn read_on<W: Words<P, A>>(
        &mut self,
        words: &W,
        pass: &mut W::Pass,
        comm: u16,
        on: &mut ReadOn,
        count: u16,
        whole: bool,
    )
        requires of { IsView P.meld (view_of P.pack (W.name words.now) (W.sight pass.old)) }
        requires limits { self.old.limits ≡ (W.name words.now).limits }
        requires may { (x : Held) × (held_at self.old comm ≡ Some x) × MayReadOn x.group count self.old.seen (failures (W.sight pass.old).seen)
            × AtFailure x.group count on.old self.old.seen }
        requires more { on.old.found < count }
        ensures goes { Goes P.meld W.alone false (W.name words.now).limits.ranks (view_of P.pack (W.name words.now) (W.sight pass.old))
            (view_of P.pack (W.name words.now) (W.sight pass.new)) }
        ensures takes { ReadOnTakes whole (W.name words.now).limits self.old.seen self.new.seen (W.sight pass.old) (W.sight pass.new) }
        ensures further { (W.sight pass.new).steps + length self.old.seen ≡ (W.sight pass.old).steps + length self.new.seen }
        ensures kept { self.new ≡ record self.old { seen = self.new.seen } }
        ensures goes_on { IsPrefix self.old.seen self.new.seen }
        ensures begins { IsPrefix self.new.seen (failures (W.sight pass.new).seen) }
        ensures at { (x : Held) → held_at self.old comm ≡ Some x → AtFailure x.group count on.new self.new.seen }
        ensures done { whole ≡ true → on.new.found ≡ count }
    {
        let Some(i) = place_of(&self.held, comm) else {
            // It is held, as a `requires` says; what is seen grows beside it, so that `held_comm` can't lend it.
            unreachable!()
        };
        on.advance(
            words,
            pass,
            &self.held[i].group,
            count,
            &mut self.seen,
            whole,
        );
    }
}

impl<P: Packed, A: Allocator + Copy> LocalState<P, A> {
    // Its memory. Its world may be opened.
    pub(crate) fn allocator(&self) -> A
        ensures { MayOpen self.now.limits }
    {
        *self.seen.allocator()
    }

    // Takes the memory for a communicator that is made of one that it holds: for its members, the parent's without the first so many
    // failures that were seen, and for room, where the rank has none itself.
    pub(crate) fn make_room(
        &self,
        comm: u16,
        reach: usize,
        prepared: &mut NewComm<A>,
    ) -> Result<(), AllocError>
        requires held { (x : Held) × (held_at self.now comm ≡ Some x) }
        requires within { reach ≤ length self.now.seen }
        ensures members { IfOk result (λ _. (x : Held) → held_at self.now comm ≡ Some x
            → prepared.new.members ≡ without x.group (take reach self.now.seen)) }
        ensures places { IfOk result (λ _. HasPlaces self.now.held prepared.new.places) }
    {
        let x = self.held_comm(comm);
        let alloc = self.allocator();
        let members = without(alloc, &x.group, &self.seen[..reach])?;
        let room = take_room(alloc, &self.held)?;
        *prepared = NewComm { members, room };
        Ok(())
    }

    // One step in the list of communicators, or all that are left, until it has that of a decided round. Then the rank holds it,
    // with these members, in place of the open request on its parent. It takes no memory: there is room for one more, or was taken
    // before, since no communicator that it holds has this context id.
    pub(crate) fn spawn<W: Words<P, A>>(
        &mut self,
        words: &W,
        pass: &mut W::Pass,
        comm: u16,
        append: &mut Append,
        context: u8,
        whole: bool,
        prepared: &mut NewComm<A>,
    ) -> Spawned
        requires of { IsView P.meld (view_of P.pack (W.name words.now) (W.sight pass.old)) }
        requires may { (k : ℕ) × MayGoSpawning P.meld (W.name words.now).limits (W.sight pass.old).seen comm k append.old }
        requires holds { MayHold self.old comm context (length prepared.old.members) }
        requires places { HasPlaces self.old.held prepared.old.places }
        ensures spawns { (k : ℕ) → append.old.item ≡ OfComm comm k
            → SpawnIs P.meld W.alone (target comm k context prepared.old.members) (seeking append.old
            (local self.old (view_of P.pack (W.name words.now) (W.sight pass.old)))) result (seeking append.new
            (local self.new (view_of P.pack (W.name words.now) (W.sight pass.new)))) }
        ensures takes { SpawnTakes whole (W.name words.now).limits append.old result append.new (W.sight pass.old) (W.sight pass.new) }
        ensures kept { result ≡ Unknown → prepared.new ≡ prepared.old }
        ensures done { whole ≡ true → result ≢ Unknown }
    {
        let Some(end) = append.advance(words, pass, whole) else {
            return Spawned::Unknown;
        };
        let Some(index) = place_in(end) else {
            return Spawned::Full;
        };
        let number = index + 1;
        let NewComm { members, room } = mem::replace(prepared, NewComm::new(self.allocator()));
        let size = members.len() as u16;
        let made = HeldComm::new(number, context, members);
        move_in(&mut self.held, room);
        take_in(&mut self.held, comm, made);
        Spawned::Made { comm: number, size }
    }
}

/// A rank of a world. In contracts it stands for its record, that is what it keeps between calls, and how many steps its last call made.
///
/// A step is one atomic load or compare-exchange of a shared word. Each call begins with a look: loads of the list of declared failures,
/// from behind those that the rank has seen to the first empty place. So with N ranks, of which it has seen v declared, a look makes N - v
/// steps at most. What its calls have seen is in the pass that each is given, a local view of the words.
///
/// A communicator is named by a number. A rank holds the world's, 0, and those that its shrinks made, until it frees them; a call on any
/// other is refused as `NoSuchComm`. A refusal leaves the rank as it was, but for what the look has seen, and where the call's own page says
/// more. A rank that was refused as `SelfFailed` is refused so for good, without a step. Examples are of rank 0 in a world of two.
#[derive(Drop)]
pub struct Rank<P: Packed, A: Allocator> {
    // What it keeps between its calls.
    pub(crate) own: LocalState<P, A>,
    // The steps of its last call.
    pub(crate) last: u32,
}

impl<P: Packed, A: Allocator> Model for Rank<P, A> {
    ghost use Rattle.ulfm_comm.specs.Counts.{Ranked, ranked};

    ghost Value = { Ranked };

    ghost view = { λ a. ranked a.own a.last };
}

impl<P: Packed, A: Allocator + Copy> Rank<P, A> {
    // The rank of this local state. It has made no call.
    pub(crate) fn with_state(own: LocalState<P, A>) -> Rank<P, A>
        ensures { result ≡ ranked own 0 }
    {
        Rank { own, last: 0 }
    }
}

impl<P: Packed, A: Allocator> Rank<P, A> {
    /// The rank's number, 0 to 1023. It makes no atomic step.
    ///
    /// ```
    /// assert!(rt; rank.number() == 0);
    /// ```
    pub fn number(&self) -> u16
        ensures { result ≡ self.now.own.number }
    {
        self.own.number()
    }

    /// All ranks that it has seen to be declared failed, in the order of the declarations. A call's look begins behind them. It makes no atomic step.
    ///
    /// ```
    /// // Rank 1 was declared failed before.
    /// // A call looks, and then the rank has seen it.
    /// rank.is_revoked(&world, &mut pass, 0)?;
    /// assert_eq!(rt; rank.failures(), [1].as_slice());
    /// ```
    pub fn failures(&self) -> &[u16]
        ensures { result.now ≡ self.now.own.seen }
    {
        self.own.failures()
    }

    /// The ranks that are members of a communicator, in order; `None` where this rank doesn't hold the communicator. It makes no atomic step.
    ///
    /// ```
    /// assert!(rt; rank.members(0) == Some([0, 1].as_slice()));
    /// assert!(rt; rank.members(1).is_none());
    /// ```
    pub fn members(&self, comm: u16) -> Option<&[u16]>
        ensures { MatchOption result (held_at self.now.own comm ≡ None)
            (λ group. (x : Held) × (held_at self.now.own comm ≡ Some x) × (group.now ≡ x.group)) }
    {
        let x = self.own.held(comm)?;
        Some(&x.group)
    }

    /// The context id of a communicator, 0 to 63; `None` where the rank doesn't hold the communicator. No two communicators that it holds
    /// have the same id. It makes no atomic step.
    ///
    /// ```
    /// assert!(rt; rank.context(0) == Some(0));
    /// assert!(rt; rank.context(1).is_none());
    /// ```
    pub fn context(&self, comm: u16) -> Option<u8>
        ensures distinct { IsDistinct nat_eq (map (λ x. x.context) self.now.own.held) }
        ensures id { MatchOption result (held_at self.now.own comm ≡ None)
            (λ id. (x : Held) × (held_at self.now.own comm ≡ Some x) × (id ≡ x.context)) }
    {
        let x = self.own.held(comm)?;
        Some(x.context)
    }

    /// The request that is open on a communicator; `None` where none is, or where the rank doesn't hold the communicator. It makes no atomic
    /// step.
    ///
    /// ```
    /// rank.ishrink(&world, &mut pass, 0)?;
    /// assert!(rt; rank.request(0) == Some(Request::Shrink { round: 0 }));
    /// assert!(rt; rank.request(1).is_none());
    /// ```
    pub fn request(&self, comm: u16) -> Option<Request>
        ensures { result ≡ request_of (held_at self.now.own comm) }
    {
        match self.own.held(comm) {
            Some(x) => x.request,
            None => None,
        }
    }

    /// How many atomic steps its last call made, 0 before any. A call that is taken step by step counts from when it is answered. It makes
    /// no atomic step itself.
    ///
    /// ```
    /// // Rank 1 was declared failed before.
    /// // A call looks: one load finds that failure, and the next finds no other.
    /// assert!(rt; rank.last_steps() == 0);
    /// rank.ack_failed(&world, &mut pass, 0, 1)?;
    /// assert!(rt; rank.last_steps() == 2);
    /// ```
    pub fn last_steps(&self) -> u32
        ensures { result ≡ self.now.last }
    {
        self.last
    }
}

// For so many communicators a rank has room from the start.
pub(crate) const FEW: usize = 4;

// So many it may hold: no two of them have the same context id.
const MOST: usize = CtxMask::COUNT as usize;

// What a shrink's poll takes memory for, before the list of communicators is touched.
#[derive(Drop)]
pub(crate) struct NewComm<A: Allocator> {
    // The new communicator's members.
    pub members: Vec<u16, A>,
    // Room for all communicators that the rank may hold, where it holds as many as it has room for from the start. Nothing stands there.
    pub room: Vec<HeldComm<A>, A>,
}

impl<A: Allocator> Model for NewComm<A> {
    ghost use Rattle.std.specs.Prelude.{◌≡◌, [], vec_capacity};
    ghost use Rattle.ulfm_comm.specs.Prepared.{Prepared};

    ghost Value = { Prepared };

    ghost view = { λ a. record { members = a.members.items; places = vec_capacity a.room } };

    ghost invariant = { λ a. a.room.items ≡ [] };
}

impl<A: Allocator + Copy> NewComm<A> {
    // Nothing is prepared, and no memory is taken.
    pub(crate) fn new(alloc: A) -> NewComm<A>
        ensures { result ≡ unprepared }
    {
        NewComm {
            members: Vec::new(alloc),
            room: Vec::new(alloc),
        }
    }
}

// Room for all that a rank may hold, where it holds as many as it has room for from the start. Else none is taken.
pub(crate) fn take_room<A: Allocator>(
    alloc: A,
    held: &[HeldComm<A>],
) -> Result<Vec<HeldComm<A>, A>, AllocError>
    ensures empty { IfOk result (λ room. room.items ≡ []) }
    ensures places { IfOk result (λ room. HasPlaces held.now (vec_capacity room)) }
{
    let places = if held.len() == FEW { MOST } else { 0 };
    Vec::with_capacity(alloc, places)
}

// What a rank holds moves into the room that was taken for it, where it holds as many as it has room for from the start.
pub(crate) fn move_in<A: Allocator>(held: &mut Vec<HeldComm<A>, A>, mut room: Vec<HeldComm<A>, A>)
    requires empty { room.items ≡ [] }
    requires places { HasPlaces held.old.items (vec_capacity room) }
    ensures items { held.new.items ≡ held.old.items }
    ensures moved { length held.old.items ≡ few_comms → payload_bits ≤ vec_capacity held.new }
    ensures stays { (length held.old.items ≡ few_comms → ⊥) → vec_capacity held.new ≡ vec_capacity held.old }
{
    if held.len() != FEW {
        return;
    }
    // It has the places.
    let _ = room.append(held);
    *held = room;
}
