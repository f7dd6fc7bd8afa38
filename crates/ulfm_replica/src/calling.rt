// A rank over words of its own, with the call that it makes step by step.
ghost use Rattle.std.specs.Prelude.{◌≡◌, ◌≤◌, [], not, None, Some, false, true, IfOk, IfSome, IsTrue, MatchOption, is_some, length, slice_get};
ghost use Rattle.ulfm_model.specs.{Answers.{traits_of}, Records.{new_record}, History.{MayFollow}};
ghost use Rattle.ulfm_model.specs.declared.event.Caller.TheVariants.{Rank as OfRank};
ghost use Rattle.ulfm_words.specs.Steps.{IsView, view_of};
ghost use Rattle.ulfm_comm.specs.{Local.{local}, Phase.{MayStep, next_step}, Wings.{WingsIn, WingsSettled}};
ghost use Rattle.ulfm_numbers.specs.Telling.{TablesTell};
ghost use Rattle.ulfm_replica.specs.Replays.{Feeds};
ghost use Rattle.ulfm_replica.specs.Replicas.{Begins, ComesTo, IsBusy, IsCalling, IsWanted, KeepsCall, MakesWanted, StepsOn, is_settle, rules};

use crate::answers::{Lost, Ran};
use crate::feed;
use std::alloc::Allocator;
use std::marker::Model;
use ulfm_comm::{Doing, Rank, World};
use ulfm_laws::meld::Packed;
use ulfm_model::call::Call;
use ulfm_model::event::Entry;
use ulfm_model::limits::{Limits, OpenFault};
use ulfm_model::reply::Reply;
use ulfm_model::step_name::StepName;
use ulfm_numbers::Numbers;
use ulfm_words::{PlainPass, PlainWords};

/// A rank, its words, and its call. It is moved into what makes steps, and comes back where no memory was refused.
#[derive(Drop)]
pub(crate) struct CallingRank<P: Packed, A: Allocator + Copy + Drop> {
    // Its words: nobody else reads them.
    world: World<PlainWords<P>, P, A>,
    // What it has seen of them.
    pass: PlainPass<P, A>,
    rank: Rank<P, A>,
    // The call that is under way.
    call: Option<Doing<P, A>>,
    // The reply to a call that is answered, until it is told.
    reply: Option<Reply<P>>,
}

impl<P: Packed, A: Allocator + Copy + Drop> Model for CallingRank<P, A> {
    ghost use Rattle.ulfm_replica.specs.Replicas.{Calling, IsCalling, rules, way_in};

    ghost Value = { Calling P };

    ghost view = { λ a. record { words = a.world; own = a.rank.own; pass = a.pass; call = way_in a.call; reply = a.reply } };

    ghost invariant = { λ a. IsCalling (rules P.meld P.pack) (record { words = a.world; own = a.rank.own; pass = a.pass; call = way_in a.call; reply = a.reply }) };
}

// Whether the next step of a call is the exchange of a contribution's word.
fn is_settling<P: Packed, A: Allocator + Copy>(doing: &Doing<P, A>) -> bool
    ensures { result ≡ is_settle (next_step doing.now.way.phase) }
{
    matches!(doing.next(), Some(StepName::Settle))
}

// The rank of this number among a world's.
fn rank_of<P: Packed, A: Allocator>(ranks: Vec<Rank<P, A>, A>, number: u16) -> Option<Rank<P, A>>
    ensures { MatchOption result (length ranks.items ≤ number) (λ rank. slice_get ranks.items number ≡ Some rank) }
{
    ranks.into_iter().nth(usize::from(number))
}

impl<P: Packed, A: Allocator + Copy + Drop> CallingRank<P, A> {
    /// The rank of this number, over new words of these limits.
    pub(crate) fn open(
        alloc: A,
        limits: Limits,
        number: u16,
    ) -> Result<CallingRank<P, A>, OpenFault>
        ensures { IfOk result (λ new. (new.words.limits ≡ limits) × (new.own ≡ new_record limits number) × (new.pass.seen ≡ []) × (new.call ≡ None) × (new.reply ≡ None)) }
    {
        let words = PlainWords::open(limits)?;
        let (world, ranks) = World::open(alloc, words)?;
        let Some(rank) = rank_of(ranks, number) else {
            return Err(OpenFault::OutOfRange);
        };
        match world.pass(alloc) {
            Ok(pass) => Ok(CallingRank {
                world,
                pass,
                rank,
                call: None,
                reply: None,
            }),
            Err(_) => Err(OpenFault::OutOfMemory),
        }
    }

    /// The rank itself.
    pub(crate) fn rank(&self) -> &Rank<P, A>
        ensures { result.now.own ≡ self.now.own }
    {
        &self.rank
    }

    /// The limits of its world.
    pub(crate) fn limits(&self) -> Limits
        ensures { result ≡ self.now.words.limits }
    {
        self.world.limits()
    }

    /// How many events it has seen.
    pub(crate) fn seen(&self) -> u32
        ensures { result ≡ length self.now.pass.seen }
    {
        self.pass.count()
    }

    /// Whether a call is under way.
    pub(crate) fn is_under_way(&self) -> bool
        ensures { result ≡ is_some self.now.call }
    {
        self.call.is_some()
    }

    /// For proofs: what holds of each such rank. When it runs it does nothing.
    pub(crate) fn known(&self)
        ensures { IsCalling (rules P.meld P.pack) self.now }
    {
        let _call = &self.call;
    }

    /// The entry that the next step of its call is for, if it is for one: in the rank's name.
    pub(crate) fn proposal(&self) -> Option<Entry<P>>
        ensures { IfSome result (λ entry. MayFollow P.meld self.now.words.limits self.now.pass.seen entry.event → IsWanted (rules P.meld P.pack) self.now entry) }
    {
        match &self.call {
            Some(doing) => self.rank.proposal(&self.world, &self.pass, doing),
            None => None,
        }
    }

    /// Begins a call of this rank, where none is under way: whether it did.
    pub(crate) fn begin(&mut self, asked: Call<P>) -> bool
        requires mine { (traits_of asked).by ≡ OfRank self.old.own.number }
        ensures begun { IsTrue result → Begins (rules P.meld P.pack) asked self.old self.new }
        ensures busy { IsTrue (not result) → (self.new ≡ self.old) × IsBusy self.old }
    {
        if self.call.is_some() || self.reply.is_some() {
            return false;
        }
        self.call = Some(self.rank.begin(asked));
        true
    }

    // A rank whose call goes on.
    fn going(
        world: World<PlainWords<P>, P, A>,
        pass: PlainPass<P, A>,
        rank: Rank<P, A>,
        doing: Doing<P, A>,
    ) -> CallingRank<P, A>
        requires { IsCalling (rules P.meld P.pack) (record { words = world; own = rank.own; pass = pass; call = Some doing.way; reply = None }) }
        ensures { result ≡ record { words = world; own = rank.own; pass = pass; call = Some doing.way; reply = None } }
    {
        CallingRank {
            world,
            pass,
            rank,
            call: Some(doing),
            reply: None,
        }
    }

    // A rank whose call is answered.
    fn answered(
        world: World<PlainWords<P>, P, A>,
        pass: PlainPass<P, A>,
        rank: Rank<P, A>,
        reply: Reply<P>,
    ) -> CallingRank<P, A>
        requires { IsCalling (rules P.meld P.pack) (record { words = world; own = rank.own; pass = pass; call = None; reply = Some reply }) }
        ensures { result ≡ record { words = world; own = rank.own; pass = pass; call = None; reply = Some reply } }
    {
        CallingRank {
            world,
            pass,
            rank,
            call: None,
            reply: Some(reply),
        }
    }

    // The step that sets the word of a contribution whose wing is set.
    fn settled(
        world: World<PlainWords<P>, P, A>,
        mut pass: PlainPass<P, A>,
        mut rank: Rank<P, A>,
        mut doing: Doing<P, A>,
    ) -> Result<CallingRank<P, A>, Lost>
        requires of { IsView P.meld (view_of P.pack world pass) }
        requires stood { MayStep P.meld doing.way (local rank.own (view_of P.pack world pass)) }
        requires wings { WingsIn rank.own doing.way.asked doing.way.phase (view_of P.pack world pass) }
        requires settling { is_settle (next_step doing.way.phase) ≡ true }
        ensures steps { IfOk result (StepsOn (rules P.meld P.pack) (record { words = world; own = rank.own; pass = pass; call = Some doing.way; reply = None })) }
        ensures makes { IfOk result (MakesWanted (rules P.meld P.pack) (record { words = world; own = rank.own; pass = pass; call = Some doing.way; reply = None })) }
    {
        match rank.step(&world, &mut pass, &mut doing) {
            Some(reply) => Ok(CallingRank::answered(world, pass, rank, reply)),
            None => {
                if is_settling(&doing) {
                    return Err(Lost);
                }
                Ok(CallingRank::going(world, pass, rank, doing))
            }
        }
    }

    // The next step of a call that isn't about to set its contribution's word; where it set the wing of that, also the next one.
    fn moved(
        world: World<PlainWords<P>, P, A>,
        mut pass: PlainPass<P, A>,
        mut rank: Rank<P, A>,
        mut doing: Doing<P, A>,
    ) -> Result<CallingRank<P, A>, Lost>
        requires of { IsView P.meld (view_of P.pack world pass) }
        requires stood { MayStep P.meld doing.way (local rank.own (view_of P.pack world pass)) }
        requires wings { WingsSettled (view_of P.pack world pass) }
        requires unspread { is_settle (next_step doing.way.phase) ≡ false }
        ensures steps { IfOk result (StepsOn (rules P.meld P.pack) (record { words = world; own = rank.own; pass = pass; call = Some doing.way; reply = None })) }
        ensures makes { IfOk result (MakesWanted (rules P.meld P.pack) (record { words = world; own = rank.own; pass = pass; call = Some doing.way; reply = None })) }
    {
        match rank.step(&world, &mut pass, &mut doing) {
            Some(reply) => Ok(CallingRank::answered(world, pass, rank, reply)),
            None => {
                if is_settling(&doing) {
                    return CallingRank::settled(world, pass, rank, doing);
                }
                Ok(CallingRank::going(world, pass, rank, doing))
            }
        }
    }

    /// Takes the next step of its call; where that set the wing of a contribution, also the next, which makes the contribution.
    pub(crate) fn stepped(self) -> Result<CallingRank<P, A>, Lost>
        requires open { IsTrue (is_some self.call) }
        ensures steps { IfOk result (StepsOn (rules P.meld P.pack) self) }
        ensures makes { IfOk result (MakesWanted (rules P.meld P.pack) self) }
    {
        let CallingRank {
            world,
            pass,
            rank,
            call,
            reply: _,
        } = self;
        match call {
            Some(doing) => CallingRank::moved(world, pass, rank, doing),
            None => Err(Lost),
        }
    }

    /// What it has come to where no call is under way: a reply that wasn't told yet, or nothing.
    pub(crate) fn told(self) -> (CallingRank<P, A>, Ran<P>)
        requires { self.call ≡ None }
        ensures kept { (result.0.words ≡ self.words) × (result.0.pass ≡ self.pass) }
        ensures comes { ComesTo (rules P.meld P.pack) self result.1 result.0 }
    {
        let CallingRank {
            world,
            pass,
            rank,
            call,
            reply,
        } = self;
        let ran = match reply {
            Some(reply) => Ran::Answered(reply),
            None => Ran::Idle,
        };
        (
            CallingRank {
                world,
                pass,
                rank,
                call,
                reply: None,
            },
            ran,
        )
    }

    /// Takes an entry that isn't its own, where that may come next: whether it may.
    pub(crate) fn taking(
        self,
        alloc: A,
        numbers: &mut Numbers<P, A>,
        entry: &Entry<P>,
    ) -> Result<(CallingRank<P, A>, bool), Lost>
        requires { TablesTell self.words.limits.ranks numbers.old self.pass.seen }
        ensures feeds { IfOk result (λ r. Feeds P.meld self.words.limits entry.now r.1 self.pass.seen r.0.pass.seen) }
        ensures keeps { IfOk result (λ r. KeepsCall (rules P.meld P.pack) self r.0) }
        ensures tells { IfOk result (λ r. TablesTell self.words.limits.ranks numbers.new r.0.pass.seen) }
    {
        let CallingRank {
            world,
            mut pass,
            rank,
            call,
            reply,
        } = self;
        let limits = world.limits();
        match feed(alloc, limits, &mut pass, numbers, entry) {
            Ok(taken) => Ok((
                CallingRank {
                    world,
                    pass,
                    rank,
                    call,
                    reply,
                },
                taken,
            )),
            Err(_) => Err(Lost),
        }
    }
}
