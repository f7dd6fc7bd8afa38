// The further steps of a shrink's poll, once its round is decided: how a rank comes by its communicator.
ghost use Rattle.std.specs.Prelude.{Bool, ◌≡◌, ◌+◌, ◌-◌, ◌*◌, ◌<◌, ◌≤◌, false, true, ◌⊎◌, MatchOption, if◌then◌else◌, min};
ghost use Rattle.ulfm_model.specs.{Records.{Record}, Terms.{comm_of}};
ghost use Rattle.ulfm_comm.specs.{Spawning.{HadMemory, HasReached}, Agreement.{HasReadAll}, Phase.{IsMaking, IsPast, NextBelow, NextIs, StillStands}};
ghost use Rattle.ulfm_comm.specs.{StepsLeft.{FewerLeft, after_round}, AlsoLeft.{also_after_round, also_in}, Step.{TakesTurn}, Proposals.{WinsNext}};
ghost use Rattle.ulfm_comm.specs.declared.phases.phase.Phase.TheVariants.{ReadingOn as AtReadingOn, Spawning as AtSpawning};
ghost use Rattle.ulfm_comm.specs.Local.{local};
ghost use Rattle.ulfm_comm.specs.Requests.{polled_round};
ghost use Rattle.ulfm_comm.specs.Phase.{under_way};
ghost use Rattle.ulfm_comm.specs.Step.{coming};
ghost use Rattle.ulfm_words.specs.Steps.{view_of, IsView, Sight};
ghost use Rattle.ulfm_steps.specs.declared.append.Appended.TheVariants.{Found as IsFound, Full as IsFull, Won as IsWon};

use crate::phases::phase::{Made, Next, Phase};
use crate::rank::{LocalState, NewComm};
use std::alloc::Allocator;
use ulfm_laws::meld::Packed;
use ulfm_laws::summary::{Body, Summary};
use ulfm_model::call::{Call, comm_of};
use ulfm_model::event::Caller;
use ulfm_model::ids::lowest_id;
use ulfm_model::limits::Limits;
use ulfm_model::refusal::Refusal;
use ulfm_model::reply::Reply;
use ulfm_steps::group::has_rank;
use ulfm_steps::{Append, Appended, Item, ReadOn};
use ulfm_words::Words;

// That of a decided round ..
#[derive(Drop)]
pub(crate) enum Spawned {
    // isn't found yet.
    Unknown,
    // has this number, and the rank holds it, with so many members.
    Made { comm: u16, size: u16 },
    // can't be made: all that there may be were made of other rounds.
    Full,
}

// The place in the list where an appended item stands, by this appending or before.
pub(crate) fn place_in(end: Appended) -> Option<u16>
    ensures { MatchOption result (end ≡ IsFull) (λ index. (end ≡ IsWon index) ⊎ (end ≡ IsFound index)) }
{
    match end {
        Appended::Won(index) => Some(index),
        Appended::Found(index) => Some(index),
        Appended::Full => None,
    }
}

// Where the list of communicators is read from, for a child of this one: from its beginning step by step, and in a whole call from behind
// the parent, since children come after it; but from its last place at the latest.
fn first_place(parent: u16, limits: Limits, whole: bool) -> u16
    requires { 1 < limits.comms }
    ensures { result ≡ (if whole then min parent (limits.comms - 2) else 0) }
{
    if whole {
        parent.min(limits.comms - 2)
    } else {
        0
    }
}

impl<P: Packed, A: Allocator + Copy> LocalState<P, A> {
    // What comes next where a shrink's round says this.
    pub(crate) fn shrunk<W: Words<P, A>>(
        &mut self,
        words: &W,
        pass: &W::Pass,
        asked: &Call<P>,
        round: u16,
        all: Summary<P>,
        whole: bool,
        prepared: &mut NewComm<A>,
    ) -> Next<P>
        requires of { IsView P.meld (view_of P.pack (W.name words.now) (W.sight pass.now)) }
        requires read { (old : Record) × (before : Sight P)
            × HasReadAll P.meld false asked.now (polled_round true round) all (local old (view_of P.pack (W.name words.now) before))
            (local self.old (view_of P.pack (W.name words.now) (W.sight pass.now))) }
        ensures further { NextBelow 5 result }
        ensures sees { self.new.seen ≡ self.old.seen }
        ensures past { IsPast result }
        ensures nearer { FewerLeft (after_round (W.name words.now).limits self.old true + 1) (W.name words.now).limits self.new asked.now result }
        ensures also { also_in (W.name words.now).limits self.new asked.now result ≤ also_after_round (W.name words.now).limits true }
        ensures turns { (alone : Bool) (old : Record) (before : Sight P)
            → HasReadAll P.meld alone asked.now (polled_round true round) all (local old (view_of P.pack (W.name words.now) before))
            (local self.old (view_of P.pack (W.name words.now) (W.sight pass.now)))
            → NextIs P.meld alone asked.now (local old (view_of P.pack (W.name words.now) before)) result prepared.new
            (local self.new (view_of P.pack (W.name words.now) (W.sight pass.now))) }
    {
        let comm = comm_of(asked);
        let Body::Ctx(mask) = all.body else {
            self.close(comm);
            return Next::Ends(Reply::Refused(Refusal::Mismatch));
        };
        if mask.bits == 0 {
            self.close(comm);
            return Next::Ends(Reply::Refused(Refusal::NoContext));
        }
        let x = self.held_comm(comm);
        let count = all.known.count;
        let on = ReadOn::new(&x.group, count, self.failures());
        let made = Made { round, mask, count };
        if on.found < count {
            return Next::Goes(Phase::ReadingOn { on, made });
        }
        self.reached(words, pass, asked, on.reach, made, whole, prepared)
    }

    // A load of the list of failures, or all that are left, as far as the decision's failed group reaches.
    #[inline(always)]
    pub(crate) fn go_reading_on<W: Words<P, A>>(
        &mut self,
        words: &W,
        pass: &mut W::Pass,
        asked: &Call<P>,
        mut on: ReadOn,
        made: Made,
        whole: bool,
        prepared: &mut NewComm<A>,
    ) -> Next<P>
        requires of { IsView P.meld (view_of P.pack (W.name words.now) (W.sight pass.old)) }
        requires stands { StillStands P.meld (under_way asked.now (AtReadingOn on made) prepared.old)
            (local self.old (view_of P.pack (W.name words.now) (W.sight pass.old))) }
        ensures { TakesTurn P.meld W.alone whole (under_way asked.now (AtReadingOn on made) prepared.old)
            (local self.old (view_of P.pack (W.name words.now) (W.sight pass.old))) (coming result prepared.new)
            (local self.new (view_of P.pack (W.name words.now) (W.sight pass.new))) }
    {
        self.read_on(words, pass, comm_of(asked), &mut on, made.count, whole);
        if on.found < made.count {
            return Next::Goes(Phase::ReadingOn { on, made });
        }
        self.reached(words, pass, asked, on.reach, made, whole, prepared)
    }

    // What comes next where the decision's whole failed group is known: so many failures that were seen reach as far as it.
    fn reached<W: Words<P, A>>(
        &mut self,
        words: &W,
        pass: &W::Pass,
        asked: &Call<P>,
        reach: usize,
        made: Made,
        whole: bool,
        prepared: &mut NewComm<A>,
    ) -> Next<P>
        requires of { IsView P.meld (view_of P.pack (W.name words.now) (W.sight pass.now)) }
        requires reached { (old : Record) × (before : Sight P)
            × HasReached P.meld false asked.now made reach (local old (view_of P.pack (W.name words.now) before))
            (local self.old (view_of P.pack (W.name words.now) (W.sight pass.now))) }
        ensures further { NextBelow 4 result }
        ensures sees { self.new.seen ≡ self.old.seen }
        ensures past { IsPast result }
        ensures makes { IsMaking result }
        ensures memory { HadMemory asked.now reach self.old result prepared.new }
        ensures nearer { FewerLeft (2 * ((W.name words.now).limits.comms - 1) + 1) (W.name words.now).limits self.new asked.now result }
        ensures turns { (alone : Bool) (old : Record) (before : Sight P)
            → HasReached P.meld alone asked.now made reach (local old (view_of P.pack (W.name words.now) before))
            (local self.old (view_of P.pack (W.name words.now) (W.sight pass.now)))
            → NextIs P.meld alone asked.now (local old (view_of P.pack (W.name words.now) before)) result prepared.new
            (local self.new (view_of P.pack (W.name words.now) (W.sight pass.now))) }
    {
        let number = self.number();
        if has_rank(&self.failures()[..reach], number) {
            self.refuse();
            return Next::Ends(Reply::Refused(Refusal::SelfFailed));
        }
        let comm = comm_of(asked);
        if self.make_room(comm, reach, prepared).is_err() {
            return Next::Ends(Reply::Refused(Refusal::OutOfMemory));
        }
        if words.limits().comms == 1 {
            self.close(comm);
            return Next::Ends(Reply::Refused(Refusal::NoRoom));
        }
        let item = Item::Comm {
            parent: comm,
            round: made.round,
        };
        let append = Append::new(item, Caller::Rank(number));
        let index = first_place(comm, words.limits(), whole);
        Next::Goes(Phase::Spawning {
            append: Append { index, ..append },
            context: lowest_id(made.mask),
            reach,
        })
    }

    // A load or an exchange of the list of communicators, or all that are left, until it has the round's or is full.
    pub(crate) fn go_spawning<W: Words<P, A>>(
        &mut self,
        words: &W,
        pass: &mut W::Pass,
        asked: &Call<P>,
        mut append: Append,
        context: u8,
        reach: usize,
        whole: bool,
        prepared: &mut NewComm<A>,
    ) -> Next<P>
        requires of { IsView P.meld (view_of P.pack (W.name words.now) (W.sight pass.old)) }
        requires stands { StillStands P.meld (under_way asked.now (AtSpawning append context reach) prepared.old)
            (local self.old (view_of P.pack (W.name words.now) (W.sight pass.old))) }
        ensures turn { TakesTurn P.meld W.alone whole (under_way asked.now (AtSpawning append context reach) prepared.old)
            (local self.old (view_of P.pack (W.name words.now) (W.sight pass.old))) (coming result prepared.new)
            (local self.new (view_of P.pack (W.name words.now) (W.sight pass.new))) }
        ensures wins { whole ≡ false → WinsNext P.meld W.alone asked.now (AtSpawning append context reach)
            (local self.old (view_of P.pack (W.name words.now) (W.sight pass.old))) result (view_of P.pack (W.name words.now) (W.sight pass.new)) }
    {
        let comm = comm_of(asked);
        match self.spawn(words, pass, comm, &mut append, context, whole, prepared) {
            Spawned::Unknown => Next::Goes(Phase::Spawning {
                append,
                context,
                reach,
            }),
            Spawned::Made { comm, size } => Next::Ends(Reply::Shrunk {
                comm,
                context,
                size,
            }),
            Spawned::Full => {
                self.close(comm);
                Next::Ends(Reply::Refused(Refusal::NoRoom))
            }
        }
    }
}
