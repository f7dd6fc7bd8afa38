// Calls, step by step and whole. A whole call is its own steps, run to the end. The look comes first, as a whole; what comes next is not
// handed on as a phase where calls are frequent, but run at once.
ghost use Rattle.std.specs.Prelude.{◌≡◌, ◌+◌, ◌<◌, ◌≤◌, Bool, length, IsTrue, MatchOption, OnSome, if◌then◌else◌, ℕ, false};
ghost use Rattle.ulfm_model.specs.declared.event.Caller.TheVariants.{Rank as OfRank};
ghost use Rattle.ulfm_model.specs.{Answers.{traits_of}, Records.{Fits}};
ghost use Rattle.ulfm_comm.specs.{Begins.{loads_again}, Bound.{also_bound, step_bound}, AlsoLeft.{also_left}, Counts.{MakesSteps, StepCounts, TakesSteps}};
ghost use Rattle.ulfm_comm.specs.{StepsLeft.{Spends, steps_left}, Step.{GoesOn, Stepped}, Calls.{EndsReply}, Polls.{PendsIn}};
ghost use Rattle.ulfm_comm.specs.Phase.{under_way, next_of, MayStep, Stands, StandsOrEnds, StillStands, is_looking};
ghost use Rattle.ulfm_words.specs.Steps.{view_at, view_of, IsView, Over, Sight};
ghost use Rattle.ulfm_comm.specs.declared.phases.phase.Phase.TheVariants.{Begun as AtBegun, Over as AtOver, Looking as AtLooking, Peeking as AtPeeking, Spreading as AtSpreading};
ghost use Rattle.ulfm_comm.specs.Local.{local, FitsView};
ghost use Rattle.ulfm_comm.specs.{Proposals.{WinsNext}, Step.{coming}, Wings.{WingsIn, WingsNext}};
ghost use Rattle.ulfm_model.specs.declared.{call.Call.TheVariants.{Poll as PollAsked}, call.Request.TheVariants.{Agree as OfAgree}};
ghost use Rattle.ulfm_model.specs.declared.contribution.Offer.TheVariants.{Flag as OfFlag};
ghost use Rattle.ulfm_comm.specs.Look.{Passes};
ghost use Rattle.ulfm_comm.specs.Step.{HasJustLooked, RunsBehind, RunsOn, RunsThrough};
ghost use Rattle.ulfm_comm.specs.Prepared.{unprepared};

use crate::phases::agreement::agreement;
use crate::phases::phase::{Doing, Next, Phase, Way};
use crate::rank::{LocalState, NewComm, Rank};
use crate::world::World;
use std::alloc::Allocator;
use std::mem;
use ulfm_laws::meld::Packed;
use ulfm_model::call::{Call, Request, comm_of};
use ulfm_model::contribution::Offer;
use ulfm_model::refusal::Refusal;
use ulfm_model::reply::Reply;
use ulfm_steps::Peek;
use ulfm_words::Words;

impl<P: Packed, A: Allocator + Copy> LocalState<P, A> {
    // What a call does first.
    fn first(&self) -> Phase<P>
        ensures { result ≡ (if self.now.refused then AtOver else AtBegun) }
    {
        if self.is_refused() {
            return Phase::Over;
        }
        Phase::Begun
    }

    // Begins a call of this rank, any but a declaration. It makes no atomic step.
    pub(crate) fn begin(&self, asked: Call<P>) -> Way<P, A>
        requires { (traits_of asked).by ≡ OfRank self.now.number }
        ensures asked { result.asked ≡ asked }
        ensures first { result.phase ≡ (if self.now.refused then AtOver else AtBegun) }
        ensures stands { (alone : Bool) (name : Over P) (before : Sight P) → IsView P.meld (view_at name before) → Fits P.meld name.limits before.seen self.now
            → Stands P.meld alone (local self.now (view_at name before)) result (local self.now (view_at name before)) }
        ensures bounded { steps_left self.now.limits self.now asked result.phase ≤ step_bound self.now.limits self.now asked + loads_again self.now }
        ensures also { also_left self.now.limits self.now asked result.phase ≤ also_bound self.now.limits self.now asked 0 + loads_again self.now }
    {
        Way {
            asked,
            phase: self.first(),
            prepared: NewComm::new(self.allocator()),
        }
    }

    // One step of a call, or all of its phase: what comes next. The first load of the list of failures comes behind what was seen.
    #[inline(always)]
    pub(crate) fn go<W: Words<P, A>>(
        &mut self,
        words: &W,
        pass: &mut W::Pass,
        asked: &Call<P>,
        phase: Phase<P>,
        prepared: &mut NewComm<A>,
        whole: bool,
    ) -> Next<P>
        requires of { IsView P.meld (view_of P.pack (W.name words.now) (W.sight pass.old)) }
        requires stands { StillStands P.meld (under_way asked.now phase prepared.old) (local self.old (view_of P.pack (W.name words.now) (W.sight pass.old))) }
        ensures { GoesOn P.meld W.alone whole (under_way asked.now phase prepared.old)
            (local self.old (view_of P.pack (W.name words.now) (W.sight pass.old))) (coming result prepared.new)
            (local self.new (view_of P.pack (W.name words.now) (W.sight pass.new))) }
    {
        match phase {
            Phase::Over => Next::Ends(Reply::Refused(Refusal::SelfFailed)),
            Phase::Begun => {
                self.resume();
                self.go_looking(words, pass, asked, whole)
            }
            Phase::Looking => self.go_looking(words, pass, asked, whole),
            Phase::Spreading { request, offer } => {
                self.go_spreading(words, pass, asked, request, offer)
            }
            Phase::Settling { request, offer } => {
                Next::Ends(self.go_settling(words, pass, asked, request, offer))
            }
            Phase::Arriving { round } => Next::Ends(self.go_arriving(words, pass, asked, round)),
            Phase::Revoking => Next::Ends(self.go_revoking(words, pass, asked)),
            Phase::Asking => Next::Ends(self.go_asking(words, pass, asked)),
            Phase::Peeking { peek, shrinks } => {
                self.go_peeking(words, pass, asked, peek, shrinks, whole, prepared)
            }
            Phase::Marking {
                marks,
                blocks,
                shrinks,
            } => self.go_marking(words, pass, asked, marks, blocks, shrinks, whole),
            Phase::Reading { reading, shrinks } => {
                self.go_reading(words, pass, asked, reading, shrinks, whole, prepared)
            }
            Phase::ReadingOn { on, made } => {
                self.go_reading_on(words, pass, asked, on, made, whole, prepared)
            }
            Phase::Spawning {
                append,
                context,
                reach,
            } => self.go_spawning(words, pass, asked, append, context, reach, whole, prepared),
            Phase::Waiting { arrivals } => self.go_waiting(words, pass, asked, arrivals, whole),
            Phase::Checking { missing } => {
                Next::Ends(self.go_checking(words, pass, asked, missing))
            }
        }
    }

    // Takes the next step of a call: the reply, in the step after which none is left.
    #[inline(always)]
    pub(crate) fn step<W: Words<P, A>>(
        &mut self,
        words: &W,
        pass: &mut W::Pass,
        doing: &mut Way<P, A>,
    ) -> Option<Reply<P>>
        requires of { IsView P.meld (view_of P.pack (W.name words.now) (W.sight pass.old)) }
        requires stood { MayStep P.meld doing.old (local self.old (view_of P.pack (W.name words.now) (W.sight pass.old))) }
        ensures asked { doing.new.asked ≡ doing.old.asked }
        ensures ended { OnSome result (doing.new.phase ≡ AtOver) }
        ensures stepped { Stepped P.meld W.alone doing.old (local self.old (view_of P.pack (W.name words.now) (W.sight pass.old)))
            (next_of result doing.new.phase) (local self.new (view_of P.pack (W.name words.now) (W.sight pass.new))) }
        ensures stands { StandsOrEnds P.meld W.alone doing.old (local self.old (view_of P.pack (W.name words.now) (W.sight pass.old))) result doing.new
            (local self.new (view_of P.pack (W.name words.now) (W.sight pass.new))) }
        ensures spends { Spends (steps_left (W.name words.now).limits self.old doing.old.asked doing.old.phase) (W.name words.now).limits self.new
            doing.old.asked (next_of result doing.new.phase) (W.sight pass.old) (W.sight pass.new) }
        ensures wings { IsTrue W.alone → WingsIn self.old doing.old.asked doing.old.phase (view_of P.pack (W.name words.now) (W.sight pass.old))
            → WingsNext self.new doing.new.asked (next_of result doing.new.phase) (view_of P.pack (W.name words.now) (W.sight pass.new)) }
        ensures wins { WinsNext P.meld W.alone doing.old.asked doing.old.phase (local self.old (view_of P.pack (W.name words.now) (W.sight pass.old)))
            (next_of result doing.new.phase) (view_of P.pack (W.name words.now) (W.sight pass.new)) }
    {
        let phase = mem::replace(&mut doing.phase, Phase::Over);
        match self.go(words, pass, &doing.asked, phase, &mut doing.prepared, false) {
            Next::Goes(phase) => {
                doing.phase = phase;
                None
            }
            Next::Ends(reply) => Some(reply),
        }
    }

    // A whole call: its own steps, run to the end. The look comes first, as a whole.
    #[inline(always)]
    pub(crate) fn call<W: Words<P, A>>(
        &mut self,
        words: &W,
        pass: &mut W::Pass,
        asked: Call<P>,
    ) -> Reply<P>
        requires of { IsView P.meld (view_of P.pack (W.name words.now) (W.sight pass.old)) }
        requires fits { Fits P.meld (W.name words.now).limits (W.sight pass.old).seen self.old }
        requires mine { (traits_of asked).by ≡ OfRank self.old.number }
        ensures ends { EndsReply P.meld W.alone asked (local self.old (view_of P.pack (W.name words.now) (W.sight pass.old))) result
            (local self.new (view_of P.pack (W.name words.now) (W.sight pass.new))) }
        ensures pending { PendsIn P.meld W.alone asked (local self.old (view_of P.pack (W.name words.now) (W.sight pass.old))) result
            (local self.new (view_of P.pack (W.name words.now) (W.sight pass.new))) }
        ensures steps { MakesSteps (W.name words.now).limits asked self.old (W.sight pass.old) self.new (W.sight pass.new) }
    {
        if self.is_refused() {
            return Reply::Refused(Refusal::SelfFailed);
        }
        if self.has_seen_all() {
            // It is one of them, and nothing is left to load.
            self.refuse();
            return Reply::Refused(Refusal::SelfFailed);
        }
        self.run_begun(words, pass, &asked)
    }
}

impl<P: Packed, A: Allocator + Copy> Rank<P, A> {
    /// Begins a call of this rank, any but a declaration, to be taken step by step. It makes no atomic step, and takes no memory. The call
    /// makes as many steps as when it is made whole, at most: with each step fewer are left. Only where the rank has seen all ranks of the
    /// world, as one may that read on for a shrink, and wasn't refused for good, it makes one more: its look reads the last of them again.
    ///
    /// ```
    /// let asked = Call::IsRevoked {
    ///     rank: rank.number(),
    ///     comm: 0,
    /// };
    /// let doing = rank.begin(asked);
    /// assert!(rt; doing.next() == Some(StepName::List));
    /// ```
    pub fn begin(&self, asked: Call<P>) -> Doing<P, A>
        requires { (traits_of asked).by ≡ OfRank self.now.own.number }
        ensures asked { result.way.asked ≡ asked }
        ensures first { result.way.phase ≡ (if self.now.own.refused then AtOver else AtBegun) }
        ensures stands { (alone : Bool) (name : Over P) (before : Sight P) → IsView P.meld (view_at name before) → Fits P.meld name.limits before.seen
            self.now.own
            → Stands P.meld alone (local self.now.own (view_at name before)) result.way (local self.now.own (view_at name before)) }
        ensures bounded { steps_left self.now.own.limits self.now.own asked result.way.phase
            ≤ step_bound self.now.own.limits self.now.own asked + loads_again self.now.own }
        ensures also { also_left self.now.own.limits self.now.own asked result.way.phase
            ≤ also_bound self.now.own.limits self.now.own asked 0 + loads_again self.now.own }
        ensures made { result.made ≡ 0 }
    {
        Doing {
            way: self.own.begin(asked),
            made: 0,
        }
    }

    /// Takes the next step of a call: the reply, in the step after which none is left. Others may step in between. After its reply the
    /// call is over, and no step of it is named. A step counts as one of the call's where it was named; `last_steps` tells how many the
    /// call made once it is answered.
    ///
    /// Where nobody else steps, and each wing that was set has its contribution, the step adds the event that `proposal` names, if that may
    /// come next. The step that sets a contribution's wing adds none: the one behind it adds the contribution.
    ///
    /// ```
    /// let asked = Call::IsRevoked {
    ///     rank: rank.number(),
    ///     comm: 0,
    /// };
    /// let mut doing = rank.begin(asked);
    /// // The call looks for failures, with a load that finds none, before it loads whether the communicator is revoked.
    /// assert!(rt; rank.step(&world, &mut pass, &mut doing).is_none());
    /// assert!(rt; doing.next() == Some(StepName::Revocation));
    /// ```
    pub fn step<W: Words<P, A>>(
        &mut self,
        world: &World<W, P, A>,
        pass: &mut W::Pass,
        doing: &mut Doing<P, A>,
    ) -> Option<Reply<P>>
        requires of { IsView P.meld (view_of P.pack world.now (W.sight pass.old)) }
        requires stood { MayStep P.meld doing.old.way (local self.old.own (view_of P.pack world.now (W.sight pass.old))) }
        ensures asked { doing.new.way.asked ≡ doing.old.way.asked }
        ensures ended { OnSome result (doing.new.way.phase ≡ AtOver) }
        ensures stepped { Stepped P.meld W.alone doing.old.way (local self.old.own (view_of P.pack world.now (W.sight pass.old)))
            (next_of result doing.new.way.phase) (local self.new.own (view_of P.pack world.now (W.sight pass.new))) }
        ensures stands { StandsOrEnds P.meld W.alone doing.old.way (local self.old.own (view_of P.pack world.now (W.sight pass.old))) result doing.new.way
            (local self.new.own (view_of P.pack world.now (W.sight pass.new))) }
        ensures made { StepCounts doing.old (local self.old.own (view_of P.pack world.now (W.sight pass.old))) (next_of result doing.new.way.phase) doing.new.made
            (local self.new.own (view_of P.pack world.now (W.sight pass.new))) }
        ensures wings { IsTrue W.alone → WingsIn self.old.own doing.old.way.asked doing.old.way.phase (view_of P.pack world.now (W.sight pass.old))
            → WingsNext self.new.own doing.new.way.asked (next_of result doing.new.way.phase) (view_of P.pack world.now (W.sight pass.new)) }
        ensures wins { WinsNext P.meld W.alone doing.old.way.asked doing.old.way.phase (local self.old.own (view_of P.pack world.now (W.sight pass.old)))
            (next_of result doing.new.way.phase) (view_of P.pack world.now (W.sight pass.new)) }
        ensures last { MatchOption result (self.new.last ≡ self.old.last) (λ _. self.new.last ≡ doing.new.made) }
    {
        doing.count();
        let Some(reply) = self.own.step(&world.words, pass, &mut doing.way) else {
            return None;
        };
        self.last = doing.made;
        Some(reply)
    }

    /// A whole call, by its name: any of this rank, which is any but a declaration. It is what the method for that call makes, and answers
    /// with the reply in words of the sequential object. That to `Call::GetFailed` is the number of the failed, without the group.
    ///
    /// ```
    /// let asked = Call::Revoke {
    ///     rank: rank.number(),
    ///     comm: 0,
    /// };
    /// assert!(rt; rank.call(&world, &mut pass, asked) == Reply::Revoked);
    /// assert!(rt; rank.call(&world, &mut pass, asked) == Reply::AlreadyRevoked);
    /// ```
    #[inline(never)]
    pub fn call<W: Words<P, A>>(
        &mut self,
        world: &World<W, P, A>,
        pass: &mut W::Pass,
        asked: Call<P>,
    ) -> Reply<P>
        requires of { IsView P.meld (view_of P.pack world.now (W.sight pass.old)) }
        requires fits { FitsView P.meld (local self.old.own (view_of P.pack world.now (W.sight pass.old))) }
        requires mine { (traits_of asked).by ≡ OfRank self.old.own.number }
        ensures ends { EndsReply P.meld W.alone asked (local self.old.own (view_of P.pack world.now (W.sight pass.old))) result
            (local self.new.own (view_of P.pack world.now (W.sight pass.new))) }
        ensures pending { PendsIn P.meld W.alone asked (local self.old.own (view_of P.pack world.now (W.sight pass.old))) result
            (local self.new.own (view_of P.pack world.now (W.sight pass.new))) }
        ensures steps { TakesSteps asked (local self.old.own (view_of P.pack world.now (W.sight pass.old))) self.new.last
            (local self.new.own (view_of P.pack world.now (W.sight pass.new))) }
    {
        let before = world.words.steps_made(pass);
        let reply = self.own.call(&world.words, pass, asked);
        let after = world.words.steps_made(pass);
        self.last = after.wrapping_sub(before) as u32;
        reply
    }
}

impl<P: Packed, A: Allocator + Copy> LocalState<P, A> {
    // A whole call of a rank that was in use, and that hasn't seen all ranks: its look begins behind what it has seen.
    #[inline(always)]
    pub(crate) fn run_begun<W: Words<P, A>>(
        &mut self,
        words: &W,
        pass: &mut W::Pass,
        asked: &Call<P>,
    ) -> Reply<P>
        requires of { IsView P.meld (view_of P.pack (W.name words.now) (W.sight pass.old)) }
        requires stands { StillStands P.meld (under_way asked.now AtBegun unprepared)
            (local self.old (view_of P.pack (W.name words.now) (W.sight pass.old))) }
        requires some { length self.old.seen < (W.name words.now).limits.ranks }
        ensures { RunsThrough P.meld W.alone (under_way asked.now AtBegun unprepared)
            (local self.old (view_of P.pack (W.name words.now) (W.sight pass.old))) result
            (local self.new (view_of P.pack (W.name words.now) (W.sight pass.new))) }
    {
        self.run_looking(words, pass, asked)
    }

    // Its whole look, and what comes behind it.
    #[inline(always)]
    fn run_looking<W: Words<P, A>>(
        &mut self,
        words: &W,
        pass: &mut W::Pass,
        asked: &Call<P>,
    ) -> Reply<P>
        requires of { IsView P.meld (view_of P.pack (W.name words.now) (W.sight pass.old)) }
        requires stands { StillStands P.meld (under_way asked.now AtLooking unprepared)
            (local self.old (view_of P.pack (W.name words.now) (W.sight pass.old))) }
        ensures { RunsThrough P.meld W.alone (under_way asked.now AtLooking unprepared)
            (local self.old (view_of P.pack (W.name words.now) (W.sight pass.old))) result
            (local self.new (view_of P.pack (W.name words.now) (W.sight pass.new))) }
    {
        self.look_on(words, pass, true);
        if self.finds_itself() {
            self.refuse();
            return Reply::Refused(Refusal::SelfFailed);
        }
        self.run_looked(words, pass, asked)
    }

    // What comes behind the look of a rank that it didn't find declared.
    #[inline(always)]
    fn run_looked<W: Words<P, A>>(
        &mut self,
        words: &W,
        pass: &mut W::Pass,
        asked: &Call<P>,
    ) -> Reply<P>
        requires of { IsView P.meld (view_of P.pack (W.name words.now) (W.sight pass.old)) }
        requires just { HasJustLooked P.meld asked.now (local self.old (view_of P.pack (W.name words.now) (W.sight pass.old))) }
        ensures { RunsBehind P.meld W.alone asked.now (local self.old (view_of P.pack (W.name words.now) (W.sight pass.old))) result
            (local self.new (view_of P.pack (W.name words.now) (W.sight pass.new))) }
    {
        let Some(x) = self.held(comm_of(asked)) else {
            return Reply::Refused(Refusal::NoSuchComm);
        };
        if let Some(refusal) = self.refusal(x, asked) {
            return Reply::Refused(refusal);
        }
        match *asked {
            Call::Agree { value, .. } => {
                let round = x.next_agreement;
                self.run_agree(words, pass, asked, round, value)
            }
            Call::Poll { .. } => self.run_ready(words, pass, asked),
            Call::IsRevoked { .. } => self.go_asking(words, pass, asked),
            _ => self.run_passed(words, pass, asked),
        }
    }

    // The poll of an open request, which the record doesn't refuse.
    #[inline(always)]
    fn run_ready<W: Words<P, A>>(
        &mut self,
        words: &W,
        pass: &mut W::Pass,
        asked: &Call<P>,
    ) -> Reply<P>
        requires passes { Passes self.old asked.now }
        requires of { IsView P.meld (view_of P.pack (W.name words.now) (W.sight pass.old)) }
        requires just { HasJustLooked P.meld asked.now (local self.old (view_of P.pack (W.name words.now) (W.sight pass.old))) }
        requires polls { (rank : ℕ) × (comm : ℕ) × (asked.now ≡ PollAsked rank comm) }
        ensures { RunsBehind P.meld W.alone asked.now (local self.old (view_of P.pack (W.name words.now) (W.sight pass.old))) result
            (local self.new (view_of P.pack (W.name words.now) (W.sight pass.new))) }
    {
        let comm = comm_of(asked);
        let x = self.held_comm(comm);
        let Some((round, shrinks)) = agreement(x.request) else {
            return self.run_passed(words, pass, asked);
        };
        self.run_peeking(words, pass, asked, Peek::new(comm, round), shrinks)
    }

    // Any call that the record doesn't refuse.
    fn run_passed<W: Words<P, A>>(
        &mut self,
        words: &W,
        pass: &mut W::Pass,
        asked: &Call<P>,
    ) -> Reply<P>
        requires passes { Passes self.old asked.now }
        requires of { IsView P.meld (view_of P.pack (W.name words.now) (W.sight pass.old)) }
        requires just { HasJustLooked P.meld asked.now (local self.old (view_of P.pack (W.name words.now) (W.sight pass.old))) }
        ensures { RunsBehind P.meld W.alone asked.now (local self.old (view_of P.pack (W.name words.now) (W.sight pass.old))) result
            (local self.new (view_of P.pack (W.name words.now) (W.sight pass.new))) }
    {
        match self.passed(words, pass, asked) {
            Next::Goes(phase) => self.run_from(words, pass, asked, phase),
            Next::Ends(reply) => reply,
        }
    }

    // The two exchanges of an agree.
    #[inline(always)]
    fn run_agree<W: Words<P, A>>(
        &mut self,
        words: &W,
        pass: &mut W::Pass,
        asked: &Call<P>,
        round: u16,
        value: P,
    ) -> Reply<P>
        requires of { IsView P.meld (view_of P.pack (W.name words.now) (W.sight pass.old)) }
        requires stands { StillStands P.meld (under_way asked.now (AtSpreading (OfAgree round) (OfFlag value)) unprepared)
            (local self.old (view_of P.pack (W.name words.now) (W.sight pass.old))) }
        ensures { RunsOn P.meld W.alone (under_way asked.now (AtSpreading (OfAgree round) (OfFlag value)) unprepared)
            (local self.old (view_of P.pack (W.name words.now) (W.sight pass.old))) result
            (local self.new (view_of P.pack (W.name words.now) (W.sight pass.new))) }
    {
        let request = Request::Agree { round };
        match self.go_spreading(words, pass, asked, request, Offer::Flag(value)) {
            Next::Goes(next) => self.run_from(words, pass, asked, next),
            Next::Ends(reply) => reply,
        }
    }

    // What comes behind a look, or behind the first of two exchanges: the last step of a frequent call at once, or whatever else.
    #[inline(always)]
    fn run_from<W: Words<P, A>>(
        &mut self,
        words: &W,
        pass: &mut W::Pass,
        asked: &Call<P>,
        phase: Phase<P>,
    ) -> Reply<P>
        requires of { IsView P.meld (view_of P.pack (W.name words.now) (W.sight pass.old)) }
        requires stands { StillStands P.meld (under_way asked.now phase unprepared) (local self.old (view_of P.pack (W.name words.now) (W.sight pass.old))) }
        requires past { is_looking phase ≡ false }
        ensures { RunsOn P.meld W.alone (under_way asked.now phase unprepared) (local self.old (view_of P.pack (W.name words.now) (W.sight pass.old))) result
            (local self.new (view_of P.pack (W.name words.now) (W.sight pass.new))) }
    {
        match phase {
            Phase::Settling { request, offer } => {
                self.go_settling(words, pass, asked, request, offer)
            }
            _ => {
                let prepared = NewComm::new(self.allocator());
                self.run_on(words, pass, asked, phase, prepared)
            }
        }
    }

    // The poll of an agree or of a shrink.
    #[inline(always)]
    fn run_peeking<W: Words<P, A>>(
        &mut self,
        words: &W,
        pass: &mut W::Pass,
        asked: &Call<P>,
        peek: Peek<P>,
        shrinks: bool,
    ) -> Reply<P>
        requires of { IsView P.meld (view_of P.pack (W.name words.now) (W.sight pass.old)) }
        requires stands { StillStands P.meld (under_way asked.now (AtPeeking peek shrinks) unprepared)
            (local self.old (view_of P.pack (W.name words.now) (W.sight pass.old))) }
        ensures { RunsOn P.meld W.alone (under_way asked.now (AtPeeking peek shrinks) unprepared)
            (local self.old (view_of P.pack (W.name words.now) (W.sight pass.old))) result
            (local self.new (view_of P.pack (W.name words.now) (W.sight pass.new))) }
    {
        let mut prepared = NewComm::new(self.allocator());
        match self.go_peeking(words, pass, asked, peek, shrinks, true, &mut prepared) {
            Next::Goes(next) => self.run_on(words, pass, asked, next, prepared),
            Next::Ends(reply) => reply,
        }
    }

    // The rest of a whole call, behind its look, in whatever phase it is.
    #[inline(never)]
    fn run_on<W: Words<P, A>>(
        &mut self,
        words: &W,
        pass: &mut W::Pass,
        asked: &Call<P>,
        mut phase: Phase<P>,
        mut prepared: NewComm<A>,
    ) -> Reply<P>
        requires of { IsView P.meld (view_of P.pack (W.name words.now) (W.sight pass.old)) }
        requires stands { StillStands P.meld (under_way asked.now phase prepared) (local self.old (view_of P.pack (W.name words.now) (W.sight pass.old))) }
        requires past { is_looking phase ≡ false }
        ensures { RunsOn P.meld W.alone (under_way asked.now phase prepared) (local self.old (view_of P.pack (W.name words.now) (W.sight pass.old))) result
            (local self.new (view_of P.pack (W.name words.now) (W.sight pass.new))) }
    {
        loop {
            match self.go(words, pass, asked, phase, &mut prepared, true) {
                Next::Goes(next) => phase = next,
                Next::Ends(reply) => return reply,
            }
        }
    }
}
