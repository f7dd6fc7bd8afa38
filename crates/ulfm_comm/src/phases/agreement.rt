// The steps of an agreement's poll: loads of the round's blocks; and, where not all are set, marks, and readings of those that aren't.
ghost use Rattle.std.specs.Prelude.{Bool, List, ◌≡◌, ◌+◌, ◌<◌, ◌≤◌, false, true, IfSome, IsTrue, MatchOption, None, Some};
ghost use Rattle.ulfm_model.specs.{Answers.{closed}, Records.{Record}, Terms.{comm_of}};
ghost use Rattle.ulfm_comm.specs.{Phase.{IsPast, NextBelow, NextIs, StillStands, Turns, is_looking, left}, Step.{TakesTurn}, Proposals.{WinsNext}};
ghost use Rattle.ulfm_comm.specs.Agreement.{HasPeeked, HasReadAll, agreed_reply};
ghost use Rattle.ulfm_model.specs.declared.block.Beside.{Beside};
ghost use Rattle.ulfm_comm.specs.StepsLeft.{FewerLeft, Spends, after_peek, after_round, reads_first, steps_left};
ghost use Rattle.ulfm_comm.specs.{AlsoLeft.{also_after_round, also_in}, Known.{KnowsIn, KnowsNext}};
ghost use Rattle.ulfm_comm.specs.declared.phases.phase.Next.TheVariants.{Ends as NextEnds, Goes as NextGoes};
ghost use Rattle.ulfm_model.specs.declared.reply.Reply.TheVariants.{Pending as Waits};
ghost use Rattle.ulfm_comm.specs.declared.phases.phase.Phase.TheVariants.{Marking as AtMarking, Peeking as AtPeeking, Reading as AtReading};
ghost use Rattle.ulfm_comm.specs.Local.{local};
ghost use Rattle.ulfm_steps.specs.{Blocks.{MayReadBlocks}, Rounds.{IsMissingIn}, Turns.{running}};
ghost use Rattle.ulfm_comm.specs.{Polls.{IsAgreement}, Requests.{agreement, polled_round}};
ghost use Rattle.ulfm_comm.specs.Phase.{under_way};
ghost use Rattle.ulfm_comm.specs.Step.{coming};
ghost use Rattle.ulfm_words.specs.Steps.{view_of, Goes, IsView, Sight};
ghost use Rattle.ulfm_comm.specs.Prepared.{Prepared};

use crate::phases::phase::{Next, Phase};
use crate::rank::{LocalState, NewComm};
use std::alloc::Allocator;
use ulfm_laws::meld::Packed;
use ulfm_laws::summary::{Body, Summary};
use ulfm_model::call::{Call, Request, comm_of};
use ulfm_model::refusal::Refusal;
use ulfm_model::reply::Reply;
use ulfm_steps::{Found, MarkAll, Peek, ReadBlocks, RoundBlocks};
use ulfm_words::{Found as Loaded, Words, load_slot};

// The round of an open agreement, and whether it is a shrink.
pub(crate) fn agreement(request: Option<Request>) -> Option<(u16, bool)>
    ensures { MatchOption result (IsAgreement request → request ≡ None) (λ found. request ≡ Some (agreement found.1 found.0)) }
{
    match request {
        Some(Request::Agree { round }) => Some((round, false)),
        Some(Request::Shrink { round }) => Some((round, true)),
        _ => None,
    }
}

// Whether the member at this place of a round's group isn't settled, by one load. None is made where the group has no such place.
#[inline(always)]
fn load_missing<P: Packed, A: Allocator, W: Words<P, A>>(
    words: &W,
    pass: &mut W::Pass,
    group: &[u16],
    reading: &ReadBlocks<P>,
    place: u16,
) -> bool
    requires { MayReadBlocks P.meld group.now (running reading.now (view_of P.pack (W.name words.now) (W.sight pass.old))) }
    ensures goes { Goes P.meld W.alone false 1 (view_of P.pack (W.name words.now) (W.sight pass.old))
        (view_of P.pack (W.name words.now) (W.sight pass.new)) }
    ensures loads { result ≡ true → (W.sight pass.old).steps < (W.sight pass.new).steps }
    ensures missing { result ≡ true → IsMissingIn (view_of P.pack (W.name words.now) (W.sight pass.new)) reading.now.comm reading.now.round group.now }
{
    if place as usize >= group.len() {
        return false;
    }
    let rank = group[place as usize];
    match load_slot(words, pass, reading.comm, reading.round, rank) {
        Loaded::Nothing => true,
        Loaded::Marked(_) => false,
        Loaded::First(_) => false,
    }
}

impl<P: Packed, A: Allocator> LocalState<P, A> {
    // The exchange of a declared member's place, or of all that are left.
    #[inline(always)]
    pub(crate) fn go_marking<W: Words<P, A>>(
        &self,
        words: &W,
        pass: &mut W::Pass,
        asked: &Call<P>,
        mut marks: MarkAll,
        blocks: RoundBlocks<P>,
        shrinks: bool,
        whole: bool,
    ) -> Next<P>
        requires of { IsView P.meld (view_of P.pack (W.name words.now) (W.sight pass.old)) }
        requires stands { (prepared : Prepared)
            × StillStands P.meld (under_way asked.now (AtMarking marks blocks shrinks) prepared)
            (local self.now (view_of P.pack (W.name words.now) (W.sight pass.old))) }
        ensures turn { (prepared : Prepared) → TakesTurn P.meld W.alone whole (under_way asked.now (AtMarking marks blocks shrinks) prepared)
            (local self.now (view_of P.pack (W.name words.now) (W.sight pass.old))) (coming result prepared)
            (local self.now (view_of P.pack (W.name words.now) (W.sight pass.new))) }
        ensures wins { whole ≡ false → WinsNext P.meld W.alone asked.now (AtMarking marks blocks shrinks)
            (local self.now (view_of P.pack (W.name words.now) (W.sight pass.old))) result (view_of P.pack (W.name words.now) (W.sight pass.new)) }
    {
        let x = self.held_comm(comm_of(asked));
        let seen = self.failures();
        marks.advance(words, pass, &x.group, seen, whole);
        if marks.next < seen.len() {
            return Next::Goes(Phase::Marking {
                marks,
                blocks,
                shrinks,
            });
        }
        let members = x.group.len() as u16;
        Next::Goes(Phase::Reading {
            reading: ReadBlocks::new(marks.comm, marks.round, blocks, members),
            shrinks,
        })
    }

    // What comes next where not all blocks of a round are set: the declared members are marked, if there are any, and the blocks that
    // aren't set are read.
    fn unread<W: Words<P, A>>(
        &self,
        words: &W,
        pass: &W::Pass,
        asked: &Call<P>,
        peek: Peek<P>,
        shrinks: bool,
    ) -> Phase<P>
        requires of { IsView P.meld (view_of P.pack (W.name words.now) (W.sight pass.now)) }
        requires peeked { (old : Record) × (before : Sight P)
            × HasPeeked P.meld false asked.now shrinks peek (local old (view_of P.pack (W.name words.now) before))
            (local self.now (view_of P.pack (W.name words.now) (W.sight pass.now))) }
        ensures further { left result < 7 }
        ensures past { is_looking result ≡ false }
        ensures nearer { steps_left (W.name words.now).limits self.now asked.now result + reads_first result
            ≤ after_peek (W.name words.now).limits self.now asked.now shrinks }
        ensures knows { (cached : List Beside) → KnowsIn self.now asked.now cached (AtPeeking peek shrinks) → KnowsIn self.now asked.now cached result }
        ensures turns { (prepared : Prepared) (alone : Bool) (old : Record) (before : Sight P)
            → HasPeeked P.meld alone asked.now shrinks peek (local old (view_of P.pack (W.name words.now) before))
            (local self.now (view_of P.pack (W.name words.now) (W.sight pass.now)))
            → NextIs P.meld alone asked.now (local old (view_of P.pack (W.name words.now) before)) (NextGoes result) prepared
            (local self.now (view_of P.pack (W.name words.now) (W.sight pass.now))) }
    {
        let comm = comm_of(asked);
        let x = self.held_comm(comm);
        let seen = self.failures();
        let blocks = peek.blocks;
        let marks = MarkAll::new(self.number(), comm, peek.round, &x.group, seen);
        if marks.next < seen.len() {
            return Phase::Marking {
                marks,
                blocks,
                shrinks,
            };
        }
        let members = x.group.len() as u16;
        Phase::Reading {
            reading: ReadBlocks::new(comm, peek.round, blocks, members),
            shrinks,
        }
    }

    // Pending, where the member at whom the last reading ended is missing still, before another reading begins. No load is made where none
    // begins, or where the last one didn't end so.
    #[inline(always)]
    fn waits_still<W: Words<P, A>>(
        &mut self,
        words: &W,
        pass: &mut W::Pass,
        asked: &Call<P>,
        phase: &Phase<P>,
    ) -> Option<Reply<P>>
        requires of { IsView P.meld (view_of P.pack (W.name words.now) (W.sight pass.old)) }
        requires stands { (prepared : Prepared) × StillStands P.meld (under_way asked.now phase.now prepared)
            (local self.old (view_of P.pack (W.name words.now) (W.sight pass.old))) }
        ensures kept { self.new ≡ self.old }
        ensures goes { Goes P.meld W.alone false (reads_first phase.now) (view_of P.pack (W.name words.now) (W.sight pass.old))
            (view_of P.pack (W.name words.now) (W.sight pass.new)) }
        ensures waits { IfSome result (λ reply. reply ≡ Waits) }
        ensures pends { IfSome result (λ reply. (prepared : Prepared) → Turns P.meld W.alone (under_way asked.now phase.now prepared)
            (local self.old (view_of P.pack (W.name words.now) (W.sight pass.old))) (NextEnds reply) prepared
            (local self.new (view_of P.pack (W.name words.now) (W.sight pass.new)))) }
    {
        let Phase::Reading { reading, .. } = phase else {
            return None;
        };
        let Some(place) = self.take_awaited() else {
            return None;
        };
        let x = self.held_comm(comm_of(asked));
        if !load_missing(words, pass, &x.group, reading, place) {
            return None;
        }
        self.await_at(place);
        Some(Reply::Pending)
    }

    // What comes next where not all blocks of a round are set. A whole poll is pending at once where the member at whom the last reading
    // ended is missing still.
    #[inline(always)]
    fn go_unread<W: Words<P, A>>(
        &mut self,
        words: &W,
        pass: &mut W::Pass,
        asked: &Call<P>,
        peek: Peek<P>,
        shrinks: bool,
        whole: bool,
    ) -> Next<P>
        requires of { IsView P.meld (view_of P.pack (W.name words.now) (W.sight pass.old)) }
        requires peeked { (old : Record) × (before : Sight P)
            × HasPeeked P.meld false asked.now shrinks peek (local old (view_of P.pack (W.name words.now) before))
            (local self.old (view_of P.pack (W.name words.now) (W.sight pass.old))) }
        ensures kept { self.new ≡ self.old }
        ensures goes { Goes P.meld W.alone false 1 (view_of P.pack (W.name words.now) (W.sight pass.old))
            (view_of P.pack (W.name words.now) (W.sight pass.new)) }
        ensures single { whole ≡ false → W.sight pass.new ≡ W.sight pass.old }
        ensures further { NextBelow 7 result }
        ensures past { IsPast result }
        ensures spends { Spends (after_peek (W.name words.now).limits self.old asked.now shrinks) (W.name words.now).limits self.new asked.now result
            (W.sight pass.old) (W.sight pass.new) }
        ensures knows { (cached : List Beside) → KnowsIn self.old asked.now cached (AtPeeking peek shrinks)
            → KnowsNext self.old asked.now cached result }
        ensures turns { (prepared : Prepared) (alone : Bool) → (IsTrue alone → IsTrue W.alone) → (old : Record) (before : Sight P)
            → HasPeeked P.meld alone asked.now shrinks peek (local old (view_of P.pack (W.name words.now) before))
            (local self.old (view_of P.pack (W.name words.now) (W.sight pass.old)))
            → NextIs P.meld alone asked.now (local old (view_of P.pack (W.name words.now) before)) result prepared
            (local self.new (view_of P.pack (W.name words.now) (W.sight pass.new))) }
    {
        let phase = self.unread(words, pass, asked, peek, shrinks);
        if !whole {
            return Next::Goes(phase);
        }
        match self.waits_still(words, pass, asked, &phase) {
            None => Next::Goes(phase),
            Some(reply) => Next::Ends(reply),
        }
    }
}

impl<P: Packed, A: Allocator + Copy> LocalState<P, A> {
    // The load of a block, or of all that are left. Where all are set, they say what was decided.
    #[inline(always)]
    pub(crate) fn go_peeking<W: Words<P, A>>(
        &mut self,
        words: &W,
        pass: &mut W::Pass,
        asked: &Call<P>,
        mut peek: Peek<P>,
        shrinks: bool,
        whole: bool,
        prepared: &mut NewComm<A>,
    ) -> Next<P>
        requires of { IsView P.meld (view_of P.pack (W.name words.now) (W.sight pass.old)) }
        requires stands { StillStands P.meld (under_way asked.now (AtPeeking peek shrinks) prepared.old)
            (local self.old (view_of P.pack (W.name words.now) (W.sight pass.old))) }
        ensures { TakesTurn P.meld W.alone whole (under_way asked.now (AtPeeking peek shrinks) prepared.old)
            (local self.old (view_of P.pack (W.name words.now) (W.sight pass.old))) (coming result prepared.new)
            (local self.new (view_of P.pack (W.name words.now) (W.sight pass.new))) }
    {
        let x = self.held_comm(comm_of(asked));
        if !peek.advance(words, pass, &x.group, whole) {
            return Next::Goes(Phase::Peeking { peek, shrinks });
        }
        let members = x.group.len() as u16;
        match peek.blocks.all(members) {
            None => self.go_unread(words, pass, asked, peek, shrinks, whole),
            Some(all) => {
                self.decided(
                    words, pass, asked, peek.round, all, shrinks, whole, prepared,
                )
            }
        }
    }

    // The load of a member's place, or the cache of a block, or all that are left, up to the first member who is missing. Past the last
    // block it is known what was decided.
    #[inline(always)]
    pub(crate) fn go_reading<W: Words<P, A>>(
        &mut self,
        words: &W,
        pass: &mut W::Pass,
        asked: &Call<P>,
        mut reading: ReadBlocks<P>,
        shrinks: bool,
        whole: bool,
        prepared: &mut NewComm<A>,
    ) -> Next<P>
        requires of { IsView P.meld (view_of P.pack (W.name words.now) (W.sight pass.old)) }
        requires stands { StillStands P.meld (under_way asked.now (AtReading reading shrinks) prepared.old)
            (local self.old (view_of P.pack (W.name words.now) (W.sight pass.old))) }
        ensures { TakesTurn P.meld W.alone whole (under_way asked.now (AtReading reading shrinks) prepared.old)
            (local self.old (view_of P.pack (W.name words.now) (W.sight pass.old))) (coming result prepared.new)
            (local self.new (view_of P.pack (W.name words.now) (W.sight pass.new))) }
    {
        let x = self.held_comm(comm_of(asked));
        match reading.advance(words, pass, &x.group, whole) {
            None => Next::Goes(Phase::Reading { reading, shrinks }),
            Some(Found::Missing) => {
                self.await_at(reading.begin.saturating_add(reading.read));
                Next::Ends(Reply::Pending)
            }
            Some(Found::All(all)) => {
                self.decided(
                    words,
                    pass,
                    asked,
                    reading.round,
                    all,
                    shrinks,
                    whole,
                    prepared,
                )
            }
        }
    }

    // What comes next where a round's members all say this.
    #[inline(always)]
    fn decided<W: Words<P, A>>(
        &mut self,
        words: &W,
        pass: &W::Pass,
        asked: &Call<P>,
        round: u16,
        all: Summary<P>,
        shrinks: bool,
        whole: bool,
        prepared: &mut NewComm<A>,
    ) -> Next<P>
        requires of { IsView P.meld (view_of P.pack (W.name words.now) (W.sight pass.now)) }
        requires read { (old : Record) × (before : Sight P)
            × HasReadAll P.meld false asked.now (polled_round shrinks round) all (local old (view_of P.pack (W.name words.now) before))
            (local self.old (view_of P.pack (W.name words.now) (W.sight pass.now))) }
        ensures further { NextBelow 5 result }
        ensures sees { self.new.seen ≡ self.old.seen }
        ensures past { IsPast result }
        ensures nearer { FewerLeft (after_round (W.name words.now).limits self.old shrinks + 1) (W.name words.now).limits self.new asked.now
            result }
        ensures also { also_in (W.name words.now).limits self.new asked.now result ≤ also_after_round (W.name words.now).limits shrinks }
        ensures turns { (alone : Bool) (old : Record) (before : Sight P)
            → HasReadAll P.meld alone asked.now (polled_round shrinks round) all (local old (view_of P.pack (W.name words.now) before))
            (local self.old (view_of P.pack (W.name words.now) (W.sight pass.now)))
            → NextIs P.meld alone asked.now (local old (view_of P.pack (W.name words.now) before)) result prepared.new
            (local self.new (view_of P.pack (W.name words.now) (W.sight pass.now))) }
    {
        if shrinks {
            return self.shrunk(words, pass, asked, round, all, whole, prepared);
        }
        Next::Ends(self.agreed(comm_of(asked), all))
    }

    // The reply to an agree whose round says this.
    #[inline(always)]
    fn agreed(&mut self, comm: u16, all: Summary<P>) -> Reply<P>
        ensures closes { self.new ≡ closed self.old comm }
        ensures reply { result ≡ agreed_reply all all.body }
    {
        self.close(comm);
        let Body::Flag(value) = all.body else {
            return Reply::Refused(Refusal::Mismatch);
        };
        Reply::Agreed {
            value,
            failed: all.known.count,
            raised: all.acked.count < all.known.count,
        }
    }
}
