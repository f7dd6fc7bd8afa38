// The steps of a barrier's poll: loads of arrivals, and last that of the revocation.
ghost use Rattle.ulfm_comm.specs.{Missing.{AnswersMissing, FindsMissing, FoundNow}, Phase.{StillStands}, Step.{EndsTurn, TakesTurn}};
ghost use Rattle.ulfm_comm.specs.declared.phases.phase.Phase.TheVariants.{Waiting as AtWaiting, Checking as AtChecking};
ghost use Rattle.ulfm_comm.specs.Local.{local};
ghost use Rattle.ulfm_comm.specs.Missing.{midway};
ghost use Rattle.ulfm_comm.specs.Phase.{under_way};
ghost use Rattle.ulfm_comm.specs.Step.{coming};
ghost use Rattle.ulfm_words.specs.Steps.{view_of, IsView};
ghost use Rattle.ulfm_comm.specs.Prepared.{Prepared};

use crate::phases::phase::{Next, Phase};
use crate::rank::LocalState;
use std::alloc::Allocator;
use ulfm_laws::meld::Packed;
use ulfm_model::call::{Call, comm_of};
use ulfm_model::refusal::Refusal;
use ulfm_model::reply::Reply;
use ulfm_steps::{Arrivals, Missing};
use ulfm_words::{Words, load_revocation};

impl<P: Packed, A: Allocator> LocalState<P, A> {
    // The load of a member's arrival, or of all that are left, up to the first who is missing.
    #[inline(always)]
    pub(crate) fn go_waiting<W: Words<P, A>>(
        &self,
        words: &W,
        pass: &mut W::Pass,
        asked: &Call<P>,
        mut arrivals: Arrivals,
        whole: bool,
    ) -> Next<P>
        requires of { IsView P.meld (view_of P.pack (W.name words.now) (W.sight pass.old)) }
        requires stands { (prepared : Prepared) × StillStands P.meld (under_way asked.now (AtWaiting arrivals) prepared)
            (local self.now (view_of P.pack (W.name words.now) (W.sight pass.old))) }
        ensures turn { (prepared : Prepared) → TakesTurn P.meld W.alone whole (under_way asked.now (AtWaiting arrivals) prepared)
            (local self.now (view_of P.pack (W.name words.now) (W.sight pass.old))) (coming result prepared)
            (local self.now (view_of P.pack (W.name words.now) (W.sight pass.new))) }
        ensures checks { (prepared : Prepared) → FoundNow
            (FindsMissing P.meld W.alone (midway (under_way asked.now (AtWaiting arrivals) prepared)
            (local self.now (view_of P.pack (W.name words.now) (W.sight pass.old)))) (local self.now (view_of P.pack (W.name words.now) (W.sight pass.new))))
            (AtWaiting arrivals) result }
    {
        let x = self.held_comm(comm_of(asked));
        match arrivals.advance(words, pass, &x.group, self.failures(), whole) {
            None => Next::Goes(Phase::Waiting { arrivals }),
            Some(missing) => Next::Goes(Phase::Checking { missing }),
        }
    }

    // The load of the revocation, which is read last: where it doesn't stand then, it didn't stand when somebody was found missing.
    #[inline(always)]
    pub(crate) fn go_checking<W: Words<P, A>>(
        &mut self,
        words: &W,
        pass: &mut W::Pass,
        asked: &Call<P>,
        missing: Missing,
    ) -> Reply<P>
        requires of { IsView P.meld (view_of P.pack (W.name words.now) (W.sight pass.old)) }
        requires stands { (prepared : Prepared) × StillStands P.meld (under_way asked.now (AtChecking missing) prepared)
            (local self.old (view_of P.pack (W.name words.now) (W.sight pass.old))) }
        ensures turn { EndsTurn P.meld W.alone asked.now (AtChecking missing) (local self.old (view_of P.pack (W.name words.now) (W.sight pass.old))) result
            (local self.new (view_of P.pack (W.name words.now) (W.sight pass.new))) }
        ensures early { (prepared : Prepared) → AnswersMissing P.meld W.alone (midway (under_way asked.now (AtChecking missing) prepared)
            (local self.old (view_of P.pack (W.name words.now) (W.sight pass.old)))) self.new
            missing result }
    {
        let comm = comm_of(asked);
        if load_revocation(words, pass, comm) {
            self.close(comm);
            return Reply::Refused(Refusal::IsRevoked);
        }
        match missing {
            Missing::Nobody => {
                self.close(comm);
                Reply::Done
            }
            Missing::Others => Reply::Pending,
            Missing::Declared => {
                self.close(comm);
                Reply::Refused(Refusal::ProcFailed)
            }
        }
    }
}
