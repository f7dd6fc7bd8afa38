// The steps that starts, revocations and the question whether a communicator is revoked make after their look.
ghost use Rattle.std.specs.Prelude.{Bool, ◌≡◌, false, Some, ◌≤◌, ◌<◌, filter, length};
ghost use Rattle.std.specs.List.Sorted.{IsStrictlyIncreasing};
ghost use mathlib.Core.List.{IsPrefix};
ghost use Rattle.ulfm_model.specs.{Terms.{comm_of}, History.{has}, Records.{Fits, held_at}};
ghost use Rattle.ulfm_model.specs.Kept.{HasNext};
ghost use Rattle.ulfm_comm.specs.{Phase.{StillStands}, Exchange.{IsOffered, Settles, start_leaves, start_result}, Step.{EndsTurn, TakesTurn, coming}};
ghost use Rattle.ulfm_comm.specs.Proposals.{WinsNext};
ghost use Rattle.ulfm_comm.specs.declared.phases.phase.Next.TheVariants.{Ends as NextEnds};
ghost use Rattle.ulfm_comm.specs.declared.phases.phase.Phase.TheVariants.{Settling as AtSettling, Spreading as AtSpreading, Arriving as AtArriving, Asking as AtAsking, Revoking as AtRevoking};
ghost use Rattle.ulfm_comm.specs.Local.{local};
ghost use Rattle.ulfm_comm.specs.Phase.{under_way};
ghost use Rattle.ulfm_words.specs.Steps.{view_of, IsView};
ghost use Rattle.ulfm_model.specs.declared.place.Place.TheVariants.{Slot as SlotAt};
ghost use Rattle.ulfm_steps.specs.{Settles.{IsSpreadIn}, Turns.{IsOneStep}};
ghost use Rattle.ulfm_comm.specs.Prepared.{Prepared};

use crate::phases::phase::{Next, Phase};
use crate::rank::LocalState;
use std::alloc::Allocator;
use ulfm_laws::meld::Packed;
use ulfm_laws::summary::{Acked, Known};
use ulfm_model::HeldComm;
use ulfm_model::call::{Call, Request, comm_of};
use ulfm_model::contribution::{Contribution, Offer};
use ulfm_model::event::Caller;
use ulfm_model::refusal::Refusal;
use ulfm_model::reply::Reply;
use ulfm_steps::Settle;
use ulfm_steps::group::count_in;
use ulfm_words::{Settled, Words, load_revocation, set_arrival, set_revocation};

// An offer with these counts of failures.
#[inline(always)]
fn contribution<P: Packed>(offer: Offer<P>, known: usize, acked: u16) -> Contribution<P>
    requires known { known ≤ 1024 }
    requires acked { acked ≤ known }
    ensures offer { result.offer ≡ offer }
    ensures known { result.known.count ≡ known }
    ensures acked { result.acked.count ≡ acked }
{
    let count = known as u16;
    Contribution {
        offer,
        known: Known { count },
        acked: Acked { count: acked },
    }
}

impl<P: Packed, A: Allocator> LocalState<P, A> {
    // The first exchange of an agree or of a shrink: the rank sets the wing of its contribution. Where the wing stands already, the rank's
    // number was used twice.
    #[inline(always)]
    pub(crate) fn go_spreading<W: Words<P, A>>(
        &self,
        words: &W,
        pass: &mut W::Pass,
        asked: &Call<P>,
        request: Request,
        offer: Offer<P>,
    ) -> Next<P>
        requires of { IsView P.meld (view_of P.pack (W.name words.now) (W.sight pass.old)) }
        requires stands { (prepared : Prepared)
            × StillStands P.meld (under_way asked.now (AtSpreading request offer) prepared)
            (local self.now (view_of P.pack (W.name words.now) (W.sight pass.old))) }
        ensures turn { (prepared : Prepared) (whole : Bool) → TakesTurn P.meld W.alone whole (under_way asked.now (AtSpreading request offer) prepared)
            (local self.now (view_of P.pack (W.name words.now) (W.sight pass.old))) (coming result prepared)
            (local self.now (view_of P.pack (W.name words.now) (W.sight pass.new))) }
        ensures wins { WinsNext P.meld W.alone asked.now (AtSpreading request offer) (local self.now (view_of P.pack (W.name words.now) (W.sight pass.old)))
            result (view_of P.pack (W.name words.now) (W.sight pass.new)) }
    {
        let x = self.held_comm(comm_of(asked));
        if !self.spreading(x, offer).spread(words, pass) {
            return Next::Ends(Reply::Refused(Refusal::Twice));
        }
        Next::Goes(Phase::Settling { request, offer })
    }

    // The second: the rank contributes to its next agreement round.
    #[inline(always)]
    pub(crate) fn go_settling<W: Words<P, A>>(
        &mut self,
        words: &W,
        pass: &mut W::Pass,
        asked: &Call<P>,
        request: Request,
        offer: Offer<P>,
    ) -> Reply<P>
        requires of { IsView P.meld (view_of P.pack (W.name words.now) (W.sight pass.old)) }
        requires stands { (prepared : Prepared)
            × StillStands P.meld (under_way asked.now (AtSettling request offer) prepared)
            (local self.old (view_of P.pack (W.name words.now) (W.sight pass.old))) }
        ensures turn { EndsTurn P.meld W.alone asked.now (AtSettling request offer) (local self.old (view_of P.pack (W.name words.now) (W.sight pass.old))) result
            (local self.new (view_of P.pack (W.name words.now) (W.sight pass.new))) }
        ensures wins { WinsNext P.meld W.alone asked.now (AtSettling request offer) (local self.old (view_of P.pack (W.name words.now) (W.sight pass.old)))
            (NextEnds result) (view_of P.pack (W.name words.now) (W.sight pass.new)) }
    {
        let x = self.held_comm(comm_of(asked));
        let settled = self.contribute(words, pass, x, offer);
        match self.end_start(comm_of(asked), request, settled) {
            Ok(()) => Reply::Started,
            Err(refusal) => Reply::Refused(refusal),
        }
    }

    // The exchange of a barrier: the rank arrives in its next barrier round.
    #[inline(always)]
    pub(crate) fn go_arriving<W: Words<P, A>>(
        &mut self,
        words: &W,
        pass: &mut W::Pass,
        asked: &Call<P>,
        round: u16,
    ) -> Reply<P>
        requires of { IsView P.meld (view_of P.pack (W.name words.now) (W.sight pass.old)) }
        requires stands { (prepared : Prepared) × StillStands P.meld (under_way asked.now (AtArriving round) prepared)
            (local self.old (view_of P.pack (W.name words.now) (W.sight pass.old))) }
        ensures turn { EndsTurn P.meld W.alone asked.now (AtArriving round) (local self.old (view_of P.pack (W.name words.now) (W.sight pass.old))) result
            (local self.new (view_of P.pack (W.name words.now) (W.sight pass.new))) }
        ensures wins { WinsNext P.meld W.alone asked.now (AtArriving round) (local self.old (view_of P.pack (W.name words.now) (W.sight pass.old)))
            (NextEnds result) (view_of P.pack (W.name words.now) (W.sight pass.new)) }
    {
        let comm = comm_of(asked);
        let number = self.number();
        let by = Caller::Rank(number);
        if !set_arrival(words, pass, by, comm, round, number) {
            return Reply::Refused(Refusal::Twice);
        }
        self.open(comm, Request::Barrier { round });
        Reply::Started
    }

    // The exchange of a revocation.
    #[inline(always)]
    pub(crate) fn go_revoking<W: Words<P, A>>(
        &self,
        words: &W,
        pass: &mut W::Pass,
        asked: &Call<P>,
    ) -> Reply<P>
        requires of { IsView P.meld (view_of P.pack (W.name words.now) (W.sight pass.old)) }
        requires stands { (prepared : Prepared) × StillStands P.meld (under_way asked.now AtRevoking prepared)
            (local self.now (view_of P.pack (W.name words.now) (W.sight pass.old))) }
        ensures turn { EndsTurn P.meld W.alone asked.now AtRevoking (local self.now (view_of P.pack (W.name words.now) (W.sight pass.old))) result
            (local self.now (view_of P.pack (W.name words.now) (W.sight pass.new))) }
        ensures wins { WinsNext P.meld W.alone asked.now AtRevoking (local self.now (view_of P.pack (W.name words.now) (W.sight pass.old)))
            (NextEnds result) (view_of P.pack (W.name words.now) (W.sight pass.new)) }
    {
        let by = Caller::Rank(self.number());
        if set_revocation(words, pass, by, comm_of(asked)) {
            Reply::Revoked
        } else {
            Reply::AlreadyRevoked
        }
    }

    // The load that asks whether the communicator is revoked.
    #[inline(always)]
    pub(crate) fn go_asking<W: Words<P, A>>(
        &self,
        words: &W,
        pass: &mut W::Pass,
        asked: &Call<P>,
    ) -> Reply<P>
        requires of { IsView P.meld (view_of P.pack (W.name words.now) (W.sight pass.old)) }
        requires stands { (prepared : Prepared) × StillStands P.meld (under_way asked.now AtAsking prepared)
            (local self.now (view_of P.pack (W.name words.now) (W.sight pass.old))) }
        ensures { EndsTurn P.meld W.alone asked.now AtAsking (local self.now (view_of P.pack (W.name words.now) (W.sight pass.old))) result
            (local self.now (view_of P.pack (W.name words.now) (W.sight pass.new))) }
    {
        let revoked = load_revocation(words, pass, comm_of(asked));
        Reply::Standing { revoked }
    }

    // A contribution to the rank's next agreement round of a communicator that it holds: an offer, the failures that its look found and
    // those of them that it has acknowledged.
    #[inline(always)]
    fn offered(&self, x: &HeldComm<A>, offer: Offer<P>) -> Settle<P>
        requires rises { IsStrictlyIncreasing x.now.group }
        requires few { length (filter (has x.now.group) self.now.seen) ≤ 1024 }
        requires acked { x.now.acked ≤ length (filter (has x.now.group) self.now.seen) }
        ensures comm { result.comm ≡ x.now.comm }
        ensures round { result.round ≡ x.now.next_agreement }
        ensures rank { result.rank ≡ self.now.number }
        ensures given { IsOffered self.now x.now offer result.given }
    {
        let known = count_in(&x.group, self.failures());
        Settle {
            comm: x.comm,
            round: x.next_agreement,
            rank: self.number(),
            given: contribution(offer, known, x.acked),
        }
    }

    // What the wing of such a contribution is told by: the place and the offer. The failures that it knows aren't counted twice.
    #[inline(always)]
    fn spreading(&self, x: &HeldComm<A>, offer: Offer<P>) -> Settle<P>
        ensures comm { result.comm ≡ x.now.comm }
        ensures round { result.round ≡ x.now.next_agreement }
        ensures rank { result.rank ≡ self.now.number }
        ensures offer { result.given.offer ≡ offer }
        ensures none { result.given.known.count ≡ 0 }
    {
        Settle {
            comm: x.comm,
            round: x.next_agreement,
            rank: self.number(),
            given: contribution(offer, 0, 0),
        }
    }

    // Contributes, once the wing is set. It is one step: an exchange, which tells what stood there before.
    #[inline(always)]
    fn contribute<W: Words<P, A>>(
        &self,
        words: &W,
        pass: &mut W::Pass,
        x: &HeldComm<A>,
        offer: Offer<P>,
    ) -> Result<(), Settled>
        requires of { IsView P.meld (view_of P.pack (W.name words.now) (W.sight pass.old)) }
        requires fits { Fits P.meld (W.name words.now).limits (W.sight pass.old).seen self.now }
        requires held { held_at self.now x.now.comm ≡ Some x.now }
        requires acked { x.now.acked ≤ length (filter (has x.now.group) self.now.seen) }
        requires room { x.now.next_agreement < (W.name words.now).limits.rounds }
        requires spread { IsSpreadIn (view_of P.pack (W.name words.now) (W.sight pass.old)) x.now.comm x.now.next_agreement self.now.number offer }
        ensures of { IsView P.meld (view_of P.pack (W.name words.now) (W.sight pass.new)) }
        ensures cached { IsPrefix (W.sight pass.old).cached (W.sight pass.new).cached }
        ensures caches { (W.sight pass.new).caches ≡ (W.sight pass.old).caches }
        ensures one { IsOneStep (SlotAt x.now.comm x.now.next_agreement self.now.number) false (W.sight pass.old) (W.sight pass.new) }
        ensures settles { Settles W.alone (W.sight pass.old).seen (W.sight pass.new).seen self.now x.now offer result }
    {
        self.offered(x, offer).step(words, pass)
    }

    // Ends a start: the request is open where the rank has contributed. A mark means that the rank was declared.
    #[inline(always)]
    fn end_start(
        &mut self,
        comm: u16,
        request: Request,
        settled: Result<(), Settled>,
    ) -> Result<(), Refusal>
        requires next { HasNext request }
        ensures result { result ≡ start_result settled }
        ensures leaves { self.new ≡ start_leaves self.old comm request settled }
    {
        match settled {
            Ok(()) => {
                self.open(comm, request);
                Ok(())
            }
            Err(Settled::Marked) => {
                self.refuse();
                Err(Refusal::SelfFailed)
            }
            Err(Settled::Contributed) => Err(Refusal::Twice),
        }
    }
}
