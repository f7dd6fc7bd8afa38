// The look of a call, and what comes after it.
ghost use Rattle.std.specs.Prelude.{ℕ, ◌≡◌, filter, length, max, min, true, None, Some, MatchOption};
ghost use Rattle.std.specs.List.Sorted.{IsStrictlyIncreasing};
ghost use Rattle.ulfm_model.specs.{History.{has}, Records.{Held, held_at, with_held}};
ghost use Rattle.ulfm_model.specs.declared.call.{Call.TheVariants.{Poll as PollAsked}, Request.TheVariants.{Barrier as OfBarrier}};
ghost use Rattle.ulfm_comm.specs.{Polls.{IsAgreement}, Phase.{IsPast, StillStands}, Look.{Passes}, Step.{ComesBehind, HasJustLooked, TakesTurn}};
ghost use Rattle.ulfm_comm.specs.declared.phases.phase.Next.TheVariants.{Goes as NextGoes};
ghost use Rattle.ulfm_comm.specs.declared.phases.phase.Phase.TheVariants.{Looking as AtLooking};
ghost use Rattle.ulfm_comm.specs.Local.{local};
ghost use Rattle.ulfm_comm.specs.Phase.{under_way};
ghost use Rattle.ulfm_comm.specs.Step.{coming};
ghost use Rattle.ulfm_words.specs.Steps.{view_of, IsView};
ghost use Rattle.ulfm_comm.specs.Prepared.{Prepared};

use crate::phases::agreement::agreement;
use crate::phases::phase::{Next, Phase};
use crate::rank::LocalState;
use std::alloc::Allocator;
use ulfm_laws::meld::Packed;
use ulfm_model::call::{Call, MOST_FAILURES, Request, comm_of};
use ulfm_model::contribution::Offer;
use ulfm_model::refusal::Refusal;
use ulfm_model::reply::Reply;
use ulfm_steps::group::{count_in, has_rank};
use ulfm_steps::{Arrivals, Peek};
use ulfm_words::Words;

// The round of an open barrier.
fn barrier(request: Option<Request>) -> Option<u16>
    ensures { MatchOption result (IsAgreement request) (λ round. request ≡ Some (OfBarrier round)) }
{
    match request {
        Some(Request::Barrier { round }) => Some(round),
        _ => None,
    }
}

impl<P: Packed, A: Allocator> LocalState<P, A> {
    // A load of the list of failures, or all that are left of the look. At its end it is known what comes next.
    #[inline(always)]
    pub(crate) fn go_looking<W: Words<P, A>>(
        &mut self,
        words: &W,
        pass: &mut W::Pass,
        asked: &Call<P>,
        whole: bool,
    ) -> Next<P>
        requires of { IsView P.meld (view_of P.pack (W.name words.now) (W.sight pass.old)) }
        requires stands { (prepared : Prepared) × StillStands P.meld (under_way asked.now AtLooking prepared)
            (local self.old (view_of P.pack (W.name words.now) (W.sight pass.old))) }
        ensures turn { (prepared : Prepared) → TakesTurn P.meld W.alone whole (under_way asked.now AtLooking prepared)
            (local self.old (view_of P.pack (W.name words.now) (W.sight pass.old))) (coming result prepared)
            (local self.new (view_of P.pack (W.name words.now) (W.sight pass.new))) }
        ensures past { whole ≡ true → IsPast result }
    {
        if !self.look_on(words, pass, whole) {
            return Next::Goes(Phase::Looking);
        }
        if has_rank(self.failures(), self.number()) {
            self.refuse();
            return Next::Ends(Reply::Refused(Refusal::SelfFailed));
        }
        self.looked(words, pass, asked)
    }

    // What comes after the look of a rank that it didn't find declared.
    fn looked<W: Words<P, A>>(&mut self, words: &W, pass: &W::Pass, asked: &Call<P>) -> Next<P>
        requires of { IsView P.meld (view_of P.pack (W.name words.now) (W.sight pass.now)) }
        requires just { HasJustLooked P.meld asked.now (local self.old (view_of P.pack (W.name words.now) (W.sight pass.now))) }
        ensures { ComesBehind P.meld asked.now (local self.old (view_of P.pack (W.name words.now) (W.sight pass.now))) result self.new }
    {
        let Some(x) = self.held(comm_of(asked)) else {
            return Next::Ends(Reply::Refused(Refusal::NoSuchComm));
        };
        if let Some(refusal) = self.refusal(x, asked) {
            return Next::Ends(Reply::Refused(refusal));
        }
        self.passed(words, pass, asked)
    }

    // What comes next where the record doesn't refuse the call.
    #[inline(always)]
    pub(crate) fn passed<W: Words<P, A>>(
        &mut self,
        words: &W,
        pass: &W::Pass,
        asked: &Call<P>,
    ) -> Next<P>
        requires passes { Passes self.old asked.now }
        requires of { IsView P.meld (view_of P.pack (W.name words.now) (W.sight pass.now)) }
        requires just { HasJustLooked P.meld asked.now (local self.old (view_of P.pack (W.name words.now) (W.sight pass.now))) }
        ensures { ComesBehind P.meld asked.now (local self.old (view_of P.pack (W.name words.now) (W.sight pass.now))) result self.new }
    {
        let x = self.held_comm(comm_of(asked));
        match *asked {
            Call::GetFailed { .. } => Next::Ends(Reply::FailedGroup {
                count: self.known(&x.group, MOST_FAILURES),
            }),
            Call::FailureGetAcked { .. } => Next::Ends(Reply::FailedGroup {
                count: self.known(&x.group, x.acked),
            }),
            Call::Ack { comm, count, .. } => Next::Ends(Reply::Acked {
                count: self.acknowledge_known(comm, count),
            }),
            Call::FailureAck { comm, .. } => Next::Ends(Reply::Acked {
                count: self.acknowledge_known(comm, MOST_FAILURES),
            }),
            Call::Agree { value, .. } => Next::Goes(Phase::Spreading {
                request: Request::Agree {
                    round: x.next_agreement,
                },
                offer: Offer::Flag(value),
            }),
            Call::Shrink { .. } => Next::Goes(Phase::Spreading {
                request: Request::Shrink {
                    round: x.next_agreement,
                },
                offer: Offer::Ctx(self.free_ids()),
            }),
            Call::Barrier { .. } => Next::Goes(Phase::Arriving {
                round: x.next_barrier,
            }),
            Call::Poll { .. } => Next::Goes(self.ready(words, pass, asked)),
            Call::Revoke { .. } => Next::Goes(Phase::Revoking),
            Call::IsRevoked { .. } => Next::Goes(Phase::Asking),
            Call::Free { comm, .. } => {
                self.release(comm);
                Next::Ends(Reply::Freed)
            }
            // A declaration is no call of a rank.
            Call::Fail { .. } => unreachable!(),
        }
    }

    // How many members of a group, whose ranks rise, are among the failures that it has seen, up to so many.
    fn known(&self, group: &[u16], most: u16) -> u16
        requires { IsStrictlyIncreasing group.now }
        ensures { result ≡ min most (length (filter (has group.now) self.now.seen)) }
    {
        let known = count_in(group, self.failures());
        if (most as usize) < known {
            most
        } else {
            known as u16
        }
    }

    // Acknowledges as many failures of a communicator that it holds as are asked for, of those that are known, but no fewer than
    // before: how many are acknowledged now.
    fn acknowledge_known(&mut self, comm: u16, most: u16) -> u16
        requires { (x : Held) × (held_at self.old comm ≡ Some x) × IsStrictlyIncreasing x.group }
        ensures count { (x : Held) → held_at self.old comm ≡ Some x → result ≡ max x.acked (min most (length (filter (has x.group) self.old.seen))) }
        ensures kept { self.new ≡ with_held self.old comm (λ y. record y { acked = result }) }
    {
        let x = self.held_comm(comm);
        let count = x.acked.max(self.known(&x.group, most));
        self.acknowledge(comm, count);
        count
    }

    // How the poll of an open request goes on after its look: a barrier reads who has arrived; an agreement loads its round's blocks.
    fn ready<W: Words<P, A>>(&self, words: &W, pass: &W::Pass, asked: &Call<P>) -> Phase<P>
        requires of { IsView P.meld (view_of P.pack (W.name words.now) (W.sight pass.now)) }
        requires just { HasJustLooked P.meld asked.now (local self.now (view_of P.pack (W.name words.now) (W.sight pass.now))) }
        requires passes { Passes self.now asked.now }
        requires polls { (rank : ℕ) × (comm : ℕ) × (asked.now ≡ PollAsked rank comm) }
        ensures { ComesBehind P.meld asked.now (local self.now (view_of P.pack (W.name words.now) (W.sight pass.now))) (NextGoes result) self.now }
    {
        let comm = comm_of(asked);
        let x = self.held_comm(comm);
        if let Some(round) = barrier(x.request) {
            let arrivals = Arrivals::new(comm, round, &x.group, self.failures());
            return Phase::Waiting { arrivals };
        }
        let Some((round, shrinks)) = agreement(x.request) else {
            // A request is open, since the record doesn't refuse the poll.
            unreachable!()
        };
        let peek = Peek::new(comm, round);
        Phase::Peeking { peek, shrinks }
    }
}
