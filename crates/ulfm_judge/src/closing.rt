//! Replies: whether one may come, and what the judge keeps of it.
ghost use Rattle.std.specs.Prelude.{◌≡◌, ◌∷◌, ◌++◌, [], IfOk, List, OnOk, Some, filter, if◌then◌else◌, is_some, map, not, take, unwrap_or};
ghost use Rattle.ulfm_judge.specs.Kept.{AreCalls, GoesWith, MayLeave, traced_of, under_of};
ghost use Rattle.ulfm_judge.specs.ReplyTests.{call_test, rank_test, reply_test};
ghost use Rattle.ulfm_judge.specs.Telling.{AnswersBy, LeavesRound};
ghost use Rattle.ulfm_numbers.specs.Telling.{TablesTell};
ghost use Rattle.ulfm_model.specs.Answers.{closed, comm_of, left_by, traits_of};
ghost use Rattle.ulfm_model.specs.History.{History, first_ranks};
ghost use Rattle.ulfm_model.specs.Records.{Held, Record, held_at, new_held};
ghost use Rattle.ulfm_model.specs.Words.{MayOpen};
ghost use Rattle.ulfm_model.specs.declared.event.Caller.{Caller};
ghost use Rattle.ulfm_model.specs.declared.reply.Reply.{Reply};
ghost use Rattle.ulfm_model.specs.{Kept.{FitsNext, record_of}, Members.{members_of}};
ghost use Rattle.ulfm_model.specs.Traces.{Takes, Under, caller_of, record_in, records_after, same_caller};
ghost use Rattle.ulfm_model.specs.declared.line.Line.{Line};

use crate::answers::{is_answer, lists};
use crate::calls::{OpenCall, place_by, place_of_rank};
use crate::polls::View;
use crate::replies::{is_fail_reply, is_refused};
use std::alloc::{AllocError, Allocator};
use std::mem;
use ulfm_laws::meld::{Meld, Packed};
use ulfm_model::call::{Call, comm_of, rank_of};
use ulfm_model::event::Caller;
use ulfm_model::groups::first_of;
use ulfm_model::held::{HeldComm, Members, take_in};
use ulfm_model::leaves::settle;
use ulfm_model::limits::Limits;
use ulfm_model::line::Why;
use ulfm_model::record::RankRecord;
use ulfm_model::refusal::Refusal;
use ulfm_model::reply::Reply;
use ulfm_numbers::numbers::Numbers;

/// What a reply is judged by: the limits of the world, the tables at a point, the ranks' records, and the call that it is to.
#[derive(Drop)]
struct Asked<'a, P: Packed, A: Allocator> {
    /// The limits of the world.
    limits: Limits,
    /// The tables of all events so far.
    numbers: &'a Numbers<P, A>,
    /// What the ranks keep, before this reply.
    records: &'a [RankRecord<A>],
    /// The call.
    u: &'a OpenCall<P, A>,
    /// On how many events the reply rests: the first so many.
    point: u64,
}

impl<'a, P: Packed, A: Allocator + Copy + Drop> Asked<'a, P, A> {
    /// Whether a rank's call is answered so, at a point.
    fn answers_rank(&self, alloc: A, rank: u16, reply: &Reply<P>) -> Result<bool, AllocError>
        requires { map (λ own. own.number) self.now.records.now ≡ first_ranks self.now.limits.ranks }
        ensures told { AnswersBy self.now.limits self.now.numbers.now self.now.records.now result
            (λ now. rank_test P.meld P.pack now (under_of self.now.u.now) self.now.point reply.now (record_in now rank)) }
        ensures fits { LeavesRound self.now.limits self.now.records.now (Caller.Rank rank) (under_of self.now.u.now) reply.now result }
    {
        let (limits, numbers, records, u) = (self.limits, self.numbers, self.records, self.u);
        let Some(j) = place_of_rank(limits.ranks, records, rank) else {
            return Ok(is_refused(reply, Refusal::NoSuchRank));
        };
        let own = &records[j];
        if own.refused {
            return Ok(is_refused(reply, Refusal::SelfFailed));
        }
        let Some(count) = u.look else {
            return Ok(false);
        };
        let look = first_of(&numbers.failures, count);
        let view = View {
            limits,
            caller: own,
            look,
            numbers,
            point: self.point,
            own: &u.own,
        };
        is_answer(alloc, &view, &u.asked, reply)
    }

    /// Whether a caller's call is answered so, at a point.
    fn answers_call(&self, alloc: A, by: Caller, reply: &Reply<P>) -> Result<bool, AllocError>
        requires { map (λ own. own.number) self.now.records.now ≡ first_ranks self.now.limits.ranks }
        ensures told { AnswersBy self.now.limits self.now.numbers.now self.now.records.now result
            (λ now. call_test P.meld P.pack now by (under_of self.now.u.now) self.now.point reply.now) }
        ensures fits { LeavesRound self.now.limits self.now.records.now by (under_of self.now.u.now) reply.now result }
    {
        match by {
            Caller::Outside => {
                let rank = rank_of(&self.u.asked);
                let declared = self.numbers.is_declared_at(rank, self.point);
                Ok(is_fail_reply(self.limits, declared, &self.u.own, rank, reply))
            }
            Caller::Rank(rank) => self.answers_rank(alloc, rank, reply),
        }
    }

    /// Whether a reply may come to a call.
    fn may_reply(
        &self,
        alloc: A,
        by: Caller,
        group: &[u16],
        reply: &Reply<P>,
    ) -> Result<bool, AllocError>
        requires { map (λ own. own.number) self.now.records.now ≡ first_ranks self.now.limits.ranks }
        ensures told { let line = Line.Replied by self.now.point (Some reply.now) in
            AnswersBy self.now.limits self.now.numbers.now self.now.records.now result
            (λ now. reply_test P.meld P.pack now group.now line (Some (under_of self.now.u.now))) }
        ensures fits { LeavesRound self.now.limits self.now.records.now by (under_of self.now.u.now) reply.now result }
    {
        if self.point < self.u.begun {
            return Ok(false);
        }
        if self.numbers.count < self.point {
            return Ok(false);
        }
        let answers = self.answers_call(alloc, by, reply)?;
        let lists = lists(
            self.numbers,
            self.point,
            comm_of(&self.u.asked),
            reply,
            group,
        );
        Ok(answers && lists)
    }
}

/// The failures that a rank has seen after a call, where these are declared: those that the call's look found, or those from before where it made none.
fn seen_after<A: Allocator + Copy + Drop>(
    known: &[u16],
    look: Option<u16>,
    before: Vec<u16, A>,
) -> Result<Vec<u16, A>, AllocError>
    ensures { IfOk result (λ seen. seen.items ≡ (if is_some look then take (unwrap_or look 0) known.now else before.items)) }
{
    let mut seen = before;
    if let Some(count) = look {
        seen.clear();
        // (most looks find nothing)
        if count > 0 {
            seen.extend_from_slice(first_of(known, count))?;
        }
    }
    Ok(seen)
}

/// Takes the communicator that a shrink made into a record, in place of the request, with the failures that the rank has seen then.
fn hold_made<P: Copy, A: Allocator + Copy + Drop>(
    limits: Limits,
    own: &mut RankRecord<A>,
    seen: Vec<u16, A>,
    asked: &Call<P>,
    comm: u16,
    context: u8,
    group: Members<A>,
) -> Result<(), AllocError>
    ensures number { own.new.number ≡ own.old.number }
    ensures left { let now : Record = record (record_of limits own.old) { seen = seen.items } in let rest = closed now (comm_of asked.now) in
        OnOk result (record_of limits own.new ≡ record rest { held = rest.held ++ new_held comm context (members_of group) ∷ [] }) }
{
    let made = HeldComm::with_members(comm, context, group);
    own.held.reserve(1)?;
    take_in(&mut own.held, comm_of(asked), made);
    own.seen = seen;
    Ok(())
}

/// Takes a reply into a record, by the tables at its point, with the failures that the rank has seen then.
fn leave<P: Packed, A: Allocator + Copy + Drop>(
    alloc: A,
    limits: Limits,
    numbers: &Numbers<P, A>,
    point: u64,
    own: &mut RankRecord<A>,
    seen: Vec<u16, A>,
    asked: &Call<P>,
    reply: Reply<P>,
) -> Result<(), AllocError>
    requires { (x : Held) → reply ≡ Reply.Started → held_at (record_of limits own.old) (comm_of asked.now) ≡ Some x → FitsNext ((traits_of asked.now).starts x) }
    ensures number { own.new.number ≡ own.old.number }
    ensures left { (h : History P) → TablesTell limits.ranks numbers.now h → let now : Record = record (record_of limits own.old) { seen = seen.items } in
        OnOk result (record_of limits own.new ≡ left_by limits.ranks (take point h) now asked.now reply) }
{
    match reply {
        Reply::Shrunk { comm, context, .. } => {
            let group = numbers.shared_members_at(alloc, comm, point)?;
            hold_made(limits, own, seen, asked, comm, context, group)
        }
        _ => {
            own.seen = seen;
            settle(own, asked, reply);
            Ok(())
        }
    }
}

/// Takes the reply to a call into its rank's record.
fn settle_call<P: Packed, A: Allocator + Copy + Drop>(
    alloc: A,
    limits: Limits,
    numbers: &Numbers<P, A>,
    records: &mut [RankRecord<A>],
    u: &OpenCall<P, A>,
    by: Caller,
    point: u64,
    reply: Reply<P>,
) -> Result<(), AllocError>
    requires numbers { map (λ own. own.number) records.old ≡ first_ranks limits.ranks }
    requires fits { MayLeave (traced_of limits [] records.old []) by (under_of u.now) reply }
    ensures numbers { map (λ own. own.number) records.new ≡ map (λ own. own.number) records.old }
    ensures left { (h : History P) → TablesTell limits.ranks numbers.now h → let now = traced_of limits h records.old [] in
        OnOk result (map (record_of limits) records.new ≡ records_after now by (under_of u.now) point reply) }
{
    let Caller::Rank(rank) = by else {
        return Ok(());
    };
    let Some(j) = place_of_rank(limits.ranks, records, rank) else {
        return Ok(());
    };
    let own = &mut records[j];
    let before = mem::replace(&mut own.seen, Vec::new(alloc));
    let seen = seen_after(&numbers.failures, u.look, before)?;
    leave(alloc, limits, numbers, point, own, seen, &u.asked, reply)
}

/// A caller's call is no longer under way.
fn close_call<P: Meld, A: Allocator>(calls: &mut [OpenCall<P, A>], by: Caller)
    ensures { (us : List (Under P)) → AreCalls calls.old us → AreCalls calls.new (filter (λ v. not (same_caller (caller_of v) by)) us) }
{
    if let Some(i) = place_by(calls, by) {
        calls[i].is_open = false;
    }
}

/// Takes in a reply.
pub(crate) fn take_reply<P: Packed, A: Allocator + Copy + Drop>(
    alloc: A,
    limits: Limits,
    numbers: &Numbers<P, A>,
    records: &mut [RankRecord<A>],
    calls: &mut [OpenCall<P, A>],
    by: Caller,
    point: u32,
    reply: Reply<P>,
    group: &[u16],
) -> Result<Option<Why>, AllocError>
    requires may { MayOpen limits }
    requires numbers { map (λ own. own.number) records.old ≡ first_ranks limits.ranks }
    ensures numbers { map (λ own. own.number) records.new ≡ map (λ own. own.number) records.old }
    ensures taken { (h : History P) (us : List (Under P)) → TablesTell limits.ranks numbers.now h → AreCalls calls.old us
        → let old = traced_of limits h records.old us in let line = Line.Replied by point (Some reply) in
        IfOk result (GoesWith calls.new (λ next. Takes P.meld old group.now line (traced_of limits h records.new next))) }
{
    let Some(i) = place_by(calls, by) else {
        return Ok(Some(Why::Call));
    };
    let u = &calls[i];
    let at = point as u64;
    let asked = Asked {
        limits,
        numbers,
        records,
        u,
        point: at,
    };
    if !asked.may_reply(alloc, by, group, &reply)? {
        return Ok(Some(Why::Reply));
    }
    settle_call(alloc, limits, numbers, records, u, by, at, reply)?;
    close_call(calls, by);
    Ok(None)
}
