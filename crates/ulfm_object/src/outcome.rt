// What a call of a rank comes to.
ghost use Rattle.std.specs.Prelude.{◌≡◌, ◌++◌, IfOk};
ghost use Rattle.ulfm_model.specs.Computed.{held_outcome, outcome_of, used_outcome};
ghost use Rattle.ulfm_model.specs.Terms.{comm_of};
ghost use Rattle.ulfm_model.specs.Answers.{refusal_of};
ghost use Rattle.ulfm_model.specs.History.{entries_by};
ghost use Rattle.ulfm_model.specs.Records.{held_at};
ghost use Rattle.ulfm_model.specs.Words.{MayOpen};
ghost use Rattle.ulfm_object.specs.Objects.{IsFew};
ghost use Rattle.ulfm_model.specs.Kept.{record_of};
ghost use Rattle.ulfm_model.specs.declared.event.Caller.TheVariants.{Rank};
ghost use Rattle.ulfm_model.specs.declared.reply.Reply.TheVariants.{Refused};

use crate::adds::{added, extended};
use crate::asked::Asked;
use crate::replies::replied;
use std::alloc::{AllocError, Allocator};
use ulfm_laws::meld::Meld;
use ulfm_model::call::comm_of;
use ulfm_model::event::{Caller, Entry};
use ulfm_model::held::{HeldComm, place_of, refusal_of};
use ulfm_model::reads::is_declared;
use ulfm_model::refusal::Refusal;
use ulfm_model::reply::Reply;

/// The history after a call, and its reply.
#[derive(Drop)]
pub(crate) struct Outcome<P: Meld, A: Allocator> {
    /// All events, those of the call last.
    pub(crate) after: Vec<Entry<P>, A>,
    /// What the call is answered.
    pub(crate) reply: Reply<P>,
}

/// A call that the record doesn't refuse, of a rank that isn't declared.
fn held_outcome<P: Meld, A: Allocator + Copy + Drop>(
    asked: &Asked<P, A>,
    x: &HeldComm<A>,
) -> Result<Outcome<P, A>, AllocError>
    requires may { MayOpen asked.now.limits }
    requires few { IsFew asked.now.history.now }
    ensures after { let own = record_of asked.now.limits asked.now.own.now in
        let outcome = held_outcome P.meld asked.now.limits asked.now.history.now own x.now asked.now.call.now in
        IfOk result (λ out. out.after.items ≡ asked.now.history.now ++ entries_by (Rank own.number) outcome.own) }
    ensures reply { let own = record_of asked.now.limits asked.now.own.now in
        IfOk result (λ out. out.reply ≡ (held_outcome P.meld asked.now.limits asked.now.history.now own x.now asked.now.call.now).reply) }
{
    let events = added(asked, x)?;
    let after = extended(
        asked.alloc,
        asked.history,
        Caller::Rank(asked.own.number),
        &events,
    )?;
    let reply = replied(asked, &after, x)?;
    Ok(Outcome { after, reply })
}

/// A refusal; nothing is added.
fn refused<P: Meld, A: Allocator + Copy + Drop>(
    asked: &Asked<P, A>,
    refusal: Refusal,
) -> Result<Outcome<P, A>, AllocError>
    ensures after { IfOk result (λ out. out.after.items ≡ asked.now.history.now) }
    ensures reply { IfOk result (λ out. out.reply ≡ Refused refusal) }
{
    let after = Vec::from_slice(asked.alloc, asked.history)?;
    let reply = Reply::Refused(refusal);
    Ok(Outcome { after, reply })
}

/// A call of a rank that isn't declared, by what its record says first.
fn used_outcome<P: Meld, A: Allocator + Copy + Drop>(
    asked: &Asked<P, A>,
) -> Result<Outcome<P, A>, AllocError>
    requires may { MayOpen asked.now.limits }
    requires few { IsFew asked.now.history.now }
    ensures after { let own = record_of asked.now.limits asked.now.own.now in
        let call = asked.now.call.now in
        let outcome = used_outcome P.meld asked.now.limits asked.now.history.now own (held_at own (comm_of call)) (refusal_of own call) call in
        IfOk result (λ out. out.after.items ≡ asked.now.history.now ++ entries_by (Rank own.number) outcome.own) }
    ensures reply { let own = record_of asked.now.limits asked.now.own.now in
        let call = asked.now.call.now in
        let outcome = used_outcome P.meld asked.now.limits asked.now.history.now own (held_at own (comm_of call)) (refusal_of own call) call in
        IfOk result (λ out. out.reply ≡ outcome.reply) }
{
    if let Some(refusal) = refusal_of(asked.limits, asked.own, asked.call) {
        return refused(asked, refusal);
    }
    match place_of(&asked.own.held, comm_of(asked.call)) {
        Some(i) => held_outcome(asked, &asked.own.held[i]),
        None => refused(asked, Refusal::SelfFailed),
    }
}

/// A call of a rank that wasn't refused for good before.
pub(crate) fn outcome_of<P: Meld, A: Allocator + Copy + Drop>(
    asked: &Asked<P, A>,
) -> Result<Outcome<P, A>, AllocError>
    requires may { MayOpen asked.now.limits }
    requires few { IsFew asked.now.history.now }
    ensures after { let own = record_of asked.now.limits asked.now.own.now in
        let outcome = outcome_of P.meld asked.now.limits asked.now.history.now own asked.now.call.now in
        IfOk result (λ out. out.after.items ≡ asked.now.history.now ++ entries_by (Rank own.number) outcome.own) }
    ensures reply { let own = record_of asked.now.limits asked.now.own.now in
        IfOk result (λ out. out.reply ≡ (outcome_of P.meld asked.now.limits asked.now.history.now own asked.now.call.now).reply) }
{
    if is_declared(asked.history, asked.own.number) {
        return refused(asked, Refusal::SelfFailed);
    }
    used_outcome(asked)
}
