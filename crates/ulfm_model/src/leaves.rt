//! What a reply leaves of a rank's record.
ghost use Rattle.std.specs.Prelude.{◌≡◌, ◌==◌, Some, ℕ, find};
ghost use Rattle.ulfm_model.specs.Answers.{left_by, opened, printed, left_with, traits_of};
ghost use Rattle.ulfm_model.specs.History.{History};
ghost use Rattle.ulfm_model.specs.Records.{Held, change_at};
ghost use Rattle.ulfm_model.specs.Kept.{FitsNext, record_of};
ghost use Rattle.ulfm_model.specs.declared.limits.Limits.{Limits};
ghost use Rattle.ulfm_model.specs.declared.reply.Reply.TheVariants.{Shrunk, Started};

use crate::call::{Call, comm_of};
use crate::calls::started;
use crate::held::{HeldComm, acknowledge, close, open_on, place_of, release};
use crate::record::RankRecord;
use crate::refusal::Refusal;
use crate::reply::Reply;
use std::alloc::Allocator;

/// Opens the request that a call starts.
fn start<P: Copy, A: Allocator>(held: &mut [HeldComm<A>], asked: &Call<P>)
    requires { (x : Held) → find (λ y. y.comm == (traits_of asked.now).comm) held.old ≡ Some x → FitsNext ((traits_of asked.now).starts x) }
    ensures { held.new ≡ change_at (traits_of asked.now).comm (λ y. opened y ((traits_of asked.now).starts y)) held.old }
{
    if let Some(i) = place_of(held, comm_of(asked)) {
        let x = &mut held[i];
        let request = started(x, asked);
        open_on(x, request);
    }
}

/// Takes in a refusal.
fn refuse<A: Allocator>(own: &mut RankRecord<A>, comm: u16, refusal: Refusal)
    ensures { (limits : Limits) → record_of limits own.new ≡ left_with (record_of limits own.old) comm (printed refusal).2 }
{
    match refusal {
        Refusal::SelfFailed => own.refused = true,
        Refusal::Mismatch
        | Refusal::NoContext
        | Refusal::NoRoom
        | Refusal::IsRevoked
        | Refusal::ProcFailed => close(&mut own.held, comm),
        _ => {}
    }
}

/// Takes in a reply that makes no communicator.
pub fn settle<P: Copy, A: Allocator>(own: &mut RankRecord<A>, asked: &Call<P>, reply: Reply<P>)
    requires none { (j context size : ℕ) → reply ≡ Shrunk j context size → ⊥ }
    requires fits { (x : Held) → reply ≡ Started → find (λ y. y.comm == (traits_of asked.now).comm) own.old.held.items ≡ Some x
        → FitsNext ((traits_of asked.now).starts x) }
    ensures { (ranks : ℕ) (h : History P) (limits : Limits) → record_of limits own.new ≡ left_by ranks h (record_of limits own.old) asked.now reply }
{
    let comm = comm_of(asked);
    match reply {
        Reply::Started => start(&mut own.held, asked),
        Reply::Agreed { .. } => close(&mut own.held, comm),
        Reply::Done => close(&mut own.held, comm),
        Reply::Acked { count } => acknowledge(&mut own.held, comm, count),
        Reply::Freed => release(&mut own.held, comm),
        Reply::Refused(refusal) => refuse(own, comm, refusal),
        _ => {}
    }
}
