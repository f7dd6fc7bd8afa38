//! Events: whether one is its caller's own, and what the judge keeps of it.
ghost use Rattle.std.specs.Prelude.{◌≡◌, ◌==◌, false, IfOk, List, OnOk, ℕ, Some, map};
ghost use Rattle.std.specs.Option.{option_map_or};
ghost use Rattle.ulfm_model.specs.History.{History, failures, first_ranks, says};
ghost use Rattle.ulfm_judge.specs.Kept.{AreCalls, traced_of, under_of};
ghost use Rattle.ulfm_judge.specs.Telling.{TellsSome};
ghost use Rattle.ulfm_numbers.specs.Telling.{TablesTell};
ghost use Rattle.ulfm_judge.specs.Tests.{own_by_test};
ghost use Rattle.ulfm_model.specs.Traces.{Takes, Under, change_by, is_owned, with_event};
ghost use Rattle.ulfm_model.specs.declared.line.Line.{Line};

use crate::calls::{OpenCall, place_by, place_of_rank};
use crate::own::may_own;
use std::alloc::{AllocError, Allocator};
use ulfm_laws::meld::{Meld, Packed};
use ulfm_model::call::Call;
use ulfm_model::event::{Caller, Entry, Event};
use ulfm_model::groups::first_of;
use ulfm_model::limits::Limits;
use ulfm_model::line::Why;
use ulfm_model::record::RankRecord;
use ulfm_numbers::allowed::may_follow;
use ulfm_numbers::numbers::Numbers;

/// Whether an event declares a rank.
fn declares<P: Copy>(rank: u16, event: &Event<P>) -> bool
    ensures { result ≡ option_map_or (λ r. r == rank) (says event.now).declares false }
{
    match *event {
        Event::Fail { rank: r } => r == rank,
        _ => false,
    }
}

/// Whether an event in a call's caller's name is the call's own.
fn is_owned<P: Meld, A: Allocator>(u: &OpenCall<P, A>, event: &Event<P>) -> bool
    ensures { result ≡ is_owned (under_of u.now) event.now }
{
    match u.asked {
        Call::Fail { rank } => declares(rank, event),
        _ => true,
    }
}

/// Adds an event to the call of its caller.
fn add_own<P: Meld, A: Allocator + Copy + Drop>(
    calls: &mut [OpenCall<P, A>],
    by: Caller,
    event: Event<P>,
) -> Result<(), AllocError>
    ensures { (us : List (Under P)) → AreCalls calls.old us → OnOk result (AreCalls calls.new (change_by by (with_event event) us)) }
{
    let Some(i) = place_by(calls, by) else {
        return Ok(());
    };
    let u = &mut calls[i];
    if is_owned(u, &event) {
        u.own.push(event)?;
    }
    Ok(())
}

/// Whether an event is one that its caller may add, where these are declared.
fn is_own<P: Meld, A: Allocator>(
    limits: Limits,
    known: &[u16],
    records: &[RankRecord<A>],
    calls: &[OpenCall<P, A>],
    by: Caller,
    event: &Event<P>,
) -> bool
    requires { map (λ own. own.number) records.now ≡ first_ranks limits.ranks }
    ensures { (h : History P) (us : List (Under P)) → known.now ≡ failures h → AreCalls calls.now us
        → result ≡ own_by_test (traced_of limits h records.now us) by event.now }
{
    let Caller::Rank(rank) = by else {
        return true;
    };
    let Some(i) = place_by(calls, by) else {
        return false;
    };
    let Some(j) = place_of_rank(limits.ranks, records, rank) else {
        return false;
    };
    let u = &calls[i];
    let own = &records[j];
    let Some(count) = u.look else {
        return false;
    };
    let found = first_of(known, count);
    may_own(limits, found, own, &u.asked, event)
}

/// Takes in an event.
pub(crate) fn happen<P: Packed, A: Allocator + Copy + Drop>(
    alloc: A,
    limits: Limits,
    numbers: &mut Numbers<P, A>,
    records: &[RankRecord<A>],
    calls: &mut [OpenCall<P, A>],
    by: Caller,
    event: Event<P>,
) -> Result<Option<Why>, AllocError>
    requires { map (λ own. own.number) records.now ≡ first_ranks limits.ranks }
    ensures { (h : History P) (us : List (Under P)) (group : List ℕ) → TablesTell limits.ranks numbers.old h → AreCalls calls.old us
        → let old = traced_of limits h records.now us in
        IfOk result (TellsSome limits numbers.new records.now calls.new (Takes P.meld old group (Line.Happened by (Some event)))) }
{
    if !may_follow(alloc, limits, numbers, numbers.count, &event)? {
        return Ok(Some(Why::Event));
    }
    if !is_own(limits, &numbers.failures, records, calls, by, &event) {
        return Ok(Some(Why::Own));
    }
    add_own(calls, by, event)?;
    numbers.note(alloc, &Entry { by, event })?;
    Ok(None)
}
