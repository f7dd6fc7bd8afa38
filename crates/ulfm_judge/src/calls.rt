//! The calls under way, each at its caller's place: lines that begin one, and looks.
ghost use Rattle.std.specs.Prelude.{◌≡◌, ◌<◌, ◌≤◌, ◌==◌, IfOk, IfSome, List, OnOk, ℕ, false, find, length, map, max, position};
ghost use Rattle.ulfm_judge.specs.Kept.{AreCalls, GoesWith, needed_by, place_by, seat_of, traced_of};
ghost use Rattle.ulfm_judge.specs.Tests.{due_test};
ghost use Rattle.ulfm_model.specs.Answers.{traits_of};
ghost use Rattle.ulfm_model.specs.History.{History, failures, first_ranks};
ghost use Rattle.ulfm_model.specs.Kept.{record_of};
ghost use Rattle.ulfm_model.specs.declared.record.RankRecord.{RankRecord};
ghost use Rattle.ulfm_model.specs.Traces.{Takes, Under};
ghost use Rattle.ulfm_model.specs.declared.line.Line.{Line};

use std::alloc::{AllocError, Allocator};
use ulfm_laws::meld::Meld;
use ulfm_model::call::{Call, rank_of};
use ulfm_model::event::{Caller, Event};
use ulfm_model::limits::Limits;
use ulfm_model::line::Why;
use ulfm_model::record::RankRecord;

/// A caller's place for a call.
#[derive(Drop)]
pub struct OpenCall<P: Copy, A: Allocator> {
    /// Whether a call is under way there; the rest is this call's.
    pub is_open: bool,
    /// The call, as its line has it.
    pub asked: Call<P>,
    /// How many events there were when it began.
    pub begun: u64,
    /// How many failures its look found, if it was made.
    pub look: Option<u16>,
    /// The caller's own events since.
    pub own: Vec<Event<P>, A>,
}

/// Who makes a call.
fn caller_of<P: Copy>(asked: &Call<P>) -> Caller
    ensures { result ≡ (traits_of asked.now).by }
{
    match *asked {
        Call::Fail { .. } => Caller::Outside,
        _ => Caller::Rank(rank_of(asked)),
    }
}

/// The place of a caller: the outside's is first, and then come those of the ranks.
fn seat_of(by: Caller) -> usize
    ensures is { result ≡ seat_of by }
    ensures small { result ≤ 65536 }
{
    match by {
        Caller::Outside => 0,
        Caller::Rank(rank) => usize::from(rank) + 1,
    }
}

/// Where the call of a caller stands, if it has one under way.
pub(crate) fn place_by<P: Meld, A: Allocator>(calls: &[OpenCall<P, A>], by: Caller) -> Option<usize>
    ensures at { result ≡ place_by calls.now by }
    ensures within { IfSome result (λ i. i < length calls.now) }
{
    let seat = seat_of(by);
    match calls.get(seat) {
        Some(u) => { if u.is_open { Some(seat) } else { None } }
        None => None,
    }
}

/// Makes so many places at least; at new ones no call is under way, and what they say is asked counts for nothing.
fn make_room<P: Meld, A: Allocator + Copy + Drop>(
    alloc: A,
    calls: &mut Vec<OpenCall<P, A>, A>,
    count: usize,
    asked: Call<P>,
) -> Result<(), AllocError>
    ensures room { OnOk result (count ≤ length calls.new.items) }
    ensures few { length calls.new.items ≤ max (length calls.old.items) count }
    ensures same { (us : List (Under P)) → AreCalls calls.old.items us → AreCalls calls.new.items us }
{
    'room: for _place in calls.len()..count {
        calls.push(OpenCall {
            is_open: false,
            asked,
            begun: 0,
            look: None,
            own: Vec::new(alloc),
        })?;
    }
    Ok(())
}

/// Takes in that a call begins, after so many events, however its line spells it.
pub(crate) fn begin<P: Meld, A: Allocator + Copy + Drop>(
    alloc: A,
    count: u64,
    calls: &mut Vec<OpenCall<P, A>, A>,
    asked: Call<P>,
) -> Result<Option<Why>, AllocError>
    ensures few { length calls.new.items ≤ max (length calls.old.items) (needed_by (Line.Called asked false)) }
    ensures taken { (limits : Limits) (h : History P) (records : List (RankRecord A)) (us : List (Under P)) (group : List ℕ) → count ≡ length h
        → AreCalls calls.old.items us → let old = traced_of limits h records us in
        IfOk result (GoesWith calls.new.items (λ next. Takes P.meld old group (Line.Called asked false) (traced_of limits h records next))) }
{
    let by = caller_of(&asked);
    if let Some(_) = place_by(calls, by) {
        return Ok(Some(Why::Call));
    }
    let seat = seat_of(by);
    make_room(alloc, calls, seat + 1, asked)?;
    let u = &mut calls[seat];
    u.asked = asked;
    u.begun = count;
    u.look = None;
    u.own.clear();
    u.is_open = true;
    Ok(None)
}

/// Where the record of a rank stands, in a world of so many ranks.
pub(crate) fn place_of_rank<A: Allocator>(
    ranks: u16,
    records: &[RankRecord<A>],
    rank: u16,
) -> Option<usize>
    requires { map (λ own. own.number) records.now ≡ first_ranks ranks }
    ensures at { result ≡ position (λ own. own.number == rank) records.now }
    ensures within { IfSome result (λ i. i < length records.now) }
{
    let place = usize::from(rank);
    if place < records.len() {
        Some(place)
    } else {
        None
    }
}

/// Whether a look is due.
fn is_due<A: Allocator>(
    limits: Limits,
    records: &[RankRecord<A>],
    rank: u16,
    look: Option<u16>,
) -> bool
    requires { map (λ own. own.number) records.now ≡ first_ranks limits.ranks }
    ensures { result ≡ due_test (find (λ x. x.number == rank) (map (record_of limits) records.now)) look }
{
    match place_of_rank(limits.ranks, records, rank) {
        Some(i) => match look {
            None => !records[i].refused,
            Some(_) => false,
        },
        None => false,
    }
}

/// Takes in that a look has ended, where these are declared.
pub(crate) fn look<P: Meld, A: Allocator>(
    limits: Limits,
    known: &[u16],
    records: &[RankRecord<A>],
    calls: &mut [OpenCall<P, A>],
    rank: u16,
    count: u16,
) -> Option<Why>
    requires { map (λ own. own.number) records.now ≡ first_ranks limits.ranks }
    ensures { (h : History P) (us : List (Under P)) (group : List ℕ) → known.now ≡ failures h → AreCalls calls.old us
        → let old = traced_of limits h records.now us in
        GoesWith calls.new (λ next. Takes P.meld old group (Line.Looked rank count) (traced_of limits h records.now next)) result }
{
    let Some(i) = place_by(calls, Caller::Rank(rank)) else {
        return Some(Why::Call);
    };
    let u = &mut calls[i];
    if !is_due(limits, records, rank, u.look) {
        return Some(Why::Look);
    }
    if usize::from(count) != known.len() {
        return Some(Why::Look);
    }
    u.look = Some(count);
    None
}
