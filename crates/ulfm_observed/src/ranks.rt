//! Whether each rank's calls and replies are those of a log, in one walk through an explanation.
ghost use Rattle.std.specs.Prelude.{◌≡◌, ℕ, ◌≤◌, ◌<◌, false, [], IfOk, IfSome, IsTrue, filter, get_or, map};
ghost use Rattle.ulfm_model.specs.declared.event.Caller.TheVariants.{Rank};
ghost use Rattle.ulfm_model.specs.Traces.{same_caller};
ghost use Rattle.ulfm_observed.specs.declared.shows.Whose.TheVariants.{Of};
ghost use Rattle.ulfm_observed.specs.Explains.{AreHeard, AreRanksHeard, is_heard_by, is_shown_by, is_told_by};
ghost use Rattle.ulfm_observed.specs.LogTexts.{heard_of};
ghost use Rattle.ulfm_observed.specs.Stages.{shown_of};
ghost use Rattle.ulfm_observed.specs.Walked.{AllGoOn, is_rank, left_of, of_callers};

use crate::log::{Item, LogLine};
use crate::shows::{Whose, go_on, next_line};
use crate::stages::caller_of;
use crate::step::Step;
use std::alloc::{AllocError, Allocator};
use ulfm_laws::FlagAnd;
use ulfm_model::{Caller, Line};

/// One more than the greatest rank that a line can name.
pub(crate) const RANKS: u16 = 1024;

/// The rank of a caller; none for the outside.
fn rank_in(by: Caller) -> Option<u16>
    ensures { (r : ℕ) → same_caller by (Rank r) ≡ is_rank result r }
{
    match by {
        Caller::Outside => None,
        Caller::Rank(rank) => Some(rank),
    }
}

/// The rank whose call or reply a line of a log is.
fn heard_rank(item: &Item) -> Option<u16>
    ensures { (r : ℕ) → is_heard_by (Of (Rank r)) item.now ≡ is_rank result r }
{
    match *item {
        Item::Called { call, .. } => rank_in(caller_of(&call)),
        Item::Replied { by, .. } => rank_in(by),
        Item::Lost { .. } => None,
    }
}

/// The rank whose call or reply a line of a trace is.
fn told_rank(line: &Line<FlagAnd>) -> Option<u16>
    ensures { (r : ℕ) → is_told_by (Of (Rank r)) line.now ≡ is_rank result r }
{
    match *line {
        Line::Called { call, .. } => rank_in(caller_of(&call)),
        Line::Replied { by, .. } => rank_in(by),
        _ => None,
    }
}

/// The place of a rank in a log; its start where the table has none.
fn place_of(places: &[usize], rank: u16) -> usize
    ensures { result ≡ get_or places.now rank 0 }
{
    let at = usize::from(rank);
    if at < places.len() { places[at] } else { 0 }
}

/// Takes a line of an explanation, where it is the next line of its rank in the log or none of a rank; whether it is.
fn rank_goes_on<A: Allocator, B: Allocator>(
    places: &mut [usize],
    lines: &[LogLine<A>],
    step: &Step<B>,
) -> bool
    ensures { IsTrue result → AllGoOn (map heard_of lines.now) (shown_of step.now) places.old places.new }
{
    let Some(rank) = told_rank(&step.line) else {
        return true;
    };
    let at = usize::from(rank);
    if at >= places.len() {
        return false;
    }
    let Some(now) = go_on(Whose::Of(Caller::Rank(rank)), lines, places[at], step) else {
        return false;
    };
    places[at] = now;
    true
}

/// A bound that is above the rank of this line too; none where that is more than a line can name.
fn bound_with(bound: u16, item: &Item) -> Option<u16>
    ensures grows { IfSome result (λ next. bound ≤ next) }
    ensures above { IfSome result (λ next. (r : ℕ) → next ≤ r → is_heard_by (Of (Rank r)) item.now ≡ false) }
{
    let Some(rank) = heard_rank(item) else {
        return Some(bound);
    };
    if rank >= RANKS {
        return None;
    }
    if rank < bound {
        return Some(bound);
    }
    Some(rank + 1)
}

/// One more than the greatest rank that calls in a log; none where that is more than a line can name.
fn ranks_in<A: Allocator>(lines: &[LogLine<A>]) -> Option<u16>
    ensures { IfSome result (λ bound. (r : ℕ) → bound ≤ r
        → of_callers (Of (Rank r)) (map heard_of lines.now) ≡ []) }
{
    let mut bound = 0;
    for line in lines {
        let Some(next) = bound_with(bound, &line.item) else {
            return None;
        };
        bound = next;
    }
    Some(bound)
}

/// Whether nothing is left of the lines of the first so many ranks.
fn are_through<A: Allocator>(places: &[usize], lines: &[LogLine<A>], bound: u16) -> bool
    ensures { IsTrue result → (r : ℕ) → r < bound
        → left_of (Of (Rank r)) (map heard_of lines.now) (get_or places.now r 0) ≡ [] }
{
    for rank in 0..bound {
        let at = place_of(places, rank);
        let None = next_line(Whose::Of(Caller::Rank(rank)), lines, at) else {
            return false;
        };
    }
    true
}

/// Whether what is left of each rank's calls and replies in the log, from its place on, are those of these lines.
fn are_left_heard<A: Allocator, B: Allocator>(
    places: &mut [usize],
    lines: &[LogLine<A>],
    steps: &[Step<B>],
) -> bool
    ensures { IsTrue result → (r : ℕ)
        → AreHeard (left_of (Of (Rank r)) (map heard_of lines.now) (get_or places.old r 0))
        (filter (is_shown_by (Of (Rank r))) (map shown_of steps.now)) }
{
    let Some(bound) = ranks_in(lines) else {
        return false;
    };
    for step in steps {
        if !rank_goes_on(places, lines, step) {
            return false;
        }
    }
    are_through(places, lines, bound)
}

/// Whether each rank's calls and replies are those of the log, in its order. Only memory can be refused.
pub fn are_ranks_heard<A: Allocator + Copy, B: Allocator, C: Allocator>(
    alloc: A,
    lines: &[LogLine<B>],
    steps: &[Step<C>],
) -> Result<bool, AllocError>
    ensures { IfOk result (λ yes. IsTrue yes → AreRanksHeard (map heard_of lines.now) (map shown_of steps.now)) }
{
    let mut places = vec![in alloc; 0; usize::from(RANKS)]?;
    Ok(are_left_heard(&mut places, lines, steps))
}
