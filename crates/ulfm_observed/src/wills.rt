//! Whether each rank's own lines stand where they may, in one walk through an explanation.
ghost use Rattle.std.specs.Prelude.{◌≡◌, ℕ, ◌||◌, false, IfOk, IfSome, IsTrue, get_or, map};
ghost use Rattle.ulfm_observed.specs.declared.stages.Stage.TheVariants.{Idle};
ghost use Rattle.ulfm_observed.specs.Explains.{AreWillsKept, is_lost, loses};
ghost use Rattle.ulfm_observed.specs.LogTexts.{heard_of};
ghost use Rattle.ulfm_observed.specs.Stages.{may_stop, shown_of, stage_after};
ghost use Rattle.ulfm_observed.specs.Walked.{StagesGoOn, is_rank};

use crate::log::{Item, LogLine};
use crate::ranks::RANKS;
use crate::stages::{Stage, line_by};
use crate::step::Step;
use std::alloc::{AllocError, Allocator};
use ulfm_model::Caller;

/// The rank whose lines' end was lost, where a line tells so.
fn lost_rank(item: &Item) -> Option<u16>
    ensures { (r : ℕ) → loses r item.now ≡ is_rank result r }
{
    match *item {
        Item::Lost { rank } => Some(rank),
        _ => None,
    }
}

/// Notes the rank whose lines' end was lost, where a line tells so; whether the table has it.
fn note_lost(lost: &mut [bool], item: &Item) -> bool
    ensures { IsTrue result → (r : ℕ) → get_or lost.new r false ≡ (get_or lost.old r false || loses r item.now) }
{
    let Some(rank) = lost_rank(item) else {
        return true;
    };
    let at = usize::from(rank);
    if at >= lost.len() {
        return false;
    }
    lost[at] = true;
    true
}

/// Whether a rank is noted in a table.
fn is_noted(lost: &[bool], rank: u16) -> bool
    ensures { result ≡ get_or lost.now rank false }
{
    let at = usize::from(rank);
    if at < lost.len() { lost[at] } else { false }
}

/// Of each rank whether the end of its lines was lost; none where that is a rank which no line can name.
fn lost_ranks<A: Allocator + Copy, B: Allocator>(
    alloc: A,
    lines: &[LogLine<B>],
) -> Result<Option<Vec<bool, A>>, AllocError>
    ensures { IfOk result (λ told. IfSome told (λ lost. (r : ℕ)
        → get_or lost.items r false ≡ is_lost r (map heard_of lines.now))) }
{
    let mut lost = vec![in alloc; false; usize::from(RANKS)]?;
    for line in lines {
        if !note_lost(&mut lost, &line.item) {
            return Ok(None);
        }
    }
    Ok(Some(lost))
}

/// Takes a line of an explanation into the stage of its rank; whether the tables have the rank.
fn stage_goes_on<A: Allocator>(stages: &mut [Stage], lost: &[bool], step: &Step<A>) -> bool
    ensures { IsTrue result → StagesGoOn lost.now (shown_of step.now) stages.old stages.new }
{
    match line_by(&step.line) {
        Caller::Outside => true,
        Caller::Rank(rank) => {
            let at = usize::from(rank);
            if at >= stages.len() {
                return false;
            }
            stages[at] = stages[at].after(is_noted(lost, rank), step.logged, &step.line);
            true
        }
    }
}

/// Whether each rank may stop at its stage.
fn may_all_stop(stages: &[Stage]) -> bool
    ensures { IsTrue result → (r : ℕ) → IsTrue (may_stop (get_or stages.now r Idle)) }
{
    for stage in stages {
        if !stage.may_stop() {
            return false;
        }
    }
    true
}

/// Whether each rank's own lines stand where they may behind its stage, and an open start that took effect was
/// answered.
fn are_kept_behind<A: Allocator>(stages: &mut [Stage], lost: &[bool], steps: &[Step<A>]) -> bool
    ensures { IsTrue result → (r : ℕ)
        → IsTrue (may_stop (stage_after r (get_or lost.now r false) (get_or stages.old r Idle)
        (map shown_of steps.now))) }
{
    for step in steps {
        if !stage_goes_on(stages, lost, step) {
            return false;
        }
    }
    may_all_stop(stages)
}

/// Whether each rank's own lines stand where they may, and an open start that took effect was answered. Only memory
/// can be refused.
pub fn are_wills_kept<A: Allocator + Copy, B: Allocator, C: Allocator>(
    alloc: A,
    lines: &[LogLine<B>],
    steps: &[Step<C>],
) -> Result<bool, AllocError>
    ensures { IfOk result (λ yes. IsTrue yes → AreWillsKept (map heard_of lines.now) (map shown_of steps.now)) }
{
    let Some(lost) = lost_ranks(alloc, lines)? else {
        return Ok(false);
    };
    let mut stages = vec![in alloc; Stage::Idle; usize::from(RANKS)]?;
    Ok(are_kept_behind(&mut stages, &lost, steps))
}
