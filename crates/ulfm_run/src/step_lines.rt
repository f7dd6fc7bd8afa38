// One line of a step script after another, over a world, one pass and the seats of all ranks.
ghost use Rattle.std.specs.Prelude.{◌≡◌, ◌++◌, ◌+◌, ◌*◌, ◌≤◌, ℕ, None, length, IfOk, OnOk};
ghost use Rattle.ulfm_laws.specs.{Flags.{flag_meld}, declared.flag_and.FlagAnd.{FlagAnd}};
ghost use Rattle.ulfm_model.specs.Answers.{rank_of as caller_in, traits_of};
ghost use Rattle.ulfm_model.specs.declared.{event.Caller.TheVariants.{Rank as OfRank}, reply.Reply.{Reply}};
ghost use Rattle.ulfm_words.specs.Steps.{IsView, view_at};
ghost use Rattle.ulfm_model.specs.Traces.{Traced};
ghost use Rattle.ulfm_model.specs.declared.step_line.StepLine.TheVariants.{Called, Failed};
ghost use Rattle.ulfm_lines.specs.declared.step_machine.Taken.TheVariants.{Run};
ghost use Rattle.ulfm_lines.specs.Progress.{GoesAsSaid, GoesFar};
ghost use Rattle.ulfm_lines.specs.{LineTexts.{lines_text}, StepLines.{IsByRank}, Stepped.{IsSpelledStep, TellsStep}, Walked.{TellsSteps}};
ghost use Rattle.ulfm_run.specs.{StepLines.{BeginsCall}, Table.{OthersStay, SeatsStay, StandsFor, progress_of}, Walks.{flag_words}};

use crate::telling::{tell_begun, tell_declaration, tell_unknown};
use crate::walks::walk_until;
use crate::{Seat, fail_whole};
use std::alloc::{AllocError, Allocator};
use ulfm_comm::World;
use ulfm_laws::FlagAnd;
use ulfm_lines::{Reach, Taken, Teller};
use ulfm_model::call::rank_of;
use ulfm_model::{Call, StepLine};
use ulfm_words::{PlainPass, PlainWords};

// A rank that has no call under way begins one.
fn begin_at<A: Allocator + Copy + Drop>(
    seat: &mut Seat<FlagAnd, A>,
    world: &World<PlainWords<FlagAnd>, FlagAnd, A>,
    pass: &PlainPass<FlagAnd, A>,
    asked: Call<FlagAnd>,
    padded: bool,
    teller: &mut Teller<A>,
) -> Result<(), AllocError>
    requires mine { (traits_of asked).by ≡ OfRank seat.old.own.number }
    requires closed { seat.old.call ≡ None }
    requires of { IsView flag_meld (view_at (flag_words world.now) pass.now) }
    ensures { OnOk result (BeginsCall (view_at (flag_words world.now) pass.now) asked padded seat.old teller.old.text.items seat.new
        teller.new.text.items) }
{
    let rank = seat.number();
    let answer = seat.begin(world, pass, asked);
    tell_begun(rank, asked, padded, answer, teller)
}

// A rank begins a call, where the world has the rank, and it has none under way.
#[tactic(auto, using(crate::proofs::Standing::others_stay))]
fn run_call<A: Allocator + Copy + Drop>(
    world: &World<PlainWords<FlagAnd>, FlagAnd, A>,
    pass: &PlainPass<FlagAnd, A>,
    seats: &mut [Seat<FlagAnd, A>],
    asked: Call<FlagAnd>,
    padded: bool,
    teller: &mut Teller<A>,
) -> Result<Taken, AllocError>
    requires by_rank { IsByRank asked }
    requires stands { (now : Traced FlagAnd) × StandsFor world.now pass.now seats.old now }
    ensures tells { (now : Traced FlagAnd) → StandsFor world.now pass.now seats.old now
        → IfOk result (λ taken. TellsStep (StandsFor world.now pass.now seats.new) now (Called asked padded) taken
        teller.old.text.items teller.new.text.items) }
    ensures stands { OnOk result ((next : Traced FlagAnd) × StandsFor world.now pass.now seats.new next) }
    ensures others { OthersStay (caller_in asked) seats.old seats.new }
{
    let rank = rank_of(&asked);
    if rank as usize >= seats.len() {
        tell_unknown(rank, asked, padded, pass.count(), teller)?;
        return Ok(Taken::Run);
    }
    let seat = &mut seats[rank as usize];
    if seat.is_open() {
        return Ok(Taken::Open);
    }
    begin_at(seat, world, pass, asked, padded, teller)?;
    Ok(Taken::Run)
}

// There are no more events than a number tells. It does nothing.
fn has_room<A: Allocator + Copy + Drop>(pass: &PlainPass<FlagAnd, A>)
    ensures { length pass.now.seen ≤ 4294967295 }
{
    let _ = pass.count();
}

/// Steps of a rank's call as far as they are to be taken, where the world has the rank and it has a call under way.
#[tactic(auto, using(crate::proofs::Standing::others_stay))]
pub(crate) fn walk_rank<A: Allocator + Copy + Drop>(
    world: &World<PlainWords<FlagAnd>, FlagAnd, A>,
    pass: &mut PlainPass<FlagAnd, A>,
    seats: &mut [Seat<FlagAnd, A>],
    rank: u16,
    reach: Reach,
    group: &mut Vec<u16, A>,
    teller: &mut Teller<A>,
) -> Result<u32, AllocError>
    requires stands { (now : Traced FlagAnd) × StandsFor world.now pass.old seats.old now }
    ensures tells { (now : Traced FlagAnd) → StandsFor world.now pass.old seats.old now
        → IfOk result (λ made. TellsSteps (StandsFor world.now pass.new seats.new) now rank reach made
        teller.old.text.items teller.new.text.items) }
    ensures goes { IfOk result (λ made. GoesFar (progress_of pass.old seats.old) (progress_of pass.new seats.new) rank reach made) }
    ensures others { OthersStay rank seats.old seats.new }
{
    has_room(pass);
    if rank as usize >= seats.len() {
        return Ok(0);
    }
    let seat = &mut seats[rank as usize];
    if !seat.is_open() {
        return Ok(0);
    }
    let made = walk_until(seat, world, pass, reach, group, teller)?;
    has_room(pass);
    Ok(made)
}

// The outside declares a rank, whole.
fn run_fail<A: Allocator + Copy + Drop>(
    world: &World<PlainWords<FlagAnd>, FlagAnd, A>,
    pass: &mut PlainPass<FlagAnd, A>,
    seats: &[Seat<FlagAnd, A>],
    rank: u16,
    teller: &mut Teller<A>,
) -> Result<(), AllocError>
    requires { (now : Traced FlagAnd) × StandsFor world.now pass.old seats.now now }
    ensures tells { (now : Traced FlagAnd) → StandsFor world.now pass.old seats.now now
        → OnOk result (TellsStep (StandsFor world.now pass.new seats.now) now (Failed rank) Run
        teller.old.text.items teller.new.text.items) }
    ensures few { pass.new.steps ≤ pass.old.steps + 2 * world.now.limits.ranks }
{
    let _ = seats;
    let told = fail_whole(world, pass, rank);
    tell_declaration(rank, pass.count(), told, teller)
}

/// Runs one line, and tells what happens.
pub(crate) fn run_line<A: Allocator + Copy + Drop>(
    world: &World<PlainWords<FlagAnd>, FlagAnd, A>,
    pass: &mut PlainPass<FlagAnd, A>,
    seats: &mut [Seat<FlagAnd, A>],
    step: &StepLine<FlagAnd>,
    group: &mut Vec<u16, A>,
    teller: &mut Teller<A>,
) -> Result<Taken, AllocError>
    requires step { IsSpelledStep step.now }
    requires stands { (now : Traced FlagAnd) × StandsFor world.now pass.old seats.old now }
    ensures tells { (now : Traced FlagAnd) → StandsFor world.now pass.old seats.old now
        → IfOk result (λ taken. TellsStep (StandsFor world.now pass.new seats.new) now step.now taken
        teller.old.text.items teller.new.text.items) }
    ensures stands { OnOk result ((next : Traced FlagAnd) × StandsFor world.now pass.new seats.new next) }
    ensures goes { OnOk result (GoesAsSaid (progress_of pass.old seats.old) (progress_of pass.new seats.new) step.now) }
    ensures others { OnOk result (SeatsStay step.now seats.old seats.new) }
{
    match *step {
        StepLine::Called { call, padded } => {
            return run_call(world, pass, seats, call, padded, teller);
        }
        StepLine::Failed { rank } => run_fail(world, pass, seats, rank, teller)?,
        StepLine::Stepped { rank, count } => {
            let reach = Reach {
                most: Some(count as u32),
                name: None,
            };
            walk_rank(world, pass, seats, rank, reach, group, teller)?;
        }
        StepLine::Before { rank, name } => {
            let reach = Reach {
                most: None,
                name: Some(name),
            };
            walk_rank(world, pass, seats, rank, reach, group, teller)?;
        }
        StepLine::Finished { rank } => {
            let reach = Reach {
                most: None,
                name: None,
            };
            walk_rank(world, pass, seats, rank, reach, group, teller)?;
        }
    }
    Ok(Taken::Run)
}
