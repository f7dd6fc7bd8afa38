// Steps of one rank's call, and the lines that they tell.
ghost use Rattle.std.specs.Prelude.{◌≡◌, ◌≢◌, ◌+◌, ◌<◌, ◌≤◌, ℕ, [], ◌∷◌, Some, false, is_some, IfOk, IsTrue, OnOk};
ghost use Rattle.ulfm_laws.specs.{Flags.{flag_meld}, declared.flag_and.FlagAnd.{FlagAnd}};
ghost use Rattle.ulfm_words.specs.Steps.{IsView, view_at};
ghost use Rattle.ulfm_model.specs.Traces.{Traced};
ghost use Rattle.ulfm_model.specs.declared.step_name.StepName.{StepName as TheStep};
ghost use Rattle.ulfm_run.specs.Seats.{Sits, next_in};
ghost use Rattle.ulfm_lines.specs.Progress.{IsReached};
ghost use Rattle.ulfm_run.specs.Walks.{stage, flag_words, SeatWalks, WalksUntil, left_of};

use crate::Seat;
use crate::telling::tell_step;
use std::alloc::{AllocError, Allocator};
use ulfm_comm::World;
use ulfm_laws::FlagAnd;
use ulfm_lines::{Reach, Teller, count_up};
use ulfm_model::call::comm_of;
use ulfm_model::step_name::StepName;
use ulfm_words::{PlainPass, PlainWords};

// One step of a call that is under way.
fn walk_one<A: Allocator + Copy + Drop>(
    seat: &mut Seat<FlagAnd, A>,
    world: &World<PlainWords<FlagAnd>, FlagAnd, A>,
    pass: &mut PlainPass<FlagAnd, A>,
    group: &mut Vec<u16, A>,
    teller: &mut Teller<A>,
) -> Result<(), AllocError>
    requires of { IsView flag_meld (view_at (flag_words world.now) pass.old) }
    requires sits { (now : Traced FlagAnd) × Sits flag_meld (flag_words world.now) now pass.old seat.old }
    requires is_open { IsTrue (is_some seat.old.call) }
    ensures of { IsView flag_meld (view_at (flag_words world.now) pass.new) }
    ensures walks { OnOk result (SeatWalks world.now (next_in seat.old.call ∷ []) (stage pass.old seat.old teller.old.text.items)
        (stage pass.new seat.new teller.new.text.items)) }
    ensures step { OnOk result (pass.new.steps ≡ pass.old.steps + 1) }
    ensures nearer { OnOk result (IsTrue (is_some seat.new.call) → left_of world.now seat.new < left_of
        world.now seat.old) }
{
    let Some(asked) = seat.asked() else {
        unreachable!()
    };
    let told = seat.step(world, pass)?;
    tell_step(seat, comm_of(&asked), &told, group, teller)
}

// Whether a call was taken as far as is said.
fn is_reached(reach: Reach, made: u32, next: Option<StepName>) -> bool
    ensures reached { IsTrue result → IsReached reach made next }
    ensures fewer { (most : ℕ) → result ≡ false → reach.most ≡ Some most → made ≢ most × (most ≤ 4294967295) }
    ensures other { (name : TheStep) → result ≡ false → reach.name ≡ Some name → next ≢ Some name }
{
    if let Some(name) = reach.name {
        if next == Some(name) {
            return true;
        }
    }
    match reach.most {
        Some(most) => made == most,
        None => false,
    }
}

/// The steps of a call, as far as they are to be taken, and how many were made.
pub(crate) fn walk_until<A: Allocator + Copy + Drop>(
    seat: &mut Seat<FlagAnd, A>,
    world: &World<PlainWords<FlagAnd>, FlagAnd, A>,
    pass: &mut PlainPass<FlagAnd, A>,
    reach: Reach,
    group: &mut Vec<u16, A>,
    teller: &mut Teller<A>,
) -> Result<u32, AllocError>
    requires of { IsView flag_meld (view_at (flag_words world.now) pass.old) }
    requires sits { (now : Traced FlagAnd) × Sits flag_meld (flag_words world.now) now pass.old seat.old }
    ensures of { IsView flag_meld (view_at (flag_words world.now) pass.new) }
    ensures walks { IfOk result (λ made. WalksUntil reach made world.now (stage pass.old seat.old teller.old.text.items)
        (stage pass.new seat.new teller.new.text.items)) }
{
    let mut made = 0;
    'steps: while seat.is_open() {
        if is_reached(reach, made, seat.next()) {
            break;
        }
        walk_one(seat, world, pass, group, teller)?;
        made = count_up(made, 1);
    }
    Ok(made)
}
