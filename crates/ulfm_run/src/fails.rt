// A whole declaration.
ghost use Rattle.std.specs.Prelude.{◌≡◌, ◌+◌, ◌*◌, ◌≤◌};
ghost use mathlib.Core.List.{IsPrefix};
ghost use Rattle.ulfm_words.specs.Steps.{IsView, cached_in, limits_in, steps_in, view_of};
ghost use Rattle.ulfm_comm.specs.{Calls.{reply_of}, Fails.{declared}};
ghost use Rattle.ulfm_run.specs.Failing.{TellsFail};

use std::alloc::Allocator;
use ulfm_comm::World;
use ulfm_laws::meld::Packed;
use ulfm_model::refusal::Refusal;
use ulfm_words::{PlainPass, PlainWords};

/// The outside declares a rank, whole: where the lines so far say what the pass has seen, the lines of its call, its event and its reply
/// may come, and are the piece of a line `fail R`.
pub fn fail_whole<P: Packed, A: Allocator + Copy + Drop>(
    world: &World<PlainWords<P>, P, A>,
    pass: &mut PlainPass<P, A>,
    rank: u16,
) -> Result<bool, Refusal>
    requires of { IsView P.meld (view_of P.pack world.now pass.old) }
    ensures of { IsView P.meld (view_of P.pack world.now pass.new) }
    ensures onward { steps_in (view_of P.pack world.now pass.old) ≤ steps_in (view_of P.pack world.now pass.new) }
    ensures few { steps_in (view_of P.pack world.now pass.new)
        ≤ steps_in (view_of P.pack world.now pass.old) + 2 * (limits_in (view_of P.pack world.now pass.old)).ranks }
    ensures keeps { IsPrefix (cached_in (view_of P.pack world.now pass.old)) (cached_in (view_of P.pack world.now pass.new)) }
    ensures tells { TellsFail P.meld rank (view_of P.pack world.now pass.old) (reply_of declared result) (view_of P.pack world.now pass.new) }
{
    world.fail(pass, rank)
}
