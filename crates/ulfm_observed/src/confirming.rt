//! The test of an explanation: nothing of the search that found it is trusted.
ghost use Rattle.std.specs.Prelude.{◌≡◌, IfOk, IsTrue, map};
ghost use Rattle.ulfm_model.specs.Words.{MayOpen};
ghost use Rattle.ulfm_observed.specs.Explains.{AreAllHeard, Explains, all_logged};
ghost use Rattle.ulfm_observed.specs.LogTexts.{heard_in};
ghost use Rattle.ulfm_observed.specs.Stages.{shown_of};

use crate::judging::is_legal;
use crate::log::{Failures, Log, Order};
use crate::ranks::are_ranks_heard;
use crate::shows::{Whose, shows};
use crate::stages::only_helps;
use crate::step::Step;
use crate::wills::are_wills_kept;
use std::alloc::{AllocError, Allocator};
use ulfm_model::Caller;

/// Whether these lines explain the log: they are a legal trace of its world, their calls and replies are the log's,
/// each rank's contribution is its own, and the outside helps and does no more. Only memory can be refused.
pub fn confirm<A: Allocator + Copy + Drop, B: Allocator, C: Allocator>(
    alloc: A,
    log: &Log<B>,
    steps: &[Step<C>],
) -> Result<bool, AllocError>
    requires { MayOpen log.now.limits }
    ensures { IfOk result (λ yes. IsTrue yes → Explains log.now steps.now) }
{
    if !are_all_heard(alloc, log, steps)? {
        return Ok(false);
    }
    if !are_wills_kept(alloc, &log.lines, steps)? {
        return Ok(false);
    }
    if !only_helps(steps, is_all_logged(log.failures)) {
        return Ok(false);
    }
    is_legal(alloc, log.limits, steps)
}

/// Whether the calls and replies are the log's, in its order.
fn are_all_heard<A: Allocator + Copy, B: Allocator, C: Allocator>(
    alloc: A,
    log: &Log<B>,
    steps: &[Step<C>],
) -> Result<bool, AllocError>
    ensures { IfOk result (λ yes. IsTrue yes
        → AreAllHeard log.now.order (heard_in log.now) (map shown_of steps.now)) }
{
    match log.order {
        Order::Time => Ok(shows(Whose::Everyone, &log.lines, steps)),
        Order::Ranks => {
            let ranks = are_ranks_heard(alloc, &log.lines, steps)?;
            Ok(ranks && shows(Whose::Of(Caller::Outside), &log.lines, steps))
        }
    }
}

/// Whether all declarations are logged.
fn is_all_logged(failures: Failures) -> bool
    ensures { result ≡ all_logged failures }
{
    match failures {
        Failures::Any => false,
        Failures::Logged => true,
    }
}
