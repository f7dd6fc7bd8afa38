//! Whether the lines of an explanation are a legal trace.
ghost use Rattle.std.specs.Prelude.{IfOk, IsTrue, map};
ghost use Rattle.ulfm_laws.specs.Flags.{flag_meld};
ghost use Rattle.ulfm_model.specs.Words.{MayOpen};
ghost use Rattle.ulfm_model.specs.Traces.{IsLegalTrace};
ghost use Rattle.ulfm_observed.specs.Stages.{told_of};

use crate::step::Step;
use std::alloc::{AllocError, Allocator};
use ulfm_judge::Judge;
use ulfm_laws::FlagAnd;
use ulfm_model::Limits;

/// Whether the judge of traces takes each line behind those before it. Only memory can be refused.
pub fn is_legal<A: Allocator + Copy + Drop, B: Allocator>(
    alloc: A,
    limits: Limits,
    steps: &[Step<B>],
) -> Result<bool, AllocError>
    requires { MayOpen limits }
    ensures { IfOk result (λ legal. IsTrue legal → IsLegalTrace flag_meld limits (map told_of steps.now)) }
{
    let mut judge = Judge::<FlagAnd, A>::open(alloc, limits)?;
    for step in steps {
        match judge.take(&step.line, &step.group)? {
            None => {}
            Some(_) => return Ok(false),
        }
    }
    Ok(true)
}
