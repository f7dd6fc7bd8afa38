//! What runs the lines of a step script.
ghost use Rattle.std.specs.Prelude.{◌≡◌, IfOk, OnOk};
ghost use Rattle.ulfm_laws.specs.declared.flag_and.FlagAnd.{FlagAnd};
ghost use Rattle.ulfm_model.specs.Words.{MayOpen};
ghost use Rattle.ulfm_model.specs.Traces.{Traced, nothing};
ghost use Rattle.ulfm_lines.specs.Progress.{GoesAsSaid, GoesFar, Progress};
ghost use Rattle.ulfm_lines.specs.Stepped.{IsSpelledStep, TellsStep};
ghost use Rattle.ulfm_lines.specs.Walked.{IsCountOf, TellsSteps};
ghost use Rattle.std.specs.Prelude.{◌+◌};

use crate::teller::Teller;
use std::alloc::{AllocError, Allocator};
use ulfm_laws::FlagAnd;
use ulfm_model::step_name::StepName;
use ulfm_model::{Limits, StepLine};

/// What became of a line of a step script.
#[derive(Clone, Copy, Debug, PartialEq, Eq)]
pub enum Taken {
    /// It was run.
    Run,
    /// It is a call of a rank whose call is still under way. Nothing was done and nothing told.
    Open,
}

/// How far a rank's call is taken: to its end, where nothing is said.
#[derive(Clone, Copy, Debug, PartialEq, Eq)]
pub struct Reach {
    /// At most so many steps.
    pub most: Option<u32>,
    /// Up to its next step of this name, which isn't made.
    pub name: Option<StepName>,
}

/// A count of steps and further steps, which stays at the greatest number that there is.
pub fn count_up(made: u32, more: u32) -> u32
    ensures { IsCountOf (made + more) result }
{
    match made.checked_add(more) {
        Some(sum) => sum,
        None => u32::MAX,
    }
}

/// Whatever runs the lines of a step script, one after another, and tells the lines of a legal trace.
pub trait StepMachine<A: Allocator>: Drop {
    /// What was told so far says this, and the machine stands for it.
    ghost Stands: { Self → Traced FlagAnd → Type 0 };

    /// How many atomic steps it has made, and which each rank's call makes next.
    ghost Has: { Self → Progress };

    /// A machine to which nothing has happened. Only memory can be refused.
    fn open(alloc: A, limits: Limits) -> Result<Self, AllocError>
        requires { MayOpen limits }
        ensures { IfOk result (λ machine. Stands machine (nothing limits)) };

    /// Runs one line and tells what happens, line by line of the trace. Steps of a call are made as far as the line says. Only memory can be refused; the machine isn't used again then.
    fn run(&mut self, step: &StepLine<FlagAnd>, teller: &mut Teller<A>) -> Result<Taken, AllocError>
        requires { IsSpelledStep step.now }
        ensures tells { (now : Traced FlagAnd) → Stands self.old now
            → IfOk result (λ taken. TellsStep (Stands self.new) now step.now taken teller.old.text.items teller.new.text.items) }
        ensures goes { OnOk result (GoesAsSaid (Has self.old) (Has self.new) step.now) };

    /// Takes steps of a rank's call as far as it is said, and tells what happens, line by line of the trace. It gives how many were made: none
    /// where the rank has no call under way, or the world no such rank. Only memory can be refused; the machine isn't used again then.
    fn steps(&mut self, rank: u16, reach: Reach, teller: &mut Teller<A>) -> Result<u32, AllocError>
        ensures tells { (now : Traced FlagAnd) → Stands self.old now
            → IfOk result (λ made. TellsSteps (Stands self.new) now rank reach made teller.old.text.items teller.new.text.items) }
        ensures goes { IfOk result (λ made. GoesFar (Has self.old) (Has self.new) rank reach made) };
}
