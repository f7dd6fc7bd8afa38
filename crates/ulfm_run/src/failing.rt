//! Scripts of single steps in which a rank is declared failed in between.
ghost use Rattle.std.specs.Prelude.{◌≡◌, ◌<◌, IfOk, OnOk, true, false};
ghost use Rattle.ulfm_model.specs.declared.limits.Limits.{Limits as TheLimits};
ghost use Rattle.ulfm_script.specs.Ends.{EndsAlone, ended};
ghost use Rattle.ulfm_lines.specs.Stepped.{IsSpelledStep};
ghost use Rattle.ulfm_run.specs.FailingScripts.{ComesAsSaid, ComesFar, DeclaresIfDue, HasFailed, Lines, RestsAt, RunsFailing, StandsSoFar};
ghost use Rattle.ulfm_run.specs.FailingScripts.{TakesStepLine};
ghost use Rattle.ulfm_run.specs.FailingScripts.{CountsAsSaid, CountsOn, TellsWalk, behind_of, failing_scripts, fails_after, fewer, state_of, up_to};

use crate::engine::tell_header;
use crate::plan::Failing;
use std::alloc::{AllocError, Allocator};
use std::io::{Read, Write};
use ulfm_laws::FlagAnd;
use ulfm_lines::{Reach, StepMachine, Taken, Teller, count_up, read_step_line};
use ulfm_model::StepLine;
use ulfm_script::{
    HeaderKind, Heading, Interpreter, LineKind, RunFault, end_of, read_heading, run_text,
};

/// Runs a script as [`crate::run_steps`] does, and declares a rank, whole, as the outside does, right after this atomic step of the
/// script's lines, behind all lines of the trace that it tells; right behind the header for 0, and never where fewer steps are made. A rank
/// that the world doesn't have is answered so.
///
/// At `Ok` it gives the number of steps that were made, or the greatest that there is; those of declarations aren't counted. The trace is
/// legal, and follows the script but for the lines of that declaration, which it has exactly where no fewer steps were made. It has no more
/// events of ranks than the number says, no more before the declaration than the steps that come before it, and no more behind it than the
/// others. At a fault what was written is as there, but for that declaration.
pub fn run_failing_script<M: StepMachine<A>, A: Allocator + Copy, R: Read, W: Write>(
    alloc: A,
    plan: Failing,
    reader: &mut R,
    writer: &mut W,
) -> Result<u32, RunFault>
    ensures ends { EndsAlone failing_scripts (R.remaining reader.old) (R.remaining reader.new) (W.contents writer.old) (W.contents writer.new)
        (ended result) }
    ensures fails { IfOk result (λ number. RunsFailing plan.at plan.rank number (R.remaining reader.old) (W.contents writer.old) (W.contents writer.new)) }
{
    match run_text::<FailingLines<M, A>, A, R, W>(alloc, plan, reader, writer) {
        Ok(lines) => Ok(lines.made),
        Err(fault) => Err(fault),
    }
}

/// At most so many steps of a call, and no more than before.
fn cut_to(reach: Reach, left: u32) -> Reach
    ensures { result ≡ up_to left reach }
{
    let most = match reach.most {
        Some(most) => most.min(left),
        None => left,
    };
    Reach {
        most: Some(most),
        name: reach.name,
    }
}

/// What is left of a reach behind so many steps.
fn cut_behind(reach: Reach, made: u32) -> Reach
    ensures { result ≡ behind_of made reach }
{
    let most = match reach.most {
        Some(most) => Some(most.saturating_sub(made)),
        None => None,
    };
    Reach {
        most,
        name: reach.name,
    }
}

/// A machine, what it tells, and the rank that is declared in between.
#[derive(Drop)]
struct FailingLines<M, A: Allocator> {
    machine: M,
    teller: Teller<A>,
    plan: Failing,
    // So many steps were made.
    made: u32,
    // Whether the declaration is still to come.
    waits: bool,
}

impl<M: StepMachine<A>, A: Allocator + Copy> FailingLines<M, A> {
    /// Declares the rank where that is due, and says whether it was.
    fn declare(&mut self) -> Result<bool, AllocError>
        ensures plan { self.new.plan ≡ self.old.plan }
        ensures made { self.new.made ≡ self.old.made }
        ensures early { IfOk result (λ due. due ≡ false → self.old.waits ≡ true → self.old.made < self.old.plan.at) }
        ensures idle { IfOk result (λ due. due ≡ false → M.Has self.new.machine ≡ M.Has self.old.machine) }
        ensures once { IfOk result (λ due. due ≡ true → (self.old.waits ≡ true) × (self.new.waits ≡ false)) }
        ensures told { (limits : TheLimits) (trace rest : Lines) → StandsSoFar (state_of M.Stands self.old) limits trace rest
            → IfOk result (λ due. DeclaresIfDue (state_of M.Stands self.old) (state_of M.Stands self.new) limits trace rest due) }
    {
        if !self.waits || self.made < self.plan.at {
            return Ok(false);
        }
        self.waits = false;
        let rank = self.plan.rank;
        self.machine
            .run(&StepLine::Failed { rank }, &mut self.teller)?;
        Ok(true)
    }

    /// Takes steps of a rank's call as far as they are to be taken, and declares the rank where that is due in between.
    fn walk(&mut self, rank: u16, reach: Reach) -> Result<(), AllocError>
        ensures plan { self.new.plan ≡ self.old.plan }
        ensures told { (limits : TheLimits) (trace rest : Lines) → StandsSoFar (state_of M.Stands self.old) limits trace rest
            → OnOk result (TellsWalk (state_of M.Stands self.old) (state_of M.Stands self.new) limits trace rest rank reach) }
        ensures far { OnOk result (ComesFar reach self.old.made self.new.made ((M.Has self.new.machine).next rank)) }
        // (The machine also makes the steps of the declaration, which aren't counted.)
        ensures counts { self.old.waits ≡ self.new.waits
            → OnOk result (CountsOn (M.Has self.old.machine) (M.Has self.new.machine) self.old.made self.new.made) }
    {
        if !self.waits {
            let made = self.machine.steps(rank, reach, &mut self.teller)?;
            self.made = count_up(self.made, made);
            return Ok(());
        }
        let left = self.plan.at.saturating_sub(self.made);
        let first = self
            .machine
            .steps(rank, cut_to(reach, left), &mut self.teller)?;
        self.made = count_up(self.made, first);
        if !self.declare()? {
            return Ok(());
        }
        let rest = self
            .machine
            .steps(rank, cut_behind(reach, first), &mut self.teller)?;
        self.made = count_up(self.made, rest);
        Ok(())
    }

    /// Runs a line.
    fn take(&mut self, step: &StepLine<FlagAnd>) -> Result<Taken, AllocError>
        requires { IsSpelledStep step.now }
        ensures plan { self.new.plan ≡ self.old.plan }
        ensures told { (limits : TheLimits) (trace rest : Lines) → RestsAt (state_of M.Stands self.old) limits trace rest
            → IfOk result (λ taken. TakesStepLine (state_of M.Stands self.old) (state_of M.Stands self.new) limits trace rest step.now taken) }
        ensures far { OnOk result (ComesAsSaid (M.Has self.new.machine) self.old.made self.new.made step.now) }
        ensures counts { self.old.waits ≡ self.new.waits
            → OnOk result (CountsAsSaid (M.Has self.old.machine) (M.Has self.new.machine) self.old.made self.new.made step.now) }
    {
        match *step {
            StepLine::Stepped { rank, count } => {
                let most = Some(count as u32);
                self.walk(rank, Reach { most, name: None })?;
            }
            StepLine::Before { rank, name } => {
                let name = Some(name);
                self.walk(rank, Reach { most: None, name })?;
            }
            StepLine::Finished { rank } => {
                let name = None;
                self.walk(rank, Reach { most: None, name })?;
            }
            StepLine::Called { .. } => return self.machine.run(step, &mut self.teller),
            StepLine::Failed { .. } => return self.machine.run(step, &mut self.teller),
        }
        Ok(Taken::Run)
    }
}

impl<M: StepMachine<A>, A: Allocator + Copy> Interpreter<A> for FailingLines<M, A> {
    type Plan = Failing;

    ghost lang = { failing_scripts };

    ghost HasRun = { λ plan it heading lines out. HasFailed plan (state_of M.Stands it) heading.limits lines out };

    ghost text = { λ it. it.teller.text.items };

    fn heading(line: &[u8]) -> Result<Heading, LineKind> {
        read_heading(HeaderKind::Steps, line)
    }

    fn open(alloc: A, heading: Heading, plan: Failing) -> Result<Self, AllocError> {
        let teller = tell_header(alloc, heading.limits)?;
        let machine = M::open(alloc, heading.limits)?;
        let mut lines = FailingLines {
            machine,
            teller,
            plan,
            made: 0,
            waits: true,
        };
        lines.declare()?;
        Ok(lines)
    }

    fn run(&mut self, line: &[u8]) -> Result<Result<(), LineKind>, AllocError> {
        match read_step_line(line) {
            Ok(step) => {
                self.teller.clear();
                match self.take(&step)? {
                    Taken::Run => Ok(Ok(())),
                    Taken::Open => Ok(Err(LineKind::Open)),
                }
            }
            Err(kind) => Ok(Err(kind)),
        }
    }

    fn text(&self) -> &[u8] {
        &self.teller.text
    }

    ghost prints = { λ plan it heading lines out ran. (
      it.plan.at,
      it.plan.rank,
      it.made,
      it.plan.fits,
      fails_after ran,
    ) };
}
