//! Scripts of single steps, run on anything that takes their lines.
ghost use Rattle.std.specs.Prelude.{◌≡◌, [], IfOk};
ghost use Rattle.ulfm_run.specs.StepScripts.{Traces, first_line, step_scripts};

use std::alloc::{AllocError, Allocator};
use ulfm_lines::{StepMachine, Taken, Teller, read_step_line};
use ulfm_model::Limits;
use ulfm_script::{HeaderKind, Heading, Interpreter, LineKind, print_header, read_heading};

/// A machine, and what it tells.
///
/// A script of single steps that is run on it ([`ulfm_script::run_text`]) writes a legal trace that follows it. The first line is
/// `ulfm-steps 1 RANKS COMMS ROUNDS`, the world's limits; each other line is one that [`read_step_line`] reads. The trace begins with
/// `ulfm-trace 1 RANKS COMMS ROUNDS`, and has the lines that the machine tells of each line of the script, as [`ulfm_lines::print_line`] prints
/// them. Want of memory is never printed. What is written at `Ok` and at each fault is told there too; a line has the fault `Open`, which only
/// running finds, where no line before has a fault, and it begins a call of a rank that has one under way in the trace so far.
#[derive(Drop)]
pub struct StepLines<M, A: Allocator> {
    machine: M,
    teller: Teller<A>,
}

impl<M: StepMachine<A>, A: Allocator + Copy> Interpreter<A> for StepLines<M, A> {
    type Plan = ();

    ghost lang = { step_scripts };

    ghost HasRun = { λ plan it heading lines out. Traces (M.Stands it.machine) heading.limits lines out };

    ghost text = { λ it. it.teller.text.items };

    fn heading(line: &[u8]) -> Result<Heading, LineKind> {
        read_heading(HeaderKind::Steps, line)
    }

    fn open(alloc: A, heading: Heading, _plan: ()) -> Result<Self, AllocError> {
        let teller = tell_header(alloc, heading.limits)?;
        let machine = M::open(alloc, heading.limits)?;
        Ok(StepLines { machine, teller })
    }

    fn run(&mut self, line: &[u8]) -> Result<Result<(), LineKind>, AllocError> {
        match read_step_line(line) {
            Ok(step) => {
                self.teller.clear();
                match self.machine.run(&step, &mut self.teller)? {
                    Taken::Run => Ok(Ok(())),
                    Taken::Open => Ok(Err(LineKind::Open)),
                }
            }
            Err(kind) => Ok(Err(kind)),
        }
    }

    fn text(&self) -> &[u8] {
        &self.teller.text
    }

    ghost prints = { λ plan it heading lines out ran. (ran.0, ran.1, ran.2, ran.4) };
}

/// A teller that has told the trace's first line.
pub(crate) fn tell_header<A: Allocator + Copy>(
    alloc: A,
    limits: Limits,
) -> Result<Teller<A>, AllocError>
    ensures { IfOk result (λ teller. teller.text.items ≡ first_line limits) }
{
    let mut teller = Teller::new(alloc);
    print_header(&mut teller.text, HeaderKind::Trace, limits)?;
    teller.text.push(b'\n')?;
    Ok(teller)
}
