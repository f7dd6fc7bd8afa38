//! Scripts of calls, run on anything that answers its calls, with each call's own line before its reply.
ghost use Rattle.std.specs.Prelude.{◌≡◌, ℕ, List, OnOk};
ghost use Rattle.ulfm_filters.specs.Echoes.{HasEchoed, echo_scripts, echoed_line};
ghost use Rattle.ulfm_script.specs.Runs.{PrintsReply};
ghost use Rattle.ulfm_script.specs.Spelling.{IsSpelled};

use std::alloc::{AllocError, Allocator};
use ulfm_laws::FlagAnd;
use ulfm_model::Call;
use ulfm_script::{
    CallLines, Heading, Interpreter, LineKind, Machine, read_call_heading, read_call_of,
};

/// A machine, and the lines of its replies, each behind its call's own.
///
/// A script that is run on it ([`ulfm_script::run_text`]) writes a line for each call: the call's own, as the script spells it, then ` -> `, and then what
/// [`ulfm_script::run_script`] prints for it. What is written at `Ok` and at each fault is told there too: only the calls' own lines come before each reply.
///
/// Over `ulfm 1 1 1 2`, `agree 0 0 000000ff`, `poll 0 0` these are `agree 0 0 000000ff -> started` and
/// `poll 0 0 -> agreed 000000ff failed 0 clean`.
#[derive(Drop)]
pub struct EchoLines<M, A: Allocator> {
    calls: CallLines<M, A>,
    text: Vec<u8, A>,
}

impl<M: Machine<A>, A: Allocator> EchoLines<M, A> {
    /// Answers a line's call by the machine, and makes the line that it prints, with its own line before.
    fn answer(&mut self, line: &[u8], call: &Call<FlagAnd>) -> Result<(), AllocError>
        requires { IsSpelled call.now }
        ensures version { self.new.calls.version ≡ self.old.calls.version }
        ensures echoes { OnOk result ((told : List ℕ) × PrintsReply (M.state self.old.calls.machine) call.now (M.state self.new.calls.machine) told
            × (self.new.text.items ≡ echoed_line line.now told)) }
    {
        self.calls.answer(call)?;
        self.text.clear();
        self.text.extend_from_slice(line)?;
        self.text.extend_from_slice(b" -> ")?;
        self.text.extend_from_slice(self.calls.line.text())
    }
}

impl<M: Machine<A>, A: Allocator + Copy> Interpreter<A> for EchoLines<M, A> {
    type Plan = ();

    ghost lang = { echo_scripts };

    ghost HasRun = { λ plan it heading calls out. HasEchoed it.calls.version (M.state it.calls.machine) heading calls out };

    ghost text = { λ it. it.text.items };

    fn heading(line: &[u8]) -> Result<Heading, LineKind> {
        read_call_heading(line)
    }

    fn open(alloc: A, heading: Heading, _plan: ()) -> Result<Self, AllocError> {
        let calls = CallLines::open(alloc, heading, ())?;
        Ok(EchoLines {
            calls,
            text: Vec::new(alloc),
        })
    }

    fn run(&mut self, line: &[u8]) -> Result<Result<(), LineKind>, AllocError> {
        match read_call_of(self.calls.version, line) {
            Ok(call) => {
                self.answer(line, &call)?;
                Ok(Ok(()))
            }
            Err(kind) => Ok(Err(kind)),
        }
    }

    fn text(&self) -> &[u8] {
        &self.text
    }

    ghost prints = { λ plan it heading calls out ran. (ran.plain, M.state it.calls.machine, ran.echoes) };
}
