//! Scripts of calls, run on anything that answers its calls.
ghost use Rattle.std.specs.Prelude.{◌≡◌, ◌++◌, ℕ, List, [], OnOk};
ghost use Rattle.ulfm_model.specs.Runs.{new_state};
ghost use Rattle.ulfm_script.specs.Buffers.{pending, unread};
ghost use Rattle.ulfm_script.specs.Runs.{HasAnswered, PrintsReply, RunsBuffered, RunsThrough, call_scripts};
ghost use Rattle.ulfm_script.specs.Spelling.{IsSpelled};

use crate::buffers::Input;
use crate::calls::read_call_of;
use crate::engine::{end_of, run_text, run_text_through};
use crate::fault::RunFault;
use crate::header::read_call_heading;
use crate::heading::Heading;
use crate::interpreter::Interpreter;
use crate::last_group::LastGroup;
use crate::last_line::LastLine;
use crate::line_kind::LineKind;
use crate::machine::Machine;
use crate::version::Version;
use std::alloc::{AllocError, Allocator};
use std::io::{Read, Write};
use ulfm_laws::FlagAnd;
use ulfm_model::Call;

/// The bytes of most replies' lines, and of most with their call before them.
const ROOM: usize = 96;

/// Runs the script that the reader gives on a new machine, writes a line for each call, and flushes the writer.
///
/// The first line is `ulfm 1 RANKS COMMS ROUNDS` or `ulfm 2 ..`, the version and the world's limits; each other line is a call as
/// [`crate::read_call_of`] reads it in this version, and gives one line as [`crate::print_reply`] prints it. Want of memory is never printed as a reply.
///
/// At `Ok` the whole text was read, and exactly its output was written. At `Line` the fault is the first of the text, in the order of
/// [`crate::LineKind`] within a line, and exactly the output of the lines before was written; of what stands behind that line the
/// reader gave at most 8 KB. At `Read` exactly the output of the lines that the reader gave whole was written, and they have no fault.
/// At `Memory`, which is no reply, exactly the output of the lines before the one under work was written, and they have no fault; the
/// reader gave at most 8 KB behind what was taken of that line, and [`run_script_through`] shows which line it is. At `Write` a
/// beginning of the output was written: the writer failed, took nothing, or couldn't be flushed, also where it had to take what waited
/// at another fault. Every error of the reader or the writer is a fault, of whatever kind; none is tried again. Reader and writer have
/// buffers of 8 KB here and need none of their own.
pub fn run_script<M: Machine<A>, A: Allocator + Copy, R: Read, W: Write>(
    alloc: A,
    reader: &mut R,
    writer: &mut W,
) -> Result<(), RunFault>
    ensures { RunsBuffered (R.remaining reader.old) (R.remaining reader.new) (W.contents writer.old) (W.contents writer.new) result }
{
    end_of(run_text::<CallLines<M, A>, A, R, W>(alloc, (), reader, writer))
}

/// Runs a script as [`run_script`] does, through a buffer of the caller's. What it holds of the reader's bytes is read first.
///
/// At `Line` and at `Memory` the buffer holds what was read and not taken. What was taken are exactly the lines that were run and whose
/// output was written, and then a part of the line under work or all of it, of whose output nothing was written. At `Read` the buffer is
/// empty; after another end nothing is said of what it holds.
pub fn run_script_through<M: Machine<A>, A: Allocator + Copy, R: Read, W: Write>(
    alloc: A,
    input: &mut Input<A>,
    reader: &mut R,
    writer: &mut W,
) -> Result<(), RunFault>
    ensures { RunsThrough (unread R.remaining input.old reader.old) (R.remaining reader.new) (pending input.new)
        (W.contents writer.old) (W.contents writer.new) result }
{
    let ran = run_text_through::<CallLines<M, A>, A, R, W>(alloc, (), input, reader, writer);
    end_of(ran)
}

/// A machine, and the lines of its replies.
#[derive(Drop)]
pub struct CallLines<M, A: Allocator> {
    /// In which version a line's call is read.
    pub version: Version,
    /// What answers the calls.
    pub machine: M,
    group: Vec<u16, A>,
    last: LastGroup<A>,
    /// What was printed last.
    pub line: LastLine<A>,
}

impl<M: Machine<A>, A: Allocator> CallLines<M, A> {
    /// Answers a call by the machine, and makes the line that it prints. After an error nothing is said of the line.
    #[inline(always)]
    pub fn answer(&mut self, call: &Call<FlagAnd>) -> Result<(), AllocError>
        requires { IsSpelled call.now }
        ensures version { self.new.version ≡ self.old.version }
        ensures prints { OnOk result ((told : List ℕ) × PrintsReply (M.state self.old.machine) call.now (M.state self.new.machine) told
            × (self.new.line.text.items ≡ told)) }
    {
        let reply = self.machine.apply(call, &mut self.group)?;
        self.line.put(&reply, &self.group, &mut self.last)
    }
}

impl<M: Machine<A>, A: Allocator + Copy> Interpreter<A> for CallLines<M, A> {
    type Plan = ();

    ghost lang = { call_scripts };

    ghost HasRun = { λ plan it heading calls out. HasAnswered it.version (M.state it.machine) heading calls out };

    ghost text = { λ it. it.line.text.items };

    fn heading(line: &[u8]) -> Result<Heading, LineKind> {
        read_call_heading(line)
    }

    fn open(alloc: A, heading: Heading, _plan: ()) -> Result<Self, AllocError> {
        let text = Vec::with_capacity(alloc, ROOM)?;
        let machine = M::open(alloc, heading.limits)?;
        Ok(CallLines {
            version: heading.version,
            machine,
            group: Vec::new(alloc),
            last: LastGroup::new(alloc),
            line: LastLine::new(text),
        })
    }

    fn run(&mut self, line: &[u8]) -> Result<Result<(), LineKind>, AllocError> {
        match read_call_of(self.version, line) {
            Ok(call) => {
                self.answer(&call)?;
                Ok(Ok(()))
            }
            Err(kind) => Ok(Err(kind)),
        }
    }

    fn text(&self) -> &[u8] {
        self.line.text()
    }

    ghost prints = { λ plan it heading calls out ran. (M.state it.machine, ran.prints) };
}
