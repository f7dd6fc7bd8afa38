//! A script of the first version, read line by line, and each line written as the second version has it.
ghost use Rattle.std.specs.Prelude.{◌≡◌, ◌++◌, ◌∷◌, [], OnOk, true};
ghost use Rattle.ulfm_filters.specs.Migrations.{Migrates, RunsMigration, migrated, migrated_line, migrated_script, migrations, stays};
ghost use Rattle.ulfm_script.specs.Spelling.{Spells};

use std::alloc::{AllocError, Allocator};
use std::io::{Read, Write};
use ulfm_laws::FlagAnd;
use ulfm_model::Call;
use ulfm_model::call::MOST_FAILURES;
use ulfm_script::{
    HeaderKind, Heading, Interpreter, LineKind, RunFault, Version, end_of, print_header,
    print_spelled_call, read_call, read_heading, run_text,
};

/// The bytes of most lines.
const ROOM: usize = 64;

/// Writes the script that the reader gives, which is of the first version, as one of the second, and flushes the writer.
///
/// The header's version becomes 2; a flag of eight digits gets eight zeros in front; `ack R C N` with an N of 1,024 or more becomes
/// `failure_ack R C`, the acknowledgement of all failures of the interface of 2013. Every other line stays as it is. What is written
/// gives the replies of what was read.
///
/// A fault is that of a run of the script ([`ulfm_script::run_script`]), but that a header of the second version is `Header`; exactly what comes
/// of the lines before was written then. It reads and writes in pieces of 8 KB, and takes no more memory for a longer script.
///
/// Over `ulfm 1 2 1 4`, `ack 0 0 1024`, `agree 0 0 0000000f` it writes `ulfm 2 2 1 4`, `failure_ack 0 0`, `agree 0 0 000000000000000f`.
pub fn migrate<A: Allocator + Copy, R: Read, W: Write>(
    alloc: A,
    reader: &mut R,
    writer: &mut W,
) -> Result<(), RunFault>
    ensures ends { RunsMigration (R.remaining reader.old) (R.remaining reader.new) (W.contents writer.old) (W.contents writer.new) result }
    ensures migrates { OnOk result (Migrates (R.remaining reader.old) (W.contents writer.old) (W.contents writer.new)) }
{
    end_of(run_text::<MigratedLines<A>, A, R, W>(alloc, (), reader, writer))
}

/// The call of a script of the second version that stands for this one: an acknowledgement of 1,024 failures or more is one of all.
pub fn migrated(call: &Call<FlagAnd>) -> Call<FlagAnd>
    ensures { result ≡ migrated call.now }
{
    match *call {
        Call::Ack { rank, comm, count } if count >= MOST_FAILURES => Call::FailureAck {
            rank,
            comm,
        },
        other => other,
    }
}

/// Whether each line that asks for this call stays as it is.
fn stays(call: &Call<FlagAnd>) -> bool
    ensures { result ≡ stays call.now }
{
    match *call {
        Call::Ack { count, .. } => count < MOST_FAILURES,
        Call::Agree { .. } => false,
        _ => true,
    }
}

/// Appends the line of the second version for this call, which this line of the first asks for, without a newline.
fn print_migrated<A: Allocator>(
    text: &mut Vec<u8, A>,
    line: &[u8],
    call: &Call<FlagAnd>,
) -> Result<(), AllocError>
    requires { Spells line.now call.now }
    ensures { OnOk result (text.new.items ≡ text.old.items ++ migrated_line call.now) }
{
    if stays(call) {
        return text.extend_from_slice(line);
    }
    print_spelled_call(text, &migrated(call), true)
}

/// The line that was migrated last.
#[derive(Drop)]
struct MigratedLines<A: Allocator> {
    text: Vec<u8, A>,
}

impl<A: Allocator + Copy> Interpreter<A> for MigratedLines<A> {
    type Plan = ();

    ghost lang = { migrations };

    ghost HasRun = { λ plan it heading calls out. out ≡ migrated_script heading.limits calls };

    ghost text = { λ it. it.text.items };

    fn heading(line: &[u8]) -> Result<Heading, LineKind> {
        read_heading(HeaderKind::Calls(Version::First), line)
    }

    fn open(alloc: A, heading: Heading, _plan: ()) -> Result<Self, AllocError> {
        let mut text = Vec::with_capacity(alloc, ROOM)?;
        print_header(
            &mut text,
            HeaderKind::Calls(Version::Second),
            heading.limits,
        )?;
        text.push(b'\n')?;
        Ok(MigratedLines { text })
    }

    fn run(&mut self, line: &[u8]) -> Result<Result<(), LineKind>, AllocError> {
        match read_call(line) {
            Ok(call) => {
                self.text.clear();
                print_migrated(&mut self.text, line, &call)?;
                self.text.push(b'\n')?;
                Ok(Ok(()))
            }
            Err(kind) => Ok(Err(kind)),
        }
    }

    fn text(&self) -> &[u8] {
        &self.text
    }

    ghost prints = { λ plan it heading calls out ran. ran };
}
