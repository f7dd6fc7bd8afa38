//! What is printed, what is said of a fault, and the status that it gives.
ghost use Rattle.std.specs.Prelude.{◌≡◌, Err};
ghost use Rattle.ulfm_filters.specs.Notes.{TellsFault, TellsPrinted};
ghost use Rattle.ulfm_filters.specs.Statuses.{PrintsWhole, status_of};
ghost use Rattle.ulfm_script.specs.Written.{WritesPart};

use std::io::Write;
use ulfm_script::{RunFault, write_out};

/// Tells on `errors` in one line why a run stopped, and gives its status: 1 for a line's fault, else 3. Faults of `errors` are passed over.
///
/// `RunFault::Memory` is told as `ulfm: out of memory`, with a newline, and gives 3.
pub fn tell_fault<E: Write>(fault: RunFault, errors: &mut E) -> u8
    ensures status { result ≡ status_of (Err fault) }
    ensures told { TellsFault fault (E.contents errors.old) (E.contents errors.new) }
{
    match fault {
        RunFault::Line { .. } => {
            let _ = writeln!(errors, "ulfm: {fault}");
            return 1;
        }
        RunFault::Memory => tell(b"ulfm: out of memory\n", errors),
        RunFault::Read => tell(b"ulfm: read failed\n", errors),
        RunFault::Write => tell(b"ulfm: write failed\n", errors),
    }
    3
}

/// Tells a note, as `b"ulfm: held\n"`. Faults of `errors` are passed over: a beginning of the note was written then.
#[tactic(auto, using(crate::proofs::Ends::told))]
pub fn tell<E: Write>(note: &[u8], errors: &mut E)
    ensures { WritesPart (E.contents errors.old) (E.contents errors.new) note.now }
{
    let _ = write_out(note, errors);
}

/// Prints a text, and gives 0 where all of it was written and flushed. Else it gives 3, and `ulfm: write failed` is told on `errors`. Every
/// error of the output is a fault, of whatever kind; none is tried again.
#[tactic(auto, using(crate::proofs::Ends::told, crate::proofs::Ends::part_kept, ulfm_script::proofs::ByteLemmas::appends_keeps))]
pub fn print_text<W: Write, E: Write>(text: &[u8], output: &mut W, errors: &mut E) -> u8
    ensures prints { PrintsWhole text.now (W.contents output.old) (W.contents output.new) result }
    ensures told { TellsPrinted result (E.contents errors.old) (E.contents errors.new) }
{
    if write_out(text, output).is_err() || output.flush().is_err() {
        return tell_fault(RunFault::Write, errors);
    }
    0
}
