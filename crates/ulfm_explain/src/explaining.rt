//! A trace read, judged and explained.
ghost use Rattle.std.specs.Prelude.{IfOk, OnOk};
ghost use Rattle.ulfm_explain.specs.Explained.{ExplainsText, IsExplained};
ghost use Rattle.ulfm_explain.specs.Sheets.{TellsBad};

use crate::account::{Account, account_of};
use crate::offers::{first_lines, put_offers};
use crate::sheet::put_notes;
use std::alloc::Allocator;
use std::io::Read;
use ulfm_script::RunFault;
use ulfm_story::{JudgedText, read_judged};
use ulfm_trace::{Verdict, verdict_line};

/// The most lines that are read: one more than a trace may have.
const MOST_LINES: u32 = 5_000_001;

/// A trace, explained.
#[derive(Drop)]
pub struct Explained<A: Allocator> {
    /// The verdict's line, and behind it, where the trace is illegal, lines that would have been legal in the bad one's place, and notes.
    pub shown: Vec<u8, A>,
    /// What the judge says of the trace.
    pub verdict: Verdict,
}

/// Judges the trace that the reader gives, and explains why it is illegal, if it is.
///
/// The first line that is shown is the verdict's. Behind it each line `legal: X` gives a line X that makes a legal trace in the place of the bad
/// one; there are at most four, and none may be known. Then come notes, each behind two spaces. Want of memory and an error of the reader are
/// faults. The trace is kept in memory, and read up to one line more than a trace may have, or up to a line that is longer than one may be.
///
/// ```
/// let mut trace = b"ulfm-trace 1 1 1 2\nevent - fail 0\nevent - fail 0\n".as_slice();
/// let told = explain(alloc, &mut trace)?;
/// assert!(rt; told.shown.starts_with(b"illegal line 3 event\n"));
/// ```
pub fn explain<A: Allocator + Copy + Drop, R: Read>(
    alloc: A,
    reader: &mut R,
) -> Result<Explained<A>, RunFault>
    ensures { IfOk result (λ told. ExplainsText (R.remaining reader.old) told.verdict told.shown.items) }
{
    let JudgedText { text, verdict } = read_judged(alloc, reader, MOST_LINES)?;
    let shown = explain_text(alloc, &text, verdict)?;
    Ok(Explained { shown, verdict })
}

/// What is told of a text with this verdict.
fn explain_text<A: Allocator + Copy + Drop>(
    alloc: A,
    text: &[u8],
    verdict: Verdict,
) -> Result<Vec<u8, A>, RunFault>
    ensures { IfOk result (λ shown. IsExplained text.now verdict shown.items) }
{
    let mut shown = verdict_line(alloc, verdict)?;
    match verdict {
        Verdict::Legal => Ok(shown),
        Verdict::Illegal { line, why } => {
            let before = first_lines(text, line.saturating_sub(1));
            let account = account_of(alloc, text, before, line, why)?;
            put_account(alloc, &mut shown, before, &account)?;
            Ok(shown)
        }
    }
}

/// Offers those candidates of an account that are legal behind these lines, and puts its notes behind them.
fn put_account<A: Allocator + Copy + Drop>(
    alloc: A,
    shown: &mut Vec<u8, A>,
    before: &[u8],
    account: &Account<A>,
) -> Result<(), RunFault>
    ensures { OnOk result (TellsBad before.now shown.old.items shown.new.items) }
{
    put_offers(alloc, shown, before, &account.candidates)?;
    put_notes(shown, &account.notes)?;
    Ok(())
}
