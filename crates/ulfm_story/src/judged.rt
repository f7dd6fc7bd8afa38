//! The text of a trace, read and judged.
ghost use Rattle.std.specs.Prelude.{◌≡◌, IfOk, false, true};
ghost use Rattle.ulfm_story.specs.Judged.{IsJudged, IsVerdict};
ghost use Rattle.ulfm_trace.specs.declared.verdict.Verdict.TheVariants.{Legal};

use crate::text::read_lines;
use std::alloc::Allocator;
use std::io::Read;
use ulfm_script::{LineKind, RunFault};
use ulfm_trace::{CheckFault, Verdict, check};

/// A text that was read and judged.
#[derive(Drop)]
pub struct JudgedText<A: Allocator> {
    /// The whole text where it is legal, and else a beginning of it that is illegal, or all of it.
    pub text: Vec<u8, A>,
    /// What the judge says of that.
    pub verdict: Verdict,
}

/// Reads a text as [`read_lines`](crate::read_lines) does, and judges what was read. Where it is legal so far and goes on, that is the fault
/// `Lines` in the line behind the last one that is read. Want of memory and an error of the reader are faults too.
pub fn read_judged<A: Allocator + Copy + Drop, R: Read>(
    alloc: A,
    reader: &mut R,
    most: u32,
) -> Result<JudgedText<A>, RunFault>
    ensures { IfOk result (λ judged. IsJudged (R.remaining reader.old) judged.verdict judged.text.items) }
{
    let begun = read_lines(alloc, reader, most)?;
    let verdict = judge_text(alloc, &begun.text)?;
    if goes_on(verdict, begun.is_whole) {
        return Err(RunFault::Line {
            number: most.saturating_add(1),
            kind: LineKind::Lines,
        });
    }
    let text = begun.text;
    Ok(JudgedText { text, verdict })
}

/// Whether a trace that is legal so far goes on behind what was read.
fn goes_on(verdict: Verdict, is_whole: bool) -> bool
    ensures { result ≡ false → verdict ≡ Legal → is_whole ≡ true }
{
    match verdict {
        Verdict::Legal => !is_whole,
        Verdict::Illegal { .. } => false,
    }
}

/// The verdict of a text, by the check of `ulfm_trace`.
pub fn judge_text<A: Allocator + Copy + Drop>(alloc: A, text: &[u8]) -> Result<Verdict, RunFault>
    ensures { IfOk result (IsVerdict text.now) }
{
    let mut left = text;
    match check(alloc, &mut left) {
        Ok(verdict) => Ok(verdict),
        Err(CheckFault::Memory) => Err(RunFault::Memory),
        Err(CheckFault::Read) => Err(RunFault::Read),
    }
}
