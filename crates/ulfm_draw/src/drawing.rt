//! A trace read, judged and drawn.
ghost use Rattle.std.specs.Prelude.{IfOk};
ghost use Rattle.ulfm_draw.specs.Drawings.{DrawsText, IsDrawn};
ghost use Rattle.ulfm_story.specs.Judged.{IsVerdict};

use crate::cells::draw_text;
use crate::picture::draw_picture;
use crate::sheet::Looks;
use std::alloc::Allocator;
use std::io::Read;
use ulfm_script::RunFault;
use ulfm_story::{JudgedText, MOST_LINES, read_judged};
use ulfm_trace::Verdict;

/// How a trace is drawn.
#[derive(Clone, Copy, Debug, PartialEq, Eq)]
pub enum Form {
    /// A picture for a browser.
    Picture,
    /// Rows for a terminal.
    Text(Looks),
}

/// A trace, drawn.
#[derive(Drop)]
pub struct Drawn<A: Allocator> {
    /// The bytes of the picture or of the rows.
    pub shown: Vec<u8, A>,
    /// What the judge says of the trace.
    pub verdict: Verdict,
}

/// Draws the trace that the reader gives: up to its bad line, if it is illegal.
///
/// At most 20,000 lines are drawn. A trace that is legal so far and goes on is the fault `Lines` in line 20,001. Want
/// of memory and an error of the reader are faults too.
///
/// ```
/// let mut trace = b"ulfm-trace 1 1 1 2\nevent - fail 0\n".as_slice();
/// let drawn = draw(alloc, &mut trace, Form::Text(Looks::Ascii))?;
/// assert!(rt; drawn.verdict == Verdict::Legal);
/// assert!(rt; drawn.shown.ends_with(b"\nlegal\n"));
/// ```
pub fn draw<A: Allocator + Copy + Drop, R: Read>(
    alloc: A,
    reader: &mut R,
    form: Form,
) -> Result<Drawn<A>, RunFault>
    ensures { IfOk result (λ drawn. DrawsText (R.remaining reader.old) form drawn.verdict drawn.shown.items) }
{
    let JudgedText { text, verdict } = read_judged(alloc, reader, MOST_LINES)?;
    let shown = draw_form(alloc, &text, verdict, form)?;
    Ok(Drawn { shown, verdict })
}

/// Draws a text with this verdict.
fn draw_form<A: Allocator + Copy + Drop>(
    alloc: A,
    text: &[u8],
    verdict: Verdict,
    form: Form,
) -> Result<Vec<u8, A>, RunFault>
    requires { IsVerdict text.now verdict }
    ensures { IfOk result (λ shown. IsDrawn form text.now verdict shown.items) }
{
    match form {
        Form::Picture => Ok(draw_picture(alloc, text, verdict)?),
        Form::Text(looks) => Ok(draw_text(alloc, text, verdict, looks)?),
    }
}
