//! The line that a verdict is printed as.
ghost use Rattle.std.specs.Prelude.{◌≡◌, ◌++◌, IfOk};
ghost use Rattle.ulfm_trace.specs.Verdicts.{verdict_text, why_text};

use crate::verdict::Verdict;
use std::alloc::{AllocError, Allocator};
use ulfm_model::Why;
use ulfm_script::print_point;

/// The line of a verdict, with its newline: `legal`, or `illegal line N WHY`, where N is the line's number, counted from 1, and WHY is
/// `text`, `call`, `look`, `event`, `own` or `reply`. Only memory can be refused.
pub fn verdict_line<A: Allocator>(alloc: A, verdict: Verdict) -> Result<Vec<u8, A>, AllocError>
    ensures { IfOk result (λ text. text.items ≡ verdict_text verdict) }
{
    let mut text = Vec::new(alloc);
    match verdict {
        Verdict::Legal => text.extend_from_slice(b"legal")?,
        Verdict::Illegal { line, why } => {
            text.extend_from_slice(b"illegal line ")?;
            print_point(&mut text, line)?;
            text.push(b' ')?;
            text.extend_from_slice(why_word(why))?;
        }
    }
    text.push(b'\n')?;
    Ok(text)
}

/// The word of a reason.
fn why_word(why: Why) -> &'static [u8]
    ensures { result.now ≡ why_text why }
{
    match why {
        Why::Text => b"text",
        Why::Call => b"call",
        Why::Look => b"look",
        Why::Event => b"event",
        Why::Own => b"own",
        Why::Reply => b"reply",
    }
}
