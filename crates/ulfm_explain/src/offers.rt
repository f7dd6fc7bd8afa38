//! Lines in the place of a bad one, of which those are offered that are legal there.
ghost use Rattle.std.specs.Prelude.{◌≡◌, ◌<◌, ◌-◌, ◌==◌, ◌++◌, ◌∷◌, [], IfOk, OnOk, codes, true, if◌then◌else◌};
ghost use Rattle.ulfm_explain.specs.Sheets.{IsLegalBehind, Offers};
ghost use Rattle.ulfm_trace.specs.Texts.{first_lines};

use std::alloc::{AllocError, Allocator};
use ulfm_script::RunFault;
use ulfm_story::judge_text;
use ulfm_trace::Verdict;

/// How many lines are left behind this byte.
fn left_behind(left: u32, byte: u8) -> u32
    requires { 0 < left }
    ensures { result ≡ (if byte == 10 then left - 1 else left) }
{
    if byte == b'\n' { left - 1 } else { left }
}

/// The first so many lines of a text, with their newlines; where the text has fewer, all of it.
pub(crate) fn first_lines(text: &[u8], count: u32) -> &[u8]
    ensures { result.now ≡ first_lines count text.now }
{
    let mut left = count;
    for (i, byte) in text.iter().enumerate() {
        if left == 0 {
            return &text[..i];
        }
        left = left_behind(left, *byte);
    }
    text
}

/// A line with its newline behind others.
fn text_with<A: Allocator + Copy>(
    alloc: A,
    before: &[u8],
    line: &[u8],
) -> Result<Vec<u8, A>, AllocError>
    ensures { IfOk result (λ text. text.items ≡ before.now ++ (line.now ++ 10 ∷ [])) }
{
    let mut text = Vec::from_slice(alloc, before)?;
    text.extend_from_slice(line)?;
    text.push(b'\n')?;
    Ok(text)
}

/// Whether a line makes a legal trace behind these.
fn is_legal<A: Allocator + Copy + Drop>(
    alloc: A,
    before: &[u8],
    line: &[u8],
) -> Result<bool, RunFault>
    ensures { IfOk result (λ is. is ≡ true → IsLegalBehind before.now line.now) }
{
    let text = text_with(alloc, before, line)?;
    match judge_text(alloc, &text)? {
        Verdict::Legal => Ok(true),
        Verdict::Illegal { .. } => Ok(false),
    }
}

/// A line that is offered, behind its label.
fn put_line<A: Allocator>(shown: &mut Vec<u8, A>, line: &[u8]) -> Result<(), AllocError>
    ensures { OnOk result (shown.new.items ≡ shown.old.items ++ (codes "legal: " ++ (line.now ++ 10 ∷ []))) }
{
    shown.extend_from_slice(b"legal: ")?;
    shown.extend_from_slice(line)?;
    shown.push(b'\n')?;
    Ok(())
}

/// Offers a line, where it is legal behind these.
fn put_offer<A: Allocator + Copy + Drop>(
    alloc: A,
    shown: &mut Vec<u8, A>,
    before: &[u8],
    line: &[u8],
) -> Result<(), RunFault>
    ensures { OnOk result (Offers before.now shown.old.items shown.new.items) }
{
    let fits = is_legal(alloc, before, line)?;
    if fits {
        put_line(shown, line)?;
        return Ok(());
    }
    Ok(())
}

/// Offers those of some lines that are legal behind these.
pub(crate) fn put_offers<A: Allocator + Copy + Drop>(
    alloc: A,
    shown: &mut Vec<u8, A>,
    before: &[u8],
    lines: &[Vec<u8, A>],
) -> Result<(), RunFault>
    ensures { OnOk result (Offers before.now shown.old.items shown.new.items) }
{
    for line in lines {
        put_offer(alloc, shown, before, line)?;
    }
    Ok(())
}
