//! The text of a trace: read as far as it is asked for, and taken apart in lines.
ghost use Rattle.std.specs.Prelude.{◌≡◌, ◌++◌, ◌∷◌, IfOk, MatchOption, true, false};
ghost use Rattle.ulfm_script.specs.Buffers.{HasNoNewline, pending, unread};
ghost use Rattle.ulfm_story.specs.Texts.{BeginsText, BeginsUnread};

use std::alloc::Allocator;
use std::io::Read;
use ulfm_lines::trace_line::LONGEST;
use ulfm_script::{Input, LineEnd, RunFault};

/// The most lines of a trace that a picture has.
pub const MOST_LINES: u32 = 20_000;

/// The beginning of a reader's text, as far as it was asked for.
#[derive(Drop)]
pub struct Beginning<A: Allocator> {
    /// At most so many lines, where one that is longer than 8,192 bytes is the last, of which 8,193 bytes are kept.
    pub text: Vec<u8, A>,
    /// Whether that is the whole text.
    pub is_whole: bool,
}

/// Reads so many lines of a text: at most one line behind the last of them and behind one that is too long, and 8 KB
/// ahead.
///
/// Of three lines it gives all, and `is_whole`, where at least three are asked for. Memory is taken for what is kept,
/// for 8 KB of the reader's bytes and for one line.
pub fn read_lines<A: Allocator + Copy, R: Read>(
    alloc: A,
    reader: &mut R,
    most: u32,
) -> Result<Beginning<A>, RunFault>
    ensures { IfOk result (λ begun. BeginsText (R.remaining reader.old) begun.is_whole begun.text.items) }
{
    let mut input = Input::new(alloc)?;
    read_through(alloc, &mut input, reader, most)
}

/// Reads a text as [`read_lines`] does, through a buffer.
fn read_through<A: Allocator + Copy, R: Read>(
    alloc: A,
    input: &mut Input<A>,
    reader: &mut R,
    most: u32,
) -> Result<Beginning<A>, RunFault>
    ensures { IfOk result (λ begun. BeginsUnread (unread R.remaining input.old reader.old)
        begun.is_whole begun.text.items) }
{
    let mut text = Vec::new(alloc);
    let mut line = Vec::with_capacity(alloc, LONGEST + 1)?;
    'lines: for _ in 0..most {
        match input.read_line(reader, &mut line, LONGEST + 1)? {
            LineEnd::Done => return Ok(whole(text)),
            LineEnd::Cut => {
                text.extend_from_slice(&line)?;
                let is_whole = line.len() <= LONGEST;
                return Ok(Beginning { text, is_whole });
            }
            LineEnd::Newline => {
                text.extend_from_slice(&line)?;
                if line.len() > LONGEST {
                    return Ok(part(text));
                }
            }
        }
        text.extend_from_slice(b"\n")?;
    }
    match input.read_line(reader, &mut line, LONGEST + 1)? {
        LineEnd::Done => Ok(whole(text)),
        _ => Ok(part(text)),
    }
}

/// All of a text.
fn whole<A: Allocator>(text: Vec<u8, A>) -> Beginning<A>
    ensures whole { result.is_whole ≡ true }
    ensures text { result.text.items ≡ text.items }
{
    let is_whole = true;
    Beginning { text, is_whole }
}

/// A beginning of a text, behind which there is more.
fn part<A: Allocator>(text: Vec<u8, A>) -> Beginning<A>
    ensures part { result.is_whole ≡ false }
    ensures text { result.text.items ≡ text.items }
{
    let is_whole = false;
    Beginning { text, is_whole }
}

/// The first line of a text without its newline, and what stands behind it; none where no newline is left.
///
/// Of `look 0 1`, a newline and `look 1 1` the first line is `look 0 1`.
pub fn split_line(text: &[u8]) -> Option<(&[u8], &[u8])>
    ensures { MatchOption result (HasNoNewline text.now)
        (λ parts. HasNoNewline parts.0.now × (text.now ≡ parts.0.now ++ 10 ∷ parts.1.now)) }
{
    for (i, byte) in text.iter().enumerate() {
        if *byte == b'\n' {
            return Some((&text[..i], &text[i + 1..]));
        }
    }
    None
}
