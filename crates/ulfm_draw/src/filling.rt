//! Texts with marks, filled in: whatever is put there, they are read as before.
ghost use Rattle.std.specs.Prelude.{◌≡◌, ◌+◌, ◌<◌, ◌++◌, ◌==◌, OnOk, if◌then◌else◌, map};
ghost use Rattle.std.specs.Fmt.{decimal};
ghost use Rattle.ulfm_draw.specs.Markup.{Follows, Place, filled, is_plain, mark_filled, plain_of, scan, step};

use itoa::Buffer;
use std::alloc::{AllocError, Allocator};

/// What is put into a text with marks.
#[derive(Clone, Copy)]
pub(crate) struct Filling<'a> {
    /// For each `@`.
    pub(crate) class: &'a [u8],
    /// For one `#` after another; where there are too few, 0.
    pub(crate) numbers: &'a [u32],
    /// For each `$`.
    pub(crate) words: &'a [u8],
}

/// Appends a text, with its marks filled in. A byte of a class or of words that doesn't stand for itself becomes a question mark.
pub(crate) fn fill<A: Allocator>(
    text: &mut Vec<u8, A>,
    template: &[u8],
    filling: &Filling<'_>,
) -> Result<(), AllocError>
    ensures reads { OnOk result
        ((place : Place) → Follows (scan place text.new.items) (scan (scan place text.old.items) template.now)) }
    ensures filled { OnOk result (text.new.items ≡ text.old.items
        ++ filled filling.now.class.now filling.now.numbers.now filling.now.words.now template.now) }
{
    let mut next = 0;
    for byte in template {
        put_byte(text, *byte, filling, &mut next)?;
    }
    Ok(())
}

/// Appends a byte of a text with marks, or what is put in its place where it is a mark; `next` numbers were put before.
#[tactic(auto, using(crate::proofs::Reading::byte_put, crate::proofs::Reading::class_put, crate::proofs::Reading::words_put))]
fn put_byte<A: Allocator>(
    text: &mut Vec<u8, A>,
    byte: u8,
    filling: &Filling<'_>,
    next: &mut usize,
) -> Result<(), AllocError>
    requires { next.old < usize.MAX }
    ensures reads { OnOk result
        ((place : Place) → Follows (scan place text.new.items) (step (scan place text.old.items) byte)) }
    ensures filled { OnOk result (text.new.items ≡ text.old.items
        ++ mark_filled filling.now.class.now filling.now.numbers.now filling.now.words.now next.old byte) }
    ensures next { next.new ≡ (if byte == 35 then next.old + 1 else next.old) }
{
    match byte {
        b'@' => put_words(text, filling.class),
        b'$' => put_words(text, filling.words),
        b'#' => {
            let number = filling.numbers.get(*next).copied().unwrap_or(0);
            *next += 1;
            put_number(text, number)
        }
        other => {
            text.push(other)?;
            Ok(())
        }
    }
}

/// Appends a number in decimal.
#[tactic(auto, using(crate::proofs::Reading::number_put))]
fn put_number<A: Allocator>(text: &mut Vec<u8, A>, number: u32) -> Result<(), AllocError>
    ensures reads { OnOk result
        ((place : Place) → Follows (scan place text.new.items) (step (scan place text.old.items) 35)) }
    ensures filled { OnOk result (text.new.items ≡ text.old.items ++ map plain_of (decimal number)) }
{
    let mut buffer = Buffer::new();
    put_words(text, buffer.format(number).as_bytes())
}

/// Appends words, each byte as it may stand there.
pub(crate) fn put_words<A: Allocator>(text: &mut Vec<u8, A>, words: &[u8]) -> Result<(), AllocError>
    ensures { OnOk result (text.new.items ≡ text.old.items ++ map plain_of words.now) }
{
    text.extend(words.iter().map(|byte| plain(*byte)))
}

/// A byte where it stands for itself in a text and in a value, and else a question mark.
fn plain(byte: u8) -> u8
    ensures { result ≡ plain_of byte }
{
    if is_plain(byte) { byte } else { b'?' }
}

/// Whether a byte stands for itself in a text and in a value.
fn is_plain(byte: u8) -> bool
    ensures { result ≡ is_plain byte }
{
    let is_shown = (b' ' <= byte && byte <= b'~') || byte == b'\n';
    let is_reserved = byte == b'<' || byte == b'>' || byte == b'&';
    is_shown && !(byte == b'"' || is_reserved)
}
