//! Changes of a trace.
use std::alloc::{AllocError, Allocator};
use std::io::Write;

/// How a text is changed.
#[derive(Clone, Copy, Debug, PartialEq, Eq)]
pub enum Change {
    /// A line is left out.
    Drop,
    /// A line stands twice.
    Double,
    /// A line and the next one change places.
    Swap,
    /// A number is one more.
    More,
    /// A number is one less, where it isn't 0.
    Less,
}

/// The lines of a text, each with its newline.
fn lines_of<'a, A: Allocator>(alloc: A, text: &'a [u8]) -> Result<Vec<&'a [u8], A>, AllocError> {
    let mut lines = Vec::new(alloc);
    let mut start = 0;
    for (index, byte) in text.iter().enumerate() {
        if *byte == b'\n' && start <= index {
            lines.push(&text[start..index + 1])?;
            start = index + 1;
        }
    }
    Ok(lines)
}

/// A text of these lines whose line at this place, from 0, is changed; none where there is no such line.
fn with_line<A: Allocator + Copy>(
    alloc: A,
    lines: &[&[u8]],
    change: Change,
    place: usize,
) -> Result<Option<Vec<u8, A>>, AllocError> {
    if place >= lines.len() {
        return Ok(None);
    }
    let mut changed = Vec::new(alloc);
    let mut late: &[u8] = b"";
    for (index, line) in lines.iter().enumerate() {
        if index == place && change == Change::Drop {
            continue;
        }
        if index == place && change == Change::Swap {
            late = *line;
            continue;
        }
        changed.extend_from_slice(line)?;
        changed.extend_from_slice(late)?;
        late = b"";
        if index == place && change == Change::Double {
            changed.extend_from_slice(line)?;
        }
    }
    changed.extend_from_slice(late)?;
    Ok(Some(changed))
}

/// Whether a word is a number or a flag.
fn is_number(word: &[u8]) -> bool {
    let decimal = word.iter().all(|byte| byte.is_ascii_digit());
    let flag = word.len() == 8 && word.iter().all(|byte| byte.is_ascii_hexdigit());
    decimal || flag
}

/// The number that a word is, one more or less; a flag with its lowest bit turned.
fn write_number<A: Allocator>(
    text: &mut Vec<u8, A>,
    word: &[u8],
    change: Change,
) -> Result<(), AllocError> {
    let number = std::str::from_utf8(word)
        .ok()
        .and_then(|word| word.parse::<u32>().ok());
    match number {
        Some(number) if word.len() < 8 => {
            let other = match change {
                Change::Less => number.saturating_sub(1),
                _ => number.saturating_add(1),
            };
            write!(text, "{other}").map_err(|_| AllocError)
        }
        _ => {
            text.extend_from_slice(word)?;
            let turned = match text.pop() {
                Some(b'f') => b'e',
                Some(byte) => byte ^ 1,
                None => b'0',
            };
            text.push(turned)?;
            Ok(())
        }
    }
}

/// A text whose number at this place, counted from 0 along the text, is changed; none where there is no such number.
fn with_number<A: Allocator + Copy>(
    alloc: A,
    text: &[u8],
    change: Change,
    place: usize,
) -> Result<Option<Vec<u8, A>>, AllocError> {
    let mut changed = Vec::new(alloc);
    let mut word = Vec::new(alloc);
    let mut numbers: usize = 0;
    let mut found = false;
    for byte in text {
        if *byte != b' ' && *byte != b'\n' {
            word.push(*byte)?;
            continue;
        }
        if is_number(&word) {
            if numbers == place {
                write_number(&mut changed, &word, change)?;
                found = true;
            } else {
                changed.extend_from_slice(&word)?;
            }
            numbers = numbers.saturating_add(1);
        } else {
            changed.extend_from_slice(&word)?;
        }
        changed.push(*byte)?;
        word.clear();
    }
    if found { Ok(Some(changed)) } else { Ok(None) }
}

/// A text with one change, at the place of this number; none where it has no such place.
pub fn changed<A: Allocator + Copy>(
    alloc: A,
    text: &[u8],
    change: Change,
    place: usize,
) -> Result<Option<Vec<u8, A>>, AllocError> {
    match change {
        Change::More | Change::Less => with_number(alloc, text, change, place),
        _ => with_line(alloc, &lines_of(alloc, text)?, change, place),
    }
}
