//! Notes in words and numbers.
use std::alloc::{AllocError, Allocator};
use ulfm_laws::FlagAnd;
use ulfm_model::Line;
use ulfm_model::event::Caller;
use ulfm_script::{LastGroup, print_number, print_point};

/// A piece of a note.
#[derive(Clone, Copy)]
pub(crate) enum Part {
    /// Words as they stand.
    Words(&'static [u8]),
    /// A number in decimal.
    Number(u32),
    /// A caller, as `rank 2` or `the outside`.
    By(Caller),
}

/// Ranks, each behind a space, or ` nobody`.
pub(crate) fn put_ranks<A: Allocator>(
    text: &mut Vec<u8, A>,
    group: &[u16],
) -> Result<(), AllocError> {
    if group.is_empty() {
        return text.extend_from_slice(b" nobody");
    }
    for rank in group {
        text.push(b' ')?;
        print_number(text, *rank)?;
    }
    Ok(())
}

/// A caller.
fn put_by<A: Allocator>(text: &mut Vec<u8, A>, by: Caller) -> Result<(), AllocError> {
    match by {
        Caller::Outside => text.extend_from_slice(b"the outside"),
        Caller::Rank(rank) => {
            text.extend_from_slice(b"rank ")?;
            print_number(text, rank)
        }
    }
}

/// A piece of a note.
fn put_part<A: Allocator>(text: &mut Vec<u8, A>, part: &Part) -> Result<(), AllocError> {
    match *part {
        Part::Words(words) => text.extend_from_slice(words),
        Part::Number(number) => print_point(text, number),
        Part::By(by) => put_by(text, by),
    }
}

/// More pieces of a note.
pub(crate) fn say_on<A: Allocator>(
    text: &mut Vec<u8, A>,
    parts: &[Part],
) -> Result<(), AllocError> {
    for part in parts {
        put_part(text, part)?;
    }
    Ok(())
}

/// A note of these pieces.
pub(crate) fn say<A: Allocator + Copy>(alloc: A, parts: &[Part]) -> Result<Vec<u8, A>, AllocError> {
    let mut text = Vec::new(alloc);
    say_on(&mut text, parts)?;
    Ok(text)
}

/// The text of a line of a trace.
pub(crate) fn line_words<A: Allocator + Copy>(
    alloc: A,
    line: &Line<FlagAnd>,
    group: &[u16],
) -> Result<Vec<u8, A>, AllocError> {
    let mut text = Vec::new(alloc);
    let mut last = LastGroup::new(alloc);
    ulfm_lines::print_line(&mut text, line, group, &mut last)?;
    Ok(text)
}
