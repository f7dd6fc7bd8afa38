//! The text of a script of steps.
use std::alloc::{AllocError, Allocator};
use ulfm_laws::FlagAnd;
use ulfm_lines::step_word;
use ulfm_model::{Limits, StepLine};
use ulfm_script::{HeaderKind, print_header, print_number, print_spelled_call};

/// A word, and the number of a rank.
fn print_rank<A: Allocator>(
    text: &mut Vec<u8, A>,
    word: &[u8],
    rank: u16,
) -> Result<(), AllocError> {
    text.extend_from_slice(word)?;
    print_number(text, rank)
}

/// A line of a script, with its newline.
fn print_step<A: Allocator>(
    text: &mut Vec<u8, A>,
    line: &StepLine<FlagAnd>,
) -> Result<(), AllocError> {
    match *line {
        StepLine::Called { call, padded } => {
            text.extend_from_slice(b"call ")?;
            print_spelled_call(text, &call, padded)?;
        }
        StepLine::Stepped { rank, count } => {
            print_rank(text, b"step ", rank)?;
            print_rank(text, b" ", count)?;
        }
        StepLine::Before { rank, name } => {
            print_rank(text, b"before ", rank)?;
            text.push(b' ')?;
            text.extend_from_slice(step_word(name))?;
        }
        StepLine::Finished { rank } => print_rank(text, b"finish ", rank)?,
        StepLine::Failed { rank } => print_rank(text, b"fail ", rank)?,
    }
    text.push(b'\n')?;
    Ok(())
}

/// The text of a script of these lines.
pub(crate) fn script_text<A: Allocator + Copy>(
    alloc: A,
    limits: Limits,
    lines: &[StepLine<FlagAnd>],
) -> Result<Vec<u8, A>, AllocError> {
    let mut text = Vec::new(alloc);
    print_header(&mut text, HeaderKind::Steps, limits)?;
    text.push(b'\n')?;
    for line in lines {
        print_step(&mut text, line)?;
    }
    Ok(text)
}
