//! Words, put together of texts, numbers and flags.
ghost use Rattle.std.specs.Prelude.{◌≡◌, ◌++◌, OnOk, flat_map};
ghost use Rattle.std.specs.Fmt.{decimal};
ghost use Rattle.ulfm_draw.specs.Words.{Appends, lane_text, part_text};

use itoa::Buffer;
use std::alloc::{AllocError, Allocator};
use ulfm_laws::FlagAnd;
use ulfm_script::print_flag;

/// A part of what is said.
#[derive(Clone, Copy, PartialEq, Eq)]
pub enum Part<'a> {
    Text(&'a [u8]),
    Number(u32),
    Flag(FlagAnd),
}

/// Appends these parts. After an error a beginning of them may be there.
#[tactic(auto, using(crate::proofs::Appending::appends_by))]
pub fn say<A: Allocator>(words: &mut Vec<u8, A>, parts: &[Part<'_>]) -> Result<(), AllocError>
    ensures told { OnOk result (words.new.items ≡ words.old.items ++ flat_map part_text parts.now) }
    ensures appends { OnOk result (Appends words.old.items words.new.items) }
{
    for part in parts {
        say_part(words, *part)?;
    }
    Ok(())
}

/// Appends a part.
fn say_part<A: Allocator>(words: &mut Vec<u8, A>, part: Part<'_>) -> Result<(), AllocError>
    ensures { OnOk result (words.new.items ≡ words.old.items ++ part_text part.entry) }
{
    match part {
        Part::Text(text) => words.extend_from_slice(text),
        Part::Number(number) => say_number(words, number),
        Part::Flag(flag) => print_flag(words, flag),
    }
}

/// Appends a number in decimal.
pub fn say_number<A: Allocator>(words: &mut Vec<u8, A>, number: u32) -> Result<(), AllocError>
    ensures { OnOk result (words.new.items ≡ words.old.items ++ decimal number) }
{
    let mut buffer = Buffer::new();
    words.extend_from_slice(buffer.format(number).as_bytes())
}

/// Appends whose lane it is: `the outside`, or `rank 3`.
#[tactic(auto, using(crate::proofs::Appending::appends_by))]
pub fn say_lane<A: Allocator>(words: &mut Vec<u8, A>, lane: u16) -> Result<(), AllocError>
    ensures told { OnOk result (words.new.items ≡ words.old.items ++ lane_text lane) }
    ensures appends { OnOk result (Appends words.old.items words.new.items) }
{
    if lane == 0 {
        return say(words, &[Part::Text(b"the outside")]);
    }
    say(
        words,
        &[Part::Text(b"rank "), Part::Number(u32::from(lane - 1))],
    )
}
