//! The text form while it is written: rows, each of which ends in a line of the trace behind a tab, and lines without
//! one.
ghost use Rattle.std.specs.Prelude.{◌≡◌, ◌++◌, ◌∷◌, [], List, ℕ, OnOk, map};
ghost use Rattle.{ulfm_draw.specs.Columns.{Gives, column_of}, ulfm_script.specs.Buffers.{HasNoNewline}};

use std::alloc::{AllocError, Allocator};

/// How a text form looks.
#[derive(Clone, Copy, Debug, PartialEq, Eq)]
pub enum Looks {
    /// In ASCII alone.
    Ascii,
    /// With box characters.
    Boxes,
    /// With box characters and colour.
    Colours,
}

/// Puts a row: its columns, a tab, and a line of the trace.
#[tactic(auto, using(crate::proofs::Rows::row_put))]
pub(crate) fn put_row<A: Allocator>(
    sheet: &mut Vec<u8, A>,
    columns: &[u8],
    line: &[u8],
) -> Result<(), AllocError>
    requires { HasNoNewline line.now }
    ensures { OnOk result ((given : List ℕ) → Gives sheet.old.items given
        → Gives sheet.new.items (given ++ (line.now ++ 10 ∷ []))) }
{
    put_columns(sheet, columns)?;
    sheet.extend_from_slice(b"\t")?;
    sheet.extend_from_slice(line)?;
    sheet.extend_from_slice(b"\n")
}

/// Puts a line of words, which is none of the trace.
#[tactic(auto, using(crate::proofs::Rows::words_put))]
pub(crate) fn put_words<A: Allocator>(
    sheet: &mut Vec<u8, A>,
    words: &[u8],
) -> Result<(), AllocError>
    ensures { OnOk result ((given : List ℕ) → Gives sheet.old.items given → Gives sheet.new.items given) }
{
    put_columns(sheet, words)?;
    sheet.extend_from_slice(b"\n")
}

/// Puts columns or words; a tab or a newline among them becomes a question mark.
fn put_columns<A: Allocator>(sheet: &mut Vec<u8, A>, columns: &[u8]) -> Result<(), AllocError>
    ensures { OnOk result (sheet.new.items ≡ sheet.old.items ++ map column_of columns.now) }
{
    sheet.extend(columns.iter().map(|byte| column(*byte)))
}

/// A byte of a column.
fn column(byte: u8) -> u8
    ensures { result ≡ column_of byte }
{
    if byte == b'\t' || byte == b'\n' {
        b'?'
    } else {
        byte
    }
}
