//! Notes, each on a line of its own behind two spaces.
ghost use Rattle.std.specs.Prelude.{◌≡◌, ◌++◌, ◌∷◌, OnOk, codes, map};
ghost use Rattle.ulfm_explain.specs.Sheets.{Notes, notes_text, shown_byte};

use std::alloc::{AllocError, Allocator};

/// A byte of a note: a question mark in place of what isn't a printed character of ASCII or a space.
fn shown_byte(byte: u8) -> u8
    ensures { result ≡ shown_byte byte }
{
    if 32 <= byte && byte <= 126 {
        byte
    } else {
        b'?'
    }
}

/// A text as a note shows it.
fn put_bytes<A: Allocator>(shown: &mut Vec<u8, A>, text: &[u8]) -> Result<(), AllocError>
    ensures { OnOk result (shown.new.items ≡ shown.old.items ++ map shown_byte text.now) }
{
    for byte in text {
        shown.push(shown_byte(*byte))?;
    }
    Ok(())
}

/// A note.
fn put_note<A: Allocator>(shown: &mut Vec<u8, A>, note: &[u8]) -> Result<(), AllocError>
    ensures { OnOk result (Notes shown.old.items shown.new.items) }
{
    shown.extend_from_slice(b"  ")?;
    put_bytes(shown, note)?;
    shown.push(b'\n')?;
    Ok(())
}

/// Notes, one behind another.
pub(crate) fn put_notes<A: Allocator>(
    shown: &mut Vec<u8, A>,
    notes: &[Vec<u8, A>],
) -> Result<(), AllocError>
    ensures { OnOk result (Notes shown.old.items shown.new.items) }
{
    for note in notes {
        put_note(shown, note)?;
    }
    Ok(())
}
