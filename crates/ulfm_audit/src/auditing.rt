//! A stored log read, its entries fed one by one, and the lines of what came of it.
ghost use Rattle.std.specs.Prelude.{◌≡◌, ◌++◌, ◌∷◌, [], IfErr, IfOk, OnOk, length};
ghost use Rattle.ulfm_model.specs.Words.{MayOpen};
ghost use Rattle.ulfm_script.specs.Ends.{IsTextOf};
ghost use Rattle.ulfm_audit.specs.Audits.{AuditsEntries, AuditsText, FailsFor, Stands, Takes, TakesPieces};
ghost use Rattle.ulfm_audit.specs.Texts.{end_text, entry_line};

use crate::decisions::print_settled;
use crate::digest::{digest_of, print_digest};
use crate::head::{HEAD_BYTES, read_head};
use std::alloc::{AllocError, Allocator};
use std::io::{ErrorKind, Read};
use thiserror::Error;
use ulfm_laws::FlagAnd;
use ulfm_lines::{print_count, print_line};
use ulfm_model::Line;
use ulfm_model::event::Entry;
use ulfm_model::limits::Limits;
use ulfm_numbers::numbers::Numbers;
use ulfm_replica::{ENTRY_BYTES, entry_of, feed};
use ulfm_script::{LastGroup, print_point};
use ulfm_words::PlainPass;

/// Why a log wasn't audited.
#[derive(Clone, Copy, Debug, PartialEq, Eq, Error)]
pub enum AuditFault {
    /// It begins with no head of a log, or no world of the head's limits may be opened.
    #[error("bad log")]
    Log,
    /// Memory was refused.
    #[error("out of memory")]
    Memory,
    /// The reader failed.
    #[error("read failed")]
    Read,
}

/// Reads the stored log of a world that the reader gives, and tells the history that it makes, in lines that end in one newline each.
///
/// Each entry that is legal behind those before has its line, as traces have it. Behind one that decides an agreement round stands what the round decided,
/// as `decided 0 0 flag 0000000f failed 1 raised`. Entries that are left out, and bytes that are none, have no line. At the end stand
/// `entries N taken M`, and `digest` with the 16 hexadecimal digits of the log's digest. A last piece of fewer than 24 bytes is no entry.
///
/// The whole log is read, and kept in memory with the lines.
///
/// ```
/// let mut log = b"ulfm log\x01\0\x01\0\x01\0\x01\0\0\0\0\0\0\0\0\0".as_slice();
/// assert!(rt; audit(alloc, &mut log)? == b"entries 0 taken 0\ndigest cbf29ce484222325\n");
/// ```
pub fn audit<A: Allocator + Copy + Drop, R: Read>(
    alloc: A,
    reader: &mut R,
) -> Result<Vec<u8, A>, AuditFault>
    ensures audits { IfOk result (λ shown. AuditsText (R.remaining reader.old) shown.items) }
    ensures fails { IfErr result (FailsFor (R.remaining reader.old)) }
{
    let log = read_all(alloc, reader)?;
    let Some((head, entries)) = log.as_slice().split_first_chunk::<HEAD_BYTES>() else {
        return Err(AuditFault::Log);
    };
    let Some(limits) = read_head(head) else {
        return Err(AuditFault::Log);
    };
    match audit_entries(alloc, limits, entries) {
        Ok(text) => Ok(text),
        Err(_) => Err(AuditFault::Memory),
    }
}

/// The reader's whole text.
fn read_all<A: Allocator, R: Read>(alloc: A, reader: &mut R) -> Result<Vec<u8, A>, AuditFault>
    ensures whole { IfOk result (λ log. IsTextOf (R.remaining reader.old) log.items) }
    ensures fails { IfErr result (FailsFor (R.remaining reader.old)) }
{
    let mut log = Vec::new(alloc);
    match reader.read_to_end(&mut log) {
        Ok(_) => Ok(log),
        Err(error) => Err(match error.kind() {
            ErrorKind::OutOfMemory => AuditFault::Memory,
            _ => AuditFault::Read,
        }),
    }
}

/// A log under audit: the words and the tables that its entries make, and the lines of what came of them.
#[derive(Drop)]
struct Auditing<A: Allocator> {
    pass: PlainPass<FlagAnd, A>,
    numbers: Numbers<FlagAnd, A>,
    text: Vec<u8, A>,
}

/// The lines of the history that these bytes behind a head make.
fn audit_entries<A: Allocator + Copy + Drop>(
    alloc: A,
    limits: Limits,
    bytes: &[u8],
) -> Result<Vec<u8, A>, AllocError>
    requires { MayOpen limits }
    ensures { IfOk result (λ shown. AuditsEntries limits bytes.now shown.items) }
{
    let pass = PlainPass::new(alloc, limits)?;
    let numbers = Numbers::new(alloc, limits.ranks)?;
    let text = Vec::new(alloc);
    let mut told = Auditing {
        pass,
        numbers,
        text,
    };
    let (pieces, cut) = bytes.as_chunks::<ENTRY_BYTES>();
    told.take_pieces(alloc, limits, pieces)?;
    let whole = &bytes[..bytes.len() - cut.len()];
    told.print_end(pieces.len(), digest_of(whole))?;
    let Auditing { text, .. } = told;
    Ok(text)
}

impl<A: Allocator + Copy + Drop> Auditing<A> {
    /// Takes pieces of a log, one by one.
    fn take_pieces(
        &mut self,
        alloc: A,
        limits: Limits,
        pieces: &[[u8; ENTRY_BYTES]],
    ) -> Result<(), AllocError>
        requires { Stands limits self.old.pass self.old.numbers }
        ensures takes { OnOk result (TakesPieces limits pieces.now self.old.pass.seen self.new.pass.seen self.old.text.items self.new.text.items) }
        ensures stands { OnOk result (Stands limits self.new.pass self.new.numbers) }
    {
        'pieces: for piece in pieces {
            self.take_piece(alloc, limits, piece)?;
        }
        Ok(())
    }

    /// Takes a piece of a log: where it is an entry's bytes, that entry.
    fn take_piece(
        &mut self,
        alloc: A,
        limits: Limits,
        piece: &[u8; ENTRY_BYTES],
    ) -> Result<(), AllocError>
        requires { Stands limits self.old.pass self.old.numbers }
        ensures takes { OnOk result (TakesPieces limits (piece.now ∷ []) self.old.pass.seen self.new.pass.seen self.old.text.items self.new.text.items) }
        ensures stands { OnOk result (Stands limits self.new.pass self.new.numbers) }
    {
        match entry_of(piece) {
            Some(entry) => self.take_entry(alloc, limits, &entry),
            None => Ok(()),
        }
    }

    /// Feeds an entry, and appends its lines where it was taken.
    fn take_entry(
        &mut self,
        alloc: A,
        limits: Limits,
        entry: &Entry<FlagAnd>,
    ) -> Result<(), AllocError>
        requires { Stands limits self.old.pass self.old.numbers }
        ensures takes { OnOk result (Takes limits (entry.now ∷ []) self.old.pass.seen self.new.pass.seen self.old.text.items self.new.text.items) }
        ensures stands { OnOk result (Stands limits self.new.pass self.new.numbers) }
    {
        if !feed(alloc, limits, &mut self.pass, &mut self.numbers, entry)? {
            return Ok(());
        }
        print_entry(alloc, &mut self.text, entry)?;
        print_settled(alloc, &mut self.text, &self.numbers, &entry.event)?;
        Ok(())
    }

    /// Appends how many entries there were, how many of them were taken, and the digest.
    fn print_end(&mut self, entries: usize, digest: u64) -> Result<(), AllocError>
        ensures { OnOk result (self.new.text.items ≡ self.old.text.items ++ end_text entries (length self.old.pass.seen) digest) }
    {
        let text = &mut self.text;
        text.extend_from_slice(b"entries ")?;
        print_count(text, entries)?;
        text.extend_from_slice(b" taken ")?;
        print_point(text, self.pass.count())?;
        text.extend_from_slice(b"\ndigest ")?;
        print_digest(text, digest)?;
        text.push(b'\n')?;
        Ok(())
    }
}

/// Appends the line of an entry, with a newline.
fn print_entry<A: Allocator + Copy>(
    alloc: A,
    text: &mut Vec<u8, A>,
    entry: &Entry<FlagAnd>,
) -> Result<(), AllocError>
    ensures { OnOk result (text.new.items ≡ text.old.items ++ entry_line entry.now) }
{
    let line = Line::Happened {
        by: entry.by,
        event: Some(entry.event),
    };
    print_line(text, &line, &[], &mut LastGroup::new(alloc))?;
    text.push(b'\n')?;
    Ok(())
}
