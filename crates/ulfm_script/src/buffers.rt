//! What stands between a script's lines and the devices: a buffer over a reader, and one over a writer.
ghost use Rattle.std.specs.Prelude.{◌≡◌, ◌+◌, ◌++◌, ◌≤◌, ◌<◌, [], length, max, nat_le, IfOk, OnOk};
ghost use Rattle.std.specs.Io.KnownBytes.{Keeps};
ghost use Rattle.ulfm_script.specs.Written.{WritesAll};

use crate::fault::RunFault;
use memchr::memchr;
use std::alloc::{AllocError, Allocator};
use std::io::{Read, Write};

/// How many bytes are read at once, and how many may wait to be written.
const SIZE: usize = 8192;

/// A buffer over a reader: the bytes that were read, from `start` to `end` those that are not yet taken.
#[derive(Drop)]
pub struct Input<A: Allocator> {
    bytes: Vec<u8, A>,
    start: usize,
    end: usize,
    /// Whether the line that was taken last stands in the bytes, from `line_start` to `line_end`; if not, in its caller's vector.
    is_whole: bool,
    line_start: usize,
    line_end: usize,
    ghost ordered: { start ≤ end },
    ghost within: { end ≤ length bytes.items },
    ghost line_ordered: { line_start ≤ line_end },
    ghost line_within: { line_end ≤ length bytes.items },
    ghost room: { 0 < length bytes.items },
    ghost small: { length bytes.items ≤ 8192 },
}

/// How a line ends.
#[derive(Clone, Copy, PartialEq, Eq)]
pub enum LineEnd {
    /// With a newline, which is taken too.
    Newline,
    /// With the end of the text, inside the line.
    Cut,
    /// The text ended before; there is no further line.
    Done,
}

impl<A: Allocator> Input<A> {
    ghost use Rattle.ulfm_script.specs.Buffers.{line_of, pending, text_end, unread, Fills, KeepsFirst, TakesLine, TakesPart};

    /// Nothing is read yet. Only memory can be refused, for 8 KB.
    pub fn new(alloc: A) -> Result<Input<A>, AllocError>
        ensures { IfOk result (λ input. pending input ≡ []) }
    {
        let bytes = vec![in alloc; 0; SIZE]?;
        Ok(Input {
            bytes,
            start: 0,
            end: 0,
            is_whole: false,
            line_start: 0,
            line_end: 0,
        })
    }

    /// The bytes that were read and not yet taken, at most 8192.
    pub fn pending(&self) -> &[u8]
        ensures is { result.now ≡ pending self.now }
        ensures few { length result.now ≤ 8192 }
    {
        &self.bytes[self.start..self.end]
    }

    /// Reads where no byte is left to take. Any error of the reader is a fault, of whatever kind.
    fn fill<R: Read>(&mut self, reader: &mut R) -> Result<(), RunFault>
        ensures { Fills (unread R.remaining self.old reader.old) (unread R.remaining self.new reader.new) (pending self.new) result }
    {
        if self.start < self.end {
            return Ok(());
        }
        match reader.read(self.bytes.as_mut_slice()) {
            Ok(count) => {
                self.start = 0;
                self.end = count;
                Ok(())
            }
            Err(_) => Err(RunFault::Read),
        }
    }

    /// Puts further bytes of a line behind those that are kept of it, of which there may be so many.
    #[inline(always)]
    fn keep_first(line: &mut Vec<u8, A>, bytes: &[u8], kept: usize) -> Result<(), AllocError>
        ensures { OnOk result (KeepsFirst kept line.old.items bytes.now line.new.items) }
    {
        let room = kept.saturating_sub(line.len());
        line.extend_from_slice(&bytes[..bytes.len().min(room)])
    }

    /// Takes the pending bytes of a line, and puts as many of them behind what is kept of it as there may be: up to its newline, which is
    /// taken too, or all. Whether the newline was among them.
    #[inline(always)]
    fn take_part(&mut self, line: &mut Vec<u8, A>, kept: usize) -> Result<bool, AllocError>
        ensures { TakesPart kept (pending self.old) (pending self.new) line.old.items line.new.items result }
    {
        let rest = &self.bytes[self.start..self.end];
        match memchr(b'\n', rest) {
            Some(at) => {
                Self::keep_first(line, &rest[..at], kept)?;
                self.start += at + 1;
                Ok(true)
            }
            None => {
                Self::keep_first(line, rest, kept)?;
                self.start = self.end;
                Ok(false)
            }
        }
    }

    /// How a text ends behind what is kept of its last line.
    fn end_behind(line: &[u8]) -> LineEnd
        ensures { result ≡ text_end line.now }
    {
        if line.is_empty() {
            LineEnd::Done
        } else {
            LineEnd::Cut
        }
    }

    /// Takes a line up to its newline, and keeps as many of its first bytes as `kept` says, in place of what the vector held: one more
    /// than a line may have shows whether it is too long.
    ///
    /// A fault is `Read`, where the reader failed, or `Memory`; a part of the line was taken then.
    pub fn read_line<R: Read>(
        &mut self,
        reader: &mut R,
        line: &mut Vec<u8, A>,
        kept: usize,
    ) -> Result<LineEnd, RunFault>
        requires { 0 < kept }
        ensures { TakesLine kept (unread R.remaining self.old reader.old) (unread R.remaining self.new reader.new) (pending self.new)
            line.new.items result }
    {
        line.clear();
        // no line has as many bytes as this loop has turns
        'parts: for _ in 0..u64::MAX {
            if let Err(fault) = self.fill(reader) {
                return Err(fault);
            }
            if self.start == self.end {
                return Ok(Self::end_behind(line));
            }
            match self.take_part(line, kept) {
                Err(_) => return Err(RunFault::Memory),
                Ok(true) => return Ok(LineEnd::Newline),
                Ok(false) => {}
            }
        }
        Err(RunFault::Memory)
    }

    /// Takes a line as [`Input::read_line`] does, and copies nothing of it where it stands whole in the buffer: what is kept of it, in the buffer or in
    /// the vector, is [`Input::line`]'s.
    #[inline(always)]
    pub fn next_line<R: Read>(
        &mut self,
        reader: &mut R,
        apart: &mut Vec<u8, A>,
        kept: usize,
    ) -> Result<LineEnd, RunFault>
        requires { 0 < kept }
        ensures { TakesLine kept (unread R.remaining self.old reader.old) (unread R.remaining self.new reader.new) (pending self.new)
            (line_of self.new apart.new.items) result }
    {
        if let Some(at) = memchr(b'\n', self.pending()) {
            self.is_whole = true;
            self.line_start = self.start;
            self.line_end = self.start + at.min(kept);
            self.start += at + 1;
            return Ok(LineEnd::Newline);
        }
        let end = self.read_line(reader, apart, kept);
        self.is_whole = false;
        end
    }

    /// What is kept of the line that [`Input::next_line`] took last, given the vector that it was called with; it stays so until the next call.
    #[inline(always)]
    pub fn line<'a>(&'a self, apart: &'a [u8]) -> &'a [u8]
        ensures { result.now ≡ line_of self.now apart.now }
    {
        if self.is_whole {
            &self.bytes[self.line_start..self.line_end]
        } else {
            apart
        }
    }
}

/// The bytes that wait to be written.
#[derive(Drop)]
pub(crate) struct Output<A: Allocator> {
    bytes: Vec<u8, A>,
}

impl<A: Allocator> Output<A> {
    ghost use Rattle.ulfm_script.specs.Buffers.{waiting, Puts, Drains};

    /// Nothing waits.
    pub(crate) fn new(alloc: A) -> Result<Output<A>, AllocError>
        ensures { IfOk result (λ output. waiting output ≡ []) }
    {
        let bytes = Vec::with_capacity(alloc, SIZE)?;
        Ok(Output { bytes })
    }

    /// Whether so many more bytes may wait.
    #[inline(always)]
    fn has_room(&self, count: usize) -> bool
        ensures { result ≡ nat_le (length (waiting self.now) + count) 8192 }
    {
        let waiting = self.bytes.len();
        waiting <= SIZE && count <= SIZE - waiting
    }

    /// Puts a text behind what waits, which is written first where there is no room for both: what waits is never more than 8 KB, or than
    /// one text that is longer. It runs for each line, from two calls: the compiler leaves it out of line by itself, at thirty instructions
    /// a line.
    #[inline(always)]
    pub(crate) fn put<W: Write>(&mut self, writer: &mut W, text: &[u8]) -> Result<(), RunFault>
        ensures puts { Puts (waiting self.old) (W.contents writer.old) text.now (waiting self.new) (W.contents writer.new) result }
        ensures few { OnOk result (length (waiting self.new) ≤ max 8192 (length text.now)) }
        // Nothing is written where there is room for both.
        ensures waits { length (waiting self.old) + length text.now ≤ 8192 → Keeps (W.contents writer.old) (W.contents writer.new)
            × OnOk result (waiting self.new ≡ waiting self.old ++ text.now) }
    {
        if !self.has_room(text.len()) {
            self.drain(writer)?;
        }
        if self.bytes.extend_from_slice(text).is_err() {
            return Err(RunFault::Memory);
        }
        Ok(())
    }

    /// Writes all that waits.
    fn drain<W: Write>(&mut self, writer: &mut W) -> Result<(), RunFault>
        ensures { Drains (waiting self.old) (W.contents writer.old) (waiting self.new) (W.contents writer.new) result }
    {
        write_out(self.bytes.as_slice(), writer)?;
        self.bytes.clear();
        Ok(())
    }

    /// Writes all that waits, and flushes the writer.
    pub(crate) fn finish<W: Write>(&mut self, writer: &mut W) -> Result<(), RunFault>
        ensures { Drains (waiting self.old) (W.contents writer.old) (waiting self.new) (W.contents writer.new) result }
    {
        self.drain(writer)?;
        if writer.flush().is_err() {
            return Err(RunFault::Write);
        }
        Ok(())
    }
}

/// Writes all bytes, and doesn't flush the writer. Any error of the writer is the fault `Write`, of whatever kind, `Interrupted` too, and so
/// is a write that takes nothing; none is tried again. Only a beginning of the bytes was written then.
///
/// To a writer that takes nothing, `write_out(b"legal\n", &mut writer)` is `Err(RunFault::Write)`.
pub fn write_out<W: Write>(bytes: &[u8], writer: &mut W) -> Result<(), RunFault>
    ensures { WritesAll bytes.now (W.contents writer.old) (W.contents writer.new) result }
{
    let mut written = 0;
    while written < bytes.len() {
        match writer.write(&bytes[written..]) {
            Ok(0) => return Err(RunFault::Write),
            Ok(count) => written += count,
            Err(_) => return Err(RunFault::Write),
        }
    }
    Ok(())
}
