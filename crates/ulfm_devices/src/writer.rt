//! A writer for tests: it takes few bytes a call, and fails at a call of the test's choice, or at each flush.
ghost use Rattle.std.specs.Prelude.{◌≡◌, []};

use std::alloc::Global;
use std::io::{self, ErrorKind, Write};

/// How a writer fails.
#[derive(Clone, Copy, Debug, PartialEq, Eq)]
pub enum FailureMode {
    /// One call says `BrokenPipe`.
    ByError,
    /// One call says `Interrupted`, which some writers' users try again.
    ByInterruption,
    /// One call takes nothing.
    ByNothing,
    /// Each flush fails.
    AtFlush,
}

/// Takes at most so many bytes a call, and fails at one call, or at each flush.
#[derive(Drop)]
pub struct LimitedWriter {
    /// What was taken.
    pub bytes: Vec<u8>,
    /// How many bytes it takes a call at most.
    pub most: usize,
    /// How often it was written to.
    pub calls: u32,
    /// How often it was flushed.
    pub flushes: u32,
    /// The call that fails, counted from 1; none for 0.
    pub failing: u32,
    /// How it fails: by that call, or at each flush.
    pub how: FailureMode,
}

impl LimitedWriter {
    /// Nothing was taken yet.
    pub fn new(alloc: Global, most: usize, failing: u32, how: FailureMode) -> LimitedWriter
        ensures bytes { result.bytes.items ≡ [] }
        ensures most { result.most ≡ most }
        ensures calls { result.calls ≡ 0 }
        ensures flushes { result.flushes ≡ 0 }
        ensures failing { result.failing ≡ failing }
        ensures how { result.how ≡ how }
    {
        LimitedWriter {
            bytes: Vec::new(alloc),
            most,
            calls: 0,
            flushes: 0,
            failing,
            how,
        }
    }
}

impl Write for LimitedWriter {
    fn write(&mut self, buf: &[u8]) -> io::Result<usize> {
        self.calls = self.calls.wrapping_add(1);
        if self.calls == self.failing {
            match self.how {
                FailureMode::ByError => return Err(io::Error::from(ErrorKind::BrokenPipe)),
                FailureMode::ByInterruption => return Err(io::Error::from(ErrorKind::Interrupted)),
                FailureMode::ByNothing => return Ok(0),
                FailureMode::AtFlush => {}
            }
        }
        let count = self.most.min(buf.len());
        self.bytes.extend_from_slice(&buf[..count])?;
        Ok(count)
    }

    fn flush(&mut self) -> io::Result<()> {
        self.flushes = self.flushes.wrapping_add(1);
        if self.how == FailureMode::AtFlush {
            return Err(io::Error::from(ErrorKind::Interrupted));
        }
        Ok(())
    }
}
