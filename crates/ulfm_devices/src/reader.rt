//! A reader for tests: it gives a text in pieces, and fails at a call of the test's choice.
ghost use Rattle.std.specs.Prelude.{◌≡◌};

use std::io::{self, ErrorKind, Read};

/// Gives a text in pieces of at most so many bytes, and fails at one call, which says `Interrupted`; at none for 0.
#[derive(Drop)]
pub struct Pieces<'a> {
    /// What wasn't given yet.
    pub text: &'a [u8],
    /// How many bytes it gives a call at most.
    pub most: usize,
    /// How often it was read.
    pub calls: u32,
    /// The call that fails, counted from 1.
    pub failing: u32,
}

impl<'a> Pieces<'a> {
    /// A text that nothing was given of.
    pub fn new(text: &'a [u8], most: usize, failing: u32) -> Pieces<'a>
        ensures text { result.text.now ≡ text.now }
        ensures most { result.most ≡ most }
        ensures calls { result.calls ≡ 0 }
        ensures failing { result.failing ≡ failing }
    {
        Pieces {
            text,
            most,
            calls: 0,
            failing,
        }
    }
}

impl Read for Pieces<'_> {
    fn read(&mut self, buf: &mut [u8]) -> io::Result<usize> {
        self.calls = self.calls.wrapping_add(1);
        if self.calls == self.failing {
            return Err(io::Error::from(ErrorKind::Interrupted));
        }
        let most = self.most.min(buf.len());
        let mut rest = self.text;
        let count = rest.read(&mut buf[..most])?;
        self.text = rest;
        if count > most {
            return Ok(0);
        }
        Ok(count)
    }
}
