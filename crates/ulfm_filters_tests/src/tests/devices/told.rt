//! What a filter tells over a reader and a writer.
use std::alloc::Global;
use std::io::{Read, Write};
use std::test::Fail;
use ulfm_filters::{Filter, run_filter};

/// What a filter tells on standard error, and its status.
#[derive(Drop)]
pub(crate) struct Told {
    errors: Vec<u8>,
    /// The status that it ends with.
    pub(crate) status: u8,
}

impl Told {
    /// Whether this fault was told, at status 3.
    pub(crate) fn is_fault(&self, note: &[u8]) -> bool {
        self.errors.as_slice() == note && self.status == 3
    }
}

/// A filter from an input to an output.
pub(crate) fn run<R: Read, W: Write>(
    alloc: Global,
    filter: Filter,
    input: &mut R,
    output: &mut W,
) -> Told {
    let mut errors = Vec::new(alloc);
    let status = run_filter(alloc, filter, input, output, &mut errors);
    Told { errors, status }
}

/// A condition that a test wants.
pub(crate) fn require(holds: bool) -> Result<(), Fail> {
    if holds {
        return Ok(());
    }
    Err(Fail::from("a condition doesn't hold"))
}
