//! The log that a reader gives, answered: what is to be printed, and with which status.
ghost use Rattle.std.specs.Prelude.{◌≡◌, IfOk};
ghost use Rattle.ulfm_search.specs.Shown.{Observes, Shows, ShowsUnknown, explained_text};

use crate::answer::{Answer, BUDGET, explain};
use std::alloc::{AllocError, Allocator};
use std::io::Read;
use ulfm_model::Limits;
use ulfm_observed::{Step, print_witness};
use ulfm_script::{LastGroup, RunFault};

/// What is to be printed of an answer.
#[derive(Drop)]
pub struct Shown<A: Allocator> {
    /// The text: `explained`, with the trace behind it where it is wanted; `not explained: ` and why, lines that can't stand together,
    /// and on what that rests; or `unknown: the search was given up`. Each line has its newline.
    pub text: Vec<u8, A>,
    /// The exit status: 0 where the log is explained, 1 where it isn't, 4 where the search was given up.
    pub status: u8,
}

/// Answers the log that the reader gives, all of which is read; with `witness` the trace is shown that explains it.
///
/// Faults are the first line that is none of a log, an error of the reader, and want of memory.
pub fn observe<A: Allocator + Copy + Drop, R: Read>(
    alloc: A,
    reader: &mut R,
    witness: bool,
) -> Result<Shown<A>, RunFault>
    ensures { IfOk result (Observes (R.remaining reader.old) witness) }
{
    let mut text = Vec::new(alloc);
    match reader.read_to_end(&mut text) {
        Ok(_) => observe_text(alloc, &text, witness),
        Err(_) => Err(RunFault::Read),
    }
}

/// Answers a log's text.
fn observe_text<A: Allocator + Copy + Drop>(
    alloc: A,
    text: &[u8],
    witness: bool,
) -> Result<Shown<A>, RunFault>
    ensures { IfOk result (Shows text.now witness) }
{
    match explain(alloc, text, BUDGET)? {
        Answer::Explained { limits, steps } => Ok(explained(alloc, limits, &steps, witness)?),
        Answer::Nothing { why, .. } => Ok(nothing(why)),
        Answer::Unknown => Ok(unknown(alloc)?),
    }
}

/// That a log is explained, with the trace behind it where it is wanted.
fn explained<A: Allocator + Copy>(
    alloc: A,
    limits: Limits,
    steps: &[Step<A>],
    witness: bool,
) -> Result<Shown<A>, AllocError>
    ensures text { IfOk result (λ shown. shown.text.items ≡ explained_text limits steps.now witness) }
    ensures status { IfOk result (λ shown. shown.status ≡ 0) }
{
    let mut text = Vec::new(alloc);
    text.extend_from_slice(b"explained\n")?;
    if witness {
        let mut last = LastGroup::new(alloc);
        print_witness(&mut text, &mut last, limits, steps)?;
    }
    Ok(Shown { text, status: 0 })
}

/// That a log isn't explained, and why.
fn nothing<A: Allocator>(why: Vec<u8, A>) -> Shown<A>
    ensures text { result.text.items ≡ why.items }
    ensures status { result.status ≡ 1 }
{
    Shown {
        text: why,
        status: 1,
    }
}

/// That the search was given up.
fn unknown<A: Allocator>(alloc: A) -> Result<Shown<A>, AllocError>
    ensures { IfOk result ShowsUnknown }
{
    let mut text = Vec::new(alloc);
    text.extend_from_slice(b"unknown: the search was given up\n")?;
    Ok(Shown { text, status: 4 })
}
