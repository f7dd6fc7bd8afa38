//! What a round decides, in words.
ghost use Rattle.std.specs.Prelude.{◌≡◌, ◌++◌, IfOk, OnOk};
ghost use Rattle.ulfm_story.specs.Decisions.{TellsDecision, round_text};

use std::alloc::{AllocError, Allocator};
use ulfm_laws::FlagAnd;
use ulfm_lines::print_outcome;
use ulfm_model::decide::{decision, is_decided};
use ulfm_model::event::Entry;
use ulfm_script::print_number;

/// What a round decides by these events, in words: none where some member isn't settled yet.
///
/// The round 0 of communicator 0, in which rank 0 offered the flag 0000000f and rank 1 is left out, as one failure of
/// which rank 0 had acknowledged none, is told as `round 0 of 0: agreed 0000000f failed 1 raised`.
pub fn decision_words<A: Allocator + Copy + Drop>(
    alloc: A,
    ranks: u16,
    history: &[Entry<FlagAnd>],
    comm: u16,
    round: u16,
) -> Result<Option<Vec<u8, A>>, AllocError>
    ensures { IfOk result (TellsDecision ranks history.now comm round) }
{
    if !is_decided(alloc, ranks, history, comm, round)? {
        return Ok(None);
    }
    let made = decision(alloc, ranks, history, comm, round)?;
    let mut words = Vec::new(alloc);
    print_round(&mut words, round, comm)?;
    print_outcome(&mut words, &made, b"agreed ", b"ids ")?;
    Ok(Some(words))
}

/// A round, with the communicator that it is of.
fn print_round<A: Allocator>(text: &mut Vec<u8, A>, round: u16, comm: u16) -> Result<(), AllocError>
    ensures { OnOk result (text.new.items ≡ text.old.items ++ round_text round comm) }
{
    text.extend_from_slice(b"round ")?;
    print_number(text, round)?;
    text.extend_from_slice(b" of ")?;
    print_number(text, comm)?;
    text.extend_from_slice(b": ")
}
