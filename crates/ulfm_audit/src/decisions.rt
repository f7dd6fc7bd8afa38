//! What a round decided, as a line.
ghost use Rattle.std.specs.Prelude.{◌≡◌, ◌++◌, OnOk};
ghost use Rattle.ulfm_model.specs.Walked.{decision_of};
ghost use Rattle.ulfm_numbers.specs.Telling.{seen_at};
ghost use Rattle.ulfm_audit.specs.Texts.{decided_text, round_lines, settled_lines};

use std::alloc::{AllocError, Allocator};
use ulfm_laws::FlagAnd;
use ulfm_lines::print_outcome;
use ulfm_model::decide::Decided;
use ulfm_model::event::Event;
use ulfm_numbers::numbers::Numbers;
use ulfm_script::print_number;

/// Appends what the round decided that an event settles somebody in, where that round is decided by the events so far; else nothing. After an
/// error nothing is said of the text.
pub(crate) fn print_settled<A: Allocator + Copy + Drop>(
    alloc: A,
    text: &mut Vec<u8, A>,
    numbers: &Numbers<FlagAnd, A>,
    event: &Event<FlagAnd>,
) -> Result<(), AllocError>
    ensures { OnOk result (text.new.items ≡ text.old.items ++ settled_lines (seen_at numbers.now numbers.now.count) event.now) }
{
    match *event {
        Event::Settle { comm, round, .. } | Event::Mark { comm, round, .. } => {
            print_round(alloc, text, numbers, comm, round)
        }
        _ => Ok(()),
    }
}

/// Appends what a round decided, where it is decided by the events so far; else nothing.
fn print_round<A: Allocator + Copy + Drop>(
    alloc: A,
    text: &mut Vec<u8, A>,
    numbers: &Numbers<FlagAnd, A>,
    comm: u16,
    round: u16,
) -> Result<(), AllocError>
    ensures { OnOk result (text.new.items ≡ text.old.items ++ round_lines (seen_at numbers.now numbers.now.count) comm round) }
{
    let point = numbers.count;
    if !numbers.is_decided(point, comm, round) {
        return Ok(());
    }
    let made = numbers.decision(alloc, point, comm, round)?;
    print_decided(text, comm, round, &made)
}

/// Appends a decision behind its communicator and its round, with a newline.
fn print_decided<A: Allocator, B: Allocator>(
    text: &mut Vec<u8, A>,
    comm: u16,
    round: u16,
    made: &Decided<FlagAnd, B>,
) -> Result<(), AllocError>
    ensures { OnOk result (text.new.items ≡ text.old.items ++ decided_text comm round (decision_of made.now)) }
{
    text.extend_from_slice(b"decided ")?;
    print_number(text, comm)?;
    text.push(b' ')?;
    print_number(text, round)?;
    text.push(b' ')?;
    print_outcome(text, made, b"flag ", b"ctx ")?;
    text.push(b'\n')?;
    Ok(())
}
