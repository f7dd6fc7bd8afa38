//! The text of a log, and that of the trace which explains it.
ghost use Rattle.std.specs.Prelude.{◌≡◌, ◌++◌, ◌∷◌, [], OnOk, codes, map};
ghost use Rattle.std.specs.Fmt.{decimal};
ghost use Rattle.ulfm_script.specs.{Digits.{flag_text}, Headers.{header_text}, Printed.{error_text, ranks_text}};
ghost use Rattle.ulfm_script.specs.declared.header_kind.HeaderKind.TheVariants.{Trace};
ghost use Rattle.ulfm_lines.specs.LineTexts.{caller_text, lines_text};
ghost use Rattle.ulfm_observed.specs.LogTexts.{agreed_text, failures_text, heard_of, heard_text, item_text};
ghost use Rattle.ulfm_observed.specs.LogTexts.{limits_text, log_header, log_text, number_text};
ghost use Rattle.ulfm_observed.specs.LogTexts.{order_text, seen_text, shrunk_text, value_text};
ghost use Rattle.ulfm_observed.specs.Stages.{told_of};

use crate::log::{Failures, Item, Log, LogLine, Order, Seen};
use crate::step::Step;
use std::alloc::{AllocError, Allocator};
use ulfm_laws::FlagAnd;
use ulfm_lines::print_line;
use ulfm_model::{Caller, Limits};
use ulfm_script::printing::flag_digits;
use ulfm_script::{
    HeaderKind, LastGroup, print_header, print_number, print_reply, print_spelled_call,
};

/// Appends the text of a log, each line with its newline. After an error, which is want of memory, nothing is said of
/// the text.
pub fn print_log<A: Allocator + Copy, B: Allocator>(
    text: &mut Vec<u8, A>,
    last: &mut LastGroup<A>,
    log: &Log<B>,
) -> Result<(), AllocError>
    ensures { OnOk result (text.new.items ≡ text.old.items ++ log_text log.now) }
{
    print_first(text, log.limits, log.order, log.failures)?;
    text.push(b'\n')?;
    print_lines(text, last, &log.lines)
}

/// Appends the first line, without its newline.
fn print_first<A: Allocator>(
    text: &mut Vec<u8, A>,
    limits: Limits,
    order: Order,
    failures: Failures,
) -> Result<(), AllocError>
    ensures { OnOk result (text.new.items ≡ text.old.items ++ log_header limits order failures) }
{
    text.extend_from_slice(b"ulfm-observed 1 ")?;
    print_limits(text, limits)?;
    print_words(text, order, failures)
}

/// Appends the words behind the limits.
fn print_words<A: Allocator>(
    text: &mut Vec<u8, A>,
    order: Order,
    failures: Failures,
) -> Result<(), AllocError>
    ensures { OnOk result (text.new.items ≡ text.old.items ++ (order_text order ++ failures_text failures)) }
{
    text.extend_from_slice(order_word(order))?;
    text.extend_from_slice(failures_word(failures))
}

/// Appends the limits of a world.
fn print_limits<A: Allocator>(text: &mut Vec<u8, A>, limits: Limits) -> Result<(), AllocError>
    ensures { OnOk result (text.new.items ≡ text.old.items ++ limits_text limits) }
{
    print_number(text, limits.ranks)?;
    text.push(b' ')?;
    print_number(text, limits.comms)?;
    text.push(b' ')?;
    print_number(text, limits.rounds)
}

/// The word of an order, behind a space.
fn order_word(order: Order) -> &'static [u8]
    ensures { result.now ≡ order_text order }
{
    match order {
        Order::Time => b" time",
        Order::Ranks => b" ranks",
    }
}

/// The word for when ranks may be declared, behind a space.
fn failures_word(failures: Failures) -> &'static [u8]
    ensures { result.now ≡ failures_text failures }
{
    match failures {
        Failures::Any => b" any",
        Failures::Logged => b" logged",
    }
}

/// Appends the lines behind the first.
fn print_lines<A: Allocator + Copy, B: Allocator>(
    text: &mut Vec<u8, A>,
    last: &mut LastGroup<A>,
    lines: &[LogLine<B>],
) -> Result<(), AllocError>
    ensures { OnOk result (text.new.items ≡ text.old.items ++ heard_text (map heard_of lines.now)) }
{
    for line in lines {
        print_item(text, last, &line.item, &line.group)?;
        text.push(b'\n')?;
    }
    Ok(())
}

/// Appends a line, without its newline.
pub fn print_item<A: Allocator + Copy>(
    text: &mut Vec<u8, A>,
    last: &mut LastGroup<A>,
    item: &Item,
    group: &[u16],
) -> Result<(), AllocError>
    ensures { OnOk result (text.new.items ≡ text.old.items ++ item_text group.now item.now) }
{
    match *item {
        Item::Called { call, padded } => {
            text.extend_from_slice(b"call ")?;
            print_spelled_call(text, &call, padded)
        }
        Item::Replied { by, seen } => {
            text.extend_from_slice(b"reply ")?;
            print_caller(text, by)?;
            text.push(b' ')?;
            print_seen(text, last, &seen, group)
        }
        Item::Lost { rank } => {
            text.extend_from_slice(b"lost ")?;
            print_number(text, rank)
        }
    }
}

/// Appends a caller.
fn print_caller<A: Allocator>(text: &mut Vec<u8, A>, by: Caller) -> Result<(), AllocError>
    ensures { OnOk result (text.new.items ≡ text.old.items ++ caller_text by) }
{
    match by {
        Caller::Outside => { text.extend_from_slice(b"-") }
        Caller::Rank(rank) => print_number(text, rank),
    }
}

/// Appends what is told of a reply.
fn print_seen<A: Allocator + Copy>(
    text: &mut Vec<u8, A>,
    last: &mut LastGroup<A>,
    seen: &Seen,
    group: &[u16],
) -> Result<(), AllocError>
    ensures { OnOk result (text.new.items ≡ text.old.items ++ seen_text group.now seen.now) }
{
    match *seen {
        Seen::Agreed {
            value,
            failed,
            raised,
        } => print_agreed(text, value, failed, raised),
        Seen::Shrunk { comm, context } => print_shrunk(text, comm, context, group),
        Seen::Whole(reply) => print_reply(text, &reply, group, last),
    }
}

/// Appends what is told of an agree.
fn print_agreed<A: Allocator>(
    text: &mut Vec<u8, A>,
    value: Option<FlagAnd>,
    failed: Option<u16>,
    raised: bool,
) -> Result<(), AllocError>
    ensures { OnOk result (text.new.items ≡ text.old.items ++ agreed_text value failed raised) }
{
    text.extend_from_slice(b"agreed ")?;
    print_value(text, value)?;
    text.extend_from_slice(b" failed ")?;
    print_some(text, failed)?;
    text.extend_from_slice(error_word(raised))
}

/// Whether an agree raises an error, behind a space.
fn error_word(raised: bool) -> &'static [u8]
    ensures { result.now ≡ error_text raised }
{
    if raised { b" raised" } else { b" clean" }
}

/// Appends a star.
fn print_star<A: Allocator>(text: &mut Vec<u8, A>) -> Result<(), AllocError>
    ensures { OnOk result (text.new.items ≡ text.old.items ++ codes "*") }
{
    text.extend_from_slice(b"*")
}

/// Appends a flag, or a star.
fn print_value<A: Allocator>(
    text: &mut Vec<u8, A>,
    value: Option<FlagAnd>,
) -> Result<(), AllocError>
    ensures { OnOk result (text.new.items ≡ text.old.items ++ value_text value) }
{
    match value {
        None => print_star(text),
        Some(flag) => {
            let digits = flag_digits(flag);
            text.extend_from_slice(digits.text())
        }
    }
}

/// Appends a number, or a star.
fn print_some<A: Allocator>(text: &mut Vec<u8, A>, number: Option<u16>) -> Result<(), AllocError>
    ensures { OnOk result (text.new.items ≡ text.old.items ++ number_text number) }
{
    match number {
        None => print_star(text),
        Some(number) => print_number(text, number),
    }
}

/// Appends a context id, or a star.
fn print_context<A: Allocator>(text: &mut Vec<u8, A>, context: Option<u8>) -> Result<(), AllocError>
    ensures { OnOk result (text.new.items ≡ text.old.items ++ number_text context) }
{
    match context {
        None => print_star(text),
        Some(id) => print_number(text, u16::from(id)),
    }
}

/// Appends what is told of a new communicator.
fn print_shrunk<A: Allocator>(
    text: &mut Vec<u8, A>,
    comm: u16,
    context: Option<u8>,
    group: &[u16],
) -> Result<(), AllocError>
    ensures { OnOk result (text.new.items ≡ text.old.items ++ shrunk_text comm context group.now) }
{
    text.extend_from_slice(b"shrunk ")?;
    print_number(text, comm)?;
    text.extend_from_slice(b" context ")?;
    print_context(text, context)?;
    text.extend_from_slice(b" members")?;
    print_members(text, group)
}

/// Appends each rank behind a space.
fn print_members<A: Allocator>(text: &mut Vec<u8, A>, group: &[u16]) -> Result<(), AllocError>
    ensures { OnOk result (text.new.items ≡ text.old.items ++ ranks_text group.now) }
{
    for rank in group {
        text.push(b' ')?;
        print_number(text, *rank)?;
    }
    Ok(())
}

/// Appends the trace that an explanation is, its header first, each line with its newline: `ulfm check` takes it. After
/// an error, which is want of memory, nothing is said of the text.
pub fn print_witness<A: Allocator + Copy, B: Allocator>(
    text: &mut Vec<u8, A>,
    last: &mut LastGroup<A>,
    limits: Limits,
    steps: &[Step<B>],
) -> Result<(), AllocError>
    ensures { OnOk result (text.new.items ≡ text.old.items
        ++ (header_text Trace limits ++ 10 ∷ lines_text (map told_of steps.now))) }
{
    print_header(text, HeaderKind::Trace, limits)?;
    text.push(b'\n')?;
    print_steps(text, last, steps)
}

/// Appends the lines of an explanation.
fn print_steps<A: Allocator + Copy, B: Allocator>(
    text: &mut Vec<u8, A>,
    last: &mut LastGroup<A>,
    steps: &[Step<B>],
) -> Result<(), AllocError>
    ensures { OnOk result (text.new.items ≡ text.old.items ++ lines_text (map told_of steps.now)) }
{
    for step in steps {
        print_line(text, &step.line, &step.group, last)?;
        text.push(b'\n')?;
    }
    Ok(())
}
