//! The text of a log, read. Nothing of it is trusted: what was read is printed and compared with the text.
use std::alloc::{AllocError, Allocator};
use ulfm_lines::read_line;
use ulfm_lines::trace_line::LONGEST;
use ulfm_model::{Limits, Line, Reply};
use ulfm_observed::{Failures, Item, Log, LogLine, Order, Seen};
use ulfm_script::words::{LAST_RANK, next_word, read_number, read_number_to, split_word};
use ulfm_script::{LineKind, RunFault, is_padded, read_call};

/// The most lines of a log.
const LAST_LINE: u32 = 5_000_000;

/// The first line of a text, and the text behind its newline; none where it has no newline.
fn split_line(text: &[u8]) -> Option<(&[u8], &[u8])> {
    for (i, byte) in text.iter().enumerate() {
        if *byte == b'\n' {
            return Some((&text[..i], &text[i + 1..]));
        }
    }
    None
}

/// The next line of a text, and the text behind it.
fn take_line(text: &[u8], number: u32) -> Result<(&[u8], &[u8]), LineKind> {
    match split_line(text) {
        None => Err(LineKind::Cut),
        Some((line, _)) if line.len() > LONGEST => Err(LineKind::Long),
        Some(_) if number > LAST_LINE => Err(LineKind::Lines),
        Some(taken) => Ok(taken),
    }
}

/// That a line, counted from 1, has this fault.
fn at_line<T>(number: u32, read: Result<T, LineKind>) -> Result<T, RunFault> {
    match read {
        Ok(read) => Ok(read),
        Err(kind) => Err(RunFault::Line { number, kind }),
    }
}

/// The first line of a text, and the text behind it; an empty text has none.
fn take_first(text: &[u8]) -> Result<(&[u8], &[u8]), LineKind> {
    if text.is_empty() {
        return Err(LineKind::Header);
    }
    take_line(text, 1)
}

/// The log that a text is.
pub fn read_log<A: Allocator + Copy>(alloc: A, text: &[u8]) -> Result<Log<A>, RunFault> {
    let (first, mut rest) = at_line(1, take_first(text))?;
    let (limits, order, failures) = at_line(1, read_first(first))?;
    let mut lines = Vec::new(alloc);
    let mut number = 1;
    for _ in 0..text.len() {
        if rest.is_empty() {
            break;
        }
        number = next_number(number);
        let (line, behind) = at_line(number, take_line(rest, number))?;
        let read = at_line(number, read_item(alloc, line)?)?;
        push_line(&mut lines, read)?;
        rest = behind;
    }
    Ok(Log {
        limits,
        order,
        failures,
        lines,
    })
}

/// Keeps a line.
fn push_line<A: Allocator>(
    lines: &mut Vec<LogLine<A>, A>,
    line: LogLine<A>,
) -> Result<(), AllocError> {
    lines.push(line)?;
    Ok(())
}

/// The number of the next line; no line has a greater one than can be counted.
fn next_number(number: u32) -> u32 {
    if number < 0xffff_fff0 {
        number + 1
    } else {
        number
    }
}

/// The first line: `ulfm-observed 1 RANKS COMMS ROUNDS ORDER FAILURES`.
fn read_first(line: &[u8]) -> Result<(Limits, Order, Failures), LineKind> {
    match read_header_words(line) {
        Ok((limits, order, failures)) => {
            if limits.check().is_err() {
                return Err(LineKind::Limits);
            }
            Ok((limits, order, failures))
        }
        Err(_) => Err(LineKind::Header),
    }
}

/// The words of the first line, whatever its limits are.
fn read_header_words(line: &[u8]) -> Result<(Limits, Order, Failures), LineKind> {
    let (name, rest) = split_word(line);
    let (version, rest) = next_word(rest)?;
    if name != b"ulfm-observed".as_slice() || version != b"1".as_slice() {
        return Err(LineKind::Header);
    }
    let (ranks, rest) = next_word(rest)?;
    let (comms, rest) = next_word(rest)?;
    let (rounds, rest) = next_word(rest)?;
    let (order, rest) = next_word(rest)?;
    let (failures, rest) = next_word(rest)?;
    if rest.is_some() {
        return Err(LineKind::Header);
    }
    let ranks = read_number(ranks)?;
    let comms = read_number(comms)?;
    let rounds = read_number(rounds)?;
    let order = one_of(order, (b"time", Order::Time), (b"ranks", Order::Ranks))?;
    let failures = one_of(
        failures,
        (b"any", Failures::Any),
        (b"logged", Failures::Logged),
    )?;
    Ok((
        Limits {
            ranks,
            comms,
            rounds,
        },
        order,
        failures,
    ))
}

/// What a word means that must be one of two.
fn one_of<T: Copy>(word: &[u8], one: (&[u8], T), other: (&[u8], T)) -> Result<T, LineKind> {
    if word == one.0 {
        Ok(one.1)
    } else if word == other.0 {
        Ok(other.1)
    } else {
        Err(LineKind::Header)
    }
}

/// A line behind the first.
fn read_item<A: Allocator + Copy>(
    alloc: A,
    line: &[u8],
) -> Result<Result<LogLine<A>, LineKind>, AllocError> {
    let (verb, rest) = split_word(line);
    if verb == b"call".as_slice() {
        Ok(read_called(alloc, rest))
    } else if verb == b"reply".as_slice() {
        read_replied(alloc, rest)
    } else if verb == b"lost".as_slice() {
        Ok(read_lost(alloc, rest))
    } else {
        Ok(Err(LineKind::Verb))
    }
}

/// `call X`, behind its verb.
fn read_called<A: Allocator + Copy>(alloc: A, rest: Option<&[u8]>) -> Result<LogLine<A>, LineKind> {
    let Some(text) = rest else {
        return Err(LineKind::Words);
    };
    let call = read_call(text)?;
    let padded = is_padded(text, &call);
    Ok(LogLine {
        item: Item::Called { call, padded },
        group: Vec::new(alloc),
    })
}

/// `lost R`, behind its verb.
fn read_lost<A: Allocator + Copy>(alloc: A, rest: Option<&[u8]>) -> Result<LogLine<A>, LineKind> {
    let (word, rest) = next_word(rest)?;
    if rest.is_some() {
        return Err(LineKind::Words);
    }
    let rank = read_number_to(LAST_RANK, word)?;
    Ok(LogLine {
        item: Item::Lost { rank },
        group: Vec::new(alloc),
    })
}

/// `reply B TEXT`, behind its verb: it is read as a line of a trace, with a point, and with numbers for stars.
fn read_replied<A: Allocator + Copy>(
    alloc: A,
    rest: Option<&[u8]>,
) -> Result<Result<LogLine<A>, LineKind>, AllocError> {
    let (by, text) = match next_word(rest) {
        Ok((by, Some(text))) => (by, text),
        _ => return Ok(Err(LineKind::Words)),
    };
    let mut line = Vec::new(alloc);
    line.extend_from_slice(b"reply ")?;
    line.extend_from_slice(by)?;
    line.extend_from_slice(b" 0 ")?;
    let stars = put_numbers(&mut line, text)?;
    let mut group = Vec::new(alloc);
    match read_line(&line, &mut group)? {
        Some(
            Line::Replied {
                by,
                reply: Some(reply),
                ..
            },
        ) => {
            let seen = seen_of(reply, stars);
            let item = Item::Replied { by, seen };
            Ok(Ok(LogLine { item, group }))
        }
        _ => Ok(Err(LineKind::Words)),
    }
}

/// Which of a reply's words are stars: the second, and the fourth.
#[derive(Clone, Copy)]
struct Stars {
    /// Whether the second is one: a value that wasn't logged.
    second: bool,
    /// Whether the fourth is one: a count or a context id that wasn't logged.
    fourth: bool,
}

/// Appends the words of a reply, with numbers for the stars that it may have.
fn put_numbers<A: Allocator>(line: &mut Vec<u8, A>, text: &[u8]) -> Result<Stars, AllocError> {
    let mut stars = Stars {
        second: false,
        fourth: false,
    };
    let (name, mut rest) = split_word(text);
    line.extend_from_slice(name)?;
    let agreed = name == b"agreed".as_slice();
    let shrunk = name == b"shrunk".as_slice();
    for place in 1..4 {
        let Some(words) = rest else {
            return Ok(stars);
        };
        let (word, behind) = split_word(words);
        line.push(b' ')?;
        let star = word == b"*".as_slice();
        if star && agreed && place == 1 {
            stars.second = true;
            line.extend_from_slice(b"00000000")?;
        } else if star && place == 3 && (agreed || shrunk) {
            stars.fourth = true;
            line.push(b'0')?;
        } else {
            line.extend_from_slice(word)?;
        }
        rest = behind;
    }
    if let Some(words) = rest {
        line.push(b' ')?;
        line.extend_from_slice(words)?;
    }
    Ok(stars)
}

/// What a log tells of a reply.
fn seen_of(reply: Reply<ulfm_laws::FlagAnd>, stars: Stars) -> Seen {
    match reply {
        Reply::Agreed {
            value,
            failed,
            raised,
        } => Seen::Agreed {
            value: if stars.second { None } else { Some(value) },
            failed: if stars.fourth { None } else { Some(failed) },
            raised,
        },
        Reply::Shrunk { comm, context, .. } => Seen::Shrunk {
            comm,
            context: if stars.fourth { None } else { Some(context) },
        },
        other => Seen::Whole(other),
    }
}
