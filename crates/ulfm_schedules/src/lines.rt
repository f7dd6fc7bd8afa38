//! The lines of a program, taken apart.
use crate::program::{Ask, Place};
use ulfm_model::Limits;
use ulfm_script::LineKind;
use ulfm_script::words::{
    LAST_COMM, four_words, next_word, one_word, read_flag, read_number, read_number_to, split_word,
    two_words,
};

/// The greatest limits of a world that is explored.
const MOST_RANKS: u16 = 8;

const MOST_COMMS: u16 = 8;

const MOST_ROUNDS: u16 = 15;

/// What stands before a remark, without spaces at its ends.
pub(crate) fn without_remark(line: &[u8]) -> &[u8] {
    let mut text = line;
    if let Some(at) = line.iter().position(|byte| *byte == b'#') {
        text = line.get(..at).unwrap_or(b"");
    }
    text.trim_ascii()
}

/// A number of a header that is from 1 to `most`.
fn limit_of(most: u16, word: &[u8]) -> Result<u16, LineKind> {
    let Ok(number) = read_number(word) else {
        return Err(LineKind::Header);
    };
    Ok(if number <= most { number } else { 0 })
}

/// The limits of the first line, `ulfm-explore 1 RANKS COMMS ROUNDS`.
pub(crate) fn read_limits(line: &[u8]) -> Result<Limits, LineKind> {
    let (name, fields) = split_word(line);
    if name != b"ulfm-explore".as_slice() {
        return Err(LineKind::Header);
    }
    let Ok((version, ranks, comms, rounds)) = four_words(fields) else {
        return Err(LineKind::Header);
    };
    if version != b"1".as_slice() {
        return Err(LineKind::Header);
    }
    let limits = Limits {
        ranks: limit_of(MOST_RANKS, ranks)?,
        comms: limit_of(MOST_COMMS, comms)?,
        rounds: limit_of(MOST_ROUNDS, rounds)?,
    };
    if limits.ranks == 0 || limits.comms == 0 || limits.rounds == 0 {
        return Err(LineKind::Limits);
    }
    Ok(limits)
}

/// A rank of a world of so many.
pub(crate) fn read_rank(ranks: u16, word: &[u8]) -> Result<u16, LineKind> {
    read_number_to(ranks.saturating_sub(1), word)
}

/// A communicator, or `cur`.
fn read_place(word: &[u8]) -> Result<Place, LineKind> {
    if word == b"cur".as_slice() {
        return Ok(Place::Current);
    }
    Ok(Place::Given(read_number_to(LAST_COMM, word)?))
}

/// What a verb with a communicator alone asks for.
fn plain_ask(verb: &[u8]) -> Option<Ask> {
    let verbs: [(&[u8], Ask); 8] = [
        (b"get", Ask::GetFailed),
        (b"shrink", Ask::Shrink),
        (b"barrier", Ask::Barrier),
        (b"poll", Ask::Poll),
        (b"wait", Ask::Wait),
        (b"revoke", Ask::Revoke),
        (b"isrevoked", Ask::IsRevoked),
        (b"free", Ask::Free),
    ];
    for (word, ask) in &verbs {
        if verb == *word {
            return Some(*ask);
        }
    }
    None
}

/// The call that a line asks for.
pub(crate) fn read_ask(line: &[u8]) -> Result<(Ask, Place), LineKind> {
    let (verb, fields) = split_word(line);
    if let Some(ask) = plain_ask(verb) {
        let comm = one_word(fields)?;
        return Ok((ask, read_place(comm)?));
    }
    if verb == b"ack".as_slice() {
        let (comm, count) = two_words(fields)?;
        let place = read_place(comm)?;
        return Ok((Ask::Ack(read_number(count)?), place));
    }
    if verb == b"agree".as_slice() {
        let (comm, flag) = two_words(fields)?;
        let place = read_place(comm)?;
        return Ok((Ask::Agree(read_flag(flag)?), place));
    }
    Err(LineKind::Verb)
}

/// Words, one behind another, none of which is empty.
pub(crate) fn words_of(fields: Option<&[u8]>) -> Result<&[u8], LineKind> {
    let Some(words) = fields else {
        return Err(LineKind::Words);
    };
    let mut left = Some(words);
    for _ in 0..=words.len() {
        if left.is_none() {
            break;
        }
        left = next_word(left)?.1;
    }
    Ok(words)
}

/// The words before the last `go NAME` of a line, and the name.
pub(crate) fn split_jump(fields: Option<&[u8]>) -> Result<(&[u8], &[u8]), LineKind> {
    let words = words_of(fields)?;
    let Some(at) = words
        .windows(4)
        .rposition(|part| part == b" go ".as_slice())
    else {
        return Err(LineKind::Words);
    };
    let before = words.get(..at).unwrap_or(b"");
    let name = words.get(at.saturating_add(4)..);
    Ok((before, one_word(name)?))
}
