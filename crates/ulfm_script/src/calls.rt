//! The calls of a script, line by line.
ghost use Rattle.std.specs.Prelude.{◌≡◌, ℕ, List, Option, Ok, IfOk, IfSome};
ghost use Rattle.ulfm_script.specs.Calls.{ScriptCall, call_from, call_in, call_of, read_rank_comm, ack_of, agree_of, read_plain_call, StandAhead};
ghost use Rattle.ulfm_script.specs.Verbs.{call_at, found_call, verb_call};
ghost use Rattle.ulfm_script.specs.Spelling.{Spells, SpellsIn, is_padded, spelled_text};
ghost use Rattle.ulfm_script.specs.Words.{rest_at};
ghost use Rattle.ulfm_script.specs.declared.version.Version.{Version as VersionOf};

use crate::by_word;
use crate::line_kind::LineKind;
use crate::printing::{HALF_DIGITS, LEAST_LONG};
use crate::version::Version;
use crate::words::{
    LAST_COMM, LAST_RANK, leading_number, one_rank, read_flag_in, read_number, read_number_to,
    split_word, three_words, two_words,
};
use ulfm_laws::FlagAnd;
use ulfm_model::Call;

/// The call of one line of a script, without its newline, or the first fault in it from `verb` on.
///
/// A line is `fail R`, `get R C`, `ack R C N`, `agree R C F`, `shrink R C`, `barrier R C`, `poll R C`, `revoke R C`,
/// `isrevoked R C` or `free R C`: ranks R are 0 to 1023, communicators C 0 to 255, counts N 0 to 9999, in decimal without
/// leading zeros, and a flag F is eight or sixteen lower case hexadecimal digits.
///
/// ```
/// assert!(rt; read_call(b"free 0 1") == Ok(Call::Free { rank, comm }));
/// assert!(rt; read_call(b"free 0") == Err(LineKind::Words));
/// ```
pub fn read_call(line: &[u8]) -> Result<Call<FlagAnd>, LineKind>
    // What is read is spelled so, and what is spelled so is read.
    ensures found { IfOk result (λ call. Spells line.now call) }
    ensures only { (call : ScriptCall) → Spells line.now call → result ≡ Ok call }
    ensures exact { result ≡ call_of line.now }
{
    parse_call(Version::First, line)
}

/// The call of one line of a script of this version, without its newline, or the first fault in it from `verb` on.
///
/// The second version has the lines of the first, as [`read_call`] reads them, and `failure_ack R C` and `failure_get_acked R C`. In it a flag has sixteen
/// digits.
///
/// ```
/// assert!(rt; read_call_of(Version::Second, b"failure_ack 0 1") == Ok(Call::FailureAck { rank, comm }));
/// assert!(rt; read_call_of(Version::First, b"failure_ack 0 1") == Err(LineKind::Verb));
/// ```
pub fn read_call_of(version: Version, line: &[u8]) -> Result<Call<FlagAnd>, LineKind>
    ensures found { IfOk result (λ call. SpellsIn version line.now call) }
    ensures only { (call : ScriptCall) → SpellsIn version line.now call → result ≡ Ok call }
    ensures exact { result ≡ call_in version line.now }
{
    parse_call(version, line)
}

/// Whether a line that spells this call has all digits of its flag, though the upper half is 0.
pub fn is_padded(line: &[u8], call: &Call<FlagAnd>) -> bool
    // The line is the call's text, spelled so.
    ensures spelled { Spells line.now call.now → line.now ≡ spelled_text result call.now }
    ensures exact { result ≡ is_padded line.now call.now }
{
    has_padding(line, call)
}

/// Whether no space stands before the last half of the digits.
fn has_padding(line: &[u8], call: &Call<FlagAnd>) -> bool
    ensures { result ≡ is_padded line.now call.now }
{
    match *call {
        Call::Agree { value, .. } => {
            value.bits < LEAST_LONG
                && line.len() > HALF_DIGITS
                && line[line.len() - HALF_DIGITS - 1] != b' '
        }
        _ => false,
    }
}

#[tactic(auto, unfolding(crate::specs::Calls::call_in))]
fn parse_call(version: Version, line: &[u8]) -> Result<Call<FlagAnd>, LineKind>
    ensures { result ≡ call_in version line.now }
{
    let (word, fields) = split_word(line);
    match find_verb(word) {
        Some(verb) => read_fields(version, verb, fields),
        None => Err(LineKind::Verb),
    }
}

/// The verb that a word spells.
#[inline(always)]
fn find_verb(word: &[u8]) -> Option<Verb>
    ensures { (version : VersionOf) (rest : Option (List ℕ)) → found_call version result rest ≡ call_from version (word.now, rest) }
{
    by_word!(word,
        b"fail" => Some(Verb::Fail),
        b"get" => Some(Verb::Plain(Plain::GetFailed)),
        b"ack" => Some(Verb::Ack),
        b"agree" => Some(Verb::Agree),
        b"shrink" => Some(Verb::Plain(Plain::Shrink)),
        b"barrier" => Some(Verb::Plain(Plain::Barrier)),
        b"poll" => Some(Verb::Plain(Plain::Poll)),
        b"revoke" => Some(Verb::Plain(Plain::Revoke)),
        b"isrevoked" => Some(Verb::Plain(Plain::IsRevoked)),
        b"free" => Some(Verb::Plain(Plain::Free)),
        b"failure_ack" => Some(Verb::Plain(Plain::FailureAck)),
        b"failure_get_acked" => Some(Verb::Plain(Plain::FailureGetAcked)),
        else None
    )
}

/// The call of a verb in a script of this version, by its fields.
#[tactic(auto, unfolding(crate::specs::Calls::fail_of))]
fn read_fields(
    version: Version,
    verb: Verb,
    fields: Option<&[u8]>,
) -> Result<Call<FlagAnd>, LineKind>
    ensures { result ≡ verb_call version verb (rest_at fields.entry) }
{
    match (version, verb) {
        (_, Verb::Fail) => {
            let rank = one_rank(fields)?;
            Ok(Call::Fail { rank })
        }
        (_, Verb::Ack) => read_ack(fields),
        (_, Verb::Agree) => read_agree(version, fields),
        (Version::First, Verb::Plain(Plain::FailureAck | Plain::FailureGetAcked)) => {
            Err(LineKind::Verb)
        }
        (_, Verb::Plain(plain)) => read_plain(plain, fields),
    }
}

/// What the first word of a line asks for.
#[derive(Clone, Copy)]
enum Verb {
    Fail,
    Ack,
    Agree,
    /// A call that names a rank and a communicator, and nothing else.
    Plain(Plain),
}

/// The calls that name a rank and a communicator, and nothing else.
#[derive(Clone, Copy)]
enum Plain {
    GetFailed,
    FailureAck,
    FailureGetAcked,
    Shrink,
    Barrier,
    Poll,
    Revoke,
    IsRevoked,
    Free,
}

/// A plain call, by its fields.
fn read_plain(plain: Plain, fields: Option<&[u8]>) -> Result<Call<FlagAnd>, LineKind>
    ensures { result ≡ read_plain_call (call_at plain) (rest_at fields.entry) }
{
    let (rank, comm) = read_place(fields)?;
    Ok(plain_call(plain, rank, comm))
}

/// A plain call of a rank on a communicator.
fn plain_call(plain: Plain, rank: u16, comm: u16) -> Call<FlagAnd>
    ensures { result ≡ call_at plain rank comm }
{
    match plain {
        Plain::GetFailed => Call::GetFailed { rank, comm },
        Plain::FailureAck => Call::FailureAck { rank, comm },
        Plain::FailureGetAcked => Call::FailureGetAcked { rank, comm },
        Plain::Shrink => Call::Shrink { rank, comm },
        Plain::Barrier => Call::Barrier { rank, comm },
        Plain::Poll => Call::Poll { rank, comm },
        Plain::Revoke => Call::Revoke { rank, comm },
        Plain::IsRevoked => Call::IsRevoked { rank, comm },
        Plain::Free => Call::Free { rank, comm },
    }
}

/// A rank and a communicator at the head of the fields, and the text behind them, where they stand there: each byte is looked at once. The readers of calls
/// try this first, and take a line apart word by word where it isn't as it should be, to find the fault.
#[inline(always)]
fn place_ahead(fields: Option<&[u8]>) -> Option<(u16, u16, Option<&[u8]>)>
    ensures { IfSome result (λ place. StandAhead (rest_at fields.entry) place.0 place.1 (rest_at place.2)) }
{
    let Ok((rank, Some(text))) = leading_number(4, fields?) else {
        return None;
    };
    let Ok((comm, rest)) = leading_number(4, text) else {
        return None;
    };
    if rank > u32::from(LAST_RANK) || comm > u32::from(LAST_COMM) {
        return None;
    }
    Some((rank as u16, comm as u16, rest))
}

/// A rank and a communicator, and nothing behind them.
#[tactic(auto, unfolding(crate::specs::Calls::read_rank_comm))]
fn read_place(fields: Option<&[u8]>) -> Result<(u16, u16), LineKind>
    ensures { result ≡ read_rank_comm (rest_at fields.entry) }
{
    if let Some((rank, comm, None)) = place_ahead(fields) {
        return Ok((rank, comm));
    }
    let (rank, comm) = two_words(fields)?;
    let rank = read_number_to(LAST_RANK, rank)?;
    let comm = read_number_to(LAST_COMM, comm)?;
    Ok((rank, comm))
}

#[tactic(auto, unfolding(crate::specs::Calls::ack_of))]
fn read_ack(fields: Option<&[u8]>) -> Result<Call<FlagAnd>, LineKind>
    ensures { result ≡ ack_of (rest_at fields.entry) }
{
    if let Some((rank, comm, Some(text))) = place_ahead(fields)
        && let Ok((count, None)) = leading_number(4, text)
    {
        let count = count as u16;
        return Ok(Call::Ack { rank, comm, count });
    }
    let (rank, comm, count) = three_words(fields)?;
    let rank = read_number_to(LAST_RANK, rank)?;
    let comm = read_number_to(LAST_COMM, comm)?;
    let count = read_number(count)?;
    Ok(Call::Ack { rank, comm, count })
}

#[tactic(auto, unfolding(crate::specs::Calls::agree_of))]
fn read_agree(version: Version, fields: Option<&[u8]>) -> Result<Call<FlagAnd>, LineKind>
    ensures { result ≡ agree_of version (rest_at fields.entry) }
{
    if let Some((rank, comm, Some(text))) = place_ahead(fields)
        && let Ok(value) = read_flag_in(version, text)
    {
        return Ok(Call::Agree { rank, comm, value });
    }
    let (rank, comm, value) = three_words(fields)?;
    let rank = read_number_to(LAST_RANK, rank)?;
    let comm = read_number_to(LAST_COMM, comm)?;
    let value = read_flag_in(version, value)?;
    Ok(Call::Agree { rank, comm, value })
}
