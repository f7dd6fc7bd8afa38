//! The words of a line, and the numbers and flags that they are.
ghost use Rattle.std.specs.Prelude.{◌≡◌, ◌≤◌, length};
ghost use Rattle.std.specs.Str.{bytes_eq};
ghost use Rattle.ulfm_script.specs.Digits.{are_plain, digit_of, digits_after, hex_of, number_in, read_number, read_point, number_to, read_flag, read_printed_flag, whole_digits, read_flag_in};
ghost use Rattle.ulfm_script.specs.Words.{first_word, next_word, one_of, two_of, three_of, four_of, rest_at, word_seen, two_at, three_at, four_at, Gives};
ghost use Rattle.ulfm_script.specs.Words.{leading_number, number_seen};
ghost use Rattle.ulfm_script.specs.declared.line_kind.LineKind.TheVariants.{Flag};
ghost use Rattle.ulfm_script.specs.Calls.{one_rank};

use crate::line_kind::LineKind;
use crate::printing::{HALF_DIGITS, WHOLE_DIGITS, printed_digits};
use crate::version::Version;
use ulfm_laws::FlagAnd;

/// The greatest rank that a script may name.
pub const LAST_RANK: u16 = 1023;

/// The greatest communicator that a script may name.
pub const LAST_COMM: u16 = 255;

/// Whether a word is this text. It is inlined into its callers, where a text that is known makes it a few comparisons of whole words of memory.
#[inline(always)]
pub fn is_word(word: &[u8], text: &[u8]) -> bool
    ensures { result ≡ bytes_eq word.now text.now }
{
    word.len() == text.len() && word.starts_with(text)
}

/// What stands behind the first of these texts that a word is, or else this. Each text is compared in line, as [`is_word`] does it.
#[macro_export]
macro_rules! by_word {
    ($word:ident, else $other:expr) => {
        $other
    };
    ($word:ident, $text:literal => $then:expr, $($rest:tt)+) => {
        if $crate::words::is_word($word, $text) {
            $then
        } else {
            $crate::by_word!($word, $($rest)+)
        }
    };
}

/// The first word, and the text behind the space after it.
#[inline(always)]
pub fn split_word(text: &[u8]) -> (&[u8], Option<&[u8]>)
    ensures { word_seen result ≡ first_word text.now }
{
    for (i, byte) in text.iter().enumerate() {
        if *byte == b' ' {
            return (&text[..i], Some(&text[i + 1..]));
        }
    }
    (text, None)
}

/// One more word, which is not empty, and the text behind it.
#[inline(always)]
#[tactic(auto, unfolding(crate::specs::Words::next_word))]
pub fn next_word(text: Option<&[u8]>) -> Result<(&[u8], Option<&[u8]>), LineKind>
    ensures { Gives word_seen result (next_word (rest_at text.entry)) }
{
    let Some(text) = text else {
        return Err(LineKind::Words);
    };
    let (word, rest) = split_word(text);
    if word.is_empty() {
        return Err(LineKind::Words);
    }
    Ok((word, rest))
}

/// Exactly one word.
#[inline(always)]
#[tactic(auto, unfolding(crate::specs::Words::one_of))]
pub fn one_word(text: Option<&[u8]>) -> Result<&[u8], LineKind>
    ensures { Gives (λ a. a.now) result (one_of (rest_at text.entry)) }
{
    let (a, rest) = next_word(text)?;
    if rest.is_some() {
        return Err(LineKind::Words);
    }
    Ok(a)
}

/// Exactly one word, which is a rank.
pub fn one_rank(text: Option<&[u8]>) -> Result<u16, LineKind>
    ensures { result ≡ one_rank (rest_at text.entry) }
{
    let word = one_word(text)?;
    read_number_to(LAST_RANK, word)
}

/// Exactly two words.
#[inline(always)]
#[tactic(auto, unfolding(crate::specs::Words::two_of))]
pub fn two_words(text: Option<&[u8]>) -> Result<(&[u8], &[u8]), LineKind>
    ensures { Gives two_at result (two_of (rest_at text.entry)) }
{
    let (a, rest) = next_word(text)?;
    let b = one_word(rest)?;
    Ok((a, b))
}

/// Exactly three words.
#[inline(always)]
#[tactic(auto, unfolding(crate::specs::Words::three_of))]
pub fn three_words(text: Option<&[u8]>) -> Result<(&[u8], &[u8], &[u8]), LineKind>
    ensures { Gives three_at result (three_of (rest_at text.entry)) }
{
    let (a, rest) = next_word(text)?;
    let (b, c) = two_words(rest)?;
    Ok((a, b, c))
}

/// Exactly four words.
#[tactic(auto, unfolding(crate::specs::Words::four_of))]
pub fn four_words(text: Option<&[u8]>) -> Result<(&[u8], &[u8], &[u8], &[u8]), LineKind>
    ensures { Gives four_at result (four_of (rest_at text.entry)) }
{
    let (a, rest) = next_word(text)?;
    let (b, c, d) = three_words(rest)?;
    Ok((a, b, c, d))
}

/// The number of at most so many digits, without leading zeros, that is the first word of a text, and the text behind the space after it: each byte of
/// the word is looked at once. Where the first word is no such number, the fault is `Number`, also where it is empty.
///
/// For 4 digits, `12 known` gives 12 and `known`, `12` gives 12 and nothing; `012`, `12345` and `x` are faults.
#[inline(always)]
pub fn leading_number(most: usize, text: &[u8]) -> Result<(u32, Option<&[u8]>), LineKind>
    requires { most ≤ 7 }
    ensures { Gives number_seen result (leading_number most text.now) }
{
    let mut value = 0;
    for (i, byte) in text.iter().enumerate() {
        if *byte == b' ' {
            if !are_plain(&text[..i]) {
                return Err(LineKind::Number);
            }
            return Ok((value, Some(&text[i + 1..])));
        }
        let Some(digit) = digit_value(*byte) else {
            return Err(LineKind::Number);
        };
        if i >= most {
            return Err(LineKind::Number);
        }
        value = value * 10 + digit;
    }
    if !are_plain(text) {
        return Err(LineKind::Number);
    }
    Ok((value, None))
}

/// Whether there are digits, and no zero stands before others.
#[inline(always)]
fn are_plain(digits: &[u8]) -> bool
    ensures { result ≡ are_plain digits.now }
{
    !digits.is_empty() && (digits.len() == 1 || digits[0] != b'0')
}

/// The value of a word's digits in a base, each by this function, or else this fault.
macro_rules! value_of {
    ($word:ident, $base:literal, $digit_of:ident, else $fault:expr) => {{
        let mut value = 0;
        for byte in $word {
            let Some(digit) = $digit_of(*byte) else {
                return Err($fault);
            };
            value = value * $base + digit;
        }
        value
    }};
}

/// A decimal number of at most four digits, without leading zeros.
pub fn read_number(word: &[u8]) -> Result<u16, LineKind>
    ensures { result ≡ read_number word.now }
{
    let value = read_digits(4, word)?;
    Ok(value as u16)
}

/// A decimal number of at most seven digits, without leading zeros: a count of events.
pub fn read_point(word: &[u8]) -> Result<u32, LineKind>
    ensures { result ≡ read_point word.now }
{
    read_digits(7, word)
}

/// A decimal number of at most so many digits, without leading zeros.
#[tactic(auto, unfolding(crate::specs::Digits::number_in))]
fn read_digits(most: usize, word: &[u8]) -> Result<u32, LineKind>
    requires { most ≤ 7 }
    ensures { result ≡ number_in most word.now }
{
    if word.is_empty() || word.len() > most || (word.len() > 1 && word[0] == b'0') {
        return Err(LineKind::Number);
    }
    Ok(value_of!(word, 10, digit_value, else LineKind::Number))
}

/// A number that is at most `most`.
#[tactic(auto, unfolding(crate::specs::Digits::number_to))]
pub fn read_number_to(most: u16, word: &[u8]) -> Result<u16, LineKind>
    ensures { result ≡ number_to most word.now }
{
    let value = read_number(word)?;
    if value > most {
        return Err(LineKind::Number);
    }
    Ok(value)
}

#[inline(always)]
fn digit_value(byte: u8) -> Option<u32>
    ensures { result ≡ digit_of byte }
{
    if byte >= b'0' && byte <= b'9' {
        Some(u32::from(byte - b'0'))
    } else {
        None
    }
}

/// A flag: eight or sixteen lower case hexadecimal digits.
#[tactic(auto, unfolding(crate::specs::Digits::read_flag))]
pub fn read_flag(word: &[u8]) -> Result<FlagAnd, LineKind>
    ensures { result ≡ read_flag word.now }
{
    if word.len() != HALF_DIGITS && word.len() != WHOLE_DIGITS {
        return Err(LineKind::Flag);
    }
    let bits = read_hex(word)?;
    Ok(FlagAnd { bits })
}

/// A flag in a script of this version: in the second it has all its digits.
#[tactic(auto, unfolding(crate::specs::Digits::read_flag_in))]
pub fn read_flag_in(version: Version, word: &[u8]) -> Result<FlagAnd, LineKind>
    ensures { result ≡ read_flag_in version word.now }
{
    if version == Version::Second && word.len() != WHOLE_DIGITS {
        return Err(LineKind::Flag);
    }
    read_flag(word)
}

/// A flag that has as many digits as are printed.
#[tactic(auto, unfolding(crate::specs::Digits::read_printed_flag))]
pub fn read_printed_flag(word: &[u8]) -> Result<FlagAnd, LineKind>
    ensures { result ≡ read_printed_flag word.now }
{
    let flag = read_flag(word)?;
    if word.len() != printed_digits(flag) {
        return Err(LineKind::Flag);
    }
    Ok(flag)
}

/// The value of lower case hexadecimal digits, no more than a flag has.
fn read_hex(word: &[u8]) -> Result<u64, LineKind>
    requires { length word.now ≤ whole_digits }
    ensures { result ≡ digits_after Flag 16 hex_of 0 word.now }
{
    Ok(value_of!(word, 16, hex_value, else LineKind::Flag))
}

#[inline(always)]
fn hex_value(byte: u8) -> Option<u64>
    ensures { result ≡ hex_of byte }
{
    match digit_value(byte) {
        Some(digit) => Some(u64::from(digit)),
        None if byte >= b'a' && byte <= b'f' => Some(u64::from(byte - b'a') + 10),
        None => None,
    }
}
