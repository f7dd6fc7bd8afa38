//! The fields of a trace's line, read one after another, each with the text behind it.
ghost use Rattle.std.specs.Prelude.{◌≡◌, ◌≢◌, ◌≤◌, ◌<◌, ◌++◌, ◌∷◌, IfOk, IfSome, List, MatchOption, Some, true, ℕ};
ghost use Rattle.ulfm_script.specs.Digits.{number_in, number_to};
ghost use Rattle.ulfm_script.specs.Words.{Gives, rest_at};
ghost use Rattle.ulfm_lines.specs.Fields.{Field, at_field, field_by, caller_field, read_caller, comm_field, error_field, flag_field, flag_mask, is_word_text, label_field};
ghost use Rattle.ulfm_lines.specs.Fields.{labelled, last, number_field, offer_field, offer_of, over, place_field, point_field, rank_field};

use ulfm_laws::{CtxMask, FlagAnd};
use ulfm_model::contribution::Offer;
use ulfm_model::event::Caller;
use ulfm_script::words::{
    LAST_COMM, LAST_RANK, is_word, leading_number, next_word, read_number_to, read_printed_flag,
};
use ulfm_script::{LineKind, by_word};

/// A number of at most so many digits, read in one pass.
#[inline(always)]
fn leading_field(most: usize, text: Option<&[u8]>) -> Result<(u32, Option<&[u8]>), LineKind>
    requires { most ≤ 7 }
    ensures read { Gives at_field result (field_by (number_in most) (rest_at text.entry)) }
    ensures small { IfOk result (λ field. most ≡ 4 → field.0 < 10000) }
{
    let Some(text) = text else {
        return Err(LineKind::Words);
    };
    match leading_number(most, text) {
        Ok(field) => Ok(field),
        Err(kind) => {
            if text.is_empty() {
                return Err(LineKind::Words);
            }
            if text[0] == b' ' {
                return Err(LineKind::Words);
            }
            Err(kind)
        }
    }
}

/// A number that is at most `most`.
#[inline(always)]
fn field_to(most: u16, text: Option<&[u8]>) -> Result<(u16, Option<&[u8]>), LineKind>
    ensures { Gives at_field result (field_by (number_to most) (rest_at text.entry)) }
{
    match leading_field(4, text) {
        Ok((number, rest)) => {
            if number > u32::from(most) {
                return Err(LineKind::Number);
            }
            Ok((number as u16, rest))
        }
        Err(kind) => Err(kind),
    }
}

#[inline(always)]
#[tactic(auto, unfolding(crate::specs::Fields::rank_field))]
pub(crate) fn rank_field(text: Option<&[u8]>) -> Result<(u16, Option<&[u8]>), LineKind>
    ensures { Gives at_field result (rank_field (rest_at text.entry)) }
{
    field_to(LAST_RANK, text)
}

#[inline(always)]
#[tactic(auto, unfolding(crate::specs::Fields::comm_field))]
pub(crate) fn comm_field(text: Option<&[u8]>) -> Result<(u16, Option<&[u8]>), LineKind>
    ensures { Gives at_field result (comm_field (rest_at text.entry)) }
{
    field_to(LAST_COMM, text)
}

#[inline(always)]
#[tactic(auto, unfolding(crate::specs::Fields::number_field))]
pub(crate) fn number_field(text: Option<&[u8]>) -> Result<(u16, Option<&[u8]>), LineKind>
    ensures { Gives at_field result (number_field (rest_at text.entry)) }
{
    match leading_field(4, text) {
        Ok((number, rest)) => Ok((number as u16, rest)),
        Err(kind) => Err(kind),
    }
}

#[inline(always)]
#[tactic(auto, unfolding(crate::specs::Fields::point_field))]
pub(crate) fn point_field(text: Option<&[u8]>) -> Result<(u32, Option<&[u8]>), LineKind>
    ensures { Gives at_field result (point_field (rest_at text.entry)) }
{
    leading_field(7, text)
}

/// A flag as it is printed.
#[inline(always)]
#[tactic(auto, unfolding(crate::specs::Fields::flag_field))]
pub(crate) fn flag_field(text: Option<&[u8]>) -> Result<(FlagAnd, Option<&[u8]>), LineKind>
    ensures { Gives at_field result (flag_field (rest_at text.entry)) }
{
    let (word, rest) = next_word(text)?;
    let flag = read_printed_flag(word)?;
    Ok((flag, rest))
}

#[tactic(auto, unfolding(crate::specs::Fields::read_caller))]
fn read_caller(word: &[u8]) -> Result<Caller, LineKind>
    ensures { result ≡ read_caller word.now }
{
    if is_word(word, b"-") {
        return Ok(Caller::Outside);
    }
    let rank = read_number_to(LAST_RANK, word)?;
    Ok(Caller::Rank(rank))
}

#[inline(always)]
#[tactic(auto, unfolding(crate::specs::Fields::caller_field))]
pub(crate) fn caller_field(text: Option<&[u8]>) -> Result<(Caller, Option<&[u8]>), LineKind>
    ensures { Gives at_field result (caller_field (rest_at text.entry)) }
{
    if let Ok((rank, rest)) = field_to(LAST_RANK, text) {
        return Ok((Caller::Rank(rank), rest));
    }
    let (word, rest) = next_word(text)?;
    let by = read_caller(word)?;
    Ok((by, rest))
}

/// What stands behind this beginning of a text, if the text begins so. It is inlined into its callers, where a beginning that is known makes it a few
/// comparisons of whole words of memory.
#[inline(always)]
pub(crate) fn behind<'a>(beginning: &[u8], text: &'a [u8]) -> Option<&'a [u8]>
    ensures { MatchOption result ((rest : List ℕ) → text.now ≢ beginning.now ++ rest) (λ rest. text.now ≡ beginning.now ++ rest.now) }
{
    if text.starts_with(beginning) {
        Some(&text[beginning.len()..])
    } else {
        None
    }
}

/// What is read behind the first of these beginnings with which a text begins, or else this: by a function, or by what is made of the
/// fields in its place. Each beginning is compared in line, as [`behind`] does it.
macro_rules! by_beginning {
    ($text:ident, else $other:expr) => {
        $other
    };
    ($text:ident, $beginning:literal => |$fields:ident| $told:expr, $($rest:tt)+) => {
        if let Some(fields) = $crate::fields::behind($beginning, $text) {
            let $fields = Some(fields);
            $told
        } else {
            $crate::fields::by_beginning!($text, $($rest)+)
        }
    };
    ($text:ident, $beginning:literal => $read:ident, $($rest:tt)+) => {
        if let Some(fields) = $crate::fields::behind($beginning, $text) {
            $read(Some(fields))
        } else {
            $crate::fields::by_beginning!($text, $($rest)+)
        }
    };
}

pub(crate) use by_beginning;

/// This word, and the text behind it.
#[inline(always)]
#[tactic(auto, unfolding(crate::specs::Fields::label_field))]
pub(crate) fn label_field<'a>(
    label: &[u8],
    text: Option<&'a [u8]>,
) -> Result<((), Option<&'a [u8]>), LineKind>
    requires { is_word_text label.now ≡ true }
    ensures { Gives at_field result (label_field label.now (rest_at text.entry)) }
{
    if let Some(rest) = label_ahead(label, text) {
        return Ok(((), Some(rest)));
    }
    let (word, rest) = next_word(text)?;
    if !is_word(word, label) {
        return Err(LineKind::Words);
    }
    Ok(((), rest))
}

/// What stands behind this word and a space at the head of a text, if they stand there: a text that is known is compared whole, and no byte is looked
/// at alone.
#[inline(always)]
fn label_ahead<'a>(label: &[u8], text: Option<&'a [u8]>) -> Option<&'a [u8]>
    ensures { IfSome result (λ rest. rest_at text.entry ≡ Some (label.now ++ 32 ∷ rest.now)) }
{
    match behind(label, text?) {
        Some([b' ', rest @ ..]) => Some(rest),
        _ => None,
    }
}

/// A number behind its label.
#[inline(always)]
#[tactic(auto, unfolding(crate::specs::Fields::labelled))]
pub(crate) fn labelled<'a>(
    label: &[u8],
    text: Option<&'a [u8]>,
) -> Result<(u16, Option<&'a [u8]>), LineKind>
    requires { is_word_text label.now ≡ true }
    ensures { Gives at_field result (labelled label.now (rest_at text.entry)) }
{
    let (_, rest) = label_field(label, text)?;
    number_field(rest)
}

/// A communicator, a round and a rank.
#[inline(always)]
#[tactic(auto, unfolding(crate::specs::Fields::place_field))]
pub(crate) fn place_field(
    text: Option<&[u8]>,
) -> Result<((u16, (u16, u16)), Option<&[u8]>), LineKind>
    ensures { Gives at_field result (place_field (rest_at text.entry)) }
{
    let (comm, rest) = comm_field(text)?;
    let (round, rest) = number_field(rest)?;
    let (rank, rest) = rank_field(rest)?;
    Ok(((comm, (round, rank)), rest))
}

/// A set of context ids, of a flag's digits.
fn mask_of(flag: FlagAnd) -> CtxMask
    ensures { result ≡ flag_mask flag }
{
    CtxMask { bits: flag.bits }
}

fn read_offer(label: &[u8], flag: FlagAnd) -> Result<Offer<FlagAnd>, LineKind>
    ensures { result ≡ offer_of label.now flag }
{
    by_word!(label,
        b"flag" => Ok(Offer::Flag(flag)),
        b"ctx" => Ok(Offer::Ctx(mask_of(flag))),
        else Err(LineKind::Words)
    )
}

/// What is offered.
#[tactic(auto, unfolding(crate::specs::Fields::offer_field))]
pub(crate) fn offer_field(text: Option<&[u8]>) -> Result<(Offer<FlagAnd>, Option<&[u8]>), LineKind>
    ensures { Gives at_field result (offer_field (rest_at text.entry)) }
{
    let (label, rest) = next_word(text)?;
    let (flag, rest) = flag_field(rest)?;
    let offer = read_offer(label, flag)?;
    Ok((offer, rest))
}

/// Whether an agree raises an error.
#[tactic(auto, unfolding(crate::specs::Fields::error_field, crate::specs::Fields::error_of))]
pub(crate) fn error_field(text: Option<&[u8]>) -> Result<(bool, Option<&[u8]>), LineKind>
    ensures { Gives at_field result (error_field (rest_at text.entry)) }
{
    let (word, rest) = next_word(text)?;
    by_word!(word,
        b"raised" => Ok((true, rest)),
        b"clean" => Ok((false, rest)),
        else Err(LineKind::Words)
    )
}

/// Nothing more.
#[inline(always)]
#[tactic(auto, unfolding(crate::specs::Fields::over))]
pub(crate) fn over(text: Option<&[u8]>) -> Result<(), LineKind>
    ensures { result ≡ over (rest_at text.entry) }
{
    if text.is_some() {
        return Err(LineKind::Words);
    }
    Ok(())
}

/// The last field: nothing stands behind it.
#[inline(always)]
pub(crate) fn last<T: Copy>(field: Result<(T, Option<&[u8]>), LineKind>) -> Result<T, LineKind>
    ensures { (read : Field T) → Gives at_field field.entry read → result ≡ last read }
{
    let (value, rest) = field?;
    over(rest)?;
    Ok(value)
}
