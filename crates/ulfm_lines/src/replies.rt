//! Replies, read of a trace's line, but for the ranks that they list.
ghost use Rattle.std.specs.Prelude.{◌≡◌, ◌&&◌, ◌==◌, None, Some};
ghost use Rattle.std.specs.Str.{bytes_eq};
ghost use Rattle.ulfm_model.specs.Answers.{printed};
ghost use Rattle.ulfm_script.specs.Words.{Gives, rest_at};
ghost use Rattle.ulfm_lines.specs.Fields.{at_field};
ghost use Rattle.ulfm_lines.specs.LineReading.{acked_reply, alone as read_alone, read_agreed, failed_reply, made, read_plain, refusal_field, read_refusal, refused_reply};
ghost use Rattle.ulfm_lines.specs.LineReading.{read_shrunk, some_reply_of};

use crate::fields::{
    by_beginning, comm_field, error_field, flag_field, label_field, labelled, last, number_field,
};
use ulfm_laws::FlagAnd;
use ulfm_model::{Refusal, Reply, refusal_number};
use ulfm_script::words::{is_word, next_word};
use ulfm_script::{LineKind, by_word};

/// A reply as [`read_reply`] reads it: those that most lines of a trace tell are compared first, as whole texts.
pub(crate) fn reply_field(
    text: Option<&[u8]>,
) -> Result<(Option<Reply<FlagAnd>>, Option<&[u8]>), LineKind>
    ensures { Gives at_field result (some_reply_of (rest_at text.entry)) }
{
    let Some(text) = text else {
        return Err(LineKind::Words);
    };
    if is_word(text, b"pending") {
        return Ok(alone(Reply::Pending));
    }
    if is_word(text, b"started") {
        return Ok(alone(Reply::Started));
    }
    read_reply(text)
}

/// A reply, or none where it tells a context id that no communicator has; and the ranks that it lists, where it does.
fn read_reply<'a>(text: &'a [u8]) -> Result<(Option<Reply<FlagAnd>>, Option<&'a [u8]>), LineKind>
    ensures { Gives at_field result (some_reply_of (Some text.now)) }
{
    by_beginning!(text,
        b"agreed " => read_agreed,
        b"shrunk " => read_shrunk,
        b"failed " => read_failed,
        b"acked " => read_acked,
        b"refused " => read_refused,
        else read_alone(text)
    )
}

/// A reply that was read whole, with no ranks behind it.
#[inline(always)]
fn alone<'a>(reply: Reply<FlagAnd>) -> (Option<Reply<FlagAnd>>, Option<&'a [u8]>)
    ensures { at_field result ≡ (Some reply, None) }
{
    (Some(reply), None)
}

/// A reply of one word, and nothing behind it.
fn read_alone<'a>(text: &'a [u8]) -> Result<(Option<Reply<FlagAnd>>, Option<&'a [u8]>), LineKind>
    ensures { Gives at_field result (read_alone (λ one. one) (read_plain text.now)) }
{
    Ok(alone(read_plain(text)?))
}

#[tactic(auto, unfolding(crate::specs::LineReading::read_agreed))]
fn read_agreed(text: Option<&[u8]>) -> Result<(Option<Reply<FlagAnd>>, Option<&[u8]>), LineKind>
    ensures { Gives at_field result (read_agreed (rest_at text.entry)) }
{
    let (value, rest) = flag_field(text)?;
    let (failed, rest) = labelled(b"failed", rest)?;
    let raised = last(error_field(rest))?;
    let reply = Reply::Agreed {
        value,
        failed,
        raised,
    };
    Ok(alone(reply))
}

/// A new communicator, whose members follow.
#[tactic(auto, unfolding(crate::specs::LineReading::read_shrunk))]
fn read_shrunk(text: Option<&[u8]>) -> Result<(Option<Reply<FlagAnd>>, Option<&[u8]>), LineKind>
    ensures { Gives at_field result (read_shrunk (rest_at text.entry)) }
{
    let (comm, rest) = comm_field(text)?;
    let (context, rest) = labelled(b"context", rest)?;
    let (_, rest) = label_field(b"members", rest)?;
    let Some(ranks) = rest else {
        return Err(LineKind::Words);
    };
    Ok((made(comm, context), Some(ranks)))
}

/// A communicator with this context id, if there is one.
fn made(comm: u16, context: u16) -> Option<Reply<FlagAnd>>
    ensures { result ≡ made comm context }
{
    if context > 255 {
        return None;
    }
    Some(Reply::Shrunk {
        comm,
        context: context as u8,
        size: 0,
    })
}

/// A failed group: nobody, or ranks that follow.
#[tactic(auto, unfolding(crate::specs::LineReading::failed_reply))]
fn read_failed(text: Option<&[u8]>) -> Result<(Option<Reply<FlagAnd>>, Option<&[u8]>), LineKind>
    ensures { Gives at_field result (failed_reply (rest_at text.entry)) }
{
    let Some(ranks) = text else {
        return Err(LineKind::Words);
    };
    let reply = Some(Reply::FailedGroup { count: 0 });
    if is_word(ranks, b"none") {
        return Ok((reply, None));
    }
    Ok((reply, Some(ranks)))
}

#[tactic(auto, unfolding(crate::specs::LineReading::acked_reply))]
fn read_acked(text: Option<&[u8]>) -> Result<(Option<Reply<FlagAnd>>, Option<&[u8]>), LineKind>
    ensures { Gives at_field result (acked_reply (rest_at text.entry)) }
{
    let count = last(number_field(text))?;
    Ok(alone(Reply::Acked { count }))
}

#[tactic(auto, unfolding(crate::specs::LineReading::refused_reply))]
fn read_refused(text: Option<&[u8]>) -> Result<(Option<Reply<FlagAnd>>, Option<&[u8]>), LineKind>
    ensures { Gives at_field result (refused_reply (rest_at text.entry)) }
{
    let refusal = last(refusal_field(text))?;
    Ok(alone(Reply::Refused(refusal)))
}

#[tactic(auto, unfolding(crate::specs::LineReading::refusal_field))]
fn refusal_field(text: Option<&[u8]>) -> Result<(Refusal, Option<&[u8]>), LineKind>
    ensures { Gives at_field result (refusal_field (rest_at text.entry)) }
{
    let (number, rest) = number_field(text)?;
    let (name, rest) = next_word(rest)?;
    let refusal = read_refusal(number, name)?;
    Ok((refusal, rest))
}

/// Whether a refusal has this number and this name.
fn is_named(refusal: Refusal, number: u16, name: &[u8]) -> bool
    ensures { result ≡ ((number == (printed refusal).0) && bytes_eq name.now (printed refusal).1) }
{
    number == u16::from(refusal_number(refusal)) && name == refusal.name().as_bytes()
}

/// The refusal of a number and a name; want of memory is never told.
#[tactic(auto, unfolding(crate::specs::LineReading::read_refusal))]
fn read_refusal(number: u16, name: &[u8]) -> Result<Refusal, LineKind>
    ensures { result ≡ read_refusal number name.now }
{
    let refusals = [
        Refusal::SelfFailed,
        Refusal::NoSuchComm,
        Refusal::Busy,
        Refusal::ShrinkOpen,
        Refusal::RoundsUsedUp,
        Refusal::Idle,
        Refusal::Mismatch,
        Refusal::NoContext,
        Refusal::NoRoom,
        Refusal::IsRevoked,
        Refusal::ProcFailed,
        Refusal::WorldKept,
        Refusal::NoSuchRank,
        Refusal::Twice,
    ];
    for refusal in &refusals {
        if is_named(*refusal, number, name) {
            return Ok(*refusal);
        }
    }
    Err(LineKind::Words)
}

/// The replies of one word.
#[tactic(auto, unfolding(crate::specs::LineReading::read_plain))]
fn read_plain(word: &[u8]) -> Result<Reply<FlagAnd>, LineKind>
    ensures { result ≡ read_plain word.now }
{
    by_word!(word,
        b"started" => Ok(Reply::Started),
        b"pending" => Ok(Reply::Pending),
        b"done" => Ok(Reply::Done),
        b"declared" => Ok(Reply::Declared),
        b"already-failed" => Ok(Reply::AlreadyFailed),
        b"revoked" => Ok(Reply::Revoked),
        b"already-revoked" => Ok(Reply::AlreadyRevoked),
        b"yes" => Ok(Reply::Standing { revoked: true }),
        b"no" => Ok(Reply::Standing { revoked: false }),
        b"freed" => Ok(Reply::Freed),
        else Err(LineKind::Words)
    )
}
