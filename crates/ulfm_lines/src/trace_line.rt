//! The lines of a trace, read.
ghost use Rattle.std.specs.Prelude.{◌≡◌, ◌≢◌, ◌≤◌, ◌++◌, [], Bool, List, ℕ, Option, Some, IfOk, IfSome, MatchOption, length};
ghost use Rattle.ulfm_script.specs.Words.{Gives, rest_at};
ghost use Rattle.ulfm_lines.specs.Fields.{at_field};
ghost use Rattle.ulfm_lines.specs.LineReading.{called_line, happened, happened_line, line_head, line_listing, looked, looked_line, replied_line, reply_listing};
ghost use Rattle.ulfm_model.specs.declared.event.Caller.{Caller as CallerOf};
ghost use Rattle.ulfm_model.specs.declared.line.Line.TheVariants.{Called, Looked, Happened};
ghost use Rattle.ulfm_script.specs.Calls.{ScriptCall};
ghost use Rattle.ulfm_lines.specs.LineTexts.{TraceEvent, TraceLine};
ghost use Rattle.ulfm_lines.specs.Telling.{ListsRanks, TextTells};

use crate::events::read_event;
use crate::fields::{behind, caller_field, number_field, over, point_field, rank_field};
use crate::replies::reply_field;
use std::alloc::{AllocError, Allocator};
use ulfm_laws::FlagAnd;
use ulfm_model::{Caller, Event, Line, Reply};
use ulfm_script::{LineKind, is_padded, read_call};

/// The most bytes that a line of a trace may have, without its newline.
pub const LONGEST: usize = 8192;

/// What a line of a trace tells, without its newline: a typed line, or none where the line isn't of the grammar. The group has the ranks
/// that a reply lists afterwards, in the place of what it had; nobody for other lines.
///
/// Lines are `call X`, `look R L`, `event B ..` and `reply B P TEXT`, as [`crate::print_line`] prints them; they have at most 8192
/// bytes. An event with counts that no contribution and no mark has, and a `shrunk` with a context id over 255, are of the grammar and
/// told as none of the events and replies. Only memory can be refused, for the group; nothing is said of it then.
pub fn read_line<A: Allocator>(
    line: &[u8],
    group: &mut Vec<u16, A>,
) -> Result<Option<Line<FlagAnd>>, AllocError>
    // What is read is told so, and what is told so is read.
    ensures found { IfOk result (λ read. IfSome read (λ told. TextTells line.now group.new.items told)) }
    ensures only { (told : TraceLine) (ranks : List ℕ) → TextTells line.now ranks told
        → IfOk result (λ read. (read ≡ Some told) × (group.new.items ≡ ranks)) }
{
    if line.len() > LONGEST {
        return Ok(None);
    }
    match read_head(line) {
        Err(_) => Ok(None),
        Ok((mut told, ranks)) => {
            if !read_ranks(ranks, group)? {
                return Ok(None);
            }
            list(&mut told, group.len() as u16);
            Ok(Some(told))
        }
    }
}

/// What stands behind this beginning of a line that isn't too long, if the line begins so.
#[inline(always)]
fn short_behind<'a>(beginning: &[u8], line: &'a [u8]) -> Option<&'a [u8]>
    ensures { MatchOption result ((rest : List ℕ) → length line.now ≤ 8192 → line.now ≢ beginning.now ++ rest)
        (λ rest. (length line.now ≤ 8192) × (line.now ≡ beginning.now ++ rest.now)) }
{
    if LONGEST < line.len() {
        return None;
    }
    behind(beginning, line)
}

/// The look that a line tells, if it tells one. It is for who reads many lines, of which a third are looks: such a line is read in line, and nothing is kept
/// of it in memory.
///
/// ```
/// let told = read_look(b"look 5 2");
/// assert!(rt; matches!(told, Some(Line::Looked { rank: 5, .. })));
/// assert!(rt; read_look(b"look 5").is_none());
/// assert!(rt; read_look(b"call get 5 0").is_none());
/// ```
#[inline(always)]
pub fn read_look(line: &[u8]) -> Option<Line<FlagAnd>>
    ensures found { IfSome result (λ told. TextTells line.now [] told) }
    ensures only { (rank failures : ℕ) → TextTells line.now [] (Looked rank failures) → result ≡ Some (Looked rank failures) }
{
    let fields = short_behind(b"look ", line)?;
    match look_fields(Some(fields)) {
        Ok((rank, failures)) => Some(Line::Looked { rank, failures }),
        Err(_) => None,
    }
}

/// The beginning of a call that a line tells, if it tells one. It is for who reads many lines, as [`read_look`] is.
///
/// ```
/// let asked = Call::Poll { rank: 5, comm: 0 };
/// let told = read_begin(b"call poll 5 0");
/// assert!(rt; matches!(told, Some(Line::Called { call, .. }) if call == asked));
/// assert!(rt; read_begin(b"look 5 2").is_none());
/// ```
#[inline(always)]
pub fn read_begin(line: &[u8]) -> Option<Line<FlagAnd>>
    ensures found { IfSome result (λ told. TextTells line.now [] told) }
    ensures only { (call : ScriptCall) (padded : Bool) → TextTells line.now [] (Called call padded) → result ≡ Some (Called call padded) }
{
    let text = short_behind(b"call ", line)?;
    match read_call(text) {
        Ok(call) => {
            let padded = is_padded(text, &call);
            Some(Line::Called { call, padded })
        }
        Err(_) => None,
    }
}

/// The event that a line tells, if it tells one. It is for who reads many lines, as [`read_look`] is.
///
/// ```
/// let told = read_happening(b"event - fail 5");
/// let failed = Some(Event::Fail { rank: 5 });
/// assert!(rt; matches!(told, Some(Line::Happened { event, .. }) if event == failed));
/// assert!(rt; read_happening(b"look 5 2").is_none());
/// ```
#[inline(always)]
pub fn read_happening(line: &[u8]) -> Option<Line<FlagAnd>>
    ensures found { IfSome result (λ told. TextTells line.now [] told) }
    ensures only { (by : CallerOf) (event : Option TraceEvent) → TextTells line.now [] (Happened by event) → result ≡ Some (Happened by event) }
{
    let fields = short_behind(b"event ", line)?;
    match event_fields(Some(fields)) {
        Ok((by, event)) => Some(Line::Happened { by, event }),
        Err(_) => None,
    }
}

/// The ranks that stand there, in the place of what the group had; false where anything else does.
fn read_ranks<A: Allocator>(
    ranks: Option<&[u8]>,
    group: &mut Vec<u16, A>,
) -> Result<bool, AllocError>
    ensures { IfOk result (λ read. ListsRanks (rest_at ranks.entry) group.new.items read) }
{
    group.clear();
    let mut left = ranks;
    'ranks: while left.is_some() {
        match rank_field(left) {
            Err(_) => return Ok(false),
            Ok((rank, rest)) => {
                group.push(rank)?;
                left = rest;
            }
        }
    }
    Ok(true)
}

/// Gives a line the number of ranks that it lists.
fn list(line: &mut Line<FlagAnd>, count: u16)
    ensures { line.new ≡ line_listing count line.old }
{
    if let Line::Replied {
        reply: Some(reply),
        ..
    } = line
    {
        list_in_reply(reply, count);
    }
}

fn list_in_reply(reply: &mut Reply<FlagAnd>, count: u16)
    ensures { reply.new ≡ reply_listing count reply.old }
{
    match reply {
        Reply::FailedGroup { count: listed } => *listed = count,
        Reply::Shrunk { size, .. } => *size = count,
        _ => {}
    }
}

/// A line, but for the ranks that it lists, which follow where there are any. It runs for each reply of a trace, which others have looked for no line of
/// another kind in, and so stands in line and looks for a reply first.
#[inline(always)]
fn read_head(line: &[u8]) -> Result<(Line<FlagAnd>, Option<&[u8]>), LineKind>
    ensures { Gives at_field result (line_head line.now) }
{
    if let Some(fields) = behind(b"reply ", line) {
        read_replied(Some(fields))
    } else if let Some(text) = behind(b"call ", line) {
        read_called(text)
    } else if let Some(fields) = behind(b"look ", line) {
        read_looked(Some(fields))
    } else if let Some(fields) = behind(b"event ", line) {
        read_happened(Some(fields))
    } else {
        Err(LineKind::Words)
    }
}

#[tactic(auto, unfolding(crate::specs::LineReading::called_line))]
fn read_called(text: &[u8]) -> Result<(Line<FlagAnd>, Option<&[u8]>), LineKind>
    ensures { Gives at_field result (called_line (Some text.now)) }
{
    let call = read_call(text)?;
    let padded = is_padded(text, &call);
    Ok((Line::Called { call, padded }, None))
}

/// Who looked, and how many failures it found.
#[inline(always)]
fn look_fields(text: Option<&[u8]>) -> Result<(u16, u16), LineKind>
    ensures { result ≡ looked (rest_at text.entry) }
{
    let (rank, rest) = rank_field(text)?;
    let (failures, rest) = number_field(rest)?;
    over(rest)?;
    Ok((rank, failures))
}

#[inline(always)]
#[tactic(auto, unfolding(crate::specs::LineReading::looked_line))]
fn read_looked(text: Option<&[u8]>) -> Result<(Line<FlagAnd>, Option<&[u8]>), LineKind>
    ensures { Gives at_field result (looked_line (rest_at text.entry)) }
{
    let (rank, failures) = look_fields(text)?;
    Ok((Line::Looked { rank, failures }, None))
}

/// Who made something happen, and what.
fn event_fields(text: Option<&[u8]>) -> Result<(Caller, Option<Event<FlagAnd>>), LineKind>
    ensures { result ≡ happened (rest_at text.entry) }
{
    let (by, rest) = caller_field(text)?;
    let event = read_event(rest)?;
    Ok((by, event))
}

#[tactic(auto, unfolding(crate::specs::LineReading::happened_line))]
fn read_happened(text: Option<&[u8]>) -> Result<(Line<FlagAnd>, Option<&[u8]>), LineKind>
    ensures { Gives at_field result (happened_line (rest_at text.entry)) }
{
    let (by, event) = event_fields(text)?;
    Ok((Line::Happened { by, event }, None))
}

/// It stands in line as `read_head` does.
#[inline(always)]
#[tactic(auto, unfolding(crate::specs::LineReading::replied_line))]
fn read_replied(text: Option<&[u8]>) -> Result<(Line<FlagAnd>, Option<&[u8]>), LineKind>
    ensures { Gives at_field result (replied_line (rest_at text.entry)) }
{
    let (by, rest) = caller_field(text)?;
    let (point, rest) = point_field(rest)?;
    let (reply, rest) = reply_field(rest)?;
    Ok((Line::Replied { by, point, reply }, rest))
}
