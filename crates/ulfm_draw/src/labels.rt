//! Rows in words: a few in the lane, and a sentence for those who read or hear it.
ghost use Rattle.std.specs.Prelude.{OnOk};
ghost use Rattle.ulfm_draw.specs.Words.{Appends};

use crate::say::{Part, say, say_lane};
use std::alloc::{AllocError, Allocator};
use ulfm_laws::FlagAnd;
use ulfm_model::Line;
use ulfm_model::call::{Call, comm_of};
use ulfm_model::contribution::{Contribution, Offer};
use ulfm_model::event::Event;
use ulfm_model::reply::Reply;
use ulfm_script::verb;
use ulfm_story::Row;

/// The words in a row's lane.
pub fn put_label<A: Allocator>(label: &mut Vec<u8, A>, row: &Row) -> Result<(), AllocError>
    ensures { OnOk result (Appends label.old.items label.new.items) }
{
    say(label, &label_of(&row.line))
}

/// What a label says: a word, and a number or a word more.
type Label = [Part<'static>; 2];

/// A word and a number.
fn counted(word: &'static [u8], number: u16) -> Label {
    [Part::Text(word), Part::Number(u32::from(number))]
}

/// A word alone.
fn alone(word: &'static [u8]) -> Label {
    [Part::Text(word), Part::Text(b"")]
}

/// The label of a line.
fn label_of(line: &Line<FlagAnd>) -> Label {
    match *line {
        Line::Called { call: asked, .. } => call_label(&asked),
        Line::Looked { failures, .. } => counted(b"sees ", failures),
        Line::Happened {
            event: Some(event),
            ..
        } => event_label(&event),
        Line::Replied {
            reply: Some(reply),
            ..
        } => reply_label(&reply),
        _ => alone(b""),
    }
}

/// A call's verb and its communicator; of a declaration the rank.
fn call_label(asked: &Call<FlagAnd>) -> Label {
    let number = match *asked {
        Call::Fail { rank } => rank,
        _ => comm_of(asked),
    };
    counted(verb(asked), number)
}

/// What an event does.
fn event_label(event: &Event<FlagAnd>) -> Label {
    match *event {
        Event::Fail { .. } => alone(b"declared"),
        Event::Settle { given, .. } => match given.offer {
            Offer::Flag(flag) => [Part::Flag(flag), Part::Text(b"")],
            Offer::Ctx(_) => alone(b"ids"),
        },
        Event::Mark { .. } => alone(b"left out"),
        Event::Arrive { .. } => alone(b"arrives"),
        Event::Revoke { comm } => counted(b"revokes ", comm),
        Event::Spawn { comm, .. } => counted(b"makes ", comm),
    }
}

/// What a reply says.
fn reply_label(reply: &Reply<FlagAnd>) -> Label {
    match *reply {
        Reply::Agreed { value, raised, .. } => {
            let more: &[u8] = if raised { b" raised" } else { b"" };
            [Part::Flag(value), Part::Text(more)]
        }
        Reply::Shrunk { comm, .. } => counted(b"gets ", comm),
        Reply::FailedGroup { count } => counted(b"failed ", count),
        Reply::Acked { count } => counted(b"acked ", count),
        Reply::Refused(refusal) => alone(refusal.name().as_bytes()),
        ref other => alone(plain_word(other)),
    }
}

/// The word of a reply that has no number.
fn plain_word(reply: &Reply<FlagAnd>) -> &'static [u8] {
    match *reply {
        Reply::Started => b"started",
        Reply::Pending => b"pending",
        Reply::Done => b"done",
        Reply::Declared => b"declared",
        Reply::AlreadyFailed => b"already-failed",
        Reply::Revoked => b"revoked",
        Reply::AlreadyRevoked => b"already-revoked",
        Reply::Standing { revoked } => { if revoked { b"yes" } else { b"no" } }
        Reply::Freed => b"freed",
        _ => b"",
    }
}

/// What stands behind so many spaces.
fn behind_words(line: &[u8], spaces: usize) -> &[u8] {
    let mut seen = 0usize;
    for (i, byte) in line.iter().enumerate() {
        if *byte == b' ' {
            seen = seen.saturating_add(1);
            if seen == spaces {
                return &line[i + 1..];
            }
        }
    }
    &[]
}

/// A row as a sentence, behind the number of its line.
#[tactic(auto, using(crate::proofs::Appending::appends_then))]
pub fn put_title<A: Allocator>(
    title: &mut Vec<u8, A>,
    number: u32,
    row: &Row,
    line: &[u8],
) -> Result<(), AllocError>
    ensures { OnOk result (Appends title.old.items title.new.items) }
{
    let head = [
        Part::Text(b"line "),
        Part::Number(number),
        Part::Text(b": "),
    ];
    say(title, &head)?;
    say_lane(title, row.lane)?;
    title_line(title, &row.line, line)
}

/// A line as a sentence, behind whose it is.
fn title_line<A: Allocator>(
    title: &mut Vec<u8, A>,
    told: &Line<FlagAnd>,
    line: &[u8],
) -> Result<(), AllocError>
    ensures { OnOk result (Appends title.old.items title.new.items) }
{
    match *told {
        Line::Called { .. } => say(
            title,
            &[Part::Text(b" calls "), Part::Text(behind_words(line, 1))],
        ),
        Line::Looked { failures, .. } => say(
            title,
            &[
                Part::Text(b" sees "),
                Part::Number(u32::from(failures)),
                Part::Text(b" declared"),
            ],
        ),
        Line::Happened { event, .. } => match event {
            Some(event) => title_event(title, &event),
            None => say(title, &[]),
        },
        Line::Replied { point, .. } => say(
            title,
            &[
                Part::Text(b" is answered "),
                Part::Text(behind_words(line, 3)),
                Part::Text(b", at the point after event "),
                Part::Number(point),
            ],
        ),
    }
}

/// An event as a sentence, behind who makes it.
#[tactic(auto, using(crate::proofs::Appending::appends_then))]
fn title_event<A: Allocator>(
    title: &mut Vec<u8, A>,
    event: &Event<FlagAnd>,
) -> Result<(), AllocError>
    ensures { OnOk result (Appends title.old.items title.new.items) }
{
    say(title, &deed_of(event))?;
    say(title, &round_of(event))?;
    match *event {
        Event::Fail { .. } => say(title, &alone(b" failed")),
        Event::Settle { given, .. } => title_counts(title, &given),
        _ => say(title, &[]),
    }
}

/// What an event does, and to whom.
fn deed_of(event: &Event<FlagAnd>) -> Label {
    match *event {
        Event::Fail { rank } => counted(b" declares rank ", rank),
        Event::Settle { given, .. } => contributed(&given),
        Event::Mark { rank, .. } => counted(b" leaves rank ", rank),
        Event::Arrive { .. } => alone(b" arrives"),
        Event::Revoke { comm } => counted(b" revokes communicator ", comm),
        Event::Spawn { comm, .. } => counted(b" makes communicator ", comm),
    }
}

/// What is contributed.
fn contributed(given: &Contribution<FlagAnd>) -> Label {
    match given.offer {
        Offer::Flag(flag) => [Part::Text(b" contributes the flag "), Part::Flag(flag)],
        Offer::Ctx(mask) => {
            let bits = FlagAnd { bits: mask.bits };
            [
                Part::Text(b" contributes the context ids "),
                Part::Flag(bits),
            ]
        }
    }
}

/// The round of an event and its communicator, behind what they are to it; nothing where it has none.
fn round_of(event: &Event<FlagAnd>) -> [Part<'static>; 4] {
    let (before, round, comm): (&[u8], u16, u16) = match *event {
        Event::Settle { comm, round, .. } => (b" to round ", round, comm),
        Event::Mark { comm, round, .. } => (b" out of round ", round, comm),
        Event::Arrive { comm, round, .. } => (b" in barrier round ", round, comm),
        Event::Spawn { parent, round, .. } => (b" of round ", round, parent),
        Event::Fail { .. } | Event::Revoke { .. } => return [Part::Text(b""); 4],
    };
    let round = Part::Number(u32::from(round));
    let comm = Part::Number(u32::from(comm));
    [Part::Text(before), round, Part::Text(b" of "), comm]
}

/// What is known by who contributes.
fn title_counts<A: Allocator>(
    title: &mut Vec<u8, A>,
    given: &Contribution<FlagAnd>,
) -> Result<(), AllocError>
    ensures { OnOk result (Appends title.old.items title.new.items) }
{
    say(
        title,
        &[
            Part::Text(b", knowing "),
            Part::Number(u32::from(given.known.count)),
            Part::Text(b" failures, of which "),
            Part::Number(u32::from(given.acked.count)),
            Part::Text(b" are acknowledged"),
        ],
    )
}
