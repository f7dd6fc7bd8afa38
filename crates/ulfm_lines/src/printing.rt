//! The lines of a trace, printed.
ghost use Rattle.std.specs.Prelude.{◌≡◌, ◌++◌, ◌∷◌, [], OnOk};
ghost use Rattle.std.specs.Fmt.{decimal};
ghost use Rattle.ulfm_lines.specs.LineTexts.{caller_text, event_text, line_text, offer_text, place_text, settle_text, some_event_text, some_reply_text};

use std::alloc::{AllocError, Allocator};
use ulfm_laws::FlagAnd;
use ulfm_model::contribution::{Contribution, Offer};
use ulfm_model::event::{Caller, Event};
use ulfm_model::{Line, Reply};
use ulfm_script::{
    LastGroup, print_behind, print_flag, print_labelled, print_number, print_point, print_reply,
    print_spelled_call,
};

/// Appends a line of a trace, without a newline.
///
/// `group` has the ranks that a reply lists: a communicator's failed group for `FailedGroup`, a new one's members for `Shrunk`. Other
/// lines don't look at it. An event or a reply that is none is printed as nothing, which is no line of a trace. After an error nothing
/// is said of the text.
pub fn print_line<A: Allocator>(
    text: &mut Vec<u8, A>,
    line: &Line<FlagAnd>,
    group: &[u16],
    last: &mut LastGroup<A>,
) -> Result<(), AllocError>
    ensures ok { OnOk result (text.new.items ≡ text.old.items ++ line_text group.now line.now) }
{
    match *line {
        Line::Called { call, padded } => {
            text.extend_from_slice(b"call ")?;
            print_spelled_call(text, &call, padded)
        }
        Line::Looked { rank, failures } => {
            print_labelled(text, b"look ", rank)?;
            print_behind(text, failures)
        }
        Line::Happened { by, event } => {
            print_by(text, b"event ", by)?;
            print_some_event(text, event)
        }
        Line::Replied { by, point, reply } => {
            print_by(text, b"reply ", by)?;
            print_replied(text, point, reply, group, last)
        }
    }
}

/// A reply behind its point.
fn print_replied<A: Allocator>(
    text: &mut Vec<u8, A>,
    point: u32,
    reply: Option<Reply<FlagAnd>>,
    group: &[u16],
    last: &mut LastGroup<A>,
) -> Result<(), AllocError>
    ensures { OnOk result (text.new.items ≡ text.old.items ++ (decimal point ++ 32 ∷ some_reply_text group.now reply)) }
{
    print_point(text, point)?;
    text.push(b' ')?;
    print_some_reply(text, reply, group, last)
}

/// A caller behind its label, and a space.
fn print_by<A: Allocator>(text: &mut Vec<u8, A>, label: &[u8], by: Caller) -> Result<(), AllocError>
    ensures { OnOk result (text.new.items ≡ text.old.items ++ (label.now ++ (caller_text by ++ 32 ∷ []))) }
{
    text.extend_from_slice(label)?;
    print_caller(text, by)?;
    text.push(b' ')?;
    Ok(())
}

fn print_caller<A: Allocator>(text: &mut Vec<u8, A>, by: Caller) -> Result<(), AllocError>
    ensures { OnOk result (text.new.items ≡ text.old.items ++ caller_text by) }
{
    match by {
        Caller::Outside => text.extend_from_slice(b"-"),
        Caller::Rank(rank) => print_number(text, rank),
    }
}

fn print_some_event<A: Allocator>(
    text: &mut Vec<u8, A>,
    event: Option<Event<FlagAnd>>,
) -> Result<(), AllocError>
    ensures { OnOk result (text.new.items ≡ text.old.items ++ some_event_text event) }
{
    match event {
        None => Ok(()),
        Some(event) => print_event(text, event),
    }
}

fn print_some_reply<A: Allocator>(
    text: &mut Vec<u8, A>,
    reply: Option<Reply<FlagAnd>>,
    group: &[u16],
    last: &mut LastGroup<A>,
) -> Result<(), AllocError>
    ensures { OnOk result (text.new.items ≡ text.old.items ++ some_reply_text group.now reply) }
{
    match reply {
        None => Ok(()),
        Some(reply) => print_reply(text, &reply, group, last),
    }
}

fn print_event<A: Allocator>(text: &mut Vec<u8, A>, event: Event<FlagAnd>) -> Result<(), AllocError>
    ensures { OnOk result (text.new.items ≡ text.old.items ++ event_text event) }
{
    match event {
        Event::Fail { rank } => print_labelled(text, b"fail ", rank),
        Event::Settle {
            comm,
            round,
            rank,
            given,
        } => print_settled(text, comm, round, rank, given),
        Event::Mark {
            comm,
            round,
            rank,
            known,
        } => {
            print_place(text, b"mark ", comm, round, rank)?;
            print_labelled(text, b" known ", known.known.count)
        }
        Event::Arrive { comm, round, rank } => print_place(text, b"arrive ", comm, round, rank),
        Event::Revoke { comm } => print_labelled(text, b"revoke ", comm),
        Event::Spawn {
            comm,
            parent,
            round,
        } => print_place(text, b"spawn ", comm, parent, round),
    }
}

/// Three numbers behind their label.
fn print_place<A: Allocator>(
    text: &mut Vec<u8, A>,
    label: &[u8],
    a: u16,
    b: u16,
    c: u16,
) -> Result<(), AllocError>
    ensures { OnOk result (text.new.items ≡ text.old.items ++ (label.now ++ place_text a b c)) }
{
    print_labelled(text, label, a)?;
    print_behind(text, b)?;
    print_behind(text, c)
}

/// A settlement: its place, and what the rank contributes.
fn print_settled<A: Allocator>(
    text: &mut Vec<u8, A>,
    comm: u16,
    round: u16,
    rank: u16,
    given: Contribution<FlagAnd>,
) -> Result<(), AllocError>
    ensures { OnOk result (text.new.items ≡ text.old.items ++ settle_text comm round rank given.offer given.known.count given.acked.count) }
{
    print_place(text, b"settle ", comm, round, rank)?;
    text.push(b' ')?;
    print_offer(text, given.offer)?;
    print_labelled(text, b" known ", given.known.count)?;
    print_labelled(text, b" acked ", given.acked.count)
}

fn print_offer<A: Allocator>(text: &mut Vec<u8, A>, offer: Offer<FlagAnd>) -> Result<(), AllocError>
    ensures { OnOk result (text.new.items ≡ text.old.items ++ offer_text offer) }
{
    let (label, flag): (&[u8], FlagAnd) = match offer {
        Offer::Flag(flag) => (b"flag ", flag),
        Offer::Ctx(mask) => (b"ctx ", FlagAnd { bits: mask.bits }),
    };
    text.extend_from_slice(label)?;
    print_flag(text, flag)
}
