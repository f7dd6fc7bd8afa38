//! What the signs of a picture mean: of those that it has.
ghost use Rattle.std.specs.Prelude.{◌<◌, ◌≤◌, ◌^◌, IfOk};

use crate::layout::span_of;
use crate::{Group, Leaf};
use std::alloc::{AllocError, Allocator};
use ulfm_model::Line;
use ulfm_model::event::Event;
use ulfm_story::{Story, Tone};

/// A sign or a colour.
#[derive(Clone, Copy, Debug, PartialEq, Eq)]
pub(crate) enum Sign {
    Contribution,
    Mark,
    Declaration,
    Arrival,
    Revocation,
    Made,
    Look,
    Decided,
    Told,
    Early,
    Bar(Tone),
}

/// Beyond this nothing is drawn.
const FAR: u32 = 16_777_216;

/// All of them, in the order in which they are explained.
const SIGNS: [Sign; 16] = [
    Sign::Contribution,
    Sign::Mark,
    Sign::Declaration,
    Sign::Arrival,
    Sign::Revocation,
    Sign::Made,
    Sign::Look,
    Sign::Decided,
    Sign::Told,
    Sign::Early,
    Sign::Bar(Tone::Started),
    Sign::Bar(Tone::Pending),
    Sign::Bar(Tone::Answered),
    Sign::Bar(Tone::Raised),
    Sign::Bar(Tone::Refused),
    Sign::Bar(Tone::Open),
];

/// The class of a call's bar.
pub(crate) fn tone_class(tone: Tone) -> &'static [u8] {
    match tone {
        Tone::Started => b"start",
        Tone::Pending => b"pend",
        Tone::Answered => b"good",
        Tone::Raised => b"warn",
        Tone::Refused => b"bad",
        Tone::Open => b"open",
    }
}

impl Sign {
    /// What it means.
    fn words(self) -> &'static [u8] {
        match self {
            Sign::Contribution => b"contribution, in the colour of its round",
            Sign::Mark => b"left out by the rank that it is joined to",
            Sign::Declaration => b"declared failed; the lane is red from there on",
            Sign::Arrival => b"arrival in a barrier",
            Sign::Revocation => b"revocation, for all ranks",
            Sign::Made => b"new communicator",
            Sign::Look => b"end of a look at the list of failures",
            Sign::Decided => b"here a round is decided, or all have arrived",
            Sign::Told => b"reply with what that round decided",
            Sign::Early => b"point of a reply that lies before its end",
            Sign::Bar(Tone::Started) => b"started",
            Sign::Bar(Tone::Pending) => b"pending",
            Sign::Bar(Tone::Answered) => b"answered",
            Sign::Bar(Tone::Raised) => b"answered, raised",
            Sign::Bar(Tone::Refused) => b"refused",
            Sign::Bar(Tone::Open) => b"open at the end",
        }
    }

    /// How much room it takes in a line of the legend, with its words.
    fn room(self) -> u32 {
        34 + span_of(self.words().len(), 7) + 20
    }

    /// Whether a line has this sign.
    fn is_of_line(self, line: &Line<ulfm_laws::FlagAnd>) -> bool {
        match *line {
            Line::Looked { .. } => self == Sign::Look,
            Line::Happened {
                event: Some(event),
                ..
            } => match event {
                Event::Fail { .. } => self == Sign::Declaration,
                Event::Settle { .. } => self == Sign::Contribution,
                Event::Mark { .. } => self == Sign::Mark,
                Event::Arrive { .. } => self == Sign::Arrival,
                Event::Revoke { .. } => self == Sign::Revocation,
                Event::Spawn { .. } => self == Sign::Made,
            },
            _ => false,
        }
    }

    /// Whether a story has this sign.
    fn is_in<A: Allocator>(self, story: &Story<A>) -> bool {
        match self {
            Sign::Decided => !story.notes.is_empty(),
            Sign::Told => story
                .rows
                .iter()
                .any(|row| row.event.is_none() && row.round.is_some()),
            Sign::Early => story.bars.iter().any(|bar| bar.early.is_some()),
            Sign::Bar(tone) => story.bars.iter().any(|bar| bar.tone == tone),
            _ => story.rows.iter().any(|row| self.is_of_line(&row.line)),
        }
    }

    /// Draws it at this place.
    fn draw<A: Allocator + Copy>(
        self,
        group: &mut Group<A>,
        x: u32,
        y: u32,
    ) -> Result<(), AllocError>
        requires right { x < 2 ^ 30 }
        requires low { 64 ≤ y }
        requires high { y < 2 ^ 30 }
    {
        let middle = x + 10;
        let up = y - 4;
        match self {
            Sign::Contribution => {
                group.put(Leaf::Disc, b"k0", &[x + 6, up, 6], b"")?;
                group.put(Leaf::Disc, b"k1", &[x + 20, up, 6], b"")
            }
            Sign::Mark => {
                group.put(Leaf::Disc, b"mark", &[middle, up, 7], b"")?;
                group.put(Leaf::Cross, b"mark", &[middle - 3, up - 3], b"")
            }
            Sign::Declaration => group.put(
                Leaf::Diamond,
                b"fail",
                &[middle, up - 8, 8, 8, 8, 8, 8, 8],
                b"",
            ),
            Sign::Arrival => group.put(Leaf::Triangle, b"k0", &[middle, up - 6, 7, 12, 14], b""),
            Sign::Revocation => group.put(Leaf::Box, b"rev", &[x + 4, up - 6, 12, 12, 2], b""),
            Sign::Made => group.put(Leaf::Hexagon, b"new", &[middle - 3, up - 7], b""),
            Sign::Look => group.put(Leaf::Across, b"look", &[x, up, x + 20], b""),
            Sign::Decided => group.put(Leaf::Box, b"k0", &[x, up, 22, 3, 1], b""),
            Sign::Told => group.put(Leaf::Box, b"k0", &[x + 6, up - 2, 8, 4, 0], b""),
            Sign::Early => group.put(Leaf::Point, b"pt", &[middle, up - 5], b""),
            Sign::Bar(tone) => {
                group.put(
                    Leaf::Box,
                    tone_class(tone),
                    &[x + 3, up - 6, 14, 12, 5],
                    b"",
                )
            }
        }
    }
}

/// Where a sign of this room stands in lines of this width, where the last one ended at this x and y: in the next line, if it has no room there.
fn next_place(last: (u32, u32), room: u32, width: u32) -> (u32, u32) {
    let (x, y) = last;
    if x > 24 && x.saturating_add(room) > width {
        return (24, y.saturating_add(26));
    }
    (x, y)
}

/// Draws the legend from this y on, in lines of this width, and gives the y of its last line.
pub(crate) fn draw_legend<A: Allocator + Copy>(
    group: &mut Group<A>,
    story: &Story<A>,
    top: u32,
    width: u32,
) -> Result<u32, AllocError>
    ensures { IfOk result (λ y. y < 2 ^ 25) }
{
    let mut at = (24u32, top);
    for sign in SIGNS {
        if !sign.is_in(story) {
            continue;
        }
        let room = sign.room();
        at = next_place(at, room, width);
        let place = (at.0.min(FAR), at.1.max(64).min(FAR));
        sign.draw(group, place.0, place.1)?;
        group.put(Leaf::Words, b"g", &[place.0 + 34, place.1], sign.words())?;
        at.0 = at.0.saturating_add(room);
    }
    Ok(at.1.min(FAR))
}

/// How high the legend of a story is, in lines of this width.
pub(crate) fn legend_height<A: Allocator>(story: &Story<A>, width: u32) -> u32
    ensures { result < 2 ^ 20 }
{
    let mut at = (24u32, 0u32);
    for sign in SIGNS {
        if !sign.is_in(story) {
            continue;
        }
        let room = sign.room();
        at = next_place(at, room, width);
        at.0 = at.0.saturating_add(room);
    }
    at.1.min(1000)
}
