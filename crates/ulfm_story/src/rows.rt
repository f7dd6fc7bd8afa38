//! The rows of a picture, one for each line of the trace behind its header.
ghost use Rattle.std.specs.Prelude.{◌≡◌, ◌<◌, ◌^◌};
ghost use Rattle.ulfm_model.specs.Answers.{traits_of};
ghost use Rattle.ulfm_story.specs.Rows.{caller_lane, event_target, rank_lane};

use std::alloc::Allocator;
use ulfm_laws::FlagAnd;
use ulfm_model::Line;
use ulfm_model::call::{Call, rank_of};
use ulfm_model::event::{Caller, Event};

/// The lane of the outside. That of a rank is its number and one more.
pub const OUTSIDE: u16 = 0;

/// A line of the trace as it is drawn.
#[derive(Clone, Copy)]
pub struct Row {
    /// What the line of the trace tells.
    pub line: Line<FlagAnd>,
    /// The lane of whose line it is.
    pub lane: u16,
    /// The lane of whom it declares or leaves out.
    pub target: Option<u16>,
    /// The number of the event, counted from 1.
    pub event: Option<u32>,
    /// The round whose colour it has.
    pub round: Option<u16>,
}

/// What a row brings about for all: a round's decision, or that all have arrived in a barrier.
#[derive(Drop)]
pub struct Note<A: Allocator> {
    /// The row whose event brings it about, counted from 0.
    pub row: u16,
    /// What it says, for the picture.
    pub words: Vec<u8, A>,
    /// The round that is decided; none of a barrier.
    pub round: Option<u16>,
    /// The lanes of the first and the last member.
    pub first: u16,
    /// That of the last member.
    pub last: u16,
}

/// A count as a number of 16 bits; the greatest where it has more.
pub(crate) fn short(count: usize) -> u16
    ensures { count < 2 ^ 16 → result ≡ count }
{
    u16::try_from(count).unwrap_or(u16::MAX)
}

/// The lane of a rank.
pub fn lane_of_rank(rank: u16) -> u16
    ensures { result ≡ rank_lane rank }
{
    rank.saturating_add(1)
}

/// The lane of a caller.
pub fn lane_of(by: Caller) -> u16
    ensures { result ≡ caller_lane by }
{
    match by {
        Caller::Outside => OUTSIDE,
        Caller::Rank(rank) => lane_of_rank(rank),
    }
}

/// Who makes a call.
pub(crate) fn caller_of(asked: &Call<FlagAnd>) -> Caller
    ensures { result ≡ (traits_of asked.now).by }
{
    match *asked {
        Call::Fail { .. } => Caller::Outside,
        _ => Caller::Rank(rank_of(asked)),
    }
}

/// Whom an event declares or leaves out.
pub fn target_of(event: &Event<FlagAnd>) -> Option<u16>
    ensures { result ≡ event_target event.now }
{
    match *event {
        Event::Fail { rank } | Event::Mark { rank, .. } => Some(lane_of_rank(rank)),
        _ => None,
    }
}

/// The round that an event is of, by which its colour is chosen.
pub fn round_of(event: &Event<FlagAnd>) -> Option<u16> {
    match *event {
        Event::Settle { round, .. } | Event::Mark { round, .. } | Event::Arrive { round, .. } => {
            Some(round)
        }
        _ => None,
    }
}
