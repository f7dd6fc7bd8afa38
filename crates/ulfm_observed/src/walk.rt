//! What a rank's own lines tell of one round of the world's communicator.
ghost use Rattle.std.specs.Prelude.{◌≡◌, map};
ghost use Rattle.ulfm_model.specs.declared.event.Caller.TheVariants.{Rank};
ghost use Rattle.ulfm_observed.specs.declared.shows.Whose.TheVariants.{Of};
ghost use Rattle.ulfm_observed.specs.Explains.{is_heard_by};
ghost use Rattle.ulfm_observed.specs.LogTexts.{heard_of};
ghost use Rattle.ulfm_observed.specs.Refuted.{answered, begun, called, is_due, is_refused, is_started, new_walk};
ghost use Rattle.ulfm_observed.specs.Refuted.{one_less, passed, polled, polled_world, replied, start_answered, walk_of, went_on};

use crate::log::{Item, LogLine, Seen};
use crate::stages::{caller_of, same_caller};
use std::alloc::Allocator;
use ulfm_laws::FlagAnd;
use ulfm_model::{Call, Caller, Reply};

/// How far a rank has come with a round of the world's communicator, by its own lines.
#[derive(Clone, Copy)]
pub struct Walk {
    /// Its open call.
    pub under_way: Option<Call<FlagAnd>>,
    /// How many rounds come before that one, if it isn't begun or past.
    pub left: Option<u16>,
    /// The flag that it gave to the round.
    pub gave: Option<FlagAnd>,
    /// Whether its agree of the round is open.
    pub waits: bool,
    /// What it was told of the round.
    pub told: Option<Seen>,
}

/// Nothing was read: so many rounds come before the one that is asked for.
fn new_walk(round: u16) -> Walk
    ensures { result ≡ new_walk round }
{
    Walk {
        under_way: None,
        left: Some(round),
        gave: None,
        waits: false,
        told: None,
    }
}

/// Whether the next round is the one that is asked for.
fn is_due(left: Option<u16>) -> bool
    ensures { result ≡ is_due left }
{
    match left {
        Some(left) => left == 0,
        None => false,
    }
}

/// How many rounds come before it, after one more was begun.
fn one_less(left: Option<u16>) -> Option<u16>
    ensures { result ≡ one_less left }
{
    match left {
        Some(left) => { if left == 0 { None } else { Some(left - 1) } }
        None => None,
    }
}

impl Walk {
    /// Behind a start that was answered `started`.
    fn begun(self, asked: &Call<FlagAnd>) -> Walk
        ensures { result ≡ begun asked.now self }
    {
        match *asked {
            Call::Agree { comm, value, .. } if comm == 0 => Walk {
                left: one_less(self.left),
                gave: if is_due(self.left) {
                    Some(value)
                } else {
                    self.gave
                },
                waits: is_due(self.left),
                ..self
            },
            Call::Shrink { comm, .. } if comm == 0 => Walk {
                left: one_less(self.left),
                waits: false,
                ..self
            },
            Call::Barrier { comm, .. } if comm == 0 => Walk {
                waits: false,
                ..self
            },
            _ => self,
        }
    }

    /// Behind the reply to another call.
    fn went_on(self, seen: &Seen) -> Option<Walk>
        ensures { result ≡ went_on seen.now self }
    {
        if is_refused(seen) { None } else { Some(self) }
    }

    /// Behind the reply to a poll on the world's communicator.
    fn polled_world(self, seen: &Seen) -> Option<Walk>
        ensures { result ≡ polled_world seen.now self }
    {
        match *seen {
            Seen::Agreed { .. } => Some(Walk {
                waits: false,
                told: if self.waits { Some(*seen) } else { self.told },
                ..self
            }),
            Seen::Shrunk { .. } => Some(Walk {
                waits: false,
                ..self
            }),
            Seen::Whole(Reply::Done) => Some(Walk {
                waits: false,
                ..self
            }),
            Seen::Whole(Reply::Pending) => Some(self),
            _ => None,
        }
    }

    /// Behind the reply to a poll.
    fn polled(self, comm: u16, seen: &Seen) -> Option<Walk>
        ensures { result ≡ polled comm seen.now self }
    {
        if comm == 0 {
            self.polled_world(seen)
        } else {
            self.went_on(seen)
        }
    }

    /// Behind the reply to a start.
    fn start_answered(self, comm: u16, asked: &Call<FlagAnd>, seen: &Seen) -> Option<Walk>
        ensures { result ≡ start_answered comm asked.now seen.now self }
    {
        let begun = self.begun(asked);
        if is_started(seen) {
            Some(begun)
        } else {
            begun.polled(comm, seen)
        }
    }

    /// Behind the reply to a call.
    fn answered(self, asked: &Call<FlagAnd>, seen: &Seen) -> Option<Walk>
        ensures { result ≡ answered asked.now seen.now self }
    {
        match *asked {
            Call::Agree { comm, .. } | Call::Shrink { comm, .. } | Call::Barrier { comm, .. } => {
                self.start_answered(comm, asked, seen)
            }
            Call::Poll { comm, .. } => self.polled(comm, seen),
            Call::Free { comm, .. } => { if comm == 0 { None } else { self.went_on(seen) } }
            Call::Fail { .. } => None,
            _ => self.went_on(seen),
        }
    }

    /// Behind a line of its own.
    fn passed(self, item: &Item) -> Option<Walk>
        ensures { result ≡ passed item.now self }
    {
        match *item {
            Item::Called { call, .. } => match self.under_way {
                None => Some(Walk {
                    under_way: Some(call),
                    ..self
                }),
                Some(_) => None,
            },
            Item::Replied { seen, .. } => match self.under_way {
                None => None,
                Some(asked) => Walk {
                    under_way: None,
                    ..self
                }
                .answered(&asked, &seen),
            },
            Item::Lost { .. } => None,
        }
    }
}

/// Whether a log tells that a start was answered `started`.
fn is_started(seen: &Seen) -> bool
    ensures { result ≡ is_started seen.now }
{
    match *seen {
        Seen::Whole(Reply::Started) => true,
        _ => false,
    }
}

/// Whether it tells a refusal.
fn is_refused(seen: &Seen) -> bool
    ensures { result ≡ is_refused seen.now }
{
    match *seen {
        Seen::Whole(Reply::Refused(_)) => true,
        _ => false,
    }
}

/// What a rank's own lines tell of a round of the world's communicator, up to the first behind which nothing more is concluded.
pub fn walk_of<A: Allocator>(lines: &[LogLine<A>], rank: u16, round: u16) -> Walk
    ensures { result ≡ walk_of rank round (map heard_of lines.now) }
{
    let mut walk = new_walk(round);
    for line in lines {
        if is_by(rank, &line.item) {
            match walk.passed(&line.item) {
                Some(next) => walk = next,
                None => return walk,
            }
        }
    }
    walk
}

/// Whether a line of a log is a call or a reply of this rank.
fn is_by(rank: u16, item: &Item) -> bool
    ensures { result ≡ is_heard_by (Of (Rank rank)) item.now }
{
    match *item {
        Item::Called { call, .. } => same_caller(caller_of(&call), Caller::Rank(rank)),
        Item::Replied { by, .. } => same_caller(by, Caller::Rank(rank)),
        Item::Lost { .. } => false,
    }
}
