//! What is kept of calls, lanes and arrivals while the lines of a trace are told.
ghost use Rattle.std.specs.Prelude.{◌≡◌, IfOk, None, Some};
ghost use Rattle.ulfm_story.specs.Rows.{IsRow};
ghost use Rattle.ulfm_model.specs.declared.line.Line.{Line};

use crate::bars::{Bar, Tone, is_of_round, tone_of};
use crate::rows::{OUTSIDE, Row, caller_of, lane_of, lane_of_rank, round_of, short, target_of};
use std::alloc::{AllocError, Allocator};
use std::collections::HashMap;
use std::hash::{BuildHasherDefault, FoldHasher};
use ulfm_laws::FlagAnd;
use ulfm_model::Line;
use ulfm_model::call::{Call, comm_of, rank_of};
use ulfm_model::event::{Caller, Event};
use ulfm_model::reply::Reply;

/// A number for each pair of numbers.
type Table<A> = HashMap<(u16, u16), u16, BuildHasherDefault<FoldHasher>, A>;

/// How many lanes there may be: the outside's, and those of 1,024 ranks.
const LANES: usize = 1025;

/// A call under way.
#[derive(Clone, Copy)]
struct Begun {
    asked: Call<FlagAnd>,
    row: u16,
}

/// Calls, lanes and arrivals so far.
#[derive(Drop)]
pub(crate) struct Calls<A: Allocator> {
    /// The calls that have their reply, in the order of the replies; in the end also the others.
    pub(crate) bars: Vec<Bar, A>,
    /// The lanes of those who are declared, with the row from which on they are.
    pub(crate) declared: Vec<(u16, u16), A>,
    /// The row of each event.
    event_rows: Vec<u16, A>,
    /// By lane, the call under way.
    begun: Vec<Option<Begun>, A>,
    /// By lane, whether the trace names it.
    named: Vec<bool, A>,
    /// By communicator and barrier round, how many have arrived.
    arrived: Table<A>,
    /// By rank and communicator, the round of the rank's request.
    requests: Table<A>,
}

/// A row of this lane, with nothing else.
fn plain_row(line: Line<FlagAnd>, lane: u16) -> Row
    ensures told { result.line ≡ line }
    ensures lane { result.lane ≡ lane }
    ensures target { result.target ≡ None }
{
    Row {
        line,
        lane,
        target: None,
        event: None,
        round: None,
    }
}

impl<A: Allocator + Copy + Drop> Calls<A> {
    /// Nothing is told yet.
    pub(crate) fn new(alloc: A) -> Result<Calls<A>, AllocError> {
        Ok(Calls {
            bars: Vec::new(alloc),
            declared: Vec::new(alloc),
            event_rows: Vec::new(alloc),
            begun: vec![in alloc; None; LANES]?,
            named: vec![in alloc; false; LANES]?,
            arrived: HashMap::new(alloc),
            requests: HashMap::new(alloc),
        })
    }

    /// The row of a line, which is the one of this number.
    pub(crate) fn row(&mut self, line: Line<FlagAnd>, at: u16) -> Result<Row, AllocError>
        ensures { IfOk result (IsRow line) }
    {
        let row = self.row_of(line, at)?;
        self.name(row.lane);
        if let Some(target) = row.target {
            self.name(target);
        }
        Ok(row)
    }

    /// The same, and what is kept of its line.
    fn row_of(&mut self, line: Line<FlagAnd>, at: u16) -> Result<Row, AllocError>
        ensures { IfOk result (IsRow line) }
    {
        match line {
            Line::Called { call, padded } => Ok(self.begin(call, padded, at)),
            Line::Looked { rank, .. } => Ok(plain_row(line, lane_of_rank(rank))),
            Line::Happened {
                by,
                event: Some(event),
            } => self.happen(by, event, at),
            Line::Happened { by, event: None } => Ok(plain_row(line, lane_of(by))),
            Line::Replied {
                by,
                point,
                reply: Some(reply),
            } => self.answer(by, point, reply, at),
            Line::Replied {
                by,
                reply: None,
                ..
            } => Ok(plain_row(line, lane_of(by))),
        }
    }

    /// Notes that the trace names a lane.
    fn name(&mut self, lane: u16) {
        if let Some(named) = self.named.get_mut(usize::from(lane)) {
            *named = true;
        }
    }

    /// A call begins.
    fn begin(&mut self, asked: Call<FlagAnd>, padded: bool, at: u16) -> Row
        ensures { IsRow (Line.Called asked padded) result }
    {
        let lane = lane_of(caller_of(&asked));
        if let Some(place) = self.begun.get_mut(usize::from(lane)) {
            *place = Some(Begun { asked, row: at });
        }
        let line = Line::Called {
            call: asked,
            padded,
        };
        plain_row(line, lane)
    }

    /// An event happens.
    fn happen(&mut self, by: Caller, event: Event<FlagAnd>, at: u16) -> Result<Row, AllocError>
        ensures { IfOk result (IsRow (Line.Happened by (Some event))) }
    {
        self.event_rows.push(at)?;
        self.note(by, &event, at)?;
        Ok(Row {
            line: Line::Happened {
                by,
                event: Some(event),
            },
            lane: lane_of(by),
            target: target_of(&event),
            event: Some(u32::from(short(self.event_rows.len()))),
            round: round_of(&event),
        })
    }

    /// Keeps who is declared, and which round a rank's request is of.
    fn note(&mut self, by: Caller, event: &Event<FlagAnd>, at: u16) -> Result<(), AllocError> {
        match *event {
            Event::Fail { rank } => {
                self.declared.push((lane_of_rank(rank), at))?;
            }
            Event::Settle {
                comm,
                round,
                rank,
                ..
            } => {
                if by == Caller::Rank(rank) {
                    self.requests.insert((rank, comm), round)?;
                }
            }
            _ => {}
        }
        Ok(())
    }

    /// One more member has arrived in a barrier round; how many have.
    pub(crate) fn arrive(&mut self, comm: u16, round: u16) -> Result<u16, AllocError> {
        let before = self.arrived.get(&(comm, round)).copied().unwrap_or(0);
        let now = before.saturating_add(1);
        self.arrived.insert((comm, round), now)?;
        Ok(now)
    }

    /// A call is answered, and becomes a bar.
    fn answer(
        &mut self,
        by: Caller,
        point: u32,
        reply: Reply<FlagAnd>,
        at: u16,
    ) -> Result<Row, AllocError>
        ensures { IfOk result (IsRow (Line.Replied by point (Some reply))) }
    {
        let lane = lane_of(by);
        let line = Line::Replied {
            by,
            point,
            reply: Some(reply),
        };
        let mut row = plain_row(line, lane);
        if let Some(begun) = self.take_begun(lane) {
            row.round = self.round_told(&begun, &reply);
            let bar = Bar {
                lane,
                first: begun.row,
                last: at,
                tone: tone_of(&reply),
                early: self.early(point, begun.row),
            };
            self.bars.push(bar)?;
        }
        Ok(row)
    }

    /// The call under way on a lane, which is none from now on.
    fn take_begun(&mut self, lane: u16) -> Option<Begun> {
        match self.begun.get_mut(usize::from(lane)) {
            Some(place) => place.take(),
            None => None,
        }
    }

    /// The round that a reply tells the decision of.
    fn round_told(&self, begun: &Begun, reply: &Reply<FlagAnd>) -> Option<u16> {
        if !is_of_round(reply) {
            return None;
        }
        let request = (rank_of(&begun.asked), comm_of(&begun.asked));
        self.requests.get(&request).copied()
    }

    /// The row above the first event that a reply at this point doesn't rest on, but not above the call's own.
    fn early(&self, point: u32, first: u16) -> Option<u16> {
        let row = self.event_rows.get(point as usize)?;
        Some(row.saturating_sub(1).max(first))
    }

    /// The calls that have no reply become bars up to the last row.
    pub(crate) fn close(&mut self, last: u16) -> Result<(), AllocError> {
        for (lane, begun) in self.begun.iter().enumerate() {
            if let Some(begun) = begun {
                self.bars.push(Bar {
                    lane: short(lane),
                    first: begun.row,
                    last,
                    tone: Tone::Open,
                    early: None,
                })?;
            }
        }
        Ok(())
    }

    /// The lanes that are drawn, in their order, in a world of so many ranks: of at most 64 ranks each, and those that
    /// the trace names.
    pub(crate) fn lanes(&self, alloc: A, ranks: u16) -> Result<Vec<u16, A>, AllocError> {
        let mut lanes = Vec::new(alloc);
        for (lane, named) in self.named.iter().enumerate() {
            let lane = short(lane);
            if *named || (lane != OUTSIDE && ranks <= 64 && lane <= ranks) {
                lanes.push(lane)?;
            }
        }
        Ok(lanes)
    }
}
