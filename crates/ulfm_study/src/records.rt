//! The records of ranks, by their own replies: what of a log they forbid.
use crate::acts::{Act, Kind, Standing, Start};
use crate::study::Study;
use std::alloc::{AllocError, Allocator};
use ulfm_graph::tables::{NONE, at, number, put, small};
use ulfm_laws::FlagAnd;
use ulfm_model::call::MOST_FAILURES;
use ulfm_model::{Call, Caller, Refusal, Reply};
use ulfm_observed::{Failures, Item, Log, Order, Seen};

/// Why the records alone forbid a line.
#[derive(Clone, Copy, PartialEq, Eq)]
pub enum Ban {
    /// A call by a caller that has one open.
    Open,
    /// A reply to a caller that has no call open.
    NoCall,
    /// The rank was refused for good, or the world doesn't have it, and the reply is another.
    Gone,
    /// The rank's record refuses the call, and the reply is another; or the reply is a refusal that the record doesn't have.
    Record,
    /// The reply is none to such a call.
    Sort,
    /// Two ranks were told of two groups for one communicator, of two communicators for one round, or of one that can't be.
    Members,
    /// A count of acknowledged failures that is less than before, or more than the call may acknowledge.
    Count,
    /// A rank was declared twice.
    Declared,
}

/// What a caller is at, and what a rank was told of itself.
#[derive(Clone, Copy)]
struct Seat {
    /// Its open call: its place among the calls; `NONE` where it has none.
    open: u32,
    /// Its last line: its place in the log, from 0; `NONE` where it has none.
    last: u32,
    /// Whether it is a rank that was refused for good.
    refused: bool,
    /// The number of the communicator of its open shrink; `NONE` where it has none.
    shrink: u32,
}

impl Seat {
    /// It did nothing yet.
    fn new() -> Seat {
        Seat {
            open: NONE,
            last: NONE,
            refused: false,
            shrink: NONE,
        }
    }
}

/// What a rank keeps of a communicator.
#[derive(Clone, Copy)]
struct Record {
    /// Whether the rank holds it.
    held: bool,
    /// How many failures the rank has acknowledged there.
    acked: u32,
    /// The number of its next round of agreement, from 0.
    agreement: u32,
    /// The number of its next round of a barrier, from 0.
    barrier: u32,
    /// The start that isn't answered yet: its place among the calls; `NONE` where there is none.
    request: u32,
}

impl Record {
    /// Nothing was begun there yet.
    fn new(held: bool) -> Record {
        Record {
            held,
            acked: 0,
            agreement: 0,
            barrier: 0,
            request: NONE,
        }
    }
}

/// What each rank holds.
#[derive(Drop)]
struct Records<A: Allocator> {
    /// How many ranks the world has.
    ranks: usize,
    /// How many communicators the world may have.
    comms: usize,
    /// What each caller is at, the outside first.
    seats: Vec<Seat, A>,
    /// What each rank keeps of each communicator.
    kept: Vec<Record, A>,
}

impl<A: Allocator + Copy> Records<A> {
    /// Each rank holds the world's communicator, and nothing else.
    fn new(alloc: A, ranks: usize, comms: usize) -> Result<Self, AllocError> {
        let mut records = Records {
            ranks,
            comms,
            seats: vec![in alloc; Seat::new(); 1025]?,
            kept: vec![in alloc; Record::new(false); ranks.wrapping_mul(comms)]?,
        };
        for rank in 0..ranks {
            records.keep(rank.wrapping_mul(comms), Record::new(true));
        }
        Ok(records)
    }

    /// What a caller is at.
    fn seat(&self, place: usize) -> Seat {
        match self.seats.get(place) {
            Some(seat) => *seat,
            None => Seat::new(),
        }
    }

    /// Writes it down.
    fn sit(&mut self, place: usize, seat: Seat) {
        if let Some(old) = self.seats.get_mut(place) {
            *old = seat;
        }
    }

    /// The place of a rank's communicator.
    fn cell(&self, rank: u16, comm: u16) -> usize {
        (rank as usize)
            .wrapping_mul(self.comms)
            .wrapping_add(comm as usize)
    }

    /// What a rank keeps of a communicator.
    fn record(&self, cell: usize) -> Record {
        match self.kept.get(cell) {
            Some(record) => *record,
            None => Record::new(false),
        }
    }

    /// Writes it down.
    fn keep(&mut self, cell: usize, record: Record) {
        if let Some(old) = self.kept.get_mut(cell) {
            *old = record;
        }
    }

    /// Whether a rank holds a communicator.
    fn holds(&self, rank: u16, comm: u16) -> bool {
        (rank as usize) < self.ranks
            && (comm as usize) < self.comms
            && self.record(self.cell(rank, comm)).held
    }

    /// Writes down which start of a rank isn't answered yet.
    fn request(&mut self, cell: usize, start: u32) {
        let mut record = self.record(cell);
        record.request = start;
        self.keep(cell, record);
    }

    /// Writes down the communicator of a rank's open shrink.
    fn shrink(&mut self, by: Caller, comm: u32) {
        let place = place_of(by);
        let mut seat = self.seat(place);
        seat.shrink = comm;
        self.sit(place, seat);
    }
}

/// The place of a caller: the outside's is first.
fn place_of(by: Caller) -> usize {
    match by {
        Caller::Outside => 0,
        Caller::Rank(rank) => rank as usize + 1,
    }
}

/// A call, before it has a reply.
fn act_of(asked: &Call<FlagAnd>, line: u32) -> Act {
    let (kind, rank, comm, number) = match *asked {
        Call::Fail { rank } => (Kind::Fail, rank, 0, 0),
        Call::GetFailed { rank, comm } => (Kind::Get, rank, comm, 0),
        Call::Ack { rank, comm, count } => (Kind::Ack, rank, comm, u64::from(count)),
        Call::FailureAck { rank, comm } => (Kind::Ack, rank, comm, u64::from(MOST_FAILURES)),
        Call::FailureGetAcked { rank, comm } => (Kind::Get, rank, comm, 0),
        Call::Agree { rank, comm, value } => (Kind::Start(Start::Agree), rank, comm, value.bits),
        Call::Shrink { rank, comm } => (Kind::Start(Start::Shrink), rank, comm, 0),
        Call::Barrier { rank, comm } => (Kind::Start(Start::Barrier), rank, comm, 0),
        Call::Poll { rank, comm } => (Kind::Poll, rank, comm, 0),
        Call::Revoke { rank, comm } => (Kind::Revoke, rank, comm, 0),
        Call::IsRevoked { rank, comm } => (Kind::IsRevoked, rank, comm, 0),
        Call::Free { rank, comm } => (Kind::Free, rank, comm, 0),
    };
    Act {
        rank,
        kind,
        comm,
        number,
        call: line,
        reply: NONE,
        round: NONE,
        start: NONE,
        acked: 0,
        standing: Standing::Open,
        seen: None,
        blocking: false,
    }
}

/// What the log says, or the first line that the records forbid, from 0, and why.
pub fn study_log<A: Allocator + Copy, B: Allocator>(
    alloc: A,
    log: &Log<B>,
) -> Result<(Study<A>, Option<(u32, Ban)>), AllocError> {
    let mut study = Study::new(alloc, log.limits, log.lines.len())?;
    study.timed = log.order == Order::Time;
    study.logged = log.failures == Failures::Logged;
    let records = Records::new(alloc, study.ranks, study.comms)?;
    let mut reading = Reading { study, records };
    for (i, line) in log.lines.iter().enumerate() {
        let place = number(i);
        let banned = match line.item {
            Item::Called { call, .. } => reading.call_begins(&call, place)?,
            Item::Replied { by, seen } => { reading.call_ends(by, seen, &line.group, place)? }
            Item::Lost { .. } => {
                reading.study.lost = true;
                None
            }
        };
        if let Some(ban) = banned {
            return Ok((reading.study, Some((place, ban))));
        }
    }
    reading.open_calls()?;
    Ok((reading.study, None))
}

/// What taking a line gives: why the records forbid it, if they do; or want of memory.
type Banned = Result<Option<Ban>, AllocError>;

/// What of a log was read so far, and what each rank holds then.
#[derive(Drop)]
struct Reading<A: Allocator> {
    /// What the log says.
    study: Study<A>,
    /// What each rank holds.
    records: Records<A>,
}

impl<A: Allocator + Copy> Reading<A> {
    /// Takes in that a line is of a caller and a call, and which call of the caller is open behind it.
    fn link(&mut self, by: Caller, line: u32, place: u32, open: u32) {
        let mut seat = self.records.seat(place_of(by));
        put(&mut self.study.before, line as usize, seat.last);
        put(&mut self.study.act_at, line as usize, place);
        seat.last = line;
        seat.open = open;
        self.records.sit(place_of(by), seat);
    }

    /// A call begins.
    fn call_begins(&mut self, asked: &Call<FlagAnd>, line: u32) -> Banned {
        let act = act_of(asked, line);
        let by = act.caller();
        if self.records.seat(place_of(by)).open != NONE {
            return Ok(Some(Ban::Open));
        }
        let place = number(self.study.acts.len());
        self.link(by, line, place, place);
        self.study.acts.push(act)?;
        Ok(None)
    }

    /// A call ends.
    fn call_ends(&mut self, by: Caller, seen: Seen, group: &[u16], line: u32) -> Banned {
        let place = self.records.seat(place_of(by)).open;
        let Some(mut act) = self.study.act(place) else {
            return Ok(Some(Ban::NoCall));
        };
        self.link(by, line, place, NONE);
        act.reply = line;
        act.seen = Some(seen);
        act.standing = Standing::Answered;
        let banned = self.take_reply(&mut act, place, group)?;
        self.study.put_act(place, act);
        Ok(banned)
    }

    /// Takes a reply into the records.
    fn take_reply(&mut self, act: &mut Act, place: u32, group: &[u16]) -> Banned {
        if (act.rank as usize) >= self.study.ranks {
            act.standing = Standing::Unseen;
            return Ok(ban_unless(act.refused(Refusal::NoSuchRank), Ban::Gone));
        }
        if !act.is_ranks() {
            return Ok(take_declaration(&mut self.study, act, place));
        }
        let mut seat = self.records.seat(place_of(act.caller()));
        if seat.refused {
            act.standing = Standing::Unseen;
            return Ok(ban_unless(act.refused(Refusal::SelfFailed), Ban::Gone));
        }
        if act.refused(Refusal::SelfFailed) {
            seat.refused = true;
            self.records.sit(place_of(act.caller()), seat);
            name(&mut self.study, act.rank as usize, 0);
            act.standing = Standing::Dead;
            return Ok(None);
        }
        if let Some(refusal) = self.refusal_of(act) {
            act.standing = Standing::Refused;
            return Ok(ban_unless(act.refused(refusal), Ban::Record));
        }
        // the wing of its place may have been set at any time, so nothing but a look is needed
        if act.refused(Refusal::Twice) && (act.begins(Start::Agree) || act.begins(Start::Shrink)) {
            act.standing = Standing::Refused;
            return Ok(None);
        }
        self.take_answer(act, place, group)
    }

    /// The refusal of a call by its rank's record, if it has one.
    fn refusal_of(&self, act: &Act) -> Option<Refusal> {
        if !self.records.holds(act.rank, act.comm) {
            return Some(Refusal::NoSuchComm);
        }
        let record = self.records.record(self.records.cell(act.rank, act.comm));
        let busy = record.request != NONE;
        let shrinks = self.records.seat(place_of(act.caller())).shrink != NONE;
        let rounds = u32::from(self.study.limits.rounds);
        match act.kind {
            Kind::Start(_) if busy => Some(Refusal::Busy),
            Kind::Start(Start::Shrink) if shrinks => Some(Refusal::ShrinkOpen),
            Kind::Start(Start::Agree) if record.agreement.wrapping_add(1) >= rounds => {
                Some(Refusal::RoundsUsedUp)
            }
            Kind::Start(Start::Shrink) if record.agreement >= rounds => Some(Refusal::RoundsUsedUp),
            Kind::Start(Start::Barrier) if record.barrier >= rounds => Some(Refusal::RoundsUsedUp),
            Kind::Poll if !busy => Some(Refusal::Idle),
            Kind::Free if act.comm == 0 => Some(Refusal::WorldKept),
            Kind::Free if busy => Some(Refusal::Busy),
            _ => None,
        }
    }

    /// A reply that the record doesn't refuse.
    fn take_answer(&mut self, act: &mut Act, place: u32, group: &[u16]) -> Banned {
        let cell = self.records.cell(act.rank, act.comm);
        act.acked = small(self.records.record(cell).acked);
        match (act.kind, act.seen) {
            (Kind::Get, Some(Seen::Whole(Reply::FailedGroup { .. }))) => {
                name_all(&mut self.study, act.comm, group);
                Ok(ban_unless(are_members(&self.study, act.comm, group), Ban::Members))
            }
            (Kind::Ack, Some(Seen::Whole(Reply::Acked { count }))) => {
                Ok(take_count(&mut self.records, act, cell, u32::from(count)))
            }
            (Kind::Revoke, Some(Seen::Whole(Reply::Revoked | Reply::AlreadyRevoked))) => Ok(None),
            (Kind::IsRevoked, Some(Seen::Whole(Reply::Standing { .. }))) => Ok(None),
            (Kind::Free, Some(Seen::Whole(Reply::Freed))) => {
                self.records.keep(cell, Record::new(false));
                Ok(None)
            }
            (Kind::Poll, Some(seen)) => self.take_poll(act, cell, seen, group),
            (Kind::Start(_), Some(seen)) => { self.take_start(act, place, cell, seen, group) }
            _ => Ok(Some(Ban::Sort)),
        }
    }

    /// A poll was answered.
    fn take_poll(&mut self, act: &mut Act, cell: usize, seen: Seen, group: &[u16]) -> Banned {
        self.put_polled(act, cell);
        if let Seen::Whole(Reply::Pending) = seen {
            return Ok(None);
        }
        self.records.request(cell, NONE);
        self.take_end(act, seen, group)
    }

    /// A start was answered, by itself or by its poll.
    fn take_start(
        &mut self,
        act: &mut Act,
        place: u32,
        cell: usize,
        seen: Seen,
        group: &[u16],
    ) -> Banned {
        self.begin(act, place, cell)?;
        if let Seen::Whole(Reply::Started) = seen {
            return Ok(None);
        }
        act.blocking = true;
        act.start = place;
        self.records.request(cell, NONE);
        self.take_end(act, seen, group)
    }

    /// Writes down what a poll asks for.
    fn put_polled(&self, act: &mut Act, cell: usize) {
        act.start = self.records.record(cell).request;
        if let Some(start) = self.study.act(act.start) {
            act.round = start.round;
        }
    }

    /// A start takes its rank's next round.
    fn begin(&mut self, act: &mut Act, place: u32, cell: usize) -> Result<(), AllocError> {
        let mut record = self.records.record(cell);
        record.request = place;
        if act.begins(Start::Barrier) {
            let round = record.barrier;
            record.barrier = round.wrapping_add(1);
            self.records.keep(cell, record);
            act.round = self.study.barriers.place(act.comm, small(round))?;
            self.study.barriers.begin(act.round, act.rank, place);
            return Ok(());
        }
        let round = record.agreement;
        record.agreement = round.wrapping_add(1);
        self.records.keep(cell, record);
        act.round = self.study.agreements.place(act.comm, small(round))?;
        self.study.agreements.begin(act.round, act.rank, place);
        if act.begins(Start::Shrink) {
            self.records.shrink(act.caller(), u32::from(act.comm));
        }
        Ok(())
    }

    /// A request ends.
    fn take_end(&mut self, act: &Act, seen: Seen, group: &[u16]) -> Banned {
        let asked = if act.blocking {
            act.kind
        } else {
            self.study.asked_by(act)
        };
        if asked == Kind::Start(Start::Shrink) {
            self.records.shrink(act.caller(), NONE);
        }
        match (asked, seen) {
            (Kind::Start(Start::Agree), Seen::Agreed { .. }) => Ok(None),
            (Kind::Start(Start::Shrink), Seen::Shrunk { comm, .. }) => self.take_comm(
                act, comm, group,
            ),
            (Kind::Start(Start::Barrier), Seen::Whole(Reply::Done)) => Ok(None),
            (
                Kind::Start(Start::Agree | Start::Shrink),
                Seen::Whole(Reply::Refused(Refusal::Mismatch)),
            ) => Ok(None),
            (
                Kind::Start(Start::Shrink),
                Seen::Whole(Reply::Refused(Refusal::NoContext | Refusal::NoRoom)),
            ) => { Ok(None) }
            (
                Kind::Start(Start::Barrier),
                Seen::Whole(Reply::Refused(Refusal::IsRevoked | Refusal::ProcFailed)),
            ) => { Ok(None) }
            _ => Ok(Some(Ban::Sort)),
        }
    }

    /// A shrink made a communicator with these members.
    fn take_comm(&mut self, act: &Act, comm: u16, group: &[u16]) -> Banned {
        let made = comm as usize;
        if made == 0 || made >= self.study.comms || !is_ascending(group) {
            return Ok(Some(Ban::Members));
        }
        for _ in self.study.makes.len()..(act.round as usize).wrapping_add(1) {
            self.study.makes.push(NONE)?;
        }
        let known = at(&self.study.made_by, made);
        if known == NONE {
            if at(&self.study.makes, act.round as usize) != NONE {
                return Ok(Some(Ban::Members));
            }
            put(&mut self.study.made_by, made, act.round);
            put(&mut self.study.makes, act.round as usize, u32::from(comm));
            put(&mut self.study.told_at, made, act.reply);
            if !put_members(&mut self.study, act.comm, comm, group) {
                return Ok(Some(Ban::Members));
            }
            name_lacking(&mut self.study, act.comm, comm);
        } else if known != act.round || !has_members(&self.study, comm, group) {
            return Ok(Some(Ban::Members));
        }
        if !self.study.is_member(comm, act.rank as usize) {
            return Ok(Some(Ban::Members));
        }
        let cell = self.records.cell(act.rank, comm);
        self.records.keep(cell, Record::new(true));
        Ok(None)
    }

    /// Calls that have no reply: a start has its round, if its record doesn't refuse it.
    fn open_calls(&mut self) -> Result<(), AllocError> {
        for seat in 0..1025 {
            let place = self.records.seat(seat).open;
            if let Some(mut act) = self.study.act(place) {
                self.open_call(&mut act, place)?;
                self.study.put_act(place, act);
            }
        }
        Ok(())
    }

    /// A call that has no reply.
    fn open_call(&mut self, act: &mut Act, place: u32) -> Result<(), AllocError> {
        if (act.rank as usize) >= self.study.ranks {
            act.standing = Standing::Unseen;
            return Ok(());
        }
        if !act.is_ranks() {
            if at(&self.study.declared, act.rank as usize) == NONE {
                put(&mut self.study.declared, act.rank as usize, place);
            }
            return Ok(());
        }
        if self.records.seat(place_of(act.caller())).refused {
            act.standing = Standing::Unseen;
            return Ok(());
        }
        if self.refusal_of(act).is_some() {
            act.standing = Standing::Refused;
            return Ok(());
        }
        let cell = self.records.cell(act.rank, act.comm);
        act.acked = small(self.records.record(cell).acked);
        if act.starts() {
            self.begin(act, place, cell)?;
        }
        Ok(())
    }
}

/// A ban, unless something holds.
fn ban_unless(holds: bool, ban: Ban) -> Option<Ban> {
    if holds { None } else { Some(ban) }
}

/// A declaration was answered.
fn take_declaration<A: Allocator + Copy>(
    study: &mut Study<A>,
    act: &Act,
    place: u32,
) -> Option<Ban> {
    match act.seen {
        Some(Seen::Whole(Reply::Declared)) => {
            if at(&study.declared, act.rank as usize) != NONE {
                return Some(Ban::Declared);
            }
            put(&mut study.declared, act.rank as usize, place);
            name(study, act.rank as usize, 0);
            None
        }
        Some(Seen::Whole(Reply::AlreadyFailed)) => None,
        _ => Some(Ban::Sort),
    }
}

/// Writes down that a rank was named as failed, and its place in the line of failures, if that is told.
fn name<A: Allocator + Copy>(study: &mut Study<A>, rank: usize, place: u32) {
    let old = at(&study.named, rank);
    if old == NONE || old == 0 {
        put(&mut study.named, rank, place);
    }
}

/// Writes down that these ranks were named as those of a communicator that failed.
fn name_all<A: Allocator + Copy>(study: &mut Study<A>, comm: u16, group: &[u16]) {
    let mut place = study.lacking(comm);
    for rank in group {
        place = place.wrapping_add(1);
        name(study, *rank as usize, place);
    }
}

/// Writes down that those of a communicator were named as failed that the new one lacks.
fn name_lacking<A: Allocator + Copy>(study: &mut Study<A>, parent: u16, comm: u16) {
    for rank in 0..study.ranks {
        if study.is_member(parent, rank) && !study.is_member(comm, rank) {
            name(study, rank, 0);
        }
    }
}

/// A count of acknowledged failures.
fn take_count<A: Allocator + Copy>(
    records: &mut Records<A>,
    act: &Act,
    cell: usize,
    count: u32,
) -> Option<Ban> {
    let old = u32::from(act.acked);
    let mut record = records.record(cell);
    record.acked = count;
    records.keep(cell, record);
    ban_unless(
        count == old || (count > old && u64::from(count) <= act.number),
        Ban::Count,
    )
}

/// Whether ranks stand in their order, each once.
fn is_ascending(group: &[u16]) -> bool {
    let mut least = 0;
    for rank in group {
        if u32::from(*rank) < least {
            return false;
        }
        least = u32::from(*rank) + 1;
    }
    true
}

/// Writes down the members of a new communicator; false where one isn't its parent's.
fn put_members<A: Allocator + Copy>(
    study: &mut Study<A>,
    parent: u16,
    comm: u16,
    group: &[u16],
) -> bool {
    for rank in group {
        if !study.is_member(parent, *rank as usize) {
            return false;
        }
        let cell = (comm as usize)
            .wrapping_mul(study.ranks)
            .wrapping_add(*rank as usize);
        put(&mut study.members, cell, 1);
    }
    let lacks = study.ranks.saturating_sub(group.len());
    put(&mut study.lacks, comm as usize, number(lacks));
    true
}

/// Whether ranks are members of a communicator.
fn are_members<A: Allocator + Copy>(study: &Study<A>, comm: u16, group: &[u16]) -> bool {
    for rank in group {
        if !study.is_member(comm, *rank as usize) {
            return false;
        }
    }
    true
}

/// Whether a communicator has these members, and no other.
fn has_members<A: Allocator + Copy>(study: &Study<A>, comm: u16, group: &[u16]) -> bool {
    are_members(study, comm, group)
        && study.ranks.saturating_sub(group.len()) == study.lacking(comm) as usize
}
