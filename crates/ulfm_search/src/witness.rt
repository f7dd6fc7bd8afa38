//! The trace that an order of nodes is, and what of the log it breaks.
use crate::contexts::Contexts;
use std::alloc::{AllocError, Allocator};
use ulfm_graph::tables::{NONE, at, greatest, number, small};
use ulfm_laws::summary::{Acked, Known};
use ulfm_laws::{CtxMask, FlagAnd};
use ulfm_model::contribution::{Contribution, MarkCount, Offer};
use ulfm_model::event::{Caller, Event};
use ulfm_model::{Call, Line, Refusal, Reply};
use ulfm_observed::{Item, LogLine, Seen, Step};
use ulfm_study::{Act, Deals, Kind, Part, Plan, Round, Standing, Start, Study, tells_end};

/// When the parts of a call happened.
#[derive(Clone, Copy)]
struct Times {
    /// How many events there were when it began, or when the poll began that ends it.
    begun: u32,
    /// How many failures its last look found.
    looked: u32,
    /// How many events there were at its look, or at its barrier's point.
    pointed: u32,
}

impl Times {
    /// Nothing of it happened yet.
    fn new() -> Times {
        Times {
            begun: 0,
            looked: 0,
            pointed: 0,
        }
    }
}

/// What a round of agreement was given.
#[derive(Clone, Copy)]
pub(crate) struct Given {
    /// The flags of its contributors, under AND.
    value: u64,
    /// The most failures of its communicator that a contributor or a mark knew: the size of its failed group.
    pub(crate) known: u32,
    /// The context ids that are free at all its contributors: a bit for each.
    mask: u64,
}

impl Given {
    /// Nobody contributed yet.
    fn new() -> Given {
        Given {
            value: u64::MAX,
            known: 0,
            mask: u64::MAX,
        }
    }
}

/// What is written of a trace.
#[derive(Drop)]
pub(crate) struct Writer<A: Allocator> {
    /// Where lines are allocated.
    alloc: A,
    /// The lines, behind the header.
    pub(crate) steps: Vec<Step<A>, A>,
    /// How many events there were.
    events: u32,
    /// How many of them were failures.
    failures: u32,
    /// When the parts of each call happened.
    times: Vec<Times, A>,
    /// What each round of agreement was given.
    rounds: Vec<Given, A>,
    /// The context ids of communicators, and who holds them.
    contexts: Contexts<A>,
    /// The call whose reply tells another context id: its place among the calls; `NONE` where there is none.
    pub(crate) wrong: u32,
}

impl<A: Allocator + Copy> Writer<A> {
    /// Nothing is written.
    pub(crate) fn new(study: &Study<A>) -> Result<Writer<A>, AllocError> {
        let alloc = study.alloc;
        Ok(Writer {
            alloc,
            steps: Vec::new(alloc),
            events: 0,
            failures: 0,
            times: vec![in alloc; Times::new(); study.acts.len()]?,
            rounds: vec![in alloc; Given::new(); study.agreements.list.len()]?,
            contexts: Contexts::new(study)?,
            wrong: NONE,
        })
    }

    /// Writes a line.
    fn write(&mut self, line: Line<FlagAnd>, logged: bool) -> Result<(), AllocError> {
        let group = Vec::new(self.alloc);
        self.steps.push(Step {
            line,
            group,
            logged,
        })?;
        Ok(())
    }

    /// Writes an event.
    fn happen(&mut self, by: Caller, event: Event<FlagAnd>) -> Result<(), AllocError> {
        self.events = self.events.wrapping_add(1);
        let event = Some(event);
        self.write(Line::Happened { by, event }, false)
    }

    /// Writes the look of a call.
    fn look(&mut self, place: u32, rank: u16) -> Result<(), AllocError> {
        let mut times = self.times(place);
        times.looked = self.failures;
        self.keep(place, times);
        let failures = small(self.failures);
        self.write(Line::Looked { rank, failures }, false)
    }

    /// When the parts of a call happened.
    fn times(&self, place: u32) -> Times {
        match self.times.get(place as usize) {
            Some(times) => *times,
            None => Times::new(),
        }
    }

    /// Writes it down.
    fn keep(&mut self, place: u32, times: Times) {
        if let Some(old) = self.times.get_mut(place as usize) {
            *old = times;
        }
    }

    /// A call begins now, or the poll that ends it.
    fn begin(&mut self, place: u32) {
        let mut times = self.times(place);
        times.begun = self.events;
        self.keep(place, times);
    }

    /// A call looks now, or its barrier's point is now.
    fn point(&mut self, place: u32) {
        let mut times = self.times(place);
        times.pointed = self.events;
        self.keep(place, times);
    }

    /// What a round was given.
    pub(crate) fn given(&self, round: u32) -> Given {
        match self.rounds.get(round as usize) {
            Some(given) => *given,
            None => Given::new(),
        }
    }

    /// Writes it down.
    fn give(&mut self, round: u32, given: Given) {
        if let Some(old) = self.rounds.get_mut(round as usize) {
            *old = given;
        }
    }

    /// Somebody knew so many failures of a round's communicator.
    fn knew(&mut self, round: u32, known: u32) {
        let mut given = self.given(round);
        given.known = greatest(given.known, known);
        self.give(round, given);
    }

    /// What a start offers, which is combined with what others offered to its round.
    fn offer_of(&mut self, act: &Act) -> Offer<FlagAnd> {
        let mut given = self.given(act.round);
        let offer = if act.begins(Start::Shrink) {
            let bits = self.contexts.free(act.rank);
            given.mask &= bits;
            Offer::Ctx(CtxMask { bits })
        } else {
            given.value &= act.number;
            Offer::Flag(FlagAnd { bits: act.number })
        };
        self.give(act.round, given);
        offer
    }

    /// Writes the mark of a rank that is left out of a round.
    fn mark(&mut self, named: Round, rank: u16, count: u32) -> Result<(), AllocError> {
        let known = known_of(count);
        if known.count == 0 {
            return Ok(());
        }
        let known = MarkCount { known };
        let event = Event::Mark {
            comm: named.comm,
            round: named.round,
            rank,
            known,
        };
        self.happen(Caller::Outside, event)
    }

    /// Takes in that a rank was told of a new communicator: it holds its context id.
    fn take_context(&mut self, act: &Act, place: u32, comm: u16, told: Option<u8>) {
        let id = self.contexts.id(comm);
        let other = match told {
            Some(context) => u32::from(context) != id,
            None => id == NONE,
        };
        if other && self.wrong == NONE {
            self.wrong = place;
        }
        self.contexts.hold(act.rank, comm);
    }

    /// The reply as a trace tells it.
    fn reply_of(&self, act: &Act, seen: Seen, size: u16) -> Reply<FlagAnd> {
        match seen {
            Seen::Whole(reply) => reply,
            Seen::Agreed {
                value,
                failed,
                raised,
            } => Reply::Agreed {
                value: match value {
                    Some(value) => value,
                    None => FlagAnd {
                        bits: self.given(act.round).value,
                    },
                },
                failed: match failed {
                    Some(count) => count,
                    None => small(self.given(act.round).known),
                },
                raised,
            },
            Seen::Shrunk { comm, context } => Reply::Shrunk {
                comm,
                context: match context {
                    Some(id) => id,
                    None => byte(self.contexts.id(comm)),
                },
                size,
            },
        }
    }
}

/// A count of known failures.
fn known_of(count: u32) -> Known {
    if count < 1024 {
        let count = count as u16;
        return Known { count };
    }
    Known { count: 1024 }
}

/// A contribution, of which what was acknowledged is no more than what is known.
fn contribution_of(offer: Offer<FlagAnd>, known: u32, acked: u16) -> Contribution<FlagAnd> {
    let known = known_of(known);
    let count = if acked <= known.count { acked } else { 0 };
    let acked = Acked { count };
    Contribution {
        offer,
        known,
        acked,
    }
}

/// A number as a byte; the greatest where it has more.
fn byte(number: u32) -> u8 {
    if number < 255 { number as u8 } else { 255 }
}

/// What a trace is written from.
#[derive(Drop)]
pub(crate) struct Source<'a, A: Allocator, B: Allocator> {
    /// What is known of the log.
    pub(crate) study: &'a Study<A>,
    /// The order of its nodes.
    pub(crate) plan: &'a Plan<A>,
    /// What is known of each round.
    pub(crate) deals: &'a Deals<A>,
    /// The lines of the log, behind its header.
    pub(crate) lines: &'a [LogLine<B>],
    /// For each communicator the call that revoked it: its place among the calls; `NONE` where none did.
    pub(crate) revokers: &'a [u32],
    /// For each communicator the round that made it: its place among those of agreement; `NONE` where none did.
    pub(crate) makers: &'a [u32],
}

impl<A: Allocator + Copy, B: Allocator> Source<'_, A, B> {
    /// Writes the whole trace.
    pub(crate) fn write(&self) -> Result<Writer<A>, AllocError> {
        let mut writer = Writer::new(self.study)?;
        for node in &self.plan.graph.order {
            match self.plan.part(*node) {
                Part::Line(line) => self.write_line(&mut writer, line)?,
                Part::Failure(count) => self.write_failure(&mut writer, count)?,
                Part::Look(place) => self.write_look(&mut writer, place)?,
                Part::Settle(place) => self.write_settle(&mut writer, place)?,
                Part::Point(place) => self.write_point(&mut writer, place)?,
                Part::Decision(round) => self.write_marks(&mut writer, round)?,
                Part::Spawn(comm) => self.write_spawn(&mut writer, comm)?,
                Part::Revocation(comm) => self.write_revocation(&mut writer, comm)?,
            }
        }
        Ok(writer)
    }

    /// Writes a line of the log.
    fn write_line(&self, writer: &mut Writer<A>, line: u32) -> Result<(), AllocError> {
        let place = at(&self.study.act_at, line as usize);
        let Some(act) = self.study.act(place) else {
            return Ok(());
        };
        if act.call == line {
            return self.write_call(writer, &act, place);
        }
        self.write_reply(writer, &act, place)
    }

    /// Writes a call, and its look where it is made at once.
    fn write_call(&self, writer: &mut Writer<A>, act: &Act, place: u32) -> Result<(), AllocError> {
        writer.begin(place);
        if let Some(line) = self.lines.get(act.call as usize) {
            if let Item::Called { call, padded } = line.item {
                writer.write(Line::Called { call, padded }, true)?;
            }
        }
        if self.looks_at_once(act, place) {
            return writer.look(place, act.rank);
        }
        Ok(())
    }

    /// Whether a call's look is made as it begins.
    fn looks_at_once(&self, act: &Act, place: u32) -> bool {
        match act.standing {
            Standing::Unseen => false,
            Standing::Refused => act.reply != NONE,
            Standing::Dead => true,
            Standing::Open => act.is(Kind::Revoke) && at(self.revokers, act.comm as usize) == place,
            Standing::Answered => match act.kind {
                Kind::Poll => !act.refused(Refusal::ProcFailed),
                Kind::Revoke | Kind::IsRevoked | Kind::Free => true,
                _ => false,
            },
        }
    }

    /// Whether a call's look is a node of its own.
    fn looks_apart(&self, act: &Act, place: u32) -> bool {
        match act.standing {
            Standing::Answered => act.starts() || act.is(Kind::Get) || act.is(Kind::Ack),
            Standing::Open => act.starts() && self.takes_effect(act, place),
            _ => false,
        }
    }

    /// Whether an open start took effect.
    fn takes_effect(&self, act: &Act, place: u32) -> bool {
        let done = act.begins(Start::Barrier) && at(&self.deals.done, act.round as usize) == 1;
        done || at(&self.deals.counted, place as usize) == 1
    }

    /// Writes a look that is a node of its own.
    fn write_look(&self, writer: &mut Writer<A>, place: u32) -> Result<(), AllocError> {
        let Some(act) = self.study.act(place) else {
            return Ok(());
        };
        if !self.looks_apart(&act, place) {
            return Ok(());
        }
        writer.point(place);
        writer.look(place, act.rank)
    }

    /// Writes a declaration, if a rank stands at that place.
    fn write_failure(&self, writer: &mut Writer<A>, count: u32) -> Result<(), AllocError> {
        let rank = at(&self.plan.ranked, count as usize);
        if rank == NONE {
            return Ok(());
        }
        writer.failures = writer.failures.wrapping_add(1);
        let rank = small(rank);
        writer.happen(Caller::Outside, Event::Fail { rank })
    }

    /// Writes a contribution or an arrival; behind it `started`, where the log doesn't have it, and the poll that ends a blocking call.
    fn write_settle(&self, writer: &mut Writer<A>, place: u32) -> Result<(), AllocError> {
        let Some(act) = self.study.act(place) else {
            return Ok(());
        };
        if !act.starts() || !self.looks_apart(&act, place) {
            return Ok(());
        }
        self.write_part(writer, &act, place)?;
        if act.standing == Standing::Open || act.blocking {
            let by = Caller::Rank(act.rank);
            let point = writer.events;
            let reply = Some(Reply::Started);
            writer.write(Line::Replied { by, point, reply }, false)?;
        }
        if !act.blocking {
            return Ok(());
        }
        writer.begin(place);
        let rank = act.rank;
        let comm = act.comm;
        let call = Call::Poll { rank, comm };
        let padded = false;
        writer.write(Line::Called { call, padded }, false)?;
        if act.begins(Start::Barrier) && act.refused(Refusal::ProcFailed) {
            return Ok(());
        }
        writer.look(place, act.rank)
    }

    /// Writes a contribution or an arrival.
    fn write_part(&self, writer: &mut Writer<A>, act: &Act, place: u32) -> Result<(), AllocError> {
        let by = Caller::Rank(act.rank);
        let rank = act.rank;
        if act.begins(Start::Barrier) {
            let Round { comm, round } = self.study.barriers.round(act.round as usize);
            return writer.happen(by, Event::Arrive { comm, round, rank });
        }
        let Round { comm, round } = self.study.agreements.round(act.round as usize);
        let lacks = self.study.lacking(act.comm);
        let known = writer.times(place).looked.saturating_sub(lacks);
        writer.knew(act.round, known);
        let given = contribution_of(writer.offer_of(act), known, act.acked);
        let event = Event::Settle {
            comm,
            round,
            rank,
            given,
        };
        writer.happen(by, event)
    }

    /// Writes the point of a barrier's poll, and its look where that is made there.
    fn write_point(&self, writer: &mut Writer<A>, place: u32) -> Result<(), AllocError> {
        let Some(act) = self.study.act(place) else {
            return Ok(());
        };
        if !self.study.polls(&act) || act.standing != Standing::Answered {
            return Ok(());
        }
        if self.study.asked_by(&act) != Kind::Start(Start::Barrier) {
            return Ok(());
        }
        writer.point(place);
        if act.refused(Refusal::ProcFailed) {
            return writer.look(place, act.rank);
        }
        Ok(())
    }

    /// Writes the marks of those who are left out of a decided round.
    fn write_marks(&self, writer: &mut Writer<A>, round: u32) -> Result<(), AllocError> {
        if !self.deals.is_decided(round) {
            return Ok(());
        }
        let Some(named) = self.study.agreements.list.get(round as usize) else {
            return Ok(());
        };
        let named = *named;
        for rank in 0..self.study.ranks {
            let out = self.study.is_member(named.comm, rank)
                && self.deals.contribution(self.study, round, rank) == NONE;
            let place = at(&self.plan.place, rank);
            if out && place != NONE {
                let known = place.saturating_sub(self.study.lacking(named.comm));
                writer.knew(round, known);
                writer.mark(named, small(number(rank)), known)?;
            }
        }
        Ok(())
    }

    /// Writes that a communicator is made.
    fn write_spawn(&self, writer: &mut Writer<A>, comm: u16) -> Result<(), AllocError> {
        let round = at(self.makers, comm as usize);
        if round == NONE || comm == 0 {
            return Ok(());
        }
        let named = self.study.agreements.round(round as usize);
        let free = writer.given(round).mask;
        writer.contexts.make(comm, free);
        let event = Event::Spawn {
            comm,
            parent: named.comm,
            round: named.round,
        };
        writer.happen(Caller::Outside, event)
    }

    /// Writes a revocation.
    fn write_revocation(&self, writer: &mut Writer<A>, comm: u16) -> Result<(), AllocError> {
        match self.study.act(at(self.revokers, comm as usize)) {
            Some(act) => writer.happen(Caller::Rank(act.rank), Event::Revoke { comm }),
            None => Ok(()),
        }
    }

    /// Writes a reply.
    fn write_reply(&self, writer: &mut Writer<A>, act: &Act, place: u32) -> Result<(), AllocError> {
        let Some(seen) = act.seen else {
            return Ok(());
        };
        let by = act.caller();
        let point = self.point_of(writer, act, place);
        let mut group = Vec::new(writer.alloc);
        if let Some(line) = self.lines.get(act.reply as usize) {
            group.extend_from_slice(&line.group)?;
        }
        let size = small(number(group.len()));
        let reply = Some(writer.reply_of(act, seen, size));
        self.take_ids(writer, act, place);
        let line = Line::Replied { by, point, reply };
        writer.steps.push(Step {
            line,
            group,
            logged: true,
        })?;
        Ok(())
    }

    /// Takes in which context ids a rank holds after a reply, and whether the reply tells of ids that it can't.
    fn take_ids(&self, writer: &mut Writer<A>, act: &Act, place: u32) {
        let counts = self.study.counts(act);
        if counts {
            if let Some(Seen::Shrunk { comm, context }) = act.seen {
                writer.take_context(act, place, comm, context);
            }
        }
        if act.kind == Kind::Free && act.standing == Standing::Answered {
            writer.contexts.let_go(act.rank, act.comm);
        }
        if counts && act.refused(Refusal::NoContext) && writer.given(act.round).mask != 0 {
            writer.wrong = place;
        }
    }

    /// The point of a reply.
    fn point_of(&self, writer: &Writer<A>, act: &Act, place: u32) -> u32 {
        if act.standing != Standing::Answered {
            return writer.events;
        }
        if act.is(Kind::Get) || act.is(Kind::Ack) {
            return writer.times(place).pointed;
        }
        if let Some(Seen::Whole(Reply::Standing { revoked: false })) = act.seen {
            return writer.times(place).begun;
        }
        if !self.study.polls(act) {
            return writer.events;
        }
        if self.study.asked_by(act) == Kind::Start(Start::Barrier) {
            if act.refused(Refusal::IsRevoked) {
                return writer.events;
            }
            return writer.times(place).pointed;
        }
        if tells_end(self.study, act) {
            return writer.events;
        }
        writer.times(place).begun
    }
}
