//! What each call and each round of a log asks of an order.
use crate::acts::{Act, Kind, Standing, Start};
use crate::deals::{Deals, tells_end};
use crate::plan::Plan;
use crate::study::Study;
use crate::why::Why;
use std::alloc::{AllocError, Allocator};
use ulfm_graph::tables::{NONE, at, number, put, small};
use ulfm_model::{Refusal, Reply};
use ulfm_observed::{LogLine, Seen};

/// Puts in what the order of the lines asks.
pub fn lines<A: Allocator + Copy>(plan: &mut Plan<A>, study: &Study<A>) -> Result<(), AllocError> {
    let mut last = NONE;
    for line in 0..study.lines {
        let node = number(line);
        if at(&study.act_at, line) != NONE {
            if study.timed {
                plan.edge(last, node)?;
                last = node;
            } else {
                plan.edge(at(&study.before, line), node)?;
            }
        }
    }
    Ok(())
}

/// Puts in that failures come one after another.
pub fn failures<A: Allocator + Copy>(
    plan: &mut Plan<A>,
    study: &Study<A>,
) -> Result<(), AllocError> {
    for count in 1..study.ranks.saturating_add(1) {
        let count = number(count);
        let next = plan.failure(count.wrapping_add(1));
        let node = plan.failure(count);
        plan.edge(node, next)?;
    }
    Ok(())
}

/// Puts in what each call asks, and each decided round.
pub fn calls_and_rounds<A: Allocator + Copy, B: Allocator>(
    plan: &mut Plan<A>,
    study: &Study<A>,
    deals: &Deals<A>,
    lines: &[LogLine<B>],
) -> Result<(), AllocError> {
    let rules = Rules { study, deals };
    rules.calls(plan, lines)?;
    rules.rounds(plan)?;
    rules.roomless(plan)
}

/// A call whose reply counts for nothing: a start took effect all the same.
fn muted<A: Allocator + Copy>(plan: &mut Plan<A>, act: &Act, place: u32) -> Result<(), AllocError> {
    if !act.starts() {
        return Ok(());
    }
    let look = plan.look(place);
    let settle = plan.settle(place);
    plan.graph.late(settle);
    plan.edge(act.call, look)?;
    plan.edge(look, settle)?;
    plan.edge(settle, act.reply)
}

/// A rank was declared within a call, or before it.
fn declaration<A: Allocator + Copy>(plan: &mut Plan<A>, act: &Act) -> Result<(), AllocError> {
    if let Some(Seen::Whole(Reply::Declared)) = act.seen {
        plan.alive(act.rank, act.call)?;
        return plan.shows(act.rank, act.reply);
    }
    plan.shows(act.rank, act.call)
}

/// A call that looks somewhere between its lines: the node of its look.
fn looks<A: Allocator + Copy>(
    plan: &mut Plan<A>,
    act: &Act,
    place: u32,
) -> Result<u32, AllocError> {
    let look = plan.look(place);
    plan.edge(act.call, look)?;
    plan.edge(look, act.reply)?;
    plan.alive(act.rank, look)?;
    Ok(look)
}

/// What calls and rounds are asked by.
#[derive(Drop)]
struct Rules<'a, A: Allocator> {
    /// What is known of the log.
    study: &'a Study<A>,
    /// What is known of each round.
    deals: &'a Deals<A>,
}

impl<A: Allocator + Copy> Rules<'_, A> {
    /// Puts in what each call asks.
    fn calls<B: Allocator>(
        &self,
        plan: &mut Plan<A>,
        lines: &[LogLine<B>],
    ) -> Result<(), AllocError> {
        for (i, act) in self.study.acts.iter().enumerate() {
            let group: &[u16] = match lines.get(act.reply as usize) {
                Some(line) => &line.group,
                None => &[],
            };
            self.call(plan, act, number(i), group)?;
        }
        Ok(())
    }

    /// What a call asks.
    fn call(
        &self,
        plan: &mut Plan<A>,
        act: &Act,
        place: u32,
        group: &[u16],
    ) -> Result<(), AllocError> {
        match act.standing {
            Standing::Unseen => Ok(()),
            Standing::Refused => {
                if !self.study.counts(act) {
                    return Ok(());
                }
                plan.alive(act.rank, act.call)
            }
            Standing::Dead => {
                if self.study.counts(act) {
                    return plan.shows(act.rank, act.reply);
                }
                Ok(())
            }
            Standing::Open => self.open(plan, act, place),
            Standing::Answered if !self.study.counts(act) => muted(plan, act, place),
            Standing::Answered => match act.kind {
                Kind::Fail => declaration(plan, act),
                Kind::Get => {
                    let look = looks(plan, act, place)?;
                    let count = self.named(plan, act, group);
                    plan.after_failures(count, look)?;
                    plan.before_failure(count, look)
                }
                Kind::Ack => self.ack(plan, act, place),
                Kind::Start(_) => self.start(plan, act, place),
                Kind::Poll => self.polled(plan, act, place, act.call),
                _ => plan.alive(act.rank, act.call),
            },
        }
    }

    /// A call that has no reply: a start that took effect looked, and then contributed or arrived.
    fn open(&self, plan: &mut Plan<A>, act: &Act, place: u32) -> Result<(), AllocError> {
        if act.is(Kind::Fail) {
            return Ok(());
        }
        let counted = at(&self.deals.counted, place as usize) == 1;
        let arrived = act.begins(Start::Barrier) && at(&self.deals.done, act.round as usize) == 1;
        if act.starts() && (counted || arrived) {
            let look = plan.look(place);
            let settle = plan.settle(place);
            plan.graph.late(settle);
            plan.edge(act.call, look)?;
            plan.edge(look, settle)?;
            return plan.alive(act.rank, look);
        }
        Ok(())
    }

    /// The ranks of a failed group that was told stand first: how many failures they are, with those that the communicator lacks.
    fn named(&self, plan: &mut Plan<A>, act: &Act, group: &[u16]) -> u32 {
        let mut count = self.study.lacking(act.comm);
        for rank in group {
            count = count.wrapping_add(1);
            plan.not_before(*rank, count, act.reply);
            plan.not_behind(*rank, count, act.reply);
        }
        count
    }

    /// A count of acknowledged failures was told.
    fn ack(&self, plan: &mut Plan<A>, act: &Act, place: u32) -> Result<(), AllocError> {
        let look = looks(plan, act, place)?;
        let Some(Seen::Whole(Reply::Acked { count })) = act.seen else {
            return Ok(());
        };
        let count = u32::from(count);
        let all = self.study.lacking(act.comm).wrapping_add(count);
        if count > u32::from(act.acked) {
            plan.after_failures(all, look)?;
        }
        if act.number > u64::from(count) {
            plan.before_failure(all, look)?;
        }
        Ok(())
    }

    /// A start was answered, by itself or by its poll.
    fn start(&self, plan: &mut Plan<A>, act: &Act, place: u32) -> Result<(), AllocError> {
        let look = looks(plan, act, place)?;
        let settle = plan.settle(place);
        plan.graph.late(settle);
        plan.edge(look, settle)?;
        plan.edge(settle, act.reply)?;
        if !act.blocking {
            return Ok(());
        }
        self.polled(plan, act, place, settle)
    }

    /// A poll that begins at a node was answered.
    fn polled(
        &self,
        plan: &mut Plan<A>,
        act: &Act,
        place: u32,
        begun: u32,
    ) -> Result<(), AllocError> {
        if self.study.asked_by(act) == Kind::Start(Start::Barrier) {
            let point = plan.point(place);
            plan.edge(begun, point)?;
            let alive_at = if act.refused(Refusal::ProcFailed) {
                point
            } else {
                begun
            };
            plan.alive(act.rank, alive_at)?;
            return self.polled_barrier(plan, act, point);
        }
        plan.alive(act.rank, begun)?;
        let decision = plan.decision(act.round);
        if !tells_end(self.study, act) {
            plan.graph.early(begun);
            return plan.edge(begun, decision);
        }
        plan.edge(decision, act.reply)?;
        if let Some(Seen::Shrunk { comm, .. }) = act.seen {
            let spawn = plan.spawn(comm);
            plan.edge(decision, spawn)?;
            plan.edge(spawn, act.reply)?;
        }
        if act.refused(Refusal::NoRoom) && self.study.comms > 1 {
            let last = plan.spawn(small(number(self.study.comms.wrapping_sub(1))));
            plan.edge(last, act.reply)?;
        }
        Ok(())
    }

    /// A barrier's poll was answered whose point is a node.
    fn polled_barrier(&self, plan: &mut Plan<A>, act: &Act, point: u32) -> Result<(), AllocError> {
        plan.edge(point, act.reply)?;
        if !tells_end(self.study, act) || act.refused(Refusal::ProcFailed) {
            plan.graph.early(point);
        }
        if !act.refused(Refusal::IsRevoked) {
            plan.edge(point, plan.revocation(act.comm))?;
        }
        if let Some(Seen::Whole(Reply::Done)) = act.seen {
            return self.all_arrived(plan, act, point);
        }
        Ok(())
    }

    /// All members arrived before a point.
    fn all_arrived(&self, plan: &mut Plan<A>, act: &Act, point: u32) -> Result<(), AllocError> {
        for rank in 0..self.study.ranks {
            let start = self.study.barriers.start(act.round, rank);
            if start != NONE && self.study.is_member(act.comm, rank) {
                plan.edge(plan.settle(start), point)?;
            }
        }
        Ok(())
    }

    /// Puts in what each decided round asks.
    fn rounds(&self, plan: &mut Plan<A>) -> Result<(), AllocError> {
        for round in 0..self.study.agreements.list.len() {
            let round = number(round);
            if self.deals.is_decided(round) {
                self.decided(plan, round)?;
            }
        }
        Ok(())
    }

    /// What a decided round asks: of its members, and of the failures in its group.
    fn decided(&self, plan: &mut Plan<A>, round: u32) -> Result<(), AllocError> {
        let deal = self.deals.deal(round);
        let comm = self.study.agreements.round(round as usize).comm;
        let decision = plan.decision(round);
        let known = deal.count != NONE;
        let all = self
            .study
            .lacking(comm)
            .wrapping_add(if known { deal.count } else { 0 });
        let line = match self.study.act(deal.counted_by) {
            Some(act) => act.reply,
            None => NONE,
        };
        if known {
            plan.after_failures(all, decision)?;
        }
        for rank in 0..self.study.ranks {
            if !self.study.is_member(comm, rank) {
                continue;
            }
            let start = self.deals.contribution(self.study, round, rank);
            if start != NONE {
                plan.edge(plan.settle(start), decision)?;
                if known {
                    let look = plan.look(start);
                    plan.before_failure(all, look)?;
                }
            } else {
                plan.shows(small(number(rank)), decision)?;
                if known {
                    plan.not_behind(small(number(rank)), all, line);
                }
            }
        }
        Ok(())
    }

    /// Puts in that who was told that there is no room isn't in the group that its round decided.
    fn roomless(&self, plan: &mut Plan<A>) -> Result<(), AllocError> {
        for act in &self.study.acts {
            if act.refused(Refusal::NoRoom)
                && self.study.counts(act)
                && tells_end(self.study, act)
            {
                self.outside_group(plan, act)?;
            }
        }
        Ok(())
    }

    /// A rank isn't in the group that its round decided: no contributor had seen it failed, and those who are left out failed before it.
    fn outside_group(&self, plan: &mut Plan<A>, act: &Act) -> Result<(), AllocError> {
        for rank in 0..self.study.ranks {
            if self.study.is_member(act.comm, rank) {
                let start = self.deals.contribution(self.study, act.round, rank);
                if start == NONE {
                    plan.ahead(small(number(rank)), act.rank)?;
                } else {
                    let look = plan.look(start);
                    plan.alive(act.rank, look)?;
                }
            }
        }
        Ok(())
    }
}

/// The first barrier's poll that was done though a member never began it.
pub fn missing<A: Allocator + Copy>(study: &Study<A>) -> Option<Why> {
    for act in &study.acts {
        let done = match act.seen {
            Some(Seen::Whole(Reply::Done)) => true,
            _ => false,
        };
        if done && study.counts(act) && lacks_arrival(study, act) {
            return Some(Why::Missing { line: act.reply });
        }
    }
    None
}

/// Whether a member never began a barrier.
fn lacks_arrival<A: Allocator + Copy>(study: &Study<A>, act: &Act) -> bool {
    for rank in 0..study.ranks {
        if study.is_member(act.comm, rank) && study.barriers.start(act.round, rank) == NONE {
            return true;
        }
    }
    false
}

/// Puts in what communicators' members say of the failures, and that communicators are made one after another.
pub fn groups<A: Allocator + Copy>(
    plan: &mut Plan<A>,
    study: &Study<A>,
    top: u32,
) -> Result<(), AllocError> {
    for comm in 1..study.comms {
        let comm = small(number(comm));
        if at(&study.made_by, comm as usize) != NONE {
            group(plan, study, comm);
        }
        if u32::from(comm) < top {
            plan.edge(plan.spawn(comm), plan.spawn(comm.wrapping_add(1)))?;
        }
    }
    Ok(())
}

/// What the members of a communicator say.
fn group<A: Allocator + Copy>(plan: &mut Plan<A>, study: &Study<A>, comm: u16) {
    let lacks = study.lacking(comm);
    let line = at(&study.told_at, comm as usize);
    if at(&study.muted, line as usize) == 1 {
        return;
    }
    for rank in 0..study.ranks {
        if study.is_member(comm, rank) {
            plan.not_before(small(number(rank)), lacks.wrapping_add(1), line);
        } else {
            plan.not_behind(small(number(rank)), lacks, line);
        }
    }
}

/// Puts in what is told of revocations; who made each that nobody was told of stands in the table. Why not, if it can't be.
pub fn revocations<A: Allocator + Copy>(
    plan: &mut Plan<A>,
    study: &Study<A>,
    makers: &mut [u32],
) -> Result<Option<Why>, AllocError> {
    let twice = owners(study, makers);
    if twice.is_some() {
        return Ok(twice);
    }
    let nobody = told_revoked(plan, study, makers)?;
    if nobody.is_some() {
        return Ok(nobody);
    }
    revoked_by(plan, study, makers)?;
    Ok(None)
}

/// Writes down who was told that its call revoked; why not, if two were.
fn owners<A: Allocator + Copy>(study: &Study<A>, makers: &mut [u32]) -> Option<Why> {
    for (i, act) in study.acts.iter().enumerate() {
        if tells_own(act) && study.counts(act) {
            if at(makers, act.comm as usize) != NONE {
                return Some(Why::Revoked { line: act.reply });
            }
            put(makers, act.comm as usize, number(i));
        }
    }
    None
}

/// Puts in who was told that a communicator was revoked, or that it wasn't; why not, if nobody can have revoked it.
fn told_revoked<A: Allocator + Copy>(
    plan: &mut Plan<A>,
    study: &Study<A>,
    makers: &[u32],
) -> Result<Option<Why>, AllocError> {
    for act in &study.acts {
        let node = plan.revocation(act.comm);
        if tells_revoked(act) && study.counts(act) {
            plan.edge(node, act.reply)?;
            if at(makers, act.comm as usize) == NONE {
                return Ok(Some(Why::Revoked { line: act.reply }));
            }
        }
        if tells_none(act) && study.counts(act) {
            plan.edge(act.call, node)?;
        }
    }
    Ok(None)
}

/// Puts in that each revocation comes in the call that made it.
fn revoked_by<A: Allocator + Copy>(
    plan: &mut Plan<A>,
    study: &Study<A>,
    makers: &[u32],
) -> Result<(), AllocError> {
    for comm in 0..study.comms {
        if let Some(act) = study.act(at(makers, comm)) {
            let node = plan.revocation(small(number(comm)));
            plan.edge(act.call, node)?;
            // a rank that was declared behind its revocation is told of that, and not that it revoked
            if act.standing == Standing::Dead {
                plan.edge(node, act.reply)?;
            }
            if act.reply == NONE || act.standing == Standing::Dead {
                plan.alive(act.rank, act.call)?;
            }
        }
    }
    Ok(())
}

/// Whether a reply says that its call revoked.
pub fn tells_own(act: &Act) -> bool {
    match act.seen {
        Some(Seen::Whole(Reply::Revoked)) => true,
        _ => false,
    }
}

/// Whether a reply says that a communicator was revoked.
pub fn tells_revoked(act: &Act) -> bool {
    match act.seen {
        Some(
            Seen::Whole(Reply::Revoked | Reply::AlreadyRevoked | Reply::Standing { revoked: true }),
        ) => true,
        _ => act.refused(Refusal::IsRevoked),
    }
}

/// Whether a reply says that a communicator wasn't revoked.
fn tells_none(act: &Act) -> bool {
    match act.seen {
        Some(Seen::Whole(Reply::Standing { revoked: false })) => true,
        _ => false,
    }
}
