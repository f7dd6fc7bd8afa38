//! What of the log a written trace breaks: the forks of which it took no way.
use crate::choice::Fork;
use crate::witness::{Source, Writer};
use std::alloc::Allocator;
use ulfm_graph::tables::{NONE, at, least, number, small};
use ulfm_model::Refusal;
use ulfm_study::{Act, Kind, Standing, Start, tells_end};

/// The member of a communicator that came last, of those that were looked at.
#[derive(Clone, Copy)]
struct Last {
    /// Its rank; 0 where none was looked at.
    rank: u16,
    /// Where it came in the order.
    place: u32,
}

impl Last {
    /// None was looked at yet.
    fn new() -> Last {
        Last { rank: 0, place: 0 }
    }

    /// Looks at a member that came at this place.
    fn look(&mut self, rank: usize, place: u32) {
        if place >= self.place {
            self.place = place;
            self.rank = small(number(rank));
        }
    }
}

impl<A: Allocator + Copy, B: Allocator> Source<'_, A, B> {
    /// The first fork of which the written trace took no way.
    pub(crate) fn broken(&self, writer: &Writer<A>) -> Option<Fork> {
        for round in 0..self.study.agreements.list.len() {
            let fork = self.broken_round(writer, number(round));
            if fork.is_some() {
                return fork;
            }
        }
        self.broken_call()
    }

    /// The first fork of a poll's of which the written trace took no way.
    fn broken_call(&self) -> Option<Fork> {
        for (i, act) in self.study.acts.iter().enumerate() {
            let answered = act.standing == Standing::Answered && self.study.polls(act);
            if answered && self.study.counts(act) {
                let fork = self.broken_poll(act, number(i));
                if fork.is_some() {
                    return fork;
                }
            }
        }
        None
    }

    /// Whether nobody knew the last failure of a round, or nobody hadn't acknowledged one though there was an error.
    fn broken_round(&self, writer: &Writer<A>, round: u32) -> Option<Fork> {
        let deal = self.deals.deal(round);
        if !deal.decided {
            return None;
        }
        let comm = self.study.agreements.round(round as usize).comm;
        let lacks = self.study.lacking(comm);
        let known = writer.given(round).known;
        if deal.count != NONE {
            if known < deal.count {
                let count = lacks.wrapping_add(deal.count);
                return Some(self.knew(comm, round, count));
            }
            return None;
        }
        if deal.raised == 1 && known <= deal.acked {
            let count = lacks.wrapping_add(deal.acked).wrapping_add(1);
            return Some(self.knew(comm, round, count));
        }
        None
    }

    /// That somebody knew so many failures: first the contributor that looked last.
    fn knew(&self, comm: u16, round: u32, count: u32) -> Fork {
        let mut last = Last::new();
        for rank in 0..self.study.ranks {
            let start = self.deals.contribution(self.study, round, rank);
            if start != NONE && self.study.is_member(comm, rank) {
                last.look(rank, self.stand(self.plan.look(start)));
            }
        }
        Fork::Knew {
            round,
            count,
            first: last.rank,
        }
    }

    /// What a poll's reply needs and the order lacks.
    fn broken_poll(&self, act: &Act, place: u32) -> Option<Fork> {
        if self.study.asked_by(act) == Kind::Start(Start::Barrier) {
            return self.broken_barrier(act, place);
        }
        if tells_end(self.study, act) {
            return None;
        }
        let mut last = Last::new();
        for rank in 0..self.study.ranks {
            if self.study.is_member(act.comm, rank) {
                let came = self.came_at(act, rank);
                if came >= self.stand(act.call) {
                    return None;
                }
                last.look(rank, came);
            }
        }
        Some(Fork::Missing {
            act: place,
            first: last.rank,
        })
    }

    /// When a member was settled or had failed, whatever was first: its place in the order; none where neither came.
    fn came_at(&self, act: &Act, rank: usize) -> u32 {
        let start = self.deals.contribution(self.study, act.round, rank);
        least(self.failed_at(rank), self.settled_at(start))
    }

    /// Where a node stands in the order.
    fn stand(&self, node: u32) -> u32 {
        at(&self.plan.graph.place, node as usize)
    }

    /// Where the failure of a rank stands in the order; none where it doesn't fail.
    fn failed_at(&self, rank: usize) -> u32 {
        let place = at(&self.plan.place, rank);
        if place == NONE {
            return NONE;
        }
        self.stand(self.plan.failure(place))
    }

    /// Where what a start gave stands in the order; none where there is no such start.
    fn settled_at(&self, start: u32) -> u32 {
        if start == NONE {
            return NONE;
        }
        self.stand(self.plan.settle(start))
    }

    /// Where a member's arrival in a barrier stands in the order; none where it didn't arrive.
    fn arrived_at(&self, act: &Act, rank: usize) -> u32 {
        self.settled_at(self.deals.arrival(self.study, act.round, rank))
    }

    /// What a barrier's poll needs and the order lacks.
    fn broken_barrier(&self, act: &Act, place: u32) -> Option<Fork> {
        let fails = act.refused(Refusal::ProcFailed);
        if !fails && tells_end(self.study, act) {
            return None;
        }
        let point = self.stand(self.plan.point(place));
        let node = if fails { point } else { self.stand(act.call) };
        let mut found = false;
        for rank in 0..self.study.ranks {
            let absent = self.arrived_at(act, rank) > point;
            if absent && self.study.is_member(act.comm, rank) {
                let failed = self.failed_at(rank) < node;
                if failed && !fails {
                    let rank = small(number(rank));
                    return Some(Fork::Seen { act: place, rank });
                }
                found = found || failed == fails;
            }
        }
        if found {
            return None;
        }
        Some(self.lacking(act, place, fails))
    }

    /// That somebody's arrival was missing: first the member that arrived last.
    fn lacking(&self, act: &Act, place: u32, fails: bool) -> Fork {
        let mut last = Last::new();
        for rank in 0..self.study.ranks {
            if self.study.is_member(act.comm, rank) {
                last.look(rank, self.arrived_at(act, rank));
            }
        }
        let act = place;
        let first = last.rank;
        if fails {
            Fork::Failed { act, first }
        } else {
            Fork::Absent { act, first }
        }
    }
}
