//! What was decided of each round: who contributed, what that combines to, and what was told of it.
use crate::acts::{Act, Kind, Standing, Start};
use crate::study::Study;
use crate::why::Why;
use std::alloc::{AllocError, Allocator};
use ulfm_graph::tables::{NONE, at, least, number, put};
use ulfm_model::{Refusal, Reply};
use ulfm_observed::Seen;

/// What is known of a round of agreement.
#[derive(Clone, Copy)]
pub struct Deal {
    /// Whether it was decided.
    pub decided: bool,
    /// The call that told so first: its place among the calls; `NONE` where none did.
    pub told: u32,
    /// The call by which the count is known: its place among the calls; `NONE` where none tells it.
    pub counted_by: u32,
    /// The size of its failed group, in ranks; `NONE` where nothing tells it.
    pub count: u32,
    /// 1 where an error was told, 0 where it was told that there is none; `NONE` where neither was.
    pub raised: u32,
    /// The flags of those who are known to have contributed, under AND.
    pub sure: u64,
    /// The flags of all that contribute, under AND.
    pub value: u64,
    /// The fewest failures that a contributor had acknowledged; `NONE` where nobody contributed.
    pub acked: u32,
    /// Whether some contributor agrees.
    pub agrees: bool,
    /// Whether some contributor shrinks.
    pub shrinks: bool,
}

impl Deal {
    /// Nothing is known.
    fn new() -> Deal {
        Deal {
            decided: false,
            told: NONE,
            counted_by: NONE,
            count: NONE,
            raised: NONE,
            sure: u64::MAX,
            value: u64::MAX,
            acked: NONE,
            agrees: false,
            shrinks: false,
        }
    }
}

/// What is known of all rounds of agreement.
#[derive(Drop)]
pub struct Deals<A: Allocator> {
    /// What is known of each round, by its place among the rounds of agreement.
    list: Vec<Deal, A>,
    /// For each call, 1 where it is an open start that took effect; else 0.
    pub counted: Vec<u32, A>,
    /// For each round of a barrier, 1 where all arrived; else 0.
    pub done: Vec<u32, A>,
}

impl<A: Allocator + Copy> Deals<A> {
    /// What the replies tell.
    pub fn new(study: &Study<A>) -> Result<Deals<A>, AllocError> {
        let alloc = study.alloc;
        let mut deals = Deals {
            list: vec![in alloc; Deal::new(); study.agreements.list.len()]?,
            counted: vec![in alloc; 0; study.acts.len()]?,
            done: vec![in alloc; 0; study.barriers.list.len()]?,
        };
        for (i, act) in study.acts.iter().enumerate() {
            deals.note(study, act, number(i));
        }
        Ok(deals)
    }

    /// Takes in that a poll was answered by a decision.
    fn note(&mut self, study: &Study<A>, act: &Act, place: u32) {
        if !study.counts(act) || !tells_end(study, act) {
            return;
        }
        if study.asked_by(act) == Kind::Start(Start::Barrier) {
            if let Some(Seen::Whole(Reply::Done)) = act.seen {
                put(&mut self.done, act.round as usize, 1);
            }
            return;
        }
        let count = told_count(study, act);
        if let Some(deal) = self.list.get_mut(act.round as usize) {
            deal.decided = true;
            deal.told = least(deal.told, place);
            if count != NONE && deal.count == NONE {
                deal.count = count;
                deal.counted_by = place;
            }
            if let Some(Seen::Agreed { raised, .. }) = act.seen {
                if deal.raised == NONE {
                    deal.raised = if raised { 1 } else { 0 };
                }
            }
        }
    }

    /// What is known of a round.
    pub fn deal(&self, round: u32) -> Deal {
        match self.list.get(round as usize) {
            Some(deal) => *deal,
            None => Deal::new(),
        }
    }

    /// Whether a round was decided.
    pub fn is_decided(&self, round: u32) -> bool {
        self.deal(round).decided
    }

    /// Takes it that a round was decided, though nobody was told.
    pub fn decide(&mut self, round: u32) {
        if let Some(deal) = self.list.get_mut(round as usize) {
            deal.decided = true;
        }
    }

    /// The call by which a rank contributed to a round; none where it didn't.
    pub fn contribution(&self, study: &Study<A>, round: u32, rank: usize) -> u32 {
        let start = study.agreements.start(round, rank);
        match study.act(start) {
            Some(act) => {
                if act.standing != Standing::Open || at(&self.counted, start as usize) == 1 {
                    start
                } else {
                    NONE
                }
            }
            None => NONE,
        }
    }

    /// The call by which a rank arrived in a barrier's round; none where it didn't.
    pub fn arrival(&self, study: &Study<A>, round: u32, rank: usize) -> u32 {
        let start = study.barriers.start(round, rank);
        match study.act(start) {
            Some(act) => {
                let chosen = at(&self.counted, start as usize) == 1;
                let done = at(&self.done, round as usize) == 1;
                if act.standing != Standing::Open || done || chosen {
                    start
                } else {
                    NONE
                }
            }
            None => NONE,
        }
    }

    /// Combines what the contributors of each decided round gave.
    pub fn combine_all(&mut self, study: &Study<A>) {
        for round in 0..self.list.len() {
            if self.is_decided(number(round)) {
                self.combine(study, number(round));
            }
        }
    }

    /// Combines what the contributors of a decided round gave.
    fn combine(&mut self, study: &Study<A>, round: u32) {
        let comm = study.agreements.round(round as usize).comm;
        let mut deal = self.deal(round);
        for rank in 0..study.ranks {
            let start = self.contribution(study, round, rank);
            if !study.is_member(comm, rank) {
                continue;
            }
            if let Some(act) = study.act(start) {
                deal.acked = least(deal.acked, u32::from(act.acked));
                if act.begins(Start::Shrink) {
                    deal.shrinks = true;
                } else {
                    deal.agrees = true;
                    deal.value &= act.number;
                    if act.standing != Standing::Open {
                        deal.sure &= act.number;
                    }
                }
            }
        }
        if deal.raised == 0 && deal.count == NONE {
            deal.count = deal.acked;
            deal.counted_by = deal.told;
        }
        if let Some(cell) = self.list.get_mut(round as usize) {
            *cell = deal;
        }
    }

    /// Why a reply can't be, by what was contributed and told, if it can't.
    pub fn fault(&self, study: &Study<A>, act: &Act, place: u32) -> Option<Why> {
        if !study.counts(act)
            || !tells_end(study, act)
            || study.asked_by(act) == Kind::Start(Start::Barrier)
        {
            return None;
        }
        let deal = self.deal(act.round);
        let mixed = deal.agrees && deal.shrinks;
        if mixed != act.refused(Refusal::Mismatch) {
            return Some(Why::Mixed { act: place });
        }
        if let Some(
            Seen::Agreed {
                value: Some(value),
                ..
            },
        ) = act.seen
        {
            if value.bits != deal.value {
                return Some(Why::Value { act: place });
            }
        }
        self.fault_of_count(study, act, place, deal)
    }

    /// Why the count or the error that a reply tells can't be, if it can't.
    fn fault_of_count(&self, study: &Study<A>, act: &Act, place: u32, deal: Deal) -> Option<Why> {
        let count = told_count(study, act);
        if count != NONE && deal.count != NONE && count != deal.count {
            return Some(Why::TwoDecisions {
                one: deal.counted_by,
                other: place,
            });
        }
        let Some(Seen::Agreed { raised, .. }) = act.seen else {
            return None;
        };
        let told = if raised { 1 } else { 0 };
        if told != deal.raised {
            return Some(Why::TwoDecisions {
                one: deal.told,
                other: place,
            });
        }
        if deal.count == NONE {
            return None;
        }
        if raised == (deal.acked < deal.count) {
            None
        } else {
            Some(Why::Error { act: place })
        }
    }
}

/// Whether a poll was answered by what ends its request, other than by the rank's own failure.
pub fn tells_end<A: Allocator + Copy>(study: &Study<A>, act: &Act) -> bool {
    if act.standing != Standing::Answered || !study.polls(act) {
        return false;
    }
    match act.seen {
        Some(Seen::Whole(Reply::Pending)) => false,
        Some(_) => true,
        None => false,
    }
}

/// The size of the failed group that a reply tells.
fn told_count<A: Allocator + Copy>(study: &Study<A>, act: &Act) -> u32 {
    match act.seen {
        Some(
            Seen::Agreed {
                failed: Some(count),
                ..
            },
        ) => u32::from(count),
        Some(Seen::Shrunk { comm, .. }) => {
            study.lacking(comm).saturating_sub(study.lacking(act.comm))
        }
        _ => NONE,
    }
}
