//! The ways of each fork, and what each asks of an order.
use crate::choice::{Choice, Fork, rank_at};
use std::alloc::{AllocError, Allocator};
use ulfm_graph::tables::{NONE, number, small};
use ulfm_study::{Deals, Kind, Plan, Standing, Start, Study};

/// Puts in what a choice asks; false where it can't be.
pub(crate) fn choose<A: Allocator + Copy>(
    plan: &mut Plan<A>,
    study: &Study<A>,
    deals: &Deals<A>,
    choice: Choice,
) -> Result<bool, AllocError> {
    let rank = choice.rank(study.ranks);
    match choice.fork {
        Fork::Knew { round, count, .. } => {
            choose_knew(plan, deals.contribution(study, round, rank), count, rank)?;
            Ok(true)
        }
        Fork::Missing { act, .. } | Fork::Failed { act, .. } | Fork::Absent { act, .. } => {
            let Some(poll) = study.act(act) else {
                return Ok(false);
            };
            let point = plan.point(act);
            match choice.fork {
                Fork::Failed { .. } => plan.shows(small(number(rank)), point)?,
                _ => plan.alive(small(number(rank)), poll.call)?,
            }
            let (node, start) = match choice.fork {
                Fork::Missing { .. } => (poll.call, deals.contribution(study, poll.round, rank)),
                _ => (point, deals.arrival(study, poll.round, rank)),
            };
            settle_behind(plan, node, start)?;
            Ok(true)
        }
        Fork::Seen { act, rank } => choose_seen(plan, study, deals, act, rank, choice.way),
        Fork::Maker { .. } => Ok(may_make(study, deals, choice.way)),
        _ => Ok(true),
    }
}

/// Whether a round may have made a communicator that nobody was told of: by shrinks alone, and nobody was told how it ended.
fn may_make<A: Allocator + Copy>(study: &Study<A>, deals: &Deals<A>, round: u32) -> bool {
    let deal = deals.deal(round);
    study.made(round) == NONE && deal.told == NONE && deal.shrinks && !deal.agrees
}

/// A rank knew the last failure of a round's group, by its contribution, or as one that is left out.
fn choose_knew<A: Allocator + Copy>(
    plan: &mut Plan<A>,
    start: u32,
    count: u32,
    rank: usize,
) -> Result<(), AllocError> {
    if start == NONE {
        plan.not_before(small(number(rank)), count, NONE);
        return Ok(());
    }
    let look = plan.look(start);
    plan.after_failures(count, look)
}

/// A contribution or an arrival comes behind a node, if there is one: since it was missing there.
fn settle_behind<A: Allocator + Copy>(
    plan: &mut Plan<A>,
    node: u32,
    start: u32,
) -> Result<(), AllocError> {
    if start == NONE {
        return Ok(());
    }
    let settle = plan.settle(start);
    plan.edge(node, settle)
}

/// A member that a pending barrier lacks wasn't seen failed, or it had arrived.
fn choose_seen<A: Allocator + Copy>(
    plan: &mut Plan<A>,
    study: &Study<A>,
    deals: &Deals<A>,
    act: u32,
    rank: u16,
    way: u32,
) -> Result<bool, AllocError> {
    let Some(poll) = study.act(act) else {
        return Ok(false);
    };
    if way == 0 {
        plan.alive(rank, poll.call)?;
        return Ok(true);
    }
    let start = deals.arrival(study, poll.round, rank as usize);
    if start == NONE {
        return Ok(false);
    }
    let point = plan.point(act);
    let settle = plan.settle(start);
    plan.edge(settle, point)?;
    Ok(true)
}

/// The next way of a fork from a number on that may be chosen; none where all were tried.
pub(crate) fn next_way<A: Allocator + Copy>(
    study: &Study<A>,
    fork: Fork,
    from: u32,
) -> Option<u32> {
    match fork {
        Fork::Open { .. } | Fork::Seen { .. } => { if from < 2 { Some(from) } else { None } }
        Fork::Revoker { comm } => next_revoker(study, comm, from),
        Fork::Maker { .. } => next_maker(study, from),
        Fork::Knew { round, first, .. } => {
            let comm = study.agreements.round(round as usize).comm;
            next_member(study, comm, first, from)
        }
        Fork::Missing { act, first } | Fork::Failed { act, first } | Fork::Absent { act, first } =>
            match study.act(act) {
                Some(poll) => next_member(study, poll.comm, first, from),
                None => None,
            },
    }
}

/// The next way that is a member of a communicator.
fn next_member<A: Allocator + Copy>(
    study: &Study<A>,
    comm: u16,
    first: u16,
    from: u32,
) -> Option<u32> {
    for way in from as usize..study.ranks {
        let way = number(way);
        if study.is_member(comm, rank_at(first, way, study.ranks)) {
            return Some(way);
        }
    }
    None
}

/// The next call that may have revoked a communicator without being told so: it is open, or its rank was declared behind it.
fn next_revoker<A: Allocator + Copy>(study: &Study<A>, comm: u16, from: u32) -> Option<u32> {
    for place in from as usize..study.acts.len() {
        if let Some(act) = study.act(number(place)) {
            let untold = act.standing == Standing::Open || act.standing == Standing::Dead;
            if act.is(Kind::Revoke) && act.comm == comm && untold {
                return Some(number(place));
            }
        }
    }
    None
}

/// The next round that may have made a communicator that nobody was told of: a shrink began it, and nobody was told how it ended.
fn next_maker<A: Allocator + Copy>(study: &Study<A>, from: u32) -> Option<u32> {
    for round in from as usize..study.agreements.list.len() {
        if study.made(number(round)) == NONE && is_shrinks(study, number(round)) {
            return Some(number(round));
        }
    }
    None
}

/// Whether some rank began a round by a shrink.
fn is_shrinks<A: Allocator + Copy>(study: &Study<A>, round: u32) -> bool {
    for rank in 0..study.ranks {
        if let Some(act) = study.act(study.agreements.start(round, rank)) {
            if act.begins(Start::Shrink) {
                return true;
            }
        }
    }
    false
}
