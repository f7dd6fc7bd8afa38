//! Which of the choices a circle rests on: where it rests on none of the last ones, other ways of those are of no use.
use crate::choice::{Choice, Fork};
use std::alloc::{AllocError, Allocator};
use ulfm_graph::tables::{NONE, at, put};
use ulfm_study::{Deals, Plan, Study};

/// How many of the choices a circle needs: up to the last one that put an edge of it in.
pub(crate) fn needed<A: Allocator + Copy>(
    plan: &Plan<A>,
    study: &Study<A>,
    deals: &Deals<A>,
    choices: &[Choice],
    cycle: &[u32],
) -> Result<usize, AllocError> {
    let mut met = vec![in study.alloc; 0; plan.graph.nodes]?;
    mark(&mut met, cycle);
    let mut needed = 0;
    for (i, choice) in choices.iter().enumerate() {
        if is_in(plan, study, deals, &met, *choice) {
            needed = i.wrapping_add(1);
        }
    }
    Ok(needed)
}

/// Marks the nodes of a circle.
fn mark(met: &mut [u32], cycle: &[u32]) {
    for node in cycle {
        put(met, *node as usize, 1);
    }
}

/// Whether a choice may have put in an edge between nodes that are marked.
fn is_in<A: Allocator + Copy>(
    plan: &Plan<A>,
    study: &Study<A>,
    deals: &Deals<A>,
    met: &[u32],
    choice: Choice,
) -> bool {
    let rank = choice.rank(study.ranks);
    match choice.fork {
        Fork::Open { act, .. } => {
            choice.counts_start() && (has(met, plan.look(act)) || has(met, plan.settle(act)))
        }
        Fork::Revoker { comm } => has(met, plan.revocation(comm)),
        Fork::Maker { comm } => has(met, plan.spawn(comm)) || has(met, plan.decision(choice.way)),
        Fork::Knew { round, count, .. } => {
            let start = deals.contribution(study, round, rank);
            start != NONE && has(met, plan.failure(count)) && has(met, plan.look(start))
        }
        Fork::Missing { act, .. } => {
            let (call, round) = polled(study, act);
            let start = deals.contribution(study, round, rank);
            start != NONE && has(met, call) && has(met, plan.settle(start))
        }
        Fork::Failed { act, .. } | Fork::Absent { act, .. } => {
            let (_, round) = polled(study, act);
            let start = deals.arrival(study, round, rank);
            start != NONE && has(met, plan.point(act)) && has(met, plan.settle(start))
        }
        Fork::Seen { act, rank } => {
            let (_, round) = polled(study, act);
            let start = deals.arrival(study, round, rank as usize);
            start != NONE && (has(met, plan.look(start)) || has(met, plan.settle(start)))
        }
    }
}

/// The line of a poll's call, and its round.
fn polled<A: Allocator + Copy>(study: &Study<A>, act: u32) -> (u32, u32) {
    match study.act(act) {
        Some(act) => (act.call, act.round),
        None => (NONE, NONE),
    }
}

/// Whether a node is marked.
fn has(met: &[u32], node: u32) -> bool {
    at(met, node as usize) == 1
}
