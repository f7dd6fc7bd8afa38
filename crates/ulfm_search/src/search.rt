//! The search for a trace that explains a log: choices are tried where a judgement breaks off. Nothing of it is trusted.
use crate::choice::{Choice, Fork};
use crate::opened::opened;
use crate::solve::{Judgement, judge};
use crate::ways::next_way;
use std::alloc::{AllocError, Allocator};
use ulfm_graph::tables::{at, put};
use ulfm_observed::{LogLine, Step};
use ulfm_study::{Study, Why};

/// How a search ended.
#[derive(Drop)]
pub(crate) enum Outcome<A: Allocator> {
    /// With a trace, which is to be confirmed.
    Found(Vec<Step<A>, A>),
    /// With no trace: all choices were tried. The nodes of a cycle, where there is one.
    Nothing(Why, Vec<u32, A>),
    /// Its budget was used up.
    GivenUp,
}

/// Searches with a budget: each judgement takes as much of it as it has nodes. One judgement is always made.
pub(crate) fn search<A: Allocator + Copy, B: Allocator>(
    study: &Study<A>,
    lines: &[LogLine<B>],
    budget: &mut u64,
) -> Result<Outcome<A>, AllocError> {
    let mut opened = opened(study)?;
    let mut turned = vec![in study.alloc; 0; opened.len()]?;
    let mut choices = Vec::new(study.alloc);
    let mut first: Option<(Why, Vec<u32, A>)> = None;
    let cost = cost_of(study);
    for turn in 0..1_000_000 {
        push_opened(study, &opened, &mut choices)?;
        if *budget < cost && turn > 0 {
            return Ok(Outcome::GivenUp);
        }
        *budget = budget.saturating_sub(cost);
        let mut broken = None;
        match judge(study, lines, &choices)? {
            Judgement::Found(writer) => return Ok(Outcome::Found(writer.steps)),
            Judgement::Broken(fork) => broken = Some(fork),
            Judgement::Failed(why, cycle, needed) => {
                if turn_way(study, why, &mut opened, &mut turned) {
                    choices.clear();
                    first = None;
                    continue;
                }
                choices.truncate(needed);
                if first.is_none() {
                    first = Some((why, cycle));
                }
            }
        }
        let root = root_of(&choices, opened.len(), broken);
        if !go_on(study, &mut choices, broken)? {
            return Ok(nothing(study, first, root));
        }
    }
    Ok(Outcome::GivenUp)
}

/// Where a rank has no place in the line of failures, the other way of its open start is tried first from now on, once; whether one is.
fn turn_way<A: Allocator + Copy>(
    study: &Study<A>,
    why: Why,
    opened: &mut [Fork],
    turned: &mut [u32],
) -> bool {
    let Why::Place { rank, .. } = why else {
        return false;
    };
    for i in 0..opened.len() {
        if let Some(Fork::Open { act, counted }) = opened.get(i) {
            let act = *act;
            let counted = !*counted;
            if at(turned, i) == 0 && is_of(study, act, rank) {
                put(turned, i, 1);
                put_fork(opened, i, Fork::Open { act, counted });
                return true;
            }
        }
    }
    false
}

/// Whether a call is a rank's.
fn is_of<A: Allocator + Copy>(study: &Study<A>, act: u32, rank: u16) -> bool {
    match study.act(act) {
        Some(act) => act.rank == rank,
        None => false,
    }
}

/// Writes a fork at a place, if there is one.
fn put_fork(forks: &mut [Fork], place: usize, fork: Fork) {
    if let Some(cell) = forks.get_mut(place) {
        *cell = fork;
    }
}

/// What a judgement costs: some nodes for each line and each round.
pub(crate) fn cost_of<A: Allocator + Copy>(study: &Study<A>) -> u64 {
    let rounds = study.agreements.list.len().wrapping_mul(study.ranks) as u64;
    (study.lines as u64)
        .wrapping_mul(4)
        .wrapping_add(rounds)
        .wrapping_add(1000)
}

/// Chooses the first way of each fork that is open from the start and has none.
fn push_opened<A: Allocator + Copy>(
    study: &Study<A>,
    opened: &[Fork],
    choices: &mut Vec<Choice, A>,
) -> Result<(), AllocError> {
    for i in choices.len()..opened.len() {
        if let Some(fork) = opened.get(i) {
            let fork = *fork;
            let way = next_way(study, fork, 0).unwrap_or(0);
            choices.push(Choice { fork, way })?;
        }
    }
    Ok(())
}

/// The first fork behind those that were open from the start.
fn root_of(choices: &[Choice], open: usize, fork: Option<Fork>) -> Option<Fork> {
    if open > 0 {
        return None;
    }
    match choices.first() {
        Some(choice) => Some(choice.fork),
        None => fork,
    }
}

/// That nothing was found, and why.
fn nothing<A: Allocator + Copy>(
    study: &Study<A>,
    first: Option<(Why, Vec<u32, A>)>,
    root: Option<Fork>,
) -> Outcome<A> {
    let (why, cycle) = match first {
        Some(found) => found,
        None => (Why::Choices, Vec::new(study.alloc)),
    };
    match root {
        None => Outcome::Nothing(why, cycle),
        Some(Fork::Missing { act, .. }) => Outcome::Nothing(Why::Pending { act }, cycle),
        Some(Fork::Knew { round, .. }) => Outcome::Nothing(Why::Unknown { round }, cycle),
        Some(_) => Outcome::Nothing(Why::Choices, cycle),
    }
}

/// Goes on to the next choices: the first way of a fork, or else the next way of the last fork that has one. False where there is none.
fn go_on<A: Allocator + Copy>(
    study: &Study<A>,
    choices: &mut Vec<Choice, A>,
    fork: Option<Fork>,
) -> Result<bool, AllocError> {
    if let Some(fork) = fork {
        if let Some(way) = next_way(study, fork, 0) {
            choices.push(Choice { fork, way })?;
            return Ok(true);
        }
    }
    for _ in 0..choices.len() {
        let Some(last) = choices.pop() else {
            return Ok(false);
        };
        let fork = last.fork;
        if let Some(way) = next_way(study, fork, last.way.wrapping_add(1)) {
            choices.push(Choice { fork, way })?;
            return Ok(true);
        }
    }
    Ok(false)
}
