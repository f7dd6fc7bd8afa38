//! One judgement: what was chosen, and whether an order and a trace come of it.
use crate::blame::needed;
use crate::choice::{Choice, Fork};
use crate::ways::choose;
use crate::witness::{Source, Writer};
use std::alloc::{AllocError, Allocator};
use ulfm_graph::tables::{NONE, at, count_up, greatest, number, put, small};
use ulfm_model::Refusal;
use ulfm_observed::LogLine;
use ulfm_study::{Deals, Plan, Standing, Study, Why, places, rules};

/// What came of a judgement.
#[derive(Drop)]
pub(crate) enum Judgement<A: Allocator> {
    /// A trace, which is to be confirmed.
    Found(Writer<A>),
    /// A fork of which some way has to be chosen.
    Broken(Fork),
    /// Nothing comes of the first so many choices; and the cycle, where there is one.
    Failed(Why, Vec<u32, A>, usize),
}

/// What is decided and made, with these choices.
#[derive(Drop)]
pub(crate) struct Settled<A: Allocator> {
    /// What is known of each round.
    pub(crate) deals: Deals<A>,
    /// For each communicator the call that revoked it: its place among the calls; `NONE` where none is chosen or told.
    pub(crate) revokers: Vec<u32, A>,
    /// For each communicator the round that made it: its place among those of agreement; `NONE` where none is chosen or told.
    pub(crate) makers: Vec<u32, A>,
    /// The greatest number of a communicator that must have been made.
    pub(crate) top: u32,
}

/// What is decided and made, with these choices.
pub(crate) fn settle<A: Allocator + Copy>(
    study: &Study<A>,
    choices: &[Choice],
) -> Result<Settled<A>, AllocError> {
    let mut settled = Settled {
        deals: Deals::new(study)?,
        revokers: vec![in study.alloc; NONE; study.comms]?,
        makers: study.made_by.clone()?,
        top: top(study),
    };
    for choice in choices {
        take_choice(&mut settled, study, *choice);
    }
    settled.deals.combine_all(study);
    Ok(settled)
}

/// Takes in what a choice decides or makes.
fn take_choice<A: Allocator + Copy>(settled: &mut Settled<A>, study: &Study<A>, choice: Choice) {
    match choice.fork {
        Fork::Open { act, .. } => {
            let counted = if choice.counts_start() { 1 } else { 0 };
            put(&mut settled.deals.counted, act as usize, counted);
        }
        Fork::Revoker { comm } => put(&mut settled.revokers, comm as usize, choice.way),
        Fork::Maker { comm } => {
            put(&mut settled.makers, comm as usize, choice.way);
            settled.deals.decide(choice.way);
        }
        // an open start of a barrier may have arrived though the barrier isn't done
        Fork::Seen { act, rank } if choice.way == 1 => {
            if let Some(poll) = study.act(act) {
                let start = study.barriers.start(poll.round, rank as usize);
                put(&mut settled.deals.counted, start as usize, 1);
            }
        }
        _ => {}
    }
}

/// The greatest number of a communicator that must have been made.
pub(crate) fn top<A: Allocator + Copy>(study: &Study<A>) -> u32 {
    if is_full(study) {
        return number(study.comms.saturating_sub(1));
    }
    let mut top = 0;
    for comm in 0..study.comms {
        if at(&study.made_by, comm) != NONE {
            top = greatest(top, number(comm));
        }
    }
    top
}

/// Whether a rank was told that there was no room for a communicator.
fn is_full<A: Allocator + Copy>(study: &Study<A>) -> bool {
    for act in &study.acts {
        if act.refused(Refusal::NoRoom) && act.standing == Standing::Answered && study.counts(act) {
            return true;
        }
    }
    false
}

/// Judges a log with these choices.
pub(crate) fn judge<A: Allocator + Copy, B: Allocator>(
    study: &Study<A>,
    lines: &[LogLine<B>],
    choices: &[Choice],
) -> Result<Judgement<A>, AllocError> {
    let none = Vec::new(study.alloc);
    let mut settled = settle(study, choices)?;
    if let Some(why) = fault(study, &settled.deals) {
        return Ok(Judgement::Failed(why, none, choices.len()));
    }
    let mut plan = Plan::new(study)?;
    if let Some(why) = fill(&mut plan, study, &mut settled, lines)? {
        return Ok(Judgement::Failed(why, none, choices.len()));
    }
    for choice in choices {
        if !choose(&mut plan, study, &settled.deals, *choice)? {
            return Ok(Judgement::Failed(Why::Choices, none, choices.len()));
        }
    }
    if !plan.graph.sort()? {
        let cycle = plan.graph.cycle()?;
        let needed = needed(&plan, study, &settled.deals, choices, &cycle)?;
        return Ok(Judgement::Failed(Why::Cycle, cycle, needed));
    }
    if let Some(why) = places::put_places(&mut plan, study)? {
        return Ok(Judgement::Failed(why, none, choices.len()));
    }
    if !places::order(&mut plan, study)? {
        let cycle = plan.graph.cycle()?;
        return Ok(Judgement::Failed(Why::Cycle, cycle, choices.len()));
    }
    finish(study, lines, &plan, &settled, choices.len())
}

/// Writes the trace, and looks for what it breaks.
fn finish<A: Allocator + Copy, B: Allocator>(
    study: &Study<A>,
    lines: &[LogLine<B>],
    plan: &Plan<A>,
    settled: &Settled<A>,
    choices: usize,
) -> Result<Judgement<A>, AllocError> {
    let source = Source {
        study,
        plan,
        deals: &settled.deals,
        lines,
        revokers: &settled.revokers,
        makers: &settled.makers,
    };
    let writer = source.write()?;
    let none = Vec::new(study.alloc);
    if writer.wrong != NONE {
        let act = writer.wrong;
        return Ok(Judgement::Failed(Why::Context { act }, none, choices));
    }
    match source.broken(&writer) {
        Some(fork) => Ok(Judgement::Broken(fork)),
        None => Ok(Judgement::Found(writer)),
    }
}

/// The first reply that can't be, by what was contributed and told.
fn fault<A: Allocator + Copy>(study: &Study<A>, deals: &Deals<A>) -> Option<Why> {
    for (i, act) in study.acts.iter().enumerate() {
        if let Some(why) = deals.fault(study, act, number(i)) {
            return Some(why);
        }
    }
    rules::missing(study)
}

/// Puts in all that is asked.
fn fill<A: Allocator + Copy, B: Allocator>(
    plan: &mut Plan<A>,
    study: &Study<A>,
    settled: &mut Settled<A>,
    lines: &[LogLine<B>],
) -> Result<Option<Why>, AllocError> {
    rules::lines(plan, study)?;
    rules::failures(plan, study)?;
    rules::calls_and_rounds(plan, study, &settled.deals, lines)?;
    rules::groups(plan, study, settled.top)?;
    if !makers(plan, study, settled)? {
        return Ok(Some(Why::Choices));
    }
    if study.logged {
        open_declarations(plan, study)?;
    }
    rules::revocations(plan, study, &mut settled.revokers)
}

/// A communicator that nobody was told of comes after the round that makes it; false where one round makes two.
fn makers<A: Allocator + Copy>(
    plan: &mut Plan<A>,
    study: &Study<A>,
    settled: &Settled<A>,
) -> Result<bool, AllocError> {
    let mut made = vec![in study.alloc; 0; study.agreements.list.len()]?;
    for comm in 1..study.comms {
        let round = at(&settled.makers, comm);
        if round != NONE {
            if count_up(&mut made, round as usize) == 1 {
                return Ok(false);
            }
            if at(&study.made_by, comm) == NONE {
                let decision = plan.decision(round);
                let spawn = plan.spawn(small(number(comm)));
                plan.edge(decision, spawn)?;
            }
        }
    }
    Ok(true)
}

/// Where all declarations are logged, an open call of one comes before it.
fn open_declarations<A: Allocator + Copy>(
    plan: &mut Plan<A>,
    study: &Study<A>,
) -> Result<(), AllocError> {
    for rank in 0..study.ranks {
        if let Some(act) = study.act(at(&study.declared, rank)) {
            plan.alive(act.rank, act.call)?;
        }
    }
    Ok(())
}
