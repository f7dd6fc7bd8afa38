//! Which replies can't stand together: replies are left out of a log that isn't explained, as long as it isn't.
use crate::search::{Outcome, search};
use std::alloc::{AllocError, Allocator};
use ulfm_graph::tables::{NONE, at, number, put};
use ulfm_observed::LogLine;
use ulfm_study::{Act, Deals, Part, Plan, Study, Why};

/// Whether a log isn't explained, as its replies are muted now.
fn fails<A: Allocator + Copy, B: Allocator>(
    study: &Study<A>,
    lines: &[LogLine<B>],
    budget: &mut u64,
) -> Result<bool, AllocError> {
    match search(study, lines, budget)? {
        Outcome::Nothing(_, _) => Ok(true),
        _ => Ok(false),
    }
}

/// Mutes these lines, or lets them count again.
fn mute<A: Allocator + Copy>(study: &mut Study<A>, lines: &[u32], muted: u32) {
    for line in lines {
        put(&mut study.muted, *line as usize, muted);
    }
}

/// The replies that count, in the order of their lines.
fn counting<A: Allocator + Copy>(study: &Study<A>) -> Result<Vec<u32, A>, AllocError> {
    let mut list = Vec::new(study.alloc);
    for line in 0..study.lines {
        if at(&study.muted, line) == 0 {
            if let Some(act) = study.act(at(&study.act_at, line)) {
                if act.reply == number(line) {
                    list.push(number(line))?;
                }
            }
        }
    }
    Ok(list)
}

/// How many of the first replies of a list are enough, with those that count besides, for a log that isn't explained: with all it isn't.
/// The others are muted.
fn enough<A: Allocator + Copy, B: Allocator>(
    study: &mut Study<A>,
    lines: &[LogLine<B>],
    list: &[u32],
    budget: &mut u64,
) -> Result<usize, AllocError> {
    let mut low: usize = 0;
    let mut high = list.len();
    for _ in 0..64 {
        if low >= high {
            break;
        }
        let middle = low.wrapping_add(high.wrapping_sub(low) / 2);
        mute(study, list, 1);
        mute(study, first(list, middle), 0);
        if fails(study, lines, budget)? {
            high = middle;
        } else {
            low = middle.wrapping_add(1);
        }
    }
    mute(study, list, 1);
    mute(study, first(list, high), 0);
    Ok(high)
}

/// The first ones of a list.
fn first(list: &[u32], count: usize) -> &[u32] {
    match list.get(..count) {
        Some(part) => part,
        None => list,
    }
}

/// Mutes replies as long as the log isn't explained: the last one of those that are enough stays, and then those before it are tried.
fn thin<A: Allocator + Copy, B: Allocator>(
    study: &mut Study<A>,
    lines: &[LogLine<B>],
    budget: &mut u64,
) -> Result<(), AllocError> {
    let mut list = counting(study)?;
    for _ in 0..study.lines {
        let high = enough(study, lines, &list, budget)?;
        if high == 0 {
            break;
        }
        list.truncate(high.wrapping_sub(1));
    }
    Ok(())
}

/// The reason at last, and its cycle, where there is one: replies that don't matter are muted.
///
/// Where the order of lines is one in time, what is left is of the shortest beginning that isn't explained.
pub(crate) fn reduce<A: Allocator + Copy, B: Allocator>(
    study: &mut Study<A>,
    lines: &[LogLine<B>],
    budget: &mut u64,
    why: Why,
    cycle: Vec<u32, A>,
) -> Result<(Why, Vec<u32, A>), AllocError> {
    let (why, cycle) = if study.timed {
        let list = counting(study)?;
        enough(study, lines, &list, budget)?;
        last_reason(study, lines, budget, why, cycle)?
    } else {
        (why, cycle)
    };
    keep_candidates(study, lines, budget, why, &cycle)?;
    thin(study, lines, budget)?;
    last_reason(study, lines, budget, why, cycle)
}

/// The reason as the replies are muted now; the one from before where none is found.
fn last_reason<A: Allocator + Copy, B: Allocator>(
    study: &Study<A>,
    lines: &[LogLine<B>],
    budget: &mut u64,
    why: Why,
    cycle: Vec<u32, A>,
) -> Result<(Why, Vec<u32, A>), AllocError> {
    match search(study, lines, budget)? {
        Outcome::Nothing(why, cycle) => Ok((why, cycle)),
        _ => Ok((why, cycle)),
    }
}

/// Mutes all replies but those that a reason names, if the log isn't explained so.
fn keep_candidates<A: Allocator + Copy, B: Allocator>(
    study: &mut Study<A>,
    lines: &[LogLine<B>],
    budget: &mut u64,
    why: Why,
    cycle: &[u32],
) -> Result<(), AllocError> {
    let all = counting(study)?;
    let mut kept = Vec::new(study.alloc);
    candidates(study, why, cycle, &mut kept)?;
    let before = study.muted.clone()?;
    mute(study, &all, 1);
    unmute(study, &kept, &before);
    if kept.is_empty() || !fails(study, lines, budget)? {
        mute(study, &all, 0);
    }
    Ok(())
}

/// Lets lines count again that counted before.
fn unmute<A: Allocator + Copy>(study: &mut Study<A>, lines: &[u32], before: &[u32]) {
    for line in lines {
        if at(before, *line as usize) == 0 {
            put(&mut study.muted, *line as usize, 0);
        }
    }
}

/// The replies that a reason names.
fn candidates<A: Allocator + Copy>(
    study: &Study<A>,
    why: Why,
    cycle: &[u32],
    kept: &mut Vec<u32, A>,
) -> Result<(), AllocError> {
    match why {
        Why::TwoDecisions { one, other } => {
            keep(study, one, kept)?;
            keep(study, other, kept)
        }
        Why::Value { act }
        | Why::Error { act }
        | Why::Mixed { act }
        | Why::Context { act }
        | Why::Pending { act } => keep(study, act, kept),
        Why::Place {
            most_by,
            lacks_by,
            ..
        } => {
            keep(study, at(&study.act_at, most_by as usize), kept)?;
            keep(study, at(&study.act_at, lacks_by as usize), kept)
        }
        Why::Cycle => keep_cycle(study, cycle, kept),
        _ => Ok(()),
    }
}

/// Keeps the reply of a call, if it has one.
fn keep<A: Allocator + Copy>(
    study: &Study<A>,
    act: u32,
    kept: &mut Vec<u32, A>,
) -> Result<(), AllocError> {
    if let Some(act) = study.act(act) {
        keep_reply(&act, kept)?;
    }
    Ok(())
}

/// Keeps a reply, if there is one.
fn keep_reply<A: Allocator>(act: &Act, kept: &mut Vec<u32, A>) -> Result<(), AllocError> {
    if act.reply != NONE {
        kept.push(act.reply)?;
    }
    Ok(())
}

/// Keeps the replies of a circle.
fn keep_cycle<A: Allocator + Copy>(
    study: &Study<A>,
    cycle: &[u32],
    kept: &mut Vec<u32, A>,
) -> Result<(), AllocError> {
    let plan = Plan::new(study)?;
    let deals = Deals::new(study)?;
    for node in cycle {
        let act = match plan.part(*node) {
            Part::Line(line) => at(&study.act_at, line as usize),
            Part::Look(act) | Part::Settle(act) | Part::Point(act) => act,
            Part::Decision(round) => {
                keep(study, deals.deal(round).counted_by, kept)?;
                deals.deal(round).told
            }
            Part::Spawn(comm) => {
                let line = at(&study.told_at, comm as usize);
                at(&study.act_at, line as usize)
            }
            _ => NONE,
        };
        keep(study, act, kept)?;
    }
    Ok(())
}
