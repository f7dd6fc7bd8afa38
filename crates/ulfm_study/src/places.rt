//! Who stands where in the line of failures.
use crate::plan::Plan;
use crate::study::Study;
use crate::why::Why;
use std::alloc::{AllocError, Allocator};
use ulfm_graph::tables::{NONE, add_bits, at, bits_at, least, number, put, small};

/// Puts every rank that must have failed at a place in the line of failures, and others where there must be more; why not, if it can't be.
///
/// What is known of each is a window of places, and who comes before whom. Then the earliest deadline comes first. The nodes have an order.
pub fn put_places<A: Allocator + Copy>(
    plan: &mut Plan<A>,
    study: &Study<A>,
) -> Result<Option<Why>, AllocError> {
    if let Some(why) = windows(plan, study)? {
        return Ok(Some(why));
    }
    let before = pairs(plan, study)?;
    tighten(plan, study, &before);
    for rank in 0..study.ranks {
        if let Some(why) = empty(plan, study, rank) {
            return Ok(Some(why));
        }
    }
    Ok(fill(plan, study, &before))
}

/// For each failure its number, and for each other node this one.
fn failures<A: Allocator + Copy>(
    plan: &Plan<A>,
    study: &Study<A>,
    other: u32,
) -> Result<Vec<u32, A>, AllocError> {
    let mut numbers = vec![in study.alloc; other; plan.graph.nodes]?;
    for count in 1..study.ranks.saturating_add(2) {
        let node = plan.failure(number(count));
        put(&mut numbers, node as usize, number(count));
    }
    Ok(numbers)
}

/// How many failures come before each node at least.
fn below<A: Allocator + Copy>(plan: &Plan<A>, study: &Study<A>) -> Result<Vec<u32, A>, AllocError> {
    let mut numbers = failures(plan, study, 0)?;
    plan.graph.reach_up(&mut numbers)?;
    Ok(numbers)
}

/// Which failure is the first that comes behind each node.
fn above<A: Allocator + Copy>(plan: &Plan<A>, study: &Study<A>) -> Result<Vec<u32, A>, AllocError> {
    let mut numbers = failures(plan, study, NONE)?;
    plan.graph.reach_down(&mut numbers)?;
    Ok(numbers)
}

/// Narrows the windows by what comes before and behind failures.
fn windows<A: Allocator + Copy>(
    plan: &mut Plan<A>,
    study: &Study<A>,
) -> Result<Option<Why>, AllocError> {
    let below = below(plan, study)?;
    let above = above(plan, study)?;
    alive_windows(plan, &below);
    let why = shown_windows(plan, study, &above);
    if why.is_some() {
        return Ok(why);
    }
    Ok(undeclared(plan, study))
}

/// Who answered behind so many failures stands behind them.
fn alive_windows<A: Allocator + Copy>(plan: &mut Plan<A>, below: &[u32]) {
    for i in 0..plan.alive.len() {
        if let Some(tie) = plan.alive.get(i) {
            let tie = *tie;
            let place = at(below, tie.node as usize).wrapping_add(1);
            plan.not_before(tie.rank, place, tie.node);
        }
    }
}

/// Who is shown to have failed before a failure stands before it.
fn shown_windows<A: Allocator + Copy>(
    plan: &mut Plan<A>,
    study: &Study<A>,
    above: &[u32],
) -> Option<Why> {
    for i in 0..plan.shows.len() {
        if let Some(tie) = plan.shows.get(i) {
            let tie = *tie;
            let place = at(above, tie.node as usize);
            if place != NONE {
                plan.not_behind(tie.rank, place.saturating_sub(1), tie.node);
            }
            if is_undeclared(study, tie.rank) {
                let rank = tie.rank;
                let line = tie.node;
                return Some(Why::Undeclared { rank, line });
            }
        }
    }
    None
}

/// A rank that must have been declared and wasn't, where all declarations are logged.
fn undeclared<A: Allocator + Copy>(plan: &Plan<A>, study: &Study<A>) -> Option<Why> {
    for rank in 0..study.ranks {
        if at(&plan.must, rank) == 1 && is_undeclared(study, small(number(rank))) {
            let line = at(&plan.most_by, rank);
            let rank = small(number(rank));
            return Some(Why::Undeclared { rank, line });
        }
    }
    None
}

/// Whether no call can have declared a rank, where all declarations are logged.
fn is_undeclared<A: Allocator + Copy>(study: &Study<A>, rank: u16) -> bool {
    study.logged && at(&study.declared, rank as usize) == NONE
}

/// For each rank, which of the first 64 ranks that must have failed stand before it: a bit for each, by their order.
fn pairs<A: Allocator + Copy>(plan: &Plan<A>, study: &Study<A>) -> Result<Vec<u64, A>, AllocError> {
    let bits_of = bits(plan, study)?;
    let mut seen = vec![in study.alloc; 0; plan.graph.nodes]?;
    mark_shown(plan, &bits_of, &mut seen);
    plan.graph.reach_bits(&mut seen)?;
    let mut before = vec![in study.alloc; 0; study.ranks]?;
    for tie in &plan.alive {
        let others = bits_at(&seen, tie.node as usize) & !bits_at(&bits_of, tie.rank as usize);
        add_bits(&mut before, tie.rank as usize, others);
    }
    mark_ahead(plan, &bits_of, &mut before);
    Ok(before)
}

/// Marks each node that shows that ranks failed.
fn mark_shown<A: Allocator + Copy>(plan: &Plan<A>, bits_of: &[u64], seen: &mut [u64]) {
    for tie in &plan.shows {
        add_bits(seen, tie.node as usize, bits_at(bits_of, tie.rank as usize));
    }
}

/// Marks who has to fail before whom.
fn mark_ahead<A: Allocator + Copy>(plan: &Plan<A>, bits_of: &[u64], before: &mut [u64]) {
    for pair in &plan.pairs {
        add_bits(
            before,
            pair.then as usize,
            bits_at(bits_of, pair.first as usize),
        );
    }
}

/// The bit of each rank: of the first 64 that must have failed.
fn bits<A: Allocator + Copy>(plan: &Plan<A>, study: &Study<A>) -> Result<Vec<u64, A>, AllocError> {
    let mut bits = vec![in study.alloc; 0; study.ranks]?;
    let mut next: u64 = 1;
    for rank in 0..study.ranks {
        if at(&plan.must, rank) == 1 {
            if let Some(cell) = bits.get_mut(rank) {
                *cell = next;
            }
            next = next.wrapping_add(next);
        }
    }
    Ok(bits)
}

/// Narrows the windows along the pairs, as often as there may be failures.
fn tighten<A: Allocator + Copy>(plan: &mut Plan<A>, study: &Study<A>, before: &[u64]) {
    for _ in 0..64 {
        if pass(plan, study, before) == 0 {
            break;
        }
    }
}

/// One pass over all pairs; how many windows it narrowed.
fn pass<A: Allocator + Copy>(plan: &mut Plan<A>, study: &Study<A>, before: &[u64]) -> u32 {
    let mut narrowed: u32 = 0;
    let mut bit: u64 = 1;
    for first in 0..study.ranks {
        if at(&plan.must, first) == 1 {
            narrowed = narrowed.wrapping_add(pass_behind(plan, study, before, first, bit));
            bit = bit.wrapping_add(bit);
        }
    }
    narrowed
}

/// One pass over all that stand behind a rank; how many windows it narrowed.
fn pass_behind<A: Allocator + Copy>(
    plan: &mut Plan<A>,
    study: &Study<A>,
    before: &[u64],
    first: usize,
    bit: u64,
) -> u32 {
    let mut narrowed: u32 = 0;
    for rank in 0..study.ranks {
        if bits_at(before, rank) & bit != 0 {
            narrowed = narrowed.wrapping_add(narrow(plan, first, rank));
        }
    }
    narrowed
}

/// One rank stands before another, if that fails: narrows both windows.
fn narrow<A: Allocator + Copy>(plan: &mut Plan<A>, first: usize, rank: usize) -> u32 {
    let mut narrowed = 0;
    let from = at(&plan.least, first).wrapping_add(1);
    if at(&plan.least, rank) < from {
        let by = at(&plan.least_by, first);
        plan.not_before(small(number(rank)), from, by);
        narrowed = 1;
    }
    let to = at(&plan.most, rank).saturating_sub(1);
    if at(&plan.must, rank) == 1 && at(&plan.most, first) > to {
        let by = at(&plan.most_by, rank);
        plan.not_behind(small(number(first)), to, by);
        narrowed = 1;
    }
    narrowed
}

/// Why a rank has no place, if it must have one and has none.
fn empty<A: Allocator + Copy>(plan: &Plan<A>, study: &Study<A>, rank: usize) -> Option<Why> {
    let most = at(&plan.most, rank);
    let from = at(&plan.least, rank);
    if at(&plan.must, rank) != 1 || from <= most {
        return None;
    }
    Some(Why::Place {
        rank: small(number(rank)),
        most,
        most_by: line_of(plan, study, at(&plan.most_by, rank)),
        lacks: from.saturating_sub(1),
        lacks_by: line_of(plan, study, at(&plan.least_by, rank)),
    })
}

/// The line of a node: its own, or that of its call.
fn line_of<A: Allocator + Copy>(plan: &Plan<A>, study: &Study<A>, node: u32) -> u32 {
    match plan.part(node) {
        crate::plan::Part::Line(line) => line,
        crate::plan::Part::Look(act)
        | crate::plan::Part::Settle(act)
        | crate::plan::Part::Point(act) => match study.act(act) {
            Some(act) => act.call,
            None => NONE,
        },
        _ => NONE,
    }
}

/// How many ranks must have failed.
fn musts<A: Allocator + Copy>(plan: &Plan<A>, study: &Study<A>) -> u32 {
    let mut count: u32 = 0;
    for rank in 0..study.ranks {
        if at(&plan.must, rank) == 1 {
            count = count.wrapping_add(1);
        }
    }
    count
}

/// Fills the line of failures from its start.
fn fill<A: Allocator + Copy>(plan: &mut Plan<A>, study: &Study<A>, before: &[u64]) -> Option<Why> {
    let mut left = musts(plan, study);
    for place in 1..study.ranks.saturating_add(1) {
        let place = number(place);
        if left == 0 && place > plan.need {
            return None;
        }
        let rank = next_rank(plan, study, before, place);
        if rank == NONE {
            return Some(Why::Count { failures: place });
        }
        if at(&plan.must, rank as usize) == 1 {
            left = left.wrapping_sub(1);
        }
        put(&mut plan.place, rank as usize, place);
        put(&mut plan.ranked, place as usize, rank);
    }
    if left == 0 && plan.need as usize <= study.ranks {
        return None;
    }
    Some(Why::Count {
        failures: number(study.ranks).wrapping_add(1),
    })
}

/// The rank for a place: of those that may stand there the one that must stand first; another one where there is none.
fn next_rank<A: Allocator + Copy>(
    plan: &Plan<A>,
    study: &Study<A>,
    before: &[u64],
    place: u32,
) -> u32 {
    let waiting = unplaced(plan, study);
    let mut best = NONE;
    let mut best_key = NONE;
    for rank in 0..study.ranks {
        let free = at(&plan.place, rank) == NONE && at(&plan.least, rank) <= place;
        if !free || bits_at(before, rank) & waiting != 0 {
            continue;
        }
        let key = key_of(plan, study, rank, place);
        if key < best_key {
            best_key = key;
            best = number(rank);
        }
    }
    best
}

/// How soon a rank must stand in the line, if it may stand at a place; nothing where it may not.
fn key_of<A: Allocator + Copy>(plan: &Plan<A>, study: &Study<A>, rank: usize, place: u32) -> u32 {
    let most = at(&plan.most, rank);
    if most < place || is_undeclared(study, small(number(rank))) {
        return NONE;
    }
    if at(&plan.must, rank) == 1 {
        return most;
    }
    // one that needs no place comes behind those that do: first who had not answered for long
    least(at(&plan.least, rank), 65536).wrapping_add(65536)
}

/// The bits of those that must have failed and have no place yet.
fn unplaced<A: Allocator + Copy>(plan: &Plan<A>, study: &Study<A>) -> u64 {
    let mut bits = 0;
    let mut bit: u64 = 1;
    for rank in 0..study.ranks {
        if at(&plan.must, rank) == 1 {
            if at(&plan.place, rank) == NONE {
                bits |= bit;
            }
            bit = bit.wrapping_add(bit);
        }
    }
    bits
}

/// Puts in where each rank stands, and orders the nodes: failures as early as they may come. False where there is a cycle.
pub fn order<A: Allocator + Copy>(
    plan: &mut Plan<A>,
    study: &Study<A>,
) -> Result<bool, AllocError> {
    put_alive(plan)?;
    put_shown(plan)?;
    if !plan.graph.sort()? {
        return Ok(false);
    }
    let above = above(plan, study)?;
    plan.graph.sort_by(&above, study.ranks.saturating_add(2))?;
    Ok(true)
}

/// Who has a place answers before that failure.
fn put_alive<A: Allocator + Copy>(plan: &mut Plan<A>) -> Result<(), AllocError> {
    for i in 0..plan.alive.len() {
        if let Some(tie) = plan.alive.get(i) {
            let tie = *tie;
            let place = at(&plan.place, tie.rank as usize);
            if place != NONE {
                let node = plan.failure(place);
                plan.edge(tie.node, node)?;
            }
        }
    }
    Ok(())
}

/// Who is shown to have failed has its place before.
fn put_shown<A: Allocator + Copy>(plan: &mut Plan<A>) -> Result<(), AllocError> {
    for i in 0..plan.shows.len() {
        if let Some(tie) = plan.shows.get(i) {
            let tie = *tie;
            let node = plan.failure(at(&plan.place, tie.rank as usize));
            plan.edge(node, tie.node)?;
        }
    }
    Ok(())
}
