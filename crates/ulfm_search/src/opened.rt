//! What is open from the start: starts that have no reply, revocations that nobody owns, and communicators that nobody was told of.
use crate::choice::Fork;
use crate::solve::top;
use std::alloc::{AllocError, Allocator};
use ulfm_graph::tables::{NONE, at, greatest, number, put, small};
use ulfm_model::Reply;
use ulfm_observed::Seen;
use ulfm_study::rules::{tells_own, tells_revoked};
use ulfm_study::{Act, Deal, Deals, Standing, Start, Study};

/// The forks that are open from the start, of which each has a way.
pub(crate) fn opened<A: Allocator + Copy>(study: &Study<A>) -> Result<Vec<Fork, A>, AllocError> {
    let mut forks = Vec::new(study.alloc);
    let mut deals = Deals::new(study)?;
    deals.combine_all(study);
    makers(study, &mut forks)?;
    let failures = told_failures(study);
    let named = named(study);
    starts(study, &deals, failures, named, &mut forks)?;
    let owned = owned(study)?;
    revokers(study, owned, &mut forks)?;
    Ok(forks)
}

/// Adds a fork for each communicator that was made and of which nobody was told.
fn makers<A: Allocator + Copy>(
    study: &Study<A>,
    forks: &mut Vec<Fork, A>,
) -> Result<(), AllocError> {
    let top = top(study);
    for comm in 1..study.comms {
        if at(&study.made_by, comm) == NONE && number(comm) <= top {
            let comm = small(number(comm));
            forks.push(Fork::Maker { comm })?;
        }
    }
    Ok(())
}

/// Adds a fork for each open start that may have taken effect: of a decided round, or of any where a communicator was made of which nobody
/// was told.
fn starts<A: Allocator + Copy>(
    study: &Study<A>,
    deals: &Deals<A>,
    failures: u32,
    named: u32,
    forks: &mut Vec<Fork, A>,
) -> Result<(), AllocError> {
    let untold = !forks.is_empty();
    for (i, act) in study.acts.iter().enumerate() {
        let agreement = act.begins(Start::Agree) || act.begins(Start::Shrink);
        let asked = deals.is_decided(act.round) || untold;
        if agreement && asked && act.standing == Standing::Open {
            let deal = deals.deal(act.round);
            if may_count(study, &deal, act) {
                let counted = is_tried_first(study, &deal, failures, named, act);
                let act = number(i);
                forks.push(Fork::Open { act, counted })?;
            }
        }
    }
    Ok(())
}

/// Whether that an open start took effect is tried first: by how many failures were told of, and how many ranks were named as failed.
fn is_tried_first<A: Allocator + Copy>(
    study: &Study<A>,
    deal: &Deal,
    failures: u32,
    named: u32,
    act: &Act,
) -> bool {
    if at(&study.named, act.rank as usize) != NONE {
        return counts_named(study, deal, act);
    }
    let most = if deal.count == NONE {
        failures
    } else {
        deal.count
    };
    counts_first(study, deal, most.saturating_sub(named), act)
}

/// The value that was told of a round; none where none was.
fn told_value<A: Allocator + Copy>(study: &Study<A>, deal: &Deal) -> Option<u64> {
    match study.act(deal.told) {
        Some(act) => match act.seen {
            Some(
                Seen::Agreed {
                    value: Some(value),
                    ..
                },
            ) => Some(value.bits),
            _ => None,
        },
        None => None,
    }
}

/// Whether an open start may have taken effect, by its flag, by what its rank had acknowledged, and by when it was called.
fn may_count<A: Allocator + Copy>(study: &Study<A>, deal: &Deal, act: &Act) -> bool {
    if let Some(value) = told_value(study, deal) {
        if act.begins(Start::Agree) && act.number & value != value {
            return false;
        }
    }
    if deal.raised == 0 && deal.count != NONE && u32::from(act.acked) != deal.count {
        return false;
    }
    match study.act(deal.told) {
        Some(told) => !study.timed || act.call < told.reply,
        None => true,
    }
}

/// Whether an open start is first taken to have had effect: where the value needs it, or more than so many would be left out that aren't
/// named as failed.
fn counts_first<A: Allocator + Copy>(study: &Study<A>, deal: &Deal, most: u32, act: &Act) -> bool {
    let told = told_value(study, deal).unwrap_or(deal.sure);
    told != deal.sure || most < left_out(study, act)
}

/// The same of a rank that is named as failed: it is left out, unless it failed too late for the round's group or the value needs it.
fn counts_named<A: Allocator + Copy>(study: &Study<A>, deal: &Deal, act: &Act) -> bool {
    let place = at(&study.named, act.rank as usize);
    if deal.count != NONE && place > study.lacking(act.comm).wrapping_add(deal.count) {
        return true;
    }
    match told_value(study, deal) {
        Some(value) => value != unnamed_value(study, deal, act),
        None => false,
    }
}

/// The value of the round of an open start, if all took part that aren't named as failed.
fn unnamed_value<A: Allocator + Copy>(study: &Study<A>, deal: &Deal, act: &Act) -> u64 {
    let mut value = deal.sure;
    for rank in 0..study.ranks {
        if at(&study.named, rank) == NONE && study.is_member(act.comm, rank) {
            if let Some(start) = study.act(study.agreements.start(act.round, rank)) {
                if may_count(study, deal, &start) {
                    value &= start.number;
                }
            }
        }
    }
    value
}

/// How many ranks were named as failed.
fn named<A: Allocator + Copy>(study: &Study<A>) -> u32 {
    let mut count: u32 = 0;
    for place in &study.named {
        if *place != NONE {
            count = count.wrapping_add(1);
        }
    }
    count
}

/// How many failures were told of: the most that a reply tells, or that ranks are refused for good.
fn told_failures<A: Allocator + Copy>(study: &Study<A>) -> u32 {
    let mut most: u32 = 0;
    let mut dead: u32 = 0;
    for act in &study.acts {
        most = greatest(most, failures_by(study, act));
        if act.standing == Standing::Dead {
            dead = dead.wrapping_add(1);
        }
    }
    greatest(most, dead)
}

/// How many failures a reply tells of.
fn failures_by<A: Allocator + Copy>(study: &Study<A>, act: &Act) -> u32 {
    let count = match act.seen {
        Some(
            Seen::Agreed {
                failed: Some(count),
                ..
            },
        ) => count,
        Some(Seen::Whole(Reply::FailedGroup { count } | Reply::Acked { count })) => count,
        Some(Seen::Shrunk { comm, .. }) => return study.lacking(comm),
        _ => 0,
    };
    study.lacking(act.comm).wrapping_add(u32::from(count))
}

/// How many members that aren't named as failed are left out of the round of an open start, if no open start of it took effect.
fn left_out<A: Allocator + Copy>(study: &Study<A>, act: &Act) -> u32 {
    let mut count: u32 = 0;
    for rank in 0..study.ranks {
        if at(&study.named, rank) == NONE && study.is_member(act.comm, rank) {
            let answered = match study.act(study.agreements.start(act.round, rank)) {
                Some(start) => start.standing != Standing::Open,
                None => false,
            };
            if !answered {
                count = count.wrapping_add(1);
            }
        }
    }
    count
}

/// For each communicator, 1 where somebody was told that its call revoked it.
fn owned<A: Allocator + Copy>(study: &Study<A>) -> Result<Vec<u32, A>, AllocError> {
    let mut owned = vec![in study.alloc; 0; study.comms]?;
    for act in &study.acts {
        if study.counts(act) && tells_own(act) {
            put(&mut owned, act.comm as usize, 1);
        }
    }
    Ok(owned)
}

/// Adds a fork for each communicator that was revoked, where nobody was told that its call did it and some open call may have.
fn revokers<A: Allocator + Copy>(
    study: &Study<A>,
    owned: Vec<u32, A>,
    forks: &mut Vec<Fork, A>,
) -> Result<(), AllocError> {
    let mut owned = owned;
    for act in &study.acts {
        let told = study.counts(act) && tells_revoked(act);
        if told && at(&owned, act.comm as usize) == 0 {
            put(&mut owned, act.comm as usize, 1);
            let fork = Fork::Revoker { comm: act.comm };
            if crate::ways::next_way(study, fork, 0).is_some() {
                forks.push(fork)?;
            }
        }
    }
    Ok(())
}
