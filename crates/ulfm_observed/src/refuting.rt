//! The test of two ranks' lines: where it holds, no legal trace explains the log.
ghost use Rattle.std.specs.Prelude.{◌≡◌, IsTrue, length, map};
ghost use Rattle.ulfm_laws.specs.declared.flag_and.FlagAnd.{FlagAnd as FlagOf};
ghost use Rattle.ulfm_observed.specs.Explains.{is_lost, loses};
ghost use Rattle.ulfm_observed.specs.LogTexts.{heard_in, heard_of};
ghost use Rattle.ulfm_observed.specs.Refuted.{IsRefuted, clash_in, counts_differ, decisions_differ, errors_differ, exceeds};
ghost use Rattle.ulfm_observed.specs.Refuted.{flags_differ, is_whole, told_exceeds, walks_clash};

use crate::log::{Item, Log, LogLine, Seen};
use crate::walk::{Walk, walk_of};
use std::alloc::Allocator;
use ulfm_laws::FlagAnd;

/// Whether what these two ranks were told of a round of the world's communicator, counted from 0, can't stand together, or one of them was told a
/// value with a bit that the other's flag lacks, which took part: then no legal trace explains the log. The two may be one rank.
///
/// It reads the lines of both ranks, from the first on, up to a refusal. Where it is false nothing is said.
#[tactic(auto, using(crate::proofs::Clash::refuted))]
pub fn refutes<A: Allocator>(log: &Log<A>, one: u16, other: u16, round: u16) -> bool
    ensures { IsTrue result → IsRefuted log.now }
{
    clash_in(log.limits.ranks, &log.lines, one, other, round)
}

/// Whether the lines of two ranks tell of one round what no legal trace has.
fn clash_in<A: Allocator>(
    ranks: u16,
    lines: &[LogLine<A>],
    one: u16,
    other: u16,
    round: u16,
) -> bool
    ensures { result ≡ clash_in ranks (map heard_of lines.now) one other round }
{
    is_whole(ranks, one, lines)
        && is_whole(ranks, other, lines)
        && walks_clash(&walk_of(lines, one, round), &walk_of(lines, other, round))
}

/// Whether a rank is one of the world's, and the end of its lines wasn't lost.
fn is_whole<A: Allocator>(ranks: u16, rank: u16, lines: &[LogLine<A>]) -> bool
    ensures { result ≡ is_whole ranks rank (map heard_of lines.now) }
{
    rank < ranks && !is_lost(rank, lines)
}

/// Whether the end of a rank's lines was lost.
fn is_lost<A: Allocator>(rank: u16, lines: &[LogLine<A>]) -> bool
    ensures { result ≡ is_lost rank (map heard_of lines.now) }
{
    for line in lines {
        if loses(rank, &line.item) {
            return true;
        }
    }
    false
}

/// Whether a line tells that the end of a rank's lines was lost.
fn loses(lost: u16, item: &Item) -> bool
    ensures { result ≡ loses lost item.now }
{
    match *item {
        Item::Lost { rank } => rank == lost,
        _ => false,
    }
}

/// Whether what two ranks' lines tell of one round can't stand together.
fn walks_clash(one: &Walk, other: &Walk) -> bool
    ensures { result ≡ walks_clash one.now other.now }
{
    decisions_differ(one.told, other.told)
        || told_exceeds(one.told, other.gave)
        || told_exceeds(other.told, one.gave)
}

/// Whether two decisions were told.
fn decisions_differ(one: Option<Seen>, other: Option<Seen>) -> bool
    ensures { result ≡ decisions_differ one other }
{
    match (one, other) {
        (
            Some(
                Seen::Agreed {
                    value,
                    failed,
                    raised,
                },
            ),
            Some(
                Seen::Agreed {
                    value: flag,
                    failed: count,
                    raised: error,
                },
            ),
        ) => {
            flags_differ(value, flag)
                || counts_differ(failed, count)
                || errors_differ(raised, error)
        }
        _ => false,
    }
}

/// Whether two flags were logged and differ.
fn flags_differ(one: Option<FlagAnd>, other: Option<FlagAnd>) -> bool
    ensures { result ≡ flags_differ one other }
{
    match (one, other) {
        (Some(one), Some(other)) => one.bits != other.bits,
        _ => false,
    }
}

/// Whether two counts were logged and differ.
fn counts_differ(one: Option<u16>, other: Option<u16>) -> bool
    ensures { result ≡ counts_differ one other }
{
    match (one, other) {
        (Some(one), Some(other)) => one != other,
        _ => false,
    }
}

/// Whether one error was raised and the other wasn't.
fn errors_differ(clean: bool, raised: bool) -> bool
    ensures { result ≡ errors_differ clean raised }
{
    if clean { !raised } else { raised }
}

/// Whether a value was told that has a bit which a flag lacks.
fn told_exceeds(told: Option<Seen>, flag: Option<FlagAnd>) -> bool
    ensures { result ≡ told_exceeds told flag }
{
    match told {
        Some(Seen::Agreed { value, .. }) => exceeds(value, flag),
        _ => false,
    }
}

/// Whether a value has a bit that a flag lacks.
fn exceeds(value: Option<FlagAnd>, flag: Option<FlagAnd>) -> bool
    ensures { result ≡ exceeds value flag }
{
    match (value, flag) {
        (Some(value), Some(flag)) => value.bits & flag.bits != value.bits,
        _ => false,
    }
}
