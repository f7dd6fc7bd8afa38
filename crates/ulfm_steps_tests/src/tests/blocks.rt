// The blocks of a round of a world in one hand: peeks at them, and readings that cache them.
ghost use Rattle.std.specs.Prelude.{◌≡◌, ◌<◌, length};
ghost use Rattle.ulfm_model.specs.History.{first_ranks};
ghost use Rattle.ulfm_words.specs.Steps.{view_of, IsView};
ghost use Rattle.ulfm_steps.specs.Blocks.{BothTell};

use crate::tests::counted::{Counted, CountedPass};
use crate::tests::finished::give;
use crate::tests::world::{GROUP, THREE, flag};
use std::alloc::Allocator;
use std::test::Fail;
use ulfm_laws::flag_and::FlagAnd;
use ulfm_laws::meld::Packed;
use ulfm_laws::summary::{Acked, Body, Known, Summary};
use ulfm_model::block::{Block, Side};
use ulfm_model::limits::Limits;
use ulfm_steps::{Found, Peek, ReadBlocks, RoundBlocks};
use ulfm_words::Words;

const FOUR: Limits = Limits {
    ranks: 4,
    comms: 1,
    rounds: 1,
};

// A block of the world's first round.
fn block(side: Side) -> Block
    ensures { result ≡ record { comm = 0; round = 0; side = side } }
{
    Block {
        comm: 0,
        round: 0,
        side,
    }
}

// What is known of the blocks of the world's first round.
fn peek<P: Packed, A: Allocator, W: Words<P, A>>(
    words: &W,
    pass: &mut W::Pass,
    group: &[u16],
) -> RoundBlocks<P>
    requires of { IsView P.meld (view_of P.pack (W.name words.now) (W.sight pass.old)) }
    requires group { group.now ≡ first_ranks (W.name words.now).limits.ranks }
    requires some { 0 < length group.now }
    requires rounds { 0 < (W.name words.now).limits.rounds }
    ensures of { IsView P.meld (view_of P.pack (W.name words.now) (W.sight pass.new)) }
    ensures are { BothTell P.meld (W.sight pass.new).seen 0 0 group.now result }
{
    let mut peek = Peek::new(0, 0);
    peek.advance(words, pass, group, true);
    peek.blocks
}

// What all members of that round say together: its blocks are loaded, and read where they aren't set.
fn read<P: Packed, A: Allocator, W: Words<P, A>>(
    words: &W,
    pass: &mut W::Pass,
    group: &[u16],
) -> Option<Summary<P>>
    requires some { 0 < length group.now }
    requires of { IsView P.meld (view_of P.pack (W.name words.now) (W.sight pass.old)) }
    requires group { group.now ≡ first_ranks (W.name words.now).limits.ranks }
    requires rounds { 0 < (W.name words.now).limits.rounds }
    ensures { IsView P.meld (view_of P.pack (W.name words.now) (W.sight pass.new)) }
{
    let blocks = peek(words, pass, group);
    let members = group.len() as u16;
    if let Some(all) = blocks.all(members) {
        return Some(all);
    }
    let mut reading = ReadBlocks::new(0, 0, blocks, members);
    match reading.advance(words, pass, group, true) {
        Some(Found::All(all)) => Some(all),
        _ => None,
    }
}

// What members say together who know of no failure.
fn said(bits: u64) -> Option<Summary<FlagAnd>> {
    Some(Summary {
        body: Body::Flag(FlagAnd { bits }),
        known: Known { count: 0 },
        acked: Acked { count: 0 },
    })
}

// The loads of blocks, of places and of wings, and the exchanges of blocks and of wings.
fn counts(pass: &CountedPass<FlagAnd>) -> (u32, u32, u32, u32, u32) {
    let loads = (pass.block_loads, pass.loads, pass.wing_loads);
    (loads.0, loads.1, loads.2, pass.caches, pass.spreads)
}

#[test]
fn both_blocks_are_read_once(rt: HostRuntime) -> Result<(), Fail> {
    let words = Counted::<FlagAnd>::open(THREE)?;
    let mut pass = words.pass(rt.alloc())?;
    assert!(rt; give(&words, &mut pass, 0, flag(0x5_0000_000f)));
    assert!(rt; give(&words, &mut pass, 1, flag(0x4_0000_003c)));
    assert!(rt; give(&words, &mut pass, 2, flag(0xffff_ffff_ffff_ffff)));
    let none = peek(&words, &mut pass, &GROUP);
    assert!(rt; none.front.is_none() && none.back.is_none());
    assert_eq!(rt; counts(&pass), (2, 0, 0, 0, 3));
    assert!(rt; read(&words, &mut pass, &GROUP) == said(0x4_0000_000c));
    // Rank 1 is in both.
    assert_eq!(rt; counts(&pass), (4, 4, 4, 2, 5));
    let both = peek(&words, &mut pass, &GROUP);
    assert!(rt; both.front == said(0x4_0000_000c) && both.back == said(0x4_0000_003c));
    assert!(rt; both.all(3) == said(0x4_0000_000c));
    assert!(rt; read(&words, &mut pass, &GROUP) == said(0x4_0000_000c));
    assert_eq!(rt; counts(&pass), (8, 4, 8, 2, 5));
    assert_eq!(rt;
        words.load_block(&mut pass, block(Side::Front)),
        0x1800_0003
    );
    assert_eq!(rt; words.load_block(&mut pass, block(Side::Back)), 0x7800_0003);
    Ok(())
}

#[test]
fn no_block_of_a_missing_member_is_cached(rt: HostRuntime) -> Result<(), Fail> {
    let words = Counted::<FlagAnd>::open(THREE)?;
    let mut pass = words.pass(rt.alloc())?;
    assert!(rt; give(&words, &mut pass, 0, flag(0xf)));
    assert!(rt; read(&words, &mut pass, &GROUP).is_none());
    assert_eq!(rt; counts(&pass), (2, 2, 1, 0, 1));
    assert!(rt; give(&words, &mut pass, 1, flag(0x3c)));
    assert!(rt; read(&words, &mut pass, &GROUP).is_none());
    assert_eq!(rt; counts(&pass), (4, 6, 4, 1, 3));
    assert_eq!(rt;
        words.load_block(&mut pass, block(Side::Front)),
        0x1800_0003
    );
    assert_eq!(rt; words.load_block(&mut pass, block(Side::Back)), 0);
    assert!(rt; give(&words, &mut pass, 2, flag(0x4)));
    // The front block is set, and the back one alone is read.
    assert!(rt; read(&words, &mut pass, &GROUP) == said(0x4));
    assert_eq!(rt; counts(&pass), (8, 8, 7, 2, 5));
    Ok(())
}

#[test]
fn a_front_block_may_have_all(rt: HostRuntime) -> Result<(), Fail> {
    let words = Counted::<FlagAnd>::open(FOUR)?;
    let mut pass = words.pass(rt.alloc())?;
    let group = [0, 1, 2, 3];
    assert!(rt; give(&words, &mut pass, 0, flag(0xff)));
    assert!(rt; give(&words, &mut pass, 1, flag(0x7f)));
    assert!(rt; give(&words, &mut pass, 2, flag(0x3f)));
    assert!(rt; give(&words, &mut pass, 3, flag(0x1f)));
    assert!(rt; read(&words, &mut pass, &group) == said(0x1f));
    assert_eq!(rt; counts(&pass), (1, 4, 4, 1, 5));
    assert!(rt; read(&words, &mut pass, &group) == said(0x1f));
    assert_eq!(rt; counts(&pass), (2, 4, 5, 1, 5));
    Ok(())
}
