// Accesses, each one atomic step: loads, and what they read as; and exchanges, each for one event, with what stands where they are lost.
ghost use Rattle.std.specs.Prelude.{◌≡◌, ◌<◌, true, None, Some, is_some, slice_get, IfSome, IsTrue, is_ok, MatchResult};
ghost use Rattle.ulfm_model.specs.History.{failures, has_arrived, is_revoked, slot};
ghost use Rattle.ulfm_model.specs.Blocks.{has_block, IsBlockWithin};
ghost use Rattle.ulfm_model.specs.Laws.{summary_of};
ghost use Rattle.ulfm_model.specs.declared.contribution.Slot.{Slot};
ghost use Rattle.ulfm_model.specs.Terms.{made_at};
ghost use Rattle.ulfm_model.specs.declared.place.Place.TheVariants.{List as ListAt, Comm as CommAt, Revoked as RevokedAt, Slot as SlotAt, Arrival as ArrivalAt};
ghost use Rattle.ulfm_model.specs.declared.block.Wing.TheVariants.{Block as WingOfBlock, Slot as WingOfSlot};
ghost use Rattle.ulfm_words.specs.Blocks.{BlockSaysIn, FindsSlot, IsBlockIn, IsFirstOf, LoadsWing, Peeks};
ghost use Rattle.ulfm_words.specs.Places.{IsCell, IsWithin};
ghost use Rattle.ulfm_words.specs.Steps.{view_of, cached_in, IsView, Loads, limits_in, seen_in, IsWinged};
ghost use Rattle.ulfm_model.specs.declared.event.Event.TheVariants.{Fail, Spawn, Arrive, Revoke};
ghost use Rattle.ulfm_words.specs.Entries.{put_of};
ghost use Rattle.ulfm_words.specs.Tries.{attempt, IsSettledBy, Tries, entry, MayDeclareIn, MayPutIn, MayMakeIn, MayArriveIn, MayEndIn};

use crate::step::Step;
use crate::summaries::{said_in, slot_half, slot_word};
use crate::words::Words;
use std::alloc::Allocator;
use ulfm_laws::meld::Packed;
use ulfm_laws::summary::Summary;
use ulfm_model::block::{Block, Wing};
use ulfm_model::contribution::Slot;
use ulfm_model::event::Caller;
use ulfm_model::place::Place;

/// One load of an entry of the list of failures: the rank that is declared there, if one is.
#[inline(always)]
pub fn load_failure<P: Packed, A: Allocator, W: Words<P, A>>(
    words: &W,
    pass: &mut W::Pass,
    index: u16,
) -> Option<u16>
    requires of { IsView P.meld (view_of P.pack (W.name words.now) (W.sight pass.old)) }
    requires within { index < (limits_in (view_of P.pack (W.name words.now) (W.sight pass.old))).ranks }
    ensures loads { Loads P.meld P.pack W.alone (ListAt index) (view_of P.pack (W.name words.now) (W.sight pass.old)) (view_of P.pack (W.name words.now) (W.sight pass.new)) }
    ensures rank { result ≡ slice_get (failures (seen_in (view_of P.pack (W.name words.now) (W.sight pass.new)))) index }
    ensures below { IfSome result (λ r. r < (limits_in (view_of P.pack (W.name words.now) (W.sight pass.old))).ranks) }
{
    let word = words.load(pass, Place::List { index });
    if word == 0 {
        return None;
    }
    Some((word - 1) as u16)
}

/// What one load of a member's place in an agreement round finds.
#[derive(Clone, Copy)]
pub enum Found<P: Packed> {
    /// Nothing: the member isn't settled.
    Nothing,
    /// A mark, which says this.
    Marked(Summary<P>),
    /// The first word of a contribution. What it says is known once its wing is loaded, too.
    First(u64),
}

/// One load of a member's place in an agreement round.
#[inline(always)]
pub fn load_slot<P: Packed, A: Allocator, W: Words<P, A>>(
    words: &W,
    pass: &mut W::Pass,
    comm: u16,
    round: u16,
    rank: u16,
) -> Found<P>
    requires of { IsView P.meld (view_of P.pack (W.name words.now) (W.sight pass.old)) }
    requires within { IsCell (limits_in (view_of P.pack (W.name words.now) (W.sight pass.old))) comm round rank }
    ensures loads { Loads P.meld P.pack W.alone (SlotAt comm round rank) (view_of P.pack (W.name words.now) (W.sight pass.old))
        (view_of P.pack (W.name words.now) (W.sight pass.new)) }
    ensures found { FindsSlot P.pack (slot (seen_in (view_of P.pack (W.name words.now) (W.sight pass.new))) comm round rank) result }
{
    let word = words.load(pass, Place::Slot { comm, round, rank });
    if word == 0 {
        return Found::Nothing;
    }
    if word / 2 % 4 == 0 {
        return Found::Marked(said_in(word, 1));
    }
    Found::First(word)
}

/// One load of the wing of a contribution whose first word was loaded: what the contribution says.
#[inline(always)]
pub fn load_rest<P: Packed, A: Allocator, W: Words<P, A>>(
    words: &W,
    pass: &mut W::Pass,
    comm: u16,
    round: u16,
    rank: u16,
    first: u64,
) -> Summary<P>
    requires of { IsView P.meld (view_of P.pack (W.name words.now) (W.sight pass.old)) }
    requires within { IsCell (limits_in (view_of P.pack (W.name words.now) (W.sight pass.old))) comm round rank }
    requires first { IsFirstOf P.pack (slot (seen_in (view_of P.pack (W.name words.now) (W.sight pass.old))) comm round rank) first }
    ensures loads { (w : _) × LoadsWing P.meld P.pack W.alone (WingOfSlot comm round rank) w (view_of P.pack (W.name words.now) (W.sight pass.old))
        (view_of P.pack (W.name words.now) (W.sight pass.new)) }
    ensures summary { (s : Slot P) × (slot (seen_in (view_of P.pack (W.name words.now) (W.sight pass.new))) comm round rank ≡ Some s) × (result ≡ summary_of s) }
{
    let wing = words.load_wing(pass, Wing::Slot { comm, round, rank });
    said_in(first, wing)
}

/// One load of an entry of the list of communicators: the parent and the round that it was made of, if it was made.
#[inline(always)]
pub fn load_comm<P: Packed, A: Allocator, W: Words<P, A>>(
    words: &W,
    pass: &mut W::Pass,
    comm: u16,
) -> Option<(u16, u16)>
    requires of { IsView P.meld (view_of P.pack (W.name words.now) (W.sight pass.old)) }
    requires within { IsWithin (limits_in (view_of P.pack (W.name words.now) (W.sight pass.old))) (CommAt comm) }
    ensures loads { Loads P.meld P.pack W.alone (CommAt comm) (view_of P.pack (W.name words.now) (W.sight pass.old)) (view_of P.pack (W.name words.now) (W.sight pass.new)) }
    ensures made { result ≡ made_at (seen_in (view_of P.pack (W.name words.now) (W.sight pass.new))) comm }
{
    let word = words.load(pass, Place::Comm { comm });
    if word == 0 {
        return None;
    }
    Some((((word - 1) / 4096) as u16, ((word - 1) % 4096) as u16))
}

/// One load of whether a communicator is revoked.
pub fn load_revocation<P: Packed, A: Allocator, W: Words<P, A>>(
    words: &W,
    pass: &mut W::Pass,
    comm: u16,
) -> bool
    requires of { IsView P.meld (view_of P.pack (W.name words.now) (W.sight pass.old)) }
    requires within { comm < (limits_in (view_of P.pack (W.name words.now) (W.sight pass.old))).comms }
    ensures loads { Loads P.meld P.pack W.alone (RevokedAt comm) (view_of P.pack (W.name words.now) (W.sight pass.old))
        (view_of P.pack (W.name words.now) (W.sight pass.new)) }
    ensures revoked { result ≡ is_revoked (seen_in (view_of P.pack (W.name words.now) (W.sight pass.new))) comm }
{
    words.load(pass, Place::Revoked { comm }) != 0
}

/// One load of whether a member has arrived in a barrier round.
pub fn load_arrival<P: Packed, A: Allocator, W: Words<P, A>>(
    words: &W,
    pass: &mut W::Pass,
    comm: u16,
    round: u16,
    rank: u16,
) -> bool
    requires of { IsView P.meld (view_of P.pack (W.name words.now) (W.sight pass.old)) }
    requires within { IsCell (limits_in (view_of P.pack (W.name words.now) (W.sight pass.old))) comm round rank }
    ensures loads { Loads P.meld P.pack W.alone (ArrivalAt comm round rank) (view_of P.pack (W.name words.now) (W.sight pass.old))
        (view_of P.pack (W.name words.now) (W.sight pass.new)) }
    ensures arrived { result ≡ has_arrived (seen_in (view_of P.pack (W.name words.now) (W.sight pass.new))) comm round rank }
{
    words.load(pass, Place::Arrival { comm, round, rank }) != 0
}

/// One load of a block: its first word, if it is set.
#[inline(always)]
pub fn load_block<P: Packed, A: Allocator, W: Words<P, A>>(
    words: &W,
    pass: &mut W::Pass,
    block: Block,
) -> Option<u64>
    requires of { IsView P.meld (view_of P.pack (W.name words.now) (W.sight pass.old)) }
    requires within { IsBlockWithin (limits_in (view_of P.pack (W.name words.now) (W.sight pass.old))) block }
    ensures peeks { Peeks P.meld W.alone block (is_some result) (view_of P.pack (W.name words.now) (W.sight pass.old))
        (view_of P.pack (W.name words.now) (W.sight pass.new)) }
    ensures first { IfSome result (IsBlockIn P.meld P.pack (view_of P.pack (W.name words.now) (W.sight pass.new)) block) }
{
    let word = words.load_block(pass, block);
    if word == 0 {
        return None;
    }
    Some(word)
}

/// One load of the wing of a block whose first word was loaded: what its members say together.
#[inline(always)]
pub fn load_block_rest<P: Packed, A: Allocator, W: Words<P, A>>(
    words: &W,
    pass: &mut W::Pass,
    block: Block,
    first: u64,
) -> Summary<P>
    requires of { IsView P.meld (view_of P.pack (W.name words.now) (W.sight pass.old)) }
    requires within { IsBlockWithin (limits_in (view_of P.pack (W.name words.now) (W.sight pass.old))) block }
    requires first { IsBlockIn P.meld P.pack (view_of P.pack (W.name words.now) (W.sight pass.old)) block first }
    requires set { has_block (cached_in (view_of P.pack (W.name words.now) (W.sight pass.old))) block ≡ true }
    ensures loads { (w : _) × LoadsWing P.meld P.pack W.alone (WingOfBlock block) w (view_of P.pack (W.name words.now) (W.sight pass.old))
        (view_of P.pack (W.name words.now) (W.sight pass.new)) }
    ensures said { BlockSaysIn P.meld (view_of P.pack (W.name words.now) (W.sight pass.new)) block result }
{
    let wing = words.load_wing(pass, Wing::Block(block));
    said_in(first, wing)
}

/// One exchange of an entry of the list of failures: the rank is declared there, or the one that stands is given.
pub fn set_failure<P: Packed, A: Allocator, W: Words<P, A>>(
    words: &W,
    pass: &mut W::Pass,
    by: Caller,
    index: u16,
    rank: u16,
) -> Result<(), u16>
    requires of { IsView P.meld (view_of P.pack (W.name words.now) (W.sight pass.old)) }
    requires within { index < (limits_in (view_of P.pack (W.name words.now) (W.sight pass.old))).ranks }
    requires may { MayDeclareIn P.meld (view_of P.pack (W.name words.now) (W.sight pass.old)) index rank }
    ensures tries { Tries P.meld P.pack W.alone (attempt (ListAt index) (entry by (Fail rank))) (is_ok result) (view_of P.pack (W.name words.now) (W.sight pass.old))
        (view_of P.pack (W.name words.now) (W.sight pass.new)) }
    ensures stands { MatchResult result (λ _. slice_get (failures (seen_in (view_of P.pack (W.name words.now) (W.sight pass.new)))) index ≡ Some rank)
        (λ r. slice_get (failures (seen_in (view_of P.pack (W.name words.now) (W.sight pass.new)))) index ≡ Some r) }
{
    let step = Step {
        place: Place::List { index },
        word: u64::from(rank) + 1,
        half: 0,
        by,
    };
    match words.set_once(pass, step) {
        Ok(()) => Ok(()),
        Err(word) => Err((word - 1) as u16),
    }
}

/// What settles a member's place that an exchange found settled.
#[derive(Clone, Copy, Debug, PartialEq, Eq)]
pub enum Settled {
    /// A mark.
    Marked,
    /// A contribution. Its payload's upper half stands in its wing, which the exchange doesn't tell.
    Contributed,
}

/// One exchange of a member's place in an agreement round: it is settled so, or what settles it is given.
#[inline(always)]
pub fn set_slot<P: Packed, A: Allocator, W: Words<P, A>>(
    words: &W,
    pass: &mut W::Pass,
    by: Caller,
    comm: u16,
    round: u16,
    rank: u16,
    put: Slot<P>,
) -> Result<(), Settled>
    requires of { IsView P.meld (view_of P.pack (W.name words.now) (W.sight pass.old)) }
    requires within { IsCell (limits_in (view_of P.pack (W.name words.now) (W.sight pass.old))) comm round rank }
    requires may { MayPutIn P.meld (view_of P.pack (W.name words.now) (W.sight pass.old)) comm round rank put }
    requires winged { IsWinged P.pack (cached_in (view_of P.pack (W.name words.now) (W.sight pass.old))) (put_of comm round rank put) }
    ensures tries { Tries P.meld P.pack W.alone (attempt (SlotAt comm round rank) (entry by (put_of comm round rank put))) (is_ok result)
        (view_of P.pack (W.name words.now) (W.sight pass.old)) (view_of P.pack (W.name words.now) (W.sight pass.new)) }
    ensures stands { MatchResult result (λ _. slot (seen_in (view_of P.pack (W.name words.now) (W.sight pass.new))) comm round rank ≡ Some put)
        (IsSettledBy (slot (seen_in (view_of P.pack (W.name words.now) (W.sight pass.new))) comm round rank)) }
{
    let step = Step {
        place: Place::Slot { comm, round, rank },
        word: slot_word(&put),
        half: slot_half(&put),
        by,
    };
    match words.set_once(pass, step) {
        Ok(()) => Ok(()),
        Err(word) if word / 2 % 4 == 0 => Err(Settled::Marked),
        Err(_) => Err(Settled::Contributed),
    }
}

/// One exchange of an entry of the list of communicators: it is made of this round, or what it was made of is given.
pub fn set_comm<P: Packed, A: Allocator, W: Words<P, A>>(
    words: &W,
    pass: &mut W::Pass,
    by: Caller,
    comm: u16,
    parent: u16,
    round: u16,
) -> Result<(), (u16, u16)>
    requires of { IsView P.meld (view_of P.pack (W.name words.now) (W.sight pass.old)) }
    requires within { IsWithin (limits_in (view_of P.pack (W.name words.now) (W.sight pass.old))) (CommAt comm) }
    requires round { round < (limits_in (view_of P.pack (W.name words.now) (W.sight pass.old))).rounds }
    requires may { MayMakeIn P.meld (view_of P.pack (W.name words.now) (W.sight pass.old)) comm parent round }
    ensures tries { Tries P.meld P.pack W.alone (attempt (CommAt comm) (entry by (Spawn comm parent round))) (is_ok result)
        (view_of P.pack (W.name words.now) (W.sight pass.old)) (view_of P.pack (W.name words.now) (W.sight pass.new)) }
    ensures stands { MatchResult result (λ _. made_at (seen_in (view_of P.pack (W.name words.now) (W.sight pass.new))) comm ≡ Some (parent, round))
        (λ m. made_at (seen_in (view_of P.pack (W.name words.now) (W.sight pass.new))) comm ≡ Some m) }
{
    let step = Step {
        place: Place::Comm { comm },
        word: 1 + u64::from(parent) * 4096 + u64::from(round),
        half: 0,
        by,
    };
    match words.set_once(pass, step) {
        Ok(()) => Ok(()),
        Err(word) => Err((((word - 1) / 4096) as u16, ((word - 1) % 4096) as u16)),
    }
}

/// One exchange of a member's place in a barrier round: whether this call set it. It stands afterwards.
pub fn set_arrival<P: Packed, A: Allocator, W: Words<P, A>>(
    words: &W,
    pass: &mut W::Pass,
    by: Caller,
    comm: u16,
    round: u16,
    rank: u16,
) -> bool
    requires of { IsView P.meld (view_of P.pack (W.name words.now) (W.sight pass.old)) }
    requires within { IsCell (limits_in (view_of P.pack (W.name words.now) (W.sight pass.old))) comm round rank }
    requires may { MayArriveIn P.meld (view_of P.pack (W.name words.now) (W.sight pass.old)) comm round rank }
    ensures tries { Tries P.meld P.pack W.alone (attempt (ArrivalAt comm round rank) (entry by (Arrive comm round rank))) result
        (view_of P.pack (W.name words.now) (W.sight pass.old)) (view_of P.pack (W.name words.now) (W.sight pass.new)) }
    ensures stands { IsTrue (has_arrived (seen_in (view_of P.pack (W.name words.now) (W.sight pass.new))) comm round rank) }
{
    let arrival = Step {
        place: Place::Arrival { comm, round, rank },
        word: 1,
        half: 0,
        by,
    };
    words.set_once(pass, arrival).is_ok()
}

/// One exchange of a communicator's revocation: whether this call set it. It stands afterwards.
pub fn set_revocation<P: Packed, A: Allocator, W: Words<P, A>>(
    words: &W,
    pass: &mut W::Pass,
    by: Caller,
    comm: u16,
) -> bool
    requires of { IsView P.meld (view_of P.pack (W.name words.now) (W.sight pass.old)) }
    requires within { comm < (limits_in (view_of P.pack (W.name words.now) (W.sight pass.old))).comms }
    requires may { MayEndIn P.meld (view_of P.pack (W.name words.now) (W.sight pass.old)) comm }
    ensures tries { Tries P.meld P.pack W.alone (attempt (RevokedAt comm) (entry by (Revoke comm))) result (view_of P.pack (W.name words.now) (W.sight pass.old))
        (view_of P.pack (W.name words.now) (W.sight pass.new)) }
    ensures stands { IsTrue (is_revoked (seen_in (view_of P.pack (W.name words.now) (W.sight pass.new))) comm) }
{
    let revocation = Step {
        place: Place::Revoked { comm },
        word: 1,
        half: 0,
        by,
    };
    words.set_once(pass, revocation).is_ok()
}
