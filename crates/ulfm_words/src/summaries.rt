// What words of slots and of blocks say of a round. Both are laid out alike: a slot's word is that of a block of its member alone.
ghost use Rattle.std.specs.Prelude.{◌≡◌, ◌↔◌, ◌≤◌, ◌<◌, ◌+◌, ◌^◌, Some, IsSome, IfSome, MatchBool, MatchOption, refl};
ghost use Rattle.ulfm_laws.specs.declared.summary.Body.{Body as About};
ghost use Rattle.ulfm_laws.specs.declared.summary.Summary.{Summary as Said};
ghost use Rattle.ulfm_laws.specs.Ranges.{payload_bits};
ghost use Rattle.ulfm_model.specs.Blocks.{block_number, block_wing as wing_of_block, block_word as word_of_block, payload_of as payload_of_body};
ghost use Rattle.ulfm_model.specs.Laws.{summary_of};
ghost use Rattle.ulfm_model.specs.Words.{first_word, half_bits, packed as word_from, slot_half as half_of_slot, slot_wing as wing_of_slot, slot_word as word_of_slot, upper_half, word_bits};
ghost use Rattle.ulfm_model.specs.declared.contribution.Slot.{Slot};
ghost use Rattle.ulfm_words.specs.Blocks.{FitsBody, IsBodyOf, IsPairOf};
ghost use Rattle.ulfm_words.specs.Slots.{slot_of, HasPair, IsSlotPair, IsFlag, IsExact, given_if, are_counts, mark_if, is_mark_word};
ghost use Rattle.ulfm_words.specs.Slots.{half_in, is_wing_word as is_a_wing, number_in, payload_in as payload_of_number};

use ulfm_laws::meld::{Meld, Packed};
use ulfm_laws::summary::{Acked, Body, CtxMask, Known, Summary};
use ulfm_model::contribution::{Contribution, MarkCount, Offer, Slot};

/// The word of a block whose members say this together, and of a slot that says it: bit 0 is 1; bits 1 and 2 tell nothing, a flag,
/// a mask of context ids and a clash apart; bits 3 to 13 are how many failures are known of; bits 14 to 24 how many of them
/// everyone has acknowledged, 2047 where nobody contributed; bits 25 to 56 the lower half of the payload.
#[inline(always)]
pub fn block_word<P: Packed>(all: &Summary<P>) -> u64
    ensures { result ≡ word_of_block P.pack all.now }
{
    let tag = match all.body {
        Body::Unit => 0,
        Body::Flag(_) => 1,
        Body::Ctx(_) => 2,
        Body::Clash => 3,
    };
    packed(tag, all.known, all.acked, payload_of(&all.body))
}

/// The wing of a block whose members say this together: bit 0 is 1; bits 1 to 32 are the upper half of the payload.
#[inline(always)]
pub fn block_wing<P: Packed>(all: &Summary<P>) -> u64
    ensures { result ≡ wing_of_block P.pack all.now }
{
    1 + 2 * u64::from(block_half(all))
}

// The upper half of the payload.
#[inline(always)]
fn block_half<P: Packed>(all: &Summary<P>) -> u32
    ensures { result ≡ upper_half (block_number P.pack all.now) }
{
    (payload_of(&all.body) >> HALF_BITS) as u32
}

/// A block's word and its wing.
#[inline(always)]
pub fn block_words<P: Packed>(all: &Summary<P>) -> (u64, u64)
    ensures { result ≡ record { 0 = word_of_block P.pack all.now; 1 = wing_of_block P.pack all.now } }
{
    (block_word(all), block_wing(all))
}

/// What the members of a block with this word and this wing say together: none exactly where no settled members have them. A word of
/// marks alone has no payload, knows of 1 to 1024 failures and has acknowledged everyone; any other has acknowledged no more than it
/// knows of; a clash has no payload; and a flag's payload unpacks.
pub fn read_block<P: Packed>(word: u64, wing: u64) -> Option<Summary<P>>
    ensures { MatchOption result ((all : Said P) → ¬ IsPairOf P.unpack word wing all) (IsPairOf P.unpack word wing) }
{
    if word >= 1 << WORD_BITS || word % 2 != 1 || !is_wing_word(wing) {
        return None;
    }
    let known = (word / 8 % 2048) as u16;
    let acked = (word / 16_384 % 2048) as u16;
    let body = body_from(word / 2 % 4, payload_in(word, wing))?;
    if known > 1024 || !may_be_said(&body, known, acked) {
        return None;
    }
    Some(Summary {
        body,
        known: Known { count: known },
        acked: Acked { count: acked },
    })
}

/// What a block's word and wing, or a contribution's, say. Nothing of it is tested: they are one's. A mark's is given a wing without a
/// half, since it has none.
#[inline(always)]
pub(crate) fn said_in<P: Packed>(word: u64, wing: u64) -> Summary<P>
    requires { (s : Said P) × (word ≡ word_of_block P.pack s) × (wing ≡ wing_of_block P.pack s) }
    ensures { (s : Said P) → word ≡ word_of_block P.pack s → wing ≡ wing_of_block P.pack s → result ≡ s }
{
    let known = Known {
        count: (word / 8 % 2048) as u16,
    };
    let acked = Acked {
        count: (word / 16_384 % 2048) as u16,
    };
    let payload = payload_in(word, wing);
    let tag = word / 2 % 4;
    let body = if tag == 0 {
        Body::Unit
    } else if tag == 1 {
        Body::Flag(P::unpack(payload).unwrap())
    } else if tag == 2 {
        Body::Ctx(CtxMask { bits: payload })
    } else {
        Body::Clash
    };
    Summary { body, known, acked }
}

// How many bits of a payload stand in the first word.
const HALF_BITS: u32 = 32;

// How many bits a first word has.
const WORD_BITS: u32 = 57;

// What a body has in its words beside its tag.
#[inline(always)]
fn payload_of<P: Packed>(body: &Body<P>) -> u64
    ensures is { result ≡ payload_of_body P.pack body.now }
    ensures fits { payload_of_body P.pack body.now < 2 ^ payload_bits }
{
    match body {
        Body::Flag(flag) => flag.pack(),
        Body::Ctx(mask) => mask.bits,
        Body::Unit | Body::Clash => 0,
    }
}

// The payload of a word and its wing.
#[inline(always)]
fn payload_in(word: u64, wing: u64) -> u64
    requires word { word < 2 ^ word_bits }
    requires wing { wing < 2 ^ (1 + half_bits) }
    ensures { result ≡ payload_of_number (number_in word (half_in wing)) }
{
    (word >> (WORD_BITS - HALF_BITS)) + ((wing >> 1) << HALF_BITS)
}

// The first word of these parts, up to the payload's lower half.
fn packed(tag: u64, known: Known, acked: Acked, payload: u64) -> u64
    requires tag { tag ≤ 3 }
    requires payload { payload < 2 ^ payload_bits }
    ensures { result ≡ first_word (word_from tag known.count acked.count payload) }
{
    let half = payload % (1 << HALF_BITS);
    1 + 2 * tag + 8 * u64::from(known.count) + 16_384 * u64::from(acked.count) + 33_554_432 * half
}

// Whether a word is that of a wing.
#[inline(always)]
fn is_wing_word(wing: u64) -> bool
    ensures { result ≡ is_a_wing wing }
{
    wing % 2 == 1 && wing < 1 << (HALF_BITS + 1)
}

// The body with this tag and this payload, if there is one.
fn body_from<P: Packed>(tag: u64, payload: u64) -> Option<Body<P>>
    requires { tag ≤ 3 }
    ensures { MatchOption result ((body : About P) → ¬ IsBodyOf P.unpack tag payload body) (IsBodyOf P.unpack tag payload) }
{
    match tag {
        1 => Some(Body::Flag(P::unpack(payload)?)),
        2 => Some(Body::Ctx(CtxMask { bits: payload })),
        _ if payload != 0 => None,
        0 => Some(Body::Unit),
        _ => Some(Body::Clash),
    }
}

// Whether settled members may say this, with these counts.
fn may_be_said<P: Packed>(body: &Body<P>, known: u16, acked: u16) -> bool
    ensures { MatchBool result (FitsBody body.now known acked) (¬ FitsBody body.now known acked) }
{
    match body {
        Body::Unit => 0 < known && acked == 2047,
        _ => acked <= known,
    }
}

/// The word of a slot and its wing. Of the word bit 0 is 1; bits 1 and 2 tell a mark, a flag and a mask of context ids apart; bits 3 to
/// 13 are how many failures it knows of; bits 14 to 24 how many of them are acknowledged, 2047 in a mark; bits 25 to 56 the lower half of
/// the payload. Of the wing bit 0 is 1, and bits 1 to 32 are the upper half; a mark has none, and its wing is given as 0.
///
/// ```
/// let slot = Slot::Given(Contribution {
///     offer,
///     known,
///     acked,
/// });
/// let words = slot_words(&slot);
/// assert!(rt; words == (0x0f << 25 | 1 << 14 | 2 << 3 | 1 << 1 | 1, 1));
/// ```
#[inline(always)]
pub fn slot_words<P: Packed>(slot: &Slot<P>) -> (u64, u64)
    ensures { result ≡ record { 0 = word_of_slot P.pack slot.now; 1 = wing_of_slot P.pack slot.now } }
{
    (slot_word(slot), slot_wing(slot))
}

/// The first word of a slot.
#[inline(always)]
pub(crate) fn slot_word<P: Packed>(slot: &Slot<P>) -> u64
    ensures { result ≡ word_of_slot P.pack slot.now }
{
    block_word(&said_by(slot))
}

/// The second word of a slot; 0 of a mark, which has none.
#[inline(always)]
pub fn slot_wing<P: Packed>(slot: &Slot<P>) -> u64
    ensures { result ≡ wing_of_slot P.pack slot.now }
{
    match slot {
        Slot::Mark(_) => 0,
        Slot::Given(_) => block_wing(&said_by(slot)),
    }
}

/// The upper half of a slot's payload, which is 0 of a mark.
#[inline(always)]
pub(crate) fn slot_half<P: Packed>(slot: &Slot<P>) -> u32
    ensures { result ≡ half_of_slot P.pack slot.now }
{
    block_half(&said_by(slot))
}

// What a slot says of its round. A mark says nothing, and has acknowledged everyone.
#[inline(always)]
fn said_by<P: Packed>(slot: &Slot<P>) -> Summary<P>
    ensures { result ≡ summary_of slot.now }
{
    match slot {
        Slot::Mark(mark) => Summary {
            body: Body::unit(),
            known: mark.known,
            acked: Acked::unit(),
        },
        Slot::Given(given) => Summary {
            body: match given.offer {
                Offer::Flag(flag) => Body::Flag(flag),
                Offer::Ctx(mask) => Body::Ctx(mask),
            },
            known: given.known,
            acked: given.acked,
        },
    }
}

/// What stands in a slot with this word and this wing: none exactly where no slot has them. A mark with a payload or a wing, more
/// failures acknowledged than known, more than 1024 known and a flag that doesn't unpack are no slot's.
///
/// ```
/// let slot: Option<Slot<FlagAnd>> = read_slot(0x0f << 25 | 1 << 14 | 2 << 3 | 1 << 1 | 1, 1);
/// let offer = Offer::Flag(FlagAnd { bits: 0x0f });
/// assert!(rt;
///     slot == Some(Slot::Given(Contribution {
///         offer,
///         known,
///         acked
///     }))
/// );
///
/// let none: Option<Slot<FlagAnd>> = read_slot(0, 0);
/// assert!(rt; none.is_none());
/// ```
#[inline(always)]
pub fn read_slot<P: Packed>(word: u64, wing: u64) -> Option<Slot<P>>
    ensures slot { result ≡ slot_of P.unpack word wing }
    ensures exactly { IsSome result ↔ IsSlotPair P.unpack word wing }
    ensures one_word { IfSome result (λ s. (IsFlag s → IsExact P.pack P.unpack) → HasPair P.pack word wing s) }
{
    slot_from(word, wing)
}

// What stands in a slot with this word and this wing, if they are a slot's.
#[inline(always)]
fn slot_from<P: Packed>(word: u64, wing: u64) -> Option<Slot<P>>
    ensures { result ≡ slot_of P.unpack word wing }
{
    let tag = word / 2 % 4;
    let fits = if tag == 0 {
        wing == 0
    } else {
        is_wing_word(wing)
    };
    if word % 2 != 1 || word >= 1 << WORD_BITS || !fits {
        return None;
    }
    let known = (word / 8 % 2048) as u16;
    let acked = (word / 16_384 % 2048) as u16;
    let payload = payload_in(word, wing);
    match tag {
        0 => mark_from(word),
        1 => given_from(Offer::Flag(P::unpack(payload)?), known, acked),
        2 => given_from(Offer::Ctx(CtxMask { bits: payload }), known, acked),
        _ => None,
    }
}

// The mark of a word, if it is one.
fn mark_from<P: Packed>(word: u64) -> Option<Slot<P>>
    ensures { result ≡ mark_if word (is_mark_word word) refl }
{
    let known = (word / 8 % 2048) as u16;
    let acked = word / 16_384 % 2048;
    let payload = word / 33_554_432;
    if 0 < known && known <= 1024 && acked == 2047 && payload == 0 {
        let known = Known { count: known };
        Some(Slot::Mark(MarkCount { known }))
    } else {
        None
    }
}

// The contribution of this offer with these counts, if they are counts of one.
fn given_from<P: Packed>(offer: Offer<P>, known: u16, acked: u16) -> Option<Slot<P>>
    ensures { result ≡ given_if offer known acked (are_counts known acked) refl }
{
    if acked <= known && known <= 1024 {
        Some(Slot::Given(Contribution {
            offer,
            known: Known { count: known },
            acked: Acked { count: acked },
        }))
    } else {
        None
    }
}
