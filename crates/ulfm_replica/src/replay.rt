//! The words and the tables of a log, entry by entry.
ghost use Rattle.std.specs.Prelude.{◌≡◌, ◌∷◌, ◌++◌, [], Bool, List, IfOk, length};
ghost use Rattle.ulfm_model.specs.History.{History, MayFollow, failures};
ghost use Rattle.ulfm_model.specs.Words.{half_of, place_of as place_after, word_of as word_of_event};
ghost use Rattle.ulfm_model.specs.declared.{event.Entry.{Entry}, limits.Limits.{Limits}};
ghost use Rattle.ulfm_replica.specs.Replays.{AreReplayed, Feeds, IsFed, Replays, SpreadsFor, step_after};
ghost use Rattle.ulfm_replica.specs.Replays.{WingsSettled};
ghost use Rattle.ulfm_words.specs.Steps.{IsView, view_of};
ghost use mathlib.Core.List.{IsPrefix};

use std::alloc::{AllocError, Allocator};
use ulfm_laws::meld::Packed;
use ulfm_model::block::Wing;
use ulfm_model::contribution::Slot;
use ulfm_model::event::{Entry, Event};
use ulfm_model::limits::Limits;
use ulfm_model::place::Place;
use ulfm_numbers::allowed::may_follow;
use ulfm_numbers::numbers::Numbers;
use ulfm_words::{PlainPass, Step, slot_wing, slot_words};

/// The place whose word an event sets, where so many ranks are declared.
fn place_of<P: Packed>(event: &Event<P>, declared: u16) -> Place
    ensures { (h : History P) → declared ≡ length (failures h) → result ≡ place_after h event.now }
{
    match *event {
        Event::Fail { .. } => Place::List { index: declared },
        Event::Settle {
            comm,
            round,
            rank,
            ..
        }
        | Event::Mark {
            comm,
            round,
            rank,
            ..
        } => Place::Slot { comm, round, rank },
        Event::Arrive { comm, round, rank } => Place::Arrival { comm, round, rank },
        Event::Revoke { comm } => Place::Revoked { comm },
        Event::Spawn { comm, .. } => Place::Comm { comm },
    }
}

/// The word that an event sets, and the upper half of what it says, which stands in the wing of a contribution.
fn word_of<P: Packed>(event: &Event<P>) -> (u64, u32)
    ensures { result ≡ (word_of_event P.pack event.now, half_of P.pack event.now) }
{
    match *event {
        Event::Fail { rank } => (u64::from(rank) + 1, 0),
        Event::Settle { given, .. } => {
            let (word, wing) = slot_words(&Slot::Given(given));
            (word, (wing / 2) as u32)
        }
        Event::Mark { known, .. } => (slot_words::<P>(&Slot::Mark(known)).0, 0),
        Event::Arrive { .. } | Event::Revoke { .. } => (1, 0),
        Event::Spawn { parent, round, .. } => (1 + u64::from(parent) * 4096 + u64::from(round), 0),
    }
}

/// The step of an entry, where so many ranks are declared.
fn step_of<P: Packed>(entry: &Entry<P>, declared: u16) -> Step
    ensures { (h : History P) → declared ≡ length (failures h) → result ≡ step_after P.pack h entry.now }
{
    let by = entry.by;
    let (word, half) = word_of(&entry.event);
    Step {
        place: place_of(&entry.event, declared),
        word,
        half,
        by,
    }
}

/// Sets the wing of a contribution that may come next; of any other event, which has none, it does nothing.
fn spread<P: Packed, A: Allocator + Copy>(pass: &mut PlainPass<P, A>, event: &Event<P>)
    requires of { IsView P.meld (view_of P.pack pass.old.name pass.old) }
    requires may { MayFollow P.meld pass.old.name.limits pass.old.seen event.now }
    requires settled { WingsSettled (view_of P.pack pass.old.name pass.old) }
    ensures { SpreadsFor P.meld event.now (view_of P.pack pass.old.name pass.old) (view_of P.pack pass.old.name pass.new) }
{
    if let Event::Settle {
        comm,
        round,
        rank,
        given,
    } = *event
    {
        let wing = Wing::Slot { comm, round, rank };
        let _ = pass.set_wing(wing, slot_wing(&Slot::Given(given)));
    }
}

/// Feeds one entry of a log: where it may come next, its word is set in its caller's name, before it the wing of a contribution, and
/// the tables note it. An entry that may not come next is left out, and changes nothing. It answers whether the entry was taken.
///
/// The limits are those of the pass. At most two atomic steps are made, and no time is taken by the length of the log. Where memory
/// is refused, the pass and the tables may tell different histories: neither serves for a further entry.
///
/// ```
/// let entry = Entry { by: Caller::Outside, event: Event::Fail { rank: 1 } };
/// assert!(rt; feed(Global, limits, &mut pass, &mut numbers, &entry)?);
/// assert!(rt; !feed(Global, limits, &mut pass, &mut numbers, &entry)?);
/// ```
pub fn feed<P: Packed, A: Allocator + Copy + Drop>(
    alloc: A,
    limits: Limits,
    pass: &mut PlainPass<P, A>,
    numbers: &mut Numbers<P, A>,
    entry: &Entry<P>,
) -> Result<bool, AllocError>
    requires limits { limits ≡ pass.old.name.limits }
    requires before { AreReplayed P.meld (view_of P.pack pass.old.name pass.old) numbers.old }
    ensures { IfOk result (λ taken. IsFed P.meld entry.now taken (view_of P.pack pass.old.name pass.old) (view_of P.pack pass.old.name pass.new)
        × AreReplayed P.meld (view_of P.pack pass.old.name pass.new) numbers.new) }
{
    if !may_follow(alloc, limits, numbers, numbers.count, &entry.event)? {
        return Ok(false);
    }
    let declared = numbers.failures.len() as u16;
    let step = step_of(entry, declared);
    spread(pass, &entry.event);
    let _ = pass.set_once(step);
    numbers.note(alloc, entry)?;
    Ok(true)
}

/// Whoever is fed a beginning of a log has seen a beginning of what the log makes. So two machines that are fed beginnings of one log
/// have seen beginnings of one history. It does nothing.
pub fn logs_have_one_history<P: Packed>()
    ensures { (limits : Limits) (log more : List (Entry P)) (seen further : History P) → Replays P.meld limits [] log seen
        → Replays P.meld limits [] (log ++ more) further → IsPrefix seen further }
{}

/// A log with one entry more makes of a history what the entry makes of what the log makes of it. It does nothing.
pub fn logs_go_on<P: Packed>()
    ensures { (limits : Limits) (h mid new : History P) (log : List (Entry P)) (e : Entry P) (taken : Bool) → Replays P.meld limits h log mid
        → Feeds P.meld limits e taken mid new → Replays P.meld limits h (log ++ e ∷ []) new }
{}
