// The events that a pass has seen.
ghost use Rattle.std.specs.Prelude.{◌≡◌, ◌≤◌, ◌<◌, ◌^◌, Some, length, slice_get, MatchOption};
ghost use Rattle.ulfm_model.specs.Words.{word_bits};
ghost use Rattle.ulfm_model.specs.declared.event.Caller.{Caller};
ghost use Rattle.ulfm_words.specs.{Entries.{event_in as event_told, put_of as put_by}, Steps.{IsView, view_of}};
ghost use Rattle.ulfm_words.specs.Slots.{number_in, slot_in as slot_told};
ghost use Rattle.ulfm_run.specs.Events.{IsEventWord, wing_by};

use std::alloc::Allocator;
use ulfm_laws::meld::Packed;
use ulfm_model::contribution::Slot;
use ulfm_model::event::Event;
use ulfm_model::place::Place;
use ulfm_words::{PlainPass, read_slot};

// What puts this into a slot.
fn put_of<P: Packed>(comm: u16, round: u16, rank: u16, slot: Slot<P>) -> Event<P>
    ensures { result ≡ put_by comm round rank slot }
{
    match slot {
        Slot::Mark(known) => Event::Mark {
            comm,
            round,
            rank,
            known,
        },
        Slot::Given(given) => Event::Settle {
            comm,
            round,
            rank,
            given,
        },
    }
}

// The wing beside a slot's word whose payload has this upper half. A mark has neither.
fn wing_of(word: u64, half: u32) -> u64
    ensures { result ≡ wing_by word half }
{
    if word / 2 % 4 == 0 && half == 0 {
        0
    } else {
        1 + 2 * u64::from(half)
    }
}

// The slot with this word and this upper half of the payload, if there is one.
fn slot_in<P: Packed>(word: u64, half: u32) -> Option<Slot<P>>
    requires { word < 2 ^ word_bits }
    ensures { result ≡ slot_told P.unpack (number_in word half) }
{
    read_slot(word, wing_of(word, half))
}

// The event that sets this word at this place, with this upper half of its payload, if one does.
fn event_in<P: Packed>(place: Place, word: u64, half: u32) -> Option<Event<P>>
    requires { IsEventWord place word }
    ensures { result ≡ event_told P.unpack place word half }
{
    match place {
        Place::List { .. } => Some(Event::Fail {
            rank: (word - 1) as u16,
        }),
        Place::Comm { comm } => Some(Event::Spawn {
            comm,
            parent: ((word - 1) / 4096) as u16,
            round: ((word - 1) % 4096) as u16,
        }),
        Place::Revoked { comm } => Some(Event::Revoke { comm }),
        Place::Slot { comm, round, rank } => {
            let slot = slot_in(word, half)?;
            Some(put_of(comm, round, rank, slot))
        }
        Place::Arrival { comm, round, rank } => Some(Event::Arrive { comm, round, rank }),
    }
}

/// The event that a pass has seen as the `i`-th, counted from 0; none past the last. It is no atomic step.
pub fn event_at<P: Packed, A: Allocator + Copy>(pass: &PlainPass<P, A>, i: u32) -> Option<Event<P>>
    requires { IsView P.meld (view_of P.pack pass.now.name pass.now) }
    ensures { MatchOption result (length pass.now.seen ≤ i) (λ event. (by : Caller) × (slice_get pass.now.seen i ≡ Some (record { by = by; event = event }))) }
{
    let step = pass.nth(i as usize)?;
    event_in(step.place, step.word, step.half)
}
