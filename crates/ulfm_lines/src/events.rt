//! Events, read of a trace's line.
ghost use Rattle.std.specs.Prelude.{◌≡◌};
ghost use Rattle.ulfm_script.specs.Words.{rest_at};
ghost use Rattle.ulfm_lines.specs.EventReading.{event_of, mark_event, marked, settle_event, settled, spawn_event};

use crate::fields::{
    by_beginning, comm_field, labelled, last, number_field, offer_field, place_field, rank_field,
};
use ulfm_laws::{Acked, FlagAnd, Known};
use ulfm_model::contribution::{Contribution, MarkCount, Offer};
use ulfm_model::event::Event;
use ulfm_script::LineKind;

/// An event, behind its caller; none where no contribution and no mark has its counts.
pub(crate) fn read_event(text: Option<&[u8]>) -> Result<Option<Event<FlagAnd>>, LineKind>
    ensures { result ≡ event_of (rest_at text.entry) }
{
    let Some(text) = text else {
        return Err(LineKind::Words);
    };
    by_beginning!(text,
        b"settle " => read_settle,
        b"arrive " => |fields| {
            let (comm, (round, rank)) = last(place_field(fields))?;
            Ok(Some(Event::Arrive { comm, round, rank }))
        },
        b"mark " => read_mark,
        b"fail " => |fields| {
            let rank = last(rank_field(fields))?;
            Ok(Some(Event::Fail { rank }))
        },
        b"revoke " => |fields| {
            let comm = last(comm_field(fields))?;
            Ok(Some(Event::Revoke { comm }))
        },
        b"spawn " => read_spawn,
        else Err(LineKind::Words)
    )
}

#[tactic(auto, unfolding(crate::specs::EventReading::settle_event))]
fn read_settle(text: Option<&[u8]>) -> Result<Option<Event<FlagAnd>>, LineKind>
    ensures { result ≡ settle_event (rest_at text.entry) }
{
    let (place, rest) = place_field(text)?;
    let (offer, rest) = offer_field(rest)?;
    let (known, rest) = labelled(b"known", rest)?;
    let acked = last(labelled(b"acked", rest))?;
    Ok(settled(place, offer, known, acked))
}

#[tactic(auto, unfolding(crate::specs::EventReading::mark_event))]
fn read_mark(text: Option<&[u8]>) -> Result<Option<Event<FlagAnd>>, LineKind>
    ensures { result ≡ mark_event (rest_at text.entry) }
{
    let (place, rest) = place_field(text)?;
    let known = last(labelled(b"known", rest))?;
    Ok(marked(place, known))
}

#[tactic(auto, unfolding(crate::specs::EventReading::spawn_event))]
fn read_spawn(text: Option<&[u8]>) -> Result<Option<Event<FlagAnd>>, LineKind>
    ensures { result ≡ spawn_event (rest_at text.entry) }
{
    let (comm, rest) = comm_field(text)?;
    let (parent, rest) = comm_field(rest)?;
    let round = last(number_field(rest))?;
    Ok(Some(Event::Spawn {
        comm,
        parent,
        round,
    }))
}

/// A settlement with these counts, where a contribution has them.
fn settled(
    place: (u16, (u16, u16)),
    offer: Offer<FlagAnd>,
    known: u16,
    acked: u16,
) -> Option<Event<FlagAnd>>
    ensures { result ≡ settled place offer known acked }
{
    let (comm, (round, rank)) = place;
    if acked <= known && known <= 1024 {
        let given = Contribution {
            offer,
            known: Known { count: known },
            acked: Acked { count: acked },
        };
        Some(Event::Settle {
            comm,
            round,
            rank,
            given,
        })
    } else {
        None
    }
}

/// A mark with this count, where a mark has it.
fn marked(place: (u16, (u16, u16)), known: u16) -> Option<Event<FlagAnd>>
    ensures { result ≡ marked place known }
{
    let (comm, (round, rank)) = place;
    if 0 < known && known <= 1024 {
        let known = MarkCount {
            known: Known { count: known },
        };
        Some(Event::Mark {
            comm,
            round,
            rank,
            known,
        })
    } else {
        None
    }
}
