//! What a call does once its look has ended.
use crate::Ask;
use crate::answers::{Answer, plain, refused};
use crate::engine::{Next, Turn, stand_before};
use crate::rounds::failed_members;
use crate::state::{Open, Phase, Seat, State};
use std::alloc::Allocator;
use ulfm_model::{Refusal, Reply};

/// Where the look has ended, the call is answered, or stands before its next step.
pub(crate) fn after_look<A: Allocator + Copy + Drop>(
    state: &mut State<A>,
    turn: Turn,
    seat: Seat,
) -> Next {
    if seat.at == 0 && seat.seen < state.layout.ranks {
        return Next::Step;
    }
    let mut seat = seat;
    seat.at = 0;
    state.put_seat(turn.rank, seat);
    if state.declared_to(seat.seen).has(turn.rank) {
        return Next::Answer(refused(Refusal::SelfFailed));
    }
    if !state.holds(turn.rank, turn.comm) {
        return Next::Answer(refused(Refusal::NoSuchComm));
    }
    match turn.ask {
        Ask::GetFailed => tell_failed(state, turn, seat),
        Ask::Ack(count) => acknowledge(state, turn, seat, count),
        Ask::Agree(_) | Ask::Shrink => begin_round(state, turn),
        Ask::Barrier => begin_barrier(state, turn),
        Ask::Revoke => stand_before(state, turn, Phase::Revoke),
        Ask::IsRevoked => stand_before(state, turn, Phase::Revocation),
        Ask::Free => free(state, turn),
        Ask::Poll | Ask::Wait => ask_for(state, turn, seat),
    }
}

/// The failed group that is known.
fn tell_failed<A: Allocator + Copy + Drop>(state: &State<A>, turn: Turn, seat: Seat) -> Next {
    let group = failed_members(state, seat.seen, turn.comm);
    Next::Answer(Answer {
        reply: Reply::FailedGroup {
            count: u16::from(group.count()),
        },
        group,
    })
}

/// So many of the known failures are acknowledged, and no fewer than before.
fn acknowledge<A: Allocator + Copy + Drop>(
    state: &mut State<A>,
    turn: Turn,
    seat: Seat,
    count: u16,
) -> Next {
    let known = failed_members(state, seat.seen, turn.comm).count();
    let wanted = u8::try_from(count).unwrap_or(u8::MAX).min(known);
    let acked = state.acknowledge(turn.rank, turn.comm, wanted);
    Next::Answer(plain(Reply::Acked {
        count: u16::from(acked),
    }))
}

/// Whether a shrink of a rank is open on any communicator.
fn has_open_shrink<A: Allocator + Copy + Drop>(state: &State<A>, rank: u8) -> bool {
    let mut found = false;
    for comm in 0..state.layout.comms {
        found = found || state.open(rank, comm) == Open::Shrink;
    }
    found
}

/// An agree or a shrink goes on to its contribution, of which the wing comes first.
fn begin_round<A: Allocator + Copy + Drop>(state: &mut State<A>, turn: Turn) -> Next {
    let shrinks = turn.ask == Ask::Shrink;
    if state.open(turn.rank, turn.comm) != Open::Nothing {
        return Next::Answer(refused(Refusal::Busy));
    }
    if shrinks && has_open_shrink(state, turn.rank) {
        return Next::Answer(refused(Refusal::ShrinkOpen));
    }
    let next = state.next_round(turn.rank, turn.comm, Open::Agree);
    let needed = if shrinks {
        next
    } else {
        next.saturating_add(1)
    };
    if needed >= state.layout.rounds {
        return Next::Answer(refused(Refusal::RoundsUsedUp));
    }
    stand_before(state, turn, Phase::Spread)
}

/// A barrier goes on to its arrival.
fn begin_barrier<A: Allocator + Copy + Drop>(state: &mut State<A>, turn: Turn) -> Next {
    if state.open(turn.rank, turn.comm) != Open::Nothing {
        return Next::Answer(refused(Refusal::Busy));
    }
    if state.next_round(turn.rank, turn.comm, Open::Barrier) >= state.layout.rounds {
        return Next::Answer(refused(Refusal::RoundsUsedUp));
    }
    stand_before(state, turn, Phase::Arrive)
}

/// A communicator is given back.
fn free<A: Allocator + Copy + Drop>(state: &mut State<A>, turn: Turn) -> Next {
    if turn.comm == 0 {
        return Next::Answer(refused(Refusal::WorldKept));
    }
    if state.open(turn.rank, turn.comm) != Open::Nothing {
        return Next::Answer(refused(Refusal::Busy));
    }
    state.let_go(turn.rank, turn.comm);
    Next::Answer(plain(Reply::Freed))
}

/// A poll goes on to what its request waits for.
fn ask_for<A: Allocator + Copy + Drop>(state: &mut State<A>, turn: Turn, seat: Seat) -> Next {
    let mut seat = seat;
    seat.known = 0;
    match state.open(turn.rank, turn.comm) {
        Open::Nothing => return Next::Answer(refused(Refusal::Idle)),
        Open::Barrier => seat.phase = Phase::Arrival,
        Open::Agree | Open::Shrink => seat.phase = Phase::Block,
    }
    state.put_seat(turn.rank, seat);
    Next::Again
}
