//! What can come next in a state, and whether it is an outcome.
use crate::engine::{Engine, Turn};
use crate::few::{Few, has_bit};
use crate::rounds::failed_members;
use crate::state::{Open, Phase, State, is_of_wing};
use crate::{Ask, Fate, May};
use std::alloc::{AllocError, Allocator};

/// Who makes a step, or is declared.
#[derive(Clone, Copy, Debug, PartialEq, Eq)]
pub(crate) enum Act {
    /// The rank makes its next atomic step, and those of wings behind it.
    Step(u8),
    /// The outside declares the rank.
    Declare(u8),
}

/// An act as a number, for the table.
pub(crate) fn act_number(act: Act) -> u8 {
    match act {
        Act::Step(rank) => rank & 7,
        Act::Declare(rank) => (rank & 7) | 8,
    }
}

/// The act of a number.
pub(crate) fn act_of(number: u8) -> Act {
    if number & 8 == 0 {
        Act::Step(number & 7)
    } else {
        Act::Declare(number & 7)
    }
}

/// Whether a rank has a step to make.
pub(crate) fn can_step<A: Allocator + Copy + Drop>(
    engine: &Engine<A>,
    state: &State<A>,
    rank: u8,
) -> bool {
    state.seat(rank).fate == Fate::Runs
        && (engine.turn(state, rank).is_some() || engine.declares(state, rank).is_some())
}

/// Whether the outside may declare a rank.
fn can_declare<A: Allocator + Copy + Drop>(engine: &Engine<A>, state: &State<A>, rank: u8) -> bool {
    engine.program.may_be_declared(u16::from(rank)) != May::Stay
        && u16::from(state.failures()) < engine.program.most
        && !state.is_declared(rank)
}

/// Whether an act can come next.
pub(crate) fn can_act<A: Allocator + Copy + Drop>(
    engine: &Engine<A>,
    state: &State<A>,
    act: Act,
) -> bool {
    match act {
        Act::Step(rank) => rank < state.layout.ranks && can_step(engine, state, rank),
        Act::Declare(rank) => rank < state.layout.ranks && can_declare(engine, state, rank),
    }
}

/// So many steps at most are one act: the load of a place, that of its wing, and, where it is the last of its block, the exchange of the block's wing.
pub(crate) const MOST_STEPS: u8 = 3;

/// Whether the next step of a rank goes along with its last one: nobody can tell whether it was made.
pub(crate) fn goes_along<A: Allocator + Copy + Drop>(state: &State<A>, rank: u8) -> bool {
    is_of_wing(state.seat(rank).phase)
}

/// Takes a rank's next step, with those that go along with it, and says whether they answer its call.
fn take_step<A: Allocator + Copy + Drop>(
    engine: &mut Engine<A>,
    state: &mut State<A>,
    rank: u8,
) -> Result<bool, AllocError> {
    for number in 0..MOST_STEPS {
        if number != 0 && !goes_along(state, rank) {
            break;
        }
        if engine.step(state, rank)? {
            return Ok(true);
        }
    }
    Ok(false)
}

/// Takes an act, and says whether it answers a call.
pub(crate) fn take_act<A: Allocator + Copy + Drop>(
    engine: &mut Engine<A>,
    state: &mut State<A>,
    act: Act,
) -> Result<bool, AllocError> {
    match act {
        Act::Step(rank) => take_step(engine, state, rank),
        Act::Declare(rank) => {
            engine.declare(state, rank);
            Ok(false)
        }
    }
}

/// Whether a barrier's reply is pending for good: somebody is missing who isn't declared, and nobody who is.
fn barrier_waits<A: Allocator + Copy + Drop>(state: &State<A>, turn: Turn, round: u8) -> bool {
    let here = state.arrivals(turn.comm, round);
    if state.is_revoked(turn.comm) || here == state.members(turn.comm) {
        return false;
    }
    let failed = failed_members(state, state.failures(), turn.comm);
    failed.set() & !here == 0
}

/// Whether the reply to an agree or a shrink is: a member's place is empty that isn't declared, and none of one that is.
fn round_waits<A: Allocator + Copy + Drop>(state: &State<A>, turn: Turn, round: u8) -> bool {
    let members = Few::of_set(state.members(turn.comm));
    let declared = state.declared_to(state.failures()).set();
    let mut waits = false;
    for place in 0..members.count() {
        if let Some(rank) = members.get(place) {
            if state.slot(turn.comm, round, rank) == 0 {
                if has_bit(declared, rank) {
                    return false;
                }
                waits = true;
            }
        }
    }
    waits
}

/// Whether a rank stands before a wait whose poll would be pending now, and would mark nobody.
fn waits<A: Allocator + Copy + Drop>(engine: &Engine<A>, state: &State<A>, rank: u8) -> bool {
    let Some(turn) = engine.turn(state, rank) else {
        return false;
    };
    let idle = state.seat(rank).phase == Phase::Idle;
    if turn.ask != Ask::Wait || !idle || state.is_declared(rank) {
        return false;
    }
    if !state.holds(rank, turn.comm) {
        return false;
    }
    let round = state.round(rank, turn.comm);
    match state.open(rank, turn.comm) {
        Open::Nothing => false,
        Open::Barrier => barrier_waits(state, turn, round),
        Open::Agree | Open::Shrink => round_waits(state, turn, round),
    }
}

/// Whether no rank can do more.
pub(crate) fn is_settled<A: Allocator + Copy + Drop>(engine: &Engine<A>, state: &State<A>) -> bool {
    for rank in 0..state.layout.ranks {
        if can_step(engine, state, rank) && !waits(engine, state, rank) {
            return false;
        }
    }
    true
}
