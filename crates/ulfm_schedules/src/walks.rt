//! Walks for the tests: acts drawn at random, each atomic step an act and a line of a script of its own, so that the model and the step engine go
//! along step by step.
use crate::Program;
use crate::choices::{Act, act_of, can_act};
use crate::engine::Engine;
use crate::finding::parts_of;
use crate::paths::OUTSIDE;
use crate::scripts::script_text;
use crate::searched::{Script, rows_of};
use crate::state::{Phase, State};
use std::alloc::{AllocError, Allocator};
use ulfm_laws::FlagAnd;
use ulfm_model::StepLine;

/// The next number that is drawn.
fn draw(seed: u64) -> u64 {
    seed.wrapping_mul(6_364_136_223_846_793_005)
        .wrapping_add(1_442_695_040_888_963_407)
}

/// An act that can come, looked for from a drawn one on; none where nothing can.
fn drawn_act<A: Allocator + Copy + Drop>(
    engine: &Engine<A>,
    state: &State<A>,
    seed: u64,
) -> Option<Act> {
    let first = u8::try_from(seed >> 60).unwrap_or(0);
    for number in 0..16 {
        let act = act_of(first.wrapping_add(number) & 15);
        if can_act(engine, state, act) {
            return Some(act);
        }
    }
    None
}

/// Adds the lines of a rank's next step.
fn add_step<A: Allocator + Copy + Drop>(
    engine: &Engine<A>,
    state: &State<A>,
    rank: u8,
    lines: &mut Vec<StepLine<FlagAnd>, A>,
    callers: &mut Vec<u8, A>,
) -> Result<(), AllocError> {
    if let Some(whom) = engine.declares(state, rank) {
        callers.push(rank)?;
        lines.push(StepLine::Failed {
            rank: u16::from(whom),
        })?;
        return Ok(());
    }
    if state.seat(rank).phase == Phase::Idle {
        if let Some(turn) = engine.turn(state, rank) {
            lines.push(StepLine::Called {
                call: turn.call(),
                padded: false,
            })?;
        }
    }
    lines.push(StepLine::Stepped {
        rank: u16::from(rank),
        count: 1,
    })?;
    Ok(())
}

/// A walk of at most so many acts, drawn by this seed: the script of its steps, and what has become of the ranks at its end.
pub fn walk<A: Allocator + Copy + Drop>(
    alloc: A,
    program: &Program<A>,
    seed: u64,
    most: u32,
) -> Result<Script<A>, AllocError> {
    let mut engine = Engine::new(alloc, program);
    let mut state = engine.first(alloc)?;
    let mut lines = Vec::new(alloc);
    let mut callers = Vec::new(alloc);
    let mut drawn = seed;
    for _ in 0..most {
        drawn = draw(drawn);
        let Some(act) = drawn_act(&engine, &state, drawn) else {
            break;
        };
        match act {
            Act::Step(rank) => {
                add_step(&engine, &state, rank, &mut lines, &mut callers)?;
                engine.step(&mut state, rank)?;
            }
            Act::Declare(rank) => {
                callers.push(OUTSIDE)?;
                lines.push(StepLine::Failed {
                    rank: u16::from(rank),
                })?;
                engine.declare(&mut state, rank);
            }
        }
    }
    let parts = parts_of(alloc, &state)?;
    Ok(Script {
        text: script_text(alloc, program.limits, &lines)?,
        callers,
        rows: rows_of(alloc, &engine, &parts)?,
    })
}
