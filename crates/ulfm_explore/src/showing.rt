//! A program explored: what is found, confirmed by the step engine, and told.
ghost use Rattle.std.specs.Prelude.{◌≡◌, ◌≤◌, ℕ, IfOk, None, Some, map, true};
ghost use Rattle.std.specs.List.{All};
ghost use Rattle.ulfm_explore.specs.{Shows.{IsOutcome, IsShown, Shows, Tells}, Views.{row_of, told_of}};

use crate::confirm::{Shown, are_same, show};
use crate::telling::{Outcomes, is_first_answer};
use std::alloc::{AllocError, Allocator};
use thiserror::Error;
use ulfm_schedules::{Program, Searched, search};

/// How a program is explored.
#[derive(Clone, Copy, Debug, PartialEq, Eq)]
pub struct Plan {
    /// At most so many states are gone on from.
    pub most: u32,
    /// The number of the outcome whose script alone is wanted, counted from 1.
    pub outcome: Option<u32>,
}

/// Why nothing is told of a program.
#[derive(Clone, Copy, Debug, PartialEq, Eq, Error)]
pub enum ExploreFault {
    /// Memory was refused.
    #[error("out of memory")]
    Memory,
    /// The step engine didn't confirm an outcome that was found.
    #[error("not confirmed")]
    Unconfirmed,
    /// There are fewer outcomes.
    #[error("no such outcome")]
    NoSuchOutcome,
}

impl From<AllocError> for ExploreFault {
    fn from(_error: AllocError) -> ExploreFault {
        ExploreFault::Memory
    }
}

/// What is told of a program.
#[derive(Drop)]
pub struct Explored<A: Allocator> {
    /// The text: the outcomes, the questions' answers and the number of states, or one script.
    pub text: Vec<u8, A>,
    /// Whether all states were gone on from.
    pub is_whole: bool,
    /// How many states there are, and how many bytes they take.
    pub states: u32,
    /// How many bytes all states take.
    pub bytes: u64,
}

/// The outcome of a number, counted from 0, confirmed by a script, a short one where that is wanted.
fn confirmed<A: Allocator + Copy + Drop>(
    alloc: A,
    program: &Program<A>,
    searched: &mut Searched<A>,
    number: u32,
    is_short: bool,
) -> Result<Shown<A>, ExploreFault>
    ensures { IfOk result (λ shown. Shows program.now (map row_of shown.rows.items) shown.script.items shown.trace.items shown.callers.items) }
{
    let Some(found) = searched.script(number, is_short)? else {
        return Err(ExploreFault::Unconfirmed);
    };
    let Some(shown) = show(alloc, program, found.text, found.callers)? else {
        return Err(ExploreFault::Unconfirmed);
    };
    if are_same(&shown.rows, &found.rows) {
        Ok(shown)
    } else {
        Err(ExploreFault::Unconfirmed)
    }
}

/// The outcome of a number, counted from 0, confirmed: by a short script where it is the first to answer a question.
fn confirmed_behind<A: Allocator + Copy + Drop>(
    alloc: A,
    program: &Program<A>,
    searched: &mut Searched<A>,
    number: u32,
    earlier: &[Shown<A>],
) -> Result<Shown<A>, ExploreFault>
    ensures { IfOk result (λ shown. Shows program.now (map row_of shown.rows.items) shown.script.items shown.trace.items shown.callers.items) }
{
    let plain = confirmed(alloc, program, searched, number, false)?;
    if !is_first_answer(program, earlier, &plain.rows) {
        return Ok(plain);
    }
    confirmed(alloc, program, searched, number, true)
}

/// All outcomes, each confirmed.
fn confirm_all<A: Allocator + Copy + Drop>(
    alloc: A,
    program: &Program<A>,
    searched: &mut Searched<A>,
) -> Result<Vec<Shown<A>, A>, ExploreFault>
    ensures { IfOk result (λ shown. All (IsOutcome program.now) (map told_of shown.items)) }
{
    let mut shown = Vec::new(alloc);
    for number in 0..searched.count() {
        let one = confirmed_behind(alloc, program, searched, number, &shown)?;
        let Ok(()) = shown.push(one) else {
            return Err(ExploreFault::Memory);
        };
    }
    Ok(shown)
}

/// The script of the outcome of a number alone, counted from 1.
fn one_script<A: Allocator + Copy + Drop>(
    alloc: A,
    program: &Program<A>,
    searched: &mut Searched<A>,
    number: u32,
) -> Result<Vec<u8, A>, ExploreFault>
    ensures { IfOk result (λ script. IsShown program.now script.items) }
{
    if number == 0 || number > searched.count() {
        return Err(ExploreFault::NoSuchOutcome);
    }
    let shown = confirmed(alloc, program, searched, number.saturating_sub(1), true)?;
    Ok(shown.script)
}

/// What is told of a search that has ended: the script of one outcome, or all of them.
fn text_of<A: Allocator + Copy + Drop>(
    alloc: A,
    program: &Program<A>,
    searched: &mut Searched<A>,
    outcome: Option<u32>,
    is_whole: bool,
    states: u32,
) -> Result<Vec<u8, A>, ExploreFault>
    ensures script { (number : ℕ) → outcome ≡ Some number → IfOk result (λ text. IsShown program.now text.items) }
    ensures all { outcome ≡ None → IfOk result (λ text. Tells program.now is_whole states text.items) }
{
    match outcome {
        Some(number) => one_script(alloc, program, searched, number),
        None => {
            let shown = confirm_all(alloc, program, searched)?;
            let outcomes = Outcomes {
                program,
                shown: shown.as_slice(),
                is_whole,
            };
            let text = outcomes.tell(alloc, states)?;
            Ok(text)
        }
    }
}

/// Explores a program: each order of atomic steps of its ranks, with each moment at which one may be declared.
///
/// It tells each outcome once, then the answers to the program's questions, each with a short script, and how many states there are. Where more
/// than `plan.most` states come up, it stops there and says so.
///
/// ```
/// let mut text = b"ulfm-explore 1 1 1 2\nrank 0\nagree 0 000000ff\nwait 0\n".as_slice();
/// let program = read_program(alloc, &mut text)?;
/// let told = explore(alloc, &program, Plan { most: 1000, outcome: None })?;
/// assert!(rt; told.text.ends_with(b"all outcomes 1 states 9\n"));
/// ```
pub fn explore<A: Allocator + Copy + Drop>(
    alloc: A,
    program: &Program<A>,
    plan: Plan,
) -> Result<Explored<A>, ExploreFault>
    // Where one outcome's script is wanted, what is told is a script that shows an outcome of the program.
    ensures script { (number : ℕ) → plan.outcome ≡ Some number → IfOk result (λ told. IsShown program.now told.text.items) }
    // Else each outcome that is told was shown, and the answers are what these give.
    ensures outcomes { plan.outcome ≡ None → IfOk result (λ told. Tells program.now told.is_whole told.states told.text.items) }
    // All schedules are said to have been tried only where no more states came up than are allowed.
    ensures within { IfOk result (λ told. told.is_whole ≡ true → told.states ≤ plan.most) }
{
    let mut searched = search(alloc, program, plan.most)?;
    let is_whole = searched.is_whole();
    let states = searched.states();
    let text = text_of(
        alloc,
        program,
        &mut searched,
        plan.outcome,
        is_whole,
        states,
    )?;
    Ok(Explored {
        text,
        is_whole,
        states,
        bytes: searched.bytes(),
    })
}
