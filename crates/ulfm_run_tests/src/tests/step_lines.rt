//! Lines of step scripts, with the lines of the trace that they tell.
ghost use Rattle.std.specs.Prelude.{IfOk};
ghost use Rattle.ulfm_lines.specs.Stepped.{IsSpelledStep};

use std::alloc::Global;
use std::process::Abort;
use std::test::Fail;
use ulfm_laws::FlagAnd;
use ulfm_lines::{StepMachine, Taken, Teller, read_step_line};
use ulfm_model::{Limits, StepLine};
use ulfm_run::StepTable;

/// A world of single steps, and what it tells.
#[derive(Drop)]
struct Told {
    machine: StepTable<Global>,
    teller: Teller<Global>,
}

fn limits(ranks: u16, comms: u16, rounds: u16) -> Limits {
    Limits {
        ranks,
        comms,
        rounds,
    }
}

fn open(alloc: Global, limits: Limits) -> Result<Told, Fail> {
    let Ok(()) = limits.check() else {
        return Err(Fail::from("no world has these limits"));
    };
    Ok(Told {
        machine: StepTable::open(alloc, limits)?,
        teller: Teller::new(alloc),
    })
}

fn step_of(line: &str) -> Result<StepLine<FlagAnd>, Fail>
    ensures { IfOk result IsSpelledStep }
{
    match read_step_line(line.as_bytes()) {
        Ok(step) => Ok(step),
        Err(_) => Err(Fail::from("no line of a step script")),
    }
}

/// A row is a line, and behind ` -> ` the lines that it tells, with ` / ` between them; a line that stands alone tells nothing.
fn tells(rt: &impl Abort, alloc: Global, world: &mut Told, row: &str) -> Result<(), Fail> {
    let (line, lines) = row.split_once(" -> ").unwrap_or((row, ""));
    let mut right = Vec::new(alloc);
    for told in lines.split('/') {
        right.extend_from_slice(told.trim().as_bytes())?;
        right.push(b'\n')?;
    }
    if lines.is_empty() {
        right.clear();
    }
    world.teller.clear();
    let taken = world.machine.run(&step_of(line)?, &mut world.teller)?;
    assert_eq!(rt; taken, Taken::Run, "{row}");
    assert_eq!(rt; world.teller.text.as_slice(), right.as_slice(), "{row}");
    Ok(())
}

/// Each row in turn.
fn tell_all(rt: &impl Abort, alloc: Global, world: &mut Told, rows: &[&str]) -> Result<(), Fail> {
    for row in rows {
        tells(rt, alloc, world, row)?;
    }
    Ok(())
}

/// A line begins a call of a rank that has one under way, and tells nothing.
fn is_open(rt: &impl Abort, world: &mut Told, line: &str) -> Result<(), Fail> {
    world.teller.clear();
    let taken = world.machine.run(&step_of(line)?, &mut world.teller)?;
    assert_eq!(rt; taken, Taken::Open, "{line}");
    assert!(rt; world.teller.text.is_empty(), "{line}");
    Ok(())
}

/// A rank is declared while its contribution is under way, which comes first.
const CONTRIBUTION_IN_FLIGHT: [&str; 12] = [
    "call agree 2 0 00000005 -> call agree 2 0 00000005",
    "before 2 settle -> look 2 0",
    "fail 2 -> call fail 2 / event - fail 2 / reply - 1 declared",
    "finish 2 -> event 2 settle 0 0 2 flag 00000005 known 0 acked 0 / reply 2 2 started",
    "call agree 0 0 0000000f -> call agree 0 0 0000000f",
    "finish 0 -> look 0 1 / event 0 settle 0 0 0 flag 0000000f known 1 acked 0 / reply 0 3 started",
    "call agree 1 0 00000007 -> call agree 1 0 00000007",
    "finish 1 -> look 1 1 / event 1 settle 0 0 1 flag 00000007 known 1 acked 0 / reply 1 4 started",
    "call poll 0 0 -> call poll 0 0",
    "finish 0 -> look 0 1 / reply 0 4 agreed 00000005 failed 1 raised",
    "call poll 2 0 -> call poll 2 0",
    "finish 2 -> look 2 1 / reply 2 4 refused 1 self-failed",
];

/// The same, but the mark of another comes first.
const MARK_COMES_FIRST: [&str; 12] = [
    "call agree 2 0 00000005 -> call agree 2 0 00000005",
    "before 2 settle -> look 2 0",
    "fail 2 -> call fail 2 / event - fail 2 / reply - 1 declared",
    "call agree 0 0 0000000f -> call agree 0 0 0000000f",
    "finish 0 -> look 0 1 / event 0 settle 0 0 0 flag 0000000f known 1 acked 0 / reply 0 2 started",
    "call poll 0 0 -> call poll 0 0",
    "finish 0 -> look 0 1 / event 0 mark 0 0 2 known 1 / reply 0 3 pending",
    "finish 2 -> reply 2 3 refused 1 self-failed",
    "call agree 1 0 00000007 -> call agree 1 0 00000007",
    "finish 1 -> look 1 1 / event 1 settle 0 0 1 flag 00000007 known 1 acked 0 / reply 1 4 started",
    "call poll 1 0 -> call poll 1 0",
    "finish 1 -> look 1 1 / reply 1 4 agreed 00000007 failed 1 raised",
];

/// All ranks are declared, and what was decided reaches nobody.
const DECISION_OF_NOBODY: [&str; 9] = [
    "call agree 1 0 00000001 -> call agree 1 0 00000001",
    "before 1 settle -> look 1 0",
    "fail 0 -> call fail 0 / event - fail 0 / reply - 1 declared",
    "fail 1 -> call fail 1 / event - fail 1 / reply - 2 declared",
    "finish 1 -> event 1 settle 0 0 1 flag 00000001 known 0 acked 0 / reply 1 3 started",
    "call poll 0 0 -> call poll 0 0",
    "finish 0 -> look 0 2 / reply 0 3 refused 1 self-failed",
    "call poll 1 0 -> call poll 1 0",
    "finish 1 -> look 1 2 / reply 1 3 refused 1 self-failed",
];

/// A communicator is revoked between two loads of a poll.
const REVOKED_BETWEEN_LOADS: [&str; 9] = [
    "call barrier 0 0 -> call barrier 0 0",
    "finish 0 -> look 0 0 / event 0 arrive 0 0 0 / reply 0 1 started",
    "call barrier 1 0 -> call barrier 1 0",
    "finish 1 -> look 1 0 / event 1 arrive 0 0 1 / reply 1 2 started",
    "call poll 0 0 -> call poll 0 0",
    "before 0 revocation -> look 0 0",
    "call revoke 1 0 -> call revoke 1 0",
    "finish 1 -> look 1 0 / event 1 revoke 0 / reply 1 3 revoked",
    "finish 0 -> reply 0 3 refused 10 is-revoked",
];

/// A declared rank arrives after it was found missing.
const LATE_ARRIVAL: [&str; 9] = [
    "call barrier 1 0 -> call barrier 1 0",
    "before 1 arrive -> look 1 0",
    "fail 1 -> call fail 1 / event - fail 1 / reply - 1 declared",
    "call barrier 0 0 -> call barrier 0 0",
    "finish 0 -> look 0 1 / event 0 arrive 0 0 0 / reply 0 2 started",
    "call poll 0 0 -> call poll 0 0",
    "before 0 revocation -> look 0 1",
    "finish 1 -> event 1 arrive 0 0 1 / reply 1 3 started",
    "finish 0 -> reply 0 2 refused 11 proc-failed",
];

/// A look makes a load for each failure that wasn't seen before and one more, unless all have failed; the start of an agree makes two exchanges, of
/// its wing and of its place.
const STEP_MAKES_SO_MANY: [&str; 15] = [
    "fail 1 -> call fail 1 / event - fail 1 / reply - 1 declared",
    "call agree 0 0 00000001 -> call agree 0 0 00000001",
    "step 0 1",
    "step 0 1 -> look 0 1",
    "step 0 1",
    "step 0 1 -> event 0 settle 0 0 0 flag 00000001 known 1 acked 0 / reply 0 2 started",
    "step 0 1",
    "call poll 0 0 -> call poll 0 0",
    // One load of the look, behind the failure that was seen, one of the only block, and the mark of rank 1.
    "step 0 3 -> look 0 1 / event 0 mark 0 0 1 known 1",
    // One of the slots.
    "step 0 1",
    "step 0 9999 -> reply 0 3 agreed 00000001 failed 1 raised",
    "call isrevoked 0 0 -> call isrevoked 0 0",
    "step 0 1 -> look 0 1",
    "finish 0 -> reply 0 3 no",
    "finish 0",
];

/// It stops before the step of that name, also where that is the next one, and goes to the end where there is none.
const BEFORE_STOPS_THERE: [&str; 13] = [
    "fail 1 -> call fail 1 / event - fail 1 / reply - 1 declared",
    "call barrier 0 0 -> call barrier 0 0",
    "before 0 list",
    "before 0 arrive -> look 0 1",
    "before 0 arrive",
    "step 0 1 -> event 0 arrive 0 0 0 / reply 0 2 started",
    "call poll 0 0 -> call poll 0 0",
    "before 0 arrival -> look 0 1",
    "before 0 revocation",
    "before 0 list -> reply 0 2 refused 11 proc-failed",
    "before 0 list",
    "call get 0 0 -> call get 0 0",
    "before 0 settle -> look 0 1 / reply 0 2 failed 1",
];

/// Exchanges and loads of wings tell nothing, and have a name.
const WINGS_TELL_NOTHING: [&str; 11] = [
    "call agree 0 0 ffffffff0000000f -> call agree 0 0 ffffffff0000000f",
    "before 0 wing -> look 0 0",
    "step 0 1",
    "before 0 settle",
    "finish 0 -> event 0 settle 0 0 0 flag ffffffff0000000f known 0 acked 0 / reply 0 1 started",
    "call poll 0 0 -> call poll 0 0",
    // It stops behind the load of the slot.
    "before 0 wing -> look 0 0",
    "step 0 1",
    // The block's wing is set before the block.
    "before 0 wing",
    "before 0 cache",
    "step 0 1 -> reply 0 1 agreed ffffffff0000000f failed 0 clean",
];

/// The poll of a shrink marks, reads the round, and makes its communicator at the first empty place.
const SHRINKS_STEP_BY_STEP: [&str; 16] = [
    "fail 2 -> call fail 2 / event - fail 2 / reply - 1 declared",
    "call shrink 0 0 -> call shrink 0 0",
    "finish 0 -> look 0 1 / event 0 settle 0 0 0 ctx fffffffffffffffe known 1 acked 0 / reply 0 2 started",
    "call shrink 1 0 -> call shrink 1 0",
    "finish 1 -> look 1 1 / event 1 settle 0 0 1 ctx fffffffffffffffe known 1 acked 0 / reply 1 3 started",
    "call poll 0 0 -> call poll 0 0",
    "before 0 mark -> look 0 1",
    "step 0 1 -> event 0 mark 0 0 2 known 1",
    "before 0 comm",
    "call poll 1 0 -> call poll 1 0",
    "before 1 spawn -> look 1 1",
    "before 0 spawn",
    "step 0 1 -> event 0 spawn 1 0 0 / reply 0 5 shrunk 1 context 1 members 0 1",
    // The other's exchange finds the communicator made.
    "step 1 1 -> reply 1 5 shrunk 1 context 1 members 0 1",
    "call get 1 1 -> call get 1 1",
    "finish 1 -> look 1 1 / reply 1 5 failed none",
];

/// Each script tells its lines, on a new world of these limits.
#[test]
fn scripts_tell_their_lines(rt: HostRuntime) -> Result<(), Fail> {
    let scripts: [(Limits, &[&str]); 9] = [
        (limits(3, 2, 4), &CONTRIBUTION_IN_FLIGHT),
        (limits(3, 2, 4), &MARK_COMES_FIRST),
        (limits(2, 1, 2), &DECISION_OF_NOBODY),
        (limits(2, 1, 2), &REVOKED_BETWEEN_LOADS),
        (limits(2, 1, 2), &LATE_ARRIVAL),
        (limits(2, 1, 2), &STEP_MAKES_SO_MANY),
        (limits(2, 1, 2), &BEFORE_STOPS_THERE),
        (limits(1, 1, 2), &WINGS_TELL_NOTHING),
        (limits(3, 2, 2), &SHRINKS_STEP_BY_STEP),
    ];
    for (limits, rows) in scripts {
        let mut world = open(rt.alloc(), limits)?;
        tell_all(&rt, rt.alloc(), &mut world, rows)?;
    }
    Ok(())
}

#[test]
fn calls_need_a_rank_that_is_free(rt: HostRuntime) -> Result<(), Fail> {
    let mut world = open(rt.alloc(), limits(2, 1, 2))?;
    let before = [
        "call get 2 0 -> call get 2 0 / reply 2 0 refused 13 no-such-rank",
        "finish 2",
        "step 1023 1",
        "before 2 list",
        "finish 1",
        "fail 2 -> call fail 2 / reply - 0 refused 13 no-such-rank",
        "call get 1 0 -> call get 1 0",
    ];
    tell_all(&rt, rt.alloc(), &mut world, &before)?;
    is_open(&rt, &mut world, "call get 1 0")?;
    let behind = [
        "call get 0 0 -> call get 0 0",
        "fail 1 -> call fail 1 / event - fail 1 / reply - 1 declared",
        "fail 1 -> call fail 1 / reply - 1 already-failed",
        "finish 1 -> look 1 1 / reply 1 1 refused 1 self-failed",
        "call get 1 0 -> call get 1 0 / reply 1 1 refused 1 self-failed",
        "call poll 1 0 -> call poll 1 0 / reply 1 1 refused 1 self-failed",
        "finish 0 -> look 0 1 / reply 0 1 failed 1",
    ];
    tell_all(&rt, rt.alloc(), &mut world, &behind)
}
