// The race: a world is opened, each rank gets a thread of its own, and what the ranks were answered is gathered.
ghost use Rattle.std.specs.Prelude.{◌≡◌, ◌+◌, ◌*◌, ◌≤◌, [], None, IfErr, IfOk, IfSome, MatchResult, map, length, vec_capacity};
ghost use mathlib.Core.List.{IsPrefix};
ghost use Rattle.ulfm_laws.specs.Flags.{flag_meld};
ghost use Rattle.ulfm_words.specs.Steps.{view_of, IsView};
ghost use Rattle.ulfm_comm.specs.Counts.{records_of};
ghost use Rattle.ulfm_race.specs.Races.{EndsFor, IsDeclared, IsNewRank, IsOutcome, IsPlan, IsReported, IsStarted, Numbered, StartIs, WasLet, flag_pack, limits_of};
ghost use Rattle.ulfm_race.specs.Worked.{Declares, steps_of};

use crate::gather::{Gathered, hear_all};
use crate::plan::{Gate, Outcome, Plan, RaceFault};
use crate::worker::{Own, Replies, Report, Shared, work};
use std::alloc::Global;
use std::sync::Wait;
use std::sync::atomic::{AtomicBool, Ordering};
use std::thread::{self, Promise, PromisedHandle, Scope, Threads};
use ulfm_book::{BookPass, BookWords};
use ulfm_comm::World;
use ulfm_laws::flag_and::FlagAnd;
use ulfm_model::limits::Limits;

/// What the worker of this rank promises of its report.
#[derive(Drop)]
pub(crate) struct Promised<'a, G: Gate> {
    /// The scheduler of the race, which is asked before each turn.
    pub(crate) gate: &'a G,
    /// The world of all ranks that race.
    pub(crate) world: &'a Shared,
    /// What they were answered.
    pub(crate) said: &'a Replies,
    /// How many ranks race, and for how many rounds.
    pub(crate) plan: Plan,
    /// The rank's number, below the plan's ranks.
    pub(crate) number: u16,
}

impl<'a, G: Gate> Promise<Report> for Promised<'a, G> {
    ghost kept_by = { λ p r. IsReported p.world.now p.said.now (G.may_say p.gate.now) p.plan p.number r };
}

/// What all threads of a race have before them.
#[derive(Drop)]
struct RaceSetting<'a, R, G: Gate> {
    /// What threads are made by, and wait by.
    rt: &'a R,
    /// The scheduler of the race.
    gate: &'a G,
    /// Where memory is taken from.
    alloc: Global,
    /// The world of all ranks that race.
    world: &'a Shared,
    /// What they were answered.
    said: &'a Replies,
    /// Whether each worker has its thread.
    began: &'a AtomicBool,
    /// How many ranks race, and for how many rounds.
    plan: Plan,
}

/// A worker's thread.
pub(crate) type Handle<'a, G> = PromisedHandle<Report, Promised<'a, G>>;

/// A worker's thread, or why none was made.
pub(crate) type Started<'a, G> = Result<Handle<'a, G>, RaceFault>;

/// Races the ranks of a new world, whose words threads share: each agrees round after round, and then shrinks, on a thread of its own (its
/// worker). In round k rank r contributes a flag of all ones but bit (r + k) mod 32.
///
/// The plan has 1 to 64 ranks and 1 to 1000 rounds, and the rank that it declares, if any, is below its ranks. The workers begin once each has
/// its thread. A worker takes each turn, a start or a poll, once the gate lets it, and tells the gate of each answer. The rank of a worker that stops, by a fault or a refusal, is
/// declared failed, and so is one whose thread can't be made; so the others don't wait for it.
///
/// `Ok` says for each rank what it was answered, all in one history. In that history the plan's rank is declared, and each rank that was
/// refused. `Memory` comes where memory or a thread was refused. `Held` comes where the gate said false, which no gate does whose `may_say`
/// rules it out. Where several ranks met a fault, the answer is the fault of one of them, and what the others were answered is dropped.
/// Whatever it answers, all its threads have ended. It answers only if they end: each polls until it is answered, and yields in between.
///
/// With a gate that always says true:
///
/// ```
/// let plan = Plan {
///     ranks: 4,
///     rounds: 2,
///     fail: None,
/// };
/// let outcome = race(&rt, alloc, plan, &AlwaysOpen)?;
/// assert_eq!(rt; outcome.group.as_slice(), [0, 1, 2, 3].as_slice());
/// let agreed = Reply::Agreed {
///     value: FlagAnd { bits: 0xffff_fff0 },
///     failed: 0,
///     raised: false,
/// };
/// for replies in &outcome.replies {
///     assert!(rt; replies.len() == 3 && replies[0] == agreed);
/// }
/// ```
pub fn race<R: Threads + Wait + Sync, G: Gate + Sync>(
    rt: &R,
    alloc: Global,
    plan: Plan,
    gate: &G,
) -> Result<Outcome, RaceFault>
    requires { IsPlan plan }
    ensures answered { IfOk result (λ o. IsOutcome plan o.seen.seen (map (λ v. v.items) o.replies.items) o.group.items) }
    ensures asked { IfOk result (λ o. Numbered (λ r v. WasLet (G.may_say gate.now r) v.items) 0 o.replies.items) }
    ensures ends { IfErr result (EndsFor plan (G.may_say gate.now)) }
{
    let (world, ranks) = open_world(alloc, plan)?;
    let world = &world;
    let began = AtomicBool::new(false);
    let began = &began;
    let said = boxcar::Vec::new(alloc)?;
    let said = &said;
    thread::scope(
        thread::scope_env(),
        rt,
        |scope|
            requires plan { IsPlan plan }
            requires limits { world.now.limits ≡ limits_of plan }
            requires ranks { Numbered (IsNewRank plan) 0 (records_of ranks.items) }
            requires all { length ranks.items ≡ plan.ranks }
        { race_in(scope, rt, gate, alloc, world, said, began, plan, ranks) },
    )
}

// The world of a plan, and its ranks.
#[tactic(auto, using(crate::proofs::Gathering::new_ranks))]
fn open_world(alloc: Global, plan: Plan) -> Result<(Shared, Vec<Own>), RaceFault>
    requires { IsPlan plan }
    ensures refused { IfErr result (λ fault. fault ≡ RaceFault.Memory) }
    ensures limits { IfOk result (λ o. o.0.limits ≡ limits_of plan) }
    ensures ranks { IfOk result (λ o. Numbered (IsNewRank plan) 0 (records_of o.1.items)) }
    ensures all { IfOk result (λ o. length o.1.items ≡ plan.ranks) }
{
    let limits = Limits {
        ranks: plan.ranks,
        comms: 2,
        rounds: plan.rounds + 1,
    };
    // The limits are in their ranges, so memory is all that may be lacking.
    let Ok(words) = BookWords::open(alloc, limits) else {
        return Err(RaceFault::Memory);
    };
    match World::open(alloc, words) {
        Ok(opened) => Ok(opened),
        Err(_) => Err(RaceFault::Memory),
    }
}

// The race, once there are a world and its ranks.
fn race_in<'s, E, R: Threads + Wait + Sync, G: Gate + Sync>(
    scope: &Scope<'s, E>,
    rt: &'s R,
    gate: &'s G,
    alloc: Global,
    world: &'s Shared,
    said: &'s Replies,
    began: &'s AtomicBool,
    plan: Plan,
    ranks: Vec<Own>,
) -> Result<Outcome, RaceFault>
    requires plan { IsPlan plan }
    requires limits { world.now.limits ≡ limits_of plan }
    requires ranks { Numbered (IsNewRank plan) 0 (records_of ranks.items) }
    requires all { length ranks.items ≡ plan.ranks }
    ensures answered { IfOk result (λ o. IsOutcome plan o.seen.seen (map (λ v. v.items) o.replies.items) o.group.items) }
    ensures asked { IfOk result (λ o. Numbered (λ r v. WasLet (G.may_say gate.now r) v.items) 0 o.replies.items) }
    ensures ends { IfErr result (EndsFor plan (G.may_say gate.now)) }
{
    let gathered = Gathered::new(alloc, plan)?;
    let mut started = Vec::with_capacity(alloc, ranks.len())?;
    let mut outside = world.pass(alloc)?;
    let race = RaceSetting {
        rt,
        gate,
        alloc,
        world,
        said,
        began,
        plan,
    };
    start_all(scope, &race, ranks, &mut outside, &mut started);
    began.store(true, Ordering::SeqCst);
    declare(world, plan, &mut outside);
    hear_all(
        rt,
        alloc,
        world,
        said,
        gate,
        started,
        &mut outside,
        gathered,
    )
}

// The rank that the plan declares, if any, is declared.
fn declare(world: &Shared, plan: Plan, outside: &mut BookPass<FlagAnd>)
    requires plan { IsPlan plan }
    requires limits { world.now.limits ≡ limits_of plan }
    requires of { IsView flag_meld (view_of flag_pack world.now outside.old) }
    ensures of { IsView flag_meld (view_of flag_pack world.now outside.new) }
    ensures seen { IsPrefix outside.old.seen outside.new.seen }
    ensures declared { IfSome plan.fail (IsDeclared outside.new.seen) }
    ensures once { IfSome plan.fail (λ rank. Declares world.now rank outside.old outside.new) }
    ensures nobody { plan.fail ≡ None → outside.new ≡ outside.old }
{
    if let Some(rank) = plan.fail {
        let _ = world.fail(outside, rank);
    }
}

// A worker is started for each rank, in order; where one can't be, its rank is declared, and the others are started still.
fn start_all<'s, E, G: Gate + Sync, R: Wait + Sync>(
    scope: &Scope<'s, E>,
    race: &RaceSetting<'s, R, G>,
    ranks: Vec<Own>,
    outside: &mut BookPass<FlagAnd>,
    started: &mut Vec<Started<'s, G>>,
)
    requires plan { IsPlan race.now.plan }
    requires limits { race.now.world.now.limits ≡ limits_of race.now.plan }
    requires of { IsView flag_meld (view_of flag_pack race.now.world.now outside.old) }
    requires ranks { Numbered (IsNewRank race.now.plan) 0 (records_of ranks.items) }
    requires nobody { started.old.items ≡ [] }
    requires room { length ranks.items ≤ vec_capacity started.old }
    ensures of { IsView flag_meld (view_of flag_pack race.now.world.now outside.new) }
    ensures started { Numbered (λ r one. StartIs (λ h. IsStarted race.now.world.now race.now.said.now race.now.gate.now race.now.plan r h.promise) outside.new.seen r one)
        0 started.new.items }
    ensures all { length started.new.items ≡ length ranks.items }
    ensures few { outside.new.steps ≤ outside.old.steps + steps_of (2 * race.now.world.now.limits.ranks) started.new.items }
{
    for rank in ranks {
        let one = start(scope, race, rank, outside);
        started.push_reserved(one);
    }
}

// One worker is started, on a thread of its own. Where none can be made, its rank is declared.
fn start<'s, E, G: Gate + Sync, R: Wait + Sync>(
    scope: &Scope<'s, E>,
    race: &RaceSetting<'s, R, G>,
    rank: Own,
    outside: &mut BookPass<FlagAnd>,
) -> Started<'s, G>
    requires plan { IsPlan race.now.plan }
    requires limits { race.now.world.now.limits ≡ limits_of race.now.plan }
    requires new { IsNewRank race.now.plan rank.own.number rank.own }
    requires of { IsView flag_meld (view_of flag_pack race.now.world.now outside.old) }
    ensures of { IsView flag_meld (view_of flag_pack race.now.world.now outside.new) }
    ensures seen { IsPrefix outside.old.seen outside.new.seen }
    ensures started { StartIs (λ h. IsStarted race.now.world.now race.now.said.now race.now.gate.now race.now.plan rank.own.number h.promise) outside.new.seen
        rank.own.number result }
    ensures once { MatchResult result (λ _. outside.new ≡ outside.old) (λ _. Declares race.now.world.now rank.own.number outside.old outside.new) }
{
    let number = rank.number();
    let promised = Promised {
        gate: race.gate,
        world: race.world,
        said: race.said,
        plan: race.plan,
        number,
    };
    let pass = match race.world.pass(race.alloc) {
        Ok(pass) => pass,
        Err(_) => {
            let _ = race.world.fail(outside, number);
            return Err(RaceFault::Memory);
        }
    };
    let (rt, gate, alloc) = (race.rt, race.gate, race.alloc);
    let (world, said, began, plan) = (race.world, race.said, race.began, race.plan);
    let started = scope.spawn_with(
        promised,
        move || work(rt, gate, alloc, world, began, plan, rank, pass, said),
    );
    match started {
        Ok(handle) => Ok(handle),
        Err(_) => {
            let _ = race.world.fail(outside, number);
            Err(RaceFault::Memory)
        }
    }
}
