// The part of one rank.
ghost use Rattle.std.specs.Prelude.{◌≡◌, ◌<◌, List, [], ◌∷◌, ◌++◌, false, true, not, ⊤, IfErr, IfOk, IsTrue, MatchBool, Err};
ghost use Rattle.ulfm_wait.specs.Members.{setting_of};
ghost use Rattle.std.specs.List.{list_any};
ghost use mathlib.Core.List.{IsPrefix};
ghost use Rattle.boxcar.specs.Table.{Shows};
ghost use Rattle.ulfm_model.specs.History.{failures, has};
ghost use Rattle.ulfm_model.specs.Records.{new_record};
ghost use Rattle.ulfm_laws.specs.Flags.{flag_meld};
ghost use Rattle.ulfm_model.specs.declared.{call.Call.TheVariants.{Agree, Shrink}, reply.Reply.{Reply as ReplyOf}};
ghost use Rattle.ulfm_wait.specs.{Turns.{member_of}, Waits.{IsAwaited, IsPolledOn, MemberPollsOn}};
ghost use Rattle.ulfm_race.specs.declared.plan.Plan.{Plan as PlanOf};
ghost use Rattle.ulfm_race.specs.Races.{IsAnswered, IsGiven, IsKeptReply, IsPlan, IsRankOf, IsReady, IsReported, SaysAgree, Starts, StopsFor, WasLet, flag_pack};
ghost use Rattle.ulfm_race.specs.Races.{flag_of, is_refused, is_stopped, limits_of};
ghost use Rattle.ulfm_race.specs.Worked.{Declares, HasPended, HasTurned, HasWorked, TurnIs};
ghost use Rattle.ulfm_comm.specs.Local.{local};
ghost use Rattle.ulfm_words.specs.Steps.{view_of};

use crate::plan::{Gate, Plan, RaceFault, Turn};
use std::alloc::Global;
use std::sync::Wait;
use std::sync::atomic::{AtomicBool, Ordering};
use std::thread;
use ulfm_book::{BookPass, BookTold, BookWords};
use ulfm_comm::{Polled, Rank, World};
use ulfm_laws::flag_and::FlagAnd;
use ulfm_model::refusal::Refusal;
use ulfm_model::reply::Reply;

pub(crate) type Shared = World<BookWords<FlagAnd>, FlagAnd, Global>;

/// What the ranks of a race were answered: each worker puts its replies there, all at once, when it ends.
pub(crate) type Replies = boxcar::Vec<Vec<Reply<FlagAnd>>>;

/// What shows where the replies of a worker stand.
pub(crate) type Token = boxcar::Pushed<Vec<Reply<FlagAnd>>>;

pub(crate) type Own = Rank<FlagAnd, Global>;

/// What a worker (the code of one rank's thread) works with: its rank, its pass, and the replies that it was given. No other thread sees
/// them before it ends.
#[derive(Drop)]
pub(crate) struct Worker {
    /// The rank whose calls it makes.
    pub rank: Own,
    /// What it has seen of the words.
    pub pass: BookPass<FlagAnd>,
    /// Its replies, in order.
    pub replies: Vec<Reply<FlagAnd>>,
}

/// What a worker gives back.
#[derive(Drop)]
pub(crate) struct Report {
    /// Its rank, as the last call left it.
    pub rank: Own,
    /// All that the worker had seen.
    pub told: BookTold<FlagAnd>,
    /// A token of its replies, or the fault by which it stopped.
    pub said: Result<Token, RaceFault>,
}

/// Once the race has begun, it agrees round after round, and then shrinks. Where the worker stops before all its calls are answered, its rank is declared failed.
pub(crate) fn work<G: Gate, R: Wait>(
    rt: &R,
    gate: &G,
    alloc: Global,
    world: &Shared,
    began: &AtomicBool,
    plan: Plan,
    rank: Own,
    pass: BookPass<FlagAnd>,
    said: &Replies,
) -> Report
    requires plan { IsPlan plan }
    requires limits { world.now.limits ≡ limits_of plan }
    requires new { rank.own ≡ new_record (limits_of plan) rank.own.number }
    requires own { IsRankOf world.now rank.own pass }
    ensures reports { IsReported world.now said.now (G.may_say gate.now) plan rank.own.number result }
    ensures works { HasWorked world.now plan (member_of world.now rank pass) result }
{
    await_all(rt, began);
    let number = rank.number();
    let mut replies = Vec::new(alloc);
    // Room for all of them from the start; where that is refused, it is made as they come.
    let _ = replies.reserve(usize::from(plan.rounds) + 1);
    let mut worker = Worker {
        rank,
        pass,
        replies,
    };
    let ended = take_turns(rt, gate, world, plan, &mut worker);
    let Worker {
        rank,
        mut pass,
        replies,
    } = worker;
    let said = give(rt, said, replies, &ended);
    declare(world, &rank, number, &mut pass, is_stopped(&ended, &said));
    let told = world.told(&pass);
    Report { rank, told, said }
}

// Waits until each worker has its thread, so that the first don't poll, on processors that the others want, for those that aren't there yet.
fn await_all<R: Wait>(rt: &R, began: &AtomicBool) {
    for _ in rt.forever() {
        if began.load(Ordering::SeqCst) {
            return;
        }
        thread::yield_now();
    }
}

// Whether a worker stopped before it was answered all, or memory was refused to give that back.
fn is_stopped(ended: &Result<bool, RaceFault>, said: &Result<Token, RaceFault>) -> bool
    ensures { result ≡ is_stopped ended.now said.now }
{
    !matches!(ended, Ok(true)) || said.is_err()
}

// The replies of a worker whose turns ended so are put before the others; where they met a fault, it is the worker's.
fn give<R: Wait>(
    rt: &R,
    said: &Replies,
    replies: Vec<Reply<FlagAnd>>,
    ended: &Result<bool, RaceFault>,
) -> Result<Token, RaceFault>
    ensures shown { IfOk result (Shows said.now) }
    ensures given { IsGiven ended.now replies.items result }
{
    match ended {
        Ok(_) => match said.push_shown(rt, replies) {
            Ok(token) => Ok(token),
            Err(_) => Err(RaceFault::Memory),
        },
        Err(fault) => Err(*fault),
    }
}

// The rank of a worker that stopped, of this number, is declared.
fn declare(world: &Shared, rank: &Own, number: u16, pass: &mut BookPass<FlagAnd>, stopped: bool)
    requires own { IsRankOf world.now rank.now.own pass.old }
    ensures own { IsRankOf world.now rank.now.own pass.new }
    ensures seen { IsPrefix pass.old.seen pass.new.seen }
    ensures declared { IsTrue stopped → number < world.now.limits.ranks → IsTrue (has (failures pass.new.seen) number) }
    ensures once { IsTrue stopped → Declares world.now number pass.old pass.new }
    ensures alone { stopped ≡ false → pass.new ≡ pass.old }
{
    if stopped {
        let _ = world.fail(pass, number);
    }
}

// All its turns: whether it was answered without a refusal.
fn take_turns<G: Gate, R: Wait>(
    rt: &R,
    gate: &G,
    world: &Shared,
    plan: Plan,
    worker: &mut Worker,
) -> Result<bool, RaceFault>
    requires { Starts world.now plan worker.old.rank.own worker.old.pass worker.old.replies.items }
    ensures own { IsRankOf world.now worker.new.rank.own worker.new.pass }
    ensures answered { IfOk result (λ _. IsAnswered plan worker.new.pass.seen worker.old.rank.own.number worker.new.rank.own worker.new.replies.items) }
    ensures asks { IfOk result (λ _. WasLet (G.may_say gate.now worker.old.rank.own.number) worker.new.replies.items) }
    ensures whole { IfOk result (λ whole. list_any is_refused worker.new.replies.items ≡ not whole) }
    ensures stops { IfErr result (StopsFor ⊤ (G.may_say gate.now worker.old.rank.own.number)) }
    ensures turns { HasTurned plan worker.old.rank.own.number result worker.new.replies.items
        (member_of world.now worker.old.rank worker.old.pass) (member_of world.now worker.new.rank worker.new.pass) }
{
    match agree_all(rt, gate, world, plan, worker) {
        Ok(true) => {}
        Ok(false) => return Ok(false),
        Err(fault) => return Err(fault),
    }
    match shrink(rt, gate, world, &mut worker.rank, &mut worker.pass) {
        Ok(reply) => match keep(&mut worker.replies, reply) {
            Ok(()) => Ok(!is_refused(&reply)),
            Err(fault) => Err(fault),
        },
        Err(fault) => Err(fault),
    }
}

// A reply is kept behind the others.
fn keep(replies: &mut Vec<Reply<FlagAnd>>, reply: Reply<FlagAnd>) -> Result<(), RaceFault>
    ensures kept { IfOk result (λ _. replies.new.items ≡ replies.old.items ++ reply ∷ []) }
    ensures stops { IfErr result (λ fault. fault ≡ RaceFault.Memory) }
    ensures lost { IfErr result (λ _. replies.new.items ≡ replies.old.items) }
{
    if replies.push(reply).is_err() {
        return Err(RaceFault::Memory);
    }
    Ok(())
}

// A rank's flag in a round: 32 ones but one bit, below an upper half of 0.
fn flag(rank: u16, round: u16) -> FlagAnd
    ensures { result ≡ flag_of rank round }
{
    FlagAnd {
        bits: u64::from(u32::MAX - (1 << ((u32::from(rank) + u32::from(round)) % 32))),
    }
}

// Polls until there is an answer, of which the gate is told, or the gate says no.
fn polled<G: Gate, R: Wait>(
    rt: &R,
    gate: &G,
    world: &Shared,
    rank: &mut Own,
    pass: &mut BookPass<FlagAnd>,
) -> Result<Result<Polled<FlagAnd>, Refusal>, RaceFault>
    requires own { IsRankOf world.now rank.old.own pass.old }
    ensures own { IsRankOf world.now rank.new.own pass.new }
    ensures polls { IfOk result (λ answer. IsPolledOn flag_meld false 0 (local rank.old.own (view_of flag_pack world.now pass.old)) answer
        (local rank.new.own (view_of flag_pack world.now pass.new))) }
    ensures asks { IfOk result (λ _. G.may_say gate.now rank.old.own.number Turn.Poll true) }
    ensures stops { IfErr result (λ fault. (fault ≡ RaceFault.Held) × G.may_say gate.now rank.old.own.number Turn.Poll false) }
    ensures counted { IfOk result (λ answer. MemberPollsOn (setting_of flag_meld flag_pack false) 0 (member_of world.now rank.old pass.old) answer
        (member_of world.now rank.new pass.new)) }
    ensures pends { IfErr result (λ _. HasPended (member_of world.now rank.old pass.old) (member_of world.now rank.new pass.new)) }
{
    let number = rank.number();
    for _ in rt.forever() {
        if !gate.go(number, Turn::Poll) {
            return Err(RaceFault::Held);
        }
        match rank.poll(world, pass, 0) {
            Ok(reply) => match reply {
                Polled::Pending => thread::yield_now(),
                answer => {
                    gate.answered(number);
                    return Ok(Ok(answer));
                }
            },
            Err(refusal) => {
                gate.answered(number);
                return Ok(Err(refusal));
            }
        }
    }
    unreachable!()
}

// An answer as a reply, unless it wants memory.
fn reply_from(answer: Result<Polled<FlagAnd>, Refusal>) -> Result<Reply<FlagAnd>, RaceFault>
    ensures kept { IfOk result (IsKeptReply answer) }
    ensures stops { IfErr result (λ fault. (fault ≡ RaceFault.Memory) × (answer ≡ Err Refusal.OutOfMemory)) }
{
    match answer {
        Ok(reply) => Ok(match reply {
            Polled::Pending => Reply::Pending,
            Polled::Agreed {
                value,
                failed,
                raised,
            } => Reply::Agreed {
                value,
                failed,
                raised,
            },
            Polled::Shrunk {
                comm,
                context,
                size,
            } => Reply::Shrunk {
                comm,
                context,
                size,
            },
            Polled::Done => Reply::Done,
        }),
        Err(refusal) => match refusal {
            Refusal::OutOfMemory => Err(RaceFault::Memory),
            refusal => Ok(Reply::Refused(refusal)),
        },
    }
}

// The agree of one round.
fn agree<G: Gate, R: Wait>(
    rt: &R,
    gate: &G,
    world: &Shared,
    rank: &mut Own,
    pass: &mut BookPass<FlagAnd>,
    round: u16,
) -> Result<Reply<FlagAnd>, RaceFault>
    requires own { IsRankOf world.now rank.old.own pass.old }
    ensures own { IsRankOf world.now rank.new.own pass.new }
    ensures says { IfOk result (λ reply. (plan : PlanOf) → (said : List (ReplyOf _))
        → world.now.limits ≡ limits_of plan → round < plan.rounds → IsReady plan rank.old.own.number round rank.old.own pass.old.seen said
        → SaysAgree plan rank.old.own.number round said rank.new.own pass.new.seen reply) }
    ensures asks { IfOk result (λ reply. WasLet (G.may_say gate.now rank.old.own.number) (reply ∷ [])) }
    ensures stops { IfErr result (StopsFor
        (IsAwaited flag_meld false 0 (Agree rank.old.own.number 0 (flag_of rank.old.own.number round)) (local rank.old.own (view_of flag_pack world.now pass.old))
        (Err Refusal.OutOfMemory) (local rank.new.own (view_of flag_pack world.now pass.new)))
        (G.may_say gate.now rank.old.own.number)) }
    ensures turn { TurnIs (Agree rank.old.own.number 0 (flag_of rank.old.own.number round)) (member_of world.now rank.old pass.old) result
        (member_of world.now rank.new pass.new) }
{
    let number = rank.number();
    if !gate.go(number, Turn::Contribute) {
        return Err(RaceFault::Held);
    }
    let started = rank.iagree(world, pass, 0, flag(number, round));
    gate.answered(number);
    match started {
        Ok(()) => match polled(rt, gate, world, rank, pass) {
            Ok(answer) => reply_from(answer),
            Err(fault) => Err(fault),
        },
        Err(refusal) => Ok(Reply::Refused(refusal)),
    }
}

// The shrink.
fn shrink<G: Gate, R: Wait>(
    rt: &R,
    gate: &G,
    world: &Shared,
    rank: &mut Own,
    pass: &mut BookPass<FlagAnd>,
) -> Result<Reply<FlagAnd>, RaceFault>
    requires own { IsRankOf world.now rank.old.own pass.old }
    ensures own { IsRankOf world.now rank.new.own pass.new }
    ensures says { IfOk result (λ reply. (plan : PlanOf) → (said : List (ReplyOf _)) → world.now.limits ≡ limits_of plan
        → IsReady plan rank.old.own.number plan.rounds rank.old.own pass.old.seen said
        → IsAnswered plan pass.new.seen rank.old.own.number rank.new.own (said ++ reply ∷ [])) }
    ensures asks { IfOk result (λ reply. WasLet (G.may_say gate.now rank.old.own.number) (reply ∷ [])) }
    ensures stops { IfErr result (StopsFor
        (IsAwaited flag_meld false 0 (Shrink rank.old.own.number 0) (local rank.old.own (view_of flag_pack world.now pass.old)) (Err Refusal.OutOfMemory)
        (local rank.new.own (view_of flag_pack world.now pass.new)))
        (G.may_say gate.now rank.old.own.number)) }
    ensures turn { TurnIs (Shrink rank.old.own.number 0) (member_of world.now rank.old pass.old) result
        (member_of world.now rank.new pass.new) }
{
    let number = rank.number();
    if !gate.go(number, Turn::Contribute) {
        return Err(RaceFault::Held);
    }
    let started = rank.ishrink(world, pass, 0);
    gate.answered(number);
    match started {
        Ok(()) => match polled(rt, gate, world, rank, pass) {
            Ok(answer) => reply_from(answer),
            Err(fault) => Err(fault),
        },
        Err(refusal) => Ok(Reply::Refused(refusal)),
    }
}

// Whether a reply is a refusal.
fn is_refused(reply: &Reply<FlagAnd>) -> bool
    ensures { result ≡ is_refused reply.now }
{
    match reply {
        Reply::Refused(_) => true,
        _ => false,
    }
}

// All agrees, round after round: whether the rank is ready for the shrink.
pub(crate) fn agree_all<G: Gate, R: Wait>(
    rt: &R,
    gate: &G,
    world: &Shared,
    plan: Plan,
    worker: &mut Worker,
) -> Result<bool, RaceFault>
    requires { Starts world.now plan worker.old.rank.own worker.old.pass worker.old.replies.items }
    ensures own { IsRankOf world.now worker.new.rank.own worker.new.pass }
    ensures says { IfOk result (λ goes. MatchBool goes
        (IsReady plan worker.old.rank.own.number plan.rounds worker.new.rank.own worker.new.pass.seen worker.new.replies.items)
        (IsAnswered plan worker.new.pass.seen worker.old.rank.own.number worker.new.rank.own worker.new.replies.items)) }
    ensures asks { IfOk result (λ _. WasLet (G.may_say gate.now worker.old.rank.own.number) worker.new.replies.items) }
    ensures whole { IfOk result (λ goes. list_any is_refused worker.new.replies.items ≡ not goes) }
    ensures stops { IfErr result (StopsFor ⊤ (G.may_say gate.now worker.old.rank.own.number)) }
    ensures turns { HasTurned plan worker.old.rank.own.number result worker.new.replies.items
        (member_of world.now worker.old.rank worker.old.pass) (member_of world.now worker.new.rank worker.new.pass) }
{
    for round in 0..plan.rounds {
        match agree(rt, gate, world, &mut worker.rank, &mut worker.pass, round) {
            Ok(reply) => {
                match keep(&mut worker.replies, reply) {
                    Ok(()) => {}
                    Err(fault) => return Err(fault),
                }
                if is_refused(&reply) {
                    return Ok(false);
                }
            }
            Err(fault) => return Err(fault),
        }
    }
    Ok(true)
}
