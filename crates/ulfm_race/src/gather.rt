// What the workers were answered, gathered.
ghost use Rattle.std.specs.Prelude.{◌≡◌, ◌+◌, ◌<◌, ℕ, [], ◌∷◌, ◌++◌, true, false, map, length, unwrap_or, vec_capacity, vec_len, ⊤};
ghost use Rattle.std.specs.Prelude.{IfErr, IfOk, IfSome, MatchResult, Some, None};
ghost use Rattle.std.specs.List.{list_any};
ghost use mathlib.Core.List.{IsPrefix};
ghost use Rattle.boxcar.specs.Table.{Shows};
ghost use Rattle.ulfm_laws.specs.declared.flag_and.FlagAnd.{FlagAnd as FlagOf};
ghost use Rattle.ulfm_laws.specs.Flags.{flag_meld};
ghost use Rattle.ulfm_model.specs.{History.{History}, Records.{Held, held_at}};
ghost use Rattle.ulfm_words.specs.Steps.{view_of, IsView};
ghost use Rattle.ulfm_race.specs.Races.{EndsFor, IsDeclared, IsEnded, IsGathered, IsHeard, IsOutcome, IsReported, IsStarted, Numbered, StartIs, StopsFor, flag_pack};
ghost use Rattle.ulfm_race.specs.Races.{WasLet};
ghost use Rattle.ulfm_race.specs.Races.{is_shrunk, limits_of};

use crate::plan::{Gate, Outcome, Plan, RaceFault};
use crate::racing::{Handle, Started};
use crate::worker::{Own, Replies, Report, Shared, Token};
use std::alloc::{AllocError, Global};
use std::thread::Threads;
use ulfm_book::BookPass;
use ulfm_laws::flag_and::FlagAnd;
use ulfm_model::reply::Reply;

/// What one rank was answered, whether its shrink made a communicator, and the members of that.
#[derive(Drop)]
pub(crate) struct Heard {
    replies: Vec<Reply<FlagAnd>>,
    made: bool,
    group: Vec<u16>,
}

/// What the first ranks were answered, and the fault of one that stopped, if any did.
#[derive(Drop)]
pub(crate) struct Gathered {
    plan: Plan,
    replies: Vec<Vec<Reply<FlagAnd>>>,
    group: Vec<u16>,
    fault: Option<RaceFault>,
}

impl Gathered {
    /// Nothing yet, with room for all ranks of a plan.
    pub(crate) fn new(alloc: Global, plan: Plan) -> Result<Gathered, AllocError>
        ensures plan { IfOk result (λ g. g.plan ≡ plan) }
        ensures nothing { IfOk result (λ g. (g.replies.items ≡ []) × (g.group.items ≡ []) × (g.fault ≡ None)) }
        ensures room { IfOk result (λ g. vec_capacity g.replies ≡ plan.ranks) }
    {
        Ok(Gathered {
            plan,
            replies: Vec::with_capacity(alloc, plan.ranks as usize)?,
            group: Vec::new(alloc),
            fault: None,
        })
    }

    // What the next rank was answered is taken in, or its fault.
    fn take_in(&mut self, heard: Result<Heard, RaceFault>)
        requires { vec_len self.old.replies < vec_capacity self.old.replies }
        ensures plan { self.new.plan ≡ self.old.plan }
        ensures goes_on { IfOk heard (λ _. self.new.fault ≡ self.old.fault) }
        ensures stops { IfErr heard (λ fault. self.new.fault ≡ Some (unwrap_or self.old.fault fault)) }
        ensures room { vec_capacity self.new.replies ≡ vec_capacity self.old.replies }
        ensures items { MatchResult heard (λ x. self.new.replies.items ≡ self.old.replies.items ++ x.replies ∷ [])
            (λ _. self.new.replies.items ≡ self.old.replies.items) }
        ensures takes { (h : History FlagOf) → (r : ℕ) → IfOk heard (λ x. IsHeard self.old.plan h r x.replies.items x.made x.group.items)
            → IsGathered self.old.plan h r (map (λ v. v.items) self.old.replies.items) self.old.group.items self.old.fault
            → IsGathered self.old.plan h (r + 1) (map (λ v. v.items) self.new.replies.items) self.new.group.items self.new.fault }
    {
        match heard {
            Ok(heard) => self.add(heard),
            Err(fault) => self.stop(fault),
        }
    }

    // One rank more.
    fn add(&mut self, heard: Heard)
        requires { vec_len self.old.replies < vec_capacity self.old.replies }
        ensures plan { self.new.plan ≡ self.old.plan }
        ensures fault { self.new.fault ≡ self.old.fault }
        ensures room { vec_capacity self.new.replies ≡ vec_capacity self.old.replies }
        ensures items { self.new.replies.items ≡ self.old.replies.items ++ heard.replies ∷ [] }
        ensures adds { (h : History FlagOf) → (r : ℕ) → IsHeard self.old.plan h r heard.replies.items heard.made heard.group.items
            → IsGathered self.old.plan h r (map (λ v. v.items) self.old.replies.items) self.old.group.items self.old.fault
            → IsGathered self.old.plan h (r + 1) (map (λ v. v.items) self.new.replies.items) self.new.group.items self.new.fault }
    {
        let Heard {
            replies,
            made,
            group,
        } = heard;
        self.replies.push_reserved(replies);
        if made {
            self.group = group;
        }
    }

    // The first fault stays.
    fn stop(&mut self, fault: RaceFault)
        ensures { self.new ≡ record self.old { fault = Some (unwrap_or self.old.fault fault) } }
    {
        if self.fault.is_none() {
            self.fault = Some(fault);
        }
    }
}

/// Joins all workers, in order, and gathers what they were answered.
pub(crate) fn hear_all<R: Threads, G: Gate>(
    rt: &R,
    alloc: Global,
    world: &Shared,
    said: &Replies,
    gate: &G,
    started: Vec<Started<'_, G>>,
    outside: &mut BookPass<FlagAnd>,
    gathered: Gathered,
) -> Result<Outcome, RaceFault>
    requires limits { world.now.limits ≡ limits_of gathered.plan }
    requires of { IsView flag_meld (view_of flag_pack world.now outside.old) }
    requires declared { IfSome gathered.plan.fail (IsDeclared outside.old.seen) }
    requires nothing { (gathered.replies.items ≡ []) × (gathered.group.items ≡ []) × (gathered.fault ≡ None) }
    requires room { vec_capacity gathered.replies ≡ gathered.plan.ranks }
    requires started { Numbered (λ r one. StartIs (λ h. IsStarted world.now said.now gate.now gathered.plan r h.promise) outside.old.seen r one)
        0 started.items }
    requires all { length started.items ≡ gathered.plan.ranks }
    ensures answered { IfOk result (λ o. IsOutcome gathered.plan o.seen.seen (map (λ v. v.items) o.replies.items) o.group.items) }
    ensures asked { IfOk result (λ o. Numbered (λ r v. WasLet (G.may_say gate.now r) v.items) 0 o.replies.items) }
    ensures ends { IfErr result (EndsFor gathered.plan (G.may_say gate.now)) }
    ensures ended { (r : ℕ) → r < gathered.plan.ranks → IsEnded gathered.plan outside.new.seen r }
    ensures still { outside.new.steps ≡ outside.old.steps }
{
    let mut gathered = gathered;
    let plan = gathered.plan;
    for one in started {
        let heard = hear(rt, alloc, world, said, gate, plan, one, outside);
        gathered.take_in(heard);
    }
    let Gathered {
        plan: _,
        replies,
        group,
        fault,
    } = gathered;
    match fault {
        None => Ok(Outcome {
            replies,
            group,
            seen: world.told(outside),
        }),
        Some(fault) => Err(fault),
    }
}

// A rank is heard: what it was answered, in what is seen from now on, or its fault.
fn hear<'a, R: Threads, G: Gate>(
    rt: &R,
    alloc: Global,
    world: &Shared,
    said: &Replies,
    gate: &G,
    plan: Plan,
    one: Started<'a, G>,
    outside: &mut BookPass<FlagAnd>,
) -> Result<Heard, RaceFault>
    requires limits { world.now.limits ≡ limits_of plan }
    requires of { IsView flag_meld (view_of flag_pack world.now outside.old) }
    requires one { (r : ℕ) × StartIs (λ h. IsStarted world.now said.now gate.now plan r h.promise) outside.old.seen r one }
    ensures of { IsView flag_meld (view_of flag_pack world.now outside.new) }
    ensures seen { IsPrefix outside.old.seen outside.new.seen }
    ensures heard { (r : ℕ) → StartIs (λ h. IsStarted world.now said.now gate.now plan r h.promise) outside.old.seen r one.entry
        → MatchResult result (λ x. IsHeard plan outside.new.seen r x.replies.items x.made x.group.items × WasLet (G.may_say gate.now r) x.replies.items)
        (StopsFor ⊤ (G.may_say gate.now r)) }
    ensures ended { (r : ℕ) → StartIs (λ h. IsStarted world.now said.now gate.now plan r h.promise) outside.old.seen r one.entry
        → IsEnded plan outside.new.seen r }
    ensures still { outside.new.steps ≡ outside.old.steps }
{
    match one {
        Ok(handle) => hear_thread(rt, alloc, world, said, handle, outside),
        Err(fault) => Err(fault),
    }
}

// A worker is joined: what it promised, and that all it had seen is seen.
fn finish<'a, R: Threads, G: Gate>(
    rt: &R,
    world: &Shared,
    handle: Handle<'a, G>,
    outside: &mut BookPass<FlagAnd>,
) -> Report
    requires world { handle.promise.world.now ≡ world.now }
    requires of { IsView flag_meld (view_of flag_pack world.now outside.old) }
    ensures of { IsView flag_meld (view_of flag_pack world.now outside.new) }
    ensures seen { IsPrefix outside.old.seen outside.new.seen }
    ensures learned { IsPrefix result.told.seen outside.new.seen }
    ensures still { outside.new.steps ≡ outside.old.steps }
    ensures kept { IsReported world.now handle.entry.promise.said.now (G.may_say handle.entry.promise.gate.now) handle.entry.promise.plan
        handle.entry.promise.number result }
{
    let report = handle.join(rt);
    world.learn(outside, &report.told);
    report
}

// A worker is heard: where it met no fault, this is what its rank was answered, in what is seen from now on.
fn hear_thread<'a, R: Threads, G: Gate>(
    rt: &R,
    alloc: Global,
    world: &Shared,
    said: &Replies,
    handle: Handle<'a, G>,
    outside: &mut BookPass<FlagAnd>,
) -> Result<Heard, RaceFault>
    requires world { handle.promise.world.now ≡ world.now }
    requires said { handle.promise.said.now ≡ said.now }
    requires limits { world.now.limits ≡ limits_of handle.promise.plan }
    requires of { IsView flag_meld (view_of flag_pack world.now outside.old) }
    ensures of { IsView flag_meld (view_of flag_pack world.now outside.new) }
    ensures seen { IsPrefix outside.old.seen outside.new.seen }
    ensures answered { IfOk result (λ x. IsHeard handle.entry.promise.plan outside.new.seen handle.entry.promise.number x.replies.items x.made x.group.items) }
    ensures asked { IfOk result (λ x. WasLet (G.may_say handle.entry.promise.gate.now handle.entry.promise.number) x.replies.items) }
    ensures stops { IfErr result (StopsFor ⊤ (G.may_say handle.entry.promise.gate.now handle.entry.promise.number)) }
    ensures ended { IsEnded handle.entry.promise.plan outside.new.seen handle.entry.promise.number }
    ensures still { outside.new.steps ≡ outside.old.steps }
{
    let report = finish(rt, world, handle, outside);
    let Report {
        rank,
        told: _,
        said: given,
    } = report;
    match given {
        Ok(token) => match read(alloc, said, &token, &rank) {
            Ok(heard) => Ok(heard),
            Err(_) => Err(RaceFault::Memory),
        },
        Err(fault) => Err(fault),
    }
}

// What a worker was answered, read at its token, whether its shrink made a communicator, and the members of that.
fn read(alloc: Global, said: &Replies, token: &Token, rank: &Own) -> Result<Heard, AllocError>
    requires { Shows said.now token.now }
    ensures replies { IfOk result (λ x. x.replies.items ≡ token.now.value.items) }
    ensures made { IfOk result (λ x. x.made ≡ list_any is_shrunk x.replies.items) }
    ensures group { IfOk result (λ x. x.made ≡ true → (y : Held) → held_at rank.now.own 1 ≡ Some y → x.group.items ≡ y.group) }
    ensures nobody { IfOk result (λ x. x.made ≡ false → x.group.items ≡ []) }
{
    let replies = said.value(token).to_vec(alloc)?;
    let made = any_shrunk(&replies);
    let group = members_made(rank, made).to_vec(alloc)?;
    Ok(Heard {
        replies,
        made,
        group,
    })
}

// The members of communicator 1, where the rank holds it.
fn members_made(rank: &Own, made: bool) -> &[u16]
    ensures group { made ≡ true → (y : Held) → held_at rank.now.own 1 ≡ Some y → result.now ≡ y.group }
    ensures nobody { made ≡ false → result.now ≡ [] }
{
    if !made {
        return &[];
    }
    match rank.members(1) {
        Some(group) => group,
        None => &[],
    }
}

// Whether a shrink made a communicator, by the replies.
fn any_shrunk(replies: &[Reply<FlagAnd>]) -> bool
    ensures { result ≡ list_any is_shrunk replies.now }
{
    for reply in replies {
        if is_shrunk(reply) {
            return true;
        }
    }
    false
}

// Whether a reply is a communicator that a shrink made.
fn is_shrunk(reply: &Reply<FlagAnd>) -> bool
    ensures { result ≡ is_shrunk reply.now }
{
    match reply {
        Reply::Shrunk { .. } => true,
        _ => false,
    }
}
