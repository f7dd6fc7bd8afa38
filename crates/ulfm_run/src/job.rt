// A world, all its ranks and one pass in a single value, which answers call after call: for scripts and tests. And the machine that answers
// a script's calls so, over plain words, those of one thread.
ghost use Rattle.std.specs.Prelude.{ℕ, List, ◌≡◌, ◌<◌, ◌≤◌, ◌==◌, Err, Some, find, length, vec_capacity, IsTrue, IfOk, OnErr, OnOk, MatchOption, MatchResult};
ghost use mathlib.Core.List.{IsPrefix};
ghost use Rattle.ulfm_model.specs.Answers.{polled_by, rank_of as rank_in, traits_of};
ghost use Rattle.ulfm_model.specs.History.{failed};
ghost use Rattle.ulfm_model.specs.Records.{Held, held_at, is_shrink};
ghost use Rattle.ulfm_model.specs.Runs.{IsStep, new_state};
ghost use Rattle.ulfm_model.specs.declared.{call.Call.TheVariants.{Fail as FailAsked}, refusal.Refusal.TheVariants.{OutOfMemory as NoMemory}};
ghost use Rattle.ulfm_model.specs.declared.limits.OpenFault.TheVariants.{OutOfMemory};
ghost use Rattle.ulfm_model.specs.Terms.{comm_of};
ghost use Rattle.ulfm_comm.specs.{Calls.{Gets}, Counts.{records_of}, Local.{local, FitsView}, Queries.{listed_in, query}};
ghost use Rattle.ulfm_run.specs.Jobs.{crew, IsAbout, IsJob, IsOther, KeepsRecords, MayLack, PollsShrink, StepsBy, queried, state_seen};
ghost use Rattle.ulfm_words.specs.Steps.{view_of, seen_in, IsView};

use std::alloc::{AllocError, Allocator};
use std::marker::Model;
use ulfm_comm::{Rank, World};
use ulfm_laws::FlagAnd;
use ulfm_laws::meld::Packed;
use ulfm_model::Limits;
use ulfm_model::call::{Call, rank_of};
use ulfm_model::held::is_shrink;
use ulfm_model::limits::OpenFault;
use ulfm_model::refusal::Refusal;
use ulfm_model::reply::Reply;
use ulfm_script::Machine;
use ulfm_words::{OpenWords, PlainWords, Words};

/// A world, all its ranks and one pass, in one hand: it answers one call after another. Contracts see it as the state of
/// the sequential object.
#[derive(Drop)]
pub struct Job<W, P: Packed, A: Allocator>
where
    W: Words<P, A>,
{
    world: World<W, P, A>,
    // All calls are made over it. What it has seen is the state's history.
    pass: W::Pass,
    // In the order of their numbers.
    ranks: Vec<Rank<P, A>, A>,
}

impl<W, P: Packed, A: Allocator> Model for Job<W, P, A>
where
    W: Words<P, A>,
{
    ghost use Rattle.ulfm_model.specs.Runs.{State};
    ghost use Rattle.ulfm_comm.specs.Counts.{records_of};
    ghost use Rattle.ulfm_run.specs.Jobs.{IsJob, state_seen};
    ghost use Rattle.ulfm_words.specs.Steps.{view_of};

    ghost Value = { State P };

    ghost view = { λ a. state_seen (view_of P.pack a.world (W.sight a.pass)) (records_of a.ranks.items) };

    ghost invariant = { λ a. IsJob P.meld W.alone (view_of P.pack a.world (W.sight a.pass)) (records_of a.ranks.items) };
}

impl<W, P: Packed, A: Allocator + Copy> Job<W, P, A>
where
    W: Words<P, A>,
{
    /// A world over new words, its ranks, and a pass that has seen nothing. Memory is the only thing that it may lack.
    ///
    /// ```
    /// let words: PlainWords<FlagAnd> = PlainWords::open(limits)?;
    /// let job = Job::open(alloc, words)?;
    /// assert!(rt; job.rank(1).is_some());
    /// ```
    pub fn open(alloc: A, words: W) -> Result<Job<W, P, A>, OpenFault>
    where
        W: OpenWords<P, A> + Drop,
        ensures { MatchResult result (λ job. job ≡ new_state (W.name words).limits) (λ fault. fault ≡ OutOfMemory) }
    {
        let (world, ranks) = World::open(alloc, words)?;
        let Ok(pass) = world.pass(alloc) else {
            return Err(OpenFault::OutOfMemory);
        };
        Ok(Job { world, pass, ranks })
    }

    /// The pass that all calls are made over, to be read. It makes no atomic step.
    ///
    /// ```
    /// assert!(rt; job.pass().nth(0).is_none());
    /// ```
    pub fn pass(&self) -> &W::Pass
        ensures of { IsView P.meld (view_of P.pack (W.sight result.now).name (W.sight result.now)) }
        ensures seen { seen_in (view_of P.pack (W.sight result.now).name (W.sight result.now)) ≡ self.now.history }
    {
        &self.pass
    }

    /// A rank of the world, if there is one of this number. It makes no atomic step.
    ///
    /// ```
    /// assert!(rt; job.rank(1).is_some());
    /// assert!(rt; job.rank(2).is_none());
    /// ```
    pub fn rank(&self, number: u16) -> Option<&Rank<P, A>>
        ensures { MatchOption result (self.now.limits.ranks ≤ number) (λ own. find (λ x. x.number == number) self.now.records ≡ Some own.now.own) }
    {
        let ranks = self.ranks.as_slice();
        if number as usize >= ranks.len() {
            return None;
        }
        Some(&ranks[number as usize])
    }

    /// Answers a call. Where nobody else steps, it is one step of the sequential object. A failed group that was asked for is
    /// put into the vector, or those in it that are acknowledged, in the order of the failures, and so are the members of a
    /// communicator that a shrink made, in their order; after any other reply the vector is as it was. Memory alone can be refused:
    /// to a query of the failed group or of the acknowledged, where the vector has less room than there are ranks to list, and to
    /// the poll of a shrink. The vector's memory for that poll is taken before it, so that its reply isn't lost. After a refusal the
    /// vector is as it was, and so is each rank, but for what it has seen: the call can be made again.
    ///
    /// ```
    /// let mut group = Vec::new(alloc);
    /// let failed = job.apply(&Call::Fail { rank: 1 }, &mut group)?;
    /// assert!(rt; failed == Reply::Declared);
    /// let found = job.apply(&Call::GetFailed { rank: 0, comm: 0 }, &mut group)?;
    /// assert!(rt; found == Reply::FailedGroup { count: 1 });
    /// assert_eq!(rt; group.as_slice(), [1].as_slice());
    /// ```
    pub fn apply(
        &mut self,
        asked: &Call<P>,
        group: &mut Vec<u16, A>,
    ) -> Result<Reply<P>, AllocError>
        ensures about { IfOk result (IsAbout self.new (comm_of asked.now) group.old.items group.new.items) }
        ensures step { IfOk result (λ reply. IsTrue W.alone → IsStep P.meld self.old (traits_of asked.now).by asked.now reply self.new) }
        ensures memory { OnErr result (MayLack (vec_capacity group.old) self.old asked.now self.new) }
        ensures kept { OnErr result (KeepsRecords self.old.records self.new.records) }
        ensures group { OnErr result (group.new.items ≡ group.old.items) }
        ensures begins { IsPrefix self.old.history self.new.history }
    {
        let world = &self.world;
        let pass = &mut self.pass;
        match *asked {
            Call::Fail { rank } => Ok(fail_by(world, pass, &self.ranks, rank)),
            Call::GetFailed { rank, comm } => get_by(
                world,
                pass,
                &mut self.ranks,
                rank,
                comm,
                false,
                group,
            ),
            Call::FailureGetAcked { rank, comm } => get_by(
                world,
                pass,
                &mut self.ranks,
                rank,
                comm,
                true,
                group,
            ),
            _ => call_by(world, pass, &mut self.ranks, *asked, group),
        }
    }
}

/// The outside declares a rank.
fn fail_by<P: Packed, A: Allocator + Copy, W: Words<P, A>>(
    world: &World<W, P, A>,
    pass: &mut W::Pass,
    ranks: &[Rank<P, A>],
    rank: u16,
) -> Reply<P>
    requires { IsJob P.meld W.alone (view_of P.pack world.now (W.sight pass.old)) (records_of ranks.now) }
    ensures about { (group : List ℕ) → IsAbout (state_seen (view_of P.pack world.now (W.sight pass.new)) (records_of ranks.now)) 0 group group result }
    ensures step { StepsBy P.meld W.alone (FailAsked rank) (crew (view_of P.pack world.now (W.sight pass.old)) (records_of ranks.now)) result
        (crew (view_of P.pack world.now (W.sight pass.new)) (records_of ranks.now)) }
{
    let _ = ranks;
    match world.fail(pass, rank) {
        Ok(true) => Reply::Declared,
        Ok(false) => Reply::AlreadyFailed,
        Err(refusal) => Reply::Refused(refusal),
    }
}

/// Asks a rank for a failed group, or for those in it that it has acknowledged.
fn ask<P: Packed, A: Allocator + Copy, W: Words<P, A>>(
    own: &mut Rank<P, A>,
    world: &World<W, P, A>,
    pass: &mut W::Pass,
    comm: u16,
    acked: bool,
    found: &mut Vec<u16, A>,
) -> Result<(), Refusal>
    requires of { IsView P.meld (view_of P.pack world.now (W.sight pass.old)) }
    requires fits { FitsView P.meld (local own.old.own (view_of P.pack world.now (W.sight pass.old))) }
    ensures gets { Gets P.meld W.alone (query acked own.old.own.number comm) (local own.old.own (view_of P.pack world.now (W.sight pass.old)))
        (length found.new.items) result (local own.new.own (view_of P.pack world.now (W.sight pass.new))) }
    ensures group { IfOk result (λ _. found.new.items ≡ listed_in acked (local own.new.own (view_of P.pack world.now (W.sight pass.new))) comm) }
    ensures kept { OnErr result (found.new.items ≡ found.old.items) }
    ensures memory { result ≡ Err NoMemory → vec_capacity found.old
        < length (listed_in acked (local own.new.own (view_of P.pack world.now (W.sight pass.new))) comm) }
{
    if acked {
        own.failure_get_acked(world, pass, comm, found)
    } else {
        own.get_failed(world, pass, comm, found)
    }
}

/// A rank asks for a failed group, or for those in it that it has acknowledged.
fn get_by<P: Packed, A: Allocator + Copy, W: Words<P, A>>(
    world: &World<W, P, A>,
    pass: &mut W::Pass,
    ranks: &mut [Rank<P, A>],
    rank: u16,
    comm: u16,
    acked: bool,
    found: &mut Vec<u16, A>,
) -> Result<Reply<P>, AllocError>
    requires { IsJob P.meld W.alone (view_of P.pack world.now (W.sight pass.old)) (records_of ranks.old) }
    ensures step { IfOk result
        (λ reply. StepsBy P.meld W.alone (query acked rank comm) (crew (view_of P.pack world.now (W.sight pass.old)) (records_of ranks.old)) reply
        (crew (view_of P.pack world.now (W.sight pass.new)) (records_of ranks.new))) }
    ensures job { IsJob P.meld W.alone (view_of P.pack world.now (W.sight pass.new)) (records_of ranks.new) }
    ensures begins { IsPrefix (W.sight pass.old).seen (W.sight pass.new).seen }
    ensures about { IfOk result (IsAbout (state_seen (view_of P.pack world.now (W.sight pass.new)) (records_of ranks.new)) comm found.old.items found.new.items) }
    ensures memory { OnErr result (vec_capacity found.old
        < length (queried acked (records_of ranks.old) rank comm (failed world.now.limits.ranks (W.sight pass.new).seen comm))) }
    ensures kept { OnErr result (KeepsRecords (records_of ranks.old) (records_of ranks.new)) }
    ensures group { OnErr result (found.new.items ≡ found.old.items) }
{
    if rank as usize >= ranks.len() {
        return Ok(Reply::Refused(Refusal::NoSuchRank));
    }
    let own = &mut ranks[rank as usize];
    match ask(own, world, pass, comm, acked, found) {
        Ok(()) => Ok(Reply::FailedGroup {
            count: found.as_slice().len() as u16,
        }),
        Err(refusal) => match refusal {
            Refusal::OutOfMemory => Err(AllocError),
            _ => Ok(Reply::Refused(refusal)),
        },
    }
}

/// The members of a communicator, put into a vector, if the rank holds it.
fn put_members<P: Packed, A: Allocator>(
    own: &Rank<P, A>,
    comm: u16,
    found: &mut Vec<u16, A>,
) -> Result<(), AllocError>
    ensures ok { OnOk result ((x : Held) → held_at own.now.own comm ≡ Some x → found.new.items ≡ x.group) }
    ensures lacks { OnErr result ((x : Held) × (held_at own.now.own comm ≡ Some x) × (vec_capacity found.old < length x.group)) }
{
    found.clear();
    match own.members(comm) {
        Some(group) => found.extend_from_slice(group),
        None => Ok(()),
    }
}

/// Makes room in a vector for the members of the communicator that this call may make: no more than those that its rank shrinks.
fn make_room_for<P: Packed, A: Allocator>(
    own: &Rank<P, A>,
    asked: &Call<P>,
    found: &mut Vec<u16, A>,
) -> Result<(), AllocError>
    ensures kept { found.new.items ≡ found.old.items }
    ensures memory { OnErr result (IsTrue (is_shrink (polled_by own.now.own asked.now))) }
    ensures room { OnOk result (IsTrue (traits_of asked.now).polls → (x : Held) → held_at own.now.own (comm_of asked.now) ≡ Some x
        → IsTrue (is_shrink x.request) → length x.group ≤ vec_capacity found.new) }
{
    let Call::Poll { comm, .. } = *asked else {
        return Ok(());
    };
    if !is_shrink(own.request(comm)) {
        return Ok(());
    }
    match own.members(comm) {
        Some(group) => found.reserve(group.len().saturating_sub(found.len())),
        None => Ok(()),
    }
}

/// A rank makes any other call. The members of a communicator that a shrink made are put into the vector, whose memory is taken
/// before the call.
fn call_by<P: Packed, A: Allocator + Copy, W: Words<P, A>>(
    world: &World<W, P, A>,
    pass: &mut W::Pass,
    ranks: &mut [Rank<P, A>],
    asked: Call<P>,
    found: &mut Vec<u16, A>,
) -> Result<Reply<P>, AllocError>
    requires job { IsJob P.meld W.alone (view_of P.pack world.now (W.sight pass.old)) (records_of ranks.old) }
    requires other { IsOther asked }
    ensures step { IfOk result (λ reply. StepsBy P.meld W.alone asked (crew (view_of P.pack world.now (W.sight pass.old)) (records_of ranks.old)) reply
        (crew (view_of P.pack world.now (W.sight pass.new)) (records_of ranks.new))) }
    ensures job { IsJob P.meld W.alone (view_of P.pack world.now (W.sight pass.new)) (records_of ranks.new) }
    ensures begins { IsPrefix (W.sight pass.old).seen (W.sight pass.new).seen }
    ensures about { IfOk result (IsAbout (state_seen (view_of P.pack world.now (W.sight pass.new)) (records_of ranks.new)) (comm_of asked)
        found.old.items found.new.items) }
    ensures memory { OnErr result (PollsShrink (records_of ranks.old) (rank_in asked) asked) }
    ensures kept { OnErr result (KeepsRecords (records_of ranks.old) (records_of ranks.new)) }
    ensures group { OnErr result (found.new.items ≡ found.old.items) }
{
    let rank = rank_of(&asked) as usize;
    if rank >= ranks.len() {
        return Ok(Reply::Refused(Refusal::NoSuchRank));
    }
    let own = &mut ranks[rank];
    make_room_for(own, &asked, found)?;
    let reply = own.call(world, pass, asked);
    match reply {
        Reply::Refused(refusal) => match refusal {
            Refusal::OutOfMemory => Err(AllocError),
            _ => Ok(reply),
        },
        Reply::Shrunk { comm, .. } => {
            put_members(own, comm, found)?;
            Ok(reply)
        }
        _ => Ok(reply),
    }
}

/// Ranks that make their calls over plain words, each by its own atomic steps.
#[derive(Drop)]
pub struct WordsMachine<A: Allocator + Copy + Drop> {
    job: Job<PlainWords<FlagAnd>, FlagAnd, A>,
}

impl<A: Allocator + Copy + Drop> Machine<A> for WordsMachine<A> {
    ghost state = { λ machine. machine.job };

    fn open(alloc: A, limits: Limits) -> Result<Self, AllocError> {
        let Ok(words) = PlainWords::open(limits) else {
            unreachable!()
        };
        match Job::open(alloc, words) {
            Ok(job) => Ok(WordsMachine { job }),
            Err(_) => Err(AllocError),
        }
    }

    fn apply(
        &mut self,
        call: &Call<FlagAnd>,
        group: &mut Vec<u16, A>,
    ) -> Result<Reply<FlagAnd>, AllocError> {
        let reply = self.job.apply(call, group)?;
        match reply {
            Reply::FailedGroup { .. } | Reply::Shrunk { .. } => {}
            _ => group.clear(),
        }
        Ok(reply)
    }
}
