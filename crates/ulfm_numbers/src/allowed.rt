//! Whether an event may come next, by what the tables say of a point.
ghost use Rattle.std.specs.Prelude.{◌≡◌, ◌<◌, ◌-◌, ◌+◌, ◌==◌, ◌&&◌, IfOk, is_some, length, nat_le, not, slice_get};
ghost use Rattle.ulfm_model.specs.Walked.{decision_of};
ghost use Rattle.ulfm_numbers.specs.Seen.{decision_in, failed_in, is_decided_in, is_made_in};
ghost use Rattle.ulfm_numbers.specs.Telling.{seen_at};
ghost use Rattle.ulfm_numbers.specs.Tests.{at_test, follow_test, ids_test, place_test, spawn_test};

use crate::groups::has_member;
use crate::numbers::{Numbers, RoundKey};
use std::alloc::{AllocError, Allocator};
use ulfm_laws::meld::Packed;
use ulfm_laws::summary::Body;
use ulfm_model::decide::{Decided, decided_by};
use ulfm_model::event::Event;
use ulfm_model::limits::Limits;

/// Whether this rank stands at this place of a group, counted from 1.
fn is_at(group: &[u16], place: u16, rank: u16) -> bool
    requires { 0 < place }
    ensures { result ≡ at_test (slice_get group.now (place - 1)) rank }
{
    match group.get(usize::from(place) - 1) {
        Some(x) => *x == rank,
        None => false,
    }
}

/// Whether a body is a set of context ids that isn't empty.
pub fn has_ids<P: Copy>(body: &Body<P>) -> bool
    ensures { result ≡ ids_test body.now }
{
    match *body {
        Body::Ctx(mask) => mask.bits > 0,
        _ => false,
    }
}

/// Whether a communicator was made of this round of this parent.
fn is_of(made: (u16, u16), comm: u16, round: u16) -> bool
    ensures { result ≡ ((made.0 == comm) && (made.1 == round)) }
{
    made.0 == comm && made.1 == round
}

impl<P: Packed, A: Allocator + Copy + Drop> Numbers<P, A> {
    /// Whether a communicator exists.
    fn exists(&self, point: u64, comm: u16) -> bool
        ensures { result ≡ nat_le comm (length (seen_at self.now point).spawns) }
    {
        usize::from(comm) <= self.count_made_at(point)
    }

    /// Whether a rank is a member of a communicator that has a round of this number.
    fn is_place(&self, limits: Limits, point: u64, place: RoundKey) -> bool
        ensures { result ≡ place_test limits (seen_at self.now point) (place.0) (place.1) (place.2) }
    {
        let (comm, round, rank) = place;
        self.exists(point, comm)
            && (has_member(self.members_at(comm, point), rank) && round < limits.rounds)
    }

    /// Whether a rank has a place in a round where nobody is settled yet.
    fn is_open(&self, limits: Limits, point: u64, place: RoundKey) -> bool
        ensures { let seen = seen_at self.now point in
            result ≡ (place_test limits seen (place.0) (place.1) (place.2) && not (is_some (seen.slots place))) }
    {
        self.is_place(limits, point, place) && self.slot_at(place, point).is_none()
    }

    /// Whether a rank may contribute to a round, knowing so many failures.
    fn may_settle(&self, limits: Limits, point: u64, place: RoundKey, known: u16) -> bool
        ensures { let seen = seen_at self.now point in
            let open_yet = not (is_some (seen.slots place)) in let few = nat_le known (length (failed_in seen (place.0))) in
            result ≡ (place_test limits seen (place.0) (place.1) (place.2) && (open_yet && few)) }
    {
        let group = self.failed_at_point(place.0, point);
        self.is_open(limits, point, place) && usize::from(known) <= group.len()
    }

    /// Whether a rank may be marked in a round, as the one of so many failures that is declared last.
    fn may_mark(&self, limits: Limits, point: u64, place: RoundKey, known: u16) -> bool
        requires { 0 < known }
        ensures { let seen = seen_at self.now point in
            let open_yet = not (is_some (seen.slots place)) in let at_place = at_test (slice_get (failed_in seen (place.0)) (known - 1)) (place.2) in
            result ≡ (place_test limits seen (place.0) (place.1) (place.2) && (open_yet && at_place)) }
    {
        let is_open = self.is_open(limits, point, place);
        is_open && is_at(self.failed_at_point(place.0, point), known, place.2)
    }

    /// Whether a round was decided at a point: each member was settled.
    pub fn is_decided(&self, point: u64, comm: u16, round: u16) -> bool
        ensures { result ≡ is_decided_in (seen_at self.now point) comm round }
    {
        self.members_at(comm, point)
            .iter()
            .all(|rank| self.slot_at((comm, round, *rank), point).is_some())
    }

    /// The decision of a round, by what was settled in it at a point.
    pub fn decision(
        &self,
        alloc: A,
        point: u64,
        comm: u16,
        round: u16,
    ) -> Result<Decided<P, A>, AllocError>
        ensures { IfOk result (λ made. decision_of made ≡ decision_in P.meld (seen_at self.now point) comm round) }
    {
        let failed = self.failed_at_point(comm, point);
        let settled = self.settled_at(alloc, comm, round, point)?;
        decided_by(alloc, failed, &settled)
    }

    /// Whether a round decides on a set of context ids that isn't empty.
    fn decides_ids(&self, alloc: A, point: u64, comm: u16, round: u16) -> Result<bool, AllocError>
        ensures { IfOk result (λ b. b ≡ ids_test (decision_in P.meld (seen_at self.now point) comm round).body) }
    {
        let decided = self.decision(alloc, point, comm, round)?;
        Ok(has_ids(&decided.body))
    }

    /// Whether a communicator has the next number.
    fn is_next(&self, point: u64, made: u16) -> bool
        ensures { result ≡ (made == length (seen_at self.now point).spawns + 1) }
    {
        made > 0 && usize::from(made) - 1 == self.count_made_at(point)
    }

    /// Whether a communicator was made of a round by a point.
    pub fn is_made(&self, point: u64, comm: u16, round: u16) -> bool
        ensures { result ≡ is_made_in (seen_at self.now point) comm round }
    {
        self.spawns_at(point)
            .iter()
            .any(|of| is_of(*of, comm, round))
    }

    /// Whether the communicator of this number may be made of a round.
    fn may_spawn(
        &self,
        alloc: A,
        limits: Limits,
        point: u64,
        made: u16,
        comm: u16,
        round: u16,
    ) -> Result<bool, AllocError>
        ensures { IfOk result (λ b. b ≡ spawn_test P.meld limits (seen_at self.now point) made comm round) }
    {
        let is_next = self.is_next(point, made);
        let exists = self.exists(point, comm);
        let is_decided = self.is_decided(point, comm, round);
        let has_ids = self.decides_ids(alloc, point, comm, round)?;
        let is_first = !self.is_made(point, comm, round);
        Ok(
            is_next
                && (made < limits.comms
                    && (exists
                        && (round < limits.rounds && (is_decided && (has_ids && is_first))))),
        )
    }
}

/// Whether an event may come next, at a point: where that is how many events there are, whether the event is legal behind them. It reads the
/// tables alone. Memory is taken, and may be refused, only for a communicator that is made, where the decision of its round is found.
///
/// ```
/// let event = Event::Fail { rank: 1 };
/// assert!(rt; may_follow(Global, limits, &numbers, numbers.count, &event)?);
/// ```
pub fn may_follow<P: Packed, A: Allocator + Copy + Drop>(
    alloc: A,
    limits: Limits,
    numbers: &Numbers<P, A>,
    point: u64,
    event: &Event<P>,
) -> Result<bool, AllocError>
    ensures { IfOk result (λ b. b ≡ follow_test P.meld limits (seen_at numbers.now point) event.now) }
{
    match *event {
        Event::Fail { rank } => Ok(rank < limits.ranks && !numbers.is_declared_at(rank, point)),
        Event::Settle {
            comm,
            round,
            rank,
            given,
        } => Ok(numbers.may_settle(limits, point, (comm, round, rank), given.known.count)),
        Event::Mark {
            comm,
            round,
            rank,
            known,
        } => Ok(numbers.may_mark(limits, point, (comm, round, rank), known.known.count)),
        Event::Arrive { comm, round, rank } => {
            let place = (comm, round, rank);
            let is_place = numbers.is_place(limits, point, place);
            Ok(is_place && !numbers.has_arrived_at(place, point))
        }
        Event::Revoke { comm } => {
            Ok(numbers.exists(point, comm) && !numbers.is_revoked_at(comm, point))
        }
        Event::Spawn {
            comm,
            parent,
            round,
        } => numbers.may_spawn(alloc, limits, point, comm, parent, round),
    }
}
