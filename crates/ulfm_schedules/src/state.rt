//! A state: the shared words, and of each rank its place in the program and how far its call has come. Millions are kept, so it is a row of bytes.
use crate::Fate;
use crate::few::{Few, has_bit, with_bit};
use crate::layout::Layout;
use std::alloc::{AllocError, Allocator};
use ulfm_model::Limits;

/// How far a rank's call has come: the step that is next.
#[derive(Clone, Copy, Debug, PartialEq, Eq)]
pub(crate) enum Phase {
    /// No call is under way.
    Idle,
    /// A load of the list of failures. `at` is 1 once it was found at its end.
    Look,
    /// The exchange of the wing of the rank's own place in an agreement round.
    Spread,
    /// The exchange of that place.
    Settle,
    /// The exchange of its own place in a barrier round.
    Arrive,
    /// The exchange of a revocation.
    Revoke,
    /// A load of a revocation, by `isrevoked`.
    Revocation,
    /// A load of a block, of which `at` is the number; `known` has those that are known.
    Block,
    /// A load of the wing of the block of number `at`, which is set.
    BlockWing,
    /// The exchange of the place of a failed member, of which `at` is the number.
    Mark,
    /// A load of a member's place; `at` is its number in the block, and 16 for each block before it.
    Slot,
    /// A load of the wing of that place, which has a contribution.
    SlotWing,
    /// The exchange of the wing of the block of number `at`.
    CacheWing,
    /// The exchange of the block of number `at`.
    Cache,
    /// A load of the list of failures, once a shrink's round is decided.
    ReadOn,
    /// A load of the communicator of number `at`.
    Comm,
    /// The exchange of the communicator of number `at`.
    Spawn,
    /// A load of the place in a barrier of the member of number `at`, the failed first.
    Arrival,
    /// A load of a revocation at a barrier's end: `known` is 0 where all have arrived, 1 where a failed one is missing, 2 where another is.
    Ending,
}

/// What is kept of a rank.
#[derive(Clone, Copy)]
pub(crate) struct Seat {
    /// Whether it still runs, and else how it ended.
    pub(crate) fate: Fate,
    /// The step of its call that is next.
    pub(crate) phase: Phase,
    /// The operation that is next.
    pub(crate) place: u16,
    /// The number of the last reply; 0 before the first.
    pub(crate) last: u16,
    /// The number of what was noted.
    pub(crate) notes: u32,
    /// So many failures it has seen.
    pub(crate) seen: u8,
    /// How far its phase has come.
    pub(crate) at: u8,
    /// What its phase has found, as `Phase` says.
    pub(crate) known: u8,
    /// The last communicator that it got from a shrink.
    pub(crate) current: u8,
}

impl Seat {
    /// A phase begins, in which nothing is found yet.
    pub(crate) fn begin(&mut self, phase: Phase) {
        self.phase = phase;
        self.at = 0;
        self.known = 0;
    }
}

/// The request that is open on a communicator.
#[derive(Clone, Copy, Debug, PartialEq, Eq)]
pub(crate) enum Open {
    Nothing,
    Agree,
    Shrink,
    Barrier,
}

/// What a rank holds of a communicator. All counts are at most 15.
#[derive(Clone, Copy)]
struct Held {
    /// Whether the rank holds it.
    holds: bool,
    /// The request that the rank has open on it.
    open: Open,
    /// So many failures are acknowledged.
    acked: u8,
    /// The next round of agreements.
    agrees: u8,
    /// The next round of barriers.
    barriers: u8,
    /// The round of the open request.
    round: u8,
    /// Its context id.
    context: u8,
}

/// A state.
#[derive(Drop)]
pub(crate) struct State<A: Allocator> {
    /// Where its parts stand among the bytes.
    pub(crate) layout: Layout,
    /// The row: as many bytes as the layout is wide.
    pub(crate) bytes: Vec<u8, A>,
}

fn fate_of(number: u8) -> Fate {
    match number {
        0 => Fate::Runs,
        1 => Fate::Ended,
        2 => Fate::Out,
        _ => Fate::Died,
    }
}

/// The number of a fate.
pub(crate) fn fate_number(fate: Fate) -> u8 {
    match fate {
        Fate::Runs => 0,
        Fate::Ended => 1,
        Fate::Out => 2,
        Fate::Died => 3,
    }
}

fn phase_of(number: u8) -> Phase {
    match number {
        0 => Phase::Idle,
        1 => Phase::Look,
        2 => Phase::Spread,
        3 => Phase::Settle,
        4 => Phase::Arrive,
        5 => Phase::Revoke,
        6 => Phase::Revocation,
        7 => Phase::Block,
        8 => Phase::BlockWing,
        9 => Phase::Mark,
        10 => Phase::Slot,
        11 => Phase::SlotWing,
        12 => Phase::CacheWing,
        13 => Phase::Cache,
        14 => Phase::ReadOn,
        15 => Phase::Comm,
        16 => Phase::Spawn,
        17 => Phase::Arrival,
        _ => Phase::Ending,
    }
}

fn phase_number(phase: Phase) -> u8 {
    match phase {
        Phase::Idle => 0,
        Phase::Look => 1,
        Phase::Spread => 2,
        Phase::Settle => 3,
        Phase::Arrive => 4,
        Phase::Revoke => 5,
        Phase::Revocation => 6,
        Phase::Block => 7,
        Phase::BlockWing => 8,
        Phase::Mark => 9,
        Phase::Slot => 10,
        Phase::SlotWing => 11,
        Phase::CacheWing => 12,
        Phase::Cache => 13,
        Phase::ReadOn => 14,
        Phase::Comm => 15,
        Phase::Spawn => 16,
        Phase::Arrival => 17,
        Phase::Ending => 18,
    }
}

/// Whether the step of a phase is a load or an exchange of a wing. Nobody can tell whether such a step was made, so a state has no wings.
///
/// For a wing is loaded only where its word was found, and who set that had set the wing. That of a rank's own place is set by this rank alone,
/// and once in a round. All who set a block's wing set it to the same.
pub(crate) fn is_of_wing(phase: Phase) -> bool {
    match phase {
        Phase::Spread | Phase::BlockWing | Phase::SlotWing | Phase::CacheWing => true,
        _ => false,
    }
}

fn open_of(number: u8) -> Open {
    match number {
        0 => Open::Nothing,
        1 => Open::Agree,
        2 => Open::Shrink,
        _ => Open::Barrier,
    }
}

fn open_number(open: Open) -> u8 {
    match open {
        Open::Nothing => 0,
        Open::Agree => 1,
        Open::Shrink => 2,
        Open::Barrier => 3,
    }
}

/// A byte's two halves as numbers.
fn halves(byte: u8) -> (u8, u8) {
    (byte & 15, byte >> 4)
}

/// Two numbers of at most 15 as the halves of a byte.
fn joined(low: u8, high: u8) -> u8 {
    (low & 15) | ((high & 15) << 4)
}

/// What a rank holds of a communicator that it has just got.
fn fresh(context: u8) -> Held {
    Held {
        holds: true,
        open: Open::Nothing,
        acked: 0,
        agrees: 0,
        barriers: 0,
        round: 0,
        context,
    }
}

impl<A: Allocator + Copy + Drop> State<A> {
    /// The state before all steps.
    pub(crate) fn first(alloc: A, limits: Limits) -> Result<State<A>, AllocError> {
        let layout = Layout::new(limits);
        let bytes = vec![in alloc; 0; layout.width]?;
        let mut state = State { layout, bytes };
        let mut members = 0;
        for rank in 0..layout.ranks {
            members = with_bit(members, rank);
            state.take(rank, 0, 0);
        }
        state.add_comm(0, 0, members);
        Ok(state)
    }

    fn byte(&self, at: usize) -> u8 {
        self.bytes.get(at).copied().unwrap_or(0)
    }

    fn set(&mut self, at: usize, value: u8) {
        if let Some(byte) = self.bytes.get_mut(at) {
            *byte = value;
        }
    }

    fn bytes_at(&self, at: usize) -> (u8, u8) {
        (self.byte(at), self.byte(at.saturating_add(1)))
    }

    fn set_two(&mut self, at: usize, value: u16) {
        let [low, high] = value.to_le_bytes();
        self.set(at, low);
        self.set(at.saturating_add(1), high);
    }

    fn two(&self, at: usize) -> u16 {
        let (low, high) = self.bytes_at(at);
        u16::from_le_bytes([low, high])
    }

    /// How many ranks are declared.
    pub(crate) fn failures(&self) -> u8 {
        self.byte(0)
    }

    /// The declared ranks up to a number, in order.
    pub(crate) fn declared_to(&self, count: u8) -> Few {
        let mut few = Few::none();
        for number in 0..count {
            few.add(self.byte(self.layout.failure(number)));
        }
        few
    }

    /// Whether a rank is declared.
    pub(crate) fn is_declared(&self, rank: u8) -> bool {
        self.declared_to(self.failures()).has(rank)
    }

    /// Declares a rank.
    pub(crate) fn declare(&mut self, rank: u8) {
        let count = self.failures();
        let at = self.layout.failure(count);
        self.set(at, rank);
        self.set(0, count.saturating_add(1));
    }

    /// How many communicators there are.
    pub(crate) fn comms(&self) -> u8 {
        self.byte(self.layout.made())
    }

    /// The communicator that one was made of, and the round of that, counted from 0; both 0 of the world's own.
    pub(crate) fn origin(&self, comm: u8) -> (u8, u8) {
        self.bytes_at(self.layout.comm(comm))
    }

    /// The members of a communicator, as a set.
    pub(crate) fn members(&self, comm: u8) -> u8 {
        self.byte(self.layout.comm(comm).saturating_add(2))
    }

    /// Whether a communicator is revoked, for all ranks.
    pub(crate) fn is_revoked(&self, comm: u8) -> bool {
        self.byte(self.layout.comm(comm).saturating_add(3)) != 0
    }

    /// Revokes a communicator.
    pub(crate) fn revoke(&mut self, comm: u8) {
        let at = self.layout.comm(comm).saturating_add(3);
        self.set(at, 1);
    }

    /// One more communicator, made of another in a round of that.
    pub(crate) fn add_comm(&mut self, parent: u8, round: u8, members: u8) {
        let number = self.comms();
        let at = self.layout.comm(number);
        self.set(at, parent);
        self.set(at.saturating_add(1), round);
        self.set(at.saturating_add(2), members);
        self.set(at.saturating_add(3), 0);
        let at = self.layout.made();
        self.set(at, number.saturating_add(1));
    }

    /// The number of the word in a member's place; 0 where it is empty.
    pub(crate) fn slot(&self, comm: u8, round: u8, rank: u8) -> u8 {
        self.byte(self.layout.slot(comm, round, rank))
    }

    /// Writes a member's place.
    pub(crate) fn set_slot(&mut self, comm: u8, round: u8, rank: u8, word: u8) {
        let at = self.layout.slot(comm, round, rank);
        self.set(at, word);
    }

    /// Who has arrived.
    pub(crate) fn arrivals(&self, comm: u8, round: u8) -> u8 {
        self.byte(self.layout.arrivals(comm, round))
    }

    /// One more has arrived.
    pub(crate) fn arrive(&mut self, comm: u8, round: u8, rank: u8) {
        let here = self.arrivals(comm, round);
        let at = self.layout.arrivals(comm, round);
        self.set(at, with_bit(here, rank));
    }

    /// Whether a block is cached.
    pub(crate) fn is_cached(&self, comm: u8, round: u8, block: u8) -> bool {
        has_bit(self.byte(self.layout.blocks(comm, round)), block)
    }

    /// Caches a block.
    pub(crate) fn cache(&mut self, comm: u8, round: u8, block: u8) {
        let at = self.layout.blocks(comm, round);
        let cached = with_bit(self.byte(at), block);
        self.set(at, cached);
    }

    /// What is kept of a rank.
    pub(crate) fn seat(&self, rank: u8) -> Seat {
        let at = self.layout.seat(rank);
        let (stands, seen) = self.bytes_at(at);
        let (first, second) = self.bytes_at(at.saturating_add(6));
        let (third, fourth) = self.bytes_at(at.saturating_add(8));
        let (step, current) = self.bytes_at(at.saturating_add(10));
        Seat {
            fate: fate_of(stands >> 6),
            phase: phase_of(stands & 63),
            place: self.two(at.saturating_add(2)),
            last: self.two(at.saturating_add(4)),
            notes: u32::from_le_bytes([first, second, third, fourth]),
            seen,
            at: step,
            known: self.byte(at.saturating_add(12)),
            current,
        }
    }

    /// Writes what is kept of a rank.
    pub(crate) fn put_seat(&mut self, rank: u8, seat: Seat) {
        let at = self.layout.seat(rank);
        let stands = phase_number(seat.phase) | (fate_number(seat.fate) << 6);
        self.set(at, stands);
        self.set(at.saturating_add(1), seat.seen);
        self.set_two(at.saturating_add(2), seat.place);
        self.set_two(at.saturating_add(4), seat.last);
        let [first, second, third, fourth] = seat.notes.to_le_bytes();
        self.set_two(at.saturating_add(6), u16::from_le_bytes([first, second]));
        self.set_two(at.saturating_add(8), u16::from_le_bytes([third, fourth]));
        self.set(at.saturating_add(10), seat.at);
        self.set(at.saturating_add(11), seat.current);
        self.set(at.saturating_add(12), seat.known);
    }

    /// What a rank holds of a communicator.
    fn held(&self, rank: u8, comm: u8) -> Held {
        let at = self.layout.held(rank, comm);
        let (flags, counts) = self.bytes_at(at);
        let (kind, acked) = halves(flags);
        let (agrees, barriers) = halves(counts);
        let (round, context) = halves(self.byte(at.saturating_add(2)));
        let out = comm >= self.layout.comms;
        Held {
            holds: kind & 1 == 1 && !out,
            open: if out {
                Open::Nothing
            } else {
                open_of(kind >> 1)
            },
            acked,
            agrees,
            barriers,
            round,
            context,
        }
    }

    /// Writes what a rank holds of a communicator, which is in the world.
    fn put_held(&mut self, rank: u8, comm: u8, held: Held) {
        if comm >= self.layout.comms {
            return;
        }
        let at = self.layout.held(rank, comm);
        let kind = u8::from(held.holds) | (open_number(held.open) << 1);
        self.set(at, joined(kind, held.acked));
        self.set(at.saturating_add(1), joined(held.agrees, held.barriers));
        self.set(at.saturating_add(2), joined(held.round, held.context));
    }

    /// Whether a rank holds a communicator.
    pub(crate) fn holds(&self, rank: u8, comm: u8) -> bool {
        self.held(rank, comm).holds
    }

    /// The context id of a communicator that a rank holds; none of another.
    pub(crate) fn context(&self, rank: u8, comm: u8) -> Option<u8> {
        let held = self.held(rank, comm);
        if held.holds { Some(held.context) } else { None }
    }

    /// The request that a rank has open on a communicator.
    pub(crate) fn open(&self, rank: u8, comm: u8) -> Open {
        self.held(rank, comm).open
    }

    /// The round of that request.
    pub(crate) fn round(&self, rank: u8, comm: u8) -> u8 {
        self.held(rank, comm).round
    }

    /// The round that a rank's next request of this sort takes: barriers have rounds of their own.
    pub(crate) fn next_round(&self, rank: u8, comm: u8, open: Open) -> u8 {
        let held = self.held(rank, comm);
        if open == Open::Barrier {
            held.barriers
        } else {
            held.agrees
        }
    }

    /// So many failures a rank has acknowledged on a communicator.
    pub(crate) fn acked(&self, rank: u8, comm: u8) -> u8 {
        self.held(rank, comm).acked
    }

    /// A rank acknowledges so many failures, and no fewer than before; how many it has acknowledged then.
    pub(crate) fn acknowledge(&mut self, rank: u8, comm: u8, count: u8) -> u8 {
        let mut held = self.held(rank, comm);
        held.acked = held.acked.max(count);
        self.put_held(rank, comm, held);
        held.acked
    }

    /// A rank's request of this sort begins; the round that it takes.
    pub(crate) fn begin(&mut self, rank: u8, comm: u8, open: Open) -> u8 {
        let mut held = self.held(rank, comm);
        let round = self.next_round(rank, comm, open);
        let next = round.saturating_add(1);
        if open == Open::Barrier {
            held.barriers = next;
        } else {
            held.agrees = next;
        }
        held.open = open;
        held.round = round;
        self.put_held(rank, comm, held);
        round
    }

    /// The rank gets a communicator, of this context id.
    pub(crate) fn take(&mut self, rank: u8, comm: u8, context: u8) {
        self.put_held(rank, comm, fresh(context));
    }

    /// The request that a rank has open on a communicator is over.
    pub(crate) fn close(&mut self, rank: u8, comm: u8) {
        let mut held = self.held(rank, comm);
        held.open = Open::Nothing;
        self.put_held(rank, comm, held);
    }

    /// The rank holds nothing of a communicator any more.
    pub(crate) fn let_go(&mut self, rank: u8, comm: u8) {
        let mut held = fresh(0);
        held.holds = false;
        self.put_held(rank, comm, held);
    }

    /// The rank's program is over: only its fate and what it noted are kept.
    pub(crate) fn retire(&mut self, rank: u8, fate: Fate) {
        let notes = self.seat(rank).notes;
        for comm in 0..self.layout.comms {
            self.let_go(rank, comm);
        }
        self.put_seat(
            rank,
            Seat {
                fate,
                phase: Phase::Idle,
                place: 0,
                last: 0,
                notes,
                seen: 0,
                at: 0,
                known: 0,
                current: 0,
            },
        );
    }
}
