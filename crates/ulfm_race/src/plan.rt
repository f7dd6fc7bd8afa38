// What a race is given, and what it gives: ranks and rounds, the gate that schedules them, the outcome and the faults.
ghost use Rattle.std.specs.Prelude.{◌≡◌, ℕ, Bool};
ghost use Rattle.ulfm_race.specs.declared.plan.RaceFault.TheVariants.{Memory};
ghost use Rattle.ulfm_race.specs.declared.plan.Turn.{Turn as TurnOf};

use std::alloc::AllocError;
use thiserror::Error;
use ulfm_book::BookTold;
use ulfm_laws::flag_and::FlagAnd;
use ulfm_model::reply::Reply;

/// How many ranks race for how many rounds, and which of them is declared failed.
///
/// A race of three ranks and two rounds, in which rank 2 is declared: `Plan { ranks: 3, rounds: 2, fail: Some(2) }`.
#[derive(Clone, Copy, Debug, PartialEq, Eq)]
pub struct Plan {
    /// How many ranks race, 1 to 64. Each has a thread of its own.
    pub ranks: u16,
    /// How often each agrees before it shrinks, 1 to 1000.
    pub rounds: u16,
    /// Which rank is declared failed, if one is: as by a failure detector, once all workers (the ranks' threads) are started. It is below
    /// `ranks`.
    pub fail: Option<u16>,
}

/// A turn: what a worker, the thread of one rank, is about to do.
#[derive(Clone, Copy, Debug, PartialEq, Eq)]
pub enum Turn {
    /// It starts an agree or a shrink.
    Contribute,
    /// It polls what it has started.
    Poll,
}

/// The scheduler of a race: it lets workers take their turns. A worker calls `go` before each start and each poll, and `answered` once for
/// each answer, both on its own thread. A gate whose `go` always says true lets all run as they like.
///
/// An answer is a start that has started or is refused, or a poll that has a reply or is refused; a pending poll is none. So in a round a
/// rank calls `go` for its start, `answered` for that, `go` for each of its polls, and `answered` for the last of them.
///
/// ```text
/// go(r, Contribute)  answered(r)  go(r, Poll) .. go(r, Poll)  answered(r)
/// ```
///
/// A gate may state in `may_say` what its `go` can answer, so that contracts know it. One that always says true has
/// `ghost may_say = { λ _ _ _ said. said ≡ true };`, and a race with it never answers `Held`.
pub trait Gate {
    /// What `go` may answer, true or false, to which rank, at which turn: either, unless the gate states more. Only contracts see it.
    ghost may_say: { Self → ℕ → TurnOf → Bool → Type 0 } = { λ _ _ _ _. Unit {0} };

    /// Whether the rank may take this turn. It may wait. Where it says false, the worker stops, its rank is declared, and the race
    /// answers `Held`, or the fault of another rank.
    fn go(&self, rank: u16, turn: Turn) -> bool
        ensures { may_say self.now rank turn result };

    /// Called when the rank was answered: its start has started or was refused, or its poll has a reply that isn't pending, or was refused.
    fn answered(&self, rank: u16);
}

/// Why a race has no outcome. Each worker has ended, and the rank of each that stopped was declared failed. Where several ranks met a
/// fault, this is the fault of one of them.
#[derive(Clone, Copy, Debug, PartialEq, Eq, Error)]
pub enum RaceFault {
    /// Memory was refused, or a thread.
    #[error("out of memory")]
    Memory,
    /// Held back: the gate's `go` said false to some rank.
    #[error("held by the gate")]
    Held,
}

impl From<AllocError> for RaceFault {
    ghost from_gives = { λ _ e. e ≡ Memory };

    fn from(_: AllocError) -> RaceFault {
        RaceFault::Memory
    }
}

/// What the ranks were answered.
#[derive(Drop)]
pub struct Outcome {
    /// For each rank, in order, its replies in order: those of its agrees, and then what its shrink made, or a refusal.
    pub replies: Vec<Vec<Reply<FlagAnd>>>,
    /// The members of communicator 1, in order, where some rank was answered that it was made; else none.
    pub group: Vec<u16>,
    /// All that any rank had seen, as a value of no bytes, for contracts. It ties the replies to the history of words that threads really
    /// shared (a book of `ulfm_book`), and not of made-up ones.
    pub seen: BookTold<FlagAnd>,
}
