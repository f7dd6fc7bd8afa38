// A call that is under way.
ghost use Rattle.std.specs.Prelude.{◌≡◌, ◌+◌, min};
ghost use Rattle.ulfm_comm.specs.Counts.{named_steps};
ghost use Rattle.ulfm_comm.specs.Phase.{is_checking, is_looking, next_step};

use crate::rank::NewComm;
use std::alloc::Allocator;
use std::marker::Model;
use ulfm_laws::meld::Packed;
use ulfm_laws::summary::CtxMask;
use ulfm_model::call::{Call, Request};
use ulfm_model::contribution::Offer;
use ulfm_model::reply::Reply;
use ulfm_model::step_name::StepName;
use ulfm_steps::{Append, Arrivals, MarkAll, Missing, Peek, ReadBlocks, ReadOn, RoundBlocks};

// What a decided shrink makes: a communicator of this round, with this context id.
#[derive(Clone, Copy)]
pub(crate) struct Made {
    /// The parent's round, counted from 0.
    pub round: u16,
    /// The context ids that are free at all contributors. It gets the lowest.
    pub mask: CtxMask,
    // How many failures of the parent are left out.
    pub count: u16,
}

// What a call does next.
#[derive(Drop)]
pub(crate) enum Phase<P: Packed> {
    // Nothing: its rank was refused for good before.
    Over,
    // The list of failures is read, from behind what was seen.
    Begun,
    // It is read on.
    Looking,
    // The rank sets the wing of its contribution to its next agreement round.
    Spreading {
        request: Request,
        offer: Offer<P>,
    },
    // It contributes: the wing is set.
    Settling {
        // What the rank starts, with its round.
        request: Request,
        // What the rank gives to the round.
        offer: Offer<P>,
    },
    // It arrives in its next barrier round.
    Arriving {
        // That round, counted from 0.
        round: u16,
    },
    // It revokes the communicator.
    Revoking,
    // It asks whether the communicator is revoked.
    Asking,
    // The blocks of a round are loaded.
    Peeking {
        // How far the loads have come.
        peek: Peek<P>,
        // Whether the open request is a shrink.
        shrinks: bool,
    },
    // Its declared members are marked. Not all of these blocks were set.
    Marking {
        // How far the marks have come.
        marks: MarkAll,
        // What is known of the round's blocks.
        blocks: RoundBlocks<P>,
        // Whether the open request is a shrink.
        shrinks: bool,
    },
    // The blocks that weren't set are read, and cached.
    Reading {
        // How far the reading has come.
        reading: ReadBlocks<P>,
        // Whether the open request is a shrink.
        shrinks: bool,
    },
    // The list of failures is read on, as far as the decision's failed group reaches.
    ReadingOn {
        // How far the reading has come.
        on: ReadOn,
        // What the decided round makes.
        made: Made,
    },
    // The list of communicators is read, and gets the new one. So many failures that were seen reach as far as that group.
    Spawning {
        // How far the list was read.
        append: Append,
        // The context id of the new communicator, 0 to 63.
        context: u8,
        // How many of the failures that were seen reach as far as that group.
        reach: usize,
    },
    // Who has arrived in a barrier round is read.
    Waiting {
        // How far the reading has come.
        arrivals: Arrivals,
    },
    // Last, whether the communicator is revoked.
    Checking {
        // Who was found missing before.
        missing: Missing,
    },
}

// What comes after a step: more of them, or the reply.
#[derive(Drop)]
pub(crate) enum Next<P: Packed> {
    // Further, to this phase.
    Goes(Phase<P>),
    // To its end, with this reply.
    Ends(Reply<P>),
}

impl<P: Packed> Phase<P> {
    // The name of the next step, if there is one.
    fn next(&self) -> Option<StepName>
        ensures { result ≡ next_step self.now }
    {
        match self {
            Phase::Over => None,
            Phase::Begun | Phase::Looking | Phase::ReadingOn { .. } => Some(StepName::List),
            Phase::Spreading { .. } => Some(StepName::Wing),
            Phase::Settling { .. } => Some(StepName::Settle),
            Phase::Arriving { .. } => Some(StepName::Arrive),
            Phase::Revoking => Some(StepName::Revoke),
            Phase::Asking | Phase::Checking { .. } => Some(StepName::Revocation),
            Phase::Peeking { peek, .. } if peek.first.is_some() => Some(StepName::Wing),
            Phase::Peeking { .. } => Some(StepName::Block),
            Phase::Marking { .. } => Some(StepName::Mark),
            Phase::Reading { reading, .. } if reading.read < reading.width => {
                Some(if reading.first.is_some() {
                    StepName::Wing
                } else {
                    StepName::Slot
                })
            }
            Phase::Reading { reading, .. } if reading.winged => Some(StepName::Cache),
            Phase::Reading { .. } => Some(StepName::Wing),
            Phase::Spawning { append, .. } if append.empty => Some(StepName::Spawn),
            Phase::Spawning { .. } => Some(StepName::Comm),
            Phase::Waiting { .. } => Some(StepName::Arrival),
        }
    }
}

// Where a call of a rank stands.
#[derive(Drop)]
pub(crate) struct Way<P: Packed, A: Allocator> {
    /// The call, with its rank and its communicator.
    pub asked: Call<P>,
    /// What it does next.
    pub phase: Phase<P>,
    // What is prepared for a communicator that it makes.
    pub prepared: NewComm<A>,
}

impl<P: Packed, A: Allocator> Model for Way<P, A> {
    ghost use Rattle.ulfm_comm.specs.Phase.{UnderWay};

    ghost Value = { UnderWay P };

    ghost view = { λ a. record { asked = a.asked; phase = a.phase; prepared = a.prepared } };
}

/// A call of a rank that is under way: `Rank::begin` makes it, and `Rank::step` takes its steps. It is the rank's only call
/// until its reply.
#[derive(Drop)]
pub struct Doing<P: Packed, A: Allocator> {
    // What is asked, and how far it has come.
    pub(crate) way: Way<P, A>,
    // The steps that it has made.
    pub(crate) made: u32,
}

impl<P: Packed, A: Allocator> Model for Doing<P, A> {
    ghost use Rattle.ulfm_comm.specs.Counts.{Counted};

    ghost Value = { Counted P };

    ghost view = { λ a. record { way = a.way; made = a.made } };
}

impl<P: Packed, A: Allocator> Doing<P, A> {
    /// The name of the next step. There is none where the rank was refused for good before: then the reply comes without one.
    ///
    /// ```
    /// // The call asks whether a communicator is revoked.
    /// assert!(rt; doing.next() == Some(StepName::List));
    /// ```
    pub fn next(&self) -> Option<StepName>
        ensures { result ≡ next_step self.now.way.phase }
    {
        self.way.phase.next()
    }

    // Its next step counts, where one is named.
    #[inline(always)]
    pub(crate) fn count(&mut self)
        ensures way { self.new.way ≡ self.old.way }
        ensures made { self.new.made ≡ min (self.old.made + named_steps self.old.way.phase) 4294967295 }
    {
        let named = self.next().is_some() as u32;
        self.made = self.made.saturating_add(named);
    }

    /// What is asked.
    ///
    /// ```
    /// let asked = Call::IsRevoked {
    ///     rank: rank.number(),
    ///     comm: 0,
    /// };
    /// let doing = rank.begin(asked);
    /// assert!(rt; doing.asked() == asked);
    /// ```
    pub fn asked(&self) -> Call<P>
        ensures { result ≡ self.now.way.asked }
    {
        self.way.asked
    }

    /// Whether its look goes on: that it has not ended yet. The step after which it does has ended it.
    ///
    /// ```
    /// // The call asks whether a communicator is revoked.
    /// assert!(rt; doing.is_looking());
    /// ```
    pub fn is_looking(&self) -> bool
        ensures { result ≡ is_looking self.now.way.phase }
    {
        match self.way.phase {
            Phase::Begun | Phase::Looking => true,
            _ => false,
        }
    }

    /// Whether it is a barrier's poll that makes its last load next, that of the revocation: who is missing is found.
    ///
    /// ```
    /// // The call asks whether a communicator is revoked.
    /// assert!(rt; !doing.is_checking());
    /// ```
    pub fn is_checking(&self) -> bool
        ensures { result ≡ is_checking self.now.way.phase }
    {
        matches!(self.way.phase, Phase::Checking { .. })
    }
}
