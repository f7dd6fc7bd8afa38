// What is asked of the object: a call, and a round that its answer rests on.
ghost use Rattle.std.specs.Prelude.{◌≡◌, IfOk};
ghost use Rattle.ulfm_model.specs.History.{decision, is_decided};
ghost use Rattle.ulfm_model.specs.Walked.{decision_of};

use std::alloc::{AllocError, Allocator};
use ulfm_laws::meld::Meld;
use ulfm_model::call::Call;
use ulfm_model::decide::{Decided, decision, is_decided};
use ulfm_model::event::Entry;
use ulfm_model::held::HeldComm;
use ulfm_model::limits::Limits;
use ulfm_model::record::RankRecord;

/// A round of a communicator, as a history shows it.
#[derive(Drop)]
pub(crate) struct Round<'a, P: Copy, A: Allocator> {
    /// Where memory is taken from.
    pub(crate) alloc: A,
    /// The limits of the world.
    pub(crate) limits: Limits,
    /// What has happened.
    pub(crate) history: &'a [Entry<P>],
    /// The communicator.
    pub(crate) comm: u16,
    /// The number of the round, counted from 0.
    pub(crate) number: u16,
}

impl<'a, P: Meld, A: Allocator + Copy + Drop> Round<'a, P, A> {
    /// Whether it is decided, as a round of agreements.
    pub(crate) fn is_decided(&self) -> Result<bool, AllocError>
        ensures { IfOk result (λ decided. decided ≡ is_decided self.now.limits.ranks self.now.history.now self.now.comm self.now.number) }
    {
        is_decided(
            self.alloc,
            self.limits.ranks,
            self.history,
            self.comm,
            self.number,
        )
    }

    /// What it decides, as such.
    pub(crate) fn decision(&self) -> Result<Decided<P, A>, AllocError>
        ensures { IfOk result (λ made. decision_of made ≡ decision P.meld self.now.limits.ranks self.now.history.now self.now.comm self.now.number) }
    {
        decision(
            self.alloc,
            self.limits.ranks,
            self.history,
            self.comm,
            self.number,
        )
    }
}

/// A call of a rank, and what its answer is computed from.
#[derive(Drop)]
pub(crate) struct Asked<'a, P: Meld, A: Allocator> {
    /// Where memory is taken from.
    pub(crate) alloc: A,
    /// The limits of the world.
    pub(crate) limits: Limits,
    /// What has happened before.
    pub(crate) history: &'a [Entry<P>],
    /// What the rank holds.
    pub(crate) own: &'a RankRecord<A>,
    /// The call.
    pub(crate) call: &'a Call<P>,
}

impl<'a, P: Meld, A: Allocator + Copy + Drop> Asked<'a, P, A> {
    /// A round of a communicator that the rank holds, as a history shows it.
    pub(crate) fn round<'b>(
        &self,
        history: &'b [Entry<P>],
        x: &HeldComm<A>,
        number: u16,
    ) -> Round<'b, P, A>
        ensures limits { result.limits ≡ self.now.limits }
        ensures history { result.history.now ≡ history.now }
        ensures comm { result.comm ≡ x.now.comm }
        ensures number { result.number ≡ number }
    {
        Round {
            alloc: self.alloc,
            limits: self.limits,
            history,
            comm: x.comm,
            number,
        }
    }
}
