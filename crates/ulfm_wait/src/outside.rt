// The outside of a world, which declares ranks failed.
ghost use Rattle.std.specs.Prelude.{◌≡◌, IfOk};
ghost use Rattle.std.specs.Arc.{arc_value};
ghost use Rattle.ulfm_words.specs.Steps.{Learns, Tells};
ghost use Rattle.ulfm_wait.specs.{Members.{view_in}, Outsides.{IsNewOutside}};
ghost use Rattle.ulfm_comm.specs.Calls.{reply_of};
ghost use Rattle.ulfm_comm.specs.Fails.{Fails, declared};

use std::alloc::{AllocError, Allocator};
use std::marker::Model;
use std::sync::Arc;
use ulfm_comm::World;
use ulfm_laws::meld::Packed;
use ulfm_model::limits::Limits;
use ulfm_model::refusal::Refusal;
use ulfm_words::{OpenWords, Words};

/// The outside of a world: the handle by which a failure detector declares ranks failed. It has a pass (a local view) of its own, and may run
/// in a thread beside those of the members. In contracts it stands for its view: that pass, and the words that it is over.
#[derive(Drop)]
pub struct Outside<W, P: Packed, A: Allocator>
where
    W: Words<P, A>,
{
    world: Arc<World<W, P, A>, A>,
    pass: W::Pass,
}

impl<W, P: Packed, A: Allocator> Model for Outside<W, P, A>
where
    W: Words<P, A>,
{
    ghost use Rattle.std.specs.Arc.{arc_value};
    ghost use Rattle.ulfm_words.specs.Steps.{IsView, view_of};
    ghost use Rattle.ulfm_wait.specs.Members.{Viewing, viewing};

    ghost Value = { Viewing P };

    ghost view = { λ o. viewing (arc_value o.world) (W.sight o.pass) };

    ghost invariant = { λ o. IsView P.meld (view_of P.pack (arc_value o.world) (W.sight o.pass)) };
}

impl<W, P: Packed, A: Allocator> Outside<W, P, A>
where
    W: OpenWords<P, A>,
{
    /// An outside of this world, whose pass has seen nothing. It fails only where memory is refused.
    ///
    /// ```
    /// let (world, _, _) = member.into_parts();
    /// let mut detector = Outside::new(alloc, world)?;
    /// assert!(rt; detector.fail(1) == Ok(true));
    /// ```
    pub fn new(alloc: A, world: Arc<World<W, P, A>, A>) -> Result<Outside<W, P, A>, AllocError>
    where
        W: Drop,
        ensures { IfOk result (IsNewOutside P.meld P.pack (arc_value world)) }
    {
        let pass = world.pass(alloc)?;
        Ok(Outside { world, pass })
    }

    /// What its pass has seen, as a value that a member may `learn`. It makes no atomic step.
    ///
    /// ```
    /// outside.fail(1)?;
    /// member.learn(&outside.told());
    /// ```
    pub fn told(&self) -> W::Told
        ensures { Tells W.tells_all (view_in P.pack self.now) (W.heard result) }
    {
        self.world.told(&self.pass)
    }

    /// Takes in what a member told: from now on its pass has seen that too. It makes no atomic step.
    ///
    /// ```
    /// member.revoke(0)?;
    /// outside.learn(&member.told());
    /// ```
    pub fn learn(&mut self, told: &W::Told)
        requires { (W.heard told.now).name ≡ self.old.words }
        ensures words { self.new.words ≡ self.old.words }
        ensures learns { Learns P.meld W.alone (W.heard told.now) (view_in P.pack self.old) (view_in P.pack self.new) }
    {
        self.world.learn(&mut self.pass, told)
    }
}

impl<W, P: Packed, A: Allocator + Copy> Outside<W, P, A>
where
    W: Words<P, A>,
{
    /// The limits that the world was opened with. It makes no atomic step.
    ///
    /// ```
    /// assert!(rt; outside.limits().ranks == 2);
    /// ```
    pub fn limits(&self) -> Limits
        ensures { result ≡ self.now.words.limits }
    {
        self.world.limits()
    }

    /// Declares a rank failed, as `World::fail`.
    ///
    /// ```
    /// assert!(rt; outside.fail(1) == Ok(true));
    /// assert!(rt; outside.fail(1) == Ok(false));
    /// assert!(rt; outside.fail(2) == Err(Refusal::NoSuchRank));
    /// ```
    pub fn fail(&mut self, rank: u16) -> Result<bool, Refusal>
        ensures { Fails P.meld W.alone rank (view_in P.pack self.old) (reply_of declared result) (view_in P.pack self.new) }
    {
        self.world.fail(&mut self.pass, rank)
    }
}
