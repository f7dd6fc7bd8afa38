// How a rank is declared failed: by the outside, say a failure detector, and not by a call of any rank.
ghost use Rattle.ulfm_words.specs.Steps.{view_of, IsView};
ghost use Rattle.ulfm_comm.specs.Calls.{reply_of};
ghost use Rattle.ulfm_comm.specs.Fails.{Fails, declared};

use crate::world::World;
use std::alloc::Allocator;
use ulfm_laws::meld::Packed;
use ulfm_model::event::Caller;
use ulfm_model::refusal::Refusal;
use ulfm_steps::{Append, Appended, Item};
use ulfm_words::Words;

impl<W, P: Packed, A: Allocator + Copy> World<W, P, A>
where
    W: Words<P, A>,
{
    /// Declares a rank failed, for good, as the outside (a failure detector) and not as a call of any rank: true where this call declared
    /// it, false where it had been declared before. Where the world has N ranks, it makes 2N atomic steps at most.
    ///
    /// `NoSuchRank` where the world doesn't have the rank.
    ///
    /// ```
    /// assert!(rt; world.fail(&mut pass, 1) == Ok(true));
    /// assert!(rt; world.fail(&mut pass, 1) == Ok(false));
    /// assert!(rt; world.fail(&mut pass, 2) == Err(Refusal::NoSuchRank));
    /// ```
    pub fn fail(&self, pass: &mut W::Pass, rank: u16) -> Result<bool, Refusal>
        requires of { IsView P.meld (view_of P.pack self.now (W.sight pass.old)) }
        ensures { Fails P.meld W.alone rank (view_of P.pack self.now (W.sight pass.old)) (reply_of declared result)
            (view_of P.pack self.now (W.sight pass.new)) }
    {
        if rank >= self.words.limits().ranks {
            return Err(Refusal::NoSuchRank);
        }
        let append = Append::new(Item::Failure { rank }, Caller::Outside);
        match append.finish(&self.words, pass) {
            Appended::Won(_) => Ok(true),
            Appended::Found(_) => Ok(false),
            // A full list has each rank.
            Appended::Full => Ok(false),
        }
    }
}
