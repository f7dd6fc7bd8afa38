// Who is still missing in the round of an open request, so that whoever waits can tell for whom. No call of MPI's.
ghost use Rattle.std.specs.Prelude.{◌≡◌, ◌+◌, ◌<◌, ◌≤◌, [], false, Err, IfOk, OnErr, Option, is_some, length, vec_capacity};
ghost use Rattle.ulfm_model.specs.Records.{held_at};
ghost use Rattle.ulfm_model.specs.declared.contribution.Slot.{Slot};
ghost use Rattle.ulfm_model.specs.declared.refusal.Refusal.TheVariants.{OutOfMemory as NoMemory};
ghost use Rattle.ulfm_words.specs.{Blocks.{FindsSlot}, Places.{IsCell}};
ghost use Rattle.ulfm_words.specs.Steps.{view_of, IsView, Goes, limits_in, seen_in, steps_in};
ghost use Rattle.ulfm_steps.specs.Rounds.{IsRoundIn};
ghost use Rattle.ulfm_comm.specs.Local.{IsAt, local};
ghost use Rattle.ulfm_comm.specs.Misses.{AreMissing, EndsHeld, TellsMissing, has_come, round_in, size_held};

use crate::rank::Rank;
use crate::world::World;
use std::alloc::Allocator;
use ulfm_laws::meld::Packed;
use ulfm_model::call::Request;
use ulfm_model::refusal::Refusal;
use ulfm_words::{Found, Words, load_arrival, load_slot};

// Whether what a load of a member's place in an agreement round found says that the member is settled.
#[inline(always)]
fn is_settled<P: Packed>(found: Found<P>) -> bool
    ensures { (at : Option (Slot P)) → FindsSlot P.pack at found → result ≡ is_some at }
{
    match found {
        Found::Nothing => false,
        Found::Marked(_) => true,
        Found::First(_) => true,
    }
}

// A request that is open on a communicator.
#[derive(Clone, Copy)]
struct OpenRequest {
    comm: u16,
    request: Request,
}

impl OpenRequest {
    // Whether a member has come into its round, by one load of the member's place.
    #[inline(always)]
    fn load_come<P: Packed, A: Allocator, W: Words<P, A>>(
        self,
        words: &W,
        pass: &mut W::Pass,
        rank: u16,
    ) -> bool
        requires of { IsView P.meld (view_of P.pack (W.name words.now) (W.sight pass.old)) }
        requires within { IsCell (limits_in (view_of P.pack (W.name words.now) (W.sight pass.old))) self.comm (round_in self.request) rank }
        ensures goes { Goes P.meld W.alone false 1 (view_of P.pack (W.name words.now) (W.sight pass.old))
            (view_of P.pack (W.name words.now) (W.sight pass.new)) }
        ensures steps { steps_in (view_of P.pack (W.name words.now) (W.sight pass.new))
            ≡ steps_in (view_of P.pack (W.name words.now) (W.sight pass.old)) + 1 }
        ensures come { result ≡ has_come (seen_in (view_of P.pack (W.name words.now) (W.sight pass.new))) self.comm self.request rank }
    {
        let comm = self.comm;
        match self.request {
            Request::Agree { round } => is_settled(load_slot(words, pass, comm, round, rank)),
            Request::Shrink { round } => is_settled(load_slot(words, pass, comm, round, rank)),
            Request::Barrier { round } => load_arrival(words, pass, comm, round, rank),
        }
    }
}

// Puts those members into a vector whose place in the round of a request is empty. It has room for all.
fn put_missing<P: Packed, A: Allocator, W: Words<P, A>, B: Allocator>(
    words: &W,
    pass: &mut W::Pass,
    opened: OpenRequest,
    group: &[u16],
    found: &mut Vec<u16, B>,
)
    requires of { IsView P.meld (view_of P.pack (W.name words.now) (W.sight pass.old)) }
    requires round { IsRoundIn (view_of P.pack (W.name words.now) (W.sight pass.old)) opened.comm (round_in opened.request) group.now }
    requires empty { found.old.items ≡ [] }
    requires room { length group.now ≤ vec_capacity found.old }
    ensures goes { Goes P.meld W.alone false (length group.now) (view_of P.pack (W.name words.now) (W.sight pass.old))
        (view_of P.pack (W.name words.now) (W.sight pass.new)) }
    ensures steps { steps_in (view_of P.pack (W.name words.now) (W.sight pass.new))
        ≡ steps_in (view_of P.pack (W.name words.now) (W.sight pass.old)) + length group.now }
    ensures are { AreMissing opened.comm opened.request group.now (seen_in (view_of P.pack (W.name words.now) (W.sight pass.old)))
        (seen_in (view_of P.pack (W.name words.now) (W.sight pass.new))) found.new.items }
{
    for rank in group {
        if !opened.load_come(words, pass, *rank) {
            let _ = found.push(*rank);
        }
    }
}

impl<P: Packed, A: Allocator> Rank<P, A> {
    /// Puts the members who are missing in the round of the open request on a communicator into a vector, in the members' order, so that
    /// whoever waits can tell for whom. What the vector held is dropped. Of an agree or a shrink those are missing who have neither
    /// contributed nor were marked as left out; of a barrier those who haven't arrived. A member that was declared failed is among them
    /// until somebody's poll marks it. Each member's place is loaded once, in order: whoever is listed was missing when its place was
    /// loaded, and may have come since; whoever isn't has come.
    ///
    /// It is no call of the rank: it makes no look, `last_steps` doesn't count it, and what the rank keeps is as it was. It makes n
    /// steps, where the communicator has n members, and none where it is refused.
    ///
    /// `NoSuchComm` where the rank doesn't hold the communicator, `Idle` where no request is open on it, `OutOfMemory` where the vector
    /// has less room than the communicator has members and its growth is refused. After a refusal the vector is as it was. A rank that
    /// is declared failed is answered like any other.
    ///
    /// ```
    /// rank.ibarrier(&world, &mut pass, 0)?;
    /// let mut found = Vec::new(alloc);
    /// rank.missing(&world, &mut pass, 0, &mut found)?;
    /// assert_eq!(rt; found.as_slice(), [1].as_slice());
    /// ```
    #[inline(never)]
    pub fn missing<W: Words<P, A>, B: Allocator>(
        &self,
        world: &World<W, P, A>,
        pass: &mut W::Pass,
        comm: u16,
        found: &mut Vec<u16, B>,
    ) -> Result<(), Refusal>
        requires { IsAt P.meld (local self.now.own (view_of P.pack world.now (W.sight pass.old))) }
        ensures ends { EndsHeld (held_at self.now.own comm) result }
        ensures tells { IfOk result (λ _. TellsMissing P.meld W.alone self.now.own comm (view_of P.pack world.now (W.sight pass.old))
            (view_of P.pack world.now (W.sight pass.new)) found.new.items) }
        ensures kept { OnErr result ((found.new.items ≡ found.old.items) × (W.sight pass.new ≡ W.sight pass.old)) }
        ensures memory { result ≡ Err NoMemory → vec_capacity found.old < size_held (held_at self.now.own comm) }
        ensures at { IsAt P.meld (local self.now.own (view_of P.pack world.now (W.sight pass.new))) }
    {
        let Some(x) = self.own.held(comm) else {
            return Err(Refusal::NoSuchComm);
        };
        let Some(request) = x.request else {
            return Err(Refusal::Idle);
        };
        let more = x.group.len().saturating_sub(found.len());
        if found.reserve(more).is_err() {
            return Err(Refusal::OutOfMemory);
        }
        found.clear();
        let opened = OpenRequest { comm, request };
        put_missing(&world.words, pass, opened, &x.group, found);
        Ok(())
    }
}
