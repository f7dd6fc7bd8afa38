// An agree as a future.
ghost use Rattle.std.specs.Prelude.{◌≡◌, true, false, IfOk, None, Some, Ok};
ghost use Rattle.ulfm_wait.specs.Members.{setting_of};
ghost use Rattle.futures.specs.Task.{Covers, Keeps};
ghost use Rattle.futures.specs.Poll.{IfReady, OnPending};
ghost use Rattle.ulfm_model.specs.declared.call.Call.TheVariants.{Agree};
ghost use Rattle.ulfm_words.specs.Steps.{view_of, IsView};
ghost use Rattle.ulfm_comm.specs.declared.calls.polled.Polled.TheVariants.{Pending as StillPending};
ghost use Rattle.ulfm_wait.specs.Turns.{FutureEnds, FutureGives, Pends, TakesAgreeTurn, member_of};
ghost use Rattle.ulfm_comm.specs.Local.{local, FitsView};
ghost use Rattle.ulfm_wait.specs.Waits.{AgreeIsTold, MemberWaits};

use futures::Future;
use futures::task::{Context, Poll};
use std::alloc::Allocator;
use std::marker::Model;
use ulfm_comm::{Polled, Rank, World};
use ulfm_laws::meld::Packed;
use ulfm_model::refusal::Refusal;
use ulfm_words::Words;

/// An agree as a future. When it is first polled it starts the agree; then, as at each later poll of the future, it calls `Rank::poll`
/// once. Its output is the pass, the rank and the reply, which is never `Pending`; a refusal is that of the start or of the last poll.
///
/// Once its first poll was pending, the rank has contributed its flag. Others see that from then on, even if the future is dropped. A
/// pending future keeps the rank and the pass, and wakes the waker that it was polled with, so that an executor polls it again. One that is
/// polled after its output is pending too, and wakes that waker.
///
/// The first poll makes the atomic steps of `Rank::iagree` and `Rank::poll`, each later one those of `Rank::poll`. Before its first poll the
/// future makes none, and none after its output. It may be polled at any time. That it ever has an output isn't promised.
#[derive(Drop)]
pub struct AgreeFuture<'a, W: Words<P, A>, P: Packed, A: Allocator> {
    world: &'a World<W, P, A>,
    comm: u16,
    value: P,
    started: bool,
    // Until the output was given.
    held: Option<(W::Pass, Rank<P, A>)>,
}

impl<'a, W: Words<P, A>, P: Packed, A: Allocator> Model for AgreeFuture<'a, W, P, A> {
    ghost use Rattle.std.specs.Prelude.{IfSome, option_map};
    ghost use Rattle.ulfm_wait.specs.Turns.{AgreeState, FutureHolds, member_of};

    ghost Value = { AgreeState P };

    ghost view = { λ f. record {
      agree = record { comm = f.comm; value = f.value; started = f.started };
      held = option_map (λ s. member_of f.world.now s.1 (W.sight s.0)) f.held;
    } };

    ghost invariant = { λ f. IfSome f.held (λ s. FutureHolds P.meld P.pack (record { comm = f.comm; value = f.value; started = f.started })
        (member_of f.world.now s.1 (W.sight s.0))) };
}

impl<'a, W: Words<P, A>, P: Packed, A: Allocator + Copy> AgreeFuture<'a, W, P, A> {
    /// The future of an agree on a flag, by this rank and over this pass, which is of the world's words and has seen what the rank has.
    ///
    /// ```
    /// let (world, rank, pass) = member.into_parts();
    /// // Rank 1 of two was declared failed before.
    /// let value = FlagAnd { bits: 0b0110 };
    /// let future = AgreeFuture::new(&world, pass, rank, 0, value);
    /// let (_pass, _rank, reply) = block_on(&rt, future)?;
    /// let agreed = Polled::Agreed {
    ///     value,
    ///     failed: 1,
    ///     raised: true,
    /// };
    /// assert!(rt; reply == Ok(agreed));
    /// ```
    pub fn new(
        world: &'a World<W, P, A>,
        pass: W::Pass,
        rank: Rank<P, A>,
        comm: u16,
        value: P,
    ) -> AgreeFuture<'a, W, P, A>
        requires of { IsView P.meld (view_of P.pack world.now (W.sight pass)) }
        requires fits { FitsView P.meld (local rank.own (view_of P.pack world.now (W.sight pass))) }
        ensures fresh { result ≡ record {
          agree = record { comm = comm; value = value; started = false };
          held = Some (member_of world.now rank (W.sight pass));
        } }
        ensures may { ⟦<AgreeFuture<'a, W, P, A> as Future>⟧.can_poll result }
        ensures gives { (out : _) → ⟦<AgreeFuture<'a, W, P, A> as Future>⟧.gives result out
            → MemberWaits (setting_of P.meld P.pack W.alone) comm (Agree rank.own.number comm value) (member_of world.now rank (W.sight pass)) out.2
            (member_of world.now out.1 (W.sight out.0)) }
        ensures tells { (out : _) → ⟦<AgreeFuture<'a, W, P, A> as Future>⟧.gives result out
            → IfOk out.2 (AgreeIsTold P.meld comm value rank.own (view_of P.pack world.now (W.sight out.0))) }
    {
        AgreeFuture {
            world,
            comm,
            value,
            started: false,
            held: Some((pass, rank)),
        }
    }
}

impl<'a, W: Words<P, A>, P: Packed, A: Allocator + Copy> Future for AgreeFuture<'a, W, P, A> {
    type Output = (W::Pass, Rank<P, A>, Result<Polled<P>, Refusal>);

    ghost gives = { λ f out. FutureGives (setting_of P.meld P.pack W.alone) f out.2 out.1 (W.sight out.0) };

    fn poll(
        &mut self,
        cx: &mut Context<'_>,
    ) -> Poll<(W::Pass, Rank<P, A>, Result<Polled<P>, Refusal>)>
        ensures pends { OnPending result (Pends (setting_of P.meld P.pack W.alone) self.old self.new) }
        ensures ends { IfReady result (λ out. FutureEnds (setting_of P.meld P.pack W.alone) self.old out.2 out.1 (W.sight out.0) self.new) }
        ensures woken { OnPending result (cx.new.is_woken ≡ true) }
        ensures asleep { IfReady result (λ _. cx.new ≡ cx.old) }
        ensures value { IfReady result (⟦<AgreeFuture<'a, W, P, A> as Future>⟧.gives self.old) }
        ensures again { OnPending result (⟦<AgreeFuture<'a, W, P, A> as Future>⟧.can_poll self.new) }
        ensures same { OnPending result ((out : _) → ⟦<AgreeFuture<'a, W, P, A> as Future>⟧.gives self.new out
            → ⟦<AgreeFuture<'a, W, P, A> as Future>⟧.gives self.old out) }
        ensures registered { OnPending result (Covers cx.new (λ _. ⊥)) }
        ensures kept { Keeps cx.old cx.new }
    {
        let Some((mut pass, mut rank)) = self.held.take() else {
            return cx.yield_now();
        };
        let reply = step(
            self.world,
            &mut rank,
            &mut pass,
            self.comm,
            self.value,
            self.started,
        );
        if is_pending(&reply) {
            self.started = true;
            self.held = Some((pass, rank));
            return cx.yield_now();
        }
        Poll::Ready((pass, rank, reply))
    }
}

// Whether a poll's reply is that it is pending.
fn is_pending<P>(reply: &Result<Polled<P>, Refusal>) -> bool
    ensures yes { result ≡ true → reply.now ≡ Ok StillPending }
    ensures no { result ≡ false → reply.now ≡ Ok StillPending → ⊥ }
{
    match reply {
        Ok(reply) => match reply {
            Polled::Pending => true,
            _ => false,
        },
        Err(_) => false,
    }
}

// Starts the agree, if it isn't started, and polls once.
fn step<W: Words<P, A>, P: Packed, A: Allocator + Copy>(
    world: &World<W, P, A>,
    rank: &mut Rank<P, A>,
    pass: &mut W::Pass,
    comm: u16,
    value: P,
    started: bool,
) -> Result<Polled<P>, Refusal>
    requires of { IsView P.meld (view_of P.pack world.now (W.sight pass.old)) }
    requires fits { FitsView P.meld (local rank.old.own (view_of P.pack world.now (W.sight pass.old))) }
    ensures { TakesAgreeTurn (setting_of P.meld P.pack W.alone) (record { comm = comm; value = value; started = started })
        (member_of world.now rank.old (W.sight pass.old)) result (member_of world.now rank.new (W.sight pass.new)) }
{
    if started {
        return rank.poll(world, pass, comm);
    }
    match rank.iagree(world, pass, comm, value) {
        Ok(()) => rank.poll(world, pass, comm),
        Err(refusal) => Err(refusal),
    }
}
