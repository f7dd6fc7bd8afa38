// Polls of two members, one after the other.
ghost use Rattle.std.specs.Prelude.{◌≡◌, IsTrue};
ghost use Rattle.ulfm_words.specs.Steps.{Tells};
ghost use Rattle.ulfm_wait.specs.InTurn.{IsShort, PollsTold};
ghost use Rattle.ulfm_wait.specs.Members.{MemberPolls, view_in, setting_of};

use crate::member::Member;
use std::alloc::Allocator;
use ulfm_comm::Polled;
use ulfm_laws::meld::Packed;
use ulfm_model::refusal::Refusal;
use ulfm_words::OpenWords;

/// Polls the open request on a communicator through one member, and then through another of the same world. Before its poll the second
/// learns what the first has seen (`Member::told`, `learn`). Each poll is as `Rank::poll`.
///
/// Where both have an agree open in one round, and the first is answered, all blocks of the round are set: one or two pairs of words that say what
/// all its members contributed. So the second makes 5 steps at most, a load that finds no failure and two of each block, and one more for each
/// failure that its look finds. That needs words whose passes tell all that they have seen, as those of `ulfm_book`; plain words tell nothing.
///
/// ```
/// let value = FlagAnd { bits: 0b0110 };
/// first.iagree(0, value)?;
/// second.iagree(0, value)?;
/// let agreed = Polled::Agreed {
///     value,
///     failed: 0,
///     raised: false,
/// };
/// let polled = ulfm_wait::poll_in_turn(&mut first, &mut second, 0);
/// assert!(rt; polled == (Ok(agreed), Ok(agreed)));
/// // With two members a round has one block: a load of the list of failures, and two of that block.
/// assert!(rt; second.last_steps() == 3);
/// ```
pub fn poll_in_turn<W, P: Packed, A: Allocator + Copy>(
    first: &mut Member<W, P, A>,
    second: &mut Member<W, P, A>,
    comm: u16,
) -> (Result<Polled<P>, Refusal>, Result<Polled<P>, Refusal>)
where
    W: OpenWords<P, A>,
    requires { first.old.view.words ≡ second.old.view.words }
    ensures first { MemberPolls (setting_of P.meld P.pack W.alone) comm first.old result.0 first.new }
    ensures second { PollsTold (setting_of P.meld P.pack W.alone) (Tells W.tells_all (view_in P.pack first.new.view)) comm second.old result.1 second.new }
    ensures short { IsTrue W.tells_all → IsShort comm first.old result.0 second.old second.new }
{
    first.known_fit();
    let answer = first.poll(comm);
    second.learn(&first.told());
    second.known_fit();
    (answer, second.poll(comm))
}
