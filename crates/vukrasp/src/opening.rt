//! A world over words that threads share, its members and its outside.
ghost use Rattle.std.specs.Prelude.{IfErr, IfOk};
ghost use Rattle.ulfm_book.specs.Rules.{IsFault};
ghost use Rattle.vukrasp.specs.Worlds.{IsNewWorld};

use std::alloc::{Allocator, Global};
use ulfm_book::BookWords;
use ulfm_laws::{FlagAnd, Packed};
use ulfm_model::{Limits, OpenFault};

/// A rank of a world whose words threads share: all that the rank's thread needs. Its calls are those of `ulfm_wait::Member`. It contributes
/// flags of 64 bits, and takes memory from the global allocator, unless a program says otherwise.
pub type Member<P = FlagAnd, A = Global> = ulfm_wait::Member<BookWords<P, A>, P, A>;

/// The outside of such a world: the handle by which a failure detector declares ranks failed. Its calls are those of `ulfm_wait::Outside`.
pub type Outside<P = FlagAnd, A = Global> = ulfm_wait::Outside<BookWords<P, A>, P, A>;

/// Opens a world whose words threads share. It gives the world's outside, and a member for each rank, in order. Each has a pass (a local
/// view) of its own, which has seen nothing; whatever one does, the others' calls see. Nothing has happened in a new world: each rank holds
/// communicator 0, that of all ranks, and no other.
///
/// `OutOfRange` and `TooLarge` are the first fault that the limits have, found before any memory is asked for; `OutOfMemory` comes where the
/// limits have none and memory was refused. After an error there is no world.
///
/// A program says by the types which kind of contribution its ranks make, here flags under AND:
///
/// ```
/// let (mut outside, members): (Outside, Vec<Member>) = vukrasp::open(alloc, limits)?;
/// assert!(rt; members.len() == 2);
/// assert!(rt; outside.fail(1) == Ok(true));
/// ```
pub fn open<P: Packed, A: Allocator + Copy>(
    alloc: A,
    limits: Limits,
) -> Result<(Outside<P, A>, Vec<Member<P, A>, A>), OpenFault>
    ensures opened { IfOk result (λ o. IsNewWorld P.meld P.pack limits o.0 o.1.items) }
    ensures fault { IfErr result (IsFault limits) }
{
    let words: BookWords<P, A> = BookWords::open(alloc, limits)?;
    ulfm_wait::open(alloc, words)
}
