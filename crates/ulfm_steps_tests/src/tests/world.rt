// A world of three ranks, and the declaration of a rank of any world.
ghost use Rattle.std.specs.Prelude.{◌<◌};
ghost use Rattle.ulfm_words.specs.Steps.{view_of, IsView};

use std::alloc::Allocator;
use ulfm_laws::flag_and::FlagAnd;
use ulfm_laws::meld::Packed;
use ulfm_model::event::Caller;
use ulfm_model::limits::Limits;
use ulfm_steps::{Append, Appended, Item};
use ulfm_words::Words;

// Its ranks.
pub(crate) const GROUP: [u16; 3] = [0, 1, 2];

pub(crate) const THREE: Limits = Limits {
    ranks: 3,
    comms: 2,
    rounds: 4,
};

// Declares a rank.
pub(crate) fn declare<P: Packed, A: Allocator, W: Words<P, A>>(
    words: &W,
    pass: &mut W::Pass,
    rank: u16,
) -> Appended
    requires of { IsView P.meld (view_of P.pack (W.name words.now) (W.sight pass.old)) }
    requires there { rank < (W.name words.now).limits.ranks }
    ensures { IsView P.meld (view_of P.pack (W.name words.now) (W.sight pass.new)) }
{
    Append::new(Item::Failure { rank }, Caller::Outside).finish(words, pass)
}

// A flag of these bits.
pub(crate) fn flag(bits: u64) -> FlagAnd {
    FlagAnd { bits }
}
