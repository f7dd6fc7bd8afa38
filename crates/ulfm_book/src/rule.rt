//! The rule that ties shared words to their log at every moment, and what each step may do by it. Both are for the
//! proofs alone.
ghost use Rattle.ulfm_book.specs.Rules.{Looks, LooksBlock, LooksWing, Exchanges, AddsBlock, AddsWing};

use crate::line::Line;
use logbook::{Gain, Opening, Plain, Play, Rule};
use std::marker::PhantomData;
use ulfm_laws::meld::Packed;
use ulfm_model::block::{Beside, Block, Wing};
use ulfm_model::limits::Limits;
use ulfm_model::place::Place;
use ulfm_words::Step;

/// The one rule over all words, which holds between any two steps of any threads.
pub(crate) struct Law<P: Packed> {
    of: PhantomData<P>,
}

impl<P: Packed> Rule<Line<P>, u64> for Law<P> {
    ghost use Rattle.std.specs.Prelude.{[]};
    ghost use base.Fml.{ftrue};
    ghost use Rattle.ulfm_book.specs.Rules.{Represents};

    ghost holds = { λ cells log. Represents P.meld P.pack cells log };

    ghost first = { [] };

    ghost hinted = { λ n log. Unit {0} };

    ghost shows = { λ log. [] };

    ghost keeps = { λ names log. ftrue };

    ghost moves = { λ ask before after answer. Unit {0} };
}

/// Callers trade nothing with the words.
pub(crate) struct Nothing;

impl<P: Packed> Gain<Line<P>, u64> for Nothing {
    ghost use base.Fml.{ftrue};

    ghost after = { λ names about answer. ftrue };
}

/// New words: the log has the limits alone.
pub(crate) struct Opens;

impl<P: Packed> Opening<Limits, Line<P>> for Opens {
    ghost use Rattle.ulfm_book.specs.Logs.{log_of};

    ghost log = { λ count limits. log_of limits };
}

/// A load of a word at such a site: at a place, a block or a wing.
pub(crate) struct Load<P: Packed, At> {
    of: PhantomData<(P, At)>,
}

/// An exchange of such a word, which adds a line where it wins.
pub(crate) struct Exchange<P: Packed, At> {
    of: PhantomData<(P, At)>,
}

impl<P: Packed> Play<Line<P>, u64> for Load<P, Place> {
    ghost then = { Looks P.meld P.pack };
}

/// An exchange at a place adds an event.
impl<P: Packed> Play<Line<P>, u64> for Exchange<P, Place> {
    ghost then = { Exchanges P.meld P.pack };
}

/// It asks for the line of its step's event.
impl<P: Packed> Plain<Step, Line<P>, u64> for Exchange<P, Place> {
    ghost use Rattle.std.specs.Prelude.{None};
    ghost use Rattle.ulfm_book.specs.Logs.{line_of};
    ghost use Rattle.ulfm_words.specs.Entries.{entry_of};

    ghost ask = { λ s. line_of (entry_of P.unpack s) };

    ghost state = { λ s. None };
}

impl<P: Packed> Play<Line<P>, u64> for Load<P, Block> {
    ghost then = { LooksBlock P.meld P.pack };
}

/// An exchange of a block's word adds the block.
impl<P: Packed> Play<Line<P>, u64> for Exchange<P, Block> {
    ghost then = { AddsBlock P.meld };
}

impl<P: Packed> Play<Line<P>, u64> for Load<P, Wing> {
    ghost then = { LooksWing P.meld P.pack };
}

/// An exchange of a wing adds the wing.
impl<P: Packed> Play<Line<P>, u64> for Exchange<P, Wing> {
    ghost then = { AddsWing P.meld };
}

/// Beside the words of events an exchange asks for the line of what it sets.
impl<P: Packed, At> Plain<Beside, Line<P>, u64> for Exchange<P, At>
where
    Exchange<P, At>: Play<Line<P>, u64>,
{
    ghost use Rattle.std.specs.Prelude.{None};
    ghost use Rattle.ulfm_book.specs.declared.line.Line.TheVariants.{Kept};

    ghost ask = { λ x. Kept x };

    ghost state = { λ x. None };
}
