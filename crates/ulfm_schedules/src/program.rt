//! What stands in a program of ranks.
ghost use Rattle.std.specs.Prelude.{◌≡◌};
ghost use Rattle.ulfm_script.specs.Words.{rest_at};
ghost use Rattle.ulfm_schedules.specs.Programs.{call_of, may_at, op_at, text_at};
ghost use Rattle.ulfm_schedules.specs.Words.{begin_with, has_words, have, words_in, words_of};

use std::alloc::Allocator;
use ulfm_laws::FlagAnd;
use ulfm_model::{Call, Limits};
use ulfm_script::words::split_word;

/// Whether, and how, a rank may be declared failed from outside.
#[derive(Clone, Copy, Debug, PartialEq, Eq)]
pub enum May {
    /// It may not.
    Stay,
    /// At any moment or never, and from then on it makes no step.
    Die,
    /// At any moment or never, and it goes on until it is refused.
    Fail,
}

/// What a rank asks for by a call.
#[derive(Clone, Copy, Debug, PartialEq, Eq)]
pub enum Ask {
    GetFailed,
    /// So many failures are acknowledged, 0 to 9999.
    Ack(u16),
    /// This flag is contributed.
    Agree(FlagAnd),
    Shrink,
    Barrier,
    Poll,
    /// Polls until the reply isn't `pending`.
    Wait,
    Revoke,
    IsRevoked,
    Free,
}

impl Ask {
    /// The call of a rank on a communicator that asks for this; a wait asks by a poll.
    pub fn call(self, rank: u16, comm: u16) -> Call<FlagAnd>
        ensures { result ≡ call_of self rank comm }
    {
        match self {
            Ask::GetFailed => Call::GetFailed { rank, comm },
            Ask::Ack(count) => Call::Ack { rank, comm, count },
            Ask::Agree(value) => Call::Agree { rank, comm, value },
            Ask::Shrink => Call::Shrink { rank, comm },
            Ask::Barrier => Call::Barrier { rank, comm },
            Ask::Poll | Ask::Wait => Call::Poll { rank, comm },
            Ask::Revoke => Call::Revoke { rank, comm },
            Ask::IsRevoked => Call::IsRevoked { rank, comm },
            Ask::Free => Call::Free { rank, comm },
        }
    }
}

/// Which communicator a call is on.
#[derive(Clone, Copy, Debug, PartialEq, Eq)]
pub enum Place {
    /// That of this number, 0 to 255.
    Given(u16),
    /// The last one that the rank got from a shrink, and 0 before.
    Current,
}

/// One line of a rank's program. Jumps lead to a place in the rank's list of operations; one that is its length ends it.
#[derive(Clone, Copy, Debug, PartialEq, Eq)]
pub enum Op {
    /// A call; a quiet one's reply is no part of the outcome.
    Call { ask: Ask, on: Place, quiet: bool },
    /// The rank declares a rank, below the world's number of ranks.
    Declare { rank: u16, quiet: bool },
    /// The program goes on there.
    Go { to: u16 },
    /// The same, where the words of the text of this number stand in the last reply.
    If { text: u16, to: u16 },
    /// The words of the text of this number become part of the outcome.
    Say { text: u16 },
    /// The program ends.
    End,
}

/// What an outcome is looked for by.
#[derive(Clone, Copy, Debug, PartialEq, Eq)]
pub struct Find {
    /// The rank, below the world's number of ranks.
    pub rank: u16,
    /// The number of the text whose words one of its replies has, or that is its fate.
    pub text: u16,
}

/// A program for each rank, who may be declared, and what is asked of the outcomes.
#[derive(Drop)]
pub struct Program<A: Allocator> {
    /// The world's limits: at most 8 ranks, 8 communicators and 15 rounds.
    pub limits: Limits,
    /// By rank, whether it may be declared from outside.
    pub may: Vec<May, A>,
    /// At most so many ranks are declared from outside.
    pub most: u16,
    /// By rank, its operations, at most 1,000.
    pub ranks: Vec<Vec<Op, A>, A>,
    /// The words of `say`, `if` and `find` lines.
    pub texts: Vec<Vec<u8, A>, A>,
    /// Is there an outcome in which two of these ranks ended with different words?
    pub alike: Vec<u16, A>,
    /// Is there one in which one of these ranks is stuck?
    pub ended: Vec<u16, A>,
    /// Is there one in which all of these hold?
    pub find: Vec<Find, A>,
}

impl<A: Allocator> Program<A> {
    /// A rank's operation at a place; none behind its last one.
    pub fn op(&self, rank: u16, at: u16) -> Option<Op>
        ensures { result ≡ op_at self.now rank at }
    {
        let ops = self.ranks.get(usize::from(rank))?;
        ops.get(usize::from(at)).copied()
    }

    /// Whether, and how, a rank may be declared from outside.
    pub fn may_be_declared(&self, rank: u16) -> May
        ensures { result ≡ may_at self.now rank }
    {
        self.may
            .get(usize::from(rank))
            .copied()
            .unwrap_or(May::Stay)
    }

    /// The text of a number; an empty one where there is none.
    pub fn text(&self, number: u16) -> &[u8]
        ensures { result.now ≡ text_at self.now number }
    {
        match self.texts.get(usize::from(number)) {
            Some(text) => text.as_slice(),
            None => b"",
        }
    }
}

/// Whether a text begins with these words, of which `_` is any word.
#[tactic(auto, using(crate::proofs::WordLemmas::first_and_rest, crate::proofs::WordLemmas::shorter))]
fn begins_with(text: Option<&[u8]>, words: Option<&[u8]>) -> bool
    ensures { result ≡ begin_with (words_in (rest_at text.entry)) (words_in (rest_at words.entry)) }
{
    let Some(wanted) = words else {
        return true;
    };
    let Some(found) = text else {
        return false;
    };
    let (wanted_word, more) = split_word(wanted);
    let (word, behind) = split_word(found);
    if wanted_word != b"_".as_slice() && wanted_word != word {
        return false;
    }
    begins_with(behind, more)
}

/// Whether words stand together somewhere in a text, if there is one.
#[tactic(auto, using(crate::proofs::WordLemmas::first_and_rest, crate::proofs::WordLemmas::shorter))]
fn stand_in(text: Option<&[u8]>, words: &[u8]) -> bool
    ensures { result ≡ have (words_in (rest_at text.entry)) (words_of words.now) }
{
    let Some(left) = text else {
        return false;
    };
    if begins_with(Some(left), Some(words)) {
        return true;
    }
    let (_, behind) = split_word(left);
    stand_in(behind, words)
}

/// Whether words stand together somewhere in a text, of which `_` is any word.
///
/// `failed 1` stands in `agreed 0000000f failed 1 raised`, and so does `failed _ raised`.
pub fn has_words(text: &[u8], words: &[u8]) -> bool
    ensures { result ≡ has_words text.now words.now }
{
    stand_in(Some(text), words)
}
