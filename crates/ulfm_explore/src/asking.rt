//! What an operation of a rank's program asks for, and the words of a trace's lines.
ghost use Rattle.std.specs.Prelude.{◌≡◌};
ghost use Rattle.ulfm_script.specs.Words.{rest_at};
ghost use Rattle.ulfm_explore.specs.Readings.{asked_by, calls_nobody, comm_at, declares, dies, is_caller, is_declarable, is_number, is_of_ranks, is_on, is_quiet, is_wait, made_in, runs, text_behind, waits_by};

use ulfm_laws::FlagAnd;
use ulfm_model::Call;
use ulfm_schedules::{Ask, Fate, May, Move, Op, Place};
use ulfm_script::words::{read_number, split_word};

/// Whether a rank goes on or waits.
pub(crate) fn runs(fate: Fate) -> bool
    ensures { result ≡ runs fate }
{
    match fate {
        Fate::Runs => true,
        Fate::Ended | Fate::Out | Fate::Died => false,
    }
}

/// The text behind a word, which may be missing.
pub(crate) fn text_behind(rest: Option<&[u8]>) -> &[u8]
    ensures { result.now ≡ text_behind (rest_at rest.entry) }
{
    match rest {
        Some(text) => text,
        None => b"",
    }
}

/// Whether a word is this number in decimal.
pub(crate) fn is_number(word: &[u8], number: u16) -> bool
    ensures { result ≡ is_number word.now number }
{
    match read_number(word) {
        Ok(found) => found == number,
        Err(_) => false,
    }
}

/// The communicator that a call is on.
fn comm_at(current: u16, on: Place) -> u16
    ensures { result ≡ comm_at current on }
{
    match on {
        Place::Given(comm) => comm,
        Place::Current => current,
    }
}

/// The call that an operation makes, if it makes one.
pub(crate) fn asked_by(rank: u16, current: u16, here: Option<Op>) -> Option<Call<FlagAnd>>
    ensures { result ≡ asked_by rank current here }
{
    match here {
        Some(Op::Call { ask, on, .. }) => Some(ask.call(rank, comm_at(current, on))),
        _ => None,
    }
}

/// Whether an operation declares this rank.
pub(crate) fn declares(here: Option<Op>, whom: &[u8]) -> bool
    ensures { result ≡ declares here whom.now }
{
    match here {
        Some(Op::Declare { rank, .. }) => is_number(whom, rank),
        _ => false,
    }
}

/// Whether an operation's reply is no part of the outcome.
pub(crate) fn is_quiet(here: Option<Op>) -> bool
    ensures { result ≡ is_quiet here }
{
    match here {
        Some(Op::Call { quiet, .. } | Op::Declare { quiet, .. }) => quiet,
        _ => true,
    }
}

/// Whether a call is polled until its reply isn't pending.
fn waits_by(ask: Ask) -> bool
    ensures { result ≡ waits_by ask }
{
    match ask {
        Ask::Wait => true,
        _ => false,
    }
}

/// Whether an operation waits.
pub(crate) fn is_wait(here: Option<Op>) -> bool
    ensures { result ≡ is_wait here }
{
    match here {
        Some(Op::Call { ask, .. }) => waits_by(ask),
        _ => false,
    }
}

/// Whether an operation makes no call, and doesn't end the program.
pub(crate) fn calls_nobody(here: Option<Op>) -> bool
    ensures { result ≡ calls_nobody here }
{
    match here {
        Some(Op::Go { .. } | Op::If { .. } | Op::Say { .. }) => true,
        _ => false,
    }
}

/// The communicator that a reply of a shrink names, and else this one.
pub(crate) fn made_in(reply: &[u8], comm: u16) -> u16
    ensures { result ≡ made_in reply.now comm }
{
    let (word, rest) = split_word(reply);
    if word != b"shrunk".as_slice() {
        return comm;
    }
    match read_number(split_word(text_behind(rest)).0) {
        Ok(made) => made,
        Err(_) => comm,
    }
}

/// Whether the outside may declare a rank.
pub(crate) fn is_declarable(may: May) -> bool
    ensures { result ≡ is_declarable may }
{
    match may {
        May::Stay => false,
        May::Die => true,
        May::Fail => true,
    }
}

/// Whether a rank that is declared makes no step any more.
pub(crate) fn dies(may: May) -> bool
    ensures { result ≡ dies may }
{
    match may {
        May::Stay => false,
        May::Die => true,
        May::Fail => false,
    }
}

/// Whether a caller is this rank.
pub(crate) fn is_caller(rank: u16, caller: Option<u8>) -> bool
    ensures { result ≡ is_caller rank caller }
{
    match caller {
        Some(number) => u16::from(number) == rank,
        None => false,
    }
}

/// Whether a caller is one of so many ranks.
pub(crate) fn is_of_ranks(ranks: u16, caller: Option<u8>) -> bool
    ensures { result ≡ is_of_ranks ranks caller }
{
    match caller {
        Some(number) => u16::from(number) < ranks,
        None => false,
    }
}

/// Whether a program goes on behind a move by itself.
pub(crate) fn is_on(next: Move) -> bool
    ensures { result ≡ is_on next }
{
    match next {
        Move::Call => false,
        Move::Go { .. } => true,
        Move::Say { .. } => true,
        Move::End => false,
    }
}
