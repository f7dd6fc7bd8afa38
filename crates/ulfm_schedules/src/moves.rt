//! What a rank's program does by itself, between its calls, and what becomes of the rank.
ghost use Rattle.std.specs.Prelude.{◌≡◌};
ghost use Rattle.ulfm_script.specs.Words.{rest_at};
ghost use Rattle.ulfm_schedules.specs.Programs.{most_moves, move_at};

use crate::program::{Op, Program, has_words};
use std::alloc::Allocator;

/// Whether a rank still runs, and else how it ended.
#[derive(Clone, Copy, Debug, PartialEq, Eq)]
pub enum Fate {
    /// It goes on, or waits.
    Runs,
    /// Its program has ended.
    Ended,
    /// It was refused, since it is declared failed.
    Out,
    /// It died.
    Died,
}

/// What became of a rank.
#[derive(Drop)]
pub struct Row<A: Allocator> {
    /// Whether it still runs, and else how it ended.
    pub fate: Fate,
    /// What it noted: replies and words of its own, each with a newline behind it.
    pub noted: Vec<u8, A>,
}

/// What a rank's program does at a place.
#[derive(Clone, Copy, Debug, PartialEq, Eq)]
pub enum Move {
    /// It calls, or declares somebody.
    Call,
    /// It goes on there.
    Go { to: u16 },
    /// It says the words of a text, and goes on there.
    Say { text: u16, to: u16 },
    /// It ends.
    End,
}

/// What a rank's program does at a place, where its last reply has this text.
pub fn move_at<A: Allocator>(
    program: &Program<A>,
    rank: u16,
    place: u16,
    last: Option<&[u8]>,
) -> Move
    ensures { result ≡ move_at program.now rank place (rest_at last.entry) }
{
    let next = place.saturating_add(1);
    match program.op(rank, place) {
        None | Some(Op::End) => Move::End,
        Some(Op::Call { .. }) | Some(Op::Declare { .. }) => Move::Call,
        Some(Op::Go { to }) => Move::Go { to },
        Some(Op::Say { text }) => Move::Say { text, to: next },
        Some(Op::If { text, to }) => {
            let holds = match last {
                Some(reply) => has_words(reply, program.text(text)),
                None => false,
            };
            Move::Go {
                to: if holds { to } else { next },
            }
        }
    }
}

/// So many moves at most lead from one call to the next. A program that makes more goes round for good.
pub fn most_moves<A: Allocator>(program: &Program<A>, rank: u16) -> u16
    ensures { result ≡ most_moves program.now rank }
{
    match program.ranks.get(usize::from(rank)) {
        Some(ops) => u16::try_from(ops.len())
            .unwrap_or(u16::MAX)
            .saturating_add(1),
        None => 0,
    }
}
