//! The lines that a race prints: one for each round, and one for the shrink.
ghost use Rattle.std.specs.Prelude.{◌≡◌, ◌++◌, IfOk, OnOk, map, option_map};
ghost use Rattle.ulfm_filters.specs.RaceLines.{as_lists, race_text, reply_at, round_text, shown_text, standing};

use itoa::Buffer;
use std::alloc::{AllocError, Allocator};
use ulfm_laws::flag_and::FlagAnd;
use ulfm_model::reply::Reply;
use ulfm_script::{LastGroup, print_reply};

/// The lines of a race of so many rounds, by what its ranks were answered: for each round `round k` and the reply that the first rank
/// holds that has one, or `nobody`; and then the communicator that the shrink made, or `shrink nobody`.
///
/// `replies` has for each rank its replies in order, one for each round and then the shrink's, or a beginning of these that ends with a
/// refusal, which isn't printed. `group` are the members of the communicator that was made, in order. Only memory can be refused.
///
/// Two ranks that agreed once, with all they hold: `round 0 agreed fffffffc failed 0 clean` and `shrunk 1 context 1 members 0 1`.
pub fn race_lines<A: Allocator + Copy>(
    alloc: A,
    rounds: u16,
    replies: &[Vec<Reply<FlagAnd>>],
    group: &[u16],
) -> Result<Vec<u8, A>, AllocError>
    ensures { IfOk result (λ text. text.items ≡ race_text rounds (as_lists replies.now) group.now) }
{
    let mut text = Vec::new(alloc);
    let mut last = LastGroup::new(alloc);
    for round in 0..rounds {
        print_round(&mut text, round, replies, &mut last)?;
    }
    print_or(
        &mut text,
        reply_at(rounds, replies),
        b"shrink nobody",
        group,
        &mut last,
    )?;
    text.push(b'\n')?;
    Ok(text)
}

/// The line of one round.
fn print_round<A: Allocator>(
    text: &mut Vec<u8, A>,
    round: u16,
    replies: &[Vec<Reply<FlagAnd>>],
    last: &mut LastGroup<A>,
) -> Result<(), AllocError>
    ensures { OnOk result (text.new.items ≡ text.old.items ++ round_text round (as_lists replies.now)) }
{
    text.extend_from_slice(b"round ")?;
    let mut buffer = Buffer::new();
    text.extend_from_slice(buffer.format(round).as_bytes())?;
    text.push(b' ')?;
    print_or(text, reply_at(round, replies), b"nobody", &[], last)?;
    text.push(b'\n')?;
    Ok(())
}

/// A reply, or this text where there is none.
fn print_or<A: Allocator>(
    text: &mut Vec<u8, A>,
    reply: Option<Reply<FlagAnd>>,
    nobody: &[u8],
    group: &[u16],
    last: &mut LastGroup<A>,
) -> Result<(), AllocError>
    ensures { OnOk result (text.new.items ≡ text.old.items ++ shown_text nobody.now group.now reply) }
{
    match reply {
        Some(reply) => print_reply(text, &reply, group, last),
        None => text.extend_from_slice(nobody),
    }
}

/// The reply at this place of the first rank that has one there which isn't a refusal.
fn reply_at(place: u16, replies: &[Vec<Reply<FlagAnd>>]) -> Option<Reply<FlagAnd>>
    ensures { result ≡ reply_at place (as_lists replies.now) }
{
    for said in replies {
        if let Some(reply) = standing(said.get(usize::from(place))) {
            return Some(reply);
        }
    }
    None
}

/// A reply, unless it is a refusal.
fn standing(reply: Option<&Reply<FlagAnd>>) -> Option<Reply<FlagAnd>>
    ensures { result ≡ standing (option_map (λ r. r.now) reply.entry) }
{
    match reply {
        Some(Reply::Refused(_)) | None => None,
        Some(reply) => Some(*reply),
    }
}
