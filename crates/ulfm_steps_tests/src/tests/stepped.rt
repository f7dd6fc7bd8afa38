// The machines driven one step at a time, as by a caller who does something else in between.
ghost use Rattle.std.specs.Prelude.{◌≡◌, ◌<◌, ◌≤◌, vec_capacity};
ghost use Rattle.ulfm_model.specs.History.{failures, first_ranks};
ghost use Rattle.ulfm_words.specs.Steps.{view_of, IsView};
ghost use Rattle.ulfm_steps.specs.Marks.{MayMarkAll};

use crate::tests::counted::Counted;
use crate::tests::world::{GROUP, THREE};
use std::alloc::Allocator;
use std::test::Fail;
use ulfm_intruder::ReadRound;
use ulfm_laws::flag_and::FlagAnd;
use ulfm_laws::meld::Packed;
use ulfm_laws::summary::Summary;
use ulfm_model::event::Caller;
use ulfm_steps::{Append, Appended, Item, Look, MarkAll};
use ulfm_words::Words;

// Declares a rank.
fn declare<P: Packed, A: Allocator, W: Words<P, A>>(
    words: &W,
    pass: &mut W::Pass,
    rank: u16,
) -> Appended
    requires there { rank < (W.name words.now).limits.ranks }
    requires of { IsView P.meld (view_of P.pack (W.name words.now) (W.sight pass.old)) }
    ensures { IsView P.meld (view_of P.pack (W.name words.now) (W.sight pass.new)) }
{
    let mut append = Append::new(Item::Failure { rank }, Caller::Outside);
    loop {
        if let Some(end) = append.advance(words, pass, false) {
            return end;
        }
    }
}

// Finds the declared ranks.
fn look<P: Packed, A: Allocator, W: Words<P, A>, B: Allocator>(
    words: &W,
    pass: &mut W::Pass,
    found: &mut Vec<u16, B>,
)
    requires of { IsView P.meld (view_of P.pack (W.name words.now) (W.sight pass.old)) }
    requires room { (W.name words.now).limits.ranks ≤ vec_capacity found.old }
    ensures of { IsView P.meld (view_of P.pack (W.name words.now) (W.sight pass.new)) }
    ensures found { found.new.items ≡ failures (W.sight pass.new).seen }
    ensures room { vec_capacity found.old ≤ vec_capacity found.new }
{
    let mut look = Look::new(found);
    while !look.done {
        look.advance(words, pass, found, false);
    }
}

// Marks the declared ranks in the world's first round, in rank 0's name.
fn mark<P: Packed, A: Allocator, W: Words<P, A>>(
    words: &W,
    pass: &mut W::Pass,
    group: &[u16],
    declared: &[u16],
)
    requires of { IsView P.meld (view_of P.pack (W.name words.now) (W.sight pass.old)) }
    requires may { MayMarkAll (W.name words.now).limits (W.sight pass.old).seen 0 0 group.now declared.now }
    ensures { IsView P.meld (view_of P.pack (W.name words.now) (W.sight pass.new)) }
{
    let mut marking = MarkAll::new(0, 0, 0, group, declared);
    while marking.next < declared.len() {
        marking.advance(words, pass, group, declared, false);
    }
}

// Reads that round.
fn read<P: Packed, A: Allocator, W: Words<P, A>>(
    words: &W,
    pass: &mut W::Pass,
    group: &[u16],
) -> Option<Summary<P>>
    requires of { IsView P.meld (view_of P.pack (W.name words.now) (W.sight pass.old)) }
    requires group { group.now ≡ first_ranks (W.name words.now).limits.ranks }
    requires rounds { 0 < (W.name words.now).limits.rounds }
    ensures { IsView P.meld (view_of P.pack (W.name words.now) (W.sight pass.new)) }
{
    let mut reading = ReadRound::new(0, 0);
    while reading.read < group.len() {
        if !reading.advance(words, pass, group, false) {
            return None;
        }
    }
    Some(reading.all)
}

// Looks, and marks what the look found in the world's first round.
fn look_and_mark<P: Packed, A: Allocator, W: Words<P, A>, B: Allocator>(
    words: &W,
    pass: &mut W::Pass,
    group: &[u16],
    found: &mut Vec<u16, B>,
)
    requires of { IsView P.meld (view_of P.pack (W.name words.now) (W.sight pass.old)) }
    requires group { group.now ≡ first_ranks (W.name words.now).limits.ranks }
    requires rounds { 0 < (W.name words.now).limits.rounds }
    requires room { (W.name words.now).limits.ranks ≤ vec_capacity found.old }
    ensures { IsView P.meld (view_of P.pack (W.name words.now) (W.sight pass.new)) }
{
    look(words, pass, found);
    mark(words, pass, group, found);
}

#[test]
fn one_step_at_a_time(rt: HostRuntime) -> Result<(), Fail> {
    let words = Counted::<FlagAnd>::open(THREE)?;
    let mut pass = words.pass(rt.alloc())?;
    let mut found = Vec::with_capacity(rt.alloc(), 3)?;
    assert!(rt; declare(&words, &mut pass, 2) == Appended::Won(0));
    assert!(rt; declare(&words, &mut pass, 0) == Appended::Won(1));
    assert!(rt; declare(&words, &mut pass, 2) == Appended::Found(0));
    assert!(rt; declare(&words, &mut pass, 1) == Appended::Won(2));
    // At each place a load, and an exchange where it is empty.
    assert_eq!(rt; (pass.loads, pass.exchanges), (7, 3));
    assert!(rt; read(&words, &mut pass, &GROUP).is_none());
    assert_eq!(rt; (pass.loads, pass.exchanges), (8, 3));
    look_and_mark(&words, &mut pass, &GROUP, &mut found);
    assert_eq!(rt; found.as_slice(), [2, 0, 1].as_slice());
    assert_eq!(rt; (pass.loads, pass.exchanges), (11, 6));
    assert!(rt; read(&words, &mut pass, &GROUP).is_some());
    assert_eq!(rt; (pass.loads, pass.exchanges), (14, 6));
    Ok(())
}
