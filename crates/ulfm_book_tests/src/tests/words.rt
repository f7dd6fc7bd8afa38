// Shared words: on threads of their own, and in one hand.
ghost use Rattle.std.specs.Prelude.{◌≡◌, ◌<◌};
ghost use Rattle.ulfm_model.specs.Words.{word_at};
ghost use Rattle.ulfm_model.specs.declared.place.Place.TheVariants.{List as ListAt, Revoked as RevokedAt};
ghost use Rattle.ulfm_words.specs.Steps.{view_of, IsView};

use linked_list_allocator::LocalHeap;
use std::alloc::Global;
use std::mem::size_of;
use std::test::Fail;
use std::thread::{Threads, join};
use ulfm_book::{BookPass, BookTold, BookWords};
use ulfm_laws::{FlagAnd, Packed};
use ulfm_model::{Caller, Limits, OpenFault, Place};
use ulfm_words::{OpenWords, Step, Words};

const FIRST: Place = Place::List { index: 0 };

const WORLD: Place = Place::Revoked { comm: 0 };

/// How many words the largest world of 1,024 ranks has: its failures, two of its communicator, three of each rank's rounds, and two for
/// each of the two blocks of each round.
const LARGEST: usize = 6_297_598;

/// Limits of one communicator.
pub(crate) fn limits(ranks: u16, rounds: u16) -> Limits
    ensures { result ≡ record { ranks = ranks; comms = 1; rounds = rounds } }
{
    Limits {
        ranks,
        comms: 1,
        rounds,
    }
}

/// Declares a rank in the first entry of the list of failures.
fn declare<P: Packed>(words: &BookWords<P>, pass: &mut BookPass<P>, rank: u16) -> Result<(), u64>
    requires of { IsView P.meld (view_of P.pack words.now pass.old) }
    requires rank { rank < words.now.limits.ranks }
    ensures of { IsView P.meld (view_of P.pack words.now pass.new) }
    ensures set { 0 < word_at P.pack pass.new.seen (ListAt 0) }
{
    let step = Step {
        place: FIRST,
        word: u64::from(rank) + 1,
        half: 0,
        by: Caller::Outside,
    };
    words.set_once(pass, step)
}

/// Revokes the world's communicator.
pub(crate) fn revoke<P: Packed>(
    words: &BookWords<P>,
    pass: &mut BookPass<P>,
    rank: u16,
) -> Result<(), u64>
    requires of { IsView P.meld (view_of P.pack words.now pass.old) }
    ensures of { IsView P.meld (view_of P.pack words.now pass.new) }
    ensures set { 0 < word_at P.pack pass.new.seen (RevokedAt 0) }
{
    let step = Step {
        place: WORLD,
        word: 1,
        half: 0,
        by: Caller::Rank(rank),
    };
    words.set_once(pass, step)
}

/// One thread declares a rank and ends. Another, which was told nothing, loads the word afterwards.
fn declare_then_load<P: Packed + Send, R: Threads>(
    rt: &R,
    words: &BookWords<P>,
    writer: BookPass<P>,
    reader: BookPass<P>,
    rank: u16,
) -> u64
    requires writer { IsView P.meld (view_of P.pack words.now writer) }
    requires reader { IsView P.meld (view_of P.pack words.now reader) }
    requires rank { rank < words.now.limits.ranks }
{
    let (_, _) = join(
        rt,
        move || -> bool
            requires { IsView P.meld (view_of P.pack words.now writer) × (rank < words.now.limits.ranks) }
        {
            let mut pass = writer;
            declare(words, &mut pass, rank).is_ok()
        },
        || (),
    );
    let (word, _) = join(
        rt,
        move || -> u64
            requires { IsView P.meld (view_of P.pack words.now reader) × (0 < words.now.limits.ranks) }
        {
            let mut pass = reader;
            words.load(&mut pass, FIRST)
        },
        || (),
    );
    word
}

/// One thread declares a rank while another revokes the world. Who learns what both saw loads both words.
fn learn_of_both<P: Packed + Send, R: Threads>(
    rt: &R,
    words: &BookWords<P>,
    one: BookPass<P>,
    two: BookPass<P>,
    mut learner: BookPass<P>,
    rank: u16,
) -> (u64, u64)
    requires one { IsView P.meld (view_of P.pack words.now one) }
    requires two { IsView P.meld (view_of P.pack words.now two) }
    requires learner { IsView P.meld (view_of P.pack words.now learner) }
    requires rank { rank < words.now.limits.ranks }
    ensures { (0 < result.0) × (0 < result.1) }
{
    let (first, second) = join(
        rt,
        move || -> BookTold<P>
            requires { IsView P.meld (view_of P.pack words.now one) × (rank < words.now.limits.ranks) }
            ensures { (result.name ≡ words.entry.now) × (0 < word_at P.pack result.seen (ListAt 0)) }
        {
            let mut pass = one;
            let _ = declare(words, &mut pass, rank);
            words.told(&pass)
        },
        move || -> BookTold<P>
            requires { IsView P.meld (view_of P.pack words.now two) }
            ensures { (result.name ≡ words.entry.now) × (0 < word_at P.pack result.seen (RevokedAt 0)) }
        {
            let mut pass = two;
            let _ = revoke(words, &mut pass, rank);
            words.told(&pass)
        },
    );
    words.learn(&mut learner, &first);
    words.learn(&mut learner, &second);
    (
        words.load(&mut learner, FIRST),
        words.load(&mut learner, WORLD),
    )
}

#[test]
fn read_back(rt: HostRuntime) -> Result<(), Fail> {
    let alloc = rt.alloc();
    let words: BookWords<FlagAnd> = BookWords::open(alloc, limits(4, 1))?;
    let word = declare_then_load(&rt, &words, words.pass(alloc)?, words.pass(alloc)?, 3);
    assert_eq!(rt; word, 4);
    Ok(())
}

#[test]
fn learned(rt: HostRuntime) -> Result<(), Fail> {
    let alloc = rt.alloc();
    let words: BookWords<FlagAnd> = BookWords::open(alloc, limits(4, 1))?;
    let (one, two, learner) = (words.pass(alloc)?, words.pass(alloc)?, words.pass(alloc)?);
    let both = learn_of_both(&rt, &words, one, two, learner, 3);
    assert_eq!(rt; both, (4, 1));
    Ok(())
}

#[test]
fn set_once(rt: HostRuntime) -> Result<(), Fail> {
    let alloc = rt.alloc();
    let words: BookWords<FlagAnd> = BookWords::open(alloc, limits(4, 1))?;
    let mut pass = words.pass(alloc)?;
    assert_eq!(rt; words.limits(), limits(4, 1));
    assert_eq!(rt; words.load(&mut pass, FIRST), 0);
    assert_eq!(rt; declare(&words, &mut pass, 3), Ok(()));
    assert_eq!(rt; declare(&words, &mut pass, 2), Err(4));
    assert_eq!(rt; words.load(&mut pass, FIRST), 4);
    Ok(())
}

/// Rounds that are out of their range are told first, also where the world would be too large as well.
#[test]
fn faults_in_order(rt: HostRuntime) -> Result<(), Fail> {
    let too_many = limits(1024, 4097);
    let too_large = limits(1024, 2048);
    for (limits, fault) in [
        (too_many, OpenFault::OutOfRange),
        (too_large, OpenFault::TooLarge),
    ] {
        let opened: Result<BookWords<FlagAnd>, OpenFault> = BookWords::open(rt.alloc(), limits);
        assert_eq!(rt; opened.err(), Some(fault));
    }
    let heap = LocalHeap::new(rt.alloc(), 64)?;
    let opened: Result<BookWords<FlagAnd, &LocalHeap>, OpenFault> = BookWords::open(
        &heap,
        limits(4, 1),
    );
    assert_eq!(rt; opened.err(), Some(OpenFault::OutOfMemory));
    Ok(())
}

#[test]
fn largest_world(rt: HostRuntime) -> Result<(), Fail> {
    let heap = LocalHeap::new(rt.alloc(), 8 * LARGEST)?;
    let words: BookWords<FlagAnd, &LocalHeap> = BookWords::open(&heap, limits(1024, 2047))?;
    let mut pass = words.pass(&heap)?;
    let last = Place::Arrival {
        comm: 0,
        round: 2046,
        rank: 1023,
    };
    assert_eq!(rt; words.load(&mut pass, last), 0);
    // All that the words and the pass took is eight bytes a word.
    assert_eq!(rt; heap.used(), 8 * LARGEST);
    // A pass has the count of its steps, and nothing else.
    assert_eq!(rt; size_of::<BookPass<FlagAnd>>(), 8);
    Ok(())
}
