// The members of a new world whose words threads share.
ghost use Rattle.std.specs.Prelude.{◌≡◌, IfOk};
ghost use Rattle.std.specs.List.{AllByRecursion};

use std::alloc::Global;
use std::test::Fail;
use ulfm_book::BookWords;
use ulfm_laws::{FlagAnd, Packed};
use ulfm_model::{Limits, OpenFault, Refusal};

/// A member that may go to a thread.
pub(crate) type Member<P> = ulfm_wait::Member<BookWords<P>, P, Global>;

/// Several of them, whose contributions are flags.
pub(crate) type Members = Vec<Member<FlagAnd>>;

/// The outside of such a world.
pub(crate) type Outside<P> = ulfm_wait::Outside<BookWords<P>, P, Global>;

/// A new world of four communicators and three rounds: its outside and its members.
pub(crate) fn open<P: Packed>(
    alloc: Global,
    ranks: u16,
) -> Result<(Outside<P>, Vec<Member<P>>), OpenFault>
    ensures { IfOk result (λ o. AllByRecursion (λ m. m.view.words ≡ o.0.words) o.1.items) }
{
    let limits = Limits {
        ranks,
        comms: 4,
        rounds: 3,
    };
    let words = BookWords::open(alloc, limits)?;
    let (outside, members) = ulfm_wait::open(alloc, words)?;
    Ok((outside, members))
}

/// Plays a scene sixteen times, since its threads may come in another order each time.
pub(crate) fn often<F: Fn() -> Result<(), Fail>>(scene: &F) -> Result<(), Fail>
    requires { F.IsAlwaysCallable scene.now }
{
    for _ in 0..16 {
        scene()?;
    }
    Ok(())
}

/// The failed group of all ranks.
pub(crate) fn failed_group<P: Packed>(
    alloc: Global,
    member: &mut Member<P>,
) -> Result<Vec<u16>, Refusal> {
    let mut found = Vec::new(alloc);
    member.get_failed(0, &mut found)?;
    Ok(found)
}

/// Declares each rank of so many failed, from the first: how many of them this call declared.
pub(crate) fn declare_all<P: Packed>(member: &mut Member<P>, ranks: u16) -> u16 {
    let mut wins: u16 = 0;
    for rank in 0..ranks {
        if member.fail(rank) == Ok(true) {
            wins = wins.saturating_add(1);
        }
    }
    wins
}
