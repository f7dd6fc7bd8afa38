// A world of two ranks, of which examples have rank 0 and the outside.
ghost use Rattle.std.specs.Prelude.{◌≡◌, IfOk};

use std::alloc::Global;
use std::process::Abort;
use std::test::Fail;
use ulfm_laws::FlagAnd;
use ulfm_model::Limits;
use ulfm_words::PlainWords;

pub(crate) type Words = PlainWords<FlagAnd>;

pub(crate) type Member = ulfm_wait::Member<Words, FlagAnd, Global>;

pub(crate) type Outside = ulfm_wait::Outside<Words, FlagAnd, Global>;

/// Two ranks, one communicator to be made, four rounds.
pub(crate) const TWO: Limits = Limits {
    ranks: 2,
    comms: 2,
    rounds: 4,
};

/// The outside, and the member of rank 0.
pub(crate) fn two(rt: &impl Abort, alloc: Global) -> Result<(Outside, Member), Fail>
    ensures { IfOk result (λ o. o.1.view.words ≡ o.0.words) }
{
    let words: Words = PlainWords::open(TWO)?;
    let (outside, mut members) = ulfm_wait::open(alloc, words)?;
    assert!(rt; members.len() == 2);
    Ok((outside, members.swap_remove(0)))
}

/// The member of rank 0, where rank 1 was declared failed before.
pub(crate) fn left(rt: &impl Abort, alloc: Global) -> Result<Member, Fail> {
    let (_, mut member) = two(rt, alloc)?;
    member.fail(1)?;
    Ok(member)
}
