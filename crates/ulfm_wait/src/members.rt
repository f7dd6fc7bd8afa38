// The members of a new world.
ghost use Rattle.std.specs.Prelude.{◌≡◌, [], map, MatchResult, IfOk};
ghost use Rattle.std.specs.Arc.{arc_value};
ghost use Rattle.std.specs.List.{AllByRecursion};
ghost use Rattle.ulfm_model.specs.History.{first_ranks};
ghost use Rattle.ulfm_model.specs.Records.{Fits, new_record};
ghost use Rattle.ulfm_model.specs.declared.limits.OpenFault.TheVariants.{OutOfMemory};
ghost use Rattle.ulfm_comm.specs.Counts.{records_of};
ghost use Rattle.ulfm_wait.specs.{Members.{IsNewMember}, Outsides.{IsNewOutside}};

use crate::member::Member;
use crate::outside::Outside;
use std::alloc::{AllocError, Allocator};
use std::sync::Arc;
use ulfm_comm::{Rank, World};
use ulfm_laws::meld::Packed;
use ulfm_model::limits::OpenFault;
use ulfm_words::OpenWords;

/// Opens a world over new words. It gives the world's outside, by which a failure detector declares ranks, and a member for each rank, in
/// order. Each has a pass (a local view) of its own, which has seen nothing. It fails only where memory is refused.
///
/// ```
/// let words: PlainWords<FlagAnd> = PlainWords::open(limits)?;
/// let (mut outside, members) = ulfm_wait::open(alloc, words)?;
/// for member in &members {
///     assert!(rt; member.failures().is_empty());
/// }
/// assert!(rt; outside.fail(1) == Ok(true));
/// ```
pub fn open<W, P: Packed, A: Allocator + Copy>(
    alloc: A,
    words: W,
) -> Result<(Outside<W, P, A>, Vec<Member<W, P, A>, A>), OpenFault>
where
    W: OpenWords<P, A> + Drop,
    ensures outside { IfOk result (λ o. IsNewOutside P.meld P.pack (W.name words) o.0) }
    ensures members { IfOk result (λ o. AllByRecursion (IsNewMember P.meld P.pack (W.name words)) o.1.items) }
    ensures ranks { MatchResult result (λ o. map (λ m. m.own) o.1.items ≡ map (new_record (W.name words).limits) (first_ranks (W.name words).limits.ranks))
        (λ fault. fault ≡ OutOfMemory) }
{
    let (world, ranks) = World::open(alloc, words)?;
    match shared(alloc, world, ranks) {
        Ok(opened) => Ok(opened),
        Err(AllocError) => Err(OpenFault::OutOfMemory),
    }
}

// A new world, shared by its outside and its members.
fn shared<W, P: Packed, A: Allocator + Copy>(
    alloc: A,
    world: World<W, P, A>,
    ranks: Vec<Rank<P, A>, A>,
) -> Result<(Outside<W, P, A>, Vec<Member<W, P, A>, A>), AllocError>
where
    W: OpenWords<P, A> + Drop,
    requires fits { AllByRecursion (Fits P.meld world.limits []) (records_of ranks.items) }
    requires last { AllByRecursion (λ r. r.last ≡ 0) ranks.items }
    ensures outside { IfOk result (λ o. IsNewOutside P.meld P.pack world o.0) }
    ensures members { IfOk result (λ o. AllByRecursion (IsNewMember P.meld P.pack world) o.1.items) }
    ensures ranks { IfOk result (λ o. map (λ m. m.own) o.1.items ≡ records_of ranks.items) }
{
    let world = Arc::new(alloc, world)?;
    let members = members_of(alloc, &world, ranks)?;
    Ok((Outside::new(alloc, world)?, members))
}

// A member for each rank, in order.
fn members_of<W, P: Packed, A: Allocator + Copy>(
    alloc: A,
    world: &Arc<World<W, P, A>, A>,
    ranks: Vec<Rank<P, A>, A>,
) -> Result<Vec<Member<W, P, A>, A>, AllocError>
where
    W: OpenWords<P, A> + Drop,
    requires fits { AllByRecursion (Fits P.meld (arc_value world.now).limits []) (records_of ranks.items) }
    requires last { AllByRecursion (λ r. r.last ≡ 0) ranks.items }
    ensures members { IfOk result (λ all. AllByRecursion (IsNewMember P.meld P.pack (arc_value world.now)) all.items) }
    ensures ranks { IfOk result (λ all. map (λ m. m.own) all.items ≡ records_of ranks.items) }
{
    let mut all = Vec::with_capacity(alloc, ranks.len())?;
    for rank in ranks {
        let pass = world.pass(alloc)?;
        all.push(Member::new(Arc::try_clone(world)?, rank, pass))?;
    }
    Ok(all)
}
