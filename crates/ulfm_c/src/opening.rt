// How a world is opened, and its handles are filled in.
ghost use Rattle.std.specs.Prelude.{◌≡◌, ◌≢◌, ◌⊎◌, Some, IfErr, IfOk, length, map, pos};
ghost use Rattle.ulfm_book.specs.Rules.{IsFault};
ghost use Rattle.ulfm_c.specs.Opens.{fault_code as code_of_fault};
ghost use Rattle.ulfm_c.specs.Opens.{OpenFails, Opens, parties_in, parties_of};
ghost use Rattle.ulfm_c.specs.Replicas.{OpensReplica};
ghost use Rattle.ulfm_c.specs.declared.party.Party.TheVariants as holds;

use crate::code::{WRONG_COUNT, fault_code, refusal_code};
use crate::handle::Handle;
use crate::party::{Member, Outside, Party, Replica};
use std::alloc::{AllocError, Global};
use ulfm_book::BookWords;
use ulfm_laws::FlagAnd;
use ulfm_model::limits::OpenFault;
use ulfm_model::{Limits, Refusal};

// Opens a world of these limits, and fills in the handles. What they held before is given back.
pub(crate) fn open_in(
    alloc: Global,
    limits: Limits,
    outside: &mut Handle,
    handles: &mut [Handle],
) -> i32
    ensures opened { result ≡ pos 0 → Opens limits outside.new.party (parties_in handles.new) }
    ensures kept { result ≢ pos 0 → (outside.new ≡ outside.old) × (handles.new ≡ handles.old) }
    ensures fails { result ≢ pos 0 → OpenFails limits (length handles.old) result }
{
    if handles.len() != limits.ranks as usize {
        return WRONG_COUNT;
    }
    match open_parties(alloc, limits) {
        Ok((own, parties)) => {
            outside.hold(alloc, own);
            fill(alloc, handles, parties);
            0
        }
        Err(fault) => fault_code(fault),
    }
}

// Each party into the handle at its place.
fn fill(alloc: Global, handles: &mut [Handle], parties: Vec<Box<Party>>)
    requires { length handles.old ≡ length parties.items }
    ensures { parties_in handles.new ≡ map (λ b. Some b.value) parties.items }
{
    let mut left = parties.into_iter();
    for handle in handles.iter_mut() {
        if let Some(party) = left.next() {
            handle.hold(alloc, party);
        }
    }
}

// A new world's outside in a box, and each rank of it, in order.
fn open_parties(alloc: Global, limits: Limits) -> Result<(Box<Party>, Vec<Box<Party>>), OpenFault>
    ensures opened { IfOk result (λ o. Opens limits (Some o.0.value) (map (λ b. Some b.value) o.1.items)) }
    ensures fault { IfErr result (IsFault limits) }
{
    let words: BookWords<FlagAnd> = BookWords::open(alloc, limits)?;
    let (outside, members) = ulfm_wait::open(alloc, words)?;
    match boxed(alloc, outside, members) {
        Ok(parties) => Ok(parties),
        Err(AllocError) => Err(OpenFault::OutOfMemory),
    }
}

// The outside and the members in boxes, in order.
fn boxed(
    alloc: Global,
    outside: Outside,
    members: Vec<Member>,
) -> Result<(Box<Party>, Vec<Box<Party>>), AllocError>
    ensures outside { IfOk result (λ o. o.0.value ≡ holds.Outside outside) }
    ensures members { IfOk result (λ o. map (λ b. Some b.value) o.1.items ≡ parties_of members.items) }
{
    let outside = Box::new(alloc, Party::Outside(outside))?;
    let mut parties = Vec::with_capacity(alloc, members.len())?;
    for member in members {
        parties.push(Box::new(alloc, Party::Rank(member))?)?;
    }
    Ok((outside, parties))
}

// A replica of this rank, in a box.
pub(crate) fn open_replica(
    alloc: Global,
    limits: Limits,
    number: u16,
) -> Result<Box<Party>, OpenFault>
    ensures { IfOk result (λ b. OpensReplica limits number (Some b.value)) }
{
    let replica = Replica::open(alloc, limits, number)?;
    match Box::new(alloc, Party::Replica(replica)) {
        Ok(party) => Ok(party),
        Err(_) => Err(OpenFault::OutOfMemory),
    }
}

// Why no replica of this rank was opened.
pub(crate) fn no_replica_code(limits: Limits, number: u16, fault: OpenFault) -> i32
    ensures { (result ≡ pos 13) ⊎ (result ≡ code_of_fault fault) }
{
    if number >= limits.ranks && limits.check().is_ok() {
        return refusal_code(Refusal::NoSuchRank);
    }
    fault_code(fault)
}
