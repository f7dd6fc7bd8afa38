// The machine that answers a script's calls by the sequential object, to be compared with that over words.
use crate::Object;
use std::alloc::{AllocError, Allocator};
use ulfm_laws::FlagAnd;
use ulfm_model::call::comm_of;
use ulfm_model::{Call, Limits, OpenFault, Reply};
use ulfm_script::Machine;

/// The sequential object: each answer walks the whole history, as the definitions do.
///
/// A call script over it, as [`ulfm_script::run_script`] runs one, writes the same bytes as one over words (`run_calls` of `ulfm_run`), the same faults come in the
/// same places, and what each of them leaves is the same. A script's time grows with the square of its length. It is there to be compared with.
#[derive(Drop)]
pub struct ObjectMachine<A: Allocator + Copy + Drop> {
    object: Object<FlagAnd, A>,
}

impl<A: Allocator + Copy + Drop> Machine<A> for ObjectMachine<A> {
    ghost state = { λ machine. machine.object };

    fn open(alloc: A, limits: Limits) -> Result<Self, AllocError> {
        match Object::open(alloc, limits) {
            Ok(object) => Ok(ObjectMachine { object }),
            Err(OpenFault::OutOfMemory) => Err(AllocError),
            Err(OpenFault::OutOfRange | OpenFault::TooLarge) => unreachable!(),
        }
    }

    fn apply(
        &mut self,
        call: &Call<FlagAnd>,
        group: &mut Vec<u16, A>,
    ) -> Result<Reply<FlagAnd>, AllocError> {
        let reply = self.object.apply(call)?;
        group.clear();
        match reply {
            Reply::FailedGroup { count } => {
                let failed = self.object.failed(comm_of(call))?;
                let count = failed.len().min(usize::from(count));
                group.extend_from_slice(&failed[..count])?;
            }
            Reply::Shrunk { comm, .. } => group.extend_from_slice(&self.object.members(comm)?)?,
            _ => {}
        }
        Ok(reply)
    }
}
