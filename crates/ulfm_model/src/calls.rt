// What a call starts.
ghost use Rattle.std.specs.Prelude.{◌≡◌};
ghost use Rattle.ulfm_model.specs.Answers.{traits_of};

use crate::call::{Call, Request};
use crate::held::HeldComm;
use std::alloc::Allocator;

/// The request that a call starts on a communicator.
pub(crate) fn started<P: Copy, A: Allocator>(x: &HeldComm<A>, asked: &Call<P>) -> Option<Request>
    ensures { result ≡ (traits_of asked.now).starts x.now }
{
    match *asked {
        Call::Agree { .. } => Some(Request::Agree {
            round: x.next_agreement,
        }),
        Call::Shrink { .. } => Some(Request::Shrink {
            round: x.next_agreement,
        }),
        Call::Barrier { .. } => Some(Request::Barrier {
            round: x.next_barrier,
        }),
        _ => None,
    }
}
