//! Context ids: those that a rank's communicators leave free, and the least of a mask.
ghost use Rattle.std.specs.Prelude.{◌≡◌, ◌<◌};
ghost use Rattle.ulfm_model.specs.Records.{IsLowestId, all_but, free_ids};

use crate::held::HeldComm;
use std::alloc::Allocator;
use ulfm_laws::meld::Meld;
use ulfm_laws::summary::CtxMask;

/// All context ids but one.
fn all_but(id: u8) -> CtxMask
    ensures { result ≡ all_but id }
{
    if id < CtxMask::COUNT {
        CtxMask {
            bits: u64::MAX - (1 << id),
        }
    } else {
        CtxMask { bits: 0 }
    }
}

/// The context ids that none of these communicators has; all where there are none. It takes no memory.
pub fn free_ids<A: Allocator>(held: &[HeldComm<A>]) -> CtxMask
    ensures { result ≡ free_ids held.now }
{
    let mut free = CtxMask::unit();
    for x in held {
        free = free.meld(&all_but(x.context));
    }
    free
}

/// The least id of a mask that isn't empty, 0 to 63.
pub fn lowest_id(mask: CtxMask) -> u8
    requires { 0 < mask.bits }
    ensures { IsLowestId mask.bits result }
{
    mask.bits.trailing_zeros() as u8
}
