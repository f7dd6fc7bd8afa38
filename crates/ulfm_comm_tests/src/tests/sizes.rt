// How many bytes a rank takes, as docs/GUIDE.md tells.

use std::alloc::Global;
use std::mem::size_of;
use std::process::Abort;
use std::test::Fail;
use ulfm_comm::Rank;
use ulfm_laws::flag_and::FlagAnd;
use ulfm_model::held::HeldComm;

/// A rank has 80 bytes of its own. Room for a communicator takes 56: for four 224, and for 64 3,584. Its list of failures has 2 bytes for each rank.
#[test]
fn bytes_of_a_rank(rt: HostRuntime) -> Result<(), Fail> {
    assert_eq!(rt; size_of::<Rank<FlagAnd, Global>>(), 80);
    assert_eq!(rt; size_of::<HeldComm<Global>>(), 56);
    Ok(())
}
