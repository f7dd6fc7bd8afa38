// An example of opening a world over shared words.

use crate::tests::open::TWO;
use std::test::Fail;
use vukrasp::{Member, Outside};

#[test]
fn opening_open(rt: HostRuntime) -> Result<(), Fail> {
    let (alloc, limits) = (rt.alloc(), TWO);

    let (mut outside, members): (Outside, Vec<Member>) = vukrasp::open(alloc, limits)?;
    assert!(rt; members.len() == 2);
    assert!(rt; outside.fail(1) == Ok(true));

    Ok(())
}
