// Agrees over the contributions beside flags under AND: two ranks, and what theirs come to.

use crate::tests::open::TWO;
use std::alloc::Global;
use std::process::Abort;
use std::test::Fail;
use vukrasp::{FlagOr, Greatest, Least, Packed, Polled};

/// Two ranks contribute these values, and each gets both combined.
fn agree_on<P: Packed + PartialEq>(
    rt: &impl Abort,
    alloc: Global,
    values: (P, P),
    both: P,
) -> Result<(), Fail> {
    let (_, mut members) = vukrasp::open(alloc, TWO)?;
    assert!(rt; members.len() == 2);
    let mut second = members.swap_remove(1);
    let mut first = members.swap_remove(0);
    first.iagree(0, values.0)?;
    second.iagree(0, values.1)?;
    let agreed = Polled::Agreed {
        value: both,
        failed: 0,
        raised: false,
    };
    assert!(rt; first.poll(0) == Ok(agreed));
    assert!(rt; second.poll(0) == Ok(agreed));
    Ok(())
}

#[test]
fn flags_are_united(rt: HostRuntime) -> Result<(), Fail> {
    let values = (FlagOr { bits: 0b0101 }, FlagOr { bits: 0b0110 });
    agree_on(&rt, rt.alloc(), values, FlagOr { bits: 0b0111 })
}

#[test]
fn the_greatest_is_agreed_on(rt: HostRuntime) -> Result<(), Fail> {
    let values = (Greatest { value: 3 }, Greatest { value: u64::MAX });
    agree_on(&rt, rt.alloc(), values, Greatest { value: u64::MAX })
}

#[test]
fn the_least_is_agreed_on(rt: HostRuntime) -> Result<(), Fail> {
    let values = (Least { value: 3 }, Least { value: u64::MAX });
    agree_on(&rt, rt.alloc(), values, Least { value: 3 })
}
