//! Which worlds open.
use crate::calls::limits;
use std::alloc::Global;
use ulfm_laws::flag_and::FlagAnd;
use ulfm_model::limits::OpenFault;
use ulfm_object::Object;

#[test]
fn limits_are_tested_in_order(rt: HostRuntime) {
    let none = Object::<FlagAnd, Global>::open(rt.alloc(), limits(0, 1, 1));
    assert!(rt; none.err() == Some(OpenFault::OutOfRange));
    let large = Object::<FlagAnd, Global>::open(rt.alloc(), limits(1024, 1, 2048));
    assert!(rt; large.err() == Some(OpenFault::TooLarge));
}
