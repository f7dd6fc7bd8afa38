//! The judge that the tests are of.
use std::alloc::{AllocGlobal, Global};
use std::process::Abort;
use std::test::Fail;
use ulfm_judge::Judge;
use ulfm_laws::FlagAnd;
use ulfm_trace::{CheckFault, Verdict, check_by};

/// The judge that is tested.
pub(crate) type Tested<A> = Judge<FlagAnd, A>;

/// What it says of a text.
pub(crate) fn check(rt: &impl AllocGlobal, text: &[u8]) -> Result<Verdict, CheckFault> {
    let mut reader = text;
    check_by::<Tested<Global>, Global, &[u8]>(rt.alloc(), &mut reader)
}

/// A text is a legal trace.
pub(crate) fn is_legal<R: AllocGlobal + Abort>(rt: &R, text: &[u8]) -> Result<(), Fail> {
    assert_eq!(rt; check(rt, text), Ok(Verdict::Legal));
    Ok(())
}
