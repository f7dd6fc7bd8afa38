//! Readers that give little at once, and readers that fail.
use crate::tests::rows::illegal;
use crate::tests::tested::Tested;
use crate::tests::traces::{CONTRIBUTION_IN_FLIGHT, text_of};
use linked_list_allocator::LocalHeap;
use std::alloc::Global;
use std::test::Fail;
use ulfm_devices::Pieces;
use ulfm_model::Why;
use ulfm_trace::{CheckFault, Verdict, check_by};

/// What a text gives that comes in pieces of so many bytes, where a call fails, and how many calls there were.
fn pieced(
    rt: &HostRuntime,
    text: &[u8],
    most: usize,
    failing: u32,
) -> (Result<Verdict, CheckFault>, u32) {
    let mut reader = Pieces::new(text, most, failing);
    let verdict = check_by::<Tested<Global>, Global, Pieces<'_>>(rt.alloc(), &mut reader);
    (verdict, reader.calls)
}

/// Each read fails in turn, until none is left.
#[test]
fn reads_that_fail(rt: HostRuntime) -> Result<(), Fail> {
    let text = text_of(rt.alloc(), &CONTRIBUTION_IN_FLIGHT)?;
    for most in [1, 50] {
        let (verdict, calls) = pieced(&rt, &text, most, 0);
        assert_eq!(rt; verdict, Ok(Verdict::Legal));
        let step = if most == 1 { 97 } else { 1 };
        let mut failing = 1;
        for _ in 0..calls {
            if failing <= calls {
                let (end, _) = pieced(&rt, &text, most, failing);
                assert_eq!(rt; end, Err(CheckFault::Read), "{failing}");
            }
            failing = failing.saturating_add(step);
        }
    }
    Ok(())
}

/// A bad line is told before the reader fails behind it.
#[test]
fn bad_line_before_a_fault(rt: HostRuntime) -> Result<(), Fail> {
    let text = text_of(
        rt.alloc(),
        &["ulfm-trace 1 2 1 2", "look 0 0", "call get 0 0"],
    )?;
    let (verdict, calls) = pieced(&rt, &text, 1, 29);
    assert_eq!(rt; (verdict, calls), (illegal(2, Why::Call), 28));
    Ok(())
}

/// Memory is refused in heaps of all sizes that are too small, and then the trace is legal.
#[test]
fn memory_is_refused(rt: HostRuntime) -> Result<(), Fail> {
    let text = text_of(rt.alloc(), &CONTRIBUTION_IN_FLIGHT)?;
    let mut refused: u32 = 0;
    for step in 1..2000usize {
        let heap = LocalHeap::new(rt.alloc(), step.wrapping_mul(256))?;
        let mut reader = text.as_slice();
        let end = check_by::<Tested<_>, _, _>(&heap, &mut reader);
        if end != Err(CheckFault::Memory) {
            assert_eq!(rt; end, Ok(Verdict::Legal));
            assert!(rt; refused > 64, "{refused}");
            return Ok(());
        }
        refused = refused.saturating_add(1);
    }
    Err(Fail::from("memory was refused at each size"))
}
