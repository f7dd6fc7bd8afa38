//! The check of a trace's text by the judge of `ulfm_judge`.
ghost use Rattle.ulfm_judge.specs.Standing.{JudgeStands};
ghost use Rattle.ulfm_trace.specs.Checks.{Checks};

use crate::judging::check_by;
use crate::line_judge::LineJudge;
use crate::verdict::{CheckFault, Verdict};
use std::alloc::{AllocError, Allocator};
use std::io::Read;
use ulfm_judge::Judge;
use ulfm_laws::FlagAnd;
use ulfm_model::{Limits, Line, Why};

impl<A: Allocator + Copy + Drop> LineJudge<A> for Judge<FlagAnd, A> {
    ghost Stands = { λ judge now. JudgeStands judge now };

    fn open(alloc: A, limits: Limits) -> Result<Self, AllocError> {
        Judge::open(alloc, limits)
    }

    #[inline(always)]
    fn take(&mut self, line: &Line<FlagAnd>, group: &[u16]) -> Result<Option<Why>, AllocError> {
        self.take(line, group)
    }
}

/// Checks the trace that the reader gives, by the judge of `ulfm_judge`: what it takes and answers is told at [`check_by`].
///
/// The trace `ulfm-trace 1 1 1 2` with the line `event - fail 0` is legal; with that line twice, line 3 is illegal, for its event.
///
/// ```
/// let mut trace = b"ulfm-trace 1 1 1 2\nevent - fail 0\n".as_slice();
/// assert!(rt; check(alloc, &mut trace) == Ok(Verdict::Legal));
/// ```
pub fn check<A: Allocator + Copy + Drop, R: Read>(
    alloc: A,
    reader: &mut R,
) -> Result<Verdict, CheckFault>
    ensures { Checks (R.remaining reader.old) (R.remaining reader.new) result }
{
    check_by::<Judge<FlagAnd, A>, A, R>(alloc, reader)
}
