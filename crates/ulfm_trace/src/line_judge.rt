//! What judges the lines of a trace.
ghost use Rattle.std.specs.Prelude.{IfOk};
ghost use Rattle.ulfm_laws.specs.{declared.flag_and.FlagAnd.{FlagAnd}, Flags.{flag_meld}};
ghost use Rattle.ulfm_model.specs.Words.{MayOpen};
ghost use Rattle.ulfm_model.specs.Traces.{Takes, Traced, nothing};

use std::alloc::{AllocError, Allocator};
use ulfm_laws::FlagAnd;
use ulfm_model::{Limits, Line, Why};

/// Whatever judges the lines of a trace, one after another.
pub trait LineJudge<A: Allocator>: Drop {
    /// The lines taken so far say this, and the judge stands for it.
    ghost Stands: { Self → Traced FlagAnd → Type 0 };

    /// A judge of a trace of which nothing is said yet. Only memory can be refused.
    fn open(alloc: A, limits: Limits) -> Result<Self, AllocError>
        requires { MayOpen limits }
        ensures { IfOk result (λ judge. Stands judge (nothing limits)) };

    /// Takes a line, with the ranks that it lists, where it may come next; else gives the reason, and is as it was. Only memory can be
    /// refused; the judge isn't used again then.
    fn take(&mut self, line: &Line<FlagAnd>, group: &[u16]) -> Result<Option<Why>, AllocError>
        ensures { (now : Traced FlagAnd) → Stands self.old now
            → IfOk result (λ why. (next : Traced FlagAnd) × Takes flag_meld now group.now line.now next why × Stands self.new next) };
}
