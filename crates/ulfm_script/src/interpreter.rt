//! What is promised by whatever runs the lines of one kind of script, so that one engine reads and writes for all.
ghost use Rattle.std.specs.Prelude.{◌≡◌, ℕ, List, [], IfOk};
ghost use Rattle.ulfm_script.specs.declared.heading.Heading.{Heading};
ghost use Rattle.ulfm_model.specs.Words.{MayOpen};
ghost use Rattle.ulfm_script.specs.{Ends.{RunSoFar, Stage, TakesItem}, Scripts.{Language}};

use crate::heading::Heading;
use crate::line_kind::LineKind;
use std::alloc::{AllocError, Allocator};

/// Whatever runs the lines of scripts of one kind, one after another.
pub trait Interpreter<A: Allocator>: Drop {
    /// What it is given beside the limits of its world.
    type Plan: Copy;

    /// The kind of its scripts.
    ghost lang: { Language };

    /// By this plan, behind this first line, it has run these items, and printed this.
    ghost HasRun: { Self.Plan → Self → Stage lang };

    /// What it printed last.
    ghost text: { Self → List ℕ };

    /// What the first line gives, without its newline, or its fault.
    fn heading(line: &[u8]) -> Result<Heading, LineKind>
        ensures exact { result ≡ lang.heading line.now }
        ensures opens { IfOk result (λ heading. MayOpen heading.limits) };

    /// A world of this first line's limits to which nothing has happened. Only memory can be refused.
    fn open(alloc: A, heading: Heading, plan: Self::Plan) -> Result<Self, AllocError>
        requires { MayOpen heading.limits }
        ensures { IfOk result (λ it. HasRun plan it heading [] (text it)) };

    /// Runs a line, without its newline, and prints what comes of it, in place of what it printed last. An inner fault is the line's;
    /// nothing was done then. After any fault it isn't used again.
    fn run(&mut self, line: &[u8]) -> Result<Result<(), LineKind>, AllocError>
        ensures { (plan : Self.Plan) (before : RunSoFar lang) → HasRun plan self.old before.heading before.items before.out
            → IfOk result (λ ran. TakesItem lang (HasRun plan self.new) before (lang.read before.heading.version line.now) (text self.new) ran) };

    /// What it printed last, whole lines.
    fn text(&self) -> &[u8]
        ensures { result.now ≡ text self.now };

    /// What it has printed is what its items print.
    ghost prints: { (plan : Self.Plan) (it : Self) (heading : Heading) (items : List lang.Item) (out : List ℕ) → HasRun plan it heading items out
        → lang.Prints heading.limits items out };
}
