//! What follows from the definitions of a run, as functions whose contracts are these laws.
ghost use Rattle.std.specs.Prelude.{List, ℕ};
ghost use Rattle.std.specs.Io.KnownBytes.{Appends};
ghost use Rattle.ulfm_script.specs.declared.{fault.RunFault.TheVariants.{Line}, line_kind.LineKind.{LineKind}};
ghost use Rattle.ulfm_script.specs.Calls.{ScriptCall};
ghost use Rattle.ulfm_script.specs.Ends.{KnownText, RunsAll};
ghost use Rattle.ulfm_script.specs.Runs.{ArePrinted, Prints, RunsBuffered, ScriptState, call_scripts};

/// What a script prints are the replies of the sequential object to its calls, one after another.
pub fn prints_the_replies()
    ensures { (old new : ScriptState) (calls : List ScriptCall) (out : List ℕ) → Prints old calls out new → ArePrinted old calls out }
{}

/// Where the run of a script of calls stops at the fault of a line, it is the text's first one: each call that can be read can be run.
pub fn stops_at_the_first_fault()
    ensures { (known left old new : KnownText) (number : ℕ) (kind : LineKind) → RunsBuffered known left old new (Err (Line number kind))
        → RunsAll call_scripts known (Some (number, kind)) (Appends old new) }
{}
