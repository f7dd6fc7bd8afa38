//! Does what a command line asks for, and gives the exit status that it ends with.
ghost use Rattle.std.specs.Prelude.{◌≡◌, ◌≤◌, ◌⊎◌, ℕ, false, map, true};
ghost use Rattle.std.specs.Io.KnownBytes.{Keeps};
ghost use Rattle.ulfm_command.specs.CommandLines.{Asks, AsksHelp, AsksNothing, AsksVersion, is_in_range};
ghost use Rattle.ulfm_command.specs.declared.asked.{Task.{Task as TaskOf}, Task.TheVariants.{Check}};
ghost use Rattle.ulfm_filters.specs.Notes.{bad_line, no_memory};
ghost use Rattle.ulfm_filters.specs.Statuses.{Streams};
ghost use Rattle.ulfm_script.specs.Written.{WritesPart};
ghost use Rattle.ulfm.specs.Drawn.{DrewWith, form_of};
ghost use Rattle.ulfm.specs.Explained.{ExplainedWith};
ghost use Rattle.ulfm.specs.Explored.{ExploredWith, at_status};
ghost use Rattle.ulfm.specs.Observed.{ObservedWith};
ghost use Rattle.ulfm.specs.Races.{RacedWith, plan_of};
ghost use Rattle.ulfm.specs.Replayed.{ReplayedWith};
ghost use Rattle.ulfm.specs.Tasks.{DoneWith, IsInRange, JudgedWith, filter_of, most_status, reads};

use std::alloc::{Allocator, Global};
use std::io::{Read, Write};
use std::sync::Wait;
use std::thread::Threads;
use ulfm_audit::{AuditFault, audit};
use ulfm_command::{
    Asked, CheckForm, DrawOptions, ExploreOptions, RaceOptions, Reason, RunForm, Task, read_words,
};
use ulfm_draw::{Form, Looks, draw};
use ulfm_explain::explain;
use ulfm_explore::{ExploreFault, explore};
use ulfm_filters::{Filter, print_text, race_lines, run_filter, tell, tell_bad_line, tell_fault};
use ulfm_race::{Gate, Plan, RaceFault, Turn, race};
use ulfm_schedules::{ProgramFault, read_program};
use ulfm_script::RunFault;
use ulfm_search::observe;
use ulfm_trace::Verdict;

/// The gate of the program, which lets every rank take every turn.
struct AlwaysOpen;

impl Gate for AlwaysOpen {
    fn go(&self, _rank: u16, _turn: Turn) -> bool {
        true
    }

    fn answered(&self, _rank: u16) {}
}

/// Does what the words of a command line ask for, the program's own name first, and gives the exit status: 0 at success and after help or the version, 1
/// for a line fault, an illegal trace or a log that isn't explained, 2 for a bad command line, 3 where memory, reading or writing failed, or a race was held; 4
/// where not all schedules of an exploration were tried, or the search for a log's trace was given up; and 5 where an exploration's outcome wasn't confirmed.
/// What went wrong is told on `errors`, whose own faults are passed over, in one line. `explains` says that `errors` is a terminal: there the reason why a
/// command line is bad stands above that line. `looks` are those that `output` has for rows in characters.
///
/// `alloc` serves the run of a script, the check of a trace and the lines of a race, `global` the reading of the words and the race itself. A race starts
/// threads, and returns once they have ended.
pub fn answer<T: Threads + Wait + Sync, A: Allocator + Copy + Drop, R: Read, W: Write, E: Write>(
    rt: &T,
    alloc: A,
    global: Global,
    words: &[&str],
    input: &mut R,
    output: &mut W,
    errors: &mut E,
    explains: bool,
    looks: Looks,
) -> u8
    ensures does { (task : TaskOf) → Asks (map (λ word. word.now) words.now) task → DoneWith A looks task
        (record { input = R.remaining input.old; output = W.contents output.old; errors = E.contents errors.old })
        (record { input = R.remaining input.new; output = W.contents output.new; errors = E.contents errors.new }) result }
    // At most 3, but where the words ask for what may give more.
    ensures status { (most : ℕ) → 3 ≤ most → ((task : TaskOf) → Asks (map (λ word. word.now) words.now) task → most_status task ≤ most) → result ≤ most }
    // Nothing else reads the input.
    ensures other { ((task : TaskOf) → Asks (map (λ word. word.now) words.now) task → reads task ≡ false)
        → Keeps (R.remaining input.old) (R.remaining input.new) }
    ensures help { AsksHelp (map (λ word. word.now) words.now) ⊎ AsksVersion (map (λ word. word.now) words.now) → (result ≡ 0) ⊎ (result ≡ 3) }
    // 3 where memory was refused.
    ensures bad { AsksNothing (map (λ word. word.now) words.now) → ((result ≡ 2) ⊎ (result ≡ 3))
        × Keeps (W.contents output.old) (W.contents output.new) }
    // Only on a terminal there is a second line.
    ensures told { AsksNothing (map (λ word. word.now) words.now) → explains ≡ false
        → WritesPart (E.contents errors.old) (E.contents errors.new) bad_line ⊎ WritesPart (E.contents errors.old) (E.contents errors.new) no_memory }
{
    match read_words(global, words) {
        Asked::Task(task) => perform(rt, alloc, global, task, input, output, errors, looks),
        Asked::Shown(text) => print_text(text.as_bytes(), output, errors),
        Asked::Bad(reason) => tell_bad(&reason, errors, explains),
        Asked::Memory => tell_fault(RunFault::Memory, errors),
    }
}

/// Does a task, and gives the exit status.
fn perform<T: Threads + Wait + Sync, A: Allocator + Copy + Drop, R: Read, W: Write, E: Write>(
    rt: &T,
    alloc: A,
    global: Global,
    task: Task,
    input: &mut R,
    output: &mut W,
    errors: &mut E,
    looks: Looks,
) -> u8
    requires { IsInRange task }
    ensures done { DoneWith A looks task
        (record { input = R.remaining input.old; output = W.contents output.old; errors = E.contents errors.old })
        (record { input = R.remaining input.new; output = W.contents output.new; errors = E.contents errors.new }) result }
    ensures status { result ≤ most_status task }
    ensures kept { reads task ≡ false → Keeps (R.remaining input.old) (R.remaining input.new) }
{
    match task {
        Task::Run(form) => run_filter(alloc, filter_of(form), input, output, errors),
        Task::Migrate => run_filter(alloc, Filter::Migrate, input, output, errors),
        Task::Check(form) => run_check(alloc, form, input, output, errors),
        Task::Draw(options) => run_draw(alloc, form_of(options, looks), input, output, errors),
        Task::Explore(options) => run_explore(alloc, options, input, output, errors),
        Task::Replay => run_replay(alloc, input, output, errors),
        Task::Race(options) => run_race(rt, alloc, global, options, output, errors),
    }
}

/// The filter that runs a script of this form.
fn filter_of(form: RunForm) -> Filter
    ensures { result ≡ filter_of form }
{
    match form {
        RunForm::Calls => Filter::Calls,
        RunForm::Echoed => Filter::Echoed,
        RunForm::Steps => Filter::Steps,
    }
}

/// Judges the trace or the log of the input, and prints the answer.
fn run_check<A: Allocator + Copy + Drop, R: Read, W: Write, E: Write>(
    alloc: A,
    form: CheckForm,
    input: &mut R,
    output: &mut W,
    errors: &mut E,
) -> u8
    ensures judged { JudgedWith A form
        (record { input = R.remaining input.old; output = W.contents output.old; errors = E.contents errors.old })
        (record { input = R.remaining input.new; output = W.contents output.new; errors = E.contents errors.new }) result }
    ensures status { result ≤ most_status (Check form) }
{
    match form {
        CheckForm::Trace => run_filter(alloc, Filter::Check, input, output, errors),
        CheckForm::Explained => run_explain(alloc, input, output, errors),
        CheckForm::Log { witness } => run_observe(alloc, witness, input, output, errors),
    }
}

/// Judges the log of the input, and prints the answer, with the trace that explains it where that is wanted.
#[tactic(auto, using(crate::proofs::Ends::observed_none))]
fn run_observe<A: Allocator + Copy + Drop, R: Read, W: Write, E: Write>(
    alloc: A,
    witness: bool,
    input: &mut R,
    output: &mut W,
    errors: &mut E,
) -> u8
    ensures status { result ≤ 4 }
    ensures observed { ObservedWith A witness (R.remaining input.old) (W.contents output.old) (W.contents output.new) result }
{
    match observe(alloc, input, witness) {
        Ok(shown) => {
            let status = print_text(&shown.text, output, errors);
            if status == 0 { shown.status } else { status }
        }
        Err(fault) => tell_fault(fault, errors),
    }
}

/// How a trace is drawn by these options, on an output that has these looks.
fn form_of(options: DrawOptions, looks: Looks) -> Form
    ensures { result ≡ form_of options looks }
{
    if !options.text {
        return Form::Picture;
    }
    Form::Text(if options.ascii { Looks::Ascii } else { looks })
}

/// Draws the trace of the input, and prints the picture.
#[tactic(auto, using(crate::proofs::Ends::drew))]
fn run_draw<A: Allocator + Copy + Drop, R: Read, W: Write, E: Write>(
    alloc: A,
    form: Form,
    input: &mut R,
    output: &mut W,
    errors: &mut E,
) -> u8
    ensures status { result ≤ 3 }
    ensures drew { DrewWith form (R.remaining input.old) (W.contents output.old) (W.contents output.new) result }
{
    match draw(alloc, input, form) {
        Ok(drawn) => {
            let status = print_text(&drawn.shown, output, errors);
            match drawn.verdict {
                Verdict::Illegal { .. } if status == 0 => 1,
                _ => status,
            }
        }
        Err(fault) => tell_fault(fault, errors),
    }
}

/// Judges the trace of the input, and prints the verdict, with its reason where it is illegal.
#[tactic(auto, using(crate::proofs::Ends::told_trace, crate::proofs::Ends::told_none))]
fn run_explain<A: Allocator + Copy + Drop, R: Read, W: Write, E: Write>(
    alloc: A,
    input: &mut R,
    output: &mut W,
    errors: &mut E,
) -> u8
    ensures status { result ≤ 3 }
    ensures told { ExplainedWith (R.remaining input.old) (W.contents output.old) (W.contents output.new) result }
{
    match explain(alloc, input) {
        Ok(told) => {
            let status = print_text(&told.shown, output, errors);
            if status != 0 {
                return status;
            }
            match told.verdict {
                Verdict::Legal => 0,
                Verdict::Illegal { .. } => 1,
            }
        }
        Err(fault) => tell_fault(fault, errors),
    }
}

/// So many states there may be, where nothing else is said.
const MOST_STATES: u32 = 5_000_000;

/// Explores the program of the input, and prints what was found.
#[tactic(auto, using(crate::proofs::Ends::explored_none))]
fn run_explore<A: Allocator + Copy + Drop, R: Read, W: Write, E: Write>(
    alloc: A,
    options: ExploreOptions,
    input: &mut R,
    output: &mut W,
    errors: &mut E,
) -> u8
    ensures status { result ≤ 5 }
    ensures explored { ExploredWith A options (W.contents output.old) (W.contents output.new) result }
{
    let plan = ulfm_explore::Plan {
        most: options.most.unwrap_or(MOST_STATES),
        outcome: options.outcome,
    };
    let program = match read_program(alloc, input) {
        Ok(program) => program,
        Err(fault) => return tell_unread(fault, errors),
    };
    match explore(alloc, &program, plan) {
        Ok(told) => {
            let status = print_text(&told.text, output, errors);
            status_at(told.is_whole, status)
        }
        Err(fault) => tell_unexplored(fault, errors),
    }
}

/// The status of an exploration whose text was printed at this one: 4 in place of 0 where not all schedules were tried.
fn status_at(is_whole: bool, status: u8) -> u8
    ensures { result ≡ at_status is_whole status }
{
    if status == 0 && !is_whole { 4 } else { status }
}

/// Tells why a program couldn't be read, and gives the status.
fn tell_unread<E: Write>(fault: ProgramFault, errors: &mut E) -> u8
    ensures { (result ≡ 1) ⊎ ((result ≡ 3) ⊎ (result ≡ 5)) }
{
    let _ = writeln!(errors, "ulfm: {fault}");
    match fault {
        ProgramFault::Line { .. } => 1,
        ProgramFault::Memory | ProgramFault::Read => 3,
    }
}

/// Tells why a program wasn't explored, and gives the status.
fn tell_unexplored<E: Write>(fault: ExploreFault, errors: &mut E) -> u8
    ensures { (result ≡ 1) ⊎ ((result ≡ 3) ⊎ (result ≡ 5)) }
{
    let _ = writeln!(errors, "ulfm: {fault}");
    match fault {
        ExploreFault::NoSuchOutcome => 1,
        ExploreFault::Memory => 3,
        ExploreFault::Unconfirmed => 5,
    }
}

/// Tells the history that the stored log of the input makes.
#[tactic(auto, using(crate::proofs::Replays::replayed))]
fn run_replay<A: Allocator + Copy + Drop, R: Read, W: Write, E: Write>(
    alloc: A,
    input: &mut R,
    output: &mut W,
    errors: &mut E,
) -> u8
    ensures status { result ≤ 3 }
    ensures replayed { ReplayedWith (R.remaining input.old) (W.contents output.old) (W.contents output.new) result }
{
    match audit(alloc, input) {
        Ok(shown) => print_text(&shown, output, errors),
        Err(fault) => tell_unaudited(fault, errors),
    }
}

/// Tells why a log wasn't audited, and gives the status.
fn tell_unaudited<E: Write>(fault: AuditFault, errors: &mut E) -> u8
    ensures { (result ≡ 1) ⊎ (result ≡ 3) }
{
    let _ = writeln!(errors, "ulfm: {fault}");
    match fault {
        AuditFault::Log => 1,
        AuditFault::Memory | AuditFault::Read => 3,
    }
}

/// Tells that a command line is bad, and before that why, where that is wanted.
fn tell_bad<E: Write>(reason: &Reason, errors: &mut E, explains: bool) -> u8
    ensures status { result ≡ 2 }
    ensures told { explains ≡ false → WritesPart (E.contents errors.old) (E.contents errors.new) bad_line }
{
    if !explains {
        return tell_bad_line(errors);
    }
    let _ = write!(errors, "{reason}");
    tell_bad_line(errors)
}

/// Runs a race, and prints its lines.
#[tactic(auto, using(crate::proofs::Plans::plan_is, crate::proofs::Ends::raced))]
fn run_race<T: Threads + Wait + Sync, A: Allocator + Copy + Drop, W: Write, E: Write>(
    rt: &T,
    alloc: A,
    global: Global,
    options: RaceOptions,
    output: &mut W,
    errors: &mut E,
) -> u8
    requires { is_in_range options ≡ true }
    ensures { RacedWith (plan_of options) (W.contents output.old) (W.contents output.new) result }
{
    let plan = Plan {
        ranks: options.ranks,
        rounds: options.rounds,
        fail: options.fail,
    };
    match race(rt, global, plan, &AlwaysOpen) {
        Ok(outcome) => match race_lines(alloc, plan.rounds, &outcome.replies, &outcome.group) {
            Ok(text) => print_text(&text, output, errors),
            Err(_) => tell_fault(RunFault::Memory, errors),
        },
        Err(RaceFault::Memory) => tell_fault(RunFault::Memory, errors),
        Err(RaceFault::Held) => {
            tell(b"ulfm: held\n", errors);
            3
        }
    }
}
