//! The answer to a log: a trace that explains it, or why there is none.
ghost use Rattle.std.specs.Prelude.{◌≡◌, IfOk, IsTrue};
ghost use Rattle.ulfm_observed.specs.LogTexts.{log_text};
ghost use Rattle.ulfm_model.specs.Words.{MayOpen};
ghost use Rattle.ulfm_observed.specs.Refuted.{IsRefuted};
ghost use Rattle.ulfm_search.specs.Answers.{Answers, AnswersLog, SaysNothing, rests_on};

use crate::reducing::reduce;
use crate::search::{Outcome, cost_of, search};
use crate::telling::{Telling, choose_cycle};
use std::alloc::{AllocError, Allocator};
use ulfm_graph::tables::{NONE, at, put};
use ulfm_model::Limits;
use ulfm_observed::{Log, LogLine, Step, confirm, print_log, refutes};
use ulfm_script::{LastGroup, LineKind, RunFault};
use ulfm_study::{Hint, Study, Why, hint_of, read_log, study_log};

/// How much a search may cost, in nodes: some seconds.
pub const BUDGET: u64 = 20_000_000;

/// What stands before the reason why a log isn't explained.
const NOTHING: &[u8] = b"not explained: ";

/// The answer to a log.
#[derive(Drop)]
pub enum Answer<A: Allocator> {
    /// These lines are a legal trace that explains it.
    Explained {
        /// How large its world is.
        limits: Limits,
        /// The lines of the trace behind its header.
        steps: Vec<Step<A>, A>,
    },
    /// No trace explains it, as the search found.
    Nothing {
        /// The text: `not explained: ` and why, lines that can't stand together, and on what that rests, each line with its newline.
        why: Vec<u8, A>,
        /// Whether it is proved that no trace explains it.
        proved: bool,
    },
    /// The search was given up.
    Unknown,
}

/// Answers a log's text: whether some legal trace explains it.
///
/// At `Explained` the trace was judged and compared with the log, so nothing of the search is trusted. At `Nothing` the search tried all
/// choices; where it isn't `proved`, that rests on the search alone. At `Unknown` its budget, in nodes, was used up, or the end of a
/// rank's lines was lost and no trace was found without further calls of that rank. A fault tells the first line that is none of a log,
/// or that memory was refused.
///
/// The log `ulfm-observed 1 1 1 2 time any` with `call isrevoked 0 0` and `reply 0 no` is explained; with `reply 0 yes` it isn't.
pub fn explain<A: Allocator + Copy + Drop>(
    alloc: A,
    text: &[u8],
    budget: u64,
) -> Result<Answer<A>, RunFault>
    ensures { IfOk result (Answers text.now) }
{
    let log = read_log(alloc, text)?;
    if !is_text(alloc, &log, text)? {
        return Err(no_header());
    }
    match log.limits.check() {
        Ok(()) => Ok(answer_log(alloc, &log, budget)?),
        Err(_) => Err(no_header()),
    }
}

/// That the first line is none of a log.
fn no_header() -> RunFault {
    RunFault::Line {
        number: 1,
        kind: LineKind::Header,
    }
}

/// Answers a log.
fn answer_log<A: Allocator + Copy + Drop, B: Allocator>(
    alloc: A,
    log: &Log<B>,
    budget: u64,
) -> Result<Answer<A>, AllocError>
    requires { MayOpen log.now.limits }
    ensures { IfOk result (AnswersLog log.now) }
{
    let mut left = budget;
    match seek(alloc, log, &mut left)? {
        Sought::Found(steps) => confirmed(alloc, log, steps),
        Sought::Nothing { reason, hint } => nothing(alloc, log, &reason, hint),
        Sought::GivenUp => Ok(Answer::Unknown),
    }
}

/// That a log isn't explained, for this reason, and whether that is proved.
fn nothing<A: Allocator, B: Allocator>(
    alloc: A,
    log: &Log<B>,
    reason: &[u8],
    hint: Option<Hint>,
) -> Result<Answer<A>, AllocError>
    ensures { IfOk result (SaysNothing log.now reason.now) }
{
    let proved = is_refuted(log, hint);
    let mut why = Vec::new(alloc);
    why.extend_from_slice(NOTHING)?;
    why.extend_from_slice(reason)?;
    why.extend_from_slice(rests_on(proved))?;
    Ok(Answer::Nothing { why, proved })
}

/// Whether the lines of two ranks that may clash do so.
fn is_refuted<A: Allocator>(log: &Log<A>, hint: Option<Hint>) -> bool
    ensures { IsTrue result → IsRefuted log.now }
{
    match hint {
        Some(Hint { one, other, round }) => refutes(log, one, other, round),
        None => false,
    }
}

/// On what the answer rests that a log isn't explained.
fn rests_on(proved: bool) -> &'static [u8]
    ensures { result.now ≡ rests_on proved }
{
    if proved {
        b"  this is proved: no legal trace has these calls and replies\n"
    } else {
        b"  this rests on tests: the search isn't proved\n"
    }
}

/// The answer that these lines are, if they explain the log.
fn confirmed<A: Allocator + Copy + Drop, B: Allocator>(
    alloc: A,
    log: &Log<B>,
    steps: Vec<Step<A>, A>,
) -> Result<Answer<A>, AllocError>
    requires { MayOpen log.now.limits }
    ensures { IfOk result (AnswersLog log.now) }
{
    let limits = log.limits;
    if confirm(alloc, log, &steps)? {
        return Ok(Answer::Explained { limits, steps });
    }
    Ok(Answer::Unknown)
}

/// Whether a log is printed as this text.
fn is_text<A: Allocator + Copy, B: Allocator>(
    alloc: A,
    log: &Log<B>,
    text: &[u8],
) -> Result<bool, AllocError>
    ensures { IfOk result (λ same. IsTrue same → text.now ≡ log_text log.now) }
{
    let mut printed = Vec::with_capacity(alloc, text.len())?;
    let mut last = LastGroup::new(alloc);
    print_log(&mut printed, &mut last, log)?;
    Ok(printed.as_slice() == text)
}

/// What a search gave.
#[derive(Drop)]
enum Sought<A: Allocator> {
    /// The lines of a trace, which is to be confirmed.
    Found(Vec<Step<A>, A>),
    /// There is none.
    Nothing {
        /// Why, in words, and the lines that can't stand together, each line with its newline.
        reason: Vec<u8, A>,
        /// Whose lines may show it, if some may.
        hint: Option<Hint>,
    },
    /// The budget was used up, or the end of a rank's lines was lost.
    GivenUp,
}

/// Searches for a trace, or for the reason why there is none.
fn seek<A: Allocator + Copy, B: Allocator>(
    alloc: A,
    log: &Log<B>,
    budget: &mut u64,
) -> Result<Sought<A>, AllocError> {
    let (mut study, banned) = study_log(alloc, log)?;
    if let Some((line, ban)) = banned {
        let why = Why::Banned { line, ban };
        return told(&study, &log.lines, why, &[]);
    }
    match search(&study, &log.lines, budget)? {
        Outcome::Found(steps) => Ok(Sought::Found(steps)),
        Outcome::GivenUp => Ok(Sought::GivenUp),
        Outcome::Nothing(_, _) if study.lost => Ok(Sought::GivenUp),
        Outcome::Nothing(why, cycle) => {
            let mut more = reason_budget(&study);
            let (why, cycle) = reduce(&mut study, &log.lines, &mut more, why, cycle)?;
            told(&study, &log.lines, why, &cycle)
        }
    }
}

/// What the search for a reason may cost: as much as judging twice, or some judgements of a long log.
fn reason_budget<A: Allocator + Copy>(study: &Study<A>) -> u64 {
    let few = cost_of(study).wrapping_mul(40);
    let least = BUDGET.wrapping_add(BUDGET);
    if few < least { least } else { few }
}

/// That there is none, and why.
fn told<A: Allocator + Copy, B: Allocator>(
    study: &Study<A>,
    lines: &[LogLine<B>],
    why: Why,
    cycle: &[u32],
) -> Result<Sought<A>, AllocError> {
    let reason = tell(study, lines, why, cycle)?;
    let hint = hint_of(study, why);
    Ok(Sought::Nothing { reason, hint })
}

/// Why there is none, in words, with its lines.
fn tell<A: Allocator + Copy, B: Allocator>(
    study: &Study<A>,
    lines: &[LogLine<B>],
    why: Why,
    cycle: &[u32],
) -> Result<Vec<u8, A>, AllocError> {
    let text = Vec::new(study.alloc);
    let mut telling = Telling { study, text };
    telling.say_why(why, cycle)?;
    telling.say("\n")?;
    let mut chosen = vec![in study.alloc; 0; lines.len()]?;
    choose_lines(study, why, &mut chosen);
    if why == Why::Cycle {
        choose_cycle(study, cycle, &mut chosen)?;
    }
    telling.say_lines(lines, &chosen)?;
    Ok(telling.text)
}

/// Chooses the replies that can't stand together: one that is forbidden, or those that still count.
fn choose_lines<A: Allocator + Copy>(study: &Study<A>, why: Why, chosen: &mut [u32]) {
    if let Why::Banned { line, .. } = why {
        put(chosen, line as usize, 1);
        return;
    }
    for act in &study.acts {
        if act.reply != NONE && at(&study.muted, act.reply as usize) == 0 {
            put(chosen, act.reply as usize, 1);
        }
    }
}
