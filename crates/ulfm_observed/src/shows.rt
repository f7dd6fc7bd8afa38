//! Whether the calls and replies of an explanation are those of a log.
ghost use Rattle.std.specs.Prelude.{◌≡◌, ◌≤◌, ◌<◌, IsTrue, IfSome, length, map};
ghost use Rattle.ulfm_model.specs.declared.line.Line.{Line};
ghost use Rattle.ulfm_observed.specs.Explains.{AreCallersHeard, IsAs, IsHeard, IsSeen, is_among};
ghost use Rattle.ulfm_observed.specs.Explains.{is_heard_by, is_shown_by, is_told_by};
ghost use Rattle.ulfm_observed.specs.LogTexts.{heard_of};
ghost use Rattle.ulfm_observed.specs.Stages.{shown_of};
ghost use Rattle.ulfm_observed.specs.Walked.{GoesOn, NextIs};

use crate::log::{Item, LogLine, Seen};
use crate::stages::{caller_of, same_caller};
use crate::step::Step;
use std::alloc::Allocator;
use ulfm_laws::FlagAnd;
use ulfm_model::{Caller, Line, Reply};

/// Whose lines are compared.
#[derive(Clone, Copy, Debug, PartialEq, Eq)]
pub enum Whose {
    /// Those of all callers, in their order.
    Everyone,
    /// Those of one caller.
    Of(Caller),
}

impl Whose {
    /// Whether a caller is one of them.
    fn has(self, by: Caller) -> bool
        ensures { result ≡ is_among self by }
    {
        match self {
            Whose::Everyone => true,
            Whose::Of(caller) => same_caller(by, caller),
        }
    }

    /// Whether a line of a log is a call or a reply of theirs.
    fn has_item(self, item: &Item) -> bool
        ensures { result ≡ is_heard_by self item.now }
    {
        match *item {
            Item::Called { call, .. } => self.has(caller_of(&call)),
            Item::Replied { by, .. } => self.has(by),
            Item::Lost { .. } => false,
        }
    }

    /// Whether a line of a trace is a call or a reply of theirs.
    fn has_line(self, line: &Line<FlagAnd>) -> bool
        ensures { result ≡ is_told_by self line.now }
    {
        match *line {
            Line::Called { call, .. } => self.has(caller_of(&call)),
            Line::Replied { by, .. } => self.has(by),
            _ => false,
        }
    }
}

/// Whether a reply is as a log tells it.
fn is_seen(seen: &Seen, given: &Reply<FlagAnd>) -> bool
    ensures { IsTrue result → IsSeen seen.now given.now }
{
    match *seen {
        Seen::Whole(told) => told == *given,
        Seen::Agreed {
            value,
            failed,
            raised,
        } => match *given {
            Reply::Agreed {
                value: flag,
                failed: count,
                raised: error,
            } => is_flag(value, flag) && is_number(failed, count) && raised == error,
            _ => false,
        },
        Seen::Shrunk { comm, context } => match *given {
            Reply::Shrunk {
                comm: made,
                context: id,
                ..
            } => comm == made && is_context(context, id),
            _ => false,
        },
    }
}

/// Whether a flag is as it was logged.
fn is_flag(told: Option<FlagAnd>, given: FlagAnd) -> bool
    ensures { IsTrue result → IsAs told given }
{
    match told {
        None => true,
        Some(flag) => flag == given,
    }
}

/// Whether a number is as it was logged.
fn is_number(told: Option<u16>, given: u16) -> bool
    ensures { IsTrue result → IsAs told given }
{
    match told {
        None => true,
        Some(number) => number == given,
    }
}

/// Whether a context id is as it was logged.
fn is_context(told: Option<u8>, given: u8) -> bool
    ensures { IsTrue result → IsAs told given }
{
    match told {
        None => true,
        Some(number) => number == given,
    }
}

/// Whether a line of a trace is as a line of a log tells it.
fn is_heard(item: &Item, line: &Line<FlagAnd>) -> bool
    ensures { IsTrue result → IsHeard item.now line.now }
{
    match *item {
        Item::Called { call, .. } => match *line {
            Line::Called { call: other, .. } => call == other,
            _ => false,
        },
        Item::Replied { by, seen } => match *line {
            Line::Replied {
                by: caller,
                reply: Some(given),
                ..
            } => by == caller && is_seen(&seen, &given),
            _ => false,
        },
        Item::Lost { .. } => false,
    }
}

/// Whether a line of an explanation is this line of the log, with the ranks that it lists.
fn is_line<A: Allocator, B: Allocator>(heard: &LogLine<A>, step: &Step<B>) -> bool
    ensures heard { IsTrue result → IsHeard heard.now.item step.now.line }
    ensures group { IsTrue result → heard.now.group.items ≡ step.now.group.items }
{
    is_heard(&heard.item, &step.line) && heard.group.as_slice() == step.group.as_slice()
}

/// The next line of theirs in a log, from this place on.
pub(crate) fn next_line<A: Allocator>(
    whose: Whose,
    lines: &[LogLine<A>],
    from: usize,
) -> Option<usize>
    ensures within { IfSome result (λ i. i < length lines.now) }
    ensures next { NextIs whose (map heard_of lines.now) from result }
{
    for at in from..lines.len() {
        if whose.has_item(&lines[at].item) {
            return Some(at);
        }
    }
    None
}

/// Whether the log has this line of an explanation as a call or a reply of theirs.
fn is_shown<A: Allocator>(whose: Whose, step: &Step<A>) -> bool
    ensures { result ≡ is_shown_by whose (shown_of step.now) }
{
    step.logged && whose.has_line(&step.line)
}

/// The place in the log behind this line, where it is their next one there; the same place where it is none of theirs.
pub(crate) fn go_on<A: Allocator, B: Allocator>(
    whose: Whose,
    lines: &[LogLine<A>],
    at: usize,
    step: &Step<B>,
) -> Option<usize>
    ensures { IfSome result (GoesOn whose (map heard_of lines.now) (shown_of step.now) at) }
{
    if !is_shown(whose, step) {
        return Some(at);
    }
    let Some(next) = next_line(whose, lines, at) else {
        return None;
    };
    if !is_line(&lines[next], step) {
        return None;
    }
    Some(next + 1)
}

/// Whether the calls and replies of these callers are those of the log, in its order.
pub fn shows<A: Allocator, B: Allocator>(
    whose: Whose,
    lines: &[LogLine<A>],
    steps: &[Step<B>],
) -> bool
    ensures { IsTrue result → AreCallersHeard (map heard_of lines.now) (map shown_of steps.now) whose }
{
    let mut at = 0;
    for step in steps {
        let Some(now) = go_on(whose, lines, at, step) else {
            return false;
        };
        at = now;
    }
    next_line(whose, lines, at).is_none()
}
