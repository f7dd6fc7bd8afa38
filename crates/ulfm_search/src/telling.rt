//! Why no trace explains a log, in words, with the lines that can't stand together.
use std::alloc::{AllocError, Allocator};
use ulfm_graph::tables::{NONE, at, number, put};
use ulfm_laws::FlagAnd;
use ulfm_observed::{LogLine, Seen};
use ulfm_script::{flag_digits, print_number, print_point};
use ulfm_study::{Act, Ban, Deals, Part, Plan, Study, Why};

/// The rule by which this profile is stricter than the text of ULFM, where it is the one that is broken.
const ONE_LIST: &str = "there is one list of failures for all";

/// What stands before a round of which nobody can have known the last failure.
const UNKNOWN: &str = "nobody can have known the last failure of round ";

/// A text that tells why no trace explains a log.
#[derive(Drop)]
pub(crate) struct Telling<'a, A: Allocator> {
    /// What is known of the log.
    pub(crate) study: &'a Study<A>,
    /// The text so far.
    pub(crate) text: Vec<u8, A>,
}

impl<A: Allocator + Copy> Telling<'_, A> {
    /// Appends a text.
    pub(crate) fn say(&mut self, words: &str) -> Result<(), AllocError> {
        self.text.extend_from_slice(words.as_bytes())
    }

    /// Appends a number behind words.
    fn say_number(&mut self, words: &str, number: u32) -> Result<(), AllocError> {
        self.say(words)?;
        print_point(&mut self.text, number)
    }

    /// Appends a flag behind words.
    fn say_flag(&mut self, words: &str, bits: u64) -> Result<(), AllocError> {
        self.say(words)?;
        let digits = flag_digits(FlagAnd { bits });
        self.text.extend_from_slice(digits.text())
    }

    /// Appends a round and its communicator.
    fn say_round(&mut self, words: &str, round: u32) -> Result<(), AllocError> {
        let named = self.study.agreements.round(round as usize);
        self.say_number(words, u32::from(named.round))?;
        self.say_number(" of communicator ", u32::from(named.comm))
    }

    /// Appends why, in words.
    pub(crate) fn say_why(&mut self, why: Why, cycle: &[u32]) -> Result<(), AllocError> {
        match why {
            Why::Banned { ban, .. } => self.say(ban_words(ban)),
            Why::TwoDecisions { one, other } => self.say_two(one, other),
            Why::Value { act } => self.say_value(act),
            Why::Error { act } | Why::Mixed { act } | Why::Context { act } => {
                self.say_told(act, told_words(why))
            }
            Why::Pending { act } => self.say_pending(act),
            Why::Unknown { round } => self.say_round(UNKNOWN, round),
            Why::Undeclared { rank, .. } => {
                self.say_number("rank ", u32::from(rank))?;
                self.say(" must have been declared failed, and no call did so")
            }
            Why::Place { .. } => self.say_place(why),
            Why::Count { .. } => {
                self.say(ONE_LIST)?;
                self.say(", and these replies fit none")
            }
            Why::Cycle => self.say_cycle(cycle),
            Why::Revoked { .. } => self.say("a communicator was revoked twice, or by nobody"),
            Why::Missing { .. } => self.say("a barrier was done that a member never began"),
            Why::Choices => self.say("no choice of what is left open explains these"),
        }
    }

    /// Appends that a rank has no place in the line of failures.
    fn say_place(&mut self, why: Why) -> Result<(), AllocError> {
        let Why::Place {
            rank,
            most,
            most_by,
            lacks,
            lacks_by,
        } = why
        else {
            return Ok(());
        };
        self.say_number("rank ", u32::from(rank))?;
        self.say_number(" must be one of the first ", most)?;
        self.say(" failures")?;
        self.say_by(most_by)?;
        self.say_number(", and can't be one of the first ", lacks)?;
        self.say_by(lacks_by)?;
        self.say(": ")?;
        self.say(ONE_LIST)
    }

    /// Appends by which line, in brackets, if it is known.
    fn say_by(&mut self, line: u32) -> Result<(), AllocError> {
        if line == NONE {
            return Ok(());
        }
        self.say_number(" (line ", line_number(line))?;
        self.say(")")
    }

    /// Appends that two ranks were told two decisions.
    fn say_two(&mut self, one: u32, other: u32) -> Result<(), AllocError> {
        if let Some(act) = self.study.act(one) {
            self.say_number("rank ", u32::from(act.rank))?;
        }
        if let Some(act) = self.study.act(other) {
            self.say_number(" and rank ", u32::from(act.rank))?;
            self.say_round(" were told two decisions of round ", act.round)?;
        }
        Ok(())
    }

    /// Appends what a rank was told.
    fn say_told(&mut self, act: u32, words: &str) -> Result<(), AllocError> {
        if let Some(act) = self.study.act(act) {
            self.say_number("rank ", u32::from(act.rank))?;
        }
        self.say(words)
    }

    /// Appends that a poll was pending, though nobody was missing.
    fn say_pending(&mut self, act: u32) -> Result<(), AllocError> {
        if let Some(act) = self.study.act(act) {
            self.say_round("pending, though all had taken part in round ", act.round)?;
        }
        self.say(" when the poll began")
    }

    /// Appends a value that was told, and those that were given.
    fn say_value(&mut self, act: u32) -> Result<(), AllocError> {
        let Some(act) = self.study.act(act) else {
            return Ok(());
        };
        self.say_number("rank ", u32::from(act.rank))?;
        if let Some(
            Seen::Agreed {
                value: Some(value),
                ..
            },
        ) = act.seen
        {
            self.say_flag(" was told ", value.bits)?;
        }
        self.say_round(" of round ", act.round)?;
        self.say_given(&act)
    }

    /// Appends the values that were given to a round, and what they are together.
    fn say_given(&mut self, told: &Act) -> Result<(), AllocError> {
        let deals = Deals::new(self.study)?;
        let mut some = false;
        let mut value = u64::MAX;
        for rank in 0..self.study.ranks {
            let start = deals.contribution(self.study, told.round, rank);
            if let Some(act) = self.study.act(start) {
                if self.study.is_member(act.comm, rank) {
                    self.say_flag(joint(some), act.number)?;
                    self.say_number(" by ", number(rank))?;
                    some = true;
                    value &= act.number;
                }
            }
        }
        self.say_flag(" is ", value)
    }

    /// Appends what goes round in a circle, from the greatest line on.
    fn say_cycle(&mut self, cycle: &[u32]) -> Result<(), AllocError> {
        self.say("each of these comes before the next, and the last before the first: ")?;
        let plan = Plan::new(self.study)?;
        let first = start_of(&plan, cycle);
        let mut words = "";
        for i in 0..cycle.len() {
            let turned = i.wrapping_add(first);
            let place = if turned < cycle.len() {
                turned
            } else {
                turned.wrapping_sub(cycle.len())
            };
            self.say(words)?;
            self.say_node(&plan, at(cycle, place))?;
            words = "; ";
        }
        if tells_failure(&plan, cycle) {
            self.say("; ")?;
            self.say(ONE_LIST)?;
        }
        Ok(())
    }

    /// Appends what a node is.
    fn say_node(&mut self, plan: &Plan<A>, node: u32) -> Result<(), AllocError> {
        match plan.part(node) {
            Part::Line(line) => self.say_number("line ", line_number(line)),
            Part::Failure(count) => {
                self.say_number("the ", count)?;
                self.say(". failure is declared")
            }
            Part::Look(act) => self.say_act("the look of rank ", act),
            Part::Settle(act) => self.say_act("what was given in rank ", act),
            Part::Point(act) => self.say_act("the point of rank ", act),
            Part::Decision(round) => self.say_round("the decision of round ", round),
            Part::Spawn(comm) => self.say_number("the making of communicator ", u32::from(comm)),
            Part::Revocation(comm) => {
                self.say_number("the revocation of communicator ", u32::from(comm))
            }
        }
    }

    /// Appends whose call it is, and in which line.
    fn say_act(&mut self, words: &str, act: u32) -> Result<(), AllocError> {
        self.say(words)?;
        if let Some(act) = self.study.act(act) {
            print_number(&mut self.text, act.rank)?;
            self.say_number("'s call in line ", line_number(act.call))?;
        }
        Ok(())
    }

    /// Appends lines of a log, each with its number.
    pub(crate) fn say_lines<B: Allocator>(
        &mut self,
        lines: &[LogLine<B>],
        chosen: &[u32],
    ) -> Result<(), AllocError> {
        let mut last = ulfm_script::LastGroup::new(self.study.alloc);
        for (i, line) in lines.iter().enumerate() {
            if at(chosen, i) == 1 {
                self.say_number("  line ", line_number(number(i)))?;
                self.say(": ")?;
                ulfm_observed::printing::print_item(
                    &mut self.text,
                    &mut last,
                    &line.item,
                    &line.group,
                )?;
                self.say("\n")?;
            }
        }
        Ok(())
    }
}

/// The number of a line in the text: the header is line 1.
fn line_number(line: u32) -> u32 {
    if line < 0xffff_fff0 { line + 2 } else { 0 }
}

/// What a rank was told that can't be, behind its name.
fn told_words(why: Why) -> &'static str {
    match why {
        Why::Error { .. } => {
            " was told of an error that isn't there, or of none though there is one"
        }
        Why::Mixed { .. } => {
            " was told of a mismatch that isn't there, or of none though agrees and shrinks met in one round"
        }
        _ => " was told of a context id that isn't the lowest that is free at all who took part",
    }
}

/// The words of what records forbid.
fn ban_words(ban: Ban) -> &'static str {
    match ban {
        Ban::Open => "a call by a caller that has one open",
        Ban::NoCall => "a reply to a caller that has no call open",
        Ban::Gone => "the rank was refused for good, or the world doesn't have it",
        Ban::Record => "the rank's own record doesn't allow this reply",
        Ban::Sort => "no such call has this reply",
        Ban::Members => "a new communicator with another group or number than it can have",
        Ban::Count => "a count of acknowledged failures that can't be",
        Ban::Declared => "a rank was declared twice",
    }
}

/// What stands before a value that was given: behind others, or as the first.
fn joint(others: bool) -> &'static str {
    if others { ", " } else { ", but the AND of " }
}

/// Whether a declaration is in a cycle.
fn tells_failure<A: Allocator + Copy>(plan: &Plan<A>, cycle: &[u32]) -> bool {
    for node in cycle {
        if let Part::Failure(_) = plan.part(*node) {
            return true;
        }
    }
    false
}

/// Where a cycle has its greatest line.
fn start_of<A: Allocator + Copy>(plan: &Plan<A>, cycle: &[u32]) -> usize {
    let mut place = 0;
    let mut greatest = 0;
    for (i, node) in cycle.iter().enumerate() {
        if let Part::Line(line) = plan.part(*node) {
            if line >= greatest {
                greatest = line;
                place = i;
            }
        }
    }
    place
}

/// Chooses the lines of a cycle.
pub(crate) fn choose_cycle<A: Allocator + Copy>(
    study: &Study<A>,
    cycle: &[u32],
    chosen: &mut [u32],
) -> Result<(), AllocError> {
    let plan = Plan::new(study)?;
    for node in cycle {
        if let Part::Line(line) = plan.part(*node) {
            put(chosen, line as usize, 1);
        }
    }
    Ok(())
}
