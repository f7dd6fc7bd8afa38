//! What is told of outcomes: each once, the questions' answers, and how many states there are.
ghost use Rattle.std.specs.Prelude.{◌≡◌, OnOk, IfOk, codes, false, length, map, option_map, slice_get, true, ◌∷◌, [], ◌++◌};
ghost use Rattle.std.specs.Fmt.{decimal};
ghost use Rattle.ulfm_script.specs.Scripts.{lines_from};
ghost use Rattle.ulfm_explore.specs.{Tellings.{answer_to, count_text, counts_to, differ, ended_otherwise, fate_text, found_to, has_all, has_noted, is_answer, is_asked_for, is_stuck, is_stuck_one, is_unlike, next_number, none_text, notes_to, number_to, outcome_to, outcomes_to, question_text, question_to, questions_to, row_to, rows_to, short, some, some_note, told_text}, Views.{row_of, told_of}};

use crate::confirm::Shown;
use crate::reading::split_line;
use std::alloc::{AllocError, Allocator};
use ulfm_schedules::{Fate, Find, Program, Row, has_words};
use ulfm_script::print_point;

/// The word of what became of a rank.
fn fate_word<A: Allocator>(row: &Row<A>) -> &'static [u8]
    ensures { result.now ≡ fate_text row.now.fate }
{
    match row.fate {
        Fate::Runs => b"stuck",
        Fate::Ended => b"ended",
        Fate::Out => b"out",
        Fate::Died => b"died",
    }
}

/// What a rank noted, behind its fate.
fn print_noted<A: Allocator>(text: &mut Vec<u8, A>, noted: &[u8]) -> Result<(), AllocError>
    ensures { OnOk result (text.new.items ≡ notes_to text.old.items (codes ": ") (lines_from [] noted.now)) }
{
    let mut sign: &[u8] = b": ";
    let mut left = noted;
    'notes: while let Some((note, rest)) = split_line(left) {
        text.extend_from_slice(sign)?;
        text.extend_from_slice(note)?;
        sign = b"; ";
        left = rest;
    }
    Ok(())
}

/// The line of a rank.
fn print_row<A: Allocator>(
    text: &mut Vec<u8, A>,
    number: u32,
    row: &Row<A>,
) -> Result<(), AllocError>
    ensures { OnOk result (text.new.items ≡ row_to text.old.items number (row_of row.now)) }
{
    text.extend_from_slice(b"rank ")?;
    print_point(text, number)?;
    text.push(b' ')?;
    text.extend_from_slice(fate_word(row))?;
    print_noted(text, &row.noted)?;
    text.push(b'\n')?;
    Ok(())
}

/// A line `outcome NUMBER`.
fn print_outcome_number<A: Allocator>(text: &mut Vec<u8, A>, number: u32) -> Result<(), AllocError>
    ensures { OnOk result (text.new.items ≡ number_to text.old.items number) }
{
    text.extend_from_slice(b"outcome ")?;
    print_point(text, number)?;
    text.push(b'\n')?;
    Ok(())
}

/// An outcome.
fn print_outcome<A: Allocator>(
    text: &mut Vec<u8, A>,
    number: u32,
    rows: &[Row<A>],
) -> Result<(), AllocError>
    ensures { OnOk result (text.new.items ≡ outcome_to text.old.items number (map row_of rows.now)) }
{
    print_outcome_number(text, number)?;
    let mut rank = 0u32;
    for row in rows {
        print_row(text, rank, row)?;
        rank = rank.saturating_add(1);
    }
    Ok(())
}

/// All outcomes.
fn print_outcomes<A: Allocator>(text: &mut Vec<u8, A>, shown: &[Shown<A>]) -> Result<(), AllocError>
    ensures { OnOk result (text.new.items ≡ outcomes_to text.old.items 1 (map told_of shown.now)) }
{
    let mut number = 1u32;
    for outcome in shown {
        print_outcome(text, number, &outcome.rows)?;
        number = number.saturating_add(1);
    }
    Ok(())
}

/// Whether a rank ended with other words.
fn ended_otherwise<A: Allocator>(words: &[u8], row: Option<&Row<A>>) -> bool
    ensures { result ≡ ended_otherwise words.now (option_map (λ row. row_of row.now) row.entry) }
{
    match row {
        Some(row) => match row.fate {
            Fate::Ended => row.noted.as_slice() != words,
            Fate::Runs => false,
            Fate::Out => false,
            Fate::Died => false,
        },
        None => false,
    }
}

/// Whether two ranks ended with different words.
fn differ<A: Allocator>(row: Option<&Row<A>>, other: Option<&Row<A>>) -> bool
    ensures { result ≡ differ (option_map (λ row. row_of row.now) row.entry) (option_map (λ row. row_of row.now) other.entry) }
{
    match row {
        Some(row) => match row.fate {
            Fate::Ended => ended_otherwise(&row.noted, other),
            Fate::Runs => false,
            Fate::Out => false,
            Fate::Died => false,
        },
        None => false,
    }
}

/// What became of a rank, by its number.
fn row_at<A: Allocator>(rows: &[Row<A>], rank: u16) -> Option<&Row<A>>
    ensures { option_map (λ row. row_of row.now) result ≡ slice_get (map row_of rows.now) rank }
{
    rows.get(usize::from(rank))
}

/// Whether one of these ranks ended with other words than this one.
fn differs_from<A: Allocator>(rows: &[Row<A>], rank: u16, ranks: &[u16]) -> bool
    ensures { result ≡ some (λ other. differ (slice_get (map row_of rows.now) rank) (slice_get (map row_of rows.now) other)) ranks.now }
{
    for other in ranks {
        if differ(row_at(rows, rank), row_at(rows, *other)) {
            return true;
        }
    }
    false
}

/// Whether two of these ranks ended with different words.
fn is_unlike<A: Allocator>(rows: &[Row<A>], ranks: &[u16]) -> bool
    ensures { result ≡ is_unlike (map row_of rows.now) ranks.now }
{
    for rank in ranks {
        if differs_from(rows, *rank, ranks) {
            return true;
        }
    }
    false
}

/// Whether a rank is stuck.
fn is_stuck_one<A: Allocator>(row: Option<&Row<A>>) -> bool
    ensures { result ≡ is_stuck_one (option_map (λ row. row_of row.now) row.entry) }
{
    match row {
        Some(row) => match row.fate {
            Fate::Runs => true,
            Fate::Ended => false,
            Fate::Out => false,
            Fate::Died => false,
        },
        None => false,
    }
}

/// Whether one of these ranks is stuck.
fn is_stuck<A: Allocator>(rows: &[Row<A>], ranks: &[u16]) -> bool
    ensures { result ≡ is_stuck (map row_of rows.now) ranks.now }
{
    for rank in ranks {
        if is_stuck_one(row_at(rows, *rank)) {
            return true;
        }
    }
    false
}

/// Whether words stand together in one of these notes.
fn some_note(noted: &[u8], words: &[u8]) -> bool
    ensures { result ≡ some_note words.now (lines_from [] noted.now) }
{
    let mut left = noted;
    'notes: while let Some((note, rest)) = split_line(left) {
        if has_words(note, words) {
            return true;
        }
        left = rest;
    }
    false
}

/// Whether words are a rank's fate, or stand together in one of its notes.
fn has_noted<A: Allocator>(words: &[u8], row: Option<&Row<A>>) -> bool
    ensures { result ≡ has_noted words.now (option_map (λ row. row_of row.now) row.entry) }
{
    match row {
        Some(row) => fate_word(row) == words || some_note(&row.noted, words),
        None => false,
    }
}

/// Whether all of what is to be found stands in an outcome.
fn has_all<A: Allocator>(program: &Program<A>, rows: &[Row<A>], find: &[Find]) -> bool
    ensures { result ≡ has_all program.now (map row_of rows.now) find.now }
{
    for wanted in find {
        if !has_noted(program.text(wanted.text), row_at(rows, wanted.rank)) {
            return false;
        }
    }
    true
}

/// A question.
#[derive(Clone, Copy)]
enum Question {
    Alike,
    Ended,
    Find,
}

impl Question {
    /// Its word.
    fn word(self) -> &'static [u8]
        ensures { result.now ≡ question_text self }
    {
        match self {
            Question::Alike => b"alike ",
            Question::Ended => b"ended ",
            Question::Find => b"find ",
        }
    }
}

/// Whether a program asks a question.
fn is_asked<A: Allocator>(program: &Program<A>, question: Question) -> bool
    ensures { result ≡ is_asked_for program.now question }
{
    match question {
        Question::Alike => !program.alike.is_empty(),
        Question::Ended => !program.ended.is_empty(),
        Question::Find => !program.find.is_empty(),
    }
}

/// Whether an outcome answers a question.
fn is_answer<A: Allocator>(program: &Program<A>, question: Question, rows: &[Row<A>]) -> bool
    ensures { result ≡ is_answer program.now question (map row_of rows.now) }
{
    match question {
        Question::Alike => is_unlike(rows, &program.alike),
        Question::Ended => is_stuck(rows, &program.ended),
        Question::Find => has_all(program, rows, &program.find),
    }
}

/// Whether one of these outcomes answers a question.
fn is_answered<A: Allocator>(program: &Program<A>, question: Question, shown: &[Shown<A>]) -> bool {
    for outcome in shown {
        if is_answer(program, question, &outcome.rows) {
            return true;
        }
    }
    false
}

/// Whether an outcome answers a question that is asked, and none of these earlier ones does.
fn answers_first<A: Allocator>(
    program: &Program<A>,
    question: Question,
    earlier: &[Shown<A>],
    rows: &[Row<A>],
) -> bool {
    is_asked(program, question)
        && is_answer(program, question, rows)
        && !is_answered(program, question, earlier)
}

/// Whether an outcome is the first to answer a question of the program: its script will be told.
pub(crate) fn is_first_answer<A: Allocator>(
    program: &Program<A>,
    earlier: &[Shown<A>],
    rows: &[Row<A>],
) -> bool {
    answers_first(program, Question::Alike, earlier, rows)
        || answers_first(program, Question::Ended, earlier, rows)
        || answers_first(program, Question::Find, earlier, rows)
}

/// The outcome that answers a question, with its script.
fn print_found<A: Allocator>(
    text: &mut Vec<u8, A>,
    number: u32,
    script: &[u8],
) -> Result<(), AllocError>
    ensures { OnOk result (text.new.items ≡ found_to text.old.items number script.now) }
{
    print_outcome_number(text, number)?;
    text.extend_from_slice(script)?;
    text.extend_from_slice(b"end\n")
}

/// The outcomes of a program that came up.
#[derive(Drop)]
pub(crate) struct Outcomes<'a, A: Allocator> {
    /// The program.
    pub(crate) program: &'a Program<A>,
    /// The outcomes.
    pub(crate) shown: &'a [Shown<A>],
    /// Whether all schedules were tried.
    pub(crate) is_whole: bool,
}

impl<'a, A: Allocator> Outcomes<'a, A> {
    /// That none of them answers a question.
    fn none_word(&self) -> &'static [u8]
        ensures { result.now ≡ none_text self.now.is_whole }
    {
        if self.is_whole {
            b"none\n"
        } else {
            b"none so far\n"
        }
    }

    /// How many there are: all, or some.
    fn count_word(&self) -> &'static [u8]
        ensures { result.now ≡ count_text self.now.is_whole }
    {
        if self.is_whole { b"all" } else { b"some" }
    }

    /// The answer to a question: the first outcome, with its script; or that there is none.
    fn print_answer(&self, text: &mut Vec<u8, A>, question: Question) -> Result<(), AllocError>
        ensures { OnOk result (text.new.items
            ≡ answer_to text.old.items self.now.program.now question self.now.is_whole 1 (map told_of self.now.shown.now)) }
    {
        let mut number = 1u32;
        for outcome in self.shown {
            if is_answer(self.program, question, &outcome.rows) {
                return print_found(text, number, &outcome.script);
            }
            number = number.saturating_add(1);
        }
        text.extend_from_slice(self.none_word())
    }

    /// The answer to a question, where it is asked.
    fn print_question(&self, text: &mut Vec<u8, A>, question: Question) -> Result<(), AllocError>
        ensures { OnOk result (text.new.items
            ≡ question_to text.old.items self.now.program.now question self.now.is_whole (map told_of self.now.shown.now)) }
    {
        if !is_asked(self.program, question) {
            return Ok(());
        }
        text.extend_from_slice(question.word())?;
        self.print_answer(text, question)
    }

    /// The answers to all questions.
    fn print_questions(&self, text: &mut Vec<u8, A>) -> Result<(), AllocError>
        ensures { OnOk result (text.new.items
            ≡ questions_to text.old.items self.now.program.now self.now.is_whole (map told_of self.now.shown.now)) }
    {
        self.print_question(text, Question::Alike)?;
        self.print_question(text, Question::Ended)?;
        self.print_question(text, Question::Find)
    }

    /// The last line: how many outcomes and states there are.
    fn print_counts(&self, text: &mut Vec<u8, A>, states: u32) -> Result<(), AllocError>
        ensures { OnOk result (text.new.items
            ≡ counts_to text.old.items self.now.is_whole (short (length (map told_of self.now.shown.now))) states) }
    {
        let outcomes = u32::try_from(self.shown.len()).unwrap_or(u32::MAX);
        text.extend_from_slice(self.count_word())?;
        text.extend_from_slice(b" outcomes ")?;
        print_point(text, outcomes)?;
        text.extend_from_slice(b" states ")?;
        print_point(text, states)?;
        text.push(b'\n')?;
        Ok(())
    }

    /// What is told of them, where so many states came up.
    pub(crate) fn tell(&self, alloc: A, states: u32) -> Result<Vec<u8, A>, AllocError>
        ensures { IfOk result (λ text. text.items ≡ told_text self.now.program.now (map told_of self.now.shown.now) self.now.is_whole states) }
    {
        let mut text = Vec::new(alloc);
        print_outcomes(&mut text, self.shown)?;
        self.print_questions(&mut text)?;
        self.print_counts(&mut text, states)?;
        Ok(text)
    }
}
