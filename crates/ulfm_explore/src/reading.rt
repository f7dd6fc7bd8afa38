//! What became of a rank, read off a trace: its program goes along with the trace's lines.
ghost use Rattle.std.specs.Prelude.{◌≡◌, ◌<◌, ◌∷◌, [], IfOk, OnOk, MatchOption, length, option_map};
ghost use Rattle.ulfm_script.specs.{Scripts.{lines_from}, Words.{rest_at}};
ghost use Rattle.ulfm_schedules.specs.Programs.{move_at, op_at};
ghost use Rattle.ulfm_explore.specs.Readings.{after_reply, answered, begun, behind, declaration_answered, declared, failed, gone_on, made_in, may_begin, may_declare, may_fail, moved, noting, rests, row_in, saying, stands_before, start, takes, takes_all, takes_call, takes_event, takes_reply, told};
ghost use Rattle.ulfm_explore.specs.Views.{reached, row_of};

use crate::asking::{
    asked_by, calls_nobody, declares, dies, is_caller, is_declarable, is_number, is_of_ranks,
    is_on, is_quiet, is_wait, made_in, runs, text_behind,
};
use std::alloc::{AllocError, Allocator};
use ulfm_schedules::{Fate, Move, Program, Row, most_moves, move_at};
use ulfm_script::print_call;
use ulfm_script::words::{read_number, split_word};

/// How far a rank's program has gone along with a trace.
#[derive(Drop)]
pub(crate) struct Reading<A: Allocator> {
    fate: Fate,
    place: u16,
    // The last communicator that it got from a shrink.
    current: u16,
    // Whether a call of it is under way.
    is_calling: bool,
    // Whether there was a reply that could be tested, and its text.
    is_answered: bool,
    last: Vec<u8, A>,
    noted: Vec<u8, A>,
    // So many declarations were called and answered, and so many ranks are declared.
    called: u16,
    failures: u16,
    // Whether each call was the program's.
    fits: bool,
}

impl<A: Allocator + Copy + Drop> Reading<A> {
    /// A rank before all steps.
    fn new(alloc: A) -> Reading<A>
        ensures { reached result ≡ start }
    {
        Reading {
            fate: Fate::Runs,
            place: 0,
            current: 0,
            is_calling: false,
            is_answered: false,
            last: Vec::new(alloc),
            noted: Vec::new(alloc),
            called: 0,
            failures: 0,
            fits: true,
        }
    }

    /// Takes in a note.
    fn note(&mut self, words: &[u8]) -> Result<(), AllocError>
        ensures { OnOk result (reached self.new ≡ noting words.now (reached self.old)) }
    {
        self.noted.extend_from_slice(words)?;
        self.noted.push(b'\n')?;
        Ok(())
    }

    /// Takes in words of the rank's own.
    fn say(&mut self, words: &[u8]) -> Result<(), AllocError>
        ensures { OnOk result (reached self.new ≡ saying words.now (reached self.old)) }
    {
        self.noted.extend_from_slice(b"say ")?;
        self.note(words)
    }

    /// What the program does at its place.
    fn next_move(&self, program: &Program<A>, rank: u16) -> Move
        ensures { result ≡ move_at program.now rank self.now.place (reached self.now).last }
    {
        if self.is_answered {
            move_at(program, rank, self.place, Some(self.last.as_slice()))
        } else {
            move_at(program, rank, self.place, None)
        }
    }

    /// The program makes a move.
    fn make(&mut self, program: &Program<A>, next: Move) -> Result<(), AllocError>
        ensures { OnOk result (reached self.new ≡ moved program.now next (reached self.old)) }
    {
        match next {
            Move::Call => Ok(()),
            Move::Go { to } => {
                self.place = to;
                Ok(())
            }
            Move::Say { text, to } => {
                self.say(program.text(text))?;
                self.place = to;
                Ok(())
            }
            Move::End => {
                self.fate = Fate::Ended;
                Ok(())
            }
        }
    }

    /// The program goes on to its next call, or to its end.
    fn go_on(&mut self, program: &Program<A>, rank: u16) -> Result<(), AllocError>
        ensures { OnOk result (reached self.new ≡ gone_on program.now rank (reached self.old)) }
    {
        let most = most_moves(program, rank);
        for number in 0..most {
            let next = self.next_move(program, rank);
            self.make(program, next)?;
            if !is_on(next) {
                return Ok(());
            }
        }
        Ok(())
    }

    /// Whether the rank may begin this call.
    fn may_begin(
        &self,
        alloc: A,
        program: &Program<A>,
        rank: u16,
        call: &[u8],
    ) -> Result<bool, AllocError>
        ensures { IfOk result (λ may. may ≡ may_begin program.now rank call.now (reached self.now)) }
    {
        if self.is_calling || !runs(self.fate) {
            return Ok(false);
        }
        let Some(asked) = asked_by(rank, self.current, program.op(rank, self.place)) else {
            return Ok(false);
        };
        let mut text = Vec::new(alloc);
        print_call(&mut text, &asked)?;
        Ok(text.as_slice() == call)
    }

    /// A call of the rank begins.
    fn begin(
        &mut self,
        alloc: A,
        program: &Program<A>,
        rank: u16,
        call: &[u8],
    ) -> Result<(), AllocError>
        ensures { OnOk result (reached self.new ≡ begun program.now rank call.now (reached self.old)) }
    {
        if !self.may_begin(alloc, program, rank, call)? {
            self.fits = false;
        }
        self.is_calling = true;
        Ok(())
    }

    /// A reply is the last one, and is noted where it isn't quiet.
    fn tell(&mut self, reply: &[u8], quiet: bool) -> Result<(), AllocError>
        ensures { OnOk result (reached self.new ≡ told reply.now quiet (reached self.old)) }
    {
        self.is_answered = true;
        self.last.clear();
        self.last.extend_from_slice(reply)?;
        if quiet {
            return Ok(());
        }
        self.note(reply)
    }

    /// The rank goes on behind a reply that it took in: who is declared failed is out.
    fn go_behind_reply(
        &mut self,
        program: &Program<A>,
        rank: u16,
        reply: &[u8],
    ) -> Result<(), AllocError>
        ensures { OnOk result (reached self.new ≡ after_reply program.now rank reply.now (reached self.old)) }
    {
        if reply == b"refused 1 self-failed".as_slice() {
            self.fate = Fate::Out;
            return Ok(());
        }
        self.go_on(program, rank)
    }

    /// The rank goes on behind its operation, with this reply.
    fn go_behind(
        &mut self,
        program: &Program<A>,
        rank: u16,
        reply: &[u8],
        quiet: bool,
    ) -> Result<(), AllocError>
        ensures { OnOk result (reached self.new ≡ behind program.now rank reply.now quiet (reached self.old)) }
    {
        if reply == b"started".as_slice() {
            return self.go_on(program, rank);
        }
        self.tell(reply, quiet)?;
        self.go_behind_reply(program, rank, reply)
    }

    /// The rank's call, or its declaration, is answered.
    fn answer(&mut self, program: &Program<A>, rank: u16, reply: &[u8]) -> Result<(), AllocError>
        ensures { OnOk result (reached self.new ≡ answered program.now rank reply.now (reached self.old)) }
    {
        let here = program.op(rank, self.place);
        self.is_calling = false;
        if is_wait(here) && reply == b"pending".as_slice() {
            return Ok(());
        }
        self.current = made_in(reply, self.current);
        self.place = self.place.saturating_add(1);
        self.go_behind(program, rank, reply, is_quiet(here))
    }

    /// Whether the rank stands before the declaration of this one.
    fn stands_before(&self, program: &Program<A>, rank: u16, whom: &[u8]) -> bool
        ensures { result ≡ stands_before program.now rank whom.now (reached self.now) }
    {
        if self.is_calling || !runs(self.fate) {
            return false;
        }
        declares(program.op(rank, self.place), whom)
    }

    /// Whether the outside may declare this rank.
    fn may_fail(&self, program: &Program<A>, whom: &[u8]) -> bool
        ensures { result ≡ may_fail program.now whom.now (reached self.now) }
    {
        if self.failures >= program.most {
            return false;
        }
        match read_number(whom) {
            Ok(rank) => is_declarable(program.may_be_declared(rank)),
            Err(_) => false,
        }
    }

    /// Whether a declaration by this caller fits.
    fn may_declare(&self, program: &Program<A>, rank: u16, caller: Option<u8>, whom: &[u8]) -> bool
        ensures { result ≡ may_declare program.now rank caller whom.now (reached self.now) }
    {
        if is_caller(rank, caller) {
            self.stands_before(program, rank, whom)
        } else if is_of_ranks(program.limits.ranks, caller) {
            true
        } else {
            self.may_fail(program, whom)
        }
    }

    /// Somebody is declared: a rank that dies makes no further step.
    fn fail(&mut self, program: &Program<A>, rank: u16, whom: &[u8])
        ensures { reached self.new ≡ failed program.now rank whom.now (reached self.old) }
    {
        self.failures = self.failures.saturating_add(1);
        if is_number(whom, rank) && dies(program.may_be_declared(rank)) && runs(self.fate) {
            self.fate = Fate::Died;
        }
    }

    /// Whether the rank is at rest: its program is over, or stands before a wait, or goes round without a call.
    fn rests(&self, program: &Program<A>, rank: u16) -> bool
        ensures { result ≡ rests program.now rank (reached self.now) }
    {
        if !runs(self.fate) {
            return true;
        }
        let here = program.op(rank, self.place);
        !self.is_calling && (is_wait(here) || calls_nobody(here))
    }
}

/// What the lines of a trace are read by.
#[derive(Drop)]
struct Reader<'a, A: Allocator> {
    alloc: A,
    program: &'a Program<A>,
    // Who called each declaration, in order.
    callers: &'a [u8],
    // Whose reading it is.
    rank: u16,
}

impl<'a, A: Allocator + Copy + Drop> Reader<'a, A> {
    /// A declaration is called.
    fn declare(&self, reading: &mut Reading<A>, whom: &[u8])
        ensures { reached reading.new ≡ declared self.now.program.now self.now.callers.now self.now.rank whom.now (reached reading.old) }
    {
        let caller = self.callers.get(usize::from(reading.called)).copied();
        if !reading.may_declare(self.program, self.rank, caller, whom) {
            reading.fits = false;
        }
    }

    /// A declaration is answered: that of this rank, where it is the one who declared.
    fn answer_declaration(&self, reading: &mut Reading<A>, reply: &[u8]) -> Result<(), AllocError>
        ensures { OnOk result (reached reading.new
            ≡ declaration_answered self.now.program.now self.now.callers.now self.now.rank reply.now (reached reading.old)) }
    {
        let caller = self.callers.get(usize::from(reading.called)).copied();
        reading.called = reading.called.saturating_add(1);
        if is_caller(self.rank, caller) && runs(reading.fate) {
            return reading.answer(self.program, self.rank, reply);
        }
        Ok(())
    }

    /// Takes the line of a call, behind its first word.
    fn take_call(&self, reading: &mut Reading<A>, text: &[u8]) -> Result<(), AllocError>
        ensures { OnOk result (reached reading.new
            ≡ takes_call self.now.program.now self.now.callers.now self.now.rank text.now (reached reading.old)) }
    {
        let (verb, rest) = split_word(text);
        let fields = text_behind(rest);
        if verb == b"fail".as_slice() {
            self.declare(reading, fields);
            return Ok(());
        }
        if is_number(split_word(fields).0, self.rank) {
            return reading.begin(self.alloc, self.program, self.rank, text);
        }
        Ok(())
    }

    /// Takes the line of a reply, behind its first word.
    fn take_reply(&self, reading: &mut Reading<A>, fields: &[u8]) -> Result<(), AllocError>
        ensures { OnOk result (reached reading.new
            ≡ takes_reply self.now.program.now self.now.callers.now self.now.rank fields.now (reached reading.old)) }
    {
        let (by, rest) = split_word(fields);
        let (_, rest) = split_word(text_behind(rest));
        let reply = text_behind(rest);
        if by == b"-".as_slice() {
            return self.answer_declaration(reading, reply);
        }
        if is_number(by, self.rank) {
            return reading.answer(self.program, self.rank, reply);
        }
        Ok(())
    }

    /// Takes the line of an event, behind its first word.
    fn take_event(&self, reading: &mut Reading<A>, fields: &[u8])
        ensures { reached reading.new ≡ takes_event self.now.program.now self.now.rank fields.now (reached reading.old) }
    {
        let (_, rest) = split_word(fields);
        let (verb, rest) = split_word(text_behind(rest));
        if verb == b"fail".as_slice() {
            reading.fail(self.program, self.rank, text_behind(rest));
        }
    }

    /// Takes a line of the trace.
    fn take(&self, reading: &mut Reading<A>, line: &[u8]) -> Result<(), AllocError>
        ensures { OnOk result (reached reading.new ≡ takes self.now.program.now self.now.callers.now self.now.rank line.now (reached reading.old)) }
    {
        let (word, rest) = split_word(line);
        let fields = text_behind(rest);
        if word == b"call".as_slice() {
            return self.take_call(reading, fields);
        }
        if word == b"reply".as_slice() {
            return self.take_reply(reading, fields);
        }
        if word == b"event".as_slice() {
            self.take_event(reading, fields);
        }
        Ok(())
    }

    /// Takes the lines of a trace.
    fn take_all(&self, reading: &mut Reading<A>, trace: &[u8]) -> Result<(), AllocError>
        ensures { OnOk result (reached reading.new
            ≡ takes_all self.now.program.now self.now.callers.now self.now.rank (lines_from [] trace.now) (reached reading.old)) }
    {
        let mut left = trace;
        'lines: while let Some((line, rest)) = split_line(left) {
            self.take(reading, line)?;
            left = rest;
        }
        Ok(())
    }
}

/// The first line of a text, and what stands behind its newline; none where there is no newline.
pub(crate) fn split_line(text: &[u8]) -> Option<(&[u8], &[u8])>
    ensures { MatchOption result (lines_from [] text.now ≡ []) (λ parts. (lines_from [] text.now ≡ parts.0.now ∷ lines_from [] parts.1.now)
        × (length parts.1.now < length text.now)) }
{
    for (i, byte) in text.iter().enumerate() {
        if *byte == b'\n' {
            return Some((&text[..i], &text[i + 1..]));
        }
    }
    None
}

/// What became of a rank in a trace, and what it noted; none where a call in it isn't that of its program, or where the rank isn't at rest at the end, if
/// that is asked for. `callers` has who called each declaration, in order; another number than a rank's for the outside.
pub(crate) fn read_row<A: Allocator + Copy + Drop>(
    alloc: A,
    program: &Program<A>,
    callers: &[u8],
    trace: &[u8],
    at_rest: bool,
    rank: u16,
) -> Result<Option<Row<A>>, AllocError>
    ensures { IfOk result (λ row. option_map row_of row ≡ row_in program.now callers.now trace.now at_rest rank) }
{
    let mut reading = Reading::new(alloc);
    reading.go_on(program, rank)?;
    let reader = Reader {
        alloc,
        program,
        callers,
        rank,
    };
    reader.take_all(&mut reading, trace)?;
    if !reading.fits || (at_rest && !reading.rests(program, rank)) {
        return Ok(None);
    }
    Ok(Some(Row {
        fate: reading.fate,
        noted: reading.noted,
    }))
}
