//! The model that is explored: each atomic step of each rank over the words of a state.
use crate::answers::{Answer, Answers, Note, Notes, plain, refused};
use crate::few::{Few, has_bit, with_bit, without_bit};
use crate::rounds::{
    Offer, Word, barrier_order, blocks_of, failed_members, member_of, silent, together,
};
use crate::state::{Open, Phase, Seat, State};
use crate::{Ask, Fate, May, Move, Op, Place, Program, most_moves, move_at};
use std::alloc::{AllocError, Allocator};
use ulfm_laws::FlagAnd;
use ulfm_model::{Call, Refusal, Reply};

/// A rank's call under way.
#[derive(Clone, Copy)]
pub(crate) struct Turn {
    /// The caller, 0 to 7.
    pub(crate) rank: u8,
    /// The number of the communicator that it calls on.
    pub(crate) comm: u8,
    /// What it asks for.
    pub(crate) ask: Ask,
}

impl Turn {
    /// The call, as a script has it.
    pub(crate) fn call(self) -> Call<FlagAnd> {
        self.ask.call(u16::from(self.rank), u16::from(self.comm))
    }
}

/// What a call does behind a step.
#[derive(Clone, Copy)]
pub(crate) enum Next {
    /// It waits for its next step.
    Step,
    /// It stands in another phase.
    Again,
    /// It is answered.
    Answer(Answer),
}

/// The program, and the words, replies and notes that came up.
#[derive(Drop)]
pub(crate) struct Engine<'a, A: Allocator> {
    /// What each rank does.
    pub(crate) program: &'a Program<A>,
    /// The replies, by their numbers.
    pub(crate) answers: Answers<A>,
    /// Lists of notes, by their numbers.
    pub(crate) notes: Notes<A>,
    // The words of members' places, each once.
    words: Vec<Word, A>,
    /// Whether more words came up than a state can tell apart.
    pub(crate) full: bool,
}

/// A flag's reply, or what a shrink's round gives.
fn flag_of(bits: u64) -> FlagAnd {
    FlagAnd { bits }
}

/// The context id that a shrink takes: the least of a set that isn't empty.
fn least(bits: u64) -> u8 {
    u8::try_from(bits.trailing_zeros()).unwrap_or(0)
}

/// A set of context ids without one.
fn without_context(bits: u64, context: u8) -> u64 {
    bits & !(1u64.checked_shl(u32::from(context)).unwrap_or(0))
}

impl<'a, A: Allocator + Copy + Drop> Engine<'a, A> {
    pub(crate) fn new(alloc: A, program: &'a Program<A>) -> Engine<'a, A> {
        Engine {
            program,
            answers: Answers::new(alloc),
            notes: Notes::new(alloc),
            words: Vec::new(alloc),
            full: false,
        }
    }

    /// The first state: each rank stands before its first call.
    pub(crate) fn first(&mut self, alloc: A) -> Result<State<A>, AllocError> {
        let mut state = State::first(alloc, self.program.limits)?;
        for rank in 0..state.layout.ranks {
            self.go_on(&mut state, rank)?;
        }
        Ok(state)
    }

    /// The number of a word, counted from 1.
    fn word_number(&mut self, word: Word) -> Result<u8, AllocError> {
        let at = match self.words.iter().position(|known| *known == word) {
            Some(at) => at,
            None => {
                self.words.push(word)?;
                self.words.len().saturating_sub(1)
            }
        };
        match u8::try_from(at.saturating_add(1)) {
            Ok(number) => Ok(number),
            Err(_) => {
                self.full = true;
                Ok(u8::MAX)
            }
        }
    }

    /// The word of a number.
    fn word(&self, number: u8) -> Word {
        let at = usize::from(number).saturating_sub(1);
        self.words.get(at).copied().unwrap_or(silent())
    }

    /// What the words of a round say together.
    fn decision(&self, state: &State<A>, comm: u8, round: u8) -> Word {
        let members = Few::of_set(state.members(comm));
        let mut word = silent();
        for place in 0..members.count() {
            if let Some(rank) = members.get(place) {
                word = together(word, self.word(state.slot(comm, round, rank)));
            }
        }
        word
    }

    /// A rank's program goes on to its next call, or to its end.
    fn go_on(&mut self, state: &mut State<A>, rank: u8) -> Result<(), AllocError> {
        let mut seat = state.seat(rank);
        let number = u16::from(rank);
        for _ in 0..most_moves(self.program, number) {
            match move_at(
                self.program,
                number,
                seat.place,
                self.answers.text(seat.last),
            ) {
                Move::Call => break,
                Move::Go { to } => seat.place = to,
                Move::Say { text, to } => {
                    seat.notes = self.notes.add(seat.notes, Note::Said(text))?;
                    seat.place = to;
                }
                Move::End => {
                    state.put_seat(rank, seat);
                    state.retire(rank, Fate::Ended);
                    return Ok(());
                }
            }
        }
        state.put_seat(rank, seat);
        Ok(())
    }

    /// The call that a rank stands before or in.
    pub(crate) fn turn(&self, state: &State<A>, rank: u8) -> Option<Turn> {
        let seat = state.seat(rank);
        match self.program.op(u16::from(rank), seat.place) {
            Some(Op::Call { ask, on, .. }) => {
                let comm = match on {
                    Place::Given(comm) => u8::try_from(comm).unwrap_or(u8::MAX),
                    Place::Current => seat.current,
                };
                Some(Turn { rank, comm, ask })
            }
            _ => None,
        }
    }

    /// Whom a rank declares next, where it stands before a declaration.
    pub(crate) fn declares(&self, state: &State<A>, rank: u8) -> Option<u8> {
        let seat = state.seat(rank);
        match self.program.op(u16::from(rank), seat.place) {
            Some(Op::Declare { rank, .. }) => Some(u8::try_from(rank).unwrap_or(0)),
            _ => None,
        }
    }

    /// Whether the operation that a rank stands at is quiet.
    fn is_quiet(&self, rank: u8, place: u16) -> bool {
        match self.program.op(u16::from(rank), place) {
            Some(Op::Call { quiet, .. }) => quiet,
            Some(Op::Declare { quiet, .. }) => quiet,
            _ => true,
        }
    }

    /// Declares a rank: one that dies makes no further step.
    pub(crate) fn declare(&self, state: &mut State<A>, rank: u8) {
        state.declare(rank);
        let dies = self.program.may_be_declared(u16::from(rank)) == May::Die;
        if dies && state.seat(rank).fate == Fate::Runs {
            state.retire(rank, Fate::Died);
        }
    }

    /// One atomic step of a rank, whose call begins first where none is under way. Says whether the call is answered.
    pub(crate) fn step(&mut self, state: &mut State<A>, rank: u8) -> Result<bool, AllocError> {
        if let Some(whom) = self.declares(state, rank) {
            self.step_declare(state, rank, whom)?;
            return Ok(true);
        }
        let Some(turn) = self.turn(state, rank) else {
            return Ok(true);
        };
        let mut seat = state.seat(rank);
        if seat.phase == Phase::Idle {
            seat.begin(Phase::Look);
            state.put_seat(rank, seat);
        }
        let mut next = self.step_phase(state, turn)?;
        for _ in 0..8 {
            match next {
                Next::Step => return Ok(false),
                Next::Answer(answer) => {
                    self.answer(state, turn, answer)?;
                    return Ok(true);
                }
                Next::Again => next = self.settle(state, turn),
            }
        }
        Ok(false)
    }

    /// A rank declares another, or itself.
    fn step_declare(&mut self, state: &mut State<A>, rank: u8, whom: u8) -> Result<(), AllocError> {
        let reply = if state.is_declared(whom) {
            Reply::AlreadyFailed
        } else {
            self.declare(state, whom);
            Reply::Declared
        };
        let mut seat = state.seat(rank);
        if seat.fate != Fate::Runs {
            return Ok(());
        }
        self.take_in(rank, &mut seat, plain(reply))?;
        state.put_seat(rank, seat);
        self.go_on(state, rank)
    }

    /// A reply is a rank's last one, and is noted where it isn't quiet, and the rank stands behind its operation.
    fn take_in(&mut self, rank: u8, seat: &mut Seat, answer: Answer) -> Result<(), AllocError> {
        seat.last = self.answers.number(answer)?;
        if !self.is_quiet(rank, seat.place) {
            seat.notes = self.notes.add(seat.notes, Note::Reply(seat.last))?;
        }
        seat.place = seat.place.saturating_add(1);
        Ok(())
    }

    /// A call is answered.
    fn answer(
        &mut self,
        state: &mut State<A>,
        turn: Turn,
        answer: Answer,
    ) -> Result<(), AllocError> {
        let mut seat = state.seat(turn.rank);
        seat.begin(Phase::Idle);
        if answer.reply == Reply::Pending && turn.ask == Ask::Wait {
            state.put_seat(turn.rank, seat);
            return Ok(());
        }
        if answer.reply == Reply::Started {
            seat.place = seat.place.saturating_add(1);
        } else {
            self.take_in(turn.rank, &mut seat, answer)?;
        }
        state.put_seat(turn.rank, seat);
        if answer.reply == Reply::Refused(Refusal::SelfFailed) {
            state.retire(turn.rank, Fate::Out);
            return Ok(());
        }
        self.go_on(state, turn.rank)
    }

    /// The atomic step of the phase that a call is in.
    fn step_phase(&mut self, state: &mut State<A>, turn: Turn) -> Result<Next, AllocError> {
        match state.seat(turn.rank).phase {
            Phase::Idle | Phase::Look => Ok(step_look(state, turn)),
            Phase::Spread => Ok(stand_before(state, turn, Phase::Settle)),
            Phase::Settle => self.step_settle(state, turn),
            Phase::Arrive => Ok(step_arrive(state, turn)),
            Phase::Revoke => Ok(step_revoke(state, turn)),
            Phase::Revocation => Ok(step_revocation(state, turn)),
            Phase::Block => Ok(step_block(state, turn)),
            Phase::BlockWing => Ok(step_block_wing(state, turn)),
            Phase::Mark => self.step_mark(state, turn),
            Phase::Slot => Ok(self.step_slot(state, turn)),
            Phase::SlotWing => Ok(go_past_slot(state, turn)),
            Phase::CacheWing => Ok(stand_before(state, turn, Phase::Cache)),
            Phase::Cache => Ok(self.step_cache(state, turn)),
            Phase::ReadOn => Ok(step_look(state, turn)),
            Phase::Comm => Ok(self.step_comm(state, turn)),
            Phase::Spawn => Ok(self.step_spawn(state, turn)),
            Phase::Arrival => Ok(step_arrival(state, turn)),
            Phase::Ending => Ok(step_ending(state, turn)),
        }
    }

    /// What a call does once its phase has come so far.
    fn settle(&mut self, state: &mut State<A>, turn: Turn) -> Next {
        let seat = state.seat(turn.rank);
        if seat.at < places_of(state, turn, seat) {
            return Next::Step;
        }
        match seat.phase {
            Phase::Look => crate::looking::after_look(state, turn, seat),
            Phase::Block => self.after_blocks(state, turn, seat),
            Phase::Mark => {
                state.put_seat(turn.rank, Seat { at: 0, ..seat });
                stand_before(state, turn, Phase::Slot)
            }
            Phase::ReadOn => self.after_reading(state, turn, seat),
            Phase::Comm => after_comms(state, turn),
            Phase::Arrival => {
                state.put_seat(turn.rank, Seat { known: 0, ..seat });
                stand_before(state, turn, Phase::Ending)
            }
            _ => Next::Step,
        }
    }

    /// The word that a rank contributes.
    fn own_word(&self, state: &State<A>, turn: Turn) -> Word {
        let seen = state.seat(turn.rank).seen;
        let offer = match turn.ask {
            Ask::Agree(flag) => Offer::Flag(flag.bits),
            _ => Offer::Contexts(free_contexts(state, turn.rank)),
        };
        Word {
            offer,
            known: failed_members(state, seen, turn.comm).count(),
            acked: state.acked(turn.rank, turn.comm),
        }
    }

    fn step_settle(&mut self, state: &mut State<A>, turn: Turn) -> Result<Next, AllocError> {
        let open = match turn.ask {
            Ask::Agree(_) => Open::Agree,
            _ => Open::Shrink,
        };
        let round = state.next_round(turn.rank, turn.comm, open);
        let taken = state.slot(turn.comm, round, turn.rank);
        if taken != 0 {
            let marked = self.word(taken).offer == Offer::Nothing;
            return Ok(Next::Answer(refused(if marked {
                Refusal::SelfFailed
            } else {
                Refusal::Twice
            })));
        }
        let word = self.word_number(self.own_word(state, turn))?;
        state.set_slot(turn.comm, round, turn.rank, word);
        state.begin(turn.rank, turn.comm, open);
        Ok(Next::Answer(plain(Reply::Started)))
    }

    fn step_mark(&mut self, state: &mut State<A>, turn: Turn) -> Result<Next, AllocError> {
        let mut seat = state.seat(turn.rank);
        let round = state.round(turn.rank, turn.comm);
        let failed = failed_members(state, seat.seen, turn.comm);
        let known = seat.at.saturating_add(1);
        if let Some(rank) = failed.get(seat.at) {
            if state.slot(turn.comm, round, rank) == 0 {
                let word = self.word_number(Word {
                    offer: Offer::Nothing,
                    known,
                    acked: 0,
                })?;
                state.set_slot(turn.comm, round, rank, word);
            }
        }
        seat.at = known;
        state.put_seat(turn.rank, seat);
        Ok(Next::Again)
    }

    fn step_slot(&self, state: &mut State<A>, turn: Turn) -> Next {
        let at = place_in_blocks(state.seat(turn.rank));
        let round = state.round(turn.rank, turn.comm);
        let members = state.members(turn.comm);
        let word = match member_of(members, at >> 4, at & 15) {
            Some(rank) => state.slot(turn.comm, round, rank),
            None => 0,
        };
        if word == 0 {
            return Next::Answer(plain(Reply::Pending));
        }
        if self.word(word).offer == Offer::Nothing {
            return go_past_slot(state, turn);
        }
        stand_before(state, turn, Phase::SlotWing)
    }

    fn step_cache(&mut self, state: &mut State<A>, turn: Turn) -> Next {
        let mut seat = state.seat(turn.rank);
        let round = state.round(turn.rank, turn.comm);
        let block = seat.at;
        state.cache(turn.comm, round, block);
        seat.known = with_bit(seat.known, block);
        let (count, _) = blocks_of(state.members(turn.comm));
        let whole = seat.known == if count == 1 { 1 } else { 3 };
        if whole {
            state.put_seat(turn.rank, seat);
            return self.decided(state, turn);
        }
        seat.phase = Phase::Slot;
        seat.at = block.saturating_add(1).saturating_mul(16);
        state.put_seat(turn.rank, seat);
        Next::Step
    }

    fn step_comm(&mut self, state: &mut State<A>, turn: Turn) -> Next {
        let mut seat = state.seat(turn.rank);
        if is_child(state, turn, seat.at) {
            return self.shrunk(state, turn, seat.at);
        }
        if seat.at < state.comms() {
            seat.at = seat.at.saturating_add(1);
        } else {
            seat.phase = Phase::Spawn;
        }
        state.put_seat(turn.rank, seat);
        Next::Again
    }

    fn step_spawn(&mut self, state: &mut State<A>, turn: Turn) -> Next {
        let mut seat = state.seat(turn.rank);
        let round = state.round(turn.rank, turn.comm);
        if seat.at >= state.comms() {
            let known = self.decision(state, turn.comm, round).known;
            let failed = failed_members(state, state.failures(), turn.comm);
            let mut members = state.members(turn.comm);
            for place in 0..known {
                if let Some(rank) = failed.get(place) {
                    members = without_bit(members, rank);
                }
            }
            state.add_comm(turn.comm, round, members);
        }
        if is_child(state, turn, seat.at) {
            return self.shrunk(state, turn, seat.at);
        }
        seat.phase = Phase::Comm;
        seat.at = seat.at.saturating_add(1);
        state.put_seat(turn.rank, seat);
        Next::Again
    }

    /// All blocks were looked at.
    fn after_blocks(&mut self, state: &mut State<A>, turn: Turn, seat: Seat) -> Next {
        let mut seat = seat;
        let (count, _) = blocks_of(state.members(turn.comm));
        seat.at = 0;
        if seat.known == if count == 1 { 1 } else { 3 } {
            state.put_seat(turn.rank, seat);
            return self.decided(state, turn);
        }
        seat.phase = Phase::Mark;
        state.put_seat(turn.rank, seat);
        Next::Again
    }

    /// The round is decided.
    fn decided(&mut self, state: &mut State<A>, turn: Turn) -> Next {
        let round = state.round(turn.rank, turn.comm);
        let word = self.decision(state, turn.comm, round);
        let shrinks = state.open(turn.rank, turn.comm) == Open::Shrink;
        let answer = match word.offer {
            Offer::Both => refused(Refusal::Mismatch),
            Offer::Contexts(bits) if shrinks && bits != 0 => {
                let mut seat = state.seat(turn.rank);
                seat.begin(Phase::ReadOn);
                state.put_seat(turn.rank, seat);
                return Next::Again;
            }
            Offer::Flag(bits) if !shrinks => plain(Reply::Agreed {
                value: flag_of(bits),
                failed: u16::from(word.known),
                raised: word.acked < word.known,
            }),
            _ => refused(Refusal::NoContext),
        };
        state.close(turn.rank, turn.comm);
        Next::Answer(answer)
    }

    /// The failures that the round's decision names are read on.
    fn after_reading(&self, state: &mut State<A>, turn: Turn, seat: Seat) -> Next {
        let mut seat = seat;
        let round = state.round(turn.rank, turn.comm);
        let known = self.decision(state, turn.comm, round).known;
        let failed = failed_members(state, seat.seen, turn.comm);
        if failed.count() < known {
            return Next::Step;
        }
        if failed.has(turn.rank) {
            return Next::Answer(refused(Refusal::SelfFailed));
        }
        seat.phase = Phase::Comm;
        seat.at = 1;
        state.put_seat(turn.rank, seat);
        Next::Again
    }

    /// A shrink's communicator is found or made.
    fn shrunk(&mut self, state: &mut State<A>, turn: Turn, made: u8) -> Next {
        let round = state.round(turn.rank, turn.comm);
        let context = match self.decision(state, turn.comm, round).offer {
            Offer::Contexts(bits) => least(bits),
            _ => 0,
        };
        state.close(turn.rank, turn.comm);
        state.take(turn.rank, made, context);
        let mut seat = state.seat(turn.rank);
        seat.current = made;
        state.put_seat(turn.rank, seat);
        let group = Few::of_set(state.members(made));
        Next::Answer(Answer {
            reply: Reply::Shrunk {
                comm: u16::from(made),
                context,
                size: u16::from(group.count()),
            },
            group,
        })
    }
}

/// The context ids of none of a rank's communicators.
fn free_contexts<A: Allocator + Copy + Drop>(state: &State<A>, rank: u8) -> u64 {
    let mut free = u64::MAX;
    for comm in 0..state.layout.comms {
        if let Some(context) = state.context(rank, comm) {
            free = without_context(free, context);
        }
    }
    free
}

/// A load of the list of failures.
fn step_look<A: Allocator + Copy + Drop>(state: &mut State<A>, turn: Turn) -> Next {
    let mut seat = state.seat(turn.rank);
    if seat.seen < state.failures() {
        seat.seen = seat.seen.saturating_add(1);
    } else {
        seat.at = 1;
    }
    state.put_seat(turn.rank, seat);
    Next::Again
}

fn step_arrive<A: Allocator + Copy + Drop>(state: &mut State<A>, turn: Turn) -> Next {
    let round = state.begin(turn.rank, turn.comm, Open::Barrier);
    state.arrive(turn.comm, round, turn.rank);
    Next::Answer(plain(Reply::Started))
}

fn step_revoke<A: Allocator + Copy + Drop>(state: &mut State<A>, turn: Turn) -> Next {
    let before = state.is_revoked(turn.comm);
    state.revoke(turn.comm);
    Next::Answer(plain(if before {
        Reply::AlreadyRevoked
    } else {
        Reply::Revoked
    }))
}

fn step_revocation<A: Allocator + Copy + Drop>(state: &mut State<A>, turn: Turn) -> Next {
    let revoked = state.is_revoked(turn.comm);
    Next::Answer(plain(Reply::Standing { revoked }))
}

fn step_block<A: Allocator + Copy + Drop>(state: &mut State<A>, turn: Turn) -> Next {
    let mut seat = state.seat(turn.rank);
    let round = state.round(turn.rank, turn.comm);
    if state.is_cached(turn.comm, round, seat.at) {
        return stand_before(state, turn, Phase::BlockWing);
    }
    seat.at = seat.at.saturating_add(1);
    state.put_seat(turn.rank, seat);
    Next::Again
}

fn step_block_wing<A: Allocator + Copy + Drop>(state: &mut State<A>, turn: Turn) -> Next {
    let mut seat = state.seat(turn.rank);
    seat.phase = Phase::Block;
    seat.known = with_bit(seat.known, seat.at);
    seat.at = seat.at.saturating_add(1);
    state.put_seat(turn.rank, seat);
    Next::Again
}

/// A call of which nothing changes but what is next stands before a step of this phase.
pub(crate) fn stand_before<A: Allocator + Copy + Drop>(
    state: &mut State<A>,
    turn: Turn,
    phase: Phase,
) -> Next {
    let mut seat = state.seat(turn.rank);
    seat.phase = phase;
    state.put_seat(turn.rank, seat);
    Next::Step
}

/// The place that a reading stands at, as `Phase::Slot` has it: a first block that is known is passed over.
fn place_in_blocks(seat: Seat) -> u8 {
    if seat.at < 16 && has_bit(seat.known, 0) {
        seat.at.saturating_add(16)
    } else {
        seat.at
    }
}

/// A member's place was read: the next member's comes, or the block.
fn go_past_slot<A: Allocator + Copy + Drop>(state: &mut State<A>, turn: Turn) -> Next {
    let mut seat = state.seat(turn.rank);
    let (_, size) = blocks_of(state.members(turn.comm));
    let at = place_in_blocks(seat);
    if (at & 15).saturating_add(1) == size {
        seat.phase = Phase::CacheWing;
        seat.at = at >> 4;
    } else {
        seat.phase = Phase::Slot;
        seat.at = at.saturating_add(1);
    }
    state.put_seat(turn.rank, seat);
    Next::Step
}

/// Whether the communicator of a number is that of this shrink.
fn is_child<A: Allocator + Copy + Drop>(state: &State<A>, turn: Turn, number: u8) -> bool {
    let round = state.round(turn.rank, turn.comm);
    number < state.comms() && state.origin(number) == (turn.comm, round)
}

fn step_arrival<A: Allocator + Copy + Drop>(state: &mut State<A>, turn: Turn) -> Next {
    let mut seat = state.seat(turn.rank);
    let round = state.round(turn.rank, turn.comm);
    let failed = failed_members(state, seat.seen, turn.comm);
    let order = barrier_order(state.members(turn.comm), &failed);
    let here = match order.get(seat.at) {
        Some(rank) => has_bit(state.arrivals(turn.comm, round), rank),
        None => true,
    };
    if here {
        seat.at = seat.at.saturating_add(1);
    } else {
        seat.phase = Phase::Ending;
        seat.known = if seat.at < failed.count() { 1 } else { 2 };
    }
    state.put_seat(turn.rank, seat);
    Next::Again
}

fn step_ending<A: Allocator + Copy + Drop>(state: &mut State<A>, turn: Turn) -> Next {
    let known = state.seat(turn.rank).known;
    let answer = if state.is_revoked(turn.comm) {
        refused(Refusal::IsRevoked)
    } else if known == 0 {
        plain(Reply::Done)
    } else if known == 1 {
        refused(Refusal::ProcFailed)
    } else {
        return Next::Answer(plain(Reply::Pending));
    };
    state.close(turn.rank, turn.comm);
    Next::Answer(answer)
}

/// So many places a phase goes through, one behind another, before the call goes on; none where it doesn't go from place to place.
fn places_of<A: Allocator + Copy + Drop>(state: &State<A>, turn: Turn, seat: Seat) -> u8 {
    let members = state.members(turn.comm);
    match seat.phase {
        Phase::Block => blocks_of(members).0,
        Phase::Mark => failed_members(state, seat.seen, turn.comm).count(),
        Phase::Comm => state.layout.comms,
        Phase::Arrival => Few::of_set(members).count(),
        _ => 0,
    }
}

/// No communicator is left to look at.
fn after_comms<A: Allocator + Copy + Drop>(state: &mut State<A>, turn: Turn) -> Next {
    state.close(turn.rank, turn.comm);
    Next::Answer(refused(Refusal::NoRoom))
}
