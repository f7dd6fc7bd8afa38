// Races whose gate counts for each rank what it was asked and told, in which order, and says false at one turn.
use std::sync::{Mutex, Wait};
use std::test::Fail;
use ulfm_race::{Gate, Plan, RaceFault, Turn, race};

/// Where a rank stands, by what the gate was asked and told of it.
#[derive(Clone, Copy, Drop, PartialEq, Eq)]
enum Stage {
    /// It is about to start, or was answered its last poll.
    Between,
    /// It asked for a start.
    Starts,
    /// Its start was answered.
    Started,
    /// It asked for a poll.
    Polls,
}

/// What the gate was asked and told of one rank.
#[derive(Clone, Copy, Drop)]
struct GateState {
    stage: Stage,
    asks: u32,
    starts: u32,
    answers: u32,
    // Whether something came that may not come there.
    out_of_order: bool,
    // Whether the gate said false.
    said_no: bool,
}

const NEW: GateState = GateState {
    stage: Stage::Between,
    asks: 0,
    starts: 0,
    answers: 0,
    out_of_order: false,
    said_no: false,
};

impl GateState {
    // A start or a poll is asked for.
    fn ask(&mut self, turn: Turn) {
        self.asks = self.asks.saturating_add(1);
        match (turn, self.stage) {
            (Turn::Contribute, Stage::Between) => {
                self.starts = self.starts.saturating_add(1);
                self.stage = Stage::Starts;
            }
            (Turn::Poll, Stage::Started) | (Turn::Poll, Stage::Polls) => self.stage = Stage::Polls,
            _ => self.out_of_order = true,
        }
    }

    // The rank was answered.
    fn answer(&mut self) {
        self.answers = self.answers.saturating_add(1);
        match self.stage {
            Stage::Starts => self.stage = Stage::Started,
            Stage::Polls => self.stage = Stage::Between,
            _ => self.out_of_order = true,
        }
    }

    // Whether the gate was told once of each answer: of every start and of every last poll, where the last start may be refused, and what was
    // held isn't answered.
    fn is_told(&self) -> bool {
        let twice = self.starts.saturating_mul(2);
        let missing = match self.stage {
            Stage::Between => 0,
            Stage::Started | Stage::Polls => 1,
            Stage::Starts => 2,
        };
        !self.out_of_order && self.answers.saturating_add(missing) == twice
    }
}

/// A gate that says false at one turn of one rank: at that of this number, the first of which is 1.
#[derive(Drop)]
struct Order<'a, R: Wait> {
    rt: &'a R,
    no: (u16, u32),
    seats: Mutex<[GateState; 3]>,
}

impl<'a, R: Wait> Order<'a, R> {
    fn new(rt: &'a R, no: (u16, u32)) -> Order<'a, R> {
        Order {
            rt,
            no,
            seats: Mutex::new([NEW; 3]),
        }
    }

    // What it was asked and told of a rank.
    fn seat(&self, rank: usize) -> Option<GateState> {
        self.seats.lock(self.rt).get(rank).copied()
    }

    // Whether it was told once of each answer of every rank.
    fn is_told(&self) -> bool {
        self.seats.lock(self.rt).iter().all(|seat| seat.is_told())
    }

    // Whether it said false.
    fn said_no(&self) -> bool {
        self.seats.lock(self.rt).iter().any(|seat| seat.said_no)
    }
}

impl<'a, R: Wait> Gate for Order<'a, R> {
    fn go(&self, rank: u16, turn: Turn) -> bool {
        let mut seats = self.seats.lock(self.rt);
        let Some(seat) = seats.get_mut(usize::from(rank)) else {
            return false;
        };
        seat.ask(turn);
        seat.said_no = (rank, seat.asks) == self.no;
        !seat.said_no
    }

    fn answered(&self, rank: u16) {
        let mut seats = self.seats.lock(self.rt);
        if let Some(seat) = seats.get_mut(usize::from(rank)) {
            seat.answer();
        }
    }
}

const PLAN: Plan = Plan {
    ranks: 3,
    rounds: 4,
    fail: None,
};

#[test]
fn each_answer_is_told_once(rt: HostRuntime) -> Result<(), Fail> {
    let gate = Order::new(&rt, (0, 0));
    let outcome = race(&rt, rt.alloc(), PLAN, &gate)?;
    assert_eq!(rt; outcome.group.as_slice(), [0, 1, 2].as_slice());
    assert!(rt; gate.is_told());
    for rank in 0..3 {
        let seat = gate.seat(rank).unwrap_or(NEW);
        assert!(rt; (seat.starts, seat.answers) == (5, 10) && seat.stage == Stage::Between);
        assert!(rt; seat.asks >= 10);
    }
    Ok(())
}

#[test]
fn each_answer_is_told_once_with_a_failure(rt: HostRuntime) -> Result<(), Fail> {
    for _ in 0..20 {
        let gate = Order::new(&rt, (0, 0));
        let plan = Plan {
            fail: Some(1),
            ..PLAN
        };
        race(&rt, rt.alloc(), plan, &gate)?;
        assert!(rt; gate.is_told());
    }
    Ok(())
}

#[test]
fn held_where_the_gate_said_no(rt: HostRuntime) -> Result<(), Fail> {
    for rank in 0..3 {
        for number in 1..=16 {
            let gate = Order::new(&rt, (rank, number));
            let outcome = race(&rt, rt.alloc(), PLAN, &gate);
            let is_held = matches!(outcome, Err(RaceFault::Held));
            assert!(rt; is_held == gate.said_no() && (is_held || outcome.is_ok()));
            assert!(rt; gate.is_told());
        }
    }
    Ok(())
}
