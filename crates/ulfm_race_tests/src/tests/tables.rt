// Races whose gate keeps a table of what each of two ranks has come to, under a lock, and lets a rank wait for the other.
use crate::tests::plans::plan_of;
use std::sync::{Mutex, Wait};
use std::test::Fail;
use std::thread;
use ulfm_laws::flag_and::FlagAnd;
use ulfm_model::reply::Reply;
use ulfm_race::{Gate, Plan, Turn, race};

/// What one rank has come to.
#[derive(Clone, Copy, Drop)]
struct Progress {
    polls: u32,
    starts: u16,
    answers: u32,
}

const NEW: Progress = Progress {
    polls: 0,
    starts: 0,
    answers: 0,
};

/// What both have come to.
#[derive(Clone, Copy, Drop)]
struct Table {
    first: Progress,
    second: Progress,
}

impl Table {
    // The seat of a rank.
    fn seat(&mut self, rank: u16) -> &mut Progress {
        if rank == 0 {
            &mut self.first
        } else {
            &mut self.second
        }
    }
}

/// How often a rank is answered until its start of this number has its reply: twice in each round before, and once.
fn started(number: u16) -> u32 {
    (2 * u32::from(number)).saturating_sub(1)
}

/// Whom a gate lets wait.
#[derive(Clone, Copy)]
enum Rule {
    /// Each rank's first poll waits until both were asked for. From rank 0's second start on, its next turn waits until rank 1 was answered
    /// to its start of that round.
    Meet,
    /// Rank 1's first turn waits until rank 0 was answered twice: to its start, and in its first round.
    Second,
    /// Rank 1's first turn waits until rank 0 asked for three polls, all of its first round, which needs rank 1.
    Third,
}

impl Rule {
    // Whether a rank may take this turn.
    fn lets(self, table: Table, rank: u16, turn: Turn) -> bool {
        match self {
            Rule::Meet => {
                let together = table.first.polls > 0 && table.second.polls > 0;
                let follows = rank == 1
                    || table.first.starts < 2
                    || table.second.answers >= started(table.first.starts);
                turn == Turn::Contribute || together && follows
            }
            Rule::Second => rank == 0 || table.first.answers >= 2,
            Rule::Third => rank == 0 || table.first.polls >= 3,
        }
    }
}

/// A gate with a table. It says false after a thousand turns of a thousand looks each, with a yield after each look.
#[derive(Drop)]
struct Tables<'a, R: Wait> {
    rt: &'a R,
    rule: Rule,
    table: Mutex<Table>,
}

impl<'a, R: Wait> Tables<'a, R> {
    fn new(rt: &'a R, rule: Rule) -> Tables<'a, R> {
        let table = Table {
            first: NEW,
            second: NEW,
        };
        Tables {
            rt,
            rule,
            table: Mutex::new(table),
        }
    }

    // A turn is asked for.
    fn note(&self, rank: u16, turn: Turn) {
        let mut table = self.table.lock(self.rt);
        let seat = table.seat(rank);
        match turn {
            Turn::Contribute => seat.starts = seat.starts.saturating_add(1),
            Turn::Poll => seat.polls = seat.polls.saturating_add(1),
        }
    }

    // Looks once.
    fn looks(&self, rank: u16, turn: Turn) -> bool {
        let table = *self.table.lock(self.rt);
        self.rule.lets(table, rank, turn)
    }

    // Looks a thousand times.
    fn looks_on(&self, rank: u16, turn: Turn) -> bool {
        for _look in 0..1_000u32 {
            if self.looks(rank, turn) {
                return true;
            }
            thread::yield_now();
        }
        false
    }
}

impl<'a, R: Wait> Gate for Tables<'a, R> {
    fn go(&self, rank: u16, turn: Turn) -> bool {
        self.note(rank, turn);
        for _turn in 0..1_000u32 {
            if self.looks_on(rank, turn) {
                return true;
            }
        }
        false
    }

    fn answered(&self, rank: u16) {
        let mut table = self.table.lock(self.rt);
        let seat = table.seat(rank);
        seat.answers = seat.answers.saturating_add(1);
    }
}

#[test]
fn gate_two_ranks(rt: HostRuntime) -> Result<(), Fail> {
    let plan = plan_of(2, 2);
    let gate = Tables::new(&rt, Rule::Meet);
    let outcome = race(&rt, rt.alloc(), plan, &gate)?;
    assert_eq!(rt; outcome.replies.len(), 2);
    assert_eq!(rt; outcome.group.as_slice(), [0, 1].as_slice());
    Ok(())
}

#[test]
fn race_declares(rt: HostRuntime) -> Result<(), Fail> {
    let plan = Plan {
        fail: Some(1),
        ..plan_of(2, 1)
    };
    let gate = Tables::new(&rt, Rule::Second);
    let outcome = race(&rt, rt.alloc(), plan, &gate)?;
    let raised = Reply::Agreed {
        value: FlagAnd { bits: 0xffff_fffe },
        failed: 1,
        raised: true,
    };
    assert_eq!(rt; outcome.replies.len(), 2);
    assert_eq!(rt; outcome.replies[0].first(), Some(&raised));
    Ok(())
}

#[test]
fn each_poll_is_asked_for(rt: HostRuntime) -> Result<(), Fail> {
    let plan = plan_of(2, 1);
    let gate = Tables::new(&rt, Rule::Third);
    let outcome = race(&rt, rt.alloc(), plan, &gate)?;
    assert_eq!(rt; outcome.group.as_slice(), [0, 1].as_slice());
    Ok(())
}
