//! The machine of step scripts: a world over plain words, one pass, and each rank with its call under way.
ghost use Rattle.std.specs.Prelude.{◌≡◌, map, IfOk};
ghost use Rattle.ulfm_run.specs.Table.{IsTable, idle_seat, progress_of};

use crate::Seat;
use crate::step_lines::{run_line, walk_rank};
use std::alloc::{AllocError, Allocator};
use std::marker::Model;
use ulfm_comm::{Rank, World};
use ulfm_laws::FlagAnd;
use ulfm_lines::{Reach, StepMachine, Taken, Teller};
use ulfm_model::{Limits, StepLine};
use ulfm_words::{PlainPass, PlainWords};

/// Ranks over plain words, each of which may have a call under way, and the one pass that all steps are made over.
///
/// Once memory was refused in a line, it refuses every further line.
#[derive(Drop)]
pub struct StepTable<A: Allocator + Copy + Drop> {
    world: World<PlainWords<FlagAnd>, FlagAnd, A>,
    pass: PlainPass<FlagAnd, A>,
    // In the order of their numbers.
    seats: Vec<Seat<FlagAnd, A>, A>,
    // The ranks that a reply lists.
    group: Vec<u16, A>,
    // Whether memory was refused.
    failed: bool,
}

impl<A: Allocator + Copy + Drop> Model for StepTable<A> {
    ghost use Rattle.std.specs.Prelude.{◌≡◌, false};
    ghost use Rattle.ulfm_laws.specs.declared.flag_and.FlagAnd.{FlagAnd};
    ghost use Rattle.ulfm_model.specs.Traces.{Traced};
    ghost use Rattle.ulfm_run.specs.Table.{StandsFor, Table};

    ghost Value = { Table };

    ghost view = { λ a. record { name = a.world; pass = a.pass; seats = a.seats.items } };

    ghost invariant = { λ a. a.failed ≡ false → (now : Traced FlagAnd) × StandsFor a.world a.pass a.seats.items now };
}

// A seat for each rank, in order.
fn seats_of<A: Allocator + Copy + Drop>(
    alloc: A,
    ranks: Vec<Rank<FlagAnd, A>, A>,
) -> Result<Vec<Seat<FlagAnd, A>, A>, AllocError>
    ensures { IfOk result (λ seats. seats.items ≡ map idle_seat ranks.items) }
{
    let mut seats = Vec::with_capacity(alloc, ranks.len())?;
    for own in ranks {
        seats.push(Seat::new(own))?;
    }
    Ok(seats)
}

impl<A: Allocator + Copy + Drop> StepMachine<A> for StepTable<A> {
    ghost Stands = { IsTable };

    ghost Has = { λ table. progress_of table.pass table.seats };

    fn open(alloc: A, limits: Limits) -> Result<Self, AllocError> {
        let Ok(words) = PlainWords::open(limits) else {
            unreachable!()
        };
        let Ok((world, ranks)) = World::open(alloc, words) else {
            return Err(AllocError);
        };
        let pass = world.pass(alloc)?;
        let seats = seats_of(alloc, ranks)?;
        Ok(StepTable {
            world,
            pass,
            seats,
            group: Vec::new(alloc),
            failed: false,
        })
    }

    fn run(
        &mut self,
        step: &StepLine<FlagAnd>,
        teller: &mut Teller<A>,
    ) -> Result<Taken, AllocError> {
        if self.failed {
            return Err(AllocError);
        }
        let taken = run_line(
            &self.world,
            &mut self.pass,
            &mut self.seats,
            step,
            &mut self.group,
            teller,
        );
        self.failed = taken.is_err();
        taken
    }

    fn steps(
        &mut self,
        rank: u16,
        reach: Reach,
        teller: &mut Teller<A>,
    ) -> Result<u32, AllocError> {
        if self.failed {
            return Err(AllocError);
        }
        let made = walk_rank(
            &self.world,
            &mut self.pass,
            &mut self.seats,
            rank,
            reach,
            &mut self.group,
            teller,
        );
        self.failed = made.is_err();
        made
    }
}
