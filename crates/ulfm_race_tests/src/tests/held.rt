// A race whose gate holds all ranks but one.
use crate::tests::plans::plan_of;
use std::test::Fail;
use ulfm_race::{Gate, RaceFault, Turn, race};

/// Says false to every rank but this one.
#[derive(Drop)]
struct Only(u16);

impl Gate for Only {
    fn go(&self, rank: u16, _turn: Turn) -> bool {
        rank == self.0
    }

    fn answered(&self, _rank: u16) {}
}

#[test]
fn race_held(rt: HostRuntime) -> Result<(), Fail> {
    let plan = plan_of(4, 3);
    for rank in 0..4 {
        let outcome = race(&rt, rt.alloc(), plan, &Only(rank));
        assert!(rt; matches!(outcome, Err(RaceFault::Held)));
    }
    Ok(())
}
