// Races whose gate lets all run as they like.
ghost use Rattle.std.specs.Prelude.{◌≡◌, IfErr, true};
ghost use Rattle.ulfm_race.specs.Races.{IsPlan};

use crate::tests::plans::plan_of;
use std::alloc::{AllocError, Global};
use std::sync::Wait;
use std::test::Fail;
use std::thread::Threads;
use ulfm_laws::flag_and::FlagAnd;
use ulfm_model::reply::Reply;
use ulfm_race::{Gate, Outcome, Plan, RaceFault, Turn, race};

/// Always says true, and contracts know that.
pub(crate) struct Free;

impl Gate for Free {
    ghost may_say = { λ _ _ _ said. said ≡ true };

    fn go(&self, _rank: u16, _turn: Turn) -> bool {
        true
    }

    fn answered(&self, _rank: u16) {}
}

/// A race that nothing holds: where it has no outcome, memory was refused, or a thread.
fn free_race<R: Threads + Wait + Sync>(
    rt: &R,
    alloc: Global,
    plan: Plan,
) -> Result<Outcome, RaceFault>
    requires { IsPlan plan }
    ensures { IfErr result (λ fault. fault ≡ RaceFault.Memory) }
{
    race(rt, alloc, plan, &Free)
}

/// An agree of these bits that nobody failed in.
fn clean(bits: u64) -> Reply<FlagAnd> {
    Reply::Agreed {
        value: FlagAnd { bits },
        failed: 0,
        raised: false,
    }
}

/// What each of four ranks is answered in two rounds, where nobody is declared.
fn four_answers(alloc: Global) -> Result<Vec<Reply<FlagAnd>>, AllocError> {
    let made = Reply::Shrunk {
        comm: 1,
        context: 1,
        size: 4,
    };
    Ok(vec![in alloc; clean(0xffff_fff0), clean(0xffff_ffe1), made]?)
}

#[test]
fn race_of_four(rt: HostRuntime) -> Result<(), Fail> {
    let plan = plan_of(4, 2);
    let outcome = free_race(&rt, rt.alloc(), plan)?;
    let wanted = four_answers(rt.alloc())?;
    assert_eq!(rt; outcome.replies.len(), 4);
    for replies in &outcome.replies {
        assert_eq!(rt; replies.as_slice(), wanted.as_slice());
    }
    assert_eq!(rt; outcome.group.as_slice(), [0, 1, 2, 3].as_slice());
    Ok(())
}

#[test]
fn race_of_sixty_four(rt: HostRuntime) -> Result<(), Fail> {
    let plan = plan_of(64, 100);
    let outcome = race(&rt, rt.alloc(), plan, &Free)?;
    assert_eq!(rt; outcome.replies.len(), 64);
    for replies in &outcome.replies {
        assert_eq!(rt; replies.len(), 101);
    }
    assert_eq!(rt; outcome.group.len(), 64);
    Ok(())
}
