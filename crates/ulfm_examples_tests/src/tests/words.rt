// Examples of words, and of what stands below them.
ghost use Rattle.std.specs.Prelude.{◌≡◌};

use crate::tests::open::two;
use std::test::Fail;
use ulfm_laws::meld_all::meld_all;
use ulfm_laws::{Acked, FlagAnd, Known};
use ulfm_model::{
    Caller, Contribution, Limits, Offer, OpenFault, Place, Refusal, Slot, refusal_number,
};
use ulfm_words::{PlainWords, read_slot, slot_words};

fn limits(ranks: u16, comms: u16, rounds: u16) -> Limits
    ensures { result ≡ record { ranks = ranks; comms = comms; rounds = rounds } }
{
    Limits {
        ranks,
        comms,
        rounds,
    }
}

#[test]
fn plain_words_open(rt: HostRuntime) -> Result<(), Fail> {
    let limits = limits(2, 1, 4);

    let words: PlainWords<FlagAnd> = PlainWords::open(limits)?;
    assert!(rt; words.limits == limits);

    Ok(())
}

#[test]
fn plain_pass_nth(rt: HostRuntime) -> Result<(), Fail> {
    let (_, member) = two(&rt, rt.alloc())?;
    let (world, _, mut pass) = member.into_parts();

    world.fail(&mut pass, 1)?;
    let step = pass.nth(0);
    assert!(rt;
        step.map(|step| (step.place, step.by)) == Some((Place::List { index: 0 }, Caller::Outside))
    );
    assert!(rt; pass.nth(1).is_none());

    Ok(())
}

#[test]
fn summaries_slot_words(rt: HostRuntime) -> Result<(), Fail> {
    let offer = Offer::Flag(FlagAnd { bits: 0x0f });
    let known = Known { count: 2 };
    let acked = Acked { count: 1 };

    let slot = Slot::Given(Contribution {
        offer,
        known,
        acked,
    });
    let words = slot_words(&slot);
    assert!(rt; words == (0x0f << 25 | 1 << 14 | 2 << 3 | 1 << 1 | 1, 1));

    Ok(())
}

#[test]
fn summaries_read_slot(rt: HostRuntime) -> Result<(), Fail> {
    let known = Known { count: 2 };
    let acked = Acked { count: 1 };

    let slot: Option<Slot<FlagAnd>> = read_slot(0x0f << 25 | 1 << 14 | 2 << 3 | 1 << 1 | 1, 1);
    let offer = Offer::Flag(FlagAnd { bits: 0x0f });
    assert!(rt;
        slot == Some(Slot::Given(Contribution {
            offer,
            known,
            acked
        }))
    );

    let none: Option<Slot<FlagAnd>> = read_slot(0, 0);
    assert!(rt; none.is_none());

    Ok(())
}

#[test]
fn limits_size(rt: HostRuntime) -> Result<(), Fail> {
    let limits = limits(3, 2, 4);

    assert!(rt; limits.size() == 3 + 2 * 2 + 2 * 2 * 4 * 3);

    Ok(())
}

#[test]
fn limits_check(rt: HostRuntime) -> Result<(), Fail> {
    let mut limits = limits(1024, 1, 2047);

    // Of 1,024 ranks, 1 communicator and 2,047 rounds.
    assert!(rt; limits.check().is_ok());
    limits.rounds = 2048;
    assert!(rt; limits.check() == Err(OpenFault::TooLarge));
    limits.rounds = 4097;
    assert!(rt; limits.check() == Err(OpenFault::OutOfRange));

    Ok(())
}

#[test]
fn refusal_name(rt: HostRuntime) -> Result<(), Fail> {
    let refusal = Refusal::NoSuchComm;

    assert!(rt; refusal.name() == "no-such-comm");

    Ok(())
}

#[test]
fn refusal_refusal_number(rt: HostRuntime) -> Result<(), Fail> {
    let refusal = Refusal::NoSuchComm;

    assert!(rt; refusal_number(refusal) == 2);

    Ok(())
}

#[test]
fn meld_all_meld_all(rt: HostRuntime) -> Result<(), Fail> {
    let none: [FlagAnd; 0] = [];

    let flags = [FlagAnd { bits: 0x0f }, FlagAnd { bits: 0x3c }];
    assert!(rt; meld_all(&flags) == FlagAnd { bits: 0x0c });
    assert!(rt; meld_all(&none) == FlagAnd { bits: u64::MAX });

    Ok(())
}
