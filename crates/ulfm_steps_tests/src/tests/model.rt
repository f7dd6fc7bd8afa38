// Which worlds open, how refusals print, that entries are cloned, and that the laws hold for flags.
use std::fmt::Write;
use std::test::Fail;
use ulfm_laws::flag_and::FlagAnd;
use ulfm_laws::summary::{Acked, Known};
use ulfm_model::contribution::{Contribution, Offer, Slot};
use ulfm_model::event::{Caller, Entry, Event};
use ulfm_model::laws;
use ulfm_model::limits::{Limits, OpenFault};
use ulfm_model::refusal::{Refusal, refusal_number};

fn checked(ranks: u16, comms: u16, rounds: u16) -> Result<(), OpenFault> {
    Limits {
        ranks,
        comms,
        rounds,
    }
    .check()
}

#[test]
fn worlds_of_the_greatest_size_open(rt: HostRuntime) {
    assert_eq!(rt; checked(1, 1, 1), Ok(()));
    assert_eq!(rt; checked(1024, 1, 2047), Ok(()));
    assert_eq!(rt; checked(1, 256, 4096), Ok(()));
    let largest = Limits {
        ranks: 1024,
        comms: 1,
        rounds: 2047,
    };
    assert_eq!(rt; largest.size(), 4_193_282);
}

#[test]
fn unfit_worlds_are_refused(rt: HostRuntime) {
    assert_eq!(rt; checked(1024, 1, 2048), Err(OpenFault::TooLarge));
    assert_eq!(rt; checked(0, 1, 1), Err(OpenFault::OutOfRange));
    assert_eq!(rt; checked(1, 1, 4097), Err(OpenFault::OutOfRange));
    assert_eq!(rt; checked(0, 256, 4096), Err(OpenFault::OutOfRange));
}

#[test]
fn refusals_print_their_names(rt: HostRuntime) -> Result<(), Fail> {
    let text = format!(in rt.alloc(); "{} {}", refusal_number(Refusal::NoRoom), Refusal::NoRoom)?;
    assert_eq!(rt; text.as_str(), "9 no-room");
    let fault = format!(in rt.alloc(); "{}", OpenFault::TooLarge)?;
    assert_eq!(rt; fault.as_str(), "the world is too large");
    Ok(())
}

#[test]
fn entries_are_cloned(rt: HostRuntime) -> Result<(), Fail> {
    let given = Contribution {
        offer: Offer::Flag(FlagAnd { bits: 0xf }),
        known: Known { count: 1 },
        acked: Acked { count: 0 },
    };
    let slot = Slot::Given(given.clone()?);
    let entry = Entry {
        by: Caller::Rank(2),
        event: Event::Settle {
            comm: 0,
            round: 0,
            rank: 2,
            given,
        },
    };
    assert_eq!(rt; slot.clone()?, slot);
    assert_eq!(rt; entry.clone()?, entry);
    assert_eq!(rt; entry.event.clone()?, entry.event);
    Ok(())
}

#[test]
fn laws_hold_for_flags() {
    laws::records_stay::<FlagAnd>();
    laws::decisions_stay::<FlagAnd>();
    laws::communicators_stay::<FlagAnd>();
    laws::contexts_are_ids::<FlagAnd>();
    laws::survivors_are_spawned::<FlagAnd>();
    laws::decisions_are_combined::<FlagAnd>();
    laws::events_happen_once::<FlagAnd>();
    laws::unheld_ids_are_offered::<FlagAnd>();
    laws::words_tell_events::<FlagAnd>();
    laws::states_stay_sound::<FlagAnd>();
    laws::calls_have_one_step::<FlagAnd>();
    laws::calls_keep_records::<FlagAnd>();
    laws::holders_agree::<FlagAnd>();
    laws::shrinks_exclude_failures::<FlagAnd>();
}
