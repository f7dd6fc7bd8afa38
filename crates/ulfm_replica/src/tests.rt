// The layout of entries as bytes, against bytes written by hand; and a small log that is fed.
ghost use Rattle.std.specs.Prelude.{◌≤◌};

use crate::{ENTRY_BYTES, bytes_of, entry_of, feed};
use std::alloc::Global;
use std::process::Abort;
use std::test::Fail;
use ulfm_laws::flag_and::FlagAnd;
use ulfm_laws::summary::{Acked, CtxMask, Known};
use ulfm_model::contribution::{Contribution, MarkCount, Offer};
use ulfm_model::event::{Caller, Entry, Event};
use ulfm_model::limits::Limits;
use ulfm_model::place::Place;
use ulfm_numbers::Numbers;
use ulfm_words::PlainPass;

type Bytes = [u8; ENTRY_BYTES];

fn by_rank(rank: u16, event: Event<FlagAnd>) -> Entry<FlagAnd> {
    Entry {
        by: Caller::Rank(rank),
        event,
    }
}

/// A contribution of a rank that knows of so many failures, of which so many are acknowledged.
fn settle(of: (u16, u16, u16), offer: Offer<FlagAnd>, known: Known, acked: Acked) -> Event<FlagAnd>
    requires { acked.count ≤ known.count }
{
    let (comm, round, rank) = of;
    Event::Settle {
        comm,
        round,
        rank,
        given: Contribution {
            offer,
            known,
            acked,
        },
    }
}

/// A mark by somebody who knows of so many failures.
fn mark(of: (u16, u16, u16), known: MarkCount) -> Event<FlagAnd> {
    let (comm, round, rank) = of;
    Event::Mark {
        comm,
        round,
        rank,
        known,
    }
}

fn arrive(comm: u16, round: u16, rank: u16) -> Event<FlagAnd> {
    Event::Arrive { comm, round, rank }
}

fn spawn(comm: u16, parent: u16, round: u16) -> Event<FlagAnd> {
    Event::Spawn {
        comm,
        parent,
        round,
    }
}

/// The declaration of a rank.
fn failure(rank: u16) -> Entry<FlagAnd> {
    Entry {
        by: Caller::Outside,
        event: Event::Fail { rank },
    }
}

#[test]
fn each_kind_has_its_bytes(rt: HostRuntime) {
    let flag = Offer::Flag(FlagAnd {
        bits: 0x0102_0304_0506_0708,
    });
    let ids = Offer::Ctx(CtxMask {
        bits: 0xff00_0000_0000_0001,
    });
    let rows: [(Entry<FlagAnd>, Bytes); 7] = [
        (
            failure(258),
            [
                1, 0, 0, 0, 0, 0, 0, 0, 2, 1, 0, 0, 0, 0, 0, 0, 0, 0, 0, 0, 0, 0, 0, 0,
            ],
        ),
        (
            by_rank(
                513,
                settle(
                    (3, 1027, 513),
                    flag,
                    Known { count: 1024 },
                    Acked { count: 260 },
                ),
            ),
            [
                2, 1, 1, 2, 3, 0, 3, 4, 1, 2, 0, 4, 4, 1, 0, 0, 8, 7, 6, 5, 4, 3, 2, 1,
            ],
        ),
        (
            by_rank(
                1,
                settle((0, 0, 1), ids, Known { count: 0 }, Acked { count: 0 }),
            ),
            [
                3, 1, 1, 0, 0, 0, 0, 0, 1, 0, 0, 0, 0, 0, 0, 0, 1, 0, 0, 0, 0, 0, 0, 255,
            ],
        ),
        (
            by_rank(
                0,
                mark(
                    (1, 2, 5),
                    MarkCount {
                        known: Known { count: 257 },
                    },
                ),
            ),
            [
                4, 1, 0, 0, 1, 0, 2, 0, 5, 0, 1, 1, 0, 0, 0, 0, 0, 0, 0, 0, 0, 0, 0, 0,
            ],
        ),
        (
            by_rank(7, arrive(0, 4095, 7)),
            [
                5, 1, 7, 0, 0, 0, 255, 15, 7, 0, 0, 0, 0, 0, 0, 0, 0, 0, 0, 0, 0, 0, 0, 0,
            ],
        ),
        (
            by_rank(2, Event::Revoke { comm: 255 }),
            [
                6, 1, 2, 0, 255, 0, 0, 0, 0, 0, 0, 0, 0, 0, 0, 0, 0, 0, 0, 0, 0, 0, 0, 0,
            ],
        ),
        (
            by_rank(4, spawn(2, 1, 3)),
            [
                7, 1, 4, 0, 2, 0, 3, 0, 1, 0, 0, 0, 0, 0, 0, 0, 0, 0, 0, 0, 0, 0, 0, 0,
            ],
        ),
    ];
    for (entry, bytes) in rows {
        assert!(rt; bytes_of(&entry) == bytes);
        assert!(rt; entry_of(&bytes) == Some(entry));
    }
}

#[test]
fn other_bytes_are_no_entrys(rt: HostRuntime) {
    let revoked = [
        6, 1, 2, 0, 1, 0, 0, 0, 0, 0, 0, 0, 0, 0, 0, 0, 0, 0, 0, 0, 0, 0, 0, 0,
    ];
    assert!(rt; entry_of(&revoked) == Some(by_rank(2, Event::Revoke { comm: 1 })));
    // Each of its bytes changed to 9, which makes it another revocation only in the rank's and the communicator's number.
    for at in 0..ENTRY_BYTES {
        let mut bytes = revoked;
        bytes[at] = 9;
        let read: Option<Entry<FlagAnd>> = entry_of(&bytes);
        assert!(rt; read.is_some() == (at >= 2 && at < 6), "at byte {at}");
    }
    let none: [Bytes; 7] = [
        [0; ENTRY_BYTES],
        [255; ENTRY_BYTES],
        // A declaration in the outside's name, with a rank's number.
        [
            1, 0, 3, 0, 0, 0, 0, 0, 1, 0, 0, 0, 0, 0, 0, 0, 0, 0, 0, 0, 0, 0, 0, 0,
        ],
        // More known than there can be, and more acknowledged than known.
        [
            2, 1, 1, 0, 0, 0, 0, 0, 1, 0, 1, 4, 0, 0, 0, 0, 0, 0, 0, 0, 0, 0, 0, 0,
        ],
        [
            2, 1, 1, 0, 0, 0, 0, 0, 1, 0, 1, 0, 2, 0, 0, 0, 0, 0, 0, 0, 0, 0, 0, 0,
        ],
        // A mark that knows of nobody, and one with an acknowledgement.
        [
            4, 1, 1, 0, 0, 0, 0, 0, 2, 0, 0, 0, 0, 0, 0, 0, 0, 0, 0, 0, 0, 0, 0, 0,
        ],
        [
            4, 1, 1, 0, 0, 0, 0, 0, 2, 0, 1, 0, 1, 0, 0, 0, 0, 0, 0, 0, 0, 0, 0, 0,
        ],
    ];
    for bytes in none {
        let read: Option<Entry<FlagAnd>> = entry_of(&bytes);
        assert!(rt; read.is_none());
    }
}

/// What a rank offers in the world's first round, as context ids.
fn offers(rank: u16, bits: u64) -> Entry<FlagAnd> {
    by_rank(
        rank,
        settle(
            (0, 0, rank),
            Offer::Ctx(CtxMask { bits }),
            Known { count: 0 },
            Acked { count: 0 },
        ),
    )
}

#[test]
fn a_log_is_fed(rt: HostRuntime) -> Result<(), Fail> {
    feed_all(&rt, rt.alloc())
}

fn feed_all(rt: &impl Abort, alloc: Global) -> Result<(), Fail> {
    let limits = Limits {
        ranks: 3,
        comms: 2,
        rounds: 2,
    };
    let mut pass: PlainPass<FlagAnd> = PlainPass::new(alloc, limits)?;
    let mut numbers: Numbers<FlagAnd, Global> = Numbers::new(alloc, limits.ranks)?;
    let failure = failure(2);
    let mark = by_rank(
        0,
        mark(
            (0, 0, 2),
            MarkCount {
                known: Known { count: 1 },
            },
        ),
    );
    let spawn = by_rank(1, spawn(1, 0, 0));
    let arrival = by_rank(1, arrive(1, 1, 1));
    let revocation = by_rank(0, Event::Revoke { comm: 1 });
    let log = [
        (offers(0, 0xff00_0000_0000_0006), true),
        // Nobody is declared, so nobody is marked.
        (mark, false),
        (failure, true),
        (failure, false),
        (spawn, false),
        (mark, true),
        // The place is marked.
        (offers(2, 6), false),
        (arrival, false),
        (offers(1, 0x0100_0000_0000_0002), true),
        (offers(1, 2), false),
        (spawn, true),
        (spawn, false),
        (arrival, true),
        (revocation, true),
        (revocation, false),
    ];
    let mut taken: u32 = 0;
    for (entry, wanted) in &log {
        assert!(rt; feed(alloc, limits, &mut pass, &mut numbers, entry)? == *wanted);
        taken = taken.saturating_add(u32::from(*wanted));
        assert!(rt; pass.count() == taken);
    }
    let given = pass.nth(0).map(|step| (step.place, step.half, step.by));
    let place = Place::Slot {
        comm: 0,
        round: 0,
        rank: 0,
    };
    assert!(rt; given == Some((place, 0xff00_0000, Caller::Rank(0))));
    let listed = pass.nth(1).map(|step| (step.place, step.by));
    assert!(rt; listed == Some((Place::List { index: 0 }, Caller::Outside)));
    Ok(())
}
