// The words of slots and blocks, and what is read back of them.
ghost use Rattle.std.specs.Prelude.{◌≤◌};

use crate::tests::world::THREE;
use std::test::Fail;
use ulfm_laws::flag_and::FlagAnd;
use ulfm_laws::summary::{Acked, Body, CtxMask, Known, Summary};
use ulfm_model::contribution::{Contribution, MarkCount, Offer, Slot};
use ulfm_model::place::Place;
use ulfm_words::{OpenWords, PlainWords, block_words, read_block, read_slot, slot_words};

fn given(offer: Offer<FlagAnd>, known: u16, acked: u16) -> Slot<FlagAnd>
    requires known { known ≤ 1024 }
    requires acked { acked ≤ known }
{
    Slot::Given(Contribution {
        offer,
        known: Known { count: known },
        acked: Acked { count: acked },
    })
}

#[test]
fn words_of_slots(rt: HostRuntime) {
    let flag = given(
        Offer::Flag(FlagAnd {
            bits: 0x3_0000_000f,
        }),
        0,
        0,
    );
    let known = Known { count: 1 };
    let mark: Slot<FlagAnd> = Slot::Mark(MarkCount { known });
    let bits = 0xffff_ffff_ffff_fffe;
    let mask = given(Offer::Ctx(CtxMask { bits }), 1, 0);
    let bits = 0xffff_ffff_ffff_ffff;
    let full = given(Offer::Flag(FlagAnd { bits }), 1024, 1024);
    assert_eq!(rt; slot_words(&flag), (0x0000_0000_1e00_0003, 0x7));
    assert_eq!(rt; slot_words(&mark), (0x0000_0000_01ff_c009, 0));
    assert_eq!(rt; slot_words(&mask), (0x01ff_ffff_fc00_000d, 0x1_ffff_ffff));
    assert_eq!(rt; slot_words(&full), (0x01ff_ffff_ff00_2003, 0x1_ffff_ffff));
    assert!(rt; read_slot::<FlagAnd>(0x0000_0000_01ff_c009, 0) == Some(mark));
    assert!(rt; read_slot::<FlagAnd>(0x0000_0000_1e00_0003, 0x7) == Some(flag));
    assert!(rt; read_slot::<FlagAnd>(0x01ff_ffff_ff00_2003, 0x1_ffff_ffff) == Some(full));
    // A mark with a payload, one with a wing, a contribution without one, and wings that are even or too long.
    for (word, wing) in [
        (0x0000_0000_03ff_c009, 0),
        (0x0000_0000_01ff_c009, 1),
        (0x0000_0000_1e00_0003, 0),
        (0x0000_0000_1e00_0003, 6),
        (0x0000_0000_1e00_0003, 0x2_0000_0001),
    ] {
        assert!(rt; read_slot::<FlagAnd>(word, wing).is_none());
    }
}

// What members say together of whom one has acknowledged no failure.
fn said(body: Body<FlagAnd>, known: u16) -> Summary<FlagAnd>
    requires { known ≤ 1024 }
{
    Summary {
        body,
        known: Known { count: known },
        acked: Acked { count: 0 },
    }
}

#[test]
fn words_of_blocks(rt: HostRuntime) {
    let (front, back) = (
        FlagAnd {
            bits: 0x5_0000_000c,
        },
        FlagAnd { bits: 0x3c },
    );
    for (all, word, wing) in [
        (said(Body::Flag(front), 0), 0x1800_0003, 11),
        (said(Body::Flag(back), 0), 0x7800_0003, 1),
        (said(Body::Flag(front), 1), 0x1800_000b, 11),
        (said(Body::Flag(back), 1), 0x7800_000b, 1),
        (said(Body::Clash, 0), 0x7, 1),
    ] {
        assert_eq!(rt; block_words(&all), (word, wing));
        assert!(rt; read_block(word, wing) == Some(all));
    }
    // An even one, marks that know of nobody, clashes with a payload, more acknowledged than is known of, and no wings.
    for (word, wing) in [
        (0x1800_0002, 1),
        (0x01ff_c001, 1),
        (0x0200_0007, 1),
        (0x7, 3),
        (0x0200_4003, 1),
        (0x1800_0003, 2),
        (0x1800_0003, 0),
    ] {
        assert!(rt; read_block::<FlagAnd>(word, wing).is_none());
    }
}

#[test]
fn new_words(rt: HostRuntime) -> Result<(), Fail> {
    let words = PlainWords::<FlagAnd>::open(THREE)?;
    let mut pass = words.pass(rt.alloc())?;
    assert_eq!(rt; pass.load(Place::List { index: 2 }), 0);
    assert!(rt; pass.nth(0).is_none());
    Ok(())
}
