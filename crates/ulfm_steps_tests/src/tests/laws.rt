// Contributions combined at concrete values, and packed into words and back.
use ulfm_laws::meld_all::meld_all;
use ulfm_laws::{Acked, Body, CtxMask, FlagAnd, Known, Meld, Packed, Summary, meanings};

/// A value, from its word.
fn read_back<P: Packed>(value: &P) -> Option<P> {
    P::unpack(value.pack())
}

#[test]
fn three_flags(rt: HostRuntime) {
    let flags = [
        FlagAnd { bits: 0x0000_000f },
        FlagAnd { bits: 0x0000_003c },
        FlagAnd { bits: 0xffff_ffff },
    ];
    assert_eq!(rt; meld_all(&flags), FlagAnd { bits: 0x0000_000c });
}

#[test]
fn flag_and_mask_clash(rt: HostRuntime) {
    let flag = Body::Flag(FlagAnd { bits: 0xf });
    let mask = Body::Ctx(CtxMask { bits: 0xf });
    assert_eq!(rt; meld_all(&[flag, Body::Unit, flag]), flag);
    assert_eq!(rt; meld_all(&[flag, mask, flag]), Body::Clash);
}

#[test]
fn summaries_by_parts(rt: HostRuntime) {
    let early = Summary {
        body: Body::Ctx(CtxMask { bits: 0xffff_fffe }),
        known: Known { count: 1 },
        acked: Acked { count: 1 },
    };
    let late = Summary {
        body: Body::Ctx(CtxMask { bits: 0xffff_fffc }),
        known: Known { count: 3 },
        acked: Acked { count: 0 },
    };
    let both: Summary<FlagAnd> = meld_all(&[early, late]);
    assert_eq!(rt; both.body, late.body);
    assert_eq!(rt; both.known.count, 3);
    assert_eq!(rt; both.acked.count, 0);
}

#[test]
fn none_is_the_unit(rt: HostRuntime) {
    let none: Summary<FlagAnd> = meld_all(&[]);
    assert_eq!(rt; none.body, Body::Unit);
    assert_eq!(rt; none.known.count, 0);
    assert_eq!(rt; none.acked.count, 2047);
}

#[test]
fn words_read_back(rt: HostRuntime) {
    for bits in [0, 0x8000_0001, 0xffff_ffff] {
        let flag = FlagAnd { bits };
        assert_eq!(rt; read_back(&flag), Some(flag), "{bits:08x}");
    }
}

#[test]
fn laws_are_cited(_rt: HostRuntime) {
    meanings::flags_intersect();
    meanings::masks_intersect();
    meanings::known_groups_unite();
    meanings::acknowledged_groups_intersect();
    meanings::kinds_are_lawful();
    meanings::bodies_and_summaries_are_lawful::<FlagAnd>();
    meanings::parts_meld::<Body<FlagAnd>>();
    meanings::packing_is_exact::<FlagAnd>();
}
