//! Memory that is refused: a call that gets none leaves the object as it was.
use crate::calls::{call_of, limits, told};
use linked_list_allocator::LocalHeap;
use std::alloc::{Allocator, Global};
use std::process::Abort;
use std::test::Fail;
use ulfm_devices::calls::{ACKNOWLEDGEMENTS_COUNT, NAMES_OF_2013, ONE_RANK};
use ulfm_devices::memory::filled;
use ulfm_laws::flag_and::FlagAnd;
use ulfm_model::call::Call;
use ulfm_model::limits::{Limits, OpenFault};
use ulfm_model::reply::Reply;
use ulfm_model::{HeldComm, RankRecord};
use ulfm_object::Object;

/// Whether two ranks hold the same communicator in the same way.
fn are_held_alike<A: Allocator, B: Allocator>(one: &HeldComm<A>, other: &HeldComm<B>) -> bool {
    let ranks: &[u16] = &one.group;
    let others: &[u16] = &other.group;
    one.comm == other.comm
        && ranks == others
        && one.context == other.context
        && one.acked == other.acked
        && one.next_agreement == other.next_agreement
        && one.next_barrier == other.next_barrier
        && one.request == other.request
}

/// Whether two records say the same.
fn are_alike<A: Allocator, B: Allocator>(one: &RankRecord<A>, other: &RankRecord<B>) -> bool {
    one.number == other.number
        && one.seen.as_slice() == other.seen.as_slice()
        && one.refused == other.refused
        && one.held.len() == other.held.len()
        && one
            .held
            .iter()
            .zip(other.held.iter())
            .all(|(x, y)| are_held_alike(x, y))
}

/// Fails where the objects differ in what has happened or in what a rank holds.
fn expect_alike<'a>(
    rt: &impl Abort,
    object: &Object<FlagAnd, &'a LocalHeap>,
    twin: &Object<FlagAnd, Global>,
) -> Result<(), Fail> {
    assert!(rt; object.history() == twin.history());
    assert!(rt; object.records().len() == twin.records().len());
    for (one, other) in object.records().iter().zip(twin.records().iter()) {
        assert!(rt; are_alike(one, other), "rank {} differs", other.number);
    }
    Ok(())
}

/// A call, with more room each time until it isn't refused any more; before that it must leave the object as it was. Answers
/// how many times it was refused, and the reply.
fn apply_refused<'a>(
    rt: &impl Abort,
    alloc: Global,
    heap: &'a LocalHeap,
    object: &mut Object<FlagAnd, &'a LocalHeap>,
    twin: &mut Object<FlagAnd, Global>,
    asked: &Call<FlagAnd>,
) -> Result<(usize, Reply<FlagAnd>), Fail> {
    for count in 0..200usize {
        let blocks = filled(alloc, heap, count * 16)?;
        let answered = object.apply(asked);
        drop(blocks);
        if let Ok(reply) = answered {
            twin.apply(asked)?;
            return Ok((count, reply));
        }
        expect_alike(rt, object, twin)?;
    }
    Err(Fail::from("a call is never answered"))
}

/// A script of calls, each of which is refused its memory until there is enough, and then is replied as the output says; one is refused at least.
fn run_refused(
    rt: &impl Abort,
    alloc: Global,
    limits: Limits,
    script: &str,
    output: &str,
) -> Result<(), Fail> {
    let heap = LocalHeap::new(alloc, 1 << 14)?;
    let mut object = Object::open(&heap, limits)?;
    let mut twin = Object::open(alloc, limits)?;
    let mut refused = 0usize;
    for (line, wanted) in script.lines().skip(1).zip(output.lines()) {
        let asked = call_of(line)?;
        let (more, reply) = apply_refused(rt, alloc, &heap, &mut object, &mut twin, &asked)?;
        assert_eq!(rt;
            told(alloc, &twin, &asked, &reply)?.as_slice(),
            wanted.as_bytes(),
            "{line}"
        );
        refused = refused.saturating_add(more);
    }
    assert!(rt; refused > 0, "no call was refused");
    expect_alike(rt, &object, &twin)
}

#[test]
fn scripts_are_refused_memory(rt: HostRuntime) -> Result<(), Fail> {
    let rows = [
        (limits(1, 1, 2), ONE_RANK),
        (limits(3, 1, 2), ACKNOWLEDGEMENTS_COUNT),
        (limits(3, 1, 4), NAMES_OF_2013),
    ];
    for (limits, row) in rows {
        run_refused(&rt, rt.alloc(), limits, row.script, row.output)?;
    }
    Ok(())
}

#[test]
fn shrinks_are_refused_memory(rt: HostRuntime) -> Result<(), Fail> {
    let script = "ulfm 2 2 2 2\nfail 1\nshrink 0 0\npoll 0 0\nfree 0 1\n";
    let output = "declared\nstarted\nshrunk 1 context 1 members 0\nfreed\n";
    run_refused(&rt, rt.alloc(), limits(2, 2, 2), script, output)
}

#[test]
fn openings_are_refused_memory(rt: HostRuntime) -> Result<(), Fail> {
    for count in 0..200usize {
        let heap = LocalHeap::new(rt.alloc(), count * 16)?;
        match Object::<FlagAnd, &LocalHeap>::open(&heap, limits(3, 1, 2)) {
            Err(fault) => assert!(rt; fault == OpenFault::OutOfMemory),
            Ok(object) => {
                assert!(rt; count > 1 && object.history().is_empty());
                return Ok(());
            }
        }
    }
    assert!(rt; false, "no opening succeeds");
    Ok(())
}
