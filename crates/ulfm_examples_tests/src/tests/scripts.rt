// Examples of scripts and traces, and of the sequential object.

use crate::tests::open::TWO;
use std::test::Fail;
use ulfm_draw::{Form, Looks, draw};
use ulfm_laws::FlagAnd;
use ulfm_model::{Call, Refusal, Reply};
use ulfm_object::Object;
use ulfm_run::{run_calls, run_steps};
use ulfm_script::{LineKind, read_call};
use ulfm_trace::{Verdict, check};

#[test]
fn calls_read_call(rt: HostRuntime) -> Result<(), Fail> {
    let (rank, comm) = (0, 1);

    assert!(rt; read_call(b"free 0 1") == Ok(Call::Free { rank, comm }));
    assert!(rt; read_call(b"free 0") == Err(LineKind::Words));

    Ok(())
}

#[test]
fn running_run_calls(rt: HostRuntime) -> Result<(), Fail> {
    let alloc = rt.alloc();

    let mut script = b"ulfm 1 1 1 2\nagree 0 0 000000ff\npoll 0 0\n".as_slice();
    let mut output = Vec::new(alloc);
    assert!(rt; run_calls(alloc, &mut script, &mut output).is_ok());
    assert!(rt; output.as_slice() == b"started\nagreed 000000ff failed 0 clean\n".as_slice());

    Ok(())
}

#[test]
fn running_run_steps(rt: HostRuntime) -> Result<(), Fail> {
    let alloc = rt.alloc();

    let mut script = b"ulfm-steps 1 1 1 2\ncall isrevoked 0 0\nfinish 0\n".as_slice();
    let mut output = Vec::new(alloc);
    assert!(rt; run_steps(alloc, &mut script, &mut output).is_ok());
    let trace = b"ulfm-trace 1 1 1 2\ncall isrevoked 0 0\nlook 0 0\nreply 0 0 no\n".as_slice();
    assert!(rt; output.as_slice() == trace);

    Ok(())
}

#[test]
fn judged_check(rt: HostRuntime) -> Result<(), Fail> {
    let alloc = rt.alloc();

    let mut trace = b"ulfm-trace 1 1 1 2\nevent - fail 0\n".as_slice();
    assert!(rt; check(alloc, &mut trace) == Ok(Verdict::Legal));

    Ok(())
}

#[test]
fn drawing_draw(rt: HostRuntime) -> Result<(), Fail> {
    let alloc = rt.alloc();

    let mut trace = b"ulfm-trace 1 1 1 2\nevent - fail 0\n".as_slice();
    let drawn = draw(alloc, &mut trace, Form::Text(Looks::Ascii))?;
    assert!(rt; drawn.verdict == Verdict::Legal);
    assert!(rt; drawn.shown.ends_with(b"\nlegal\n"));

    Ok(())
}

#[test]
fn object_open(rt: HostRuntime) -> Result<(), Fail> {
    let alloc = rt.alloc();
    let limits = TWO;

    let object: Object<FlagAnd, _> = Object::open(alloc, limits)?;
    assert!(rt; object.history().is_empty() && object.records().len() == 2);

    Ok(())
}

#[test]
fn object_apply(rt: HostRuntime) -> Result<(), Fail> {
    let mut object: Object<FlagAnd, _> = Object::open(rt.alloc(), TWO)?;

    assert!(rt; object.apply(&Call::Fail { rank: 1 })? == Reply::Declared);
    let asked = Call::Poll { rank: 1, comm: 0 };
    assert!(rt; object.apply(&asked)? == Reply::Refused(Refusal::SelfFailed));

    Ok(())
}

#[test]
fn object_history(rt: HostRuntime) -> Result<(), Fail> {
    let mut object: Object<FlagAnd, _> = Object::open(rt.alloc(), TWO)?;

    object.apply(&Call::Fail { rank: 1 })?;
    assert!(rt; object.history().len() == 1);

    Ok(())
}

#[test]
fn object_records(rt: HostRuntime) -> Result<(), Fail> {
    let object: Object<FlagAnd, _> = Object::open(rt.alloc(), TWO)?;

    assert!(rt; object.records()[1].number == 1);

    Ok(())
}

#[test]
fn object_members(rt: HostRuntime) -> Result<(), Fail> {
    let object: Object<FlagAnd, _> = Object::open(rt.alloc(), TWO)?;

    assert!(rt; object.members(0)?.as_slice() == [0, 1].as_slice());
    assert!(rt; object.members(1)?.is_empty());

    Ok(())
}

#[test]
fn object_failed(rt: HostRuntime) -> Result<(), Fail> {
    let mut object: Object<FlagAnd, _> = Object::open(rt.alloc(), TWO)?;

    object.apply(&Call::Fail { rank: 1 })?;
    assert!(rt; object.failed(0)?.as_slice() == [1].as_slice());

    Ok(())
}
