//! What is told of small programs.
use std::alloc::Global;
use std::test::Fail;
use ulfm_explore::{ExploreFault, Plan, explore};
use ulfm_schedules::read_program;

/// A program of two ranks, of which one may be declared.
const AGREE: &str =
    "ulfm-explore 1 2 1 2\nmay fail 1\nrank 0\nagree 0 0000000f\nwait 0\nrank 1\nagree 0 0000003c\nwait 0\nalike 0 1\nended 0\nfind 1 out\n";

/// The text of an exploration, and whether all schedules were tried.
fn told(alloc: Global, most: u32, outcome: Option<u32>) -> Result<(Vec<u8>, bool), ExploreFault> {
    let mut text = AGREE.as_bytes();
    let Ok(program) = read_program(alloc, &mut text) else {
        return Err(ExploreFault::Memory);
    };
    let told = explore(alloc, &program, Plan { most, outcome })?;
    Ok((told.text, told.is_whole))
}

/// The same where there is no fault.
fn explored(alloc: Global, most: u32, outcome: Option<u32>) -> Result<(Vec<u8>, bool), Fail> {
    match told(alloc, most, outcome) {
        Ok(explored) => Ok(explored),
        Err(_) => Err(Fail::from("the program isn't explored")),
    }
}

#[test]
fn tells_outcomes(rt: HostRuntime) -> Result<(), Fail> {
    let (text, is_whole) = explored(rt.alloc(), 1000, None)?;
    assert!(rt; is_whole);
    assert!(rt; text.starts_with(b"outcome 1\nrank 0 ended: agreed 0000000c failed 0 clean\n"));
    assert!(rt; text.ends_with(b"all outcomes 5 states 314\n"));
    Ok(())
}

#[test]
fn stops_at_the_limit(rt: HostRuntime) -> Result<(), Fail> {
    let (text, is_whole) = explored(rt.alloc(), 50, None)?;
    let beginning =
        b"alike none so far\nended none so far\nfind none so far\nsome outcomes 0 states 5";
    assert!(rt; !is_whole && text.starts_with(beginning));
    Ok(())
}

#[test]
fn prints_one_script(rt: HostRuntime) -> Result<(), Fail> {
    let (text, _) = explored(rt.alloc(), 1000, Some(2))?;
    assert!(rt; text.starts_with(b"ulfm-steps 1 2 1 2\ncall agree "));
    match told(rt.alloc(), 1000, Some(6)) {
        Err(ExploreFault::NoSuchOutcome) => Ok(()),
        _ => Err(Fail::from("there is no sixth outcome")),
    }
}
