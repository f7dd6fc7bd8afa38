//! Memory that is refused: the exploration says so, and tells nothing else than with enough of it.
use linked_list_allocator::LocalHeap;
use std::test::Fail;
use ulfm_explore::{ExploreFault, Plan, explore};
use ulfm_schedules::{ProgramFault, read_program};

/// Two ranks, of which one may be declared, and a question that has an answer.
const PROGRAM: &str =
    "ulfm-explore 1 2 1 2\nmay die 1\nrank all\nbarrier 0\nwait 0\nget 0\nif 1 go on\nsay alone\nat on\nfind 1 died\n";

const PLAN: Plan = Plan {
    most: 1000,
    outcome: None,
};

#[test]
fn each_size_of_memory(rt: HostRuntime) -> Result<(), Fail> {
    let mut text = PROGRAM.as_bytes();
    let Ok(program) = read_program(rt.alloc(), &mut text) else {
        return Err(Fail::from("the program has a fault"));
    };
    let Ok(all) = explore(rt.alloc(), &program, PLAN) else {
        return Err(Fail::from("the program isn't explored"));
    };
    let mut refused = 0u32;
    for step in 1..2000usize {
        let heap = LocalHeap::new(rt.alloc(), step.wrapping_mul(512))?;
        let mut text = PROGRAM.as_bytes();
        let program = match read_program(&heap, &mut text) {
            Ok(program) => program,
            Err(ProgramFault::Memory) => continue,
            Err(_) => return Err(Fail::from("another fault of the program")),
        };
        match explore(&heap, &program, PLAN) {
            Ok(told) => {
                assert_eq!(rt; told.text.as_slice(), all.text.as_slice());
                assert!(rt; refused > 20);
                return Ok(());
            }
            Err(ExploreFault::Memory) => refused = refused.saturating_add(1),
            Err(_) => return Err(Fail::from("another fault of the exploration")),
        }
    }
    Err(Fail::from("memory was refused at each size"))
}
