//! Programs that are read.
use ulfm_laws::FlagAnd;
use ulfm_schedules::{Ask, May, Op, Place, read_program};

#[test]
fn reads_a_program(rt: HostRuntime) {
    let mut text =
        b"ulfm-explore 1 2 1 2\n# a remark\nmay fail 1\nrank all\nat again\nquiet agree 0 800000000000000f # more\nif started go again\nsay so it is\n".as_slice();
    let Ok(program) = read_program(rt.alloc(), &mut text) else {
        assert!(rt; false);
        return;
    };
    let flag = FlagAnd {
        bits: 0x8000_0000_0000_000f,
    };
    let call = Op::Call {
        ask: Ask::Agree(flag),
        on: Place::Given(0),
        quiet: true,
    };
    assert!(rt; program.op(0, 0) == Some(call));
    assert!(rt; program.op(0, 1) == Some(Op::If { text: 0, to: 0 }));
    assert!(rt; program.may_be_declared(1) == May::Fail);
    assert!(rt; program.text(1) == b"so it is".as_slice());
}
