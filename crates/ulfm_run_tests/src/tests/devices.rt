//! Readers and writers that fail at each call in turn, below scripts of calls, of steps, and of steps with a declaration in between.
use std::alloc::Global;
use std::process::Abort;
use std::test::Fail;
use ulfm_devices::{FailureMode, LimitedWriter, Pieces};
use ulfm_run::{run_calls, run_steps, run_steps_failing};
use ulfm_script::RunFault;

/// What is run.
#[derive(Clone, Copy)]
enum Engine {
    Calls,
    Steps,
    FailingSteps,
}

const CALLS: &[u8] = b"ulfm 1 2 1 4
get 0 0
agree 0 0 0000000f
fail 1
poll 0 0
get 0 0
";

const STEPS: &[u8] = b"ulfm-steps 1 2 1 4
call agree 0 0 0000000f
step 0 1
fail 1
finish 0
call poll 0 0
finish 0
";

impl Engine {
    fn script(self) -> &'static [u8] {
        match self {
            Engine::Calls => CALLS,
            Engine::Steps | Engine::FailingSteps => STEPS,
        }
    }

    fn run(
        self,
        alloc: Global,
        input: &mut Pieces<'_>,
        output: &mut LimitedWriter,
    ) -> Result<(), RunFault> {
        match self {
            Engine::Calls => run_calls(alloc, input, output),
            Engine::Steps => run_steps(alloc, input, output),
            Engine::FailingSteps => match run_steps_failing(alloc, input, output, 1, 1) {
                Ok(_) => Ok(()),
                Err(fault) => Err(fault),
            },
        }
    }

    /// What a text gives whose devices never fail.
    fn written(self, alloc: Global, text: &[u8]) -> Result<Vec<u8>, Fail> {
        let mut input = Pieces::new(text, 10_000, 0);
        let mut output = LimitedWriter::new(alloc, 10_000, 0, FailureMode::ByError);
        match self.run(alloc, &mut input, &mut output) {
            Ok(()) => Ok(output.bytes),
            Err(_) => Err(Fail::from("the script has a fault")),
        }
    }
}

const ENGINES: [Engine; 3] = [Engine::Calls, Engine::Steps, Engine::FailingSteps];

/// The script was run to its end, and all of the output was taken.
fn is_whole(
    rt: &impl Abort,
    end: Result<(), RunFault>,
    output: &LimitedWriter,
    whole: &[u8],
) -> Result<(), Fail> {
    assert_eq!(rt; end, Ok(()));
    assert_eq!(rt; output.bytes.as_slice(), whole);
    Ok(())
}

/// The whole lines at the beginning of a text.
fn whole_lines(text: &[u8]) -> &[u8] {
    match text.iter().rposition(|byte| *byte == b'\n') {
        Some(at) => &text[..=at],
        None => &[],
    }
}

/// One read after another fails: the lines that were given whole are run, and no other fault takes the error's place.
fn fail_reads(rt: &impl Abort, alloc: Global, engine: Engine, most: usize) -> Result<(), Fail> {
    let script = engine.script();
    let whole = engine.written(alloc, script)?;
    for failing in 1..1000u32 {
        let mut input = Pieces::new(script, most, failing);
        let mut output = LimitedWriter::new(alloc, 10_000, 0, FailureMode::ByError);
        let end = engine.run(alloc, &mut input, &mut output);
        if input.calls < failing {
            return is_whole(rt, end, &output, &whole);
        }
        assert_eq!(rt; end, Err(RunFault::Read), "{failing}");
        let given = script.len().saturating_sub(input.text.len());
        let lines = whole_lines(&script[..given.min(script.len())]);
        if lines.is_empty() {
            assert!(rt; output.bytes.is_empty());
        } else {
            let right = engine.written(alloc, lines)?;
            assert_eq!(rt; output.bytes.as_slice(), right.as_slice(), "{failing}");
        }
    }
    Err(Fail::from("a read never failed"))
}

#[test]
fn each_read_fails(rt: HostRuntime) -> Result<(), Fail> {
    for engine in ENGINES {
        for most in [1, 7, 10_000] {
            fail_reads(&rt, rt.alloc(), engine, most)?;
        }
    }
    Ok(())
}

/// One write after another fails: a beginning of the output was taken, and no other fault takes the error's place.
fn fail_writes(
    rt: &impl Abort,
    alloc: Global,
    engine: Engine,
    most: usize,
    how: FailureMode,
) -> Result<(), Fail> {
    let script = engine.script();
    let whole = engine.written(alloc, script)?;
    for failing in 1..1000u32 {
        let mut input = Pieces::new(script, 10_000, 0);
        let mut output = LimitedWriter::new(alloc, most, failing, how);
        let end = engine.run(alloc, &mut input, &mut output);
        if output.calls < failing {
            return is_whole(rt, end, &output, &whole);
        }
        assert_eq!(rt; end, Err(RunFault::Write), "{failing}");
        assert!(rt; whole.starts_with(output.bytes.as_slice()), "{failing}");
        let taken = (failing as usize).saturating_sub(1).saturating_mul(most);
        assert_eq!(rt; output.bytes.len(), taken.min(whole.len()), "{failing}");
    }
    Err(Fail::from("a write never failed"))
}

#[test]
fn each_write_fails(rt: HostRuntime) -> Result<(), Fail> {
    let ways = [
        FailureMode::ByError,
        FailureMode::ByInterruption,
        FailureMode::ByNothing,
    ];
    for engine in ENGINES {
        for how in ways {
            for most in [1, 7, 10_000] {
                fail_writes(&rt, rt.alloc(), engine, most, how)?;
            }
        }
    }
    Ok(())
}

/// All of the output is taken, and then the flush fails.
#[test]
fn each_flush_fails(rt: HostRuntime) -> Result<(), Fail> {
    for engine in ENGINES {
        let whole = engine.written(rt.alloc(), engine.script())?;
        let mut input = Pieces::new(engine.script(), 7, 0);
        let mut output = LimitedWriter::new(rt.alloc(), 7, 0, FailureMode::AtFlush);
        let end = engine.run(rt.alloc(), &mut input, &mut output);
        assert_eq!(rt; end, Err(RunFault::Write));
        assert_eq!(rt; output.bytes.as_slice(), whole.as_slice());
    }
    Ok(())
}

/// The writer is flushed once, at the end, also where that is the fault of a line.
#[test]
fn flushes_once(rt: HostRuntime) -> Result<(), Fail> {
    for engine in ENGINES {
        let script = engine.script();
        for text in [script, &script[..script.len().saturating_sub(1)]] {
            let mut input = Pieces::new(text, 7, 0);
            let mut output = LimitedWriter::new(rt.alloc(), 7, 0, FailureMode::ByError);
            let end = engine.run(rt.alloc(), &mut input, &mut output);
            assert_eq!(rt; end.is_ok(), text.len() == script.len());
            assert_eq!(rt; output.flushes, 1);
        }
    }
    Ok(())
}
