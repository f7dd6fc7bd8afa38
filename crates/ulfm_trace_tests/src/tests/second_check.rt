//! A second check of a trace's text, over the second judge.
use crate::tests::plain_judge::PlainJudge;
use std::alloc::{AllocError, Allocator};
use ulfm_lines::read_line;
use ulfm_model::Why;
use ulfm_script::{HeaderKind, read_header};
use ulfm_trace::Verdict;

fn illegal(line: u32, why: Why) -> Verdict {
    Verdict::Illegal { line, why }
}

/// What is found of a text that lies in memory.
pub fn plain_check<A: Allocator + Copy>(alloc: A, text: &[u8]) -> Result<Verdict, AllocError> {
    let mut group = Vec::new(alloc);
    let mut judge = None;
    let mut number: u32 = 1;
    let mut line = Vec::new(alloc);
    for byte in text {
        if *byte != b'\n' {
            line.push(*byte)?;
            continue;
        }
        match &mut judge {
            None => match read_header(HeaderKind::Trace, &line) {
                Err(_) => return Ok(illegal(number, Why::Text)),
                Ok(limits) => judge = Some(PlainJudge::start(alloc, limits)?),
            },
            Some(judge) => {
                let Some(told) = read_line(&line, &mut group)? else {
                    return Ok(illegal(number, Why::Text));
                };
                if let Some(why) = judge.judge(&told, &group)? {
                    return Ok(illegal(number, why));
                }
            }
        }
        line.clear();
        number = number.saturating_add(1);
    }
    if judge.is_none() || !line.is_empty() {
        return Ok(illegal(number, Why::Text));
    }
    Ok(Verdict::Legal)
}
