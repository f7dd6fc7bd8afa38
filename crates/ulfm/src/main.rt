//! Runs scripts of the agreement object on standard input and output, judges traces, and races threads.
#![tactic(auto)]

mod program;

use program::answer;
use std::env::{self, VarError};
use std::io::IsTerminal;
use std::process::ExitCode;
use std::rt::Env;
use ulfm_draw::Looks;
use ulfm_filters::{answer_args, tell_unread};

#[cfg(test)]
mod tests;

fn main(rt: HostRuntime) -> ExitCode {
    let alloc = rt.alloc();
    let mut input = rt.stdin();
    let mut output = rt.stdout();
    let mut errors = rt.stderr();
    let explains = errors.is_terminal();
    let looks = looks_of(&rt, output.is_terminal());
    let answered = answer_args(alloc, env::args(&rt), |words| {
        answer(
            &rt,
            alloc,
            alloc,
            words,
            &mut input,
            &mut output,
            &mut errors,
            explains,
            looks,
        )
    });
    ExitCode::from(match answered {
        Ok(status) => status,
        Err(fault) => tell_unread(fault, &mut errors),
    })
}

/// The looks that standard output has for rows in characters: box characters on a terminal that has them, and colours unless `NO_COLOR` is set.
fn looks_of(rt: &(impl Env + Alloc), is_terminal: bool) -> Looks {
    if !is_terminal || !has_boxes(rt) {
        return Looks::Ascii;
    }
    match env::var(rt, "NO_COLOR") {
        Err(VarError::NotPresent) => Looks::Colours,
        Ok(none) if none.is_empty() => Looks::Colours,
        _ => Looks::Boxes,
    }
}

/// Whether a terminal has box characters, by what it is called and by the first of the variables that say which characters it has.
fn has_boxes(rt: &(impl Env + Alloc)) -> bool {
    if is_named(rt, "TERM", "dumb") {
        return false;
    }
    for name in ["LC_ALL", "LC_CTYPE", "LANG"] {
        match env::var(rt, name) {
            Ok(locale) if !locale.is_empty() => {
                return locale.as_str().ends_with("UTF-8") || locale.as_str().ends_with("utf8");
            }
            _ => {}
        }
    }
    false
}

/// Whether a variable has this value.
fn is_named(rt: &(impl Env + Alloc), name: &str, wanted: &str) -> bool {
    match env::var(rt, name) {
        Ok(value) => value.as_str() == wanted,
        Err(_) => false,
    }
}
