//! What the words of a command line ask for.
ghost use Rattle.std.specs.Prelude.{◌≡◌, IfOk, MatchResult, Some, codes, map};
ghost use Rattle.clap.specs.Words.{FailsBy, fault_of, found_of, one_of, rows_of, subcommand_of, subcommand_rows_of};
ghost use Rattle.ulfm_command.specs.declared.asked.Task.{Task as TaskOf};
ghost use Rattle.ulfm_command.specs.CommandLines.{IsAskedBy, IsDrawRead, IsEntered, IsExploreRead, IsNumberRead, IsRaceRead, Names, check_form, has_flag, judged_form, run_form, ulfm};

use crate::asked::{
    Asked, CheckForm, DrawOptions, ExploreOptions, RaceOptions, Reason, RunForm, Task,
};
use crate::commands::ulfm_command;
use clap::error::ErrorKind;
use clap::{ArgMatches, Error};
use std::alloc::Global;
use std::num::ParseIntError;

/// What the words of a command line ask for, the program's own name first.
///
/// `ulfm race --ranks 4 --rounds 2` asks for a race of 4 ranks and 2 rounds. Nothing is read or written.
pub fn read_words<'a>(global: Global, words: &'a [&'a str]) -> Asked
    ensures { IsAskedBy (map (λ word. word.now) words.now) result }
{
    match parse(global, words) {
        Ok(matches) => read_command(&matches),
        Err(error) => match error.kind() {
            ErrorKind::DisplayHelp | ErrorKind::DisplayVersion => match format!(in global;
                "{error}"
            ) {
                Ok(text) => Asked::Shown(text),
                Err(_) => Asked::Memory,
            },
            ErrorKind::OutOfMemory => Asked::Memory,
            _ => Asked::Bad(Reason::Words(error)),
        },
    }
}

/// Reads the words by the command line crate.
fn parse<'a>(global: Global, words: &'a [&'a str]) -> Result<ArgMatches<'a>, Error>
    ensures fails { FailsBy (fault_of ulfm (map (λ word. word.now) words.now)) result }
    ensures found { IfOk result (λ m. subcommand_rows_of m ≡ subcommand_of ulfm (map (λ word. word.now) words.now)) }
{
    ulfm_command(global)?.try_get_matches_from(words)
}

/// What the command asks for that the words name.
fn read_command(matches: &ArgMatches<'_>) -> Asked
    ensures { IsEntered (subcommand_rows_of matches.now) result }
{
    match read_task(matches) {
        Ok(task) => Asked::Task(task),
        Err(reason) => Asked::Bad(reason),
    }
}

/// The task that is named, with its options, if there is one.
fn read_task(matches: &ArgMatches<'_>) -> Result<Task, Reason>
    ensures { MatchResult result (λ task. Names (subcommand_rows_of matches.now) task)
        (λ reason. (task : TaskOf) → Names (subcommand_rows_of matches.now) task → ⊥) }
{
    let Some((name, options)) = matches.subcommand() else {
        return Err(Reason::NoCommand);
    };
    if name == "run" {
        Ok(Task::Run(read_run(options)))
    } else if name == "migrate" {
        Ok(Task::Migrate)
    } else if name == "check" {
        Ok(Task::Check(read_check(options).ok_or(Reason::NotOfAllForms)?))
    } else if name == "draw" {
        Ok(Task::Draw(read_draw(options)))
    } else if name == "explore" {
        Ok(Task::Explore(read_explore(options).ok_or(Reason::NoCommand)?))
    } else if name == "replay" {
        Ok(Task::Replay)
    } else if name == "race" {
        Ok(Task::Race(read_race(options).ok_or(Reason::NoSuchRank)?))
    } else {
        Err(Reason::NoCommand)
    }
}

/// Which script is to be run, and how.
fn read_run(matches: &ArgMatches<'_>) -> RunForm
    ensures { result ≡ run_form (rows_of (found_of matches.now)) }
{
    if is_given(matches, "steps") {
        RunForm::Steps
    } else if is_given(matches, "echo") {
        RunForm::Echoed
    } else {
        RunForm::Calls
    }
}

/// What is to be judged, and how, if the options go together.
fn read_check(matches: &ArgMatches<'_>) -> Option<CheckForm>
    ensures { result ≡ check_form (rows_of (found_of matches.now)) }
{
    let observed = is_given(matches, "observed");
    let explain = is_given(matches, "explain");
    let witness = is_given(matches, "witness");
    judged_form(observed, explain, witness)
}

/// What is judged with these options, and how, if they go together.
fn judged_form(observed: bool, explain: bool, witness: bool) -> Option<CheckForm>
    ensures { result ≡ judged_form observed explain witness }
{
    match (observed, explain) {
        (true, false) => Some(CheckForm::Log { witness }),
        (false, true) if !witness => Some(CheckForm::Explained),
        (false, false) if !witness => Some(CheckForm::Trace),
        _ => None,
    }
}

/// How a trace is to be drawn.
fn read_draw(matches: &ArgMatches<'_>) -> DrawOptions
    ensures { IsDrawRead (rows_of (found_of matches.now)) result }
{
    DrawOptions {
        text: is_given(matches, "text"),
        ascii: is_given(matches, "ascii"),
    }
}

/// Whether an option that takes no value is given.
fn is_given(matches: &ArgMatches<'_>, name: &str) -> bool
    ensures { result ≡ has_flag name.now (rows_of (found_of matches.now)) }
{
    match matches.try_get_one::<bool>(name) {
        Ok(Some(given)) => given,
        Ok(None) => false,
        Err(_) => false,
    }
}

/// The options of an exploration.
fn read_explore(matches: &ArgMatches<'_>) -> Option<ExploreOptions>
    ensures { IsExploreRead (rows_of (found_of matches.now)) result }
{
    let Ok(most) = read_count(matches, "most") else {
        return None;
    };
    let Ok(outcome) = read_count(matches, "outcome") else {
        return None;
    };
    Some(ExploreOptions { most, outcome })
}

/// The number of 32 bits of an option, if it is given.
fn read_count(matches: &ArgMatches<'_>, name: &str) -> Result<Option<u32>, ParseIntError>
    ensures { IsNumberRead 32 (one_of name.now (rows_of (found_of matches.now))) result }
{
    matches.try_get_one::<u32>(name)
}

/// The options of a race, if they are in their ranges.
fn read_race(matches: &ArgMatches<'_>) -> Option<RaceOptions>
    ensures { IsRaceRead (rows_of (found_of matches.now)) result }
{
    let Ok(Some(ranks)) = read_number(matches, "ranks") else {
        return None;
    };
    let Ok(Some(rounds)) = read_number(matches, "rounds") else {
        return None;
    };
    let Ok(fail) = read_number(matches, "fail") else {
        return None;
    };
    let race = RaceOptions {
        ranks,
        rounds,
        fail,
    };
    if race.is_in_range() { Some(race) } else { None }
}

/// The number of 16 bits of an option, if it is given.
fn read_number(matches: &ArgMatches<'_>, name: &str) -> Result<Option<u16>, ParseIntError>
    ensures { IsNumberRead 16 (one_of name.now (rows_of (found_of matches.now))) result }
{
    matches.try_get_one::<u16>(name)
}
