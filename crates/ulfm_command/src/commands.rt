//! The program's commands and their options, as the command line crate takes them.
ghost use Rattle.std.specs.Prelude.{◌≡◌, IfOk, false};
ghost use Rattle.std.specs.List.{fold};
ghost use Rattle.clap.specs.Words.{App, rule_of};
ghost use Rattle.ulfm_command.specs.CommandLines.{IsCommand, ulfm};
ghost use Rattle.ulfm_command.specs.Verbs.{choice_rule, verb_app, with_verb};

use crate::texts::{ULFM_HELP, VERSION};
use crate::verbs::{Choice, VERBS, Verb};
use clap::builder::ValueParser;
use clap::{Arg, ArgAction, Command};
use std::alloc::{AllocError, Global};

/// An option, as the command line crate takes it.
fn option_of<'a>(global: Global, choice: &Choice) -> Arg<'a>
    ensures rule { rule_of result ≡ choice_rule choice.now }
    ensures local { result.global ≡ false }
{
    match *choice {
        Choice::Flag { name, help } => Arg::new(global, name)
            .long(name)
            .action(ArgAction::SetTrue)
            .help(help),
        Choice::Number {
            name,
            shown,
            help,
            bounds,
            required,
        } => Arg::new(global, name)
            .long(name)
            .value_name(shown)
            .help(help)
            .value_parser(ValueParser::signed(bounds.0, bounds.1))
            .required(required),
    }
}

/// A verb as a command, with its options.
fn command_of<'a>(global: Global, verb: &Verb) -> Result<Command<'a>, AllocError>
    ensures { IfOk result (IsCommand (verb_app verb.now)) }
{
    let mut command = Command::new(global, verb.name)
        .about(verb.about)
        .after_help(verb.help);
    for choice in verb.choices {
        command = command.arg(option_of(global, choice))?;
    }
    Ok(command)
}

/// A command with verbs.
fn with_verbs<'a>(
    global: Global,
    command: Command<'a>,
    verbs: &[Verb],
) -> Result<Command<'a>, AllocError>
    ensures { (app : App) → IsCommand app command.entry → IfOk result (IsCommand (fold with_verb app verbs.now)) }
{
    let mut command = command;
    for verb in verbs {
        command = command.subcommand(command_of(global, verb)?)?;
    }
    Ok(command)
}

/// `ulfm`, which wants a verb.
pub(crate) fn ulfm_command<'a>(global: Global) -> Result<Command<'a>, AllocError>
    ensures { IfOk result (IsCommand ulfm) }
{
    let ulfm = Command::new(global, "ulfm")
        .bin_name("ulfm")?
        .about("A fault tolerant agreement core, driven by scripts and by races of threads")
        .after_help(ULFM_HELP)
        .version(VERSION)
        .subcommand_required(true);
    with_verbs(global, ulfm, &VERBS)
}
