//! The arguments of a command, as `clap` is given them.
ghost use Rattle.std.specs.Prelude.{◌≡◌, Some, false, IfOk};
ghost use Rattle.clap.specs.Words.{App, Rule, app_of, rule_of, with_rule};
ghost use Rattle.command_line.specs.CommandLine.{flag_rule, list_rule, has_to_stand, several_rule};
ghost use Rattle.command_line.specs.CommandLine.{option_rule, placed_rule};

use clap::builder::ValueParser;
use clap::{Arg, ArgAction, Command};
use std::alloc::{AllocError, Global};

// The command with this argument, if it was made.
pub(crate) fn with_arg<'a>(
    made: Result<Command<'a>, AllocError>,
    arg: Arg<'a>,
) -> Result<Command<'a>, AllocError>
    ensures { (app : App) → (rule : Rule) → IfOk made.entry (λ it. app_of it ≡ app)
        → rule_of arg.entry ≡ rule → arg.entry.global ≡ false
        → IfOk result (λ it. app_of it ≡ with_rule app rule) }
{
    match made {
        Ok(command) => command.arg(arg),
        Err(error) => Err(error),
    }
}

// An argument that is known by its place.
pub(crate) fn placed<'a>(alloc: Global, name: &'a str, value: &'a str, help: &'a str) -> Arg<'a>
    ensures rule { rule_of result ≡ placed_rule name.entry.now }
    ensures local { result.global ≡ false }
{
    Arg::new(alloc, name)
        .value_name(value)
        .help(help)
        .action(ArgAction::Set)
}

// An option with a value.
pub(crate) fn option<'a>(alloc: Global, name: &'a str, value: &'a str, help: &'a str) -> Arg<'a>
    ensures rule { rule_of result ≡ option_rule name.entry.now }
    ensures local { result.global ≡ false }
{
    placed(alloc, name, value, help).long(name)
}

// An option with a value that may stand several times.
pub(crate) fn list<'a>(alloc: Global, name: &'a str, value: &'a str, help: &'a str) -> Arg<'a>
    ensures rule { rule_of result ≡ list_rule name.entry.now }
    ensures local { result.global ≡ false }
{
    several(option(alloc, name, value, help))
}

// Makes an argument one that may stand several times.
pub(crate) fn several<'a>(arg: Arg<'a>) -> Arg<'a>
    ensures rule { rule_of result ≡ several_rule (rule_of arg.entry) }
    ensures local { result.global ≡ arg.entry.global }
{
    arg.action(ArgAction::Append)
}

// An option without a value, that stands or does not.
pub(crate) fn flag<'a>(alloc: Global, name: &'a str, help: &'a str) -> Arg<'a>
    ensures rule { rule_of result ≡ flag_rule name.entry.now }
    ensures local { result.global ≡ false }
{
    Arg::new(alloc, name)
        .long(name)
        .help(help)
        .action(ArgAction::SetTrue)
}

// Makes an argument one whose value is a number within the bounds.
pub(crate) fn numbered<'a>(arg: Arg<'a>, bounds: ValueParser<'a>) -> Arg<'a>
    ensures rule { rule_of result ≡ record (rule_of arg.entry) { parser = Some bounds.entry } }
    ensures local { result.global ≡ arg.entry.global }
{
    arg.value_parser(bounds)
}

// Makes an argument one that has to stand.
pub(crate) fn needed<'a>(arg: Arg<'a>) -> Arg<'a>
    ensures rule { rule_of result ≡ has_to_stand (rule_of arg.entry) }
    ensures local { result.global ≡ arg.entry.global }
{
    arg.required(true)
}
