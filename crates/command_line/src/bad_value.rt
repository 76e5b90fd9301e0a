//! Values that the command takes, and that make no line.
ghost use Rattle.std.specs.Prelude.{◌≡◌, IfOk, IfSome, MatchOption};
ghost use Rattle.clap.specs.Words.{found_of, kind_of, rows_of, subcommand_rows_of};
ghost use Rattle.command_line.specs.CommandLine.{HasBadBlock, HasBadCells, HasBadModel};
ghost use Rattle.command_line.specs.CommandLine.{HasBadValue, HasBadWindow, HasTwoPlans, IsBadIn};

use crate::commands::{
    check_command, cost_command, plain_command, replay_command, run_command, steps_command,
    watch_command,
};
use crate::options::{number_if_set, window_of};
use clap::error::ErrorKind;
use clap::{ArgMatches, Command, Error};
use command_data::{Block, CellList};
use pram_cost::Pram;
use std::alloc::{AllocError, Global};

/// A value that the command takes, and that makes no line.
#[derive(Clone, Copy)]
pub(crate) enum BadValue<'a> {
    /// This stands for the cells of a watch, and names none.
    Cells(&'a str),
    /// This stands for the block of a run or of a watch, and is no size of one.
    Block { watches: bool, text: &'a str },
    /// The window of steps ends before it begins.
    Window { from: u32, to: u32 },
    /// A plan is named, and there is a seed of a random one.
    TwoPlans,
    /// This stands for the model of the command of this name, and names none.
    Model { name: &'a str, text: &'a str },
}

/// The first value that makes no line, or that there is none; nothing where memory ran out.
pub(crate) fn bad_value<'a>(matches: &ArgMatches<'a>) -> Option<Option<BadValue<'a>>>
    ensures { IfSome result (λ found. MatchOption found
        (¬ HasBadValue (subcommand_rows_of matches.now))
        (λ bad. HasBadValue (subcommand_rows_of matches.now))) }
{
    let (name, inner) = matches.subcommand()?;
    bad_in(name, inner)
}

// The same of the subcommand of this name.
fn bad_in<'a>(name: &'a str, inner: &ArgMatches<'a>) -> Option<Option<BadValue<'a>>>
    ensures { IfSome result (λ found. MatchOption found
        (¬ IsBadIn name.entry.now (rows_of (found_of inner.now)))
        (λ bad. IsBadIn name.entry.now (rows_of (found_of inner.now)))) }
{
    match name {
        "check" => Some(bad_model(inner, name)),
        "plain" => Some(bad_model(inner, name)),
        "cost" => Some(bad_model(inner, name)),
        "steps" => bad_window(inner),
        "replay" => Some(bad_plans(inner)),
        "run" => bad_block(inner, false),
        "watch" => match bad_cells(inner)? {
            Some(text) => Some(Some(BadValue::Cells(text))),
            None => bad_block(inner, true),
        },
        _ => Some(None),
    }
}

fn bad_cells<'a>(inner: &ArgMatches<'a>) -> Option<Option<&'a str>>
    ensures { IfSome result (λ found. MatchOption found
        (¬ HasBadCells (rows_of (found_of inner.now)))
        (λ text. HasBadCells (rows_of (found_of inner.now)))) }
{
    let text = inner.get_str("cells")?;
    match CellList::read(text) {
        Some(_) => Some(None),
        None => Some(Some(text)),
    }
}

fn bad_block<'a>(inner: &ArgMatches<'a>, watches: bool) -> Option<Option<BadValue<'a>>>
    ensures { IfSome result (λ found. MatchOption found
        (¬ HasBadBlock (rows_of (found_of inner.now)))
        (λ bad. HasBadBlock (rows_of (found_of inner.now)))) }
{
    let Some(size) = number_if_set(inner, "block")? else {
        return Some(None);
    };
    match Block::of(size) {
        Some(_) => Some(None),
        None => {
            let text = inner.get_str("block")?;
            Some(Some(BadValue::Block { watches, text }))
        }
    }
}

fn bad_window(inner: &ArgMatches<'_>) -> Option<Option<BadValue<'static>>>
    ensures { IfSome result (λ found. MatchOption found
        (¬ HasBadWindow (rows_of (found_of inner.now)))
        (λ bad. HasBadWindow (rows_of (found_of inner.now)))) }
{
    let (from, to) = window_of(inner)?;
    if to < from {
        Some(Some(BadValue::Window { from, to }))
    } else {
        Some(None)
    }
}

fn bad_plans(inner: &ArgMatches<'_>) -> Option<BadValue<'static>>
    ensures { MatchOption result
        (¬ HasTwoPlans (rows_of (found_of inner.now)))
        (λ bad. HasTwoPlans (rows_of (found_of inner.now))) }
{
    match inner.get_str("plan") {
        None => None,
        Some(_) => match inner.get_str("random") {
            None => None,
            Some(_) => Some(BadValue::TwoPlans),
        },
    }
}

fn bad_model<'a>(inner: &ArgMatches<'a>, name: &'a str) -> Option<BadValue<'a>>
    ensures { MatchOption result
        (¬ HasBadModel (rows_of (found_of inner.now)))
        (λ bad. HasBadModel (rows_of (found_of inner.now))) }
{
    let text = inner.get_str("model")?;
    match Pram::named(text) {
        Some(_) => None,
        None => Some(BadValue::Model { name, text }),
    }
}

/// What is told of such a value.
pub(crate) fn value_error(alloc: Global, bad: BadValue<'_>) -> Result<Error, AllocError>
    ensures { IfOk result (λ error. kind_of error ≡ ErrorKind.ValueValidation) }
{
    match bad {
        BadValue::Cells(text) => cells_error(alloc, text),
        BadValue::Block { watches, text } => block_error(alloc, watches, text),
        BadValue::Window { from, to } => window_error(alloc, from, to),
        BadValue::TwoPlans => plans_error(alloc),
        BadValue::Model { name, text } => model_error(alloc, name, text),
    }
}

fn cells_error(alloc: Global, text: &str) -> Result<Error, AllocError>
    ensures { IfOk result (λ error. kind_of error ≡ ErrorKind.ValueValidation) }
{
    let message = format!(in alloc;
        "invalid value '{text}' for '--cells <C,C,..>': cells are numbers or places, \
         with commas between"
    )?;
    refused(watch_command(alloc), "pramx watch", message.as_str())
}

fn block_error(alloc: Global, watches: bool, text: &str) -> Result<Error, AllocError>
    ensures { IfOk result (λ error. kind_of error ≡ ErrorKind.ValueValidation) }
{
    let message = format!(in alloc;
        "invalid value '{text}' for '--block <G>': {text} is not a power of two"
    )?;
    let (command, line) = if watches {
        (watch_command(alloc), "pramx watch")
    } else {
        (run_command(alloc), "pramx run")
    };
    refused(command, line, message.as_str())
}

fn window_error(alloc: Global, from: u32, to: u32) -> Result<Error, AllocError>
    ensures { IfOk result (λ error. kind_of error ≡ ErrorKind.ValueValidation) }
{
    let message = format!(in alloc;
        "invalid value '{to}' for '--to <B>': there is no step from {from} to {to}"
    )?;
    refused(steps_command(alloc), "pramx steps", message.as_str())
}

fn plans_error(alloc: Global) -> Result<Error, AllocError>
    ensures { IfOk result (λ error. kind_of error ≡ ErrorKind.ValueValidation) }
{
    let message = "the argument '--plan <P>' cannot be used with '--random <SEED>'";
    refused(replay_command(alloc), "pramx replay", message)
}

fn model_error(alloc: Global, name: &str, text: &str) -> Result<Error, AllocError>
    ensures { IfOk result (λ error. kind_of error ≡ ErrorKind.ValueValidation) }
{
    let message = format!(in alloc;
        "invalid value '{text}' for '--model <M>': a model is EREW, CREW, common or priority"
    )?;
    let (command, line) = match name {
        "check" => (check_command(alloc), "pramx check"),
        "plain" => (plain_command(alloc), "pramx plain"),
        _ => (cost_command(alloc), "pramx cost"),
    };
    refused(command, line, message.as_str())
}

// The error of a command, if it was made, that is called by this line, with this message.
fn refused(
    made: Result<Command<'_>, AllocError>,
    line: &str,
    message: &str,
) -> Result<Error, AllocError>
    ensures { IfOk result (λ error. kind_of error ≡ ErrorKind.ValueValidation) }
{
    let mut command = made?.bin_name(line)?;
    command.error(ErrorKind::ValueValidation, message)
}
