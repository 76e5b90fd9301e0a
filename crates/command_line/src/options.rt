//! What the options of a line say: numbers, words and what is made of them.
ghost use Rattle.std.specs.Prelude.{◌≡◌, ◌≤◌, ◌-◌, ◌^◌, Some, codes, IfSome};
ghost use Rattle.clap.specs.Words.{first_of, found_of, one_of, rows_of};
ghost use Rattle.command_data.specs.CellLists.{SpellsCells};
ghost use Rattle.command_data.specs.Manner.{is_told};
ghost use Rattle.command_line.specs.CommandLine.{HasManner, IsBlockIfSet, IsModelIfSet};
ghost use Rattle.command_line.specs.CommandLine.{IsNumberIfSet, IsNumberOf, IsNumberOr, IsFlag};
ghost use Rattle.command_line.specs.CommandLine.{SuitsTerminal};

use clap::ArgMatches;
use command_data::{Block, CellList, Manner, Style, Telling, Workers};
use pram_cost::Pram;

// How an answer is told.
pub(crate) fn style_of(inner: &ArgMatches<'_>) -> Style
    ensures csv { IsFlag (one_of (codes "csv") (rows_of (found_of inner.now))) result.csv }
    ensures why { IsFlag (one_of (codes "why") (rows_of (found_of inner.now))) result.why }
{
    Style {
        csv: inner.get_flag("csv"),
        why: inner.get_flag("why"),
    }
}

// How many workers there are.
pub(crate) fn workers_of(inner: &ArgMatches<'_>) -> Option<Workers>
    ensures { IfSome result (λ workers. IsNumberOf (codes "workers")
        (rows_of (found_of inner.now)) workers.count) }
{
    let count = inner.get_one::<u32>("workers")?;
    if count == 0 || count > 64 {
        return None;
    }
    Some(Workers { count })
}

// How a run or a watch goes on threads.
pub(crate) fn manner_of(inner: &ArgMatches<'_>, on_terminal: bool) -> Option<Manner>
    ensures has { IfSome result (HasManner (rows_of (found_of inner.now))) }
    ensures suits { IfSome result (λ manner. SuitsTerminal on_terminal manner.progress) }
{
    let workers = workers_of(inner)?;
    let wanted = inner.get_flag("progress");
    let progress = telling(wanted, on_terminal);
    let pace = number_if_set(inner, "pace")?;
    let block = block_if_set(inner)?;
    Some(Manner {
        workers,
        progress,
        pace,
        block,
    })
}

// How standard error is told how far a run or a watch is, where that is wanted.
fn telling(wanted: bool, on_terminal: bool) -> Telling
    ensures told { is_told result ≡ wanted }
    ensures suits { SuitsTerminal on_terminal result }
{
    match (wanted, on_terminal) {
        (false, _) => Telling::Silent,
        (true, false) => Telling::Lines,
        (true, true) => Telling::OneLine,
    }
}

// The steps of a window that has some.
pub(crate) fn steps_of(inner: &ArgMatches<'_>) -> Option<(u32, u32)>
    ensures from { IfSome result (λ window. IsNumberOr (codes "from")
        (rows_of (found_of inner.now)) 1 window.0) }
    ensures to { IfSome result (λ window. IsNumberOr (codes "to")
        (rows_of (found_of inner.now)) (2 ^ 32 - 1) window.1) }
    ensures some { IfSome result (λ window. window.0 ≤ window.1) }
{
    let (from, to) = window_of(inner)?;
    if from <= to { Some((from, to)) } else { None }
}

// The steps of a window.
pub(crate) fn window_of(inner: &ArgMatches<'_>) -> Option<(u32, u32)>
    ensures from { IfSome result (λ window. IsNumberOr (codes "from")
        (rows_of (found_of inner.now)) 1 window.0) }
    ensures to { IfSome result (λ window. IsNumberOr (codes "to")
        (rows_of (found_of inner.now)) (2 ^ 32 - 1) window.1) }
{
    let from = number_or(inner, "from", 1)?;
    let to = number_or(inner, "to", u32::MAX)?;
    Some((from, to))
}

// The number of an option, or another one where the option is left out.
fn number_or(inner: &ArgMatches<'_>, option: &str, other: u32) -> Option<u32>
    ensures { IfSome result (IsNumberOr option.now (rows_of (found_of inner.now)) other) }
{
    let number = number_if_set(inner, option)?;
    Some(number.unwrap_or(other))
}

// The number of an option, if it stands.
pub(crate) fn number_if_set(inner: &ArgMatches<'_>, option: &str) -> Option<Option<u32>>
    ensures { IfSome result (IsNumberIfSet option.now (rows_of (found_of inner.now))) }
{
    match inner.get_str(option) {
        Some(_) => {
            let number = inner.get_one::<u32>(option)?;
            Some(Some(number))
        }
        None => Some(None),
    }
}

// The model under which a job is run, if one stands.
pub(crate) fn model_if_set(inner: &ArgMatches<'_>) -> Option<Option<Pram>>
    ensures { IfSome result (IsModelIfSet (rows_of (found_of inner.now))) }
{
    match inner.get_str("model") {
        Some(word) => {
            let pram = Pram::named(word)?;
            Some(Some(pram))
        }
        None => Some(None),
    }
}

// The block of a run or a watch, if it stands.
fn block_if_set(inner: &ArgMatches<'_>) -> Option<Option<Block>>
    ensures { IfSome result (IsBlockIfSet (rows_of (found_of inner.now))) }
{
    let Some(size) = number_if_set(inner, "block")? else {
        return Some(None);
    };
    let block = Block::of(size)?;
    Some(Some(block))
}

// The cells and the rounds of a watch.
pub(crate) fn reads_of<'a>(inner: &ArgMatches<'a>) -> Option<(CellList<'a>, u32)>
    ensures cells { IfSome result (λ reads.
        first_of (codes "cells") (rows_of (found_of inner.now)) ≡ Some reads.0.text.now) }
    ensures spells { IfSome result (λ reads. SpellsCells reads.0.text.now) }
    ensures rounds { IfSome result (λ reads. IsNumberOf (codes "rounds")
        (rows_of (found_of inner.now)) reads.1) }
{
    let text = inner.get_str("cells")?;
    let cells = CellList::read(text)?;
    let rounds = inner.get_one::<u32>("rounds")?;
    Some((cells, rounds))
}
