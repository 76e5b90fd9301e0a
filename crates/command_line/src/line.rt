//! The command line.
ghost use Rattle.std.specs.Prelude.{◌≡◌, ◌≢◌, true, map, IfOk, IfErr, IfSome};
ghost use Rattle.clap.specs.Words.{App, app_of, kind_of, subcommand_of, subcommand_rows_of};
ghost use Rattle.clap.specs.Words.{with_subcommand};
ghost use Rattle.command_line.specs.CommandLine.{AreRefused, FailsByWords, IsAskedLine};
ghost use Rattle.command_line.specs.CommandLine.{IsLineGiven};
ghost use Rattle.command_line.specs.CommandLine.{IsJudging, IsLineMet, MeanNoLine, bare};
ghost use Rattle.command_line.specs.CommandLine.{HasSettings};
ghost use Rattle.command_line.specs.CommandLine.{on_machine, pramx, SuitsTerminal, telling_of};

use crate::bad_value::{bad_value, value_error};
use crate::commands::{
    check_command, cost_command, file_command, judge_command, plain_command, replay_command,
    run_command, steps_command, sweep_command, trace_command, watch_command,
};
use crate::options::{
    manner_of, model_if_set, number_if_set, reads_of, steps_of, style_of, workers_of,
};
use clap::error::ErrorKind;
use clap::{ArgMatches, Command, Error};
use command_data::{Ask, AskAlone, AskOnThreads, AskRun, AskWatch, Line};
use std::alloc::{AllocError, Global};

const EXAMPLES: &str = "\
Examples:
  pramx check examples/prefix.pram
  pramx compile examples/prefix.pardo
  pramx plain examples/prefix.pram
  pramx plain examples/sum.pram --why
  pramx cost examples/prefix.pram
  pramx sweep examples/prefix.pardo --set n=8,16,32
  pramx judge exercises/prefix.exercise examples/prefix.pardo
  pramx steps examples/prefix.pram --from 1 --to 5
  pramx trace examples/prefix.pardo
  pramx run examples/prefix.pram --workers 4
  pramx run examples/prefix.pram --workers 4 --progress --pace 1000
  pramx watch examples/prefix.pram --workers 4 --cells 0,11 --rounds 3
  pramx replay examples/prefix.pram --workers 4
  pramx replay examples/prefix.pram --workers 4 --random 7";

/// A line, the seed of the random plan that it is to follow, if there is one, and whether a refusal
/// is to be explained.
#[derive(Clone, Copy, Debug, PartialEq, Eq)]
pub struct Asked<'a> {
    pub line: Line<'a>,
    pub random: Option<u32>,
    pub explain: bool,
}

/// Files with submissions, the exercise by which they are judged, and whether a refusal is to be
/// explained.
#[derive(Debug, Drop)]
pub struct Judging<'a> {
    pub exercise: &'a str,
    pub files: Vec<&'a str>,
    pub explain: bool,
}

/// What the words ask: a line, with what names are set to, or that submissions are judged.
#[derive(Debug, Drop)]
pub enum Given<'a> {
    Line(Asked<'a>, Vec<&'a str>),
    Judge(Judging<'a>),
}

/// What the words ask, of which the first is the program's name, where standard error is a terminal
/// or not. A call for help or for the version is an error too, as `clap` has it.
// What clap needs of the stack is given back before a line is served.
#[inline(never)]
pub fn read_line<'a>(
    alloc: Global,
    words: &'a [&'a str],
    on_terminal: bool,
) -> Result<Given<'a>, Error>
    ensures given { IfOk result (IsLineGiven on_terminal
        (subcommand_of pramx (map (λ word. word.now) words.entry.now))) }
    ensures taken { IfOk result (λ given. ¬ MeanNoLine (map (λ word. word.now)
        words.entry.now)) }
    ensures refused { IfErr result (λ error. kind_of error ≢ ErrorKind.OutOfMemory
        → AreRefused (map (λ word. word.now) words.entry.now)) }
    ensures kinds { FailsByWords (map (λ word. word.now) words.entry.now) result }
{
    let matches = command(alloc)?.try_get_matches_from(words)?;
    let Some(found) = bad_value(&matches) else {
        return Err(Error::from(AllocError));
    };
    if let Some(bad) = found {
        return Err(value_error(alloc, bad)?);
    }
    match given_of(alloc, &matches, on_terminal) {
        Some(given) => Ok(given),
        None => Err(Error::from(AllocError)),
    }
}

// What the matches ask, if there is memory for it.
fn given_of<'a>(alloc: Global, matches: &ArgMatches<'a>, on_terminal: bool) -> Option<Given<'a>>
    ensures { IfSome result (IsLineGiven on_terminal (subcommand_rows_of matches.now)) }
{
    let Ok(found) = judging_of(alloc, matches) else {
        return None;
    };
    if let Some(judging) = found {
        return Some(Given::Judge(judging));
    }
    let asked = asked_of(matches, on_terminal)?;
    let Ok(settings) = settings_of(alloc, matches) else {
        return None;
    };
    Some(Given::Line(asked, settings))
}

// The submissions that are to be judged, if the words ask for that.
fn judging_of<'a>(
    alloc: Global,
    matches: &ArgMatches<'a>,
) -> Result<Option<Judging<'a>>, AllocError>
    ensures { IfOk result (λ found. IfSome found (IsJudging (subcommand_rows_of matches.now))) }
{
    let Some(("judge", inner)) = matches.subcommand() else {
        return Ok(None);
    };
    let Some(exercise) = inner.get_str("file") else {
        return Ok(None);
    };
    let Some(files) = inner.get_strs("files") else {
        return Ok(None);
    };
    Ok(Some(Judging {
        exercise,
        files: Vec::from_slice(alloc, files)?,
        explain: inner.get_flag("explain"),
    }))
}

// What names are set to, each as it was written.
fn settings_of<'a>(alloc: Global, matches: &ArgMatches<'a>) -> Result<Vec<&'a str>, AllocError>
    ensures { IfOk result (λ settings. HasSettings (subcommand_rows_of matches.now)
        (map (λ word. word.now) settings.items)) }
{
    let Some((_, inner)) = matches.subcommand() else {
        return Ok(Vec::new(alloc));
    };
    match inner.get_strs("set") {
        Some(settings) => Vec::from_slice(alloc, settings),
        None => Ok(Vec::new(alloc)),
    }
}

fn command<'a>(alloc: Global) -> Result<Command<'a>, AllocError>
    ensures { IfOk result (λ command. app_of command ≡ pramx) }
{
    let command = with(machine_command(alloc), trace_command(alloc));
    let command = with(command, run_command(alloc));
    let command = with(command, watch_command(alloc));
    with(command, replay_command(alloc))
}

// The program with most subcommands of the plain machine.
fn machine_command<'a>(alloc: Global) -> Result<Command<'a>, AllocError>
    ensures { IfOk result (λ command. app_of command ≡ on_machine) }
{
    let compile = "Print the job of a program as a text of the machine";
    let command = with(Ok(bare_command(alloc)), check_command(alloc));
    let command = with(command, file_command(alloc, "compile", compile));
    let command = with(command, plain_command(alloc));
    let command = with(command, cost_command(alloc));
    let command = with(command, sweep_command(alloc));
    let command = with(command, judge_command(alloc));
    with(command, steps_command(alloc))
}

// The program without subcommands.
fn bare_command<'a>(alloc: Global) -> Command<'a>
    ensures { app_of result ≡ bare }
{
    Command::new(alloc, "pramx")
        .version("0.9.0")
        .about("Runs programs of a synchronous parallel machine with shared memory.")
        .after_help(EXAMPLES)
        .subcommand_required(true)
}

// The command with this subcommand, if both were made; else the command is let go at once, and not
// part by part, as a `?` would.
fn with<'a>(
    made: Result<Command<'a>, AllocError>,
    added: Result<Command<'a>, AllocError>,
) -> Result<Command<'a>, AllocError>
    ensures { (app sub : App) → sub.top.is_plain ≡ true → IfOk made.entry (λ it. app_of it ≡ app)
        → IfOk added.entry (λ it. app_of it ≡ sub)
        → IfOk result (λ it. app_of it ≡ with_subcommand app sub.top) }
{
    let command = made?;
    match added {
        Ok(subcommand) => command.subcommand(subcommand),
        Err(error) => {
            drop(command);
            Err(error)
        }
    }
}

fn asked_of<'a>(matches: &ArgMatches<'a>, on_terminal: bool) -> Option<Asked<'a>>
    ensures { IfSome result (IsAskedLine on_terminal (subcommand_rows_of matches.now)) }
{
    let line = line_of(matches, on_terminal)?;
    let (_, inner) = matches.subcommand()?;
    let random = number_if_set(inner, "random")?;
    Some(Asked {
        line,
        random,
        explain: inner.get_flag("explain"),
    })
}

#[tactic(auto, using(crate::proofs::Matches::met_file))]
fn line_of<'a>(matches: &ArgMatches<'a>, on_terminal: bool) -> Option<Line<'a>>
    ensures met { IfSome result (IsLineMet (subcommand_rows_of matches.now)) }
    ensures suits { IfSome result (λ line. SuitsTerminal on_terminal (telling_of line.ask)) }
{
    let (name, inner) = matches.subcommand()?;
    let file = inner.get_str("file")?;
    match name {
        "check" => {
            let model = model_if_set(inner)?;
            Some(Line {
                file,
                plan: None,
                ask: Ask::Alone(AskAlone::Check { model }),
            })
        }
        "compile" => Some(Line {
            file,
            plan: None,
            ask: Ask::Alone(AskAlone::Compile),
        }),
        "plain" => {
            let style = style_of(inner);
            let model = model_if_set(inner)?;
            Some(Line {
                file,
                plan: None,
                ask: Ask::Alone(AskAlone::Plain { style, model }),
            })
        }
        "cost" => {
            let lines = inner.get_flag("lines");
            let model = model_if_set(inner)?;
            Some(Line {
                file,
                plan: None,
                ask: Ask::Alone(AskAlone::Cost { lines, model }),
            })
        }
        "sweep" => Some(Line {
            file,
            plan: None,
            ask: Ask::Alone(AskAlone::Sweep),
        }),
        _ => rows_line_of(matches, on_terminal),
    }
}

// The line that asks for rows, or for threads.
fn rows_line_of<'a>(matches: &ArgMatches<'a>, on_terminal: bool) -> Option<Line<'a>>
    ensures met { IfSome result (IsLineMet (subcommand_rows_of matches.now)) }
    ensures suits { IfSome result (λ line. SuitsTerminal on_terminal (telling_of line.ask)) }
{
    let (name, inner) = matches.subcommand()?;
    let file = inner.get_str("file")?;
    let alone = inner.get_flag("csv");
    match name {
        "steps" => {
            let (from, to) = steps_of(inner)?;
            Some(Line {
                file,
                plan: None,
                ask: Ask::Alone(AskAlone::Steps { from, to, alone }),
            })
        }
        "trace" => Some(Line {
            file,
            plan: None,
            ask: Ask::Alone(AskAlone::Trace { alone }),
        }),
        "replay" => {
            let workers = workers_of(inner)?;
            let plan = inner.get_str("plan");
            Some(Line {
                file,
                plan,
                ask: Ask::Alone(AskAlone::Replay { workers, alone }),
            })
        }
        _ => threads_line_of(matches, on_terminal),
    }
}

// The line that asks for threads.
fn threads_line_of<'a>(matches: &ArgMatches<'a>, on_terminal: bool) -> Option<Line<'a>>
    ensures met { IfSome result (IsLineMet (subcommand_rows_of matches.now)) }
    ensures suits { IfSome result (λ line. SuitsTerminal on_terminal (telling_of line.ask)) }
{
    let (name, inner) = matches.subcommand()?;
    let file = inner.get_str("file")?;
    let plan = inner.get_str("plan");
    match name {
        "run" => {
            let manner = manner_of(inner, on_terminal)?;
            let style = style_of(inner);
            Some(Line {
                file,
                plan,
                ask: Ask::OnThreads(AskOnThreads::Run(AskRun { manner, style })),
            })
        }
        "watch" => {
            let manner = manner_of(inner, on_terminal)?;
            let (cells, rounds) = reads_of(inner)?;
            Some(Line {
                file,
                plan,
                ask: Ask::OnThreads(AskOnThreads::Watch(AskWatch {
                    manner,
                    cells,
                    rounds,
                })),
            })
        }
        _ => None,
    }
}
