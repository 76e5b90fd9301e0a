//! The commands that a line names first, as `clap` is given them.
ghost use Rattle.std.specs.Prelude.{◌≡◌, codes, false, IfOk};
ghost use Rattle.clap.specs.Words.{App, app_of, rule_of};
ghost use Rattle.command_line.specs.CommandLine.{number_rule, on_file, on_check, on_cost, on_judge};
ghost use Rattle.command_line.specs.CommandLine.{on_plain, on_replay, on_run, on_steps, on_trace};
ghost use Rattle.command_line.specs.CommandLine.{on_sweep, on_text, on_watch, placed_rule};
ghost use Rattle.command_line.specs.CommandLine.{with_manner, with_progress, with_style};
ghost use Rattle.command_line.specs.CommandLine.{with_workers};

use crate::arguments::{flag, list, needed, numbered, option, placed, several, with_arg};
use clap::{Arg, Command, value_parser};
use std::alloc::{AllocError, Global};

/// The most steps of a job.
const MOST_STEPS: i64 = 4_294_967_295;

/// The most rounds of a watch.
const MOST_ROUNDS: i64 = 1_000_000;

/// The greatest seed of a random plan.
const MOST_SEED: i64 = 4_294_967_295;

/// The longest pause of a pace, in microseconds.
const MOST_PACE: i64 = 1_000_000;

// What the help says of the words of a line.

const FILE: &str = "The text of the job; - is standard input";

const EXERCISE: &str = "The exercise; - is standard input";

const SUBMISSIONS: &str = "The submissions; - is standard input";

const EXPLAIN: &str = "Explain a refusal in a sentence, as on a terminal";

const SET: &str =
    "Set a constant or an array of a program: NAME=V, NAME=V,V,.. or NAME=@FILE, as CSV";

const SWEPT: &str =
    "Set names of a program; the first one to each of its values by itself: NAME=V,V,..";

const WHY: &str = "Say after the answer what became of the processors";

const LINES: &str = "Print what each counted line of a program costs, as records";

const FROM: &str = "The first step to print, which the job must have; 1 if it is left out";

const TO: &str = "The last step to print, from 1; the job's last if it is left out";

const CSV: &str = "Print the rows alone, without the answer";

const RECORDS: &str = "Print the final cells as records, with commas between";

const WORKERS: &str = "How many workers there are, from 1 to 64";

const PLAN: &str = "The plan that the workers follow, as CSV; - is standard input";

const RANDOM: &str =
    "The seed of a random plan, up to 4294967295; the plan is told on standard error";

const CELLS: &str = "The cells that are read, by their numbers, or as places of a program: A[3],s";

const ROUNDS: &str = "How often they are read, from 1 to 1000000";

const PROGRESS: &str = "Tell on standard error how far the workers are";

const PACE: &str = "The pause before each atomic step, from 0 to 1000000; none if it is left out";

const MODEL: &str =
    "The model of the PRAM that the run has to stay within: EREW, CREW, common or priority";

const BLOCK: &str =
    "How many processors a leaf of the board stands for, a power of two from 1 to 64";

pub(crate) fn check_command<'a>(alloc: Global) -> Result<Command<'a>, AllocError>
    ensures { IfOk result (λ command. app_of command ≡ on_check) }
{
    let about = "Say whether a text spells a job, and how large it is";
    let command = file_command(alloc, "check", about);
    with_arg(command, option(alloc, "model", "M", MODEL))
}

pub(crate) fn plain_command<'a>(alloc: Global) -> Result<Command<'a>, AllocError>
    ensures { IfOk result (λ command. app_of command ≡ on_plain) }
{
    let command = file_command(alloc, "plain", "Run a job on the plain machine");
    let command = with_style(alloc, command);
    with_arg(command, option(alloc, "model", "M", MODEL))
}

// The command, if it was made, with the style of its answer.
fn with_style<'a>(
    alloc: Global,
    made: Result<Command<'a>, AllocError>,
) -> Result<Command<'a>, AllocError>
    ensures { (app : App) → IfOk made.entry (λ it. app_of it ≡ app)
        → IfOk result (λ it. app_of it ≡ with_style app) }
{
    let command = with_arg(made, flag(alloc, "csv", RECORDS));
    with_arg(command, flag(alloc, "why", WHY))
}

pub(crate) fn cost_command<'a>(alloc: Global) -> Result<Command<'a>, AllocError>
    ensures { IfOk result (λ command. app_of command ≡ on_cost) }
{
    let about = "Say what the run of a job costs, and which model of the PRAM it needs";
    let command = file_command(alloc, "cost", about);
    let command = with_arg(command, flag(alloc, "lines", LINES));
    with_arg(command, option(alloc, "model", "M", MODEL))
}

pub(crate) fn sweep_command<'a>(alloc: Global) -> Result<Command<'a>, AllocError>
    ensures { IfOk result (λ command. app_of command ≡ on_sweep) }
{
    let about = "Say what the runs of a program cost in which a name is set to one value each";
    let command = text_command(alloc, "sweep", about);
    with_arg(command, needed(list(alloc, "set", "NAME=V,..", SWEPT)))
}

pub(crate) fn judge_command<'a>(alloc: Global) -> Result<Command<'a>, AllocError>
    ensures { IfOk result (λ command. app_of command ≡ on_judge) }
{
    let about = "Judge submissions by an exercise, and print a record for each";
    let exercise = placed(alloc, "file", "EXERCISE", EXERCISE);
    let command = named_command(alloc, "judge", about, exercise);
    let submissions = placed(alloc, "files", "FILE", SUBMISSIONS);
    with_arg(command, needed(several(submissions)))
}

pub(crate) fn steps_command<'a>(alloc: Global) -> Result<Command<'a>, AllocError>
    ensures { IfOk result (λ command. app_of command ≡ on_steps) }
{
    let command = file_command(
        alloc,
        "steps",
        "Run a job on the plain machine, and print what each processor asks for in each step",
    );
    let command = with_arg(command, step(alloc, "from", "A", FROM));
    let command = with_arg(command, step(alloc, "to", "B", TO));
    with_arg(command, flag(alloc, "csv", CSV))
}

pub(crate) fn trace_command<'a>(alloc: Global) -> Result<Command<'a>, AllocError>
    ensures { IfOk result (λ command. app_of command ≡ on_trace) }
{
    let about = "Run a program on the plain machine, and print its lines as they are made";
    let command = file_command(alloc, "trace", about);
    with_arg(command, flag(alloc, "csv", CSV))
}

// An option whose value is a step of a job.
fn step<'a>(alloc: Global, name: &'a str, value: &'a str, help: &'a str) -> Arg<'a>
    ensures rule { rule_of result ≡ number_rule name.entry.now 1 4294967295 }
    ensures local { result.global ≡ false }
{
    let option = option(alloc, name, value, help);
    numbered(option, value_parser!(u32).range(1..=MOST_STEPS))
}

pub(crate) fn replay_command<'a>(alloc: Global) -> Result<Command<'a>, AllocError>
    ensures { IfOk result (λ command. app_of command ≡ on_replay) }
{
    let command = workers_command(
        alloc,
        "replay",
        "Run a job on one thread, and print each step",
    );
    let command = with_arg(command, random(alloc));
    with_arg(command, flag(alloc, "csv", CSV))
}

fn random<'a>(alloc: Global) -> Arg<'a>
    ensures rule { rule_of result ≡ number_rule (codes "random") 0 4294967295 }
    ensures local { result.global ≡ false }
{
    let option = option(alloc, "random", "SEED", RANDOM);
    numbered(option, value_parser!(u32).range(0..=MOST_SEED))
}

pub(crate) fn run_command<'a>(alloc: Global) -> Result<Command<'a>, AllocError>
    ensures { IfOk result (λ command. app_of command ≡ on_run) }
{
    let command = workers_command(alloc, "run", "Run a job on threads");
    let command = with_manner(alloc, command);
    with_style(alloc, command)
}

pub(crate) fn watch_command<'a>(alloc: Global) -> Result<Command<'a>, AllocError>
    ensures { IfOk result (λ command. app_of command ≡ on_watch) }
{
    let command = workers_command(
        alloc,
        "watch",
        "Run a job on threads, and read cells while they run",
    );
    let cells = option(alloc, "cells", "C,C,..", CELLS);
    let command = with_arg(command, needed(cells));
    let command = with_arg(command, needed(rounds(alloc)));
    with_manner(alloc, command)
}

fn rounds<'a>(alloc: Global) -> Arg<'a>
    ensures rule { rule_of result ≡ number_rule (codes "rounds") 1 1000000 }
    ensures local { result.global ≡ false }
{
    let option = option(alloc, "rounds", "R", ROUNDS);
    numbered(option, value_parser!(u32).range(1..=MOST_ROUNDS))
}

// The command, if it was made, with what a run and a watch take last.
fn with_manner<'a>(
    alloc: Global,
    made: Result<Command<'a>, AllocError>,
) -> Result<Command<'a>, AllocError>
    ensures { (app : App) → IfOk made.entry (λ it. app_of it ≡ app)
        → IfOk result (λ it. app_of it ≡ with_manner app) }
{
    with_arg(with_progress(alloc, made), block(alloc))
}

fn block<'a>(alloc: Global) -> Arg<'a>
    ensures rule { rule_of result ≡ number_rule (codes "block") 1 64 }
    ensures local { result.global ≡ false }
{
    let option = option(alloc, "block", "G", BLOCK);
    numbered(option, value_parser!(u32).range(1..=64))
}

fn with_progress<'a>(
    alloc: Global,
    made: Result<Command<'a>, AllocError>,
) -> Result<Command<'a>, AllocError>
    ensures { (app : App) → IfOk made.entry (λ it. app_of it ≡ app)
        → IfOk result (λ it. app_of it ≡ with_progress app) }
{
    let command = with_arg(made, flag(alloc, "progress", PROGRESS));
    with_arg(command, pace(alloc))
}

fn pace<'a>(alloc: Global) -> Arg<'a>
    ensures rule { rule_of result ≡ number_rule (codes "pace") 0 1000000 }
    ensures local { result.global ≡ false }
{
    let option = option(alloc, "pace", "MICROSECONDS", PACE);
    numbered(option, value_parser!(u32).range(0..=MOST_PACE))
}

fn workers_command<'a>(
    alloc: Global,
    name: &'a str,
    about: &'a str,
) -> Result<Command<'a>, AllocError>
    ensures { IfOk result (λ command. app_of command ≡ with_workers name.entry.now) }
{
    let command = file_command(alloc, name, about);
    let command = with_arg(command, needed(workers(alloc)));
    with_arg(command, option(alloc, "plan", "P", PLAN))
}

fn workers<'a>(alloc: Global) -> Arg<'a>
    ensures rule { rule_of result ≡ number_rule (codes "workers") 1 64 }
    ensures local { result.global ≡ false }
{
    let option = option(alloc, "workers", "W", WORKERS);
    numbered(option, value_parser!(u32).range(1..=64))
}

pub(crate) fn file_command<'a>(
    alloc: Global,
    name: &'a str,
    about: &'a str,
) -> Result<Command<'a>, AllocError>
    ensures { IfOk result (λ command. app_of command ≡ on_file name.entry.now) }
{
    let command = text_command(alloc, name, about);
    with_arg(command, list(alloc, "set", "NAME=V,..", SET))
}

// A command on the text of a file.
fn text_command<'a>(alloc: Global, name: &'a str, about: &'a str) -> Result<Command<'a>, AllocError>
    ensures { IfOk result (λ command. app_of command ≡ on_text name.entry.now) }
{
    named_command(alloc, name, about, placed(alloc, "file", "FILE", FILE))
}

// A command on a file, which this argument names.
fn named_command<'a>(
    alloc: Global,
    name: &'a str,
    about: &'a str,
    file: Arg<'a>,
) -> Result<Command<'a>, AllocError>
    requires rule { rule_of file ≡ placed_rule (codes "file") }
    requires local { file.global ≡ false }
    ensures { IfOk result (λ command. app_of command ≡ on_text name.entry.now) }
{
    let command = Command::new(alloc, name).about(about);
    let command = with_arg(Ok(command), needed(file));
    with_arg(command, flag(alloc, "explain", EXPLAIN))
}
