//! What the program is asked for.
ghost use Rattle.std.specs.Prelude.{◌≡◌};
ghost use Rattle.command_data.specs.Line.{watched_place};

use crate::cell_list::CellList;
use crate::manner::Manner;
use crate::workers::Workers;
use pram_cost::Pram;

/// What the program is asked for: the job's file, the plan's if one is named, and what is asked of
/// them. A file is named as its word names it.
#[derive(Clone, Copy, Debug, PartialEq, Eq)]
pub struct Line<'a> {
    pub file: &'a str,
    pub plan: Option<&'a str>,
    pub ask: Ask<'a>,
}

/// What is asked: something that the thread which calls does alone, or something that is done on
/// threads.
#[derive(Clone, Copy, Debug, PartialEq, Eq)]
pub enum Ask<'a> {
    Alone(AskAlone),
    OnThreads(AskOnThreads<'a>),
}

/// What the thread that calls does alone. Under a model of the PRAM it does so where that accepts
/// all steps of the run, and else says where the run goes beyond it.
#[derive(Clone, Copy, Debug, PartialEq, Eq)]
pub enum AskAlone {
    /// Say how large the job is.
    Check { model: Option<Pram> },
    /// Print the job as a text of the machine.
    Compile,
    /// Run the job on the plain machine.
    Plain { style: Style, model: Option<Pram> },
    /// Say what the run of the job costs, and which model of the PRAM it needs; or, if it is asked
    /// for, what each counted line of its program costs.
    Cost { lines: bool, model: Option<Pram> },
    /// Say in one record what the run of the job costs, as a sweep does of each size.
    Sweep,
    /// Run the job on the plain machine, and print what each processor asks for in each step from
    /// one to another, counted from 1; after these rows the answer, unless they are to stand alone.
    Steps { from: u32, to: u32, alone: bool },
    /// Run the job on the plain machine, and print the lines of its program as they are made; after
    /// these rows the answer, unless they are to stand alone.
    Trace { alone: bool },
    /// Run the job by the plan, and print each step; after these rows the answer, unless they are
    /// to stand alone.
    Replay { workers: Workers, alone: bool },
}

/// How an answer is told: with cells as records, if that is asked for, and with what became of the
/// processors after it, if that is.
#[derive(Clone, Copy, Debug, PartialEq, Eq)]
pub struct Style {
    pub csv: bool,
    pub why: bool,
}

/// What is done on threads.
#[derive(Clone, Copy, Debug, PartialEq, Eq)]
pub enum AskOnThreads<'a> {
    Run(AskRun),
    Watch(AskWatch<'a>),
}

/// Run the job on threads, in this manner, and tell its answer in this style.
#[derive(Clone, Copy, Debug, PartialEq, Eq)]
pub struct AskRun {
    pub manner: Manner,
    pub style: Style,
}

/// Run the job on threads, in this manner, with a reader beside the workers, which goes so many
/// rounds through the cells.
#[derive(Clone, Copy, Debug, PartialEq, Eq)]
pub struct AskWatch<'a> {
    pub manner: Manner,
    pub cells: CellList<'a>,
    pub rounds: u32,
}

impl<'a> Ask<'a> {
    /// What a watch names, by its number.
    pub fn place(&self, at: usize) -> &'a str
        ensures { result.now ≡ watched_place self.now at }
    {
        match self {
            Ask::OnThreads(AskOnThreads::Watch(watch)) => watch.cells.part(at),
            _ => "",
        }
    }
}
