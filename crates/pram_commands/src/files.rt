//! A line served from the files that it names.
ghost use Rattle.std.specs.Prelude.{◌≡◌, ℕ, false, IfNone, IsTrue, List, [], None, Option, Some};
ghost use Rattle.std.specs.Option.{option_map_or};
ghost use Rattle.command_data.specs.Line.{text_now};
ghost use Rattle.command_data.specs.declared.line.Ask.TheVariants.{Alone};
ghost use Rattle.naming.specs.Writing.{writing};
ghost use Rattle.pram_commands.specs.Files.{ArePlanBytes, MayFail, ServesFiles};
ghost use Rattle.pram_commands.specs.Files.{ServesText};

use crate::bytes::Bytes;
use crate::server::{serve, serve_alone};
use crate::sources::{Console, Sources};
use command_data::{AskAlone, Line};
use pram_streams::{Failed, Reason, Sink, Source};
use std::alloc::Global;
use std::rt::Clock;
use std::sync::Wait;
use std::thread::Threads;

/// Files by their names.
pub trait Folder {
    /// The bytes of a file. Where it could not be opened, the first pull fails.
    type File: Source + Drop;

    // What a source of the file of this name may have to give, before its first pull.
    ghost holds: { Self → List ℕ → Option (List ℕ) → Type 0 };

    /// The bytes of the file of this name.
    fn open(&self, name: &str) -> Self::File
        ensures unfailed { Self.File.has_failed result ≡ false }
        ensures bytes { holds self.now name.now (Self.File.remaining result) };
}

/// The file of a plan, if a line names one; else there are no bytes, and nothing fails.
#[derive(Drop)]
pub(crate) struct PlanFile<S> {
    pub file: Option<S>,
}

impl<S: Source> Source for PlanFile<S> {
    ghost has_failed = { λ s. option_map_or S.has_failed s.file false };

    ghost remaining = { λ s. option_map_or S.remaining s.file (Some []) };

    fn pull(&mut self, into: &mut [u8]) -> Result<usize, Failed> {
        match &mut self.file {
            Some(file) => file.pull(into),
            None => Ok(0),
        }
    }

    fn reason(&self) -> Reason {
        match &self.file {
            Some(file) => file.reason(),
            None => Reason::Unknown,
        }
    }
}

/// Does what `serve` does, over the files that the line names.
pub fn serve_files<R: Threads + Wait + Clock + Eprint + Sync, F: Folder, O: Sink, E: Sink>(
    rt: &R,
    alloc: Global,
    folder: &F,
    line: &Line<'_>,
    console: &mut Console<O, E>,
) -> u8
    requires out { O.has_failed console.old.out ≡ false }
    requires err { E.has_failed console.old.err ≡ false }
    ensures { ServesFiles (F.holds folder.now) (MayFail F.File.Source) line.now
        (writing O.Sink console.old.out console.new.out) result }
{
    serve(rt, alloc, line, &mut sources_of(folder, line), console)
}

/// Does what `serve_files` does where the thread that calls is asked alone, and always returns.
pub fn serve_files_alone<F: Folder, O: Sink, E: Sink>(
    alloc: Global,
    folder: &F,
    line: &Line<'_>,
    ask: AskAlone,
    console: &mut Console<O, E>,
) -> u8
    requires alone { line.now.ask ≡ Alone ask }
    requires out { O.has_failed console.old.out ≡ false }
    requires err { E.has_failed console.old.err ≡ false }
    ensures { ServesFiles (F.holds folder.now) (MayFail F.File.Source) line.now
        (writing O.Sink console.old.out console.new.out) result }
{
    serve_alone(alloc, line, ask, &mut sources_of(folder, line), console)
}

/// Does what `serve_files` does, with this text in the place of the job's file.
pub fn serve_text<R: Threads + Wait + Clock + Eprint + Sync, F: Folder, O: Sink, E: Sink>(
    rt: &R,
    alloc: Global,
    folder: &F,
    line: &Line<'_>,
    text: &[u8],
    console: &mut Console<O, E>,
) -> u8
    requires out { O.has_failed console.old.out ≡ false }
    requires err { E.has_failed console.old.err ≡ false }
    ensures { ServesText text.now (F.holds folder.now) (MayFail F.File.Source) line.now
        (writing O.Sink console.old.out console.new.out) result }
{
    let plan = plan_of(folder, line);
    let job = Bytes::new(text);
    let mut sources = Sources {
        job,
        plan,
        text: None,
        unplanned: line.plan.is_none(),
    };
    serve(rt, alloc, line, &mut sources, console)
}

/// Does what `serve_text` does where the thread that calls is asked alone, and always returns.
pub fn serve_text_alone<F: Folder, O: Sink, E: Sink>(
    alloc: Global,
    folder: &F,
    line: &Line<'_>,
    ask: AskAlone,
    text: &[u8],
    console: &mut Console<O, E>,
) -> u8
    requires alone { line.now.ask ≡ Alone ask }
    requires out { O.has_failed console.old.out ≡ false }
    requires err { E.has_failed console.old.err ≡ false }
    ensures { ServesText text.now (F.holds folder.now) (MayFail F.File.Source) line.now
        (writing O.Sink console.old.out console.new.out) result }
{
    let plan = plan_of(folder, line);
    let job = Bytes::new(text);
    let mut sources = Sources {
        job,
        plan,
        text: None,
        unplanned: line.plan.is_none(),
    };
    serve_alone(alloc, line, ask, &mut sources, console)
}

// The files that the line names, as they are opened.
fn sources_of<F: Folder>(folder: &F, line: &Line<'_>) -> Sources<F::File, PlanFile<F::File>>
    ensures job_failed { F.File.has_failed result.job ≡ false }
    ensures plan_failed { option_map_or F.File.has_failed result.plan.file false ≡ false }
    ensures job { F.holds folder.now line.now.file.now (F.File.remaining result.job) }
    ensures plan { ArePlanBytes (F.holds folder.now) (text_now line.now.plan)
        (option_map_or F.File.remaining result.plan.file (Some [])) }
    ensures unplanned { IsTrue result.unplanned →
        option_map_or F.File.remaining result.plan.file (Some []) ≡ Some [] }
{
    let job = folder.open(line.file);
    let plan = plan_of(folder, line);
    Sources {
        job,
        plan,
        text: None,
        unplanned: line.plan.is_none(),
    }
}

// The plan's file, as it is opened, if the line names one.
fn plan_of<F: Folder>(folder: &F, line: &Line<'_>) -> PlanFile<F::File>
    ensures failed { option_map_or F.File.has_failed result.file false ≡ false }
    ensures plan { ArePlanBytes (F.holds folder.now) (text_now line.now.plan)
        (option_map_or F.File.remaining result.file (Some [])) }
    ensures none { IfNone line.now.plan (result.file ≡ None) }
{
    let file = match line.plan {
        Some(name) => Some(folder.open(name)),
        None => None,
    };
    PlanFile { file }
}
