//! What the program answers to words: a line is served, and all else is told.
ghost use Rattle.std.specs.Prelude.{◌≡◌, ◌≢◌, ◌⊎◌, ◌≤◌, false, map};
ghost use Rattle.std.specs.Prelude.{IfErr, IfOk, OnErr};
ghost use Rattle.clap.specs.Words.{kind_of};
ghost use Rattle.naming.specs.Writing.{writing};
ghost use Rattle.pram_commands.specs.Files.{MayFail};
ghost use Rattle.command_answers.specs.Answering.{AnswersWords, AskForThreads, EndsByWords};
ghost use Rattle.command_answers.specs.Answering.{ServesAsked, ServesOrRefusesSet, ServesOwn};
ghost use Rattle.command_answers.specs.Answering.{ServesWaiting, Starves, WaitsFor};

use crate::judging::answer_judging;
use crate::random::{answer_by_plan, random_of};
use crate::setting::set_text;
use crate::sweep::{answer_sweep, is_sweep};
use clap::error::ErrorKind;
use command_line::{Asked, Given, read_line};
use pram_commands::{
    Ask, Console, DONE, FAILED, Folder, Line, MEMORY, Refusal, serve_files, serve_files_alone,
    serve_text, serve_text_alone, tell, tell_unset,
};
use pram_streams::{Sink, put};
use std::alloc::{AllocError, Global};
use std::rt::Clock;
use std::sync::Wait;
use std::thread::Threads;

/// Does what the words ask, of which the first is the program's name, over files, standard output
/// and standard error, and answers the exit status.
pub fn answer_words<'a, R: Eprint + Threads + Wait + Clock + Sync, F: Folder, O: Sink, E: Sink>(
    rt: &R,
    alloc: Global,
    folder: &F,
    words: &'a [&'a str],
    console: &mut Console<O, E>,
) -> u8
    requires out { O.has_failed console.old.out ≡ false }
    requires err { E.has_failed console.old.err ≡ false }
    ensures status { result ≤ MEMORY }
    ensures words { EndsByWords (map (λ word. word.now) words.entry.now)
        (writing O.Sink console.old.out console.new.out) result }
    ensures answers { AnswersWords (F.holds folder.now) (MayFail F.File.Source)
        (map (λ word. word.now) words.entry.now) console.old.is_terminal
        (writing O.Sink console.old.out console.new.out) result }
{
    match answer_alone(alloc, folder, words, console) {
        Ok(status) => status,
        Err(waiting) => serve_waiting(rt, alloc, folder, &waiting, console),
    }
}

/// A line that is done on threads, and the text of its job where the words set names.
#[derive(Drop)]
pub struct Waiting<'a> {
    pub line: Line<'a>,
    pub text: Option<Vec<u8>>,
}

/// Does what waits for threads.
pub fn serve_waiting<R: Eprint + Threads + Wait + Clock + Sync, F: Folder, O: Sink, E: Sink>(
    rt: &R,
    alloc: Global,
    folder: &F,
    waiting: &Waiting<'_>,
    console: &mut Console<O, E>,
) -> u8
    requires out { O.has_failed console.old.out ≡ false }
    requires err { E.has_failed console.old.err ≡ false }
    ensures { ServesWaiting (F.holds folder.now) (MayFail F.File.Source) waiting.now.text
        waiting.now.line (writing O.Sink console.old.out console.new.out) result }
{
    match &waiting.text {
        None => serve_files(rt, alloc, folder, &waiting.line, console),
        Some(text) => serve_text(rt, alloc, folder, &waiting.line, text.as_slice(), console),
    }
}

/// Does what `answer_words` does where the words ask nothing on threads, and always returns; else
/// it gives their line, for which nothing was written.
pub fn answer_alone<'a, F: Folder, O: Sink, E: Sink>(
    alloc: Global,
    folder: &F,
    words: &'a [&'a str],
    console: &mut Console<O, E>,
) -> Result<u8, Waiting<'a>>
    requires out { O.has_failed console.old.out ≡ false }
    requires err { E.has_failed console.old.err ≡ false }
    ensures status { IfOk result (λ status. status ≤ MEMORY) }
    ensures words { IfOk result (EndsByWords (map (λ word. word.now) words.entry.now)
        (writing O.Sink console.old.out console.new.out)) }
    ensures answers { IfOk result (AnswersWords (F.holds folder.now) (MayFail F.File.Source)
        (map (λ word. word.now) words.entry.now) console.old.is_terminal
        (writing O.Sink console.old.out console.new.out)) }
    ensures line { IfErr result (AskForThreads (F.holds folder.now)
        (map (λ word. word.now) words.entry.now) console.old.is_terminal) }
    ensures still { OnErr result ((console.new.out ≡ console.old.out)
        × (console.new.err ≡ console.old.err)) }
{
    match read_line(alloc, words, console.is_terminal) {
        Ok(Given::Line(asked, settings)) => {
            answer_asked(alloc, folder, asked, settings.as_slice(), console)
        }
        Ok(Given::Judge(judging)) => Ok(answer_judging(alloc, folder, &judging, console)),
        Err(error) => Ok(refusal_status(alloc, &error, console)),
    }
}

// Does what is asked, with the text of its file as these words set names, or gives the line and the
// text where it asks for threads.
fn answer_asked<'a, F: Folder, O: Sink, E: Sink>(
    alloc: Global,
    folder: &F,
    asked: Asked<'a>,
    settings: &[&'a str],
    console: &mut Console<O, E>,
) -> Result<u8, Waiting<'a>>
    requires out { O.has_failed console.old.out ≡ false }
    requires err { E.has_failed console.old.err ≡ false }
    ensures served { IfOk result (λ status. ServesAsked (F.holds folder.now)
        (MayFail F.File.Source) asked.entry (map (λ word. word.now) settings.now)
        (writing O.Sink console.old.out console.new.out) status
        ⊎ Starves (writing O.Sink console.old.out console.new.out) status) }
    ensures waiting { IfErr result (WaitsFor (F.holds folder.now) asked.entry.line
        (map (λ word. word.now) settings.now)) }
    ensures still { OnErr result ((console.new.out ≡ console.old.out)
        × (console.new.err ≡ console.old.err)) }
{
    console.explains |= asked.explain;
    console.notes |= asked.explain;
    let line = asked.line;
    match random_of(alloc, &asked) {
        Ok(None) => answer_own(alloc, folder, line, settings, console),
        Ok(Some(random)) => Ok(answer_by_plan(alloc, folder, &line, settings, &random, console)),
        Err(AllocError) => Ok(tell(alloc, Refusal::Memory, &mut console.err)),
    }
}

// Does what a line asks without a random plan.
fn answer_own<'a, F: Folder, O: Sink, E: Sink>(
    alloc: Global,
    folder: &F,
    line: Line<'a>,
    settings: &[&'a str],
    console: &mut Console<O, E>,
) -> Result<u8, Waiting<'a>>
    requires out { O.has_failed console.old.out ≡ false }
    requires err { E.has_failed console.old.err ≡ false }
    ensures served { IfOk result (ServesOwn (F.holds folder.now) (MayFail F.File.Source)
        line.entry (map (λ word. word.now) settings.now)
        (writing O.Sink console.old.out console.new.out)) }
    ensures waiting { IfErr result (WaitsFor (F.holds folder.now) line.entry
        (map (λ word. word.now) settings.now)) }
    ensures still { OnErr result ((console.new.out ≡ console.old.out)
        × (console.new.err ≡ console.old.err)) }
{
    match settings {
        [] => match line.ask {
            Ask::Alone(ask) => Ok(serve_files_alone(alloc, folder, &line, ask, console)),
            Ask::OnThreads(_) => Err(Waiting { line, text: None }),
        },
        given => answer_set(alloc, folder, line, given, console),
    }
}

// Does what a line asks with the text of its file as these words set names, or gives the line and
// the text where it asks for threads.
fn answer_set<'a, F: Folder, O: Sink, E: Sink>(
    alloc: Global,
    folder: &F,
    line: Line<'a>,
    settings: &[&'a str],
    console: &mut Console<O, E>,
) -> Result<u8, Waiting<'a>>
    requires out { O.has_failed console.old.out ≡ false }
    requires err { E.has_failed console.old.err ≡ false }
    ensures served { IfOk result (ServesOrRefusesSet (F.holds folder.now) (MayFail F.File.Source)
        line.entry (map (λ word. word.now) settings.now)
        (writing O.Sink console.old.out console.new.out)) }
    ensures waiting { IfErr result (WaitsFor (F.holds folder.now) line.entry
        (map (λ word. word.now) settings.now)) }
    ensures still { OnErr result ((console.new.out ≡ console.old.out)
        × (console.new.err ≡ console.old.err)) }
{
    if is_sweep(&line.ask) {
        return Ok(answer_sweep(alloc, folder, &line, settings, console));
    }
    let text = match set_text(alloc, folder, line.file, settings) {
        Ok(text) => text,
        Err(unset) => return Ok(tell_unset(alloc, &unset, console.explains, &mut console.err)),
    };
    match line.ask {
        Ask::Alone(ask) => {
            let text = text.as_slice();
            Ok(serve_text_alone(alloc, folder, &line, ask, text, console))
        }
        Ask::OnThreads(_) => {
            let text = Some(text);
            Err(Waiting { line, text })
        }
    }
}

/// Prints what `read_line` answers in place of a line, and answers its status: help and the version
/// on the output, all else on standard error.
fn refusal_status<O: Sink, E: Sink>(
    alloc: Global,
    error: &clap::Error,
    console: &mut Console<O, E>,
) -> u8
    requires out { O.has_failed console.old.out ≡ false }
    requires err { E.has_failed console.old.err ≡ false }
    ensures status { result ≤ MEMORY }
    ensures memory { kind_of error.now ≡ ErrorKind.OutOfMemory
        → (result ≡ MEMORY) × (console.new.out ≡ console.old.out) }
    ensures wrong { kind_of error.now ≢ ErrorKind.DisplayHelp
        → kind_of error.now ≢ ErrorKind.DisplayVersion
        → ((result ≡ FAILED) ⊎ (result ≡ MEMORY)) × (console.new.out ≡ console.old.out) }
    ensures shown { (result ≡ DONE) ⊎ ((result ≡ FAILED) ⊎ (result ≡ MEMORY)) }
{
    if error.kind() == ErrorKind::OutOfMemory {
        return tell(alloc, Refusal::Memory, &mut console.err);
    }
    let Ok(text) = format!(in alloc; "{error}") else {
        return tell(alloc, Refusal::Memory, &mut console.err);
    };
    if error.use_stderr() {
        let _ = put(&mut console.err, text.as_bytes());
        return FAILED;
    }
    match put(&mut console.out, text.as_bytes()) {
        Ok(()) => DONE,
        Err(_) => tell(alloc, Refusal::Output, &mut console.err),
    }
}
