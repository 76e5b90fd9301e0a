//! The program `pramx`: does what its words ask over files, standard output and standard error.
#![tactic(auto)]

ghost use Rattle.std.specs.Prelude.{◌≡◌, ◌≤◌, false, IfOk, OnErr};

mod late;

use crate::late::{Begins, Late};
use command_answers::{RealFiles, Waiting, answer_alone, serve_waiting};
use pram_commands::{Console, Folder, Look, MEMORY, Refusal, tell};
use pram_streams::{IntoWrite, Sink};
use std::alloc::{AllocError, Global};
use std::env::{self, Env, FillError};
use std::io::{self, IsTerminal};
use std::process::ExitCode;
use std::thread;

// Of all that it calls only `serve_waiting` may wait, which is for a line that starts threads, and
// on a terminal who tells that an answer takes long.
fn main(rt: HostRuntime) -> ExitCode {
    let is_terminal = rt.stderr().is_terminal();
    let words = words_of(&rt);
    let texts = texts_of(rt.alloc(), &words);
    let late = Late::new();
    let status = thread::scope(thread::scope_env(), &rt, |scope| -> u8 {
        if is_terminal && !is_told_otherwise(&texts) {
            let _ = scope.spawn(|| late.tell(&rt));
        }
        let mut console = Console {
            out: Begins {
                sink: IntoWrite::new(io::writer(&rt)),
                late: &late,
            },
            err: Begins {
                sink: IntoWrite::new(rt.stderr()),
                late: &late,
            },
            is_terminal,
            explains: is_terminal,
            look: look_on(&rt, is_terminal),
            notes: false,
        };
        let folder = RealFiles::new(&rt, rt.stdin());
        let status = match status(rt.alloc(), &folder, &texts, &mut console) {
            Ok(status) => status,
            Err(waiting) => serve_waiting(&rt, rt.alloc(), &folder, &waiting, &mut console),
        };
        late.stop();
        status
    });
    ExitCode::from(status)
}

/// Whether words ask for progress, or for standard input, which may be waited for.
fn is_told_otherwise<'w>(texts: &Result<Vec<&'w str>, Refusal<'w>>) -> bool {
    match texts {
        Ok(texts) => texts
            .iter()
            .any(|&text| text == "-" || text == "--progress"),
        Err(_) => false,
    }
}

/// A terminal has colours, unless the environment says that there are to be none.
fn look_on<R: Env>(rt: &R, is_terminal: bool) -> Look {
    if is_terminal && !has_value(rt, "NO_COLOR") && !is_dumb(rt) {
        Look::Coloured
    } else {
        Look::Plain
    }
}

fn has_value<R: Env>(rt: &R, name: &str) -> bool {
    match rt.var(name, &mut [0u8; 1]) {
        Ok(len) => len > 0,
        Err(FillError::TooLong) => true,
        Err(FillError::NotPresent) => false,
    }
}

fn is_dumb<R: Env>(rt: &R) -> bool {
    let mut value = [0u8; 8];
    match rt.var("TERM", &mut value) {
        Ok(len) => value.get(..len) == Some(b"dumb"),
        Err(_) => false,
    }
}

/// Does what the program's words ask, and answers the exit status, or the line that they mean if it
/// starts threads. It always returns.
fn status<'a, 'w: 'a, F: Folder, O: Sink, E: Sink>(
    alloc: Global,
    folder: &F,
    texts: &'a Result<Vec<&'w str>, Refusal<'w>>,
    console: &mut Console<O, E>,
) -> Result<u8, Waiting<'a>>
    requires out { O.has_failed console.old.out ≡ false }
    requires err { E.has_failed console.old.err ≡ false }
    ensures status { IfOk result (λ status. status ≤ MEMORY) }
    ensures still { OnErr result ((console.new.out ≡ console.old.out)
        × (console.new.err ≡ console.old.err)) }
{
    match texts {
        Ok(texts) => answer_alone(alloc, folder, texts.as_slice(), console),
        Err(refusal) => Ok(tell(alloc, *refusal, &mut console.err)),
    }
}

fn words_of<R: AllocGlobal + Env>(rt: &R) -> io::Result<Vec<String>> {
    Ok(env::args(rt)?.collect(rt.alloc())?)
}

// The words as texts, or what is told in place of a line.
fn texts_of<'a>(
    alloc: Global,
    words: &'a io::Result<Vec<String>>,
) -> Result<Vec<&'a str>, Refusal<'a>> {
    let words = match words {
        Ok(words) => words,
        Err(error) if error.kind() == io::ErrorKind::OutOfMemory => return Err(Refusal::Memory),
        Err(_) => return Err(Refusal::Word),
    };
    match words.iter().map(|word| word.as_str()).collect(alloc) {
        Ok(texts) => Ok(texts),
        Err(AllocError) => Err(Refusal::Memory),
    }
}
