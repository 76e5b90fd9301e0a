//! Tables of words, texts and plans, each with the status and all that is written.
//!
//! A line `$ WORDS` has the words for the rows below it: each row is answered so by all of them,
//! where ` & ` stands between several. In them `*` stands for what is in front of a row's ` : `.
//! A row is `TEXT | STATUS WRITTEN` or `TEXT under PLAN | STATUS WRITTEN`, where `~` stands for a
//! line feed, the text `same` for that of the row above, and what is written has `{N}` for N lines
//! that it does not tell, or `{}` for any. Lines that begin with `--` are comments.
ghost use Rattle.std.specs.Prelude.{⊤};

use command_answers::answer_words;
use failing_devices::Trickle;
use pram_commands::{Bytes, Console, Folder, Look};
use std::alloc::{AllocError, Global};
use std::process::Abort;
use std::rt::Clock;
use std::sync::Wait;
use std::test::Fail;
use std::thread::Threads;

/// Three files: a plan of this name, rows of numbers, and a job of any other name.
#[derive(Drop)]
pub struct Shelf<'a> {
    pub job: &'a [u8],
    pub plan: &'a [u8],
}

impl<'a> Folder for Shelf<'a> {
    type File = Bytes<'a>;

    ghost holds = { λ _ _ _. ⊤ };

    fn open(&self, name: &str) -> Bytes<'a> {
        Bytes::new(match name {
            "plan" => self.plan,
            "rows" => b"7, 8\n9\n",
            _ => self.job,
        })
    }
}

/// How many bytes the output and standard error take before they fail.
#[derive(Clone, Copy)]
pub struct Room {
    pub out: usize,
    pub err: usize,
}

pub const AMPLE: Room = Room {
    out: usize::MAX,
    err: usize::MAX,
};

/// The status, and what was written.
#[derive(Drop)]
pub struct Answered {
    pub status: u8,
    pub out: Vec<u8>,
    pub err: Vec<u8>,
}

/// Answers words over the files of a folder.
pub fn answer<R: Threads + Wait + Clock + Eprint + Sync, F: Folder>(
    rt: &R,
    alloc: Global,
    folder: &F,
    words: &str,
    room: Room,
) -> Result<Answered, AllocError> {
    let on_terminal = words.strip_suffix(" on a terminal");
    let words: Vec<&str> = on_terminal.unwrap_or(words).split(' ').collect(alloc)?;
    let mut console = Console {
        out: Trickle::new(alloc, room.out),
        err: Trickle::new(alloc, room.err),
        is_terminal: on_terminal.is_some(),
        explains: false,
        look: Look::Plain,
        notes: false,
    };
    let status = answer_words(rt, alloc, folder, words.as_slice(), &mut console);
    let Console { out, err, .. } = console;
    Ok(Answered {
        status,
        out: out.taken,
        err: err.taken,
    })
}

/// A row, below its words.
#[derive(Clone, Copy)]
pub struct Row<'a> {
    pub words: &'a str,
    pub front: &'a str,
    pub text: &'a str,
    pub plan: &'a str,
    pub status: u8,
    pub written: &'a str,
}

// The row of a line, below these words and this text.
fn row_of<'a>(words: &'a str, above: &'a str, line: &'a str) -> Option<Row<'a>> {
    let (given, told) = line.split_once(" | ")?;
    let (front, given) = given.split_once(" : ").unwrap_or(("", given));
    let (text, plan) = given.split_once(" under ").unwrap_or((given, ""));
    let (status, written) = told.split_once(' ')?;
    Some(Row {
        words,
        front,
        text: if text == "same" { above } else { text },
        plan,
        status: status.parse().ok()?,
        written,
    })
}

/// A text of a table, with its line feeds.
pub fn lines_of(alloc: Global, text: &str) -> Result<String, AllocError> {
    text.replace(alloc, "~", "\n")
}

// How many lines stand between a beginning and an end.
fn lines_between(found: &[u8], head: &str, tail: &str) -> Option<usize> {
    let rest = found.strip_prefix(head.as_bytes())?;
    let rest = rest.strip_suffix(tail.as_bytes())?;
    Some(rest.iter().filter(|byte| **byte == b'\n').count())
}

// Whether this was found, in which some lines may not be told.
fn is_told(found: &[u8], written: &str) -> bool {
    let Some((head, rest)) = written.split_once('{') else {
        return found == written.as_bytes();
    };
    let Some((wanted, tail)) = rest.split_once('}') else {
        return false;
    };
    match lines_between(found, head, tail) {
        None => false,
        Some(count) => wanted.is_empty() || wanted.parse() == Ok(count),
    }
}

impl Answered {
    /// Whether it is this status, with this alone: an answer on the output, and a refusal, with
    /// status 2 or 4, on standard error.
    pub fn is(&self, status: u8, written: &str) -> bool {
        let (found, other) = match status {
            2 | 4 => (&self.err, &self.out),
            _ => (&self.out, &self.err),
        };
        self.status == status && other.is_empty() && is_told(found, written)
    }
}

// Answers a row by these words.
fn row_answered<R: Threads + Wait + Clock + Eprint + Sync>(
    rt: &R,
    alloc: Global,
    row: &Row<'_>,
    words: &str,
) -> Result<Answered, AllocError> {
    let plan = format!(in alloc; "worker,act,ticks~{}", row.plan)?;
    let plan = lines_of(alloc, plan.as_str())?;
    let job = lines_of(alloc, row.text)?;
    let words = words.replace(alloc, "*", row.front)?;
    let shelf = Shelf {
        job: job.as_bytes(),
        plan: plan.as_bytes(),
    };
    answer(rt, alloc, &shelf, words.as_str(), AMPLE)
}

/// A row is answered as it says.
pub fn expect_row<R: Abort + Threads + Wait + Clock + Eprint + Sync>(
    rt: &R,
    alloc: Global,
    row: &Row<'_>,
) -> Result<(), Fail> {
    let written = lines_of(alloc, row.written)?;
    for words in row.words.split(" & ") {
        let is_answered = row_answered(rt, alloc, row, words)?.is(row.status, written.as_str());
        assert!(rt; is_answered, "{words}, {}: {}", row.front, row.written);
    }
    Ok(())
}

/// The rows of a table are answered as they say.
pub fn expect<R: Abort + Threads + Wait + Clock + Eprint + Sync>(
    rt: &R,
    alloc: Global,
    table: &str,
) -> Result<(), Fail> {
    let (mut words, mut text) = ("", "");
    for line in table.lines() {
        if let Some(given) = line.strip_prefix("$ ") {
            words = given;
        } else if !line.starts_with("--") {
            let row = row_of(words, text, line).expect(rt, line);
            expect_row(rt, alloc, &row)?;
            text = row.text;
        }
    }
    Ok(())
}
