//! Files and standard input as sources.
ghost use Rattle.std.specs.Prelude.{⊤};
ghost use Rattle.command_answers.specs.Input.{remaining_of};

use pram_commands::Folder;
use pram_streams::FromRead;
use std::fs;
use std::io::{ErrorKind, Read, Result, Stdin};
use std::rt::Files;

/// The name of standard input.
const STANDARD: &str = "-";

/// A file, standard input, or what could not be opened: each read of that fails as the opening did.
#[derive(Drop)]
pub enum Input<F: Read> {
    File(F),
    Standard(Stdin),
    Closed(ErrorKind),
}

impl<F: Read> Read for Input<F> {
    ghost remaining = { remaining_of F.remaining };

    fn read(&mut self, into: &mut [u8]) -> Result<usize> {
        match self {
            Input::File(file) => file.read(into),
            Input::Standard(stdin) => stdin.read(into),
            Input::Closed(kind) => Err((*kind).into()),
        }
    }
}

/// The files of the operating system, which tell no bytes. The name `-` stands for standard input,
/// which gives what is left of it each time that it is opened.
#[derive(Drop)]
pub struct RealFiles<'a, R: Files> {
    rt: &'a R,
    stdin: Stdin,
}

impl<'a, R: Files> RealFiles<'a, R> {
    pub fn new(rt: &'a R, stdin: Stdin) -> Self {
        RealFiles { rt, stdin }
    }
}

impl<R: Files> RealFiles<'_, R> {
    fn input(&self, name: &str) -> Input<R::File> {
        if name == STANDARD {
            return Input::Standard(self.stdin);
        }
        match fs::open(self.rt, name) {
            Ok(file) => Input::File(file),
            Err(error) => Input::Closed(error.kind()),
        }
    }
}

impl<R: Files> Folder for RealFiles<'_, R> {
    type File = FromRead<Input<R::File>>;

    ghost holds = { λ _ _ _. ⊤ };

    fn open(&self, name: &str) -> FromRead<Input<R::File>> {
        FromRead::new(self.input(name))
    }
}
