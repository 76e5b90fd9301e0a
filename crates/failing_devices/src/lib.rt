//! Devices that fail, for tests.
#![tactic(auto)]

ghost use Rattle.std.specs.Prelude.{◌≡◌, Some, false};

use pram_streams::{Failed, Sink, Source};
use std::alloc::Global;

/// Gives one byte a pull, until the pulls are used up: the next one fails.
#[derive(Drop)]
pub struct Drip<'a> {
    rest: &'a [u8],
    pulls: usize,
    has_failed: bool,
}

impl<'a> Drip<'a> {
    pub fn new(rest: &'a [u8], pulls: usize) -> Self
        ensures { ⟦<Drip<'a> as Source>⟧.has_failed result ≡ false }
    {
        Drip {
            rest,
            pulls,
            has_failed: false,
        }
    }
}

impl Source for Drip<'_> {
    ghost has_failed = { λ s. s.has_failed };

    ghost remaining = { λ s. Some s.rest.now };

    fn pull(&mut self, into: &mut [u8]) -> Result<usize, Failed> {
        if self.pulls == 0 {
            self.has_failed = true;
            return Err(Failed);
        }
        self.pulls -= 1;
        if into.is_empty() {
            return Ok(0);
        }
        let Some((first, rest)) = self.rest.split_first() else {
            return Ok(0);
        };
        into[0] = *first;
        self.rest = rest;
        Ok(1)
    }
}

/// Takes one byte a push, until the pushes are used up: the next one fails.
#[derive(Drop)]
pub struct Trickle {
    pub taken: Vec<u8>,
    pushes: usize,
    has_failed: bool,
}

impl Trickle {
    pub fn new(alloc: Global, pushes: usize) -> Self
        ensures { ⟦<Trickle as Sink>⟧.has_failed result ≡ false }
    {
        Trickle {
            taken: Vec::new(alloc),
            pushes,
            has_failed: false,
        }
    }
}

impl Sink for Trickle {
    ghost has_failed = { λ s. s.has_failed };

    ghost taken = { λ s. Some s.taken.items };

    fn push(&mut self, bytes: &[u8]) -> Result<usize, Failed> {
        let Some(first) = bytes.first() else {
            return Ok(0);
        };
        if self.pushes == 0 || self.taken.push(*first).is_err() {
            self.has_failed = true;
            return Err(Failed);
        }
        self.pushes -= 1;
        Ok(1)
    }
}
