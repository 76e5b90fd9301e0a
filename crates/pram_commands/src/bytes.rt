//! Bytes in memory as a source.
ghost use Rattle.std.specs.Prelude.{◌≡◌, Some, false};

use pram_streams::{Failed, Source};
use std::io::Read;

/// Bytes in memory, as a source that never fails.
#[derive(Clone, Copy, Debug, PartialEq, Eq)]
pub struct Bytes<'a> {
    rest: &'a [u8],
}

impl<'a> Bytes<'a> {
    pub fn new(bytes: &'a [u8]) -> Self
        ensures { ⟦<Bytes<'a> as Source>⟧.remaining result ≡ Some bytes.now }
    {
        Bytes { rest: bytes }
    }
}

impl Source for Bytes<'_> {
    ghost has_failed = { λ _. false };

    ghost remaining = { λ s. Some s.rest.now };

    fn pull(&mut self, into: &mut [u8]) -> Result<usize, Failed> {
        match self.rest.read(into) {
            Ok(count) => Ok(count),
            Err(_) => unreachable!(),
        }
    }
}
