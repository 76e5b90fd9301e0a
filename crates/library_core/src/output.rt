//! An output in memory.
ghost use Rattle.std.specs.Prelude.{◌≡◌, [], Some, false};

use pram_streams::{Failed, Sink};
use std::alloc::Global;

/// Bytes that are kept as long as there is memory for more. It fails where there is none, and only
/// there.
#[derive(Drop)]
pub(crate) struct Output {
    bytes: Vec<u8>,
    has_failed: bool,
}

impl Output {
    pub(crate) fn new(alloc: Global) -> Self
        ensures unfailed { ⟦<Output as Sink>⟧.has_failed result ≡ false }
        ensures bytes { ⟦<Output as Sink>⟧.taken result ≡ Some [] }
    {
        Output {
            bytes: Vec::new(alloc),
            has_failed: false,
        }
    }

    /// The bytes.
    pub(crate) fn into_bytes(self) -> Vec<u8>
        ensures { ⟦<Output as Sink>⟧.taken self ≡ Some result.items }
    {
        let Output { bytes, .. } = self;
        bytes
    }
}

impl Sink for Output {
    ghost has_failed = { λ o. o.has_failed };

    ghost taken = { λ o. Some o.bytes.items };

    fn push(&mut self, bytes: &[u8]) -> Result<usize, Failed> {
        match self.bytes.extend_from_slice(bytes) {
            Ok(()) => Ok(bytes.len()),
            Err(_) => {
                self.has_failed = true;
                Err(Failed)
            }
        }
    }
}
