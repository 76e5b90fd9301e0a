//! A sink over a writer of std.
ghost use Rattle.std.specs.Prelude.{◌≡◌, ◌≤◌, ◌<◌, false, length, IfOk};
ghost use Rattle.std.specs.Io.KnownBytes.{WriteAppends};

use crate::device::{Failed, Sink};
use std::io::{ErrorKind, Write};

/// A sink over a writer. A write that a signal interrupted is made again, and one that takes no
/// byte has failed.
#[derive(Drop)]
pub struct IntoWrite<W: Write> {
    writer: W,
    has_failed: bool,
}

impl<W: Write> IntoWrite<W> {
    pub fn new(writer: W) -> Self
        ensures unfailed { ⟦<IntoWrite<W> as Sink>⟧.has_failed result ≡ false }
        ensures bytes { ⟦<IntoWrite<W> as Sink>⟧.taken result ≡ W.contents writer }
    {
        IntoWrite {
            writer,
            has_failed: false,
        }
    }

    /// The writer underneath.
    pub fn into_inner(self) -> W
        ensures { ⟦<IntoWrite<W> as Sink>⟧.taken self ≡ W.contents result }
    {
        let IntoWrite { writer, .. } = self;
        writer
    }
}

impl<W: Write> Sink for IntoWrite<W> {
    ghost has_failed = { λ s. s.has_failed };

    ghost taken = { λ s. W.contents s.writer };

    fn push(&mut self, bytes: &[u8]) -> Result<usize, Failed> {
        let answer = write_once(&mut self.writer, bytes);
        self.has_failed |= answer.is_err();
        answer
    }
}

/// One write, made again where a signal interrupts it. Where there is nothing to write, none is
/// made.
fn write_once<W: Write>(writer: &mut W, bytes: &[u8]) -> Result<usize, Failed>
    ensures bound { IfOk result (λ count. count ≤ length bytes.now) }
    ensures some { IfOk result (λ count. 0 < length bytes.now → 0 < count) }
    ensures bytes { WriteAppends (W.contents writer.old) (W.contents writer.new) result bytes.now }
{
    if bytes.is_empty() {
        return Ok(0);
    }
    'tries: for _ in 0..u64::MAX {
        match writer.write(bytes) {
            Ok(0) => return Err(Failed),
            Ok(count) => return Ok(count),
            Err(error) => {
                if error.kind() != ErrorKind::Interrupted {
                    return Err(Failed);
                }
            }
        }
    }
    Err(Failed)
}
