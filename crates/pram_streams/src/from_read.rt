//! A source over a reader of std.
ghost use Rattle.std.specs.Prelude.{◌≡◌, ◌≤◌, false, length, IfOk};
ghost use Rattle.std.specs.Io.KnownBytes.{ReadConsumes};

use crate::device::{Failed, Reason, Source};
use std::io::{ErrorKind, Read};

/// A source over a reader. A read that a signal interrupted is made again.
#[derive(Drop)]
pub struct FromRead<R: Read> {
    reader: R,
    has_failed: bool,
    reason: Reason,
}

impl<R: Read> FromRead<R> {
    pub fn new(reader: R) -> Self
        ensures unfailed { ⟦<FromRead<R> as Source>⟧.has_failed result ≡ false }
        ensures bytes { ⟦<FromRead<R> as Source>⟧.remaining result ≡ R.remaining reader }
    {
        FromRead {
            reason: Reason::Unknown,
            reader,
            has_failed: false,
        }
    }
}

impl<R: Read> Source for FromRead<R> {
    ghost has_failed = { λ s. s.has_failed };

    ghost remaining = { λ s. R.remaining s.reader };

    fn pull(&mut self, into: &mut [u8]) -> Result<usize, Failed> {
        match read_once(&mut self.reader, into) {
            Ok(count) => Ok(count),
            Err(reason) => {
                self.has_failed = true;
                self.reason = reason;
                Err(Failed)
            }
        }
    }

    fn reason(&self) -> Reason {
        self.reason
    }
}

/// One read, made again where a signal interrupts it.
fn read_once<R: Read>(reader: &mut R, into: &mut [u8]) -> Result<usize, Reason>
    ensures bound { IfOk result (λ count. count ≤ length into.new) }
    ensures bytes { ReadConsumes (R.remaining reader.old) (R.remaining reader.new) result into.new }
{
    'tries: for _ in 0..u64::MAX {
        match reader.read(into) {
            Ok(count) => return Ok(count),
            Err(error) => {
                if error.kind() != ErrorKind::Interrupted {
                    return Err(reason_of(error.kind()));
                }
            }
        }
    }
    Err(Reason::Unknown)
}

fn reason_of(kind: ErrorKind) -> Reason {
    match kind {
        ErrorKind::NotFound => Reason::Missing,
        ErrorKind::IsADirectory => Reason::Folder,
        ErrorKind::PermissionDenied => Reason::Denied,
        _ => Reason::Unknown,
    }
}
