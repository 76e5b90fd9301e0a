//! Where bytes come from and where they go, and that a device failed.
ghost use Rattle.std.specs.Prelude.{◌≡◌, ◌≤◌, ◌<◌, ◌||◌, ℕ, Bool, false, List};
ghost use Rattle.std.specs.Prelude.{[], Option, Some, None, is_err, length, IfOk};
ghost use Rattle.std.specs.Io.KnownBytes.{ReadConsumes, WriteAppends};

/// A pull or a push failed.
#[derive(Clone, Copy, Debug, PartialEq, Eq)]
pub struct Failed;

/// Why a source fails, as far as it knows.
#[derive(Clone, Copy, Debug, PartialEq, Eq)]
pub enum Reason {
    /// There is no file of its name.
    Missing,
    /// It is a folder.
    Folder,
    /// This program has no permission to read it.
    Denied,
    /// Another reason, or none that is known.
    Unknown,
}

/// Bytes that come in pieces.
pub trait Source {
    // Whether a pull has failed so far.
    ghost has_failed: { Self → Bool };

    // The bytes still to come, where they are known.
    ghost remaining: { Self → Option (List ℕ) } = { λ _. None };

    /// Fills the front of `into` with the next bytes, and says how many. What stands after them is
    /// left open. At a slice that is not empty, 0 comes only at the end.
    fn pull(&mut self, into: &mut [u8]) -> Result<usize, Failed>
        ensures bound { IfOk result (λ count. count ≤ length into.new) }
        ensures bytes { ReadConsumes (remaining self.old) (remaining self.new) result into.new }
        ensures failed { has_failed self.new ≡ (is_err result || has_failed self.old) };

    /// Why a pull failed, if one has.
    fn reason(&self) -> Reason {
        Reason::Unknown
    }
}

/// Takes bytes in pieces.
pub trait Sink {
    // Whether a push has failed so far.
    ghost has_failed: { Self → Bool };

    // The bytes taken so far, where they are known.
    ghost taken: { Self → Option (List ℕ) } = { λ _. None };

    /// Takes the front of `bytes`, and says how many.
    fn push(&mut self, bytes: &[u8]) -> Result<usize, Failed>
        ensures bound { IfOk result (λ count. count ≤ length bytes.now) }
        ensures some { IfOk result (λ count. 0 < length bytes.now → 0 < count) }
        ensures bytes { WriteAppends (taken self.old) (taken self.new) result bytes.now }
        ensures failed { has_failed self.new ≡ (is_err result || has_failed self.old) };
}

/// A source without bytes, that never fails.
#[derive(Clone, Copy, Debug, PartialEq, Eq)]
pub struct Empty;

impl Source for Empty {
    ghost has_failed = { λ _. false };

    ghost remaining = { λ _. Some [] };

    fn pull(&mut self, _into: &mut [u8]) -> Result<usize, Failed> {
        Ok(0)
    }
}
