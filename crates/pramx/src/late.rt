//! What a terminal is told where an answer takes long.
ghost use Rattle.std.specs.Prelude.{◌≡◌};

use pram_streams::{Failed, Sink};
use std::sync::Wait;
use std::sync::atomic::{AtomicBool, Ordering};
use std::thread::Parker;
use std::time::Duration;

/// What is told once an answer has taken a second, and no byte of it stands on the output.
const SENTENCE: &str =
    "making steps: a program that is still here after 1,048,576, or 2^30 in all, is refused";

/// How many sleeps a second takes, and how many milliseconds each.
const NAPS: u64 = 10;

const NAP: u64 = 100;

/// Tells once that steps are made, unless an answer begins before.
#[derive(Drop)]
pub(crate) struct Late {
    begun: AtomicBool,
    parker: Parker,
}

impl Late {
    pub(crate) fn new() -> Late {
        Late {
            begun: AtomicBool::new(false),
            parker: Parker::new(),
        }
    }

    /// An answer begins, or ends: there is nothing more to tell.
    pub(crate) fn stop(&self) {
        self.begun.store(true, Ordering::SeqCst);
        self.parker.unpark();
    }

    /// Waits for a second, and tells the sentence, unless an answer has begun.
    pub(crate) fn tell<R: Wait + Eprint>(&self, rt: &R) {
        for _ in 0..NAPS {
            if self.begun.load(Ordering::SeqCst) {
                return;
            }
            self.parker.park_timeout(rt, Duration::from_millis(NAP));
        }
        if !self.begun.load(Ordering::SeqCst) {
            let _ = rt.eprintln(SENTENCE);
        }
    }
}

/// An output whose first bytes are the beginning of an answer.
#[derive(Drop)]
pub(crate) struct Begins<'a, O> {
    pub sink: O,
    pub late: &'a Late,
}

impl<O: Sink> Sink for Begins<'_, O> {
    ghost has_failed = { λ begins. O.has_failed begins.sink };

    ghost taken = { λ begins. O.taken begins.sink };

    fn push(&mut self, bytes: &[u8]) -> Result<usize, Failed> {
        self.late.stop();
        self.sink.push(bytes)
    }
}
