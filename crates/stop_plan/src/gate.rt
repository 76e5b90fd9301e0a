//! Where a worker may be held before an atomic step.
ghost use Rattle.std.specs.Prelude.{◌≡◌};

use std::thread;
use std::time::{Clock, Duration};

/// What a worker passes before each atomic step. A test holds a worker at a chosen tick by it.
pub trait Gate {
    /// Returns once the worker may go on. The tick is how many atomic steps it made so far, as the
    /// caller counts them.
    fn pass(&self, worker: u32, tick: u64);

    /// Whether it holds nobody, ever, so that a sleep may leave out its passes.
    fn is_open(&self) -> bool {
        false
    }
}

/// The gate that holds nobody.
#[derive(Clone, Copy, Debug)]
pub struct Open;

impl Gate for Open {
    fn pass(&self, _worker: u32, _tick: u64) {}

    fn is_open(&self) -> bool {
        true
    }
}

/// The gate that takes a pause for each pass. A worker that passes it makes at most one atomic step
/// in a pause, and a sleep of so many ticks lasts at least so many pauses, if the job is not over
/// before.
#[derive(Clone, Copy)]
pub struct Paced<'a, R: Clock> {
    clock: &'a R,
    pause: Duration,
}

impl<'a, R: Clock> Paced<'a, R> {
    /// The gate whose passes each put their thread to sleep for this pause. A pass takes at least
    /// the pause, and what the system adds to it: on Linux mostly 50 to 100 microseconds.
    pub fn new(clock: &'a R, pause: Duration) -> Self
        ensures { result.pause ≡ pause }
    {
        Paced { clock, pause }
    }

    /// The pause of a pass.
    pub fn pause(&self) -> Duration
        ensures { result ≡ self.now.pause }
    {
        self.pause
    }
}

impl<'a, R: Clock> Gate for Paced<'a, R> {
    fn pass(&self, _worker: u32, _tick: u64) {
        thread::sleep(self.clock, self.pause)
    }
}
