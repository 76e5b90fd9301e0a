//! A processor's turn: what it asks for, its data told apart by where they go.
ghost use Rattle.std.specs.Prelude.{◌≡◌};
ghost use Rattle.pram_machine.specs.Turns.{put_of, request_of, IsSorted};

use crate::requests::Request;
use pram_job::Job;

/// A place and its new value, if there is one.
#[derive(Clone, Copy)]
pub enum Put {
    Nothing,
    /// A register of the processor.
    Register(u32, u32),
    /// A cell.
    Cell(u32, u32),
}

impl Put {
    /// The data of a request.
    pub fn of(job: &Job, put: Option<(u32, u32)>) -> Put
        ensures value { put_of result ≡ put }
        ensures sorted { IsSorted job.now result }
    {
        match put {
            None => Put::Nothing,
            Some((place, value)) if place < job.cells() => Put::Cell(place, value),
            Some((place, value)) => Put::Register(place, value),
        }
    }
}

/// What a processor asks for. Whether its data go to a cell is known without a comparison.
#[derive(Clone, Copy)]
pub struct Turn {
    pub put: Put,
    /// The processor's counter after the step.
    pub next: u32,
}

impl Turn {
    /// What the turn asks for, as a request.
    #[inline(always)]
    pub fn request(self) -> Request
        ensures { result ≡ request_of self }
    {
        let put = match self.put {
            Put::Nothing => None,
            Put::Register(place, value) | Put::Cell(place, value) => Some((place, value)),
        };
        Request {
            put,
            next: self.next,
        }
    }
}
