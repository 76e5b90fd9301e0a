//! What is found, and how it is told in numbers.
ghost use Rattle.std.specs.Prelude.{◌≡◌};
ghost use Rattle.page_core.specs.Findings.{counted, told_of};

use crate::codes::{
    BAD_EVENT, BAD_WORKERS, CONFLICT, NO_ROOM, NO_STEP, Status, TOLD, TOO_FAR, UNFINISHED, coded,
};
use crate::text::{Refusal, tell_refusal};
use pram_step::Fault;

/// What is told of a job: `count` is how many elements of the buffer were written, how many it
/// needs (no room), or the number of the event (an unknown one).
#[repr(C)]
#[derive(Clone, Copy)]
pub struct Told {
    pub status: Status,
    pub step: u32,
    pub cell: u32,
    pub first: u32,
    pub second: u32,
    pub count: u64,
}

/// What was found.
#[derive(Clone, Copy)]
pub enum Finding {
    /// It is told, at this step, in so many elements of the buffer.
    Done { step: u32, count: u64 },
    /// A step is against the rule. So many elements of the buffer are told.
    Conflict { fault: Fault, count: u64 },
    /// Only this many steps are finished; the job has more.
    Unfinished { step: u32 },
    /// The buffer needs so many elements.
    NoRoom { needed: u64 },
    /// The job has no such step.
    NoStep,
    /// More steps would have to be made than the caller allows.
    TooFar,
    /// There is no board for so many workers.
    BadWorkers,
    /// The event of this number is unknown.
    BadEvent { number: u64 },
    /// The text gives no job, or the call is out of memory.
    Refused(Refusal),
}

const NOTHING: Told = Told {
    status: TOLD,
    step: 0,
    cell: 0,
    first: 0,
    second: 0,
    count: 0,
};

/// A finding in numbers.
pub fn tell(finding: Finding) -> Told
    ensures { result ≡ told_of finding }
{
    match finding {
        Finding::Done { step, count } => Told {
            step,
            count,
            ..NOTHING
        },
        Finding::Conflict { fault, count } => Told {
            status: coded(CONFLICT),
            step: fault.step,
            cell: fault.cell,
            first: fault.first,
            second: fault.second,
            count,
            ..NOTHING
        },
        Finding::Unfinished { step } => Told {
            status: coded(UNFINISHED),
            step,
            ..NOTHING
        },
        Finding::NoRoom { needed } => counted(NO_ROOM, needed),
        Finding::NoStep => counted(NO_STEP, 0),
        Finding::TooFar => counted(TOO_FAR, 0),
        Finding::BadWorkers => counted(BAD_WORKERS, 0),
        Finding::BadEvent { number } => counted(BAD_EVENT, number),
        Finding::Refused(refusal) => Told {
            status: tell_refusal(refusal),
            ..NOTHING
        },
    }
}

fn counted(code: u32, count: u64) -> Told
    ensures { result ≡ counted code count }
{
    Told {
        status: coded(code),
        count,
        ..NOTHING
    }
}
