//! What a call is asked beside its text.
ghost use Rattle.std.specs.Prelude.{◌≡◌, None};
ghost use Rattle.library_core.specs.Requests.{IsAskOf, are_zero, from_of, is_bad_count, to_of};
ghost use Rattle.library_core.specs.Requests.{wrong_field, wrong_flag, wrong_in, wrong_replay};
ghost use Rattle.library_core.specs.Requests.{wrong_steps};

use command_data::{AskAlone, Style, Workers};

/// What a call is asked beside its text, as C sees it. The size is `REQUEST_SIZE`, and what is
/// reserved is 0. What a call does not use is not looked at. A flag is 0 or 1: with `why` what
/// became of the processors follows the answer, with `rows_alone` no answer follows the rows, with
/// `lines` each counted line's cost is told in place of that of the run. The steps from `from` to
/// `to` are shown, where 0 stands for the first and for the last one.
#[repr(C)]
#[derive(Clone, Copy)]
pub struct Request {
    pub size: u32,
    pub why: u32,
    pub rows_alone: u32,
    pub from: u32,
    pub to: u32,
    pub workers: u32,
    pub lines: u32,
    pub reserved: [u32; 15],
}

/// The bytes of a request.
pub const REQUEST_SIZE: u32 = size_of::<Request>() as u32;

/// How many workers there are at most.
pub const WORKERS_MOST: u32 = 64;

/// What is wrong with a request.
#[derive(Clone, Copy)]
pub enum RequestFault {
    /// Its size is another.
    Size,
    /// A field that is reserved is not 0.
    Reserved,
    /// A flag is neither 0 nor 1.
    Flag,
    /// The last step that is to be shown comes before the first one.
    Window,
    /// There are not from 1 to 64 workers.
    Workers,
    /// A leaf has no power of two up to 64 of processors.
    Grain,
}

/// The command that a call asks for.
#[derive(Clone, Copy)]
pub enum Call {
    Check,
    Compile,
    Plain,
    Cost,
    Steps,
    Replay,
}

/// What is wrong with the request of a call, if anything is.
pub(crate) fn wrong_in(call: Call, request: &Request) -> Option<RequestFault>
    ensures { result ≡ wrong_in call request.now }
{
    if request.size != REQUEST_SIZE {
        return Some(RequestFault::Size);
    }
    if !are_zero(&request.reserved) {
        return Some(RequestFault::Reserved);
    }
    wrong_field(call, request)
}

fn are_zero(numbers: &[u32]) -> bool
    ensures { result ≡ are_zero numbers.now }
{
    numbers.iter().all(|&number| number == 0)
}

fn wrong_field(call: Call, request: &Request) -> Option<RequestFault>
    ensures { result ≡ wrong_field call request.now }
{
    match call {
        Call::Check | Call::Compile => None,
        Call::Plain => wrong_flag(request.why),
        Call::Cost => wrong_flag(request.lines),
        Call::Steps => wrong_steps(request),
        Call::Replay => wrong_replay(request),
    }
}

fn wrong_flag(flag: u32) -> Option<RequestFault>
    ensures { result ≡ wrong_flag flag }
{
    (flag > 1).then_some(RequestFault::Flag)
}

fn wrong_steps(request: &Request) -> Option<RequestFault>
    ensures { result ≡ wrong_steps request.now }
{
    if first_step(request) > last_step(request) {
        return Some(RequestFault::Window);
    }
    wrong_flag(request.rows_alone)
}

fn wrong_replay(request: &Request) -> Option<RequestFault>
    ensures { result ≡ wrong_replay request.now }
{
    if is_bad_count(request.workers) {
        return Some(RequestFault::Workers);
    }
    wrong_flag(request.rows_alone)
}

/// Whether there are no such workers.
pub fn is_bad_count(workers: u32) -> bool
    ensures { result ≡ is_bad_count workers }
{
    workers < 1 || workers > WORKERS_MOST
}

fn first_step(request: &Request) -> u32
    ensures { result ≡ from_of request.now }
{
    if request.from == 0 { 1 } else { request.from }
}

fn last_step(request: &Request) -> u32
    ensures { result ≡ to_of request.now }
{
    if request.to == 0 {
        u32::MAX
    } else {
        request.to
    }
}

/// What a call asks, as a line of the program's would.
pub(crate) fn ask_of(call: Call, request: &Request) -> AskAlone
    requires { wrong_in call request.now ≡ None }
    ensures { IsAskOf call request.now result }
{
    let alone = request.rows_alone == 1;
    match call {
        Call::Check => AskAlone::Check { model: None },
        Call::Compile => AskAlone::Compile,
        Call::Plain => AskAlone::Plain {
            style: Style {
                csv: false,
                why: request.why == 1,
            },
            model: None,
        },
        Call::Cost => AskAlone::Cost {
            lines: request.lines == 1,
            model: None,
        },
        Call::Steps => AskAlone::Steps {
            from: first_step(request),
            to: last_step(request),
            alone,
        },
        Call::Replay => AskAlone::Replay {
            workers: Workers {
                count: request.workers,
            },
            alone,
        },
    }
}
