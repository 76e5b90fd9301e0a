//! The calls of commands.
ghost use Rattle.library_core.specs.Requests.{command_asked, wrong_in};
ghost use Rattle.library_core.specs.Serving.{ServesRequest};

use crate::answer::Answer;
use crate::request::{Call, Request, ask_of, wrong_in};
use crate::serving::serve;
use crate::telling::{refuse, refuse_request, show};
use std::alloc::Global;

/// A call of a command: a text, a plan, which only a replay reads, and a request.
#[derive(Clone, Copy)]
pub struct Asked<'a> {
    pub call: Call,
    pub text: &'a [u8],
    pub plan: &'a [u8],
    pub request: &'a Request,
}

/// Does what is asked, puts what that prints to the front of the output, as much as there is room
/// for, and gives the status. It takes memory for all that is printed, and the time of the command.
pub fn serve_call(alloc: Global, asked: &Asked<'_>, out: &mut [u8], answer: &mut Answer) -> u32
    ensures { ServesRequest (command_asked asked.now.call asked.now.request.now)
        (wrong_in asked.now.call asked.now.request.now) asked.now.text.now asked.now.plan.now
        out.old out.new answer.old answer.new result }
{
    if let Some(fault) = wrong_in(asked.call, asked.request) {
        return refuse_request(fault, answer);
    }
    let ask = ask_of(asked.call, asked.request);
    match serve(alloc, ask, asked.text, asked.plan) {
        Ok(served) => show(served.bytes.as_slice(), served.status, out, answer),
        Err(fault) => refuse(alloc, fault, asked.text, answer),
    }
}
