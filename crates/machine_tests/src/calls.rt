//! What the calls say of a text.
use crate::{moments, plans, printed, programs, slips, texts, words};
use failing_devices::Trickle;
use std::alloc::Global;
use std::str;
use std::test::Fail;

/// What a call says of a text and of what is given with it. The call's first word says what the
/// text is, or that something is printed of it.
pub fn said(alloc: Global, call: &str, given: &str, text: &str) -> Result<String, Fail> {
    let (kind, call) = call.split_once(' ').unwrap_or((call, ""));
    match kind {
        "text" => texts::said(alloc, call, given, text),
        "job" => moments::said(alloc, call, given, text),
        "program" => programs::said(alloc, call, given, text),
        "slip" => slips::said(alloc, given, text),
        "note" => slips::noted(alloc, given, text),
        "plan" => plans::plan(alloc, given, text),
        "board" => words::words(alloc, given, text),
        _ => printed_whole(alloc, call, given, text),
    }
}

// What a call prints.
fn printed_whole(alloc: Global, call: &str, given: &str, text: &str) -> Result<String, Fail> {
    let mut sink = Trickle::new(alloc, usize::MAX);
    printed::print(alloc, call, given, text, &mut sink)?;
    Ok(String::from_str(alloc, str::from_utf8(sink.taken.as_slice())?)?)
}
