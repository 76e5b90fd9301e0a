//! Costs that are told by the lines of a program.
ghost use Rattle.std.specs.Prelude.{◌≡◌, ◌++◌, IfOk, OnOk};
ghost use Rattle.naming.specs.Costs.{rounds_text, sums_text};
ghost use Rattle.pardo_answers.specs.Costs.{AreSmall};

use crate::names::Naming;
use crate::texts::Spelled;
use pardo_answers::{LineCost, total_operations, total_time};
use pram_streams::push_labelled;
use std::alloc::{AllocError, Global};

/// A text with its job, and what its counted lines cost: costs are told by them.
#[derive(Drop)]
pub struct Costed<'a> {
    pub spelled: &'a Spelled,
    pub lines: &'a [LineCost],
    pub ghost small: { AreSmall lines.now },
}

/// Adds the time and the operations of a program.
pub(crate) fn push_sums(text: &mut Vec<u8>, lines: &[LineCost]) -> Result<(), AllocError>
    requires { AreSmall lines.now }
    ensures { OnOk result (text.new.items ≡ text.old.items ++ sums_text lines.now) }
{
    push_labelled(text, b"time ", total_time(lines))?;
    push_labelled(text, b"\noperations ", total_operations(lines))?;
    text.push(b'\n')?;
    Ok(())
}

/// The line that tells the rounds of a program after its costs; nothing of a text of the machine.
pub fn rounds_line(
    alloc: Global,
    names: &Option<Naming>,
    rounds: u64,
) -> Result<Vec<u8>, AllocError>
    ensures { IfOk result (λ line. line.items ≡ rounds_text names.now rounds) }
{
    let mut line = Vec::new(alloc);
    if names.is_some() {
        push_labelled(&mut line, b"rounds ", rounds)?;
        line.push(b'\n')?;
    }
    Ok(line)
}
