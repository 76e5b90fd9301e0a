//! How the cells of meetings, and the conflict of a run, are told.
ghost use Rattle.std.specs.Prelude.{◌≡◌, ◌++◌, OnOk};
ghost use Rattle.pram_cost.specs.Printed.{CostWords, by_cells};

use crate::meeting::Meeting;
use pram_step::Fault;
use pram_streams::push_labelled;
use std::alloc::{AllocError, Global};

/// What tells where two processors meet, and the conflict in which a run ends.
pub trait CostNames {
    ghost words: { Self → CostWords };

    /// Adds what is told before all else.
    fn push_head(&self, text: &mut Vec<u8>) -> Result<(), AllocError>
        ensures { OnOk result (text.new.items ≡ text.old.items ++ (words self.now).head) };

    /// Adds what tells the cell of a meeting.
    fn push_spot(
        &self,
        alloc: Global,
        text: &mut Vec<u8>,
        meeting: Meeting,
    ) -> Result<(), AllocError>
        ensures { OnOk result (text.new.items
            ≡ text.old.items ++ (words self.now).spot meeting) };

    /// Adds the line of a conflict.
    fn push_conflict(&self, text: &mut Vec<u8>, fault: Fault) -> Result<(), AllocError>
        ensures { OnOk result (text.new.items
            ≡ text.old.items ++ (words self.now).conflict fault) };
}

/// They are told by cells and steps.
#[derive(Clone, Copy, Debug, PartialEq, Eq)]
pub struct ByCells;

impl CostNames for ByCells {
    ghost words = { λ _. by_cells };

    fn push_head(&self, _text: &mut Vec<u8>) -> Result<(), AllocError> {
        Ok(())
    }

    fn push_spot(
        &self,
        _alloc: Global,
        text: &mut Vec<u8>,
        meeting: Meeting,
    ) -> Result<(), AllocError> {
        push_labelled(text, b" cell=", u64::from(meeting.cell))
    }

    fn push_conflict(&self, text: &mut Vec<u8>, fault: Fault) -> Result<(), AllocError> {
        push_labelled(text, b"conflict step=", u64::from(fault.step))?;
        push_labelled(text, b" cell=", u64::from(fault.cell))?;
        push_labelled(text, b" processors=", u64::from(fault.first))?;
        push_labelled(text, b",", u64::from(fault.second))?;
        text.push(b'\n')?;
        Ok(())
    }
}
