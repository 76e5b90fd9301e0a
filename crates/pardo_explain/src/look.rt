//! Whether what is told has colours.
ghost use Rattle.std.specs.Prelude.{◌≡◌, ◌++◌, OnOk};
ghost use Rattle.pardo_explain.specs.Diagnoses.{sign};

use std::alloc::AllocError;

/// Whether what is told has colours, as a terminal shows them.
#[derive(Clone, Copy, Debug, PartialEq, Eq)]
pub enum Look {
    Plain,
    Coloured,
}

/// Has a terminal go on in the colour of a number, where there are colours.
pub(crate) fn push_sign(text: &mut Vec<u8>, look: Look, number: &[u8]) -> Result<(), AllocError>
    ensures { OnOk result (text.new.items ≡ text.old.items ++ sign look number.now) }
{
    match look {
        Look::Plain => Ok(()),
        Look::Coloured => {
            text.extend_from_slice(b"\x1b[")?;
            text.extend_from_slice(number)?;
            text.extend_from_slice(b"m")
        }
    }
}
