//! What is told of a text that was taken.
ghost use Rattle.std.specs.Prelude.{◌≡◌, false};

use crate::explanation::shown;
use command_data::Line;
use pardo_explain::{Look, notes, push_diagnosis};
use pram_streams::{Sink, put};
use std::alloc::{AllocError, Global};

/// Tells how a line's text was read where people could read it otherwise. Where there is no memory
/// for it, or the sink fails, that is all.
pub fn tell_notes<E: Sink>(alloc: Global, line: &Line<'_>, text: &[u8], look: Look, err: &mut E)
    requires { E.has_failed err.old ≡ false }
{
    if let Ok(told) = notes_told(alloc, shown(line.file), text, look) {
        let _ = put(err, told.as_slice());
    }
}

fn notes_told(alloc: Global, file: &str, text: &[u8], look: Look) -> Result<Vec<u8>, AllocError> {
    let mut told = Vec::new(alloc);
    for note in &notes(alloc, text)? {
        push_diagnosis(&mut told, look, file.as_bytes(), note)?;
    }
    Ok(told)
}
