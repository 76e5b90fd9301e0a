//! Why names were not set.
ghost use Rattle.std.specs.Prelude.{◌≡◌, ◌⊎◌, false};
ghost use Rattle.refusals.specs.Refusals.{refusal_status};

use crate::explanation::{MEMORY_SENTENCE, shown};
use crate::refusal::{MEMORY, Refusal, tell_first};
use crate::sentences;
use pram_streams::{Reason, Sink, put};
use std::alloc::Global;
use std::fmt;

/// Why names were not set, and of a file that failed the reason.
#[derive(Clone, Copy, Debug)]
pub struct Unset<'a> {
    pub refusal: Refusal<'a>,
    pub reason: Reason,
}

impl fmt::Display for Unset<'_> {
    fn fmt<W: fmt::Write>(&self, f: &mut fmt::Formatter<W>) -> fmt::Result {
        match self.refusal {
            Refusal::Setting { name, kind } => {
                writeln!(f, "--set {name}: {}", sentences::of_setting(kind))
            }
            Refusal::File(name) => {
                writeln!(f, "{}: {}", shown(name), sentences::of_file(self.reason))
            }
            Refusal::Size(name) => writeln!(f, "{}: {}", shown(name), sentences::TOO_LARGE),
            _ => f.write_str(MEMORY_SENTENCE),
        }
    }
}

/// Tells why names were not set, and where it `explains` a sentence after that, and gives the
/// status. Where there is no memory to tell it, it tells that. Where the sink fails, the status
/// stays.
pub fn tell_unset<E: Sink>(alloc: Global, unset: &Unset<'_>, explains: bool, err: &mut E) -> u8
    requires { E.has_failed err.old ≡ false }
    ensures { (result ≡ MEMORY) ⊎ (result ≡ refusal_status unset.now.refusal) }
{
    let (status, takes) = tell_first(alloc, unset.refusal, err);
    if takes && explains {
        explain_unset(alloc, unset, status, err);
    }
    status
}

// Tells the sentence of what was told with this status, if there is memory for it.
fn explain_unset<E: Sink>(alloc: Global, unset: &Unset<'_>, status: u8, err: &mut E)
    requires { E.has_failed err.old ≡ false }
{
    if status == MEMORY {
        let _ = put(err, MEMORY_SENTENCE.as_bytes());
    } else if let Ok(text) = format!(in alloc; "{unset}") {
        let _ = put(err, text.as_bytes());
    }
}
