//! The lines of a text, one after another.
ghost use Rattle.std.specs.Prelude.{◌≡◌, ◌∷◌, ◌+◌, ◌<◌, ◌^◌, length, IfSome};
ghost use Rattle.text_lines.specs.Lines.{lines_of};
ghost use Rattle.text_lines.specs.LinesAfter.{lines_after};

use memchr::memchr;

/// The lines of a text that are left, and how many were taken.
#[derive(Clone, Copy, Debug)]
pub struct TextLines<'t> {
    rest: Option<&'t [u8]>,
    taken: u64,
    ghost countable: { taken + length (lines_after rest) < 2 ^ 64 },
}

impl<'t> TextLines<'t> {
    ghost use Rattle.text_lines.specs.TextLines.{left_of, taken_of, TakesLine};

    /// The lines of this text, none of them taken.
    pub fn new(text: &'t [u8]) -> Self
        ensures left { left_of result ≡ lines_of text.now }
        ensures taken { taken_of result ≡ 0 }
    {
        TextLines {
            rest: Some(text),
            taken: 0,
        }
    }

    /// The number of the line that was taken last, or 0 if none was. Lines count from 1.
    pub fn number(&self) -> u64
        ensures { result ≡ taken_of self.now }
    {
        self.taken
    }

    /// Takes the next line, if one is left.
    pub fn take_line(&mut self) -> Option<&'t [u8]>
        ensures { TakesLine self.old result self.new }
    {
        let (line, rest) = first_line(self.rest?);
        *self = TextLines {
            rest,
            taken: self.number() + 1,
        };
        Some(line)
    }
}

// The first line, and what is after its line feed, if it has one.
fn first_line(text: &[u8]) -> (&[u8], Option<&[u8]>)
    ensures lines { lines_of text.now ≡ result.0.now ∷ lines_after result.1 }
    ensures shorter { IfSome result.1 (λ rest. length rest.now < length text.now) }
{
    match memchr(b'\n', text) {
        None => (text, None),
        Some(end) => {
            let (line, rest) = text.split_at(end);
            (line, Some(&rest[1..]))
        }
    }
}
