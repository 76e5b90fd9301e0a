//! Cells as a word of the command line names them.
ghost use Rattle.std.specs.Prelude.{◌≡◌, ◌↔◌, ◌∷◌, None, IfSome, IsTrue, MatchOption, drop, false};
ghost use Rattle.command_data.specs.CellLists.{SpellsCell, SpellsCells, SpellsPart, begins_place};
ghost use Rattle.command_data.specs.CellLists.{cell_listed, open_after, part_at, part_len};
ghost use Rattle.command_data.specs.CellLists.{parts_left, parts_of};

/// Cells by their numbers, or as places of a program, which a text parts by commas. The numbers are
/// below 2^32; a cell may stand there several times.
#[derive(Clone, Copy, Debug, PartialEq, Eq)]
pub struct CellList<'a> {
    text: &'a str,
}

impl<'a> CellList<'a> {
    /// The cells that a text names, if it is such a list.
    pub fn read(text: &'a str) -> Option<CellList<'a>>
        ensures some { IfSome result (λ list. list.text.now ≡ text.entry.now) }
        ensures spells { IfSome result (λ list. SpellsCells text.entry.now) }
        ensures none { result ≡ None → ¬ SpellsCells text.entry.now }
    {
        let mut left = Some(text);
        while let Some(rest) = left {
            let (part, next) = first_part(rest);
            if !spells_part(part) {
                return None;
            }
            left = next;
        }
        Some(CellList { text })
    }

    /// The text.
    pub fn text(&self) -> &'a str
        ensures { result.now ≡ self.now.text.now }
    {
        self.text
    }

    /// The part of this number, counted from 0, or nothing.
    pub fn part(&self, at: usize) -> &'a str
        ensures { result.now ≡ part_at (parts_of self.now.text.now) at }
    {
        let mut left = Some(self.text);
        for _part in 0..at {
            left = after_part(left);
        }
        match left {
            Some(rest) => first_part(rest).0,
            None => "",
        }
    }
}

/// The first part of a list, and what is after its comma, if it has one.
pub fn first_part(text: &str) -> (&str, Option<&str>)
    ensures { parts_of text.now ≡ result.0.now ∷ parts_left result.1 }
{
    let end = part_len(text.as_bytes());
    if end >= text.len() {
        return (text, None);
    }
    (&text[..end], Some(&text[end + 1..]))
}

// What is after the first part, if there is one.
fn after_part(left: Option<&str>) -> Option<&str>
    ensures { parts_left result ≡ drop 1 (parts_left left.entry) }
{
    match left {
        Some(rest) => first_part(rest).1,
        None => None,
    }
}

// How many bytes stand before the first comma that parts. One in brackets parts nothing.
fn part_len(text: &[u8]) -> usize
    ensures { result ≡ part_len false text.now }
{
    let mut is_open = false;
    for at in 0..text.len() {
        if text[at] == b',' && !is_open {
            return at;
        }
        is_open = open_after(is_open, text[at]);
    }
    text.len()
}

fn open_after(is_open: bool, byte: u8) -> bool
    ensures { result ≡ open_after is_open byte }
{
    match byte {
        b'[' => true,
        b']' => false,
        _ => is_open,
    }
}

// Whether a part between commas may name a cell.
fn spells_part(part: &str) -> bool
    ensures { IsTrue result ↔ SpellsPart part.now }
{
    match cell_of(part) {
        Some(_) => true,
        None => begins_place(part),
    }
}

fn begins_place(part: &str) -> bool
    ensures { result ≡ begins_place part.now }
{
    match part.as_bytes() {
        [] => false,
        [first, ..] => first.is_ascii_alphabetic() || *first == b'_',
    }
}

/// The cell of a number.
pub fn cell_of(part: &str) -> Option<u32>
    ensures { MatchOption result (¬ SpellsCell part.now)
        (λ cell. SpellsCell part.now × (cell ≡ cell_listed part.now)) }
{
    part.parse().ok()
}
