//! Texts as they are set.
ghost use Rattle.std.specs.Prelude.{◌≡◌, ◌++◌, ◌==◌, ◌<◌, codes, length, IfOk, IfSome, OnOk};
ghost use Rattle.std.specs.List.{position};
ghost use Rattle.std.specs.Option.{option_map};
ghost use Rattle.pardo_text.specs.Settings.{after_index, blamed, blamed_by, declared_at};
ghost use Rattle.pardo_text.specs.Settings.{exchanged, has_index, is_of_length, settled_line};
ghost use Rattle.pardo_text.specs.Settings.{line_numbered, may_set};
ghost use Rattle.pardo_text.specs.Settings.{misfit, parted, put_by, set_in, settable_by};
ghost use Rattle.pardo_text.specs.Settings.{settable_in};
ghost use Rattle.pardo_text.specs.Settings.{text_as_set, unmet, settable_value};
ghost use Rattle.text_lines.specs.Lines.{lines_of, said_in};

use crate::fault::{PardoFault, PardoKind};
use crate::settings::{SetFault, SetKind, Settings};
use crate::symbol::Symbol;
use crate::token::{Token, after_blanks, first_token, said};
use itoa::Buffer;
use std::alloc::{AllocError, Global};
use text_lines::TextLines;

impl Settings {
    /// The text as it is set.
    ///
    /// The time is linear in the text and in the values, of which those of the text are read twice.
    /// Each line that declares a name is looked for among the settings, and each array that gets
    /// other places among the lines.
    #[tactic(auto, unfolding(crate::specs::Settings::text_as_set))]
    pub fn text_as_set(&self, alloc: Global, text: &[u8]) -> Result<Vec<u8>, AllocError>
        ensures { IfOk result (λ set. set.items ≡ text_as_set self.now text.now) }
    {
        let settled = self.settled(alloc, text)?;
        settled.exchanged(alloc, text)
    }

    // The text with names set to numbers.
    fn exchanged(&self, alloc: Global, text: &[u8]) -> Result<Vec<u8>, AllocError>
        ensures { IfOk result (λ set. set.items ≡ exchanged self.now text.now) }
    {
        let mut set = Vec::new(alloc);
        let mut lines = TextLines::new(text);
        let mut parting: &[u8] = b"";
        while let Some(line) = lines.take_line() {
            set.extend_from_slice(parting)?;
            self.push_line(false, line, &mut set)?;
            parting = b"\n";
        }
        Ok(set)
    }

    /// Adds a line as it is set; an array gets no value where it is bare.
    pub(crate) fn push_line(
        &self,
        bare: bool,
        line: &[u8],
        set: &mut Vec<u8>,
    ) -> Result<(), AllocError>
        ensures { OnOk result (set.new.items
            ≡ set.old.items ++ settled_line bare self.now line.now) }
    {
        match self.set_in(bare, said(line)) {
            None => set.extend_from_slice(line),
            Some((front, values)) => {
                set.extend_from_slice(front)?;
                push_values(values, set)
            }
        }
    }

    // The beginning of a line that stays, and the values that follow it, where it is set.
    fn set_in<'a>(&'a self, bare: bool, line: &'a [u8]) -> Option<(&'a [u8], &'a [u32])>
        ensures { option_map (λ found. (found.0.now, found.1.now)) result
            ≡ set_in bare self.now line.now }
    {
        let (keyword, name, rest) = declared(line)?;
        let rest = value_place(keyword, rest)?;
        let values = self.put_by(bare, keyword, name)?;
        let kept = line.len().saturating_sub(rest.len());
        Some((line.split_at(kept).0, values))
    }

    // What a line is set to.
    fn put_by(&self, bare: bool, keyword: Symbol, name: &[u8]) -> Option<&[u32]>
        ensures { option_map (λ values. values.now) result
            ≡ put_by bare self.now keyword name.now }
    {
        match (bare, keyword) {
            (true, Symbol::Shared) => Some(&[]),
            _ => self.get(name),
        }
    }

    /// The setting in which a fault of the text as it is set lies, if it lies in one.
    pub fn blamed(&self, text: &[u8], fault: PardoFault) -> Option<SetFault>
        ensures { result ≡ blamed self.now text.now fault }
    {
        let line = numbered(text, fault.line)?;
        let (keyword, name, _) = declared(said(line))?;
        self.blamed_by(fault.kind, keyword, name)
    }

    fn blamed_by(&self, kind: PardoKind, keyword: Symbol, name: &[u8]) -> Option<SetFault>
        ensures { result ≡ blamed_by self.now kind keyword name.now }
    {
        let at = self.find(name)?;
        let set = self.get(name)?;
        if !is_of_length(keyword, set.len(), kind) {
            return None;
        }
        Some(SetFault {
            at,
            kind: SetKind::WrongLength,
        })
    }

    /// The first setting whose name may not be set in the text, if there is one.
    pub fn unmet(&self, text: &[u8]) -> Option<SetFault>
        ensures { result ≡ unmet self.now text.now }
    {
        for (at, setting) in self.settings.iter().enumerate() {
            if let Some(kind) = misfit(settable(text, setting.name.as_slice())) {
                return Some(SetFault { at, kind });
            }
        }
        None
    }
}

// Adds values after ` = `.
fn push_values(values: &[u32], set: &mut Vec<u8>) -> Result<(), AllocError>
    ensures { OnOk result (set.new.items ≡ set.old.items ++ parted (codes " = ") values.now) }
{
    let mut buffer = Buffer::new();
    let mut parting: &[u8] = b" = ";
    for &value in values {
        set.extend_from_slice(parting)?;
        set.extend_from_slice(buffer.format(value).as_bytes())?;
        parting = b", ";
    }
    Ok(())
}

/// The keyword and the name with which a line begins, and what stands after them.
pub(crate) fn declared(line: &[u8]) -> Option<(Symbol, &[u8], &[u8])>
    ensures { option_map (λ x. (x.0, x.1.now, x.2.now)) result ≡ declared_at line.now }
{
    let (Token::Symbol(keyword), rest) = first_token(line)? else {
        return None;
    };
    let (Token::Name(name), rest) = first_token(rest)? else {
        return None;
    };
    Some((keyword, name, rest))
}

// What stands where the value does that may be set.
fn value_place(keyword: Symbol, rest: &[u8]) -> Option<&[u8]>
    ensures { option_map (λ rest. rest.now) result ≡ settable_value keyword rest.now }
{
    match keyword {
        Symbol::Const => Some(rest),
        Symbol::Shared => after_index(rest),
        _ => None,
    }
}

// What stands after the index of an array; a scalar has none.
fn after_index(rest: &[u8]) -> Option<&[u8]>
    ensures { option_map (λ rest. rest.now) result ≡ after_index rest.now }
{
    if !has_index(after_blanks(rest)) {
        return Some(rest);
    }
    let end = index_end(rest)?;
    Some(rest.split_at(end + 1).1)
}

fn has_index(rest: &[u8]) -> bool
    ensures { result ≡ has_index rest.now }
{
    matches!(rest, [b'[', ..])
}

// Where the first `]` stands.
fn index_end(rest: &[u8]) -> Option<usize>
    ensures place { result ≡ position (λ byte. byte == 93) rest.now }
    ensures inside { IfSome result (λ end. end < length rest.now) }
{
    rest.iter().position(|&byte| byte == b']')
}

// The line of this number.
fn numbered(text: &[u8], wanted: u64) -> Option<&[u8]>
    ensures { option_map (λ line. line.now) result
        ≡ line_numbered 0 (lines_of text.now) wanted }
{
    let mut lines = TextLines::new(text);
    while let Some(line) = lines.take_line() {
        if lines.number() == wanted {
            return Some(line);
        }
    }
    None
}

// Whether this is the fault of a line that is set to so many values.
fn is_of_length(keyword: Symbol, count: usize, kind: PardoKind) -> bool
    ensures { result ≡ is_of_length keyword count kind }
{
    match (keyword, kind) {
        (Symbol::Const, PardoKind::BadLine) => count != 1,
        (Symbol::Shared, PardoKind::WrongLength) => true,
        _ => false,
    }
}

// Whether what the first line of the text declares that declares the name may be set.
fn settable(text: &[u8], name: &[u8]) -> Option<bool>
    ensures { result ≡ settable_in (lines_of text.now) name.now }
{
    let mut lines = TextLines::new(text);
    while let Some(line) = lines.take_line() {
        if let Some(found) = settable_by(line, name) {
            return Some(found);
        }
    }
    None
}

// Whether what a line declares may be set, if it declares the name.
fn settable_by(line: &[u8], name: &[u8]) -> Option<bool>
    ensures { result ≡ settable_by (declared_at (said_in line.now)) name.now }
{
    let (keyword, found, _) = declared(said(line))?;
    if found != name {
        return None;
    }
    may_set(keyword)
}

fn may_set(keyword: Symbol) -> Option<bool>
    ensures { result ≡ may_set keyword }
{
    match keyword {
        Symbol::Const | Symbol::Shared => Some(true),
        Symbol::Procs | Symbol::Private => Some(false),
        _ => None,
    }
}

fn misfit(found: Option<bool>) -> Option<SetKind>
    ensures { result ≡ misfit found }
{
    match found {
        None => Some(SetKind::UnknownName),
        Some(false) => Some(SetKind::WrongKind),
        Some(true) => None,
    }
}
