//! Settings as numbers alone, as many as an array has places.
ghost use Rattle.std.specs.Prelude.{◌≡◌, ◌++◌, ◌==◌, ◌<◌, [], ◌∷◌, length, map, IfOk, OnOk};
ghost use Rattle.std.specs.List.{flat_map, list_any};
ghost use Rattle.std.specs.Option.{option_map};
ghost use Rattle.text_lines.specs.Lines.{lines_of};
ghost use Rattle.pardo_program.specs.Program.{ArrayData};
ghost use Rattle.pardo_text.specs.Reading.{program_of};
ghost use Rattle.pardo_text.specs.Settings.{arrays_of, before_code, begins_code, fits_as_is};
ghost use Rattle.pardo_text.specs.Settings.{as_numbers, lists_values, numbers_set};
ghost use Rattle.pardo_text.specs.Settings.{settled_header, settled_line};
ghost use Rattle.pardo_text.specs.Settings.{places_named, refilled_by, repeated, settled};
ghost use Rattle.pardo_text.specs.Settings.{settled_with, values_with};
ghost use Rattle.pardo_text.specs.Inner.Settings.{set_arrays};
ghost use Rattle.pardo_text.specs.declared.settings.Rest.TheVariants.{Last};

use crate::exchange::declared;
use crate::fault::PardoKind;
use crate::reader::read_program;
use crate::settings::{Rest, Setting, Settings};
use crate::symbol::Symbol;
use crate::token::{Token, first_token, said};
use pardo_program::{Array, Program};
use std::alloc::{AllocError, Global};
use text_lines::TextLines;

impl Settings {
    /// All that is set of a text, as numbers alone: the settings, and then the arrays whose lengths
    /// follow from them.
    #[tactic(auto, unfolding(crate::specs::Settings::settled))]
    pub(crate) fn settled(&self, alloc: Global, text: &[u8]) -> Result<Settings, AllocError>
        ensures { IfOk result (λ found. found ≡ settled self.now text.now) }
    {
        if self.is_empty() {
            return Ok(Settings::new(alloc));
        }
        let sized = self.header_program(alloc, true, text)?;
        let own = Settings::new(alloc).header_program(alloc, false, text)?;
        self.settled_with(alloc, arrays_in(&sized), arrays_in(&own), text)
    }

    fn settled_with(
        &self,
        alloc: Global,
        sized: &[Array],
        own: &[Array],
        text: &[u8],
    ) -> Result<Settings, AllocError>
        ensures { IfOk result (λ found.
            found ≡ settled_with sized.now own.now self.now text.now) }
    {
        let mut settled = Settings::new(alloc);
        self.push_numbers(sized, &mut settled)?;
        for array in own {
            self.push_refilled(sized, text, array, &mut settled)?;
        }
        Ok(settled)
    }

    // Adds the settings as numbers alone.
    fn push_numbers(&self, sized: &[Array], settled: &mut Settings) -> Result<(), AllocError>
        ensures { OnOk result (settled.new ≡ settled.old ++ map (numbers_set sized.now) self.now) }
    {
        for setting in self.settings.iter() {
            push_number(sized, setting, settled)?;
        }
        Ok(())
    }

    // Adds the setting that gives an array its values over and over, if it needs one.
    fn push_refilled(
        &self,
        sized: &[Array],
        text: &[u8],
        array: &Array,
        settled: &mut Settings,
    ) -> Result<(), AllocError>
        ensures { OnOk result (settled.new
            ≡ settled.old ++ refilled_by sized.now self.now text.now array.now) }
    {
        let Some(places) = places_named(sized, array.name()) else {
            return Ok(());
        };
        let start = array.start();
        if places == start.len() || start.is_empty() || self.fits_as_is(text, array.name()) {
            return Ok(());
        }
        let values = repeated(*settled.settings.allocator(), start, places)?;
        settled.push_plain(array.name(), values)
    }

    // Whether an array is set, or its line lists no values.
    fn fits_as_is(&self, text: &[u8], name: &[u8]) -> bool
        ensures { result ≡ fits_as_is self.now text.now name.now }
    {
        self.find(name).is_some() || !lists_values(name, text)
    }

    // Sets one name more, to numbers.
    fn push_plain(&mut self, name: &[u8], values: Vec<u32>) -> Result<(), AllocError>
        ensures { OnOk result (self.new ≡ self.old ++ as_numbers name.now values.items ∷ []) }
    {
        let name = Vec::from_slice(*self.settings.allocator(), name)?;
        let rest = Rest::Nothing;
        self.settings.push(Setting { name, values, rest })?;
        Ok(())
    }

    // The program of the header with constants set; none where it is bad.
    fn header_program(
        &self,
        alloc: Global,
        bare: bool,
        text: &[u8],
    ) -> Result<Option<Program>, AllocError>
        ensures { IfOk result (λ program. set_arrays program
            ≡ arrays_of (program_of (settled_header bare self.now text.now))) }
    {
        let header = self.header_text(alloc, bare, text)?;
        match read_program(alloc, header.as_slice()) {
            Ok(program) => Ok(Some(program)),
            Err(fault) if fault.kind == PardoKind::Memory => Err(AllocError),
            Err(_) => Ok(None),
        }
    }

    fn header_text(&self, alloc: Global, bare: bool, text: &[u8]) -> Result<Vec<u8>, AllocError>
        ensures { IfOk result (λ header. header.items ≡ settled_header bare self.now text.now) }
    {
        let mut header = Vec::new(alloc);
        self.push_header(bare, text, &mut header)?;
        header.extend_from_slice(b"code\nif 0\nend")?;
        Ok(header)
    }

    // Adds the lines before the code, as they are set.
    fn push_header(&self, bare: bool, text: &[u8], header: &mut Vec<u8>) -> Result<(), AllocError>
        ensures { OnOk result (header.new.items ≡ header.old.items
            ++ flat_map (λ line. settled_line bare self.now line ++ 10 ∷ [])
            (before_code (lines_of text.now))) }
    {
        let mut lines = TextLines::new(text);
        while let Some(line) = lines.take_line() {
            if begins_code(line) {
                return Ok(());
            }
            self.push_line(bare, line, header)?;
            header.push(b'\n')?;
        }
        Ok(())
    }
}

// Adds a setting as numbers alone.
fn push_number(sized: &[Array], setting: &Setting, settled: &mut Settings) -> Result<(), AllocError>
    ensures { OnOk result (settled.new
        ≡ settled.old ++ numbers_set sized.now setting.now ∷ []) }
{
    let alloc = *settled.settings.allocator();
    let places = places_named(sized, setting.name.as_slice()).unwrap_or(1);
    let values = values_with(alloc, setting.rest, setting.values.as_slice(), places)?;
    settled.push_plain(setting.name.as_slice(), values)
}

// So many values; the last one fills the rest, or all are thrown.
fn values_with(
    alloc: Global,
    rest: Rest,
    values: &[u32],
    places: usize,
) -> Result<Vec<u32>, AllocError>
    ensures { IfOk result (λ all. all.items ≡ values_with rest values.now places) }
{
    match rest {
        Rest::Nothing => Vec::from_slice(alloc, values),
        Rest::Last => filled(alloc, values, places),
        Rest::Throws(thrown) => thrown.values(alloc, places),
    }
}

// At least so many values, of which the last one fills the rest.
fn filled(alloc: Global, values: &[u32], places: usize) -> Result<Vec<u32>, AllocError>
    ensures { IfOk result (λ all. all.items ≡ values_with Last values.now places) }
{
    let mut all = Vec::from_slice(alloc, values)?;
    let last = values.last().copied().unwrap_or(0);
    if places > values.len() {
        all.resize(places, last)?;
    }
    Ok(all)
}

// The arrays of a program, if there is one.
fn arrays_in(program: &Option<Program>) -> &[Array]
    ensures { result.now ≡ set_arrays program.now }
{
    match program {
        None => &[],
        Some(program) => program.arrays(),
    }
}

// How many places the array of this name has, if there is one.
fn places_named(arrays: &[Array], name: &[u8]) -> Option<usize>
    ensures { result ≡ places_named arrays.now name.now }
{
    let array = arrays.iter().find(|array| array.name() == name)?;
    Some(array.start().len())
}

// These values over and over, for so many places.
fn repeated(alloc: Global, values: &[u32], places: usize) -> Result<Vec<u32>, AllocError>
    requires { 0 < length values.now }
    ensures { IfOk result (λ all. all.items ≡ repeated values.now places) }
{
    let mut all = Vec::new(alloc);
    for place in 0..places {
        all.push(values[place % values.len()])?;
    }
    Ok(all)
}

// Whether a line of the text declares this array and lists a value for each of its places.
fn lists_values(name: &[u8], text: &[u8]) -> bool
    ensures { result ≡ list_any (lists_values name.now) (lines_of text.now) }
{
    let mut lines = TextLines::new(text);
    while let Some(line) = lines.take_line() {
        if line_lists_values(name, line) {
            return true;
        }
    }
    false
}

fn line_lists_values(name: &[u8], line: &[u8]) -> bool
    ensures { result ≡ lists_values name.now line.now }
{
    match declared(said(line)) {
        Some((Symbol::Shared, found, rest)) => found == name && has(b'=', rest) && !has(b'.', rest),
        _ => false,
    }
}

fn has(wanted: u8, bytes: &[u8]) -> bool
    ensures { result ≡ list_any (λ byte. byte == wanted) bytes.now }
{
    bytes.iter().any(|&byte| byte == wanted)
}

fn begins_code(line: &[u8]) -> bool
    ensures { result ≡ begins_code line.now }
{
    matches!(
        first_token(said(line)),
        Some((Token::Symbol(Symbol::Code), _))
    )
}
