//! A text with names set from outside.
ghost use Rattle.std.specs.Prelude.{◌≡◌, ◌==◌, ◌<◌, ℕ, List, length, Ok, Some};
ghost use Rattle.std.specs.Prelude.{IfErr, IfOk, IfSome, OnOk};
ghost use Rattle.std.specs.List.{position};
ghost use Rattle.std.specs.Option.{option_map};
ghost use Rattle.pardo_text.specs.Settings.{with_setting};
ghost use Rattle.library_core.specs.Calls.{IsCall};
ghost use Rattle.library_core.specs.Settings.{IsNotSet, IsTextSet, TellsWhy, if_fit};
ghost use Rattle.library_core.specs.Settings.{numbered_setting};
ghost use Rattle.library_core.specs.Settings.{halves_of, settings_in, text_set_by, unfit_in};
ghost use Rattle.library_core.specs.Settings.{setting_with};
ghost use Rattle.library_core.specs.declared.fault.CallFault.TheVariants.{Command};
ghost use Rattle.refusals.specs.declared.fault.CommandFault.TheVariants.{Memory};

use crate::answer::Answer;
use crate::fault::{CallFault, Misset};
use crate::telling::{refuse_fault, show};
use pardo_answers::is_program;
use pardo_text::{PardoKind, SetFault, SetKind, Settings, read_program};
use refusals::{CommandFault, DONE};
use std::alloc::{AllocError, Global};
use text_lines::TextLines;

/// Puts the text as another one sets it to the front of the output, as much as there is room for,
/// and gives the status. A program is read, but not run; what is wrong with it beside its settings
/// is left to the calls that take it.
pub fn tell_set(
    alloc: Global,
    text: &[u8],
    settings: &[u8],
    out: &mut [u8],
    answer: &mut Answer,
) -> u32
    ensures { IsCall (IsTextSet text.now settings.now) (IsNotSet text.now settings.now) out.old
        out.new answer.old answer.new result }
{
    match text_set_by(alloc, text, settings) {
        Ok(set) => show(set.as_slice(), DONE, out, answer),
        Err(fault) => refuse_fault(alloc, fault, b"", answer),
    }
}

#[tactic(auto, unfolding(crate::specs::Settings::text_set_by))]
fn text_set_by(alloc: Global, text: &[u8], settings: &[u8]) -> Result<Vec<u8>, CallFault>
    ensures set { IfOk result (λ set. text_set_by text.now settings.now ≡ Ok set.items) }
    ensures refused { IfErr result (IsNotSet text.now settings.now) }
{
    let settings = settings_in(alloc, settings)?;
    let Ok(set) = settings.text_as_set(alloc, text) else {
        return Err(out_of_memory());
    };
    match unfit_in(alloc, &settings, text, set.as_slice()) {
        Ok(None) => Ok(set),
        Ok(Some(fault)) => Err(unfit_told(fault)),
        Err(AllocError) => Err(out_of_memory()),
    }
}

// What a text sets.
fn settings_in(alloc: Global, text: &[u8]) -> Result<Settings, CallFault>
    ensures settings { IfOk result (λ settings. settings_in text.now ≡ Ok settings) }
    ensures wrong { IfErr result (TellsWhy (settings_in text.now)) }
{
    let mut settings = Settings::new(alloc);
    let mut lines = TextLines::new(text);
    let mut count = 0;
    while let Some(line) = lines.take_line() {
        if !line.is_empty() {
            count += 1;
            add(&mut settings, count, line)?;
        }
    }
    Ok(settings)
}

// Adds the setting of a line, which is the one of this number.
fn add(settings: &mut Settings, number: u64, line: &[u8]) -> Result<(), CallFault>
    ensures next { OnOk result
        (numbered_setting number (setting_with settings.old line.now) ≡ Ok settings.new) }
    ensures wrong { IfErr result
        (TellsWhy (numbered_setting number (setting_with settings.old line.now))) }
{
    match parts_of(line) {
        Some((name, values)) => set(settings, number, name, values),
        None => {
            let kind = SetKind::BadSetting;
            Err(CallFault::Setting(Misset { number, kind }))
        }
    }
}

// Sets a name to the values that a text spells.
fn set(settings: &mut Settings, number: u64, name: &[u8], values: &[u8]) -> Result<(), CallFault>
    ensures next { OnOk result (numbered_setting number
        (with_setting settings.old name.now values.now) ≡ Ok settings.new) }
    ensures wrong { IfErr result
        (TellsWhy (numbered_setting number (with_setting settings.old name.now values.now))) }
{
    match settings.add(name, values) {
        Ok(()) => Ok(()),
        Err(SetKind::Memory) => Err(out_of_memory()),
        Err(kind) => Err(CallFault::Setting(Misset { number, kind })),
    }
}

// The name and the values of a line.
fn parts_of(line: &[u8]) -> Option<(&[u8], &[u8])>
    ensures { option_map (λ parts. (parts.0.now, parts.1.now)) result ≡ halves_of line.now }
{
    let at = equals_in(line)?;
    Some((&line[..at], &line[at + 1..]))
}

// Where the first `=` stands.
fn equals_in(line: &[u8]) -> Option<usize>
    ensures is { result ≡ position (λ byte. byte == 61) line.now }
    ensures within { IfSome result (λ at. at < length line.now) }
{
    line.iter().position(|&byte| byte == b'=')
}

// The first setting that does not fit the text, which is this one as it is set.
fn unfit_in(
    alloc: Global,
    settings: &Settings,
    text: &[u8],
    set: &[u8],
) -> Result<Option<SetFault>, AllocError>
    ensures { IfOk result (λ found. found ≡ unfit_in settings.now text.now set.now) }
{
    if !is_program(set) {
        return Ok(settings.unmet(text));
    }
    match read_program(alloc, set) {
        Ok(_) => Ok(settings.unmet(text)),
        Err(fault) if fault.kind == PardoKind::Memory => Err(AllocError),
        Err(fault) => Ok(settings.blamed(text, fault)),
    }
}

// What is told of a setting that does not fit. More settings than numbers are told as no memory.
fn unfit_told(fault: SetFault) -> CallFault
    ensures { (set : List ℕ) → TellsWhy (if_fit (Some fault) set) result }
{
    match (fault.at as u64).checked_add(1) {
        Some(number) => CallFault::Setting(Misset {
            number,
            kind: fault.kind,
        }),
        None => out_of_memory(),
    }
}

fn out_of_memory() -> CallFault
    ensures { result ≡ Command Memory }
{
    CallFault::Command(CommandFault::Memory)
}
