//! The text of a line's file as names are set.
ghost use Rattle.std.specs.Prelude.{◌≡◌, [], None, Ok, Err, map, IfErr, IfOk, IfSome, OnOk};
ghost use Rattle.pardo_text.specs.Settings.{text_as_set, with_setting};
ghost use Rattle.command_answers.specs.Setting.{AllMet, BySetting, FileGives, IsRefusedSet};
ghost use Rattle.command_answers.specs.Setting.{IsSetText, IsUnfitSetting, IsUnfitBy, RefuseNames};
ghost use Rattle.command_answers.specs.Setting.{RefusesName, SetNames, SetsName};

use pardo_answers::is_program;
use pardo_text::{PardoKind, SetFault, SetKind, Settings, read_program};
use pram_commands::{Folder, Refusal, Unset};
use pram_streams::{Reason, Source, TakeFault, take};
use std::alloc::{AllocError, Global};

/// The text of a file as these words set names, or why not: what is wrong with the words by
/// themselves, and then what does not fit the text. What else is wrong with the text is left to who
/// reads it.
pub(crate) fn set_text<'a, F: Folder>(
    alloc: Global,
    folder: &F,
    file: &'a str,
    words: &[&'a str],
) -> Result<Vec<u8>, Unset<'a>>
    ensures set { IfOk result (λ set. IsSetText (F.holds folder.now) file.now
        (map (λ word. word.now) words.now) set.items) }
    ensures refused { IfErr result (λ unset. BySetting (IsRefusedSet (F.holds folder.now) file.now
        (map (λ word. word.now) words.now)) unset.refusal) }
{
    let settings = settings_of(alloc, folder, words)?;
    let text = taken(alloc, folder, file)?;
    fitted(alloc, &settings, text.as_slice(), words)
}

/// A text as it is set, or which of the words, that set names so, does not fit it.
pub(crate) fn fitted<'a>(
    alloc: Global,
    settings: &Settings,
    text: &[u8],
    words: &[&'a str],
) -> Result<Vec<u8>, Unset<'a>>
    ensures set { IfOk result (λ set. set.items ≡ text_as_set settings.now text.now) }
    ensures met { IfOk result (λ set. AllMet settings.now text.now set.items) }
    ensures refused { IfErr result (λ unset.
        BySetting (IsUnfitBy settings.now text.now) unset.refusal) }
{
    let Ok(set) = settings.text_as_set(alloc, text) else {
        return Err(unset(Refusal::Memory));
    };
    match unfit(alloc, settings, text, set.as_slice()) {
        Ok(None) => Ok(set),
        Ok(Some(SetFault { at, kind })) => {
            let name = name_in(words.get(at).copied().unwrap_or(""));
            Err(unset(Refusal::Setting { name, kind }))
        }
        Err(AllocError) => Err(unset(Refusal::Memory)),
    }
}

// The first setting that does not fit the text, which is this one as it is set.
fn unfit(
    alloc: Global,
    settings: &Settings,
    text: &[u8],
    set: &[u8],
) -> Result<Option<SetFault>, AllocError>
    ensures met { IfOk result (λ found. found ≡ None → AllMet settings.now text.now set.now) }
    ensures unfit { IfOk result
        (λ found. IfSome found (IsUnfitSetting settings.now text.now set.now)) }
{
    if !is_program(set) {
        return Ok(settings.unmet(text));
    }
    match read_program(alloc, set) {
        Ok(_) => Ok(settings.unmet(text)),
        Err(fault) if fault.kind == PardoKind::Memory => Err(AllocError),
        Err(fault) => Ok(settings.blamed(text, fault)),
    }
}

/// What the words set.
pub(crate) fn settings_of<'a, F: Folder>(
    alloc: Global,
    folder: &F,
    words: &[&'a str],
) -> Result<Settings, Unset<'a>>
    ensures names { IfOk result (SetNames (F.holds folder.now) []
        (map (λ word. word.now) words.now)) }
    ensures refused { IfErr result (λ unset. BySetting (RefuseNames (F.holds folder.now) []
        (map (λ word. word.now) words.now)) unset.refusal) }
{
    let mut settings = Settings::new(alloc);
    for &word in words {
        add(alloc, folder, word, &mut settings)?;
    }
    Ok(settings)
}

// Sets what a word sets: `NAME=V,V,..`, or `NAME=@FILE`.
fn add<'a, F: Folder>(
    alloc: Global,
    folder: &F,
    word: &'a str,
    settings: &mut Settings,
) -> Result<(), Unset<'a>>
    ensures name { OnOk result (SetsName (F.holds folder.now) settings.old word.now settings.new) }
    ensures refused { IfErr result (λ unset.
        BySetting (RefusesName (F.holds folder.now) settings.old word.now) unset.refusal) }
{
    let Some((name, values)) = word.split_once('=') else {
        let kind = SetKind::BadSetting;
        return Err(unset(Refusal::Setting { name: word, kind }));
    };
    match values.strip_prefix('@') {
        Some(file) => {
            let text = taken(alloc, folder, file)?;
            set_name(name, text.as_slice(), settings)
        }
        None => set_name(name, values.as_bytes(), settings),
    }
}

// Sets a name to the values that a text spells.
fn set_name<'a>(name: &'a str, text: &[u8], settings: &mut Settings) -> Result<(), Unset<'a>>
    ensures set { OnOk result (with_setting settings.old name.now text.now ≡ Ok settings.new) }
    ensures refused { IfErr result (λ unset. BySetting (λ kind.
        with_setting settings.old name.now text.now ≡ Err kind) unset.refusal) }
{
    match settings.add(name.as_bytes(), text) {
        Ok(()) => Ok(()),
        Err(SetKind::Memory) => Err(unset(Refusal::Memory)),
        Err(kind) => Err(unset(Refusal::Setting { name, kind })),
    }
}

/// The name that a word sets.
pub(crate) fn name_in(word: &str) -> &str {
    match word.split_once('=') {
        Some((name, _)) => name,
        None => word,
    }
}

/// All bytes of a file.
pub(crate) fn taken<'a, F: Folder>(
    alloc: Global,
    folder: &F,
    file: &'a str,
) -> Result<Vec<u8>, Unset<'a>>
    ensures gives { IfOk result (λ bytes. FileGives (F.holds folder.now) file.now bytes.items) }
    ensures failed { IfErr result (λ unset. BySetting (λ kind. ⊥) unset.refusal) }
{
    let mut source = folder.open(file);
    match take(alloc, &mut source) {
        Ok(bytes) => Ok(bytes),
        Err(TakeFault::Device) => Err(Unset {
            refusal: Refusal::File(file),
            reason: source.reason(),
        }),
        Err(TakeFault::TooLarge) => Err(unset(Refusal::Size(file))),
        Err(TakeFault::Memory) => Err(unset(Refusal::Memory)),
    }
}

/// What is refused without the reason of a file.
pub(crate) fn unset(refusal: Refusal<'_>) -> Unset<'_>
    ensures { result.refusal ≡ refusal.entry }
{
    Unset {
        refusal,
        reason: Reason::Unknown,
    }
}
