//! A sweep: what the runs of a program cost in which a name is set to one value after the other.
ghost use Rattle.std.specs.Prelude.{◌≡◌, ◌⊎◌, ◌≤◌, ◌++◌, ℕ, List, [], false, map, max};
ghost use Rattle.std.specs.Prelude.{IfErr, IfOk, OnOk, codes, decimal};
ghost use Rattle.std.specs.Io.KnownBytes.{Appends};
ghost use Rattle.pardo_text.specs.Settings.{with_first};
ghost use Rattle.naming.specs.Writing.{writing};
ghost use Rattle.pram_streams.specs.Transfer.{AppendsBeginning};
ghost use Rattle.command_answers.specs.Answering.{RefusesSet, is_sweep};
ghost use Rattle.refusals.specs.Faults.{fault_status};
ghost use Rattle.refusals.specs.declared.refusal.TheConstants.{REFUSED};
ghost use Rattle.command_answers.specs.Setting.{BySetting};
ghost use Rattle.command_answers.specs.Sweeping.{AreSizes, ByRefusal, IsRefusedSweep, IsSizeOf};
ghost use Rattle.command_answers.specs.Sweeping.{IsSweep, RefusesSize, RefusesSizes, ServesSweep};

use crate::setting::{fitted, name_in, settings_of, taken, unset};
use pardo_text::{SetKind, Settings};
use pram_commands::{
    Ask, AskAlone, CommandFault, Console, DONE, Explanation, FAILED, Folder, Line, MEMORY, Reasons,
    Refusal, Unset, run_record, tell, tell_unset,
};
use pram_streams::{Reason, Sink, push_labelled, put};
use refusals::tell_fault;
use std::alloc::{AllocError, Global};

/// Why no records of a sweep were made.
#[derive(Drop)]
pub(crate) enum Unswept<'a> {
    /// Names were not set.
    Unset(Unset<'a>),
    /// The text as it is set is refused.
    Fault { fault: CommandFault, text: Vec<u8> },
}

impl<'a> From<AllocError> for Unswept<'a> {
    ghost use Rattle.std.specs.Prelude.{◌≡◌};
    ghost use Rattle.pram_streams.specs.declared.device.Reason.TheVariants.{Unknown};
    ghost use Rattle.refusals.specs.declared.refusal.Refusal.TheVariants.{Memory};
    ghost use Rattle.command_answers.specs.declared.sweep.Unswept.TheVariants.{Unset};

    ghost from_gives = { λ _ made. made ≡ Unset (record { refusal = Memory; reason = Unknown }) };

    fn from(_error: AllocError) -> Unswept<'a> {
        Unswept::Unset(Unset {
            refusal: Refusal::Memory,
            reason: Reason::Unknown,
        })
    }
}

impl<'a> From<Unset<'a>> for Unswept<'a> {
    ghost use Rattle.std.specs.Prelude.{◌≡◌};
    ghost use Rattle.command_answers.specs.declared.sweep.Unswept.TheVariants.{Unset};

    ghost from_gives = { λ unset made. made ≡ Unset unset };

    fn from(unset: Unset<'a>) -> Unswept<'a> {
        Unswept::Unset(unset)
    }
}

/// Records, and the status that they end with: the greatest of those of their runs.
#[derive(Drop)]
pub(crate) struct Records {
    pub bytes: Vec<u8>,
    pub status: u8,
}

/// Whether a sweep is asked for.
pub(crate) fn is_sweep(ask: &Ask<'_>) -> bool
    ensures { result ≡ is_sweep ask.now }
{
    match ask {
        Ask::Alone(AskAlone::Sweep) => true,
        _ => false,
    }
}

/// Does a sweep: all of its records are made before one is printed.
pub(crate) fn answer_sweep<'a, F: Folder, O: Sink, E: Sink>(
    alloc: Global,
    folder: &F,
    line: &Line<'a>,
    words: &[&'a str],
    console: &mut Console<O, E>,
) -> u8
    requires out { O.has_failed console.old.out ≡ false }
    requires err { E.has_failed console.old.err ≡ false }
    ensures { ServesSweep (F.holds folder.now) line.now (map (λ word. word.now) words.now)
        (writing O.Sink console.old.out console.new.out) result
        ⊎ RefusesSet (IsRefusedSweep (F.holds folder.now) line.now.file.now
        (map (λ word. word.now) words.now)) (writing O.Sink console.old.out console.new.out)
        result }
{
    match sweep_of(alloc, folder, line.file, words) {
        Ok(swept) => print_records(alloc, &swept, console),
        Err(Unswept::Unset(unset)) => {
            tell_unset(alloc, &unset, console.explains, &mut console.err)
        }
        Err(Unswept::Fault { fault, text }) => tell_size(alloc, line, fault, &text, console),
    }
}

/// Prints the records, and answers the status.
pub(crate) fn print_records<O: Sink, E: Sink>(
    alloc: Global,
    records: &Records,
    console: &mut Console<O, E>,
) -> u8
    requires out { O.has_failed console.old.out ≡ false }
    requires err { E.has_failed console.old.err ≡ false }
    ensures { ((result ≡ records.now.status) × Appends (O.taken console.old.out)
        (O.taken console.new.out) records.now.bytes.items)
        ⊎ ((FAILED ≤ result) × (result ≤ MEMORY) × AppendsBeginning (O.taken console.old.out)
        (O.taken console.new.out) records.now.bytes.items) }
{
    match put(&mut console.out, records.bytes.as_slice()) {
        Ok(()) => records.status,
        Err(_) => tell(alloc, Refusal::Output, &mut console.err),
    }
}

// Tells why the text of a size is refused.
fn tell_size<O: Sink, E: Sink>(
    alloc: Global,
    line: &Line<'_>,
    fault: CommandFault,
    text: &Vec<u8>,
    console: &mut Console<O, E>,
) -> u8
    requires { E.has_failed console.old.err ≡ false }
    ensures { RefusesSet (fault_status fault ≡ REFUSED)
        (writing O.Sink console.old.out console.new.out) result }
{
    let explanation = Explanation {
        line: *line,
        fault,
        reasons: Reasons {
            job: Reason::Unknown,
            plan: Reason::Unknown,
        },
        text: text.as_slice(),
    };
    let look = if console.explains {
        Some(console.look)
    } else {
        None
    };
    tell_fault(alloc, &explanation, look, &mut console.err)
}

// The records of the text of a file as these words set names, or why there are none.
fn sweep_of<'a, F: Folder>(
    alloc: Global,
    folder: &F,
    file: &'a str,
    words: &[&'a str],
) -> Result<Records, Unswept<'a>>
    ensures sweep { IfOk result (λ swept. IsSweep (F.holds folder.now) file.now
        (map (λ word. word.now) words.now) swept.bytes.items swept.status) }
    ensures refused { IfErr result (ByRefusal (IsRefusedSweep (F.holds folder.now) file.now
        (map (λ word. word.now) words.now))) }
{
    let mut settings = settings_of(alloc, folder, words)?;
    let text = taken(alloc, folder, file)?;
    let Some((name, values)) = settings.first() else {
        return Err(Unswept::Unset(unset(Refusal::Memory)));
    };
    if values.is_empty() {
        return Err(Unswept::Unset(without_sizes(words)));
    }
    let mut bytes = Vec::from_slice(alloc, name)?;
    let values = Vec::from_slice(alloc, values)?;
    bytes.extend_from_slice(b",steps,time,operations,processors,needs,end\n")?;
    let sizes = sizes(
        alloc,
        text.as_slice(),
        words,
        values.as_slice(),
        &mut settings,
    )?;
    bytes.extend_from_slice(sizes.bytes.as_slice())?;
    Ok(Records {
        bytes,
        status: sizes.status,
    })
}

// What is told where no number is listed for the first name.
fn without_sizes<'a>(words: &[&'a str]) -> Unset<'a>
    ensures { BySetting (λ kind. kind ≡ SetKind.BadNumber) result.refusal }
{
    let name = name_in(words.first().copied().unwrap_or(""));
    let kind = SetKind::BadNumber;
    unset(Refusal::Setting { name, kind })
}

// The records of these values of the first name.
fn sizes<'a>(
    alloc: Global,
    text: &[u8],
    words: &[&'a str],
    values: &[u32],
    settings: &mut Settings,
) -> Result<Records, Unswept<'a>>
    ensures sizes { IfOk result (λ sizes.
        AreSizes settings.old text.now values.now sizes.bytes.items sizes.status) }
    ensures refused { IfErr result (ByRefusal (RefusesSizes settings.old text.now values.now)) }
{
    let mut bytes = Vec::new(alloc);
    let mut status = DONE;
    for &value in values {
        let ends = push_size(text, words, value, settings, &mut bytes)?;
        status = greater(status, ends);
    }
    Ok(Records { bytes, status })
}

/// The greater one of two statuses.
pub(crate) fn greater(status: u8, other: u8) -> u8
    ensures { result ≡ max status other }
{
    if other > status { other } else { status }
}

// Adds the record of a value of the first name, and answers the status of its run.
fn push_size<'a>(
    text: &[u8],
    words: &[&'a str],
    value: u32,
    settings: &mut Settings,
    bytes: &mut Vec<u8>,
) -> Result<u8, Unswept<'a>>
    ensures record { IfOk result (λ status. (size : List ℕ)
        × IsSizeOf settings.old text.now value size status
        × (bytes.new.items ≡ bytes.old.items ++ size)) }
    ensures settings { OnOk result (settings.new ≡ with_first settings.old value) }
    ensures refused { IfErr result (ByRefusal (RefusesSize settings.old text.now value)) }
{
    let alloc = *bytes.allocator();
    settings.set_first(value)?;
    let set = fitted(alloc, settings, text, words)?;
    match run_record(alloc, set.as_slice()) {
        Ok(size) => {
            push_record(bytes, value, size.bytes.as_slice())?;
            Ok(size.status)
        }
        Err(fault) => Err(Unswept::Fault { fault, text: set }),
    }
}

// Adds the record of a value.
fn push_record(bytes: &mut Vec<u8>, value: u32, told: &[u8]) -> Result<(), AllocError>
    ensures { OnOk result (bytes.new.items ≡ bytes.old.items
        ++ (decimal value ++ codes "," ++ told.now)) }
{
    push_labelled(bytes, b"", u64::from(value))?;
    bytes.extend_from_slice(b",")?;
    bytes.extend_from_slice(told)
}
