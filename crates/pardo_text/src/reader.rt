//! Reads a text line by line.
ghost use Rattle.std.specs.Prelude.{◌≡◌, ◌≢◌, Ok, IfOk, IfErr};
ghost use Rattle.pardo_text.specs.Inner.Drafts.{draft_of};
ghost use Rattle.pardo_text.specs.Inner.Tokens.{GivesAsRead};
ghost use Rattle.pardo_text.specs.Reading.{IsReaderRefusal, line_in_stage};
ghost use Rattle.pardo_text.specs.Reading.{program_of, with_text_line};
ghost use Rattle.pardo_text.specs.Settings.{IsSetRefusal, laid, met, program_set};

use crate::cursor::Cursor;
use crate::draft::{Draft, Stage};
use crate::fault::{PardoFault, PardoKind};
use crate::readable::is_readable;
use crate::settings::{SetFault, SetRefusal, Settings};
use crate::token::{count_tokens, said};
use pardo_program::Program;
use std::alloc::Global;
use text_lines::TextLines;

/// Where the reader stops: the fault, and how many tokens of the bad line were read before; or none
/// where all lines were read, and something is missing at their end.
#[derive(Clone, Copy, Debug, PartialEq, Eq)]
pub struct Stop {
    pub fault: PardoFault,
    pub read: Option<usize>,
}

/// The program that a text spells, or the first line that is wrong, and what is wrong with it.
///
/// The time is linear in the text and in the number of start values, but for private variables: of
/// their expressions each part takes time for each processor. Each name adds a search among those
/// that are known.
pub fn read_program(alloc: Global, text: &[u8]) -> Result<Program, PardoFault>
    ensures program { IfOk result (λ program. program_of text.now ≡ Ok program) }
    ensures refused { IfErr result (IsReaderRefusal text.now) }
{
    match read_or_stop(alloc, text) {
        Ok(program) => Ok(program),
        Err(stop) => Err(stop.fault),
    }
}

/// Does what `read_program` does, and says where it stops.
pub fn read_or_stop(alloc: Global, text: &[u8]) -> Result<Program, Stop>
    ensures program { IfOk result (λ program. program_of text.now ≡ Ok program) }
    ensures refused { IfErr result (λ stop. IsReaderRefusal text.now stop.fault) }
{
    let mut draft = Draft::new(alloc);
    let mut lines = TextLines::new(text);
    let mut read = 0;
    while let Some(line) = lines.take_line() {
        if let Err(kind) = take_line(&mut draft, lines.number(), line, &mut read) {
            let fault = refusal(lines.number(), kind);
            let read = Some(read);
            return Err(Stop { fault, read });
        }
    }
    let last = lines.number();
    match draft.finish() {
        Ok(program) => Ok(program),
        Err(kind) => {
            let fault = refusal(last, kind);
            Err(Stop { fault, read: None })
        }
    }
}

/// The program that a text spells with these names set, or the first fault: of the text as it is
/// set, and then of a name that it does not have.
pub fn read_program_with(
    alloc: Global,
    settings: &Settings,
    text: &[u8],
) -> Result<Program, SetRefusal>
    ensures program { IfOk result (λ program. program_set settings.now text.now ≡ Ok program) }
    ensures refused { IfErr result (IsSetRefusal settings.now text.now) }
{
    let Ok(set) = settings.text_as_set(alloc, text) else {
        return Err(SetRefusal::Text(refusal(0, PardoKind::Memory)));
    };
    match read_program(alloc, set.as_slice()) {
        Ok(program) => met(settings.unmet(text), program),
        Err(fault) if fault.kind == PardoKind::Memory => Err(SetRefusal::Text(fault)),
        Err(fault) => Err(laid(settings.blamed(text, fault), fault)),
    }
}

fn met(unmet: Option<SetFault>, program: Program) -> Result<Program, SetRefusal>
    ensures { result ≡ met unmet program }
{
    match unmet {
        None => Ok(program),
        Some(fault) => Err(SetRefusal::Setting(fault)),
    }
}

fn laid(found: Option<SetFault>, fault: PardoFault) -> SetRefusal
    ensures { result ≡ laid found fault }
{
    match found {
        None => SetRefusal::Text(fault),
        Some(found) => SetRefusal::Setting(found),
    }
}

// The fault of a line. Out of memory it is no line's.
fn refusal(line: u64, kind: PardoKind) -> PardoFault
    ensures kind { result.kind ≡ kind }
    ensures line { kind ≢ PardoKind.Memory → result.line ≡ line }
    ensures memory { kind ≡ PardoKind.Memory → result.line ≡ 0 }
{
    let line = if kind == PardoKind::Memory { 0 } else { line };
    PardoFault { line, kind }
}

// Reads one line more, and says how many of its tokens were read.
#[tactic(auto, unfolding(crate::specs::Reading::with_text_line))]
fn take_line<'t>(
    draft: &mut Draft<'t>,
    number: u64,
    line: &'t [u8],
    read: &mut usize,
) -> Result<(), PardoKind>
    ensures { GivesAsRead (λ _. draft_of draft.new) result
        (with_text_line number (draft_of draft.old) line.now) }
{
    *read = 0;
    if !is_readable(line) {
        return Err(PardoKind::NotAscii);
    }
    let line = said(line);
    let count = count_tokens(line)?;
    if count == 0 {
        return Ok(());
    }
    let mut cursor = Cursor::new(line, count);
    let taken = take_tokens(draft, number, &mut cursor);
    *read = count.saturating_sub(cursor.len());
    taken
}

// Reads the tokens of a line.
fn take_tokens<'t>(
    draft: &mut Draft<'t>,
    number: u64,
    tokens: &mut Cursor<'t>,
) -> Result<(), PardoKind>
    ensures { GivesAsRead (λ _. draft_of draft.new) result
        (line_in_stage (draft_of draft.old).stage number (draft_of draft.old) tokens.old) }
{
    match draft.stage {
        Stage::Version => draft.take_version(tokens),
        Stage::Rule => draft.take_rule(tokens),
        Stage::Header => draft.take_header(tokens),
        Stage::Code => draft.take_code(number, tokens),
    }
}
