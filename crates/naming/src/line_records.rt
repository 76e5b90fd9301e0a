//! What the counted lines of a program cost, as records.
ghost use Rattle.std.specs.Prelude.{◌≡◌, ◌≤◌, IfOk, OnOk};
ghost use Rattle.std.specs.Io.KnownBytes.{Appends};
ghost use Rattle.csv.specs.Writing.{text_written};
ghost use Rattle.naming.specs.LineRecords.{numbered_line, line_record, records_text};
ghost use Rattle.naming.specs.Inner.Finding.{HasTaken};
ghost use Rattle.pram_streams.specs.Records.{IsBetweenRecords};
ghost use Rattle.text_lines.specs.TextLines.{taken_of};

use csv::Writer;
use itoa::Buffer;
use pardo_answers::LineCost;
use pram_streams::number_text;
use std::alloc::{AllocError, Global};
use std::io::Write;
use text_lines::TextLines;

/// The records of counted lines, with their lines as these stand in the text. The time is linear
/// in the text where the lines come in its order.
pub fn records_of(alloc: Global, text: &[u8], costs: &[LineCost]) -> Result<Vec<u8>, AllocError>
    ensures { IfOk result (λ records. records.items ≡ records_text text.now costs.now) }
{
    let header = Vec::from_slice(alloc, b"line,times,time,operations,most,text\n")?;
    let mut writer = Writer::from_writer(header);
    let mut place = Place::start(text);
    for cost in costs {
        let (line, next) = line_from(place, cost.line);
        write_record(&mut writer, cost, line)?;
        place = next;
    }
    match writer.into_inner() {
        Ok(records) => Ok(records),
        Err(_) => Err(AllocError),
    }
}

// Writes the record of a line: the csv writer puts quotes where its text has some, or a comma.
fn write_record<W: Write + Drop>(
    writer: &mut Writer<W>,
    cost: &LineCost,
    line: &[u8],
) -> Result<(), AllocError>
    requires { IsBetweenRecords writer.old }
    ensures between { OnOk result (IsBetweenRecords writer.new) }
    ensures text { OnOk result (Appends (text_written W.contents writer.old)
        (text_written W.contents writer.new) (line_record cost.now line.now)) }
{
    let (mut number, mut times, mut time) = (Buffer::new(), Buffer::new(), Buffer::new());
    let (mut operations, mut most) = (Buffer::new(), Buffer::new());
    let fields = [
        number_text(&mut number, cost.line),
        number_text(&mut times, u64::from(cost.times)),
        number_text(&mut time, u64::from(cost.time)),
        number_text(&mut operations, cost.operations),
        number_text(&mut most, u64::from(cost.most)),
        line,
    ];
    match writer.write_fields(&fields) {
        Ok(()) => Ok(()),
        Err(_) => Err(AllocError),
    }
}

/// A text, its lines that are left, and the one that was taken last.
#[derive(Clone, Copy, Drop)]
struct Place<'t> {
    text: &'t [u8],
    lines: TextLines<'t>,
    line: &'t [u8],
    ghost is: { HasTaken text.now lines line.now },
}

impl<'t> Place<'t> {
    // Before all lines.
    fn start(text: &'t [u8]) -> Self
        ensures text { result.text ≡ text.entry }
        ensures taken { taken_of result.lines ≡ 0 }
    {
        Place {
            text,
            lines: TextLines::new(text),
            line: &[],
        }
    }
}

// This place, or the one before all lines, where the line of this number is among those taken.
fn before<'t>(place: Place<'t>, number: u64) -> Place<'t>
    ensures text { result.text ≡ place.entry.text }
    ensures before { taken_of result.lines ≤ number }
{
    if place.lines.number() <= number {
        place
    } else {
        Place::start(place.text)
    }
}

// The line of this number, and the place after it. Where it was taken before, it is looked for from
// the start.
fn line_from<'t>(place: Place<'t>, number: u64) -> (&'t [u8], Place<'t>)
    ensures line { result.0.now ≡ numbered_line place.entry.text.now number }
    ensures text { result.1.text ≡ place.entry.text }
{
    let start = before(place, number);
    let Place {
        text,
        mut lines,
        mut line,
    } = start;
    while lines.number() < number {
        let Some(next) = lines.take_line() else {
            return (&[], start);
        };
        line = next;
    }
    (line, Place { text, lines, line })
}
