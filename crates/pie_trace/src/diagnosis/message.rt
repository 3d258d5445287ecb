//! The lines that describe a cause.

use crate::diagnosis::cause::{Cause, Reason};
use crate::diagnosis::field::Allowed;
use crate::diagnosis::hint::Hint;
use crate::diagnosis::keywords::{Keywords, MAX_KEYWORDS};
use crate::diagnosis::table::FORMS;
use crate::diagnosis::text::{Place, TextKind};
use crate::diagnosis::walk::{FieldCause, Problem};
use std::io;
use std::io::Write;

/// Writes the lines that describe the cause of a fault in the file `name`, which `pie` with the subcommand `command`
/// read. They have no prefix.
///
/// # Errors
///
/// Returns the error of the writer.
pub fn write_cause<W: Write>(
    cause: &Cause,
    name: &str,
    command: &str,
    writer: &mut W,
) -> io::Result<()> {
    match &cause.reason {
        Reason::File(hint) => write_hint(*hint, name, command, writer),
        Reason::Record(problem) => {
            let line = cause.line;
            write!(writer, "pie: line {line} of {name}")?;
            write_problem(problem, writer)?;
            write_other(cause.other, name, command, writer)
        }
    }
}

/// Writes the problem of a record.
fn write_problem<W: Write>(problem: &Problem, writer: &mut W) -> io::Result<()> {
    match problem {
        Problem::Field(field) => write_field(field, writer),
        Problem::Count { place, kind, count } => {
            let noun = if *count == 1 { "field" } else { "fields" };
            write!(writer, ": {count} {noun}; ")?;
            write_counts(*place, kind, writer)
        }
    }
}

/// Writes the number, the name and the content of a field, and what is allowed there.
fn write_field<W: Write>(cause: &FieldCause, writer: &mut W) -> io::Result<()> {
    let (number, name) = (cause.place.saturating_add(1), cause.name);
    write!(writer, ", field {number} ({name}): ")?;
    cause.value.write(writer)?;
    writer.write_all(b"; allowed ")?;
    write_allowed(cause.allowed, writer)?;
    writer.write_all(b"\n")
}

/// Writes the allowed contents.
fn write_allowed<W: Write>(allowed: Allowed, writer: &mut W) -> io::Result<()> {
    match allowed {
        Allowed::Range { least, most } if least == most => write!(writer, "is {least}"),
        Allowed::Range { least, most } => write!(writer, "is a number from {least} to {most}"),
        Allowed::RangeOrNothing(most) => {
            write!(writer, "is a number from 0 to {most}, or nothing")
        }
        Allowed::Keyword(words) => write_keywords(words, writer),
        Allowed::Thresholds => {
            writer.write_all(b"are 1024, 2048, 4096, 8192, 16384, 32768, 65536")
        }
        Allowed::NoPacket => writer.write_all(b"is no further packet"),
        Allowed::Kinds(place) => write_kinds(place, writer),
    }
}

/// Writes the keywords of a set.
fn write_keywords<W: Write>(words: Keywords, writer: &mut W) -> io::Result<()> {
    let verb = if words.word(1).is_some() { "are" } else { "is" };
    writer.write_all(verb.as_bytes())?;
    for number in 0..MAX_KEYWORDS {
        if let Some(word) = words.word(number) {
            writer.write_all(if number == 0 { b" " } else { b", " })?;
            writer.write_all(word)?;
        }
    }
    Ok(())
}

/// Writes the kinds of records at this place, each once.
fn write_kinds<W: Write>(place: Place, writer: &mut W) -> io::Result<()> {
    let mut before: &[u8] = b"";
    for number in 0..FORMS.len() {
        match FORMS[number].at(place) {
            Some(shape) if shape.kind != before => {
                writer.write_all(if before.is_empty() { b"are " } else { b", " })?;
                writer.write_all(shape.kind)?;
                before = shape.kind;
            }
            _ => {}
        }
    }
    Ok(())
}

/// Writes a kind and the numbers of fields that it can have at this place.
fn write_counts<W: Write>(place: Place, kind: &[u8], writer: &mut W) -> io::Result<()> {
    writer.write_all(kind)?;
    let mut is_first = true;
    for number in 0..FORMS.len() {
        match FORMS[number].at(place) {
            Some(shape) if shape.kind == kind => {
                let (lead, count) = (if is_first { "has" } else { "or" }, shape.len());
                write!(writer, " {lead} {count}")?;
                is_first = false;
            }
            _ => {}
        }
    }
    writer.write_all(b"\n")
}

/// Writes a property of a whole file.
fn write_hint<W: Write>(hint: Hint, name: &str, command: &str, writer: &mut W) -> io::Result<()> {
    match hint {
        Hint::Empty => writeln!(writer, "pie: {name} is empty"),
        Hint::NoRecord => writeln!(writer, "pie: {name} has no record"),
        Hint::Packed(format, tool) => writeln!(
            writer,
            "pie: {name} is compressed by {format}; {tool} {name} | pie {command} .. reads it"
        ),
        Hint::Capture => writeln!(
            writer,
            "pie: {name} is a packet capture, and no text of records"
        ),
        Hint::Encoded(encoding) => writeln!(
            writer,
            "pie: {name} is in {encoding}; iconv -f {encoding} -t UTF-8 {name} | pie {command} .. reads it"
        ),
        Hint::Steps => writeln!(
            writer,
            "pie: {name} is a text of pie-watch; pie audit, pie explain and pie cut read it"
        ),
    }
}

/// Writes that the record belongs to another kind of text, if there is one.
fn write_other<W: Write>(
    other: Option<TextKind>,
    name: &str,
    command: &str,
    writer: &mut W,
) -> io::Result<()> {
    match other {
        None => Ok(()),
        Some(TextKind::Trace) => writeln!(
            writer,
            "pie: the record is one of a trace; pie {command} reads a history, which pie run {name} writes"
        ),
        Some(TextKind::History | TextKind::WholeHistory) => writeln!(
            writer,
            "pie: the record is one of a history; pie {command} reads a trace"
        ),
    }
}
