//! The line after a fault of recorded steps of Linux: the field that causes it.

use crate::call::Call;
use crate::line::Part::{Ascii, Number, Text, Word};
use crate::line::say_parts;
use crate::steps::audit_steps;
use pie_linux_history::StepsFault;
use pie_record::{Record, Records, TraceFault};
use std::alloc::AllocError;

/// The words of the column `type`.
const TYPES: &str =
    "enq, deq, calc, timer, wait, flow, init, resume, change, reset, destroy, empty";

/// The first row of a text, and the row of its fault.
#[derive(Drop)]
struct Rows {
    names: Record,
    fields: Record,
}

/// Reads the text in the file `name` again, up to the row with this number. `None` if there is none, or if it can't be read.
fn rows_at(call: &Call<'_, '_>, name: &str, number: u64) -> Option<Rows> {
    let mut records = Records::new(call.alloc, call.open_again(name)?);
    let (mut names, mut fields) = (Record::new(call.alloc), Record::new(call.alloc));
    let mut is_read = records.first(&mut names).is_ok() && number > 1;
    for _ in 1..number {
        is_read = is_read && matches!(records.next(&mut fields), Ok(true));
        if !is_read {
            break;
        }
    }
    if is_read {
        Some(Rows { names, fields })
    } else {
        None
    }
}

impl Rows {
    /// Returns true if the column at this place has the name.
    fn is_column(&self, place: usize, name: &[u8]) -> bool {
        matches!(self.names.get(place), Some(column) if column == name)
    }

    /// Adds the fields of the row up to `place` to a text. A column of words is added at any place; otherwise the fields from
    /// `place` on are empty.
    fn add_fields(&self, text: &mut Vec<u8>, place: usize) -> Result<(), AllocError> {
        for at in 0..self.fields.len() {
            let is_word = self.is_column(at, b"type") || self.is_column(at, b"kind");
            if at > 0 {
                text.push(b',')?;
            }
            if at < place || is_word {
                let field = self.fields.get(at).unwrap_or(&[]);
                let is_plain = field
                    .iter()
                    .all(|byte| !matches!(*byte, b',' | b'"' | b'\r' | b'\n'));
                text.extend_from_slice(if is_plain { field } else { b"?" })?;
            }
        }
        Ok(text.push(b'\n')?)
    }

    /// Adds the first row to a text, and the row with empty fields from `place` on.
    fn add_rows(&self, text: &mut Vec<u8>, place: usize) -> Result<(), AllocError> {
        for at in 0..self.names.len() {
            if at > 0 {
                text.push(b',')?;
            }
            text.extend_from_slice(self.names.get(at).unwrap_or(&[]))?;
        }
        text.push(b'\n')?;
        self.add_fields(text, place)
    }

    /// Returns the place of the first field whose number is not allowed: an audit of the fields up to it has a fault of a number.
    fn bad_number(&self, call: &Call<'_, '_>) -> Option<usize> {
        for place in 0..self.fields.len() {
            let mut text = Vec::new(call.alloc);
            if self.add_rows(&mut text, place + 1).is_err() {
                return None;
            }
            let found = audit_steps(call.alloc, call.reader_of(&text), None).finding;
            if matches!(found, Err(StepsFault::Trace(TraceFault::Number { .. }))) {
                return Some(place);
            }
        }
        None
    }

    /// Returns the place of the first field whose word is not allowed.
    fn bad_word(&self) -> Option<usize> {
        let is_known = |field: &[u8]| TYPES.split(", ").any(|word| word.as_bytes() == field);
        for place in 0..self.fields.len() {
            let field = self.fields.get(place).unwrap_or(&[]);
            let is_bad = (self.is_column(place, b"type") && !is_known(field))
                || (self.is_column(place, b"kind") && !matches!(field, b"pie" | b"fq_pie"));
            if is_bad {
                return Some(place);
            }
        }
        None
    }
}

/// Returns the contents that are allowed in the place of this field of a column of numbers.
fn allowed_for(column: &[u8], field: &[u8]) -> &'static str {
    if matches!(column, b"proto" | b"l3") {
        return " is a number of at most four hexadecimal digits";
    }
    if field.is_empty() || !field.iter().all(u8::is_ascii_digit) {
        return " is a decimal number";
    }
    if field.starts_with(b"0") {
        " is a number without leading zeros"
    } else {
        " is a smaller number"
    }
}

/// Writes the line about a row with a wrong number of fields.
fn report_count(call: &Call<'_, '_>, rows: &Rows, row: u64, name: &str) {
    let (what, all) = match rows.fields.get(0) {
        Some(b"lost") => ("lost", 3),
        _ => ("the first row", rows.names.len()),
    };
    say_parts! { call.errors;
        Text("record "), Number(row), Text(" of "), Word(name), Text(": "), Number(rows.fields.len() as u64),
        Text(" fields; "), Text(what), Text(" has "), Number(all as u64)
    };
}

/// Writes the line about a field that is not allowed. `is_word` is true for a column of words.
fn report_place<'r>(
    call: &Call<'_, '_>,
    rows: &'r Rows,
    row: u64,
    place: usize,
    is_word: bool,
    name: &'r str,
) {
    let column = rows.names.get(place).unwrap_or(&[]);
    let field = rows.fields.get(place).unwrap_or(&[]);
    let (verb, allowed) = match (is_word, column) {
        (true, b"type") => (" are ", TYPES),
        (true, _) => (" are ", "pie, fq_pie"),
        (false, _) => ("", allowed_for(column, field)),
    };
    say_parts! { call.errors;
        Text("record "), Number(row), Text(" of "), Word(name), Text(", field "), Number((place as u64).saturating_add(1)),
        Text(" ("), Ascii(column), Text("): \""), Ascii(field), Text("\"; allowed"), Text(verb), Text(allowed)
    };
}

/// Reads the text in the file `name` again, and writes a line with the field that causes the fault `why`. Returns false if the
/// field is not found; nothing is written then.
pub(crate) fn report_field(call: &Call<'_, '_>, name: &str, why: TraceFault) -> bool {
    let (TraceFault::Fields { row } | TraceFault::Number { row } | TraceFault::Word { row }) = why
    else {
        return false;
    };
    let Some(rows) = rows_at(call, name, row) else {
        return false;
    };
    let (place, is_word) = match why {
        TraceFault::Fields { .. } => {
            report_count(call, &rows, row, name);
            return true;
        }
        TraceFault::Word { .. } => (rows.bad_word(), true),
        _ => (rows.bad_number(call), false),
    };
    match place {
        Some(place) => {
            report_place(call, &rows, row, place, is_word, name);
            true
        }
        None => false,
    }
}
