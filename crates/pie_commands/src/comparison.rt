//! The comparison of a history with its control and with the other history of `pie what-if`, by the numbers of their
//! summaries.

use crate::call::Call;
use crate::explain::explain_by;
use crate::files::Output;
use crate::json::JsonWriter;
use crate::line::Part::{Number, Text, Wide};
use crate::line::{put_parts, write_parts};
use itoa::Buffer;
use pie_explain::{EventChoice, ExplainFault, Form, Selection, SummariesOnly};
use pie_trace::{Omitted, TraceFault};
use std::alloc::Global;
use std::io;

/// The first line of a comparison.
pub(crate) const NO_REACTION: &str =
    "senders do not react: each packet arrives, and the link is ready, at the moments of the history";

/// The fields of a summary that are times, in nanoseconds.
const TIMES: &str =
    "first_moment last_moment greatest_wait mean_wait greatest_delay last_delay first_turned_on \
last_turned_on first_turned_off last_turned_off wait_99 last_target last_burst_allowance time_above_target time_waited_above_target";

/// The fields of a summary that are probabilities, in units of `10^-12`.
const PROBABILITIES: &str = "greatest_probability last_probability";

/// The text in words after the line with the events that are compared.
const MEANINGS: &str = "
control: their commands after a record params with the unchanged parameters
other: their commands after this record with the parameters of the options
difference: other - control, the effect of the parameters
field                              recorded           control             other         difference
";

/// A column of a comparison: the events of `text` after the event with the number `after`. The text omits commands of
/// the history.
#[derive(Clone, Copy)]
pub(crate) struct Column<'a> {
    pub(crate) text: &'a [u8],
    pub(crate) after: u64,
    pub(crate) omitted: Omitted,
}

/// The form of a comparison.
#[derive(Clone, Copy)]
pub(crate) enum Table {
    Words,
    Csv,
    Json,
}

/// The texts around the name and the numbers of a field, as an object of JSON.
const JSON: [&str; 6] = [
    "{\"field\":\"",
    "\",\"recorded\":",
    ",\"control\":",
    ",\"other\":",
    ",\"difference\":",
    "}\n",
];

/// Returns the fault of a text whose output is collected in memory: a failed write is a lack of memory.
pub(crate) fn fault_in_memory(why: TraceFault) -> TraceFault {
    match why {
        TraceFault::Write => TraceFault::Memory,
        _ => why,
    }
}

/// Adds the summary of the events of a column to a text, as two lines of CSV: a header and a record. Nothing is written to
/// `output`.
fn add_summary(
    call: &Call<'_, '_>,
    column: &Column<'_>,
    output: &mut Output,
    summaries: &mut Vec<u8>,
) -> Result<(), ExplainFault> {
    let mut written = JsonWriter::new(call.alloc, output, false, usize::MAX);
    let selection = Selection::of(EventChoice::After(column.after));
    let form = Form {
        csv: true,
        by_wall: false,
    };
    let sums = SummariesOnly {
        form,
        every: None,
        style: None,
    };
    let reader = call.reader_of(column.text);
    let outcome = explain_by(call.alloc, reader, &mut written, selection, sums);
    let written = written.into_withheld();
    let is_added = summaries.extend_from_slice(&written).is_ok();
    match outcome {
        Ok(_) if is_added => Ok(()),
        Ok(_) => Err(ExplainFault::Trace(TraceFault::Memory)),
        Err(ExplainFault::Trace(why)) => Err(ExplainFault::Trace(fault_in_memory(why))),
        Err(why) => Err(why),
    }
}

/// Returns true if the text has this word.
fn has_word(text: &str, word: &str) -> bool {
    text.split(' ').any(|known| known == word)
}

/// Adds spaces to a page: as many as a text of this length lacks in a column of this width.
fn pad(page: &mut Vec<u8>, length: usize, width: usize) -> io::Result<()> {
    for _ in length..width {
        page.push(b' ')?;
    }
    Ok(())
}

/// Adds a cell after a space, at the end of a column of this width: a number with this sign, as a time in milliseconds, a
/// probability in per cent, rounded down, or a count, by the name of its field.
fn add_cell(
    alloc: Global,
    page: &mut Vec<u8>,
    name: &str,
    sign: &str,
    number: u128,
    width: usize,
) -> io::Result<()> {
    // (the decimals follow a 1)
    let (scale, decimals, unit) = if has_word(TIMES, name) {
        (1_000_000, 1_000_000 + number % 1_000_000, " ms")
    } else if has_word(PROBABILITIES, name) {
        (
            10_000_000_000,
            10_000 + number % 10_000_000_000 / 1_000_000,
            " %",
        )
    } else {
        (1, 1, "")
    };
    let mut digits = Buffer::new();
    let decimals = digits.format(decimals).as_bytes();
    let mut cell = Vec::new(alloc);
    write_parts(&mut cell, &[Text(sign), Wide(number / scale)])?;
    if decimals.len() > 1 {
        cell.push(b'.')?;
        cell.extend_from_slice(&decimals[1..])?;
    }
    cell.extend_from_slice(unit.as_bytes())?;
    page.push(b' ')?;
    pad(page, cell.len(), width)?;
    page.extend_from_slice(&cell)?;
    Ok(())
}

/// Adds the line of a field: its name, its numbers (recorded, control, other), and the difference of the other history and
/// the control. In words there is no line if all numbers are 0.
fn add_line(
    alloc: Global,
    page: &mut Vec<u8>,
    table: Table,
    name: &str,
    numbers: [u128; 3],
) -> io::Result<()> {
    let [recorded, control, other] = numbers;
    let difference = control.abs_diff(other);
    let minus = if other < control { "-" } else { "" };
    let plus = if control < other { "+" } else { minus };
    let (texts, sign) = match table {
        Table::Words => {
            if recorded == 0 && control == 0 && other == 0 {
                return Ok(());
            }
            page.extend_from_slice(name.as_bytes())?;
            pad(page, name.len(), 25)?;
            for number in numbers {
                add_cell(alloc, page, name, "", number, 17)?;
            }
            add_cell(alloc, page, name, plus, difference, 18)?;
            return Ok(page.push(b'\n')?);
        }
        Table::Csv => (["", ",", ",", ",", ",", "\n"], plus),
        Table::Json => (JSON, minus),
    };
    let [begin, first, second, third, fourth, end] = texts;
    put_parts! { page;
        Text(begin), Text(name), Text(first), Wide(recorded), Text(second), Wide(control), Text(third), Wide(other),
        Text(fourth), Text(sign), Wide(difference), Text(end)
    }
}

/// Adds the head of a comparison: in words its assumption and the meaning of each column. `before` is the number of
/// events that all columns leave out.
fn add_head(page: &mut Vec<u8>, table: Table, before: u64) -> io::Result<()> {
    match table {
        Table::Words => {
            put_parts! { page;
                Text(NO_REACTION), Text("\nrecorded: the events of the history after event "), Number(before),
                Text(MEANINGS)
            }
        }
        Table::Csv => write_parts(page, &[Text("field,recorded,control,other,difference\n")]),
        Table::Json => Ok(()),
    }
}

/// Adds the lines for the commands of each kind that the histories omit.
fn add_omitted(
    alloc: Global,
    page: &mut Vec<u8>,
    table: Table,
    control: Omitted,
    other: Omitted,
) -> io::Result<()> {
    let kinds = [
        ("omitted_arrivals", control.arrivals, other.arrivals),
        ("omitted_departures", control.departures, other.departures),
        ("omitted_updates", control.updates, other.updates),
        ("omitted_resets", control.resets, other.resets),
        ("omitted_params", control.changes, other.changes),
    ];
    for (name, control, other) in kinds {
        let numbers = [0, u128::from(control), u128::from(other)];
        add_line(alloc, page, table, name, numbers)?;
    }
    Ok(())
}

/// Returns the number in a field. A field without a number is 0.
fn number_of(field: Option<&str>) -> u128 {
    field.unwrap_or("").parse().unwrap_or(0)
}

/// Adds the lines of all fields of the summaries, a header and a record for each column. Returns the targets at the end.
fn add_fields(
    alloc: Global,
    page: &mut Vec<u8>,
    table: Table,
    summaries: &[u8],
) -> io::Result<[u128; 3]> {
    let text = std::str::from_utf8(summaries).unwrap_or("");
    let mut lines = text.split('\n');
    let names = lines.next().unwrap_or("");
    let mut recorded = lines.next().unwrap_or("").split(',');
    let mut control = lines.nth(1).unwrap_or("").split(',');
    let mut other = lines.nth(1).unwrap_or("").split(',');
    let mut targets = [0; 3];
    for name in names.split(',') {
        let numbers = [
            number_of(recorded.next()),
            number_of(control.next()),
            number_of(other.next()),
        ];
        if name == "last_target" {
            targets = numbers;
        }
        add_line(alloc, page, table, name, numbers)?;
    }
    Ok(targets)
}

/// Writes the text of a comparison of these columns to `page`: the history as it was recorded, the control, and the other
/// history. Nothing is written to `output`.
///
/// # Errors
///
/// Returns the fault of an explanation; `Trace` with `Memory` if memory is short.
pub(crate) fn comparison(
    call: &Call<'_, '_>,
    columns: [Column<'_>; 3],
    table: Table,
    output: &mut Output,
    page: &mut Vec<u8>,
) -> Result<(), ExplainFault> {
    let mut summaries = Vec::new(call.alloc);
    let mut outcome = Ok(());
    for column in &columns {
        if outcome.is_ok() {
            outcome = add_summary(call, column, output, &mut summaries);
        }
    }
    let is_written = outcome.is_ok()
        && write_page(call.alloc, page, table, &summaries, &columns).is_ok();
    match outcome {
        Ok(()) if !is_written => Err(ExplainFault::Trace(TraceFault::Memory)),
        _ => outcome,
    }
}

/// Writes a comparison of these summaries.
fn write_page(
    alloc: Global,
    page: &mut Vec<u8>,
    table: Table,
    summaries: &[u8],
    columns: &[Column<'_>; 3],
) -> io::Result<()> {
    let [recorded, control, other] = *columns;
    add_head(page, table, recorded.after)?;
    let targets = add_fields(alloc, page, table, summaries)?;
    add_omitted(alloc, page, table, control.omitted, other.omitted)?;
    if matches!(table, Table::Words) {
        let leads = [
            "above_target: above the target of the column, at its end",
            ",",
            " and",
        ];
        for place in 0..3 {
            page.extend_from_slice(leads[place].as_bytes())?;
            add_cell(alloc, page, "last_target", "", targets[place], 0)?;
        }
        page.push(b'\n')?;
    }
    Ok(())
}
