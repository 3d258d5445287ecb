//! Rows that are written: of a running queue, of its flows and of its packets.
ghost use Rattle.std.specs.Prelude.{◌≡◌, ◌++◌, ◌∷◌, [], IfOk, IfSome, OnOk, decimal};
ghost use Rattle.csv.specs.Records.{fields_of, partial_of};
ghost use Rattle.pie_record.specs.Text.{text_of};
ghost use Rattle.pie_linux_history.specs.Cuts.{family_of, field_by, row_of, word_of};

use crate::columns::{COUNT, Columns, FAMILY, FLOW, TYPE};
use crate::difference::numbers_of;
use crate::step::{Kind, Step};
use csv::{ByteRecord, WriterBuilder};
use itoa::Buffer;
use pie_record::Page;
use std::alloc::{AllocError, Global};

/// Returns the word of the column `type`.
fn word_of(kind: Kind) -> &'static str
    ensures { result.now ≡ word_of kind }
{
    match kind {
        Kind::Flow => "flow",
        Kind::Wait => "wait",
        _ => "resume",
    }
}

/// Returns the word of the column `kind`.
fn family_of(has_flows: bool) -> &'static str
    ensures { result.now ≡ family_of has_flows }
{
    if has_flows { "fq_pie" } else { "pie" }
}

/// Adds a number to a row.
fn push_number(row: &mut ByteRecord, number: u64) -> Result<(), AllocError>
    requires { partial_of row.old ≡ [] }
    ensures fields { OnOk result (fields_of row.new ≡ fields_of row.old ++ decimal number ∷ []) }
    ensures partial { OnOk result (partial_of row.new ≡ []) }
{
    let mut digits = Buffer::new();
    row.push_field(digits.format(number).as_bytes())
}

/// Adds the field of a column of a step with these numbers, `None` for a column that is not read.
fn push_field(
    row: &mut ByteRecord,
    name: &[u8],
    step: &Step,
    numbers: &[u64],
    column: Option<usize>,
) -> Result<(), AllocError>
    requires { partial_of row.old ≡ [] }
    ensures fields { OnOk result (fields_of row.new ≡ fields_of row.old ++ field_by name.now step.now numbers.now column ∷ []) }
    ensures partial { OnOk result (partial_of row.new ≡ []) }
{
    match (column, step.flow) {
        (Some(COUNT), _) => row.push_field(name),
        (Some(TYPE), _) => row.push_field(word_of(step.kind).as_bytes()),
        (Some(FAMILY), _) => row.push_field(family_of(step.has_flows).as_bytes()),
        (Some(FLOW), None) => row.push_field(b"-1"),
        (Some(FLOW), Some(flow)) => push_number(row, u64::from(flow)),
        (Some(column), _) => push_number(row, numbers.get(column).copied().unwrap_or(0)),
        (None, _) => row.push_field(b"0"),
    }
}

/// Returns the row of a step of the queue with this name: `resume`, `flow` or `wait`. Columns that such a row lacks are 0.
fn row_of(
    alloc: Global,
    columns: &Columns,
    name: &[u8],
    step: &Step,
) -> Result<ByteRecord, AllocError>
    ensures { IfOk result (λ row. fields_of row ≡ row_of columns.now name.now step.now) }
{
    let numbers = numbers_of(step);
    let mut row = ByteRecord::new(alloc);
    for place in 0..columns.count() {
        push_field(&mut row, name, step, &numbers, columns.column_at(place))?;
    }
    Ok(row)
}

/// Returns the text of a row.
fn text_of(alloc: Global, row: &ByteRecord) -> Option<Vec<u8>>
    ensures { IfSome result (λ text. text.items ≡ text_of (fields_of row.now)) }
{
    let mut writer = WriterBuilder::new()
        .flexible(true)
        .from_writer(Vec::new(alloc));
    match writer.write_byte_record(row) {
        Ok(()) => {}
        Err(_) => return None,
    }
    match writer.into_inner() {
        Ok(text) => Some(text),
        Err(_) => None,
    }
}

/// Returns the text of a field of CSV, with a line feed.
pub(crate) fn field_text(alloc: Global, field: &[u8]) -> Result<Vec<u8>, AllocError> {
    let mut row = ByteRecord::new(alloc);
    row.push_field(field)?;
    text_of(alloc, &row).ok_or(AllocError)
}

/// Adds the row of a step of the queue with this name to a page.
pub(crate) fn write_step(
    columns: &Columns,
    name: &[u8],
    step: &Step,
    page: &mut Page,
) -> Result<(), AllocError>
    ensures { OnOk result (page.new ≡ page.old ++ text_of (row_of columns.now name.now step.now)) }
{
    let alloc = page.allocator();
    let row = row_of(alloc, columns, name, step)?;
    match text_of(alloc, &row) {
        Some(text) => page.push(&text),
        None => Err(AllocError),
    }
}
