//! The first problem of a record, by the table of records.

use crate::diagnosis::field::Allowed;
use crate::diagnosis::quoted::Quoted;
use crate::diagnosis::table::{FORMS, Shape};
use crate::diagnosis::text::Place;
use pie_record::Record;
use pie_record::field::has_word;

/// The field that causes a fault.
#[derive(Clone, Copy)]
pub(crate) struct FieldCause {
    /// The place of the field in its record, counted from 0.
    pub(crate) place: usize,
    /// The name of the field.
    pub(crate) name: &'static str,
    /// The content of the field.
    pub(crate) value: Quoted,
    /// The allowed content.
    pub(crate) allowed: Allowed,
}

/// The problem of a record.
#[derive(Clone, Copy)]
pub(crate) enum Problem {
    /// A field.
    Field(FieldCause),
    /// The number of fields.
    Count {
        /// The place of the record in the text.
        place: Place,
        /// The keyword of its kind.
        kind: &'static [u8],
        /// The number of fields that the record has.
        count: usize,
    },
}

impl Problem {
    /// Returns the problem of a field that is not one of the allowed contents.
    pub(crate) fn of_field(
        row: &Record,
        place: usize,
        name: &'static str,
        allowed: Allowed,
    ) -> Problem {
        Problem::Field(FieldCause {
            place,
            name,
            value: Quoted::of(row, place),
            allowed,
        })
    }
}

/// Returns the shape of a record at this place: the one of its kind and its number of fields.
pub(crate) fn shape_of(place: Place, row: &Record) -> Result<Shape, Problem> {
    let mut known = None;
    for number in 0..FORMS.len() {
        match FORMS[number].at(place) {
            Some(shape) if has_word(row, 0, shape.kind) => {
                if shape.len() == row.len() {
                    return Ok(shape);
                }
                known = Some(shape.kind);
            }
            _ => {}
        }
    }
    match known {
        Some(kind) => Err(Problem::Count {
            place,
            kind,
            count: row.len(),
        }),
        None => Err(Problem::of_field(row, 0, "kind", Allowed::Kinds(place))),
    }
}

/// Returns the problem of the first field, from left to right, that the shape of the record does not allow.
fn field_problem(shape: Shape, row: &Record) -> Option<Problem> {
    for place in 1..row.len() {
        let field = shape.field(place)?;
        let allowed = field.allowed(row, place);
        if !allowed.accepts(row, place) {
            return Some(Problem::of_field(row, place, field.name(), allowed));
        }
    }
    None
}

/// Returns the first problem of a record at this place: its kind, its number of fields, or the first field that is not
/// allowed. `None` if the table allows the record.
pub(crate) fn problem_of(place: Place, row: &Record) -> Option<Problem> {
    match shape_of(place, row) {
        Ok(shape) => field_problem(shape, row),
        Err(problem) => Some(problem),
    }
}
