//! The cause of a fault in a text, which is read again up to the fault's record.

use crate::diagnosis::bounds::bound_problem;
use crate::diagnosis::hint::Hint;
use crate::diagnosis::line_finder::locate;
use crate::diagnosis::queue::Queue;
use crate::diagnosis::text::{Place, TextKind};
use crate::diagnosis::walk::{Problem, problem_of, shape_of};
use pie_record::field::has_word;
use pie_record::first_record::version_of;
use pie_record::{Record, Records, TraceFault, Version};
use std::alloc::Global;
use std::io::Read;

/// The reason for a fault.
#[derive(Clone, Copy)]
pub(crate) enum Reason {
    /// A record.
    Record(Problem),
    /// The whole file.
    File(Hint),
}

/// The cause of a fault.
#[derive(Clone, Copy)]
pub struct Cause {
    /// The number of the line in which the record begins, counted from 1. 1 if the reason is the whole file.
    pub(crate) line: u64,
    /// The reason.
    pub(crate) reason: Reason,
    /// The kind of text in which the record would be correct, if it is another kind.
    pub(crate) other: Option<TextKind>,
}

/// Returns the number of the record that a fault names. `None` if the fault names none.
fn record_of(why: TraceFault) -> Option<u64> {
    match why {
        TraceFault::NoOpen | TraceFault::Opening(_) => Some(1),
        TraceFault::Kind { row }
        | TraceFault::Fields { row }
        | TraceFault::Number { row }
        | TraceFault::Word { row }
        | TraceFault::Excerpt { row, .. } => Some(row),
        TraceFault::Read | TraceFault::Write | TraceFault::Memory | TraceFault::TooLong => None,
    }
}

/// Returns the cause of the fault `why` that a text of this kind has (this project's own). `reader` and `again` both
/// read the text from its beginning: the one for its records, the other for its lines. `None` if the fault names no
/// record, if the text has no such fault, or if it can't be read again.
pub fn find_cause<R: Read + Drop>(
    alloc: Global,
    kind: TextKind,
    why: TraceFault,
    reader: R,
    again: R,
) -> Option<Cause> {
    let mut lines = again;
    let number = record_of(why)?;
    let located = locate(&mut lines, number.saturating_sub(1)).ok()?;
    if let TraceFault::NoOpen = why {
        if let Some(hint) = Hint::of(&located) {
            return Some(Cause {
                line: 1,
                reason: Reason::File(hint),
                other: None,
            });
        }
    }
    let mut records = Records::new(alloc, reader);
    let mut first = Record::new(alloc);
    if !read_record(&mut records, &mut first) {
        return None;
    }
    let line = located.line?;
    let (problem, other) = if number == 1 {
        (first_problem(alloc, kind, &first, &mut records)?, None)
    } else {
        later_problem(alloc, kind, number, &first, &mut records)?
    };
    Some(Cause {
        line,
        reason: Reason::Record(problem),
        other,
    })
}

/// Reads the next record. Returns true if there was one.
fn read_record<R: Read>(records: &mut Records<R>, row: &mut Record) -> bool {
    matches!(records.next(row), Ok(true))
}

/// Returns the problem of the first record, after which these records come.
fn first_problem<R: Read>(
    alloc: Global,
    kind: TextKind,
    first: &Record,
    records: &mut Records<R>,
) -> Option<Problem> {
    let place = Place::First(kind);
    if let Some(problem) = problem_of(place, first) {
        return Some(problem);
    }
    let shape = shape_of(place, first).ok()?;
    let problem = bound_problem(first, shape);
    let mut row = Record::new(alloc);
    let mut queue = Queue::after(first);
    for _ in 0..u64::MAX {
        if !queue.is_open() || !read_record(records, &mut row) || !has_word(&row, 0, b"queued") {
            break;
        }
        queue.add(&row);
    }
    queue.problem_of_end(first, shape, problem)
}

/// Returns the problem of the record with this number, and the other kind of text in which it is correct. The first
/// record was read.
fn later_problem<R: Read>(
    alloc: Global,
    kind: TextKind,
    number: u64,
    first: &Record,
    records: &mut Records<R>,
) -> Option<(Problem, Option<TextKind>)> {
    let mut row = Record::new(alloc);
    let mut queue = Queue::after(first);
    for _ in 2..number {
        if !read_record(records, &mut row) {
            return None;
        }
        if queue.is_open() {
            queue.add(&row);
        }
    }
    if !read_record(records, &mut row) {
        return None;
    }
    if queue.is_open() {
        return Some((queue.problem_of_next(&row)?, None));
    }
    let version = text_version(first);
    let problem = problem_of(Place::Later(kind, version), &row)?;
    Some((problem, other_kind(kind, version, &row)))
}

/// Returns the version of a text with this first record.
fn text_version(first: &Record) -> Version {
    if has_word(first, 0, b"resume") {
        Version::Three
    } else {
        version_of(first)
    }
}

/// Returns the other kind of text, if the record is correct there.
fn other_kind(kind: TextKind, version: Version, row: &Record) -> Option<TextKind> {
    let other = kind.other();
    match problem_of(Place::Later(other, version), row) {
        None => Some(other),
        Some(_) => None,
    }
}
