//! The cause of a text's fault (this project's own): the line and the field of the file, and what is allowed there.
//!
//! `find_cause` reads a text again, up to the record of its fault. One walk over the table of records (table.rt)
//! finds its problem: a kind, a number of fields, or the first field that is not allowed. If the table allows the
//! record, bounds.rt finds the first number that another number bounds. `write_cause` writes the lines that
//! describe the cause.
//!
//! Both are proved safe and total. tests/program/damaged_texts.py compares their lines with those of an independent
//! reader, and tests/documents/records.py compares the table with docs/FORMATS.md.

mod bounds;
mod cause;
mod field;
mod hint;
mod keywords;
mod line_finder;
mod message;
mod queue;
mod quoted;
mod table;
mod text;
mod walk;

pub use cause::{Cause, find_cause};
pub use message::write_cause;
pub use table::{queued_field_name, resume_field_name};
pub use text::TextKind;
