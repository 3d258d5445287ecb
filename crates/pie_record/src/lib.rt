//! Records of traces and histories: their definition, their reading, their faults and their text. Running, auditing, explaining and migrating use
//! this crate.
//!
//! The definitions that the contracts cite are in `specs/`: the records of a text (`records_of`), the opening of its first record, the request of a
//! trace record, the line of a history record, and the text of records. An event's record is a command's record with its answer, so one reader reads
//! the command of both (`command_at`).
//!
//! `Records` reads one record after another from any reader, and `HistoryLines` the opening and the lines of a history. Both use
//! memory for one record and one page. A reader never returns `Write` (clause `input`).
//!
//! Crates above use these definitions through the laws in `law`: `answers_are_read_back`, `requests_are_written_again`, `texts_are_read_back`,
//! `openings_are_checked`.
//!
//! Records are written as plain bytes: the opening, an event, a refusal, a fold, the registers, the statistics and
//! the clock, each built in a `RowBuffer`. The bytes are the text that the definitions give.
//!
//! A `RowBuffer` is filled from its last field to its first, a `LongRow` from its first to its last. Neither allocates
//! memory. A `Page` contains the bytes and words that were added to it, in their order, until they are written out.
//!
//! `write_history`: the output is the opening's record and a record for each event (clause `written`), and it is
//! read back as this opening and these events (`read_back`).
#![tactic(auto)]

mod block;
mod clock;
pub mod code;
mod command;
mod event;
mod fault;
pub mod field;
pub mod first_record;
mod history_reader;
mod history_record;
mod input;
pub mod law;
mod long_row;
mod note;
pub mod number;
mod number_ranges;
mod opening;
mod page;
mod put_field;
mod record;
mod records;
mod row_buffer;
mod scan;
mod trace_record;
mod version;
pub mod words;
mod write;

pub use clock::Clock;
pub use command::BadChange;
pub use event::{
    put_arrival, put_empty, put_event, put_event_end, put_left, put_params, put_reset, put_update,
};
pub use fault::{ExcerptFault, OpenFault, RecordFault, TraceFault, after_flush};
pub use history_reader::HistoryLines;
pub use history_record::{Line, line_of};
pub use long_row::{LongRow, push_numbers};
pub use note::{put_clock, put_folded, put_lost, put_refused, put_shown, put_tallied};
pub use opening::{put_chosen, put_opening};
pub use page::Page;
pub use put_field::{put_ecn, put_last, put_number};
pub use record::Record;
pub use records::{MAX_RECORDS, Records};
pub use row_buffer::RowBuffer;
pub use trace_record::{Request, request_of};
pub use version::Version;
pub use write::write_history;
