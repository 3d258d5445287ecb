//! The records of an end and of a beginning that differ, for a message. tests/program/joined.py compares their fields.

use crate::excerpt_writer::resume_with;
use crate::snapshot_equality::UnlikeRecord;
use pie_book::{Core, CoreSnapshot, Opening};
use pie_excerpt::{make_resume, put_queued};
use pie_queue::Waiting;
use pie_record::{LongRow, RowBuffer};

/// The first record of the end of a text that differs from the record of the next text's beginning, and that record
/// (this project's own). The end is written as a beginning: a record `resume`, and a record `queued` for each packet.
/// The event that set the probability is left out.
#[derive(Drop)]
pub enum UnlikeRecords {
    /// The records `resume`.
    Resume {
        /// The record of the end.
        before: LongRow,
        /// The record of the beginning.
        begun: LongRow,
    },
    /// The records `queued` of the packets with this number. The records `resume` and those of older packets are equal.
    Queued {
        /// The number of the packet, 1 for the oldest.
        packet: u64,
        /// The record of the end.
        before: RowBuffer,
        /// The record of the beginning.
        begun: RowBuffer,
    },
}

/// Returns the record `resume` of a state.
fn resume_of(opening: &Opening, snapshot: CoreSnapshot) -> LongRow {
    let mut line = LongRow::new();
    make_resume(&mut line, &resume_with(opening, snapshot, None));
    line
}

/// Returns the record of a queued packet; an empty row if there is none.
fn queued_of(waiting: Option<Waiting>) -> RowBuffer {
    let mut row = RowBuffer::new();
    if let Some(waiting) = waiting {
        put_queued(&mut row, &waiting);
    }
    row
}

/// Returns the records `first` of an end with this opening and core, and of a beginning.
pub(crate) fn unlike_records(
    before: &Opening,
    end: &Core,
    begun: &Opening,
    core: &Core,
    first: UnlikeRecord,
) -> UnlikeRecords {
    match first {
        UnlikeRecord::Resume => UnlikeRecords::Resume {
            before: resume_of(before, end.snapshot()),
            begun: resume_of(begun, core.snapshot()),
        },
        UnlikeRecord::Queued { older } => UnlikeRecords::Queued {
            packet: older.saturating_add(1),
            before: queued_of(end.waiting(older as usize)),
            begun: queued_of(core.waiting(older as usize)),
        },
    }
}
