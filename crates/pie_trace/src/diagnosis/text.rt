//! The kinds of texts, and the places of records in them.

use pie_record::Version;

/// The kind of a text that a subcommand reads.
#[derive(Clone, Copy, PartialEq, Eq)]
pub enum TextKind {
    /// A trace, or an excerpt with the records of a trace.
    Trace,
    /// A history, or an excerpt.
    History,
    /// A history, and no excerpt.
    WholeHistory,
}

impl TextKind {
    /// Returns the other kind of text.
    pub(crate) fn other(self) -> TextKind {
        match self {
            TextKind::Trace => TextKind::History,
            TextKind::History | TextKind::WholeHistory => TextKind::Trace,
        }
    }
}

/// The place of a record in a text.
#[derive(Clone, Copy)]
pub(crate) enum Place {
    /// The first record.
    First(TextKind),
    /// A record of a packet, after the first record of an excerpt.
    Preamble,
    /// A record after the first, or after a preamble.
    Later(TextKind, Version),
}
