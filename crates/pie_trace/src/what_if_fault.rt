//! The reason why no other history was written.

use pie_record::TraceFault;
use thiserror::Error;

/// The reason why no other history was written, or not all of it (this project's own).
#[derive(Clone, Copy, Debug, PartialEq, Eq, Error)]
pub enum WhatIfFault {
    /// The text has this fault, or a device failed, or there was no memory.
    #[error("{0}")]
    Trace(TraceFault),
    /// The event with this number differs from the rules.
    #[error("event {event} is not what the rules give there, so the history is not decided again")]
    Differs {
        /// The number of the event, counted from 1.
        event: u64,
    },
    /// No event of the text has the moment or a later one.
    #[error("no event of the text has this moment or a later one")]
    NoEvents,
}
