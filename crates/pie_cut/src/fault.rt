//! The reason why no excerpt was written, or not all of it.

use pie_record::TraceFault;
use thiserror::Error;

/// The result of writing rows.
pub(crate) type Written = Result<(), TraceFault>;

/// The reason why no excerpt was written, or not all of it (this project's own).
#[derive(Clone, Copy, Debug, PartialEq, Eq, Error)]
pub enum CutFault {
    /// The text has this fault, or a device failed, or there was no memory.
    #[error("{0}")]
    Trace(TraceFault),
    /// The event with this number differs from the rules, and it is not after the last selected event. If the excerpt had begun, this event is the
    /// last that was written.
    #[error("event {event} is not what the rules give there, so what comes after it is not cut")]
    Differs {
        /// The number of the event, counted from 1.
        event: u64,
    },
    /// No event of the text has a selected number and effective moment.
    #[error("no event of the text is selected")]
    NoEvents,
}
