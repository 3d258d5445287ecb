//! The reason why a history was not explained to its end.

use pie_record::TraceFault;
use thiserror::Error;

/// The reason why a history was not explained to its end, or not at all (this project's own).
#[derive(Clone, Copy, Debug, PartialEq, Eq, Error)]
pub enum ExplainFault {
    /// The text has this fault, or a device failed, or there was no memory.
    #[error("{0}")]
    Trace(TraceFault),
    /// The event with this number differs from the rules. The chosen events before it are explained.
    #[error("event {event} is not what the rules give there, so it and later events are not explained")]
    Differs {
        /// The number of the event, counted from 1.
        event: u64,
    },
    /// The requested event is before the text, which is an excerpt.
    #[error("event {event} is not in this text, which goes on after event {before}")]
    Earlier {
        /// The requested number.
        event: u64,
        /// The number of events before the text.
        before: u64,
    },
    /// There is no event with this number.
    #[error("there is no event {event}: the history has {events} events")]
    NoEvent {
        /// The requested number.
        event: u64,
        /// The number of events, with those before the text.
        events: u64,
    },
    /// No event is about a packet with this tag.
    #[error("no packet has the tag {tag}")]
    NoTag {
        /// The requested tag.
        tag: u64,
    },
    /// No chosen event has its moment within the bounds.
    #[error("no chosen event is at the moments that are wanted")]
    NoneWithin,
}
