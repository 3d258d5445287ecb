//! Refusals of openings, commands and folds.
//! Refusals to resume a core from numbers and packets.
use crate::registers::Register;
use thiserror::Error;

/// The reason why a book is not opened (this project's own). The reasons are tested in this order.
#[derive(Clone, Copy, Debug, PartialEq, Eq, Error)]
pub enum OpenRefusal {
    /// A limit is out of its range.
    #[error("limits out of range")]
    BadLimits,
    /// The opening moment is above `2^60 - 1`.
    #[error("moment out of range")]
    Moment,
    /// There is no memory for the queue and the event log.
    #[error("out of memory")]
    Memory,
}

/// The reason why a command is refused (this project's own). The book is unchanged. The reasons are tested in this
/// order.
#[derive(Clone, Copy, Debug, PartialEq, Eq, Error)]
pub enum Refusal {
    /// The caller's moment is above `2^60 - 1`.
    #[error("moment out of range")]
    Moment,
    /// The arriving packet's size is outside 1 to 65535 bytes.
    #[error("packet size out of range")]
    Size,
    /// The update's effective moment is before the due moment.
    #[error("the update is due at {due}")]
    TooSoon {
        /// The sum of `t_update` and the moment of the last update, or of the opening, in nanoseconds.
        due: u64,
    },
    /// The book has recorded the greatest number of events that its limits allow.
    #[error("no more events")]
    Exhausted,
    /// The event log of a bounded book holds the greatest number of events that its limits allow.
    #[error("the tail is full")]
    HistoryFull,
}

/// The reason why a fold is refused (this project's own). The book is unchanged. The reasons are tested in this order.
#[derive(Clone, Copy, Debug, PartialEq, Eq, Error)]
pub enum FoldRefusal {
    /// The event log holds fewer events than requested.
    #[error("the tail holds {held} events")]
    TooMany {
        /// The number of events in the event log.
        held: u64,
    },
    /// There is no memory for the list of folded events.
    #[error("out of memory")]
    Memory,
}

/// The excerpt has less room than a book with these limits may need (this project's own). Nothing was copied.
#[derive(Clone, Copy, Debug, PartialEq, Eq, Error)]
#[error("the excerpt has too little room")]
pub struct TooSmall;

/// The reason why no core resumes from these numbers (this project's own). The reasons are tested in this order.
#[derive(Clone, Copy, Debug, PartialEq, Eq, thiserror::Error)]
pub enum ResumeRefusal {
    /// A limit is out of its range.
    #[error("limits out of range")]
    BadLimits,
    /// The number of events is above the limit.
    #[error("more events than the limits allow")]
    Count,
    /// The number of waiting packets is above the capacity of the ring.
    #[error("more packets than the ring holds")]
    Packets,
    /// More than `2^30` bytes are in the queue.
    #[error("more bytes than a queue holds")]
    Bytes,
    /// No controller can hold this number.
    #[error("a number that no controller holds")]
    Unsound(Register),
    /// A statistic is greater than the number of events permits.
    #[error("statistics out of range")]
    Statistics,
    /// There is no memory for the queue.
    #[error("out of memory")]
    Memory,
}

/// The reason why a packet cannot be the next waiting packet (this project's own). Nothing has changed. The reasons are
/// tested in this order.
#[derive(Clone, Copy, Debug, PartialEq, Eq, thiserror::Error)]
pub enum QueueRefusal {
    /// All waiting packets have been supplied already.
    #[error("more packets than were announced")]
    TooMany,
    /// The packet's size is outside 1 to 65535 bytes.
    #[error("packet size out of range")]
    Size,
    /// With this packet the sum of the sizes is above the bytes in the queue.
    #[error("more bytes than were announced")]
    TooManyBytes,
    /// The packet arrived after the effective moment.
    #[error("a packet that arrives later")]
    Moment,
    /// The packet arrived before the packet supplied before it.
    #[error("a packet that arrived before its predecessor")]
    Order,
}

/// The reason why the supplied packets are incomplete (this project's own). The reasons are tested in this order.
#[derive(Clone, Copy, Debug, PartialEq, Eq, thiserror::Error)]
pub enum EndRefusal {
    /// There are fewer packets than the queue holds.
    #[error("fewer packets than were announced")]
    Missing,
    /// There are fewer bytes than the queue holds.
    #[error("fewer bytes than were announced")]
    MissingBytes,
}
