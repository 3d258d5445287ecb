//! A snapshot of a book.
//! Names of the numbers in a controller's state.
//! The statistics of a book.
use pie_params::Params;

/// A snapshot of a book (this project's own). Each number equals the look-back over the whole history.
#[derive(Clone, Copy, Debug, PartialEq, Eq)]
pub struct Registers {
    /// The number of events.
    pub count: u64,
    /// The effective moment, in nanoseconds: the greatest moment of any command up to now.
    pub moment: u64,
    /// The number of waiting packets.
    pub packets: u64,
    /// The sum of the sizes of the waiting packets, in bytes.
    pub bytes: u64,
    /// The probability of a mark or an early drop, in units of `10^-12` (RFC 8033, section 4.2).
    pub prob: u64,
    /// The old delay: the delay of the last update, in nanoseconds (RFC 8033, section 4.2).
    pub old: u64,
    /// The accumulated probability, in units of `10^-12` (RFC 8033, section 5.4).
    pub accu: u64,
    /// The burst allowance, in nanoseconds (RFC 8033, section 4.4).
    pub burst: u64,
    /// The effective moment of the last update, or the opening moment, in nanoseconds.
    pub last: u64,
    /// The average time in which `dq_threshold` bytes depart, in nanoseconds; 0 without a sample (RFC 8033, section
    /// 5.2).
    pub average: u64,
    /// True while a measurement cycle of the departure rate is open (RFC 8033, section 5.2).
    pub measuring: bool,
    /// The parameters in force.
    pub params: Params,
    /// True if the controller is active: always in profile one (RFC 8033, section 5.3).
    pub active: bool,
}

/// A number of a controller's state, or several that are checked together.
#[derive(Clone, Copy, Debug, PartialEq, Eq)]
pub enum Register {
    /// The parameters in force: each is in its range.
    Params,
    /// The effective moment: at most `2^60 - 1`.
    Moment,
    /// The probability: at most `10^12`.
    Prob,
    /// The old delay: at most `2^40`.
    OldDelay,
    /// The accumulated probability: below `85 * 10^11`.
    Accu,
    /// The burst allowance: at most `10^12`.
    Burst,
    /// The moment of the last update: not after the effective moment.
    Last,
    /// The average of the departure rate: at most `2^60 - 1`.
    Average,
    /// The moment at which the open cycle of the departure rate opened: not after the effective moment.
    CycleStart,
    /// The bytes that the open cycle has counted: fewer than `dq_threshold`.
    CycleCount,
    /// The time that the last departed packet spent in the queue: at most `2^40`.
    Waited,
    /// The activity of the controller: always active in profile one.
    Active,
}

/// Counts, sums and greatest values over the whole history (this project's own). They do not count refused commands and
/// folds.
#[derive(Clone, Copy, Debug, PartialEq, Eq)]
pub struct Stats {
    /// Arrivals with any verdict: the sum of the next five fields.
    pub arrivals: u64,
    /// Arrivals that were queued unchanged.
    pub enqueued: u64,
    /// Arrivals that were queued and marked.
    pub marked: u64,
    /// Arrivals that were dropped early.
    pub early: u64,
    /// Arrivals that were dropped by the limit in bytes.
    pub over_bytes: u64,
    /// Arrivals that were dropped by the limit in packets.
    pub over_packets: u64,
    /// Departed packets.
    pub left: u64,
    /// The sum of the sizes of the departed packets, in bytes.
    pub left_bytes: u64,
    /// Departures that found no packet.
    pub empty: u64,
    /// Updates.
    pub updates: u64,
    /// Resets.
    pub resets: u64,
    /// Changes of the parameters.
    pub changes: u64,
    /// The greatest number of bytes in the queue after an event.
    pub largest_queue: u64,
    /// The greatest delay of an update, in nanoseconds.
    pub largest_delay: u64,
    /// The sum of the times that the departed packets spent in the queue, in nanoseconds. The time of a packet is the
    /// effective moment of its departure less that of its arrival.
    pub waited: u128,
}
