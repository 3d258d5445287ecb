//! Statistics in the layout of C.
ghost use Rattle.std.specs.Prelude.{◌≡◌};
ghost use Rattle.pie_abi.specs.Structs.{stats_of};

use pie_event::Stats;

/// Statistics of a history, in the order of its record `tallied`.
#[repr(C)]
#[derive(Clone, Copy)]
pub struct PieStats {
    /// Arriving packets.
    pub arrivals: u64,
    /// Packets that were queued unchanged.
    pub enqueued: u64,
    /// Packets that were queued and marked.
    pub marked: u64,
    /// Packets that were dropped early.
    pub early: u64,
    /// Packets that were dropped by the limit in bytes.
    pub over_bytes: u64,
    /// Packets that were dropped because the ring was full.
    pub over_packets: u64,
    /// Departed packets.
    pub left: u64,
    /// The sum of the sizes of the departed packets, in bytes.
    pub left_bytes: u64,
    /// Departures that found no packet.
    pub empty: u64,
    /// Updates.
    pub updates: u64,
    /// Resets.
    pub resets: u64,
    /// Changes of the parameters.
    pub changes: u64,
    /// The greatest number of bytes in the queue after an event.
    pub largest_queue: u64,
    /// The greatest delay of an update, in nanoseconds.
    pub largest_delay: u64,
    /// The sum of the times that the departed packets spent in the queue, in nanoseconds: the low 64 bits.
    pub waited: u64,
    /// The high 64 bits of that sum.
    pub waited_high: u64,
}

impl PieStats {
    /// Returns the statistics in the layout of C, with the sum of the times in the queue as two words.
    pub fn of(stats: &Stats) -> PieStats
        ensures { result ≡ stats_of stats.now }
    {
        PieStats {
            arrivals: stats.arrivals,
            enqueued: stats.enqueued,
            marked: stats.marked,
            early: stats.early,
            over_bytes: stats.over_bytes,
            over_packets: stats.over_packets,
            left: stats.left,
            left_bytes: stats.left_bytes,
            empty: stats.empty,
            updates: stats.updates,
            resets: stats.resets,
            changes: stats.changes,
            largest_queue: stats.largest_queue,
            largest_delay: stats.largest_delay,
            waited: (stats.waited % (1 << 64)) as u64,
            waited_high: (stats.waited >> 64) as u64,
        }
    }
}
