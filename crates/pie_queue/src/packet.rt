//! Packets, and packets that wait.

use crate::Ecn;
use pie_fixed::Nanos;

/// The greatest size of a packet in a queue, in bytes (this project's own).
pub const MAX_SIZE: u32 = 65_535;

/// A packet, with the fields that a queue controller reads (this project's own).
#[derive(Clone, Copy, Debug, PartialEq, Eq)]
pub struct Packet {
    /// The caller's name for the packet. The controller does not read it.
    pub tag: u64,
    /// The packet's size in bytes. A queue accepts sizes from 1 to 65535.
    pub size: u32,
    /// The ECN field of the packet's header (RFC 3168).
    pub ecn: Ecn,
}

/// A packet in a queue (this project's own).
#[derive(Clone, Copy, Debug, PartialEq, Eq)]
pub struct Waiting {
    /// The packet, as it will depart.
    pub packet: Packet,
    /// The effective moment of the packet's arrival, in nanoseconds: at most `2^60 - 1`.
    pub since: Nanos,
}
