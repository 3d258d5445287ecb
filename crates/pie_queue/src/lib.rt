//! The byte queue of one link buffer: the waiting packets, each with the moment of its arrival, and the sum of their
//! sizes.
//!
//! Contracts see a `ByteQueue` as the list of its waiting packets. `admit` refuses a packet exactly if the ring is
//! full, returns the packet and changes nothing (clauses `full`, `queued`, `refused`). `take`, `bytes`, `len` and `get`
//! are exact. `copy_from` copies another queue's packets. `Ecn::bits` and `capable` are RFC 3168's. No contract states
//! that the ring is `circular_buffer`'s.
#![tactic(auto)]

mod ecn;
mod packet;
mod queue;

pub use ecn::Ecn;
pub use packet::{MAX_SIZE, Packet, Waiting};
pub use queue::{ByteQueue, Memory};
