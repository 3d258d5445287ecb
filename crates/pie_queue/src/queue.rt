//! The queue of packets: a ring, and the running sum of the sizes.
ghost use Rattle.std.specs.Prelude.{◌≡◌, ◌≤◌, ◌*◌, ◌^◌, ◌↔◌, [], ◌∷◌, ◌++◌, length, drop, nat_le, slice_get, IsErr, IsTrue, IfOk, IfErr, IfSome, OnOk};
ghost use Rattle.std.specs.Bool.{OnTrue, OnFalse};
ghost use Rattle.pie_queue.specs.Queue.{IsSize, bytes_of};

use crate::{Packet, Waiting};
use circular_buffer::HeapCircularBuffer;
use pie_fixed::Nanos;
use std::alloc::Global;
use std::marker::Model;
use thiserror::Error;

/// There is no memory for the queue's ring.
#[derive(Clone, Copy, Debug, PartialEq, Eq, Error)]
#[error("out of memory")]
pub struct Memory;

/// The packets of one link buffer in the order of their arrival, and the sum of their sizes. RFC 8033 (section 4.1)
/// tests the length of this queue in bytes. The limit in packets is this project's own.
#[derive(Drop)]
pub struct ByteQueue {
    ring: HeapCircularBuffer<Waiting>,
    bytes: u64,
}

impl Model for ByteQueue {
    ghost use Rattle.std.specs.Prelude.{◌≡◌};
    ghost use Rattle.pie_queue.specs.Queue.{Queue, IsQueue, bytes_of};

    ghost Value = { Queue };

    ghost view = { λ queue. record { waiting = queue.ring.items; capacity = queue.ring.capacity } };

    ghost invariant = { λ queue. (queue.bytes ≡ bytes_of queue.ring.items)
        × IsQueue (record { waiting = queue.ring.items; capacity = queue.ring.capacity }) };
}

impl ByteQueue {
    /// Makes an empty queue that holds at most `capacity` packets, 1 to `2^20`. All memory of the queue is allocated
    /// here, for exactly `capacity` packets.
    ///
    /// # Errors
    ///
    /// Returns `Memory` if there is no memory for the ring.
    pub fn new(alloc: Global, capacity: u32) -> Result<ByteQueue, Memory>
        requires at_least_one { 1 ≤ capacity }
        requires at_most { capacity ≤ 2 ^ 20 }
        ensures { IfOk result (λ queue. queue ≡ record { waiting = []; capacity = capacity }) }
    {
        match HeapCircularBuffer::with_capacity(alloc, capacity as usize) {
            Ok(ring) => Ok(ByteQueue { ring, bytes: 0 }),
            Err(_) => Err(Memory),
        }
    }

    /// Appends `packet`, of 1 to 65535 bytes, with the moment `since` of its arrival. It allocates nothing.
    ///
    /// # Errors
    ///
    /// Returns the packet itself if the ring is full. The queue is unchanged.
    #[tactic(auto, using(crate::proofs::QueueFacts::bytes_bound, std::proofs::lemmas::List::Sums::sum_by_push))]
    pub fn admit(&mut self, packet: Packet, since: Nanos) -> Result<(), Packet>
        requires { IsSize packet.size }
        ensures full { IsErr result ↔ (length self.old.waiting ≡ self.old.capacity) }
        ensures queued { OnOk result (self.new ≡ record self.old { waiting = self.old.waiting ++ (record { packet = packet; since = since }) ∷ [] }) }
        ensures refused { IfErr result (λ back. (back ≡ packet) × (self.new ≡ self.old)) }
    {
        match self.ring.try_push_back(Waiting { packet, since }) {
            Ok(()) => {
                self.bytes += u64::from(packet.size);
                Ok(())
            }
            Err(_) => Err(packet),
        }
    }

    /// Removes and returns the oldest packet, or returns `None` if there is none (first in, first out).
    pub fn take(&mut self) -> Option<Waiting>
        ensures oldest { result ≡ slice_get self.old.waiting 0 }
        ensures rest { self.new ≡ record self.old { waiting = drop 1 self.old.waiting } }
        ensures size { IfSome result (λ oldest. IsSize oldest.packet.size) }
    {
        let oldest = self.ring.pop_front()?;
        self.bytes -= u64::from(oldest.packet.size);
        Some(oldest)
    }

    /// Copies the packets of `other` in place of this queue's own and returns true. If this queue's ring has no room
    /// for them, returns false and changes nothing. It allocates nothing.
    pub fn copy_from(&mut self, other: &ByteQueue) -> bool
        ensures room { result ≡ nat_le (length other.now.waiting) self.old.capacity }
        ensures copied { OnTrue result (self.new ≡ record self.old { waiting = other.now.waiting }) }
        ensures kept { OnFalse result (self.new ≡ self.old) }
    {
        if self.capacity() < other.len() {
            return false;
        }
        let (oldest, newest) = other.ring.as_slices();
        self.ring.clear();
        self.ring.extend_from_slice(oldest);
        self.ring.extend_from_slice(newest);
        self.bytes = other.bytes;
        true
    }

    /// Returns the sum of the sizes of the waiting packets, in bytes: at most 65535 times `2^20`.
    #[tactic(auto, using(crate::proofs::QueueFacts::bytes_bound))]
    pub fn bytes(&self) -> u64
        ensures sum { result ≡ bytes_of self.now.waiting }
        ensures within { result ≤ 65535 * 2 ^ 20 }
    {
        self.bytes
    }

    /// Returns the number of waiting packets, at most `2^20`.
    pub fn len(&self) -> usize
        ensures count { result ≡ length self.now.waiting }
        ensures within { (result ≤ self.now.capacity) × (self.now.capacity ≤ 2 ^ 20) }
    {
        self.ring.len()
    }

    /// Returns true if no packet waits.
    pub fn is_empty(&self) -> bool
        ensures { IsTrue result ↔ (self.now.waiting ≡ []) }
    {
        self.ring.is_empty()
    }

    /// Returns the greatest number of packets that the ring holds, 1 to `2^20`.
    pub fn capacity(&self) -> usize
        ensures { result ≡ self.now.capacity }
    {
        self.ring.capacity()
    }

    /// Returns the packet at `index`, counted from the oldest at 0, or `None` beyond the newest.
    pub fn get(&self, index: usize) -> Option<Waiting>
        ensures { result ≡ slice_get self.now.waiting index }
    {
        self.ring.get(index).copied()
    }
}
