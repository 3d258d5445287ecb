//! Counts of events, and their statistics.
ghost use Rattle.std.specs.Prelude.{◌≡◌, ◌+◌, ◌<◌, ◌≤◌, ◌^◌, ℕ};
ghost use Rattle.pie_book.specs.{Packet, counted, with_queue, arrival_effect, found_none, updated, was_reset, departed, answer_of, TallyView, IsReached, no_stats};

use crate::Stats;
use pie_aqm::Verdict;
use pie_queue::Packet;
use std::marker::Model;

/// The number of events, and the statistics. Only `update_largest_queue` sets the largest queue, because it depends on the packets
/// that wait after each event.
#[derive(Drop)]
pub(crate) struct Tally {
    count: u64,
    stats: Stats,
}

impl Model for Tally {
    ghost use Rattle.pie_book.specs.{TallyView, IsReached};

    ghost Value = { TallyView };

    ghost view = { λ t. record { count = t.count; stats = t.stats } };

    ghost invariant = { λ t. IsReached t.count t.stats };
}

impl Tally {
    /// Makes a tally without events.
    #[tactic(auto, using(std::proofs::lemmas::Bool::Decides::nat_tests), unfolding(crate::specs::Decision::are_reached))]
    pub(crate) fn empty() -> Tally
        ensures { result ≡ record { count = 0; stats = no_stats } }
    {
        let stats = Stats {
            arrivals: 0,
            enqueued: 0,
            marked: 0,
            early: 0,
            over_bytes: 0,
            over_packets: 0,
            left: 0,
            left_bytes: 0,
            empty: 0,
            updates: 0,
            resets: 0,
            changes: 0,
            largest_queue: 0,
            largest_delay: 0,
            waited: 0,
        };
        Tally { count: 0, stats }
    }

    /// Makes a tally of `count` events with these statistics.
    pub(crate) fn resumed(count: u64, stats: Stats) -> Tally
        requires { IsReached count stats }
        ensures { result ≡ record { count = count; stats = stats } }
    {
        Tally { count, stats }
    }

    /// Counts an arrival with its verdict.
    #[tactic(auto, using(std::proofs::lemmas::Bool::Decides::nat_tests), unfolding(crate::specs::Decision::are_reached))]
    pub(crate) fn arrived(&mut self, verdict: Verdict)
        requires { self.old.count < 2 ^ 47 }
        ensures count { self.new.count ≡ self.old.count + 1 }
        ensures stats { (packet : Packet) (delay wait : ℕ) → self.new.stats ≡ counted self.old.stats (arrival_effect packet (answer_of verdict)) delay wait }
    {
        self.count += 1;
        self.stats.arrivals += 1;
        match verdict {
            Verdict::Enqueued => self.stats.enqueued += 1,
            Verdict::Marked => self.stats.marked += 1,
            Verdict::DroppedEarly => self.stats.early += 1,
            Verdict::DroppedBytes => self.stats.over_bytes += 1,
            Verdict::DroppedPackets => self.stats.over_packets += 1,
        }
    }

    /// Counts a departed packet that spent `waited` nanoseconds in the queue.
    #[tactic(auto, using(std::proofs::lemmas::Bool::Decides::nat_tests), unfolding(crate::specs::Decision::are_reached))]
    pub(crate) fn departed(&mut self, packet: Packet, waited: u64)
        requires count { self.old.count < 2 ^ 47 }
        requires size { packet.size ≤ 65535 }
        requires waited { waited ≤ 2 ^ 60 }
        ensures { self.new ≡ record { count = self.old.count + 1; stats = counted self.old.stats (departed packet) 0 waited } }
    {
        self.count += 1;
        self.stats.left += 1;
        self.stats.left_bytes += u64::from(packet.size);
        self.stats.waited += u128::from(waited);
    }

    /// Counts a departure that found no packet.
    #[tactic(auto, using(std::proofs::lemmas::Bool::Decides::nat_tests), unfolding(crate::specs::Decision::are_reached))]
    pub(crate) fn departed_empty(&mut self)
        requires { self.old.count < 2 ^ 47 }
        ensures { self.new ≡ record { count = self.old.count + 1; stats = counted self.old.stats found_none 0 0 } }
    {
        self.count += 1;
        self.stats.empty += 1;
    }

    /// Counts an update with its delay.
    #[tactic(auto, using(std::proofs::lemmas::Bool::Decides::nat_tests), unfolding(crate::specs::Decision::are_reached))]
    pub(crate) fn updated(&mut self, delay: u64)
        requires { self.old.count < 2 ^ 47 }
        ensures { self.new ≡ record { count = self.old.count + 1; stats = counted self.old.stats updated delay 0 } }
    {
        self.count += 1;
        self.stats.updates += 1;
        self.stats.largest_delay = self.stats.largest_delay.max(delay);
    }

    /// Counts a reset.
    #[tactic(auto, using(std::proofs::lemmas::Bool::Decides::nat_tests), unfolding(crate::specs::Decision::are_reached))]
    pub(crate) fn reset_done(&mut self)
        requires { self.old.count < 2 ^ 47 }
        ensures { self.new ≡ record { count = self.old.count + 1; stats = counted self.old.stats was_reset 0 0 } }
    {
        self.count += 1;
        self.stats.resets += 1;
    }

    /// Counts a change of the parameters.
    #[tactic(auto, using(std::proofs::lemmas::Bool::Decides::nat_tests), unfolding(crate::specs::Decision::are_reached))]
    pub(crate) fn changed(&mut self)
        requires { self.old.count < 2 ^ 47 }
        ensures { self.new ≡ record { count = self.old.count + 1; stats = record self.old.stats { changes = self.old.stats.changes + 1 } } }
    {
        self.count += 1;
        self.stats.changes += 1;
    }

    /// Includes `bytes`, the bytes in the queue after the last event, in the largest queue.
    #[tactic(auto, using(std::proofs::lemmas::Bool::Decides::nat_tests), unfolding(crate::specs::Decision::are_reached))]
    pub(crate) fn update_largest_queue(&mut self, bytes: u64)
        ensures { self.new ≡ record { count = self.old.count; stats = with_queue self.old.stats bytes } }
    {
        self.stats.largest_queue = self.stats.largest_queue.max(bytes);
    }

    /// Returns the number of events.
    pub(crate) fn count(&self) -> u64
        ensures value { result ≡ self.now.count }
        ensures within { result ≤ 2 ^ 47 }
    {
        self.count
    }

    /// Returns the statistics.
    pub(crate) fn stats(&self) -> Stats
        ensures value { result ≡ self.now.stats }
        ensures reached { IsReached self.now.count self.now.stats }
    {
        self.stats
    }
}
