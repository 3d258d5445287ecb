//! The estimate of the departure rate.
ghost use Rattle.std.specs.Prelude.{◌≡◌, ◌^◌, ◌<◌, ◌≤◌, ◌↔◌, ℕ, List, [], ◌∷◌, ◌++◌, None, IsTrue, IsSome, IfSome};
ghost use Rattle.pie_rate.specs.{average, cycles, begun, first_closing, Departure, departure, IsWithin, Represents, after_departure};
ghost use Rattle.std.specs.Option.{ForSome};

use crate::raw::{RawCycle, RawRate};
use pie_fixed::Nanos;
use std::marker::Model;

/// The time in which `dq_threshold` bytes depart from the queue, estimated from measurement cycles (RFC 8033, section
/// 5.2).
///
/// Contracts see the average and the open cycle. They compare them with the list of departures since the estimate was
/// cleared.
#[derive(Clone, Copy)]
pub struct Rate {
    raw: RawRate,
}

impl Model for Rate {
    ghost use Rattle.pie_rate.specs.Estimate.{Estimate, IsWithin};

    ghost Value = { Estimate };

    ghost view = { λ r. r.raw };

    ghost invariant = { λ r. IsWithin r.raw };

    ghost inverse = { λ e. record { raw = e } };
}

impl Rate {
    /// Makes an estimate without departures: no sample, and no open cycle.
    pub fn cleared() -> Rate
        ensures value { result ≡ record { average = 0; begun = None } }
        ensures represents { (threshold : ℕ) → Represents threshold [] result }
    {
        Rate {
            raw: RawRate::cleared(),
        }
    }

    /// Adds a departure: a packet of `size` bytes that leaves `bytes_left` bytes in the queue at `moment`. `threshold`,
    /// in bytes, is at most 65536 and the same for all departures since the estimate was cleared (RFC 8033, section
    /// 5.2; the conditions for opening and closing a cycle, and its count, are this project's own).
    ///
    /// - If a cycle is open, it counts the packet. It closes when its count reaches the threshold.
    /// - If then no cycle is open and at least `threshold` bytes remain in the queue, a cycle opens. Its count does not
    ///   include this packet.
    /// - A closed cycle gives a sample: its duration in nanoseconds, at least 1. The first sample is the average. A
    ///   later sample has the weight `threshold / 65536`, the average the rest. The result is rounded down.
    pub fn departed(&mut self, size: u32, bytes_left: u64, moment: Nanos, threshold: u64)
        requires { threshold ≤ 65536 }
        ensures represents { (departures : List Departure) →
            Represents threshold departures self.old →
            Represents threshold (departures ++ departure size bytes_left moment ∷ []) self.new }

        // the step from the estimate before, for any list of departures
        ensures step { self.new ≡ after_departure threshold self.old (departure size bytes_left moment) }
    {
        self.raw
            .departed(size, bytes_left, moment.units(), threshold);
    }

    /// Returns the average time, in nanoseconds, in which `dq_threshold` bytes depart, below `2^60`. It is 0 exactly if
    /// there is no sample (RFC 8033, section 5.2).
    #[tactic(auto, using(crate::proofs::Laws::average_zero))]
    pub fn average(&self) -> u64
        ensures value { result ≡ self.now.average }
        ensures bound { result < 2 ^ 60 }

        // the look-back over the departures that the estimate represents
        ensures look_back { (threshold : ℕ) (departures : List Departure) →
            Represents threshold departures self.now → result ≡ average threshold departures }

        // 0 exactly if no cycle gave a sample
        ensures zero { (threshold : ℕ) (departures : List Departure) →
            threshold ≤ 65536 →
            Represents threshold departures self.now →
            ((result ≡ 0) ↔ (cycles threshold departures ≡ [])) }
    {
        self.raw.average
    }

    /// Returns true if a cycle is open (RFC 8033, section 5.2).
    #[tactic(auto, using(crate::proofs::Laws::begun_unclosed))]
    pub fn is_measuring(&self) -> bool
        ensures value { IsTrue result ↔ IsSome self.now.begun }
        ensures look_back { (threshold : ℕ) (departures : List Departure) →
            Represents threshold departures self.now →
            (IsTrue result ↔ IsSome (begun threshold departures)) }

        // no departure closes an open cycle
        ensures unclosed { (threshold : ℕ) (departures : List Departure) →
            IfSome (begun threshold departures) (λ i. first_closing threshold departures i ≡ None) }
    {
        self.raw.begun.is_some()
    }
}
