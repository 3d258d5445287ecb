ghost use Rattle.std.specs.Prelude.{◌≡◌, ◌<◌, ◌≤◌, ◌^◌};
ghost use Rattle.pie_linux.specs.Departure.{average, begins, begins_again, begun, counted_at, departed, departed_by_rate, departed_by_wait, elapsed, measured, next_reading, readings, since_last};

use crate::params::LinuxParams;
use crate::state::{LinuxState, UNSET, scaled};

/// The bytes of a measurement of the departure rate (`QUEUE_THRESHOLD`).
const THRESHOLD: u32 = 16384;

/// A departing packet, with the readings of the clock that its departure can take, in ticks.
#[derive(Clone, Copy)]
pub struct LinuxDeparture {
    /// The bytes that are left in the queue, or in the flow.
    pub backlog: u32,
    /// The packet's length (`skb->len`).
    pub size: u32,
    /// The moment at which the packet was queued. Not read with the rate estimator.
    pub enqueued: u64,
    /// The first reading, the moment of the departure.
    pub first: u64,
    /// The second reading. Only the rate estimator takes it.
    pub second: u64,
    /// The third reading. Only the rate estimator takes it.
    pub third: u64,
}

impl LinuxState {
    /// Takes a departing packet into account (`pie_process_dequeue`).
    ///
    /// Without the rate estimator the delay becomes the packet's wait, and the time since the last departure reduces
    /// the burst allowance. With the estimator the packet's bytes count for the measurement of the departure rate, and
    /// the time of a complete measurement reduces the burst allowance.
    #[tactic(auto, unfolding(crate::specs::Departure::departed))]
    pub fn depart(&mut self, params: &LinuxParams, departure: LinuxDeparture)
        ensures { self.new ≡ departed params.now self.old departure }
    {
        if params.dq_rate_estimator {
            self.depart_by_rate(departure);
        } else {
            self.depart_by_wait(departure);
        }
    }

    /// Returns the number of readings of the clock that the rate estimator takes at a departure: the first, one if a
    /// measurement begins, and one if a measurement ends and the next one begins. 0 without the estimator.
    #[tactic(auto, using(std::proofs::lemmas::Bool::Decides::nat_tests))]
    pub fn readings(&self, params: &LinuxParams, departure: LinuxDeparture) -> u32
        ensures { result ≡ readings params.now self.now departure }
    {
        if !params.dq_rate_estimator {
            return 0;
        }
        let mut begun = *self;
        let _ = begun.begin(departure);
        let begins = departure.backlog >= THRESHOLD && self.dq_count == UNSET;
        1 + u32::from(begins) + u32::from(begun.begins_again(departure))
    }

    /// Returns true if a measurement, which may have just begun, ends with this departure and the next one begins.
    #[inline(always)]
    #[tactic(auto, using(std::proofs::lemmas::Bool::Decides::nat_tests))]
    fn begins_again(&self, departure: LinuxDeparture) -> bool
        ensures { result ≡ begins_again self.now departure }
    {
        self.dq_count != UNSET
            && self.dq_count.wrapping_add(u64::from(departure.size)) >= u64::from(THRESHOLD)
            && elapsed(self.dq_tstamp, departure.first) != 0
            && departure.backlog >= THRESHOLD
    }

    /// Takes a departing packet into account without the rate estimator.
    #[tactic(auto, using(std::proofs::lemmas::Bool::Decides::nat_tests))]
    fn depart_by_wait(&mut self, departure: LinuxDeparture)
        ensures { self.new ≡ departed_by_wait self.old departure }
    {
        let time = self.since_last(departure.first);
        self.qdelay = if departure.backlog == 0 {
            0
        } else {
            departure.first.wrapping_sub(departure.enqueued)
        };
        self.burst_time = self.burst_time.saturating_sub(time);
        self.dq_tstamp = departure.first;
    }

    /// Returns the ticks since the last departure, or 0 at the first one.
    #[inline(always)]
    #[tactic(auto, using(std::proofs::lemmas::Bool::Decides::nat_tests))]
    fn since_last(&self, now: u64) -> u64
        ensures { result ≡ since_last self.now now }
    {
        if self.dq_tstamp == UNSET {
            0
        } else {
            elapsed(self.dq_tstamp, now)
        }
    }

    /// Takes a departing packet into account with the rate estimator.
    #[tactic(auto, using(std::proofs::lemmas::Bool::Decides::nat_tests))]
    fn depart_by_rate(&mut self, departure: LinuxDeparture)
        ensures { self.new ≡ departed_by_rate self.old departure }
    {
        let again = self.begin(departure);
        if self.dq_count != UNSET {
            self.count(
                departure,
                self.dq_count.wrapping_add(u64::from(departure.size)),
                again,
            );
        }
    }

    /// Begins a measurement if none runs and at least 16384 bytes are left. Returns the next reading of the clock.
    #[inline(always)]
    #[tactic(auto, using(std::proofs::lemmas::Bool::Decides::nat_tests))]
    fn begin(&mut self, departure: LinuxDeparture) -> u64
        ensures reading { result ≡ next_reading self.old departure }
        ensures after { self.new ≡ begun self.old departure }
    {
        if departure.backlog >= THRESHOLD && self.dq_count == UNSET {
            self.dq_tstamp = departure.second;
            self.dq_count = 0;
            departure.third
        } else {
            departure.second
        }
    }

    /// Counts a packet, up to `count` bytes. The measurement ends at 16384 bytes, unless no tick has passed.
    #[inline(always)]
    #[tactic(auto, using(std::proofs::lemmas::Bool::Decides::nat_tests))]
    fn count(&mut self, departure: LinuxDeparture, count: u64, again: u64)
        ensures { self.new ≡ counted_at self.old departure count again }
    {
        let time = elapsed(self.dq_tstamp, departure.first);
        if count < u64::from(THRESHOLD) || time == 0 {
            self.dq_count = count;
        } else {
            self.measure(departure, count, time, again);
        }
    }

    /// Ends a measurement of `count` bytes in `time` ticks. The next one begins if at least 16384 bytes are left.
    #[inline(always)]
    #[tactic(auto, using(std::proofs::lemmas::Bool::Decides::nat_tests))]
    fn measure(&mut self, departure: LinuxDeparture, count: u64, time: u64, again: u64)
        requires some { 0 < time }
        requires short { time < 2 ^ 32 }
        ensures { self.new ≡ measured self.old departure count time again }
    {
        self.avg_dq_rate = average(self.avg_dq_rate, scaled(count) / time as u32);
        self.burst_time = self.burst_time.saturating_sub(time);
        if departure.backlog < THRESHOLD {
            self.dq_count = UNSET;
        } else {
            self.dq_count = 0;
            self.dq_tstamp = again;
        }
    }
}

/// Returns the ticks from `since` to `now`, in 32 bits.
#[inline(always)]
fn elapsed(since: u64, now: u64) -> u64
    ensures value { result ≡ elapsed since now }
    ensures short { result < 2 ^ 32 }
{
    now.wrapping_sub(since) % (1 << 32)
}

/// Returns the average rate with one more measurement, an eighth of it, or the first.
#[inline(always)]
#[tactic(auto, using(std::proofs::lemmas::Bool::Decides::nat_tests))]
fn average(old: u32, rate: u32) -> u32
    ensures { result ≡ average old rate }
{
    if old == 0 {
        rate
    } else {
        old - old / 8 + rate / 8
    }
}
