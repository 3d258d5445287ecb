//! The numbers of an interval that is summed up event by event, in memory of its owner: those of a summary's record, and no others.
ghost use Rattle.std.specs.Prelude.{◌≡◌, ◌+◌, ◌-◌, ◌^◌, ◌<◌, ◌++◌, ◌∷◌, [], ℕ, List, length, min, nat_lt, slice_index, slice_set, if◌then◌else◌};
ghost use Rattle.std.specs.List.{cons_option};
ghost use Rattle.pie_explain.specs.{Aggregates.kept, Aggregates.counted_some, Sums.awaiting, Sums.cause_place, Sums.excess_within, Sums.meter_of, Sums.timed_by, SummaryRecord.wait_99};
ghost use Rattle.pie_explain.specs.declared.meter_input.MeterInput.{MeterInput};

use crate::aggregates::{Bounds, Peak, Total, raise};
use crate::explainer::increase;
use crate::meter_input::{LEFT, MeterInput};
use crate::ranges::{RANGES, end_within, first_up_to};
use pie_event::CauseName;

/// The numbers of a record, each over all events of an interval. `answers` also gives the number of events and of
/// departures.
#[repr(C)]
#[derive(Clone, Copy, Default)]
pub struct Meter {
    /// The number of events with each answer: queued, marked, dropped early, dropped by the limit in bytes, dropped
    /// by the limit in packets, departure, departure without a packet, update, and reset or new parameters.
    pub answers: [u64; 9],
    /// The number of arrivals with each cause, in the order of the decision.
    pub causes: [u64; 15],
    /// The effective moment of the first event, in nanoseconds.
    pub first: u64,
    /// The effective moment of the last event.
    pub last: u64,
    /// The moment since which the next packet to depart is the first in the queue, as far as these events show: the
    /// moment of the last departure, or of the first event if there was none.
    pub since: u64,
    /// The number of arrivals.
    pub arrivals: u64,
    /// Their sizes, summed, in bytes.
    pub arrived: Total,
    /// The sum of the departed packets' times in the queue, in nanoseconds.
    pub waits: Total,
    /// The longest of these waits.
    pub greatest_wait: u64,
    /// The delays that the updates took, while the controller was active, in nanoseconds.
    pub delays: Peak,
    /// The probabilities after the events, in units of 10^-12.
    pub probs: Peak,
    /// The moments of the events that turned the controller on.
    pub turned_on: Bounds,
    /// The moments of the events that turned the controller off.
    pub turned_off: Bounds,
    /// 1 if an event has a wall-clock time, otherwise 0.
    pub timed: u64,
    /// The first of these times, in nanoseconds after 1970-01-01T00:00:00Z.
    pub time: u64,
    /// The bytes of the packets that left.
    pub carried: u64,
    /// The time from the previous update to each update that took a delay above the target while the controller was
    /// active, summed, in nanoseconds.
    pub above: u64,
    /// The number of departed packets that waited longer than the target.
    pub longer: u64,
    /// The time, in nanoseconds, for which the first packet in the queue had waited longer than the target.
    pub late: u64,
    /// The target after the last event, in nanoseconds.
    pub target: u64,
    /// The burst allowance after the last event, in nanoseconds.
    pub burst: u64,
}

/// Counts one more at a place.
#[inline(always)]
fn count<const N: usize>(counts: &mut [u64; N], place: usize)
    requires { place < length counts.old }
    ensures { counts.new ≡ slice_set counts.old place (min (slice_index counts.old place + 1) (2 ^ 64 - 1)) }
{
    increase(&mut counts[place], 1);
}

/// Counts one more at the position of an arrival's cause; an event without a cause counts nothing.
#[inline(always)]
fn count_cause(causes: &mut [u64; 15], cause: Option<CauseName>)
    ensures { let place = cause_place cause in
        causes.new ≡ (if nat_lt place 15 then slice_set causes.old place (min (slice_index causes.old place + 1) (2 ^ 64 - 1))
        else causes.old) }
{
    if let Some(name) = cause {
        count(causes, name.place());
    }
}

/// Counts one more if there is a number.
#[inline(always)]
fn count_some(count: &mut u64, number: Option<u64>)
    ensures { count.new ≡ counted_some count.old number }
{
    if number.is_some() {
        increase(count, 1);
    }
}

/// Adds an excess, if there is one, but at most `since`.
#[inline(always)]
fn add_excess(late: &mut u64, excess: Option<u64>, since: u64)
    ensures { late.new ≡ kept (late.old + excess_within excess since) }
{
    // Without an excess nothing else reads the sum. This read gives the prover its range. The compiler omits the read.
    let _held = *late;
    if let Some(excess) = excess {
        increase(late, excess.min(since));
    }
}

impl Meter {
    /// Returns the numbers of no event, with the first moment at `moment`.
    #[tactic(auto, unfolding(crate::specs::Sums::meter_of, pie_aqm::specs::History::greatest, pie_aqm::specs::History::last_or, pie_aqm::specs::History::places))]
    pub(crate) fn begun(moment: u64) -> Meter
        ensures { result ≡ record (meter_of [] []) { first = moment; since = moment } }
    {
        Meter {
            first: moment,
            since: moment,
            ..Meter::default()
        }
    }

    /// Stores the wall-clock time of an event, if it is the first that has one.
    #[inline(always)]
    #[tactic(auto, using(crate::proofs::SumsFacts::time_noted, crate::proofs::SumsFacts::times_kept))]
    pub(crate) fn record_time(&mut self, time: Option<u64>)
        ensures { (times : List ℕ) → self.old ≡ timed_by self.old times → self.new ≡ timed_by self.old (times ++ cons_option time []) }
    {
        let Some(time) = time else {
            return;
        };
        if self.timed != 0 {
            return;
        }
        self.timed = 1;
        self.time = time;
    }

    /// Returns the wait that at most a hundredth of the departed packets exceeded, rounded up by at most a tenth;
    /// at most the greatest wait.
    pub(crate) fn wait_99(&self, waits: &[u64; RANGES]) -> u64
        ensures { result ≡ wait_99 waits.now self.now }
    {
        let left = self.answers[LEFT];
        match first_up_to(waits, left - left / 100) {
            Some(range) => end_within(range, self.greatest_wait),
            None => self.greatest_wait,
        }
    }

    /// Counts the event that the meter awaits. The compiler omits the numbers that the event's kind does not have.
    #[inline(always)]
    pub(crate) fn take(&mut self, noted: &MeterInput)
        requires { noted.now.answer < 9 }
        ensures { (shown : List MeterInput) (times : List ℕ) → self.old ≡ awaiting shown noted.now times
            → self.new ≡ meter_of (shown ++ noted.now ∷ []) times }
    {
        count(&mut self.answers, noted.answer);
        count_cause(&mut self.causes, noted.cause);
        self.last = noted.moment;
        count_some(&mut self.longer, noted.excess);
        let since = noted.moment.saturating_sub(self.since);
        add_excess(&mut self.late, noted.excess, since);
        self.since = noted.left.unwrap_or(self.since);
        count_some(&mut self.arrivals, noted.arrived);
        self.arrived.take_some(noted.arrived);
        self.waits.take_some(noted.wait);
        raise(&mut self.greatest_wait, noted.wait.unwrap_or(0));
        self.delays.take_some(noted.delay);
        self.probs.take(noted.prob);
        self.turned_on.take_some(noted.turned_on);
        self.turned_off.take_some(noted.turned_off);
        increase(&mut self.carried, noted.carried);
        increase(&mut self.above, noted.above);
        self.target = noted.target;
        self.burst = noted.burst;
    }
}
