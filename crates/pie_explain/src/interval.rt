//! The numbers of a summary, and of its current interval.
ghost use Rattle.std.specs.Prelude.{◌≡◌, ◌<◌, ◌++◌, ◌∷◌, [], ℕ, List, IfOk, Option, None, Some};
ghost use Rattle.pie_explain.specs.declared.explanation.Explained.{Explained};
ghost use Rattle.pie_explain.specs.{Interval.Keeps, Interval.ends_interval, Interval.has_summary, Interval.interval_of, Interval.since, Interval.starts_interval, Aggregates.time_at, Summary.HoldsSums, Sums.meter_input_of, Sums.reached};

use crate::aggregates::Bounds;
use crate::explainer::increase;
use crate::meter::Meter;
use crate::meter_input::{MeterInput, meter_input_of};
use crate::ranges::{RANGES, clear_counts, count_some};
use crate::{Explained, time_of};
use pie_book::{Answer, Command};
use std::alloc::{AllocError, Global};

/// Returns the number of the interval of a moment, counted from moment 0. Each interval lasts `every` nanoseconds,
/// at least 1. Without a length the number is 0.
pub(crate) fn interval_of(every: Option<u64>, moment: u64) -> u64
    ensures { result ≡ interval_of every moment }
{
    match every {
        Some(every) => moment / every.max(1),
        None => 0,
    }
}

/// Returns true if there are earlier events and they end in another interval.
pub(crate) fn ends_interval(before: Option<u64>, interval: u64) -> bool
    ensures { result ≡ ends_interval before interval }
{
    match before {
        Some(before) => before != interval,
        None => false,
    }
}

/// Returns true for the first event of an interval: there is no earlier event, or the events before it end in
/// another interval.
pub(crate) fn starts_interval(before: Option<u64>, interval: u64) -> bool
    ensures { result ≡ starts_interval before interval }
{
    match before {
        Some(before) => before != interval,
        None => true,
    }
}

/// Returns true if there is a summary at the end: of all events together, or of the last interval, whose number is `last`, if there is an event.
pub(crate) fn has_summary(every: Option<u64>, last: Option<u64>) -> bool
    ensures { result ≡ has_summary every last }
{
    match every {
        Some(_) => last.is_some(),
        None => true,
    }
}

/// Returns true for an arrival, and for the departure of a packet, that leaves the controller's activity unchanged.
/// Most events are one of the two, and have few of the meter's numbers.
#[inline(always)]
fn is_usual(explained: &Explained) -> bool {
    let explanation = &explained.explanation;
    if explanation.before.active != explained.after.active {
        return false;
    }
    match (
        &explanation.event.command,
        &explanation.cause,
        &explanation.event.answer,
    ) {
        (Command::Depart { .. }, None, Answer::Left(_)) => true,
        (
            Command::Arrive { .. },
            Some(_),
            Answer::Enqueued
            | Answer::Marked
            | Answer::DroppedEarly
            | Answer::DroppedBytes
            | Answer::DroppedPackets,
        ) => true,
        _ => false,
    }
}

/// The numbers of a summary, each over all events that it was shown.
#[derive(Clone, Copy, Default)]
pub struct Sums {
    /// The number of the events, at most 2^64 - 1.
    pub count: u64,
    /// The wall-clock times of the events with a clock record before them, in nanoseconds after 1970-01-01T00:00:00Z.
    pub times: Bounds,
    /// The numbers of a record.
    pub meter: Meter,
    /// Those of the events that turned the controller on.
    pub on_times: Bounds,
    /// Those of the events that turned it off.
    pub off_times: Bounds,
}

impl Sums {
    ghost use Rattle.pie_explain.specs.Sums.{sums_of};

    /// Returns the numbers of no event.
    #[tactic(auto, unfolding(crate::specs::Sums::meter_of, crate::specs::Sums::sums_of, pie_aqm::specs::History::greatest, pie_aqm::specs::History::last_or, pie_aqm::specs::History::places))]
    pub(crate) fn empty() -> Sums
        ensures { result ≡ sums_of [] }
    {
        Sums::default()
    }

    /// Begins the meter at this moment, if there was no event before.
    #[tactic(auto, using(crate::proofs::SumsFacts::reached_more, crate::proofs::SumsFacts::reached_none), unfolding(crate::specs::Sums::sums_of))]
    fn begin_at(&mut self, moment: u64)
        ensures { (shown : List Explained) (one : Explained) → (meter_input_of one).moment ≡ moment → self.old ≡ sums_of shown
            → self.new ≡ record (sums_of shown) { meter = reached shown one } }
    {
        if self.count == 0 {
            self.meter = Meter::begun(moment);
        }
    }

    /// Adds one more event, with this wall-clock time. `noted` is the meter's input for it.
    #[inline(always)]
    pub(crate) fn take(&mut self, noted: &MeterInput, time: Option<u64>)
        requires { noted.now.answer < 9 }
        ensures { (shown : List Explained) (one : Explained) → noted.now ≡ meter_input_of one → time ≡ time_at one → self.old ≡ sums_of shown
            → self.new ≡ sums_of (shown ++ one ∷ []) }
    {
        self.begin_at(noted.moment);
        increase(&mut self.count, 1);
        self.times.take_some(time);
        self.meter.record_time(time);
        self.meter.take(noted);
        self.on_times.take_some(noted.turned_on.and(time));
        self.off_times.take_some(noted.turned_off.and(time));
    }
}

/// The numbers of the last events that are in one interval.
#[derive(Drop)]
pub struct Interval {
    /// The number of that interval; none before the first event.
    pub number: Option<u64>,
    /// The numbers of these events.
    pub sums: Sums,
    /// The number of departed packets' waits in each range.
    pub waits: Box<[u64; RANGES]>,
    /// The number of earlier intervals, at most 2^64 - 1.
    pub ended: u64,
}

impl Interval {
    /// Returns the state before the first event. All memory is taken here.
    ///
    /// # Errors
    ///
    /// `AllocError` if there is no memory.
    #[tactic(auto, using(crate::proofs::RangeFacts::no_ranges), unfolding(crate::specs::Sums::waits_of))]
    pub(crate) fn empty(alloc: Global) -> Result<Interval, AllocError>
        ensures { IfOk result (λ interval. (interval.number ≡ None) × HoldsSums interval []) }
    {
        let waits = Box::new(alloc, [0; RANGES])?;
        Ok(Interval {
            number: None,
            sums: Sums::empty(),
            waits,
            ended: 0,
        })
    }

    /// Begins the interval with this number. Drops the earlier events if they are in another one.
    #[tactic(auto, using(crate::proofs::IntervalFacts::since_begun, crate::proofs::IntervalFacts::since_same), unfolding(crate::specs::Sums::waits_of))]
    pub(crate) fn begin(&mut self, interval: u64)
        ensures number { self.new.number ≡ Some interval }
        ensures holds { (shown : List Explained) (every : Option ℕ) → Keeps (HoldsSums self.old) every self.old.number shown
            → HoldsSums self.new (since every (Some interval) shown) }
    {
        if starts_interval(self.number, interval) {
            self.ended = self.ended.saturating_add(u64::from(self.number.is_some()));
            self.sums = Sums::empty();
            clear_counts(&mut self.waits);
        }
        self.number = Some(interval);
    }

    /// Adds one more event of the interval. Usual events have code of their own. If the caller knows the kind of the
    /// event, the compiler omits the numbers that it does not have.
    #[inline(always)]
    pub(crate) fn add(&mut self, explained: &Explained)
        ensures number { self.new.number ≡ self.old.number }
        ensures adds { (shown : List Explained) → HoldsSums self.old shown → HoldsSums self.new (shown ++ explained.now ∷ []) }
    {
        let time = time_of(explained.explanation.clock, explained.explanation.moment);
        if is_usual(explained) {
            self.put(&meter_input_of(explained), time);
        } else {
            self.put_out_of_line(&meter_input_of(explained), time);
        }
    }

    /// Adds one more event of the interval, with this wall-clock time. `noted` is the meter's input for it.
    #[inline(always)]
    fn put(&mut self, noted: &MeterInput, time: Option<u64>)
        requires { noted.now.answer < 9 }
        ensures number { self.new.number ≡ self.old.number }
        ensures adds { (shown : List Explained) (one : Explained) → noted.now ≡ meter_input_of one → time ≡ time_at one → HoldsSums self.old shown
            → HoldsSums self.new (shown ++ one ∷ []) }
    {
        self.sums.take(noted, time);
        count_some(&mut self.waits, noted.wait);
    }

    /// Adds one more event, as `put` does, in a function of its own for the less frequent kinds.
    #[cold]
    #[inline(never)]
    fn put_out_of_line(&mut self, noted: &MeterInput, time: Option<u64>)
        requires { noted.now.answer < 9 }
        ensures number { self.new.number ≡ self.old.number }
        ensures adds { (shown : List Explained) (one : Explained) → noted.now ≡ meter_input_of one → time ≡ time_at one → HoldsSums self.old shown
            → HoldsSums self.new (shown ++ one ∷ []) }
    {
        self.put(noted, time);
    }
}
