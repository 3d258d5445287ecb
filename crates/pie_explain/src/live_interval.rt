//! The sums of the current interval, updated with each event, in memory of the owner.
ghost use Rattle.std.specs.Prelude.{◌≡◌, ◌<◌, ◌++◌, ◌∷◌, [], ℕ, List, not, if◌then◌else◌};
ghost use Rattle.std.specs.List.{cons_option};
ghost use Rattle.pie_explain.specs.{Selection.time_of, LiveInterval.Awaits, LiveInterval.Holds, LiveInterval.IsSet, LiveInterval.clock_of, LiveInterval.has_wall, LiveInterval.length_of, LiveInterval.meter_input_of, LiveInterval.number_in, Interval.at_last, Interval.starts_interval, Summary.header, Summary.summary_text_of, Sums.timed_by};
ghost use Rattle.pie_explain.specs.declared.explanation.Explained.{Explained};

use crate::meter::Meter;
use crate::meter_input::MeterInput;
use crate::ranges::{RANGES, clear_counts, count_some};
use crate::summary_record::{NAMES, push_record};
use crate::time_of;
use pie_record::{Clock, LongRow};

/// The numbers of the last events, as far back as they are in the same interval, as `pie explain --every` sums them up.
#[repr(C)]
#[derive(Drop)]
pub struct LiveInterval {
    /// The length of an interval in nanoseconds, at least 1; the first begins at moment 0.
    pub every: u64,
    /// 1 if a record ends with the wall-clock time of the first event that has one, otherwise 0.
    pub wall: u64,
    /// The number of intervals with events that have begun: 0 before the first event.
    pub begun: u64,
    /// The number of the interval under way, counted from 0 for the one that begins at moment 0.
    pub number: u64,
    /// The moment at which the interval begins: `number * every`; 0 before the first event.
    pub start: u64,
    /// The moment at which the interval ends, `every` nanoseconds later. An event at this moment is in another
    /// interval. 0 before the first event.
    pub end: u64,
    /// 1 if a wall-clock time is known, otherwise 0.
    pub told: u64,
    /// The moment of that wall-clock time.
    pub clock_moment: u64,
    /// The wall-clock time at that moment, in nanoseconds after 1970-01-01T00:00:00Z.
    pub clock_unix: u64,
    /// The numbers of the events in it.
    pub meter: Meter,
    /// The number of departed packets' waits in each range.
    pub waits: [u64; RANGES],
}

impl LiveInterval {
    /// Returns the state before the first event.
    #[tactic(auto, using(crate::proofs::RangeFacts::no_ranges), unfolding(crate::specs::Sums::meter_of, crate::specs::Sums::waits_of, pie_aqm::specs::History::last_or, pie_aqm::specs::History::places))]
    pub fn open(every: u64, by_wall: bool) -> LiveInterval
        ensures every { result.every ≡ every }
        ensures wall { result.wall ≡ (if by_wall then 1 else 0) }
        ensures no_clock { result.told ≡ 0 }
        ensures holds { Holds result [] }
    {
        LiveInterval {
            every,
            wall: u64::from(by_wall),
            begun: 0,
            number: 0,
            start: 0,
            end: 0,
            told: 0,
            clock_moment: 0,
            clock_unix: 0,
            meter: Meter::begun(0),
            waits: [0; RANGES],
        }
    }

    /// Returns true if there is no event yet, or the interval under way has another number.
    fn starts_interval(&self, number: u64) -> bool
        ensures { result ≡ starts_interval (number_in self.now) number }
    {
        self.begun == 0 || self.number != number
    }

    /// Begins the interval of a moment, unless it is under way.
    #[inline(never)]
    fn begin_interval(&mut self, moment: u64)
        ensures settings { IsSet self.old self.new }
        ensures awaits { (shown : List Explained) (one : Explained) → one.explanation.moment ≡ moment → Holds self.old shown → Awaits self.new shown one }
    {
        let every = self.every.max(1);
        let number = moment / every;
        if self.starts_interval(number) {
            self.number = number;
            self.start = number * every;
            self.end = self.start.saturating_add(every);
            self.begun = self.begun.saturating_add(1);
            self.meter = Meter::begun(moment);
            clear_counts(&mut self.waits);
        }
    }

    /// Ensures that the interval of a moment is under way. It compares the interval's bounds, because a division
    /// costs more.
    #[inline(always)]
    fn enter(&mut self, moment: u64)
        ensures settings { IsSet self.old self.new }
        ensures awaits { (shown : List Explained) (one : Explained) → one.explanation.moment ≡ moment → Holds self.old shown → Awaits self.new shown one }
    {
        if self.start <= moment && moment < self.end {
            return;
        }
        self.begin_interval(moment);
    }

    /// Returns the last clock record.
    fn clock(&self) -> Option<Clock>
        ensures { result ≡ clock_of self.now }
    {
        if self.told == 1 {
            Some(Clock {
                moment: self.clock_moment,
                unix: self.clock_unix,
            })
        } else {
            None
        }
    }

    /// Records the wall-clock time of an event at this moment, if it is the first event that has one. If `told`
    /// equals `timed`, there is nothing to record.
    #[inline(always)]
    #[tactic(auto, using(crate::proofs::LiveFacts::clock_kept))]
    fn record_time(&mut self, moment: u64)
        ensures settings { IsSet self.old self.new }
        ensures adds { (times : List ℕ) → self.old.meter ≡ timed_by self.old.meter times → self.new ≡ record self.old {
          meter = timed_by self.old.meter
              (times ++ cons_option (time_of (clock_of self.old) moment) []);
        } }
    {
        if self.told == self.meter.timed {
            return;
        }
        self.note_first_time(moment);
    }

    /// Records the wall-clock time as `record_time` does, for any `told` and `timed`.
    #[cold]
    #[inline(never)]
    fn note_first_time(&mut self, moment: u64)
        ensures settings { IsSet self.old self.new }
        ensures adds { (times : List ℕ) → self.old.meter ≡ timed_by self.old.meter times → self.new ≡ record self.old {
          meter = timed_by self.old.meter
              (times ++ cons_option (time_of (clock_of self.old) moment) []);
        } }
    {
        let time = time_of(self.clock(), moment);
        self.meter.record_time(time);
    }

    /// Takes one more event.
    #[inline(always)]
    pub fn take(&mut self, noted: &MeterInput)
        requires { noted.now.answer < 9 }
        ensures settings { IsSet self.old self.new }
        ensures holds { (shown : List Explained) (one : Explained) → noted.now ≡ meter_input_of one → one.explanation.clock ≡ clock_of self.old
            → Holds self.old shown → Holds self.new (shown ++ one ∷ []) }
    {
        self.enter(noted.moment);
        self.record_time(noted.moment);
        self.meter.take(noted);
        count_some(&mut self.waits, noted.wait);
    }

    /// Adds the header row of the records to an empty line.
    #[tactic(auto, unfolding(crate::specs::Summary::header))]
    pub fn put_header(&self, line: &mut LongRow)
        requires { line.old ≡ [] }
        ensures { line.new ≡ header (has_wall self.now) }
    {
        line.push(NAMES.as_bytes());
        if self.wall == 1 {
            line.push(b",wall\n");
        } else {
            line.push(b"\n");
        }
    }

    /// Adds the record of the current interval to an empty line; before the first event there is none.
    #[tactic(auto, using(crate::proofs::LiveFacts::text_live))]
    pub fn put_record(&self, line: &mut LongRow)
        requires { line.old ≡ [] }
        ensures { (shown : List Explained) → Holds self.now shown → line.new ≡ at_last (length_of self.now) (summary_text_of (has_wall self.now)) shown }
    {
        if self.begun == 0 {
            return;
        }
        let most = self.meter.wait_99(&self.waits);
        push_record(line, self.wall == 1, &self.meter, most);
    }
}
