//! One line for each interval of the explained events, under a header.
ghost use Rattle.std.specs.Prelude.{OnOk};
ghost use Rattle.pie_explain.specs.Report.{Extends};

use crate::meter::Meter;
use crate::meter_input::{EARLY, LEFT, MARKED, NO_BYTES, NO_PACKETS, UPDATED};
use crate::text::Written;
use pie_record::Page;
use pie_units::Utc;
use std::fmt;
use std::fmt::Display;

/// The number of lines from one header to the next, if the header is repeated.
const LINES: u64 = 40;

/// The style of summaries as lines: one for each interval that has events, with its time, the arrivals, the marks, the early
/// drops, the packets without room, the mean wait and the wait that 99 of 100 packets did not exceed, the delay of the last
/// update, the probability after the last event, and the bytes of the packets that left.
///
/// Waits and delays are in milliseconds, rounded down to microseconds, and probabilities in per cent (this project's own).
/// A dash replaces a wait without a departure, and a delay without an update. Columns are right-aligned; a number that is
/// longer than its column makes it wider. The length of an interval decides the unit of its start, so that its column
/// holds every moment of a text, up to 2^60 - 1 ns: seconds if the length is a whole number of seconds, otherwise
/// milliseconds, with decimals unless the length is a whole number of milliseconds.
#[derive(Clone, Copy)]
pub struct LineStyle {
    /// True if the header, which is before the first line, is also before each 40th line after it.
    pub repeats: bool,
    /// True if the header is bold, and a number of packets without room red unless it is 0: by the control sequences of
    /// ECMA-48.
    pub colours: bool,
}

/// The lines of intervals.
#[derive(Clone, Copy)]
pub(crate) struct IntervalLines {
    /// The length of an interval in nanoseconds, at least 1.
    pub(crate) every: u64,
    /// The time of a line is the wall-clock time of the interval's first event that has one. Without such an event, and
    /// if this is false, the time is the start of the interval.
    pub(crate) by_wall: bool,
    /// Their style.
    pub(crate) style: LineStyle,
}

/// A time in nanoseconds that `count` events have, as a cell.
#[derive(Clone, Copy)]
struct TimeCell {
    count: u64,
    time: u64,
}

impl Display for TimeCell {
    fn fmt<W: fmt::Write>(&self, f: &mut fmt::Formatter<W>) -> fmt::Result {
        if self.count == 0 {
            return f.write_str("      -");
        }
        let (whole, rest) = (self.time / 1_000_000, self.time % 1_000_000 / 1000);
        write!(f, "{whole:3}.{rest:03}")
    }
}

/// A probability in units of `10^-12`, as a cell.
#[derive(Clone, Copy)]
struct ShareCell(u64);

impl Display for ShareCell {
    fn fmt<W: fmt::Write>(&self, f: &mut fmt::Formatter<W>) -> fmt::Result {
        let whole = self.0 / 10_000_000_000;
        let rest = self.0 % 10_000_000_000 / 1_000_000;
        write!(f, "{whole:2}.{rest:04}")
    }
}

impl IntervalLines {
    /// Returns the unit of the start of an interval in nanoseconds, and the header of its column.
    fn start_column(self) -> (u64, &'static str) {
        match (self.every % 1_000_000_000, self.every % 1_000_000) {
            (0, _) => (1_000_000_000, "     time s"),
            (_, 0) => (1_000_000, "      time ms"),
            _ => (1, "          time ms"),
        }
    }

    /// Writes the header, if a line after `lines` others has one.
    fn push_heading(self, text: &mut String, lines: u64) -> Written {
        if lines > 0 && !(self.style.repeats && lines % LINES == 0) {
            return Ok(());
        }
        let (_, start) = self.start_column();
        let time = if self.by_wall {
            "                           UTC"
        } else {
            start
        };
        let (begin, end) = if self.style.colours {
            ("\x1b[1m", "\x1b[0m")
        } else {
            ("", "")
        };
        write!(
            text,
            "{begin}{time} arrived marks early  tail mean ms 99th ms delay ms  prob %     bytes{end}\n"
        )
    }

    /// Writes the time of a line: the start of the interval, or if `by_wall` its first wall-clock time, if there is one.
    fn push_start(self, text: &mut String, meter: &Meter) -> Written {
        let start = meter.first - meter.first % self.every.max(1);
        let (seconds, millis, rest) = (
            start / 1_000_000_000,
            start / 1_000_000,
            start % 1_000_000 / 1000,
        );
        let (unit, _) = self.start_column();
        match (self.by_wall, meter.timed, unit) {
            (true, 0, _) => write!(text, "{millis:26}.{rest:03}"),
            (true, _, _) => {
                let time = Utc(meter.time);
                write!(text, "{time}")
            }
            (false, _, 1_000_000_000) => write!(text, "{seconds:11}"),
            (false, _, 1_000_000) => write!(text, "{millis:13}"),
            (false, _, _) => write!(text, "{millis:13}.{rest:03}"),
        }
    }

    /// Writes the numbers of arrivals, marks, early drops, and packets without room.
    fn push_counts(self, text: &mut String, meter: &Meter) -> Written {
        let (arrivals, marks, early) = (
            meter.arrivals,
            meter.answers[MARKED],
            meter.answers[EARLY],
        );
        let tail = meter.answers[NO_BYTES].saturating_add(meter.answers[NO_PACKETS]);
        write!(text, " {arrivals:7} {marks:5} {early:5} ")?;
        if self.style.colours && tail > 0 {
            return write!(text, "\x1b[31m{tail:5}\x1b[0m");
        }
        write!(text, "{tail:5}")
    }

    /// Writes the line of an interval after `lines` others onto `page`, with the waiting time of 99 of 100.
    #[tactic(auto, using(crate::proofs::ReportFacts::extended_by))]
    pub(crate) fn push_line(self, page: &mut Page, lines: u64, meter: &Meter, most: u64) -> Written
        ensures { OnOk result (Extends page.old page.new) }
    {
        let (left, bytes) = (meter.answers[LEFT], meter.carried);
        let cell = |count: u64, time: u64| TimeCell { count, time };
        let (mean, most) = (cell(left, meter.waits.mean(left)), cell(left, most));
        let delay = cell(meter.answers[UPDATED], meter.delays.last);
        let prob = ShareCell(meter.probs.last);
        let mut text = page.words();
        self.push_heading(&mut text, lines)?;
        self.push_start(&mut text, meter)?;
        self.push_counts(&mut text, meter)?;
        write!(text, " {mean} {most}  {delay} {prob} {bytes:9}\n")?;
        page.put(text)
    }
}
