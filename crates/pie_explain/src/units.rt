//! Numbers as people read them. A time is exact. A probability, a random word and a share are rounded down.
use itoa::Buffer;
use pie_record::Clock;
use pie_units::Utc;
use std::fmt;
use std::fmt::Display;

/// A number in decimal digits, written with `itoa`, which needs fewer instructions than `std::fmt`.
#[derive(Clone, Copy)]
pub(crate) struct Digits(pub(crate) u64);

impl Display for Digits {
    fn fmt<W: fmt::Write>(&self, f: &mut fmt::Formatter<W>) -> fmt::Result {
        let mut digits = Buffer::new();
        f.write_str(digits.format(self.0))
    }
}

/// A time or a moment in nanoseconds, in milliseconds.
#[derive(Clone, Copy)]
pub(crate) struct Millis(pub(crate) u64);

impl Display for Millis {
    fn fmt<W: fmt::Write>(&self, f: &mut fmt::Formatter<W>) -> fmt::Result {
        let (whole, rest) = (Digits(self.0 / 1_000_000), self.0 % 1_000_000);
        write!(f, "{whole}.{rest:06} ms")
    }
}

/// A moment in nanoseconds. With a clock record it is written as wall-clock time, otherwise in milliseconds since
/// the trace's clock began.
#[derive(Clone, Copy)]
pub(crate) struct MomentWords {
    pub(crate) clock: Option<Clock>,
    pub(crate) moment: u64,
}

impl Display for MomentWords {
    fn fmt<W: fmt::Write>(&self, f: &mut fmt::Formatter<W>) -> fmt::Result {
        match self.clock {
            None => Millis(self.moment).fmt(f),
            Some(clock) => Utc(clock.unix_at(self.moment)).fmt(f),
        }
    }
}

/// A probability in units of `10^-12`, in per cent, rounded down.
#[derive(Clone, Copy)]
pub(crate) struct PerCent(pub(crate) u64);

impl Display for PerCent {
    fn fmt<W: fmt::Write>(&self, f: &mut fmt::Formatter<W>) -> fmt::Result {
        let whole = Digits(self.0 / 10_000_000_000);
        let rest = self.0 % 10_000_000_000 / 1_000_000;
        write!(f, "{whole}.{rest:04} %")
    }
}

/// A random word as a fraction of 2^64, in per cent, rounded down.
#[derive(Clone, Copy)]
pub(crate) struct Word(pub(crate) u64);

impl Display for Word {
    fn fmt<W: fmt::Write>(&self, f: &mut fmt::Formatter<W>) -> fmt::Result {
        let parts = (u128::from(self.0) * 1_000_000) >> 64;
        let (whole, rest) = (parts / 10_000, parts % 10_000);
        write!(f, "{whole}.{rest:04} %")
    }
}

/// A count as a part of all, in per cent, rounded down; 0 if there are none.
#[derive(Clone, Copy)]
pub(crate) struct Share {
    pub(crate) count: u64,
    pub(crate) all: u64,
}

impl Display for Share {
    fn fmt<W: fmt::Write>(&self, f: &mut fmt::Formatter<W>) -> fmt::Result {
        let parts = u128::from(self.count) * 1_000_000 / u128::from(self.all.max(1));
        let (whole, rest) = (parts / 10_000, parts % 10_000);
        write!(f, "{whole}.{rest:04} %")
    }
}
