//! The output: for each call and each test a line with its result, and for each measurement one with its name, value and
//! unit.

use std::io;
use std::io::ErrorKind;
use std::rt::Clock;
use std::time::Instant;

/// The writer, and the kind of the first failure of the clock or the writer, so that the measured code contains no
/// `?`.
#[derive(Drop)]
pub struct Report<'a, R> {
    pub rt: &'a R,
    failure: Option<ErrorKind>,
}

impl<'a, R: Clock + Print> Report<'a, R> {
    pub fn new(rt: &'a R) -> Report<'a, R> {
        Report { rt, failure: None }
    }

    /// Returns true if all was measured and printed.
    pub fn end(self) -> io::Result<()> {
        match self.failure {
            None => Ok(()),
            Some(kind) => Err(io::Error::from(kind)),
        }
    }

    /// Returns the value of a result, and stores the first error.
    fn kept<T: Drop>(&mut self, it: io::Result<T>) -> Option<T> {
        if let Err(why) = &it {
            self.failure = self.failure.or(Some(why.kind()));
        }
        it.ok()
    }

    /// Stores the failure of a line that was not printed.
    pub fn printed(&mut self, said: io::Result<()>) {
        let _ = self.kept(said);
    }

    /// Returns the moment at which the measurement begins; none if the clock fails.
    pub fn start(&mut self) -> Option<Instant> {
        let now = Instant::now(self.rt);
        self.kept(now)
    }

    /// Returns the nanoseconds since `start`, or 0 without it.
    fn since(&mut self, start: Option<Instant>) -> u128 {
        let Some(start) = start else {
            return 0;
        };
        let spent = start.elapsed(self.rt);
        match self.kept(spent) {
            Some(spent) => spent.as_nanos(),
            None => 0,
        }
    }

    /// Prints the nanoseconds since then for each of this many calls, to a tenth.
    pub fn nanos(&mut self, part: &str, name: &str, start: Option<Instant>, calls: u64) {
        let tenths = self.since(start).saturating_mul(10) / u128::from(calls).max(1);
        let (whole, tenth) = (tenths / 10, tenths % 10);
        let said = println!(self.rt; "{part}_{name} {whole}.{tenth} ns");
        self.printed(said);
    }

    /// Prints the sum of the calls' results, so that they are not optimised away.
    pub fn checksum(&mut self, part: &str, name: &str, sum: u64) {
        let said = println!(self.rt; "{part}_{name}_checksum {sum} sum");
        self.printed(said);
    }
}

/// The answer of a call, and two observed numbers, which the test of the call describes.
#[derive(Clone, Copy)]
pub(crate) struct Seen(&'static str, u64, u64);

impl Seen {
    /// The call was not made.
    pub(crate) const NOTHING: Seen = Seen("not made", 0, 0);

    /// Returns the result of a call that succeeded.
    pub(crate) fn done(one: u64, other: u64) -> Seen {
        Seen("done", one, other)
    }

    /// Returns the result of a call that was refused, for lack of memory or for another reason.
    pub(crate) fn refused(is_memory: bool, one: u64) -> Seen {
        Seen(if is_memory { "memory" } else { "refused" }, one, 0)
    }
}

/// Prints the name of the next call: it makes all memory requests up to the next line.
pub(crate) fn begin(rt: &impl Print, name: &str) {
    let _ = println!(rt; "begin {name}");
}

/// Prints the result of a call.
pub(crate) fn print_numbers<R: Clock + Print>(report: &mut Report<R>, name: &str, seen: Seen) {
    let Seen(answer, one, other) = seen;
    let said = println!(report.rt; "{name}: {answer}, {one}, {other}");
    report.printed(said);
}

/// Prints the name of a test, and `holds` or `fails`.
pub(crate) fn say<R: Clock + Print>(report: &mut Report<R>, name: &str, holds: bool) {
    let word = if holds { "holds" } else { "fails" };
    let said = println!(report.rt; "{name}: {word}");
    report.printed(said);
}
