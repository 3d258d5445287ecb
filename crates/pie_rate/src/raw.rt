//! The departure rate over plain numbers.
ghost use Rattle.std.specs.Prelude.{◌≡◌, ◌+◌, ◌-◌, ◌<◌, ◌≤◌, None, SomeIff, max};
ghost use Rattle.pie_rate.specs.{with_sample, departure, after_departure};

/// The greatest threshold, in bytes, and the denominator of the weights: a new sample has the weight `threshold /
/// 65536`, the average the rest (RFC 8033, section 5.2).
pub const MAX_THRESHOLD: u64 = 65_536;

/// An open measurement cycle as plain numbers, which may be out of range.
#[derive(Clone, Copy, PartialEq, Eq)]
pub struct RawCycle {
    /// The moment of the departure that opened it, in nanoseconds.
    pub start: u64,
    /// The bytes of the departures after the opening one.
    pub count: u64,
}

impl RawCycle {
    /// Returns the count of the cycle with a departed packet of `size` bytes, or `None` if the packet closes the cycle.
    #[inline(always)]
    pub fn counted(&self, size: u32, threshold: u64) -> Option<u64>
        ensures { SomeIff result (self.now.count + size < threshold) (self.now.count + size) }
    {
        let count = self.count.saturating_add(u64::from(size));
        if count < threshold { Some(count) } else { None }
    }
}

/// An estimate of the departure rate as plain numbers, which may be out of range. Its rules are
/// [`Rate`](crate::Rate)'s.
#[derive(Clone, Copy, PartialEq, Eq)]
pub struct RawRate {
    /// The average time in which `dq_threshold` bytes depart, in nanoseconds; 0 without a sample.
    pub average: u64,
    /// The open cycle.
    pub begun: Option<RawCycle>,
}

impl RawRate {
    /// Makes an estimate without a sample and without an open cycle.
    pub fn cleared() -> RawRate
        ensures { result ≡ record { average = 0; begun = None } }
    {
        RawRate {
            average: 0,
            begun: None,
        }
    }

    /// Adds a departure, as [`Rate::departed`](crate::Rate::departed) does, for any numbers: no sum or product
    /// overflows.
    #[inline(always)]
    pub fn departed(&mut self, size: u32, bytes_left: u64, moment: u64, threshold: u64)
        requires { threshold ≤ 65536 }
        ensures { self.new ≡ after_departure threshold self.old (departure size bytes_left moment) }
    {
        if let Some(cycle) = &mut self.begun {
            if let Some(count) = cycle.counted(size, threshold) {
                cycle.count = count;
                return;
            }
            let sample = sample(cycle.start, moment);
            self.average = averaged(self.average, sample, threshold);
        }
        self.begun = if bytes_left < threshold {
            None
        } else {
            Some(RawCycle {
                start: moment,
                count: 0,
            })
        };
    }
}

/// Returns the sample of a cycle: its duration in nanoseconds, at least 1.
fn sample(start: u64, end: u64) -> u64
    ensures { result ≡ max 1 (end - start) }
{
    end.saturating_sub(start).max(1)
}

/// Adds a sample to the average. If the average is 0, there was no sample, and the result is `sample` itself (RFC 8033,
/// section 5.2).
fn averaged(average: u64, sample: u64, threshold: u64) -> u64
    requires { threshold ≤ 65536 }
    ensures { result ≡ with_sample threshold average sample }
{
    if average == 0 {
        return sample;
    }
    let kept = u128::from(average) * u128::from(MAX_THRESHOLD - threshold);
    let added = u128::from(sample) * u128::from(threshold);
    ((added + kept) / u128::from(MAX_THRESHOLD)) as u64
}
