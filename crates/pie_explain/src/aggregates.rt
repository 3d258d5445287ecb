//! Aggregates of a list of numbers, as plain numbers of 64 bits.
ghost use Rattle.std.specs.Prelude.{◌≡◌, ◌+◌, ◌-◌, ◌*◌, ◌++◌, ◌∷◌, [], ℕ, List, max};
ghost use Rattle.std.specs.List.{cons_option};
ghost use Rattle.pie_explain.specs.declared.explanation.Explained.{Explained};
ghost use Rattle.pie_explain.specs.Aggregates.{carried_over, first_or, mean_in, moment_at, span_of, sum_in, time_at};

/// One more than the greatest number of 64 bits.
const WORD: u128 = 1 << 64;

/// The count of some numbers, the first and the last; all 0 without a number.
#[repr(C)]
#[derive(Clone, Copy, Default)]
pub struct Bounds {
    /// The count, at most 2^64 - 1.
    pub count: u64,
    /// The first.
    pub first: u64,
    /// The last.
    pub last: u64,
}

/// The greatest of some numbers, and the last; 0 if there was none.
#[repr(C)]
#[derive(Clone, Copy, Default)]
pub struct Peak {
    /// The greatest.
    pub greatest: u64,
    /// The last.
    pub last: u64,
}

/// The sum of some numbers, at most 2^128 - 1.
#[repr(C)]
#[derive(Clone, Copy, Default)]
pub struct Total {
    /// The high 64 bits.
    pub high: u64,
    /// The low 64 bits.
    pub low: u64,
}

/// The span of some events.
#[derive(Clone, Copy, Default)]
pub struct Span {
    /// The effective moments of the events, in nanoseconds.
    pub moments: Bounds,
    /// The wall-clock times of the events with a clock record before them, in nanoseconds since 1970-01-01T00:00:00Z.
    pub times: Bounds,
}

/// Returns `first`, or `number` if `count` is 0.
fn first_or(count: u64, first: u64, number: u64) -> u64
    ensures { result ≡ first_or count first number }
{
    if count == 0 { number } else { first }
}

impl Bounds {
    ghost use Rattle.pie_explain.specs.Aggregates.{bounds_of};

    /// Takes one more number.
    #[tactic(auto, using(crate::proofs::SpanFacts::bounds_push))]
    #[inline(always)]
    pub(crate) fn take(&mut self, number: u64)
        ensures { (numbers : List ℕ) → self.old ≡ bounds_of numbers → self.new ≡ bounds_of (numbers ++ number ∷ []) }
    {
        *self = Bounds {
            count: self.count.saturating_add(1),
            first: first_or(self.count, self.first, number),
            last: number,
        };
    }

    /// Takes one more number, as `take` does, in a function of its own for rare numbers.
    #[inline(never)]
    fn take_rare(&mut self, number: u64)
        ensures { (numbers : List ℕ) → self.old ≡ bounds_of numbers → self.new ≡ bounds_of (numbers ++ number ∷ []) }
    {
        self.take(number);
    }

    /// Takes one more number, or none.
    #[inline(always)]
    pub(crate) fn take_some(&mut self, number: Option<u64>)
        ensures { (numbers : List ℕ) → self.old ≡ bounds_of numbers → self.new ≡ bounds_of (numbers ++ cons_option number []) }
    {
        if let Some(number) = number {
            self.take_rare(number);
        }
    }
}

impl Peak {
    ghost use Rattle.pie_explain.specs.Aggregates.{peak_of};

    /// Takes one more number. Most are the number before, which is none greater than the greatest.
    #[tactic(auto, using(crate::proofs::SpanFacts::peak_push, crate::proofs::SpanFacts::peak_same))]
    #[inline(always)]
    pub(crate) fn take(&mut self, number: u64)
        ensures { (numbers : List ℕ) → self.old ≡ peak_of numbers → self.new ≡ peak_of (numbers ++ number ∷ []) }
    {
        if self.last == number {
            return;
        }
        self.last = number;
        raise(&mut self.greatest, number);
    }

    /// Takes one more number, or none.
    #[inline(always)]
    pub(crate) fn take_some(&mut self, number: Option<u64>)
        ensures { (numbers : List ℕ) → self.old ≡ peak_of numbers → self.new ≡ peak_of (numbers ++ cons_option number []) }
    {
        if let Some(number) = number {
            self.take(number);
        }
    }
}

impl Total {
    ghost use Rattle.pie_explain.specs.Aggregates.{total_of};

    /// Returns the sum.
    pub(crate) fn sum(self) -> u128
        ensures { result ≡ sum_in self }
    {
        u128::from(self.high) * WORD + u128::from(self.low)
    }

    /// Returns the mean of `count` numbers with this sum, rounded down, or 0 if `count` is 0.
    pub(crate) fn mean(self, count: u64) -> u64
        ensures { result ≡ mean_in count self }
    {
        (self.sum() / u128::from(count.max(1))).min(u128::from(u64::MAX)) as u64
    }

    /// Takes one more number.
    #[inline(always)]
    pub(crate) fn take(&mut self, number: u64)
        ensures { (numbers : List ℕ) → self.old ≡ total_of numbers → self.new ≡ total_of (numbers ++ number ∷ []) }
    {
        let (low, carries) = self.low.overflowing_add(number);
        self.low = low;
        if carries {
            self.carry();
        }
    }

    /// Adds one to the high part, or makes all of it the greatest that it can be.
    #[cold]
    #[inline(never)]
    fn carry(&mut self)
        ensures { self.new ≡ carried_over self.old }
    {
        if self.high == u64::MAX {
            self.low = u64::MAX;
        } else {
            self.high += 1;
        }
    }

    /// Takes one more number, or none.
    #[inline(always)]
    pub(crate) fn take_some(&mut self, number: Option<u64>)
        ensures { (numbers : List ℕ) → self.old ≡ total_of numbers → self.new ≡ total_of (numbers ++ cons_option number []) }
    {
        if let Some(number) = number {
            self.take(number);
        }
    }
}

/// Raises `most` to `number`, if that is greater.
#[inline(always)]
pub(crate) fn raise(most: &mut u64, number: u64)
    ensures { most.new ≡ max most.old number }
{
    if *most < number {
        *most = number;
    }
}

impl Span {
    /// Takes one more event, at this effective moment and this wall-clock time.
    #[inline(always)]
    pub(crate) fn take(&mut self, moment: u64, time: Option<u64>)
        ensures { (shown : List Explained) (one : Explained) → moment ≡ moment_at one → time ≡ time_at one → self.old ≡ span_of shown
            → self.new ≡ span_of (shown ++ one ∷ []) }
    {
        self.moments.take(moment);
        self.times.take_some(time);
    }
}
