ghost use Rattle.std.specs.Prelude.{◌≡◌};
ghost use Rattle.pie_linux.specs.Enqueue.{accu_after, draws, is_mark, is_marked, is_over_limit, is_queued};

/// The fate of a packet that early drop picked.
#[derive(Clone, Copy, Debug, PartialEq, Eq)]
pub enum Picked {
    /// Dropped: `ecn` is off.
    EcnOff,
    /// Dropped: the probability is above the limit for marks.
    HighProbability,
    /// Dropped: the packet is not ECN-capable, of another protocol, or has no complete header.
    NotCapable,
    /// Marked with congestion experienced, and queued.
    Marked,
}

impl Picked {
    /// Returns true if the packet is marked.
    pub(crate) fn is_mark(self) -> bool
        ensures { result ≡ is_mark self }
    {
        matches!(self, Picked::Marked)
    }
}

/// The cause of the decision on an arriving packet.
#[derive(Clone, Copy, Debug, PartialEq, Eq)]
pub enum LinuxCause {
    /// Dropped: the queue holds `limit` packets. Linux counts it in `overlimit` (`pie_qdisc_enqueue`).
    OverLimit,
    /// Queued: burst allowance is left, the first early return of `pie_drop_early`.
    BurstTime,
    /// Queued: the delay is below half the target and the probability below 0.2, the second early return.
    LowDelay,
    /// Queued: less than two MTUs wait, the third early return.
    ShortQueue,
    /// Queued: the accumulated probability is below 0.85.
    SumBelow,
    /// Picked: the accumulated probability is at least 8.5.
    SumAbove(Picked),
    /// Picked: the random word is below the probability.
    WordBelow(Picked),
    /// Queued: the random word is not below the probability.
    WordNotBelow,
}

impl LinuxCause {
    /// Returns true if the packet is queued, marked or not.
    pub fn is_queued(self) -> bool
        ensures { result ≡ is_queued self }
    {
        match self {
            LinuxCause::OverLimit => false,
            LinuxCause::SumAbove(picked) | LinuxCause::WordBelow(picked) => picked.is_mark(),
            LinuxCause::BurstTime
            | LinuxCause::LowDelay
            | LinuxCause::ShortQueue
            | LinuxCause::SumBelow
            | LinuxCause::WordNotBelow => true,
        }
    }

    /// Returns true if the packet is marked.
    pub(crate) fn is_marked(self) -> bool
        ensures { result ≡ is_marked self }
    {
        match self {
            LinuxCause::SumAbove(picked) | LinuxCause::WordBelow(picked) => picked.is_mark(),
            LinuxCause::OverLimit
            | LinuxCause::BurstTime
            | LinuxCause::LowDelay
            | LinuxCause::ShortQueue
            | LinuxCause::SumBelow
            | LinuxCause::WordNotBelow => false,
        }
    }

    /// Returns true if the limit dropped the packet.
    pub(crate) fn is_over_limit(self) -> bool
        ensures { result ≡ is_over_limit self }
    {
        matches!(self, LinuxCause::OverLimit)
    }

    /// Returns true if the decision drew a random word.
    pub fn draws(self) -> bool
        ensures { result ≡ draws self }
    {
        matches!(self, LinuxCause::WordBelow(_) | LinuxCause::WordNotBelow)
    }

    /// Returns the accumulated probability after a decision with this cause, from the one before it and the sum with the
    /// packet's own probability.
    pub(crate) fn accu_after(self, accu: u64, sum: u64) -> u64
        ensures { result ≡ accu_after self accu sum }
    {
        match self {
            LinuxCause::BurstTime | LinuxCause::LowDelay | LinuxCause::ShortQueue => accu,
            LinuxCause::SumBelow
            | LinuxCause::WordNotBelow
            | LinuxCause::SumAbove(Picked::Marked) => sum,
            LinuxCause::OverLimit | LinuxCause::SumAbove(_) | LinuxCause::WordBelow(_) => 0,
        }
    }
}
