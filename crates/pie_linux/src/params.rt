ghost use Rattle.std.specs.Prelude.{◌≡◌};
ghost use Rattle.pie_linux.specs.Enqueue.{marked_up_to};

use crate::state::ONE;

/// The greatest probability at which picked packets are marked.
#[derive(Clone, Copy, PartialEq, Eq)]
pub enum MarkLimit {
    /// 0.1, the limit of pie (`pie_qdisc_enqueue`).
    Tenth,
    /// This many per cent, fq_pie's `ecn_prob` (`fq_pie_qdisc_enqueue`).
    Percent(u32),
}

impl MarkLimit {
    /// Returns the probability, in units of 2^-56. For fq_pie the product wraps at 64 bits.
    pub(crate) fn probability(self) -> u64
        ensures { result ≡ marked_up_to self }
    {
        match self {
            MarkLimit::Tenth => ONE / 10,
            MarkLimit::Percent(percent) => (ONE / 100).wrapping_mul(u64::from(percent)),
        }
    }
}

/// The parameters, as the kernel keeps what `tc` sets (`struct pie_params`).
#[derive(Clone, Copy, PartialEq, Eq)]
pub struct LinuxParams {
    /// The target delay, in ticks.
    pub target: u64,
    /// The time between two updates, in jiffies. It decides nothing: the timer's calls are inputs.
    pub tupdate: u32,
    /// The greatest number of packets in the queue.
    pub limit: u32,
    /// The gain of the delay, in sixteenths.
    pub alpha: u32,
    /// The gain of the delay's change, in sixteenths.
    pub beta: u32,
    /// True if picked packets are marked.
    pub ecn: bool,
    /// True if the probability is in proportion to a packet's length.
    pub bytemode: bool,
    /// True if the delay is estimated from the departure rate.
    pub dq_rate_estimator: bool,
    /// The greatest probability at which packets are marked.
    pub marks: MarkLimit,
}
