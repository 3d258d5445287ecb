ghost use Rattle.std.specs.Prelude.{◌≡◌};
ghost use Rattle.pie_linux.specs.Enqueue.{counted};

use crate::cause::LinuxCause;
use crate::params::MarkLimit;

/// The counters that `tc -s` prints (`struct pie_stats`). Each wraps at 32 bits.
#[derive(Clone, Copy, PartialEq, Eq)]
pub struct LinuxStats {
    /// The packets that were queued.
    pub packets_in: u32,
    /// The packets that were dropped.
    pub dropped: u32,
    /// The packets that the limit dropped.
    pub overlimit: u32,
    /// The packets that were marked.
    pub ecn_mark: u32,
    /// The greatest number of waiting packets before an arrival that was queued; 0 with fq_pie.
    pub maxq: u32,
}

impl LinuxStats {
    /// Makes the counters of a new queue.
    pub fn new() -> LinuxStats
        ensures { result ≡ record { packets_in = 0; dropped = 0; overlimit = 0; ecn_mark = 0; maxq = 0 } }
    {
        LinuxStats {
            packets_in: 0,
            dropped: 0,
            overlimit: 0,
            ecn_mark: 0,
            maxq: 0,
        }
    }

    /// Counts a decision with this cause, made when `length` packets waited (`pie_qdisc_enqueue`,
    /// `fq_pie_qdisc_enqueue`). `marks` tells pie from fq_pie.
    pub fn count(&mut self, marks: MarkLimit, cause: LinuxCause, length: u32)
        ensures { self.new ≡ counted marks self.old cause length }
    {
        let queued = cause.is_queued();
        let keeps = queued && matches!(marks, MarkLimit::Tenth);
        *self = LinuxStats {
            packets_in: self.packets_in.wrapping_add(u32::from(queued)),
            dropped: self.dropped.wrapping_add(u32::from(!queued)),
            overlimit: self
                .overlimit
                .wrapping_add(u32::from(cause.is_over_limit())),
            ecn_mark: self.ecn_mark.wrapping_add(u32::from(cause.is_marked())),
            maxq: if keeps {
                self.maxq.max(length)
            } else {
                self.maxq
            },
        };
    }
}
