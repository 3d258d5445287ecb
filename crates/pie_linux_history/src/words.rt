//! The explanation of a packet in words.
use crate::explained::{ExplainedPacket, Fate, is_marked};
use pie_linux::{LinuxCause, Picked};
use std::fmt;

/// Returns the verdict on a packet.
fn verdict(fate: Fate) -> &'static str {
    match fate {
        Fate::Change => "DROPPED by a change of the limit",
        Fate::Reset => "DROPPED by a reset",
        Fate::Arrival(LinuxCause::OverLimit) => "DROPPED over the limit",
        Fate::Arrival(cause) => {
            if is_marked(cause) {
                "MARKED"
            } else if cause.is_queued() {
                "queued"
            } else {
                "DROPPED early"
            }
        }
    }
}

/// Returns the rule of Linux that decided a packet.
fn cause_words(fate: Fate) -> &'static str {
    match fate {
        Fate::Change => "tc set a lower limit, which drops from the front of the queue",
        Fate::Reset => "the queue was purged or removed",
        Fate::Arrival(LinuxCause::OverLimit) => "the queue is at its limit (overlimit)",
        Fate::Arrival(LinuxCause::BurstTime) => "queued: burst allowance is left (burst_time)",
        Fate::Arrival(LinuxCause::LowDelay) => {
            "queued: the delay is below half the target, and the probability below 20 %"
        }
        Fate::Arrival(LinuxCause::ShortQueue) => "queued: fewer than two MTUs wait",
        Fate::Arrival(LinuxCause::SumBelow) => {
            "queued: the accumulated probability (accu_prob) is below 85 %"
        }
        Fate::Arrival(LinuxCause::WordNotBelow) => {
            "queued: the random word is not below the probability"
        }
        Fate::Arrival(LinuxCause::SumAbove(_)) => {
            "picked: the accumulated probability (accu_prob) is at least 850 %"
        }
        Fate::Arrival(LinuxCause::WordBelow(_)) => {
            "picked: the random word is below the probability"
        }
    }
}

/// Returns the reason why a picked packet is dropped or marked, if it was picked.
fn fate_words(fate: Fate) -> Option<&'static str> {
    let picked = match fate {
        Fate::Arrival(LinuxCause::SumAbove(picked))
        | Fate::Arrival(LinuxCause::WordBelow(picked)) => picked,
        _ => return None,
    };
    Some(match picked {
        Picked::EcnOff => "dropped: ecn is off",
        Picked::HighProbability => "dropped: the probability is above the limit for marks",
        Picked::NotCapable => "dropped: the packet cannot be marked",
        Picked::Marked => "marked: ecn is on, and the packet is ECN-capable",
    })
}

/// Writes the queue before the packet.
#[inline(never)]
fn write_queue<W: fmt::Write>(it: &ExplainedPacket, f: &mut fmt::Formatter<W>) -> fmt::Result {
    let (length, backlog) = (it.packet.length, it.packet.backlog);
    let delay = u128::from(it.packet.state.qdelay).saturating_mul(64);
    let (millis, rest) = (delay / 1_000_000, delay % 1_000_000);
    let limit = it.packet.limit;
    let parts = u128::from(it.packet.state.prob).saturating_mul(1_000_000) >> 56;
    let (percent, fraction) = (parts / 10_000, parts % 10_000);
    writeln!(
        f,
        "  before it: {length} packets of at most {limit}, {backlog} bytes, a delay of {millis}.{rest:06} ms"
    )?;
    writeln!(f, "  probability {percent}.{fraction:04} %")
}

impl fmt::Display for ExplainedPacket {
    fn fmt<W: fmt::Write>(&self, f: &mut fmt::Formatter<W>) -> fmt::Result {
        let (event, queue, step, bytes) = (self.event, &self.queue, self.step, self.packet.bytes);
        let verdict = verdict(self.packet.fate);
        writeln!(
            f,
            "event {event}: queue {queue}, step {step}, {bytes} bytes: {verdict}"
        )?;
        let (seconds, rest) = (self.moment / 1_000_000_000, self.moment % 1_000_000_000);
        write!(f, "  at {seconds}.{rest:09} s since boot")?;
        if let Some(flow) = self.flow {
            write!(f, ", flow {flow}")?;
        }
        let cause = cause_words(self.packet.fate);
        write!(f, "\n  {cause}\n")?;
        if let Some(fate) = fate_words(self.packet.fate) {
            writeln!(f, "  {fate}")?;
        }
        write_queue(self, f)
    }
}
