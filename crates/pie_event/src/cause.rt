//! Causes of decisions on arrivals: the first case of the rules that holds, with the numbers that it compared.
//! `pie_early` and `pie_aqm` compute them.
//! Names of causes.
ghost use Rattle.std.specs.Prelude.{◌≡◌, ◌<◌};
ghost use Rattle.pie_event.specs.Cause.{verdict_named, name_of, place_of_cause, word_of_cause};

use crate::Verdict;

/// The reason for the mark or drop of a picked packet (RFC 8033, section 5.1).
#[derive(Clone, Copy)]
pub enum Fate {
    /// Marked: the packet's endpoints understand a mark, and the probability is below `mark_ecnth`.
    Marked {
        /// `mark_ecnth`, in units of `10^-12`.
        threshold: u64,
    },
    /// Dropped: the packet's endpoints do not understand a mark (RFC 3168, section 5).
    NotCapable,
    /// Dropped: the packet's endpoints understand a mark, but the probability is at least `mark_ecnth`.
    NotBelow {
        /// `mark_ecnth`, in units of `10^-12`.
        threshold: u64,
    },
}

/// The cause of the decision on an arrival: the first case of the rules that held, in this order, with the numbers that
/// it compared. All numbers are those before the arrival. Bytes do not include the arriving packet, times are in
/// nanoseconds, probabilities in units of `10^-12`.
#[derive(Clone, Copy)]
pub enum Cause {
    /// Tail drop: with the packet the queue would hold more bytes than `limit_bytes` (RFC 8033, Appendix A).
    NoRoomInBytes {
        /// The bytes in the queue.
        bytes: u64,
        /// The size of the packet, in bytes.
        size: u32,
        /// `limit_bytes`.
        limit: u64,
    },
    /// Tail drop: the ring is full of packets (this project's own limit).
    NoRoomInPackets {
        /// The number of waiting packets, which is the capacity of the ring.
        packets: u64,
    },
    /// Queued: the controller is inactive, which happens in profile two only (RFC 8033, section 5.3).
    Inactive,
    /// Queued: the burst allowance is not used up (RFC 8033, section 4.4).
    BurstAllowed {
        /// The remaining burst allowance, above 0.
        burst: u64,
    },
    /// Queued: the old delay is below half the target, and the probability is below 0.2 (RFC 8033, section 4.1).
    LowDelay {
        /// The old delay: the delay of the last update.
        old_delay: u64,
        /// The target.
        target: u64,
        /// The probability.
        prob: u64,
    },
    /// Queued: the queue holds at most two packets of the mean size (RFC 8033, section 4.1).
    ShortQueue {
        /// The bytes in the queue.
        bytes: u64,
        /// `mean_pkt`.
        mean_pkt: u64,
    },
    /// Queued: the probability is 0.
    NoProbability,
    /// Queued: the accumulated probability, including the current one, is below 0.85 (RFC 8033, section 5.4).
    LittleAccumulated {
        /// The accumulated probability, without the current one.
        accu: u64,
        /// The effective probability: scaled by the packet's size if sizes are scaled.
        prob: u64,
    },
    /// Picked regardless of the random word: the accumulated probability, including the current one, is at least 8.5
    /// (RFC 8033, section 5.4).
    PickedBySum {
        /// The accumulated probability, without the current one.
        accu: u64,
        /// The effective probability: scaled by the packet's size if sizes are scaled.
        prob: u64,
        /// The reason for the mark or drop.
        fate: Fate,
    },
    /// Picked: the random word, as a fraction of 2^64, is below the probability (RFC 8033, section 4.1).
    PickedByWord {
        /// The accumulated probability, without the current one.
        accu: u64,
        /// The effective probability: scaled by the packet's size if sizes are scaled.
        prob: u64,
        /// The random word.
        word: u64,
        /// The reason for the mark or drop.
        fate: Fate,
    },
    /// Queued: the random word, as a fraction of 2^64, is not below the probability (RFC 8033, section 4.1).
    WordNotBelow {
        /// The accumulated probability, without the current one.
        accu: u64,
        /// The effective probability: scaled by the packet's size if sizes are scaled.
        prob: u64,
        /// The random word.
        word: u64,
    },
}

/// The name of a cause, with the fate of a picked packet: a `Cause` without its numbers, in the order of the decision.
#[derive(Clone, Copy)]
pub enum CauseName {
    /// Tail drop: no room in bytes.
    NoRoomInBytes,
    /// Tail drop: no room in packets.
    NoRoomInPackets,
    /// Queued: the controller is inactive.
    Inactive,
    /// Queued: the burst allowance is not used up.
    BurstAllowed,
    /// Queued: the old delay is low, and the probability is small.
    LowDelay,
    /// Queued: the queue is short.
    ShortQueue,
    /// Queued: the probability is 0.
    NoProbability,
    /// Queued: the accumulated probability is small.
    LittleAccumulated,
    /// Picked by the accumulated probability, and marked.
    PickedBySumMarked,
    /// Picked by the accumulated probability, and dropped: the packet's endpoints do not understand a mark.
    PickedBySumNotCapable,
    /// Picked by the accumulated probability, and dropped: the probability is at least `mark_ecnth`.
    PickedBySumNotBelow,
    /// Picked by the random word, and marked.
    PickedByWordMarked,
    /// Picked by the random word, and dropped: the packet's endpoints do not understand a mark.
    PickedByWordNotCapable,
    /// Picked by the random word, and dropped: the probability is at least `mark_ecnth`.
    PickedByWordNotBelow,
    /// Queued: the random word is not below the probability.
    WordNotBelow,
}

impl CauseName {
    /// Returns the keyword of the cause in records of explanations and summaries.
    #[tactic(auto, unfolding(crate::specs::Cause::word_of_cause))]
    pub fn word(self) -> &'static str
        ensures { result.now ≡ word_of_cause self }
    {
        match self {
            CauseName::NoRoomInBytes => "no_room_in_bytes",
            CauseName::NoRoomInPackets => "no_room_in_packets",
            CauseName::Inactive => "inactive",
            CauseName::BurstAllowed => "burst_allowed",
            CauseName::LowDelay => "low_delay",
            CauseName::ShortQueue => "short_queue",
            CauseName::NoProbability => "no_probability",
            CauseName::LittleAccumulated => "little_accumulated",
            CauseName::PickedBySumMarked => "picked_by_sum",
            CauseName::PickedBySumNotCapable => "picked_by_sum_not_capable",
            CauseName::PickedBySumNotBelow => "picked_by_sum_not_below",
            CauseName::PickedByWordMarked => "picked_by_word",
            CauseName::PickedByWordNotCapable => "picked_by_word_not_capable",
            CauseName::PickedByWordNotBelow => "picked_by_word_not_below",
            CauseName::WordNotBelow => "word_not_below",
        }
    }

    /// Returns the verdict on an arrival whose cause has this name.
    #[inline(always)]
    pub fn verdict(self) -> Verdict
        ensures { result ≡ verdict_named self }
    {
        match self {
            CauseName::NoRoomInBytes => Verdict::DroppedBytes,
            CauseName::NoRoomInPackets => Verdict::DroppedPackets,
            CauseName::PickedBySumMarked | CauseName::PickedByWordMarked => Verdict::Marked,
            CauseName::PickedBySumNotCapable
            | CauseName::PickedBySumNotBelow
            | CauseName::PickedByWordNotCapable
            | CauseName::PickedByWordNotBelow => Verdict::DroppedEarly,
            _ => Verdict::Enqueued,
        }
    }

    /// Returns the position in the order of the decision, 0 to 14.
    pub fn place(self) -> usize
        ensures place { result ≡ place_of_cause self }
        ensures within { result < 15 }
    {
        self as usize
    }
}

impl Cause {
    /// Returns the name of the cause. It is inlined: an arrival then never stores the numbers of its cause.
    #[inline(always)]
    pub fn name(self) -> CauseName
        ensures { result ≡ name_of self }
    {
        match self {
            Cause::NoRoomInBytes { .. } => CauseName::NoRoomInBytes,
            Cause::NoRoomInPackets { .. } => CauseName::NoRoomInPackets,
            Cause::Inactive => CauseName::Inactive,
            Cause::BurstAllowed { .. } => CauseName::BurstAllowed,
            Cause::LowDelay { .. } => CauseName::LowDelay,
            Cause::ShortQueue { .. } => CauseName::ShortQueue,
            Cause::NoProbability => CauseName::NoProbability,
            Cause::LittleAccumulated { .. } => CauseName::LittleAccumulated,
            Cause::PickedBySum { fate, .. } => match fate {
                Fate::Marked { .. } => CauseName::PickedBySumMarked,
                Fate::NotCapable => CauseName::PickedBySumNotCapable,
                Fate::NotBelow { .. } => CauseName::PickedBySumNotBelow,
            },
            Cause::PickedByWord { fate, .. } => match fate {
                Fate::Marked { .. } => CauseName::PickedByWordMarked,
                Fate::NotCapable => CauseName::PickedByWordNotCapable,
                Fate::NotBelow { .. } => CauseName::PickedByWordNotBelow,
            },
            Cause::WordNotBelow { .. } => CauseName::WordNotBelow,
        }
    }
}
