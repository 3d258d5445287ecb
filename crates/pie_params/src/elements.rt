//! Optional elements of RFC 8033, each as a choice.
ghost use Rattle.std.specs.Prelude.{◌≡◌};

/// The source of the queueing delay of an update.
#[derive(Clone, Copy, Debug, PartialEq, Eq)]
pub enum Delay {
    /// The departure rate: the bytes in the queue over the estimated rate (RFC 8033, section 5.2).
    Rate,
    /// Time stamps: the time that the last departed packet spent in the queue (RFC 8033, section 4.3). While a link
    /// stalls no packet departs, so this delay does not change.
    Stamp,
}

/// The method that picks considered packets.
#[derive(Clone, Copy, Debug, PartialEq, Eq)]
pub enum Picking {
    /// De-randomized: probabilities accumulate, so that picks are neither too close together nor too far apart (RFC
    /// 8033, section 5.4).
    Derandomized,
    /// The random word alone (RFC 8033, section 4.1).
    Random,
}

impl Picking {
    ghost use Rattle.pie_params.specs.Params.{accumulates};

    /// Returns true if probabilities accumulate.
    #[inline(always)]
    pub fn accumulates(self) -> bool
        ensures { result ≡ accumulates self }
    {
        matches!(self, Picking::Derandomized)
    }
}

/// The limit on a rise of the probability in one update.
#[derive(Clone, Copy, Debug, PartialEq, Eq)]
pub enum Step {
    /// At most 0.02 if the probability is at least 0.1 (RFC 8033, section 5.5).
    Capped,
    /// No limit: the control law alone.
    Uncapped,
}

/// The effect of a packet's size on its probability.
#[derive(Clone, Copy, Debug, PartialEq, Eq)]
pub enum Size {
    /// None: all packets have the same probability.
    Unscaled,
    /// A packet smaller than `mean_pkt` has a smaller probability, in proportion to its size (this project's own
    /// rounding; Linux's `bytemode` if `mean_pkt` is the link's MTU).
    Scaled,
}

/// The delays at which an update reduces the probability by 2 per cent, after the step is added.
#[derive(Clone, Copy, Debug, PartialEq, Eq)]
pub enum Decay {
    /// The delay and the old delay are both 0 (RFC 8033, section 4.2).
    Zero,
    /// Both are below half the target (RFC 8033, Appendix B; DPDK's `rte_pie`).
    Half,
}

/// Optional elements of RFC 8033 (section 5). They are chosen when a controller is opened.
#[derive(Clone, Copy, Debug, PartialEq, Eq)]
pub struct Elements {
    /// The source of the queueing delay of an update.
    pub delay: Delay,
    /// The method that picks considered packets.
    pub picking: Picking,
    /// The limit on a rise of the probability in one update.
    pub step: Step,
    /// The effect of a packet's size on its probability.
    pub size: Size,
    /// The delays at which an update reduces the probability.
    pub decay: Decay,
}

impl Elements {
    ghost use Rattle.pie_params.specs.Params.{usual};

    /// Returns the default choices: the delay from the departure rate, de-randomized picking, capped steps, no scaling
    /// by size, and the decay at delays of 0.
    #[inline(always)]
    pub fn usual() -> Self
        ensures { result ≡ usual }
    {
        Elements {
            delay: Delay::Rate,
            picking: Picking::Derandomized,
            step: Step::Capped,
            size: Size::Unscaled,
            decay: Decay::Zero,
        }
    }
}
