//! Early drop for numbers in their ranges.
ghost use Rattle.std.specs.Prelude.{◌≡◌, ℕ, ◌+◌, ◌*◌, ◌<◌, ◌↔◌, List, [], ◌∷◌, ◌++◌, true, replicate, IsTrue};
ghost use Rattle.pie_fixed.specs.declared.TheConstants.{ALWAYS_PICKED};
ghost use Rattle.pie_params.specs.declared.elements.Picking.TheVariants.{Derandomized};
ghost use Rattle.pie_early.specs.Decision.{accu_after, choice_of, chosen, effective_prob_of, is_considered, is_pick, IsPicked, EarlyEvent, arrival, cleared, is_clearing, Represents, accumulated};

use crate::decision::{Offered, decide};
use pie_control::Control;
use pie_event::Verdict;
use pie_fixed::Accu;
use pie_params::{Elements, Params};
use std::marker::Model;

/// The probability 0.2, in units of `10^-12`. Below it a packet is queued while the old delay is below half the target
/// (RFC 8033, section 4.1).
pub const LOW_PROB: u64 = 200_000_000_000;

/// The accumulated probability 0.85, in units of `10^-12`. Below it no packet is picked (RFC 8033, section 5.4).
pub const NO_PICK_BELOW: u64 = 850_000_000_000;

/// The choice for an arriving packet that fits into the queue.
#[derive(Clone, Copy, PartialEq, Eq)]
pub enum Choice {
    /// The packet is queued unchanged.
    Enqueue,
    /// The packet is queued and marked with congestion experienced (RFC 8033, section 5.1).
    Mark,
    /// The packet is dropped.
    Drop,
}

/// Returns the choice with the verdict `verdict`. A tail drop is no choice of early drop.
#[inline(always)]
fn choice_by(verdict: Verdict) -> Choice
    ensures { (choice : Choice) → verdict ≡ chosen choice → result ≡ choice }
{
    match verdict {
        Verdict::Marked => Choice::Mark,
        Verdict::DroppedEarly => Choice::Drop,
        _ => Choice::Enqueue,
    }
}

/// The accumulated probability, which spaces the picked packets neither too close together nor too far apart (RFC 8033,
/// section 5.4).
///
/// Contracts see its number of units of `10^-12`, and compare it with the list of arrivals and clears.
#[derive(Clone, Copy)]
pub struct Early {
    accu: u64,
}

impl Model for Early {
    ghost use Rattle.std.specs.Prelude.{ℕ, ◌<◌};
    ghost use Rattle.pie_fixed.specs.declared.TheConstants.{ALWAYS_PICKED};

    ghost Value = { ℕ };

    ghost view = { λ e. e.accu };

    ghost invariant = { λ e. e.accu < ALWAYS_PICKED };

    ghost inverse = { λ n. record { accu = n } };
}

impl Early {
    /// Makes early drop before any arrival, with the accumulated probability 0.
    #[tactic(auto, unfolding(crate::specs::Decision::accumulated))]
    pub fn opened() -> Self
        ensures value { result ≡ 0 }
        ensures represents { Represents [] result }
    {
        Early { accu: 0 }
    }

    /// Decides on an arriving packet that is not a tail drop (RFC 8033, sections 4.1, 5.1 and 5.4; the comparison with
    /// a random word of 64 bits is this project's own).
    ///
    /// An arrival is not considered in three cases: the burst allowance is above 0; the queue holds at most two packets
    /// of the mean size; the old delay is below half the target and the probability below 0.2. It is then queued, and
    /// the accumulated probability is unchanged.
    ///
    /// A considered arrival is decided by its probability:
    ///
    /// - At probability 0 the accumulated probability becomes 0 and the packet is queued.
    /// - Otherwise the probability is added to the accumulated one. Below 0.85 the packet is queued. From 8.5 on it is
    ///   picked. Between the two it is picked if the random word is below the probability.
    ///
    /// A picked packet is marked if its endpoints understand a mark and the probability is below `mark_ecnth`.
    /// Otherwise it is dropped. In both cases the accumulated probability becomes 0.
    ///
    /// If picking is random, a considered arrival at a probability above 0 is picked exactly if the word is below the
    /// probability, and nothing accumulates. If sizes are scaled, the effective probability of a packet smaller than
    /// `mean_pkt` takes the place of the probability in the sum, in the comparison with the word, and in the test for
    /// 0.
    #[inline(always)]
    pub fn consider(
        &mut self,
        params: &Params,
        elements: Elements,
        control: &Control,
        offered: Offered,
    ) -> Choice
        ensures choice { result ≡ choice_of elements params.now control.now offered self.old }
        ensures picked { IsTrue (is_pick result) ↔ IsPicked elements.picking params.now control.now (effective_prob_of elements params.now control.now offered)
            offered.bytes offered.word self.old }

        // from the accumulated probability before the arrival, for any list of arrivals
        ensures accu { self.new ≡ accu_after elements params.now control.now offered self.old }

        // the look-back over all inputs
        ensures look_back { (events : List EarlyEvent) →
            Represents events self.old →
            result ≡ choice_of elements params.now control.now offered (accumulated events) }
        ensures represents { (events : List EarlyEvent) →
            let considered = is_considered params.now control.now offered.bytes in
            Represents events self.old →
            Represents (events ++ arrival considered (effective_prob_of elements params.now control.now offered) elements.picking result ∷ []) self.new }

        // if probabilities accumulate, the accumulated one grows between two picks by the probability at each arrival
        // that is considered at a probability above 0
        ensures grows { elements.picking ≡ Derandomized →
            IsTrue (is_considered params.now control.now offered.bytes) →
            0 < effective_prob_of elements params.now control.now offered →
            result ≡ Choice.Enqueue →
            self.new ≡ self.old + effective_prob_of elements params.now control.now offered }
    {
        let decision = decide(&params.raw(), elements, &control.raw(), offered, self.accu);
        self.accu = decision.accu;
        choice_by(decision.name.verdict())
    }

    /// Sets the accumulated probability to 0, as a tail drop and a reset do (RFC 8033, section 5.4).
    #[tactic(auto, using(crate::proofs::Laws::represents_cleared))]
    pub fn clear(&mut self)
        ensures value { self.new ≡ 0 }
        ensures represents { (events : List EarlyEvent) →
            Represents events self.old → Represents (events ++ cleared ∷ []) self.new }
    {
        self.accu = 0;
    }

    /// Returns the accumulated probability, below 8.5 (RFC 8033, section 5.4).
    pub fn accu(&self) -> Accu
        ensures value { result ≡ self.now }
        ensures bound { result < ALWAYS_PICKED }
        ensures look_back { (events : List EarlyEvent) →
            Represents events self.now → result ≡ accumulated events }

        // after a clearing event and n queued arrivals, each considered at one probability above 0 that accumulates, it
        // is n times this probability
        ensures run { (before : List EarlyEvent) (clearing : EarlyEvent) (n prob : ℕ) →
            IsTrue (is_clearing clearing) →
            0 < prob →
            Represents (before ++ clearing ∷ replicate n (arrival true prob Derandomized Choice.Enqueue)) self.now →
            result ≡ n * prob }
    {
        Accu::of_units(self.accu)
    }
}
