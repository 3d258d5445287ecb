//! Decisions of early drop over plain numbers, and their causes.
ghost use Rattle.std.specs.Prelude.{◌≡◌, ◌+◌, ◌*◌, ◌==◌, ◌≤◌, ◌&&◌, ◌||◌, ℕ, nat_lt, is_none, Some, if◌then◌else◌};
ghost use Rattle.pie_params.specs.declared.elements.Size.TheVariants.{Scaled};
ghost use Rattle.pie_event.specs.Cause.{verdict_named, verdict_of, name_of};
ghost use Rattle.pie_early.specs.Cause.{considered_cause, early_cause, fate_of};
ghost use Rattle.pie_early.specs.Decision.{a_fifth, accu_after, choice_of, chosen, effective_prob, is_below, is_considered, is_picked, joined};

use crate::early::{LOW_PROB, NO_PICK_BELOW};
use pie_control::RawControl;
use pie_event::{Cause, CauseName, Fate};
use pie_fixed::{ALWAYS_PICKED, picks};
use pie_params::{Elements, Picking, RawParams, Size};
use pie_queue::Ecn;

/// An arriving packet that fits into the queue, and the bytes in the queue before it.
#[derive(Clone, Copy)]
pub struct Offered {
    /// The bytes in the queue, without the packet.
    pub bytes: u64,
    /// The packet's size, in bytes.
    pub size: u32,
    /// The packet's ECN field.
    pub ecn: Ecn,
    /// A random word, uniformly distributed over `u64`.
    pub word: u64,
}

/// The decision on an arriving packet, and the accumulated probability after it.
#[derive(Clone, Copy)]
pub struct Decision {
    /// The name of the [`cause`]. It determines the verdict.
    pub name: CauseName,
    /// The accumulated probability, in units of `10^-12`.
    pub accu: u64,
}

/// Decides on plain numbers, which may be out of range, as [`Early::consider`](crate::Early::consider) does on checked
/// ones. `accu` is the accumulated probability before the arrival (RFC 8033, sections 4.1, 5.1 and 5.4).
///
/// No sum or product overflows, so the result follows the rule for all numbers.
#[inline(always)]
#[tactic(auto, using(std::proofs::lemmas::Bool::Decides::nat_tests))]
pub fn decide(
    params: &RawParams,
    elements: Elements,
    control: &RawControl,
    offered: Offered,
    accu: u64,
) -> Decision
    ensures name { result.name ≡ name_of (early_cause elements params.now control.now offered accu) }
    ensures verdict { verdict_named result.name ≡ chosen (choice_of elements params.now control.now offered accu) }
    ensures accu { result.accu ≡ accu_after elements params.now control.now offered accu }
{
    if let Some(name) = unconsidered(params, control, offered.bytes) {
        return Decision { name, accu };
    }
    let effective = effective_prob(elements.size, params, offered.size, control.prob);
    decide_considered(params, elements, control.prob, offered, effective, accu)
}

/// Returns the name of the reason why an arrival at `bytes` queued bytes is not considered, or `None` if it is
/// considered (RFC 8033, section 4.1).
#[inline(always)]
#[tactic(auto, using(std::proofs::lemmas::Bool::Decides::nat_tests), unfolding(crate::specs::Decision::is_considered, crate::specs::Cause::early_cause))]
fn unconsidered(params: &RawParams, control: &RawControl, bytes: u64) -> Option<CauseName>
    ensures considered { is_none result ≡ is_considered params.now control.now bytes }
    ensures named { (name : CauseName) (elements : Elements) (offered : Offered) (accu : ℕ) → result ≡ Some name → offered.bytes ≡ bytes
        → name ≡ name_of (early_cause elements params.now control.now offered accu) }
{
    if control.burst > 0 {
        return Some(CauseName::BurstAllowed);
    }
    // The queue is tested first: most arrivals that are not considered meet a short queue.
    if params.mean_pkt < half(bytes) && !is_low(params, control) {
        return None;
    }
    Some(if is_low(params, control) {
        CauseName::LowDelay
    } else {
        CauseName::ShortQueue
    })
}

/// Returns true if the old delay is below half the target and the probability below 0.2.
#[inline(always)]
#[tactic(auto, using(std::proofs::lemmas::Bool::Decides::nat_tests))]
fn is_low(params: &RawParams, control: &RawControl) -> bool
    ensures { result ≡ (nat_lt (2 * control.now.old_delay) params.now.target && nat_lt control.now.prob a_fifth) }
{
    control.old_delay < half(params.target) && control.prob < LOW_PROB
}

/// Decides on a considered arrival at the probability `prob`, whose effective value is `effective`. With accumulation
/// the sum with `effective` and the word decide (RFC 8033, section 5.4), otherwise the word alone (section 4.1). A sum
/// that exceeds `u64` is above 8.5.
#[inline(always)]
#[tactic(auto, using(std::proofs::lemmas::Bool::Decides::nat_tests), unfolding(crate::specs::Cause::considered_cause, crate::specs::Decision::is_picked))]
fn decide_considered(
    params: &RawParams,
    elements: Elements,
    prob: u64,
    offered: Offered,
    effective: u64,
    accu: u64,
) -> Decision
    ensures name { result.name ≡ name_of (considered_cause elements.picking effective accu (fate_of params.now prob offered.ecn) offered.word) }
    ensures accu { result.accu ≡ (if (effective == 0) || is_picked elements.picking effective (accu + effective) offered.word then 0
        else joined elements.picking accu effective) }
{
    if effective == 0 {
        return Decision {
            name: CauseName::NoProbability,
            accu: 0,
        };
    }
    // Without accumulation a sum between the two bounds stands for it, so that the word decides.
    let sum = match elements.picking {
        Picking::Random => Some(NO_PICK_BELOW),
        Picking::Derandomized => accu.checked_add(effective),
    };
    match sum {
        Some(sum) if sum < NO_PICK_BELOW => Decision {
            name: CauseName::LittleAccumulated,
            accu: sum,
        },
        Some(sum) if sum < ALWAYS_PICKED && !is_below(offered.word, effective) => Decision {
            name: CauseName::WordNotBelow,
            accu: match elements.picking {
                Picking::Random => accu,
                Picking::Derandomized => sum,
            },
        },
        Some(sum) if sum < ALWAYS_PICKED => Decision {
            name: Cause::PickedByWord {
                accu,
                prob: effective,
                word: offered.word,
                fate: fate_of(params, prob, offered.ecn),
            }
            .name(),
            accu: 0,
        },
        _ => Decision {
            name: Cause::PickedBySum {
                accu,
                prob: effective,
                fate: fate_of(params, prob, offered.ecn),
            }
            .name(),
            accu: 0,
        },
    }
}

/// Returns half of `number`, rounded up, without overflow. A number is below the result if its double is below
/// `number`.
#[inline(always)]
fn half(number: u64) -> u64
    ensures at_least { number ≤ 2 * result }
    ensures at_most { 2 * result ≤ number + 1 }
{
    number - number / 2
}

/// Returns the effective value of the probability `prob`, in units of `10^-12`, for a packet of `size` bytes. If sizes
/// are scaled and the packet is smaller than `mean_pkt`, it is reduced in proportion to the size and rounded down (this
/// project's own; Linux's `bytemode` if `mean_pkt` is the link's MTU).
#[inline(always)]
fn effective_prob(sizes: Size, params: &RawParams, size: u32, prob: u64) -> u64
    ensures value { result ≡ effective_prob sizes params.now size prob }
    ensures at_most { result ≤ prob }
{
    match sizes {
        Size::Unscaled => prob,
        Size::Scaled => scaled(params, size, prob),
    }
}

/// Returns the effective value of the probability if sizes are scaled.
#[inline(never)]
#[tactic(auto, using(std::proofs::lemmas::Bool::Decides::nat_tests, crate::proofs::Laws::scaled_below))]
fn scaled(params: &RawParams, size: u32, prob: u64) -> u64
    ensures value { result ≡ effective_prob Scaled params.now size prob }
    ensures at_most { result ≤ prob }
{
    if u64::from(size) < params.mean_pkt {
        (u128::from(prob) * u128::from(size) / u128::from(params.mean_pkt)) as u64
    } else {
        prob
    }
}

/// Returns true if the random word `word` picks a packet at the probability `prob`.
#[inline(always)]
fn is_below(word: u64, prob: u64) -> bool
    ensures { result ≡ is_below word prob }
{
    picks(prob, word)
}

/// Returns the reason why a picked packet is marked or dropped (RFC 8033, section 5.1).
#[inline(always)]
fn fate_of(params: &RawParams, prob: u64, ecn: Ecn) -> Fate
    ensures { result ≡ fate_of params.now prob ecn }
{
    let threshold = params.mark_ecnth;
    if !ecn.capable() {
        Fate::NotCapable
    } else if prob < threshold {
        Fate::Marked { threshold }
    } else {
        Fate::NotBelow { threshold }
    }
}

/// Returns the cause of the decision on an arrival: the first case of the rules that holds, with the numbers that it
/// compared. [`decide`] returns its name.
#[tactic(auto, using(std::proofs::lemmas::Bool::Decides::nat_tests), unfolding(crate::specs::Cause::early_cause, crate::specs::Decision::is_considered))]
pub fn cause(
    params: &RawParams,
    elements: Elements,
    control: &RawControl,
    offered: Offered,
    accu: u64,
) -> Cause
    ensures cause { result ≡ early_cause elements params.now control.now offered accu }
    ensures verdict { verdict_of result ≡ chosen (choice_of elements params.now control.now offered accu) }
{
    match unconsidered(params, control, offered.bytes) {
        None => considered_cause(params, elements, control, offered, accu),
        Some(CauseName::BurstAllowed) => Cause::BurstAllowed {
            burst: control.burst,
        },
        Some(CauseName::LowDelay) => Cause::LowDelay {
            old_delay: control.old_delay,
            target: params.target,
            prob: control.prob,
        },
        Some(_) => Cause::ShortQueue {
            bytes: offered.bytes,
            mean_pkt: params.mean_pkt,
        },
    }
}

/// Returns the cause of the decision on a considered arrival.
#[inline(always)]
#[tactic(auto, using(std::proofs::lemmas::Bool::Decides::nat_tests), unfolding(crate::specs::Cause::considered_cause))]
fn considered_cause(
    params: &RawParams,
    elements: Elements,
    control: &RawControl,
    offered: Offered,
    accu: u64,
) -> Cause
    ensures { result ≡ considered_cause elements.picking (effective_prob elements.size params.now offered.size control.now.prob) accu
        (fate_of params.now control.now.prob offered.ecn) offered.word }
{
    let effective = effective_prob(elements.size, params, offered.size, control.prob);
    let fate = fate_of(params, control.prob, offered.ecn);
    match decide_considered(params, elements, control.prob, offered, effective, accu).name {
        CauseName::LittleAccumulated => Cause::LittleAccumulated {
            accu,
            prob: effective,
        },
        CauseName::PickedBySumMarked
        | CauseName::PickedBySumNotCapable
        | CauseName::PickedBySumNotBelow => Cause::PickedBySum {
            accu,
            prob: effective,
            fate,
        },
        CauseName::PickedByWordMarked
        | CauseName::PickedByWordNotCapable
        | CauseName::PickedByWordNotBelow => Cause::PickedByWord {
            accu,
            prob: effective,
            word: offered.word,
            fate,
        },
        CauseName::WordNotBelow => Cause::WordNotBelow {
            accu,
            prob: effective,
            word: offered.word,
        },
        _ => Cause::NoProbability,
    }
}
