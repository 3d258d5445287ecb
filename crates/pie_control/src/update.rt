//! The queueing delay, and the probability after an update.
ghost use Rattle.std.specs.Prelude.{◌≡◌, ℕ, ◌+◌, ◌^◌, ◌<◌, ◌≤◌, ◌&&◌, nat_le, if◌then◌else◌, pos, negsuc, ◌-ℤ◌, ◌*ℤ◌, ◌≤ℤ◌, ◌/◌, int_div};
ghost use Rattle.std.specs.Int.{int_min};
ghost use Rattle.pie_fixed.specs.declared.TheConstants.{ONE};
ghost use Rattle.pie_fixed.specs.Fixed.{bounded_of};
ghost use Rattle.pie_params.specs.Params.{IsInRange, is_capped, usual};
ghost use Rattle.pie_control.specs.{delay_of, are_below_half, decayed, decays, next, raw_step, tuned_step, tuning_divisor};
ghost use Rattle.pie_params.specs.declared.elements.Step.TheVariants.{Capped};

use pie_fixed::{Prob, bounded};
use pie_params::{Decay, Elements, Params, RawParams, Step};

/// The greatest delay, `2^40` nanoseconds: a greater estimate is replaced by it (this project's own).
pub const MAX_DELAY: u64 = 1 << 40;

/// The probability 0.1, from which on a step upward is capped if steps are (RFC 8033, section 5.5).
const CAPPED_FROM: u64 = 100_000_000_000;

/// The largest step upward from there on, 0.02 (RFC 8033, section 5.5).
const LARGEST_STEP: i64 = 20_000_000_000;

/// The probability 2. The decay leaves this sum, and each larger one, above the probability 1.
const LARGEST_SUM: i64 = 2_000_000_000_000;

/// Returns the queueing delay in nanoseconds, at most [`MAX_DELAY`]: `bytes * average / threshold`, rounded down.
/// `average` is the average time, in nanoseconds, in which `threshold` bytes depart (RFC 8033, section 5.2).
#[tactic(auto, unfolding(crate::specs::History::delay_of))]
pub fn delay(bytes: u64, average: u64, threshold: u64) -> u64
    requires bytes { bytes ≤ 2 ^ 30 }
    requires average { average < 2 ^ 60 }
    requires threshold { 0 < threshold }
    ensures value { result ≡ delay_of bytes average threshold }
    ensures within { result ≤ MAX_DELAY }
{
    let estimate = quotient(u128::from(bytes) * u128::from(average), threshold);
    estimate.min(u128::from(MAX_DELAY)) as u64
}

/// Returns `product / threshold`, rounded down. The thresholds that parameters can have are constant powers of two here, so the compiler turns them
/// into shifts.
#[inline(always)]
fn quotient(product: u128, threshold: u64) -> u128
    requires { 0 < threshold }
    ensures { result ≡ product / threshold }
{
    match threshold {
        1024 => product / 1024,
        2048 => product / 2048,
        4096 => product / 4096,
        8192 => product / 8192,
        16384 => product / 16384,
        32768 => product / 32768,
        65536 => product / 65536,
        _ => product / u128::from(threshold.max(1)),
    }
}

/// Multiplies `gain` by the difference `time - from`, in units of `10^-12`.
#[inline(always)]
fn weighted(gain: u64, time: u64, from: u64) -> i64
    requires gain { gain ≤ 10 ^ 6 }
    requires time { time ≤ MAX_DELAY }
    requires from { from ≤ MAX_DELAY }
    ensures value { result ≡ pos gain *ℤ (pos time -ℤ pos from) }
    ensures above { negsuc (2 ^ 60) ≤ℤ result }
    ensures below { result ≤ℤ pos (2 ^ 60) }
{
    product(gain, time as i64 - from as i64)
}

/// Multiplies `gain` by a difference of two times.
#[inline(always)]
fn product(gain: u64, difference: i64) -> i64
    requires gain { gain ≤ 10 ^ 6 }
    requires least { negsuc (2 ^ 40) ≤ℤ difference }
    requires most { difference ≤ℤ pos (2 ^ 40) }
    ensures value { result ≡ pos gain *ℤ difference }
    ensures above { negsuc (2 ^ 60) ≤ℤ result }
    ensures below { result ≤ℤ pos (2 ^ 60) }
{
    gain as i64 * difference
}

/// Returns the change of the probability before auto-tuning.
#[inline(always)]
#[tactic(auto, unfolding(crate::specs::History::raw_step))]
fn raw_step(params: &RawParams, delay: u64, old: u64) -> i64
    requires params { IsInRange params.now }
    requires delay { delay ≤ MAX_DELAY }
    requires old { old ≤ MAX_DELAY }
    ensures value { result ≡ raw_step params.now delay old }
    ensures above { negsuc (2 ^ 62) ≤ℤ result }
    ensures below { result ≤ℤ pos (2 ^ 62) }
{
    weighted(params.alpha, delay, params.target) + weighted(params.beta, delay, old)
}

/// Divides `step` by the divisor of auto-tuning at `prob`, the probability before the update. Each divisor is a constant
/// power of two, which the compiler turns into a shift.
#[inline(always)]
#[tactic(auto, using(crate::proofs::Laws::quotients), unfolding(crate::specs::History::tuning_divisor))]
fn tuned(prob: u64, step: i64) -> i64
    requires above { negsuc (2 ^ 62) ≤ℤ step }
    requires below { step ≤ℤ pos (2 ^ 62) }
    ensures value { result ≡ int_div step (pos (tuning_divisor prob)) }
    ensures above { negsuc (2 ^ 62) ≤ℤ result }
    ensures below { result ≤ℤ pos (2 ^ 62) }
{
    match prob {
        ..1_000_000 => step / 2048,
        ..10_000_000 => step / 512,
        ..100_000_000 => step / 128,
        ..1_000_000_000 => step / 32,
        ..10_000_000_000 => step / 8,
        ..100_000_000_000 => step / 2,
        _ => step / 1,
    }
}

/// Returns the step after auto-tuning, and after the cap if it is chosen. `prob` is the probability before the update.
#[inline(always)]
#[tactic(auto, using(crate::proofs::Laws::quotients), unfolding(crate::specs::History::tuned_step))]
fn tuned_step(choice: Step, prob: u64, step: i64) -> i64
    requires above { negsuc (2 ^ 62) ≤ℤ step }
    requires below { step ≤ℤ pos (2 ^ 62) }
    ensures value { result ≡ tuned_step choice prob step }
    ensures above { negsuc (2 ^ 62) ≤ℤ result }
    ensures below { result ≤ℤ pos (2 ^ 62) }
    ensures cap { choice ≡ Capped → 10 ^ 11 ≤ prob → result ≤ℤ pos 20_000_000_000 }
{
    capped(choice, prob, tuned(prob, step))
}

/// Returns the step after the cap, if it is chosen. `prob` is the probability before the update. It is a function of
/// its own to keep the quotient out of its proof.
#[inline(always)]
fn capped(choice: Step, prob: u64, tuned: i64) -> i64
    requires above { negsuc (2 ^ 62) ≤ℤ tuned }
    requires below { tuned ≤ℤ pos (2 ^ 62) }
    ensures value { result ≡ (if is_capped choice && nat_le (10 ^ 11) prob then int_min tuned (pos 20_000_000_000) else tuned) }
    ensures above { negsuc (2 ^ 62) ≤ℤ result }
    ensures below { result ≤ℤ pos (2 ^ 62) }
    ensures cap { choice ≡ Capped → 10 ^ 11 ≤ prob → result ≤ℤ pos 20_000_000_000 }
{
    match choice {
        Step::Capped if prob >= CAPPED_FROM => tuned.min(LARGEST_STEP),
        Step::Capped | Step::Uncapped => tuned,
    }
}

/// Returns true if `delay` and `old` are both below half the target.
#[inline(always)]
pub(crate) fn are_below_half(params: &RawParams, delay: u64, old: u64) -> bool
    requires delay { delay ≤ MAX_DELAY }
    requires old { old ≤ MAX_DELAY }
    ensures { result ≡ are_below_half params.now delay old }
{
    2 * delay < params.target && 2 * old < params.target
}

/// Returns true if the probability decays at these delays.
#[inline(always)]
fn decays(decay: Decay, params: &RawParams, delay: u64, old: u64) -> bool
    requires delay { delay ≤ MAX_DELAY }
    requires old { old ≤ MAX_DELAY }
    ensures { result ≡ decays decay params.now delay old }
{
    match decay {
        Decay::Zero => delay == 0 && old == 0,
        Decay::Half => are_below_half(params, delay, old),
    }
}

/// Returns the probability nearest to `value`, in units of `10^-12`.
#[inline(always)]
fn as_probability(value: i64) -> Prob
    ensures { result ≡ bounded_of value }
{
    bounded(i128::from(value))
}

/// Returns `sum`, of probability and step, as a probability, after the decay if `decays` is true. The sum is bounded
/// before the decay too, so that its product fits in 64 bits.
#[inline(always)]
#[tactic(auto, unfolding(crate::specs::History::decayed))]
fn decayed(decays: bool, sum: i64) -> Prob
    ensures value { result ≡ bounded_of (decayed decays sum) }
    ensures shrinks { (n : ℕ) → sum ≤ℤ pos n → result ≤ n }
{
    as_probability(if decays {
        sum.clamp(0, LARGEST_SUM) * 98 / 100
    } else {
        sum
    })
}

/// Returns the probability after an update with delay `delay`, from the probability `prob` before it and the old delay
/// `old` (RFC 8033, sections 4.2 and 5.5). Its rise is capped or not by `choice`. It decays if both delays are 0.
/// Delays are in nanoseconds, at most [`MAX_DELAY`].
#[inline(always)]
pub fn next_probability(params: &Params, choice: Step, prob: Prob, delay: u64, old: u64) -> Prob
    requires delay { delay ≤ MAX_DELAY }
    requires old { old ≤ MAX_DELAY }
    ensures value { result ≡ next (record usual { step = choice }) params.now prob delay old }
    ensures within { result ≤ ONE }
    ensures cap { choice ≡ Capped → 10 ^ 11 ≤ prob → result ≤ prob + 20_000_000_000 }
{
    let mut elements = Elements::usual();
    elements.step = choice;
    next(&params.raw(), elements, prob.units(), delay, old)
}

/// Returns the probability after an update with these elements, for plain numbers in their ranges.
#[inline(always)]
#[tactic(auto, unfolding(crate::specs::History::next))]
pub(crate) fn next(params: &RawParams, elements: Elements, prob: u64, delay: u64, old: u64) -> Prob
    requires params { IsInRange params.now }
    requires prob { prob ≤ 10 ^ 12 }
    requires delay { delay ≤ MAX_DELAY }
    requires old { old ≤ MAX_DELAY }
    ensures value { result ≡ next elements params.now prob delay old }
    ensures within { result ≤ ONE }
    ensures cap { elements.step ≡ Capped → 10 ^ 11 ≤ prob → result ≤ prob + 20_000_000_000 }
{
    let step = tuned_step(elements.step, prob, raw_step(params, delay, old));
    let decays = decays(elements.decay, params, delay, old);
    decayed(decays, prob as i64 + step)
}
