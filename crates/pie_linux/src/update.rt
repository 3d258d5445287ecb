ghost use Rattle.std.specs.Prelude.{◌≡◌, ◌<◌, ◌≤◌, ◌^◌};
ghost use Rattle.pie_linux.specs.Update.{capped, decayed, decays, delay_of, divisor_at, gain_of, next_prob, old_delay_of, overflows, raised, raw_step, restarts, step_of, stepped, updated, updated_with};

use crate::params::LinuxParams;
use crate::state::{LinuxState, ONE, scaled};

/// The delay above which the probability grows by another 0.02, 250 ms in ticks.
const LONG_DELAY: u64 = 250_000_000 / 64;

/// The least step that stands for a negative number, 2^63.
const NEGATIVE: u64 = 1 << 63;

impl LinuxState {
    /// Updates the probability at this backlog, in bytes (`pie_calculate_probability`).
    ///
    /// The probability is bounded by 64 bits alone: it can exceed 1 up to 256. Beyond that it becomes 1.
    #[tactic(auto, unfolding(crate::specs::Update::updated))]
    pub fn update(&mut self, params: &LinuxParams, backlog: u32)
        ensures { self.new ≡ updated params.now self.old backlog }
    {
        let delay = self.delay(params, backlog);
        let old = self.old_delay(params);
        let prob = next_prob(params, self.prob, delay, old, backlog);
        self.finish(params, prob, delay, old, backlog);
    }

    /// Returns the delay of an update.
    #[inline(always)]
    #[tactic(auto, using(std::proofs::lemmas::Bool::Decides::nat_tests))]
    fn delay(&self, params: &LinuxParams, backlog: u32) -> u64
        ensures { result ≡ delay_of params.now self.now backlog }
    {
        if !params.dq_rate_estimator {
            self.qdelay
        } else if self.avg_dq_rate == 0 {
            0
        } else {
            u64::from(scaled(u64::from(backlog)) / self.avg_dq_rate)
        }
    }

    /// Returns the delay of the update before.
    #[inline(always)]
    fn old_delay(&self, params: &LinuxParams) -> u64
        ensures { result ≡ old_delay_of params.now self.now }
    {
        if params.dq_rate_estimator {
            self.qdelay
        } else {
            self.qdelay_old
        }
    }

    /// Stores the numbers of an update, and restarts if the rule says so.
    #[inline(always)]
    fn finish(&mut self, params: &LinuxParams, prob: u64, delay: u64, old: u64, backlog: u32)
        ensures { self.new ≡ updated_with params.now self.old prob delay old backlog }
    {
        let restarts = self.restarts(params, prob, delay, old);
        self.prob = prob;
        self.qdelay = delay;
        self.qdelay_old = if params.dq_rate_estimator { old } else { delay };
        self.backlog_old = backlog;
        if restarts {
            self.restart();
        }
    }

    /// Returns true if an update restarts: the probability is 0, both delays are below half the target, and an estimator
    /// in use has a rate.
    #[inline(always)]
    #[tactic(auto, using(std::proofs::lemmas::Bool::Decides::nat_tests))]
    fn restarts(&self, params: &LinuxParams, prob: u64, delay: u64, old: u64) -> bool
        ensures { result ≡ restarts params.now self.now prob delay old }
    {
        let half = params.target / 2;
        delay < half
            && old < half
            && prob == 0
            && (!params.dq_rate_estimator || self.avg_dq_rate > 0)
    }
}

/// Returns a gain in units of 2^-56 for each tick. The product wraps at 64 bits.
#[inline(always)]
fn gain_of(sixteenths: u32) -> u64
    ensures { result ≡ gain_of sixteenths }
{
    u64::from(sixteenths).wrapping_mul(ONE / 15_625_000) / 16
}

/// Returns the divisor of the gains at this probability.
#[inline(always)]
#[tactic(auto, using(std::proofs::lemmas::Bool::Decides::nat_tests), unfolding(crate::specs::Update::divisor_at))]
fn divisor_at(prob: u64) -> u64
    ensures value { result ≡ divisor_at prob }
    ensures some { 0 < result }
{
    if prob >= ONE / 10 {
        1
    } else if prob >= ONE / 100 {
        2
    } else if prob >= ONE / 1000 {
        8
    } else if prob >= ONE / 10_000 {
        32
    } else if prob >= ONE / 100_000 {
        128
    } else if prob >= ONE / 1_000_000 {
        512
    } else {
        2048
    }
}

/// Returns the sum of both gains with their differences of delays, modulo 2^64.
#[inline(always)]
#[tactic(auto, unfolding(crate::specs::Update::raw_step))]
fn raw_step(params: &LinuxParams, prob: u64, delay: u64, old: u64) -> u64
    ensures { result ≡ raw_step params.now prob delay old }
{
    let divisor = divisor_at(prob);
    let alpha = gain_of(params.alpha) / divisor;
    let beta = gain_of(params.beta) / divisor;
    let toward_target = alpha.wrapping_mul(delay.wrapping_sub(params.target));
    toward_target.wrapping_add(beta.wrapping_mul(delay.wrapping_sub(old)))
}

/// Returns the step with the cap: at a probability of at least 0.1, one above 0.02 becomes 0.02.
#[inline(always)]
#[tactic(auto, using(std::proofs::lemmas::Bool::Decides::nat_tests))]
fn capped(prob: u64, step: u64) -> u64
    ensures { result ≡ capped prob step }
{
    if prob >= ONE / 10 && step > ONE / 50 && step < NEGATIVE {
        ONE / 100 * 2
    } else {
        step
    }
}

/// Returns the step, 0.02 higher at a delay above 250 ms.
#[inline(always)]
#[tactic(auto, using(std::proofs::lemmas::Bool::Decides::nat_tests))]
fn raised(delay: u64, step: u64) -> u64
    ensures { result ≡ raised delay step }
{
    if delay > LONG_DELAY {
        step.wrapping_add(ONE / 50)
    } else {
        step
    }
}

/// Returns true if the step is above 0 and the sum exceeds 64 bits.
#[inline(always)]
#[tactic(auto, using(std::proofs::lemmas::Bool::Decides::nat_tests))]
fn overflows(prob: u64, step: u64) -> bool
    ensures { result ≡ overflows prob step }
{
    step > 0 && step < NEGATIVE && prob.wrapping_add(step) < prob
}

/// Returns the probability with the step: 1 if a rise exceeds 64 bits, 0 if a fall goes below 0.
#[inline(always)]
#[tactic(auto, using(std::proofs::lemmas::Bool::Decides::nat_tests))]
fn stepped(prob: u64, step: u64) -> u64
    ensures { result ≡ stepped prob step }
{
    let sum = prob.wrapping_add(step);
    if step > 0 && step < NEGATIVE {
        if sum < prob { ONE } else { sum }
    } else if sum > prob {
        0
    } else {
        sum
    }
}

/// Returns the probability after an update.
#[inline(always)]
#[tactic(auto, using(std::proofs::lemmas::Bool::Decides::nat_tests), unfolding(crate::specs::Update::next_prob, crate::specs::Update::step_of))]
fn next_prob(params: &LinuxParams, prob: u64, delay: u64, old: u64, backlog: u32) -> u64
    ensures { result ≡ next_prob params.now prob delay old backlog }
{
    let step = raised(delay, capped(prob, raw_step(params, prob, delay, old)));
    let decays = delay == 0 && old == 0 && backlog == 0 && !overflows(prob, step);
    decayed(decays, stepped(prob, step))
}

/// Returns the probability after the decay, a 64th less.
#[inline(always)]
fn decayed(decays: bool, prob: u64) -> u64
    ensures { result ≡ decayed decays prob }
{
    if decays { prob - prob / 64 } else { prob }
}
