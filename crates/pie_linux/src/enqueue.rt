ghost use Rattle.std.specs.Prelude.{◌≡◌, ◌<◌, ◌≤◌, ◌^◌};
ghost use Rattle.pie_linux.specs.Enqueue.{accumulated, early_cause, enqueue_cause, enqueued, fate_of, is_low, mtu_of, own_of, own_prob, sum_of, summed_cause};

use crate::arrival::LinuxArrival;
use crate::cause::{LinuxCause, Picked};
use crate::params::LinuxParams;
use crate::state::{LinuxState, ONE};

impl LinuxState {
    /// Decides an arriving packet (`pie_qdisc_enqueue`, `pie_drop_early`; of fq_pie, with the state of the packet's flow,
    /// `fq_pie_qdisc_enqueue`). Returns the cause, which determines the verdict.
    ///
    /// The limit comes first, then three early returns, then the accumulated probability and the random word. A picked
    /// packet is marked if `ecn` is on, the probability at most the limit for marks, and the packet markable.
    pub fn enqueue(&mut self, params: &LinuxParams, arrival: LinuxArrival) -> LinuxCause
        ensures cause { result ≡ enqueue_cause params.now self.old arrival }
        ensures after { self.new ≡ enqueued params.now self.old arrival }
    {
        let own = own_prob(params, self.prob, arrival.mtu, arrival.size);
        let sum = accumulated(self.accu_prob, own);
        let cause = enqueue_cause(self, params, arrival, own, sum);
        self.accu_prob = cause.accu_after(self.accu_prob, sum);
        cause
    }
}

/// Returns the cause of the decision, from the packet's own probability and the accumulated one with it.
#[inline(always)]
#[tactic(auto, using(std::proofs::lemmas::Bool::Decides::nat_tests), unfolding(crate::specs::Enqueue::enqueue_cause, crate::specs::Enqueue::early_cause))]
fn enqueue_cause(
    state: &LinuxState,
    params: &LinuxParams,
    arrival: LinuxArrival,
    own: u64,
    sum: u64,
) -> LinuxCause
    requires own { own ≡ own_of params.now state.now arrival }
    requires sum { sum ≡ sum_of params.now state.now arrival }
    ensures { result ≡ enqueue_cause params.now state.now arrival }
{
    if arrival.length >= params.limit {
        LinuxCause::OverLimit
    } else if state.burst_time > 0 {
        LinuxCause::BurstTime
    } else if is_low(state, params) {
        LinuxCause::LowDelay
    } else if arrival.backlog < 2 * bounded_mtu(arrival.mtu) {
        LinuxCause::ShortQueue
    } else {
        summed_cause(own, sum, arrival.word, fate_of(state, params, arrival))
    }
}

/// Returns true if the delay is below half the target and the probability below 0.2.
#[inline(always)]
#[tactic(auto, using(std::proofs::lemmas::Bool::Decides::nat_tests))]
fn is_low(state: &LinuxState, params: &LinuxParams) -> bool
    ensures { result ≡ is_low params.now state.now }
{
    state.qdelay < params.target / 2 && state.prob < ONE / 5
}

/// Returns the device's MTU, at least 1 and at most 2^20.
#[inline(always)]
fn bounded_mtu(mtu: u32) -> u32
    ensures value { result ≡ mtu_of mtu }
    ensures least { 1 ≤ result }
    ensures most { result ≤ 2 ^ 20 }
{
    mtu.min(1 << 20).max(1)
}

/// Returns the own probability of a packet of `size` bytes, in units of 2^-56: `prob`, or with `bytemode`, for at most one
/// MTU, in proportion to its length (`pie_drop_early`).
#[inline(always)]
#[tactic(auto, using(std::proofs::lemmas::Bool::Decides::nat_tests, crate::proofs::Laws::own_below))]
pub fn own_prob(params: &LinuxParams, prob: u64, mtu: u32, size: u32) -> u64
    ensures { result ≡ own_prob params.now prob mtu size }
{
    let mtu = bounded_mtu(mtu);
    if params.bytemode && size <= mtu {
        u64::from(size) * (prob / u64::from(mtu))
    } else {
        prob
    }
}

/// Returns the accumulated probability with the packet's own.
#[inline(always)]
fn accumulated(accu: u64, own: u64) -> u64
    ensures { result ≡ accumulated accu own }
{
    if own == 0 { 0 } else { accu.wrapping_add(own) }
}

/// Returns the cause of a decision by the accumulated probability and the random word.
#[inline(always)]
#[tactic(auto, using(std::proofs::lemmas::Bool::Decides::nat_tests))]
fn summed_cause(own: u64, sum: u64, word: u64, picked: Picked) -> LinuxCause
    ensures { result ≡ summed_cause own sum word picked }
{
    if sum < ONE / 100 * 85 {
        LinuxCause::SumBelow
    } else if sum >= ONE / 2 * 17 {
        LinuxCause::SumAbove(picked)
    } else if word / 256 < own {
        LinuxCause::WordBelow(picked)
    } else {
        LinuxCause::WordNotBelow
    }
}

/// Returns the fate of a picked packet.
#[inline(always)]
#[tactic(auto, using(std::proofs::lemmas::Bool::Decides::nat_tests))]
fn fate_of(state: &LinuxState, params: &LinuxParams, arrival: LinuxArrival) -> Picked
    ensures { result ≡ fate_of params.now state.now arrival }
{
    if !params.ecn {
        Picked::EcnOff
    } else if state.prob > params.marks.probability() {
        Picked::HighProbability
    } else if !arrival.markable {
        Picked::NotCapable
    } else {
        Picked::Marked
    }
}
