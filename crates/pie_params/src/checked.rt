//! The nine parameters within their ranges.
ghost use Rattle.std.specs.Prelude.{◌≡◌, is_some, is_none, IfSome, ◌^◌, ◌≤◌, ◌↔◌, IsTrue, IsOk, IfOk, IfErr};
ghost use Rattle.pie_fixed.specs.declared.TheConstants.{ONE};

use crate::raw::{BadParam, RawParams};
use pie_fixed::{Gain, Nanos, Prob};
use std::marker::Model;

/// Parameters that are all in their ranges, in 48 bytes. Each field has the width that its range needs. The threshold
/// is a power of two up to 65536; the number below it is stored, which fits in 16 bits.
#[derive(Clone, Copy, Debug, PartialEq, Eq)]
pub struct Params {
    limit_bytes: u32,
    below_threshold: u16,
    mean_pkt: u16,
    target: Nanos,
    t_update: Nanos,
    max_burst: Nanos,
    mark_ecnth: Prob,
    alpha: Gain,
    beta: Gain,
}

impl Model for Params {
    ghost use Rattle.std.specs.Prelude.{◌-◌};
    ghost use Rattle.std.proofs.Common.{ap};
    ghost use Rattle.std.proofs.Math.Nat.{add-sub_cancel};
    ghost use Rattle.pie_params.specs.declared.raw.RawParams.{RawParams};

    ghost Value = { RawParams };

    ghost use Rattle.pie_params.specs.Params.{IsInRange, raw_params};

    ghost view = { raw_params };

    ghost invariant = { λ p. IsInRange (raw_params p) };

    ghost inverse = { λ p. record {
      target = p.target;
      t_update = p.t_update;
      max_burst = p.max_burst;
      alpha = p.alpha;
      beta = p.beta;
      mean_pkt = p.mean_pkt;
      limit_bytes = p.limit_bytes;
      mark_ecnth = p.mark_ecnth;
      below_threshold = p.dq_threshold - 1;
    } };

    ghost inverse_ok = { λ p h. ap (λ below. record p { below_threshold = below }) (add-sub_cancel p.below_threshold 1) };
}

impl Params {
    ghost use Rattle.pie_params.specs.Params.{default_profile, profile_for, first_bad, is_dq_threshold, IsInRange};

    /// Returns the default parameters: the values of RFC 8033 (sections 4.2, 4.4, 5.1 and 5.2) if it states one,
    /// otherwise this project's own.
    pub fn default_profile() -> Self
        ensures { result ≡ default_profile }
    {
        Params::in_range(RawParams {
            target: 15_000_000,
            t_update: 15_000_000,
            max_burst: 150_000_000,
            alpha: 125,
            beta: 1250,
            mean_pkt: 1024,
            limit_bytes: 262_144,
            mark_ecnth: 100_000_000_000,
            dq_threshold: 16384,
        })
    }

    /// Returns the default parameters for a link of `rate` bits per second. `limit_bytes` is 200 ms at this rate, at
    /// least 25000 bytes and at most the greatest limit of its range. If `rate` is 0, the rate is unknown,
    /// and all parameters are the defaults (this project's own).
    pub fn for_rate(rate: u64) -> Self
        ensures { result ≡ profile_for rate }
    {
        let usual = Params::default_profile().raw();
        let limit_bytes = if rate == 0 {
            usual.limit_bytes
        } else {
            rate.div_ceil(40).max(25_000).min(1 << 30)
        };
        Params::in_range(RawParams {
            limit_bytes,
            ..usual
        })
    }

    /// Checks each field of `raw` against its range, in the order of [`RawParams`]' fields.
    ///
    /// # Errors
    ///
    /// Returns `BadParam` with the first field that is out of its range.
    #[inline(always)]
    pub fn check(raw: RawParams) -> Result<Self, BadParam>
        ensures accepts { IsOk result ↔ IsInRange raw }
        ensures same { IfOk result (λ params. params ≡ raw) }
        ensures checked { IfOk result (λ _. first_bad raw ≡ None) }
        ensures refuses { IfErr result (λ e. first_bad raw ≡ Some e.0) }
    {
        match raw.first_bad() {
            Some(field) => Err(BadParam(field)),
            None => Ok(Params::in_range(raw)),
        }
    }

    /// Returns `raw` as checked parameters, or `None` if a field is out of its range. Each field is checked once, for
    /// callers that check at each packet. [`Params::check`] names the field.
    #[inline(always)]
    pub fn from_raw(raw: RawParams) -> Option<Self>
        ensures accepts { is_some result ≡ is_none (first_bad raw) }
        ensures same { IfSome result (λ params. params ≡ raw) }
    {
        if raw.are_in_range() {
            Some(Params::in_range(raw))
        } else {
            None
        }
    }

    /// Returns `raw` as checked parameters without a check. Each field of `raw` is in its range.
    #[inline(always)]
    pub fn in_range(raw: RawParams) -> Self
        requires { IsInRange raw }
        ensures { result ≡ raw }
    {
        Params {
            target: Nanos::of_units(raw.target),
            t_update: Nanos::of_units(raw.t_update),
            max_burst: Nanos::of_units(raw.max_burst),
            alpha: Gain::of_units(raw.alpha),
            beta: Gain::of_units(raw.beta),
            mean_pkt: raw.mean_pkt as u16,
            limit_bytes: raw.limit_bytes as u32,
            mark_ecnth: Prob::of_units(raw.mark_ecnth),
            below_threshold: (raw.dq_threshold - 1) as u16,
        }
    }

    /// Returns the parameters as a plain record. Each field is in its range.
    pub fn raw(self) -> RawParams
        ensures same { result ≡ self }
        ensures in_range { IsInRange self }
        ensures checked { first_bad self ≡ None }
    {
        RawParams {
            target: self.target.units(),
            t_update: self.t_update.units(),
            max_burst: self.max_burst.units(),
            alpha: self.alpha.units(),
            beta: self.beta.units(),
            mean_pkt: u64::from(self.mean_pkt),
            limit_bytes: u64::from(self.limit_bytes),
            mark_ecnth: self.mark_ecnth.units(),
            dq_threshold: u64::from(self.below_threshold) + 1,
        }
    }

    /// Returns the reference queueing delay, 2 to 10^10 nanoseconds (RFC 8033, section 4.2).
    pub fn target(self) -> Nanos
        ensures value { result ≡ self.target }
        ensures at_least { 2 ≤ self.target }
        ensures at_most { self.target ≤ 10 ^ 10 }
    {
        self.target
    }

    /// Returns the time between two updates, 1 to 10^10 nanoseconds (RFC 8033, section 4.2).
    pub fn t_update(self) -> Nanos
        ensures value { result ≡ self.t_update }
        ensures at_least { 1 ≤ self.t_update }
        ensures at_most { self.t_update ≤ 10 ^ 10 }
    {
        self.t_update
    }

    /// Returns the burst allowance, at most 10^12 nanoseconds (RFC 8033, section 4.4).
    pub fn max_burst(self) -> Nanos
        ensures value { result ≡ self.max_burst }
        ensures at_most { self.max_burst ≤ 10 ^ 12 }
    {
        self.max_burst
    }

    /// Returns the gain on the difference between delay and target, at most 10^6 thousandths per second (RFC 8033,
    /// section 4.2).
    pub fn alpha(self) -> Gain
        ensures value { result ≡ self.alpha }
        ensures at_most { self.alpha ≤ 10 ^ 6 }
    {
        self.alpha
    }

    /// Returns the gain on the change of the delay, at most 10^6 thousandths per second (RFC 8033, section 4.2).
    pub fn beta(self) -> Gain
        ensures value { result ≡ self.beta }
        ensures at_most { self.beta ≤ 10 ^ 6 }
    {
        self.beta
    }

    /// Returns the mean packet size, 1 to 65535 bytes (RFC 8033, section 4.1).
    pub fn mean_pkt(self) -> u64
        ensures value { result ≡ self.mean_pkt }
        ensures at_least { 1 ≤ self.mean_pkt }
        ensures at_most { self.mean_pkt ≤ 65535 }
    {
        u64::from(self.mean_pkt)
    }

    /// Returns the queue's limit, 1 to 2^30 bytes (RFC 8033, section 4.1).
    pub fn limit_bytes(self) -> u64
        ensures value { result ≡ self.limit_bytes }
        ensures at_least { 1 ≤ self.limit_bytes }
        ensures at_most { self.limit_bytes ≤ 2 ^ 30 }
    {
        u64::from(self.limit_bytes)
    }

    /// Returns the probability from which on a picked packet is dropped instead of marked (RFC 8033, section 5.1).
    pub fn mark_ecnth(self) -> Prob
        ensures value { result ≡ self.mark_ecnth }
        ensures at_most { self.mark_ecnth ≤ ONE }
    {
        self.mark_ecnth
    }

    /// Returns the number of bytes that a cycle of the departure rate counts, a power of two from 1024 to 65536 (RFC
    /// 8033, section 5.2).
    pub fn dq_threshold(self) -> u64
        ensures value { result ≡ self.dq_threshold }
        ensures power_of_two { IsTrue (is_dq_threshold self.dq_threshold) }
        ensures at_least { 1024 ≤ self.dq_threshold }
        ensures at_most { self.dq_threshold ≤ 65536 }
    {
        u64::from(self.below_threshold) + 1
    }
}
