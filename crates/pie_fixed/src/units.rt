//! The numbers of each unit, within their ranges.
ghost use Rattle.std.specs.Prelude.{◌≡◌, ℕ, ◌+◌, ◌<◌, ◌≤◌};
ghost use Rattle.std.specs.Option.{SomeIff};
ghost use Rattle.pie_fixed.specs.declared.TheConstants.{ALWAYS_PICKED, MAX_ACCU, MAX_GAIN, MAX_NANOS, ONE};
ghost use Rattle.pie_fixed.specs.Fixed.{bounded_of};

use crate::{MAX_GAIN, MAX_NANOS, ONE};
use std::marker::Model;

/// A probability of a drop or a mark, 0 to [`ONE`], in units of `10^-12` (RFC 8033, section 4.2; the scale is this
/// project's own).
#[derive(Clone, Copy, Debug, PartialEq, Eq)]
pub struct Prob {
    trillionths: u64,
}

impl Model for Prob {
    ghost Value = { ℕ };

    ghost view = { λ p. p.trillionths };

    ghost invariant = { λ p. p.trillionths ≤ ONE };

    ghost inverse = { λ n. record { trillionths = n } };
}

impl Prob {
    /// Returns the probability of `units` times `10^-12`, or `None` if `units` is above [`ONE`].
    pub fn from_units(units: u64) -> Option<Self>
        ensures { SomeIff result (units ≤ ONE) units }
    {
        if units <= ONE {
            Some(Prob { trillionths: units })
        } else {
            None
        }
    }

    /// Returns the probability of `units` times `10^-12` without a check. `units` is at most [`ONE`].
    #[inline(always)]
    pub fn of_units(units: u64) -> Self
        requires { units ≤ ONE }
        ensures { result ≡ units }
    {
        Prob { trillionths: units }
    }

    /// Returns the number of units of `10^-12`, 0 to [`ONE`].
    pub fn units(self) -> u64
        ensures value { result ≡ self }
        ensures within { self ≤ ONE }
    {
        self.trillionths
    }
}

/// Returns the probability nearest to `value`, in units of `10^-12`: 0 if `value` is negative, [`ONE`] if it is above
/// `ONE` (RFC 8033, section 4.2).
pub fn bounded(value: i128) -> Prob
    ensures { result ≡ bounded_of value }
{
    if value <= 0 {
        Prob { trillionths: 0 }
    } else if value >= i128::from(ONE) {
        Prob { trillionths: ONE }
    } else {
        Prob {
            trillionths: value as u64,
        }
    }
}

/// A gain of the controller, alpha or beta, 0 to 10^6 thousandths per second (RFC 8033, section 4.2; the scale is this
/// project's own).
///
/// The product of a gain and a time in nanoseconds is a probability without rounding.
#[derive(Clone, Copy, Debug, PartialEq, Eq)]
pub struct Gain {
    thousandths: u32,
}

impl Model for Gain {
    ghost Value = { ℕ };

    ghost view = { λ g. g.thousandths };

    ghost invariant = { λ g. g.thousandths ≤ MAX_GAIN };

    ghost inverse = { λ n. record { thousandths = n } };
}

impl Gain {
    /// Returns the gain of `units` thousandths per second, or `None` if `units` is above 10^6.
    pub fn from_units(units: u64) -> Option<Self>
        ensures { SomeIff result (units ≤ MAX_GAIN) units }
    {
        if units <= MAX_GAIN {
            Some(Gain {
                thousandths: units as u32,
            })
        } else {
            None
        }
    }

    /// Returns the gain of `units` thousandths per second without a check. `units` is at most 10^6.
    #[inline(always)]
    pub fn of_units(units: u64) -> Self
        requires { units ≤ MAX_GAIN }
        ensures { result ≡ units }
    {
        Gain {
            thousandths: units as u32,
        }
    }

    /// Returns the number of thousandths per second, 0 to 10^6.
    pub fn units(self) -> u64
        ensures value { result ≡ self }
        ensures within { self ≤ MAX_GAIN }
    {
        u64::from(self.thousandths)
    }
}

/// A moment, counted from a start of the caller's choice, or a time: 0 to `2^60 - 1` whole nanoseconds (this project's
/// own).
#[derive(Clone, Copy, Debug, PartialEq, Eq, PartialOrd, Ord)]
pub struct Nanos {
    nanos: u64,
}

impl Model for Nanos {
    ghost Value = { ℕ };

    ghost view = { λ t. t.nanos };

    ghost invariant = { λ t. t.nanos ≤ MAX_NANOS };

    ghost inverse = { λ n. record { nanos = n } };
}

impl Nanos {
    /// Returns a moment or time of `units` nanoseconds, or `None` if `units` is above `2^60 - 1`.
    pub fn from_units(units: u64) -> Option<Self>
        ensures { SomeIff result (units ≤ MAX_NANOS) units }
    {
        if units <= MAX_NANOS {
            Some(Nanos { nanos: units })
        } else {
            None
        }
    }

    /// Returns a moment or time of `units` nanoseconds without a check. `units` is at most `2^60 - 1`.
    #[inline(always)]
    pub fn of_units(units: u64) -> Self
        requires { units ≤ MAX_NANOS }
        ensures { result ≡ units }
    {
        Nanos { nanos: units }
    }

    /// Returns the number of nanoseconds, 0 to `2^60 - 1`.
    pub fn units(self) -> u64
        ensures value { result ≡ self }
        ensures within { self ≤ MAX_NANOS }
    {
        self.nanos
    }
}

/// An accumulated probability, at most 9.5, in units of `10^-12` (RFC 8033, section 5.4).
#[derive(Clone, Copy)]
pub struct Accu {
    sum: u64,
}

impl Model for Accu {
    ghost Value = { ℕ };

    ghost view = { λ a. a.sum };

    ghost invariant = { λ a. a.sum ≤ MAX_ACCU };

    ghost inverse = { λ n. record { sum = n } };
}

impl Accu {
    /// Returns the accumulated probability 0, the value after each picked packet.
    pub fn zero() -> Self
        ensures { result ≡ 0 }
    {
        Accu { sum: 0 }
    }

    /// Returns the accumulated probability of `units` times `10^-12` without a check. `units` is at most
    /// 9_500_000_000_000.
    #[inline(always)]
    pub fn of_units(units: u64) -> Self
        requires { units ≤ MAX_ACCU }
        ensures { result ≡ units }
    {
        Accu { sum: units }
    }

    /// Adds `prob` to an accumulated probability below 8.5.
    pub fn plus(self, prob: Prob) -> Self
        requires { self < ALWAYS_PICKED }
        ensures { result ≡ self + prob }
    {
        Accu {
            sum: self.sum + prob.trillionths,
        }
    }

    /// Returns the number of units of `10^-12`, at most 9_500_000_000_000.
    pub fn units(self) -> u64
        ensures value { result ≡ self }
        ensures within { self ≤ MAX_ACCU }
    {
        self.sum
    }
}
