//! Units of the PIE controller: probabilities, gains, moments and the accumulated probability, each a whole number of a
//! fixed unit, and the rounding arithmetic on them.
//!
//! RFC 8033 leaves arithmetic to the implementer. The scales and roundings here are this project's own. There is no
//! floating point.
//!
//! Each type keeps its range: `from_units` returns a value exactly if the number is within the range. `chosen` and
//! `picks` compute `word * 10^12 < prob * 2^64` exactly. `toward_zero` rounds a quotient toward zero.
#![tactic(auto)]

ghost use Rattle.std.specs.Prelude.{◌≡◌, ◌<◌, ◌↔◌, IsTrue, int_div, pos};
ghost use Rattle.pie_fixed.specs.Fixed.{Picks};

mod units;

pub use units::{Accu, Gain, Nanos, Prob, bounded};

/// The probability 1, in units of `10^-12` (this project's own scale).
pub const ONE: u64 = 1_000_000_000_000;

/// The greatest gain, 1000 per second, in thousandths per second (this project's own limit).
pub const MAX_GAIN: u64 = 1_000_000;

/// The latest moment and the longest time, `2^60 - 1` nanoseconds (this project's own limit).
pub const MAX_NANOS: u64 = 1_152_921_504_606_846_975;

/// The accumulated probability 8.5, in units of `10^-12`, from which on a packet is always picked (RFC 8033, section
/// 5.4).
pub const ALWAYS_PICKED: u64 = 8_500_000_000_000;

/// The greatest accumulated probability, 9.5, in units of `10^-12`. A sum below 8.5 grows by one probability of at most
/// 1.
pub const MAX_ACCU: u64 = 9_500_000_000_000;

/// Returns true if the random word `word` picks a packet at the probability `prob`: `word / 2^64` is below `prob`,
/// without rounding. At probability 0 no word picks, at [`ONE`] every word does (RFC 8033, section 4.1; the comparison
/// with a random word of 64 bits is this project's own).
pub fn chosen(prob: Prob, word: u64) -> bool
    ensures { IsTrue result ↔ Picks prob word }
{
    picks(prob.units(), word)
}

/// Returns true if `word` picks a packet at a probability of `units` times `10^-12`. `units` may be above [`ONE`]: then
/// every word picks.
#[inline(always)]
pub fn picks(units: u64, word: u64) -> bool
    ensures { IsTrue result ↔ Picks units word }
{
    u128::from(word) * u128::from(ONE) < u128::from(units) << 64
}

/// Returns `value` divided by `divisor`, which is at least 1, rounded toward zero (this project's own rounding).
pub fn toward_zero(value: i128, divisor: u32) -> i128
    requires { 0 < divisor }
    ensures { result ≡ int_div value (pos divisor) }
{
    value / i128::from(divisor)
}
