//! The parameters in the units of other queues, and fixed-point numbers: sines, arc tangents and logarithms in billionths,
//! with errors below 1e-7.
ghost use Rattle.std.specs.Prelude.{◌≡◌};
ghost use Rattle.pie_units.specs.Advice.{full_packets, numbers_for, packet_bytes, sixteenths, tail_threshold};

use pie_event::Opening;

/// The parameters of an opening in the units of `tc` and of DPDK.
#[derive(Clone, Copy)]
pub struct Numbers {
    /// The limit of Linux's `pie`: the packets of 1514 bytes that contain `limit_bytes`.
    pub pie_limit: u64,
    /// `tailq_th` of DPDK's `rte_pie`: `pie_limit`, but at most 65535, because it has 16 bits.
    pub tail_threshold: u64,
    /// The mean size of packets from which on `limit_bytes` is reached before the limit in packets, rounded up.
    pub packet_bytes: u64,
    /// `alpha` of `tc`, in sixteenths, rounded down.
    pub alpha: u128,
    /// `beta` of `tc`, in sixteenths, rounded down.
    pub beta: u128,
    /// The target in microseconds, rounded down.
    pub target: u64,
    /// The time between two updates in microseconds, rounded down.
    pub t_update: u64,
    /// The burst allowance in microseconds, rounded down.
    pub max_burst: u64,
    /// The probability from which on ECN-capable packets are dropped, in per cent, rounded down.
    pub mark_ecnth: u64,
}

/// Returns the number of packets of 1514 bytes that contain `bytes` bytes, rounded up.
fn full_packets(bytes: u64) -> u64
    ensures { result ≡ full_packets bytes }
{
    bytes.div_ceil(1514)
}

/// Returns the packets of 1514 bytes that contain `bytes` bytes, or 65535 if these are more.
fn tail_threshold(bytes: u64) -> u64
    ensures { result ≡ tail_threshold bytes }
{
    full_packets(bytes).min(65535)
}

/// Returns the size of packets of which `packets` packets have at least `bytes` bytes.
fn packet_bytes(bytes: u64, packets: u32) -> u64
    ensures { result ≡ packet_bytes bytes packets }
{
    bytes.div_ceil(u64::from(packets).max(1))
}

/// Returns a gain in sixteenths, rounded down, from thousandths per second: for `tc`, 2 is an `alpha` of 0.125.
fn sixteenths(gain: u64) -> u128
    ensures { result ≡ sixteenths gain }
{
    u128::from(gain) * 2 / 125
}

/// Returns the parameters of an opening in the units of other queues.
pub(crate) fn numbers_for(opening: &Opening) -> Numbers
    ensures { result ≡ numbers_for opening.now }
{
    let params = opening.params.raw();
    Numbers {
        pie_limit: full_packets(params.limit_bytes),
        tail_threshold: tail_threshold(params.limit_bytes),
        packet_bytes: packet_bytes(params.limit_bytes, opening.limits.packets),
        alpha: sixteenths(params.alpha),
        beta: sixteenths(params.beta),
        target: params.target / 1000,
        t_update: params.t_update / 1000,
        max_burst: params.max_burst / 1000,
        mark_ecnth: params.mark_ecnth / 10_000_000_000,
    }
}

/// The number 1.
pub(crate) const ONE: u64 = 1_000_000_000;

/// A right angle in billionths of a radian: pi / 2.
pub(crate) const RIGHT_ANGLE: u64 = 1_570_796_327;

/// Coefficients of the polynomial for the arc tangent over its argument, in powers of the negated square: the greatest
/// power first (Hastings, Approximations for Digital Computers, sheet 13).
const ARC_TANGENT: [u64; 9] = [
    2_866_226,
    16_165_737,
    42_909_614,
    75_289_640,
    106_562_639,
    142_088_994,
    199_935_509,
    333_331_453,
    1_000_000_000,
];

/// Divisors of the series of the sine, the last first: 11 x 10, 9 x 8, 7 x 6, 5 x 4, 3 x 2.
const SINE: [u64; 5] = [110, 72, 42, 20, 6];

/// Coefficients of the series of the logarithm: 1 / 11, 1 / 9, 1 / 7, 1 / 5, 1 / 3 and 1.
const LOGARITHM: [u64; 6] = [
    90_909_091,
    111_111_111,
    142_857_143,
    200_000_000,
    333_333_333,
    1_000_000_000,
];

/// Two over the natural logarithm of 2.
const TWO_OVER_LN_2: u64 = 2_885_390_082;

/// Returns a 128-bit number, or the greatest 64-bit one if it is less.
pub(crate) fn narrowed(value: u128) -> u64 {
    value.min(u128::from(u64::MAX)) as u64
}

/// Returns the product of two numbers, rounded down.
pub(crate) fn product(left: u64, right: u64) -> u64 {
    narrowed(u128::from(left) * u128::from(right) / u128::from(ONE))
}

/// Returns the quotient of two numbers, rounded down.
fn quotient(above: u64, below: u64) -> u64 {
    narrowed(u128::from(above) * u128::from(ONE) / u128::from(below.max(1)))
}

/// Returns the arc tangent of a number of at most 1.
fn short_arc_tangent(tangent: u64) -> u64 {
    let square = product(tangent, tangent);
    let mut sum = 0;
    for coefficient in ARC_TANGENT {
        sum = coefficient.saturating_sub(product(square, sum));
    }
    product(tangent, sum)
}

/// Returns the angle whose tangent is `opposite` / `adjacent`: 0 to a right angle, in billionths of a radian.
pub(crate) fn angle(opposite: u64, adjacent: u64) -> u64 {
    if opposite <= adjacent {
        short_arc_tangent(quotient(opposite, adjacent))
    } else {
        RIGHT_ANGLE.saturating_sub(short_arc_tangent(quotient(adjacent, opposite)))
    }
}

/// Returns the sine of an angle of at most a right one, in billionths of a radian.
pub(crate) fn sine(angle: u64) -> u64 {
    let square = product(angle, angle);
    let mut sum = ONE;
    for divisor in SINE {
        sum = ONE.saturating_sub(product(square, sum) / divisor.max(1));
    }
    product(angle, sum)
}

/// Returns the logarithm to base 2 of a number from 1 to 2, by its series in `quotient` = (number - 1) / (number + 1).
fn short_logarithm(quotient: u64) -> u64 {
    let square = product(quotient, quotient);
    let mut sum = 0;
    for coefficient in LOGARITHM {
        sum = product(square, sum).saturating_add(coefficient);
    }
    product(product(quotient, sum), TWO_OVER_LN_2)
}

/// Returns the logarithm to base 2 of a whole number below 2^96, in billionths. That of 0 is 0.
fn middle_logarithm(number: u128) -> u64 {
    let number = number.max(1);
    let bits = number.ilog2();
    let power = 1u128 << bits;
    let above = number.saturating_sub(power).saturating_mul(u128::from(ONE));
    let quotient = above / number.saturating_add(power).max(1);
    short_logarithm(narrowed(quotient)).saturating_add(u64::from(bits) * ONE)
}

/// Returns the logarithm to base 2 of a whole number, in billionths. That of 0 is 0.
pub(crate) fn logarithm(number: u128) -> u64 {
    if number < 1 << 64 {
        middle_logarithm(number)
    } else {
        middle_logarithm(number >> 32).saturating_add(32 * ONE)
    }
}
