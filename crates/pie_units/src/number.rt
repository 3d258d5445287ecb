//! Numbers with units.
//! Units of `tc`. Their letters may have any case.
ghost use Rattle.std.specs.Prelude.{◌≡◌, ◌≤◌, ◌+◌, ◌-◌, ◌*◌, ◌^◌, Some, length, min, IfSome};
ghost use Rattle.pie_units.specs.Number.{decimals_in, digit_count, number_after, parts_of, unit_in, value_by, value_of, value_with, whole_in, base_scale, is_any, is_either, is_word, moment_scale, packets_scale, prefix_scale, rate_scale, scale_of, size_scale, time_scale};

/// The greatest value of a text.
const GREATEST: u128 = (1 << 60) - 1;

/// The number of parts of one: a number has at most 18 decimals.
const PARTS: u128 = 1_000_000_000_000_000_000;

/// Zeros for the greatest number of decimals.
const ZEROS: &[u8] = b"000000000000000000";

/// The reason why a text is not a number of its kind.
#[derive(Clone, Copy, Debug, PartialEq, Eq)]
pub enum UnitFault {
    /// The text is not a number with a unit of its kind.
    NotANumber,
    /// The value is not a whole number, or the text has more than 18 decimals.
    TooPrecise,
    /// The value is above 2^60 - 1.
    TooGreat,
}

/// Returns the number of digits at the start of a text.
pub(crate) fn digit_count(text: &[u8]) -> usize
    ensures count { result ≡ digit_count text.now }
    ensures within { result ≤ length text.now }
{
    text.iter().take_while(|byte| byte.is_ascii_digit()).count()
}

/// Returns the number with one more digit at its end; at most 2^128 - 1.
fn with_digit(number: u128, digit: u8) -> u128
    ensures { result ≡ min (number * 10 + (digit - 48)) (2 ^ 128 - 1) }
{
    let units = digit.saturating_sub(b'0');
    number.saturating_mul(10).saturating_add(u128::from(units))
}

/// Returns the number of the digits `digits` after the number `before`; at most 2^128 - 1.
#[tactic(auto, using(crate::proofs::WrittenFacts::number_more, crate::proofs::WrittenFacts::number_none))]
pub(crate) fn number_after(before: u128, digits: &[u8]) -> u128
    ensures { result ≡ min (number_after before digits.now) (2 ^ 128 - 1) }
{
    let mut number = before;
    'more: for i in 0..digits.len() {
        number = with_digit(number, digits[i]);
    }
    number
}

/// Returns the digits after a point at the start of a text; empty if there is none.
pub(crate) fn decimals_in(text: &[u8]) -> &[u8]
    ensures decimals { result.now ≡ decimals_in text.now }
    ensures few { length result.now ≤ length text.now - 1 }
{
    match text {
        [b'.', rest @ ..] => &rest[..digit_count(rest)],
        _ => &text[..0],
    }
}

/// Returns the unit after the point and `decimals` decimals.
pub(crate) fn unit_in(decimals: usize, text: &[u8]) -> &[u8]
    requires { decimals ≤ length text.now - 1 }
    ensures { result.now ≡ unit_in decimals text.now }
{
    if decimals == 0 {
        text
    } else {
        &text[decimals + 1..]
    }
}

/// Returns the whole number that `parts` parts make, if they make one in range.
fn whole_in(parts: u128) -> Result<u64, UnitFault>
    ensures { result ≡ whole_in parts }
{
    if parts > GREATEST * PARTS {
        Err(UnitFault::TooGreat)
    } else if parts % PARTS == 0 {
        Ok((parts / PARTS) as u64)
    } else {
        Err(UnitFault::TooPrecise)
    }
}

/// Returns the number with these digits before and after the point, in parts with `places` decimals; at most 2^128 - 1.
#[tactic(auto, using(crate::proofs::WrittenFacts::number_joined))]
pub(crate) fn parts_of(places: usize, whole: &[u8], decimals: &[u8]) -> u128
    requires few { length decimals.now ≤ places }
    requires places { places ≤ 18 }
    ensures { result ≡ min (parts_of places whole.now decimals.now) (2 ^ 128 - 1) }
{
    let zeros = &ZEROS[..places - decimals.len()];
    let units = number_after(0, whole);
    let digits = number_after(units, decimals);
    number_after(digits, zeros)
}

/// Returns the value of a number with at most 18 decimals in a unit of the value `scale`.
#[tactic(auto, using(crate::proofs::WrittenFacts::value_kept))]
fn product_of(whole: &[u8], decimals: &[u8], scale: u64) -> Result<u64, UnitFault>
    requires { length decimals.now ≤ 18 }
    ensures { result ≡ whole_in (parts_of 18 whole.now decimals.now * scale) }
{
    whole_in(parts_of(18, whole, decimals).saturating_mul(u128::from(scale)))
}

/// Returns the value of a number in a unit of the value `scale`.
fn value_by(whole: &[u8], decimals: &[u8], scale: u64) -> Result<u64, UnitFault>
    ensures { result ≡ value_by whole.now decimals.now (Some scale) }
{
    if whole.is_empty() && decimals.is_empty() {
        return Err(UnitFault::NotANumber);
    }
    if decimals.len() > 18 {
        return Err(UnitFault::TooPrecise);
    }
    product_of(whole, decimals, scale)
}

/// Returns the value of the digits `whole` followed by the text `rest`.
fn value_with(kind: Quantity, whole: &[u8], rest: &[u8]) -> Result<u64, UnitFault>
    ensures { result ≡ value_with kind whole.now rest.now }
{
    let decimals = decimals_in(rest);
    match scale_of(kind, unit_in(decimals.len(), rest)) {
        Some(scale) => value_by(whole, decimals, scale),
        None => Err(UnitFault::NotANumber),
    }
}

/// Parses a text of this kind: digits, with a point among or before them, at most 18 digits after the point, and a
/// unit, whose letters may have any case. Returns a whole number of nanoseconds, bits per second, bytes or packets, at
/// most 2^60 - 1.
///
/// # Errors
///
/// Returns the first that applies: `NotANumber`; `TooPrecise` if there are more than 18 decimals; `TooGreat`;
/// `TooPrecise` if the value is not a whole number.
pub fn read(kind: Quantity, text: &[u8]) -> Result<u64, UnitFault>
    ensures { result ≡ value_of kind text.now }
{
    let (whole, rest) = text.split_at(digit_count(text));
    value_with(kind, whole, rest)
}

/// The kind of a number.
#[derive(Clone, Copy, Debug, PartialEq, Eq)]
pub enum Quantity {
    /// A moment, in nanoseconds: a time, which may also be in minutes, `m`, or hours, `h`; or whole nanoseconds without
    /// a unit.
    Moment,
    /// A time, in nanoseconds: `ns`, `us`, `ms` or `s`, or longer `nsec`, `nsecs`, `usec` and so on.
    Time,
    /// A rate, in bits per second: `bit`, `kbit`, `mbit`, `gbit`, `tbit`, or in bytes `bps`, `kbps` and so on; `kibit`
    /// and `kibps` are multiples of 1024.
    Rate,
    /// A size, in bytes, also without a unit: `b`, `k`, `kb`, `m`, `mb`, `g`, `gb`, `kbit`, `mbit` or `gbit`, which are
    /// multiples of 1024.
    Size,
    /// Packets, also without a unit: `p`.
    Packets,
}

/// Returns true if `text` is `word`, with letters of any case.
#[tactic(auto, unfolding(crate::specs::Number::is_word))]
fn is_word(word: &[u8], text: &[u8]) -> bool
    ensures { result ≡ is_word word.now text.now }
{
    text.eq_ignore_ascii_case(word)
}

/// Returns true if `text` is one of two words.
fn is_either(first: &[u8], second: &[u8], text: &[u8]) -> bool
    ensures { result ≡ is_either first.now second.now text.now }
{
    is_word(first, text) || is_word(second, text)
}

/// Returns true if `text` is one of three words.
fn is_any(first: &[u8], second: &[u8], third: &[u8], text: &[u8]) -> bool
    ensures { result ≡ is_any first.now second.now third.now text.now }
{
    is_word(first, text) || is_either(second, third, text)
}

/// Returns the number of nanoseconds of a unit of time.
#[tactic(auto, unfolding(crate::specs::Number::time_scale))]
fn time_scale(unit: &[u8]) -> Option<u64>
    ensures { result ≡ time_scale unit.now }
{
    match unit {
        _ if is_any(b"ns", b"nsec", b"nsecs", unit) => Some(1),
        _ if is_any(b"us", b"usec", b"usecs", unit) => Some(1_000),
        _ if is_any(b"ms", b"msec", b"msecs", unit) => Some(1_000_000),
        _ if is_any(b"s", b"sec", b"secs", unit) => Some(1_000_000_000),
        _ => None,
    }
}

/// Returns the factor of the letters before `bit` or `bps`.
#[tactic(auto, unfolding(crate::specs::Number::prefix_scale))]
fn prefix_scale(prefix: &[u8]) -> Option<u64>
    ensures scale { result ≡ prefix_scale prefix.now }
    ensures few { IfSome result (λ scale. scale ≤ 2 ^ 40) }
{
    match prefix {
        _ if is_word(b"", prefix) => Some(1),
        _ if is_word(b"k", prefix) => Some(1_000),
        _ if is_word(b"ki", prefix) => Some(1 << 10),
        _ if is_word(b"m", prefix) => Some(1_000_000),
        _ if is_word(b"mi", prefix) => Some(1 << 20),
        _ if is_word(b"g", prefix) => Some(1_000_000_000),
        _ if is_word(b"gi", prefix) => Some(1 << 30),
        _ if is_word(b"t", prefix) => Some(1_000_000_000_000),
        _ if is_word(b"ti", prefix) => Some(1 << 40),
        _ => None,
    }
}

/// Returns the bits per second of `bit` and of `bps`, a byte per second.
fn base_scale(base: &[u8]) -> Option<u64>
    ensures scale { result ≡ base_scale base.now }
    ensures few { IfSome result (λ scale. scale ≤ 8) }
{
    match base {
        _ if is_word(b"bit", base) => Some(1),
        _ if is_word(b"bps", base) => Some(8),
        _ => None,
    }
}

/// Returns the bits per second of a unit of rates.
#[tactic(auto, unfolding(crate::specs::Number::rate_scale))]
fn rate_scale(unit: &[u8]) -> Option<u64>
    ensures { result ≡ rate_scale unit.now }
{
    let (prefix, base) = unit.split_at(unit.len().saturating_sub(3));
    match (prefix_scale(prefix), base_scale(base)) {
        (Some(prefix), Some(base)) => Some(prefix * base),
        (Some(_), None) => None,
        (None, _) => None,
    }
}

/// Returns the bytes of a unit of sizes.
#[tactic(auto, unfolding(crate::specs::Number::size_scale))]
fn size_scale(unit: &[u8]) -> Option<u64>
    ensures { result ≡ size_scale unit.now }
{
    match unit {
        _ if is_either(b"", b"b", unit) => Some(1),
        _ if is_either(b"k", b"kb", unit) => Some(1 << 10),
        _ if is_either(b"m", b"mb", unit) => Some(1 << 20),
        _ if is_either(b"g", b"gb", unit) => Some(1 << 30),
        _ if is_word(b"kbit", unit) => Some(1 << 7),
        _ if is_word(b"mbit", unit) => Some(1 << 17),
        _ if is_word(b"gbit", unit) => Some(1 << 27),
        _ => None,
    }
}

/// Returns the value of a unit of this kind, in nanoseconds, bits per second, bytes or packets.
pub(crate) fn scale_of(kind: Quantity, unit: &[u8]) -> Option<u64>
    ensures { result ≡ scale_of kind unit.now }
{
    match kind {
        Quantity::Moment => moment_scale(unit),
        Quantity::Time => time_scale(unit),
        Quantity::Rate => rate_scale(unit),
        Quantity::Size => size_scale(unit),
        Quantity::Packets => packets_scale(unit),
    }
}

/// Returns 1 for the unit of packets, which is optional.
fn packets_scale(unit: &[u8]) -> Option<u64>
    ensures { result ≡ packets_scale unit.now }
{
    match unit {
        _ if is_either(b"", b"p", unit) => Some(1),
        _ => None,
    }
}

/// Returns the nanoseconds of a unit of time, of minutes or hours, or of no unit.
fn moment_scale(unit: &[u8]) -> Option<u64>
    ensures { result ≡ moment_scale unit.now }
{
    match unit {
        _ if is_word(b"", unit) => Some(1),
        _ if is_word(b"m", unit) => Some(60_000_000_000),
        _ if is_word(b"h", unit) => Some(3_600_000_000_000),
        _ => time_scale(unit),
    }
}
