//! Counts of numbers by range, for percentiles.
ghost use Rattle.std.specs.Prelude.{◌≡◌, ◌+◌, ◌-◌, ◌/◌, ◌*◌, ◌^◌, ◌<◌, ◌≤◌, ◌++◌, ◌∷◌, [], ℕ, List, Option, IfSome, Some, length, min};
ghost use Rattle.std.specs.List.{cons_option};
ghost use Rattle.pie_explain.specs.Ranges.{end_within, first_up_to, range_end, range_of, range_within, ranges_of};

use crate::explainer::increase;

/// The number of ranges: one for each number below 100, and 90 for each further digit of a number of 64 bits.
pub const RANGES: usize = 1720;

/// Returns the range of a number with at most `digits` digits more than two.
#[tactic(auto, using(crate::proofs::RangeFacts::shorter))]
fn range_within(digits: u8, number: u64) -> u64
    requires fits { number < 100 * 10 ^ digits }
    ensures place { result ≡ range_within digits number }
    ensures bound { result < 100 + 90 * digits }
{
    if digits == 0 || number < 100 {
        return number;
    }
    range_within(digits - 1, number / 10) + 90
}

/// Returns the range of a number. For 1,000,000 to 10^10 - 1, as most waits are in nanoseconds, this takes one division.
#[inline(always)]
fn range_place(number: u64) -> u64
    ensures place { result ≡ range_of number }
    ensures bound { result < 1720 }
{
    if number < 1_000_000 || number >= 10_000_000_000 {
        return range_place_out_of_line(number);
    }
    if number < 10_000_000 {
        number / 100_000 + 450
    } else if number < 100_000_000 {
        number / 1_000_000 + 540
    } else if number < 1_000_000_000 {
        number / 10_000_000 + 630
    } else {
        number / 100_000_000 + 720
    }
}

/// Returns the range of any number: of 10,000 to 999,999 by one division.
#[inline(never)]
#[tactic(auto, unfolding(crate::specs::Ranges::range_of))]
fn range_place_out_of_line(number: u64) -> u64
    ensures place { result ≡ range_of number }
    ensures bound { result < 1720 }
{
    if number < 10_000 || number >= 1_000_000 {
        return range_within(18, number);
    }
    if number < 100_000 {
        number / 1_000 + 270
    } else {
        number / 10_000 + 360
    }
}

/// Returns the first place at which the sum of the counts up to it reaches `rank`.
pub(crate) fn first_up_to(counts: &[u64; RANGES], rank: u64) -> Option<usize>
    ensures first { result ≡ first_up_to counts.now rank }
    ensures within { IfSome result (λ place. place < 1720) }
{
    let mut missing = rank;
    for place in 0..RANGES {
        let here = counts[place];
        if missing <= here {
            return Some(place);
        }
        missing -= here;
    }
    None
}

/// Returns the greatest number of a range, or `greatest` if it is less.
#[tactic(auto, unfolding(crate::specs::Ranges::range_end))]
pub(crate) fn end_within(range: usize, greatest: u64) -> u64
    requires { range < 1720 }
    ensures { result ≡ min (range_end range) greatest }
{
    if range < 10 {
        return greatest.min(range as u64);
    }
    let digits = (range - 10) / 90;
    let first = ((range - 10) % 90 + 11) as u128;
    let power = 10u128.saturating_pow(digits as u32);
    let end = first.saturating_mul(power).saturating_sub(1);
    end.min(u128::from(greatest)) as u64
}

/// Forgets all numbers.
#[tactic(auto, using(crate::proofs::RangeFacts::no_ranges))]
pub(crate) fn clear_counts(counts: &mut [u64; RANGES])
    ensures { counts.new ≡ ranges_of [] }
{
    *counts = [0; RANGES];
}

/// Takes one more number.
#[tactic(auto, using(crate::proofs::RangeFacts::ranges_push))]
#[inline(always)]
pub(crate) fn count_number(counts: &mut [u64; RANGES], number: u64)
    ensures { (numbers : List ℕ) → counts.old ≡ ranges_of numbers → counts.new ≡ ranges_of (numbers ++ number ∷ []) }
{
    let place = range_place(number) as usize;
    increase(&mut counts[place], 1);
}

/// Takes one more number, or none.
#[inline(always)]
pub(crate) fn count_some(counts: &mut [u64; RANGES], number: Option<u64>)
    ensures { (numbers : List ℕ) → counts.old ≡ ranges_of numbers → counts.new ≡ ranges_of (numbers ++ cons_option number []) }
{
    if let Some(number) = number {
        count_number(counts, number);
    }
}
