//! Blocks of 32 bytes in which the bytes up to a comma are marked: among them are the bytes that end a field or a line.
ghost use Rattle.std.specs.Prelude.{◌≡◌, ◌≢◌, ◌≤◌, ◌+◌, ◌↔◌, ℕ, if◌then◌else◌, nat_le, slice_index};
ghost use Rattle.std.specs.Int.{bit_at};
ghost use Rattle.memchr.specs.Lanes.{HasLanes};
ghost use Rattle.pie_record.specs.{length, AreMarked, IsLowest, IsWithout};

use std::simd::prelude::*;

/// Returns the 32 bytes from `at` on.
#[inline(always)]
fn load(bytes: &[u8], at: usize) -> u8x32
    requires { at + 32 ≤ length bytes.now }
    ensures { HasLanes result (λ k. slice_index bytes.now (at + k)) }
{
    u8x32::from_slice(&bytes[at..])
}

/// Returns 255 in each lane that is at most `byte`, and 0 in the others.
#[inline(always)]
fn up_to(lanes: u8x32, byte: u8) -> u8x32
    ensures { HasLanes result (λ k. if nat_le (slice_index lanes k) byte then 255 else 0) }
{
    lanes
        .simd_le(u8x32::splat(byte))
        .select(u8x32::splat(255), u8x32::splat(0))
}

/// Returns the top bits of the lanes, that of lane `k` as bit `k`.
#[inline(always)]
fn top_bits(lanes: u8x32) -> u64
    ensures bits { (k : ℕ) → (bit_at result k ≡ 1) ↔ (128 ≤ slice_index lanes k) }
    ensures long { length lanes ≡ 32 }
{
    lanes.simd_ge(u8x32::splat(128)).to_bitmask()
}

/// Returns a mask of the 32 bytes from `at` on: bit `k` is set if the byte at `at + k` is at most a comma.
#[inline(always)]
pub(crate) fn marked(bytes: &[u8], at: usize) -> u64
    requires { at + 32 ≤ length bytes.now }
    ensures { AreMarked bytes.now at (at + 32) 0 result }
{
    let block = load(bytes, at);
    let low = up_to(block, b',');
    top_bits(low)
}

/// Returns the place of the lowest bit.
#[inline(always)]
pub(crate) fn lowest(mask: u64) -> usize
    requires { mask ≢ 0 }
    ensures { IsLowest mask result }
{
    mask.trailing_zeros() as usize
}

/// Returns the mask without its lowest bit.
#[inline(always)]
#[tactic(auto, using(crate::proofs::InputFacts::is_without))]
pub(crate) fn without_lowest(mask: u64) -> u64
    requires { mask ≢ 0 }
    ensures { (place : ℕ) → IsLowest mask place → IsWithout mask result place }
{
    mask & (mask - 1)
}
