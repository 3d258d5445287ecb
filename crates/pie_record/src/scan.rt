//! Scans the bytes of a plain line for the ends of its fields and the end of the line.
ghost use Rattle.std.specs.Prelude.{◌≡◌, ◌≤◌, ◌<◌, ◌+◌, ◌++◌, slice_range, take};
ghost use Rattle.pie_record.specs.{length, FindsLine, IsScanned, Scans};

use crate::block::{lowest, marked, without_lowest};
use std::simd::prelude::*;

/// The number of bytes that are looked at together.
pub(crate) const BLOCK: usize = 32;

/// The room for a line that is read in place, with its line feed, in bytes. The longest record that this project writes is shorter.
pub(crate) const MAX_LINE: usize = 2048;

/// The greatest number of fields of such a line.
pub(crate) const MAX_FIELDS: usize = 128;

/// The reason why a scan stopped.
#[derive(Clone, Copy)]
pub(crate) enum Stop {
    /// The line feed at the end of the line.
    Feed,
    /// A byte that csv has to read, or too many fields.
    Odd,
    /// The end of the bytes, or of the room for a line.
    End,
}

/// Scans the 32 bytes from `at` on, behind `start` commas. Any byte below the comma, except the line feed, is left to csv, the quote and the
/// carriage return with it. Returns the place of the stop, the number of commas before it, and the reason.
#[inline(always)]
fn scan_block(
    bytes: &[u8],
    at: usize,
    ends: &mut [usize; MAX_FIELDS],
    start: usize,
) -> (usize, usize, Stop)
    requires within { at + 32 ≤ length bytes.now }
    requires few { start + 32 < 128 }
    requires scanned { IsScanned bytes.now (take start ends.old) at }
    ensures few { result.1 < 128 }
    ensures scans { Scans result.2 bytes.now (take result.1 ends.new) (at + 32) result.0 }
{
    let mut left = marked(bytes, at);
    let mut count = start;
    while left != 0 {
        let place = at + lowest(left);
        if bytes[place] != b',' {
            if bytes[place] == b'\n' {
                return (place, count, Stop::Feed);
            }
            return (place, count, Stop::Odd);
        }
        ends[count] = place;
        count += 1;
        left = without_lowest(left);
    }
    (at + BLOCK, count, Stop::End)
}

/// Copies the 32 bytes from `at` on.
#[inline(always)]
fn copy_block(line: &mut [u8], bytes: &[u8], at: usize)
    requires within { at + 32 ≤ length bytes.now }
    requires room { at + 32 ≤ length line.old }
    ensures long { length line.new ≡ length line.old }
    ensures copied { take (at + 32) line.new ≡ take at line.old ++ slice_range bytes.now at (at + 32) }
{
    u8x32::from_slice(&bytes[at..]).copy_to_slice(&mut line[at..]);
}

/// Copies the bytes of a line to `line`, up to its line feed or further, and writes the places of its commas to `ends`. Returns the number of bytes
/// before the stop, the number of commas among them, and the reason for the stop.
#[inline(always)]
pub(crate) fn scan(
    bytes: &[u8],
    line: &mut [u8; MAX_LINE],
    ends: &mut [usize; MAX_FIELDS],
) -> (usize, usize, Stop)
    ensures few { result.1 < 128 }
    ensures found { FindsLine result.2 bytes.now (take result.0 line.new) (take result.1 ends.new) result.0 }
{
    let limit = bytes.len().min(MAX_LINE);
    let mut at = 0;
    let mut count = 0;
    while BLOCK <= limit - at {
        if count + BLOCK >= MAX_FIELDS {
            return (at, count, Stop::Odd);
        }
        copy_block(line, bytes, at);
        let (place, more, stop) = scan_block(bytes, at, ends, count);
        match stop {
            Stop::End => {}
            Stop::Feed => return (place, more, Stop::Feed),
            Stop::Odd => return (place, more, Stop::Odd),
        }
        count = more;
        at += BLOCK;
    }
    (at, count, Stop::End)
}
