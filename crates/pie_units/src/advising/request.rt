//! The link for which parameters are chosen, and ranges such as `10ms-100ms`.
ghost use Rattle.std.specs.Prelude.{◌≡◌, ◌≤◌, length};
ghost use Rattle.pie_units.specs.Advice.{dash_place, pair_of, range_in, value_given};

use crate::{Overhead, Quantity, UnitFault, read};
use std::fmt;

/// The ends of a range.
#[derive(Clone, Copy)]
pub struct Range {
    /// The least value.
    pub least: u64,
    /// The greatest value.
    pub greatest: u64,
}

/// A link with its flows.
#[derive(Clone, Copy)]
pub struct Request {
    /// The link's rate, in bits per second, at least 1.
    pub rate: u64,
    /// The round-trip times without the queue, in nanoseconds.
    pub trips: Range,
    /// The numbers of flows that send at the same time, at least 1.
    pub flows: Range,
    /// The bytes that the link adds to each packet, or does not send.
    pub overhead: Overhead,
    /// True if packets of ECN-capable endpoints are marked.
    pub ecn: bool,
}

/// Returns the number of bytes before the first dash.
fn dash_place(text: &[u8]) -> usize
    ensures place { result ≡ dash_place text.now }
    ensures within { result ≤ length text.now }
{
    match text {
        [] => 0,
        [first, rest @ ..] => {
            if *first == b'-' {
                0
            } else {
                dash_place(rest) + 1
            }
        }
    }
}

/// An end of a range.
#[derive(Clone, Copy)]
pub enum RangeEnd {
    /// Both ends, which one number gives.
    Both,
    /// The least value.
    Least,
    /// The greatest value.
    Greatest,
}

/// The reason why a text is not a range. Its message follows the option's name.
#[derive(Clone, Copy)]
pub enum RangeFault {
    /// The text of an end is not a number of this kind.
    Unread(RangeEnd, Quantity, UnitFault),
    /// The least value is above the greatest.
    Reversed,
}

impl RangeEnd {
    /// Returns the words between the option's name and the message for this end.
    fn text(self) -> &'static str {
        match self {
            RangeEnd::Both => "",
            RangeEnd::Least => "has a least value that ",
            RangeEnd::Greatest => "has a greatest value that ",
        }
    }
}

/// Returns the message for the text of an end.
fn number_text(kind: Quantity, why: UnitFault) -> &'static str {
    match (kind, why) {
        (Quantity::Time, UnitFault::NotANumber) =>
            "must be a time with ns, us, ms or s, such as 20ms",
        (_, UnitFault::NotANumber) => "must be a whole number, such as 4",
        (Quantity::Time, UnitFault::TooPrecise) => "must be a whole number of nanoseconds",
        (_, UnitFault::TooPrecise) => "must be a whole number",
        (_, UnitFault::TooGreat) => "must be at most 1152921504606846975",
    }
}

impl fmt::Display for RangeFault {
    fn fmt<W: fmt::Write>(&self, f: &mut fmt::Formatter<W>) -> fmt::Result {
        match *self {
            RangeFault::Unread(end, kind, why) => {
                f.write_str(end.text())?;
                f.write_str(number_text(kind, why))
            }
            RangeFault::Reversed => f.write_str(
                "has a least value above its greatest: write the least first, such as 10ms-50ms or 4-16",
            ),
        }
    }
}

/// Returns the number of an end's text of this kind.
fn value_given(kind: Quantity, end: RangeEnd, text: &[u8]) -> Result<u64, RangeFault>
    ensures { result ≡ value_given kind end text.now }
{
    match read(kind, text) {
        Ok(number) => Ok(number),
        Err(why) => Err(RangeFault::Unread(end, kind, why)),
    }
}

/// Returns the range with these ends, or the first fault.
fn pair_of(
    least: Result<u64, RangeFault>,
    greatest: Result<u64, RangeFault>,
) -> Result<Range, RangeFault>
    ensures { result ≡ pair_of least greatest }
{
    match (least, greatest) {
        (Err(why), _) | (Ok(_), Err(why)) => Err(why),
        (Ok(least), Ok(greatest)) => {
            if least <= greatest {
                Ok(Range { least, greatest })
            } else {
                Err(RangeFault::Reversed)
            }
        }
    }
}

/// Parses a range of numbers of this kind: two with a dash between them, such as `10ms-100ms`, of which the first is at
/// most the second; or one number, for both ends.
///
/// # Errors
///
/// Returns `Unread` for the first text that is not a number of this kind, and otherwise `Reversed`.
pub fn range_in(kind: Quantity, text: &[u8]) -> Result<Range, RangeFault>
    ensures { result ≡ range_in kind text.now }
{
    let place = dash_place(text);
    if place == text.len() {
        let both = value_given(kind, RangeEnd::Both, text);
        return pair_of(both, both);
    }
    pair_of(
        value_given(kind, RangeEnd::Least, &text[..place]),
        value_given(kind, RangeEnd::Greatest, &text[place + 1..]),
    )
}
