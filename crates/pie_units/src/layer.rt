//! Sizes of packets on a link, as `tc stab` computes them.
ghost use Rattle.std.specs.Prelude.{◌≡◌, ◌≤◌, ◌<◌, ◌^◌};
ghost use Rattle.pie_units.specs.Opening.{bytes_of, entry_at, overhead_of, size_on_link, with_overhead};

use crate::number::{digit_count, number_after};
use crate::options::OptionFault;

/// The overhead of a link: the bytes that it adds to each packet, or those that it does not send.
#[derive(Clone, Copy, Debug, PartialEq, Eq)]
pub enum Overhead {
    /// Bytes that the link adds.
    Added(u16),
    /// Bytes of the packet that the link does not send: a negative overhead of `tc`.
    Removed(u16),
}

/// The format of a link.
#[derive(Clone, Copy, Debug, PartialEq, Eq)]
pub enum LinkLayer {
    /// Packets of any size.
    Ethernet,
    /// Cells of 53 bytes that carry 48.
    Atm,
}

/// The options of `tc stab`.
#[derive(Clone, Copy, Debug, PartialEq, Eq)]
pub struct Layer {
    /// The overhead of each packet.
    pub overhead: Overhead,
    /// The least size of a packet, in bytes.
    pub mpu: u16,
    /// The format of the link.
    pub format: LinkLayer,
}

/// Returns the size of a packet with the overhead of the link, in bytes.
fn with_overhead(overhead: Overhead, size: u64) -> u64
    requires { size ≤ 65535 }
    ensures size { result ≡ with_overhead overhead size }
    ensures few { result ≤ 131070 }
{
    match overhead {
        Overhead::Added(bytes) => size + u64::from(bytes),
        Overhead::Removed(bytes) => size.saturating_sub(u64::from(bytes)),
    }
}

/// Returns the entry of the table of `tc` at `place`, in bytes. An entry is for four sizes.
fn entry_at(layer: Layer, place: u64) -> u64
    requires { place < 512 }
    ensures size { result ≡ entry_at layer place }
    ensures few { result ≤ 72398 }
{
    let size = (place * 4 + 4).max(u64::from(layer.mpu));
    match layer.format {
        LinkLayer::Ethernet => size,
        LinkLayer::Atm => (size + 47) / 48 * 53,
    }
}

/// Returns the bytes that a packet of `size` bytes takes on the link, at least 1. `tc` looks the size up in a table of
/// 512 entries if a least size or cells are given. A size above the table is a sum of entries.
pub(crate) fn size_on_link(layer: Layer, size: u64) -> u64
    requires { size ≤ 65535 }
    ensures { result ≡ size_on_link layer size }
{
    let taken = with_overhead(layer.overhead, size);
    if layer.mpu == 0 && matches!(layer.format, LinkLayer::Ethernet) {
        return taken.max(1);
    }
    let place = taken.saturating_sub(1) / 4;
    entry_at(layer, 511) * (place / 512) + entry_at(layer, place % 512)
}

/// Parses a number of bytes from digits, at most 65535.
fn bytes_of(digits: &[u8]) -> Result<u16, OptionFault>
    ensures { result ≡ bytes_of digits.now }
{
    if digits.is_empty() || digit_count(digits) != digits.len() {
        return Err(OptionFault::NotBytes);
    }
    let number = number_after(0, digits);
    if number > 65535 {
        return Err(OptionFault::NotBytes);
    }
    Ok(number as u16)
}

/// Parses an overhead such as `40` or `-14`, in bytes, -65535 to 65535.
///
/// # Errors
///
/// Returns `NotBytes` for any other text.
pub fn overhead_of(text: &str) -> Result<Overhead, OptionFault>
    ensures { result ≡ overhead_of text.now }
{
    match text.as_bytes() {
        [b'-', digits @ ..] => bytes_of(digits).map(Overhead::Removed),
        digits => bytes_of(digits).map(Overhead::Added),
    }
}
