//! The meaning of a packet's numbers.
ghost use Rattle.std.specs.Prelude.{◌≡◌, nat_le, is_some, IfSome};
ghost use Rattle.pie_abi.specs.Structs.{ecn_at, ecn_from, is_bad_size};

use pie_queue::{Ecn, MAX_SIZE};

/// Returns the ECN field with the two bits `bits`, or `None` if `bits` is above 3 (RFC 3168, section 5).
pub fn ecn(bits: u32) -> Option<Ecn>
    ensures field { result ≡ ecn_from bits }
    ensures two { is_some result ≡ nat_le bits 3 }
    ensures value { IfSome result (λ ecn. ecn ≡ ecn_at bits) }
{
    match bits {
        0 => Some(Ecn::NotEct),
        1 => Some(Ecn::Ect1),
        2 => Some(Ecn::Ect0),
        3 => Some(Ecn::Ce),
        _ => None,
    }
}

/// Returns true if `size` is outside 1 to 65535 bytes.
pub fn is_bad_size(size: u32) -> bool
    ensures { result ≡ is_bad_size size }
{
    size == 0 || size > MAX_SIZE
}
