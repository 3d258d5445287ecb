//! The ECN field of a packet.
ghost use Rattle.std.specs.Prelude.{◌≡◌, ◌<◌};

/// The ECN field of a packet's header (RFC 3168, section 5).
#[derive(Clone, Copy, Debug, PartialEq, Eq)]
pub enum Ecn {
    /// Not ECN-capable: the packet is dropped when a capable one would be marked.
    NotEct,
    /// ECN-capable transport, ECT(1).
    Ect1,
    /// ECN-capable transport, ECT(0).
    Ect0,
    /// Congestion experienced.
    Ce,
}

impl Ecn {
    ghost use Rattle.pie_queue.specs.Queue.{bits_of, is_capable};

    /// Returns the two bits of the codepoint, 0 to 3 (RFC 3168, section 5).
    pub fn bits(self) -> u8
        ensures bits { result ≡ bits_of self }
        ensures two { result < 4 }
    {
        match self {
            Ecn::NotEct => 0b00,
            Ecn::Ect1 => 0b01,
            Ecn::Ect0 => 0b10,
            Ecn::Ce => 0b11,
        }
    }

    /// Returns true if the packet's endpoints understand a mark, that is, for every codepoint except Not-ECT (RFC 3168,
    /// section 5).
    pub fn capable(self) -> bool
        ensures { result ≡ is_capable self }
    {
        !matches!(self, Ecn::NotEct)
    }
}
