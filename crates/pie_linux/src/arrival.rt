ghost use Rattle.std.specs.Prelude.{◌≡◌};
ghost use Rattle.pie_linux.specs.Enqueue.{is_markable, is_tag};

/// An arriving packet, with the queue before it.
#[derive(Clone, Copy)]
pub struct LinuxArrival {
    /// The packets in the queue (`qdisc_qlen`).
    pub length: u32,
    /// The bytes in the queue, or in the packet's flow.
    pub backlog: u32,
    /// The packet's length (`skb->len`).
    pub size: u32,
    /// The device's MTU with the link header (`psched_mtu`).
    pub mtu: u32,
    /// True if the packet can be marked ([`is_markable`]).
    pub markable: bool,
    /// The random word. The kernel draws it only if the accumulated probability does not decide.
    pub word: u64,
}

/// Returns true if a packet can be marked (`INET_ECN_set_ce`): `protocol` is IPv4 or IPv6, `contained` is true, that is,
/// the packet's first part contains the whole network header, and the ECN field in the header's first two bytes is not
/// Not-ECT. If CE is set already, that counts as a mark. `protocol` is the one behind VLAN tags (`skb_protocol`).
pub fn is_markable(protocol: u16, header: u16, contained: bool) -> bool
    ensures { result ≡ is_markable protocol header contained }
{
    if !contained {
        return false;
    }
    match protocol {
        0x0800 => header % 4 != 0,
        0x86dd => header / 16 % 4 != 0,
        _ => false,
    }
}

/// Returns true if a protocol is the type of a VLAN tag, 802.1Q or 802.1ad (`eth_type_vlan`). Such a protocol does not
/// determine if the packet can be marked: the protocol behind the tags does.
pub fn is_tag(protocol: u16) -> bool
    ensures { result ≡ is_tag protocol }
{
    protocol == 0x8100 || protocol == 0x88a8
}
