//! One recorded step.
ghost use Rattle.std.specs.Prelude.{◌≡◌, ◌≤◌, length};
ghost use Rattle.std.specs.Str.{bytes_eq, is_utf8};
ghost use Rattle.pie_linux_history.specs.{Columns.padded, Columns.queue_name, LookBack.is_opening, LookBack.name_of, Queue.is_part};

use pie_linux::{LinuxParams, LinuxState, LinuxStats};
use std::fmt;

/// The most bytes of a queue's name.
const MAX_NAME: usize = 64;

/// The name of a queue, as the text has it.
#[derive(Clone, Copy)]
pub struct QueueName {
    bytes: [u8; MAX_NAME],
    len: usize,
}

/// Returns true if these bytes are UTF-8.
fn is_utf8(name: &[u8]) -> bool
    ensures { result ≡ is_utf8 name.now }
{
    match std::str::from_utf8(name) {
        Ok(_) => true,
        Err(_) => false,
    }
}

/// Returns these bytes, filled up with zeros.
fn padded(name: &[u8]) -> [u8; MAX_NAME]
    requires { length name.now ≤ 64 }
    ensures { result ≡ padded name.now }
{
    let mut bytes = [0; MAX_NAME];
    bytes[..name.len()].copy_from_slice(name);
    bytes
}

impl QueueName {
    /// Returns the name with these bytes. Returns `None` if there are more than 64, or if they are not UTF-8.
    pub(crate) fn new(name: &[u8]) -> Option<QueueName>
        ensures { result ≡ queue_name name.now }
    {
        if name.len() > MAX_NAME {
            return None;
        }
        if is_utf8(name) {
            let (bytes, len) = (padded(name), name.len());
            return Some(QueueName { bytes, len });
        }
        None
    }

    /// Returns true if both names are equal.
    pub fn equals(&self, other: &QueueName) -> bool
        ensures { result ≡ bytes_eq (name_of self.now) (name_of other.now) }
    {
        self.is(other.bytes())
    }

    /// Returns true if this is the name with these bytes.
    pub(crate) fn is(&self, name: &[u8]) -> bool
        ensures { result ≡ bytes_eq (name_of self.now) name.now }
    {
        self.bytes() == name
    }

    /// Returns the bytes of the name.
    pub(crate) fn bytes(&self) -> &[u8]
        ensures { result.now ≡ name_of self.now }
    {
        if self.len <= MAX_NAME {
            &self.bytes[..self.len]
        } else {
            &[]
        }
    }
}

impl fmt::Display for QueueName {
    fn fmt<W: fmt::Write>(&self, f: &mut fmt::Formatter<W>) -> fmt::Result {
        f.write_str(std::str::from_utf8(self.bytes()).unwrap_or(""))
    }
}

/// The kind of a step.
#[derive(Clone, Copy, Debug, PartialEq, Eq)]
pub(crate) enum Kind {
    /// The queue is made.
    Init,
    /// A packet arrives.
    Enqueue,
    /// A packet departs.
    Dequeue,
    /// The probability is updated.
    Update,
    /// A round of fq_pie's timer begins.
    Timer,
    /// The record of a running queue begins with its parameters and state.
    Resume,
    /// A flow of a running queue.
    Flow,
    /// A waiting packet of a running queue.
    Wait,
    /// The parameters are changed.
    Change,
    /// The queue is reset.
    Reset,
    /// The queue ends.
    Destroy,
    /// A departure finds no packet. It changes nothing.
    Empty,
}

impl Kind {
    /// Returns true if the row belongs to the row `resume` before it, and is no step of its own.
    pub(crate) fn is_part(self) -> bool
        ensures { result ≡ is_part self }
    {
        matches!(self, Kind::Flow | Kind::Wait)
    }

    /// Returns true if a queue begins with the row.
    pub(crate) fn is_opening(self) -> bool
        ensures { result ≡ is_opening self }
    {
        matches!(self, Kind::Init | Kind::Resume)
    }
}

/// One recorded step. Numbers that the kind of the step lacks are 0.
#[derive(Clone, Copy)]
pub(crate) struct Step {
    /// The kind of the step.
    pub kind: Kind,
    /// True for fq_pie.
    pub has_flows: bool,
    /// True if the text has the columns `rq`, `rqb`, `drop` and `moved`, that is, each input of a step.
    pub has_returned: bool,
    /// The number of the step in its queue.
    pub number: u64,
    /// The time since the kernel's boot, in nanoseconds.
    pub moment: u64,
    /// The flow of fq_pie, if it is known.
    pub flow: Option<u32>,
    /// The backlog that the step was given, in bytes.
    pub backlog: u32,
    /// The packet's length (`skb->len`); at a change the number of dropped packets.
    pub size: u32,
    /// The packet's length (`qdisc_pkt_len`).
    pub packet_length: u32,
    /// The device's MTU with the link header.
    pub mtu: u32,
    /// The packets that waited before the step.
    pub length_before: u32,
    /// The packets that waited after it.
    pub length_after: u32,
    /// The bytes that waited before the step.
    pub bytes_before: u32,
    /// The bytes that waited after it.
    pub bytes_after: u32,
    /// The limit in packets.
    pub limit: u32,
    /// The return value of enqueue.
    pub returned: u32,
    /// The packet's protocol, behind its VLAN tags if the text has it.
    pub protocol: u16,
    /// The first two bytes of the packet's network header.
    pub header: u16,
    /// True if the packet's first part contains the network header.
    pub contained: bool,
    /// The return value of `pie_drop_early`, 255 if it was not called.
    pub early: u32,
    /// The number of random words that were drawn.
    pub draws: u32,
    /// The random word.
    pub word: u64,
    /// The moment at which the packet was queued, in ticks.
    pub enqueued: u64,
    /// Readings of the clock in a departure with the rate estimator, in nanoseconds.
    pub readings: [u64; 3],
    /// The number of these readings.
    pub reads: u32,
    /// The hash of fq_pie.
    pub hash: u32,
    /// The priority of fq_pie's packet, which may be a class of the queue.
    pub priority: u32,
    /// The packet's memory in bytes; at `init`, `resume` and `change` fq_pie's memory limit.
    pub truesize: u32,
    /// fq_pie's memory before an arrival; at `wait` 0 for a packet that waits; at other rows of a queue fq_pie's `ecn_prob`.
    pub x0: u32,
    /// fq_pie's memory after an arrival and a departure; at `flow` 1 if packets wait; at other rows of a queue the number of flows.
    pub x1: u32,
    /// The number of arrivals at which fq_pie's memory exceeded its limit; at other rows of a queue fq_pie's quantum.
    pub x2: u32,
    /// The state after the step.
    pub after: LinuxState,
    /// The parameters, at `init`, `resume` and `change`.
    pub params: LinuxParams,
    /// The counters after the step.
    pub stats: LinuxStats,
    /// The packets that the device returned, or at which the parent peeked. The kernel counts them beside those that wait.
    pub returned_packets: u32,
    /// Their bytes (`qdisc_pkt_len`).
    pub returned_bytes: u32,
    /// True for a departure that a change of fq_pie's limit dropped.
    pub is_drop: bool,
    /// The returned packets that a change dropped.
    pub moved: u32,
}
