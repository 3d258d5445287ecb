//! The decision of a step, and the explanation of a packet.
ghost use Rattle.std.specs.Prelude.{◌≡◌, [], ℕ, List, OnOk};
ghost use Rattle.pie_explain.specs.Report.{Grows};
ghost use Rattle.pie_linux_history.specs.{Queue.lacking, Queue.other, Reports.is_marked};

use crate::difference::Difference;
use crate::step::QueueName;
use pie_linux::{LinuxCause, LinuxState, Picked};
use pie_record::Page;
use std::alloc::AllocError;
use std::fmt::Write;

/// The reason of the decision on a packet.
#[derive(Clone, Copy)]
pub(crate) enum Fate {
    /// It arrived, and this is the cause of its decision.
    Arrival(LinuxCause),
    /// It waited, and the queue was longer than its new limit.
    Change,
    /// It waited, and the queue was purged or removed.
    Reset,
}

/// Returns true if a packet with this cause is marked.
pub(crate) fn is_marked(cause: LinuxCause) -> bool
    ensures { result ≡ is_marked cause }
{
    matches!(
        cause,
        LinuxCause::SumAbove(Picked::Marked) | LinuxCause::WordBelow(Picked::Marked)
    )
}

/// A packet that a step decided, and the queue before.
#[derive(Clone, Copy)]
pub(crate) struct DecidedPacket {
    /// The packet's bytes.
    pub bytes: u32,
    /// The reason.
    pub fate: Fate,
    /// The state of the queue, or of the packet's flow.
    pub state: LinuxState,
    /// The packets that waited.
    pub length: u32,
    /// The bytes that waited.
    pub backlog: u32,
    /// The limit in packets.
    pub limit: u32,
}

/// An input of a decision that a row lacks.
#[derive(Clone, Copy, Debug, PartialEq, Eq)]
pub(crate) enum Input {
    /// The packets that the device returned: the text has no column `rq`.
    Returned,
    /// The protocol behind a VLAN tag.
    Protocol,
    /// A change that was refused, or whose row comes later.
    Change,
}

/// The decision of a step.
#[derive(Clone, Copy)]
pub(crate) struct Decision {
    /// The first recorded number that differs.
    pub difference: Option<Difference>,
    /// The packet, if the step is its arrival.
    pub arrival: Option<DecidedPacket>,
    /// The first input that the row lacks. Its value is taken from the recorded results.
    pub lacks: Option<Input>,
}

impl Decision {
    /// Returns the decision of a step that is no arrival and lacks no input.
    pub(crate) fn other(difference: Option<Difference>) -> Decision
        ensures { result ≡ other difference }
    {
        Decision {
            difference,
            arrival: None,
            lacks: None,
        }
    }
}

/// Returns the decision of a step that is no arrival, and that lacks this input.
pub(crate) fn lacking(lacks: Option<Input>, difference: Option<Difference>) -> Decision
    ensures { result ≡ lacking lacks difference }
{
    Decision {
        difference,
        arrival: None,
        lacks,
    }
}

/// A packet that a step decided, with the step.
#[derive(Clone, Copy)]
pub struct ExplainedPacket {
    pub(crate) event: u64,
    pub(crate) queue: QueueName,
    pub(crate) step: u64,
    pub(crate) moment: u64,
    pub(crate) flow: Option<u32>,
    pub(crate) packet: DecidedPacket,
}

/// A report of packets, one after another. `explains packet text` relates a packet to its text.
pub trait PacketReport: Drop {
    ghost use Rattle.pie_linux_history.specs.declared.explained.ExplainedPacket.{ExplainedPacket};

    ghost explains: { Self → ExplainedPacket → List ℕ → Type 0 };

    /// Writes the text for a packet onto a page.
    fn explain_packet(&self, packet: &ExplainedPacket, page: &mut Page) -> Result<(), AllocError>
        ensures { OnOk result (Grows (explains self.now packet.now) [] page.old page.new) };
}

/// The report of packets in words.
#[derive(Clone, Copy)]
pub struct PacketWords;

impl PacketReport for PacketWords {
    ghost use Rattle.std.specs.Prelude.{⊤};

    ghost explains = { λ it packet text. ⊤ };

    fn explain_packet(&self, packet: &ExplainedPacket, page: &mut Page) -> Result<(), AllocError> {
        let mut text = page.words();
        write!(text, "{packet}")?;
        page.put(text)
    }
}
