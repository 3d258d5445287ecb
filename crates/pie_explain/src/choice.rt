//! The choice of the events to explain.
ghost use Rattle.std.specs.Prelude.{◌≡◌};
ghost use Rattle.pie_explain.specs.Choice.{has_tag, is_lost, is_marked, packet_of};

use pie_book::{Answer, Command, Event};
use pie_queue::Packet;

/// The choice of the events to explain.
#[derive(Clone, Copy)]
pub enum EventChoice {
    /// The event with this number, counted from 1.
    Number(u64),
    /// Every event of a packet with this tag: its arrival and its departure.
    Tag(u64),
    /// Every arrival whose packet was dropped.
    Lost,
    /// Every arrival whose packet was marked.
    Marked,
    /// Every event.
    All,
    /// Every event after the one with this number.
    After(u64),
}

/// Returns the packet of an event: the one that arrived, or the one that left.
#[inline(always)]
pub(crate) fn packet_of(event: &Event) -> Option<Packet>
    ensures { result ≡ packet_of event.now }
{
    match event.command {
        Command::Arrive { packet, .. } => Some(packet),
        _ => match event.answer {
            Answer::Left(packet) => Some(packet),
            _ => None,
        },
    }
}

/// Returns true if the event is about a packet with this tag.
fn has_tag(tag: u64, event: &Event) -> bool
    ensures { result ≡ has_tag tag event.now }
{
    match packet_of(event) {
        Some(packet) => packet.tag == tag,
        None => false,
    }
}

/// Returns true if the packet was dropped.
fn is_lost(answer: Answer) -> bool
    ensures { result ≡ is_lost answer }
{
    matches!(
        answer,
        Answer::DroppedEarly | Answer::DroppedBytes | Answer::DroppedPackets
    )
}

/// Returns true if the packet was marked.
fn is_marked(answer: Answer) -> bool
    ensures { result ≡ is_marked answer }
{
    matches!(answer, Answer::Marked)
}

impl EventChoice {
    ghost use Rattle.pie_explain.specs.Choice.{chooses};

    /// Returns true if the event with this number is chosen.
    pub fn chooses(self, number: u64, event: &Event) -> bool
        ensures { result ≡ chooses self number event.now }
    {
        match self {
            EventChoice::Number(wanted) => wanted == number,
            EventChoice::Tag(tag) => has_tag(tag, event),
            EventChoice::Lost => is_lost(event.answer),
            EventChoice::Marked => is_marked(event.answer),
            EventChoice::All => true,
            EventChoice::After(first) => first < number,
        }
    }
}
