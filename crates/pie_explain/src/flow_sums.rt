//! The numbers of a flow.
ghost use Rattle.std.specs.Prelude.{◌≡◌, ◌*◌, ◌/◌, ◌++◌, ◌∷◌, [], List, is_some};
ghost use Rattle.pie_explain.specs.declared.explanation.Explained.{Explained};
ghost use Rattle.pie_explain.specs.FlowSums.{added_up, flow_by, flow_sums, numbers_of};

use crate::Explained;
use crate::meter_input::{
    EARLY, LEFT, MARKED, MeterInput, NO_BYTES, NO_PACKETS, QUEUED, meter_input_of,
};
use pie_book::{Answer, Command};

/// The numbers of a flow, or of several, each over all events so far, at most 2^64 - 1.
#[derive(Clone, Copy, Default)]
pub struct FlowSums {
    /// The number of arrivals.
    pub arrivals: u64,
    /// Their bytes.
    pub bytes: u64,
    /// The number of packets queued unmarked.
    pub queued: u64,
    /// The number of packets marked and queued.
    pub marked: u64,
    /// The number of packets dropped early.
    pub early: u64,
    /// The number of packets dropped by the limit in bytes.
    pub no_bytes: u64,
    /// The number of packets dropped by the limit in packets.
    pub no_packets: u64,
    /// The number of departures.
    pub left: u64,
    /// Their bytes.
    pub carried: u64,
    /// The sum of their times in the queue, in nanoseconds, at most 2^128 - 1.
    pub waited: u128,
    /// The longest that one of them had, in nanoseconds.
    pub greatest_wait: u64,
    /// Their share of the queue: for each packet its bytes times its whole microseconds in the queue, summed.
    pub held: u64,
}

/// Returns the flow of an event: the upper 32 bits of the tag of the packet that arrived or left.
pub(crate) fn flow_by(command: Command, answer: Answer) -> Option<u32>
    ensures { result ≡ flow_by command answer }
{
    match command {
        Command::Arrive { packet, .. } => Some((packet.tag >> 32) as u32),
        _ => match answer {
            Answer::Left(packet) => Some((packet.tag >> 32) as u32),
            _ => None,
        },
    }
}

/// Returns the counts of one event, by the meter's input for it.
#[tactic(auto, unfolding(crate::specs::FlowSums::numbers_of))]
fn numbers_of(one: &MeterInput) -> FlowSums
    ensures { result ≡ numbers_of one.now }
{
    let waited = one.wait.unwrap_or(0);
    FlowSums {
        arrivals: u64::from(one.arrived.is_some()),
        bytes: one.arrived.unwrap_or(0),
        queued: u64::from(one.answer == QUEUED),
        marked: u64::from(one.answer == MARKED),
        early: u64::from(one.answer == EARLY),
        no_bytes: u64::from(one.answer == NO_BYTES),
        no_packets: u64::from(one.answer == NO_PACKETS),
        left: u64::from(one.answer == LEFT),
        carried: one.carried,
        waited: u128::from(waited),
        greatest_wait: waited,
        held: one.carried.saturating_mul(waited / 1000),
    }
}

impl FlowSums {
    /// Returns the numbers of no event.
    #[tactic(auto, unfolding(crate::specs::FlowSums::added_up, pie_aqm::specs::History::greatest))]
    pub(crate) fn empty() -> FlowSums
        ensures { result ≡ added_up [] }
    {
        FlowSums::default()
    }

    /// Returns the sums of both.
    #[tactic(auto, unfolding(crate::specs::FlowSums::added_up, pie_aqm::specs::History::greatest))]
    pub(crate) fn plus(self, more: &FlowSums) -> FlowSums
        ensures { result ≡ added_up (self ∷ more.now ∷ []) }
    {
        FlowSums {
            arrivals: self.arrivals.saturating_add(more.arrivals),
            bytes: self.bytes.saturating_add(more.bytes),
            queued: self.queued.saturating_add(more.queued),
            marked: self.marked.saturating_add(more.marked),
            early: self.early.saturating_add(more.early),
            no_bytes: self.no_bytes.saturating_add(more.no_bytes),
            no_packets: self.no_packets.saturating_add(more.no_packets),
            left: self.left.saturating_add(more.left),
            carried: self.carried.saturating_add(more.carried),
            waited: self.waited.saturating_add(more.waited),
            greatest_wait: self.greatest_wait.max(more.greatest_wait),
            held: self.held.saturating_add(more.held),
        }
    }

    /// Returns the numbers with one more event.
    #[tactic(auto, using(crate::proofs::FlowFacts::flow_sums_push))]
    pub(crate) fn with(self, all: &Explained) -> FlowSums
        ensures { (shown : List Explained) → self ≡ flow_sums shown → result ≡ flow_sums (shown ++ all.now ∷ []) }
    {
        self.plus(&numbers_of(&meter_input_of(all)))
    }
}
