//! A decided step with the numbers before and after it.
use crate::explained::{DecidedPacket, Decision};
use crate::step::{QueueName, Step};
use pie_linux::{LinuxParams, LinuxState};

/// The numbers of a queue and of one of its flows.
#[derive(Clone, Copy)]
pub(crate) struct StepNumbers {
    /// The place of the flow, 0 for pie.
    pub place: u32,
    /// The parameters of the queue.
    pub params: LinuxParams,
    /// The state of the flow.
    pub state: LinuxState,
    /// The packets that wait in the queue, without those that the device returned.
    pub packets: u32,
    /// Their bytes.
    pub bytes: u32,
    /// The moment of the row that queued the flow's first packet, in nanoseconds; 0 if the row has none, or no packet waits.
    pub since: u64,
}

/// The decision of a step, and the numbers before and after it if its flow exists.
#[derive(Clone, Copy)]
pub(crate) struct Taken {
    /// The decision.
    pub decision: Decision,
    /// The numbers before the step.
    pub before: Option<StepNumbers>,
    /// The numbers after it.
    pub after: Option<StepNumbers>,
}

/// The updates of a flow up to a step.
#[derive(Clone, Copy)]
pub(crate) struct Updates {
    /// Their number.
    pub count: u64,
    /// The event of the last one.
    pub event: u64,
    /// The effective moment of the last one, or without one of the queue's first row that has a moment, in nanoseconds.
    pub moment: u64,
    /// The moment of that first row, in nanoseconds.
    pub opening: u64,
}

/// A decided step.
#[derive(Clone, Copy)]
pub(crate) struct DecidedStep {
    /// The number of the row in the text, counted from 1 after the first row.
    pub event: u64,
    /// The name of its queue.
    pub queue: QueueName,
    /// The step.
    pub step: Step,
    /// The effective moment: the greatest of the steps up to this one, in nanoseconds.
    pub moment: u64,
    /// The packet, if the step is its arrival.
    pub arrival: Option<DecidedPacket>,
    /// The numbers before the step.
    pub before: StepNumbers,
    /// The numbers after it.
    pub after: StepNumbers,
    /// The updates of its flow before it.
    pub updates: Updates,
}
