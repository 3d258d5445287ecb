//! The queues of a text.
ghost use Rattle.std.specs.Prelude.{◌≡◌, ◌+◌, ◌%◌, ◌^◌, ◌++◌, ◌∷◌, [], List, OnOk, Some, None, option_map, false};
ghost use Rattle.pie_linux.specs.Enqueue.{one_if};
ghost use Rattle.pie_linux_history.specs.{Audit.difference_at, Audit.has_failed, Audit.verdict_of, Cuts.resumed_rows, Decided.decided_by, Known.HasRead, Known.Leaves, Known.Represents, Known.Takes, LookBack.Entry, LookBack.Lost, LookBack.Took, LookBack.entry_in, LookBack.is_opening, LookBack.is_other, LookBack.is_step, LookBack.lack_counted, LookBack.lack_in};

use crate::columns::{Columns, fault_at, lost_at, out_of_memory};
use crate::decided::{DecidedStep, Taken};
use crate::difference::Difference;
use crate::explained::{DecidedPacket, Input};
use crate::fault::StepsFault;
use crate::known::KnownQueues;
use crate::step::{QueueName, Step};
use crate::updates::NONE;
use pie_record::{Page, Record, RecordFault};
use std::alloc::{AllocError, Global};
use std::fmt;

/// The numbers of a text.
#[derive(Clone, Copy)]
pub struct StepsCounts {
    /// The rows after the first one, which is the number of the last event.
    pub events: u64,
    /// The steps.
    pub steps: u64,
    /// The steps that the recorder lost.
    pub lost: u64,
    /// The steps whose row does not say which packets the device returned. They were decided with the recorded numbers before
    /// the step.
    pub without_returned: u64,
    /// The steps whose row lacks a protocol behind a VLAN tag. They were decided with the recorded return value.
    pub without_protocol: u64,
    /// The steps with parameters that no earlier row has. They were decided with those of the step.
    pub without_change: u64,
}

impl StepsCounts {
    /// Returns the counts of no rows.
    fn new() -> StepsCounts
        ensures { result ≡ record { events = 0; steps = 0; lost = 0; without_returned = 0; without_protocol = 0; without_change = 0 } }
    {
        StepsCounts {
            events: 0,
            steps: 0,
            lost: 0,
            without_returned: 0,
            without_protocol: 0,
            without_change: 0,
        }
    }

    /// Counts a step that lacks this input.
    fn count_lack(&mut self, lacks: Option<Input>)
        ensures { self.new ≡ lack_counted self.old lacks }
    {
        match lacks {
            Some(Input::Returned) => self.without_returned = self.without_returned.wrapping_add(1),
            Some(Input::Protocol) => self.without_protocol = self.without_protocol.wrapping_add(1),
            Some(Input::Change) => self.without_change = self.without_change.wrapping_add(1),
            None => {}
        }
    }
}

/// A step with a number that differs from the rules.
#[derive(Clone, Copy)]
pub struct StepDifference {
    /// The number of the row in the text, counted from 1 after the first row.
    pub event: u64,
    /// The name of the queue.
    pub queue: QueueName,
    /// The number of the step in its queue.
    pub step: u64,
    /// The column and both numbers.
    pub difference: Difference,
}

impl fmt::Display for StepDifference {
    fn fmt<W: fmt::Write>(&self, f: &mut fmt::Formatter<W>) -> fmt::Result {
        let (queue, step, column) = (&self.queue, self.step, self.difference.name());
        let (recorded, right) = (self.difference.recorded, self.difference.right);
        write!(
            f,
            "queue {queue}, step {step}: {column} is recorded as {recorded}, the rules give {right}"
        )
    }
}

/// The queues of a text, the counts of its steps, and the packets that the last step decided.
#[derive(Drop)]
pub(crate) struct Queues {
    alloc: Global,
    known: KnownQueues,
    pub counts: StepsCounts,
    /// The latest moment of the steps so far.
    pub moment: u64,
    /// The last row, if it is a step, with its queue.
    pub last: Option<(QueueName, Step)>,
    /// The decision of the last step.
    taken: Option<Taken>,
    /// The waiting packets that the last step dropped.
    pub lost: Vec<DecidedPacket>,
}

impl Queues {
    /// Returns the queues of an empty text.
    pub(crate) fn new(alloc: Global) -> Queues
        ensures { HasRead result [] }
    {
        let known = KnownQueues::new(alloc);
        Queues {
            alloc,
            known,
            counts: StepsCounts::new(),
            moment: 0,
            last: None,
            taken: None,
            lost: Vec::new(alloc),
        }
    }

    /// Returns the last step with the numbers around it, unless it is a first row, or its flow does not exist. The updates
    /// before it are left out.
    pub(crate) fn decided(&self) -> Option<DecidedStep>
        ensures { result ≡ decided_by self.now.counts.events self.now.moment self.now.last self.now.taken }
    {
        let ((queue, step), taken) = (self.last?, self.taken?);
        let (before, after) = (taken.before?, taken.after?);
        Some(DecidedStep {
            event: self.counts.events,
            queue,
            step,
            moment: self.moment,
            arrival: taken.decision.arrival,
            before,
            after,
            updates: NONE,
        })
    }

    /// Adds rows of each queue that is alive to a page, in the order in which they began. An audit that reads the rows has these
    /// queues.
    pub(crate) fn write_resumed(&self, columns: &Columns, page: &mut Page) -> Result<(), AllocError>
        ensures { (entries : List Entry) → HasRead self.now entries → OnOk result (page.new ≡ page.old ++ resumed_rows columns.now entries) }
    {
        self.known.write(columns, self.moment, page)
    }

    /// Takes a row. With a chosen `queue` a row of another queue is only counted. Returns the first number of its step that
    /// differs.
    #[tactic(auto, unfolding(crate::specs::LookBack::entry_in))]
    pub(crate) fn take(
        &mut self,
        queue: Option<&str>,
        columns: &Columns,
        fields: &Record,
    ) -> Result<Option<StepDifference>, StepsFault>
        ensures { (entries : List Entry) → HasRead self.old entries → has_failed result ≡ false
            → Takes self.new entries (entry_in (option_map (λ name. name.now) queue.entry) columns.now fields.now) result }
    {
        self.lost.clear();
        self.taken = None;
        self.last = None;
        self.counts.events = self.counts.events.wrapping_add(1);
        let row = self.counts.events.wrapping_add(1);
        if is_other(queue, columns, fields) {
            return Ok(None);
        }
        match lost_at(fields) {
            Ok(None) => {}
            Ok(Some((queue, count))) => {
                self.lose(&queue, count);
                return Ok(None);
            }
            Err(why) => return Err(fault_at(row, why)),
        }
        let step = match columns.read(fields) {
            Ok(step) => step,
            Err(why) => return Err(fault_at(row, why)),
        };
        match QueueName::new(columns.queue(fields)) {
            Some(queue) => {
                self.moment = self.moment.max(step.moment);
                self.decide(queue, &step)
            }
            None => Err(fault_at(row, RecordFault::Word)),
        }
    }

    /// Takes a row of lost steps. The queue must be resumed before its next step.
    fn lose(&mut self, queue: &QueueName, count: u64)
        ensures counts { self.new.counts ≡ record self.old.counts { lost = (self.old.counts.lost + count) % 2 ^ 64 } }
        ensures known { (entries : List Entry) → Represents self.old.known.all.items entries
            → Represents self.new.known.all.items (entries ++ Lost queue.now count ∷ []) }
        ensures step { (self.new.last ≡ self.old.last) × (self.new.taken ≡ self.old.taken) × (self.new.lost ≡ self.old.lost) }
        ensures moment { self.new.moment ≡ self.old.moment }
    {
        self.counts.lost = self.counts.lost.wrapping_add(count);
        self.known.lose(queue.bytes());
    }

    /// Decides a step again. A first step makes a queue, in the place of an earlier one with the same name.
    fn decide(
        &mut self,
        queue: QueueName,
        step: &Step,
    ) -> Result<Option<StepDifference>, StepsFault>
        requires fresh { (self.old.taken ≡ None) × (self.old.lost.items ≡ []) }
        ensures moment { self.new.moment ≡ self.old.moment }
        ensures counts { (entries : List Entry) → Represents self.old.known.all.items entries → has_failed result ≡ false
            → self.new.counts ≡ lack_counted (record self.old.counts { steps = (self.old.counts.steps + one_if (is_step (Took queue step.now))) % 2 ^ 64 })
            (lack_in entries (Took queue step.now)) }
        ensures takes { (entries : List Entry) → Represents self.old.known.all.items entries → has_failed result ≡ false
            → (result ≡ verdict_of entries self.old.counts.events (Took queue step.now)) × Leaves self.new entries (Took queue step.now) }
    {
        self.counts.steps = self
            .counts
            .steps
            .wrapping_add(u64::from(!step.kind.is_part()));
        self.last = Some((queue, *step));
        let event = self.counts.events;
        if step.kind.is_opening() {
            return match self.known.open(self.alloc, queue, step) {
                Ok(difference) => Ok(difference_at(event, queue, step, difference)),
                Err(_) => Err(out_of_memory()),
            };
        }
        match self.known.take(queue.bytes(), step, &mut self.lost) {
            Ok(Some(taken)) => {
                self.taken = Some(taken);
                self.counts.count_lack(taken.decision.lacks);
                Ok(difference_at(event, queue, step, taken.decision.difference))
            }
            Ok(None) => Err(StepsFault::NoStart {
                row: event.wrapping_add(1),
                queue,
                step: step.number,
            }),
            Err(_) => Err(out_of_memory()),
        }
    }
}

/// Returns true if a row is one of another queue than the chosen one.
fn is_other(queue: Option<&str>, columns: &Columns, fields: &Record) -> bool
    ensures { result ≡ is_other (option_map (λ name. name.now) queue.entry) columns.now fields.now }
{
    let Some(chosen) = queue else {
        return false;
    };
    match lost_at(fields) {
        Ok(Some((lost, _))) => !lost.is(chosen.as_bytes()),
        _ => columns.queue(fields) != chosen.as_bytes(),
    }
}

/// Returns the difference of a step.
fn difference_at(
    event: u64,
    queue: QueueName,
    step: &Step,
    difference: Option<Difference>,
) -> Option<StepDifference>
    ensures { result ≡ difference_at event queue step.now difference }
{
    match difference {
        Some(difference) => Some(StepDifference {
            event,
            queue,
            step: step.number,
            difference,
        }),
        None => None,
    }
}
