//! The rows of a running queue, from which an audit continues: its numbers as a row `resume`, then rows `wait` and `flow`.
//!
//! pie-watch writes such rows for a queue of the kernel, and `pie cut` for a queue of an audit. Every number that an audit
//! carries from one step to the next has a column:
//!
//! | numbers | row | columns |
//! |---|---|---|
//! | family, last step, parameters, counters, limit of memory, flows, quantum | `resume` | `kind`, `seq`, `target` to `dqrate` and `x0`, `packets_in` to `maxq`, `truesize`, `x1`, `x2` |
//! | state of pie | `resume` | `a_qdelay` to `a_backlog_old` |
//! | state, backlog and `listed` of each flow of fq_pie that is not as a new one | `flow` | `a_qdelay` to `a_backlog_old`, `backlog`, `x1` |
//! | waiting packets | `wait` | `size`, `pktlen`, `truesize`, `enq`, `ns`, `flow` |
//! | arrivals above the limit of memory, plus 1 | `resume` | `t0` |
//! | first flow of the next round, plus 1 | `resume` | `t1` |
//! | memory beyond that of the waiting packets: fq_pie's reset keeps it | `resume` | `t2` |
//!
//! A text of pie-watch without the column `rq` has 0 in the columns of the last three lines: an audit then learns the numbers
//! of two of them from the next arrival and round, and takes the memory to be 0. The deficits and the order of the flows do
//! not decide any step, and are 0. The packets that a change of fq_pie has dropped before its row are not kept.
ghost use Rattle.std.specs.Prelude.{◌≡◌, ◌≤◌, ◌+◌, ◌++◌, OnOk, Option, ℕ, false, length, true};
ghost use Rattle.std.specs.List.{flat_map, fold};
ghost use Rattle.pie_linux_history.specs.{Cuts.flow_row, Cuts.flow_rows, Cuts.flow_step, Cuts.flows_rows, Cuts.in_32, Cuts.is_new, Cuts.is_told, Cuts.less_flow, Cuts.less_memory, Cuts.named_flow, Cuts.queue_row, Cuts.queue_rows, Cuts.resume_step, Cuts.wait_row, Cuts.wait_step, Decisions.waiting_of, Resumes.emptied, Resumes.first_numbers, Resumes.known_number, Resumes.memory_at, Resumes.number_field, Resumes.resumed, Resumes.resumed_flow};

use crate::columns::{Columns, blank};
use crate::numbers::{FlowNumbers, QueueNumbers, Waiting};
use crate::queue::{Flow, Queue};
use crate::right::{of_flows, percent_of, state_of_pie};
use crate::row::write_step;
use crate::step::{Kind, QueueName, Step};
use pie_linux::LinuxState;
use pie_record::Page;
use std::alloc::AllocError;

/// Returns the number of a field that is one higher, and `None` for 0.
fn known_number(field: u64) -> Option<u32>
    ensures { result ≡ known_number field }
{
    if field == 0 {
        return None;
    }
    u32::try_from(field - 1).ok()
}

/// Returns the field of a number: one higher, and 0 for `None`.
fn number_field(number: Option<u32>) -> u64
    ensures result { result ≡ number_field number }
    ensures known { known_number result ≡ number }
{
    match number {
        Some(number) => u64::from(number) + 1,
        None => 0,
    }
}

/// Returns the numbers of a queue after its first step, with the numbers that only `pie cut` writes, if the step is a row
/// `resume`.
pub(crate) fn resumed(numbers: QueueNumbers, step: &Step) -> QueueNumbers
    ensures { result ≡ resumed numbers step.now }
{
    if step.kind != Kind::Resume {
        return numbers;
    }
    QueueNumbers {
        memory: u32::try_from(step.readings[2]).unwrap_or(0),
        over_memory: known_number(step.readings[0]),
        cursor: known_number(step.readings[1]),
        ..numbers
    }
}

/// Returns the numbers of a flow by its row.
pub(crate) fn resumed_flow(step: &Step) -> FlowNumbers
    ensures { result ≡ resumed_flow step.now }
{
    FlowNumbers {
        state: step.after,
        backlog: step.backlog,
        listed: step.x1 != 0,
    }
}

/// Returns true if these are the numbers of a new flow.
fn is_new(numbers: &FlowNumbers) -> bool
    ensures { result ≡ is_new numbers.now }
{
    numbers.state == LinuxState::new() && numbers.backlog == 0 && !numbers.listed
}

/// Returns the field of a memory.
fn memory_field(memory: u32) -> u64
    ensures value { result ≡ memory }
    ensures known { memory_at result ≡ memory }
{
    u64::from(memory)
}

/// Returns the row `resume` of a queue with these numbers, the memory that is not of its waiting packets, and the state of pie.
#[tactic(auto, unfolding(crate::specs::Cuts::resume_step))]
fn resume_step(numbers: &QueueNumbers, memory: u32, state: &LinuxState) -> Step
    ensures step { result ≡ resume_step numbers.now memory state.now }
    ensures numbers { (numbers.now.has_flows ≡ true → numbers.now.flows ≤ 65536) → (numbers.now.has_flows ≡ false → numbers.now.flows ≡ 1)
        → resumed (first_numbers numbers.now.handle result) result ≡ emptied numbers.now memory }
    ensures state { numbers.now.has_flows ≡ false → result.after ≡ state.now }
{
    let has_flows = numbers.has_flows;
    let zeros = blank(Kind::Resume, has_flows, true);
    Step {
        kind: Kind::Resume,
        has_flows,
        length_after: numbers.length,
        bytes_after: numbers.bytes,
        limit: numbers.params.limit,
        readings: [
            number_field(numbers.over_memory),
            number_field(numbers.cursor),
            memory_field(memory),
        ],
        truesize: numbers.memory_limit,
        x0: percent_of(numbers.params.marks),
        x1: of_flows(has_flows, numbers.flows),
        x2: numbers.quantum,
        after: state_of_pie(has_flows, state, &zeros.after),
        params: numbers.params,
        stats: numbers.stats,
        ..zeros
    }
}

/// Returns the row of a flow of fq_pie in which `length` packets wait.
#[tactic(auto, unfolding(crate::specs::Cuts::flow_step))]
fn flow_step(numbers: &FlowNumbers, length: u32) -> Step
    ensures step { result ≡ flow_step numbers.now length }
    ensures flow { resumed_flow result ≡ numbers.now }
{
    Step {
        backlog: numbers.backlog,
        length_after: length,
        x1: u32::from(numbers.listed),
        after: numbers.state,
        ..blank(Kind::Flow, true, true)
    }
}

/// Returns the row of a waiting packet.
#[tactic(auto, unfolding(crate::specs::Cuts::wait_step))]
fn wait_step(has_flows: bool, waiting: &Waiting) -> Step
    ensures step { result ≡ wait_step has_flows waiting.now }
    ensures packet { waiting_of result ≡ waiting.now }
    ensures waits { result.x0 ≡ 0 }
{
    Step {
        packet_length: waiting.length,
        size: waiting.size,
        truesize: waiting.truesize,
        enqueued: waiting.enqueued,
        moment: waiting.moment,
        x0: 0,
        ..blank(Kind::Wait, has_flows, true)
    }
}

/// Returns a memory without that of these packets.
fn less_memory(memory: u32, packets: &[Waiting]) -> u32
    ensures { result ≡ fold less_memory memory packets.now }
{
    let mut left = memory;
    for waiting in packets {
        left = left.wrapping_sub(waiting.truesize);
    }
    left
}

/// Returns a memory without that of the packets of a flow.
fn less_flow(memory: u32, flow: &Flow) -> u32
    ensures { result ≡ less_flow memory flow.now }
{
    let (first, rest) = flow.waiting.as_slices();
    less_memory(less_memory(memory, first), rest)
}

/// Returns a memory without that of the packets of flows.
fn less_flows(memory: u32, flows: &[Flow]) -> u32
    ensures { result ≡ fold less_flow memory flows.now }
{
    let mut left = memory;
    for place in 0..flows.len() {
        left = less_flow(left, &flows[place]);
    }
    left
}

/// Returns a number, at most 2^32 - 1.
fn in_32(number: usize) -> u32
    ensures { result ≡ in_32 number }
{
    number.min(u32::MAX as usize) as u32
}

/// Returns true if a flow has a row: a flow of fq_pie that is not as a new one.
fn is_told(has_flows: bool, flow: &Flow) -> bool
    ensures { result ≡ is_told has_flows flow.now }
{
    has_flows && !(is_new(&flow.numbers) && flow.waiting.is_empty())
}

/// The rows of a queue in a text with these columns.
#[derive(Clone, Copy)]
pub(crate) struct QueueRows<'q> {
    /// The columns.
    pub columns: &'q Columns,
    /// The name of the queue.
    pub name: &'q [u8],
    /// The number of its last step.
    pub number: u64,
    /// The moment of the cut, in nanoseconds.
    pub moment: u64,
}

impl QueueRows<'_> {
    /// Adds the rows of a queue to a page.
    #[tactic(auto, unfolding(crate::specs::Cuts::queue_rows))]
    pub(crate) fn write(&self, queue: &Queue, page: &mut Page) -> Result<(), AllocError>
        ensures { OnOk result (page.new ≡ page.old ++ queue_rows self.now.columns.now self.now.name.now self.now.number self.now.moment queue.now) }
    {
        let state = match queue.flows.first() {
            Some(flow) => flow.numbers.state,
            None => LinuxState::new(),
        };
        let memory = less_flows(queue.numbers.memory, &queue.flows);
        let resume = resume_step(&queue.numbers, memory, &state);
        self.write_row(None, self.moment, &resume, page)?;
        self.write_flows(queue.numbers.has_flows, &queue.flows, page)
    }

    /// Adds the rows of flows.
    fn write_flows(
        &self,
        has_flows: bool,
        flows: &[Flow],
        page: &mut Page,
    ) -> Result<(), AllocError>
        ensures { OnOk result (page.new
            ≡ page.old ++ flows_rows self.now.columns.now self.now.name.now self.now.number self.now.moment has_flows 0 flows.now) }
    {
        for place in 0..flows.len() {
            self.write_flow(has_flows, place, &flows[place], page)?;
        }
        Ok(())
    }

    /// Adds the row of the flow at this place, if it has one, and the rows of its packets.
    fn write_flow(
        &self,
        has_flows: bool,
        place: usize,
        flow: &Flow,
        page: &mut Page,
    ) -> Result<(), AllocError>
        ensures { OnOk result (page.new
            ≡ page.old ++ flow_rows self.now.columns.now self.now.name.now self.now.number self.now.moment has_flows place flow.now) }
    {
        let named = if has_flows { Some(in_32(place)) } else { None };
        self.write_told(has_flows, named, flow, page)?;
        let (first, rest) = flow.waiting.as_slices();
        self.write_packets(has_flows, named, first, page)?;
        self.write_packets(has_flows, named, rest, page)
    }

    /// Adds the row of a flow, if it has one.
    fn write_told(
        &self,
        has_flows: bool,
        named: Option<u32>,
        flow: &Flow,
        page: &mut Page,
    ) -> Result<(), AllocError>
        ensures { (place : ℕ) → named ≡ named_flow has_flows place → OnOk result (page.new
            ≡ page.old ++ flow_row self.now.columns.now self.now.name.now self.now.number self.now.moment has_flows place flow.now) }
    {
        if !is_told(has_flows, flow) {
            return Ok(());
        }
        let length = in_32(flow.waiting.len());
        self.write_row(named, self.moment, &flow_step(&flow.numbers, length), page)
    }

    /// Adds the rows of waiting packets.
    fn write_packets(
        &self,
        has_flows: bool,
        named: Option<u32>,
        packets: &[Waiting],
        page: &mut Page,
    ) -> Result<(), AllocError>
        ensures { OnOk result (page.new
            ≡ page.old ++ flat_map (wait_row self.now.columns.now self.now.name.now self.now.number has_flows named) packets.now) }
    {
        for packet in packets {
            self.write_row(named, packet.moment, &wait_step(has_flows, packet), page)?;
        }
        Ok(())
    }

    /// Adds a row of this flow at this moment.
    fn write_row(
        &self,
        flow: Option<u32>,
        moment: u64,
        step: &Step,
        page: &mut Page,
    ) -> Result<(), AllocError>
        ensures { OnOk result (page.new ≡ page.old ++ queue_row self.now.columns.now self.now.name.now self.now.number flow moment step.now) }
    {
        let step = Step {
            flow,
            number: self.number,
            moment,
            ..*step
        };
        write_step(self.columns, self.name, &step, page)
    }
}
