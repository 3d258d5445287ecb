//! The step that the rules give in place of a recorded one: its inputs, and each number that they determine.
//!
//! The columns of a text with the column `rq`, by the type of the row. `=` is compared, `in` is an input, and a number alone is
//! compared with this number. (fq) holds for fq_pie, and pie is compared with 0.
//!
//! | columns | `enq` | `deq` | `calc` | `timer` | `change` | `reset` | `destroy` | `init` | `resume` |
//! |---|---|---|---|---|---|---|---|---|---|
//! | `seq` | = | = | = | = | = | = | = | in | in |
//! | `ns` | 64 `enq` if queued without the estimator, or in | 64 `a_dq_tstamp` without the estimator, or in | in | in | in | in | in | in | in |
//! | `flow` | = (fq), or -1 | in (fq), or -1 | in (fq), or -1 | = | -1 | -1 | -1 | -1 | -1 |
//! | `size`, `pktlen` | in | = | 0 | 0 | `size` = | 0 | 0 | 0 | 0 |
//! | `backlog` | =, 0 at the limit | = | = | 0 | = unless `moved` | 0 | 0 | 0 | 0 |
//! | `qlen0`, `bl0`, `ret`, `nrnd` | = | 0 | 0 | 0 | 0 | 0 | 0 | 0 | 0 |
//! | `early` | = | 255 | 255 | 255 | 255 | 255 | 255 | 255 | 255 |
//! | `qlen1`, `bl1` | = | = | = | 0 | = | = | 0 | = | in |
//! | `limit` | = | 0 | 0 | 0 | = | = | = | = | = |
//! | `proto`, `l3`, `room` | in | 0 | 0 | 0 | 0 | 0 | 0 | 0 | 0 |
//! | `rnd` | in if `nrnd`, or 0 | 0 | 0 | 0 | 0 | 0 | 0 | 0 | 0 |
//! | `enq` | in if queued, or 0 | = | 0 | 0 | 0 | 0 | 0 | 0 | 0 |
//! | `nt` | 0 | = | 0 | 0 | 0 | 0 | 0 | 0 | 0 |
//! | `t0` to `t2` | 0 | in up to `nt`, or 0 | 0 | 0 | 0 | 0 | 0 | 0 | in (fq) |
//! | `hash`, `prio` | in (fq) | 0 | 0 | 0 | 0 | 0 | 0 | 0 | 0 |
//! | `truesize` | in (fq) | 0 | 0 | 0 | in (fq) | = (fq) | = (fq) | in (fq) | in (fq) |
//! | `x0`, `x2` | = (fq) | 0 | 0 | 0 | in (fq) | = (fq) | = (fq) | in (fq) | in (fq) |
//! | `x1` | = (fq) | = (fq) | 0 | 0 | = (fq) | = (fq) | = (fq) | in (fq) | in (fq) |
//! | `a_qdelay` to `a_backlog_old` | = | = (`a_dq_tstamp` in without the estimator) | = | 0 | = of pie | = of pie | = of pie | = of pie | in of pie |
//! | `target` to `dqrate`, `plimit` | 0 | 0 | 0 | 0 | in | = | =, `tupdate` 0 | in | in |
//! | `packets_in` to `maxq` | = | 0 | 0 | 0 | = | = | = | 0 | in |
//! | `rq`, `rqb` | in | in | in | 0 | in, 0 if `moved` is below `size` | in | 0 | in | in |
//! | `drop` | 0 | in (fq) | 0 | 0 | 0 | 0 | 0 | 0 | 0 |
//! | `moved` | 0 | 0 | 0 | 0 | in | 0 | 0 | 0 | 0 |
//! | `mtu` | in | 0 | 0 | 0 | in | in | in | in | in |
//!
//! `rqb` is 0 if `rq` is 0. Rows `flow` and `wait` are inputs. No step reads the processor and the state before a step.
//!
//! A text without the column `rq` is compared in fewer columns (`is_compared` of difference.rt).
ghost use Rattle.std.specs.Prelude.{◌≡◌};
ghost use Rattle.pie_linux_history.specs.Right.{base, bytes_returned, early_result, named_flow_of, of_flows, percent_of, readings_until, right_arrival, right_bytes, right_change, right_departure, right_destroy, right_opening, right_reset, right_round, right_size, right_update, state_of_pie};

use crate::columns::blank;
use crate::numbers::{QueueNumbers, Waiting, counts_memory};
use crate::step::{Kind, Step};
use pie_linux::{LinuxCause, LinuxParams, LinuxState, LinuxStats, MarkLimit, excess};

/// An arrival: its cause and the kernel's numbers before it.
#[derive(Clone, Copy)]
pub(crate) struct Arrived {
    /// The cause.
    pub cause: LinuxCause,
    /// The packets that waited.
    pub length: u32,
    /// The bytes that waited.
    pub bytes: u32,
    /// The bytes by which it was decided.
    pub backlog: u32,
    /// fq_pie's memory.
    pub memory: u32,
}

/// A departure.
#[derive(Clone, Copy)]
pub(crate) struct Departed {
    /// The packet.
    pub waiting: Waiting,
    /// The bytes that wait after it.
    pub backlog: u32,
    /// The readings of the clock.
    pub reads: u32,
    /// True with the rate estimator.
    pub is_timed: bool,
}

/// Returns the return value of `pie_drop_early`, 255 if it is not called.
fn early_result(cause: LinuxCause) -> u32
    ensures { result ≡ early_result cause }
{
    match cause {
        LinuxCause::OverLimit => 255,
        LinuxCause::SumAbove(_) | LinuxCause::WordBelow(_) => 1,
        LinuxCause::BurstTime
        | LinuxCause::LowDelay
        | LinuxCause::ShortQueue
        | LinuxCause::SumBelow
        | LinuxCause::WordNotBelow => 0,
    }
}

/// Returns the step whose other numbers are 0.
#[tactic(auto, unfolding(crate::specs::Right::base))]
fn base(step: &Step) -> Step
    ensures { result ≡ base step.now }
{
    Step {
        number: step.number,
        moment: step.moment,
        ..blank(step.kind, step.has_flows, step.has_returned)
    }
}

/// Returns a number that pie's rows have as 0.
pub(crate) fn of_flows(has_flows: bool, number: u32) -> u32
    ensures { result ≡ of_flows has_flows number }
{
    if has_flows { number } else { 0 }
}

/// Returns a flow, and none of pie.
fn named_flow_of(has_flows: bool, flow: Option<u32>) -> Option<u32>
    ensures { result ≡ named_flow_of has_flows flow }
{
    if has_flows { flow } else { None }
}

/// Returns the state of pie, and zeros of fq_pie.
pub(crate) fn state_of_pie(has_flows: bool, state: &LinuxState, zeros: &LinuxState) -> LinuxState
    ensures { result ≡ state_of_pie has_flows state.now zeros.now }
{
    if has_flows { *zeros } else { *state }
}

/// Returns the bytes of the returned packets, 0 if there are none.
fn bytes_returned(step: &Step) -> u32
    ensures { result ≡ bytes_returned step.now }
{
    if step.returned_packets == 0 {
        0
    } else {
        step.returned_bytes
    }
}

// ---- an arrival

/// Returns the step of an arrival. After it the queue has the numbers `queue`, and the flow `state`.
#[tactic(auto, unfolding(crate::specs::Right::right_arrival))]
pub(crate) fn right_arrival(
    queue: &QueueNumbers,
    state: &LinuxState,
    one: &Arrived,
    step: &Step,
) -> Step
    ensures { result ≡ right_arrival queue.now state.now one.now step.now }
{
    let (has_flows, is_queued) = (queue.has_flows, one.cause.is_queued());
    Step {
        moment: if is_queued && !queue.params.dq_rate_estimator {
            step.enqueued.wrapping_mul(64)
        } else {
            step.moment
        },
        flow: named_flow_of(has_flows, Some(queue.flow_chosen(step.priority, step.hash))),
        backlog: if counts_memory(one.cause) {
            one.backlog
        } else {
            0
        },
        size: step.size,
        packet_length: step.packet_length,
        mtu: step.mtu,
        length_before: one.length,
        length_after: queue.length.wrapping_add(step.returned_packets),
        bytes_before: one.bytes,
        bytes_after: queue.bytes.wrapping_add(step.returned_bytes),
        limit: queue.params.limit,
        returned: if is_queued {
            0
        } else if has_flows {
            2
        } else {
            1
        },
        protocol: step.protocol,
        header: step.header,
        contained: step.contained,
        early: early_result(one.cause),
        draws: u32::from(one.cause.draws()),
        word: if one.cause.draws() { step.word } else { 0 },
        enqueued: if is_queued { step.enqueued } else { 0 },
        hash: of_flows(has_flows, step.hash),
        priority: of_flows(has_flows, step.priority),
        truesize: of_flows(has_flows, step.truesize),
        x0: of_flows(has_flows, one.memory),
        x1: of_flows(has_flows, queue.memory),
        x2: of_flows(has_flows, queue.over_memory.unwrap_or(step.x2)),
        after: *state,
        stats: queue.stats,
        returned_packets: step.returned_packets,
        returned_bytes: bytes_returned(step),
        ..base(step)
    }
}

// ---- a departure

/// Returns the readings of the clock up to this number, and 0 in place of the others.
fn readings_until(readings: [u64; 3], reads: u32) -> [u64; 3]
    ensures { result ≡ readings_until readings reads }
{
    [
        if 0 < reads { readings[0] } else { 0 },
        if 1 < reads { readings[1] } else { 0 },
        if 2 < reads { readings[2] } else { 0 },
    ]
}

/// Returns the step of a departure. After it the queue has the numbers `queue`, and the flow `state`.
#[tactic(auto, unfolding(crate::specs::Right::right_departure))]
pub(crate) fn right_departure(
    queue: &QueueNumbers,
    state: &LinuxState,
    one: &Departed,
    step: &Step,
) -> Step
    ensures { result ≡ right_departure queue.now state.now one.now step.now }
{
    Step {
        moment: if one.is_timed {
            step.moment
        } else {
            state.dq_tstamp.wrapping_mul(64)
        },
        flow: named_flow_of(queue.has_flows, step.flow),
        backlog: one.backlog,
        size: one.waiting.size,
        packet_length: one.waiting.length,
        length_after: queue.length.wrapping_add(step.returned_packets),
        bytes_after: queue.bytes.wrapping_add(step.returned_bytes),
        enqueued: one.waiting.enqueued,
        readings: readings_until(step.readings, one.reads),
        reads: one.reads,
        x1: of_flows(queue.has_flows, queue.memory),
        after: *state,
        returned_packets: step.returned_packets,
        returned_bytes: bytes_returned(step),
        is_drop: queue.has_flows && step.is_drop,
        ..base(step)
    }
}

// ---- updates and rounds

/// Returns the step of an update. After it the flow has the state `state`.
#[tactic(auto, unfolding(crate::specs::Right::right_update))]
pub(crate) fn right_update(
    queue: &QueueNumbers,
    state: &LinuxState,
    backlog: u32,
    step: &Step,
) -> Step
    ensures { result ≡ right_update queue.now state.now backlog step.now }
{
    Step {
        flow: named_flow_of(queue.has_flows, step.flow),
        backlog,
        length_after: queue.length.wrapping_add(step.returned_packets),
        bytes_after: queue.bytes.wrapping_add(step.returned_bytes),
        after: *state,
        returned_packets: step.returned_packets,
        returned_bytes: bytes_returned(step),
        ..base(step)
    }
}

/// Returns the step of a round of the timer that begins with the flow `cursor`.
#[tactic(auto, unfolding(crate::specs::Right::right_round))]
pub(crate) fn right_round(cursor: u32, step: &Step) -> Step
    ensures { result ≡ right_round cursor step.now }
{
    Step {
        flow: Some(cursor),
        ..base(step)
    }
}

// ---- changes, resets and the first row

/// Returns the number of packets that a change dropped, from the queue's numbers before it.
fn right_size(was: &QueueNumbers, step: &Step) -> u32
    ensures { result ≡ right_size was.now step.now }
{
    if !was.has_flows {
        let returned = step.returned_packets.wrapping_add(step.moved);
        excess(was.length.wrapping_add(returned), step.params.limit)
    } else if step.size == 0 {
        0
    } else {
        was.drops.wrapping_add(step.moved)
    }
}

/// Returns the bytes of the packets that a change dropped. Those of returned packets are not known.
fn right_bytes(queue: &QueueNumbers, was: &QueueNumbers, step: &Step) -> u32
    ensures { result ≡ right_bytes queue.now was.now step.now }
{
    if step.moved != 0 {
        step.backlog
    } else if !queue.has_flows {
        was.bytes.wrapping_sub(queue.bytes)
    } else if step.size == 0 {
        0
    } else {
        was.drop_bytes
    }
}

/// Returns the step of a change. `was` are the queue's numbers before it, and `queue` those after it.
#[tactic(auto, unfolding(crate::specs::Right::right_change))]
pub(crate) fn right_change(
    queue: &QueueNumbers,
    was: &QueueNumbers,
    state: &LinuxState,
    step: &Step,
) -> Step
    ensures { result ≡ right_change queue.now was.now state.now step.now }
{
    let (base, has_flows, size) = (base(step), queue.has_flows, right_size(was, step));
    Step {
        backlog: right_bytes(queue, was, step),
        size,
        mtu: step.mtu,
        length_after: queue.length.wrapping_add(step.returned_packets),
        bytes_after: queue.bytes.wrapping_add(step.returned_bytes),
        limit: step.params.limit,
        truesize: of_flows(has_flows, step.truesize),
        x0: of_flows(has_flows, step.x0),
        x1: of_flows(has_flows, queue.flows),
        x2: of_flows(has_flows, step.x2),
        after: state_of_pie(has_flows, state, &base.after),
        params: step.params,
        stats: queue.stats,
        returned_packets: if step.moved < size {
            0
        } else {
            step.returned_packets
        },
        returned_bytes: bytes_returned(step),
        moved: step.moved,
        ..base
    }
}

/// Returns the limit for marks of fq_pie in per cent.
pub(crate) fn percent_of(marks: MarkLimit) -> u32
    ensures { result ≡ percent_of marks }
{
    match marks {
        MarkLimit::Percent(percent) => percent,
        MarkLimit::Tenth => 0,
    }
}

/// Returns the step of a reset. `queue` are the queue's numbers before it.
#[tactic(auto, unfolding(crate::specs::Right::right_reset))]
pub(crate) fn right_reset(queue: &QueueNumbers, state: &LinuxState, step: &Step) -> Step
    ensures { result ≡ right_reset queue.now state.now step.now }
{
    let (base, has_flows) = (base(step), queue.has_flows);
    Step {
        mtu: step.mtu,
        length_after: of_flows(has_flows, queue.length.wrapping_add(step.returned_packets)),
        bytes_after: queue.bytes.wrapping_add(step.returned_bytes),
        limit: queue.params.limit,
        truesize: of_flows(has_flows, queue.memory_limit),
        x0: of_flows(has_flows, percent_of(queue.params.marks)),
        x1: of_flows(has_flows, queue.flows),
        x2: of_flows(has_flows, queue.quantum),
        after: state_of_pie(has_flows, state, &base.after),
        params: queue.params,
        stats: queue.stats,
        returned_packets: step.returned_packets,
        returned_bytes: bytes_returned(step),
        ..base
    }
}

/// Returns the last step of a queue.
#[tactic(auto, unfolding(crate::specs::Right::right_destroy))]
pub(crate) fn right_destroy(queue: &QueueNumbers, state: &LinuxState, step: &Step) -> Step
    ensures { result ≡ right_destroy queue.now state.now step.now }
{
    Step {
        length_after: 0,
        bytes_after: 0,
        params: LinuxParams {
            tupdate: 0,
            ..queue.params
        },
        returned_packets: 0,
        returned_bytes: 0,
        ..right_reset(queue, state, step)
    }
}

/// Returns the first step of a queue: a new one has the counters, the state and the packets of a new queue.
#[tactic(auto, unfolding(crate::specs::Right::right_opening))]
pub(crate) fn right_opening(step: &Step) -> Step
    ensures { result ≡ right_opening step.now }
{
    let base = base(step);
    let (is_new, has_flows) = (step.kind == Kind::Init, step.has_flows);
    let state = if is_new {
        LinuxState::new()
    } else {
        step.after
    };
    Step {
        mtu: step.mtu,
        limit: step.params.limit,
        length_after: if is_new {
            step.returned_packets
        } else {
            step.length_after
        },
        bytes_after: if is_new {
            step.returned_bytes
        } else {
            step.bytes_after
        },
        readings: if has_flows && !is_new {
            step.readings
        } else {
            base.readings
        },
        truesize: of_flows(has_flows, step.truesize),
        x0: of_flows(has_flows, step.x0),
        x1: of_flows(has_flows, step.x1),
        x2: of_flows(has_flows, step.x2),
        after: state_of_pie(has_flows, &state, &base.after),
        params: step.params,
        stats: if is_new {
            LinuxStats::new()
        } else {
            step.stats
        },
        returned_packets: step.returned_packets,
        returned_bytes: bytes_returned(step),
        ..base
    }
}
