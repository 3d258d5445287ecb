//! Comparisons of a recorded step with the step of the rules.
ghost use Rattle.std.specs.Prelude.{◌≡◌};
ghost use Rattle.pie_linux_history.specs.Differences.{difference_of, first_difference, flow_number, is_compared, is_state, numbers_of, step_difference};

use crate::columns::{COMPARED, FLOW, name_of};
use crate::step::{Kind, Step};

/// A recorded number that differs from the number of the rules.
#[derive(Clone, Copy, PartialEq, Eq)]
pub struct Difference {
    /// The place of its column in the table of columns.
    pub(crate) column: usize,
    /// The recorded number.
    pub recorded: u64,
    /// The number by the rules.
    pub right: u64,
}

impl Difference {
    /// Returns the name of the column in the first row.
    pub(crate) fn name(&self) -> &'static str {
        name_of(self.column)
    }
}

/// Returns the numbers of a step, in the order of the table of columns.
#[tactic(auto, unfolding(crate::specs::Differences::numbers_of))]
pub(crate) fn numbers_of(step: &Step) -> [u64; COMPARED]
    ensures { result ≡ numbers_of step.now }
{
    [
        step.number,
        u64::from(step.length_before),
        u64::from(step.bytes_before),
        u64::from(step.limit),
        u64::from(step.early),
        u64::from(step.draws),
        u64::from(step.returned),
        u64::from(step.size),
        u64::from(step.packet_length),
        u64::from(step.stats.packets_in),
        u64::from(step.stats.dropped),
        u64::from(step.stats.overlimit),
        u64::from(step.stats.ecn_mark),
        u64::from(step.stats.maxq),
        u64::from(step.backlog),
        u64::from(step.length_after),
        u64::from(step.bytes_after),
        step.after.qdelay,
        step.after.qdelay_old,
        step.after.burst_time,
        step.after.dq_tstamp,
        step.after.prob,
        step.after.accu_prob,
        step.after.dq_count,
        step.enqueued,
        step.moment,
        step.word,
        step.readings[0],
        step.readings[1],
        step.readings[2],
        step.params.target,
        u64::from(step.after.avg_dq_rate),
        u64::from(step.after.backlog_old),
        u64::from(step.x0),
        u64::from(step.x1),
        u64::from(step.x2),
        u64::from(step.mtu),
        u64::from(step.contained),
        u64::from(step.hash),
        u64::from(step.truesize),
        u64::from(step.params.tupdate),
        u64::from(step.params.limit),
        u64::from(step.params.alpha),
        u64::from(step.params.beta),
        u64::from(step.params.ecn),
        u64::from(step.params.bytemode),
        u64::from(step.params.dq_rate_estimator),
        u64::from(step.priority),
        u64::from(step.reads),
        u64::from(step.returned_packets),
        u64::from(step.returned_bytes),
        u64::from(step.is_drop),
        u64::from(step.moved),
        u64::from(step.protocol),
        u64::from(step.header),
    ]
}

/// Returns the number of a step's flow, 2^32 - 1 for -1.
pub(crate) fn flow_number(flow: Option<u32>) -> u64
    ensures { result ≡ flow_number flow }
{
    match flow {
        Some(flow) => u64::from(flow),
        None => u64::from(u32::MAX),
    }
}

/// Returns true if this column has a number of the state.
fn is_state(column: usize) -> bool
    ensures { result ≡ is_state column }
{
    matches!(column, 17..=23 | 31 | 32)
}

/// Returns true if a column of a step of the rules is compared: each one in a text with the column `rq`, fewer in other texts.
/// At its limit a queue records no backlog, and fq_pie no state.
fn is_compared(right: &Step, column: usize) -> bool
    ensures { result ≡ is_compared right.now column }
{
    let (is_pie, is_full) = (!right.has_flows, right.early == 255);
    right.has_returned
        || match right.kind {
            Kind::Enqueue => match column {
                1..=6 | 9..=13 => true,
                14 => !is_full,
                33..=35 => !is_pie,
                _ => is_state(column) && (is_pie || !is_full),
            },
            Kind::Dequeue => matches!(column, 7 | 8 | 14..=24 | 31 | 32),
            Kind::Update => column == 14 || is_state(column),
            Kind::Timer => column == FLOW,
            Kind::Change => is_pie && (matches!(column, 3 | 7 | 9..=13) || is_state(column)),
            Kind::Reset => is_pie && (matches!(column, 9..=13) || is_state(column)),
            _ => false,
        }
}

/// Compares two numbers of a column of this step of the rules.
fn difference_of(step: &Step, column: usize, recorded: u64, right: u64) -> Option<Difference>
    ensures { result ≡ difference_of step.now column recorded right }
{
    if recorded == right || !is_compared(step, column) {
        return None;
    }
    Some(Difference {
        column,
        recorded,
        right,
    })
}

/// Returns the first of two rows of numbers that differ in a column that is compared.
fn first_difference(
    step: &Step,
    recorded: &[u64; COMPARED],
    right: &[u64; COMPARED],
) -> Option<Difference>
    ensures { result ≡ first_difference step.now 0 recorded.now right.now }
{
    for column in 0..COMPARED {
        let found = difference_of(step, column, recorded[column], right[column]);
        if found.is_some() {
            return found;
        }
    }
    None
}

/// Compares a recorded step with the step of the rules, first its flow, then each column in the order of the table. The text
/// of a queue's name, the kind and the type are not compared.
#[inline(never)]
#[tactic(auto, unfolding(crate::specs::Differences::step_difference))]
pub(crate) fn step_difference(recorded: &Step, right: &Step) -> Option<Difference>
    ensures { result ≡ step_difference recorded.now right.now }
{
    let flows = (flow_number(recorded.flow), flow_number(right.flow));
    difference_of(right, FLOW, flows.0, flows.1).or(first_difference(
        right,
        &numbers_of(recorded),
        &numbers_of(right),
    ))
}
