//! The event of a report for a decided step. specs/Event.antt defines it.
ghost use Rattle.std.specs.Prelude.{◌≡◌, ◌+◌};
ghost use Rattle.pie_linux_history.specs.Event.{arrival_cause, arrival_of, cause_by, cause_in, command_of, ecn_of, explained_as, explained_of, fate_by, mark_threshold, nanos, packet_of, params_of, parts, registers_of, tag_of, verdict_of, wait_of, waiting_after, waiting_before};

use crate::decided::{DecidedStep, StepNumbers, Updates};
use crate::explained::{DecidedPacket, Fate as PacketFate};
use crate::step::{Kind, Step};
use pie_event::{Answer, Cause, Command, Event, Fate, Registers, Setter};
use pie_explain::{Explained, Explanation};
use pie_linux::{LinuxCause, LinuxParams, MarkLimit, Picked, own_prob};
use pie_params::{Params, RawParams};
use pie_queue::{Ecn, Packet};

// ---- units

/// Returns a time of the kernel in nanoseconds, at most 2^64 - 1.
fn nanos(ticks: u64) -> u64
    ensures { result ≡ nanos ticks }
{
    ticks.saturating_mul(64)
}

/// Returns a probability of the kernel in units of 10^-12, rounded down. It may exceed 1.
fn parts(prob: u64) -> u64
    ensures { result ≡ parts prob }
{
    (u128::from(prob) * 1_000_000_000_000 / (1 << 56)) as u64
}

/// Returns the parameters of a report: the kernel's target, from 2 ns to 10 s, and the defaults otherwise, which no report
/// of a step reads.
fn params_of(params: &LinuxParams) -> Params
    ensures { result ≡ params_of params.now }
{
    Params::in_range(RawParams {
        target: nanos(params.target).max(2).min(10_000_000_000),
        ..Params::default_profile().raw()
    })
}

// ---- an arrival

/// Returns the ECN field in the first two bytes of a packet's network header, Not-ECT if the packet has none.
fn ecn_of(step: &Step) -> Ecn
    ensures { result ≡ ecn_of step.now }
{
    let bits = match (step.contained, step.protocol) {
        (true, 0x0800) => step.header % 4,
        (true, 0x86dd) => step.header / 16 % 4,
        _ => 0,
    };
    match bits {
        1 => Ecn::Ect1,
        2 => Ecn::Ect0,
        3 => Ecn::Ce,
        _ => Ecn::NotEct,
    }
}

/// Returns the greatest probability at which packets are marked, in units of 10^-12.
fn mark_threshold(marks: MarkLimit) -> u64
    ensures { result ≡ mark_threshold marks }
{
    match marks {
        MarkLimit::Tenth => 100_000_000_000,
        MarkLimit::Percent(percent) => u64::from(percent).saturating_mul(10_000_000_000),
    }
}

/// Returns the fate of a picked packet. If `ecn` is off, the threshold is 0.
fn fate_of(picked: Picked, marks: MarkLimit) -> Fate
    ensures { result ≡ fate_by picked marks }
{
    let threshold = mark_threshold(marks);
    match picked {
        Picked::EcnOff => Fate::NotBelow { threshold: 0 },
        Picked::HighProbability => Fate::NotBelow { threshold },
        Picked::NotCapable => Fate::NotCapable,
        Picked::Marked => Fate::Marked { threshold },
    }
}

/// Returns the cause of an arrival with the numbers that the kernel compared.
fn cause_of(cause: LinuxCause, packet: &DecidedPacket, params: &LinuxParams, step: &Step) -> Cause
    ensures { result ≡ cause_by cause packet.now params.now step.now }
{
    let state = &packet.state;
    let (accu, word) = (parts(state.accu_prob), step.word);
    let prob = parts(own_prob(params, state.prob, step.mtu, step.size));
    match cause {
        LinuxCause::OverLimit => Cause::NoRoomInPackets {
            packets: u64::from(packet.length),
        },
        LinuxCause::BurstTime => Cause::BurstAllowed {
            burst: nanos(state.burst_time),
        },
        LinuxCause::LowDelay => Cause::LowDelay {
            old_delay: nanos(state.qdelay),
            target: nanos(params.target),
            prob: parts(state.prob),
        },
        LinuxCause::ShortQueue => Cause::ShortQueue {
            bytes: u64::from(step.backlog),
            mean_pkt: u64::from(step.mtu),
        },
        LinuxCause::SumBelow => Cause::LittleAccumulated { accu, prob },
        LinuxCause::SumAbove(picked) => Cause::PickedBySum {
            accu,
            prob,
            fate: fate_of(picked, params.marks),
        },
        LinuxCause::WordBelow(picked) => Cause::PickedByWord {
            accu,
            prob,
            word,
            fate: fate_of(picked, params.marks),
        },
        LinuxCause::WordNotBelow => Cause::WordNotBelow { accu, prob, word },
    }
}

/// Returns the verdict on an arrival with this cause.
fn verdict_of(cause: LinuxCause) -> Answer
    ensures { result ≡ verdict_of cause }
{
    match cause {
        LinuxCause::OverLimit => Answer::DroppedPackets,
        LinuxCause::SumAbove(Picked::Marked) | LinuxCause::WordBelow(Picked::Marked) => {
            Answer::Marked
        }
        LinuxCause::SumAbove(_) | LinuxCause::WordBelow(_) => Answer::DroppedEarly,
        LinuxCause::BurstTime
        | LinuxCause::LowDelay
        | LinuxCause::ShortQueue
        | LinuxCause::SumBelow
        | LinuxCause::WordNotBelow => Answer::Enqueued,
    }
}

// ---- a departure

/// Returns the wait of a departing packet, in nanoseconds: from the kernel's times of its arrival and its departure. With the
/// rate estimator the kernel keeps no time of arrival, and the wait is the time between the rows, or since the first row of
/// a queue that ran before.
fn wait_of(one: &DecidedStep) -> u64
    ensures { result ≡ wait_of one.now }
{
    if one.before.params.dq_rate_estimator {
        let since = one.before.since.max(one.updates.opening);
        return one.step.moment.saturating_sub(since);
    }
    nanos(one.step.after.dq_tstamp.saturating_sub(one.step.enqueued))
}

// ---- a step

/// Returns the cause of the decision, if the step is an arrival.
fn cause_in(arrival: Option<DecidedPacket>) -> Option<LinuxCause>
    ensures { result ≡ cause_in arrival }
{
    match arrival {
        Some(
            DecidedPacket {
                fate: PacketFate::Arrival(cause),
                ..
            },
        ) => Some(cause),
        _ => None,
    }
}

/// Returns the tag of a packet of a step: its flow in the upper 32 bits.
pub(crate) fn tag_of(one: &DecidedStep) -> u64
    ensures { result ≡ tag_of one.now }
{
    u64::from(one.before.place) << 32
}

/// Returns the packet of a step.
fn packet_of(one: &DecidedStep, ecn: Ecn) -> Packet
    ensures { result ≡ packet_of one.now ecn }
{
    Packet {
        tag: tag_of(one),
        size: one.step.packet_length,
        ecn,
    }
}

/// Returns the arrival of a step with its verdict, if its cause is known.
fn arrival_of(one: &DecidedStep) -> Option<(Command, Answer)>
    ensures { result ≡ arrival_of one.now }
{
    let cause = cause_in(one.arrival)?;
    let (moment, word) = (one.step.moment, one.step.word);
    let packet = packet_of(one, ecn_of(&one.step));
    Some((
        Command::Arrive {
            moment,
            packet,
            word,
        },
        verdict_of(cause),
    ))
}

/// Returns the command and the answer of a step, if reports have its kind: an arrival, a departure, an update, a change of the
/// parameters, a reset or the end of the queue. A departure that a change of the limit dropped is none.
fn command_of(one: &DecidedStep) -> Option<(Command, Answer)>
    ensures { result ≡ command_of one.now }
{
    let moment = one.step.moment;
    match one.step.kind {
        Kind::Enqueue => arrival_of(one),
        Kind::Dequeue => {
            if one.step.is_drop {
                return None;
            }
            Some((
                Command::Depart { moment },
                Answer::Left(packet_of(one, Ecn::NotEct)),
            ))
        }
        Kind::Empty => Some((Command::Depart { moment }, Answer::Empty)),
        Kind::Update => Some((
            Command::Update { moment },
            Answer::Updated {
                delay: nanos(one.after.state.qdelay),
                prob: parts(one.after.state.prob),
                burst: nanos(one.after.state.burst_time),
            },
        )),
        Kind::Change => {
            let params = params_of(&one.after.params);
            Some((Command::SetParams { moment, params }, Answer::Done))
        }
        Kind::Reset | Kind::Destroy => Some((Command::Reset { moment }, Answer::Done)),
        Kind::Init | Kind::Resume | Kind::Flow | Kind::Wait | Kind::Timer => None,
    }
}

/// Returns the packets and the bytes that wait before a step. At an arrival they are the kernel's, with the
/// packets that the device returned.
fn waiting_before(one: &DecidedStep) -> (u64, u64)
    ensures { result ≡ waiting_before one.now }
{
    match one.arrival {
        Some(packet) => (u64::from(packet.length), u64::from(packet.backlog)),
        None => (u64::from(one.before.packets), u64::from(one.before.bytes)),
    }
}

/// Returns a sum of numbers of 32 bits.
fn sum(a: u32, b: u32) -> u64
    ensures { result ≡ a + b }
{
    u64::from(a) + u64::from(b)
}

/// Returns the packets and the bytes that wait after a step.
fn waiting_after(one: &DecidedStep) -> (u64, u64)
    ensures { result ≡ waiting_after one.now }
{
    match one.arrival {
        Some(packet) => match packet.fate {
            PacketFate::Arrival(cause) if cause.is_queued() => {
                (sum(packet.length, 1), sum(packet.backlog, packet.bytes))
            }
            _ => (u64::from(packet.length), u64::from(packet.backlog)),
        },
        None => (u64::from(one.after.packets), u64::from(one.after.bytes)),
    }
}

/// Returns the numbers before a step, or after it, from the waiting packets and bytes and the moment of the last update.
fn registers_of(
    numbers: &StepNumbers,
    waiting: (u64, u64),
    count: u64,
    moment: u64,
    last: u64,
) -> Registers
    ensures { result ≡ registers_of numbers.now waiting count moment last }
{
    let state = &numbers.state;
    Registers {
        count,
        moment,
        packets: waiting.0,
        bytes: waiting.1,
        prob: parts(state.prob),
        old: nanos(state.qdelay_old),
        accu: parts(state.accu_prob),
        burst: nanos(state.burst_time),
        last,
        average: 0,
        measuring: false,
        params: params_of(&numbers.params),
        active: true,
    }
}

/// Returns the cause of an arrival, with the numbers that the kernel compared.
fn arrival_cause(one: &DecidedStep) -> Option<Cause>
    ensures { result ≡ arrival_cause one.now }
{
    match one.arrival {
        Some(packet) => match packet.fate {
            PacketFate::Arrival(cause) => {
                Some(cause_of(cause, &packet, &one.before.params, &one.step))
            }
            _ => None,
        },
        None => None,
    }
}

/// Returns the explanation of an event.
fn explained_as(one: &DecidedStep, event: Event) -> Explained
    ensures { result ≡ explained_as one.now event }
{
    let (number, moment, updates) = (one.event, one.moment, one.updates);
    Explained {
        explanation: Explanation {
            number,
            event,
            moment,
            before: registers_of(
                &one.before,
                waiting_before(one),
                number.saturating_sub(1),
                moment,
                updates.moment,
            ),
            delay: nanos(one.before.state.qdelay),
            cause: arrival_cause(one),
            waited: match one.step.kind {
                Kind::Dequeue => wait_of(one),
                _ => 0,
            },
            set_by: if updates.count == 0 {
                Setter::Unknown
            } else {
                Setter::Event(updates.event)
            },
            updates: updates.count,
            clock: None,
        },
        after: registers_of(
            &one.after,
            waiting_after(one),
            number,
            moment,
            match one.step.kind {
                Kind::Update => moment,
                _ => updates.moment,
            },
        ),
        delay: nanos(one.after.state.qdelay),
    }
}

/// Returns the explanation of a step, if reports have its kind.
pub(crate) fn explained_of(one: &DecidedStep) -> Option<Explained>
    ensures { result ≡ explained_of one.now }
{
    let (command, answer) = command_of(one)?;
    let caller = 0;
    Some(explained_as(
        one,
        Event {
            caller,
            command,
            answer,
        },
    ))
}
