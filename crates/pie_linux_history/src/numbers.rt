//! The numbers of a queue that its decisions depend on, and the decision of each step over them.
//!
//! specs/Decisions.antt defines each decision by the rules of pie_linux. The recorded numbers after a step are compared
//! only; no decision reads them, with the exception of the clock of a departure (`a_dq_tstamp`). In a text without the column
//! `rq` some inputs are not recorded. A decision that needs one takes it from the recorded results, and names it.
ghost use Rattle.std.specs.Prelude.{◌≡◌, ◌&&◌};
ghost use Rattle.pie_linux_history.specs.{Decisions.admitted, Decisions.arrival_at, Decisions.arrived, Decisions.arrived_by, Decisions.arrived_flow, Decisions.bytes_before, Decisions.changed, Decisions.counts_memory, Decisions.counts_returned, Decisions.departed_flow, Decisions.departed_queue, Decisions.departure_of, Decisions.flow_arrived_by, Decisions.flow_chosen, Decisions.hides_protocol, Decisions.lack_of, Decisions.lacks_bytes, Decisions.lacks_limit, Decisions.lacks_switch, Decisions.length_before, Decisions.markable, Decisions.memory_exceeded, Decisions.needs_protocol, Decisions.own_dropped, Decisions.params_at, Decisions.removed, Decisions.removed_flow, Decisions.reset_flow, Decisions.round_begun, Decisions.updated_flow, Decisions.waiting_added, Decisions.waiting_of, Right.arrival_difference, Right.departure_difference, Right.round_difference, Right.update_difference};

use crate::difference::{Difference, step_difference};
use crate::explained::Input;
use crate::right::{Arrived, Departed, right_arrival, right_departure, right_round, right_update};
use crate::step::Step;
use pie_linux::{
    LinuxArrival, LinuxCause, LinuxDeparture, LinuxParams, LinuxState, LinuxStats, Picked,
    flow_backlog, flow_of, is_markable, is_over_memory, is_tag, named_flow, next_cursor,
    own_excess, ticks,
};

/// A waiting packet.
#[derive(Clone, Copy)]
pub(crate) struct Waiting {
    /// Its length (`qdisc_pkt_len`).
    pub length: u32,
    /// Its length (`skb->len`).
    pub size: u32,
    /// Its memory in bytes.
    pub truesize: u32,
    /// The moment at which it was queued, in ticks.
    pub enqueued: u64,
    /// The moment of its row, in nanoseconds. It decides nothing.
    pub moment: u64,
}

/// Returns the packet of a step.
pub(crate) fn waiting_of(step: &Step) -> Waiting
    ensures { result ≡ waiting_of step.now }
{
    Waiting {
        length: step.packet_length,
        size: step.size,
        truesize: step.truesize,
        enqueued: step.enqueued,
        moment: step.moment,
    }
}

/// The numbers of a flow of fq_pie, or of pie's one queue.
#[derive(Clone, Copy)]
pub(crate) struct FlowNumbers {
    /// The state of the controller.
    pub state: LinuxState,
    /// The bytes that wait in the flow. pie uses those of the queue instead.
    pub backlog: u32,
    /// False after a reset, until a packet is queued.
    pub listed: bool,
}

/// The numbers of a queue, without its flows.
#[derive(Clone, Copy)]
pub(crate) struct QueueNumbers {
    /// True for fq_pie.
    pub has_flows: bool,
    /// The queue's handle, 0 if it has none.
    pub handle: u32,
    /// The number of flows, 1 of pie.
    pub flows: u32,
    /// fq_pie's quantum. It decides nothing.
    pub quantum: u32,
    /// The parameters.
    pub params: LinuxParams,
    /// The counters.
    pub stats: LinuxStats,
    /// The packets that wait, without those that the device returned.
    pub length: u32,
    /// Their bytes.
    pub bytes: u32,
    /// The memory of the waiting packets, in bytes.
    pub memory: u32,
    /// The limit of fq_pie's memory.
    pub memory_limit: u32,
    /// The number of arrivals at which fq_pie's memory exceeded its limit. `None` for a running queue, until the first arrival.
    pub over_memory: Option<u32>,
    /// The first flow of the next round. `None` for a running queue, until the first round.
    pub cursor: Option<u32>,
    /// The departures of fq_pie that a change of the limit dropped, until its row.
    pub drops: u32,
    /// Their bytes.
    pub drop_bytes: u32,
}

/// Returns true unless the limit in packets dropped the packet, which comes before the limit of memory.
pub(crate) fn counts_memory(cause: LinuxCause) -> bool
    ensures { result ≡ counts_memory cause }
{
    !matches!(cause, LinuxCause::OverLimit)
}

/// Returns true if a VLAN tag hides the protocol that says if the packet can be marked.
pub(crate) fn hides_protocol(step: &Step) -> bool
    ensures { result ≡ hides_protocol step.now }
{
    is_tag(step.protocol) && step.contained && !(step.header % 4 == 0 && step.header / 16 % 4 == 0)
}

/// Returns true if the packet of an arrival can be marked. If its protocol is hidden, the return value says so.
fn markable(step: &Step) -> bool
    ensures { result ≡ markable step.now }
{
    if hides_protocol(step) {
        step.returned == 0
    } else {
        is_markable(step.protocol, step.header, step.contained)
    }
}

/// Returns true if a packet with this cause was picked, and its protocol decides if it is marked.
pub(crate) fn needs_protocol(cause: LinuxCause) -> bool
    ensures { result ≡ needs_protocol cause }
{
    matches!(
        cause,
        LinuxCause::SumAbove(Picked::NotCapable | Picked::Marked)
            | LinuxCause::WordBelow(Picked::NotCapable | Picked::Marked)
    )
}

/// Returns the first input that a step lacks.
pub(crate) fn lack_of(change: bool, returned: bool, protocol: bool) -> Option<Input>
    ensures { result ≡ lack_of change returned protocol }
{
    match (change, returned, protocol) {
        (true, _, _) => Some(Input::Change),
        (false, true, _) => Some(Input::Returned),
        (false, false, true) => Some(Input::Protocol),
        (false, false, false) => None,
    }
}

/// Returns the departure of a step with this packet. Without the rate estimator its clock is recorded in the state.
fn departure_of(
    step: &Step,
    params: &LinuxParams,
    waiting: &Waiting,
    backlog: u32,
) -> LinuxDeparture
    ensures { result ≡ departure_of step.now params.now waiting.now backlog }
{
    LinuxDeparture {
        backlog,
        size: waiting.size,
        enqueued: waiting.enqueued,
        first: if params.dq_rate_estimator {
            ticks(step.readings[0])
        } else {
            step.after.dq_tstamp
        },
        second: ticks(step.readings[1]),
        third: ticks(step.readings[2]),
    }
}

impl QueueNumbers {
    /// Returns true if an arrival's text does not say which packets the device returned, and the kernel counts more packets and
    /// more bytes than the queue has.
    pub(crate) fn counts_returned(&self, step: &Step) -> bool
        ensures { result ≡ counts_returned self.now step.now }
    {
        !step.has_returned && (step.length_before > self.length && step.bytes_before > self.bytes)
    }

    /// Returns the kernel's number of packets before an arrival.
    fn length_before(&self, step: &Step) -> u32
        ensures { result ≡ length_before self.now step.now }
    {
        if self.counts_returned(step) {
            step.length_before
        } else {
            self.length.wrapping_add(step.returned_packets)
        }
    }

    /// Returns the kernel's number of bytes before an arrival.
    fn bytes_before(&self, step: &Step) -> u32
        ensures { result ≡ bytes_before self.now step.now }
    {
        if self.counts_returned(step) {
            step.bytes_before
        } else {
            self.bytes.wrapping_add(step.returned_bytes)
        }
    }

    /// Returns true if the text of an update of pie does not say which packets the device returned, and the kernel counts more
    /// bytes than the queue has.
    pub(crate) fn lacks_bytes(&self, step: &Step) -> bool
        ensures { result ≡ lacks_bytes self.now step.now }
    {
        !self.has_flows && (!step.has_returned && step.backlog > self.bytes)
    }

    /// Takes the limit of an arrival at fq_pie that no row of the text set: that of a refused change. Returns true if there is one.
    pub(crate) fn admit(&mut self, step: &Step) -> bool
        ensures queue { self.new ≡ admitted self.old step.now }
        ensures lacks { result ≡ lacks_limit self.old step.now }
    {
        let lacks = self.has_flows && (!step.has_returned && step.limit != self.params.limit);
        if lacks {
            self.params.limit = step.limit;
        }
        lacks
    }

    /// Returns true if a departure from fq_pie is one of a change of the rate estimator whose row comes later.
    pub(crate) fn lacks_switch(&self, step: &Step) -> bool
        ensures { result ≡ lacks_switch self.now step.now }
    {
        self.has_flows
            && (!step.has_returned
                && if step.readings[0] == 0 {
                    self.params.dq_rate_estimator
                } else {
                    !self.params.dq_rate_estimator
                })
    }

    /// Returns the parameters of a departure.
    fn params_at(&self, step: &Step) -> LinuxParams
        ensures { result ≡ params_at self.now step.now }
    {
        if self.lacks_switch(step) {
            LinuxParams {
                dq_rate_estimator: step.readings[0] != 0,
                ..self.params
            }
        } else {
            self.params
        }
    }

    /// Returns the flow of fq_pie that a packet's priority names, or else the flow of its hash.
    pub(crate) fn flow_chosen(&self, priority: u32, hash: u32) -> u32
        ensures { result ≡ flow_chosen self.now priority hash }
    {
        match named_flow(priority, self.handle, self.flows) {
            Some(flow) => flow,
            None => flow_of(hash, self.flows),
        }
    }

    /// Adds a waiting packet.
    pub(crate) fn add(&mut self, waiting: &Waiting)
        ensures { self.new ≡ waiting_added self.old waiting.now }
    {
        self.length = self.length.wrapping_add(1);
        self.bytes = self.bytes.wrapping_add(waiting.length);
        self.memory = self.memory.wrapping_add(waiting.truesize);
    }

    /// Removes a waiting packet.
    pub(crate) fn remove(&mut self, flow: &mut FlowNumbers, waiting: &Waiting)
        ensures queue { self.new ≡ removed self.old waiting.now }
        ensures flow { flow.new ≡ removed_flow flow.old waiting.now }
    {
        flow.backlog = flow.backlog.wrapping_sub(waiting.length);
        self.length = self.length.wrapping_sub(1);
        self.bytes = self.bytes.wrapping_sub(waiting.length);
        self.memory = self.memory.wrapping_sub(waiting.truesize);
    }

    /// Counts an arrival at which fq_pie's memory exceeds its limit. If their number is unknown, it becomes the recorded
    /// one.
    fn count_memory(&mut self, step: &Step, cause: LinuxCause)
        ensures { self.new ≡ memory_exceeded self.old step.now cause }
    {
        if self.has_flows {
            let is_over = counts_memory(cause)
                && is_over_memory(self.memory, self.memory_limit, step.truesize);
            self.over_memory = match (self.over_memory, is_over) {
                (None, _) => Some(step.x2),
                (Some(count), true) => Some(count.wrapping_add(1)),
                (Some(count), false) => Some(count),
            };
        }
    }

    /// Decides an arrival (`pie_qdisc_enqueue`, `fq_pie_qdisc_enqueue`) by the numbers of the queue and of the packet's
    /// flow.
    #[inline(never)]
    pub(crate) fn arrive(
        &mut self,
        flow: &mut FlowNumbers,
        step: &Step,
    ) -> (Arrived, Option<Difference>)
        ensures arrived { result.0 ≡ arrival_at self.old flow.old step.now }
        ensures difference { result.1 ≡ arrival_difference self.old flow.old step.now }
        ensures queue { self.new ≡ arrived self.old flow.old step.now }
        ensures flow { flow.new ≡ arrived_flow self.old flow.old step.now }
    {
        let backlog = if self.has_flows {
            flow.backlog
        } else {
            self.bytes_before(step)
        };
        let length = self.length_before(step);
        let arrival = LinuxArrival {
            length,
            backlog,
            size: step.size,
            mtu: step.mtu,
            markable: markable(step),
            word: step.word,
        };
        let cause = flow.state.enqueue(&self.params, arrival);
        let arrived = Arrived {
            cause,
            length,
            bytes: self.bytes_before(step),
            backlog,
            memory: self.memory,
        };
        self.stats.count(self.params.marks, cause, length);
        self.count_memory(step, cause);
        self.queue(flow, step, cause);
        let right = right_arrival(self, &flow.state, &arrived, step);
        (arrived, step_difference(step, &right))
    }

    /// Adds the packet of an arrival with this cause to the queue and to its flow, if it is queued.
    fn queue(&mut self, flow: &mut FlowNumbers, step: &Step, cause: LinuxCause)
        ensures queue { self.new ≡ arrived_by self.old step.now cause }
        ensures flow { flow.new ≡ flow_arrived_by flow.old step.now cause }
    {
        if cause.is_queued() {
            flow.backlog = flow_backlog(flow.listed, flow.backlog, step.packet_length);
            flow.listed = true;
            self.add(&waiting_of(step));
        }
    }
}

impl QueueNumbers {
    /// Takes the departure of a packet into account (`pie_process_dequeue`).
    pub(crate) fn depart(
        &mut self,
        flow: &mut FlowNumbers,
        waiting: &Waiting,
        step: &Step,
    ) -> Option<Difference>
        ensures difference { result ≡ departure_difference self.old flow.old waiting.now step.now }
        ensures queue { self.new ≡ departed_queue self.old waiting.now step.now }
        ensures flow { flow.new ≡ departed_flow self.old flow.old waiting.now step.now }
    {
        let params = self.params_at(step);
        self.remove(flow, waiting);
        if step.is_drop {
            self.drops = self.drops.wrapping_add(1);
            self.drop_bytes = self.drop_bytes.wrapping_add(waiting.length);
        }
        let backlog = if self.has_flows {
            flow.backlog
        } else {
            self.bytes.wrapping_add(step.returned_bytes)
        };
        let departure = departure_of(step, &params, waiting, backlog);
        let reads = flow.state.readings(&params, departure);
        flow.state.depart(&params, departure);
        let departed = Departed {
            waiting: *waiting,
            backlog,
            reads,
            is_timed: params.dq_rate_estimator,
        };
        let right = right_departure(self, &flow.state, &departed, step);
        step_difference(step, &right)
    }

    /// Updates the probability (`pie_calculate_probability`).
    pub(crate) fn update(&self, flow: &mut FlowNumbers, step: &Step) -> Option<Difference>
        ensures difference { result ≡ update_difference self.now flow.old step.now }
        ensures flow { flow.new ≡ updated_flow self.now flow.old step.now }
    {
        let backlog = if self.has_flows {
            flow.backlog
        } else if self.lacks_bytes(step) {
            step.backlog
        } else {
            self.bytes.wrapping_add(step.returned_bytes)
        };
        flow.state.update(&self.params, backlog);
        step_difference(step, &right_update(self, &flow.state, backlog, step))
    }

    /// Begins a round of the timer (`fq_pie_timer`).
    pub(crate) fn begin_round(&mut self, step: &Step) -> Option<Difference>
        ensures difference { result ≡ round_difference self.old step.now }
        ensures queue { self.new ≡ round_begun self.old step.now }
    {
        let cursor = self.cursor.unwrap_or(step.flow.unwrap_or(u32::MAX));
        self.cursor = Some(next_cursor(self.flows, cursor));
        step_difference(step, &right_round(cursor, step))
    }

    /// Changes the parameters (`pie_change`, `fq_pie_change`), and returns the number of packets that pie's lower limit
    /// drops from the front. fq_pie's drops are departures.
    pub(crate) fn change(&mut self, step: &Step) -> u32
        ensures count { result ≡ own_dropped self.old step.now }
        ensures queue { self.new ≡ changed self.old step.now }
    {
        self.params = step.params;
        if self.has_flows {
            self.memory_limit = step.truesize;
            self.quantum = step.x2;
            if step.size != 0 {
                self.drops = 0;
                self.drop_bytes = 0;
            }
            return 0;
        }
        let returned = step.returned_packets.wrapping_add(step.moved);
        own_excess(self.length, returned, self.params.limit)
    }
}

impl FlowNumbers {
    /// Resets a flow. fq_pie's backlog of a flow stays until the next packet is queued.
    pub(crate) fn reset(&mut self, has_flows: bool)
        ensures { self.new ≡ reset_flow self.old has_flows }
    {
        self.state.restart();
        self.listed = false;
        if !has_flows {
            self.backlog = 0;
        }
    }
}
