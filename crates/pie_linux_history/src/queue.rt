//! A queue whose steps are decided again: its numbers, its flows and their waiting packets.
ghost use Rattle.std.specs.Prelude.{◌≡◌, ◌++◌, [], IfOk, OnOk, None, drop, map, replicate, take};
ghost use Rattle.std.specs.List.{flat_map};
ghost use Rattle.pie_linux_history.specs.declared.{explained.Fate.TheVariants.Change, explained.Fate.TheVariants.Reset, numbers.QueueNumbers.QueueNumbers};
ghost use Rattle.pie_linux_history.specs.{Queue.IsFlowStep, Queue.change, Queue.destroyed, Queue.dropped, Queue.dropped_by, Queue.dropped_by_change, Queue.dropped_by_departure, Queue.dropped_by_reset, Queue.dropped_in_turn, Queue.dropped_of, Queue.emptied_flow, Queue.first_dropped, Queue.first_flow, Queue.first_state, Queue.flow_admitted, Queue.flow_departed, Queue.flow_step, Queue.flow_stepped, Queue.flow_updated, Queue.lacking, Queue.no_flow, Queue.opened, Queue.opening_difference, Queue.other, Queue.place_of, Queue.reset, Queue.shortened_flow, Queue.shortened_queue, Queue.stepped, Queue.waiting_resumed, Decided.numbers_at, Resumes.first_flows, Resumes.first_numbers};

use crate::columns::{FLOW, LENGTH_AFTER};
use crate::decided::StepNumbers;
use crate::difference::{Difference, flow_number, step_difference};
use crate::explained::{DecidedPacket, Decision, Fate, lacking};
use crate::numbers::{
    FlowNumbers, QueueNumbers, Waiting, hides_protocol, lack_of, needs_protocol, waiting_of,
};
use crate::resume::{resumed, resumed_flow};
use crate::right::{right_change, right_destroy, right_opening, right_reset};
use crate::step::{Kind, Step};
use pie_linux::{LinuxState, LinuxStats};
use std::alloc::{AllocError, Global};
use std::collections::VecDeque;
use std::marker::Model;

/// The most flows of fq_pie (`fq_pie_init`).
const MAX_FLOWS: u32 = 65536;

/// A flow of fq_pie, or all of pie: its numbers and its waiting packets.
#[derive(Drop)]
pub(crate) struct Flow {
    pub(crate) numbers: FlowNumbers,
    pub(crate) waiting: VecDeque<Waiting>,
}

impl Model for Flow {
    ghost use Rattle.pie_linux_history.specs.Views.{FlowView};

    ghost Value = { FlowView };

    ghost view = { λ flow. record { numbers = flow.numbers; waiting = flow.waiting.items } };
}

/// A queue.
#[derive(Drop)]
pub(crate) struct Queue {
    pub(crate) numbers: QueueNumbers,
    pub(crate) flows: Vec<Flow>,
    /// True after the row `destroy`.
    pub(crate) has_ended: bool,
}

impl Model for Queue {
    ghost use Rattle.pie_linux_history.specs.Views.{QueueView};

    ghost Value = { QueueView };

    ghost view = { λ queue. record { numbers = queue.numbers; flows = queue.flows.items; ended = queue.has_ended } };
}

impl Flow {
    /// Decides a step of this flow of a queue with the numbers `queue` again.
    fn step(&mut self, queue: &mut QueueNumbers, step: &Step) -> Result<Decision, AllocError>
        ensures { IfOk result (λ decision. IsFlowStep (flow_step step.now.kind queue.old self.old step.now) queue.new self.new decision) }
    {
        match step.kind {
            Kind::Enqueue => {
                let change = queue.admit(step);
                self.arrive(change, queue, step)
            }
            Kind::Dequeue => Ok(self.depart(queue, step)),
            Kind::Update => Ok(self.update(queue, step)),
            Kind::Flow => {
                self.numbers = resumed_flow(step);
                Ok(Decision::other(None))
            }
            Kind::Wait => {
                self.waiting.push_back(waiting_of(step))?;
                Ok(Decision::other(None))
            }
            _ => Ok(Decision::other(None)),
        }
    }

    /// Decides an arrival in this flow of a queue with the limit of the arrival.
    fn arrive(
        &mut self,
        change: bool,
        queue: &mut QueueNumbers,
        step: &Step,
    ) -> Result<Decision, AllocError>
        ensures { IfOk result (λ decision. IsFlowStep (flow_admitted change queue.old self.old step.now) queue.new self.new decision) }
    {
        let (state, limit) = (self.numbers.state, queue.params.limit);
        let returned = queue.counts_returned(step);
        let (arrived, difference) = queue.arrive(&mut self.numbers, step);
        if arrived.cause.is_queued() {
            self.waiting.push_back(waiting_of(step))?;
        }
        Ok(Decision {
            difference,
            arrival: Some(DecidedPacket {
                bytes: step.packet_length,
                fate: Fate::Arrival(arrived.cause),
                state,
                length: arrived.length,
                backlog: arrived.bytes,
                limit,
            }),
            lacks: lack_of(
                change,
                returned,
                hides_protocol(step) && needs_protocol(arrived.cause),
            ),
        })
    }

    /// Takes the departure of the first waiting packet into account again.
    fn depart(&mut self, queue: &mut QueueNumbers, step: &Step) -> Decision
        ensures { IsFlowStep (flow_departed queue.old self.old step.now) queue.new self.new result }
    {
        match self.waiting.pop_front() {
            Some(waiting) => {
                let change = queue.lacks_switch(step);
                let difference = queue.depart(&mut self.numbers, &waiting, step);
                lacking(lack_of(change, false, false), difference)
            }
            None => Decision::other(Some(Difference {
                column: LENGTH_AFTER,
                recorded: u64::from(step.length_after),
                right: 0,
            })),
        }
    }

    /// Returns the first waiting packet as one that a change dropped.
    fn first_dropped(
        &self,
        queue: &QueueNumbers,
        lost: &mut Vec<DecidedPacket>,
    ) -> Result<(), AllocError>
        ensures { OnOk result (lost.new.items ≡ lost.old.items ++ map (dropped Change queue.now self.now.numbers) (take 1 self.now.waiting)) }
    {
        if let Some(waiting) = self.waiting.front() {
            lost.push(dropped(Fate::Change, queue, &self.numbers, waiting))?;
        }
        Ok(())
    }

    /// Makes an update of the probability again.
    fn update(&mut self, queue: &QueueNumbers, step: &Step) -> Decision
        ensures { IsFlowStep (flow_updated queue.now self.old step.now) queue.now self.new result }
    {
        let returned = queue.lacks_bytes(step);
        let difference = queue.update(&mut self.numbers, step);
        lacking(lack_of(false, returned, false), difference)
    }

    /// Drops the first `count` packets one after another, since the limit is lower. Adds them to `lost`.
    fn shorten(
        &mut self,
        queue: &mut QueueNumbers,
        count: u32,
        lost: &mut Vec<DecidedPacket>,
    ) -> Result<(), AllocError>
        ensures flow { OnOk result (self.new ≡ record {
          numbers = shortened_flow self.old.numbers self.old.waiting count;
          waiting = drop count self.old.waiting;
        }) }
        ensures queue { OnOk result (queue.new ≡ shortened_queue queue.old self.old.waiting count) }
        ensures lost { OnOk result (lost.new.items
            ≡ lost.old.items ++ dropped_in_turn Change queue.old self.old.numbers (take count self.old.waiting)) }
    {
        drop_first(&mut self.waiting, &mut self.numbers, queue, count, lost)
    }

    /// Resets the flow. Adds its packets to `lost`.
    fn empty(
        &mut self,
        queue: &QueueNumbers,
        lost: &mut Vec<DecidedPacket>,
    ) -> Result<(), AllocError>
        ensures flow { OnOk result (self.new ≡ emptied_flow queue.now.has_flows self.old) }
        ensures lost { OnOk result (lost.new.items ≡ lost.old.items ++ dropped_of queue.now self.old) }
    {
        drop_all(&mut self.waiting, &self.numbers, queue, lost)?;
        self.numbers.reset(queue.has_flows);
        Ok(())
    }
}

/// Returns the numbers of a queue with this handle after its first step.
fn first_numbers(handle: u32, step: &Step) -> QueueNumbers
    ensures { result ≡ first_numbers handle step.now }
{
    let is_new = step.kind == Kind::Init;
    let known = if is_new && step.has_flows {
        Some(0)
    } else {
        None
    };
    QueueNumbers {
        has_flows: step.has_flows,
        handle,
        flows: first_count(step),
        quantum: step.x2,
        params: step.params,
        stats: if is_new {
            LinuxStats::new()
        } else {
            step.stats
        },
        length: 0,
        bytes: 0,
        memory: 0,
        memory_limit: step.truesize,
        over_memory: known,
        cursor: known,
        drops: 0,
        drop_bytes: 0,
    }
}

/// Returns the state of each flow after the queue's first step. The flows of a running fq_pie have rows of their own.
fn first_state(step: &Step) -> LinuxState
    ensures { result ≡ first_state step.now }
{
    if step.kind == Kind::Init || step.has_flows {
        LinuxState::new()
    } else {
        step.after
    }
}

/// Returns the number of flows after the queue's first step.
fn first_count(step: &Step) -> u32
    ensures { result ≡ first_flows step.now }
{
    if step.has_flows {
        step.x1.min(MAX_FLOWS)
    } else {
        1
    }
}

/// Returns the flows after the queue's first step. No packet waits yet.
fn first_flows(alloc: Global, step: &Step) -> Result<Vec<Flow>, AllocError>
    ensures { IfOk result (λ flows. flows.items ≡ replicate (first_flows step.now) (first_flow step.now)) }
{
    let (count, state) = (first_count(step), first_state(step));
    let mut flows = Vec::new(alloc);
    for place in 0..count {
        flows.push(Flow {
            numbers: FlowNumbers {
                state,
                backlog: 0,
                listed: false,
            },
            waiting: VecDeque::new(alloc),
        })?;
    }
    Ok(flows)
}

impl Queue {
    /// Makes a queue with this handle from its first step, a new one or a running one. Of a running one, steps for its flows and
    /// waiting packets follow.
    #[inline(never)]
    #[tactic(auto, unfolding(crate::specs::Queue::opened))]
    pub(crate) fn open(alloc: Global, handle: u32, step: &Step) -> Result<Queue, AllocError>
        ensures { IfOk result (λ queue. queue ≡ opened handle step.now) }
    {
        Ok(Queue {
            numbers: resumed(first_numbers(handle, step), step),
            flows: first_flows(alloc, step)?,
            has_ended: false,
        })
    }

    /// Decides a step again. Adds the packets that a change or a reset dropped to `lost`.
    pub(crate) fn step(
        &mut self,
        step: &Step,
        lost: &mut Vec<DecidedPacket>,
    ) -> Result<Decision, AllocError>
        ensures made { IfOk result (λ decision. stepped step.now.kind self.old step.now ≡ record { queue = self.new; decision = decision }) }
        ensures lost { OnOk result (lost.new.items ≡ lost.old.items ++ dropped_by step.now.kind self.old step.now) }
    {
        match step.kind {
            Kind::Enqueue | Kind::Update | Kind::Flow => self.step_flow(step),
            Kind::Dequeue => {
                self.drop_departing(step, lost)?;
                self.step_flow(step)
            }
            Kind::Wait => self.resume_packet(step),
            Kind::Timer => Ok(Decision::other(self.numbers.begin_round(step))),
            Kind::Change => self.change(step, lost),
            Kind::Reset => self.reset(step, lost),
            Kind::Destroy => Ok(self.destroy(step)),
            Kind::Init | Kind::Resume | Kind::Empty => Ok(Decision::other(None)),
        }
    }

    /// Decides a step of a flow again, if there is such a flow.
    fn step_flow(&mut self, step: &Step) -> Result<Decision, AllocError>
        ensures { IfOk result (λ decision. flow_stepped self.old step.now ≡ record { queue = self.new; decision = decision }) }
    {
        let place = self.place(step);
        match self.flows.get_mut(place) {
            Some(flow) => flow.step(&mut self.numbers, step),
            None => Ok(Decision::other(no_flow(step))),
        }
    }

    /// Takes over a waiting packet of a running queue.
    #[tactic(auto, unfolding(crate::specs::Queue::waiting_resumed))]
    fn resume_packet(&mut self, step: &Step) -> Result<Decision, AllocError>
        ensures { IfOk result (λ decision. waiting_resumed self.old step.now ≡ record { queue = self.new; decision = decision }) }
    {
        if step.x0 != 0 {
            return Ok(Decision::other(None));
        }
        self.numbers.add(&waiting_of(step));
        self.step_flow(step)
    }

    /// Returns the place of the flow of a step: the recorded one, or the one that its priority or its hash chooses.
    fn place(&self, step: &Step) -> usize
        ensures { result ≡ place_of self.now step.now }
    {
        if !self.numbers.has_flows {
            return 0;
        }
        match step.flow {
            Some(flow) => flow as usize,
            None => self.numbers.flow_chosen(step.priority, step.hash) as usize,
        }
    }

    /// Returns the numbers of the queue and of the flow of a step, if there is such a flow.
    #[tactic(auto, unfolding(crate::specs::Decided::numbers_at))]
    pub(crate) fn numbers_at(&self, step: &Step) -> Option<StepNumbers>
        ensures { result ≡ numbers_at self.now step.now }
    {
        let place = self.place(step);
        let flow = self.flows.get(place)?;
        Some(StepNumbers {
            place: place.min(u32::MAX as usize) as u32,
            params: self.numbers.params,
            state: flow.numbers.state,
            packets: self.numbers.length,
            bytes: self.numbers.bytes,
            since: match flow.waiting.front() {
                Some(first) => first.moment,
                None => 0,
            },
        })
    }

    /// Adds the first packet of the flow of a departure to `lost`, if a change of the limit drops it.
    #[tactic(auto, unfolding(crate::specs::Queue::dropped_by_departure))]
    fn drop_departing(&self, step: &Step, lost: &mut Vec<DecidedPacket>) -> Result<(), AllocError>
        ensures { OnOk result (lost.new.items ≡ lost.old.items ++ dropped_by_departure self.now step.now) }
    {
        if !step.is_drop {
            return Ok(());
        }
        match self.flows.get(self.place(step)) {
            Some(flow) => flow.first_dropped(&self.numbers, lost),
            None => Ok(()),
        }
    }

    /// Ends the queue.
    #[tactic(auto, unfolding(crate::specs::Queue::destroyed))]
    fn destroy(&mut self, step: &Step) -> Decision
        ensures { destroyed self.old step.now ≡ record { queue = self.new; decision = result } }
    {
        self.has_ended = true;
        match self.flows.first() {
            Some(flow) => {
                let right = right_destroy(&self.numbers, &flow.numbers.state, step);
                Decision::other(step_difference(step, &right))
            }
            None => Decision::other(None),
        }
    }

    /// Changes the parameters, and drops pie's packets above a lower limit. Adds them to `lost`.
    #[tactic(auto, unfolding(crate::specs::Queue::change, crate::specs::Queue::dropped_by_change))]
    fn change(&mut self, step: &Step, lost: &mut Vec<DecidedPacket>) -> Result<Decision, AllocError>
        ensures made { IfOk result (λ decision. change self.old step.now ≡ record { queue = self.new; decision = decision }) }
        ensures lost { OnOk result (lost.new.items ≡ lost.old.items ++ dropped_by_change self.old step.now) }
    {
        let was = self.numbers;
        let count = self.numbers.change(step);
        let Some(flow) = self.flows.get_mut(0) else {
            return Ok(Decision::other(None));
        };
        flow.shorten(&mut self.numbers, count, lost)?;
        let right = right_change(&self.numbers, &was, &flow.numbers.state, step);
        Ok(Decision::other(step_difference(step, &right)))
    }

    /// Resets the queue (`pie_reset`, `fq_pie_reset`): all packets are dropped, and the flows keep the numbers that a reset does
    /// not change. fq_pie's memory is unchanged. Adds the packets to `lost`.
    #[tactic(auto, unfolding(crate::specs::Queue::reset, crate::specs::Queue::dropped_by_reset))]
    fn reset(&mut self, step: &Step, lost: &mut Vec<DecidedPacket>) -> Result<Decision, AllocError>
        ensures made { IfOk result (λ decision. reset self.old step.now ≡ record { queue = self.new; decision = decision }) }
        ensures lost { OnOk result (lost.new.items ≡ lost.old.items ++ dropped_by_reset self.old) }
    {
        let was = self.numbers;
        empty_flows(&mut self.flows, &was, lost)?;
        self.numbers.length = 0;
        self.numbers.bytes = 0;
        let difference = match self.flows.first() {
            Some(flow) => step_difference(step, &right_reset(&was, &flow.numbers.state, step)),
            None => None,
        };
        Ok(Decision::other(difference))
    }
}

/// Drops the first `count` packets of a flow one after another. Adds them to `lost`.
fn drop_first(
    waiting: &mut VecDeque<Waiting>,
    flow: &mut FlowNumbers,
    queue: &mut QueueNumbers,
    count: u32,
    lost: &mut Vec<DecidedPacket>,
) -> Result<(), AllocError>
    ensures waiting { OnOk result (waiting.new.items ≡ drop count waiting.old.items) }
    ensures flow { OnOk result (flow.new ≡ shortened_flow flow.old waiting.old.items count) }
    ensures queue { OnOk result (queue.new ≡ shortened_queue queue.old waiting.old.items count) }
    ensures lost { OnOk result (lost.new.items
        ≡ lost.old.items ++ dropped_in_turn Change queue.old flow.old (take count waiting.old.items)) }
{
    for before in 0..count {
        let Some(packet) = waiting.pop_front() else {
            return Ok(());
        };
        lost.push(dropped(Fate::Change, queue, flow, &packet))?;
        queue.remove(flow, &packet);
    }
    Ok(())
}

/// Drops all packets of a flow. Adds them to `lost`.
fn drop_all(
    waiting: &mut VecDeque<Waiting>,
    flow: &FlowNumbers,
    queue: &QueueNumbers,
    lost: &mut Vec<DecidedPacket>,
) -> Result<(), AllocError>
    ensures waiting { OnOk result (waiting.new.items ≡ []) }
    ensures lost { OnOk result (lost.new.items ≡ lost.old.items ++ map (dropped Reset queue.now flow.now) waiting.old.items) }
{
    'packets: while let Some(packet) = waiting.pop_front() {
        lost.push(dropped(Fate::Reset, queue, flow, &packet))?;
    }
    Ok(())
}

/// Resets each flow. Adds its packets to `lost`.
fn empty_flows(
    flows: &mut Vec<Flow>,
    queue: &QueueNumbers,
    lost: &mut Vec<DecidedPacket>,
) -> Result<(), AllocError>
    ensures flows { OnOk result (flows.new.items ≡ map (emptied_flow queue.now.has_flows) flows.old.items) }
    ensures lost { OnOk result (lost.new.items ≡ lost.old.items ++ flat_map (dropped_of queue.now) flows.old.items) }
{
    for place in 0..flows.len() {
        flows[place].empty(queue, lost)?;
    }
    Ok(())
}

/// Returns the packet that a change or a reset dropped.
fn dropped(fate: Fate, queue: &QueueNumbers, flow: &FlowNumbers, waiting: &Waiting) -> DecidedPacket
    ensures { result ≡ dropped fate queue.now flow.now waiting.now }
{
    DecidedPacket {
        bytes: waiting.length,
        fate,
        state: flow.state,
        length: queue.length,
        backlog: queue.bytes,
        limit: queue.params.limit,
    }
}

/// Returns the difference of a step of a flow that does not exist. A row of a running queue has none.
fn no_flow(step: &Step) -> Option<Difference>
    ensures { result ≡ no_flow step.now }
{
    if step.kind.is_part() {
        return None;
    }
    Some(Difference {
        column: FLOW,
        recorded: flow_number(step.flow),
        right: 0,
    })
}

/// Compares the first step of a queue with that of a new queue, or of a running one.
pub(crate) fn opening_difference(step: &Step) -> Option<Difference>
    ensures { result ≡ opening_difference step.now }
{
    step_difference(step, &right_opening(step))
}
