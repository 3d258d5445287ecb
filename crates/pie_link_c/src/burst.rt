//! Bursts: several events in one turn, read and written in place in the caller's memory. No call waits or allocates.
ghost use Rattle.std.specs.Prelude.{◌≡◌, ◌<◌, Bool, drop, length, map, slice_index_or, slice_set, ℕ, None};
ghost use Rattle.pie_link_c.specs.{Reply, always, has_left_or_updated, PieEvent, EventCall, Arrive, Depart, command_by, command_unless, call_of_event, event_answered};
ghost use Rattle.pie_link_c.specs.{has_bad_ecn, IsTriedAll, TriesAll, budget_of};

use crate::code::{BUSY, CLOSED, code_of_refusal};
use crate::event_results::{EventCall, fill_answer, fill_code};
use crate::handle::PiePort;
use crate::port::{Port, has_bad_ecn};
use pie_abi::code::{BAD_ECN, DONE};
use pie_abi::event::{PieEvent, UPDATE};
use pie_abi::packet::ecn;
use pie_event::{Answer, Command, Refusal};
use pie_link::{Burst, Reply};
use pie_queue::{Ecn, Packet};
use std::alloc::Global;
use std::marker::PhantomData;

/// A kind of burst: the call of its events, apart from updates, and the results after which it continues. Each kind is
/// compiled on its own.
pub(crate) trait BurstKind {
    ghost call: { EventCall };

    ghost continues: { Reply → Bool };

    /// Returns the call of its events.
    fn event_call() -> EventCall
        ensures { result ≡ call };

    /// Returns true if the burst continues after `reply`.
    fn continues_after(reply: &Reply) -> bool
        ensures { result ≡ continues reply.now };
}

/// Bursts of arrivals.
pub(crate) struct Arrivals;

impl BurstKind for Arrivals {
    ghost call = { Arrive };

    ghost continues = { always };

    #[inline(always)]
    fn event_call() -> EventCall {
        EventCall::Arrive
    }

    #[inline(always)]
    fn continues_after(_: &Reply) -> bool {
        true
    }
}

/// Bursts of departures.
pub(crate) struct Departures;

impl BurstKind for Departures {
    ghost call = { Depart };

    ghost continues = { has_left_or_updated };

    #[inline(always)]
    fn event_call() -> EventCall {
        EventCall::Depart
    }

    // Continue after a departure, after an update, and after an update that is too soon.
    #[inline(always)]
    fn continues_after(reply: &Reply) -> bool {
        match reply {
            Ok(reply) => matches!(reply.answer, Answer::Left(_) | Answer::Updated { .. }),
            Err(why) => matches!(why, Refusal::TooSoon { .. }),
        }
    }
}

/// A burst of events of one kind, with updates among them.
#[derive(Drop)]
pub(crate) struct PortBurst<'a, K> {
    /// The events.
    pub(crate) events: &'a mut [PieEvent],
    /// The number of events that were decided.
    pub(crate) done: usize,
    /// The caller's number.
    pub(crate) caller: u16,
    pub(crate) kind: PhantomData<K>,
}

// Returns the call of an event of a burst.
#[inline(always)]
fn call_of_event(call: EventCall, event: &PieEvent) -> EventCall
    ensures { result ≡ call_of_event call event.now }
{
    if event.kind == UPDATE {
        EventCall::Update
    } else {
        call
    }
}

// Returns the arrival of an event. If its ECN field is invalid, the packet has no bytes, so that the book refuses it.
#[inline(always)]
fn arrival_of(event: &PieEvent) -> Command
    ensures { result ≡ command_unless (has_bad_ecn Arrive event.now) Arrive event.now }
{
    let (size, ecn) = match ecn(u32::from(event.ecn)) {
        Some(ecn) => (event.size, ecn),
        None => (0, Ecn::Ce),
    };
    Command::Arrive {
        moment: event.moment,
        packet: Packet {
            tag: event.tag,
            size,
            ecn,
        },
        word: event.word,
    }
}

// Returns the command of an event of a burst.
#[inline(always)]
fn command_of(call: EventCall, event: &PieEvent) -> Command
    ensures { result ≡ command_by call event.now }
{
    let moment = event.moment;
    match call_of_event(call, event) {
        EventCall::Arrive => arrival_of(event),
        EventCall::Depart => Command::Depart { moment },
        EventCall::Update => Command::Update { moment },
        EventCall::Reset => Command::Reset { moment },
    }
}

// Writes the result of an event of a burst, with the caller's number.
#[inline(always)]
fn fill_event(event: &mut PieEvent, call: EventCall, caller: u16, reply: &Reply)
    ensures { event.new ≡ event_answered call caller event.old reply.now }
{
    let call = call_of_event(call, event);
    if has_bad_ecn(call, event) {
        fill_code(event, call, BAD_ECN);
    } else {
        match reply {
            Ok(reply) => fill_answer(event, call, &reply.answer),
            Err(why) => fill_code(event, call, code_of_refusal(why)),
        }
    }
    event.caller = caller;
}

// Writes the result of the event at `place`.
#[inline(always)]
fn fill_event_at(events: &mut [PieEvent], place: usize, call: EventCall, caller: u16, reply: &Reply)
    requires { place < length events.old }
    ensures { (d : PieEvent) → events.new
        ≡ slice_set events.old place (event_answered call caller (slice_index_or events.old place d) reply.now) }
{
    fill_event(&mut events[place], call, caller, reply);
}

impl<K: BurstKind> Burst for PortBurst<'_, K> {
    ghost use Rattle.pie_link_c.specs.{Took};

    ghost commands = { λ b place. map (command_by K.call) (drop place b.events.now) };

    ghost continues = { λ b. K.continues };

    ghost received = { λ first b replies. (b.events.ghost_name ≡ first.events.ghost_name)
        × Took K.call first.caller b.caller first.events.now b.events.now b.done replies };

    ghost room = { λ b. b.events.ghost_name };

    ghost has_room = { λ b place. b.done ≡ place };

    #[inline(always)]
    fn count(&self) -> usize {
        self.events.len()
    }

    #[inline(always)]
    fn command(&self, place: usize) -> Command {
        let events = &*self.events;
        command_of(K::event_call(), &events[place])
    }

    #[inline(always)]
    fn take(&mut self, place: usize, reply: Reply) -> bool {
        fill_event_at(self.events, place, K::event_call(), self.caller, &reply);
        self.done = place + 1;
        K::continues_after(&reply)
    }
}

// Returns the budget of a number of bytes; the greatest number is no budget.
fn budget_of(bytes: u64) -> Option<u64>
    ensures { result ≡ budget_of bytes }
{
    if bytes == u64::MAX { None } else { Some(bytes) }
}

impl Port {
    // Decides a burst, and writes its code.
    fn decide_burst<'a, K: BurstKind>(
        &mut self,
        budget: Option<u64>,
        burst: PortBurst<'a, K>,
        code: &mut u32,
    ) -> PortBurst<'a, K>
        requires fresh { burst.done ≡ 0 }
        requires caller { burst.caller ≡ self.old.first }
        ensures same { result.events.ghost_name ≡ burst.entry.events.ghost_name }
        ensures tried { IsTriedAll K.call budget K.continues self.old burst.entry.events.now result.done code.new result.events.now self.new }
    {
        match self.link.try_answer_all(&mut self.caller, budget, burst) {
            Ok(after) => {
                *code = DONE;
                after
            }
            Err(back) => {
                *code = BUSY;
                back
            }
        }
    }

    // Makes the burst of `events` and decides it.
    fn decide_events<'a, K: BurstKind>(
        &mut self,
        budget: Option<u64>,
        events: &'a mut [PieEvent],
        code: &mut u32,
    ) -> PortBurst<'a, K>
        ensures same { result.events.ghost_name ≡ events.entry.ghost_name }
        ensures tried { IsTriedAll K.call budget K.continues self.old events.entry.now result.done code.new result.events.now self.new }
    {
        let caller = self.caller.first();
        let burst = PortBurst {
            events,
            done: 0,
            caller,
            kind: PhantomData,
        };
        self.decide_burst(budget, burst, code)
    }
}

// Decides events of this kind and updates at a port of C, one after another, within a budget of bytes. Returns the code
// and the number of decided events.
#[inline(always)]
#[tactic(auto, unfolding(crate::specs::Calls::AtPort))]
fn try_all<K: BurstKind>(
    alloc: Global,
    port: &mut PiePort,
    budget: Option<u64>,
    events: &mut [PieEvent],
) -> (u32, usize)
    ensures { TriesAll K.call budget K.continues port.old.port events.old result.1 result.0 events.new port.new.port }
{
    let Some(mut port_box) = port.take_box(alloc) else {
        return (CLOSED, 0);
    };
    let mut code = DONE;
    let after = port_box.decide_events::<K>(budget, events, &mut code);
    let done = after.done;
    port.put_box(port_box);
    (code, done)
}

/// Decides the arrivals of `events`, one after another, in one turn. An event of kind update is an update.
#[unsafe(no_mangle)]
pub extern "C" fn pie_link_try_arrive_all(
    alloc: Global,
    port: &mut PiePort,
    events: &mut [PieEvent],
) -> u32
    ensures { (count : ℕ) × TriesAll Arrive None always port.old.port events.old count result events.new port.new.port }
{
    try_all::<Arrivals>(alloc, port, None, events).0
}

/// Decides departures, each at its event's moment, one after another, in one turn. The burst ends when the queue is
/// empty, and before a packet that exceeds the remaining budget of bytes; `u64::MAX` is no budget. An event of kind
/// update is an update. `made` is the number of decided events.
#[unsafe(no_mangle)]
pub extern "C" fn pie_link_try_depart_all(
    alloc: Global,
    port: &mut PiePort,
    bytes: u64,
    events: &mut [PieEvent],
    made: &mut usize,
) -> u32
    ensures { TriesAll Depart (budget_of bytes) has_left_or_updated port.old.port events.old made.new result events.new port.new.port }
{
    let (code, done) = try_all::<Departures>(alloc, port, budget_of(bytes), events);
    *made = done;
    code
}
