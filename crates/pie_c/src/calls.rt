//! Calls on a state. Calls for a packet accept any state, sound or not, because their rules are total. The other calls
//! refuse an unsound state. Each call refuses arguments out of range, executes the step of the controller, and writes
//! the changed numbers back.
ghost use Rattle.std.specs.Prelude.{◌≡◌, ◌<◌, ◌+◌, ◌-◌, ◌^◌, ◌≤◌, ℕ, if◌then◌else◌, min, true, Some};
ghost use Rattle.pie_c.specs.{Change, Depart, Restart, arrived, capped, cause, departed, verdict, elements_of, controller_state, is_sound, takes_stamps, with_departure, with_rate, Arrives, Departs, Makes, Advances, Steps, Takes, arrival_of, arrival_refusal, departure_refusal, moment_refusal, params_refusal, reset_refusal, state_refusal, update_refusal, updated_by, waited_refusal};
ghost use Rattle.pie_aqm.specs.Calls.{Update};
ghost use Rattle.pie_event.specs.Cause.{name_of};

use crate::checked::{is_sound, raw, raw_with, takes_stamps, usual_but_delay};
use crate::state::{PieState, PieUpdated};
use pie_abi::choices::elements;
use pie_abi::code::{
    BAD_ARRIVED, BAD_ECN, BAD_MOMENT, BAD_PARAMS, BAD_QUEUE, BAD_SIZE, BAD_STATE, DONE, NOT_WAITED,
    TOO_SOON, of_verdict,
};
use pie_abi::packet::{ecn, is_bad_size};
use pie_abi::params::are_in_range;
use pie_aqm::{ArrivingPacket, CauseName};
use pie_fixed::MAX_NANOS;
use pie_params::{Elements, RawParams};

/// The greatest number of bytes in a queue, which is the greatest byte limit.
const MAX_QUEUED: u64 = 1 << 30;

/// Decides on an arriving packet (RFC 8033, sections 4.1, 5.1 and 5.4; RFC 3168, section 5). The caller then queues the
/// packet, marks and queues it, or drops it. `queued` is the number of bytes in the queue without the packet, and `room`
/// the number of packets for which the caller's ring has room. `bits` is the packet's ECN field, and `word` a random
/// word, uniformly distributed.
///
/// Tail drop by bytes is tested first, then tail drop by packets. An inactive controller considers no packet. If the
/// queue then holds at least a third of `limit_bytes`, the controller is reset and activated (RFC 8033, section 5.3).
#[inline(always)]
#[unsafe(no_mangle)]
pub extern "C" fn pie_arrive(
    state: &mut PieState,
    queued: u64,
    size: u32,
    room: u32,
    bits: u32,
    word: u64,
    moment: u64,
) -> u32
    ensures { Arrives state.old (arrival_of queued size room bits word) (arrival_refusal queued size bits moment) moment result state.new }
{
    // One value, so that the other path is compiled once and is a jump.
    let is_usual_but_delay = room != 0 && state.active == 1 && state.choices <= 1;
    if is_usual_but_delay {
        let elements = usual_but_delay(state.choices);
        arrive(state, elements, queued, size, room, bits, word, moment).0
    } else {
        arrive_out_of_line(state, queued, size, room, bits, word, moment)
    }
}

/// Decides on an arriving packet and also returns the name of the cause, unless the call is refused. It is inlined: if the caller has tested
/// that the controller is active and the ring has room, the code for activation and for a full ring is removed. The
/// moment is written first, so that it occupies no processor register from then on.
#[inline(always)]
#[tactic(auto, unfolding(crate::specs::State::arrival_refusal))]
pub(crate) fn arrive(
    state: &mut PieState,
    elements: Elements,
    queued: u64,
    size: u32,
    room: u32,
    bits: u32,
    word: u64,
    moment: u64,
) -> (u32, Option<CauseName>)
    requires { elements ≡ elements_of state.old.choices }
    ensures arrives { Arrives state.old (arrival_of queued size room bits word) (arrival_refusal queued size bits moment) moment result.0 state.new }
    ensures name { result.0 ≤ 4 → (packets : ℕ)
        → result.1 ≡ Some (name_of (cause (controller_state state.old) (arrival_of queued size room bits word) packets)) }
{
    if moment > MAX_NANOS {
        return (BAD_MOMENT, None);
    }
    if is_bad_size(size) {
        return (BAD_SIZE, None);
    }
    let Some(ecn) = ecn(bits) else {
        return (BAD_ECN, None);
    };
    if queued > MAX_QUEUED {
        return (BAD_QUEUE, None);
    }
    let arrival = ArrivingPacket {
        queued,
        is_full: room == 0,
        size,
        ecn,
        word,
    };
    state.reach(moment);
    let mut controller = raw_with(state, elements);
    let (verdict, name) = controller.arrive_with_name(arrival, state.moment);
    state.keep_arrived(&controller);
    crate::law::calls_are_lawful();
    (of_verdict(verdict), Some(name))
}

/// Decides on an arriving packet in a function that is not inlined, so that the processor registers for activation cost
/// an active controller nothing.
#[inline(never)]
fn arrive_out_of_line(
    state: &mut PieState,
    queued: u64,
    size: u32,
    room: u32,
    bits: u32,
    word: u64,
    moment: u64,
) -> u32
    ensures { Arrives state.old (arrival_of queued size room bits word) (arrival_refusal queued size bits moment) moment result state.new }
{
    let elements = elements(state.choices);
    arrive(state, elements, queued, size, room, bits, word, moment).0
}

/// Adds the departure of a packet of `size` bytes that leaves `left` bytes in the queue (RFC 8033, section 5.2). For an
/// inactive controller only the moment counts. If delays come from time stamps, the call is refused: use
/// `pie_depart_waited`, which takes the packet's arrival.
#[tactic(auto, using(crate::proofs::Sound::departs_by_rate))]
#[unsafe(no_mangle)]
pub extern "C" fn pie_depart(state: &mut PieState, size: u32, left: u64, moment: u64) -> u32
    ensures answer { result ≡ departure_refusal state.old size left moment }
    ensures steps { Steps state.old (Depart size left 0 moment) (departure_refusal state.old size left moment)
        (with_rate state.old (departed (capped (controller_state state.old)) size left 0 moment)) state.new }
{
    crate::law::calls_are_lawful();
    if depart_counted(state, size, left, moment) {
        return DONE;
    }
    depart_otherwise(state, moment, size, left)
}

/// Adds a departure that leaves an open cycle of the departure rate open, as most departures do. Returns false, with
/// nothing changed, for any other departure. The order of the tests was measured to cost least.
#[inline(always)]
fn depart_counted(state: &mut PieState, size: u32, left: u64, moment: u64) -> bool
    ensures taken { result ≡ true → departure_refusal state.old size left moment ≡ 0 }
    ensures after { state.new ≡ (if result then with_rate state.old (departed (capped (controller_state state.old)) size left 0 moment) else state.old) }
{
    if left <= MAX_QUEUED && moment <= MAX_NANOS && size != 0 {
        if let Some(count) = raw(state).counted(size) {
            state.keep_counted(count, moment);
            return true;
        }
    }
    false
}

/// Adds any other departure. Neither this function nor its callees are inlined, so that they cost the common departures
/// nothing.
#[inline(never)]
fn depart_otherwise(state: &mut PieState, moment: u64, size: u32, left: u64) -> u32
    ensures { Takes state.old (departure_refusal state.old size left moment)
        (with_rate state.old (departed (capped (controller_state state.old)) size left 0 moment)) result state.new }
{
    if depart_unmeasured(state, size, left, moment) {
        return DONE;
    }
    depart(state, size, left, moment)
}

/// Adds a departure that meets no open cycle and opens none. Returns false, with nothing changed, for any other
/// departure.
#[inline(always)]
fn depart_unmeasured(state: &mut PieState, size: u32, left: u64, moment: u64) -> bool
    ensures taken { result ≡ true → departure_refusal state.old size left moment ≡ 0 }
    ensures after { state.new ≡ (if result then with_rate state.old (departed (capped (controller_state state.old)) size left 0 moment) else state.old) }
{
    if moment > MAX_NANOS || is_bad_size(size) || !raw(state).is_between_cycles(left) {
        return false;
    }
    state.keep_unmeasured(moment);
    true
}

/// Adds any departure.
#[inline(never)]
#[tactic(auto, unfolding(crate::specs::State::packet_refusal))]
fn depart(state: &mut PieState, size: u32, left: u64, moment: u64) -> u32
    ensures { Takes state.old (departure_refusal state.old size left moment)
        (with_rate state.old (departed (capped (controller_state state.old)) size left 0 moment)) result state.new }
{
    if moment > MAX_NANOS {
        return BAD_MOMENT;
    }
    if is_bad_size(size) {
        return BAD_SIZE;
    }
    if left > MAX_QUEUED {
        return BAD_QUEUE;
    }
    if takes_stamps(state) {
        return NOT_WAITED;
    }
    let mut controller = raw(state);
    controller.depart(size, left, 0, moment);
    state.keep_departed(&controller);
    DONE
}

/// Adds the departure of a packet of `size` bytes that leaves `left` bytes in the queue (RFC 8033, section 4.3). The
/// packet arrived at the moment `arrived`, which is the state's moment right after its `pie_arrive`. If delays come from
/// the departure rate, it is equivalent to `pie_depart`.
#[inline(always)]
#[tactic(auto, using(crate::proofs::Sound::departs))]
#[unsafe(no_mangle)]
pub extern "C" fn pie_depart_waited(
    state: &mut PieState,
    size: u32,
    left: u64,
    arrived: u64,
    moment: u64,
) -> u32
    ensures answer { result ≡ waited_refusal state.old size left arrived moment }
    ensures steps { Departs state.old size left arrived moment state.new }
{
    crate::law::calls_are_lawful();
    if takes_stamps(state) {
        depart_stamped(state, size, left, arrived, moment)
    } else {
        pie_depart(state, size, left, moment)
    }
}

/// Adds a departure if delays come from time stamps.
#[inline(always)]
#[tactic(auto, unfolding(crate::specs::State::packet_refusal))]
fn depart_stamped(state: &mut PieState, size: u32, left: u64, arrived: u64, moment: u64) -> u32
    requires { takes_stamps state.old ≡ true }
    ensures { Takes state.old (waited_refusal state.old size left arrived moment)
        (with_departure state.old (departed (capped (controller_state state.old)) size left arrived moment)) result state.new }
{
    if moment > MAX_NANOS {
        return BAD_MOMENT;
    }
    if is_bad_size(size) {
        return BAD_SIZE;
    }
    if left > MAX_QUEUED {
        return BAD_QUEUE;
    }
    if arrived > state.moment {
        return BAD_ARRIVED;
    }
    let mut controller = raw(state);
    controller.depart(size, left, arrived, moment);
    state.moment = controller.moment;
    state.waited = controller.waited;
    DONE
}

/// Adds a departure that found the queue empty. Only its moment counts.
#[inline(always)]
#[tactic(auto, unfolding(crate::specs::State::moment_refusal))]
#[unsafe(no_mangle)]
pub extern "C" fn pie_empty(state: &mut PieState, moment: u64) -> u32
    ensures answer { result ≡ moment_refusal moment }
    ensures steps { Advances state.old moment state.new }
{
    if moment > MAX_NANOS {
        return BAD_MOMENT;
    }
    state.moment = state.moment.max(moment);
    crate::law::calls_are_lawful();
    DONE
}

/// Makes an update that is due, with `queued` bytes in the queue (RFC 8033, sections 4.2, 4.4 and 5.5). An update
/// before the due moment is refused as too soon.
///
/// A calm update deactivates a controller of profile two. For an inactive controller only the moment counts, and the
/// delay is 0 (RFC 8033, section 5.3).
#[inline(always)]
#[tactic(auto, unfolding(crate::specs::State::update_refusal))]
#[unsafe(no_mangle)]
pub extern "C" fn pie_update(state: &mut PieState, queued: u64, moment: u64) -> PieUpdated
    ensures answer { result ≡ updated_by state.old queued moment }
    ensures small { result.code < 2 ^ 32 }
    ensures made { Makes state.old (Update queued moment) (update_refusal state.old queued moment) state.new }
{
    if !is_sound(state) {
        return PieUpdated::refused(BAD_STATE);
    }
    if moment > MAX_NANOS {
        return PieUpdated::refused(BAD_MOMENT);
    }
    if queued > MAX_QUEUED {
        return PieUpdated::refused(BAD_QUEUE);
    }
    crate::law::calls_are_lawful();
    let mut controller = raw(state);
    if controller.is_too_soon(moment) {
        return PieUpdated::made(TOO_SOON, controller.control.old_delay, &controller);
    }
    let delay = controller.update(queued, moment);
    state.keep_updated(&controller);
    PieUpdated::made(DONE, delay, &controller)
}

/// Returns the due moment of the next update. If the sum is above `2^64 - 1`, which is possible for unsound states
/// only, returns `2^64 - 1`.
#[unsafe(no_mangle)]
pub extern "C" fn pie_due(state: &PieState) -> u64
    ensures { result ≡ min (state.now.last + state.now.params.t_update) (2 ^ 64 - 1) }
{
    state.last.saturating_add(state.params.t_update)
}

/// Sets probability, old delay, accumulated probability and rate estimate to 0 and the burst allowance to `max_burst`.
/// Parameters, last update and activity are unchanged.
#[inline(always)]
#[tactic(auto, unfolding(crate::specs::State::reset_refusal))]
#[unsafe(no_mangle)]
pub extern "C" fn pie_reset(state: &mut PieState, moment: u64) -> u32
    ensures answer { result ≡ reset_refusal state.old moment }
    ensures made { Makes state.old (Restart moment) (reset_refusal state.old moment) state.new }
{
    if !is_sound(state) {
        return BAD_STATE;
    }
    if moment > MAX_NANOS {
        return BAD_MOMENT;
    }
    let mut controller = raw(state);
    controller.reset(moment);
    state.keep_registers(&controller);
    crate::law::calls_are_lawful();
    DONE
}

/// Sets new parameters and clears the rate estimate. The rest of the state is unchanged.
///
/// Refuses, in this order, an unsound state, parameters out of range, and a moment out of range.
#[inline(always)]
#[tactic(auto, unfolding(crate::specs::State::params_refusal))]
#[unsafe(no_mangle)]
pub extern "C" fn pie_set_params(state: &mut PieState, params: &RawParams, moment: u64) -> u32
    ensures answer { result ≡ params_refusal state.old params.now moment }
    ensures made { Makes state.old (Change params.now moment) (params_refusal state.old params.now moment) state.new }
{
    if !is_sound(state) {
        return BAD_STATE;
    }
    if !are_in_range(params) {
        return BAD_PARAMS;
    }
    if moment > MAX_NANOS {
        return BAD_MOMENT;
    }
    let mut controller = raw(state);
    controller.set_params(*params, moment);
    state.params = *params;
    state.keep_departed(&controller);
    crate::law::calls_are_lawful();
    DONE
}

/// Checks a state from any other source: returns 0 if each field is in its range and the fields agree, otherwise the
/// code with which the other calls refuse it.
#[unsafe(no_mangle)]
pub extern "C" fn pie_check_state(state: &PieState) -> u32
    ensures { result ≡ state_refusal state.now }
{
    if is_sound(state) { DONE } else { BAD_STATE }
}
