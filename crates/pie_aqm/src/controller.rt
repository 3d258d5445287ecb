//! The controller and its calls, for numbers in their ranges.
ghost use Rattle.std.specs.Prelude.{◌≡◌, ◌+◌, ◌^◌, ◌≤◌, ◌↔◌, List, [], ◌∷◌, ◌++◌, true, false, None, Some, IsOk, IfOk, IfErr};
ghost use Rattle.pie_aqm.specs.{Arrive, Change, Depart, Advance, Restart, Update, IsSound, Represents, RepresentsCall, first_unsound, arrived, cause, changed, delay_answered, delay_in, departed, due, is_too_soon, opened, advanced, reset, updated, verdict};
ghost use Rattle.pie_event.specs.Cause.{verdict_of, is_queued};

use crate::{ArrivingPacket, Cause, Profile, RawController, Register, Verdict};
use pie_fixed::Nanos;
use pie_params::{Elements, Params};
use std::marker::Model;

/// A PIE controller for a queue that its caller owns.
///
/// Contracts see the controller's state, and compare it with the list of events since the controller was opened.
#[derive(Drop)]
pub struct Controller {
    raw: RawController,
}

impl Model for Controller {
    ghost use Rattle.pie_aqm.specs.Steps.{ControllerState, IsSound};

    ghost Value = { ControllerState };

    ghost view = { λ c. c.raw };

    ghost invariant = { λ c. IsSound c.raw };
}

impl Controller {
    /// Opens a controller: probability and delays are 0, the burst allowance is `max_burst`, and the departure rate has
    /// no sample (RFC 8033, sections 4.2, 4.4 and 5.2). In profile two it is inactive at the opening.
    #[tactic(auto, using(crate::proofs::Laws::Represents_opened))]
    pub fn open(profile: Profile, elements: Elements, params: Params, moment: Nanos) -> Self
        ensures value { result ≡ opened profile elements params moment }
        ensures represents { Represents (record { profile = profile; elements = elements; params = params; moment = moment }) [] result }
    {
        Controller {
            raw: RawController::opened(profile, elements, params.raw(), moment.units()),
        }
    }

    /// Makes a controller with the state `raw`.
    ///
    /// # Errors
    ///
    /// Returns the first number that no controller can hold ([`RawController::first_unsound`]).
    pub fn resumed(raw: RawController) -> Result<Self, Register>
        ensures sound { IsOk result ↔ IsSound raw }
        ensures refused { IfErr result (λ register. first_unsound raw ≡ Some register) }
        ensures value { IfOk result (λ controller. (controller ≡ raw) × (first_unsound raw ≡ None)) }
    {
        match raw.first_unsound() {
            None => Ok(Controller { raw }),
            Some(register) => Err(register),
        }
    }

    /// Returns a copy of the controller.
    #[inline(always)]
    pub fn copied(&self) -> Self
        ensures { result ≡ self.now }
    {
        Controller { raw: self.raw }
    }

    /// Decides on an arriving packet. The caller then queues the packet, marks and queues it, or drops it. Tail drop by
    /// bytes is tested first, then tail drop by packets, then early drop if the controller is active (RFC 8033,
    /// sections 4.1, 5.1, 5.4 and Appendix A). If an inactive controller's queue then holds at least a third of
    /// `limit_bytes`, the controller is reset and activated (RFC 8033, section 5.3; the third is this project's own).
    #[inline(always)]
    #[tactic(auto, using(crate::proofs::Laws::represents_with))]
    pub fn arrive(&mut self, arrival: ArrivingPacket, moment: Nanos) -> Verdict
        requires { arrival.queued ≤ 2 ^ 30 }
        ensures verdict { result ≡ verdict self.old arrival }
        ensures fits { is_queued result ≡ true → (arrival.is_full ≡ false) × (arrival.queued + arrival.size ≤ 2 ^ 30) }
        ensures after { self.new ≡ arrived self.old arrival moment }
        ensures represents { RepresentsCall self.old (Arrive arrival moment) self.new }
    {
        self.raw.arrive(arrival, moment.units())
    }

    /// Returns the cause that would decide on an arriving packet now: the first case of the rules that holds, with the
    /// numbers that it compares. Its verdict is that of `arrive`. The controller is unchanged. `packets` is the number
    /// of packets in the queue; the cause reports it if the ring is full.
    pub fn cause(&self, arrival: ArrivingPacket, packets: u64) -> Cause
        requires { arrival.queued ≤ 2 ^ 30 }
        ensures cause { result ≡ cause self.now arrival packets }
        ensures verdict { verdict_of result ≡ verdict self.now arrival }
    {
        self.raw.cause(arrival, packets)
    }

    /// Returns the state as plain numbers.
    #[inline(always)]
    pub fn raw(&self) -> RawController
        ensures state { result ≡ self.now }
        ensures sound { IsSound self.now }
    {
        self.raw
    }

    /// Adds the departure of a packet of `size` bytes that leaves `bytes_left` bytes in the queue and arrived at the
    /// effective moment `since`. It feeds the departure rate or, if the delay comes from time stamps, the packet's time
    /// in the queue (RFC 8033, sections 4.3 and 5.2). For an inactive controller only the moment counts.
    #[inline(always)]
    pub fn depart(&mut self, size: u32, bytes_left: u64, since: Nanos, moment: Nanos)
        ensures after { self.new ≡ departed self.old size bytes_left since moment }
        ensures threshold { self.old.params.dq_threshold ≤ 65536 }
        ensures represents { RepresentsCall self.old (Depart size bytes_left since moment) self.new }
    {
        self.raw
            .depart(size, bytes_left, since.units(), moment.units());
    }

    /// Adds a departure that found no packet. Only its moment counts.
    #[inline(always)]
    #[tactic(auto, using(crate::proofs::Laws::represents_with))]
    pub fn advance_to(&mut self, moment: Nanos)
        ensures after { self.new ≡ advanced self.old moment }
        ensures represents { RepresentsCall self.old (Advance moment) self.new }
    {
        self.raw.advance_to(moment.units());
    }

    /// Makes an update, with `queued` bytes in the queue, and returns its delay (RFC 8033, sections 4.2, 4.4 and 5.5).
    /// In profile two a calm update deactivates the controller. For an inactive controller only the moment counts, and
    /// the delay is 0. The function does not test whether the update is due.
    #[inline(never)]
    #[tactic(auto, using(crate::proofs::Laws::represents_with))]
    pub fn update(&mut self, queued: u64, moment: Nanos) -> u64
        requires { queued ≤ 2 ^ 30 }
        ensures delay { result ≡ delay_answered self.old queued }
        ensures after { self.new ≡ updated self.old queued moment }
        ensures represents { RepresentsCall self.old (Update queued moment) self.new }
    {
        self.raw.update(queued, moment.units())
    }

    /// Makes a reset: probability, old delay, accumulated probability, rate estimate and the last packet's time in the
    /// queue become 0, and the burst allowance becomes `max_burst`. Parameters, last update and activity are unchanged.
    #[tactic(auto, using(crate::proofs::Laws::represents_with))]
    pub fn reset(&mut self, moment: Nanos)
        ensures after { self.new ≡ reset self.old moment }
        ensures represents { RepresentsCall self.old (Restart moment) self.new }
    {
        self.raw.reset(moment.units());
    }

    /// Sets new parameters and clears the rate estimate. The rest of the state is unchanged.
    #[tactic(auto, using(crate::proofs::Laws::represents_with))]
    pub fn set_params(&mut self, params: Params, moment: Nanos)
        ensures after { self.new ≡ changed self.old params moment }
        ensures represents { RepresentsCall self.old (Change params moment) self.new }
    {
        self.raw.set_params(params.raw(), moment.units());
    }

    /// Returns the queueing delay of `queued` bytes, in nanoseconds: at most `2^40` (RFC 8033, section 5.2). With time
    /// stamps it is the time that the last departed packet spent in the queue, or 0 if it left the queue empty, for any `queued` (section 4.3).
    pub fn delay(&self, queued: u64) -> u64
        requires { queued ≤ 2 ^ 30 }
        ensures value { result ≡ delay_in self.now queued }
        ensures within { result ≤ 2 ^ 40 }
    {
        self.raw.delay(queued)
    }

    /// Returns true if an update at `moment` is too soon: the effective moment is then before the due moment.
    #[inline(always)]
    pub fn is_too_soon(&self, moment: Nanos) -> bool
        ensures { result ≡ is_too_soon self.now moment }
    {
        self.raw.is_too_soon(moment.units())
    }

    /// Returns the due moment, from which on an update is not too soon, in nanoseconds: the moment of the last update
    /// plus `t_update`.
    pub fn due(&self) -> u64
        ensures { result ≡ due self.now }
    {
        self.raw.due()
    }

    /// Returns the parameters in force.
    #[inline(always)]
    pub fn params(&self) -> Params
        ensures { result ≡ self.now.params }
    {
        Params::in_range(self.raw.params)
    }

    /// Returns the effective moment: the greatest of all moments up to now.
    #[inline(always)]
    pub fn moment(&self) -> Nanos
        ensures { result ≡ self.now.moment }
    {
        Nanos::of_units(self.raw.moment)
    }
}
