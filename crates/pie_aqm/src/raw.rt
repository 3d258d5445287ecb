//! The controller's rules over plain numbers.
ghost use Rattle.std.specs.Prelude.{◌≡◌, ◌+◌, ◌^◌, ◌<◌, ◌≤◌, ℕ, IfSome, max, min, true, false};
ghost use Rattle.pie_event.specs.Cause.{verdict_named, verdict_of, name_of, is_queued};
ghost use Rattle.pie_aqm.specs.{IsSound, accu_left, anew, arrived, capped, cause, changed, count_kept_open, delay_answered, delay_in, departed, due, is_too_soon, is_between_cycles, measures, opened, opens_active, advanced, reset, updated, verdict, wait_of, with_count};

use crate::verdict::activates;
use crate::{ArrivingPacket, Cause, CauseName, Profile, Verdict};
use pie_control::{MAX_DELAY, RawControl};
use pie_early::decide;
use pie_params::{Delay, Elements, Picking, RawParams, Size};
use pie_queue::Ecn;
use pie_rate::{MAX_THRESHOLD, RawRate};

/// The state of a [`Controller`](crate::Controller) as plain numbers, which may be out of range: the controller's
/// rules, combined from those of its parts.
///
/// The calls check nothing. Calls for a packet accept any numbers: no sum or product overflows. An update, its delay
/// and its due moment require numbers in their ranges.
#[derive(Clone, Copy)]
pub struct RawController {
    /// The profile.
    pub profile: Profile,
    /// The chosen optional elements of RFC 8033.
    pub elements: Elements,
    /// The parameters in force.
    pub params: RawParams,
    /// The effective moment, in nanoseconds: the greatest of all moments up to now.
    pub moment: u64,
    /// True if the controller is active.
    pub active: bool,
    /// The estimate of the departure rate.
    pub rate: RawRate,
    /// If the delay comes from time stamps, the time that the last packet spent in the queue that departed while the
    /// controller was active, in nanoseconds: at most `2^40`; 0 if it left the queue empty, and after a reset.
    /// Otherwise 0 (RFC 8033, section 4.3).
    pub waited: u64,
    /// The state of the control law.
    pub control: RawControl,
    /// The accumulated probability, in units of `10^-12`.
    pub accu: u64,
}

impl RawController {
    /// Makes the state at an opening, as [`Controller::open`](crate::Controller::open) does.
    #[inline(always)]
    pub fn opened(
        profile: Profile,
        elements: Elements,
        params: RawParams,
        moment: u64,
    ) -> RawController
        ensures { result ≡ opened profile elements params moment }
    {
        RawController {
            profile,
            elements,
            params,
            moment,
            active: opens_active(profile),
            rate: RawRate::cleared(),
            waited: 0,
            control: RawControl::opened(params.max_burst, moment),
            accu: 0,
        }
    }

    /// Decides on an arriving packet, as [`Controller::arrive`](crate::Controller::arrive) does, and also returns the
    /// name of its [`cause`](crate::Controller::cause).
    #[inline(always)]
    pub fn arrive_with_name(&mut self, arrival: ArrivingPacket, moment: u64) -> (Verdict, CauseName)
        requires { arrival.queued ≤ 2 ^ 30 }
        ensures verdict { result.0 ≡ verdict self.old arrival }
        ensures name { (packets : ℕ) → result.1 ≡ name_of (cause self.old arrival packets) }
        ensures fits { is_queued result.0 ≡ true → (arrival.is_full ≡ false) × (arrival.queued + arrival.size ≤ self.old.params.limit_bytes) }
        ensures after { self.new ≡ arrived self.old arrival moment }
    {
        self.arrive_by(self.elements, arrival, moment)
    }

    /// Decides on an arriving packet and returns the verdict alone. Accumulation without scaled sizes has a path of its
    /// own, compiled without a test of the choices. All other choices are a call.
    #[inline(always)]
    pub(crate) fn arrive(&mut self, arrival: ArrivingPacket, moment: u64) -> Verdict
        requires { arrival.queued ≤ 2 ^ 30 }
        ensures verdict { result ≡ verdict self.old arrival }
        ensures fits { is_queued result ≡ true → (arrival.is_full ≡ false) × (arrival.queued + arrival.size ≤ self.old.params.limit_bytes) }
        ensures after { self.new ≡ arrived self.old arrival moment }
    {
        match (self.elements.picking, self.elements.size) {
            (Picking::Derandomized, Size::Unscaled) => {
                let elements = Elements {
                    picking: Picking::Derandomized,
                    size: Size::Unscaled,
                    ..self.elements
                };
                self.arrive_by(elements, arrival, moment).0
            }
            _ => self.arrive_out_of_line(
                arrival.queued,
                arrival.is_full,
                arrival.size,
                arrival.ecn,
                arrival.word,
                moment,
            ),
        }
    }

    /// Decides on an arriving packet in a function that is not inlined. It takes the arrival's fields, because a struct
    /// would be passed through memory.
    #[inline(never)]
    fn arrive_out_of_line(
        &mut self,
        queued: u64,
        is_full: bool,
        size: u32,
        ecn: Ecn,
        word: u64,
        moment: u64,
    ) -> Verdict
        requires { queued ≤ 2 ^ 30 }
        ensures verdict { result ≡ verdict self.old (record { queued = queued; is_full = is_full; size = size; ecn = ecn; word = word }) }
        ensures fits { is_queued result ≡ true → (is_full ≡ false) × (queued + size ≤ self.old.params.limit_bytes) }
        ensures after { self.new
            ≡ arrived self.old (record { queued = queued; is_full = is_full; size = size; ecn = ecn; word = word }) moment }
    {
        let arrival = ArrivingPacket {
            queued,
            is_full,
            size,
            ecn,
            word,
        };
        self.arrive_with_name(arrival, moment).0
    }

    /// Decides on an arriving packet with `elements`, which are the controller's own.
    #[inline(always)]
    fn arrive_by(
        &mut self,
        elements: Elements,
        arrival: ArrivingPacket,
        moment: u64,
    ) -> (Verdict, CauseName)
        requires queued { arrival.queued ≤ 2 ^ 30 }
        requires own { elements ≡ self.old.elements }
        ensures verdict { result.0 ≡ verdict self.old arrival }
        ensures name { (packets : ℕ) → result.1 ≡ name_of (cause self.old arrival packets) }
        ensures fits { is_queued result.0 ≡ true → (arrival.is_full ≡ false) × (arrival.queued + arrival.size ≤ self.old.params.limit_bytes) }
        ensures after { self.new ≡ arrived self.old arrival moment }
    {
        let (name, accu) = self.judge(elements, arrival);
        let verdict = name.verdict();
        self.accu = accu;
        self.advance_to(moment);
        if activates(self.active, self.params.limit_bytes, verdict, arrival) {
            self.start_anew();
            self.active = true;
        }
        (verdict, name)
    }

    /// Returns the name of the cause that decides on an arriving packet, and the accumulated probability after it. Tail
    /// drop by bytes is tested first, then tail drop by packets, then early drop if the controller is active (RFC 8033,
    /// sections 4.1, 5.1, 5.4 and Appendix A).
    #[inline(always)]
    #[tactic(auto, unfolding(crate::specs::Steps::cause, crate::specs::Steps::verdict, crate::specs::Steps::accu_left))]
    fn judge(&self, elements: Elements, arrival: ArrivingPacket) -> (CauseName, u64)
        requires queued { arrival.queued ≤ 2 ^ 30 }
        requires own { elements ≡ self.now.elements }
        ensures name { (packets : ℕ) → result.0 ≡ name_of (cause self.now arrival packets) }
        ensures verdict { verdict_named result.0 ≡ verdict self.now arrival }
        ensures accu { result.1 ≡ accu_left self.now arrival }
        ensures fits { is_queued (verdict_named result.0) ≡ true → (arrival.is_full ≡ false) × (arrival.queued + arrival.size ≤ self.now.params.limit_bytes) }
    {
        if self.params.limit_bytes < arrival.queued + u64::from(arrival.size) {
            return (CauseName::NoRoomInBytes, 0);
        }
        if arrival.is_full {
            return (CauseName::NoRoomInPackets, 0);
        }
        if !self.active {
            return (CauseName::Inactive, self.accu);
        }
        let decision = decide(
            &self.params,
            elements,
            &self.control,
            arrival.offered(),
            self.accu,
        );
        (decision.name, decision.accu)
    }

    /// Returns the cause that would decide on an arriving packet, as [`Controller::cause`](crate::Controller::cause)
    /// does.
    #[tactic(auto, unfolding(crate::specs::Steps::cause, crate::specs::Steps::verdict))]
    pub(crate) fn cause(&self, arrival: ArrivingPacket, packets: u64) -> Cause
        requires { arrival.queued ≤ 2 ^ 30 }
        ensures cause { result ≡ cause self.now arrival packets }
        ensures verdict { verdict_of result ≡ verdict self.now arrival }
    {
        let limit = self.params.limit_bytes;
        if limit < arrival.queued + u64::from(arrival.size) {
            return Cause::NoRoomInBytes {
                bytes: arrival.queued,
                size: arrival.size,
                limit,
            };
        }
        if arrival.is_full {
            return Cause::NoRoomInPackets { packets };
        }
        if !self.active {
            return Cause::Inactive;
        }
        pie_early::cause(
            &self.params,
            self.elements,
            &self.control,
            arrival.offered(),
            self.accu,
        )
    }

    /// Sets probability, old delay, accumulated probability, rate estimate and the last packet's time in the queue to
    /// 0, and the burst allowance to `max_burst`.
    #[inline(always)]
    fn start_anew(&mut self)
        ensures { self.new ≡ anew self.old }
    {
        self.rate = RawRate::cleared();
        self.waited = 0;
        self.control.reset(self.params.max_burst);
        self.accu = 0;
    }

    /// Moves the effective moment to `moment` if that is later.
    #[inline(always)]
    pub fn advance_to(&mut self, moment: u64)
        ensures { self.new ≡ record self.old { moment = max self.old.moment moment } }
    {
        self.moment = self.moment.max(moment);
    }

    /// Adds a departure, as [`Controller::depart`](crate::Controller::depart) does. A `dq_threshold` above 65536 has
    /// the effect of 65536.
    #[inline(always)]
    pub fn depart(&mut self, size: u32, bytes_left: u64, since: u64, moment: u64)
        ensures { self.new ≡ record (departed (capped self.old) size bytes_left since moment) { params = self.old.params } }
    {
        self.advance_to(moment);
        if self.active {
            match self.elements.delay {
                Delay::Rate => {
                    let threshold = self.threshold();
                    self.rate.departed(size, bytes_left, self.moment, threshold);
                }
                Delay::Stamp => self.waited = wait(bytes_left, since, self.moment),
            }
        }
    }

    /// Returns the count of the open cycle of the departure rate with a departed packet of `size` bytes. Returns `None`
    /// if no cycle is open or the packet closes the cycle. If a count is returned, [`depart`](RawController::depart)
    /// changes only the count and the moment.
    #[inline(always)]
    #[tactic(auto, using(std::proofs::lemmas::Bool::Decides::nat_tests), unfolding(crate::specs::Steps::count_kept_open))]
    pub fn counted(&self, size: u32) -> Option<u64>
        ensures count { result ≡ count_kept_open self.now size }
        ensures alone { (bytes_left since moment : ℕ) → IfSome result (λ count. departed (capped self.now) size bytes_left since moment
            ≡ with_count (capped self.now) count moment) }
    {
        if !self.measures() {
            return None;
        }
        let cycle = self.rate.begun?;
        cycle.counted(size, self.threshold())
    }

    /// Returns true if departures are measured, no cycle of the departure rate is open, and a departure that leaves
    /// `bytes_left` bytes opens none. Then [`depart`](RawController::depart) changes only the moment.
    #[inline(always)]
    #[tactic(auto, using(std::proofs::lemmas::Bool::Decides::nat_tests), unfolding(crate::specs::Steps::is_between_cycles))]
    pub fn is_between_cycles(&self, bytes_left: u64) -> bool
        ensures value { result ≡ is_between_cycles self.now bytes_left }
        ensures alone { (size since moment : ℕ) → result ≡ true
            → departed (capped self.now) size bytes_left since moment ≡ advanced (capped self.now) moment }
    {
        self.measures() && self.rate.begun.is_none() && bytes_left < self.threshold()
    }

    /// Returns true if departures are measured: the controller is active, and the delay comes from the departure rate.
    #[inline(always)]
    fn measures(&self) -> bool
        ensures { result ≡ measures self.now.active self.now.elements.delay }
    {
        self.active && matches!(self.elements.delay, Delay::Rate)
    }

    /// Returns the number of bytes that a cycle counts.
    #[inline(always)]
    fn threshold(&self) -> u64
        ensures { result ≡ min self.now.params.dq_threshold 65536 }
    {
        self.params.dq_threshold.min(MAX_THRESHOLD)
    }

    /// Makes an update, as [`Controller::update`](crate::Controller::update) does.
    #[inline(always)]
    #[tactic(auto, using(std::proofs::lemmas::Bool::Decides::nat_tests))]
    pub fn update(&mut self, queued: u64, moment: u64) -> u64
        requires sound { IsSound self.old }
        requires queued { queued ≤ 2 ^ 30 }
        ensures delay { result ≡ delay_answered self.old queued }
        ensures after { self.new ≡ updated self.old queued moment }
    {
        self.advance_to(moment);
        if !self.active {
            self.control.idle(self.moment);
            return 0;
        }
        let delay = self.delay(queued);
        let is_calm = self
            .control
            .update(&self.params, self.elements, delay, self.moment);
        self.active = match self.profile {
            Profile::One => true,
            Profile::Two => !is_calm,
        };
        delay
    }

    /// Makes a reset, as [`Controller::reset`](crate::Controller::reset) does.
    #[inline(always)]
    pub fn reset(&mut self, moment: u64)
        ensures { self.new ≡ reset self.old moment }
    {
        self.advance_to(moment);
        self.start_anew();
    }

    /// Sets new parameters, as [`Controller::set_params`](crate::Controller::set_params) does.
    #[inline(always)]
    pub fn set_params(&mut self, params: RawParams, moment: u64)
        ensures { self.new ≡ changed self.old params moment }
    {
        self.advance_to(moment);
        self.params = params;
        self.rate = RawRate::cleared();
    }

    /// Returns the queueing delay of `queued` bytes, as [`Controller::delay`](crate::Controller::delay) does.
    #[inline(always)]
    pub fn delay(&self, queued: u64) -> u64
        requires average { self.now.rate.average < 2 ^ 60 }
        requires threshold { 0 < self.now.params.dq_threshold }
        requires waited { self.now.waited ≤ 2 ^ 40 }
        requires queued { queued ≤ 2 ^ 30 }
        ensures value { result ≡ delay_in self.now queued }
        ensures within { result ≤ 2 ^ 40 }
    {
        match self.elements.delay {
            Delay::Rate => pie_control::delay(queued, self.rate.average, self.params.dq_threshold),
            Delay::Stamp => self.waited,
        }
    }

    /// Returns true if an update at `moment` is too soon, as
    /// [`Controller::is_too_soon`](crate::Controller::is_too_soon) does.
    #[inline(always)]
    #[tactic(auto, using(std::proofs::lemmas::Bool::Decides::nat_tests))]
    pub fn is_too_soon(&self, moment: u64) -> bool
        requires { IsSound self.now }
        ensures { result ≡ is_too_soon self.now moment }
    {
        self.moment.max(moment) < self.due()
    }

    /// Returns the due moment, as [`Controller::due`](crate::Controller::due) does.
    #[inline(always)]
    pub fn due(&self) -> u64
        requires { IsSound self.now }
        ensures { result ≡ due self.now }
    {
        self.control.last + self.params.t_update
    }
}

/// Returns true if a controller of this profile is active at its opening.
fn opens_active(profile: Profile) -> bool
    ensures { result ≡ opens_active profile }
{
    match profile {
        Profile::One => true,
        Profile::Two => false,
    }
}

/// Returns the time in the queue of a packet that departs at `now`, arrived at `since` and leaves `bytes_left` bytes,
/// in nanoseconds. It is at most `2^40`, and 0 if the queue is empty afterwards (RFC 8033, section 4.3; the maximum is
/// this project's own).
#[inline(never)]
fn wait(bytes_left: u64, since: u64, now: u64) -> u64
    ensures { result ≡ wait_of bytes_left since now }
{
    if bytes_left == 0 {
        0
    } else {
        now.saturating_sub(since).min(MAX_DELAY)
    }
}
