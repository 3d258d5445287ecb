//! The state of a controller, and the result of an update, in the layout of C.
ghost use Rattle.std.specs.Prelude.{◌≡◌, max, true};
ghost use Rattle.pie_c.specs.{controller_state, is_sound, state_of, with_arrival, with_rate, with_registers, IsSound, nothing_updated, updated_with};

use pie_aqm::RawController;
use pie_params::RawParams;

/// The controller's state, which its caller owns: the parameters in force, the numbers of the rules, the profile and
/// the activity. Times are in nanoseconds, probabilities in units of `10^-12` (RFC 8033, sections 4.2, 4.4, 5.2, 5.3
/// and 5.4; the scales are this project's own).
#[repr(C)]
#[derive(Clone, Copy)]
pub struct PieState {
    /// The parameters in force.
    pub params: RawParams,
    /// The effective moment: the greatest of all moments up to now, at most `2^60 - 1`.
    pub moment: u64,
    /// The probability of a drop or mark, 0 to 10^12.
    pub prob: u64,
    /// The delay of the last update, at most `2^40`.
    pub old_delay: u64,
    /// The burst allowance, at most 10^12.
    pub burst: u64,
    /// The moment of the last update, or of the opening.
    pub last: u64,
    /// The accumulated probability, below 8.5.
    pub accu: u64,
    /// The average time in which `dq_threshold` bytes depart, below `2^60`; 0 without a sample.
    pub average: u64,
    /// 1 if a cycle of the departure rate is open, otherwise 0.
    pub measuring: u64,
    /// The moment at which the open cycle began; 0 without one.
    pub cycle_start: u64,
    /// The bytes that the open cycle has counted, below `dq_threshold`; 0 without one.
    pub cycle_count: u64,
    /// The profile: 1 or 2. In profile one the controller is always active, in profile two it switches itself.
    pub profile: u64,
    /// 1 if the controller is active, otherwise 0; always 1 in profile one.
    pub active: u64,
    /// The optional elements of RFC 8033 that differ from the default, as flags: 1 the delay from time stamps, 2 random
    /// picking, 4 steps without a cap, 8 packets scaled by their size, 16 the decay below half the target; at most 31.
    pub choices: u64,
    /// The time that the last departed packet spent in the queue, at most `2^40`; 0 unless delays come from time
    /// stamps.
    pub waited: u64,
}

impl PieState {
    /// Moves the moment to `moment` if that is later. It uses a branch instead of a maximum: if the processor predicts
    /// the branch, the next call does not depend on the result of this one.
    #[inline(always)]
    pub(crate) fn reach(&mut self, moment: u64)
        ensures { self.new ≡ record self.old { moment = max self.old.moment moment } }
    {
        if moment > self.moment {
            self.moment = moment;
        }
    }

    /// Writes the changes of an arrival except the moment, which the state already has: the accumulated probability,
    /// and all numbers if the arrival activated the controller.
    #[inline(always)]
    pub(crate) fn keep_arrived(&mut self, controller: &RawController)
        requires { controller.now.moment ≡ self.old.moment }
        ensures { self.new ≡ with_arrival self.old controller.now }
    {
        if controller.active && self.active != 1 {
            self.keep_registers(controller);
            return;
        }
        self.accu = controller.accu;
    }

    /// Writes all numbers of the rules, and the activity.
    pub(crate) fn keep_registers(&mut self, controller: &RawController)
        ensures { self.new ≡ with_registers self.old controller.now }
    {
        self.keep_departed(controller);
        self.keep_control(controller);
        self.accu = controller.accu;
        self.active = u64::from(controller.active);
        self.waited = controller.waited;
    }

    /// Writes the changes of a departure, and those of new parameters except the parameters: the moment and the
    /// estimate of the departure rate.
    #[inline(always)]
    pub(crate) fn keep_departed(&mut self, controller: &RawController)
        ensures { self.new ≡ with_rate self.old controller.now }
    {
        self.moment = controller.moment;
        self.average = controller.rate.average;
        (self.measuring, self.cycle_start, self.cycle_count) = match controller.rate.begun {
            Some(cycle) => (1, cycle.start, cycle.count),
            None => (0, 0, 0),
        };
    }

    /// Writes the changes of a departure that leaves an open cycle of the departure rate open: its count and the
    /// moment.
    #[inline(always)]
    pub(crate) fn keep_counted(&mut self, count: u64, moment: u64)
        ensures { self.new ≡ record self.old { moment = max self.old.moment moment; cycle_count = count } }
    {
        self.moment = self.moment.max(moment);
        self.cycle_count = count;
    }

    /// Writes the change of a departure that meets no open cycle and opens none: the moment.
    #[inline(always)]
    pub(crate) fn keep_unmeasured(&mut self, moment: u64)
        ensures { self.new ≡ record self.old { moment = max self.old.moment moment; measuring = 0; cycle_start = 0; cycle_count = 0 } }
    {
        (self.measuring, self.cycle_start, self.cycle_count) = (0, 0, 0);
        self.moment = self.moment.max(moment);
    }

    /// Writes the changes of an update: the moment, the state of the control law, and the activity.
    #[inline(always)]
    pub(crate) fn keep_updated(&mut self, controller: &RawController)
        requires sound { is_sound self.old ≡ true }
        requires same { controller.now ≡ record (controller_state self.old)
            { moment = controller.now.moment; active = controller.now.active; control = controller.now.control } }
        ensures { self.new ≡ state_of controller.now }
    {
        self.moment = controller.moment;
        self.keep_control(controller);
        self.active = u64::from(controller.active);
    }

    /// Writes the state of the control law.
    #[inline(always)]
    fn keep_control(&mut self, controller: &RawController)
        ensures { self.new ≡ record self.old {
          prob = controller.now.control.prob;
          old_delay = controller.now.control.old_delay;
          burst = controller.now.control.burst;
          last = controller.now.control.last;
        } }
    {
        self.prob = controller.control.prob;
        self.old_delay = controller.control.old_delay;
        self.burst = controller.control.burst;
        self.last = controller.control.last;
    }
}

/// The result of an update.
#[repr(C)]
#[derive(Clone, Copy)]
pub struct PieUpdated {
    /// 0, or the code of the refusal.
    pub code: u64,
    /// The due moment of the next update, in nanoseconds.
    pub due: u64,
    /// The delay of the update, in nanoseconds; 0 while the controller is inactive.
    pub delay: u64,
    /// The probability after the update, in units of `10^-12`.
    pub prob: u64,
    /// The burst allowance after the update, in nanoseconds.
    pub burst: u64,
}

impl PieUpdated {
    /// Makes the result of an update that is refused for its arguments or its state.
    pub(crate) fn refused(code: u32) -> PieUpdated
        ensures { result ≡ nothing_updated code }
    {
        PieUpdated {
            code: u64::from(code),
            due: 0,
            delay: 0,
            prob: 0,
            burst: 0,
        }
    }

    /// Makes the result of an update with this code and this delay, from the controller.
    pub(crate) fn made(code: u32, delay: u64, controller: &RawController) -> PieUpdated
        requires { IsSound controller.now }
        ensures { result ≡ updated_with code delay controller.now }
    {
        PieUpdated {
            code: u64::from(code),
            due: controller.due(),
            delay,
            prob: controller.control.prob,
            burst: controller.control.burst,
        }
    }
}
