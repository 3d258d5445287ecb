//! The soundness of a controller's state.
ghost use Rattle.std.specs.Prelude.{◌≡◌, ◌↔◌, None};
ghost use Rattle.pie_aqm.specs.{IsSound, first_unsound, is_sound_at};

use crate::{Profile, RawController};
use pie_control::MAX_DELAY;
pub use pie_event::Register;
use pie_fixed::{ALWAYS_PICKED, MAX_NANOS, ONE};
use pie_params::Params;

/// The greatest burst allowance, in nanoseconds.
const MAX_BURST: u64 = 1_000_000_000_000;

/// All numbers, in the order of the checks.
const REGISTERS: [Register; 12] = [
    Register::Params,
    Register::Moment,
    Register::Prob,
    Register::OldDelay,
    Register::Accu,
    Register::Burst,
    Register::Last,
    Register::Average,
    Register::CycleStart,
    Register::CycleCount,
    Register::Waited,
    Register::Active,
];

impl RawController {
    /// Returns the first number that no controller can hold, in the order of [`Register`]: it is out of its range or
    /// contradicts the numbers before it. Returns `None` if the state is sound.
    pub(crate) fn first_unsound(&self) -> Option<Register>
        ensures first { result ≡ first_unsound self.now }
        ensures sound { (result ≡ None) ↔ IsSound self.now }
    {
        self.find_unsound()
    }

    /// Returns the first number that no controller can hold. Split from `first_unsound` for the proof of its clause
    /// `sound`.
    #[tactic(auto, unfolding(crate::specs::Steps::first_unsound))]
    fn find_unsound(&self) -> Option<Register>
        ensures { result ≡ first_unsound self.now }
    {
        REGISTERS
            .iter()
            .copied()
            .find(|&register| !self.is_sound_at(register))
    }

    /// Returns true if the number `register` is sound.
    #[tactic(auto, using(std::proofs::lemmas::Bool::Decides::nat_tests))]
    fn is_sound_at(&self, register: Register) -> bool
        ensures { result ≡ is_sound_at self.now register }
    {
        match register {
            Register::Params => Params::from_raw(self.params).is_some(),
            Register::Moment => self.moment <= MAX_NANOS,
            Register::Prob => self.control.prob <= ONE,
            Register::OldDelay => self.control.old_delay <= MAX_DELAY,
            Register::Accu => self.accu < ALWAYS_PICKED,
            Register::Burst => self.control.burst <= MAX_BURST,
            Register::Last => self.control.last <= self.moment,
            Register::Average => self.rate.average <= MAX_NANOS,
            Register::CycleStart => match self.rate.begun {
                Some(cycle) => cycle.start <= self.moment,
                None => true,
            },
            Register::CycleCount => match self.rate.begun {
                Some(cycle) => cycle.count < self.params.dq_threshold,
                None => true,
            },
            Register::Waited => self.waited <= MAX_DELAY,
            Register::Active => match self.profile {
                Profile::One => self.active,
                Profile::Two => true,
            },
        }
    }
}
