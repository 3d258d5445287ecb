//! The control law for numbers in their ranges.
ghost use Rattle.std.specs.Prelude.{◌≡◌, ℕ, ◌^◌, ◌≤◌, List, [], ◌∷◌, ◌++◌, if◌then◌else◌};
ghost use Rattle.pie_params.specs.declared.raw.RawParams.{RawParams};
ghost use Rattle.pie_control.specs.declared.update.TheConstants.{MAX_DELAY};
ghost use Rattle.pie_control.specs.{ControlEvent, idled, reset, update_at, Represents, burst_after, ends_calm, granted_burst, is_calm_after, next};

use crate::raw::RawControl;
use pie_fixed::{Nanos, Prob};
use pie_params::{Elements, Params};
use std::marker::Model;

/// State of the control law: the probability, the old delay, the burst allowance and the moment of the last update.
#[derive(Clone, Copy)]
pub struct Control {
    raw: RawControl,
}

impl Model for Control {
    ghost use Rattle.pie_control.specs.History.{IsWithin, ControlState};

    ghost Value = { ControlState };

    ghost view = { λ c. c.raw };

    ghost invariant = { λ c. IsWithin c.raw };

    ghost inverse = { λ p. record { raw = p } };
}

impl Control {
    /// Makes the state at an opening: probability and old delay are 0, the burst allowance is `max_burst`, and the
    /// moment of the last update is `moment`, the opening's (RFC 8033, sections 4.2 and 4.4).
    pub fn opened(params: &Params, moment: Nanos) -> Self
        ensures prob { result.prob ≡ 0 }
        ensures old { result.old_delay ≡ 0 }
        ensures burst { result.burst ≡ params.now.max_burst }
        ensures last { result.last ≡ moment }
        ensures represents { Represents params.now moment [] result }
    {
        Control {
            raw: RawControl::opened(params.max_burst().units(), moment.units()),
        }
    }

    /// Makes a state from its numbers. `old` is at most [`MAX_DELAY`](crate::MAX_DELAY), `burst` at most 10^12
    /// nanoseconds.
    pub fn from_parts(prob: Prob, old: u64, burst: u64, last: Nanos) -> Self
        requires old { old ≤ MAX_DELAY }
        requires burst { burst ≤ 10 ^ 12 }
        ensures prob { result.prob ≡ prob }
        ensures old { result.old_delay ≡ old }
        ensures burst { result.burst ≡ burst }
        ensures last { result.last ≡ last }
    {
        Control {
            raw: RawControl {
                prob: prob.units(),
                old_delay: old,
                burst,
                last: last.units(),
            },
        }
    }

    /// Makes an update. `delay` is at most [`MAX_DELAY`](crate::MAX_DELAY) nanoseconds.
    ///
    /// - The probability becomes the next one, computed from `delay` and the old delay, with the step and decay of
    ///   `elements`.
    /// - The burst allowance decreases by `t_update`. After a calm update it becomes `max_burst`.
    /// - `delay` becomes the old delay, and `moment` the moment of the last update (RFC 8033, sections 4.2, 4.4 and
    ///   5.5).
    ///
    /// Returns true if the update is calm: the probability after it is 0, and `delay` and the old delay are each below
    /// half the target (RFC 8033, section 4.4).
    pub fn update(&mut self, params: &Params, elements: Elements, delay: u64, moment: Nanos) -> bool
        requires { delay ≤ MAX_DELAY }
        ensures calm { result ≡ ends_calm params.now self.new.prob delay self.old.old_delay }
        ensures prob { self.new.prob ≡ next elements params.now self.old.prob delay self.old.old_delay }
        ensures old { self.new.old_delay ≡ delay }
        ensures burst { self.new.burst ≡ burst_after elements params.now self.old delay }
        ensures last { self.new.last ≡ moment }
        ensures represents { (opening : RawParams) (start : ℕ) (events : List ControlEvent) →
            Represents opening start events self.old →
            Represents opening start (events ++ update_at params.now elements delay moment ∷ []) self.new }
        ensures look_back { (opening : RawParams) (start : ℕ) (events : List ControlEvent) →
            Represents opening start events self.old → result ≡ is_calm_after events params.now elements delay }
    {
        self.raw
            .update(&params.raw(), elements, delay, moment.units())
    }

    /// Makes an idle update: `moment` becomes the moment of the last update, and everything else is unchanged (this
    /// project's own).
    pub fn idle(&mut self, moment: Nanos)
        ensures after { self.new ≡ record self.old { last = moment } }
        ensures represents { (opening : RawParams) (start : ℕ) (events : List ControlEvent) →
            Represents opening start events self.old →
            Represents opening start (events ++ idled moment ∷ []) self.new }
    {
        self.raw.idle(moment.units());
    }

    /// Sets probability and old delay to 0 and the burst allowance to `max_burst`. The moment of the last update is
    /// unchanged (this project's own).
    pub fn reset(&mut self, params: &Params)
        ensures prob { self.new.prob ≡ 0 }
        ensures old { self.new.old_delay ≡ 0 }
        ensures burst { self.new.burst ≡ params.now.max_burst }
        ensures last { self.new.last ≡ self.old.last }
        ensures represents { (opening : RawParams) (start : ℕ) (events : List ControlEvent) →
            Represents opening start events self.old →
            Represents opening start (events ++ reset params.now ∷ []) self.new }
    {
        self.raw.reset(params.max_burst().units());
    }

    /// Returns the probability of a drop or mark (RFC 8033, section 4.2).
    pub fn prob(&self) -> Prob
        ensures { result ≡ self.now.prob }
    {
        Prob::of_units(self.raw.prob)
    }

    /// Returns the old delay, the delay of the last update, in nanoseconds, at most [`MAX_DELAY`](crate::MAX_DELAY)
    /// (RFC 8033, section 4.2).
    pub fn old(&self) -> u64
        ensures value { result ≡ self.now.old_delay }
        ensures within { self.now.old_delay ≤ MAX_DELAY }
    {
        self.raw.old_delay
    }

    /// Returns the burst allowance, in nanoseconds, at most 10^12 (RFC 8033, section 4.4).
    #[tactic(auto, using(crate::proofs::Laws::burst_granted))]
    pub fn burst(&self) -> u64
        ensures value { result ≡ self.now.burst }
        ensures within { self.now.burst ≤ 10 ^ 12 }

        // at most the `max_burst` in force when the allowance was last set to it
        ensures granted { (opening : RawParams) (start : ℕ) (events : List ControlEvent) →
            Represents opening start events self.now → self.now.burst ≤ granted_burst opening events }
    {
        self.raw.burst
    }

    /// Returns the moment of the last update, or of the opening (RFC 8033, section 4.2).
    pub fn last(&self) -> Nanos
        ensures { result ≡ self.now.last }
    {
        Nanos::of_units(self.raw.last)
    }

    /// Returns the state as plain numbers.
    #[inline(always)]
    pub fn raw(&self) -> RawControl
        ensures { result ≡ self.now }
    {
        self.raw
    }
}
