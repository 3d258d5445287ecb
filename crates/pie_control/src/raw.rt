//! The control law over plain numbers.
ghost use Rattle.std.specs.Prelude.{◌≡◌, ◌^◌, ◌≤◌};
ghost use Rattle.pie_params.specs.Params.{IsInRange};
ghost use Rattle.pie_control.specs.declared.update.TheConstants.{MAX_DELAY};
ghost use Rattle.pie_control.specs.{burst_after, ends_calm, next};

use crate::update::{are_below_half, next};
use pie_params::{Elements, RawParams};

/// State of the control law as plain numbers, which may be out of range. Its rules are [`Control`](crate::Control)'s.
#[derive(Clone, Copy, PartialEq, Eq)]
pub struct RawControl {
    /// The probability of a drop or mark, in units of `10^-12` (RFC 8033, section 4.2).
    pub prob: u64,
    /// The old delay, the delay of the last update, in nanoseconds (RFC 8033, section 4.2).
    pub old_delay: u64,
    /// The burst allowance, in nanoseconds (RFC 8033, section 4.4).
    pub burst: u64,
    /// The moment of the last update, or of the opening, in nanoseconds.
    pub last: u64,
}

impl RawControl {
    /// Makes the state at an opening, as [`Control::opened`](crate::Control::opened) does.
    #[inline(always)]
    pub fn opened(max_burst: u64, moment: u64) -> RawControl
        ensures { result ≡ record { prob = 0; old_delay = 0; burst = max_burst; last = moment } }
    {
        RawControl {
            prob: 0,
            old_delay: 0,
            burst: max_burst,
            last: moment,
        }
    }

    /// Makes a reset, as [`Control::reset`](crate::Control::reset) does.
    #[inline(always)]
    pub fn reset(&mut self, max_burst: u64)
        ensures { self.new ≡ record self.old { prob = 0; old_delay = 0; burst = max_burst } }
    {
        *self = RawControl::opened(max_burst, self.last);
    }

    /// Makes an idle update, as [`Control::idle`](crate::Control::idle) does.
    #[inline(always)]
    pub fn idle(&mut self, moment: u64)
        ensures { self.new ≡ record self.old { last = moment } }
    {
        self.last = moment;
    }

    /// Makes an update, as [`Control::update`](crate::Control::update) does. Probability and old delay are in their
    /// ranges. This function and its callees are inlined, so that parameters and state stay in processor registers.
    #[inline(always)]
    pub fn update(
        &mut self,
        params: &RawParams,
        elements: Elements,
        delay: u64,
        moment: u64,
    ) -> bool
        requires params { IsInRange params.now }
        requires prob { self.old.prob ≤ 10 ^ 12 }
        requires old { self.old.old_delay ≤ MAX_DELAY }
        requires delay { delay ≤ MAX_DELAY }
        ensures calm { result ≡ ends_calm params.now self.new.prob delay self.old.old_delay }
        ensures after { self.new ≡ record {
          prob = next elements params.now self.old.prob delay self.old.old_delay;
          old_delay = delay;
          burst = burst_after elements params.now self.old delay;
          last = moment;
        } }
        ensures within { self.new.prob ≤ 10 ^ 12 }
    {
        let prob = next(params, elements, self.prob, delay, self.old_delay).units();
        let calm = prob == 0 && are_below_half(params, delay, self.old_delay);
        let reduced = self.burst.saturating_sub(params.t_update);
        *self = RawControl {
            prob,
            old_delay: delay,
            burst: if calm { params.max_burst } else { reduced },
            last: moment,
        };
        calm
    }
}
