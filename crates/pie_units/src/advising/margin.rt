//! Margins of stability of the control loop at one round-trip time and one window, with the default parameters.
//!
//! The model is that of docs/margins.py, which has its sources. N Reno flows with a window of W packets at a round-trip
//! time R, which includes the target delay, lose a share 2 / W^2 of their packets. The probability is 1.85 times that
//! share, because probabilities accumulate. With angles per round trip, x = w R, the gain of the open loop at a frequency
//! w is
//!
//! |alpha + beta - beta e^-jwT| (R W)^2 / (4 T x 1.85 divisor) / (sqrt(1 + (x W / 2)^2) sqrt(1 + x^2))
//!
//! and its phase lags by pi / 2 + x + atan(x) + atan(x W / 2), less the angle of alpha + beta - beta e^-jwT. T is
//! `t_update`, and the divisor that of auto-tuning (RFC 8033, section 4.2). Everything is fixed-point arithmetic. The
//! results are tested against floating-point numbers, and not proved (tests/program/advise.py).
//!
//! `margins_over` returns the least margins over the ranges of a link.
use crate::advising::numbers::{ONE, RIGHT_ANGLE, angle, logarithm, narrowed, product, sine};
use crate::advising::request::{Range, Request};

/// Margins of stability. The loop is unstable if one is below 0.
#[derive(Clone, Copy)]
pub struct Margins {
    /// The phase margin, in hundredths of a degree.
    pub phase: i64,
    /// The gain margin, in hundredths of a decibel.
    pub gain: i64,
}

/// The target delay, in nanoseconds.
pub(crate) const TARGET: u64 = 15_000_000;

/// The gain `alpha`, per second.
const ALPHA: u64 = 125_000_000;

/// Twice the gain `beta`, per second.
const TWICE_BETA: u64 = 2_500_000_000;

/// The greatest frequency, in billionths of a radian per second: pi over `t_update`. The gain is below 1 there, and the
/// phase lags by more than pi.
const GREATEST: u64 = 209_439_510_239;

/// The number of halvings from `GREATEST` to 1.
const HALVINGS: u32 = 38;

/// The logarithm of the constant 4 T x 1.85 and of the units in the quotient of `levels`: 4 log 10^6 + 2 log 0.111.
const LEVEL: u64 = 73_383_537_441;

/// The least window of the model, in millionths of a packet.
pub(crate) const LEAST_WINDOW: u64 = 2_000_000;

/// The greatest window of the model, in millionths of a packet. The probability is 3.7 x 10^-12 there, and has steps of
/// 10^-12.
pub(crate) const GREATEST_WINDOW: u64 = 1_000_000_000_000;

/// An edge of auto-tuning: the window, in millionths of a packet, above which a greater divisor applies.
#[derive(Clone, Copy)]
pub struct Edge {
    pub window: u64,
    divisor: u64,
}

/// The edges of auto-tuning. The window is the square root of 3.7 over the probability 0.1, 0.01 and so on (RFC 8033,
/// section 4.2).
pub(crate) const EDGES: [Edge; 6] = [
    Edge {
        window: 6_082_762,
        divisor: 2,
    },
    Edge {
        window: 19_235_384,
        divisor: 8,
    },
    Edge {
        window: 60_827_625,
        divisor: 32,
    },
    Edge {
        window: 192_353_840,
        divisor: 128,
    },
    Edge {
        window: 608_276_253,
        divisor: 512,
    },
    Edge {
        window: 1_923_538_406,
        divisor: 2048,
    },
];

/// Returns the auto-tuning divisor at a window, in millionths of a packet.
fn divisor(window: u64) -> u64 {
    let mut divisor = 1;
    for edge in EDGES {
        if window > edge.window {
            divisor = edge.divisor;
        }
    }
    divisor
}

/// The open loop at a round-trip time, in nanoseconds and with the target delay, and a window, in millionths of a
/// packet.
#[derive(Clone, Copy)]
struct Loop {
    trip: u64,
    window: u64,
}

/// The sum of logarithms of a quotient, above and below its line.
#[derive(Clone, Copy)]
struct Levels {
    above: u64,
    below: u64,
}

impl Loop {
    /// Returns the angle of one round trip at a frequency in billionths of a radian per second.
    fn trip_angle(self, frequency: u64) -> u64 {
        product(frequency, self.trip)
    }

    /// Returns an angle times half the window.
    fn half_window(self, angle: u64) -> u64 {
        narrowed(u128::from(angle) * u128::from(self.window) / 2_000_000)
    }

    /// Returns the phase lag.
    fn lag(self, frequency: u64) -> u64 {
        let angle_of_trip = self.trip_angle(frequency);
        let (real, imaginary) = controller(frequency);
        RIGHT_ANGLE
            .saturating_add(angle_of_trip)
            .saturating_add(angle(angle_of_trip, ONE))
            .saturating_add(angle(self.half_window(angle_of_trip), ONE))
            .saturating_sub(angle(imaginary, real))
    }

    /// Returns twice the logarithm of the gain.
    fn levels(self, frequency: u64) -> Levels {
        let angle_of_trip = self.trip_angle(frequency);
        let (real, imaginary) = controller(frequency);
        let carried = u128::from(self.trip) * u128::from(self.window);
        let above = logarithm(squares(real, imaginary)).saturating_add(logarithm(
            carried,
        ).saturating_mul(4));
        let below = logarithm(u128::from(angle_of_trip))
            .saturating_add(logarithm(u128::from(divisor(self.window))))
            .saturating_mul(2)
            .saturating_add(logarithm(squares(ONE, angle_of_trip)))
            .saturating_add(logarithm(squares(ONE, self.half_window(angle_of_trip))))
            .saturating_add(LEVEL);
        Levels { above, below }
    }

    /// Returns the greatest frequency at which the gain is at least 1.
    fn gain_crossing(self) -> u64 {
        let (mut low, mut high) = (1, GREATEST);
        for _ in 0..HALVINGS {
            let middle = middle(low, high);
            let levels = self.levels(middle);
            if levels.above > levels.below {
                low = middle;
            } else {
                high = middle;
            }
        }
        low
    }

    /// Returns the greatest frequency at which the phase lags by less than pi.
    fn phase_crossing(self) -> u64 {
        let (mut low, mut high) = (1, GREATEST);
        for _ in 0..HALVINGS {
            let middle = middle(low, high);
            if self.lag(middle) < 2 * RIGHT_ANGLE {
                low = middle;
            } else {
                high = middle;
            }
        }
        low
    }
}

/// Returns the mean of two numbers, rounded down.
fn middle(low: u64, high: u64) -> u64 {
    ((u128::from(low) + u128::from(high)) / 2) as u64
}

/// Returns the sum of two squares.
fn squares(left: u64, right: u64) -> u128 {
    let (left, right) = (u128::from(left), u128::from(right));
    (left * left).saturating_add(right * right)
}

/// Returns the real and the imaginary part of alpha + beta - beta e^-jwT at a frequency w: with the half angle h = w T / 2
/// they are alpha + 2 beta sin^2 h and 2 beta sin h cos h.
fn controller(frequency: u64) -> (u64, u64) {
    let half = product(frequency, 7_500_000).min(RIGHT_ANGLE);
    let sine_of_half = sine(half);
    let lead = product(TWICE_BETA, sine_of_half);
    let cosine = sine(RIGHT_ANGLE.saturating_sub(half));
    (
        ALPHA.saturating_add(product(lead, sine_of_half)),
        product(lead, cosine),
    )
}

/// Returns `above` - `below`, times `factor` / 10^18, less 3, and rounded down.
fn margin(above: u64, below: u64, factor: u64) -> i64 {
    let distance = u128::from(above.abs_diff(below)) * u128::from(factor);
    let part = (distance / 1_000_000_000_000_000_000).min(1_000_000_000) as i64;
    if above < below { -part - 4 } else { part - 3 }
}

/// Returns the margins at a round-trip time, in nanoseconds and with the target delay, and a window, in millionths of a
/// packet: at most the exact ones, and at least those less 0.05 degrees and 0.05 decibels.
pub(crate) fn margins_at(trip: u64, window: u64) -> Margins {
    let open = Loop { trip, window };
    let lag = open.lag(open.gain_crossing());
    let levels = open.levels(open.phase_crossing());
    Margins {
        phase: margin(2 * RIGHT_ANGLE, lag, 5_729_577_951_308),
        gain: margin(levels.below, levels.above, 301_029_995_664),
    }
}

/// The margins of stability over the ranges of a link.
#[derive(Clone, Copy)]
pub struct RangeMargins {
    /// The least margins of all places of the ranges at which the model applies; `None` if it applies nowhere.
    pub least: Option<Margins>,
    /// True if some windows are below two packets. The model does not apply to these.
    pub has_short_windows: bool,
    /// True if some windows are above a million packets, or some round-trip times above 10 s. The model does not apply
    /// to these.
    pub is_beyond: bool,
}

/// The greatest round-trip time of the model, in nanoseconds and with the target delay.
const GREATEST_TRIP: u64 = 10_000_000_000 + TARGET;

/// The number of numbers of flows that are tried: more than there are from 1 to 2^64 in steps of a 16th.
const TRIES: u32 = 720;

/// The bits per second, times nanoseconds, in a millionth of a packet of 12000 bits.
const UNIT: u128 = 12_000_000;

/// Returns the window of each of `flows` flows, in millionths of a packet.
fn window(rate: u64, trip: u64, flows: u64) -> u64 {
    narrowed(u128::from(rate) * u128::from(trip) / (UNIT * u128::from(flows.max(1))))
}

/// Returns the round-trip time at which the window is at most `window`, in nanoseconds.
fn trip_at(rate: u64, window: u64, flows: u64) -> u64 {
    let bits = (UNIT * u128::from(window)).saturating_mul(u128::from(flows));
    narrowed(bits / u128::from(rate.max(1)))
}

/// Returns the number of flows from which on the window is at most `window`, less 1.
fn flows_at(rate: u64, trip: u64, window: u64) -> u64 {
    narrowed(u128::from(rate) * u128::from(trip) / (UNIT * u128::from(window.max(1))))
}

/// Returns true if the model applies to this window.
fn is_in_model(window: u64) -> bool {
    LEAST_WINDOW <= window && window <= GREATEST_WINDOW
}

/// The least margins that were found so far, at the rate of a link and round-trip times from `least` to `greatest`.
#[derive(Clone, Copy)]
struct Search {
    rate: u64,
    trips: Range,
    found: Option<Margins>,
}

impl Search {
    /// Returns the search after the margins at one round-trip time and window.
    fn with(self, trip: u64, window: u64) -> Search {
        let here = margins_at(trip, window);
        let found = match self.found {
            None => here,
            Some(found) => Margins {
                phase: found.phase.min(here.phase),
                gain: found.gain.min(here.gain),
            },
        };
        Search {
            found: Some(found),
            ..self
        }
    }

    /// Returns the search after one round-trip time, if the model applies to it.
    fn with_trip(self, trip: u64, flows: u64) -> Search {
        let window = window(self.rate, trip, flows);
        if is_in_model(window) {
            self.with(trip, window)
        } else {
            self
        }
    }

    /// Returns the search after the round-trip time at which the window is `window`, if it is in the range.
    fn with_window(self, window: u64, flows: u64) -> Search {
        let trip = trip_at(self.rate, window, flows);
        if self.trips.least < trip && trip < self.trips.greatest {
            self.with(trip, window)
        } else {
            self
        }
    }

    /// Returns the search after a number of flows: at both ends of the round-trip times and of the windows, and at each
    /// edge of auto-tuning.
    fn with_flows(self, flows: u64) -> Search {
        let mut search = self
            .with_trip(self.trips.least, flows)
            .with_trip(self.trips.greatest, flows)
            .with_window(LEAST_WINDOW, flows)
            .with_window(GREATEST_WINDOW, flows);
        for edge in EDGES {
            search = search.with_window(edge.window, flows);
        }
        search
    }

    /// Returns the search after the two numbers of flows whose windows lie beside an edge of auto-tuning at the greatest
    /// round-trip time, as far as they are in the range.
    fn with_edge(self, window: u64, flows: Range) -> Search {
        let before = flows_at(self.rate, self.trips.greatest, window);
        let after = before.saturating_add(1);
        self.with_flows(before.max(flows.least).min(flows.greatest))
            .with_flows(after.max(flows.least).min(flows.greatest))
    }

    /// Returns the search after numbers of flows of the range: all up to 32, and further ones in steps of a 16th.
    fn with_range(self, flows: Range) -> Search {
        let (mut search, mut next) = (self, flows.least);
        for _ in 0..TRIES {
            if next < flows.greatest
                && window(self.rate, self.trips.greatest, next) >= LEAST_WINDOW
            {
                search = search.with_flows(next);
                next = next.saturating_add((next / 16).max(1));
            }
        }
        search.with_flows(flows.greatest)
    }
}

/// Returns the least margins over the round-trip times and numbers of flows of a link (this project's own).
pub(crate) fn margins_over(request: &Request) -> RangeMargins {
    let (trips, flows, rate) = (request.trips, request.flows, request.rate);
    let (least, greatest) = (
        trips.least.saturating_add(TARGET),
        trips.greatest.saturating_add(TARGET),
    );
    let inside = Range {
        least,
        greatest: greatest.min(GREATEST_TRIP),
    };
    let mut search = Search {
        rate,
        trips: inside,
        found: None,
    };
    if least <= GREATEST_TRIP {
        search = search.with_range(flows);
        for edge in EDGES {
            search = search.with_edge(edge.window, flows);
        }
    }
    RangeMargins {
        least: search.found,
        has_short_windows: window(rate, least, flows.greatest) < LEAST_WINDOW,
        is_beyond: greatest > GREATEST_TRIP
            || window(rate, greatest, flows.least) > GREATEST_WINDOW,
    }
}
