//! Times, rates, sizes and packets in human-readable form: a number with a unit, as in `tc`, such as `1.5ms` or
//! `100mbit`.
//!
//! `read` returns exactly the value of a text, a whole number of nanoseconds, bits per second, bytes or packets, or
//! exactly the reason why it has none (`value_of`). Nothing is rounded. `Moment::from_str` parses a moment, whose unit
//! is optional (`moment_in`). `Utc::from_str` parses a wall-clock time (`utc_in`), and a `Utc` is written as `utc_text`
//! states.
//!
//! Numbers of `tc`'s options have refusals of their own (`time_of`, `rate_of`, `packets_of`). `params_for` returns the
//! nine parameters of the options (`TuningOptions`), `elements_for` the optional elements of RFC 8033. `write_opening`
//! writes exactly the record of their opening (`opening_for`). Its mean size is a size on the link, as `tc stab` computes
//! it (`size_on_link`).
#![tactic(auto)]

pub mod advising;
mod layer;
mod number;
mod options;
mod utc;

pub use layer::{Layer, LinkLayer, Overhead, overhead_of};
pub use number::{Quantity, UnitFault, read};
pub use options::{
    OptionFault, TuningOptions, can_stall, default_packets, drops_bursts, elements_for, gain_of,
    is_above_a_second, is_short, opening_for, packets_of, params_for, rate_of, time_of,
    write_opening,
};
pub use utc::{Date, Moment, MomentFault, Utc, UtcFault, When, WhenFault, date_of};
