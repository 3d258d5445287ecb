//! The departure rate of a queue: measurement cycles, and the average time in which `dq_threshold` bytes depart (RFC
//! 8033, section 5.2).
//!
//! If a `Rate` represents the departures d1 to dn, `departed(d)` makes it represent d1 to dn and d (clause
//! `represents`). `average` and `is_measuring` return the look-back over that list. Clause `step` states the next
//! estimate from the estimate before it, for any list of departures.
#![tactic(auto)]

mod rate;
mod raw;

pub use rate::Rate;
pub use raw::{MAX_THRESHOLD, RawCycle, RawRate};
