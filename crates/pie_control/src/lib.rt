//! The control law of PIE: the queueing delay, the probability update and the burst allowance (RFC 8033, sections 4.2,
//! 4.4, 5.2 and 5.5).
//!
//! `delay` and `next_probability` are exact over their whole ranges. If a `Control` represents a list of updates, idle
//! updates and resets, `update`, `idle` and `reset` make it represent that list with this one at its end (clause
//! `represents`). `update` also returns true if it was calm (clauses `calm`, `look_back`). Each calls `RawControl`,
//! which has plain numbers.
#![tactic(auto)]

mod control;
mod raw;
mod update;

pub use control::Control;
pub use raw::RawControl;
pub use update::{MAX_DELAY, delay, next_probability};
