//! Parameters of the PIE controller, checked against their ranges.
//!
//! `Params::check` accepts exactly the ranges (clause `accepts`) and otherwise returns the first bad field in order
//! (clause `refuses`). `Elements` are RFC 8033's optional elements, as choices.
#![tactic(auto)]

mod checked;
mod elements;
mod raw;

pub use checked::Params;
pub use elements::{Decay, Delay, Elements, Picking, Size, Step};
pub use raw::{BadParam, Field, RawParams};
