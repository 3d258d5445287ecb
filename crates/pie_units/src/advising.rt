//! Advice on the parameters of a queue for a link: its rate, the round-trip times and the number of its flows.
//!
//! `opening_for_link` returns the opening that `pie params` gives for the rate. `advice_for` returns the parameters in
//! the units of other queues (`numbers_for`), the predicted mean wait, and the conditions of the warnings (`IsOutlook`).
//! Both are proved. `push_advice` writes them with their reasons; its words are tested.
//!
//! The margins of stability are those of docs/margins.py, at the link of the request. They are computed from a linear
//! model in fixed-point arithmetic, and tested, not proved.

mod advice;
mod margin;
mod numbers;
mod outlook;
mod request;
mod setting;

pub use advice::{advice_for, opening_for_link, push_advice};
pub use request::{Range, Request, range_in};
