//! The controller: the rules of RFC 8033 combined, for a queue that its caller owns.
//!
//! A `Controller` contains the parameters, the effective moment, the departure rate, the state of the control law, the
//! accumulated probability of early drop, and its activity. The caller passes the bytes in the queue with each call. If
//! the controller represents events e1 to en, a call with event e makes it represent e1 to en and e (clause
//! `represents`). Clause `after` states the state after the call from the state before it. `Controller::cause` returns
//! the cause of the decision on an arrival; its verdict is that of `arrive`.
//!
//! The rules are defined over plain numbers, as calls of `RawController`. A `Controller` is a `RawController` with
//! sound numbers (`raw`, clause `sound`), and forwards each call.
#![tactic(auto)]

mod controller;
pub mod law;
mod raw;
mod soundness;
mod verdict;

pub use controller::Controller;
pub use pie_event::{Cause, CauseName, Fate, Profile};
pub use raw::RawController;
pub use soundness::Register;
pub use verdict::{ArrivingPacket, Verdict};
