//! The controller for callers in C: a static library with the header `include/pie.h`.
//!
//! The caller owns the state, a plain struct of numbers, and the queue of packets. Calls for a packet check their
//! arguments but not the soundness of the state. An update, a reset and new parameters check the whole state. Each call
//! refuses with a code, and then nothing changes.
//!
//! - Clause `answer`: the return value of each call for any arguments, with the refusals in their order.
//! - Clause `fields` (specs/State.antt): the state after a call for a packet, for any state before. Clause `after`: the
//!   state after it for a sound state, and after any other call for every state.
//! - Clause `sound`: a sound state stays sound, so a state from `pie_open` is never refused.
//! - Clause `represents`: if a state represents the events since the opening, it then represents them with this call added.
//!
//! The rules are pie_aqm's, none of them is here: a call reads the numbers into a `RawController`, executes its step,
//! and writes the changed numbers back. The calls that read a text with a unit are pie_units's and use no state.
#![tactic(auto)]

mod calls;
mod checked;
mod law;
mod opening;
mod state;
mod summing;
mod writing;
