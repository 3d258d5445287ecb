//! Storms: a link under many threads at once, whose history is that of a plan (this project's own).
//!
//! `storm` makes the calls of a `Plan` at a link, each list in a thread of its own, and returns the recorded events:
//! the planned calls, each caller's in order, in one history that is legal from the opening. `storm_plan` returns the
//! usual plan. `make_storm` plans from more numbers, and runs the plan under threads of the runtime, which start
//! together and stay close to one another (`Pace`). `write_storm` audits the events and writes their history, which is
//! clean.
//!
//! Not promised: that a thread runs, that a storm ends, or the order of the calls of two callers.
#![tactic(auto)]

mod pace;
mod plan;
mod planned_storm;
mod planning;
mod run;
mod worker;

pub use pace::{Gate, NoGate};
pub use pie_link::Arrival;
pub use plan::{Call, Change, LONGEST_BURST, Plan, StormNumbers};
pub use planned_storm::{MadeStorm, make_storm, write_storm};
pub use planning::storm_plan;
pub use run::{StormEnd, StormFault, storm};
