//! Types that rules, controller, books, links and texts share: commands, answers, causes of decisions, events and
//! snapshots of a book, and the event that set a probability. `pie_aqm` and `pie_book` re-export their own.
//!
//! Definitions in `specs/`: the effect of an event, the permitted openings of a book and the ranges of the types' numbers
//! (Event.antt); the verdict of a cause, and the answer to an arrival with a verdict (Cause.antt).
#![tactic(auto)]

mod cause;
mod command;
mod opening;
mod refusal;
mod registers;

pub use cause::{Cause, CauseName, Fate};
pub use command::{Answer, Command, Event, Setter, Verdict};
pub use opening::{Choices, Elements, Limits, Mode, Opening, Profile};
pub use refusal::{
    EndRefusal, FoldRefusal, OpenRefusal, QueueRefusal, Refusal, ResumeRefusal, TooSmall,
};
pub use registers::{Register, Registers, Stats};
