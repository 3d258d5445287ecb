//! The book of one link buffer. It decides each command, records it with its answer as an event, and keeps numbers that
//! equal the look-back over the whole history.
//!
//! The definitions in `specs/`, which the contracts cite, look back over the list of all events and accumulate nothing.
//! `Represents` is the abstraction relation between a core and a history, `BookRepresents` that between a book and a history.
//!
//! - `Core::step` and `Book::apply`, for every history that the core or the book represents: the answer is the decision
//!   after that history, or exactly its refusal (clause `decides`). Afterwards core or book represent the history with
//!   this event (`represents`, `recorded`). A refusal changes nothing (`refused`). Both allocate nothing.
//! - `Book::fold` refuses exactly if the event log holds fewer events or there is no memory. It returns the oldest
//!   events, and the book represents the same history (`too_many`, `refused`, `folded`, `represents`).
//!   `Book::fold_into` moves events into a vector that has room (`returned`), and never refuses.
//! - `open` and `open_with` refuse only for the listed reasons, in that order, or for lack of memory.
//! - The readers return the definitions' values: `registers`, `stats`, `count` and `waiting` of the whole history,
//!   `checkpoint` and `checkpoint_stats` of the history without the event log.
//! - `Core::snapshot` and `Book::checkpoint_snapshot` return a snapshot of a core. `Core::resume` begins a core from a
//!   snapshot and then takes the waiting packets one by one. `Book::resume` opens a book that continues from a core.
//!   The core has the numbers of the snapshot (`core_of`), so it represents each history that the snapshot represents.
//! - `Book::excerpt` copies the last events with the state before them (`Ends`).
//! - Laws: `folds_change_no_answer` for runs; `all_numbers_fit` for the ranges of registers, statistics and
//!   answers after a legal history; `packets_of_a_core_are_taken` and `excerpts_are_legal_after_any_history` for
//!   excerpts.
#![tactic(auto)]

mod book;
mod book_events;
mod book_folds;
mod core_state;
mod core_steps;
mod excerpt;
pub mod law;
mod recorded;
mod snapshot;
mod tally;

pub use book::{Book, ContinueRefusal};
pub use core_state::Core;
pub use excerpt::Excerpt;
pub use pie_aqm::{Cause, Fate};
pub use pie_event::{
    Answer, Choices, Command, Elements, EndRefusal, Event, FoldRefusal, Limits, Mode, OpenRefusal,
    Opening, Profile, QueueRefusal, Refusal, Registers, ResumeRefusal, Stats, TooSmall,
};
pub use recorded::Recorded;
pub use snapshot::{CoreSnapshot, Resuming};
