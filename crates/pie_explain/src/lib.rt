//! Explanations of the events of a saved history: the case of the rules that decided an event and the numbers that
//! it depended on, as values, in words or as CSV.
//!
//! For every history that the core represents, `Explained::begin` returns exactly the numbers of the look-back and
//! the first case of the decision that applies. `Explained` adds the controller's numbers after the event.
//! `Selection::picks` selects the events to explain. A `Report` receives explanations one after another: the two of
//! this crate write them as CSV, and in words.
//!
//! `explain` reads a history as an audit does and decides each event again. It explains the chosen events from the
//! core before them. The definitions that the contracts cite are in `specs/`. If no reader, writer or memory failed,
//! the result of `explain` is `answer_since`, the report received exactly the chosen events in order, and its output is
//! a whole text of the report for them (`IsExplanationText`): as CSV exactly their records, in words any text. For an
//! excerpt both are those of the whole history from there on (`ExplainsText`).
//!
//! Summaries of a saved history: the number of arrivals by verdict and by cause, the waiting times, the numbers of the updates, and the changes of
//! the controller's activity; of all events, or of each interval that has some.
//!
//! Two reports sum up the events that `explain` passes to them. The numbers of an interval are those of `sums_of`, which is defined on the whole
//! list of its events (`HoldsSums`). Each event has the same cost, and only the numbers are kept. `Summaries` writes them in words, or as CSV, whose
//! records are exact (`IsWholeDigest`), or as one line for each interval; between them it can also explain each packet that was lost or marked, so one
//! pass over a history gives both. `ByFlow` sums up each flow (`HoldsFlows`), in words, or exactly as CSV (`HasAllFlows`).
#![tactic(auto)]

mod aggregates;
mod by_flow;
mod choice;
mod decided_event;
mod explainer;
mod explanation;
mod fault;
mod flow;
mod flow_sums;
mod flow_words;
mod form;
mod interval;
mod interval_lines;
pub mod law;
mod live_interval;
mod meter;
mod meter_input;
mod ranges;
mod record;
mod report;
mod selection;
mod summary;
mod summary_record;
mod summary_words;
mod text;
mod text_cache;
mod units;

pub use by_flow::ByFlow;
pub use choice::EventChoice;
pub use decided_event::{DecidedEvent, EventDecision, decide_event};
pub use explainer::explain;
pub use explanation::{Explained, Explanation, moment_of};
pub use fault::ExplainFault;
pub use form::Form;
pub use interval_lines::LineStyle;
pub use live_interval::LiveInterval;
pub use meter_input::{Conditions, MeterInput};
pub use pie_event::Setter;
pub use report::{EventRecords, Report, Words, push_words};
pub use selection::{Selection, is_from, is_to, time_of};
pub use summary::{Digest, Summaries, SummariesOnly};
