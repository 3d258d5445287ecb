//! Traces of commands, and the history text that a run of a trace writes, in three versions. Histories decided again.
//!
//! The definitions that the contracts cite are in `specs/`, and those of records in pie_record: a trace's first
//! fault, and its history text.
//!
//! `run_trace_within` and `run_trace` run a trace with any reader and writer whose bytes are known (`RunsText`). Unless
//! the result is `Read`, `Write` or `Memory`, it is `Ok` exactly if the text has no fault, otherwise the first fault. An
//! `Ok` has the numbers, registers and statistics of the run. The output is the history text. The calls end even if the
//! reader never ends. Take any history that leads to the state at the text's beginning: result and output are those of
//! the whole from there on, with an empty event log.
//!
//! `history_texts_are_read_back`: the output of a run is read back as the same opening and events.
//!
//! `migrate` writes the history in version two, or a history of version three as it is (`writes`), with the same
//! opening and lines (`same`). A history with a fault has its first fault as the result (`faults`). Laws:
//! `migrated_histories_are_read_back`, `migrating_again_changes_nothing`, `migrated_runs_are_runs_of_version_two`.
//!
//! Laws about audits: the history text of every trace is clean, with the number of events that the run recorded
//! (`runs_are_clean`). A history in version two has the finding that it had before (`migration_keeps_the_finding`).
//! The output of a run of an excerpt is clean, with the events before it (`continued_runs_are_clean`).
//!
//! `what_if` reads a history or an excerpt, audits it, and writes another history: the events before a moment are the
//! history's own. Then the parameters change, and each later command is decided after the events of the other history,
//! `other_rows`.
#![tactic(auto)]

mod alteration;
mod core_copy;
mod decider;
pub mod diagnosis;
pub mod law;
mod migration;
mod omitted;
mod other_history;
mod other_params;
mod run;
mod run_start;
mod session;
mod steps;
mod what_if_fault;

pub use alteration::Alteration;
pub use decider::WhatIfEnd;
pub use migration::migrate;
pub use omitted::Omitted;
pub use other_history::what_if;
pub use other_params::OtherParams;
pub use pie_book::Opening;
pub use pie_record::{
    HistoryLines, Line, OpenFault, RecordFault, TraceFault, Version, write_history,
};
pub use run::{RunEnd, run_trace, run_trace_within};
pub use what_if_fault::WhatIfFault;
