//! The command line of `pie`. `command` runs the whole program: it parses the arguments, and `dispatch` calls the function
//! of the subcommand. Each subcommand has a file and a function of its name
//! (`migrate` is in run.rt), which receives a `Call`. `options` has the parser of the arguments,
//! and `files` opens and creates the named files.
//!
//! Each subcommand returns an `End`. Contracts state what the options select: events, pieces, parameters and plans. Texts,
//! ends and files have tests. The output goes to the caller's writer, or to a file that `dispatch_to_file` creates. This
//! file moves to the name given by `-o` once the output is complete.
//!
//! `create_output` creates an output under another name beside its own, and `finish_output` moves it once the output is
//! complete. Until then an existing file of that name is unchanged. Lines are written as lists of their parts (line.rt).
//!
//! `ProgressReader` wraps a reader. It returns exactly the bytes of the inner reader: `remaining` is the inner reader's.
//! `recognizing` reads the first bytes, and returns them again: a text of recorded steps of Linux is audited, explained and
//! cut by pie_linux_history (steps.rt), any other text as a history.
//! If progress is requested, it counts these bytes. After each 8 megabytes it overwrites its last line with the
//! number of records and megabytes and the rate in megabytes per second. It clears the line at the end of the
//! input, or when it is dropped. It ignores failed writes to the error stream and a clock that can't be read.
#![tactic(auto)]

mod advise;
mod audit;
mod audit_json;
mod call;
mod comparison;
mod cut;
mod difference;
mod end;
mod explain;
mod files;
mod head;
mod joint;
mod json;
mod line;
mod name;
mod options;
mod params;
mod program;
mod progress;
mod reports;
mod run;
mod steps;
mod steps_fault;
mod storm;
mod what_if;

pub use end::End;
pub use files::{Output, word_of_bytes};
pub use program::command;
