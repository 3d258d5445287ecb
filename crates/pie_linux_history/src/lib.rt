//! Recorded steps of Linux's `sch_pie` and `sch_fq_pie`: an audit that decides each step again by the rules of
//! pie_linux, from the inputs alone, explanations of arrivals and of lost packets, reports of pie_explain about the steps,
//! and pieces of a text.
//!
//! The text is the CSV text of `pie-watch`: its first row names the columns, and each further row is a step of a queue,
//! or the number of steps of a queue that the recorder lost. Records are counted from 1, steps of the text (*events*)
//! from 1 after the first row.
//!
//! Proved:
//!
//! - The finding of `audit` is exactly `finding_of` (specs/Audit.antt): the first fault, or the number of steps that differ and
//!   the first one with its event, queue, step, column and both numbers, or otherwise the numbers of rows, steps and lost steps.
//!   The differences are `differences_of` the rows, in order: all are counted, and the first 100 are returned.
//! - The queue of a step is the one with exactly its name, by a look-back over all rows before the step
//!   (specs/LookBack.antt): the last row `init` or `resume` of the name, and each later step of the name up to the first that
//!   differs. There is none if steps of the name were lost later. `KnownQueues` represents these queues (specs/Known.antt).
//! - The fields of a row by the names of its columns, and each fault of a row (specs/Columns.antt).
//! - In a queue: its first state, the number of its next step, the flow of a step, the waiting packets of the flow, and those
//!   that a change or a reset drops (specs/Queue.antt).
//! - Each decision. `QueueNumbers::arrive`, `depart`, `update`, `begin_round`, `change` and `reset` give the numbers of
//!   the queue and of the flow after the step, exactly as specs/Decisions.antt defines them over the rules of pie_linux.
//! - The comparison. Each recorded number is an input of its step, or it is compared with the number of the rules
//!   (specs/Right.antt, specs/Differences.antt). A text without the column `rq` is compared in fewer columns, and some of its
//!   steps lack an input. The input is then taken from the recorded results, and the step is counted.
//! - The decided steps of a text: each row up to the first fault whose queue has begun and has not differed, with its event, its
//!   effective moment, and the numbers of its queue and flow before and after it (specs/Decided.antt). With a chosen queue the
//!   rows of other queues are skipped.
//! - `report` and `explain` end with the finding of an audit of these rows. `report` receives the events (`explained_of`,
//!   specs/Event.antt) of the selected decided steps, in order, and `explain` their selected packets, each with its step and the
//!   queue before it; both return the number of these (specs/Reports.antt). The text of `report` has further texts within it, for
//!   packets or queues: their number is proved.
//! - `count_rows` returns the number of rows.
//! - The output of `cut` is exactly `cut_of` (specs/Cuts.antt): each selected row as it stood, by its number and its effective
//!   moment. A piece begins with the first row of the text and with the rows of each queue that is alive, in the order in which they
//!   began: its numbers, those of each flow, and each waiting packet, from the look-back over the rows before the piece.
//!
//! Tested only (tests/program/linux_steps.py, linux_reports.py): the updates before a step; the words of explanations; the field
//! `queue` of a record; that an audit of a piece finds what an audit of the text finds in its rows.
#![tactic(auto)]

mod columns;
mod cutter;
mod decided;
mod difference;
mod event;
mod explained;
mod fault;
mod known;
mod numbers;
mod queue;
mod queues;
mod reports;
mod resume;
mod right;
mod row;
mod step;
mod text;
mod updates;
mod words;

pub use cutter::{RowSpan, StepPieces, count_rows, cut};
pub use difference::Difference;
pub use explained::{ExplainedPacket, PacketReport, PacketWords};
pub use fault::StepsFault;
pub use queues::{StepDifference, StepsCounts};
pub use reports::{Beside, StepsExplained, explain, report};
pub use step::QueueName;
pub use text::{Differences, StepsAudit, StepsFinding, audit};
