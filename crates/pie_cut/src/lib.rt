//! Excerpts of a saved history. An excerpt is a text of its own: the controller's registers before the first
//! selected event, the packets that waited then, and the events up to the last selected one. It also has clock
//! records: the last one before the first event, and those between the events.
//!
//! `cut` reads a history or an excerpt as an audit does, and decides each event again up to the last selected one.
//! `cut_every` cuts the whole text into segments of equally many events. The definitions that the contracts cite
//! are in `specs/`. If no reader, writer or memory failed, the result of `cut` is `answer_since` and its output is
//! the excerpt (`IsCut`). For an excerpt as input both are those of the whole history from there on (`CutsText`).
#![tactic(auto)]

mod counting;
mod cutter;
mod excerpt_writer;
mod fault;
mod joint_audit;
pub mod law;
mod segments;
mod snapshot_equality;
mod span;
mod unlike;

pub use counting::last_number;
pub use cutter::cut;
pub use fault::CutFault;
pub use joint_audit::{Joined, Joint, TextEnd, audit_joined};
pub use segments::cut_every;
pub use snapshot_equality::UnlikeRecord;
pub use span::Span;
pub use unlike::UnlikeRecords;
