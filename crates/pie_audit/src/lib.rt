//! The audit of a history: it decides each recorded event again and names the first event that differs from the
//! rules.
//!
//! The definitions that the contracts cite are in `specs/`. `Finds` (Text.antt) states the finding of a text: `finding`
//! (Replay.antt) compares each event with the decision after all lines before it. pie_explain and pie_cut cite
//! Replay.antt for the event that set the probability, and for the knowledge of an excerpt about that event.
//!
//! `clean_is_legal`: a text without a fault is clean exactly if its events are legal from its opening on; otherwise
//! it differs at the first event that is not legal.
//!
//! `recorded_calls_are_clean` states this for the events of a controller beside its caller's queue. A law of
//! pie_trace states that the output of a run is clean.
#![tactic(auto)]

mod auditor;
pub mod law;
mod opened_text;
mod replay;
mod replayed_text;
mod text_audit;

pub use auditor::{Auditor, Finding};
pub use opened_text::{OpenedText, open_text};
pub use pie_record::HistoryLines;
pub use replay::{LineKind, Replay, kind_of};
pub use replayed_text::{ReplayedText, replay_text};
pub use text_audit::{audit, audit_lines};
