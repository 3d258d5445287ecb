//! The link: one book that several threads share, with one history behind all callers.
//!
//! A `Link` keeps a book behind the ruled lock of pie_lock. Each `Caller` has a range of numbers and a front, which is
//! the history that it has seen. An entry of the link's history is an event, or a fold of a number of events. In
//! contracts a link is its lock: its identity, the opening of its book, and its number of numbers. A caller is a pass
//! of that lock: the lock, the front, and the numbers `first..limit`.
//!
//! The lock keeps a `KeptBook`: a book in a box, with the number of folds, which exists in contracts alone. It
//! represents a list of entries (`RepresentsHistory`):
//!
//! - the book represents the events;
//! - its event log begins after the events that were folded or, in a rolling book, dropped for want of room;
//! - in a bounded book the folded events, in order, followed by the log are all events.
//!
//! For each history that it represents, a turn at the book returns the look-back over that history. A refusal changes
//! nothing.
//!
//! Each call whose result is not `Busy` is one such turn (`turn.rt`). It is decided after one history that begins with
//! the caller's front and has no further entry of this caller. The caller's front is then that history with the call's
//! event or fold.
//!
//! - A call that is accepted has the decision there, and a refusal is that of the book there. `HistoryFull` occurs only
//!   if the event log of a bounded link is full.
//! - A fold of n events succeeds only if the log has n events, and returns the oldest; `TooMany` has their number.
//!   `try_fold_into` appends the events that fit to a vector, and the book never refuses it.
//! - `arrive_all`, `try_arrive_all`, `depart_all` and `try_answer_all` decide a burst after one history, with no call
//!   of another caller between, for every type that is a `Burst`. `Arrivals` and `Departures` push their results to a
//!   vector. With a budget the packets that depart in the burst have at most that many bytes
//!   (`bursts_stay_within_their_bytes`).
//! - `registers` and `stats` are the look-back over the events of such a history, and an `excerpt` is its end, with the
//!   preamble.
//!
//! A caller with all numbers never receives `Busy`. `Link::open` and `open_with` promise the headline (clause
//! `headline`, `specs/Headline.antt`): whenever the lock is free, there is one history of one thread behind all callers.
//! It begins with the front of each caller, contains each caller's calls once and in order, and ends with the event
//! log. The look-back over it is the book's state. In a bounded link no event is lost: the folded events, in order,
//! followed by the log are all events.
//!
//! Not promised: that a waiting call returns, that the lock is fair, the number of `Busy` if several callers have
//! numbers, and the front of a dropped caller.
#![tactic(auto)]

mod burst;
mod caller;
mod calls;
mod entry;
mod kept_book;
pub mod law;
mod link;
mod turn;
mod vectors;

pub use burst::{Burst, Replies, Reply};
pub use caller::Caller;
pub use entry::{Arrival, Entry, LinkRefusal, NoRoom, Told, Tried};
pub use kept_book::KeptBook;
pub use link::Link;
pub use vectors::{Arrivals, Departures};
