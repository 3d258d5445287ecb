//! The ruled lock: one caller at a time may take a state, and one history is behind all callers.
//!
//! A `RuledLock` keeps a state that represents a history: see the trait `Kept`. Each caller has a `Pass` with a range
//! of numbers and a front, which is the history that this caller has seen. While the lock is free, there is one history
//! that the state represents. It begins with the front of each pass. Under the numbers of a pass it has exactly the
//! entries of that pass's front.
//!
//! Promises, for every type that implements `Kept`:
//!
//! - `new` refuses a lock without numbers, and otherwise only reports out of memory; it then returns the state
//!   (`no_numbers`, `back`). The first pass has all numbers and an empty front (`pass`).
//! - After a take (`HasTaken`), the front of the `Held` begins with the front of the pass, and has no further entry
//!   under the pass's numbers (`front`). The state represents the front (`represents`) and has the lock's origin (`origin`).
//!   For a pass with all numbers the front is unchanged (`same`).
//! - `put` requires that each entry that it appends has the pass's first number (`number`). It requires a state that
//!   has the lock's origin and represents the front with these entries (`origin`, `represents`). The pass then
//!   has this front. `Held` is not `Drop`: a function that loses a `Held` does not compile.
//! - A call that may wait (`take`, `take_for`) also returns a `WakeDue`, which is not `Drop`. Only `wake` ends it, and
//!   `wake` needs the pass that the put returned. So no such turn ends without its call of `wake`.
//! - `share` refuses a pass of one number (`one_number`), and `gather` refuses ranges that are not adjacent (`beside`).
//!   There is no other refusal, and a refusal changes nothing. A gathered pass has both ranges and the longer front,
//!   which begins with the shorter one.
//! - `close` returns a state that represents a history which begins with the pass's front (`represents`). With all
//!   numbers it never refuses, and the state represents exactly the front (`alone`, `same`). A refusal returns the lock
//!   and the pass unchanged.
//! - Every call except `take` and `take_for` returns. Only `new` allocates.
//!
//! `LockRule`, the rule of the lock's table, is public with the types that it names (`SeatKnowledge`, `LockOpening`). So the
//! contract of a crate above can name the state of its lock. No other crate makes a value of these types.
//!
//! Not promised:
//!
//! - that `take` and `take_for` return, that the lock is fair, or the duration of a call;
//! - that `try_take` and `close` refuse only while another caller has the state (a test shows that they succeed on a
//!   free lock);
//! - the order of two callers that never gathered, and the front of a dropped pass;
//! - that the state represents only one history: a `Counter` represents every list of the same length and sum, and the
//!   lock works with it.
#![tactic(auto)]

mod counter;
mod entries;
mod lock;
mod pass;
mod refusal;
mod rule;

pub use counter::{Counter, CounterEntry};
pub use entries::{Entries, Kept, LockOpening, SeatKnowledge, no_entries, one_entry, with_entry};
pub use lock::RuledLock;
pub use pass::{Held, Pass, WakeDue};
pub use refusal::{LockRefusal, OneNumber, StillHeld};
pub use rule::LockRule;
