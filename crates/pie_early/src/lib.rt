//! Early drop: the choice whether an arriving packet is queued, marked or dropped, from the probability of the
//! controller (RFC 8033, sections 4.1, 5.1 and 5.4).
//!
//! `Early::consider` returns exactly the rule's choice. A packet is marked or dropped exactly if it is picked (clause
//! `picked`). The accumulated probability equals the look-back over all inputs (`represents`), and grows by the
//! probability at each considered arrival between two picks (`grows`). `cause` returns the cause of the decision; the
//! verdict of the cause is that choice.
#![tactic(auto)]

mod decision;
mod early;

pub use decision::{Decision, Offered, cause, decide};
pub use early::{Choice, Early, LOW_PROB, NO_PICK_BELOW};
