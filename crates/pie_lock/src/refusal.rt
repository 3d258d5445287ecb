//! Refusals of the lock's calls.
use crate::entries::Kept;
use crate::lock::RuledLock;
use crate::pass::Pass;
use thiserror::Error;

/// The reason why no lock was made.
#[derive(Debug, Clone, Copy, PartialEq, Eq, Drop, Error)]
pub enum LockRefusal {
    /// `numbers` is 0.
    #[error("a lock needs one number at least")]
    NoNumbers,
    /// Out of memory.
    #[error("no memory for the lock")]
    Memory,
}

/// A pass of one number cannot be shared.
#[derive(Debug, Clone, Copy, PartialEq, Eq, Drop, Error)]
#[error("a pass with one number can't be shared")]
pub struct OneNumber;

/// The lock was not closed, because another pass has the state. The lock and the pass are unchanged.
#[derive(Drop)]
pub struct StillHeld<S: Kept> {
    /// The lock.
    pub lock: RuledLock<S>,
    /// The pass.
    pub pass: Pass<S>,
}
