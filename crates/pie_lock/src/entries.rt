//! Lists of entries that exist for the prover alone.
//! The states that a lock can keep.
//! The views of the lock's seats, and the key of its table.
ghost use Rattle.std.specs.Prelude.{◌≡◌, [], ◌∷◌, ◌++◌, ℕ, List, length};

use std::collections::LinkedList;
use std::marker::Model;
use std::snapshot::Snapshot;

/// A list of entries for contracts alone (this project's own). A put takes a snapshot of such a list: the entries that
/// it appends to the history. The list has no bytes.
#[derive(Drop)]
pub struct Entries<E> {
    before: Option<(Snapshot<Entries<E>>, Snapshot<E>)>,
}

impl<E> Model for Entries<E> {
    ghost use Rattle.std.specs.Prelude.{List, length};
    ghost use Rattle.std.proofs.Common.{arith, length-append};
    ghost use Rattle.pie_lock.specs.Rule.{entries_of};

    ghost Value = { List E };

    ghost size = { λ entries. length entries };

    ghost view = { λ entries. entries_of entries.before };

    ghost size_decreases = { λ a h. Prim.grind (arith, length-append) };
}

/// Returns an empty list.
pub fn no_entries<E>() -> Snapshot<Entries<E>>
    ensures { result.value ≡ [] }
{
    Snapshot::of(&Entries { before: None })
}

/// Returns the list `before` with `entry` appended.
pub fn with_entry<E>(before: Snapshot<Entries<E>>, entry: &E) -> Snapshot<Entries<E>>
    ensures { result.value ≡ before.value ++ entry.now ∷ [] }
{
    Snapshot::of(&Entries {
        before: Some((before, Snapshot::of(entry))),
    })
}

/// Returns a list of one entry.
pub fn one_entry<E>(entry: &E) -> Snapshot<Entries<E>>
    ensures { result.value ≡ entry.now ∷ [] }
{
    with_entry(no_entries(), entry)
}

/// A state that represents a history, which is a list of entries. Each entry has a caller's number.
///
/// `number_of` is the number of an entry. `origin_of` is plain data that a state keeps from its opening on.
/// `represents_list state history` is the abstraction relation: the state represents this history. A state may represent
/// many histories; by the law `one_length` they have the same length.
pub trait Kept: Drop {
    /// The entry that a call appends to the history.
    type Entry: Copy;

    /// Plain data that a state keeps from its opening on.
    type Origin;

    ghost number_of: { Self.Entry → ℕ };

    ghost origin_of: { Self → Self.Origin };

    ghost represents_list: { Self → List Self.Entry → Type 0 };

    /// Returns the caller's number of `entry`.
    fn number(entry: &Self::Entry) -> u16
        ensures { result ≡ number_of entry.now };

    ghost one_length: { (state : Self) (xs ys : List Self.Entry) → represents_list state xs → represents_list state ys → length xs ≡ length ys };
}

/// A seat's knowledge of a pass: its front, its numbers `first..limit`, and the lock's `numbers` and `origin`. No value
/// of this type exists.
pub struct PassKnowledge<E, O> {
    pub front: LinkedList<E>,
    pub first: u16,
    pub limit: u16,
    pub numbers: u16,
    pub origin: Option<O>,
}

/// A seat's knowledge at the lock's table. No value of this type exists.
pub enum SeatKnowledge<E, O> {
    /// The seat was joined to another seat, and has no pass.
    Spent,
    /// The seat has a pass, and not the slot.
    Idle(PassKnowledge<E, O>),
    /// The seat has the state.
    Holds(PassKnowledge<E, O>),
    /// The seat has two passes, which the next load makes one.
    HasTwo(PassKnowledge<E, O>, PassKnowledge<E, O>),
}

/// The first state of a lock, and its number of callers' numbers.
#[derive(Drop)]
pub struct LockOpening<S> {
    pub state: Snapshot<S>,
    pub numbers: u16,
}
