//! A caller's pass, and its form while the caller has the state.
ghost use Rattle.std.specs.Prelude.{◌≡◌, ◌<◌};

use crate::entries::{Kept, SeatKnowledge};
use atomic_table::Seat;
use std::marker::Model;
use std::snapshot::Snapshot;

/// The right to take the state under the numbers `first()..limit()`, at least one.
///
/// In contracts it is its lock, its front, which is the history that its holder has seen, and its range of numbers. At
/// run time it has only its range. A dropped pass takes its numbers with it.
#[derive(Drop)]
pub struct Pass<S: Kept> {
    pub(crate) first: u16,
    pub(crate) limit: u16,
    pub(crate) seat: Seat<Option<S>, SeatKnowledge<S::Entry, S::Origin>>,
}

impl<S: Kept> Model for Pass<S> {
    ghost use Rattle.pie_lock.specs.Rule.{PassView};

    ghost Value = { PassView S.Entry S.Origin };

    ghost use Rattle.pie_lock.specs.Rule.{pass_of_seat, IsIdleWithNumbers};

    ghost view = { λ p. pass_of_seat p.first p.limit p.seat };

    ghost invariant = { λ p. IsIdleWithNumbers p.first p.limit p.seat.me };
}

impl<S: Kept> Pass<S> {
    /// Returns the lowest number. The entries of this pass have it.
    pub fn first(&self) -> u16
        ensures value { result ≡ self.now.first }
        ensures some { self.now.first < self.now.limit }
    {
        self.first
    }

    /// Returns the highest number plus one.
    pub fn limit(&self) -> u16
        ensures value { result ≡ self.now.limit }
        ensures some { self.now.first < self.now.limit }
    {
        self.limit
    }
}

/// A pass that has the state. It is not `Drop`: `RuledLock::put` ends it.
pub struct Held<S: Kept> {
    pub(crate) state: S,
    pub(crate) first: u16,
    pub(crate) limit: u16,
    pub(crate) seat: Seat<Option<S>, SeatKnowledge<S::Entry, S::Origin>>,
}

impl<S: Kept> Model for Held<S> {
    ghost use Rattle.pie_lock.specs.Rule.{HeldView};

    ghost Value = { HeldView S S.Entry S.Origin };

    ghost use Rattle.pie_lock.specs.Rule.{held_of_seat, IsHolding};

    ghost view = { λ h. held_of_seat h.first h.limit h.seat h.state };

    ghost invariant = { λ h. IsHolding h.first h.limit h.seat.me };
}

impl<S: Kept> Held<S> {
    ghost use types.Logic.{sem};
    ghost use Rattle.std.specs.Borrow.{Lends};
    ghost use Rattle.pie_lock.specs.contracts.pass.Held.{the_row};
    ghost use Rattle.pie_lock.specs.Rule.{with_state};

    /// Returns the state. `RuledLock::put` puts its last value back into the lock.
    pub fn state(&mut self) -> &mut S
        ensures* writes_back { sem 𝓛 (Lends (the_row S.row S.Entry.row S.Origin.row S.Kept) S.row self.entry result (with_state self.old)) }
        ensures value { result.now ≡ self.old.state }
    {
        &mut self.state
    }
}

/// The duty to wake the next thread. A call that may wait returns it with the state. It has no bytes. It is not `Drop`:
/// `RuledLock::wake` ends it, and needs the pass of the put. A function that forgets to wake does not compile.
pub struct WakeDue {
    /// The number of calls of the turn, for the prover alone.
    pub calls: Snapshot<usize>,
    // Not public, so no other crate can make or end one.
    pub(crate) of_lock: (),
}

/// The announcement that this thread may sleep. `RuledLock::look_awaited` ends it, so that look comes after it.
pub(crate) struct Announced(pub(crate) ());

/// The leave to sleep: a look after the announcement found the state taken. `RuledLock::sleep` ends it.
pub(crate) struct MaySleep(pub(crate) ());
