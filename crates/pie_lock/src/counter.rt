//! A counter: a second kind of state for a lock, for tests. One counter represents many histories.
ghost use Rattle.std.specs.Prelude.{◌≡◌, ◌+◌, ◌<◌, ◌^◌, ◌↔◌, IsTrue, MatchBool};

use crate::entries::Kept;
use std::marker::Model;

/// An addition by one caller.
#[derive(Clone, Copy)]
pub struct CounterEntry {
    /// The caller's number.
    pub caller: u16,
    /// The amount.
    pub amount: u64,
}

/// The number of additions and their sum. It stores no list, so it represents each list of `count()` entries whose
/// amounts add up to `total()`.
#[derive(Drop)]
pub struct Counter {
    count: u64,
    total: u64,
}

impl Model for Counter {
    ghost use Rattle.pie_lock.specs.Rule.{Tally};

    ghost Value = { Tally };

    ghost view = { λ c. record { count = c.count; total = c.total } };
}

impl Counter {
    ghost use Rattle.pie_lock.specs.Rule.{Tally};

    /// Returns a counter without additions.
    pub fn new() -> Counter
        ensures count { result.count ≡ 0 }
        ensures total { result.total ≡ 0 }
    {
        Counter { count: 0, total: 0 }
    }

    /// Adds `amount`. Returns false if the count or the total would exceed a `u64`; then the counter is unchanged.
    pub fn add(&mut self, amount: u64) -> bool
        ensures fits { IsTrue result ↔ ((self.old.count + 1 < 2 ^ 64) × (self.old.total + amount < 2 ^ 64)) }
        ensures changed { MatchBool result ((self.new.count ≡ self.old.count + 1) × (self.new.total ≡ self.old.total + amount))
            (self.new ≡ self.old) }
    {
        let Some(count) = self.count.checked_add(1) else {
            return false;
        };
        let Some(total) = self.total.checked_add(amount) else {
            return false;
        };
        self.count = count;
        self.total = total;
        true
    }

    /// Returns the number of additions.
    pub fn count(&self) -> u64
        ensures { result ≡ self.now.count }
    {
        self.count
    }

    /// Returns the sum of all amounts.
    pub fn total(&self) -> u64
        ensures { result ≡ self.now.total }
    {
        self.total
    }
}

impl Kept for Counter {
    ghost use Rattle.std.specs.Prelude.{ℕ};
    ghost use Rattle.pie_lock.specs.Rule.{Represents, Represents-one_length};

    type Entry = CounterEntry;

    type Origin = ();

    ghost number_of = { λ e. e.caller };

    ghost origin_of = { λ _. tt };

    ghost represents_list = { Represents };

    fn number(entry: &CounterEntry) -> u16 {
        entry.caller
    }

    ghost one_length = { Represents-one_length };
}
