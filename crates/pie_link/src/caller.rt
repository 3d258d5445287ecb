//! A caller of a link.
ghost use Rattle.std.specs.Prelude.{◌≡◌, ◌<◌};

use crate::kept_book::KeptBook;
use pie_lock::Pass;
use std::marker::Model;

/// The right to call a link under the numbers `first()..limit()`, at least one.
///
/// The events of this caller have the number `first()`. A dropped caller takes its numbers with it.
#[derive(Drop)]
pub struct Caller {
    pub(crate) pass: Pass<KeptBook>,
}

impl Model for Caller {
    ghost use Rattle.pie_link.specs.Callers.{CallerView};

    ghost Value = { CallerView };

    ghost view = { λ c. c.pass };
}

impl Caller {
    /// Returns the lowest number. The events of this caller have it.
    pub fn first(&self) -> u16
        ensures value { result ≡ self.now.first }
        ensures some { self.now.first < self.now.limit }
    {
        self.pass.first()
    }

    /// Returns the highest number plus one.
    pub fn limit(&self) -> u16
        ensures value { result ≡ self.now.limit }
        ensures some { self.now.first < self.now.limit }
    {
        self.pass.limit()
    }
}
