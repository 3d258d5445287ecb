//! The difference between a history and the other history.
ghost use Rattle.std.specs.Prelude.{◌≡◌};
ghost use Rattle.pie_trace.specs.Other.{change_moment, is_at};

use crate::other_params::OtherParams;
use pie_record::Clock;
use pie_units::When;

/// The difference between a history and the other history: a change of the parameters at a moment (this project's own).
#[derive(Clone, Copy)]
pub struct Alteration {
    /// The moment, or the wall-clock time, of the change. The events before the first event of the text with this moment
    /// or a later one are those of the history. A wall-clock time is compared with that of an event's own moment, by the
    /// last clock record before the event.
    pub from: When,
    /// The parameters with other values from then on. Without any value the change sets the unchanged parameters: the
    /// other history is then the control.
    pub params: OtherParams,
}

impl Alteration {
    /// Returns true if `moment` is the moment of the alteration or a later one. `clock` is the last clock record.
    pub(crate) fn is_reached(&self, clock: Option<Clock>, moment: u64) -> bool
        ensures { result ≡ is_at self.now.from clock moment }
    {
        match (self.from, clock) {
            (When::Moment(from), _) => from <= moment,
            (When::Unix(from), Some(clock)) => from <= clock.unix_at(moment),
            (When::Unix(_), None) => false,
        }
    }

    /// Returns the moment of the change before an event of this moment: for a wall-clock time that of the event.
    pub(crate) fn change_moment(&self, moment: u64) -> u64
        ensures { result ≡ change_moment self.now.from moment }
    {
        match self.from {
            When::Moment(from) => from,
            When::Unix(_) => moment,
        }
    }
}
