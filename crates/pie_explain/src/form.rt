//! The form of explanations.
ghost use Rattle.std.specs.Prelude.{◌≡◌, None, if◌then◌else◌};

use pie_record::Clock;

/// The form of explanations.
#[derive(Clone, Copy)]
pub struct Form {
    /// True for CSV: a header row, and then one record for each event. False for words: several lines for each event.
    pub csv: bool,
    /// With wall-clock times, by the last clock record before the event. In words they replace the moments, if
    /// there is such a record. A CSV record has the wall-clock time of the effective moment as an additional last
    /// field, which is empty without such a record.
    pub by_wall: bool,
}

impl Form {
    /// Returns the clock record for wall-clock times, or `None` if the form has none.
    pub fn clock(self, clock: Option<Clock>) -> Option<Clock>
        ensures { result ≡ (if self.by_wall then clock else None) }
    {
        if self.by_wall { clock } else { None }
    }
}
