//! The selection of the events to explain: the chosen ones, with a moment within the bounds.
ghost use Rattle.std.specs.Prelude.{◌≡◌};
ghost use Rattle.pie_explain.specs.Selection.{is_from, is_to, time_of};

use crate::choice::EventChoice;
use pie_audit::Auditor;
use pie_book::Event;
use pie_record::Clock;
use pie_units::When;

/// The selection of the events to explain.
#[derive(Clone, Copy)]
pub struct Selection {
    /// The choice of events.
    pub which: EventChoice,
    /// The first effective moment or wall-clock time; `None` without such a bound.
    pub from: Option<When>,
    /// The last effective moment or wall-clock time; `None` without such a bound.
    pub to: Option<When>,
}

/// Returns the wall-clock time at an effective moment, by the last clock record before the event.
pub fn time_of(clock: Option<Clock>, moment: u64) -> Option<u64>
    ensures { result ≡ time_of clock moment }
{
    match clock {
        Some(clock) => Some(clock.unix_at(moment)),
        None => None,
    }
}

/// Returns true if a moment is not before the first bound, or there is no first bound. `time` is its wall-clock
/// time. Without a wall-clock time the moment is before every bound in wall-clock time.
pub fn is_from(first: Option<When>, moment: u64, time: Option<u64>) -> bool
    ensures { result ≡ is_from first moment time }
{
    match (first, time) {
        (None, _) => true,
        (Some(When::Moment(first)), _) => first <= moment,
        (Some(When::Unix(first)), Some(time)) => first <= time,
        (Some(When::Unix(_)), None) => false,
    }
}

/// Returns true if a moment is not after the last bound, or there is no last bound. Without a wall-clock time the
/// moment is after every bound in wall-clock time.
pub fn is_to(last: Option<When>, moment: u64, time: Option<u64>) -> bool
    ensures { result ≡ is_to last moment time }
{
    match (last, time) {
        (None, _) => true,
        (Some(When::Moment(last)), _) => moment <= last,
        (Some(When::Unix(last)), Some(time)) => time <= last,
        (Some(When::Unix(_)), None) => false,
    }
}

impl Selection {
    ghost use Rattle.std.specs.Prelude.{None};
    ghost use Rattle.pie_explain.specs.Selection.{is_whole, picks};

    /// Returns the selection of these events, at every moment.
    pub fn of(which: EventChoice) -> Selection
        ensures { result ≡ record { which = which; from = None; to = None } }
    {
        Selection {
            which,
            from: None,
            to: None,
        }
    }

    /// Returns true if the event with this number and effective moment is selected. `auditor` has the last clock
    /// record before it. The selection of all events needs none of them.
    #[inline(always)]
    pub(crate) fn picks(&self, number: u64, moment: u64, auditor: &Auditor, event: &Event) -> bool
        ensures { result ≡ picks self.now number moment auditor.now.clock event.now }
    {
        match (self.which, self.from, self.to) {
            (EventChoice::All, None, None) => true,
            _ => self.picks_out_of_line(number, moment, auditor, event),
        }
    }

    /// Returns the result of `picks` for any selection.
    #[cold]
    #[inline(never)]
    fn picks_out_of_line(&self, number: u64, moment: u64, auditor: &Auditor, event: &Event) -> bool
        ensures { result ≡ picks self.now number moment auditor.now.clock event.now }
    {
        let time = time_of(auditor.clock(), moment);
        self.which.chooses(number, event)
            && (is_from(self.from, moment, time) && is_to(self.to, moment, time))
    }

    /// Returns true if the selection has no bounds.
    pub fn is_whole(self) -> bool
        ensures { result ≡ is_whole self }
    {
        !(self.from.is_some() || self.to.is_some())
    }
}
