//! The explanation of one event.
ghost use Rattle.std.specs.Prelude.{◌≡◌, List};
ghost use Rattle.pie_event.specs.declared.{command.Event.Event, opening.Opening.Opening};
ghost use Rattle.pie_book.specs.{Core.Represents, Decision.wait_of};
ghost use Rattle.pie_event.specs.Event.{effect_of};
ghost use Rattle.pie_explain.specs.Explanation.{moment_at, moment_of};

use pie_book::{Answer, Cause, Command, Core, Event, Registers};
use pie_event::Setter;
use pie_record::Clock;

/// One event and the numbers before it. Times are in nanoseconds, probabilities in units of `10^-12`.
#[derive(Clone, Copy)]
pub struct Explanation {
    /// The number of the event, counted from 1.
    pub number: u64,
    /// The event.
    pub event: Event,
    /// Its effective moment: the greatest moment of all commands up to it.
    pub moment: u64,
    /// The controller's numbers before it.
    pub before: Registers,
    /// The queueing delay before it (RFC 8033, section 5.2).
    pub delay: u64,
    /// The cause, if the event is an arrival.
    pub cause: Option<Cause>,
    /// The departed packet's time in the queue, or 0 for any other event.
    pub waited: u64,
    /// The last event before it that set the probability: an update while the controller was active, a reset, or an arrival that turned
    /// it on.
    pub set_by: Setter,
    /// The number of updates before it.
    pub updates: u64,
    /// The last clock record before it.
    pub clock: Option<Clock>,
}

/// An explanation, and the controller's numbers after the event.
#[derive(Clone, Copy)]
pub struct Explained {
    /// The event and the numbers that it met.
    pub explanation: Explanation,
    /// The controller's numbers after it.
    pub after: Registers,
    /// The queueing delay after it (RFC 8033, section 5.2).
    pub delay: u64,
}

/// Returns the departing packet's time in the queue at the effective moment `now`, or 0 for any other event.
fn waited(core: &Core, event: &Event, now: u64) -> u64
    ensures { result ≡ wait_of (effect_of event.now) now core.now.waiting }
{
    match event.command {
        Command::Depart { .. } => match event.answer {
            Answer::Left(_) => match core.waiting(0) {
                Some(oldest) => now.saturating_sub(oldest.since.units()),
                None => 0,
            },
            _ => 0,
        },
        _ => 0,
    }
}

/// Returns the effective moment of an event that a core is about to decide.
#[tactic(auto, unfolding(pie_book::specs::Decision::registers_after))]
pub fn moment_of(core: &Core, event: &Event) -> u64
    ensures after { (opening : Opening) (history : List Event) → Represents opening core.now history → result ≡ moment_of opening history event.now }
    ensures in_state { result ≡ moment_at core.now event.now }
{
    let before = core.registers();
    let caller_moment = event.command.moment();
    before.moment.max(caller_moment)
}

impl Explained {
    ghost use Rattle.pie_explain.specs.Explanation.{explanation_in, with_core};

    /// Explains the event with this number before a core decides it. `set_by` is the event that last set the
    /// probability, and `clock` the last clock record. The result is built in its final place. Until `end` the
    /// numbers after the event are those before it.
    #[inline(always)]
    pub(crate) fn begin(
        core: &Core,
        number: u64,
        event: &Event,
        set_by: Setter,
        clock: Option<Clock>,
    ) -> Explained
        ensures in_state { result.explanation ≡ explanation_in core.now number event.now set_by clock }
        ensures event { result.explanation.event ≡ event.now }
        ensures clock { result.explanation.clock ≡ clock }
    {
        let before = core.registers();
        let now = moment_of(core, event);
        let explanation = Explanation {
            number,
            event: *event,
            moment: now,
            before,
            delay: core.delay(),
            cause: core.cause(&event.command),
            waited: waited(core, event, now),
            set_by,
            updates: core.stats().updates,
            clock,
        };
        let (after, delay) = (explanation.before, explanation.delay);
        Explained {
            explanation,
            after,
            delay,
        }
    }

    /// Stores the numbers of a core that has decided the event. `event` is the explained event, and `clock` the last
    /// clock record. They are copied only now: a copy across the decision costs more.
    #[inline(always)]
    pub(crate) fn end(&mut self, event: &Event, clock: Option<Clock>, core: &Core)
        ensures { self.old.explanation.event ≡ event.now → self.old.explanation.clock ≡ clock → self.new ≡ with_core core.now self.old.explanation }
    {
        self.explanation.event = *event;
        self.explanation.clock = clock;
        self.after = core.registers();
        self.delay = core.delay();
    }
}
