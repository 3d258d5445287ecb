//! The number of commands that the other history does not have.
ghost use Rattle.std.specs.Prelude.{◌≡◌, ◌++◌, ◌∷◌, [], List};
ghost use Rattle.pie_event.specs.declared.command.Event.{Event};
ghost use Rattle.pie_trace.specs.Other.{counts_of};
ghost use Rattle.pie_trace.specs.Other.{omitted_if};

use pie_book::{Answer, Command};

/// The number of commands of a history that the other history refuses at their place, for example an update before the
/// due moment. The other history has no events for them (this project's own).
#[derive(Clone, Copy, Debug, Default, PartialEq, Eq)]
pub struct Omitted {
    /// Arrivals.
    pub arrivals: u64,
    /// Departures.
    pub departures: u64,
    /// Updates.
    pub updates: u64,
    /// Resets.
    pub resets: u64,
    /// Changes of the parameters.
    pub changes: u64,
}

impl Omitted {
    /// Returns the numbers for no command.
    pub(crate) fn none() -> Omitted
        ensures { result ≡ counts_of [] }
    {
        Omitted::default()
    }

    /// Counts one more command.
    #[tactic(auto, using(crate::proofs::WhatIfFacts::counted))]
    fn count(&mut self, command: &Command)
        ensures { (events : List Event) (event : Event) → event.command ≡ command.now → self.old ≡ counts_of events
            → self.new ≡ counts_of (events ++ event ∷ []) }
    {
        match command {
            Command::Arrive { .. } => self.arrivals = self.arrivals.saturating_add(1),
            Command::Depart { .. } => self.departures = self.departures.saturating_add(1),
            Command::Update { .. } => self.updates = self.updates.saturating_add(1),
            Command::Reset { .. } => self.resets = self.resets.saturating_add(1),
            Command::SetParams { .. } => self.changes = self.changes.saturating_add(1),
        }
    }

    /// Counts the command of an event of the history, unless the other history has this answer to it.
    pub(crate) fn count_unless(&mut self, command: &Command, answer: Option<Answer>)
        ensures { (events : List Event) (event : Event) → event.command ≡ command.now → self.old ≡ counts_of events
            → self.new ≡ counts_of (events ++ omitted_if event answer) }
    {
        if answer.is_none() {
            self.count(command);
        }
    }
}
