//! The laws of a link's entries, and of a burst's budget.
ghost use Rattle.pie_link.specs.Headline.{BurstsStayWithin, EntriesLookBack};

/// The events of a history and the events that its folds returned are those of its first part, followed by those of the
/// entries after it.
///
/// The function does nothing: its contract is the law, for callers whose proofs are about histories that grow.
#[tactic(auto, using(crate::proofs::KeptFacts::look_back))]
pub fn entries_look_back()
    ensures { EntriesLookBack }
{}

/// The packets that depart in a burst with a budget have at most that many bytes together.
///
/// The function does nothing: its contract is the law.
#[tactic(auto, using(crate::proofs::KeptFacts::bursts_stay_within))]
pub fn bursts_stay_within_their_bytes()
    ensures { BurstsStayWithin }
{}
