//! The law of excerpts: their explanations are those of the whole history.
ghost use Rattle.std.specs.Prelude.{◌≡◌, ◌++◌, map};
ghost use Rattle.pie_explain.specs.{List, Option, length, true, false, Event, Opening, Line, Valid, TraceFault, Start, from_opening, at_opening, IsAsAudited, answer_since, explanations, with_known_setter, explanations_since};
ghost use Rattle.pie_explain.specs.Names.{Selection};
ghost use Rattle.pie_audit.specs.Text.{judged};

/// The law of excerpts. A whole history gives all explanations (`whole`). An excerpt that names the event which set
/// the probability before it gives exactly the explanations of the whole history for its own events (`rest`). An
/// excerpt that doesn't name it gives these explanations, except that the event is unknown until an event of the
/// excerpt sets the probability (`unnamed`). The function does nothing: its contract is the law.
#[tactic(auto, using(crate::proofs::ExplainFacts::since_opening, crate::proofs::ExplainFacts::rest_reported, crate::proofs::ExplainFacts::as_unknown))]
pub fn excerpts_are_explained_as_the_whole()
    ensures whole { (opening : Opening) (selection : Selection) (lines : List Line)
        → explanations_since from_opening (at_opening opening) selection lines ≡ explanations (at_opening opening) selection lines }
    ensures rest { (opening : Opening) (selection : Selection) (past : List Event) (lines : List Line)
        → explanations (at_opening opening) selection (map Valid past ++ lines) ≡ explanations (at_opening opening) selection (map Valid past)
        ++ explanations_since (record { events = length past; tells = true }) (at_opening opening) selection (map Valid past ++ lines) }
    ensures unnamed { (opening : Opening) (selection : Selection) (past : List Event) (lines : List Line)
        → explanations_since (record { events = length past; tells = false }) (at_opening opening) selection (map Valid past ++ lines)
        ≡ map (with_known_setter (record { events = length past; tells = false }))
        (explanations_since (record { events = length past; tells = true }) (at_opening opening) selection (map Valid past ++ lines)) }
{}

/// The law of results. The result of an explanation agrees with the audit's finding: the fault, the first
/// difference, or none.
///
/// The function does nothing: its contract is the law.
#[tactic(auto, using(crate::proofs::ExplainFacts::since_audited))]
pub fn explaining_is_auditing()
    ensures { (start : Start) (selection : Selection) (opening : Opening) (lines : List Line) (fault : Option TraceFault)
        → IsAsAudited (judged opening lines fault) (answer_since selection start (at_opening opening) lines fault) }
{}
