//! Laws. Each function has an empty body: its contract is the law.
ghost use Rattle.std.specs.Prelude.{◌≡◌, List, true, ◌++◌, ◌∷◌, [], ℕ, All, None, nat_lt, ◌↔◌};
ghost use Rattle.pie_book.specs.{One, Event, Rolling, Opening, CoreView, Represents, registers_of, registers_after, active_after, answers, without_folds, AreSameUntilFull, RawParams, Command, IsLegal, decision, refusal_by_rule, event_of, stats_after, Update, first_core, core_after, state_after_calls, opened_by, call_of, refusal_of, answer_by, is_too_soon, waiting_after, first_bad, answer_in, apply_in, cause_after, cause_in, core_along, outcome, Follows, fits, opening_refusal, AnswerFits, CommandFits, ParamsFit, RegistersFit, StatsFit, after_call, core_of, SnapshotRepresents, AreQueued, Limits, MayOpen, Waiting, begun_with, end_refusal, queue_refusal, snapshot_of};
ghost use Rattle.pie_book.specs.Book.{Step};
ghost use Rattle.pie_aqm.specs.Steps.{due, due_of, now_at};
ghost use Rattle.pie_book.specs.declared.snapshot.CoreSnapshot.{CoreSnapshot};

/// States that folds change no answer except `HistoryFull`. If two runs from one opening have the same commands in the
/// same order and differ only in their folds, all commands have the same answers in both: in a rolling book always, in
/// a bounded one up to the first `HistoryFull` in either (this project's own).
///
/// The body is empty: the contract is the law. `Book::apply` is proved to answer each command as the run of the steps
/// before it does.
#[tactic(auto, using(crate::proofs::RunFacts::same_until_full, crate::proofs::RunFacts::same_when_rolling))]
pub fn folds_change_no_answer()
    ensures until_full { (opening : Opening) (some : List Step) (other : List Step) → without_folds some ≡ without_folds other
        → AreSameUntilFull (answers opening some) (answers opening other) }
    ensures rolling { (opening : Opening) (some : List Step) (other : List Step) → opening.choices.mode ≡ Rolling
        → without_folds some ≡ without_folds other → answers opening some ≡ answers opening other }
{}

/// States that in profile one the controller is active after every history (RFC 8033, section 5.3, applies to profile
/// two only).
///
/// The body is empty: the contract is the law. `Book::registers` is proved to return the activity after the book's
/// history.
#[tactic(auto, using(crate::proofs::CoreFacts::one_is_active_after))]
pub fn profile_one_is_always_active()
    ensures { (opening : Opening) (history : List Event) → opening.choices.profile ≡ One → active_after opening history ≡ true }
{}

/// States that the registers of any core that represents a history equal the look-back over the history.
///
/// The body is empty: the contract is the law, for a caller without the book.
#[tactic(auto, using(crate::proofs::CoreFacts::registers_is))]
pub fn registers_look_back()
    ensures { (opening : Opening) (core : CoreView) (history : List Event) → Represents opening core history
        → registers_of core ≡ registers_after opening history }
{}

/// States that the result of a step on a core agrees with the look-back over every history that the core represents
/// (this project's own). This holds for the refusal, the answer and the cause of each command, and for the result in a
/// book with this event log. It holds for the core after one command and after a list of events. The clauses of
/// `Core::step` and `Book::apply` state both. For a core without a history only the result of the step is stated.
///
/// The body is empty: the contract is the law.
#[tactic(auto, using(crate::proofs::CoreFacts::refusal_is, crate::proofs::CoreFacts::next_decided, crate::proofs::CoreFacts::cause_found, crate::proofs::CoreFacts::outcome_is))]
pub fn steps_look_back()
    ensures refusal { (opening : Opening) (core : CoreView) (history : List Event) → Represents opening core history
        → (command : Command) → refusal_of core command ≡ refusal_by_rule opening history command }
    ensures answer { (opening : Opening) (core : CoreView) (history : List Event) → Represents opening core history
        → (command : Command) → answer_in core command ≡ decision opening history command }
    ensures cause { (opening : Opening) (core : CoreView) (history : List Event) → Represents opening core history
        → (command : Command) → cause_in core command ≡ cause_after opening history command }
    ensures outcome { (opening : Opening) (core : CoreView) (history : List Event) → Represents opening core history
        → (tail_length : ℕ) (command : Command)
        → apply_in opening core tail_length command ≡ outcome opening (record { history = history; tail_length = tail_length }) command }
    ensures after { (opening : Opening) (core : CoreView) (history : List Event) → Represents opening core history
        → (caller : ℕ) (command : Command) → first_bad core.controller.params ≡ None → refusal_of core command ≡ None
        → Represents opening (core_after core command) (history ++ event_of caller command (answer_in core command) ∷ []) }
    ensures along { (opening : Opening) (core : CoreView) (history : List Event) (events : List Event) → Represents opening core history
        → first_bad core.controller.params ≡ None → All (λ event. CommandFits event.command) events → Follows core events
        → Represents opening (core_along core events) (history ++ events) }
{}

/// States that all numbers fit their fields' types: after every legal history, from an opening that a book accepts,
/// this holds for each register, statistic and answer. A legal history with one more decided command is legal (this
/// project's own).
///
/// The body is empty: the contract is the law, for readers of histories without a book.
#[tactic(auto, using(crate::proofs::BookFacts::all_params_fit, crate::proofs::BookFacts::all_registers_fit, crate::proofs::BookFacts::all_stats_fit, crate::proofs::BookFacts::all_answers_fit, crate::proofs::CoreFacts::answer_fits, crate::proofs::BookFacts::legal_at_first, crate::proofs::BookFacts::legal_with_one_more))]
pub fn all_numbers_fit()
    ensures params { (params : RawParams) → first_bad params ≡ None → ParamsFit params }
    ensures registers { (opening : Opening) (history : List Event) → opening_refusal opening.limits opening.moment ≡ None → ParamsFit opening.params
        → IsLegal opening history
        → All (λ event. CommandFits event.command) history → RegistersFit (registers_after opening history) }
    ensures stats { (opening : Opening) (history : List Event) → opening_refusal opening.limits opening.moment ≡ None → ParamsFit opening.params
        → IsLegal opening history
        → All (λ event. CommandFits event.command) history → StatsFit (stats_after opening history) }
    ensures answers { (opening : Opening) (history : List Event) (command : Command) → opening_refusal opening.limits opening.moment ≡ None
        → ParamsFit opening.params → IsLegal opening history
        → All (λ event. CommandFits event.command) history → refusal_by_rule opening history command ≡ None
        → AnswerFits (decision opening history command) }
    ensures kinds { (opening : Opening) (history : List Event) (command : Command) → fits command (decision opening history command) ≡ true }
    ensures legal_at_first { (opening : Opening) → IsLegal opening [] }
    ensures legal_with_one_more { (opening : Opening) (history : List Event) (caller : ℕ) (command : Command) → IsLegal opening history
        → refusal_by_rule opening history command ≡ None
        → IsLegal opening (history ++ event_of caller command (decision opening history command) ∷ []) }
{}

/// States that a controller with a queue of its caller decides as a core does, in both profiles (this project's own).
/// The library for C is proved to make exactly these calls.
///
/// - At its opening the controller's state is that of a core without events.
/// - For every history that a core represents, let the controller have the core's state, and let its caller pass the
///   bytes of the core's queue and a flag that is true if the ring is full. Then each command that is not refused has
///   the decision after that history as its answer.
/// - After the call the controller has the state of a core that represents the history with this event.
/// - An update is too soon for both or for neither.
///
/// The body is empty: the contract is the law.
#[tactic(auto, using(crate::proofs::CoreFacts::next_decided))]
pub fn parts_decide_as_a_core()
    ensures opens { (opening : Opening) → Represents opening (first_core opening) [] }
    ensures opened { (opening : Opening) → (first_core opening).controller ≡ opened_by opening }
    ensures decides { (opening : Opening) (core : CoreView) (history : List Event) → Represents opening core history
        → (command : Command) → answer_by core.controller core.waiting core.capacity command ≡ decision opening history command }
    ensures represents { (opening : Opening) (core : CoreView) (history : List Event) → Represents opening core history
        → (caller : ℕ) (command : Command) → first_bad core.controller.params ≡ None → refusal_of core command ≡ None
        → Represents opening (core_after core command) (history ++ event_of caller command (answer_by core.controller core.waiting core.capacity command) ∷ []) }
    ensures holds { (core : CoreView) (command : Command)
        → (core_after core command).controller ≡ after_call core.controller (call_of core.waiting core.capacity command) }
    ensures too_soon { (core : CoreView) (moment : ℕ) → is_too_soon core.controller.moment (due_of core.controller.params core.controller.control) (Update moment)
        ≡ nat_lt (now_at core.controller moment) (due core.controller) }
{}

/// States that a controller with a queue decides as a core does over a whole run (this project's own). If it was opened
/// as a legal history was, and made the calls of that history in order, it answers the next command that is not refused
/// with the decision after that history.
///
/// The body is empty: the contract is the law.
#[tactic(auto, using(crate::proofs::CoreFacts::run_beside))]
pub fn runs_decide_as_a_core()
    ensures { (opening : Opening) (history : List Event) (command : Command) → first_bad opening.params ≡ None → IsLegal opening history
        → All (λ event. CommandFits event.command) history
        → refusal_by_rule opening history command ≡ None
        → answer_by (state_after_calls opening history) (waiting_after opening history) opening.limits.packets command
        ≡ decision opening history command }
{}

/// States that events which follow from a snapshot are legal after every history that the snapshot and the packets
/// represent, and no other events are (this project's own). So an audit of an excerpt is clean exactly if, after any
/// such history, the events of the excerpt are legal. A reader cannot check that any history leads to these numbers.
///
/// The body is empty: the contract is the law.
#[tactic(auto, using(crate::proofs::CoreFacts::follows_legal))]
pub fn excerpts_are_legal_after_any_history()
    ensures { (opening : Opening) (snapshot : CoreSnapshot) (history : List Event) (excerpt : List Event) → SnapshotRepresents opening snapshot history
        → first_bad snapshot.controller.params ≡ None → All (λ event. CommandFits event.command) excerpt
        → Follows (core_of opening.limits snapshot (waiting_after opening history)) excerpt ↔ IsLegal opening (history ++ excerpt) }
{}

/// States that a core's numbers and packets can be resumed (this project's own). A core that resumes from the snapshot of
/// a core accepts all of its waiting packets, supplied one by one (`taken`), and none is missing at the end (`ended`). Each
/// core has the premise of `taken`, whether a history leads to its numbers or not (`queued` of [`Core::snapshot`]), and
/// its numbers are accepted (`believed` there). So a snapshot of a core or a checkpoint is refused only for lack of memory.
///
/// The packets that wait after a history have the premise too (`queued`). No book refuses to continue from a core that
/// represents a history at the history's opening (`opened`), nor from a core after more commands (`along`).
///
/// The body is empty: the contract is the law.
pub fn packets_of_a_core_are_taken()
    ensures taken { (limits : Limits) (core : CoreView) (before : List Waiting) (next : Waiting) (after : List Waiting)
        → AreQueued core.controller.moment core.waiting → core.waiting ≡ before ++ next ∷ after
        → queue_refusal (begun_with (core_of limits (snapshot_of core) before) (snapshot_of core)) next.packet next.since ≡ None }
    ensures ended { (limits : Limits) (core : CoreView)
        → end_refusal (begun_with (core_of limits (snapshot_of core) core.waiting) (snapshot_of core)) ≡ None }
    ensures queued { (opening : Opening) (core : CoreView) (history : List Event) → first_bad opening.params ≡ None
        → All (λ event. CommandFits event.command) history → Represents opening core history → AreQueued core.controller.moment core.waiting }
    ensures opened { (opening : Opening) (core : CoreView) (history : List Event) → Represents opening core history → MayOpen opening core }
    ensures along { (opening : Opening) (core : CoreView) (events : List Event) → MayOpen opening core → MayOpen opening (core_along core events) }
{}
