//! Laws: the text that a sequence of writing calls produces is one that the laws of the readers apply to.
ghost use Rattle.std.specs.Prelude.{◌≡◌, ◌++◌, ◌∷◌, [], ℕ, All, List, Option, Some, map, true};
ghost use Rattle.pie_c.specs.State.{Opening};
ghost use Rattle.pie_c.specs.{flat_map, Event, cause_after, state_after, wait_of, effect_of, Setter, explanation, moment_of, with_after, Clock, rows_text, event_row, written_rows, resumed_rows, PieOpening, PieStats, PieState, WrittenEvent, KeepsSound, LooksBack, opening_text, event_of_written, written_text, opening_in, opening_of, opening_refusal, CanWait, is_snapshot, resume_of, resume_text, set_by_of, Waiting, snapshot_in, waiting_text, controller_state, is_sound, ExplainsCall};
ghost use Rattle.pie_book.specs.History.{waiting_after};

/// States that the writing calls produce the records of a history (this project's own).
///
/// - The output of `pie_write_opening`, followed by that of `pie_write_event` or `pie_write_params` for each event, is
///   the records of that opening and of these events (`whole`).
/// - The output of `pie_write_resume`, followed by that of `pie_write_queued` for each waiting packet, oldest first,
///   and by that of each event, is the records of an excerpt (`part`).
///
/// If the events are legal, both texts are clean by the laws of pie_audit: `recorded_calls_are_clean` and
/// `written_excerpts_are_read`. The body is empty: the contract is the law.
#[tactic(auto, using(crate::proofs::Sound::whole_written, crate::proofs::Sound::part_written))]
pub fn written_calls_are_records()
    ensures whole { (o : PieOpening) (events : List Event) (kept : List WrittenEvent) → opening_refusal o ≡ 0 → map event_of_written kept ≡ map Some events
        → opening_text (opening_of o) ++ flat_map written_text kept ≡ rows_text (written_rows (opening_in o) events) }
    ensures part { (o : PieOpening) (s : PieState) (t : PieStats) (count set_by packets bytes : ℕ) (waiting : List Waiting) (events : List Event)
        (kept : List WrittenEvent) → opening_refusal o ≡ 0 → is_sound s ≡ true → is_snapshot o s count packets bytes ≡ true → All CanWait waiting
        → map event_of_written kept ≡ map Some events
        → resume_text (resume_of o s t count set_by packets bytes) ++ (flat_map waiting_text waiting ++ flat_map written_text kept)
        ≡ rows_text (resumed_rows (opening_in o) (snapshot_in s t count packets bytes) waiting (set_by_of set_by) (map event_row events)) }
{}

/// States that the summing calls add their event to `period` as pie_explain explains it. `ExplainsCall` holds for that
/// explanation if the states before and after the call contain the controller's state after a history, without the
/// event and with it (this project's own).
///
/// The body is empty: the contract is the law.
pub fn summed_calls_are_explained()
    ensures { (opening : Opening) (history : List Event) (made : Event) (before after : PieState) (number : ℕ) (set_by : Setter) (day : Option Clock)
        → controller_state before ≡ state_after opening history → controller_state after ≡ state_after opening (history ++ made ∷ [])
        → after.moment ≡ moment_of opening history made
        → ExplainsCall before after day made (cause_after opening history made.command)
        (wait_of (effect_of made) after.moment (waiting_after opening history))
        (with_after opening (history ++ made ∷ []) (explanation opening history number made set_by day)) }
{}

/// States that a sound state stays sound and represents each call.
///
/// The body has no effect: the contract is the law.
#[inline(always)]
pub(crate) fn calls_are_lawful()
    ensures keeps { KeepsSound }
    ensures looks { LooksBack }
{
    pie_aqm::law::calls_keep_it_sound();
    pie_aqm::law::calls_look_back();
}
