//! The laws of runs, migrations and other histories: history texts are read back and are clean, and excerpts continue a
//! history.
ghost use Rattle.pie_audit.specs.{Replay.CanBeMade, Text.text_lines};
ghost use Rattle.pie_book.specs.Decision.{IsLegal};
ghost use Rattle.pie_event.specs.Event.{CommandFits};
ghost use Rattle.pie_record.specs.Plain.{lost_row};
ghost use Rattle.pie_trace.specs.{All, Clean, Event, HaveSameLines, IsFound, IsHistoryText, List, None, Ok, Opening, Beginning, Continues, Promises, Request, Row, Some, before_fault, end_of, fault_of, first_in_two, fold_reply, history_fault, history_lines, history_opening, history_text, history_version, length, migrated_text, migrated_version, opening_of, progress_after, progress_at_end, progress_resumed, records_of, replies, requests_of, end_of_run, fault_of_run, resumed_progress, text_of_run, beginning_within, run_lines, start, steps_of, text_finding, version_of, whole_begun, ℕ, [], beginning_of, events_of, rows_text, take, text_fault, declared.run.RunEnd.RunEnd};
ghost use Rattle.pie_trace.specs.{Other.ReadLine, Other.first_point, Other.point_at_end, WhatIf.end_after, WhatIf.other_text};
ghost use Rattle.pie_trace.specs.declared.{alteration.Alteration.Alteration, decider.Outcome.TheVariants.NoEvents};
ghost use Rattle.std.specs.Prelude.{◌++◌, ◌<◌, ◌^◌, ◌∷◌, ◌≡◌, ◌≢◌, ◌≤◌};

/// The promises of the lower crates about all histories and all records.
///
/// The function does nothing: its contract is the law.
pub(crate) fn promises_hold()
    ensures { Promises }
{
    pie_book::law::all_numbers_fit();
    pie_record::law::answers_are_read_back();
    pie_record::law::openings_are_checked();
    pie_record::law::requests_are_written_again();
    pie_record::law::texts_are_read_back();
}

/// The law of reading back. `HistoryLines` reads the output of `run_trace`. Let the first record of a trace open a
/// book. The trace's history text has that opening, the event of each command that was answered, each clock record, a
/// note for each other record, and then its end without a fault. If the trace has a fault, its history text is that
/// of the records before it.
///
/// The function does nothing: its contract is the law (this project's own).
pub fn history_texts_are_read_back()
    ensures { (max_records : ℕ) (row : Row) (rows : List Row) (opening : Opening) → 0 < max_records → max_records ≤ 2 ^ 32 → opening_of row ≡ Ok opening
        → IsHistoryText (history_text max_records (row ∷ rows)) opening (run_lines (version_of row) max_records opening rows) }
{
    promises_hold();
}

/// The law of excerpts: the run of an excerpt gives the answers of the whole from there on. Let a whole trace have
/// some requests, then a fold of all events of its event log, and then further requests. The further requests have the
/// answers of the run that continues after the history so far, and both runs end in the same state (this project's
/// own).
///
/// The function does nothing: its contract is the law.
#[tactic(auto, using(crate::proofs::RunBack::whole_replies, crate::proofs::RunBack::whole_ends))]
pub fn resumed_runs_continue_the_whole()
    ensures answers { (opening : Opening) (earlier later : List Request) → let there = progress_at_end opening earlier in
        replies opening start (earlier ++ Request.Fold there.tail_length ∷ later)
        ≡ replies opening start earlier ++ fold_reply there.tail_length ∷ replies opening (resumed_progress there.history) later }
    ensures ends { (opening : Opening) (earlier later : List Request) → let there = progress_at_end opening earlier in
        progress_at_end opening (earlier ++ Request.Fold there.tail_length ∷ later) ≡ progress_after opening (resumed_progress there.history) (steps_of later) }
{}

/// The law of whole traces: a trace whose first record is an opening begins with it. So its run is that of the whole
/// trace (`fault_of`, `history_text`, `end_of`).
///
/// The function does nothing: its contract is the law (this project's own).
#[tactic(auto, using(crate::proofs::RunFacts::whole_begins))]
pub fn whole_traces_begin_at_openings()
    ensures { (max_records : ℕ) (row : Row) (rows : List Row) (opening : Opening) → opening_of row ≡ Ok opening
        → beginning_within max_records (row ∷ rows) ≡ whole_begun max_records (row ∷ rows) }
{
    pie_excerpt::law::histories_begin_at_openings();
}

/// The law of clean runs. The finding of a trace's history text is `Clean`, with the number of events that the run
/// recorded (`whole`). If the trace has a fault, its history text is that of the records before it, and that text
/// is clean (`up_to_fault`).
///
/// The function does nothing: its contract is the law (this project's own).
#[tactic(auto, using(crate::proofs::RunBack::run_clean, crate::proofs::RunBack::whole_clean))]
pub fn runs_are_clean()
    ensures whole { (max_records : ℕ) (rows : List Row) (end : RunEnd) → max_records ≤ 2 ^ 32 → fault_of max_records rows ≡ None → end_of max_records rows ≡ Some end
        → text_finding (records_of (history_text max_records rows)) ≡ Ok (Clean end.events) }
    ensures up_to_fault { (max_records : ℕ) (row : Row) (rows : List Row) (opening : Opening) → 0 < max_records → max_records ≤ 2 ^ 32 → opening_of row ≡ Ok opening
        → text_finding (records_of (history_text max_records (row ∷ rows)))
        ≡ Ok (Clean (length (progress_at_end opening (requests_of (version_of row) (before_fault (version_of row) max_records 2 rows))).history)) }
{
    promises_hold();
    pie_audit::law::clean_is_legal();
    history_texts_are_read_back();
}

/// The law of clean runs after a history. The output of the run of a text continues every history that the text
/// continues and whose commands fit their types, and is clean with it. The finding has the number of all events,
/// including those before (`whole`). If the text has a fault after its beginning, its history text is that of the
/// records before it, and that text is clean (`up_to_fault`).
///
/// The function does nothing: its contract is the law (this project's own).
pub fn continued_runs_are_clean()
    ensures whole { (max_records : ℕ) (rows : List Row) (opening : Opening) (past : List Event) (end : RunEnd) → max_records ≤ 2 ^ 32 → Continues rows opening past
        → All (λ event. CommandFits event.command) past → fault_of_run max_records rows ≡ None → end_of_run max_records past rows ≡ Some end
        → IsFound (text_of_run max_records past rows) opening past (Clean end.events) }
    ensures up_to_fault { (max_records : ℕ) (rows : List Row) (opening : Opening) (past : List Event) (begun : Beginning) → max_records ≤ 2 ^ 32
        → Continues rows opening past → All (λ event. CommandFits event.command) past → beginning_within max_records rows ≡ Ok begun
        → IsFound (text_of_run max_records past rows) opening past (Clean (length (progress_resumed max_records past begun).history)) }
{
    promises_hold();
    pie_excerpt::law::beginnings_are_written_again();
    pie_audit::law::clean_texts_are_legal();
    pie_audit::law::events_are_lines();
    pie_audit::law::written_excerpts_are_read();
}

/// The law of lost events in texts. If a text has a record of lost events, every reader of the text finds a fault. So no
/// audit finds it clean.
///
/// The function does nothing: its contract is the law (this project's own).
#[tactic(auto, using(crate::proofs::RunBack::lost_part_is_fault))]
pub fn lost_records_are_faults_of_texts()
    ensures { (count : ℕ) (before after : List Row) → text_fault (before ++ lost_row count ∷ after) ≢ None }
{
    pie_excerpt::law::beginnings_are_written_again();
}

/// The law of migrated histories. `HistoryLines` reads the output of `migrate`. The migrated text of every history
/// whose first record opens one is of version two, or of version three if the history is. It has that opening, the
/// lines before the history's first fault, and then its end without a fault. So if the history has no fault, both
/// texts have the same opening and lines.
///
/// The function does nothing: its contract is the law (this project's own).
pub fn migrated_histories_are_read_back()
    ensures reads { (rows : List Row) (opening : Opening) → history_opening rows ≡ Ok opening
        → IsHistoryText (migrated_text (2 ^ 32) rows) opening (history_lines (2 ^ 32) rows) }
    ensures version { (rows : List Row) (opening : Opening) → history_opening rows ≡ Ok opening
        → history_version (records_of (migrated_text (2 ^ 32) rows)) ≡ migrated_version (history_version rows) }
    ensures same { (text : List ℕ) → history_fault (2 ^ 32) (records_of text) ≡ None → HaveSameLines text (migrated_text (2 ^ 32) (records_of text)) }
{
    pie_record::law::texts_are_read_back();
}

/// The law of a second migration: a migrated history is migrated to itself.
///
/// The function does nothing: its contract is the law (this project's own).
#[tactic(auto, using(crate::proofs::MigrateFacts::migrated_twice))]
pub fn migrating_again_changes_nothing()
    ensures { (rows : List Row) → migrated_text (2 ^ 32) (records_of (migrated_text (2 ^ 32) rows)) ≡ migrated_text (2 ^ 32) rows }
{
    pie_record::law::texts_are_read_back();
}

/// The history text of a run, migrated, is that of the run of the same trace with its first record in version two. For a trace of version one, that
/// record is `open2` with profile one; a trace of a later version is unchanged. If the trace has a fault, both are the text of the records before it.
///
/// It does nothing: its contract is the law (this project's own).
#[tactic(auto, using(crate::proofs::MigrateFacts::run_migrated))]
pub fn migrated_runs_are_runs_of_version_two()
    ensures { (max_records : ℕ) (row : Row) (rows : List Row) → max_records ≤ 2 ^ 32
        → migrated_text (2 ^ 32) (records_of (history_text max_records (row ∷ rows))) ≡ history_text max_records (first_in_two row ∷ rows) }
{
    promises_hold();
    pie_book::law::profile_one_is_always_active();
}

/// The finding of a history without a fault is that of its migrated text, in each version.
///
/// It does nothing: its contract is the law (this project's own).
pub fn migration_keeps_the_finding()
    ensures { (text : List ℕ) → history_fault (2 ^ 32) (records_of text) ≡ None
        → text_finding (records_of (migrated_text (2 ^ 32) (records_of text))) ≡ text_finding (records_of text) }
{
    migrated_histories_are_read_back();
}

/// The law of other histories. If the events before a text are legal, all events of the other history are legal, whatever
/// the alteration and the lines of the text are.
///
/// The function does nothing: its contract is the law (this project's own).
#[tactic(auto, using(crate::proofs::WhatIfFacts::legal_other))]
pub fn other_histories_are_legal()
    ensures { (alteration : Alteration) (opening : Opening) (past : List Event) (lines : List ReadLine) → IsLegal opening past
        → IsLegal opening (point_at_end alteration (first_point opening past) lines).events }
{
    pie_book::law::all_numbers_fit();
}

/// The law of the events before the moment. If no event of a legal text without a fault has the alteration's moment or a
/// later one, the other history has the records of the text (`text`). For a whole history these are all its records
/// (`whole`), in each version.
///
/// The function does nothing: its contract is the law (this project's own).
pub fn histories_before_the_moment_are_written_again()
    ensures text { (alteration : Alteration) (rows : List Row) (begun : Beginning) (opening : Opening) (past : List Event)
        → end_after alteration (first_point opening past) (beginning_of rows) ≡ Some NoEvents → beginning_of rows ≡ Ok begun
        → text_fault rows ≡ None → All CanBeMade (text_lines rows) → IsLegal opening (past ++ events_of (text_lines rows))
        → other_text alteration (first_point opening past) rows ≡ rows_text (take begun.records_read rows ++ begun.left) }
    ensures whole { (alteration : Alteration) (row : Row) (rows : List Row) (opening : Opening)
        → end_after alteration (first_point opening []) (beginning_of (row ∷ rows)) ≡ Some NoEvents → opening_of row ≡ Ok opening
        → text_fault (row ∷ rows) ≡ None → All CanBeMade (text_lines (row ∷ rows)) → IsLegal opening (events_of (text_lines (row ∷ rows)))
        → other_text alteration (first_point opening []) (row ∷ rows) ≡ rows_text (row ∷ rows) }
{
    pie_excerpt::law::histories_begin_at_openings();
    pie_record::law::lines_are_written_again();
}
