//! The laws of records and texts: written records are read back, and a record that was read is written again.
//! The functions do nothing: their contracts are the laws (this project's own).
ghost use Rattle.std.specs.Prelude.{◌≡◌, ◌≢◌, ◌++◌, ◌∷◌};
ghost use Rattle.pie_record.specs.{Opening, Ok, first_bad, Draft, FirstKind, Checked, checked_opening, AnswersAreReadBack, IsRecordOf, Line, RequestsAreWrittenAgain, Row, TextsAreReadBack, line_rows, rows_unless_note, ℕ, List, IfOk, None, history_opening, later_fault, lost_row};

/// The history record of a request is read back as it was written: the event with its answer, the wall-clock time, or a note.
#[tactic(auto, using(crate::proofs::ReadBack::answered_back, crate::proofs::ReadBack::clock_reads, crate::proofs::ReadBack::folded_note, crate::proofs::ReadBack::refused_note, crate::proofs::ReadBack::shown_note, crate::proofs::ReadBack::tallied_note))]
pub fn answers_are_read_back()
    ensures { AnswersAreReadBack }
{}

/// A record of a command or of the wall-clock time has exactly the fields with which it is written again.
pub fn requests_are_written_again()
    ensures { RequestsAreWrittenAgain }
{}

/// The record of a line, except a note, is the record that is written for this line.
#[tactic(auto, using(crate::proofs::ReadBack::lines_written))]
pub fn lines_are_written_again()
    ensures { (row : Row) (line : Line) → IsRecordOf row line → line_rows line ≡ rows_unless_note line row }
{}

/// A text of written records is read back as those records. If each record has a line, the text is read back as those lines, with no fault behind
/// them. The text of an opening and its events is read back as their history.
pub fn texts_are_read_back()
    ensures { TextsAreReadBack }
{}

/// The opening of a text that could be read consists of the values of its fields. No book refuses it, and its parameters are in their ranges.
pub fn openings_are_checked()
    ensures { (kind : FirstKind) (draft : Draft) (opening : Opening) → checked_opening kind (first_bad draft.params) draft ≡ Ok opening
        → Checked draft opening }
{}

/// The law of lost events. If a text has a record of lost events, every reader of the text as a history finds a
/// fault: the first record opens no history, or a later one has a fault. So no audit finds the text clean.
#[tactic(auto, using(crate::proofs::TextFacts::lost_is_fault))]
pub fn lost_records_are_faults()
    ensures { (max_records count : ℕ) (before after : List Row) → IfOk (history_opening (before ++ lost_row count ∷ after))
        (λ opening. later_fault max_records (before ++ lost_row count ∷ after) ≢ None) }
{}
