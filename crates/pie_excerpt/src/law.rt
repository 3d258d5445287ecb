//! The laws of reading back (this project's own). The functions do nothing: their contracts are the laws.
ghost use Rattle.pie_excerpt.specs.{All, Beginning.Beginning, Continues, CoreSnapshot, CoreView, Err, Event, HasField, IsWellBegun, IsWritten, List, Ok, Opening, Option, Represents, Resume, ResumeFits, Row, Three, Waiting, WaitingFits, [], beginning_of, begun_at, map, opened_at, opening_of, queued_of, queued_row, records_of, resume_of, resume_row, resume_with, resumed_by, rows_from, rows_text, take, version_of, ℕ};
ghost use Rattle.std.specs.Prelude.{◌++◌, ◌∷◌, ◌≡◌};
ghost use Rattle.pie_record.specs.declared.fault.RecordFault.TheVariants as flaw;

/// The law of records, for all numbers of their types (this project's own). The state of a core, with each register
/// and statistic, and each waiting packet are read back from their records as they were written.
#[tactic(auto, using(crate::proofs::BackFacts::resume_back, crate::proofs::BackFacts::queued_back))]
pub fn records_are_read_back()
    ensures resume { (r : Resume) → ResumeFits r → resume_of (resume_row r) ≡ Ok r }
    ensures queued { (w : Waiting) → WaitingFits w → queued_of (queued_row w) ≡ Ok (w.packet, w.since) }
{}

/// The beginning of a text consists of its first record and those with which the packets of its core are written
/// (`again`). So a program with the first record and the core can write all records as they were read. A beginning is
/// read equally whatever follows it (`alone`). Written with other records behind it, it is read back with these (`text`).
/// The opening of a valid beginning is one that a book accepts (`opens`; this project's own).
pub fn beginnings_are_written_again()
    ensures again { (row : Row) (rows : List Row) (begun : Beginning) → beginning_of (row ∷ rows) ≡ Ok begun
        → take begun.records_read (row ∷ rows) ≡ row ∷ map queued_row begun.core.waiting }
    ensures alone { (rows more : List Row) (begun : Beginning) → beginning_of rows ≡ Ok begun
        → beginning_of (take begun.records_read rows ++ more) ≡ Ok (record begun { left = more }) }
    ensures text { (rows more : List Row) (begun : Beginning) → beginning_of rows ≡ Ok begun → All HasField more
        → records_of (rows_text (take begun.records_read rows ++ more)) ≡ take begun.records_read rows ++ more }
    ensures opens { (rows : List Row) (begun : Beginning) → beginning_of rows ≡ Ok begun → IsWellBegun begun }
{
    pie_record::law::openings_are_checked();
}

/// The law of whole histories. A text whose first record is an opening begins with the state of that opening (`begins`).
/// It continues the history of no event (`continues`). Its first record is not `resume` (`other`). Each text of an
/// earlier version begins so (`earlier`; this project's own).
pub fn histories_begin_at_openings()
    ensures begins { (row : Row) (rows : List Row) (opening : Opening) → opening_of row ≡ Ok opening
        → beginning_of (row ∷ rows) ≡ Ok (opened_at (version_of row) opening rows) }
    ensures continues { (row : Row) (rows : List Row) (opening : Opening) → opening_of row ≡ Ok opening → Continues (row ∷ rows) opening [] }
    ensures other { (row : Row) (opening : Opening) → opening_of row ≡ Ok opening → resume_of row ≡ Err flaw.Kind }
    ensures earlier { (row : Row) (rows : List Row) (begun : Beginning) → beginning_of (row ∷ rows) ≡ Ok begun → (begun.version ≡ Three → ⊥)
        → (opening_of row ≡ Ok begun.opening) × (begun ≡ opened_at (version_of row) begun.opening rows) }
{
    pie_book::law::parts_decide_as_a_core();
}

/// The law of preambles. A text begins with the records of a core's numbers, and of the packets that wait in it. Then it
/// begins as its first record states (`resumes`), and its beginning is read back as it was written (`read_back`), whether a
/// history leads to the core's numbers or not. It continues each history that the core represents, whatever follows
/// (`continues`; this project's own).
pub fn preambles_are_resumed()
    ensures resumes { (opening : Opening) (snapshot : CoreSnapshot) (set_by : Option ℕ) (rows : List Row)
        → let row = resume_row (resume_with opening snapshot set_by) in beginning_of (row ∷ rows) ≡ resumed_by (resume_of row) rows }
    ensures read_back { (opening : Opening) (core : CoreView) (set_by : Option ℕ) (more : List Row) → IsWritten opening core set_by
        → beginning_of (rows_from opening core set_by more) ≡ Ok (begun_at opening core set_by more) }
    ensures continues { (opening : Opening) (core : CoreView) (past : List Event) (set_by : Option ℕ) (more : List Row) → IsWritten opening core set_by
        → Represents opening core past → Continues (rows_from opening core set_by more) opening past }
{
    pie_book::law::packets_of_a_core_are_taken();
}
