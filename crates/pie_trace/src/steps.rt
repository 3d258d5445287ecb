//! The loop over the records of a text, for runs, migrations and other histories.
ghost use Rattle.std.specs.Prelude.{◌≡◌, ◌<◌, ◌≤◌, ◌+◌, ◌++◌, ◌∷◌};
ghost use Rattle.pie_trace.specs.{Appends, Err, IfErr, List, NoIoOrMemoryFailed, Ok, OnOk, Option, Result, Some, TraceFault, [], append_known, false, is_io_or_memory, ℕ};

use pie_record::{Page, Record, Records, TraceFault};
use std::io::{Read, Write};

/// The steps of a pass over the records of a text, after its beginning.
///
/// `comes steps max number rows result before now` holds if the pass over the remaining records `rows`, the first of which
/// has this number, of at most `max` records in all, ends with this result and appends its output. `can_step` is the
/// condition of a step on the record with a number.
pub(crate) trait Steps<E> {
    ghost can_step: { Self → ℕ → Type 0 };

    ghost comes: { Self → ℕ → ℕ → List (List (List ℕ)) → Result E TraceFault → Option (List ℕ) → Option (List ℕ) → Type 0 };

    /// Takes the record with this number, and adds the records to write to `rows`.
    fn take(&mut self, number: u64, row: &Record, rows: &mut Page) -> Result<(), TraceFault>
        requires { can_step self.old number }
        ensures next { OnOk result ((max : ℕ) (rest : List (List (List ℕ))) (end : Result E TraceFault) (out between last : Option (List ℕ))
            → number ≤ max → Appends (append_known out rows.new) between [] → comes self.new max (number + 1) rest end between last
            → comes self.old max number (row.now ∷ rest) end (append_known out rows.old) last) }
        ensures can { OnOk result (can_step self.new (number + 1)) }
        ensures faulty { IfErr result (λ why. is_io_or_memory why ≡ false → (rows.new ≡ rows.old)
            × ((max : ℕ) (rest : List (List (List ℕ))) (now : Option (List ℕ)) → number ≤ max
            → comes self.old max number (row.now ∷ rest) (Err why) now now)) };

    /// Returns the result if no record follows.
    fn finish(&self) -> E
        ensures { (max number : ℕ) (now : Option (List ℕ)) → comes self.now max number [] (Ok result) now now };
}

/// Takes the remaining records, one after another, after `before` records of at most `max_records`. Returns the result.
pub(crate) fn take_all<R: Read, W: Write, E, S: Steps<E>>(
    records: &mut Records<R>,
    steps: &mut S,
    rows: &mut Page,
    writer: &mut W,
    row: &mut Record,
    before: u64,
    max_records: u64,
) -> Result<E, TraceFault>
    requires can { S.can_step steps.old (before + 1) }
    requires long { (it : S) (number : ℕ) (row : List (List ℕ)) (rest : List (List (List ℕ))) (now : Option (List ℕ))
        → max_records < number → S.comes it max_records number (row ∷ rest) (Err TraceFault.TooLong) now now }
    ensures { (all : List (List (List ℕ))) → records.old ≡ Some all → NoIoOrMemoryFailed result → S.comes steps.old max_records (before + 1) all result
        (append_known (W.contents writer.old) rows.old) (append_known (W.contents writer.new) rows.new) }
{
    let mut read = before;
    'each: loop {
        let found = match records.next_within(row, read, max_records) {
            Ok(found) => found,
            Err(why) => return Err(why),
        };
        if !found {
            return Ok(steps.finish());
        }
        match steps.take(read + 1, row, rows) {
            Ok(()) => {}
            Err(why) => return Err(why),
        }
        match rows.write_if_full(writer) {
            Ok(()) => {}
            Err(why) => return Err(why),
        }
        read += 1;
    }
}
