//! Pieces of a text of recorded steps, each of which can be audited, explained and cut alone.
ghost use Rattle.std.specs.Prelude.{◌≡◌, ◌+◌, ◌-◌, ◌^◌, ◌<◌, ◌≤◌, ◌++◌, [], Err, IfErr, IfOk, IfSome, List, None, Ok, OnOk, length, true, false};
ghost use Rattle.std.specs.Io.KnownBytes.{Appends, append_known};
ghost use Rattle.pie_linux.specs.Enqueue.{one_if};
ghost use Rattle.pie_record.specs.Text.{records_of};
ghost use Rattle.pie_linux_history.specs.{Audit.has_failed, Cuts.IsEnd, Cuts.beginning_at, Cuts.begins_piece, Cuts.copied_at, Cuts.cut_after, Cuts.cut_of, Cuts.fault_in, Cuts.found_before, Cuts.is_after, Cuts.moment_at, Cuts.plan, Cuts.selects, Cutting.CutsRow, Cutting.CutsRows, Cutting.Stands, Known.HasRead, LookBack.Entry};

use crate::columns::{Columns, fault_at, lost_at, out_of_memory};
use crate::fault::StepsFault;
use crate::queues::{Queues, StepsCounts};
use crate::step::QueueName;
use crate::text::{StepsFinding, StepsReader, read_columns};
use pie_record::{Page, Record, RecordFault, Records, TraceFault};
use std::alloc::Global;
use std::io::{Read, Write};

/// A selection of rows, by their numbers and moments. The moment of a row is the latest of the column `ns` up to it, so the
/// moments do not decrease.
#[derive(Clone, Copy)]
pub struct RowSpan {
    /// The least number, counted from 1 after the first row.
    pub first: u64,
    /// The greatest number.
    pub last: u64,
    /// The earliest moment, in nanoseconds since boot.
    pub from: u64,
    /// The latest moment, in nanoseconds since boot.
    pub to: u64,
}

/// The pieces of a text.
#[derive(Clone, Copy)]
pub enum StepPieces {
    /// One piece, of these rows.
    Span(RowSpan),
    /// All rows, in pieces of this number of rows.
    Every(u64),
}

impl StepPieces {
    /// Returns true if a row with this number, counted from 1, and this moment is in a piece.
    fn selects(self, number: u64, moment: u64) -> bool
        ensures { result ≡ selects self number moment }
    {
        match self {
            StepPieces::Span(span) => {
                span.first <= number
                    && (number <= span.last && (span.from <= moment && moment <= span.to))
            }
            StepPieces::Every(every) => every != 0,
        }
    }

    /// Returns true if a piece begins with this row. The row before it has the moment `before`.
    fn begins(self, number: u64, before: u64, moment: u64) -> bool
        requires { 0 < number }
        ensures { result ≡ begins_piece self number before moment }
    {
        match self {
            StepPieces::Span(_) => {
                self.selects(number, moment) && !(1 < number && self.selects(number - 1, before))
            }
            StepPieces::Every(every) => every != 0 && (number - 1) % every == 0,
        }
    }

    /// Returns true if the row is after the last piece.
    fn is_after(self, number: u64, moment: u64) -> bool
        ensures { result ≡ is_after self number moment }
    {
        match self {
            StepPieces::Span(span) => span.last < number || span.to < moment,
            StepPieces::Every(_) => false,
        }
    }
}

/// Returns the fault of a row that cannot be read.
#[tactic(auto, unfolding(crate::specs::LookBack::entry_in))]
fn unreadable(columns: &Columns, fields: &Record) -> Option<RecordFault>
    ensures { result ≡ fault_in columns.now fields.now }
{
    match lost_at(fields) {
        Ok(None) => {}
        Ok(Some(_)) => return None,
        Err(why) => return Some(why),
    }
    match columns.read(fields) {
        Ok(_) if QueueName::new(columns.queue(fields)).is_none() => Some(RecordFault::Word),
        Ok(_) => None,
        Err(why) => Some(why),
    }
}

/// A text that is cut: its first row, its columns, and the pieces.
#[derive(Clone, Copy)]
struct CutText<'t> {
    pieces: StepPieces,
    names: &'t Record,
    columns: &'t Columns,
}

impl CutText<'_> {
    /// Begins a piece if this row is the first one of it: adds the first row of the text, and rows of each queue that is alive.
    fn begin(
        &self,
        number: u64,
        moment: u64,
        queues: &Queues,
        page: &mut Page,
    ) -> Result<(), TraceFault>
        requires { 0 < number }
        ensures begins { (entries : List Entry) → HasRead queues.now entries → OnOk result (page.new ≡ page.old
            ++ beginning_at (plan self.now.pieces self.now.names.now self.now.columns.now) entries number moment) }
        ensures memory { IfErr result (λ why. why ≡ TraceFault.Memory) }
    {
        if !self.pieces.begins(number, queues.moment, moment) {
            return Ok(());
        }
        page.row(self.names)?;
        match queues.write_resumed(self.columns, page) {
            Ok(()) => Ok(()),
            Err(_) => Err(TraceFault::Memory),
        }
    }

    /// Copies a row if it is in a piece, and counts it.
    fn copy(
        &self,
        number: u64,
        moment: u64,
        written: &mut u64,
        fields: &Record,
        page: &mut Page,
    ) -> Result<(), TraceFault>
        requires { written.old < 2 ^ 64 - 1 }
        ensures copies { OnOk result (page.new ≡ page.old ++ copied_at self.now.pieces number moment fields.now) }
        ensures counts { OnOk result (written.new ≡ written.old + one_if (selects self.now.pieces number moment)) }
        ensures memory { IfErr result (λ why. why ≡ TraceFault.Memory) }
    {
        if self.pieces.selects(number, moment) {
            *written += 1;
            return page.row(fields);
        }
        Ok(())
    }

    /// Takes a row: begins a piece before it, decides its step, and copies the row if it is in a piece. Returns the step that
    /// differs as the finding.
    fn take_row(
        &self,
        number: u64,
        moment: u64,
        written: &mut u64,
        queues: &mut Queues,
        fields: &Record,
        page: &mut Page,
    ) -> Result<Option<StepsFinding>, StepsFault>
        requires first { 0 < number }
        requires room { written.old < number }
        ensures within { OnOk result (written.new ≤ written.old + 1) }
        ensures takes { (entries : List Entry) → HasRead queues.old entries → number ≡ length entries + 1
            → moment ≡ moment_at self.now.columns.now entries fields.now → is_after self.now.pieces number moment ≡ false → has_failed result ≡ false
            → CutsRow (plan self.now.pieces self.now.names.now self.now.columns.now) None entries number fields.now result
            page.old page.new written.old written.new queues.new }
    {
        match self.begin(number, moment, queues, page) {
            Ok(()) => {}
            Err(why) => return Err(StepsFault::Trace(why)),
        }
        let difference = match queues.take(None, self.columns, fields) {
            Ok(difference) => difference,
            Err(why) => return Err(why),
        };
        match self.copy(number, moment, written, fields, page) {
            Ok(()) => {}
            Err(why) => return Err(StepsFault::Trace(why)),
        }
        match difference {
            Some(first) => Ok(Some(StepsFinding::Differs { first, count: 1 })),
            None => Ok(None),
        }
    }

    /// Returns the finding before a row: the one before it, or the counts if the row is the first one after the last piece.
    fn found_before(
        &self,
        number: u64,
        moment: u64,
        over: Option<StepsFinding>,
        counts: StepsCounts,
    ) -> Option<StepsFinding>
        ensures { result ≡ found_before (is_after self.now.pieces number moment) over counts }
    {
        match over {
            Some(finding) => Some(finding),
            None if self.pieces.is_after(number, moment) => Some(StepsFinding::Clean(counts)),
            None => None,
        }
    }

    /// Cuts a row with this number. After the last piece, and after a step that differs, there is a finding `over`, and the row
    /// is only read.
    fn cut_row(
        &self,
        number: u64,
        over: Option<StepsFinding>,
        written: &mut u64,
        queues: &mut Queues,
        fields: &Record,
        page: &mut Page,
    ) -> Result<Option<StepsFinding>, StepsFault>
        requires first { 0 < number }
        requires room { written.old < number }
        ensures within { OnOk result (written.new ≤ written.old + 1) }
        ensures cuts { (entries : List Entry) → Stands queues.old entries over number → has_failed result ≡ false
            → CutsRow (plan self.now.pieces self.now.names.now self.now.columns.now) over entries number fields.now result
            page.old page.new written.old written.new queues.new }
    {
        let moment = queues.moment.max(self.columns.moment(fields));
        let Some(finding) = self.found_before(number, moment, over, queues.counts) else {
            return self.take_row(number, moment, written, queues, fields, page);
        };
        match unreadable(self.columns, fields) {
            Some(why) => Err(fault_at(number.wrapping_add(1), why)),
            None => Ok(Some(finding)),
        }
    }

    /// Cuts all rows. Returns the number of rows that were copied, and the finding.
    fn cut_rows<R: Read, W: Write>(
        &self,
        records: &mut Records<R>,
        queues: &mut Queues,
        page: &mut Page,
        writer: &mut W,
        alloc: Global,
    ) -> Result<(u64, StepsFinding), StepsFault>
        ensures { HasRead queues.old [] → IfSome records.old (λ rows. has_failed result ≡ false
            → CutsRows (cut_after (plan self.now.pieces self.now.names.now self.now.columns.now) [] rows) result
            (append_known (W.contents writer.old) page.old) (append_known (W.contents writer.new) page.new)) }
    {
        let mut fields = Record::new(alloc);
        let mut written = 0;
        let mut over = None;
        'rows: for before in 0..u64::MAX {
            match records.next(&mut fields) {
                Ok(true) => {}
                Ok(false) => return Ok((
                    written,
                    over.unwrap_or(StepsFinding::Clean(queues.counts)),
                )),
                Err(why) => return Err(StepsFault::Trace(why)),
            }
            match self.cut_row(before + 1, over, &mut written, queues, &fields, page) {
                Ok(ended) => over = ended,
                Err(why) => return Err(why),
            }
            match page.write_if_full(writer) {
                Ok(()) => {}
                Err(why) => return Err(StepsFault::Trace(why)),
            }
        }
        Err(StepsFault::Trace(TraceFault::Read))
    }
}

/// Cuts pieces out of a text of recorded steps. A piece has the first row of the text, rows that hold the numbers of each queue
/// that is alive before the piece (resume.rt), and its rows as they were read. An audit of a piece finds what an audit of the
/// text finds in these rows. Events of a piece are counted anew. Each step up to the end of the last piece is decided again, and
/// a step that differs ends the piece. Returns the number of rows that were written, without those of running queues, and the
/// finding.
///
/// A queue whose last row is `destroy` has no rows in a piece.
///
/// # Errors
///
/// As [`audit`](crate::audit), also the fault of a record after the last piece, and `Write` if the writer fails. The rows before
/// the error are written.
pub fn cut<R: Read + Drop, W: Write>(
    alloc: Global,
    input: R,
    output: &mut W,
    pieces: StepPieces,
) -> Result<(u64, StepsFinding), StepsFault>
    ensures result { IfSome (R.remaining input) (λ text. has_failed result ≡ false → IsEnd (cut_of pieces (records_of text)) result) }
    ensures written { OnOk result (IfSome (R.remaining input) (λ text. Appends (W.contents output.old) (W.contents output.new) (cut_of pieces (records_of text)).text)) }
{
    let mut records = Records::new(alloc, StepsReader(input));
    let mut names = Record::new(alloc);
    let mut queues = Queues::new(alloc);
    let mut page = Page::new(alloc);
    let columns = match read_columns(&mut records, &mut names) {
        Ok(columns) => columns,
        Err(why) => return Err(why),
    };
    let text = CutText {
        pieces,
        names: &names,
        columns: &columns,
    };
    let done = match text.cut_rows(&mut records, &mut queues, &mut page, output, alloc) {
        Ok(done) => done,
        Err(why) => {
            let _ = page.finish(output);
            return Err(why);
        }
    };
    match page.finish(output) {
        Ok(()) => Ok(done),
        Err(why) => Err(StepsFault::Trace(why)),
    }
}

/// Returns the number of rows of a text after the first. No step is decided.
///
/// # Errors
///
/// `Read` or `Memory`.
pub fn count_rows<R: Read + Drop>(alloc: Global, input: R) -> Result<u64, TraceFault>
    ensures { IfOk result (λ rows. IfSome (R.remaining input) (λ text. rows ≡ length (records_of text) - 1)) }
{
    let mut records = Records::new(alloc, StepsReader(input));
    let mut fields = Record::new(alloc);
    'rows: for read in 0..u64::MAX {
        match records.next(&mut fields) {
            Ok(true) => {}
            Ok(false) => return Ok(read.saturating_sub(1)),
            Err(why) => return Err(why),
        }
    }
    Err(TraceFault::Read)
}
