//! The rows of a text, decided one after another: the finding of an audit, and the loop of reports.
ghost use Rattle.std.specs.Prelude.{◌≡◌, ◌++◌, ◌∷◌, [], ⊤, ℕ, Err, IfErr, IfOk, IfSome, List, None, Ok, OnOk, Option, false, option_map, true};
ghost use Rattle.std.specs.List.{cons_option};
ghost use Rattle.std.specs.Io.KnownBytes.{append_known};
ghost use Rattle.pie_explain.specs.Report.{Grows};
ghost use Rattle.pie_record.specs.Text.{TakesRow, records_of};
ghost use Rattle.pie_linux_history.specs.{Audit.Begins, Audit.Ends, Audit.HasFound, Audit.ReadsColumns, Audit.differences_of, Audit.finding_by, Audit.finding_of, Audit.has_failed, Audit.is_failure, Audit.outcome_after, Audit.outcome_of, Columns.columns_of, Known.HasRead, Known.Leaves, Known.TakesNext, LookBack.Entry, Reports.Writes};

use crate::columns::{Columns, out_of_memory};
use crate::fault::StepsFault;
use crate::queues::{Queues, StepDifference, StepsCounts};
use pie_record::{Page, Record, Records, TraceFault};
use std::alloc::{AllocError, Global};
use std::io;
use std::io::{Read, Write};

/// A reader of steps. It is a type of its own, so that the functions of pie_record that read histories have no further
/// caller, and are inlined.
#[derive(Drop)]
pub(crate) struct StepsReader<R: Read + Drop>(pub(crate) R);

impl<R: Read + Drop> Read for StepsReader<R> {
    ghost remaining = { λ it. R.remaining it.0 };

    fn read(&mut self, buf: &mut [u8]) -> io::Result<usize> {
        self.0.read(buf)
    }
}

/// The result of an audit of all rows.
#[derive(Clone, Copy)]
pub enum StepsFinding {
    /// No recorded number differs.
    Clean(StepsCounts),
    /// Steps differ.
    Differs {
        /// The first one.
        first: StepDifference,
        /// The number of steps that differ.
        count: u64,
    },
}

/// The most differences that are kept.
const MOST_KEPT: usize = 100;

/// The steps of a text that differ.
#[derive(Drop)]
pub struct Differences {
    /// Their number.
    pub count: u64,
    /// The first 100 of them, in the order of the text.
    pub first: Vec<StepDifference>,
}

impl Differences {
    /// Returns no differences.
    fn new(alloc: Global) -> Differences
        ensures { HasFound result [] }
    {
        Differences {
            count: 0,
            first: Vec::new(alloc),
        }
    }

    /// Adds the difference of a row, if it has one.
    fn add(&mut self, found: Option<StepDifference>) -> Result<(), AllocError>
        ensures { (all : List StepDifference) → HasFound self.old all → OnOk result (HasFound self.new (all ++ cons_option found [])) }
    {
        let Some(found) = found else {
            return Ok(());
        };
        self.count = self.count.saturating_add(1);
        if self.first.len() < MOST_KEPT {
            self.first.push(found)?;
        }
        Ok(())
    }

    /// Returns the finding of an audit of rows with these counts.
    fn finding(&self, counts: StepsCounts) -> StepsFinding
        ensures { (all : List StepDifference) → HasFound self.now all → result ≡ finding_by counts all }
    {
        match self.first.first() {
            None => StepsFinding::Clean(counts),
            Some(first) => StepsFinding::Differs {
                first: *first,
                count: self.count,
            },
        }
    }
}

/// The result of an audit of a text.
#[derive(Drop)]
pub struct StepsAudit {
    /// The finding, or the fault of the text.
    pub finding: Result<StepsFinding, StepsFault>,
    /// The differences, up to the fault.
    pub differences: Differences,
}

/// A report about the rows of a text, one after another. `shows state rows text` relates a state and the text so far to the
/// rows that the report has received.
pub(crate) trait RowReport {
    /// The state of a report between two rows.
    type State: Drop;

    ghost shows: { Self → Self.State → List Entry → List ℕ → Type 0 };

    /// Writes the text for the last row of `queues` onto a page.
    fn report_row(
        &self,
        state: &mut Self::State,
        queues: &Queues,
        page: &mut Page,
    ) -> Result<(), AllocError>
        ensures { (entries : List Entry) (entry : Entry) (text : List ℕ) → HasRead queues.now (entries ++ entry ∷ []) → Leaves queues.now entries entry
            → shows self.now state.old entries text
            → OnOk result (Grows (shows self.now state.new (entries ++ entry ∷ [])) text page.old page.new) };
}

/// The report of an audit: nothing.
#[derive(Clone, Copy)]
struct NoReport;

impl RowReport for NoReport {
    type State = ();

    ghost shows = { λ it state entries text. ⊤ };

    #[tactic(auto, using(crate::proofs::ReportFacts::grows_none))]
    fn report_row(
        &self,
        state: &mut (),
        queues: &Queues,
        page: &mut Page,
    ) -> Result<(), AllocError> {
        Ok(())
    }
}

/// Reads the first row.
pub(crate) fn read_columns<R: Read>(
    records: &mut Records<R>,
    fields: &mut Record,
) -> Result<Columns, StepsFault>
    ensures columns { IfSome records.old (λ rows. has_failed result ≡ false → ReadsColumns rows result records.new) }
    ensures row { OnOk result (TakesRow records.old true fields.new records.new) }
    ensures named { IfOk result (λ columns. columns_of fields.new ≡ Ok columns) }
{
    match records.first(fields) {
        Ok(()) => Columns::find(fields),
        Err(why) => Err(StepsFault::Trace(why)),
    }
}

/// Writes the text for the last row of `queues`, and writes the page out if it is full.
fn write_row<W: Write, P: RowReport>(
    report: &P,
    state: &mut P::State,
    queues: &Queues,
    page: &mut Page,
    writer: &mut W,
) -> Result<(), StepsFault>
    ensures row { (entries : List Entry) (entry : Entry) (before : Option (List ℕ)) → HasRead queues.now (entries ++ entry ∷ []) → Leaves queues.now entries entry
        → Writes (P.shows report.now state.old entries) before (append_known (W.contents writer.old) page.old)
        → OnOk result (Writes (P.shows report.now state.new (entries ++ entry ∷ [])) before (append_known (W.contents writer.new) page.new)) }
    ensures fails { IfErr result (λ why. is_failure why ≡ true) }
{
    let Ok(()) = report.report_row(state, queues, page) else {
        return Err(out_of_memory());
    };
    match page.write_if_full(writer) {
        Ok(()) => Ok(()),
        Err(_) => Err(StepsFault::Trace(TraceFault::Write)),
    }
}

/// The rows of a text that remain, with the queues of those before them.
#[derive(Drop)]
pub(crate) struct Text<'q, R: Read + Drop> {
    records: Records<StepsReader<R>>,
    columns: Columns,
    fields: Record,
    /// The only queue whose steps are decided, if there is one.
    queue: Option<&'q str>,
    queues: Queues,
    differences: Differences,
}

impl<'q, R: Read + Drop> Text<'q, R> {
    /// Reads the first row. With a `queue` only the steps of this queue are decided.
    ///
    /// # Errors
    ///
    /// The fault of the first row.
    pub(crate) fn begin(
        alloc: Global,
        input: R,
        queue: Option<&'q str>,
    ) -> Result<Text<'q, R>, StepsFault>
        ensures begins { IfOk result (λ text. (text.queue ≡ queue.entry) × HasRead text.queues [] × HasFound text.differences []
            × Begins (option_map (λ name. name.now) queue.entry) (option_map records_of (R.remaining input)) text.columns text.records) }
        ensures refuses { IfErr result (λ why. is_failure why ≡ false → IfSome (R.remaining input)
            (λ text. outcome_of (option_map (λ name. name.now) queue.entry) (records_of text) ≡ ([], Err why))) }
    {
        let mut records = Records::new(alloc, StepsReader(input));
        let mut fields = Record::new(alloc);
        let columns = match read_columns(&mut records, &mut fields) {
            Ok(columns) => columns,
            Err(why) => return Err(why),
        };
        Ok(Text {
            records,
            columns,
            fields,
            queue,
            queues: Queues::new(alloc),
            differences: Differences::new(alloc),
        })
    }

    /// Reads a row, and decides its step again. Returns `None` after the last row, and otherwise the first number of the
    /// step that differs.
    #[inline(never)]
    fn next(&mut self) -> Result<Option<Option<StepDifference>>, StepsFault>
        ensures kept { (self.new.columns ≡ self.old.columns) × (self.new.queue ≡ self.old.queue) × (self.new.differences ≡ self.old.differences) }
        ensures takes { (entries : List Entry) → HasRead self.old.queues entries → has_failed result ≡ false
            → TakesNext (option_map (λ name. name.now) self.old.queue) self.old.columns entries self.old.records result self.new.records self.new.queues }
    {
        match self.records.next(&mut self.fields) {
            Ok(true) => {}
            Ok(false) => return Ok(None),
            Err(why) => return Err(StepsFault::Trace(why)),
        }
        match self.queues.take(self.queue, &self.columns, &self.fields) {
            Ok(found) => Ok(Some(found)),
            Err(why) => Err(why),
        }
    }

    /// Decides all rows that remain, and reports those before the first fault.
    pub(crate) fn decide<W: Write, P: RowReport>(
        &mut self,
        report: &P,
        state: &mut P::State,
        page: &mut Page,
        writer: &mut W,
    ) -> Result<StepsFinding, StepsFault>
        ensures { (entries : List Entry) (before : Option (List ℕ)) → HasRead self.old.queues entries → HasFound self.old.differences (differences_of entries)
            → Writes (P.shows report.now state.old entries) before (append_known (W.contents writer.old) page.old) → has_failed result ≡ false
            → Ends (λ rows. HasFound self.new.differences (differences_of rows) × Writes (P.shows report.now state.new rows) before (append_known (W.contents writer.new) page.new))
            (outcome_after (option_map (λ name. name.now) self.old.queue) self.old.columns entries) self.old.records result }
    {
        'rows: for _ in 0..u64::MAX {
            match self.next() {
                Ok(Some(found)) => match self.differences.add(found) {
                    Ok(()) => match write_row(report, state, &self.queues, page, writer) {
                        Ok(()) => {}
                        Err(why) => return Err(why),
                    },
                    Err(_) => return Err(out_of_memory()),
                },
                Ok(None) => return Ok(self.differences.finding(self.queues.counts)),
                Err(why) => return Err(why),
            }
        }
        Err(StepsFault::Trace(TraceFault::Read))
    }
}

/// Audits a text of recorded steps: decides each step again by Linux's rules, and returns the steps with a recorded number that
/// differs, or the number of steps. After a step that differs, the steps of its queue are not decided until the queue's next row
/// `init` or `resume`. With a `queue` only the steps of this queue are decided.
///
/// # Errors
///
/// The fault of the first record that cannot be read, a missing column, a queue without its first step, a failure of the
/// reader, or of memory.
pub fn audit<R: Read + Drop>(alloc: Global, input: R, queue: Option<&str>) -> StepsAudit
    ensures finding { IfSome (R.remaining input) (λ text. has_failed result.finding ≡ false
        → result.finding ≡ finding_of (option_map (λ name. name.now) queue.entry) (records_of text)) }
    ensures differences { IfSome (R.remaining input) (λ text. has_failed result.finding ≡ false
        → HasFound result.differences (differences_of (outcome_of (option_map (λ name. name.now) queue.entry) (records_of text)).0)) }
{
    match Text::begin(alloc, input, queue) {
        Ok(mut text) => StepsAudit {
            finding: text.decide(&NoReport, &mut (), &mut Page::new(alloc), &mut io::sink()),
            differences: text.differences,
        },
        Err(why) => StepsAudit {
            finding: Err(why),
            differences: Differences::new(alloc),
        },
    }
}
