//! The interface of reports about explained events.
ghost use Rattle.std.specs.Prelude.{◌≡◌, ◌++◌, ◌∷◌, [], ℕ, List, IfOk, OnOk, if◌then◌else◌};
ghost use Rattle.pie_explain.specs.declared.explanation.Explained.{Explained};
ghost use Rattle.pie_explain.specs.{Record.header_of, Report.Extends, Report.Grows};

use crate::explanation::Explained;
use crate::form::Form;
use crate::record::{NAMES, RecordWriter};
use crate::text::{Written, push_text};
use pie_record::{Clock, Page};
use std::alloc::AllocError;

/// A report about explained events, one after another.
///
/// `shows state all` relates a state to the events that it has received. `so_far all text` relates the text before the
/// end to these events, and `whole all text` the whole text. A report in words states nothing of its text.
pub trait Report: Drop {
    /// The state of a report between two events.
    type State: Drop;

    ghost shows: { Self → Self.State → List Explained → Type 0 };

    ghost so_far: { Self → List Explained → List ℕ → Type 0 };

    ghost whole: { Self → List Explained → List ℕ → Type 0 };

    /// Returns true if arrivals, departures and other events have code of their own, which is faster if all of
    /// `report_event` is inlined.
    fn is_by_kind(&self) -> bool;

    /// Writes the text before the first event onto `page`.
    fn begin(&self, page: &mut Page) -> Result<Self::State, AllocError>
        ensures shown { IfOk result (λ state. shows self.now state []) }
        ensures written { OnOk result (Grows (so_far self.now []) [] page.old page.new) };

    /// Writes the text for one more event onto a page.
    fn report_event(
        &self,
        state: &mut Self::State,
        explained: &Explained,
        page: &mut Page,
    ) -> Result<(), AllocError>
        ensures { (all : List Explained) (text : List ℕ) → shows self.now state.old all → so_far self.now all text
            → OnOk result (shows self.now state.new (all ++ explained.now ∷ [])
            × Grows (so_far self.now (all ++ explained.now ∷ [])) text page.old page.new) };

    /// Writes the text after the last event onto `page`.
    fn end(&self, state: &Self::State, page: &mut Page) -> Result<(), AllocError>
        ensures { (all : List Explained) (text : List ℕ) → shows self.now state.now all → so_far self.now all text
            → OnOk result (Grows (whole self.now all) text page.old page.new) };
}

/// Writes these names and the end of their line.
fn push_names(page: &mut Page, names: &str, end: &str) -> Written
    ensures { OnOk result (page.new ≡ page.old ++ (names.now ++ end.now)) }
{
    page.push(names.as_bytes())?;
    page.push(end.as_bytes())
}

/// Writes the text before the first row of a report: for CSV the header row. `names` are the names of its fields,
/// separated by commas.
///
/// # Errors
///
/// Returns `AllocError` if memory is short.
pub(crate) fn push_header(page: &mut Page, names: &str, form: Form) -> Result<(), AllocError>
    ensures { OnOk result (page.new ≡ page.old ++ (if form.csv then header_of names.now form.by_wall else [])) }
{
    match (form.csv, form.by_wall) {
        (false, _) => Ok(()),
        (true, false) => push_names(page, names, "\n"),
        (true, true) => push_names(page, names, ",wall\n"),
    }
}

/// Writes an explanation in words onto `page`. With a `clock` its moments are written as wall-clock times.
///
/// # Errors
///
/// Returns `AllocError` if memory is short.
#[tactic(auto, using(crate::proofs::ReportFacts::extended_by))]
pub fn push_words(
    page: &mut Page,
    clock: Option<Clock>,
    explained: &Explained,
) -> Result<(), AllocError>
    ensures { OnOk result (Extends page.old page.new) }
{
    let mut text = page.words();
    push_text(&mut text, clock, explained)?;
    page.put(text)
}

/// The report of explanations as CSV: a header row, and one record for each event.
#[derive(Clone, Copy)]
pub struct EventRecords {
    /// With wall-clock times: each record has that of the effective moment as an additional last field.
    pub by_wall: bool,
}

/// The report of explanations in words.
#[derive(Clone, Copy)]
pub struct Words {
    /// With wall-clock times, which replace the moments after a clock record.
    pub by_wall: bool,
}

impl Report for EventRecords {
    type State = RecordWriter;

    ghost use Rattle.std.specs.Prelude.{⊤};
    ghost use Rattle.pie_explain.specs.Record.{IsRecords};

    ghost shows = { λ it state all. ⊤ };

    ghost so_far = { λ it. IsRecords it.by_wall };

    ghost whole = { λ it. IsRecords it.by_wall };

    #[inline(always)]
    fn is_by_kind(&self) -> bool {
        true
    }

    fn begin(&self, page: &mut Page) -> Result<RecordWriter, AllocError> {
        let (csv, by_wall) = (true, self.by_wall);
        push_header(page, NAMES, Form { csv, by_wall })?;
        Ok(RecordWriter::new())
    }

    #[inline(always)]
    #[tactic(auto, using(crate::proofs::RecordFacts::record_reported), unfolding(crate::specs::Record::explanation_text))]
    fn report_event(
        &self,
        state: &mut RecordWriter,
        explained: &Explained,
        page: &mut Page,
    ) -> Written {
        state.push(page, self.by_wall, explained)
    }

    #[tactic(auto, using(crate::proofs::ReportFacts::ended))]
    fn end(&self, state: &RecordWriter, page: &mut Page) -> Written {
        Ok(())
    }
}

impl Report for Words {
    type State = ();

    ghost use Rattle.std.specs.Prelude.{⊤};

    ghost shows = { λ it state all. ⊤ };

    ghost so_far = { λ it all text. ⊤ };

    ghost whole = { λ it all text. ⊤ };

    #[inline(always)]
    fn is_by_kind(&self) -> bool {
        false
    }

    #[tactic(auto, using(crate::proofs::ReportFacts::ended))]
    fn begin(&self, page: &mut Page) -> Written {
        Ok(())
    }

    #[tactic(auto, using(crate::proofs::ReportFacts::said_ok))]
    fn report_event(&self, state: &mut (), explained: &Explained, page: &mut Page) -> Written {
        let (csv, by_wall) = (false, self.by_wall);
        let form = Form { csv, by_wall };
        push_words(page, form.clock(explained.explanation.clock), explained)
    }

    #[tactic(auto, using(crate::proofs::ReportFacts::ended))]
    fn end(&self, state: &(), page: &mut Page) -> Written {
        Ok(())
    }
}
